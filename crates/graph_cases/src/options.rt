//! The options of a selection, as a case writes them.
use cat_model::{Items, Sections};
use obj_graph::Select;
use patterns::{Pattern, PatternReadError, pattern_read};
use std::alloc::{AllocError, Global};

/// The patterns and flags of a selection while they are read.
#[derive(Drop)]
struct Reading {
    schemas: Vec<Pattern>,
    not_schemas: Vec<Pattern>,
    tables: Vec<Pattern>,
    not_tables: Vec<Pattern>,
    not_table_data: Vec<Pattern>,
    schema_only: bool,
    data_only: bool,
    strict: bool,
    owners: bool,
    grants: bool,
    comments: bool,
    sections: Sections,
}

impl Reading {
    fn new(alloc: Global) -> Reading {
        Reading {
            schemas: Vec::new(alloc),
            not_schemas: Vec::new(alloc),
            tables: Vec::new(alloc),
            not_tables: Vec::new(alloc),
            not_table_data: Vec::new(alloc),
            schema_only: false,
            data_only: false,
            strict: false,
            owners: true,
            grants: true,
            comments: true,
            sections: Sections {
                pre: false,
                rows: false,
                post: false,
            },
        }
    }

    // A flag, where the word is one.
    fn flag(&mut self, word: &str) -> bool {
        match word {
            "-s" => self.schema_only = true,
            "-a" => self.data_only = true,
            "--strict-names" => self.strict = true,
            "--section=pre-data" => self.sections.pre = true,
            "--section=data" => self.sections.rows = true,
            "--section=post-data" => self.sections.post = true,
            "-O" => self.owners = false,
            "-x" => self.grants = false,
            "--no-comments" => self.comments = false,
            "all" => {}
            _ => return false,
        }
        true
    }

    // The list of the patterns behind this option.
    fn list(&mut self, option: &str) -> Option<&mut Vec<Pattern>> {
        match option {
            "-n" => Some(&mut self.schemas),
            "-N" => Some(&mut self.not_schemas),
            "-t" => Some(&mut self.tables),
            "-T" => Some(&mut self.not_tables),
            "--exclude-table-data" => Some(&mut self.not_table_data),
            _ => None,
        }
    }

    fn into_select(self) -> Select {
        let none = !self.sections.pre && !self.sections.rows && !self.sections.post;
        Select {
            schemas: Items::new(self.schemas),
            not_schemas: Items::new(self.not_schemas),
            tables: Items::new(self.tables),
            not_tables: Items::new(self.not_tables),
            not_table_data: Items::new(self.not_table_data),
            schema_only: self.schema_only,
            data_only: self.data_only,
            strict: self.strict,
            owners: self.owners,
            grants: self.grants,
            comments: self.comments,
            sections: Sections {
                pre: none || self.sections.pre,
                rows: none || self.sections.rows,
                post: none || self.sections.post,
            },
        }
    }
}

// The words of a line; a blank between double quotes ends none.
fn words_of(alloc: Global, line: &str) -> Result<Vec<&str>, AllocError> {
    let mut words = Vec::new(alloc);
    let mut start = 0;
    let mut quoted = false;
    for (i, byte) in line.as_bytes().iter().enumerate() {
        match byte {
            b'"' => quoted = !quoted,
            b' ' if !quoted => {
                if let Some(word) = line.get(start..i) {
                    words.push(word)?;
                }
                start = i.saturating_add(1);
            }
            _ => {}
        }
    }
    if let Some(word) = line.get(start..) {
        words.push(word)?;
    }
    Ok(words)
}

// Adds a pattern to the list of an option, and tells whether both are there.
fn add_pattern(
    alloc: Global,
    reading: &mut Reading,
    option: &str,
    text: &str,
) -> Result<bool, AllocError> {
    let Some(list) = reading.list(option) else {
        return Ok(false);
    };
    match pattern_read(alloc, text.as_bytes()) {
        Ok(pattern) => {
            list.push(pattern)?;
            Ok(true)
        }
        Err(PatternReadError::Fault(_)) => Ok(false),
        Err(PatternReadError::Memory) => Err(AllocError),
    }
}

// Reads a word; one that asks for a pattern is kept for the next.
fn read_word<'w>(
    alloc: Global,
    reading: &mut Reading,
    asked: Option<&'w str>,
    word: &'w str,
) -> Result<Option<Option<&'w str>>, AllocError> {
    if let Some(option) = asked {
        let added = add_pattern(alloc, reading, option, word)?;
        return Ok(added.then_some(None));
    }
    if reading.flag(word) || word.is_empty() {
        return Ok(Some(None));
    }
    match word.split_once('=') {
        Some((option, pattern)) => {
            let added = add_pattern(alloc, reading, option, pattern)?;
            Ok(added.then_some(None))
        }
        None => Ok(Some(Some(word))),
    }
}

/// The selection that a line says; `None` where it says none.
pub fn select_of(alloc: Global, line: &str) -> Result<Option<Select>, AllocError> {
    let words = words_of(alloc, line)?;
    let mut reading = Reading::new(alloc);
    let mut asked = None;
    for word in words.iter() {
        match read_word(alloc, &mut reading, asked, word)? {
            Some(next) => asked = next,
            None => return Ok(None),
        }
    }
    if asked.is_some() {
        return Ok(None);
    }
    Ok(Some(reading.into_select()))
}
