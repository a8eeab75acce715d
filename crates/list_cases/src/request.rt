//! What is asked of an archive, as a case writes it.
use cat_model::{Items, Sections};
use copy_text::Text;
use entry_choices::Options;
use restore_texts::{ArchiveFormat, Wish};
use std::alloc::{AllocError, Global};

/// What is asked of an archive.
#[derive(Drop)]
pub(crate) struct Request<'a> {
    /// What is written.
    pub(crate) wish: Wish,
    /// The format that is asked for.
    pub(crate) format: Option<ArchiveFormat>,
    /// Which entries are chosen.
    pub(crate) options: Options,
    /// The list file.
    pub(crate) list: Option<&'a str>,
}

/// The names and flags of options while they are read.
#[derive(Drop)]
struct Reading {
    schemas: Vec<Text>,
    not_schemas: Vec<Text>,
    tables: Vec<Text>,
    schema_only: bool,
    data_only: bool,
    owners: bool,
    grants: bool,
    comments: bool,
    sections: Sections,
    format: Option<ArchiveFormat>,
}

impl Reading {
    fn new(alloc: Global) -> Reading {
        Reading {
            schemas: Vec::new(alloc),
            not_schemas: Vec::new(alloc),
            tables: Vec::new(alloc),
            schema_only: false,
            data_only: false,
            owners: true,
            grants: true,
            comments: true,
            sections: Sections {
                pre: false,
                rows: false,
                post: false,
            },
            format: None,
        }
    }

    // A flag, where the word is one.
    fn flag(&mut self, word: &str) -> bool {
        match word {
            "-s" => self.schema_only = true,
            "-a" => self.data_only = true,
            "-O" => self.owners = false,
            "-x" => self.grants = false,
            "--no-comments" => self.comments = false,
            "--section=pre-data" => self.sections.pre = true,
            "--section=data" => self.sections.rows = true,
            "--section=post-data" => self.sections.post = true,
            "-Fc" => self.format = Some(ArchiveFormat::Custom),
            "-Fd" => self.format = Some(ArchiveFormat::Directory),
            _ => return false,
        }
        true
    }

    // The list of the names behind this option.
    fn names(&mut self, option: &str) -> Option<&mut Vec<Text>> {
        match option {
            "-n" => Some(&mut self.schemas),
            "-N" => Some(&mut self.not_schemas),
            "-t" => Some(&mut self.tables),
            _ => None,
        }
    }

    fn into_options(self) -> Options {
        let none = !self.sections.pre && !self.sections.rows && !self.sections.post;
        Options {
            schema_only: self.schema_only,
            data_only: self.data_only,
            schemas: Items::new(self.schemas),
            not_schemas: Items::new(self.not_schemas),
            tables: Items::new(self.tables),
            owners: self.owners,
            grants: self.grants,
            comments: self.comments,
            sections: Sections {
                pre: none || self.sections.pre,
                rows: none || self.sections.rows,
                post: none || self.sections.post,
            },
        }
    }
}

// Adds a name to the list of an option, and tells whether there is such an option.
fn add_name(
    alloc: Global,
    reading: &mut Reading,
    option: &str,
    name: &str,
) -> Result<bool, AllocError> {
    let Some(names) = reading.names(option) else {
        return Ok(false);
    };
    let Some(text) = Text::new(name.as_bytes().to_vec(alloc)?) else {
        return Ok(false);
    };
    names.push(text)?;
    Ok(true)
}

// Reads a word; one that asks for a name is kept for the next.
fn read_word<'w>(
    alloc: Global,
    reading: &mut Reading,
    asked: Option<&'w str>,
    word: &'w str,
) -> Result<Option<Option<&'w str>>, AllocError> {
    if let Some(option) = asked {
        let added = add_name(alloc, reading, option, word)?;
        return Ok(added.then_some(None));
    }
    if reading.flag(word) {
        return Ok(Some(None));
    }
    Ok(Some(Some(word)))
}

// What these words say; `None` where they say nothing.
fn reading_of(alloc: Global, words: &str) -> Result<Option<Reading>, AllocError> {
    let mut reading = Reading::new(alloc);
    let mut asked = None;
    for word in words.split(' ') {
        if word.is_empty() {
            continue;
        }
        match read_word(alloc, &mut reading, asked, word)? {
            Some(next) => asked = next,
            None => return Ok(None),
        }
    }
    if asked.is_some() {
        return Ok(None);
    }
    Ok(Some(reading))
}

fn wish_of(word: &str) -> Option<Wish> {
    match word {
        "list" => Some(Wish::List),
        "script" => Some(Wish::Script),
        _ => None,
    }
}

/// What a request asks: `list` or `script`, options, and behind ` -L ` the text of a list file; `None` where it asks nothing.
pub(crate) fn request_of(alloc: Global, said: &str) -> Result<Option<Request<'_>>, AllocError> {
    let (front, list) = match said.split_once(" -L ") {
        Some((front, list)) => (front, Some(list)),
        None => (said, None),
    };
    let (word, words) = match front.split_once(' ') {
        Some((word, words)) => (word, words),
        None => (front, ""),
    };
    let Some(wish) = wish_of(word) else {
        return Ok(None);
    };
    let Some(reading) = reading_of(alloc, words)? else {
        return Ok(None);
    };
    let format = reading.format;
    let options = reading.into_options();
    Ok(Some(Request {
        wish,
        format,
        options,
        list,
    }))
}
