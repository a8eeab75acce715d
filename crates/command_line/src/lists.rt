//! Lists of values, for options that add up.
ghost use Rattle.std.specs.Prelude.{◌≡◌, [], ◌∷◌, ◌++◌, map, IfOk, OnOk, OnErr};
ghost use Rattle.command_line.specs.Sections.{is_same, is_among, is_chosen};

use crate::values::Section;
use copy_text::Text;
use patterns::Pattern;
use std::alloc::{AllocError, Global};
use std::marker::Model;

/// A pattern, with the word or the part of a word that it was read from.
#[derive(Drop)]
pub struct PatternWord {
    /// As it was written.
    pub text: Text,
    /// What it hits.
    pub pattern: Pattern,
}

/// Patterns, in the order of their mention. A contract sees them as their list.
#[derive(Drop)]
pub struct Patterns {
    patterns: Vec<PatternWord>,
}

impl Model for Patterns {
    ghost use Rattle.std.specs.Prelude.{List};
    ghost use Rattle.command_line.specs.declared.lists.PatternWord.{PatternWord};

    ghost Value = { List PatternWord };

    ghost view = { λ p. p.patterns.items };
}

impl Patterns {
    /// No patterns.
    pub(crate) fn new(alloc: Global) -> Patterns
        ensures { result ≡ [] }
    {
        Patterns {
            patterns: Vec::new(alloc),
        }
    }

    /// Adds a pattern at the end.
    pub(crate) fn push(&mut self, pattern: PatternWord) -> Result<(), AllocError>
        ensures ok { OnOk result (self.new ≡ self.old ++ pattern ∷ []) }
        ensures err { OnErr result (self.new ≡ self.old) }
    {
        self.patterns.push(pattern)?;
        Ok(())
    }

    /// The patterns.
    pub fn as_slice(&self) -> &[PatternWord]
        ensures { result.now ≡ self.now }
    {
        &self.patterns
    }

    /// What the patterns hit, without their words.
    pub fn into_patterns(self, alloc: Global) -> Result<Vec<Pattern>, AllocError>
        ensures { IfOk result (λ patterns. patterns.items ≡ map (λ word. word.pattern) self) }
    {
        let mut patterns = Vec::new(alloc);
        let mut left = self.patterns.into_iter();
        'words: while let Some(word) = left.next() {
            patterns.push(word.pattern)?;
        }
        Ok(patterns)
    }
}

/// Names that are taken as they are, in the order of their mention. A contract sees them as the list of their bytes.
#[derive(Drop)]
pub struct Names {
    names: Vec<Text>,
}

impl Model for Names {
    ghost use Rattle.std.specs.Prelude.{List, ℕ};

    ghost Value = { List (List ℕ) };

    ghost view = { λ n. n.names.items };
}

impl Names {
    /// No names.
    pub(crate) fn new(alloc: Global) -> Names
        ensures { result ≡ [] }
    {
        Names {
            names: Vec::new(alloc),
        }
    }

    /// Adds a name at the end.
    pub(crate) fn push(&mut self, name: Text) -> Result<(), AllocError>
        ensures ok { OnOk result (self.new ≡ self.old ++ name ∷ []) }
        ensures err { OnErr result (self.new ≡ self.old) }
    {
        self.names.push(name)?;
        Ok(())
    }

    /// The names.
    pub fn as_slice(&self) -> &[Text]
        ensures { result.now ≡ self.now }
    {
        &self.names
    }
}

/// Sections, in the order of their mention. None stands for all three. A contract sees them as their list.
#[derive(Drop)]
pub struct SectionList {
    sections: Vec<Section>,
}

impl Model for SectionList {
    ghost use Rattle.std.specs.Prelude.{List};
    ghost use Rattle.command_line.specs.declared.values.Section.{Section};

    ghost Value = { List Section };

    ghost view = { λ s. s.sections.items };
}

impl SectionList {
    /// No sections, which stands for all.
    pub(crate) fn new(alloc: Global) -> SectionList
        ensures { result ≡ [] }
    {
        SectionList {
            sections: Vec::new(alloc),
        }
    }

    /// Adds a section at the end.
    pub(crate) fn push(&mut self, section: Section) -> Result<(), AllocError>
        ensures ok { OnOk result (self.new ≡ self.old ++ section ∷ []) }
        ensures err { OnErr result (self.new ≡ self.old) }
    {
        self.sections.push(section)?;
        Ok(())
    }

    /// The sections.
    pub fn as_slice(&self) -> &[Section]
        ensures { result.now ≡ self.now }
    {
        &self.sections
    }

    /// Whether a section is taken: it was named, or none was.
    pub fn takes(&self, section: Section) -> bool
        ensures { result ≡ is_chosen section self.now }
    {
        self.sections.is_empty() || is_among(section, &self.sections)
    }
}

/// Whether a section is one of some.
fn is_among(section: Section, sections: &[Section]) -> bool
    ensures { result ≡ is_among section sections.now }
{
    sections.iter().any(|other| is_same(section, *other))
}

/// Whether two sections are one.
fn is_same(section: Section, other: Section) -> bool
    ensures { result ≡ is_same section other }
{
    matches!(
        (section, other),
        (Section::PreData, Section::PreData)
            | (Section::Data, Section::Data)
            | (Section::PostData, Section::PostData)
    )
}
