//! The options of a restore, as its words say them.
ghost use Rattle.std.specs.Prelude.{◌≡◌, IfOk};
ghost use Rattle.restore_words.specs.Words.{options_of, sections_of, format_of};

use cat_model::{Items, Sections};
use command_line::{Format, Names, RestoreWords, Section, SectionList};
use copy_text::Text;
use entry_choices::Options;
use restore_texts::ArchiveFormat;
use std::alloc::{AllocError, Global};

fn cloned(alloc: Global, names: &[Text]) -> Result<Vec<Text>, AllocError>
    ensures { IfOk result (λ copies. copies.items ≡ names.now) }
{
    let mut copies = Vec::with_capacity(alloc, names.len())?;
    for name in names {
        copies.push(name.clone()?)?;
    }
    Ok(copies)
}

fn names_of(alloc: Global, names: &Names) -> Result<Items<Text>, AllocError>
    ensures { IfOk result (λ items. items ≡ names.now) }
{
    Ok(Items::new(cloned(alloc, names.as_slice())?))
}

fn sections_of(sections: &SectionList) -> Sections
    ensures { result ≡ sections_of sections.now }
{
    Sections {
        pre: sections.takes(Section::PreData),
        rows: sections.takes(Section::Data),
        post: sections.takes(Section::PostData),
    }
}

/// Which entries pg_restore takes by its words, and what it makes of them. The error says that there was no memory.
/// <https://www.postgresql.org/docs/16/app-pgrestore.html>
pub fn restore_options(alloc: Global, words: &RestoreWords) -> Result<Options, AllocError>
    ensures { IfOk result (λ options. options ≡ options_of words.now) }
{
    let schemas = names_of(alloc, &words.schemas)?;
    let not_schemas = names_of(alloc, &words.exclude_schemas)?;
    let tables = names_of(alloc, &words.tables)?;
    Ok(Options {
        schema_only: words.schema_only,
        data_only: words.data_only,
        schemas,
        not_schemas,
        tables,
        owners: !words.no_owner,
        grants: !words.no_privileges,
        comments: !words.no_comments,
        sections: sections_of(&words.sections),
    })
}

/// The format of the archive that pg_restore's words ask for; where they ask for none the archive tells.
pub fn archive_format(format: Option<Format>) -> Option<ArchiveFormat>
    ensures { result ≡ format_of format }
{
    match format {
        Some(Format::Custom) => Some(ArchiveFormat::Custom),
        Some(Format::Directory) => Some(ArchiveFormat::Directory),
        Some(Format::Plain) | None => None,
    }
}
