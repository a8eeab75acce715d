//! What the words of a dump choose.
ghost use Rattle.std.specs.Prelude.{◌≡◌, map, IfOk};
ghost use Rattle.dump_plans.specs.Choosing.{patterns_of, sections_of, select_of};

use cat_model::{Items, Sections};
use command_line::{Choice, Patterns, Section, SectionList};
use obj_graph::Select;
use patterns::Pattern;
use std::alloc::{AllocError, Global};

/// The patterns of an option.
fn patterns_of(alloc: Global, patterns: Patterns) -> Result<Items<Pattern>, AllocError>
    ensures { IfOk result (λ items. items ≡ patterns_of patterns) }
{
    let found = patterns.into_patterns(alloc)?;
    Ok(Items::new(found))
}

/// The sections that are taken.
fn sections_of(sections: &SectionList) -> Sections
    ensures { result ≡ sections_of sections.now }
{
    Sections {
        pre: sections.takes(Section::PreData),
        rows: sections.takes(Section::Data),
        post: sections.takes(Section::PostData),
    }
}

/// What a dump chooses of a folder, where its words say this. The only error is want of memory.
pub fn select_of(alloc: Global, choice: Choice) -> Result<Select, AllocError>
    ensures { IfOk result (λ select. select ≡ select_of choice) }
{
    let Choice {
        data_only,
        schema_only,
        schemas,
        exclude_schemas,
        tables,
        exclude_tables,
        exclude_table_data,
        no_owner,
        no_privileges,
        no_comments,
        sections,
        strict_names,
    } = choice;
    let schemas = patterns_of(alloc, schemas)?;
    let not_schemas = patterns_of(alloc, exclude_schemas)?;
    let tables = patterns_of(alloc, tables)?;
    let not_tables = patterns_of(alloc, exclude_tables)?;
    let not_table_data = patterns_of(alloc, exclude_table_data)?;
    Ok(Select {
        schemas,
        not_schemas,
        tables,
        not_tables,
        not_table_data,
        schema_only,
        data_only,
        strict: strict_names,
        owners: !no_owner,
        grants: !no_privileges,
        comments: !no_comments,
        sections: sections_of(&sections),
    })
}
