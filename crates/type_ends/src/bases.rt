//! What stands at the ends of chains.
ghost use Rattle.std.specs.Prelude.{◌≡◌, option_map, IfOk};
ghost use Rattle.cat_book.specs.Paths.{type_path};
ghost use Rattle.row_texts.specs.TypeTexts.{type_named};
ghost use Rattle.cat_book.specs.Leads.{type_oids};
ghost use Rattle.type_ends.specs.Bases.{end_at};
ghost use Rattle.type_ends.specs.Ends.{labels_of};
ghost use Rattle.type_ends.specs.Enums.{label_keys};
ghost use Rattle.type_ends.specs.Steps.{enum_base, other_base, base_at_end, is_place, base_at_place, bases_of};

use crate::ends::{Base, end_with};
use crate::enums::labels_of;
use crate::jumps::{Jump, is_domain};
use cat_book::Book;
use cat_model::{Resolved, TypeName};
use cat_names::OidIndex;
use cat_rows::TypeRow;
use copy_text::Text;
use oid_groups::Groups;
use row_texts::type_named;
use std::alloc::{AllocError, Global};

// An enum, where its schema is there.
fn enum_base<'a>(
    alloc: Global,
    book: &Book<'a>,
    labels: &Groups,
    row: &TypeRow,
) -> Result<Option<Base<'a>>, AllocError>
    requires { labels.now ≡ label_keys book.now.pg_enum }
    ensures { IfOk result (λ base. base ≡ option_map (λ path. enum_base path (labels_of book.now row.now.oid)) (type_path book.now.pg_namespace row.now)) }
{
    let Some(path) = book.type_path(row)? else {
        return Ok(None);
    };
    let labels = labels_of(alloc, book.tables(), labels, row.oid)?;
    Ok(Some(Base {
        type_name: TypeName::Path(path),
        labels: Some(labels),
    }))
}

// The type that a text names, which has no row.
fn other_base<'a>(alloc: Global, text: &Text) -> Result<Option<Base<'a>>, AllocError>
    ensures { IfOk result (λ base. base ≡ option_map other_base (type_named text.now)) }
{
    match type_named(alloc, text.as_bytes())? {
        Some(type_name) => Ok(Some(Base {
            type_name,
            labels: None,
        })),
        None => Ok(None),
    }
}

// What a chain that ends with a type has at its end.
fn base_at_end<'a>(
    alloc: Global,
    book: &Book<'a>,
    labels: &Groups,
    row: &TypeRow,
) -> Result<Option<Base<'a>>, AllocError>
    requires { labels.now ≡ label_keys book.now.pg_enum }
    ensures { IfOk result (λ base. base ≡ base_at_end book.now row.now) }
{
    if !is_domain(row) {
        enum_base(alloc, book, labels, row)
    } else if row.typbasetype == 0 {
        other_base(alloc, &row.basetext)
    } else {
        Ok(None)
    }
}

fn is_place(place: usize, other: Option<usize>) -> bool
    ensures { result ≡ is_place place other }
{
    match other {
        Some(other) => other == place,
        None => false,
    }
}

// The same at the place of the type, where it is the first of its oid.
#[tactic(auto, unfolding(crate::specs::Steps::base_at_place))]
fn base_at_place<'a>(
    alloc: Global,
    book: &Book<'a>,
    oids: &OidIndex,
    labels: &Groups,
    place: usize,
    row: &TypeRow,
) -> Result<Option<Base<'a>>, AllocError>
    requires oids { oids.now ≡ type_oids book.now.pg_type }
    requires labels { labels.now ≡ label_keys book.now.pg_enum }
    ensures { IfOk result (λ base. base ≡ base_at_place book.now place row.now) }
{
    if is_place(place, oids.find(row.oid)) {
        base_at_end(alloc, book, labels, row)
    } else {
        Ok(None)
    }
}

/// What stands at the end of each chain, by the place of its last type.
pub(crate) fn bases<'a>(
    alloc: Global,
    book: &Book<'a>,
    oids: &OidIndex,
    labels: &Groups,
) -> Result<Vec<Option<Base<'a>>>, AllocError>
    requires oids { oids.now ≡ type_oids book.now.pg_type }
    requires labels { labels.now ≡ label_keys book.now.pg_enum }
    ensures { IfOk result (λ bases. bases.items ≡ bases_of book.now) }
{
    let rows = book.tables().pg_type.as_slice();
    let mut bases = Vec::new(alloc);
    for (place, row) in rows.iter().enumerate() {
        let base = base_at_place(alloc, book, oids, labels, place, row)?;
        bases.push(base)?;
    }
    Ok(bases)
}

/// The end to which a jump leads; `None` where there is none.
pub(crate) fn end_at(
    alloc: Global,
    bases: &[Option<Base<'_>>],
    jump: Jump,
) -> Result<Option<Resolved>, AllocError>
    ensures { IfOk result (λ end. end ≡ end_at bases.now jump) }
{
    match bases.get(jump.place) {
        Some(Some(base)) => Ok(Some(end_with(alloc, jump.not_null, base)?)),
        _ => Ok(None),
    }
}
