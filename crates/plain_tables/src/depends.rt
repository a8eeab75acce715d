//! The conditions of pg_depend.
ghost use Rattle.std.specs.Prelude.{◌≡◌};
ghost use Rattle.plain_tables.specs.Depends.{dependency_left_out, depend_left_out, depend_rules};

use cat_book::{Book, Conditions, RowKeys, Unmet};
use cat_model::What;
use cat_names::RelationKind;
use cat_rows::DependRow;
use std::alloc::{AllocError, Global};

/// The class of relations among the system tables.
const CLASS_OF_RELATIONS: u32 = 1259;

// What a dependency between relations of these kinds is, where it is left out.
fn dependency_left_out(
    from: Option<RelationKind>,
    on: Option<RelationKind>,
    row: &DependRow,
) -> Option<What>
    ensures { result ≡ dependency_left_out from on row.now.objsubid row.now.deptype }
{
    match (from, on) {
        (Some(RelationKind::Sequence), Some(RelationKind::Table)) => {
            if row.deptype.byte() == b'i' {
                Some(What::Identity)
            } else {
                None
            }
        }
        (Some(RelationKind::Table), Some(RelationKind::Table)) => {
            if row.objsubid == 0 {
                Some(What::Inheritance)
            } else {
                None
            }
        }
        _ => None,
    }
}

fn depend_left_out(book: &Book<'_>, row: &DependRow) -> Option<What>
    ensures { result ≡ depend_left_out book.now row.now }
{
    if row.classid == CLASS_OF_RELATIONS && row.refclassid == CLASS_OF_RELATIONS {
        dependency_left_out(book.kind_of(row.objid), book.kind_of(row.refobjid), row)
    } else {
        None
    }
}

/// pg_depend: no identity columns, and no tables that inherit.
/// <https://www.postgresql.org/docs/16/catalog-pg-depend.html>
pub struct Depends {}

impl<'b> Conditions<Book<'b>> for Depends {
    type Row = DependRow;

    ghost rules = { depend_rules };

    fn keys(_row: &DependRow) -> RowKeys<'_>
        ensures { result ≡ depend_rules.keys _row.now }
    {
        RowKeys {
            oid: None,
            name: None,
            place: None,
            is_marked: false,
        }
    }

    fn unmet(_alloc: Global, book: &Book<'b>, row: &DependRow) -> Result<Unmet, AllocError> {
        Ok(Unmet {
            dangles: false,
            is_bad: false,
            left_out: depend_left_out(book, row),
        })
    }

    fn needed(_book: &Book<'b>) -> bool {
        true
    }
}
