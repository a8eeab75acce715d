//! Rows of indexes.
ghost use Rattle.std.specs.Prelude.{◌≡◌, true, IfOk};
ghost use Rattle.cat_model.specs.declared.key.Key.TheVariants as key;
ghost use Rattle.cat_model.specs.KeyEffects.{index_path};
ghost use Rattle.named_objects.specs.Relations.{IsIndexRow};
ghost use Rattle.named_tables.specs.Oids.{Oids};
ghost use Rattle.good_texts.specs.Grammar.{grammar};

use crate::texts::index_text;
use cat_model::{Index, QName};
use cat_rows::IndexRow;
use copy_text::Name;
use std::alloc::{AllocError, Global};

/// The row of an index, by its oid and its table's, of the table at this path. The only error is want of memory.
/// See <https://www.postgresql.org/docs/16/catalog-pg-index.html>.
#[tactic(auto, using(good_texts::proofs::Wholes::indexes_read))]
pub fn index_row(
    alloc: Global,
    oid: u32,
    table: u32,
    path: &QName,
    name: &Name,
    index: &Index,
) -> Result<IndexRow, AllocError>
    ensures { IfOk result (λ row. (oids : Oids) → oids (key.Rel (index_path path.now name.now)) ≡ oid → oids (key.Rel path.now) ≡ table → grammar.index path.now name.now index.now ≡ true → IsIndexRow oids (record { table = path.now; name = name.now; index = index.now }) row) }
{
    Ok(IndexRow {
        indexrelid: oid,
        indrelid: table,
        indisunique: index.unique,
        indexdef: index_text(alloc, path, name, index)?,
    })
}
