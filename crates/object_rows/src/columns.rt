//! Rows of columns and of their defaults.
ghost use Rattle.std.specs.Prelude.{◌≡◌, ℕ, List, true, IfOk};
ghost use Rattle.cat_model.specs.declared.key.Key.TheVariants as key;
ghost use Rattle.cat_model.specs.declared.object.QName.{QName};
ghost use Rattle.cat_model.specs.declared.value.Column.{Column};
ghost use Rattle.cat_model.specs.Values.{Bytes};
ghost use Rattle.named_objects.specs.Oids.{ObjectOids, type_oid};
ghost use Rattle.named_objects.specs.Relations.{IsColumnRow, IsDefaultRow};
ghost use Rattle.good_texts.specs.Grammar.{grammar};

use crate::texts::type_text;
use cat_model::Column;
use cat_rows::{AttrdefRow, AttributeRow};
use copy_text::Text;
use std::alloc::{AllocError, Global};

/// The row of a column, by its table's oid, its number, and the oid of its user type; 0 where it is of another type. The only
/// error is want of memory. See <https://www.postgresql.org/docs/16/catalog-pg-attribute.html>.
#[tactic(auto, using(good_texts::proofs::Wholes::types_read))]
pub fn column_row(
    alloc: Global,
    table: u32,
    number: i64,
    of_type: u32,
    column: &Column,
) -> Result<AttributeRow, AllocError>
    ensures { IfOk result (λ row. (oids : ObjectOids) (q : QName) (columns : List Column) (place : ℕ) → oids.of (key.Rel q) ≡ table → oids.number q column.now.name ≡ number → type_oid oids.of column.now.type_name ≡ of_type → grammar.type column.now.type_name ≡ true → IsColumnRow oids (record { table = q; columns = columns; place = place; column = column.now }) row) }
{
    Ok(AttributeRow {
        attrelid: table,
        attnum: number,
        attname: column.name.clone()?,
        atttypid: of_type,
        typtext: type_text(alloc, &column.type_name)?,
        attnotnull: column.not_null,
    })
}

/// The row of a column's default, by its oid, its table's, and the column's number.
/// See <https://www.postgresql.org/docs/16/catalog-pg-attrdef.html>.
#[tactic(auto, using(good_texts::proofs::Wholes::defaults_read))]
pub fn default_row(oid: u32, table: u32, number: i64, text: &Text) -> Result<AttrdefRow, AllocError>
    ensures { IfOk result (λ row. (oids : ObjectOids) (q : QName) (column : Bytes) → oids.of (key.Default q column) ≡ oid → oids.of (key.Rel q) ≡ table → oids.number q column ≡ number → grammar.expression text.now ≡ true → IsDefaultRow oids (record { table = q; column = column; text = text.now }) row) }
{
    Ok(AttrdefRow {
        oid,
        adrelid: table,
        adnum: number,
        adexpr: text.clone()?,
    })
}
