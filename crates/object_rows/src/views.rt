//! Rows of bodies of views.
ghost use Rattle.std.specs.Prelude.{◌≡◌, true, IfOk};
ghost use Rattle.cat_model.specs.declared.key.Key.TheVariants as key;
ghost use Rattle.cat_model.specs.declared.object.QName.{QName};
ghost use Rattle.named_objects.specs.Relations.{IsBodyRow};
ghost use Rattle.named_tables.specs.Oids.{Oids};
ghost use Rattle.good_texts.specs.Grammar.{grammar};

use crate::texts::body_text;
use cat_rows::RewriteRow;
use copy_text::Text;
use std::alloc::{AllocError, Global};

/// The row of the body of a view, by its oid and the view's. The only error is want of memory.
/// See <https://www.postgresql.org/docs/16/catalog-pg-rewrite.html>.
#[tactic(auto, using(good_texts::proofs::Wholes::bodies_read))]
pub fn body_row(alloc: Global, oid: u32, view: u32, body: &Text) -> Result<RewriteRow, AllocError>
    ensures { IfOk result (λ row. (oids : Oids) (q : QName) → oids (key.Body q) ≡ oid → oids (key.Rel q) ≡ view → grammar.body body.now ≡ true → IsBodyRow oids (record { view = q; body = body.now }) row) }
{
    Ok(RewriteRow {
        oid,
        ev_class: view,
        viewdef: body_text(alloc, body)?,
    })
}
