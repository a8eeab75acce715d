//! Rows of comments.
ghost use Rattle.std.specs.Prelude.{◌≡◌, IfOk};
ghost use Rattle.cat_model.specs.declared.object.Object.{Object};
ghost use Rattle.named_objects.specs.Constraints.{IsCommentRow};
ghost use Rattle.named_objects.specs.Oids.{ObjectOids};
ghost use Rattle.object_rows.specs.Places.{IsPlacedOn};

use crate::parts::Place;
use cat_rows::DescriptionRow;
use copy_text::Text;
use std::alloc::AllocError;

// The oids of the system tables that hold the rows of objects with comments.
const PG_TYPE: u32 = 1247;

const PG_CLASS: u32 = 1259;

const PG_CONSTRAINT: u32 = 2606;

const PG_NAMESPACE: u32 = 2615;

/// The row of a comment. The only error is want of memory.
/// See <https://www.postgresql.org/docs/16/catalog-pg-description.html>.
pub fn comment_row(place: Place, text: &Text) -> Result<DescriptionRow, AllocError>
    ensures { IfOk result (λ row. (oids : ObjectOids) (o : Object) → IsPlacedOn oids o place → IsCommentRow oids (record { object = o; text = text.now }) row) }
{
    let (classoid, objoid, objsubid) = match place {
        Place::Schema(oid) => (PG_NAMESPACE, oid, 0),
        Place::Type(oid) => (PG_TYPE, oid, 0),
        Place::Relation(oid) => (PG_CLASS, oid, 0),
        Place::Column(column) => (PG_CLASS, column.relation, column.number),
        Place::Constraint(oid) => (PG_CONSTRAINT, oid, 0),
    };
    Ok(DescriptionRow {
        objoid,
        classoid,
        objsubid,
        description: text.clone()?,
    })
}
