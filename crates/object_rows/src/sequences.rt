//! Rows of sequences.
ghost use Rattle.std.specs.Prelude.{◌≡◌, pos, IfOk};
ghost use Rattle.std.specs.FinMap.{get};
ghost use Rattle.cat_model.specs.declared.key.Key.TheVariants as key;
ghost use Rattle.cat_model.specs.declared.object.QName.{QName};
ghost use Rattle.cat_model.specs.Values.{Named};
ghost use Rattle.named_objects.specs.Oids.{ObjectOids};
ghost use Rattle.named_objects.specs.Relations.{IsSequenceRow};
ghost use Rattle.object_rows.specs.Places.{place_or_none, IsOwningColumn};

use crate::parts::ColumnPlace;
use crate::texts::kind_text;
use cat_model::Sequence;
use cat_rows::SequenceRow;
use std::alloc::{AllocError, Global};

// The place of a column; one without a table where there is none.
fn place_or_none(owner: Option<ColumnPlace>) -> ColumnPlace
    ensures { result ≡ place_or_none owner }
{
    match owner {
        Some(place) => place,
        None => ColumnPlace {
            relation: 0,
            number: 0,
        },
    }
}

/// The row of a sequence with its value, and whether that was given out, and the column that owns it, where one does. The only
/// error is want of memory. See <https://www.postgresql.org/docs/16/catalog-pg-sequence.html>.
pub fn sequence_row(
    alloc: Global,
    oid: u32,
    sequence: &Sequence,
    last: i64,
    called: bool,
    owner: Option<ColumnPlace>,
) -> Result<SequenceRow, AllocError>
    ensures { IfOk result (λ row. (named : Named) (oids : ObjectOids) (q : QName) → oids.of (key.Rel q) ≡ oid → IsOwningColumn oids (get named (key.OwnedBy q)) owner → IsSequenceRow named oids (record { path = q; sequence = sequence.now; last = last; called = called }) row) }
{
    let place = place_or_none(owner);
    Ok(SequenceRow {
        seqrelid: oid,
        seqtype: kind_text(alloc, sequence.kind)?,
        seqstart: sequence.start,
        seqincrement: sequence.step,
        seqmax: sequence.max,
        seqmin: sequence.min,
        seqcache: sequence.cache,
        seqcycle: sequence.cycle,
        last_value: last,
        is_called: called,
        ownrel: place.relation,
        owncol: place.number,
    })
}
