//! The tables of parts of relations and types, and of comments.
ghost use Rattle.std.specs.Prelude.{◌≡◌, map, IfOk};
ghost use Rattle.std.specs.List.{AllByRecursion};
ghost use Rattle.std.specs.Map.Iter.{deref_pair};
ghost use Rattle.cat_model.specs.declared.key.Key.{Key as TheKey};
ghost use Rattle.cat_model.specs.declared.value.Value.{Value as TheValue};
ghost use Rattle.cat_sound.specs.Itself.{Itself};
ghost use Rattle.object_loops.specs.Oids.{with_numbers};
ghost use Rattle.object_loops.specs.Owning.{AreOwned};
ghost use Rattle.sound_texts.specs.Grammar.{grammar};
ghost use Rattle.whole_export.specs.Tables.{AreParts};

use cat_model::{Key, Value};
use cat_rows::{
    AttrdefRow, ConstraintRow, DescriptionRow, IndexRow, RewriteRow, Rows, SequenceRow,
};
use column_numbers::Numbers;
use eng_map::NamedMap;
use object_ids::Ids;
use object_loops::{
    body_rows, comment_rows, constraint_rows, default_rows, index_rows, sequence_rows,
};
use std::alloc::{AllocError, Global};

/// The rows of defaults, constraints, indexes, sequences, bodies of views, and comments.
#[derive(Drop)]
pub(crate) struct Parts {
    pub(crate) defaults: Rows<AttrdefRow>,
    pub(crate) constraints: Rows<ConstraintRow>,
    pub(crate) indexes: Rows<IndexRow>,
    pub(crate) sequences: Rows<SequenceRow>,
    pub(crate) bodies: Rows<RewriteRow>,
    pub(crate) comments: Rows<DescriptionRow>,
}

/// The tables of these entries.
pub(crate) fn part_tables(
    alloc: Global,
    named: &NamedMap,
    ids: &Ids,
    numbers: &Numbers,
    entries: &[(&Key, &Value)],
) -> Result<Parts, AllocError>
    ensures { IfOk result (λ made. AllByRecursion (λ e. Itself grammar e.0 e.1) (map (deref_pair {K = TheKey} {X = TheValue}) entries.now) → AreOwned named.now → AreParts named.now (with_numbers ids.now numbers.now) (map (deref_pair {K = TheKey} {X = TheValue}) entries.now) made.defaults made.constraints made.indexes made.sequences made.bodies made.comments) }
{
    let defaults = default_rows(alloc, ids, numbers, entries)?;
    let constraints = constraint_rows(alloc, ids, entries)?;
    let indexes = index_rows(alloc, ids, entries)?;
    let sequences = sequence_rows(alloc, ids, numbers, named, entries)?;
    let bodies = body_rows(alloc, ids, entries)?;
    let comments = comment_rows(alloc, ids, numbers, entries)?;
    Ok(Parts {
        defaults,
        constraints,
        indexes,
        sequences,
        bodies,
        comments,
    })
}
