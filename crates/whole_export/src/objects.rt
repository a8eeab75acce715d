//! The tables of types and relations.
ghost use Rattle.std.specs.Prelude.{◌≡◌, map, IfOk};
ghost use Rattle.std.specs.List.{AllByRecursion};
ghost use Rattle.std.specs.Map.Iter.{deref_pair};
ghost use Rattle.cat_model.specs.declared.key.Key.{Key as TheKey};
ghost use Rattle.cat_model.specs.declared.value.Value.{Value as TheValue};
ghost use Rattle.cat_sound.specs.Itself.{Itself};
ghost use Rattle.object_loops.specs.Oids.{with_numbers};
ghost use Rattle.sound_texts.specs.Grammar.{grammar};
ghost use Rattle.whole_export.specs.Tables.{AreObjects};

use cat_model::{Key, Value};
use cat_rows::{AttributeRow, ClassRow, EnumRow, Rows, TypeRow};
use column_numbers::Numbers;
use eng_map::NamedMap;
use object_ids::Ids;
use object_loops::{column_rows, label_rows};
use relation_loops::{relation_rows, type_rows};
use std::alloc::{AllocError, Global};

/// The rows of types, labels, relations and columns of tables.
#[derive(Drop)]
pub(crate) struct Objects {
    pub(crate) types: Rows<TypeRow>,
    pub(crate) labels: Rows<EnumRow>,
    pub(crate) relations: Rows<ClassRow>,
    pub(crate) columns: Rows<AttributeRow>,
}

/// The tables of these entries.
pub(crate) fn object_tables(
    alloc: Global,
    named: &NamedMap,
    ids: &Ids,
    numbers: &Numbers,
    entries: &[(&Key, &Value)],
) -> Result<Objects, AllocError>
    ensures { IfOk result (λ made. AllByRecursion (λ e. Itself grammar e.0 e.1) (map (deref_pair {K = TheKey} {X = TheValue}) entries.now) → AreObjects named.now (with_numbers ids.now numbers.now) (map (deref_pair {K = TheKey} {X = TheValue}) entries.now) made.types made.labels made.relations made.columns) }
{
    let types = type_rows(alloc, ids, named, entries)?;
    let labels = label_rows(alloc, ids, entries)?;
    let relations = relation_rows(alloc, ids, named, entries)?;
    let columns = column_rows(alloc, ids, numbers, entries)?;
    Ok(Objects {
        types,
        labels,
        relations,
        columns,
    })
}
