//! The places of objects in the first order, and in that of their ids.
ghost use Rattle.std.specs.Prelude.{◌≡◌, ◌<◌, length, All, IfOk, map};
ghost use Rattle.std.specs.List.{enumerate_from};
ghost use Rattle.dep_sort.specs.FirstOrder.{priority, name_bytes, first_cmp, id_cmp, first_places, id_places};

use copy_text::Name;
use graph_parts::{Obj, ObjKind};
use std::alloc::{AllocError, Global};
use std::cmp::Ordering;

/// The places of these objects, counted from 0, in the first order: by kinds, then by names, a default's column and oids.
/// Objects that tie stay as they stand. The only error is that memory ran out.
pub fn first_places(alloc: Global, objects: &[Obj]) -> Result<Vec<usize>, AllocError>
    ensures value { IfOk result (λ places. places.items ≡ first_places objects.now) }
    ensures count { IfOk result (λ places. length places.items ≡ length objects.now) }
    ensures within { IfOk result (λ places. All (λ place. place < length objects.now) places.items) }
{
    let mut entries = numbered(alloc, objects)?;
    entries.sort_by(|a, b| first_cmp(a.1, b.1))?;
    places_of(alloc, &entries)
}

/// The places of these objects, counted from 0, by class and oid. Objects that tie stay as they stand. The only error is
/// that memory ran out.
pub fn id_places(alloc: Global, objects: &[Obj]) -> Result<Vec<usize>, AllocError>
    ensures value { IfOk result (λ places. places.items ≡ id_places objects.now) }
    ensures count { IfOk result (λ places. length places.items ≡ length objects.now) }
    ensures within { IfOk result (λ places. All (λ place. place < length objects.now) places.items) }
{
    let mut entries = numbered(alloc, objects)?;
    entries.sort_by(|a, b| id_cmp(a.1, b.1))?;
    places_of(alloc, &entries)
}

fn numbered(alloc: Global, objects: &[Obj]) -> Result<Vec<(usize, &Obj)>, AllocError>
    ensures { IfOk result (λ entries. map (λ e. (e.0, e.1.now)) entries.items ≡ enumerate_from 0 objects.now) }
{
    let mut entries = Vec::new(alloc);
    for (place, object) in objects.iter().enumerate() {
        entries.push((place, object))?;
    }
    Ok(entries)
}

fn places_of(alloc: Global, entries: &[(usize, &Obj)]) -> Result<Vec<usize>, AllocError>
    ensures { IfOk result (λ places. places.items ≡ map (λ e. e.0) entries.now) }
{
    let mut places = Vec::new(alloc);
    for entry in entries {
        places.push(entry.0)?;
    }
    Ok(places)
}

#[tactic(auto, unfolding(crate::specs::FirstOrder::first_cmp))]
fn first_cmp(a: &Obj, b: &Obj) -> Ordering
    ensures { result ≡ first_cmp a.now b.now }
{
    let kinds = priority(a.kind).cmp(&priority(b.kind));
    let schemas = name_bytes(&a.schema).cmp(name_bytes(&b.schema));
    let names = name_bytes(&a.name).cmp(name_bytes(&b.name));
    let columns = a.attnum.cmp(&b.attnum);
    let oids = a.id.oid.cmp(&b.id.oid);
    kinds.then(schemas.then(names.then(columns.then(oids))))
}

#[tactic(auto, unfolding(crate::specs::FirstOrder::id_cmp))]
fn id_cmp(a: &Obj, b: &Obj) -> Ordering
    ensures { result ≡ id_cmp a.now.id b.now.id }
{
    a.id.class.cmp(&b.id.class).then(a.id.oid.cmp(&b.id.oid))
}

// No name is the empty one.
fn name_bytes(name: &Option<Name>) -> &[u8]
    ensures { result.now ≡ name_bytes name.now }
{
    match name {
        Some(name) => name.as_bytes(),
        None => &[],
    }
}

fn priority(kind: ObjKind) -> u8
    ensures { result ≡ priority kind }
{
    match kind {
        ObjKind::Schema => 0,
        ObjKind::UserType => 1,
        ObjKind::Table | ObjKind::View | ObjKind::Dummy | ObjKind::Sequence => 2,
        ObjKind::Default => 3,
        ObjKind::PreData => 4,
        ObjKind::TableData => 5,
        ObjKind::SeqValue => 6,
        ObjKind::PostData => 7,
        ObjKind::Constraint => 8,
        ObjKind::Index => 9,
        ObjKind::Rule => 10,
        ObjKind::Foreign => 11,
    }
}
