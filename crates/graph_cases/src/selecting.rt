//! The objects that a selection chooses, in their order, each with what it depends on.
use crate::labels::put_label;
use crate::options::select_of;
use cat_model::Sections;
use cat_rows::Catalogue;
use dep_sort::{OrderError, Ordered, order};
use graph_parts::{Graph, Obj, ObjId, ObjKind};
use obj_graph::{ObjectsError, Select, SelectFault};
use obj_links::objects;
use std::alloc::{AllocError, Global};
use well_formed::WellFormed;

/// The number of the first entry.
const FIRST: usize = 5;

// Whether an entry of the sections is made of the object.
fn has_entry(sections: &Sections, object: &Obj) -> bool {
    match object.kind {
        ObjKind::PreData | ObjKind::PostData => false,
        ObjKind::Schema
        | ObjKind::UserType
        | ObjKind::Table
        | ObjKind::View
        | ObjKind::Dummy
        | ObjKind::Sequence
        | ObjKind::Default => sections.pre,
        ObjKind::TableData | ObjKind::SeqValue => sections.rows,
        ObjKind::Constraint | ObjKind::Index | ObjKind::Rule | ObjKind::Foreign => sections.post,
    }
}

// The numbers of the entries, by the places of their objects.
fn numbers_of(
    alloc: Global,
    sections: &Sections,
    objects: &[Obj],
) -> Result<Vec<Option<usize>>, AllocError> {
    let mut numbers = Vec::new(alloc);
    let mut next = FIRST;
    for object in objects {
        if has_entry(sections, object) {
            numbers.push(Some(next))?;
            next = next.saturating_add(1);
        } else {
            numbers.push(None)?;
        }
    }
    Ok(numbers)
}

fn put_depends(
    alloc: Global,
    depends: &[u32],
    numbers: &[Option<usize>],
    out: &mut Vec<u8>,
) -> Result<(), AllocError> {
    out.extend_from_slice(b" (")?;
    let mut any = false;
    for place in depends {
        if let Some(Some(number)) = numbers.get(*place as usize) {
            let between = if any { " " } else { "" };
            out.extend_from_slice(format!(in alloc; "{between}{number}")?.as_bytes())?;
            any = true;
        }
    }
    out.extend_from_slice(b")")
}

fn put_ordered(
    alloc: Global,
    cat: &Catalogue,
    sections: &Sections,
    ordered: &Ordered,
    out: &mut Vec<u8>,
) -> Result<(), AllocError> {
    let numbers = numbers_of(alloc, sections, ordered.objects())?;
    let mut any = false;
    for (place, object) in ordered.objects().iter().enumerate() {
        if let Some(Some(number)) = numbers.get(place) {
            let between = if any { ", " } else { "" };
            out.extend_from_slice(format!(in alloc; "{between}{number} ")?.as_bytes())?;
            put_label(cat, object, out)?;
            put_depends(alloc, ordered.depends(place), &numbers, out)?;
            any = true;
        }
    }
    if !any {
        out.extend_from_slice(b"nothing")?;
    }
    Ok(())
}

// The ids of the objects along a loop.
fn put_loop(alloc: Global, path: &[ObjId], out: &mut Vec<u8>) -> Result<(), AllocError> {
    out.extend_from_slice(b"loop")?;
    for id in path {
        let shown = format!(in alloc; " ({}, {})", id.class, id.oid)?;
        out.extend_from_slice(shown.as_bytes())?;
    }
    Ok(())
}

fn put_graph(
    alloc: Global,
    cat: &Catalogue,
    sections: &Sections,
    graph: &Graph,
    out: &mut Vec<u8>,
) -> Result<(), AllocError> {
    match order(alloc, graph) {
        Ok(ordered) => put_ordered(alloc, cat, sections, &ordered, out),
        Err(OrderError::Memory) => Err(AllocError),
        Err(OrderError::Loop(path)) => put_loop(alloc, &path, out),
    }
}

fn put_fault(alloc: Global, fault: SelectFault, out: &mut Vec<u8>) -> Result<(), AllocError> {
    let place = match fault {
        SelectFault::NoSchemas(place) | SelectFault::NoTables(place) => place,
    };
    out.extend_from_slice(format!(in alloc; "no match for pattern {place}")?.as_bytes())
}

fn put_selected(
    alloc: Global,
    cat: &WellFormed,
    select: &Select,
    out: &mut Vec<u8>,
) -> Result<(), AllocError> {
    match objects(alloc, cat, select) {
        Ok(graph) => put_graph(alloc, cat.rows(), &select.sections, &graph, out),
        Err(ObjectsError::Fault(fault)) => put_fault(alloc, fault, out),
        Err(ObjectsError::Memory) => Err(AllocError),
    }
}

/// Appends the objects that a line of options chooses, in their order, each with its number and those of the ones that it
/// depends on; or which pattern hits nothing.
pub fn selected(
    alloc: Global,
    cat: &WellFormed,
    line: &str,
    out: &mut Vec<u8>,
) -> Result<(), AllocError> {
    match select_of(alloc, line)? {
        Some(select) => put_selected(alloc, cat, &select, out),
        None => out.extend_from_slice(b"?"),
    }
}
