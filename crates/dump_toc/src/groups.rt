//! The entries of all objects, without their numbers.
ghost use Rattle.std.specs.Prelude.{◌≡◌, ◌<◌, [], ◌∷◌, ◌++◌, Some, length, map, filter_map, option_map, IfOk, OnOk};
ghost use Rattle.std.specs.List.{enumerate_from, flat_map, slice_index_or};
ghost use Rattle.std.specs.Option.{option_to_list};
ghost use Rattle.dep_sort.specs.Cut.{is_default};
ghost use Rattle.obj_graph.specs.Closed.{is_in_sections};
ghost use Rattle.dump_toc.specs.Drafts.{owned_drafts_of};
ghost use Rattle.dump_toc.specs.Toc.{standing_of, comment_drafts, drafts_at, taken_at, counts_of, granted_at, grants_of, drafts_of};

use crate::comments::add_comments;
use crate::draft::{Draft, push_some};
use crate::drafts::{object_draft, owned_draft};
use crate::grants::rights_draft;
use cat_model::Sections;
use cat_names::OidIndex;
use dep_sort::Ordered;
use dump_rows::DumpRows;
use graph_parts::{Obj, ObjKind};
use obj_graph::Select;
use std::alloc::{AllocError, Global};

// Whether the entry of an object of a kind stands in one of these sections; the boundaries have none.
fn is_in_sections(sections: &Sections, kind: ObjKind) -> bool
    ensures { result ≡ is_in_sections sections.now kind }
{
    match kind {
        ObjKind::Schema
        | ObjKind::UserType
        | ObjKind::Table
        | ObjKind::View
        | ObjKind::Dummy
        | ObjKind::Sequence
        | ObjKind::Default => sections.pre,
        ObjKind::TableData | ObjKind::SeqValue => sections.rows,
        ObjKind::Constraint | ObjKind::Index | ObjKind::Rule | ObjKind::Foreign => sections.post,
        ObjKind::PreData | ObjKind::PostData => false,
    }
}

// A place as a number of 32 bits, which no place of a dump passes.
fn number_of(place: usize) -> Result<u32, AllocError>
    ensures { IfOk result (λ number. number ≡ place) }
{
    match u32::try_from(place) {
        Ok(number) => Ok(number),
        Err(_) => Err(AllocError),
    }
}

// ---- an object with what follows it

// Adds the comments on an object, where they are taken.
fn add_chosen_comments(
    alloc: Global,
    rows: &DumpRows<'_>,
    select: &Select,
    object: &Obj,
    place: u32,
    drafts: &mut Vec<Draft>,
) -> Result<(), AllocError>
    ensures { OnOk result (drafts.new.items ≡ drafts.old.items ++ comment_drafts rows.now select.now object.now place) }
{
    if select.comments {
        add_comments(alloc, rows, object, place, drafts)
    } else {
        Ok(())
    }
}

// Adds the column that owns a sequence, where one does.
fn add_owner(
    alloc: Global,
    rows: &DumpRows<'_>,
    objects: &[Obj],
    object: &Obj,
    needs: &[u32],
    place: u32,
    drafts: &mut Vec<Draft>,
) -> Result<(), AllocError>
    ensures { OnOk result (drafts.new.items ≡ drafts.old.items ++ option_to_list (owned_drafts_of rows.now objects.now object.now needs.now place object.now.kind)) }
{
    let draft = owned_draft(alloc, rows, objects, object, needs, place)?;
    push_some(drafts, draft)
}

// The drafts of the object at a place: its own, the column that owns a sequence, and the comments.
fn drafts_at(
    alloc: Global,
    rows: &DumpRows<'_>,
    select: &Select,
    standing: &OidIndex,
    ordered: &Ordered,
    place: usize,
    object: &Obj,
) -> Result<Vec<Draft>, AllocError>
    requires { place < length ordered.now.objects }
    ensures { IfOk result (λ drafts. drafts.items ≡ drafts_at rows.now select.now standing.now ordered.now place object.now) }
{
    let needs = ordered.depends(place);
    let number = number_of(place)?;
    let mut drafts = Vec::new(alloc);
    let draft = object_draft(alloc, rows, standing, object, needs)?;
    drafts.push(draft)?;
    add_owner(
        alloc,
        rows,
        ordered.objects(),
        object,
        needs,
        number,
        &mut drafts,
    )?;
    add_chosen_comments(alloc, rows, select, object, number, &mut drafts)?;
    Ok(drafts)
}

// The same, where its section is taken.
#[tactic(auto, unfolding(crate::specs::Toc::taken_at))]
fn taken_at(
    alloc: Global,
    rows: &DumpRows<'_>,
    select: &Select,
    standing: &OidIndex,
    ordered: &Ordered,
    place: usize,
    object: &Obj,
) -> Result<Vec<Draft>, AllocError>
    requires { place < length ordered.now.objects }
    ensures { IfOk result (λ drafts. drafts.items ≡ taken_at rows.now select.now standing.now ordered.now (place, object.now)) }
{
    if is_in_sections(&select.sections, object.kind) {
        drafts_at(alloc, rows, select, standing, ordered, place, object)
    } else {
        Ok(Vec::new(alloc))
    }
}

/// The drafts of the objects one after another, and of each how many it has.
#[derive(Drop)]
pub(crate) struct Drafts {
    pub(crate) drafts: Vec<Draft>,
    pub(crate) counts: Vec<usize>,
}

// Adds the drafts of one object more.
fn add_group(groups: &mut Drafts, group: Vec<Draft>) -> Result<(), AllocError>
    ensures drafts { OnOk result (groups.new.drafts.items ≡ groups.old.drafts.items ++ group.items) }
    ensures counts { OnOk result (groups.new.counts.items ≡ groups.old.counts.items ++ length group.items ∷ []) }
{
    let mut group = group;
    groups.counts.push(group.len())?;
    groups.drafts.append(&mut group)
}

// The drafts of all objects, with their comments.
fn groups_of(
    alloc: Global,
    rows: &DumpRows<'_>,
    select: &Select,
    standing: &OidIndex,
    ordered: &Ordered,
) -> Result<Drafts, AllocError>
    ensures drafts { IfOk result (λ groups. groups.drafts.items ≡ flat_map (taken_at rows.now select.now standing.now ordered.now) (enumerate_from 0 ordered.now.objects)) }
    ensures counts { IfOk result (λ groups. groups.counts.items ≡ map (λ e. length (taken_at rows.now select.now standing.now ordered.now e)) (enumerate_from 0 ordered.now.objects)) }
{
    let mut groups = Drafts {
        drafts: Vec::new(alloc),
        counts: Vec::new(alloc),
    };
    let objects = ordered.objects();
    for (place, object) in objects.iter().enumerate() {
        let group = taken_at(alloc, rows, select, standing, ordered, place, object)?;
        add_group(&mut groups, group)?;
    }
    Ok(groups)
}

// ---- grants

// Adds the grants on the object at a place, where its section is taken.
#[tactic(auto, unfolding(crate::specs::Toc::granted_at))]
fn add_granted_at(
    alloc: Global,
    rows: &DumpRows<'_>,
    select: &Select,
    place: usize,
    object: &Obj,
    drafts: &mut Vec<Draft>,
) -> Result<(), AllocError>
    ensures { OnOk result (drafts.new.items ≡ drafts.old.items ++ option_to_list (granted_at rows.now select.now (place, object.now))) }
{
    if !is_in_sections(&select.sections, object.kind) {
        return Ok(());
    }
    let number = number_of(place)?;
    let draft = rights_draft(alloc, rows, object, number)?;
    push_some(drafts, draft)
}

// Adds the grants on all objects of the chosen sections.
fn add_all_granted(
    alloc: Global,
    rows: &DumpRows<'_>,
    select: &Select,
    objects: &[Obj],
    drafts: &mut Vec<Draft>,
) -> Result<(), AllocError>
    ensures { OnOk result (drafts.new.items ≡ drafts.old.items ++ filter_map (granted_at rows.now select.now) (enumerate_from 0 objects.now)) }
{
    for (place, object) in objects.iter().enumerate() {
        add_granted_at(alloc, rows, select, place, object, drafts)?;
    }
    Ok(())
}

// The same, where grants are taken.
fn add_grants(
    alloc: Global,
    rows: &DumpRows<'_>,
    select: &Select,
    ordered: &Ordered,
    drafts: &mut Vec<Draft>,
) -> Result<(), AllocError>
    ensures { OnOk result (drafts.new.items ≡ drafts.old.items ++ grants_of rows.now select.now ordered.now) }
{
    if select.grants {
        add_all_granted(alloc, rows, select, ordered.objects(), drafts)
    } else {
        Ok(())
    }
}

// ---- all

fn is_default(kind: ObjKind) -> bool
    ensures { result ≡ is_default kind }
{
    matches!(kind, ObjKind::Default)
}

// Keeps the oid of an object behind others, where it is a default that stands alone.
fn keep_standing(oids: &mut Vec<u32>, object: &Obj) -> Result<(), AllocError>
    ensures { OnOk result (oids.new.items ≡ oids.old.items ++ standing_of (object.now ∷ [])) }
{
    if is_default(object.kind) {
        oids.push(object.id.oid)?;
    }
    Ok(())
}

// The oids of the defaults that stand alone.
fn standing_oids(alloc: Global, objects: &[Obj]) -> Result<Vec<u32>, AllocError>
    ensures { IfOk result (λ oids. oids.items ≡ standing_of objects.now) }
{
    let mut oids = Vec::new(alloc);
    for object in objects {
        keep_standing(&mut oids, object)?;
    }
    Ok(oids)
}

/// The drafts of objects in order, with their comments, and their grants behind all.
pub(crate) fn drafts_of(
    alloc: Global,
    rows: &DumpRows<'_>,
    select: &Select,
    ordered: &Ordered,
) -> Result<Drafts, AllocError>
    ensures drafts { IfOk result (λ groups. groups.drafts.items ≡ drafts_of rows.now select.now ordered.now) }
    ensures counts { IfOk result (λ groups. groups.counts.items ≡ counts_of rows.now select.now ordered.now) }
{
    let oids = standing_oids(alloc, ordered.objects())?;
    let standing = OidIndex::of(alloc, &oids)?;
    let mut groups = groups_of(alloc, rows, select, &standing, ordered)?;
    add_grants(alloc, rows, select, ordered, &mut groups.drafts)?;
    Ok(groups)
}
