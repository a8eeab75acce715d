//! Entries without their numbers.
ghost use Rattle.std.specs.Prelude.{◌≡◌, [], ◌∷◌, ◌++◌, IfOk, OnOk};
ghost use Rattle.std.specs.Option.{option_to_list};
ghost use Rattle.dump_toc.specs.Drafts.{beside};

use crate::owner::{name_text, owner_of};
use cat_model::Items;
use copy_text::Text;
use dump_rows::DumpRows;
use dump_stmts::{empty_text, text_of};
use graph_parts::Obj;
use std::alloc::{AllocError, Global};

/// An entry without its number, which names the objects that it needs by their places in the order of the dump.
#[derive(Drop)]
pub struct Draft {
    /// The oid of the system table that holds the object, or 0.
    pub tableoid: u32,
    /// The object's oid in that table, or 0.
    pub oid: u32,
    /// What it is called.
    pub tag: Text,
    /// Its kind.
    pub desc: Text,
    /// When it is restored: 1 none of its own, 2 pre-data, 3 data, 4 post-data.
    pub section: u8,
    /// The statements that make the object.
    pub defn: Text,
    /// The statement that takes it away again.
    pub drop_stmt: Text,
    /// The line of COPY that takes its rows; `None` where it has none.
    pub copy_stmt: Option<Text>,
    /// The schema that it stands in.
    pub namespace: Option<Text>,
    /// Its table access method.
    pub tableam: Option<Text>,
    /// The role that owns it.
    pub owner: Option<Text>,
    /// The places of the objects that it needs, rising.
    pub needs: Items<u32>,
}

/// What stands beside an object and is none: a draft of no system table with statements alone, in the object's schema and of
/// its owner.
pub(crate) fn beside(
    alloc: Global,
    rows: &DumpRows<'_>,
    object: &Obj,
    desc: &[u8],
    section: u8,
    tag: Text,
    defn: Text,
    needs: Items<u32>,
) -> Result<Draft, AllocError>
    ensures { IfOk result (λ draft. draft ≡ beside rows.now object.now desc.now section tag defn needs) }
{
    let desc = text_of(alloc, desc)?;
    let drop_stmt = empty_text(alloc)?;
    let namespace = name_text(alloc, object.schema.as_ref())?;
    let owner = name_text(alloc, owner_of(rows, object))?;
    Ok(Draft {
        tableoid: 0,
        oid: 0,
        tag,
        desc,
        section,
        defn,
        drop_stmt,
        copy_stmt: None,
        namespace,
        tableam: None,
        owner,
        needs,
    })
}

/// The one place.
pub(crate) fn only(alloc: Global, place: u32) -> Result<Items<u32>, AllocError>
    ensures { IfOk result (λ places. places ≡ place ∷ []) }
{
    let mut places = Vec::new(alloc);
    places.push(place)?;
    Ok(Items::new(places))
}

/// Adds a draft behind others, where there is one.
pub(crate) fn push_some(drafts: &mut Vec<Draft>, draft: Option<Draft>) -> Result<(), AllocError>
    ensures { OnOk result (drafts.new.items ≡ drafts.old.items ++ option_to_list draft) }
{
    if let Some(draft) = draft {
        drafts.push(draft)?;
    }
    Ok(())
}
