//! The ends of all chains of a catalogue.
ghost use Rattle.std.specs.Prelude.{◌≡◌, ◌≢◌, IfOk};
ghost use Rattle.cat_model.specs.Values.{Bytes};
ghost use Rattle.cat_book.specs.Leads.{type_oids};
ghost use Rattle.type_ends.specs.Ends.{labels_of, resolved};

use crate::bases::{bases, end_at};
use crate::ends::Base;
use crate::enums::{label_groups, labels_of};
use crate::jumps::{Jump, far_jumps, jump_from, steps};
use cat_book::Book;
use cat_model::{Items, Resolved};
use cat_names::OidIndex;
use cat_rows::{Catalogue, TypeRow};
use copy_text::Text;
use oid_groups::Groups;
use std::alloc::{AllocError, Global};
use std::marker::Model;

/// The types of a catalogue with the ends of their chains of domains, and the labels of its enums, found without going
/// through its tables or along a chain. A contract sees the catalogue.
#[derive(Drop)]
pub struct TypeEnds<'a> {
    cat: &'a Catalogue,
    oids: OidIndex,
    labels: Groups,
    // By the places of the types: where the chain leads, and what stands there.
    jumps: Vec<Jump>,
    bases: Vec<Option<Base<'a>>>,
}

impl<'a> Model for TypeEnds<'a> {
    ghost use Rattle.cat_rows.specs.declared.catalogue.Catalogue.{Catalogue};
    ghost use Rattle.type_ends.specs.Beside.{IsBeside};

    ghost Value = { Catalogue };

    ghost view = { λ t. t.cat.now };

    ghost invariant = { λ t. IsBeside t.cat.now t.oids t.labels t.jumps.items t.bases.items };
}

fn type_oids(alloc: Global, rows: &[TypeRow]) -> Result<OidIndex, AllocError>
    ensures { IfOk result (λ oids. oids ≡ type_oids rows.now) }
{
    let oids: Vec<u32> = rows.iter().map(|t| t.oid).collect(alloc)?;
    OidIndex::of(alloc, &oids)
}

impl<'a> TypeEnds<'a> {
    /// The ends of the chains of this catalogue. The only error is that memory ran out.
    pub fn of(alloc: Global, book: &Book<'a>) -> Result<TypeEnds<'a>, AllocError>
        ensures { IfOk result (λ ends. ends ≡ book.now) }
    {
        let cat = book.tables();
        let rows = cat.pg_type.as_slice();
        let oids = type_oids(alloc, rows)?;
        let labels = label_groups(alloc, cat.pg_enum.as_slice())?;
        let steps = steps(alloc, &oids, rows)?;
        let jumps = far_jumps(alloc, steps)?;
        let bases = bases(alloc, book, &oids, &labels)?;
        Ok(TypeEnds {
            cat,
            oids,
            labels,
            jumps,
            bases,
        })
    }

    /// What the first type of this oid is at the end of its chain; `None` where its chain doesn't end, leads to no row, to
    /// a text that names no type, or to an enum whose schema isn't there, and where there is no such type. Nothing is said
    /// of the oid 0, which stands for no type of the table. The error is that memory ran out.
    pub fn end_of(&self, alloc: Global, oid: u32) -> Result<Option<Resolved>, AllocError>
        ensures { (text : Bytes) → oid ≢ 0 → IfOk result (λ end. end ≡ resolved self.now oid text) }
    {
        match self.oids.find(oid) {
            Some(place) => end_at(alloc, &self.bases, jump_from(&self.jumps, place)),
            None => Ok(None),
        }
    }

    /// The labels of an enum, in the order of their positions; none where there is no such enum. The error is that memory
    /// ran out.
    pub fn labels_of(&self, alloc: Global, oid: u32) -> Result<Items<Text>, AllocError>
        ensures { IfOk result (λ labels. labels ≡ labels_of self.now oid) }
    {
        labels_of(alloc, self.cat, &self.labels, oid)?.to_items(alloc)
    }
}
