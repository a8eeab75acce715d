//! Roles, found by oid and by name.
ghost use Rattle.std.specs.Prelude.{◌≡◌, option_map, IfOk};
ghost use Rattle.cat_model.specs.Values.{bytes_cmp};
ghost use Rattle.cat_names.specs.Indexed.{AreKeys};
ghost use Rattle.cat_names.specs.Lookups.{is_role, is_role_name, name_at, role_name, role_oids, role_names};

use crate::keys::add_key;
use crate::oid_index::OidIndex;
use cat_rows::AuthidRow;
use copy_text::Name;
use std::alloc::{AllocError, Global};
use std::collections::BTreeSet;
use std::marker::Model;

/// The roles of a catalogue, found without going through them. A contract sees the list of their rows.
#[derive(Drop)]
pub struct RoleIndex<'a> {
    rows: &'a [AuthidRow],
    oids: OidIndex,
    names: BTreeSet<Name>,
}

impl<'a> Model for RoleIndex<'a> {
    ghost use Rattle.std.specs.Prelude.{List};
    ghost use Rattle.cat_rows.specs.declared.roles.AuthidRow.{AuthidRow};
    ghost use Rattle.cat_names.specs.Indexed.{AreRoles};

    ghost Value = { List AuthidRow };

    ghost view = { λ r. r.rows.now };

    ghost invariant = { λ r. AreRoles r.rows.now r.oids r.names };
}

impl<'a> RoleIndex<'a> {
    /// These roles, with what they are found by.
    pub fn of(alloc: Global, rows: &'a [AuthidRow]) -> Result<RoleIndex<'a>, AllocError>
        ensures { IfOk result (λ roles. roles ≡ rows.now) }
    {
        let oids = role_oids(alloc, rows)?;
        let names = role_names(alloc, rows)?;
        Ok(RoleIndex { rows, oids, names })
    }

    /// Whether there is a role of this oid.
    pub fn has(&self, oid: u32) -> bool
        ensures { result ≡ is_role self.now oid }
    {
        self.oids.find(oid).is_some()
    }

    /// Whether there is a role of this name.
    pub fn has_name(&self, name: &Name) -> bool
        ensures { result ≡ is_role_name self.now name.now }
    {
        self.names.contains(name)
    }

    /// The name of the role of this oid.
    pub fn name_of(&self, oid: u32) -> Option<&Name>
        ensures { option_map (λ n. n.now) result ≡ role_name self.now oid }
    {
        match self.oids.find(oid) {
            Some(place) => name_at(self.rows, place),
            None => None,
        }
    }
}

fn role_oids(alloc: Global, rows: &[AuthidRow]) -> Result<OidIndex, AllocError>
    ensures { IfOk result (λ oids. oids ≡ role_oids rows.now) }
{
    let oids: Vec<u32> = rows.iter().map(|r| r.oid).collect(alloc)?;
    OidIndex::of(alloc, &oids)
}

fn role_names(alloc: Global, rows: &[AuthidRow]) -> Result<BTreeSet<Name>, AllocError>
    ensures { IfOk result (λ names. AreKeys bytes_cmp names (role_names rows.now)) }
{
    let mut names = BTreeSet::new(alloc);
    for row in rows {
        add_key(&mut names, row.rolname.clone()?)?;
    }
    Ok(names)
}

fn name_at(rows: &[AuthidRow], place: usize) -> Option<&Name>
    ensures { option_map (λ n. n.now) result ≡ name_at rows.now place }
{
    match rows.get(place) {
        Some(row) => Some(&row.rolname),
        None => None,
    }
}
