//! A catalogue with what leads where in it.
ghost use Rattle.std.specs.Prelude.{◌≡◌, nat_le, option_map, IfOk};
ghost use Rattle.cat_names.specs.Kinds.{kind_of, class_of};
ghost use Rattle.cat_names.specs.Lookups.{has_oid, count_of, role_name, schema_oids};
ghost use Rattle.cat_book.specs.Chains.{type_of, chain_ends};
ghost use Rattle.cat_book.specs.Leads.{is_base_there, label_count, has_number, has_column, column_count, constraint_of, key_indexes, primary_tables, has_own_row};
ghost use Rattle.cat_book.specs.Paths.{schema_of, path_in, type_path, class_path, class_path_of, path_of, type_paths, class_paths, has_path};

use crate::chains::{base_place, ends_at};
use crate::found::row_at;
use crate::leads::{Leads, leads_of, path_in, schema_of};
use cat_model::QName;
use cat_names::{RelationKind, RoleIndex, relation_kind};
use cat_rows::{Catalogue, ClassRow, ConstraintRow, NamespaceRow, TypeRow};
use copy_text::Name;
use std::alloc::{AllocError, Global};
use std::marker::Model;

/// A catalogue of which nothing is sought by going through its tables. A contract sees the catalogue. Where several rows
/// have an oid, it leads to the first.
#[derive(Drop)]
pub struct Book<'a> {
    cat: &'a Catalogue,
    leads: Leads<'a>,
}

impl<'a> Model for Book<'a> {
    ghost use Rattle.cat_rows.specs.declared.catalogue.Catalogue.{Catalogue};
    ghost use Rattle.cat_book.specs.Beside.{IsBeside};

    ghost Value = { Catalogue };

    ghost view = { λ b. b.cat.now };

    ghost invariant = { λ b. IsBeside b.cat.now b.leads };
}

impl<'a> Book<'a> {
    /// This catalogue, with what leads where in it.
    pub fn of(alloc: Global, cat: &'a Catalogue) -> Result<Book<'a>, AllocError>
        ensures { IfOk result (λ book. book ≡ cat.now) }
    {
        let leads = leads_of(alloc, cat)?;
        Ok(Book { cat, leads })
    }

    /// The tables of the catalogue.
    pub fn tables(&self) -> &'a Catalogue
        ensures { result.now ≡ self.now }
    {
        self.cat
    }

    /// Its roles.
    pub fn roles(&self) -> &RoleIndex<'a>
        ensures { result.now ≡ self.now.pg_authid }
    {
        &self.leads.roles
    }

    /// The name of the first role of this oid; `None` where there is none.
    pub fn role_name(&self, oid: u32) -> Option<&Name>
        ensures { option_map (λ n. n.now) result ≡ role_name self.now.pg_authid oid }
    {
        self.leads.roles.name_of(oid)
    }

    /// Whether there is a schema of this oid.
    pub fn has_schema(&self, oid: u32) -> bool
        ensures { result ≡ has_oid (schema_oids self.now.pg_namespace) oid }
    {
        self.leads.oids.schemas.has(oid)
    }

    /// The first schema of this oid; `None` where there is none.
    pub fn schema_of(&self, oid: u32) -> Option<&NamespaceRow>
        ensures { option_map (λ s. s.now) result ≡ schema_of self.now.pg_namespace oid }
    {
        schema_of(
            &self.leads.oids.schemas,
            self.cat.pg_namespace.as_slice(),
            oid,
        )
    }

    /// Whether an oid is that of a type, or 0, which stands for none.
    pub fn is_base_there(&self, oid: u32) -> bool
        ensures { result ≡ is_base_there self.now.pg_type oid }
    {
        oid == 0 || self.leads.oids.types.has(oid)
    }

    /// The first type of this oid; `None` where there is none.
    pub fn type_of(&self, oid: u32) -> Option<&TypeRow>
        ensures { option_map (λ t. t.now) result ≡ type_of self.now.pg_type oid }
    {
        row_at(self.cat.pg_type.as_slice(), self.leads.oids.types.find(oid))
    }

    /// The first relation of this oid; `None` where there is none.
    pub fn class_of(&self, oid: u32) -> Option<&ClassRow>
        ensures { option_map (λ c. c.now) result ≡ class_of self.now.pg_class oid }
    {
        row_at(
            self.cat.pg_class.as_slice(),
            self.leads.oids.classes.find(oid),
        )
    }

    /// What the first relation of this oid is; `None` where there is none.
    pub fn kind_of(&self, oid: u32) -> Option<RelationKind>
        ensures { result ≡ kind_of self.now.pg_class oid }
    {
        match self.class_of(oid) {
            Some(row) => Some(relation_kind(row.relkind)),
            None => None,
        }
    }

    /// The first constraint of this oid; `None` where there is none.
    pub fn constraint_of(&self, oid: u32) -> Option<&ConstraintRow>
        ensures { option_map (λ c. c.now) result ≡ constraint_of self.now oid }
    {
        row_at(
            self.cat.pg_constraint.as_slice(),
            self.leads.oids.constraints.find(oid),
        )
    }

    // The path of a name in the schema of this oid.
    fn path_in(&self, oid: u32, name: &Name) -> Result<Option<QName>, AllocError>
        ensures { IfOk result (λ path. path ≡ path_in self.now.pg_namespace oid name.now) }
    {
        path_in(
            &self.leads.oids.schemas,
            self.cat.pg_namespace.as_slice(),
            oid,
            name,
        )
    }

    /// The path of a type; `None` where its schema isn't there.
    pub fn type_path(&self, row: &TypeRow) -> Result<Option<QName>, AllocError>
        ensures { IfOk result (λ path. path ≡ type_path self.now.pg_namespace row.now) }
    {
        self.path_in(row.typnamespace, &row.typname)
    }

    /// The path of a relation; `None` where its schema isn't there.
    pub fn class_path(&self, row: &ClassRow) -> Result<Option<QName>, AllocError>
        ensures { IfOk result (λ path. path ≡ class_path self.now.pg_namespace row.now) }
    {
        self.path_in(row.relnamespace, &row.relname)
    }

    /// The path of the first type of this oid; `None` where there is none, or no schema of its own.
    pub fn path_of(&self, oid: u32) -> Result<Option<QName>, AllocError>
        ensures { IfOk result (λ path. path ≡ path_of self.now oid) }
    {
        match self.type_of(oid) {
            Some(row) => self.type_path(row),
            None => Ok(None),
        }
    }

    /// The path of the first relation of this oid; `None` where there is none, or no schema of its own.
    pub fn class_path_of(&self, oid: u32) -> Result<Option<QName>, AllocError>
        ensures { IfOk result (λ path. path ≡ class_path_of self.now oid) }
    {
        match self.class_of(oid) {
            Some(row) => self.class_path(row),
            None => Ok(None),
        }
    }

    /// Whether there is a type of this path.
    pub fn has_type(&self, path: &QName) -> bool
        ensures { result ≡ has_path (type_paths self.now) path.now }
    {
        self.leads.named.type_paths.contains(path)
    }

    /// Whether there is a relation of this path.
    pub fn has_class(&self, path: &QName) -> bool
        ensures { result ≡ has_path (class_paths self.now) path.now }
    {
        self.leads.named.class_paths.contains(path)
    }

    /// Whether the chain of a type's bases ends.
    pub fn chain_ends(&self, row: &TypeRow) -> bool
        ensures { result ≡ chain_ends self.now.pg_type row.now }
    {
        ends_at(&self.leads.ends, base_place(&self.leads.oids.types, row))
    }

    /// How many labels a type has.
    pub fn label_count(&self, oid: u32) -> usize
        ensures { result ≡ label_count self.now oid }
    {
        self.leads.owners.labels.count(oid)
    }

    /// Whether a relation has a column of this number.
    pub fn has_number(&self, relation: u32, number: i64) -> bool
        ensures { result ≡ has_number self.now relation number }
    {
        self.leads
            .named
            .column_numbers
            .contains(&(relation, number))
    }

    /// Whether a relation has a column of this name.
    pub fn has_column(&self, relation: u32, name: &Name) -> Result<bool, AllocError>
        ensures { IfOk result (λ has. has ≡ has_column self.now relation name.now) }
    {
        let key = (relation, name.clone()?);
        Ok(self.leads.named.column_names.contains(&key))
    }

    /// How many columns a relation has.
    pub fn column_count(&self, relation: u32) -> usize
        ensures { result ≡ column_count self.now relation }
    {
        self.leads.owners.columns.count(relation)
    }

    /// Whether an index belongs to a primary key or a unique constraint.
    pub fn is_of_key(&self, index: u32) -> bool
        ensures { result ≡ has_oid (key_indexes self.now) index }
    {
        0 < self.leads.owners.key_indexes.count(index)
    }

    /// Whether no more than one key has this index.
    pub fn is_of_one_key(&self, index: u32) -> bool
        ensures { result ≡ nat_le (count_of (key_indexes self.now) index) 1 }
    {
        self.leads.owners.key_indexes.count(index) <= 1
    }

    /// Whether a table has no more than one primary key.
    pub fn has_one_primary(&self, table: u32) -> bool
        ensures { result ≡ nat_le (count_of (primary_tables self.now) table) 1 }
    {
        self.leads.owners.primary_tables.count(table) <= 1
    }

    /// Whether a relation of this kind has the row that it needs in another table.
    pub fn has_own_row(&self, kind: RelationKind, oid: u32) -> bool
        ensures { result ≡ has_own_row self.now kind oid }
    {
        match kind {
            RelationKind::View => self.leads.own_rows.views.has(oid),
            RelationKind::Sequence => self.leads.own_rows.sequences.has(oid),
            RelationKind::Index => self.leads.own_rows.indexes.has(oid) || self.is_of_key(oid),
            RelationKind::Table | RelationKind::Other(_) => true,
        }
    }
}
