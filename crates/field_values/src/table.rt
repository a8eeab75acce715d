//! The columns of a table, as its rows are tried against them.
ghost use Rattle.std.specs.Prelude.{◌≡◌, map, IfOk};
ghost use Rattle.std.specs.List.{position_from};
ghost use Rattle.cat_model.specs.Lexemes.{same_text};

use crate::column::ColumnValues;
use crate::name_places::NamePlaces;
use cat_model::Column;
use std::alloc::{AllocError, Global};
use std::marker::Model;

/// The columns of a table, each found by its name, so that many rows can be tried against them. A contract sees the
/// list of the columns.
#[derive(Drop)]
pub struct TableColumns<'a> {
    columns: Vec<ColumnValues<'a>>,
    names: NamePlaces<'a>,
}

impl<'a> Model for TableColumns<'a> {
    ghost use Rattle.std.specs.Prelude.{◌≡◌, List, map};
    ghost use Rattle.cat_model.specs.declared.value.Column.{Column};

    ghost Value = { List Column };

    ghost view = { λ t. t.columns.items };

    ghost invariant = { λ t. t.names ≡ map (λ c. c.name) t.columns.items };
}

impl<'a> TableColumns<'a> {
    /// Reads the types of a table's columns. The error says that there was no memory.
    pub fn new(alloc: Global, columns: &'a [Column]) -> Result<TableColumns<'a>, AllocError>
        ensures { IfOk result (λ table. table ≡ columns.now) }
    {
        let names = column_names(alloc, columns)?;
        Ok(TableColumns {
            columns: column_values(alloc, columns)?,
            names: NamePlaces::new(alloc, names)?,
        })
    }

    /// The columns in order.
    pub fn as_slice(&self) -> &[ColumnValues<'a>]
        ensures { result.now ≡ self.now }
    {
        &self.columns
    }

    /// The place of the first column of this name, counted from 0.
    pub fn place(&self, name: &[u8]) -> Option<usize>
        ensures { result ≡ position_from (same_text name.now) 0 (map (λ c. c.name) self.now) }
    {
        self.names.place(name)
    }
}

fn column_names<'a>(alloc: Global, columns: &'a [Column]) -> Result<Vec<&'a [u8]>, AllocError>
    ensures { IfOk result (λ names. map (λ name. name.now) names.items ≡ map (λ c. c.name) columns.now) }
{
    let mut names = Vec::with_capacity(alloc, columns.len())?;
    for column in columns {
        names.push(column.name.as_bytes())?;
    }
    Ok(names)
}

fn column_values<'a>(
    alloc: Global,
    columns: &'a [Column],
) -> Result<Vec<ColumnValues<'a>>, AllocError>
    ensures { IfOk result (λ values. values.items ≡ columns.now) }
{
    let mut values = Vec::with_capacity(alloc, columns.len())?;
    for column in columns {
        values.push(ColumnValues::new(alloc, column)?)?;
    }
    Ok(values)
}
