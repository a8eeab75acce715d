//! Columns, as the fields of rows are tried against them.
ghost use Rattle.std.specs.Prelude.{◌≡◌, ◌||◌, IfOk};
ghost use Rattle.cat_model.specs.FieldTypes.{takes, comparable};
ghost use Rattle.field_values.specs.Columns.{KnowsLabels};

use crate::field_type::FieldType;
use crate::labels::{is_label, label_set};
use crate::words::field_type;
use cat_model::{Column, Items};
use copy_text::Text;
use std::alloc::{AllocError, Global};
use std::collections::HashSet;
use std::marker::Model;

/// A column whose type was read, so that many fields can be tried against it. A contract sees the column.
#[derive(Drop)]
pub struct ColumnValues<'a> {
    column: &'a Column,
    field_type: FieldType,
    labels: Option<HashSet<&'a [u8]>>,
}

impl<'a> Model for ColumnValues<'a> {
    ghost use Rattle.std.specs.Prelude.{◌≡◌};
    ghost use Rattle.cat_model.specs.declared.value.Column.{Column};
    ghost use Rattle.cat_model.specs.FieldTypes.{field_type as type_named};
    ghost use Rattle.field_values.specs.Seen.{seen};
    ghost use Rattle.field_values.specs.Columns.{KnowsLabels};

    ghost Value = { Column };

    ghost view = { λ c. c.column.now };

    ghost invariant = { λ c. (c.field_type ≡ seen (type_named c.column.now.resolved.type_name)) × KnowsLabels c.column.now.resolved.labels c.labels };
}

fn labels_known<'a>(
    alloc: Global,
    labels: &'a Option<Items<Text>>,
) -> Result<Option<HashSet<&'a [u8]>>, AllocError>
    ensures { IfOk result (KnowsLabels labels.now) }
{
    match labels {
        Some(labels) => Ok(Some(label_set(alloc, labels.as_slice())?)),
        None => Ok(None),
    }
}

impl<'a> ColumnValues<'a> {
    /// Reads a column's type. The error says that there was no memory.
    pub fn new(alloc: Global, column: &'a Column) -> Result<ColumnValues<'a>, AllocError>
        ensures { IfOk result (λ values. values ≡ column.now) }
    {
        let field_type = field_type(alloc, &column.resolved.type_name)?;
        let labels = labels_known(alloc, &column.resolved.labels)?;
        Ok(ColumnValues {
            column,
            field_type,
            labels,
        })
    }

    /// The column's name.
    pub fn name(&self) -> &'a [u8]
        ensures { result.now ≡ self.now.name }
    {
        self.column.name.as_bytes()
    }

    /// Whether a text is a value of the column's type: one of its labels where it is an enum.
    pub fn takes(&self, text: &[u8]) -> bool
        ensures { result ≡ takes self.now.resolved text.now }
    {
        match &self.labels {
            Some(labels) => is_label(labels, text),
            None => self.field_type.takes(text),
        }
    }

    /// The bytes by which a value of the column is compared: values are equal where these are.
    pub fn compared<'b>(&self, text: &'b [u8]) -> &'b [u8]
        ensures { result.now ≡ comparable self.now.resolved text.now }
    {
        self.field_type.compared(text)
    }

    /// Whether the column takes no null, by its own word or that of a domain.
    pub fn not_null(&self) -> bool
        ensures { result ≡ (self.now.not_null || self.now.resolved.not_null) }
    {
        self.column.not_null || self.column.resolved.not_null
    }
}
