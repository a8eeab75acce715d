//! A row: fields of which each is null or a text.
ghost use Rattle.std.specs.Prelude.{◌≡◌, List, [], ◌∷◌, ◌++◌, Option, OnOk, OnErr, nat_eq};
ghost use Rattle.std.specs.Option.{option_eq};
ghost use Rattle.std.specs.Cmp.{partial_equiv_from_equiv};
ghost use Rattle.std.specs.Cmp.Lexicographic.{pointwise, lists_equiv, options_equiv, nat_list_eq_equiv};
ghost use Rattle.copy_text.specs.Rows.{Field};

use crate::text::Text;
use std::alloc::{AllocError, Global};
use std::marker::Model;

/// The fields of a row, in the order of its columns; null is `None`. A contract sees a row as the list of its
/// fields.
#[derive(Debug, Drop)]
pub struct Row {
    fields: Vec<Option<Text>>,
}

impl Model for Row {
    ghost use Rattle.std.specs.Prelude.{List};
    ghost use Rattle.copy_text.specs.Rows.{Field};

    ghost Value = { List Field };

    ghost view = { λ r. r.fields.items };
}

impl Row {
    /// A row without fields. It takes no memory.
    pub fn new(alloc: Global) -> Row
        ensures { result ≡ [] }
    {
        Row {
            fields: Vec::new(alloc),
        }
    }

    /// Adds a field at the end. After an `Err` the row is as it was.
    pub fn push(&mut self, field: Option<Text>) -> Result<(), AllocError>
        ensures ok { OnOk result (self.new ≡ self.old ++ field ∷ []) }
        ensures err { OnErr result (self.new ≡ self.old) }
    {
        self.fields.push(field)?;
        Ok(())
    }

    /// The fields.
    pub fn fields(&self) -> &[Option<Text>]
        ensures { result.now ≡ self.now }
    {
        &self.fields
    }

    /// The fields, handed over.
    pub fn into_fields(self) -> Vec<Option<Text>>
        ensures { result.items ≡ self }
    {
        let Row { fields } = self;
        fields
    }
}

impl Clone for Row {
    ghost is_clone = { λ r s. s ≡ r };

    fn clone(&self) -> Result<Row, AllocError> {
        Ok(Row {
            fields: self.fields.clone()?,
        })
    }
}

impl PartialEq for Row {
    ghost eq = { pointwise (option_eq (pointwise nat_eq)) };

    ghost laws = { partial_equiv_from_equiv (lists_equiv (options_equiv nat_list_eq_equiv)) };

    fn eq(&self, other: &Row) -> bool {
        self.fields() == other.fields()
    }
}

impl Eq for Row {
    ghost laws = { lists_equiv (options_equiv nat_list_eq_equiv) };
}
