//! The fields of a row that is written.
ghost use Rattle.std.specs.Prelude.{◌≡◌, ◌++◌, [], ◌∷◌, OnOk};
ghost use Rattle.copy_text.specs.Texts.{IsText};
ghost use Rattle.cat_rows.specs.declared.cell.Cell.TheVariants as cells;
ghost use Rattle.cat_rows.specs.Cells.{field_of, IsCell};

use crate::letter::Letter;
use acl_text::{Acl, write_acl};
use copy_text::{Name, Text};
use itoa::Buffer;
use std::alloc::{AllocError, Global};
use std::marker::Model;

/// The fields of a row, added from the left. A contract sees them as a list.
#[derive(Drop)]
pub(crate) struct Fields {
    alloc: Global,
    fields: Vec<Option<Text>>,
}

impl Model for Fields {
    ghost use Rattle.std.specs.Prelude.{List};
    ghost use Rattle.copy_text.specs.Rows.{Field};

    ghost Value = { List Field };

    ghost view = { λ f. f.fields.items };
}

impl Fields {
    pub(crate) fn new(alloc: Global) -> Fields
        ensures { result ≡ [] }
    {
        Fields {
            alloc,
            fields: Vec::new(alloc),
        }
    }

    pub(crate) fn as_slice(&self) -> &[Option<Text>]
        ensures { result.now ≡ self.now }
    {
        &self.fields
    }

    // Adds a text of these bytes.
    fn push_bytes(&mut self, bytes: &[u8]) -> Result<(), AllocError>
        requires { IsText bytes.now }
        ensures { OnOk result (self.new ≡ self.old ++ Some bytes.now ∷ []) }
    {
        let text = text_of(Vec::from_slice(self.alloc, bytes)?);
        self.fields.push(Some(text))?;
        Ok(())
    }

    fn push_null(&mut self) -> Result<(), AllocError>
        ensures { OnOk result (self.new ≡ self.old ++ None ∷ []) }
    {
        self.fields.push(None)?;
        Ok(())
    }

    pub(crate) fn oid(&mut self, oid: u32) -> Result<(), AllocError>
        ensures field { OnOk result (self.new ≡ self.old ++ field_of (cells.Oid oid) ∷ []) }
        ensures cell { IsCell (cells.Oid oid) }
    {
        self.push_bytes(Buffer::new().format(oid).as_bytes())
    }

    pub(crate) fn int(&mut self, number: &i64) -> Result<(), AllocError>
        ensures field { OnOk result (self.new ≡ self.old ++ field_of (cells.Int number.now) ∷ []) }
        ensures cell { IsCell (cells.Int number.now) }
    {
        self.push_bytes(Buffer::new().format(*number).as_bytes())
    }

    pub(crate) fn bool(&mut self, value: bool) -> Result<(), AllocError>
        ensures field { OnOk result (self.new ≡ self.old ++ field_of (cells.Bool value) ∷ []) }
    {
        self.push_bytes(if value { "t" } else { "f" }.as_bytes())
    }

    pub(crate) fn name(&mut self, name: &Name) -> Result<(), AllocError>
        ensures field { OnOk result (self.new ≡ self.old ++ field_of (cells.Name name.now) ∷ []) }
        ensures cell { IsCell (cells.Name name.now) }
    {
        self.push_bytes(name.as_bytes())
    }

    pub(crate) fn text(&mut self, text: &Text) -> Result<(), AllocError>
        ensures field { OnOk result (self.new ≡ self.old ++ field_of (cells.Text text.now) ∷ []) }
        ensures cell { IsCell (cells.Text text.now) }
    {
        self.push_bytes(text.as_bytes())
    }

    pub(crate) fn null_text(&mut self, text: &Option<Text>) -> Result<(), AllocError>
        ensures field { OnOk result (self.new ≡ self.old ++ field_of (cells.NullText text.now) ∷ []) }
        ensures cell { IsCell (cells.NullText text.now) }
    {
        match text {
            None => self.push_null(),
            Some(text) => self.push_bytes(text.as_bytes()),
        }
    }

    pub(crate) fn letter(&mut self, letter: Letter) -> Result<(), AllocError>
        ensures field { OnOk result (self.new ≡ self.old ++ field_of (cells.Letter letter) ∷ []) }
        ensures cell { IsCell (cells.Letter letter) }
    {
        self.push_bytes(&[letter.byte()])
    }

    pub(crate) fn acl(&mut self, acl: &Option<Acl>) -> Result<(), AllocError>
        ensures field { OnOk result (self.new ≡ self.old ++ field_of (cells.Acl acl.now) ∷ []) }
        ensures cell { OnOk result (IsCell (cells.Acl acl.now)) }
    {
        match acl {
            None => self.push_null(),
            Some(acl) => {
                let text = write_acl(self.alloc, acl)?;
                self.fields.push(Some(text))?;
                Ok(())
            }
        }
    }
}

fn text_of(bytes: Vec<u8>) -> Text
    requires { IsText bytes.items }
    ensures { result ≡ bytes.items }
{
    match Text::new(bytes) {
        Some(text) => text,
        None => unreachable!(),
    }
}
