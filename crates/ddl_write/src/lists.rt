//! Items of one kind, one after another.
ghost use Rattle.std.specs.Prelude.{◌≡◌, ◌++◌, map, codes, OnOk};
ghost use Rattle.std.specs.List.{flat_map};
ghost use Rattle.sql_lex.specs.Written.{written_name, written_literal};
ghost use Rattle.ddl_write.specs.Outcome.{Extends};
ghost use Rattle.ddl_spelling.specs.Paths.{listed, some_listed};
ghost use Rattle.ddl_spelling.specs.Tables.{check_text, column_text, in_lines, table_lines};

use crate::words::Written;
use cat_model::{CheckDef, ColumnDef};
use copy_text::{Name, Text};
use sql_lex::{write_literal, write_name};

/// What has one text.
pub(crate) trait Put {
    ghost use Rattle.std.specs.Prelude.{List, ℕ};

    ghost text: { Self → List ℕ };

    /// Appends the text; an error may leave some of it.
    fn put(&self, out: &mut Vec<u8>) -> Written
        ensures ok { OnOk result (out.new.items ≡ out.old.items ++ text self.now) }
        ensures kept { Extends out.old.items out.new.items };
}

impl Put for Name {
    ghost text = { written_name };

    fn put(&self, out: &mut Vec<u8>) -> Written {
        write_name(self.as_bytes(), out)
    }
}

/// A label.
impl Put for Text {
    ghost text = { written_literal };

    fn put(&self, out: &mut Vec<u8>) -> Written {
        write_literal(self.as_bytes(), out)
    }
}

impl Put for CheckDef {
    ghost text = { λ c. check_text c.name c.text };

    fn put(&self, out: &mut Vec<u8>) -> Written {
        put_check(&self.name, &self.text, out)
    }
}

/// A column with its type, default and NOT NULL.
impl Put for ColumnDef {
    ghost text = { column_text };

    #[tactic(auto, unfolding(ddl_spelling::specs::Tables::column_text))]
    fn put(&self, out: &mut Vec<u8>) -> Written {
        put!(out; Name(&self.name), Words(b" "), TypeName(&self.type_name), Default(&self.default),
            OnlyIf(self.not_null, b" NOT NULL"))
    }
}

/// A name for a check, and its expression in brackets.
#[tactic(auto, unfolding(ddl_spelling::specs::Tables::check_text))]
pub(crate) fn put_check(name: &Name, text: &Text, out: &mut Vec<u8>) -> Written
    ensures ok { OnOk result (out.new.items ≡ out.old.items ++ check_text name.now text.now) }
    ensures kept { Extends out.old.items out.new.items }
{
    put_item(b"CONSTRAINT ", name, out)?;
    out.extend_from_slice(b" CHECK (")?;
    out.extend_from_slice(text.as_bytes())?;
    out.extend_from_slice(b")")?;
    Ok(())
}

/// Words and an item.
fn put_item<T: Put>(words: &[u8], item: &T, out: &mut Vec<u8>) -> Written
    ensures ok { OnOk result (out.new.items ≡ out.old.items ++ (words.now ++ T.text item.now)) }
    ensures kept { Extends out.old.items out.new.items }
{
    out.extend_from_slice(words)?;
    item.put(out)
}

/// Items, each behind the same words.
pub(crate) fn put_each<T: Put>(words: &[u8], items: &[T], out: &mut Vec<u8>) -> Written
    ensures ok { OnOk result (out.new.items ≡ out.old.items ++ flat_map (λ x. words.now ++ T.text x) items.now) }
    ensures kept { Extends out.old.items out.new.items }
{
    for item in items {
        put_item(words, item, out)?;
    }
    Ok(())
}

/// Names with commas, in brackets.
#[tactic(auto, unfolding(ddl_spelling::specs::Paths::listed))]
pub(crate) fn put_names(names: &[Name], out: &mut Vec<u8>) -> Written
    ensures ok { OnOk result (out.new.items ≡ out.old.items ++ listed names.now) }
    ensures kept { Extends out.old.items out.new.items }
{
    match names {
        [] => out.extend_from_slice(b"()"),
        [first, more @ ..] => {
            put_item(b"(", first, out)?;
            put_each(b", ", more, out)?;
            out.extend_from_slice(b")")?;
            Ok(())
        }
    }
}

/// The same behind a space, where there are some.
pub(crate) fn put_some_names(names: &[Name], out: &mut Vec<u8>) -> Written
    ensures ok { OnOk result (out.new.items ≡ out.old.items ++ some_listed names.now) }
    ensures kept { Extends out.old.items out.new.items }
{
    match names {
        [] => Ok(()),
        names => {
            out.push(b' ')?;
            put_names(names, out)
        }
    }
}

/// Items with commas, each in a line.
pub(crate) fn put_lines<T: Put>(items: &[T], out: &mut Vec<u8>) -> Written
    ensures ok { OnOk result (out.new.items ≡ out.old.items ++ in_lines (map T.text items.now)) }
    ensures kept { Extends out.old.items out.new.items }
{
    match items {
        [] => Ok(()),
        [first, more @ ..] => {
            put_item(b"\n    ", first, out)?;
            put_each(b",\n    ", more, out)?;
            Ok(())
        }
    }
}

/// The columns of a table and then its checks, each in a line.
pub(crate) fn put_elements(columns: &[ColumnDef], checks: &[CheckDef], out: &mut Vec<u8>) -> Written
    ensures ok { OnOk result (out.new.items ≡ out.old.items ++ in_lines (table_lines columns.now checks.now)) }
    ensures kept { Extends out.old.items out.new.items }
{
    match columns {
        [] => put_lines(checks, out),
        [first, more @ ..] => {
            put_item(b"\n    ", first, out)?;
            put_each(b",\n    ", more, out)?;
            put_each(b",\n    ", checks, out)?;
            Ok(())
        }
    }
}
