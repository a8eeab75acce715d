//! The one loop over a table's lines.
ghost use Rattle.std.specs.Prelude.{◌≡◌, ◌&&◌, ◌||◌, ◌+◌, ◌<◌, ◌^◌, [], ◌∷◌, ◌++◌, length, None, List, IfOk, IfErr, OnOk};
ghost use Rattle.cat_names.specs.Findings.{first_kind, fault_or, dangling_unless};
ghost use Rattle.cat_names.specs.Gives.{GivesLine, IsLineDue};
ghost use Rattle.cat_book.specs.Rules.{named, named_in, found, fault_by};
ghost use Rattle.cat_book.specs.Seen.{AreSeen};

use crate::seen::{Seen, add_name, add_oid, add_place};
use cat_model::What;
use cat_names::{FaultKind, Findings, LineError, LineFault};
use std::alloc::{AllocError, Global};
use std::collections::BTreeSet;
use std::marker::Model;

/// A row's name, behind the oids and the number of what it is unique in. What has no name has the empty one.
pub type RowName<'a> = (u32, u32, i64, &'a [u8]);

/// What no two rows of a table have in common.
#[derive(Drop)]
pub struct RowKeys<'a> {
    /// The row's own oid, which isn't 0.
    pub oid: Option<u32>,
    /// Its name.
    pub name: Option<RowName<'a>>,
    /// Its place among the rows of an oid.
    pub place: Option<(u32, i64)>,
    /// Whether it is what only one row may be.
    pub is_marked: bool,
}

impl<'a> Model for RowKeys<'a> {
    ghost use Rattle.std.specs.Prelude.{option_map};
    ghost use Rattle.cat_book.specs.Rules.{Keys};
    ghost use Rattle.cat_book.specs.Sets.{seen_name};

    ghost Value = { Keys };

    ghost view = { λ k. record { oid = k.oid; name = option_map seen_name k.name; place = k.place; is_marked = k.is_marked } };
}

impl<'a> RowKeys<'a> {
    /// Those of an object with a name of its own.
    pub fn named(oid: u32, name: &'a [u8]) -> RowKeys<'a>
        ensures { result ≡ named oid name.now }
    {
        RowKeys {
            oid: Some(oid),
            name: Some((0, 0, 0, name)),
            place: None,
            is_marked: false,
        }
    }

    /// Those of an object with a name within a schema, a type or a relation.
    pub fn named_in(oid: u32, space: u32, name: &'a [u8]) -> RowKeys<'a>
        ensures { result ≡ named_in oid space name.now }
    {
        RowKeys {
            oid: Some(oid),
            name: Some((space, 0, 0, name)),
            place: None,
            is_marked: false,
        }
    }
}

/// The conditions beside a catalogue that a row doesn't meet.
#[derive(Drop)]
pub struct Unmet {
    /// An oid leads to no row of the right kind, or a row that the row needs isn't there.
    pub dangles: bool,
    /// A text isn't what its place wants, or disagrees with the rows.
    pub is_bad: bool,
    /// The first of what is left out.
    pub left_out: Option<What>,
}

/// A table by its conditions beside what its rows are tried against.
pub trait Conditions<B> {
    /// The rows of the table.
    type Row;

    ghost use Rattle.cat_book.specs.Rules.{Rules};

    ghost rules: { Rules B Self.Row };

    /// What no other row has.
    fn keys(row: &Self::Row) -> RowKeys<'_>
        ensures { result ≡ rules.keys row.now };

    /// The conditions that the row doesn't meet.
    fn unmet(alloc: Global, beside: &B, row: &Self::Row) -> Result<Unmet, AllocError>
        ensures { IfOk result (λ unmet. unmet ≡ rules.unmet beside.now row.now) };

    /// Whether the row is there that the table must have.
    fn needed(beside: &B) -> bool
        ensures { result ≡ rules.needed beside.now };
}

// Goes on where nothing was found at the line.
fn go_on(line: u64, found: Findings) -> Result<(), LineError>
    ensures ok { OnOk result (first_kind found ≡ None) }
    ensures err { IfErr result (λ e. IsLineDue e (fault_or line (first_kind found) None)) }
{
    match found.first_kind() {
        Some(kind) => Err(LineError::Fault(LineFault { line, kind })),
        None => Ok(()),
    }
}

// Goes on where the row is there that must be; else it counts at the line after the last.
fn end(there: bool, line: u64) -> Result<(), LineError>
    ensures { GivesLine result (fault_or line (dangling_unless there) None) }
{
    if there {
        Ok(())
    } else {
        Err(LineError::Fault(LineFault {
            line,
            kind: FaultKind::Dangling,
        }))
    }
}

fn both(a: bool, b: bool) -> bool
    ensures { result ≡ (a && b) }
{
    a && b
}

fn either(a: bool, b: bool) -> bool
    ensures { result ≡ (a || b) }
{
    a || b
}

// What is wrong with a row behind those before it.
fn find_in<'a, B, T: Conditions<B>>(
    alloc: Global,
    beside: &B,
    seen: &mut Seen<'a>,
    row: &'a T::Row,
) -> Result<Findings, AllocError>
    ensures found { IfOk result (λ f. (before : List T.Row) → AreSeen T.rules before seen.old → f ≡ found T.rules beside.now before row.now) }
    ensures seen { OnOk result ((before : List T.Row) → AreSeen T.rules before seen.old → AreSeen T.rules (before ++ row.now ∷ []) seen.new) }
{
    let keys = T::keys(row);
    let Unmet {
        dangles,
        is_bad,
        left_out,
    } = T::unmet(alloc, beside, row)?;
    let no_object = keys.oid == Some(0);
    let repeated_oid = add_oid(&mut seen.oids, keys.oid)?;
    let same_name = add_name(&mut seen.names, keys.name)?;
    let same_place = add_place(&mut seen.places, keys.place)?;
    let same_mark = both(keys.is_marked, seen.is_marked);
    seen.is_marked = either(seen.is_marked, keys.is_marked);
    Ok(Findings {
        repeated_oid,
        repeated_name: same_name || same_mark,
        dangling: dangles,
        bad_text: no_object || is_bad || same_place,
        left_out,
    })
}

/// Goes on where the rows of a table meet its conditions; else `Fault` is the first fault, with its line and kind. `Memory`
/// may be answered for any rows.
pub fn check_lines<B, T: Conditions<B>>(
    alloc: Global,
    beside: &B,
    rows: &[T::Row],
) -> Result<(), LineError>
    requires few { length rows.now < 2 ^ 63 }
    ensures { GivesLine result (fault_by T.rules beside.now rows.now) }
{
    let mut seen = Seen {
        oids: BTreeSet::new(alloc),
        names: BTreeSet::new(alloc),
        places: BTreeSet::new(alloc),
        is_marked: false,
    };
    let mut line = 1;
    for row in rows {
        let found = find_in::<B, T>(alloc, beside, &mut seen, row)?;
        go_on(line, found)?;
        line += 1;
    }
    end(T::needed(beside), line)
}
