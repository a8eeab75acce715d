//! Statements that make tables, sequences and views.
ghost use Rattle.std.specs.Prelude.{◌≡◌, [], ◌∷◌, ◌++◌, ◌&&◌, Ok, Some, pos, IfOk, OnOk};
ghost use Rattle.cat_model.specs.declared.cause.Cause.TheVariants as cause;
ghost use Rattle.cat_model.specs.declared.key.Key.TheVariants as key;
ghost use Rattle.cat_model.specs.declared.object.Object.TheVariants as object;
ghost use Rattle.cat_model.specs.declared.value.Value.TheVariants as value;
ghost use Rattle.cat_model.specs.Conditions.{check, needs_each, needs_table, column_in};
ghost use Rattle.cat_model.specs.Grants.{owner_only};
ghost use Rattle.cat_model.specs.ObjectEffects.{made};
ghost use Rattle.cat_model.specs.References.{expression_references};
ghost use Rattle.cat_model.specs.RelationEffects.{set_default, at_most, within, in_kind, fits_sequence, create_sequence, owned_by, set_value, create_view, replace_view};
ghost use Rattle.cat_model.specs.Trees.{Tree, Seen, sets, outcome, seen};
ghost use Rattle.eng_steps.specs.Outcomes.{Steps};
ghost use Rattle.relation_effects.specs.NewRelations.{sequence_changes, sequence_here, view_changes, view_here};

use cat_model::{Cause, Column, Key, Object, QName, Rights, Sequence, SequenceKind, Value};
use copy_text::{Name, Text};
use eng_map::{Change, NamedMap};
use eng_steps::{
    ApplyError, ObjectKind, column_in, free, needs, needs_but_relation, needs_each, needs_kind,
    needs_sequence, needs_table, one, set, with_made,
};
use grant_changes::{SEQUENCE_RIGHTS, TABLE_RIGHTS, owner_only};
use std::alloc::{AllocError, Global};
use stmt_refs::{expr_refs, view_refs};

// ---- defaults

fn default_changes(
    alloc: Global,
    q: &QName,
    column: &Name,
    text: &Text,
) -> Result<Vec<Change>, AllocError>
    ensures { IfOk result (λ changes. changes.items ≡ (key.Default q.now column.now, Some (value.DefaultText text.now)) ∷ []) }
{
    let q = q.clone()?;
    let column = column.clone()?;
    let text = text.clone()?;
    one(alloc, Key::Default(q, column), Value::DefaultText(text))
}

// The column is one of these, what the default refers to is there, and the default is set.
fn default_of_one(
    alloc: Global,
    named: &NamedMap,
    q: &QName,
    columns: &[Column],
    column: &Name,
    text: &Text,
) -> Result<Vec<Change>, ApplyError>
    ensures { Steps result (outcome (column_in columns.now column.now (needs_each (expression_references text.now) (sets ((key.Default q.now column.now, Some (value.DefaultText text.now)) ∷ [])))) (seen named.now)) (λ changes. Ok changes.items) }
{
    column_in(columns, column)?;
    needs_each(named, expr_refs(alloc, text.as_bytes())?)?;
    Ok(default_changes(alloc, q, column, text)?)
}

/// ALTER TABLE .. ALTER COLUMN .. SET DEFAULT.
pub fn set_default(
    alloc: Global,
    named: &NamedMap,
    q: &QName,
    column: &Name,
    text: &Text,
) -> Result<Vec<Change>, ApplyError>
    ensures { Steps result (outcome (set_default q.now column.now text.now) (seen named.now)) (λ changes. Ok changes.items) }
{
    let columns = needs_table(named, q)?;
    default_of_one(alloc, named, q, columns, column, text)
}

// ---- new relations

/// These changes, and behind them what each new relation gets: the boot role as its owner, who alone has these rights.
pub(crate) fn with_made_relation(
    alloc: Global,
    changes: Vec<Change>,
    boot: &Name,
    q: &QName,
    rights: Rights,
) -> Result<Vec<Change>, AllocError>
    ensures { IfOk result (λ all. all.items ≡ changes.items ++ made (object.Relation q.now) boot.now (owner_only rights)) }
{
    let object = Object::Relation(q.clone()?);
    let grants = owner_only(alloc, rights)?;
    with_made(changes, &object, boot, grants)
}

// ---- sequences

fn within(low: i64, high: i64, n: i64) -> bool
    ensures { result ≡ within low high n }
{
    low <= n && n <= high
}

// Whether a number is of the type.
fn in_kind(kind: SequenceKind, n: i64) -> bool
    ensures { result ≡ in_kind kind n }
{
    match kind {
        SequenceKind::SmallInt => within(-32768, 32767, n),
        SequenceKind::Integer => within(-2147483648, 2147483647, n),
        SequenceKind::BigInt => true,
    }
}

// Whether the sequence's numbers are of its type, and one at least is taken at once.
fn kinds_fit(s: &Sequence) -> bool
    ensures { result ≡ (in_kind s.now.kind s.now.start && (in_kind s.now.kind s.now.min && (in_kind s.now.kind s.now.max && at_most (pos 1) s.now.cache))) }
{
    in_kind(s.kind, s.start) && in_kind(s.kind, s.min) && in_kind(s.kind, s.max) && 1 <= s.cache
}

fn fits_sequence(s: &Sequence) -> bool
    ensures { result ≡ fits_sequence s.now }
{
    s.step != 0 && within(s.min, s.max, s.start) && kinds_fit(s)
}

// The sequence's numbers fit together, else `OutOfRange`.
fn needs_fit(sequence: &Sequence) -> Result<(), ApplyError>
    ensures { (next : Tree) → (s : Seen) → Steps result (outcome (check (fits_sequence sequence.now) cause.OutOfRange next) s) (λ _. outcome next s) }
{
    if !fits_sequence(sequence) {
        return Err(ApplyError::Refused(Cause::OutOfRange));
    }
    Ok(())
}

fn sequence_changes(
    alloc: Global,
    boot: &Name,
    q: &QName,
    s: Sequence,
) -> Result<Vec<Change>, AllocError>
    ensures { IfOk result (λ changes. changes.items ≡ sequence_changes boot.now q.now s) }
{
    let start = s.start;
    let mut changes = one(alloc, Key::Rel(q.clone()?), Value::Sequence(s))?;
    set(
        &mut changes,
        Key::SeqVal(q.clone()?),
        Value::SequenceValue(start, false),
    )?;
    with_made_relation(alloc, changes, boot, q, SEQUENCE_RIGHTS)
}

// No relation has the path, the sequence's numbers fit together, and it is made.
fn sequence_here(
    alloc: Global,
    named: &NamedMap,
    boot: &Name,
    q: &QName,
    s: Sequence,
) -> Result<Vec<Change>, ApplyError>
    ensures { Steps result (outcome (sequence_here boot.now q.now s) (seen named.now)) (λ changes. Ok changes.items) }
{
    free(named, Key::Rel(q.clone()?))?;
    needs_fit(&s)?;
    Ok(sequence_changes(alloc, boot, q, s)?)
}

/// CREATE SEQUENCE.
pub fn create_sequence(
    alloc: Global,
    named: &NamedMap,
    boot: &Name,
    q: &QName,
    s: Sequence,
) -> Result<Vec<Change>, ApplyError>
    ensures { Steps result (outcome (create_sequence boot.now q.now s) (seen named.now)) (λ changes. Ok changes.items) }
{
    needs(named, Key::Schema(q.schema.clone()?))?;
    sequence_here(alloc, named, boot, q, s)
}

fn owned_changes(
    alloc: Global,
    q: &QName,
    table: &QName,
    column: &Name,
) -> Result<Vec<Change>, AllocError>
    ensures { IfOk result (λ changes. changes.items ≡ (key.OwnedBy q.now, Some (value.OwnedBy table.now column.now)) ∷ []) }
{
    let q = q.clone()?;
    let table = table.clone()?;
    let column = column.clone()?;
    one(alloc, Key::OwnedBy(q), Value::OwnedBy(table, column))
}

// The column is one of these, and owns the sequence then.
fn owned_by_one(
    alloc: Global,
    q: &QName,
    table: &QName,
    columns: &[Column],
    column: &Name,
) -> Result<Vec<Change>, ApplyError>
    ensures { (s : Seen) → Steps result (outcome (column_in columns.now column.now (sets ((key.OwnedBy q.now, Some (value.OwnedBy table.now column.now)) ∷ []))) s) (λ changes. Ok changes.items) }
{
    column_in(columns, column)?;
    Ok(owned_changes(alloc, q, table, column)?)
}

// The table is there, and its column owns the sequence then.
fn owned_by_column(
    alloc: Global,
    named: &NamedMap,
    q: &QName,
    table: &QName,
    column: &Name,
) -> Result<Vec<Change>, ApplyError>
    ensures { Steps result (outcome (needs_table table.now (λ columns. column_in columns column.now (sets ((key.OwnedBy q.now, Some (value.OwnedBy table.now column.now)) ∷ [])))) (seen named.now)) (λ changes. Ok changes.items) }
{
    let columns = needs_table(named, table)?;
    owned_by_one(alloc, q, table, columns, column)
}

/// ALTER SEQUENCE .. OWNED BY.
pub fn owned_by(
    alloc: Global,
    named: &NamedMap,
    q: &QName,
    table: &QName,
    column: &Name,
) -> Result<Vec<Change>, ApplyError>
    ensures { Steps result (outcome (owned_by q.now table.now column.now) (seen named.now)) (λ changes. Ok changes.items) }
{
    needs_sequence(named, q)?;
    owned_by_column(alloc, named, q, table, column)
}

/// What setval says that a sequence gave out last.
#[derive(Clone, Copy)]
pub struct LastValue {
    /// The number.
    pub value: i64,
    /// Whether it was given out; the sequence begins with it where it wasn't.
    pub called: bool,
}

fn value_changes(alloc: Global, q: &QName, last: &LastValue) -> Result<Vec<Change>, AllocError>
    ensures { IfOk result (λ changes. changes.items ≡ (key.SeqVal q.now, Some (value.SequenceValue last.now.value last.now.called)) ∷ []) }
{
    one(
        alloc,
        Key::SeqVal(q.clone()?),
        Value::SequenceValue(last.value, last.called),
    )
}

// The number is one of the sequence's, else `OutOfRange`.
fn needs_within(sequence: &Sequence, last: &LastValue) -> Result<(), ApplyError>
    ensures { (next : Tree) → (s : Seen) → Steps result (outcome (check (within sequence.now.min sequence.now.max last.now.value) cause.OutOfRange next) s) (λ _. outcome next s) }
{
    if !within(sequence.min, sequence.max, last.value) {
        return Err(ApplyError::Refused(Cause::OutOfRange));
    }
    Ok(())
}

// The value of a sequence that is there is set.
fn set_value_of(
    alloc: Global,
    q: &QName,
    sequence: &Sequence,
    last: &LastValue,
) -> Result<Vec<Change>, ApplyError>
    ensures { (s : Seen) → Steps result (outcome (check (within sequence.now.min sequence.now.max last.now.value) cause.OutOfRange (sets ((key.SeqVal q.now, Some (value.SequenceValue last.now.value last.now.called)) ∷ []))) s) (λ changes. Ok changes.items) }
{
    needs_within(sequence, last)?;
    Ok(value_changes(alloc, q, last)?)
}

/// SELECT pg_catalog.setval.
pub fn set_value(
    alloc: Global,
    named: &NamedMap,
    q: &QName,
    last: &LastValue,
) -> Result<Vec<Change>, ApplyError>
    ensures { Steps result (outcome (set_value q.now last.now.value last.now.called) (seen named.now)) (λ changes. Ok changes.items) }
{
    let sequence = needs_sequence(named, q)?;
    set_value_of(alloc, q, sequence, last)
}

// ---- views

fn set_body(changes: &mut Vec<Change>, q: &QName, body: &Text) -> Result<(), AllocError>
    ensures { OnOk result (changes.new.items ≡ changes.old.items ++ (key.Body q.now, Some (value.Body body.now)) ∷ []) }
{
    let q = q.clone()?;
    let body = body.clone()?;
    set(changes, Key::Body(q), Value::Body(body))
}

fn view_changes(
    alloc: Global,
    boot: &Name,
    q: &QName,
    body: &Text,
) -> Result<Vec<Change>, AllocError>
    ensures { IfOk result (λ changes. changes.items ≡ view_changes boot.now q.now body.now) }
{
    let mut changes = one(alloc, Key::Rel(q.clone()?), Value::View)?;
    set_body(&mut changes, q, body)?;
    with_made_relation(alloc, changes, boot, q, TABLE_RIGHTS)
}

// No relation has the path, what the body refers to is there, but for the view itself, and the view is made.
fn view_here(
    alloc: Global,
    named: &NamedMap,
    boot: &Name,
    q: &QName,
    body: &Text,
) -> Result<Vec<Change>, ApplyError>
    ensures { Steps result (outcome (view_here boot.now q.now body.now) (seen named.now)) (λ changes. Ok changes.items) }
{
    free(named, Key::Rel(q.clone()?))?;
    needs_but_relation(alloc, named, q, view_refs(alloc, body.as_bytes())?)?;
    Ok(view_changes(alloc, boot, q, body)?)
}

/// CREATE VIEW.
pub fn create_view(
    alloc: Global,
    named: &NamedMap,
    boot: &Name,
    q: &QName,
    body: &Text,
) -> Result<Vec<Change>, ApplyError>
    ensures { Steps result (outcome (create_view boot.now q.now body.now) (seen named.now)) (λ changes. Ok changes.items) }
{
    needs(named, Key::Schema(q.schema.clone()?))?;
    view_here(alloc, named, boot, q, body)
}

fn body_changes(alloc: Global, q: &QName, body: &Text) -> Result<Vec<Change>, AllocError>
    ensures { IfOk result (λ changes. changes.items ≡ (key.Body q.now, Some (value.Body body.now)) ∷ []) }
{
    let q = q.clone()?;
    let body = body.clone()?;
    one(alloc, Key::Body(q), Value::Body(body))
}

/// CREATE OR REPLACE VIEW.
pub fn replace_view(
    alloc: Global,
    named: &NamedMap,
    q: &QName,
    body: &Text,
) -> Result<Vec<Change>, ApplyError>
    ensures { Steps result (outcome (replace_view q.now body.now) (seen named.now)) (λ changes. Ok changes.items) }
{
    needs_kind(named, ObjectKind::View, Key::Rel(q.clone()?))?;
    needs_each(named, view_refs(alloc, body.as_bytes())?)?;
    Ok(body_changes(alloc, q, body)?)
}
