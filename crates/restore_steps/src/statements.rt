//! The statements of an entry.
ghost use Rattle.std.specs.Prelude.{◌≡◌, ◌++◌, [], ◌∷◌, List, map, option_map, IfOk, OnOk};
ghost use Rattle.ddl_read.specs.Reading.{Gives};
ghost use Rattle.restore_steps.specs.Statements.{definition_count, owner_statement, owner_step, owner_steps, rows_steps, rows_text, statements, step_of, steps_in, text_of};

use cat_model::Stmt;
use copy_text::Text;
use ddl_read::{Located, ReadStmtsError, read_stmts};
use fmt_text::{owned_object, owner_of};
use restore_plan::Step;
use std::alloc::{AllocError, Global};
use toc_entry::Entry;

// A statement that was read.
fn step_of(located: Located) -> Step
    ensures { result ≡ step_of located }
{
    let Located { stmt, .. } = located;
    Step {
        statement: stmt,
        is_owner: false,
    }
}

fn steps_of(alloc: Global, located: Vec<Located>) -> Result<Vec<Step>, AllocError>
    ensures { IfOk result (λ v. v.items ≡ map step_of located.items) }
{
    located.into_iter().map(step_of).collect(alloc)
}

// The statements of a text.
#[tactic(auto, unfolding(crate::specs::Statements::steps_in))]
fn steps_in(alloc: Global, text: &[u8]) -> Result<Vec<Step>, ReadStmtsError>
    ensures { Gives (λ v. v.items) result (steps_in text.now) }
{
    let located = read_stmts(alloc, text)?;
    Ok(steps_of(alloc, located)?)
}

fn text_of(text: &Option<Text>) -> &[u8]
    ensures { result.now ≡ text_of text.now }
{
    match text {
        Some(text) => text.as_bytes(),
        None => &[],
    }
}

fn push_rows(text: &mut Vec<u8>, rows: Option<Vec<u8>>) -> Result<(), AllocError>
    ensures { OnOk result (text.new.items ≡ text.old.items ++ text_of (option_map (λ r. r.items) rows)) }
{
    match rows {
        Some(rows) => text.extend_from_slice(&rows),
        None => Ok(()),
    }
}

// The COPY statement of an entry, and its rows behind it.
fn rows_text(alloc: Global, entry: &Entry, rows: Option<Vec<u8>>) -> Result<Vec<u8>, AllocError>
    ensures { IfOk result (λ text. text.items ≡ rows_text entry.now (option_map (λ r. r.items) rows)) }
{
    let mut text = text_of(&entry.copy_stmt).to_vec(alloc)?;
    push_rows(&mut text, rows)?;
    Ok(text)
}

// The statements of the rows, where there are any.
#[tactic(auto, unfolding(crate::specs::Statements::rows_steps))]
fn rows_steps(
    alloc: Global,
    entry: &Entry,
    rows: Option<Vec<u8>>,
) -> Result<Vec<Step>, ReadStmtsError>
    ensures { Gives (λ v. v.items) result (rows_steps entry.now (option_map (λ r. r.items) rows)) }
{
    if !entry.has_rows {
        return Ok(Vec::new(alloc));
    }
    let text = rows_text(alloc, entry, rows)?;
    steps_in(alloc, &text)
}

fn push_owner_to(steps: &mut Vec<Step>, statement: Stmt) -> Result<(), AllocError>
    ensures { OnOk result (steps.new.items ≡ steps.old.items ++ owner_step statement ∷ []) }
{
    steps.push(Step {
        statement,
        is_owner: true,
    })?;
    Ok(())
}

// Adds the owner statement of an entry, where it has one and owners are restored.
#[tactic(auto, unfolding(crate::specs::Statements::owner_statement))]
fn push_owner(
    alloc: Global,
    entry: &Entry,
    owners: bool,
    steps: &mut Vec<Step>,
) -> Result<(), AllocError>
    ensures { OnOk result (steps.new.items ≡ steps.old.items ++ owner_steps (owner_statement owners entry.now)) }
{
    if !owners {
        return Ok(());
    }
    let Some(object) = owned_object(alloc, entry)? else {
        return Ok(());
    };
    let Some(role) = owner_of(alloc, entry)? else {
        return Ok(());
    };
    push_owner_to(steps, Stmt::OwnerTo { object, role })
}

/// The statements of an entry.
#[derive(Drop)]
pub(crate) struct EntrySteps {
    /// All of them, in order.
    pub(crate) steps: Vec<Step>,
    /// How many of them its definition reads as; they come first.
    pub(crate) defined: usize,
}

/// The statements of an entry and its rows, with its owner statement or without.
///
/// # Errors
///
/// The fault of its definition, else that of its COPY statement followed by its rows; or that memory ran out.
#[tactic(auto, unfolding(crate::specs::Statements::statements, crate::specs::Statements::definition_count))]
pub(crate) fn statements(
    alloc: Global,
    entry: &Entry,
    rows: Option<Vec<u8>>,
    owners: bool,
) -> Result<EntrySteps, ReadStmtsError>
    ensures steps { Gives (λ s. s.steps.items) result (statements owners entry.now (option_map (λ r. r.items) rows)) }
    ensures defined { IfOk result (λ s. s.defined ≡ definition_count entry.now) }
{
    let mut steps = steps_in(alloc, text_of(&entry.defn))?;
    let defined = steps.len();
    push_owner(alloc, entry, owners, &mut steps)?;
    let mut put = rows_steps(alloc, entry, rows)?;
    steps.append(&mut put)?;
    Ok(EntrySteps { steps, defined })
}
