//! The rows among the statements of an entry.
ghost use Rattle.std.specs.Prelude.{◌≡◌, drop, option_map};
ghost use Rattle.plan_entries.specs.Texts.{last_rows, later_of, rows_in};

use cat_model::Stmt;
use restore_plan::Step;

// The rows of a statement, where it is a COPY.
#[tactic(auto, unfolding(crate::specs::Texts::rows_in))]
fn rows_in(statement: &Stmt) -> Option<&[u8]>
    ensures { option_map (λ rows. rows.now) result ≡ rows_in statement.now }
{
    match statement {
        Stmt::CopyRows { rows, .. } => Some(rows.as_slice()),
        _ => None,
    }
}

fn later_of<'a>(earlier: Option<&'a [u8]>, later: Option<&'a [u8]>) -> Option<&'a [u8]>
    ensures { option_map (λ rows. rows.now) result ≡ later_of (option_map (λ rows. rows.now) earlier.entry) (option_map (λ rows. rows.now) later.entry) }
{
    match later {
        Some(rows) => Some(rows),
        None => earlier,
    }
}

fn last_rows(steps: &[Step]) -> Option<&[u8]>
    ensures { option_map (λ rows. rows.now) result ≡ last_rows steps.now }
{
    let mut last = None;
    for step in steps {
        last = later_of(last, rows_in(&step.statement));
    }
    last
}

/// The rows of the last COPY among the statements behind so many.
pub(crate) fn rows_behind(steps: &[Step], count: usize) -> Option<&[u8]>
    ensures { option_map (λ rows. rows.now) result ≡ last_rows (drop count steps.now) }
{
    match steps.get(count..) {
        Some(behind) => last_rows(behind),
        None => None,
    }
}
