//! All that a restore reads.
ghost use Rattle.std.specs.Prelude.{◌≡◌, ℕ, Some, IfOk};
ghost use Rattle.dump_ports.specs.Tree.{Tree};
ghost use Rattle.cat_names.specs.Naming.{boot as boot_role};
ghost use Rattle.restore_input.specs.Answers.{input_seen};
ghost use Rattle.restore_runs.specs.Wanted.{wanted_due};
ghost use Rattle.tool_words.specs.Answers.{Gives, CountsRead};
ghost use Rattle.restore_input.specs.Answers.{texts_seen};
ghost use Rattle.restore_folders.specs.Seen.{work_seen};
ghost use Rattle.restores_sound.specs.Fit.{AreFitEntries};
ghost use Rattle.restore_folders.specs.Works.{plan_outcome, in_entries, with_boot, with_role, work_due, IsReady};

use crate::work::RestoreWork;
use cat_model::What;
use copy_text::{Name, Text};
use dump_ports::Files;
use openings::{Opening, read_opening};
use restore_input::RestoreInput;
use restore_plan::Entry;
use restore_runs::wanted_entries;
use restore_steps::{PlanError, PlanFault};
use script_runs::boot_role;
use std::alloc::{AllocError, Global};
use toc_entry::Entry as Archived;
use tool_words::Outcome;

// The answer where an entry can't be restored.
fn plan_outcome(fault: PlanFault) -> Outcome
    ensures { result ≡ plan_outcome fault }
{
    match fault {
        PlanFault::BadDefn(entry, fault) => Outcome::BadDefn { entry, fault },
        PlanFault::OutOfProfile(_, what) => Outcome::OutOfProfile(what),
    }
}

// The entries as statements.
fn wanted_of(
    alloc: Global,
    entries: &[Archived],
    texts: Vec<Option<Vec<u8>>>,
    owners: bool,
) -> Result<Vec<Entry>, Outcome>
    ensures due { Gives (λ v. v.items) result (in_entries (wanted_due owners entries.now (texts_seen texts.items))) }
    ensures fit { IfOk result (λ v. AreFitEntries v.items) }
    ensures count { (n : ℕ) → CountsRead result n n }
{
    match wanted_entries(alloc, entries, texts, owners) {
        Ok(wanted) => Ok(wanted),
        Err(PlanError::Fault(fault)) => Err(plan_outcome(fault)),
        Err(PlanError::Memory) => Err(Outcome::Memory),
    }
}

// The role of an opening to which what is created belongs.
fn boot_of(opening: &Opening) -> Result<Option<Name>, AllocError>
    ensures { IfOk result (λ name. name ≡ boot_role opening.now.cat) }
{
    boot_role(opening.export().catalogue().rows())
}

// The work of entries on an opening.
fn with_boot(
    alloc: Global,
    input: RestoreInput,
    owners: bool,
    opening: Opening,
    boot: Name,
) -> Result<RestoreWork, Outcome>
    requires { boot_role opening.cat ≡ Some boot }
    ensures due { Gives work_seen result (with_boot owners (input_seen input) opening boot) }
    ensures ready { IfOk result (λ work. IsReady (work_seen work)) }
    ensures count { (n : ℕ) → CountsRead result n n }
{
    let RestoreInput { entries, texts } = input;
    match wanted_of(alloc, &entries, texts, owners) {
        Ok(wanted) => Ok(RestoreWork {
            opening,
            boot,
            entries,
            wanted,
        }),
        Err(outcome) => {
            drop(entries);
            drop(opening);
            drop(boot);
            Err(outcome)
        }
    }
}

// The same, where the role is there.
fn with_role(
    alloc: Global,
    input: RestoreInput,
    owners: bool,
    opening: Opening,
    boot: Option<Name>,
) -> Result<RestoreWork, Outcome>
    requires { boot ≡ boot_role opening.cat }
    ensures due { Gives work_seen result (with_role owners (input_seen input) opening boot) }
    ensures ready { IfOk result (λ work. IsReady (work_seen work)) }
    ensures count { (n : ℕ) → CountsRead result n n }
{
    match boot {
        Some(boot) => with_boot(alloc, input, owners, opening, boot),
        None => Err(Outcome::OutOfProfile(What::Unbuilt)),
    }
}

// The work of entries on an opening, whose role is looked up.
fn with_opening(
    alloc: Global,
    input: RestoreInput,
    owners: bool,
    opening: Opening,
) -> Result<RestoreWork, Outcome>
    ensures due { Gives work_seen result (with_role owners (input_seen input) opening (boot_role opening.cat)) }
    ensures ready { IfOk result (λ work. IsReady (work_seen work)) }
    ensures count { (n : ℕ) → CountsRead result n n }
{
    match boot_of(&opening) {
        Ok(boot) => with_role(alloc, input, owners, opening, boot),
        Err(_) => {
            drop(input);
            drop(opening);
            Err(Outcome::Memory)
        }
    }
}

/// Reads all that a restore of an archive's entries into a folder needs, once the archive is read: the folder as an opening,
/// and then each entry as its statements, with owner statements or without.
///
/// The first step that refuses is the answer: what `read_opening` answers, or `BadDefn` or `OutOfProfile` at the first entry
/// whose texts don't read or that is left out. `Memory` may come for any folder. Nothing is written.
/// <https://www.postgresql.org/docs/16/app-pgrestore.html>
#[tactic(auto, unfolding(crate::specs::Works::work_due))]
pub fn read_work<F: Files>(
    alloc: Global,
    files: &mut F,
    folder: &Text,
    input: RestoreInput,
    owners: bool,
) -> Result<RestoreWork, Outcome>
    ensures due { (tree : Tree) → F.tree files.old ≡ Some tree → Gives work_seen result (work_due owners folder.now (input_seen input) tree) }
    ensures ready { IfOk result (λ work. IsReady (work_seen work)) }
    ensures kept { F.tree files.new ≡ F.tree files.old }
    ensures read_count { CountsRead result (F.read_faults files.old) (F.read_faults files.new) }
    ensures write_count { F.write_faults files.new ≡ F.write_faults files.old }
{
    match read_opening(alloc, files, folder) {
        Ok(opening) => with_opening(alloc, input, owners, opening),
        Err(outcome) => {
            drop(input);
            Err(outcome)
        }
    }
}
