//! Laws of the definitions, each the contract of a function that does nothing.
ghost use Rattle.std.specs.Prelude.{◌≡◌, ◌++◌, List, None, Result, Ok, Some, map};
ghost use Rattle.cat_model.specs.Values.{Bytes};
ghost use Rattle.clone_restores.specs.Due.{Restoration, answer_of};
ghost use Rattle.clone_restores.specs.Standing.{IsAnswer};
ghost use Rattle.clone_tools.specs.Due.{Clones, call_due, Work};
ghost use Rattle.clone_tools.specs.Runs.{MayWork, Ended, ReadsBack};
ghost use Rattle.dump_outputs.specs.Forms.{Putting};
ghost use Rattle.dump_ports.specs.declared.moment.Moment.{Moment};
ghost use Rattle.dump_ports.specs.Tree.{Tree};
ghost use Rattle.dump_tools.specs.Outputs.{World, Output, puts};
ghost use Rattle.dump_tools.specs.Runs.{Run};
ghost use Rattle.tool_words.specs.declared.outcome.Outcome.{Outcome as TheOutcome};
ghost use Rattle.tool_words.specs.declared.words.Teller.{Teller};

/// Where a clone is due and no row of its dump fails, each run that may come begins with all of the dump, whatever the second
/// half answers: where that refuses, the whole archive or script stays.
pub fn a_clone_leaves_its_dump()
    ensures { (teller : Teller) (due : Result Work TheOutcome) (first : Putting) (second : Result Restoration TheOutcome) (run : Run)
        → due ≡ Ok (Clones first second) → first.bad ≡ None → MayWork teller due run
        → (later : List Output) × (run.outputs ≡ map puts first.pieces ++ later) }
{}

/// Where a clone is due, no row of its dump fails, and the restore of it is due: one that has ended with `Done` or `WithErrors`
/// has that restore's answer, and the other folder, read again, stands for what the dump's statements or entries make of it one
/// after another, by names.
pub fn a_clone_leaves_what_its_dump_makes()
    ensures { (words : List Bytes) (moment : Moment) (tree : Tree) (input : Bytes) (first : Putting) (plan : Restoration) (answer : TheOutcome) (before after : World)
        → call_due words moment tree input ≡ Ok (Clones first (Ok plan)) → first.bad ≡ None → before.tree ≡ Some tree → IsAnswer answer → Ended words moment tree input answer before after
        → (answer ≡ answer_of plan) × ReadsBack plan after.tree }
{}
