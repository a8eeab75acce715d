//! Laws of the definitions, each the contract of a function that does nothing.
ghost use Rattle.std.specs.Prelude.{◌≡◌, ℕ, Bool, List, Option, Some, Ok};
ghost use Rattle.dump_ports.specs.Tree.{Tree};
ghost use Rattle.cat_model.specs.Values.{Bytes};
ghost use Rattle.cat_names.specs.Naming.{boot};
ghost use Rattle.ddl_laws.specs.located.Located.{Located};
ghost use Rattle.ddl_laws.specs.Reading.{statements_of};
ghost use Rattle.exports.specs.Exports.{Exported};
ghost use Rattle.openings.specs.Openings.{opened_folder, export_named};
ghost use Rattle.opening_sound.specs.Export.{CanBeExported};
ghost use Rattle.restores_sound.specs.Fit.{AreFitEntries};
ghost use Rattle.restore_plan.specs.declared.entry.Entry as planned;
ghost use Rattle.restore_runs.specs.Endings.{ending as restore_ending};
ghost use Rattle.restore_runs.specs.Wanted.{wanted_due};
ghost use Rattle.script_runs.specs.Stopping.{ending as script_ending};
ghost use Rattle.toc_entry.specs.declared.entry.Entry.{Entry};

/// What psql's script leaves of a folder that was taken in can be exported: where it runs to its end, and where it stops at the
/// first statement that is refused.
pub fn what_psql_leaves_can_be_exported()
    ensures { (folder : Bytes) (tree : Tree) (opening : Exported) (role : Bytes) (text : List ℕ) (statements : List Located) (stop : Bool) → opened_folder folder tree ≡ Ok opening → boot opening.cat ≡ Some role → statements_of text ≡ Ok statements → CanBeExported opening.cat (script_ending stop role statements (export_named opening)).left }
{}

/// The statements of entries that a restore takes are fit: those that were read of their texts, and their owner statements.
pub fn entries_that_are_read_are_fit()
    ensures { (owners : Bool) (entries : List Entry) (rows : List (Option (List ℕ))) (wanted : List planned.Entry) → wanted_due owners entries rows ≡ Ok wanted → AreFitEntries wanted }
{}

/// What a restore of them with one worker leaves of a folder that was taken in can be exported: where it goes on behind
/// refusals, and where it stops at the first.
pub fn what_restores_leave_can_be_exported()
    ensures { (folder : Bytes) (tree : Tree) (opening : Exported) (role teller : Bytes) (owners : Bool) (entries : List Entry) (rows : List (Option (List ℕ))) (wanted : List planned.Entry) (stop : Bool) → opened_folder folder tree ≡ Ok opening → boot opening.cat ≡ Some role → wanted_due owners entries rows ≡ Ok wanted → CanBeExported opening.cat (restore_ending stop teller role entries wanted (export_named opening)).left }
{}
