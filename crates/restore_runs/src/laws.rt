//! Laws of the definitions, each the contract of a function that does nothing.
ghost use Rattle.std.specs.Prelude.{◌≡◌, List, [], ◌∷◌, map, true, false, None, Some, codes};
ghost use Rattle.cat_model.specs.Values.{Bytes, Named};
ghost use Rattle.restore_plan.specs.Chains.{are_distinct};
ghost use Rattle.restore_plan.specs.Serial.{serial, serial_until};
ghost use Rattle.restore_plan.specs.declared.planned.Planned.{Planned};
ghost use Rattle.toc_entry.specs.declared.entry.Entry.{Entry};
ghost use Rattle.restore_runs.specs.FirstErrors.{errors_told, first_of};
ghost use Rattle.restore_runs.specs.InTurn.{told_in_turn};
ghost use Rattle.cat_model.specs.declared.cause.Cause.TheVariants as cause;
ghost use Rattle.cat_model.specs.declared.key.Key.TheVariants as key;
ghost use Rattle.restore_plan.specs.declared.status.EntryStatus.TheVariants.{Done};
ghost use Rattle.restore_plan.specs.Examples.{with_public, postgres, two_schemas, equal_parents};
ghost use Rattle.restore_runs.specs.Endings.{ending};
ghost use Rattle.restore_runs.specs.Reports.{entry_lines, report, stop_told};
ghost use Rattle.restore_runs.specs.Examples.{tool, two_archived, second_refused, second_told, stop_at_second, parents_archived, key_refused, key_told, owned_archived, owned_came, owners_noted, owners_told};

use restore_plan::{one_schema_twice, parents_and_children};

/// Worked examples, computed from the definitions: an entry that is refused, one that is skipped, owners that aren't there,
/// an entry at which a restore stops, and a restore without errors, of which nothing is told.
pub fn worked_reports()
    ensures refused { report tool two_archived second_refused [] ≡ second_told }
    ensures skipped { report tool parents_archived key_refused [] ≡ key_told }
    ensures owners { report tool owned_archived owned_came owners_noted ≡ owners_told }
    ensures stopped { stop_told tool (Some (6, cause.Exists (key.Schema (codes "a")))) ≡ stop_at_second }
    ensures nothing { report tool two_archived (Done ∷ Done ∷ []) [] ≡ [] }
{}

/// The lines of a restore are those that each of its entries tells in its turn: its refused owner statements, and then that
/// it was refused or skipped. This holds of entries with distinct dump ids, as those of an archive are.
pub fn lines_stand_in_turn()
    ensures { (teller boot : Bytes) (named : Named) (entries : List Entry) (plan : List Planned)
        → map (λ e. e.dump_id) entries ≡ map (λ p. p.id) plan → are_distinct (map (λ p. p.id) plan) ≡ true
        → entry_lines teller entries (serial boot named plan).statuses (serial boot named plan).notes ≡ told_in_turn teller boot named entries plan }
{}

/// A restore that is to stop does so at the first error that one which goes on tells; where that one tells none, both leave
/// the same.
pub fn restores_stop_at_the_first_error()
    ensures at { (boot : Bytes) (named : Named) (plan : List Planned) → (serial_until boot named plan).at ≡ first_of (errors_told boot named plan) }
    ensures left { (boot : Bytes) (named : Named) (plan : List Planned) → first_of (errors_told boot named plan) ≡ None → (serial_until boot named plan).catalogue ≡ (serial boot named plan).catalogue }
{}

/// Worked examples of whole restores: two entries make one schema, and the second is told; two rows of a parent have one
/// key, so that its primary key is refused and the foreign key is skipped.
pub fn worked_restores()
    ensures schemas { (ending false tool postgres two_archived two_schemas with_public).told ≡ second_told }
    ensures one { (ending false tool postgres two_archived two_schemas with_public).errors ≡ 1 }
    ensures parents { (ending false tool postgres parents_archived equal_parents with_public).told ≡ key_told }
    ensures on { (ending false tool postgres parents_archived equal_parents with_public).stopped ≡ None }
{
    one_schema_twice();
    parents_and_children();
}
