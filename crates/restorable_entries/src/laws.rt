//! Laws of the definitions, each the contract of a function that does nothing.
ghost use Rattle.std.specs.Prelude.{◌≡◌, ◌≤◌, ℕ, Bool, false, List, [], ◌∷◌, ◌++◌, map, Option, Ok};
ghost use Rattle.std.specs.Global.{Vec};
ghost use Rattle.std.specs.List.{filter};
ghost use Rattle.cat_model.specs.declared.object.QName.{QName};
ghost use Rattle.cat_model.specs.Values.{Bytes};
ghost use Rattle.cat_rows.specs.declared.catalogue.Catalogue.{Catalogue};
ghost use Rattle.dump_toc.specs.Toc.{toc};
ghost use Rattle.fmt_text.specs.Parts.{is_of_session};
ghost use Rattle.obj_graph.specs.declared.select.Select.{Select};
ghost use Rattle.plan_entries.specs.Plans.{plan_due};
ghost use Rattle.restore_plan.specs.Entries.{deps, waits_for};
ghost use Rattle.restore_plan.specs.Order.{plan_behind};
ghost use Rattle.script_laws.specs.Scripts.{AllEntries, entry_statements};
ghost use Rattle.stmt_laws.specs.Named.{HoldsCells};
ghost use Rattle.toc_entry.specs.declared.entry.Entry.{Entry};
ghost use Rattle.toc_laws.specs.Dumps.{HaveRows, entries_in};
ghost use Rattle.well_formed.specs.Formed.{IsWellFormed};
ghost use Rattle.restorable_entries.specs.Planned.{steps_of, planned_as, AreChosen, AreArchived, texts_in};

use ddl_laws::laws::{laid_out_statements_are_read, what_can_be_written_is_spelled};
use dump_script_laws::laws::entries_stand_behind_what_they_need;
use grant_laws::laws::grants_can_be_written;
use text_laws::laws::texts_of_rows_can_be_written;
use toc_kinds::laws::dumps_have_such_entries;

/// Of the entries of a dump of a well-formed catalogue, read from an archive with their rows, any can be restored, in any order:
/// each reads as its statements, and none is left out.
pub fn entries_of_dumps_can_be_restored()
    ensures { (cat : Catalogue) (select : Select) (entries chosen archived : AllEntries) (owners : Bool) (parents : List (QName × QName))
        → HoldsCells cat → IsWellFormed cat → toc cat select ≡ Ok (entries_in entries) → HaveRows entries
        → AreChosen entries chosen → AreArchived chosen archived
        → plan_due parents owners (entries_in archived) (texts_in archived)
        ≡ Ok (record { entries = entries_in archived; planned = plan_behind parents [] (map (planned_as owners) chosen) }) }
{
    laid_out_statements_are_read();
    texts_of_rows_can_be_written();
    grants_can_be_written();
    what_can_be_written_is_spelled();
}

/// What is restored of an entry is what it says in a script: the same statements in the same order.
pub fn restores_do_what_scripts_say()
    ensures { (owners : Bool) (e : Entry) (rows : Option Bytes) → is_of_session e.desc ≡ false
        → map (λ s. s.statement) (steps_of owners e rows) ≡ entry_statements owners e rows }
{}

/// Each entry of a dump depends on all that it lists, in the order of the dump: all of it stands before it, also where entries
/// are left out that set up the session or make the database. In the section post-data a table's rows stand for the table.
pub fn entries_depend_on_all_that_they_list()
    ensures { (cat : Catalogue) (select : Select) (entries before behind : AllEntries) (e : Entry × Option (Vec ℕ)) (owners : Bool) (kept : Entry → Bool)
        → toc cat select ≡ Ok (entries_in entries) → ((x : Entry) → kept x ≡ false → x.dump_id ≤ 4)
        → filter (λ x. kept x.0) entries ≡ before ++ e ∷ behind
        → deps (map (planned_as owners) before) (planned_as owners e) ≡ waits_for (map (planned_as owners) before) (planned_as owners e) }
{
    entries_stand_behind_what_they_need();
    dumps_have_such_entries();
}
