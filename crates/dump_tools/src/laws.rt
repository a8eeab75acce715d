//! Laws of the definitions, each the contract of a function that does nothing.
ghost use Rattle.std.specs.List.{AllByRecursion};
ghost use Rattle.restore_tools.specs.Written.{tree_after, files_written as files_restored};
ghost use Rattle.restore_tools.specs.Due.{Restoring, report_of as report_of_restore};
ghost use Rattle.saved_folders.specs.Exports.{WithTexts};
ghost use Rattle.saved_folders.specs.Folders.{Texts, files_of};
ghost use Rattle.std.specs.Prelude.{◌≡◌, ◌≢◌, ◌++◌, ◌∷◌, [], List, Option, None, Result, map, option_map};
ghost use Rattle.cat_model.specs.Values.{Bytes};
ghost use Rattle.schema_folders.specs.Folder.{IsElsewhere, files_written, folder_saved};
ghost use Rattle.tool_words.specs.Messages.{outcome_line};
ghost use Rattle.tool_words.specs.declared.outcome.Outcome.{Outcome};
ghost use Rattle.tool_words.specs.declared.words.Teller.{Teller};
ghost use Rattle.dump_tools.specs.Outputs.{World, world, Output, Tells, all_performed, CutShort, stores};
ghost use Rattle.dump_tools.specs.Due.{Application, Plan, report_of};
ghost use Rattle.dump_tools.specs.Runs.{Run, told_run, IsApplied, IsRestored, MayCome, MayRun};
ghost use Rattle.dump_tools.specs.Stays.{AreOthers, Keeps, AreSilent, AllTakeNone};

/// However far a run came, each file that none of its outputs makes holds what it held; standard input has what it had,
/// where none of its outputs takes anything off it, and standard output too, where none is printed.
pub fn the_rest_stays()
    ensures files { (outputs : List Output) (before after : World) (name : Bytes) → CutShort outputs before after → AreOthers name outputs → Keeps name before after }
    ensures input { (outputs : List Output) (before after : World) → CutShort outputs before after → AllTakeNone outputs → after.left ≡ before.left }
    ensures printed { (outputs : List Output) (before after : World) → CutShort outputs before after → AreSilent outputs → after.printed ≡ before.printed }
{}

/// Whatever is due, nothing is taken off standard input but what comes first of a run; and nothing comes first of a run
/// that doesn't read it.
pub fn standard_input_is_taken_first()
    ensures later { (teller : Teller) (due : Result Plan Outcome) (run : Run) → MayCome teller due run → AllTakeNone run.outputs }
    ensures unread { (teller : Teller) (due : Result Plan Outcome) (run : Run) → MayRun None teller due run → AllTakeNone run.outputs }
{}

/// A run of all its outputs is one that is cut behind the last of them.
pub fn a_whole_run_is_cut_behind_its_end()
    ensures { (outputs : List Output) (before : World) → CutShort outputs before (all_performed outputs before) }
{}

/// A script that is applied makes the files of its folder and no others, and prints nothing, whatever it reports.
pub fn a_script_makes_its_folder_alone()
    ensures files { (folder namespaces report name : Bytes) → IsElsewhere folder name → AreOthers name (map stores (files_written folder namespaces) ++ Tells report ∷ []) }
    ensures printed { (folder namespaces report : Bytes) → AreSilent (map stores (files_written folder namespaces) ++ Tells report ∷ []) }
{}

/// A script that is run on an opening makes the files of its folder and no others, and prints nothing, whatever it reports.
pub fn a_run_makes_its_folder_alone()
    ensures files { (folder report name : Bytes) (texts : Texts) → AllByRecursion (λ file. name ≢ file.name) (files_of folder texts) → AreOthers name (map stores (files_of folder texts) ++ Tells report ∷ []) }
    ensures printed { (folder report : Bytes) (texts : Texts) → AreSilent (map stores (files_of folder texts) ++ Tells report ∷ []) }
{}

/// A restore into a folder makes the files of that folder and no others, or none where it stopped and is undone, and prints
/// nothing, whatever it reports.
pub fn a_restore_makes_its_folder_alone()
    ensures files { (folder report name : Bytes) (texts : Option WithTexts) → AllByRecursion (λ file. name ≢ file.name) (files_restored folder texts) → AreOthers name (map stores (files_restored folder texts) ++ Tells report ∷ []) }
    ensures undone { (folder report name : Bytes) → AreOthers name (map stores (files_restored folder None) ++ Tells report ∷ []) }
    ensures printed { (folder report : Bytes) (texts : Option WithTexts) → AreSilent (map stores (files_restored folder texts) ++ Tells report ∷ []) }
{}

/// After a refusal files, standard input and standard output are as they were, and standard error has grown by its line.
pub fn a_refusal_leaves_its_line()
    ensures { (teller : Teller) (refusal : Outcome) (before : World)
        → all_performed (told_run teller refusal).outputs before ≡ world before.tree before.left before.printed (option_map (λ told. told ++ outcome_line teller refusal) before.told) }
{}

/// Once a script is applied, its folder holds the files that were written, and standard error has grown by the report.
pub fn an_applied_script_leaves_its_folder()
    ensures { (plan : Application) (run : Run) (before : World) (applied : IsApplied plan run)
        → all_performed run.outputs before ≡ world (option_map (folder_saved plan.folder applied.text) before.tree) before.left before.printed (option_map (λ told. told ++ report_of plan) before.told) }
{}

/// Once an archive is restored, its folder holds the files that were written, or what it held where the restore stopped and
/// is undone, and standard error has grown by the report.
pub fn a_restore_leaves_its_folder()
    ensures { (plan : Restoring) (run : Run) (before : World) (restored : IsRestored plan run)
        → all_performed run.outputs before ≡ world (option_map (tree_after plan.folder restored.texts) before.tree) before.left before.printed (option_map (λ told. told ++ report_of_restore plan) before.told) }
{}
