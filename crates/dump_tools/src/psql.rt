//! psql: a script applied to a folder.
ghost use Rattle.std.specs.Prelude.{◌≡◌, ℕ, ◌⊎◌, Bool, List, Option, Some, None, true, false, IfOk, IfErr, IfSome, OnOk, OnErr, Result, Ok, Err};
ghost use Rattle.std.specs.Result.{result_ok};
ghost use Rattle.tool_words.specs.declared.words.Teller.{Teller};
ghost use Rattle.ddl_read.specs.located.Located.{Located as TheLocated};
ghost use Rattle.dump_ports.specs.Tree.{Tree};
ghost use Rattle.cat_model.specs.Values.{Bytes};
ghost use Rattle.cat_names.specs.Naming.{boot as boot_role};
ghost use Rattle.tool_words.specs.Answers.{Gives, CountsRead, IsDue, IsLate, IsRefusal, IsTold};
ghost use Rattle.tool_words.specs.Words.{is_input};
ghost use Rattle.schema_folders.specs.Statements.{are_taken};
ghost use Rattle.openings.specs.Openings.{opened};
ghost use Rattle.dump_tools.specs.Due.{AreFit, Applies, Runs, application_of, running_of, plan_of, IsTaken, schemas_for, IsFinal, answer_of, answer_of_run, stop_answer, script_read, running, runs_as, plan_with, plan_for, text_due, statements_due, psql_due, IsAnswerDue, IsUnread, IsCarriedOut, WasDue, counts, CountsStep, CountsWrites};
ghost use Rattle.tool_words.specs.Lines.{Appends, AppendsPart};
ghost use Rattle.dump_ports.specs.Faults.{CountsFault};
ghost use Rattle.dump_tools.specs.Inputs.{where_read, TellsLeft};
ghost use Rattle.dump_tools.specs.Outputs.{world};
ghost use Rattle.dump_tools.specs.Runs.{StepTakes, HasCut};

use crate::scripts::read_source;
use crate::tools::write_report;
use cat_model::What;
use cat_rows::Catalogue;
use copy_text::{Name, Text};
use ddl_read::{Located, read_stmts};
use dump_ports::{Files, Sink, Source};
use exports::{Export, read_export};
use openings::{Opening, open_export};
use saved_folders::write_texts;
use schema_folders::{Schemas, are_taken, bare_schemas, namespaces_text, run_script, write_folder};
use script_runs::{ScriptRun, boot_role, run_opening};
use std::alloc::{AllocError, Global};
use tool_words::{Outcome, ScriptSource, Stop};

/// The opening on which a script is run, and the role that owns what it creates.
#[derive(Drop)]
struct ScriptWork {
    opening: Opening,
    boot: Name,
}

/// What the statements of a script are carried out on: the schemas of a folder whose only objects they are, or its opening.
#[derive(Drop)]
enum Work {
    Schemas(Schemas),
    Script(ScriptWork),
}

/// The statements of a script, in order; empty ones are passed over. `BadScript` is the first place at which no statement
/// goes on.
#[tactic(auto, unfolding(crate::specs::Due::script_read))]
fn read_statements(alloc: Global, text: &[u8]) -> Result<Vec<Located>, Outcome>
    ensures exact { Gives (λ statements. statements.items) result (script_read text.now) }
    ensures fit { IfOk result (λ statements. AreFit statements.items) }
    ensures count { (n : ℕ) → CountsRead result n n }
{
    Ok(read_stmts(alloc, text)?)
}

/// The schemas of a catalogue, where they are its only objects, and the statements are all of schemas and run to their end.
fn schemas_for(
    alloc: Global,
    statements: &[Located],
    stop: bool,
    cat: &Catalogue,
) -> Result<Option<Schemas>, AllocError>
    ensures schemas { IfOk result (λ found. found ≡ schemas_for stop statements.now cat.now) }
    ensures taken { IfOk result (λ found. IfSome found (λ _. are_taken statements.now ≡ true)) }
{
    if !stop && are_taken(statements) {
        bare_schemas(alloc, cat)
    } else {
        Ok(None)
    }
}

/// The role of an opening to which what is created belongs.
fn boot_of(opening: &Opening) -> Result<Option<Name>, AllocError>
    ensures { IfOk result (λ name. name ≡ boot_role opening.now.cat) }
{
    boot_role(opening.export().catalogue().rows())
}

/// The work of a script on an opening, where the role is there.
fn work_with(opening: Opening, boot: Option<Name>) -> Result<Work, Outcome>
    requires { boot ≡ boot_role opening.cat }
    ensures due { (folder : Bytes) (stop : Bool) (statements : List TheLocated) → Gives (plan_of folder stop statements) result (runs_as folder stop statements opening boot) }
    ensures taken { (statements : List TheLocated) → IfOk result (IsTaken statements) }
    ensures count { (n : ℕ) → CountsRead result n n }
{
    match boot {
        Some(boot) => Ok(Work::Script(ScriptWork { opening, boot })),
        None => {
            drop(opening);
            Err(Outcome::OutOfProfile(What::Unbuilt))
        }
    }
}

/// The work of a script on an opening.
fn opening_work(opening: Opening) -> Result<Work, Outcome>
    ensures due { (folder : Bytes) (stop : Bool) (statements : List TheLocated) → Gives (plan_of folder stop statements) result (runs_as folder stop statements opening (boot_role opening.cat)) }
    ensures taken { (statements : List TheLocated) → IfOk result (IsTaken statements) }
    ensures count { (n : ℕ) → CountsRead result n n }
{
    match boot_of(&opening) {
        Ok(boot) => work_with(opening, boot),
        Err(AllocError) => {
            drop(opening);
            Err(Outcome::Memory)
        }
    }
}

/// The work of a script on an export, whose rows have to meet their tables.
fn export_work(alloc: Global, export: Export) -> Result<Work, Outcome>
    ensures due { (folder : Bytes) (stop : Bool) (statements : List TheLocated) → Gives (plan_of folder stop statements) result (running folder stop statements export) }
    ensures taken { (statements : List TheLocated) → IfOk result (IsTaken statements) }
    ensures count { (n : ℕ) → CountsRead result n n }
{
    let opening = open_export(alloc, export)?;
    opening_work(opening)
}

/// The work of a script on an export, where its schemas are known to be all that counts, or not.
fn work_of(alloc: Global, export: Export, schemas: Option<Schemas>) -> Result<Work, Outcome>
    ensures due { (folder : Bytes) (stop : Bool) (statements : List TheLocated) → Gives (plan_of folder stop statements) result (plan_with folder stop statements export schemas) }
    ensures taken { (statements : List TheLocated) → IfSome schemas (λ _. are_taken statements ≡ true) → IfOk result (IsTaken statements) }
    ensures count { (n : ℕ) → CountsRead result n n }
{
    match schemas {
        Some(schemas) => {
            drop(export);
            Ok(Work::Schemas(schemas))
        }
        None => export_work(alloc, export),
    }
}

/// What psql carries out the statements of a script on, where this is the export of a folder.
#[tactic(auto, unfolding(crate::specs::Due::plan_for))]
fn plan_work(
    alloc: Global,
    statements: &[Located],
    stop: bool,
    export: Export,
) -> Result<Work, Outcome>
    ensures due { (folder : Bytes) → Gives (plan_of folder stop statements.now) result (plan_for folder stop statements.now export) }
    ensures taken { IfOk result (IsTaken statements.now) }
    ensures count { (n : ℕ) → CountsRead result n n }
{
    match schemas_for(alloc, statements, stop, export.catalogue().rows()) {
        Ok(schemas) => work_of(alloc, export, schemas),
        Err(AllocError) => {
            drop(export);
            Err(Outcome::Memory)
        }
    }
}

/// Reads the folder to which the statements of a script are applied.
fn read_plan<F: Files>(
    alloc: Global,
    files: &mut F,
    folder: &Text,
    stop: bool,
    statements: &[Located],
) -> Result<Work, Outcome>
    ensures due { (tree : Tree) → F.tree files.old ≡ Some tree → Gives (plan_of folder.now stop statements.now) result (statements_due folder.now stop statements.now tree) }
    ensures taken { IfOk result (IsTaken statements.now) }
    ensures kept { F.tree files.new ≡ F.tree files.old }
    ensures read_count { CountsRead result (F.read_faults files.old) (F.read_faults files.new) }
    ensures write_count { F.write_faults files.new ≡ F.write_faults files.old }
{
    let export = read_export(alloc, files, folder)?;
    plan_work(alloc, statements, stop, export)
}

/// Applies the statements to the schemas, writes the folder, then the report.
fn apply_schemas<F: Files, E: Sink>(
    alloc: Global,
    files: &mut F,
    err: &mut E,
    folder: &Text,
    statements: &[Located],
    mut schemas: Schemas,
) -> Result<Outcome, Outcome>
    requires { are_taken statements.now ≡ true }
    ensures answers { IfOk result (λ answer. answer ≡ Outcome.Done) }
    ensures ends { IfOk result IsFinal }
    ensures ok { OnOk result ((printed : Option (List ℕ)) → IsCarriedOut (Applies (application_of folder.now statements.now schemas)) (F.tree files.old) (F.tree files.new) printed printed (E.written err.old) (E.written err.new)) }
    ensures late { IfErr result IsLate }
    ensures unread { IfErr result IsUnread }
    ensures cut { OnErr result ((teller : Teller) (left printed : Option (List ℕ)) → HasCut None teller (Ok (Applies (application_of folder.now statements.now schemas))) (world (F.tree files.old) left printed (E.written err.old)) (world (F.tree files.new) left printed (E.written err.new))) }
    ensures silent { IfErr result (λ outcome. IsTold outcome → E.written err.new ≡ E.written err.old) }
    ensures read_count { F.read_faults files.new ≡ F.read_faults files.old }
    ensures write_count { CountsWrites result (F.write_faults files.old) (F.write_faults files.new) (E.faults err.old) (E.faults err.new) }
{
    let report = run_script(alloc, &mut schemas, statements)?;
    let namespaces = namespaces_text(alloc, schemas)?;
    write_folder(alloc, files, folder, &namespaces)?;
    write_report(err, &report, Outcome::Done)
}

/// The answer of a script that stopped, or didn't.
fn stop_answer(stopped: Option<Stop>) -> Outcome
    ensures answers { result ≡ stop_answer stopped }
    ensures ends { IsFinal result }
{
    match stopped {
        Some(stop) => Outcome::ScriptStopped(stop),
        None => Outcome::Done,
    }
}

/// Tells what is to be told of a script that ran, and gives its answer.
fn tell_run<E: Sink>(err: &mut E, run: ScriptRun) -> Result<Outcome, Outcome>
    ensures answers { IfOk result (λ answer. answer ≡ stop_answer run.stopped) }
    ensures ends { IfOk result IsFinal }
    ensures ok { OnOk result (Appends run.report.items (E.written err.old) (E.written err.new)) }
    ensures failed { IfErr result (λ outcome. outcome ≡ Outcome.WriteFault) }
    ensures err { OnErr result (AppendsPart run.report.items (E.written err.old) (E.written err.new)) }
    ensures count { CountsFault result (E.faults err.old) (E.faults err.new) }
{
    let ScriptRun {
        texts,
        report,
        stopped,
    } = run;
    drop(texts);
    let answer = stop_answer(stopped);
    write_report(err, &report, answer)
}

/// Runs the statements on the opening, writes the folder, then the report.
fn run_script_work<F: Files, E: Sink>(
    alloc: Global,
    files: &mut F,
    err: &mut E,
    folder: &Text,
    statements: &[Located],
    stop: bool,
    work: ScriptWork,
) -> Result<Outcome, Outcome>
    requires role { boot_role work.opening.cat ≡ Some work.boot }
    requires fit { AreFit statements.now }
    ensures answers { IfOk result (λ answer. answer ≡ answer_of_run (running_of folder.now stop statements.now work)) }
    ensures ends { IfOk result IsFinal }
    ensures ok { OnOk result ((printed : Option (List ℕ)) → IsCarriedOut (Runs (running_of folder.now stop statements.now work)) (F.tree files.old) (F.tree files.new) printed printed (E.written err.old) (E.written err.new)) }
    ensures unread { IfErr result IsUnread }
    ensures refused { IfErr result (λ outcome. IsAnswerDue outcome (Ok (Runs (running_of folder.now stop statements.now work)))) }
    ensures kept { IfErr result (λ outcome. IsRefusal outcome → F.tree files.new ≡ F.tree files.old) }
    ensures cut { OnErr result ((teller : Teller) (left printed : Option (List ℕ)) → HasCut None teller (Ok (Runs (running_of folder.now stop statements.now work))) (world (F.tree files.old) left printed (E.written err.old)) (world (F.tree files.new) left printed (E.written err.new))) }
    ensures silent { IfErr result (λ outcome. IsTold outcome → E.written err.new ≡ E.written err.old) }
    ensures read_count { F.read_faults files.new ≡ F.read_faults files.old }
    ensures write_count { CountsWrites result (F.write_faults files.old) (F.write_faults files.new) (E.faults err.old) (E.faults err.new) }
{
    let ScriptWork { opening, boot } = work;
    let run = run_opening(alloc, opening, boot, statements, stop)?;
    match write_texts(alloc, files, folder, &run.texts) {
        Ok(()) => tell_run(err, run),
        Err(outcome) => {
            drop(run);
            Err(outcome)
        }
    }
}

/// Carries out the statements of a script, writes the folder, then the report.
fn carry_out<F: Files, E: Sink>(
    alloc: Global,
    files: &mut F,
    err: &mut E,
    folder: &Text,
    statements: &[Located],
    stop: bool,
    work: Work,
) -> Result<Outcome, Outcome>
    requires taken { IsTaken statements.now work }
    requires fit { AreFit statements.now }
    ensures answers { IfOk result (λ answer. answer ≡ answer_of (plan_of folder.now stop statements.now work)) }
    ensures ends { IfOk result IsFinal }
    ensures ok { OnOk result ((printed : Option (List ℕ)) → IsCarriedOut (plan_of folder.now stop statements.now work) (F.tree files.old) (F.tree files.new) printed printed (E.written err.old) (E.written err.new)) }
    ensures unread { IfErr result IsUnread }
    ensures refused { IfErr result (λ outcome. IsAnswerDue outcome (Ok (plan_of folder.now stop statements.now work))) }
    ensures kept { IfErr result (λ outcome. IsRefusal outcome → F.tree files.new ≡ F.tree files.old) }
    ensures cut { OnErr result ((teller : Teller) (left printed : Option (List ℕ)) → HasCut None teller (Ok (plan_of folder.now stop statements.now work)) (world (F.tree files.old) left printed (E.written err.old)) (world (F.tree files.new) left printed (E.written err.new))) }
    ensures silent { IfErr result (λ outcome. IsTold outcome → E.written err.new ≡ E.written err.old) }
    ensures read_count { F.read_faults files.new ≡ F.read_faults files.old }
    ensures write_count { CountsWrites result (F.write_faults files.old) (F.write_faults files.new) (E.faults err.old) (E.faults err.new) }
{
    match work {
        Work::Schemas(schemas) => apply_schemas(alloc, files, err, folder, statements, schemas),
        Work::Script(script) => {
            run_script_work(alloc, files, err, folder, statements, stop, script)
        }
    }
}

/// Applies a script to a folder.
pub(crate) fn psql<F: Files, I: Source, E: Sink>(
    alloc: Global,
    files: &mut F,
    input: &mut I,
    err: &mut E,
    folder: &Text,
    script: &ScriptSource,
    stop: bool,
) -> Result<Outcome, Outcome>
    ensures ends { IfOk result IsFinal }
    ensures done { IfOk result (λ answer. (tree : Tree) (bytes : Bytes) (printed : Option (List ℕ)) → F.tree files.old ≡ Some tree → TellsLeft (is_input script.now) (I.left input.old) bytes → WasDue (psql_due folder.now script.now stop tree bytes) answer (F.tree files.old) (F.tree files.new) printed printed (E.written err.old) (E.written err.new)) }
    ensures refused { IfErr result (λ outcome. (tree : Tree) (bytes : Bytes) → F.tree files.old ≡ Some tree → TellsLeft (is_input script.now) (I.left input.old) bytes → IsAnswerDue outcome (psql_due folder.now script.now stop tree bytes)) }
    ensures kept { IfErr result (λ outcome. IsRefusal outcome → F.tree files.new ≡ F.tree files.old) }
    ensures unread { is_input script.now ≡ false → input.new ≡ input.old }
    ensures taken { (bytes : Bytes) → TellsLeft (is_input script.now) (I.left input.old) bytes → StepTakes result (where_read (is_input script.now) bytes) (I.left input.old) (I.left input.new) }
    ensures cut { OnErr result ((teller : Teller) (tree : Tree) (bytes : Bytes) (printed : Option (List ℕ)) → F.tree files.old ≡ Some tree → TellsLeft (is_input script.now) (I.left input.old) bytes → HasCut (where_read (is_input script.now) bytes) teller (psql_due folder.now script.now stop tree bytes) (world (F.tree files.old) (I.left input.old) printed (E.written err.old)) (world (F.tree files.new) (I.left input.new) printed (E.written err.new))) }
    ensures silent { IfErr result (λ outcome. IsTold outcome → E.written err.new ≡ E.written err.old) }
    ensures counted { (prints : ℕ) → CountsStep result (counts (F.read_faults files.old) (I.faults input.old) (F.write_faults files.old) prints (E.faults err.old)) (counts (F.read_faults files.new) (I.faults input.new) (F.write_faults files.new) prints (E.faults err.new)) }
{
    let text = read_source(alloc, files, input, script)?;
    apply(alloc, files, err, folder, stop, &text)
}

/// Applies the text of a script to a folder.
fn apply<F: Files, E: Sink>(
    alloc: Global,
    files: &mut F,
    err: &mut E,
    folder: &Text,
    stop: bool,
    text: &[u8],
) -> Result<Outcome, Outcome>
    ensures ends { IfOk result IsFinal }
    ensures done { IfOk result (λ answer. (tree : Tree) (printed : Option (List ℕ)) → F.tree files.old ≡ Some tree → WasDue (text_due folder.now stop text.now tree) answer (F.tree files.old) (F.tree files.new) printed printed (E.written err.old) (E.written err.new)) }
    ensures refused { IfErr result (λ outcome. (tree : Tree) → F.tree files.old ≡ Some tree → IsAnswerDue outcome (text_due folder.now stop text.now tree)) }
    ensures kept { IfErr result (λ outcome. IsRefusal outcome → F.tree files.new ≡ F.tree files.old) }
    ensures cut { OnErr result ((teller : Teller) (tree : Tree) (left printed : Option (List ℕ)) → F.tree files.old ≡ Some tree → HasCut None teller (text_due folder.now stop text.now tree) (world (F.tree files.old) left printed (E.written err.old)) (world (F.tree files.new) left printed (E.written err.new))) }
    ensures silent { IfErr result (λ outcome. IsTold outcome → E.written err.new ≡ E.written err.old) }
    ensures counted { (inputs prints : ℕ) → CountsStep result (counts (F.read_faults files.old) inputs (F.write_faults files.old) prints (E.faults err.old)) (counts (F.read_faults files.new) inputs (F.write_faults files.new) prints (E.faults err.new)) }
{
    let statements = read_statements(alloc, text)?;
    let answer = apply_statements(alloc, files, err, folder, stop, &statements);
    drop(statements);
    answer
}

/// Applies the statements of a script to a folder.
fn apply_statements<F: Files, E: Sink>(
    alloc: Global,
    files: &mut F,
    err: &mut E,
    folder: &Text,
    stop: bool,
    statements: &[Located],
) -> Result<Outcome, Outcome>
    requires { AreFit statements.now }
    ensures ends { IfOk result IsFinal }
    ensures done { IfOk result (λ answer. (tree : Tree) (printed : Option (List ℕ)) → F.tree files.old ≡ Some tree → WasDue (statements_due folder.now stop statements.now tree) answer (F.tree files.old) (F.tree files.new) printed printed (E.written err.old) (E.written err.new)) }
    ensures refused { IfErr result (λ outcome. (tree : Tree) → F.tree files.old ≡ Some tree → IsAnswerDue outcome (statements_due folder.now stop statements.now tree)) }
    ensures kept { IfErr result (λ outcome. IsRefusal outcome → F.tree files.new ≡ F.tree files.old) }
    ensures cut { OnErr result ((teller : Teller) (tree : Tree) (left printed : Option (List ℕ)) → F.tree files.old ≡ Some tree → HasCut None teller (statements_due folder.now stop statements.now tree) (world (F.tree files.old) left printed (E.written err.old)) (world (F.tree files.new) left printed (E.written err.new))) }
    ensures silent { IfErr result (λ outcome. IsTold outcome → E.written err.new ≡ E.written err.old) }
    ensures counted { (inputs prints : ℕ) → CountsStep result (counts (F.read_faults files.old) inputs (F.write_faults files.old) prints (E.faults err.old)) (counts (F.read_faults files.new) inputs (F.write_faults files.new) prints (E.faults err.new)) }
{
    let work = read_plan(alloc, files, folder, stop, statements)?;
    carry_out(alloc, files, err, folder, statements, stop, work)
}
