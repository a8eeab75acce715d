//! A script in a file, run on the opening of a folder.
ghost use Rattle.std.specs.Prelude.{◌≡◌, ℕ, Some, IfErr, IfOk};
ghost use Rattle.cat_model.specs.Values.{Bytes};
ghost use Rattle.cat_names.specs.Naming.{boot as boot_role};
ghost use Rattle.script_runs.specs.Export.{CanBeExported};
ghost use Rattle.dump_ports.specs.Tree.{Tree};
ghost use Rattle.openings.specs.Openings.{export_named};
ghost use Rattle.restore_tools.specs.Standing.{CountsReads, CountsWrites};
ghost use Rattle.schema_folders.specs.Run.{catalogue_after, refusals};
ghost use Rattle.script_runs.specs.Writing.{IsUnwritten, StandFor};
ghost use Rattle.tool_words.specs.Answers.{Gives, CountsRead};
ghost use Rattle.clone_restores.specs.Due.{script_read, script_with, text_due, script_due};
ghost use Rattle.clone_restores.specs.Lines.{report};
ghost use Rattle.clone_restores.specs.Seen.{AreFit, IsReadyScript, script_plan};
ghost use Rattle.clone_restores.specs.Standing.{IsAnswer, WasRestored, IsNotRestored};

use crate::restored::{Restored, finish};
use crate::running::run_statements;
use cat_engine::Engine;
use cat_model::What;
use cat_rows::Catalogue;
use copy_text::{Name, Text};
use ddl_read::{Located, read_stmts};
use dump_ports::{Files, Sink};
use eng_map::NamedMap;
use openings::{Opening, read_opening};
use schema_folders::read_file;
use script_runs::{boot_role, named_texts};
use std::alloc::{AllocError, Global};
use tool_words::{Limit, Outcome};

/// The most bytes of a script.
const SCRIPT_LIMIT: u64 = 268_435_456;

/// The statements of a script, the opening on which they are carried out, and the role that owns what they create.
#[derive(Drop)]
struct ScriptWork {
    statements: Vec<Located>,
    opening: Opening,
    boot: Name,
}

// The statements of a script, in order.
#[tactic(auto, unfolding(crate::specs::Due::script_read))]
fn read_statements(alloc: Global, text: &[u8]) -> Result<Vec<Located>, Outcome>
    ensures exact { Gives (λ statements. statements.items) result (script_read text.now) }
    ensures fit { IfOk result (λ statements. AreFit statements.items) }
    ensures count { (n : ℕ) → CountsRead result n n }
{
    Ok(read_stmts(alloc, text)?)
}

// The role of an opening to which what is created belongs.
fn boot_of(opening: &Opening) -> Result<Option<Name>, AllocError>
    ensures { IfOk result (λ name. name ≡ boot_role opening.now.cat) }
{
    boot_role(opening.export().catalogue().rows())
}

// The work of a script on an opening, where the role is there.
fn work_with(
    statements: Vec<Located>,
    opening: Opening,
    boot: Option<Name>,
) -> Result<ScriptWork, Outcome>
    requires role { boot ≡ boot_role opening.cat }
    requires fit { AreFit statements.items }
    ensures due { (teller folder : Bytes) → Gives (script_plan teller folder) result (script_with teller folder statements.items opening boot) }
    ensures ready { IfOk result IsReadyScript }
    ensures count { (n : ℕ) → CountsRead result n n }
{
    match boot {
        Some(boot) => Ok(ScriptWork {
            statements,
            opening,
            boot,
        }),
        None => Err(Outcome::OutOfProfile(What::Unbuilt)),
    }
}

// The work of a script on an opening.
fn opening_work(statements: Vec<Located>, opening: Opening) -> Result<ScriptWork, Outcome>
    requires { AreFit statements.items }
    ensures due { (teller folder : Bytes) → Gives (script_plan teller folder) result (script_with teller folder statements.items opening (boot_role opening.cat)) }
    ensures ready { IfOk result IsReadyScript }
    ensures count { (n : ℕ) → CountsRead result n n }
{
    let boot = boot_of(&opening)?;
    work_with(statements, opening, boot)
}

// Reads the statements of a script, then the folder.
#[tactic(auto, unfolding(crate::specs::Due::text_due))]
fn text_work<F: Files>(
    alloc: Global,
    files: &mut F,
    folder: &Text,
    text: &[u8],
) -> Result<ScriptWork, Outcome>
    ensures due { (tree : Tree) (teller : Bytes) → F.tree files.old ≡ Some tree → Gives (script_plan teller folder.now) result (text_due teller folder.now text.now tree) }
    ensures ready { IfOk result IsReadyScript }
    ensures kept { F.tree files.new ≡ F.tree files.old }
    ensures read_count { CountsRead result (F.read_faults files.old) (F.read_faults files.new) }
    ensures write_count { F.write_faults files.new ≡ F.write_faults files.old }
{
    let statements = read_statements(alloc, text)?;
    let opening = read_opening(alloc, files, folder)?;
    opening_work(statements, opening)
}

// Reads the text of a script, its statements, then the folder.
#[tactic(auto, unfolding(crate::specs::Due::script_due))]
fn script_work<F: Files>(
    alloc: Global,
    files: &mut F,
    folder: &Text,
    path: &Text,
) -> Result<ScriptWork, Outcome>
    ensures due { (tree : Tree) (teller : Bytes) → F.tree files.old ≡ Some tree → Gives (script_plan teller folder.now) result (script_due teller folder.now path.now tree) }
    ensures ready { IfOk result IsReadyScript }
    ensures kept { F.tree files.new ≡ F.tree files.old }
    ensures read_count { CountsRead result (F.read_faults files.old) (F.read_faults files.new) }
    ensures write_count { F.write_faults files.new ≡ F.write_faults files.old }
{
    let text = read_file(alloc, files, path, Limit::Script, SCRIPT_LIMIT)?;
    text_work(alloc, files, folder, &text)
}

// The texts of what an engine holds, with what was told on the way.
fn with_texts(
    alloc: Global,
    named: &NamedMap,
    opening: &Catalogue,
    report: Vec<u8>,
) -> Result<Restored, Outcome>
    requires { CanBeExported opening.now named.now }
    ensures stand { IfOk result (λ restored. StandFor opening.now named.now restored.texts) }
    ensures told { IfOk result (λ restored. restored.report.items ≡ report.items) }
    ensures errors { IfOk result (λ restored. restored.errors ≡ 0) }
    ensures unwritten { IfErr result (IsUnwritten opening.now named.now) }
{
    match named_texts(alloc, named, opening) {
        Ok(texts) => Ok(Restored {
            texts,
            report,
            errors: 0,
        }),
        Err(outcome) => Err(outcome),
    }
}

// Carries the statements out on an engine, which began as this opening, and makes the texts of what they leave.
fn run_on(
    alloc: Global,
    engine: &mut Engine,
    opening: &Catalogue,
    teller: &[u8],
    statements: &[Located],
) -> Result<Restored, Outcome>
    requires { CanBeExported opening.now (catalogue_after engine.old.boot statements.now engine.old.named) }
    ensures stand { IfOk result (λ restored. StandFor opening.now (catalogue_after engine.old.boot statements.now engine.old.named) restored.texts) }
    ensures told { IfOk result (λ restored. restored.report.items ≡ report teller.now (refusals engine.old.boot statements.now engine.old.named)) }
    ensures errors { IfOk result (λ restored. restored.errors ≡ 0) }
    ensures unwritten { IfErr result (IsUnwritten opening.now (catalogue_after engine.old.boot statements.now engine.old.named)) }
{
    let report = run_statements(alloc, engine, teller, statements)?;
    with_texts(alloc, engine.named(), opening, report)
}

// Carries the statements out on the opening, and makes the texts of what they leave.
fn run_script(alloc: Global, work: ScriptWork, teller: &[u8]) -> Result<Restored, Outcome>
    requires { IsReadyScript work }
    ensures stand { IfOk result (λ restored. StandFor work.opening.cat (catalogue_after work.boot work.statements.items (export_named work.opening)) restored.texts) }
    ensures told { IfOk result (λ restored. restored.report.items ≡ report teller.now (refusals work.boot work.statements.items (export_named work.opening))) }
    ensures errors { IfOk result (λ restored. restored.errors ≡ 0) }
    ensures unwritten { IfErr result (IsUnwritten work.opening.cat (catalogue_after work.boot work.statements.items (export_named work.opening))) }
{
    let ScriptWork {
        statements,
        opening,
        boot,
    } = work;
    let (export, named) = opening.into_parts();
    let mut engine = Engine::new(alloc, named, boot);
    run_on(
        alloc,
        &mut engine,
        export.catalogue().rows(),
        teller,
        &statements,
    )
}

/// Runs the script in a file on a folder, to its end.
pub(crate) fn restore_script<F: Files, E: Sink>(
    alloc: Global,
    files: &mut F,
    err: &mut E,
    teller: &[u8],
    folder: &Text,
    path: &Text,
) -> Result<Outcome, Outcome>
    ensures ends { IfOk result IsAnswer }
    ensures done { IfOk result (λ answer. (tree : Tree) → F.tree files.old ≡ Some tree → WasRestored (script_due teller.now folder.now path.now tree) answer (F.tree files.old) (F.tree files.new) (E.written err.old) (E.written err.new)) }
    ensures undone { IfErr result (λ outcome. (tree : Tree) → F.tree files.old ≡ Some tree → IsNotRestored outcome (script_due teller.now folder.now path.now tree) (F.tree files.old) (F.tree files.new) (E.written err.old) (E.written err.new)) }
    ensures read_count { CountsReads result (F.read_faults files.old) (F.read_faults files.new) }
    ensures write_count { CountsWrites result (F.write_faults files.old) (F.write_faults files.new) (E.faults err.old) (E.faults err.new) }
{
    let work = script_work(alloc, files, folder, path)?;
    finish(alloc, files, err, folder, run_script(alloc, work, teller))
}
