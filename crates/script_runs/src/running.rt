//! A script run on an opening.
ghost use Rattle.std.specs.Prelude.{◌≡◌, ◌++◌, [], ◌∷◌, true, false, Some, None, Result, IfErr, IfOk, OnOk};
ghost use Rattle.cat_model.specs.declared.cause.Cause.{Cause as TheCause};
ghost use Rattle.cat_model.specs.Values.{Named};
ghost use Rattle.eng_steps.specs.Outcomes.{IsRefusal};
ghost use Rattle.cat_names.specs.Naming.{boot as boot_role};
ghost use Rattle.std.specs.List.{AllByRecursion};
ghost use Rattle.cat_sound.specs.Fit.{IsFit};
ghost use Rattle.ddl_read.specs.Spellings.{said as statements_in};
ghost use Rattle.opening_written.specs.Export.{CanBeExported};
ghost use Rattle.sound_texts.specs.Grammar.{grammar};
ghost use Rattle.tool_words.specs.Messages.{Refusal, report};
ghost use Rattle.schema_folders.specs.Run.{said, next, noted, catalogue_after, refusals};
ghost use Rattle.openings.specs.Openings.{export_named};
ghost use Rattle.script_runs.specs.Stopping.{Ending, behind, until, ended, first_of, ending, stop_told, told};
ghost use Rattle.script_runs.specs.Writing.{IsUnwritten, StandFor};

use crate::stopping::{stop_told, stopped_at};
use crate::texts::named_texts;
use cat_engine::Engine;
use cat_rows::Catalogue;
use copy_text::Name;
use ddl_read::Located;
use eng_map::NamedMap;
use eng_steps::ApplyError;
use openings::Opening;
use refusals::write_refusal;
use saved_folders::ExportTexts;
use std::alloc::{AllocError, Global};
use tool_words::{Outcome, Stop};

// Appends the line of a statement that was refused.
fn tell_refusal(at: usize, error: &ApplyError, out: &mut Vec<u8>) -> Result<(), AllocError>
    ensures told { OnOk result ((said : Result Named TheCause) → IsRefusal error.now said → out.new.items ≡ out.old.items ++ report (noted at said)) }
    ensures refused { OnOk result ((said : Result Named TheCause) (named : Named) → IsRefusal error.now said → next named said ≡ named) }
{
    match error {
        ApplyError::Refused(cause) => write_refusal(at, cause, out),
        ApplyError::Memory => Err(AllocError),
    }
}

// Carries a statement out, and appends its line to the report where it is refused.
fn run_statement(
    engine: &mut Engine,
    located: &Located,
    out: &mut Vec<u8>,
) -> Result<(), AllocError>
    ensures reported { OnOk result (out.new.items ≡ out.old.items ++ report (noted located.now.start (said engine.old.boot located.now.stmt engine.old.named))) }
    ensures applied { OnOk result (engine.new.named ≡ next engine.old.named (said engine.old.boot located.now.stmt engine.old.named)) }
    ensures boot { engine.new.boot ≡ engine.old.boot }
{
    match engine.apply(&located.stmt) {
        Ok(()) => Ok(()),
        Err(error) => {
            let told = tell_refusal(located.start, &error, out);
            drop(error);
            told
        }
    }
}

// Carries statements out one after another, and appends the report of those that are refused.
fn run_statements(
    engine: &mut Engine,
    statements: &[Located],
    out: &mut Vec<u8>,
) -> Result<(), AllocError>
    ensures reported { OnOk result (out.new.items ≡ out.old.items ++ report (refusals engine.old.boot statements.now engine.old.named)) }
    ensures applied { OnOk result (engine.new.named ≡ catalogue_after engine.old.boot statements.now engine.old.named) }
{
    for located in statements {
        run_statement(engine, located, out)?;
    }
    Ok(())
}

/// What a script leaves of an opening: the texts of a folder that stands for it, and what is told.
#[derive(Drop)]
pub struct ScriptRun {
    /// The texts.
    pub texts: ExportTexts,
    /// A line for each statement that was refused, in their order; or the line of the one at which the script stopped.
    pub report: Vec<u8>,
    /// Where the script stopped, if it did.
    pub stopped: Option<Stop>,
}

// What is told of a script, and where it stopped.
#[derive(Drop)]
struct Told {
    report: Vec<u8>,
    stopped: Option<Stop>,
}

// The report of all statements, which an engine has then carried out.
fn run_throughout(
    alloc: Global,
    engine: &mut Engine,
    statements: &[Located],
) -> Result<Told, AllocError>
    ensures reported { IfOk result (λ t. t.report.items ≡ report (refusals engine.old.boot statements.now engine.old.named)) }
    ensures on { IfOk result (λ t. t.stopped ≡ None) }
    ensures applied { OnOk result (engine.new.named ≡ catalogue_after engine.old.boot statements.now engine.old.named) }
{
    let mut report = Vec::new(alloc);
    run_statements(engine, statements, &mut report)?;
    Ok(Told {
        report,
        stopped: None,
    })
}

// Carries a statement out, or notes where the script stops, and says whether it does.
fn stops_at(
    alloc: Global,
    engine: &mut Engine,
    located: &Located,
    stops: &mut Vec<Stop>,
) -> Result<bool, AllocError>
    ensures on { IfOk result (λ stopped. stopped ≡ false → stops.new.items ≡ stops.old.items) }
    ensures goes { IfOk result (λ stopped. stopped ≡ false → (more : Named → Ending) → behind more engine.old.named located.now (said engine.old.boot located.now.stmt engine.old.named) ≡ more engine.new.named) }
    ensures stops { IfOk result (λ stopped. stopped ≡ true → (refusal : Refusal) × (stops.new.items ≡ stops.old.items ++ refusal ∷ []) × ((more : Named → Ending) → behind more engine.old.named located.now (said engine.old.boot located.now.stmt engine.old.named) ≡ ended engine.new.named (Some refusal))) }
    ensures boot { engine.new.boot ≡ engine.old.boot }
{
    match engine.apply(&located.stmt) {
        Ok(()) => Ok(false),
        Err(error) => {
            stops.push(stopped_at(alloc, located.start, error)?)?;
            Ok(true)
        }
    }
}

// Carries statements out one after another, up to the first that is refused, and notes it.
fn run_until(
    alloc: Global,
    engine: &mut Engine,
    statements: &[Located],
    stops: &mut Vec<Stop>,
) -> Result<(), AllocError>
    requires { stops.now.items ≡ [] }
    ensures { OnOk result (until engine.old.boot statements.now engine.old.named ≡ ended engine.new.named (first_of stops.new.items)) }
{
    for located in statements {
        if stops_at(alloc, engine, located, stops)? {
            return Ok(());
        }
    }
    Ok(())
}

// The first of these stops, if there is one.
fn first_stop(stops: Vec<Stop>) -> Option<Stop>
    ensures { result ≡ first_of stops.items }
{
    stops.into_iter().next()
}

// What is told of where a script stopped, if it did.
fn told_of(alloc: Global, stopped: Option<Stop>) -> Result<Told, AllocError>
    ensures told { IfOk result (λ t. t.report.items ≡ stop_told stopped) }
    ensures stopped { IfOk result (λ t. t.stopped ≡ stopped) }
{
    match stop_told(alloc, &stopped) {
        Ok(report) => Ok(Told { report, stopped }),
        Err(error) => {
            drop(stopped);
            Err(error)
        }
    }
}

// The statements up to the first that is refused, which an engine has then carried out.
fn run_to_stop(
    alloc: Global,
    engine: &mut Engine,
    statements: &[Located],
) -> Result<Told, AllocError>
    ensures ends { IfOk result (λ t. until engine.old.boot statements.now engine.old.named ≡ ended engine.new.named t.stopped) }
    ensures told { IfOk result (λ t. t.report.items ≡ stop_told t.stopped) }
{
    let mut stops = Vec::new(alloc);
    run_until(alloc, engine, statements, &mut stops)?;
    told_of(alloc, first_stop(stops))
}

// The statements of a script, which an engine has then carried out, to the end or to the first that is refused.
#[tactic(auto, unfolding(crate::specs::Stopping::ending, crate::specs::Stopping::told))]
fn run_script(
    alloc: Global,
    engine: &mut Engine,
    statements: &[Located],
    stop: bool,
) -> Result<Told, AllocError>
    ensures ends { IfOk result (λ t. ending stop engine.old.boot statements.now engine.old.named ≡ ended engine.new.named t.stopped) }
    ensures told { IfOk result (λ t. t.report.items ≡ told stop engine.old.boot statements.now engine.old.named) }
{
    if stop {
        run_to_stop(alloc, engine, statements)
    } else {
        run_throughout(alloc, engine, statements)
    }
}

// The texts of what an engine holds, with what was told on the way.
fn with_texts(
    alloc: Global,
    named: &NamedMap,
    opening: &Catalogue,
    told: Told,
) -> Result<ScriptRun, Outcome>
    requires { CanBeExported opening.now named.now }
    ensures stands { IfOk result (λ run. StandFor opening.now named.now run.texts) }
    ensures reported { IfOk result (λ run. run.report.items ≡ told.report.items) }
    ensures stopped { IfOk result (λ run. run.stopped ≡ told.stopped) }
    ensures unwritten { IfErr result (IsUnwritten opening.now named.now) }
{
    match named_texts(alloc, named, opening) {
        Ok(texts) => Ok(ScriptRun {
            texts,
            report: told.report,
            stopped: told.stopped,
        }),
        Err(outcome) => {
            drop(told);
            Err(outcome)
        }
    }
}

// The same with the texts of what they leave.
fn run_on(
    alloc: Global,
    engine: &mut Engine,
    opening: &Catalogue,
    statements: &[Located],
    stop: bool,
) -> Result<ScriptRun, Outcome>
    requires { CanBeExported opening.now (ending stop engine.old.boot statements.now engine.old.named).left }
    ensures stands { IfOk result (λ run. StandFor opening.now (ending stop engine.old.boot statements.now engine.old.named).left run.texts) }
    ensures reported { IfOk result (λ run. run.report.items ≡ told stop engine.old.boot statements.now engine.old.named) }
    ensures stopped { IfOk result (λ run. run.stopped ≡ (ending stop engine.old.boot statements.now engine.old.named).stopped) }
    ensures unwritten { IfErr result (IsUnwritten opening.now (ending stop engine.old.boot statements.now engine.old.named).left) }
{
    let told = run_script(alloc, engine, statements, stop)?;
    with_texts(alloc, engine.named(), opening, told)
}

/// Runs the statements of a script on an opening, in order. A statement that is refused changes nothing; then the script
/// stops, where it is to, or the next one is tried. What they leave becomes the texts of a folder. `boot`, the opening's role of
/// oid 10, owns what is created; the statements are such as are read.
///
/// # Errors
///
/// `TooLarge` where the files of what they leave would be over a limit of reading, `OutOfProfile(Unbuilt)` where no oid is left
/// for what is new, or `Memory`.
pub fn run_opening(
    alloc: Global,
    opening: Opening,
    boot: Name,
    statements: &[Located],
    stop: bool,
) -> Result<ScriptRun, Outcome>
    requires role { boot_role opening.cat ≡ Some boot }
    requires fit { AllByRecursion (IsFit grammar) (statements_in statements.now) }
    ensures stands { IfOk result (λ run. StandFor opening.cat (ending stop boot statements.now (export_named opening)).left run.texts) }
    ensures reported { IfOk result (λ run. run.report.items ≡ told stop boot statements.now (export_named opening)) }
    ensures stopped { IfOk result (λ run. run.stopped ≡ (ending stop boot statements.now (export_named opening)).stopped) }
    ensures unwritten { IfErr result (IsUnwritten opening.cat (ending stop boot statements.now (export_named opening)).left) }
{
    let (export, named) = opening.into_parts();
    let mut engine = Engine::new(alloc, named, boot);
    run_on(
        alloc,
        &mut engine,
        export.catalogue().rows(),
        statements,
        stop,
    )
}
