//! What is to be put out of a dump.
ghost use Rattle.std.specs.Prelude.{◌≡◌, Option, Some, IfOk, IfSome};
ghost use Rattle.dump_ports.specs.Tree.{Tree};
ghost use Rattle.tool_words.specs.Answers.{Gives, CountsRead};
ghost use Rattle.cat_model.specs.Values.{Bytes};
ghost use Rattle.dump_plans.specs.Choosing.{select_of};
ghost use Rattle.dump_targets.specs.Targets.{IsOutside, IsFormOutside};
ghost use Rattle.dump_tools.specs.Due.{version, selected_due, chosen_due, dump_due, code_of, form_of, head_of, database_name};
ghost use Rattle.dump_tools.specs.Works.{plan_of_work, IsReady, IsFew};

use cat_model::What;
use cat_rows::Catalogue;
use command_line::{Choice, Format};
use copy_text::Text;
use dump_outputs::DumpForm;
use dump_plans::{DumpPlan, read_dump, select_of};
use dump_ports::{Files, Moment};
use dump_stmts::{empty_text, text_of};
use dump_targets::laws::what_is_outside_is_no_data_file;
use exports::read_formed;
use obj_graph::Select;
use std::alloc::{AllocError, Global};
use toc_entry::Head;
use tool_words::{DumpAsked, Outcome};
use well_formed::WellFormed;

/// A dump that is to be put out.
#[derive(Drop)]
pub struct DumpWork {
    /// Its entries, and the data files whose rows are read while it is written.
    pub plan: DumpPlan,
    /// How it is written, and where.
    pub form: DumpForm,
    /// Its head.
    pub head: Head,
}

/// The version that a dump tells.
fn version(alloc: Global) -> Result<Text, AllocError>
    ensures { IfOk result (λ text. text ≡ version) }
{
    match Text::new(b"16.0".to_vec(alloc)?) {
        Some(text) => Ok(text),
        None => unreachable!(),
    }
}

/// The code of the format.
fn code_of(form: &DumpForm) -> u8
    ensures { result ≡ code_of form.now }
{
    match form {
        DumpForm::Script { .. } => 4,
        DumpForm::Custom { .. } => 1,
        DumpForm::Directory { .. } => 3,
    }
}

/// The name of the current database.
fn database_name(alloc: Global, cat: &Catalogue) -> Result<Text, AllocError>
    ensures { IfOk result (λ name. name ≡ database_name cat.now) }
{
    let rows = cat.pg_database.as_slice();
    for row in rows {
        if row.datcurrent {
            return text_of(alloc, row.datname.as_bytes());
        }
    }
    empty_text(alloc)
}

/// The head of a dump.
fn head_of(
    alloc: Global,
    form: &DumpForm,
    cat: &Catalogue,
    moment: Moment,
) -> Result<Head, AllocError>
    ensures { IfOk result (λ head. head ≡ head_of (code_of form.now) (database_name cat.now) moment) }
{
    let dbname = database_name(alloc, cat)?;
    let server = version(alloc)?;
    let dumper = version(alloc)?;
    Ok(Head {
        major: 1,
        minor: 15,
        revision: 0,
        format: code_of(form),
        compression: 0,
        moment,
        dbname,
        server,
        dumper,
    })
}

/// How a dump is written, and where; a folder has to be named.
fn form_of(format: Format, target: Option<Text>, owners: bool) -> Option<DumpForm>
    ensures exact { result ≡ form_of format target owners }
    ensures outside { (folder : Bytes) → IsOutside folder target → IfSome result (IsFormOutside folder) }
{
    match format {
        Format::Plain => Some(DumpForm::Script { target, owners }),
        Format::Custom => Some(DumpForm::Custom { target }),
        Format::Directory => match target {
            Some(folder) => Some(DumpForm::Directory { folder }),
            None => None,
        },
    }
}

/// What is selected of a catalogue, in this form.
fn selected_work<F: Files>(
    alloc: Global,
    files: &mut F,
    folder: &Text,
    cat: &WellFormed,
    select: &Select,
    form: DumpForm,
    head: Head,
) -> Result<DumpWork, Outcome>
    requires { IsFormOutside folder.now form }
    ensures due { (tree : Tree) → F.tree files.old ≡ Some tree → Gives (plan_of_work tree) result (selected_due folder.now select.now form head cat.now tree) }
    ensures ready { (tree : Tree) → F.tree files.old ≡ Some tree → IfOk result (IsReady tree) }
    ensures few { IfOk result IsFew }
    ensures kept { F.tree files.new ≡ F.tree files.old }
    ensures read_count { CountsRead result (F.read_faults files.old) (F.read_faults files.new) }
    ensures write_count { F.write_faults files.new ≡ F.write_faults files.old }
{
    what_is_outside_is_no_data_file();
    let plan = read_dump(alloc, files, folder, cat, select)?;
    Ok(DumpWork { plan, form, head })
}

/// What is chosen of a catalogue, in this form.
fn formed_work<F: Files>(
    alloc: Global,
    files: &mut F,
    folder: &Text,
    choice: Choice,
    cat: &WellFormed,
    form: DumpForm,
    moment: Moment,
) -> Result<DumpWork, Outcome>
    requires { IsFormOutside folder.now form }
    ensures due { (tree : Tree) → F.tree files.old ≡ Some tree → Gives (plan_of_work tree) result (selected_due folder.now (select_of choice) form (head_of (code_of form) (database_name cat.now) moment) cat.now tree) }
    ensures ready { (tree : Tree) → F.tree files.old ≡ Some tree → IfOk result (IsReady tree) }
    ensures few { IfOk result IsFew }
    ensures kept { F.tree files.new ≡ F.tree files.old }
    ensures read_count { CountsRead result (F.read_faults files.old) (F.read_faults files.new) }
    ensures write_count { F.write_faults files.new ≡ F.write_faults files.old }
{
    let head = head_of(alloc, &form, cat.rows(), moment)?;
    let select = select_of(alloc, choice)?;
    selected_work(alloc, files, folder, cat, &select, form, head)
}

/// What the words choose of a catalogue.
fn chosen_work<F: Files>(
    alloc: Global,
    files: &mut F,
    asked: DumpAsked,
    cat: &WellFormed,
    moment: Moment,
) -> Result<DumpWork, Outcome>
    requires { IsOutside asked.folder asked.target }
    ensures due { (tree : Tree) → F.tree files.old ≡ Some tree → Gives (plan_of_work tree) result (chosen_due asked moment tree cat.now) }
    ensures ready { (tree : Tree) → F.tree files.old ≡ Some tree → IfOk result (IsReady tree) }
    ensures few { IfOk result IsFew }
    ensures kept { F.tree files.new ≡ F.tree files.old }
    ensures read_count { CountsRead result (F.read_faults files.old) (F.read_faults files.new) }
    ensures write_count { F.write_faults files.new ≡ F.write_faults files.old }
{
    let DumpAsked {
        folder,
        choice,
        format,
        target,
    } = asked;
    match form_of(format, target, !choice.no_owner) {
        Some(form) => formed_work(alloc, files, &folder, choice, cat, form, moment),
        None => {
            drop(choice);
            Err(Outcome::OutOfProfile(What::Unbuilt))
        }
    }
}

/// What is to be put out of a dump that is asked for: the folder's catalogue is read, and what is chosen of it; each data file
/// that is needed is there, none is too large, and none is one that is written.
///
/// # Errors
///
/// `Missing`, `TooLarge`, `BadExport`, `OutOfProfile`, `Loop` or `NoMatch` of the first step that refuses, `ReadFault`, or
/// `Memory`.
#[tactic(auto, unfolding(crate::specs::Due::dump_due))]
pub fn dump_work<F: Files>(
    alloc: Global,
    files: &mut F,
    asked: DumpAsked,
    moment: Moment,
) -> Result<DumpWork, Outcome>
    requires { IsOutside asked.folder asked.target }
    ensures due { (tree : Tree) → F.tree files.old ≡ Some tree → Gives (plan_of_work tree) result (dump_due asked moment tree) }
    ensures ready { (tree : Tree) → F.tree files.old ≡ Some tree → IfOk result (IsReady tree) }
    ensures few { IfOk result IsFew }
    ensures kept { F.tree files.new ≡ F.tree files.old }
    ensures read_count { CountsRead result (F.read_faults files.old) (F.read_faults files.new) }
    ensures write_count { F.write_faults files.new ≡ F.write_faults files.old }
{
    let cat = read_formed(alloc, files, &asked.folder)?;
    let work = chosen_work(alloc, files, asked, &cat, moment);
    drop(cat);
    work
}
