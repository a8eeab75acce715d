//! How a run on the system's files begins and ends: it holds the folders that it uses, and what it wrote is put in place
//! or removed.
ghost use Rattle.std.specs.Prelude.{◌≡◌, ◌⊎◌};
ghost use Rattle.dump_ports.specs.Faults.{CountsFault, HasNotRisen};

use clone_words::{CloneAsked, clone_asked};
use copy_text::Text;
use dump_ports::{Failed, Sink};
use os_ports::{FileFault, Hold, Holdable, OsFiles};
use program_words::{let_go, told};
use std::alloc::{AllocError, Global};
use std::rt;
use tool_words::{Asked, Outcome, Teller, read_asked, write_bytes};

/// Holds the folders that the words name: alone the one that is written, beside others those that are only read. An archive
/// that is listed or written as a script is held by none.
pub(crate) fn hold_folders<R: rt::Files>(
    alloc: Global,
    files: &mut OsFiles<R>,
    words: &[Text],
) -> Result<(), Failed>
where
    R::File: Holdable,
    ensures read_count { CountsFault result files.old.read files.new.read }
    ensures write_count { files.new.write ≡ files.old.write }
{
    match clone_asked(alloc, words) {
        Ok(Some(asked)) => hold_cloned(files, &asked),
        Ok(None) => hold_read(alloc, files, words),
        Err(AllocError) => Ok(()),
    }
}

/// The folder that a clone writes comes first, so that one that is cloned into itself is held once.
fn hold_cloned<R: rt::Files>(files: &mut OsFiles<R>, asked: &CloneAsked) -> Result<(), Failed>
where
    R::File: Holdable,
    ensures read_count { CountsFault result files.old.read files.new.read }
    ensures write_count { files.new.write ≡ files.old.write }
{
    files.hold(asked.target.as_str(), Hold::Alone)?;
    files.hold(asked.source.as_str(), Hold::Shared)
}

fn hold_read<R: rt::Files>(
    alloc: Global,
    files: &mut OsFiles<R>,
    words: &[Text],
) -> Result<(), Failed>
where
    R::File: Holdable,
    ensures read_count { CountsFault result files.old.read files.new.read }
    ensures write_count { files.new.write ≡ files.old.write }
{
    match read_asked(alloc, words) {
        Ok(asked) => hold_asked(files, &asked),
        Err(outcome) => {
            let_go(outcome);
            Ok(())
        }
    }
}

fn hold_asked<R: rt::Files>(files: &mut OsFiles<R>, asked: &Asked) -> Result<(), Failed>
where
    R::File: Holdable,
    ensures read_count { CountsFault result files.old.read files.new.read }
    ensures write_count { files.new.write ≡ files.old.write }
{
    match asked {
        Asked::Psql { folder, .. } => files.hold(folder.as_str(), Hold::Alone),
        Asked::Dump(asked) => files.hold(asked.folder.as_str(), Hold::Shared),
        Asked::Archive(_) => Ok(()),
        Asked::Restore(asked) => files.hold(asked.folder.as_str(), Hold::Alone),
        Asked::Compare { first, second } => {
            files.hold(first.as_str(), Hold::Shared)?;
            files.hold(second.as_str(), Hold::Shared)
        }
    }
}

/// Whether a run came to an end before all was written that is due.
fn is_cut(outcome: &Outcome) -> bool {
    matches!(
        outcome,
        Outcome::ReadFault | Outcome::WriteFault | Outcome::Memory
    )
}

/// Puts what a run wrote in place, or removes it where the run was cut, and gives what the run came to by that. Where it
/// can't be put in place, that is told as a failed write.
pub(crate) fn settle<R: rt::Files, E: Sink>(
    files: &mut OsFiles<R>,
    err: &mut E,
    teller: Teller,
    outcome: Outcome,
) -> Outcome
    ensures either { (result ≡ outcome) ⊎ (result ≡ Outcome.WriteFault) }
    ensures same { HasNotRisen files.old.write files.new.write → result ≡ outcome }
    ensures silent { HasNotRisen files.old.write files.new.write → E.written err.new ≡ E.written err.old }
    ensures read_count { files.new.read ≡ files.old.read }
{
    if is_cut(&outcome) {
        files.discard();
        return outcome;
    }
    match files.commit() {
        Ok(()) => outcome,
        Err(Failed) => {
            let_go(outcome);
            told(err, teller, Outcome::WriteFault)
        }
    }
}

/// Tells which file failed and why, behind the line of a fault. Where this can't be told it is left out.
pub(crate) fn tell_detail<E: Sink>(
    alloc: Global,
    err: &mut E,
    teller: Teller,
    outcome: &Outcome,
    fault: Option<FileFault>,
) {
    let Some(fault) = fault else {
        return;
    };
    if let Outcome::ReadFault | Outcome::WriteFault = outcome
        && let Ok(line) = format!(in alloc; "{}: detail: {}\n", teller.name(), fault)
    {
        let _ = write_bytes(err, line.as_bytes());
    }
}
