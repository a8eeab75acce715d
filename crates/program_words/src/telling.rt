//! What the program itself tells, and its exit status.
ghost use Rattle.std.specs.Prelude.{◌≡◌, ◌⊎◌};
ghost use Rattle.tool_words.specs.Status.{status_of};

use crate::arguments::ArgumentFault;
use command_line::UsageKind;
use dump_ports::{Failed, Sink, write_all};
use tool_words::{Outcome, Teller, tell};

/// Tells an outcome, and gives what the run came to by that.
pub fn told<E: Sink>(err: &mut E, teller: Teller, outcome: Outcome) -> Outcome
    ensures { (result ≡ outcome) ⊎ (result ≡ Outcome.WriteFault) }
{
    match tell(err, teller, &outcome) {
        Ok(()) => outcome,
        Err(Failed) => {
            let_go(outcome);
            Outcome::WriteFault
        }
    }
}

/// Lets an outcome go: a crate that lets one go by itself proves once more how each of its parts is let go.
pub fn let_go(_outcome: Outcome) {}

/// The exit status of what the program came to.
pub fn exit_status(outcome: Outcome) -> u8
    ensures { result ≡ status_of outcome }
{
    let status = outcome.status();
    let_go(outcome);
    status
}

/// Prints the screens, and gives the status.
pub fn print<O: Sink, E: Sink>(
    out: &mut O,
    err: &mut E,
    screens: (&'static str, &'static str),
) -> u8 {
    let (first, second) = screens;
    match write_both(out, first, second) {
        Ok(()) => 0,
        Err(Failed) => refused(err, Outcome::WriteFault),
    }
}

fn write_both<O: Sink>(out: &mut O, first: &str, second: &str) -> Result<(), Failed> {
    write_all(out, first.as_bytes())?;
    write_all(out, second.as_bytes())
}

/// Tells that the words weren't read, and gives the status.
pub fn refuse<E: Sink>(err: &mut E, fault: ArgumentFault) -> u8 {
    let outcome = match fault {
        ArgumentFault::NotText(word) => Outcome::Usage {
            word,
            kind: UsageKind::BadValue,
        },
        ArgumentFault::Memory => Outcome::Memory,
    };
    refused(err, outcome)
}

/// Tells what the program itself refuses, and gives the status.
fn refused<E: Sink>(err: &mut E, outcome: Outcome) -> u8 {
    exit_status(told(err, Teller::Program, outcome))
}
