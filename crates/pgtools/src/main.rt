//! PostgreSQL's dump tools over exported catalogues.
#![tactic(auto)]

mod ending;

use crate::ending::{hold_folders, settle, tell_detail};
use clone_tools::run_tools;
use dump_ports::{Failed, OpenGate};
use os_ports::{OsErr, OsFiles, OsIn, OsOut, moment_now};
use program_words::{exit_status, print, read_arguments, refuse, screens_of, told};
use std::process::ExitCode;
use tool_words::{Outcome, teller_of};

fn main(rt: HostRuntime) -> ExitCode {
    let alloc = rt.alloc();
    let mut err = OsErr::new(rt.stderr());
    let words = match read_arguments(alloc, &rt) {
        Ok(words) => words,
        Err(fault) => return ExitCode::from(refuse(&mut err, fault)),
    };
    let mut out = OsOut::new(rt.stdout());
    if let Some(screens) = screens_of(&words) {
        return ExitCode::from(print(&mut out, &mut err, screens));
    }
    let mut files = OsFiles::new(alloc, &rt);
    let mut input = OsIn::new(rt.stdin());
    let moment = moment_now(&rt);
    let teller = teller_of(&words);
    let outcome = match hold_folders(alloc, &mut files, &words) {
        Ok(()) => run_tools(
            alloc, &words, &mut files, &mut input, &mut out, &mut err, moment, &OpenGate,
        ),
        Err(Failed) => told(&mut err, teller, Outcome::ReadFault),
    };
    let outcome = settle(&mut files, &mut err, teller, outcome);
    tell_detail(alloc, &mut err, teller, &outcome, files.take_fault());
    ExitCode::from(exit_status(outcome))
}
