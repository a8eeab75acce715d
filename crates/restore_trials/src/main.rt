//! Cases of restores: each line of standard input is one, and is printed with its answer.
//!
//! A line `@ restore` begins cases, and what they stand on. In every other line a byte outside printable ASCII, and the
//! backslash, is written `\xHH`. A line that is no case is answered `?`.
#![tactic(auto)]

use clone_tools::run_tools;
use copy_text::Text;
use dump_ports::{MemFiles, MemSink, MemSource, Moment, OpenGate};
use os_ports::{OsIn, OsOut};
use program_words::exit_status;
use restore_cases::{Program, answer_all};
use std::alloc::Global;
use std::process::ExitCode;

/// The tools.
struct Tools;

impl Program for Tools {
    fn run(
        &self,
        alloc: Global,
        words: &[Text],
        files: &mut MemFiles,
        input: &mut MemSource,
        printed: &mut MemSink,
        told: &mut MemSink,
        moment: Moment,
    ) -> u8 {
        exit_status(run_tools(alloc, words, files, input, printed, told, moment, &OpenGate))
    }
}

fn main(rt: HostRuntime) -> ExitCode {
    let mut input = OsIn::new(rt.stdin());
    let mut out = OsOut::new(rt.stdout());
    match answer_all(rt.alloc(), &Tools, &mut input, &mut out) {
        Ok(()) => ExitCode::from(0),
        Err(_) => ExitCode::from(1),
    }
}
