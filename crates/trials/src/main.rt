//! Cases of the public calls: each line of standard input is one, and is printed with its answer.
//!
//! A line `@ KIND` begins cases of a kind. In every other line a byte outside printable ASCII, and the backslash, is
//! written `\xHH`. A line that is no case of its kind is answered `?`.
#![tactic(auto)]

mod answering;
mod kind;
mod tools;

use crate::answering::answer_all;
use os_ports::{OsFiles, OsIn, OsOut};
use std::process::ExitCode;

fn main(rt: HostRuntime) -> ExitCode {
    let mut files = OsFiles::new(rt.alloc(), &rt);
    let mut input = OsIn::new(rt.stdin());
    let mut out = OsOut::new(rt.stdout());
    match answer_all(rt.alloc(), &mut files, &mut input, &mut out) {
        Ok(()) => ExitCode::from(0),
        Err(_) => ExitCode::from(1),
    }
}
