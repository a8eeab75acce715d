//! The answer to a case.
use crate::archives::change_archive;
use crate::calls::{Program, put_call};
use crate::folders::{put_source, put_target};
use dump_ports::MemFiles;
use std::alloc::{AllocError, Global};
use table_cases::Base;

/// What stands between the steps of a line, and between their answers.
const BETWEEN: &str = " / ";

// Takes a step, and appends its answer.
fn put_step<P: Program>(
    alloc: Global,
    program: &P,
    files: &mut MemFiles,
    step: &str,
    out: &mut Vec<u8>,
) -> Result<(), AllocError> {
    match change_archive(alloc, files, step)? {
        Some(true) => out.extend_from_slice(b"written"),
        Some(false) => out.extend_from_slice(b"?"),
        None => put_call(alloc, program, files, step, out),
    }
}

fn put_steps<P: Program>(
    alloc: Global,
    program: &P,
    files: &mut MemFiles,
    line: &str,
    out: &mut Vec<u8>,
) -> Result<(), AllocError> {
    for (i, step) in line.split(BETWEEN).enumerate() {
        if i > 0 {
            out.extend_from_slice(BETWEEN.as_bytes())?;
        }
        put_step(alloc, program, files, step, out)?;
    }
    Ok(())
}

/// Appends the answer to a line.
///
/// A line is steps with ` / ` between, one after another over the same files, and so are its answers. At first these are
/// the folder `S`, which is the base, and the folder `D`, the empty export with the base's roles, members and databases.
///
/// A step is the words of a call, and behind ` < ` the file that is its standard input: what it answers, tells and prints.
/// Or it writes a file: `file NAME TEXT` one of this text, where bytes outside printable ASCII and the backslash are written
/// `\xHH`; `cut NAME COUNT` leaves the first bytes of one; `byte NAME PLACE VALUE` has another byte at a place; and `order
/// NAME ID ..` writes a custom archive again with its entries in the order of these dump ids, all of them.
pub(crate) fn answer<P: Program>(
    alloc: Global,
    program: &P,
    base: &Base,
    line: &str,
    out: &mut Vec<u8>,
) -> Result<(), AllocError> {
    let mut files = MemFiles::new(alloc, Vec::new(alloc));
    put_source(alloc, base, &mut files)?;
    put_target(alloc, base, &mut files)?;
    put_steps(alloc, program, &mut files, line, out)
}
