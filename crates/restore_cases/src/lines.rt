//! The cases one after another.
use crate::answering::answer;
use crate::calls::Program;
use crate::folders::add_line;
use dump_ports::{Sink, Source, read_all, write_all};
use std::alloc::{AllocError, Global};
use table_cases::{Base, TrialFault};
use text_cases::show;

/// How many bytes the cases may have.
const LIMIT: u64 = 1 << 27;

// Appends the answer to a line that begins no cases.
fn put_answer<P: Program>(
    alloc: Global,
    program: &P,
    base: &mut Base,
    line: &str,
    out: &mut Vec<u8>,
) -> Result<(), AllocError> {
    match add_line(alloc, base, line)? {
        Some(true) => out.extend_from_slice(b"taken"),
        Some(false) => out.extend_from_slice(b"?"),
        None => answer(alloc, program, base, line, out),
    }
}

// The line with its answer.
fn answered<P: Program>(
    alloc: Global,
    program: &P,
    base: &mut Base,
    line: &str,
) -> Result<Vec<u8>, AllocError> {
    let mut shown = line.as_bytes().to_vec(alloc)?;
    if line == "@ restore" {
        *base = Base::new(alloc);
    } else {
        let mut found = Vec::new(alloc);
        put_answer(alloc, program, base, line, &mut found)?;
        shown.extend_from_slice(b" => ")?;
        show(&found, &mut shown)?;
    }
    shown.extend_from_slice(b"\n")?;
    Ok(shown)
}

/// Answers each line of the input, one after another, by calls of this program.
pub fn answer_all<P: Program, I: Source, O: Sink>(
    alloc: Global,
    program: &P,
    input: &mut I,
    out: &mut O,
) -> Result<(), TrialFault> {
    let bytes = read_all(alloc, input, LIMIT)?;
    let Ok(text) = str::from_utf8(&bytes) else {
        return Err(TrialFault::Failed);
    };
    let mut base = Base::new(alloc);
    for line in text.lines() {
        let shown = answered(alloc, program, &mut base, line)?;
        write_all(out, &shown)?;
    }
    Ok(())
}
