//! The answer to a case.
use crate::escapes::decoded;
use crate::kind::TextKind;
use crate::{footprints, grammar, languages, references, refused, statements, tables};
use std::alloc::{AllocError, Global};

// The answer to a case whose line is looked at as a text.
fn of_bytes(
    alloc: Global,
    kind: TextKind,
    text: &[u8],
    out: &mut Vec<u8>,
) -> Result<(), AllocError> {
    match kind {
        TextKind::Rows => languages::row(alloc, text, out),
        TextKind::Tokens => languages::text_tokens(alloc, text, out),
        TextKind::Meaning => languages::meaning(alloc, text, out),
        TextKind::Names => languages::written(alloc, text, out),
        TextKind::Rights => languages::rights(alloc, text, out),
        TextKind::Statements => statements::script(alloc, text, out),
        TextKind::Expression => references::expression(alloc, text, out),
        TextKind::View => references::view(alloc, text, out),
        TextKind::IndexColumns => references::index_columns(alloc, text, out),
        TextKind::Footprint => footprints::last_statement(alloc, text, out),
        TextKind::Table(table) => tables::rewritten(alloc, table, text, out),
        _ => out.extend_from_slice(b"?"),
    }
}

/// Appends the answer to a case of a kind; `?` where the line is none.
pub fn answer(
    alloc: Global,
    kind: TextKind,
    line: &str,
    out: &mut Vec<u8>,
) -> Result<(), AllocError> {
    match kind {
        TextKind::Part(part) => grammar::part(alloc, part, line, out),
        TextKind::NextToken => languages::token_behind(alloc, line, out),
        TextKind::Data => languages::data(alloc, line, out),
        TextKind::SameRows => languages::same_texts(alloc, line, out),
        TextKind::Refused => refused::report(alloc, line, out),
        _ => match decoded(alloc, line)? {
            Some(text) => of_bytes(alloc, kind, &text, out),
            None => out.extend_from_slice(b"?"),
        },
    }
}
