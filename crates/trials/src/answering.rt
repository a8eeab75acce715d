//! The cases one after another.
use crate::kind::{Kind, kind_of};
use crate::tools;
use dump_ports::{Files, Sink, Source, read_all, write_all};
use std::alloc::{AllocError, Global};
use table_cases::{Base, TrialFault};
use text_cases::{decoded, show};

/// How many bytes the cases may have.
const LIMIT: u64 = 1 << 27;

/// The kind of the cases, and what they stand on.
#[derive(Drop)]
struct Block {
    kind: Kind,
    base: Base,
}

// The answer to a case whose line is looked at as a text.
fn of_bytes(
    alloc: Global,
    block: &Block,
    text: &[u8],
    out: &mut Vec<u8>,
) -> Result<(), AllocError> {
    match block.kind {
        Kind::List => list_cases::answer(alloc, text, out),
        Kind::Words => word_cases::words(alloc, text, out),
        Kind::Pattern => word_cases::pattern(alloc, text, out),
        Kind::Psql => tools::psql(alloc, &block.base, text, out),
        Kind::PgDump => tools::pg_dump(alloc, &block.base, text, out),
        Kind::Select => table_cases::select(alloc, &block.base, text, out),
        Kind::Dump => table_cases::dump(alloc, &block.base, text, out),
        Kind::Script(shown) => engine_cases::run_script(alloc, &block.base, text, shown, out),
        _ => out.extend_from_slice(b"?"),
    }
}

// The answer to a case of texts of system tables.
fn of_texts(alloc: Global, block: &Block, line: &str, out: &mut Vec<u8>) -> Result<(), AllocError> {
    let mut changed = Base::new(alloc);
    if line != "nothing" && !changed.add_all(alloc, line)? {
        return out.extend_from_slice(b"?");
    }
    match block.kind {
        Kind::Check(what) => table_cases::check_texts(alloc, what, &block.base, &changed, out),
        Kind::Named => engine_cases::name_texts(alloc, &block.base, &changed, out),
        _ => table_cases::compare_texts(alloc, &block.base, &changed, out),
    }
}

// The answer to a case.
fn answer(alloc: Global, block: &Block, line: &str, out: &mut Vec<u8>) -> Result<(), AllocError> {
    match block.kind {
        Kind::Text(kind) => text_cases::answer(alloc, kind, line, out),
        Kind::Archive(kind) => archive_cases::answer(alloc, kind, line, out),
        Kind::Check(_) | Kind::Same | Kind::Named => of_texts(alloc, block, line, out),
        Kind::Change => table_cases::change_texts(alloc, &block.base, line, out),
        Kind::PgCatcmp => tools::pg_catcmp(alloc, &block.base, line, out),
        Kind::Run => tools::words(alloc, &block.base, line, out),
        Kind::Input => tools::input(alloc, &block.base, line, out),
        _ => match decoded(alloc, line)? {
            Some(text) => of_bytes(alloc, block, &text, out),
            None => out.extend_from_slice(b"?"),
        },
    }
}

// What the line says of the base: `base TABLE TEXT`, `base rows OID TEXT` or `folder NAME`.
fn begin<F: Files>(
    alloc: Global,
    files: &mut F,
    block: &mut Block,
    line: &str,
) -> Result<Option<bool>, TrialFault> {
    if let Some(said) = line.strip_prefix("base ") {
        return Ok(Some(block.base.add(alloc, said)?));
    }
    if let Some(folder) = line.strip_prefix("folder ") {
        return Ok(Some(block.base.add_folder(alloc, files, folder)?));
    }
    Ok(None)
}

fn answer_line<F: Files>(
    alloc: Global,
    files: &mut F,
    block: &mut Block,
    line: &str,
    out: &mut Vec<u8>,
) -> Result<(), TrialFault> {
    match begin(alloc, files, block, line)? {
        Some(true) => out.extend_from_slice(b"taken")?,
        Some(false) => out.extend_from_slice(b"?")?,
        None => answer(alloc, block, line, out)?,
    }
    Ok(())
}

// The line with its answer.
fn answered<F: Files>(
    alloc: Global,
    files: &mut F,
    block: &mut Block,
    line: &str,
) -> Result<Vec<u8>, TrialFault> {
    let mut shown = line.as_bytes().to_vec(alloc)?;
    if let Some(name) = line.strip_prefix("@ ") {
        block.kind = kind_of(name);
        block.base = Base::new(alloc);
        if let Kind::Unknown = block.kind {
            shown.extend_from_slice(b" => ?")?;
        }
    } else {
        let mut found = Vec::new(alloc);
        answer_line(alloc, files, block, line, &mut found)?;
        shown.extend_from_slice(b" => ")?;
        show(&found, &mut shown)?;
    }
    shown.extend_from_slice(b"\n")?;
    Ok(shown)
}

/// Answers each line of the input, one after another.
pub(crate) fn answer_all<F: Files, I: Source, O: Sink>(
    alloc: Global,
    files: &mut F,
    input: &mut I,
    out: &mut O,
) -> Result<(), TrialFault> {
    let bytes = read_all(alloc, input, LIMIT)?;
    let Ok(text) = str::from_utf8(&bytes) else {
        return Err(TrialFault::Failed);
    };
    let mut block = Block {
        kind: Kind::Unknown,
        base: Base::new(alloc),
    };
    for line in text.lines() {
        write_all(out, &answered(alloc, files, &mut block, line)?)?;
    }
    Ok(())
}
