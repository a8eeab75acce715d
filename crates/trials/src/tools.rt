//! Cases of the whole program, over files in memory.
use cat_rows::SysTable;
use copy_text::Text;
use dump_ports::{MemFiles, MemSink, MemSource, Moment, OpenGate, read_all};
use dump_tools::run_tools;
use program_words::exit_status;
use std::alloc::{AllocError, Global};
use table_cases::Base;
use text_cases::decoded;

/// How many bytes of standard input a read gives.
const STEP: usize = 7;

/// How many bytes standard input may have.
const LIMIT: u64 = 1 << 27;

/// What a run came to: its exit status, the files, what was printed and told, and what is left of standard input.
#[derive(Drop)]
struct Run {
    status: u8,
    files: MemFiles,
    out: MemSink,
    told: MemSink,
    left: Vec<u8>,
}

fn words_of(alloc: Global, spelled: &str) -> Result<Vec<Text>, AllocError> {
    let mut words = Vec::new(alloc);
    for word in spelled.split(' ') {
        if let Some(text) = Text::new(word.as_bytes().to_vec(alloc)?) {
            words.push(text)?;
        }
    }
    Ok(words)
}

fn left_of(alloc: Global, input: &mut MemSource) -> Result<Vec<u8>, AllocError> {
    match read_all(alloc, input, LIMIT) {
        Ok(left) => Ok(left),
        Err(_) => Err(AllocError),
    }
}

fn run_over(
    alloc: Global,
    words: &[Text],
    mut files: MemFiles,
    given: Vec<u8>,
    moment: Moment,
) -> Result<Run, AllocError> {
    let mut input = MemSource::new(given, STEP, Vec::new(alloc));
    let mut out = MemSink::new(alloc, Vec::new(alloc));
    let mut told = MemSink::new(alloc, Vec::new(alloc));
    let status = exit_status(run_tools(
        alloc, words, &mut files, &mut input, &mut out, &mut told, moment, &OpenGate,
    ));
    let left = left_of(alloc, &mut input)?;
    Ok(Run {
        status,
        files,
        out,
        told,
        left,
    })
}

// Runs the program with these words and this standard input on the first of 1970.
fn run_fed(
    alloc: Global,
    spelled: &str,
    files: MemFiles,
    given: Vec<u8>,
) -> Result<Run, AllocError> {
    let words = words_of(alloc, spelled)?;
    match Moment::new([0, 0, 0, 1, 0, 70, 0]) {
        Some(moment) => run_over(alloc, &words, files, given, moment),
        None => Err(AllocError),
    }
}

fn run_words(alloc: Global, spelled: &str, files: MemFiles) -> Result<Run, AllocError> {
    run_fed(alloc, spelled, files, Vec::new(alloc))
}

// Puts the base into a folder, but for one file.
fn put_folder(
    alloc: Global,
    base: &Base,
    folder: &str,
    without: &str,
    files: &mut MemFiles,
) -> Result<(), AllocError> {
    for table in &SysTable::ALL {
        if table.file_name() != without {
            let name = format!(in alloc; "{folder}/{}", table.file_name())?;
            files.put(name.as_str(), base.text(*table))?;
        }
    }
    if without == "format" {
        return Ok(());
    }
    files.put(format!(in alloc; "{folder}/format")?.as_str(), b"1\n")
}

fn put_quoted(word: &[u8], text: &[u8], out: &mut Vec<u8>) -> Result<(), AllocError> {
    out.extend_from_slice(b", ")?;
    out.extend_from_slice(word)?;
    out.extend_from_slice(b" '")?;
    out.extend_from_slice(text)?;
    Ok(out.push(b'\'')?)
}

// The files of the folder D that no longer are the base's.
fn put_written(
    alloc: Global,
    base: &Base,
    files: &MemFiles,
    out: &mut Vec<u8>,
) -> Result<(), AllocError> {
    for table in &SysTable::ALL {
        let name = format!(in alloc; "D/{}", table.file_name())?;
        match files.text(name.as_str()) {
            Some(text) if text == base.text(*table) => {}
            Some(text) => put_quoted(table.file_name().as_bytes(), text, out)?,
            None => out.extend_from_slice(b", a file is gone")?,
        }
    }
    Ok(())
}

fn put_run(alloc: Global, base: &Base, run: &Run, out: &mut Vec<u8>) -> Result<(), AllocError> {
    out.extend_from_slice(format!(in alloc; "status {}", run.status)?.as_bytes())?;
    if !run.told.text().is_empty() {
        put_quoted(b"told", run.told.text(), out)?;
    }
    if !run.out.text().is_empty() {
        put_quoted(b"printed", run.out.text(), out)?;
    }
    put_written(alloc, base, &run.files, out)?;
    put_left(&run.left, out)
}

fn put_left(left: &[u8], out: &mut Vec<u8>) -> Result<(), AllocError> {
    if left.is_empty() {
        return Ok(());
    }
    put_quoted(b"left", left, out)
}

fn applied(alloc: Global, base: &Base, script: &[u8]) -> Result<Run, AllocError> {
    let mut files = MemFiles::new(alloc, Vec::new(alloc));
    put_folder(alloc, base, "D", "", &mut files)?;
    files.put("s.sql", script)?;
    run_words(alloc, "psql -d D -f s.sql", files)
}

/// A script: what psql answers, tells and writes.
pub(crate) fn psql(
    alloc: Global,
    base: &Base,
    script: &[u8],
    out: &mut Vec<u8>,
) -> Result<(), AllocError> {
    put_run(alloc, base, &applied(alloc, base, script)?, out)
}

/// A script: what pg_dump answers, tells and prints once it was applied.
pub(crate) fn pg_dump(
    alloc: Global,
    base: &Base,
    script: &[u8],
    out: &mut Vec<u8>,
) -> Result<(), AllocError> {
    let made = applied(alloc, base, script)?;
    let dumped = run_words(alloc, "pg_dump D", made.files)?;
    out.extend_from_slice(format!(in alloc; "status {}", dumped.status)?.as_bytes())?;
    put_quoted(b"told", dumped.told.text(), out)?;
    put_quoted(b"printed", dumped.out.text(), out)
}

/// Words: what the program answers, tells, prints and writes.
pub(crate) fn words(
    alloc: Global,
    base: &Base,
    line: &str,
    out: &mut Vec<u8>,
) -> Result<(), AllocError> {
    let mut files = MemFiles::new(alloc, Vec::new(alloc));
    put_folder(alloc, base, "D", "", &mut files)?;
    put_run(alloc, base, &run_words(alloc, line, files)?, out)
}

/// Words, ` < ` and the text of standard input: what the program answers, tells, prints and writes, and what is left of the
/// input.
pub(crate) fn input(
    alloc: Global,
    base: &Base,
    line: &str,
    out: &mut Vec<u8>,
) -> Result<(), AllocError> {
    let Some((words, rest)) = line.split_once(" < ") else {
        return out.extend_from_slice(b"?");
    };
    let Some(given) = decoded(alloc, rest)? else {
        return out.extend_from_slice(b"?");
    };
    let mut files = MemFiles::new(alloc, Vec::new(alloc));
    put_folder(alloc, base, "D", "", &mut files)?;
    put_run(alloc, base, &run_fed(alloc, words, files, given)?, out)
}

/// A file and its text, or `without` and a file: what pg_catcmp tells of the base and of the base with it.
pub(crate) fn pg_catcmp(
    alloc: Global,
    base: &Base,
    line: &str,
    out: &mut Vec<u8>,
) -> Result<(), AllocError> {
    let Some((word, rest)) = line.split_once(' ') else {
        return out.extend_from_slice(b"?");
    };
    let without = if word == "without" { rest } else { word };
    let Some(text) = decoded(alloc, rest)? else {
        return out.extend_from_slice(b"?");
    };
    let mut files = MemFiles::new(alloc, Vec::new(alloc));
    put_folder(alloc, base, "D", "", &mut files)?;
    put_folder(alloc, base, "E", without, &mut files)?;
    if word != "without" {
        files.put(format!(in alloc; "E/{word}")?.as_str(), &text)?;
    }
    put_run(alloc, base, &run_words(alloc, "pg_catcmp D E", files)?, out)
}
