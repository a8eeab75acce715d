//! Calls of a program.
use copy_text::Text;
use dump_ports::{MemFiles, MemSink, MemSource, Moment};
use std::alloc::{AllocError, Global};

/// The program that is called.
pub trait Program {
    /// Runs it with these words over these files and streams, and gives its exit status.
    fn run(
        &self,
        alloc: Global,
        words: &[Text],
        files: &mut MemFiles,
        input: &mut MemSource,
        printed: &mut MemSink,
        told: &mut MemSink,
        moment: Moment,
    ) -> u8;
}

/// How many bytes of standard input a read gives.
const STEP: usize = 4096;

/// What a call came to: its exit status, what was printed and what was told.
#[derive(Drop)]
struct Ended {
    status: u8,
    printed: MemSink,
    told: MemSink,
}

fn words_of(alloc: Global, spelled: &str) -> Result<Vec<Text>, AllocError> {
    let mut words = Vec::new(alloc);
    for word in spelled.split(' ') {
        if let Some(text) = Text::new(word.as_bytes().to_vec(alloc)?) {
            words.push(text)?;
        }
    }
    Ok(words)
}

fn run_over<P: Program>(
    alloc: Global,
    program: &P,
    words: &[Text],
    files: &mut MemFiles,
    given: Vec<u8>,
    moment: Moment,
) -> Ended {
    let mut input = MemSource::new(given, STEP, Vec::new(alloc));
    let mut printed = MemSink::new(alloc, Vec::new(alloc));
    let mut told = MemSink::new(alloc, Vec::new(alloc));
    let status = program.run(
        alloc,
        words,
        files,
        &mut input,
        &mut printed,
        &mut told,
        moment,
    );
    Ended {
        status,
        printed,
        told,
    }
}

// Runs the program with these words and this standard input on the first of 1970.
fn run_words<P: Program>(
    alloc: Global,
    program: &P,
    spelled: &str,
    files: &mut MemFiles,
    given: Vec<u8>,
) -> Result<Ended, AllocError> {
    let words = words_of(alloc, spelled)?;
    match Moment::new([0, 0, 0, 1, 0, 70, 0]) {
        Some(moment) => Ok(run_over(alloc, program, &words, files, given, moment)),
        None => Err(AllocError),
    }
}

fn put_quoted(word: &[u8], text: &[u8], out: &mut Vec<u8>) -> Result<(), AllocError> {
    if text.is_empty() {
        return Ok(());
    }
    out.extend_from_slice(b", ")?;
    out.extend_from_slice(word)?;
    out.extend_from_slice(b" '")?;
    out.extend_from_slice(text)?;
    Ok(out.push(b'\'')?)
}

fn put_ended(alloc: Global, ended: &Ended, out: &mut Vec<u8>) -> Result<(), AllocError> {
    out.extend_from_slice(format!(in alloc; "status {}", ended.status)?.as_bytes())?;
    put_quoted(b"told", ended.told.text(), out)?;
    put_quoted(b"printed", ended.printed.text(), out)
}

// The text of a file; none where it isn't there.
fn given_of(alloc: Global, files: &MemFiles, name: &str) -> Result<Vec<u8>, AllocError> {
    match files.text(name) {
        Some(text) => text.to_vec(alloc),
        None => Ok(Vec::new(alloc)),
    }
}

/// Appends what a call answers, tells and prints: its words, and behind ` < ` the file that is its standard input.
pub(crate) fn put_call<P: Program>(
    alloc: Global,
    program: &P,
    files: &mut MemFiles,
    said: &str,
    out: &mut Vec<u8>,
) -> Result<(), AllocError> {
    let (spelled, given) = match said.split_once(" < ") {
        Some((spelled, name)) => (spelled, given_of(alloc, files, name)?),
        None => (said, Vec::new(alloc)),
    };
    let ended = run_words(alloc, program, spelled, files, given)?;
    put_ended(alloc, &ended, out)
}
