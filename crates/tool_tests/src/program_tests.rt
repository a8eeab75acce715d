//! The words that the system gives the program, and its screens.
use crate::dump_tools_tests::words_of;
use dump_ports::MemSink;
use program_words::{read_arguments, refuse, screens_of};
use std::alloc::Global;
use std::env::{Env, FillError};
use std::test::Fail;

/// The tools, each of which has a screen.
const TOOLS: [&str; 7] = [
    "psql",
    "pg_dump",
    "pg_restore",
    "pg_dumpall",
    "pg_catcmp",
    "pg_clone",
    "pg_gen",
];

/// Words of which the third isn't UTF-8.
struct Words;

impl Env for Words {
    fn arg(&self, i: usize, buffer: &mut [u8]) -> Result<usize, FillError> {
        let words: [&[u8]; 4] = [b"pgtools", b"psql", b"-d", b"D\xff"];
        let Some(word) = words.get(i) else {
            return Err(FillError::NotPresent);
        };
        let Some(front) = buffer.get_mut(..word.len()) else {
            return Err(FillError::TooLong);
        };
        front.copy_from_slice(word);
        Ok(word.len())
    }

    fn var(&self, _name: &str, _buffer: &mut [u8]) -> Result<usize, FillError> {
        Err(FillError::NotPresent)
    }

    fn var_at(&self, _i: usize, _buffer: &mut [u8]) -> Result<usize, FillError> {
        Err(FillError::NotPresent)
    }
}

#[test]
fn words_are_utf8(rt: HostRuntime) -> Result<(), Fail> {
    let alloc = rt.alloc();
    let mut err = MemSink::new(alloc, Vec::new(alloc));
    let status = match read_arguments(alloc, &Words) {
        Ok(_) => 0,
        Err(fault) => refuse(&mut err, fault),
    };
    assert_eq!(rt; status, 1);
    assert!(rt; err.text() == b"pgtools: error: word 2: BadValue\n".as_slice());
    Ok(())
}

/// How the screen of these words begins; nothing where they ask for none.
fn screen_of(alloc: Global, spelled: &[&str]) -> Result<&'static str, Fail> {
    match screens_of(&words_of(alloc, spelled)?) {
        Some((screen, _)) => Ok(screen),
        None => Ok(""),
    }
}

#[test]
fn each_tool_has_its_help(rt: HostRuntime) -> Result<(), Fail> {
    let alloc = rt.alloc();
    for tool in &TOOLS {
        assert!(rt; screen_of(alloc, &[*tool, "--help"])?.starts_with(*tool));
        assert!(rt; screen_of(alloc, &[*tool])?.is_empty());
    }
    assert!(rt; screen_of(alloc, &["--help"])?.starts_with("pgtools: "));
    assert!(rt; screen_of(alloc, &["--version"])?.starts_with("pgtools, "));
    assert!(rt; screen_of(alloc, &["psql", "--help", "D"])?.is_empty());
    Ok(())
}
