mod staged;

use dump_ports::{Failed, Files, Sink, Source, read_whole};
use os_ports::*;
use std::io::{ErrorKind, Read, Write};
use std::os::fd::AsRawFd;
use std::rt::Clock;
use std::test::Fail;
use std::time::Duration;
use std::{fs, io};

/// Whether one read of a file from a place on gives this text.
fn reads<F: Files>(files: &mut F, name: &str, at: u64, text: &[u8]) -> bool {
    let mut buffer = [0; 8];
    match files.read_at(name, at, &mut buffer) {
        Ok(n) => &buffer[..n] == text,
        Err(Failed) => false,
    }
}

const ONE: &str = "os_ports_made/a/one";

const TWO: &str = "os_ports_made/a/two";

/// Whether a file is absent, and then made in pieces.
fn is_made<F: Files>(files: &mut F) -> bool {
    files.size(ONE) == Ok(None)
        && reads(files, ONE, 0, b"")
        && files.make(ONE).is_ok()
        && files.append(ONE, b"abc").is_ok()
        && files.append(ONE, b"").is_ok()
        && files.append(ONE, b"defg").is_ok()
        && files.size(ONE) == Ok(Some(7))
}

/// Whether a file is read from each place.
fn is_read<F: Files>(files: &mut F) -> bool {
    reads(files, ONE, 0, b"abcdefg")
        && reads(files, ONE, 5, b"fg")
        && reads(files, ONE, 7, b"")
        && reads(files, ONE, 9, b"")
}

/// Whether each of two files is read after the other, and the first is then made anew.
fn is_made_anew<F: Files>(files: &mut F) -> bool {
    reads(files, ONE, 0, b"abXYefg")
        && reads(files, TWO, 0, b"2")
        && reads(files, ONE, 0, b"abXYefg")
        && files.make(ONE).is_ok()
        && files.size(ONE) == Ok(Some(0))
        && reads(files, ONE, 0, b"")
}

#[test]
fn files_are_made_read_and_patched(rt: HostRuntime) -> Result<(), Fail> {
    let _ = fs::remove_dir_all(&rt, "os_ports_made");
    let mut files = OsFiles::new(rt.alloc(), &rt);
    assert!(rt; is_made(&mut files));
    assert!(rt; is_read(&mut files));
    assert!(rt; files.patch(ONE, 2, b"XY").is_ok() && files.append(TWO, b"2").is_ok());
    assert!(rt; is_made_anew(&mut files));
    drop(files);
    fs::remove_dir_all(&rt, "os_ports_made")?;
    Ok(())
}

const FOLDER: &str = "os_ports_folder";

const BELOW_A_FILE: &str = "os_ports_folder/file/a";

/// Whether a name can't be read.
fn is_no_file<F: Files>(files: &mut F, name: &str) -> bool {
    files.size(name).is_err() && files.read_at(name, 0, &mut [0; 8]).is_err()
}

/// Whether a name can't be written.
fn is_unwritable<F: Files>(files: &mut F, name: &str) -> bool {
    files.make(name).is_err() && files.append(name, b"a").is_err()
}

/// Whether what is no file fails, and a name below a file is absent.
fn fails_at_no_file<F: Files>(files: &mut F) -> bool {
    is_no_file(files, FOLDER)
        && is_no_file(files, "a\0b")
        && files.size(BELOW_A_FILE) == Ok(None)
        && reads(files, BELOW_A_FILE, 0, b"")
        && is_unwritable(files, FOLDER)
        && is_unwritable(files, BELOW_A_FILE)
        && is_unwritable(files, "a\0b")
        && files.append("os_ports_folder/b/a", b"a").is_err()
}

#[test]
fn what_is_no_file_fails(rt: HostRuntime) -> Result<(), Fail> {
    let _ = fs::remove_dir_all(&rt, FOLDER);
    fs::create_dir(&rt, FOLDER)?;
    let mut files = OsFiles::new(rt.alloc(), &rt);
    assert!(rt; files.make("os_ports_folder/file").is_ok());
    assert!(rt; fails_at_no_file(&mut files));
    for name in [FOLDER, BELOW_A_FILE, "a\0b", "os_ports_folder/absent"] {
        assert!(rt; files.patch(name, 0, b"a").is_err(), "{name}");
    }
    assert!(rt; files.size("os_ports_folder/absent") == Ok(None));
    drop(files);
    fs::remove_dir_all(&rt, FOLDER)?;
    Ok(())
}

#[test]
fn a_pipe_is_read_to_its_end(rt: HostRuntime) -> Result<(), Fail> {
    let (reader, mut writer) = io::pipe(&rt)?;
    let name = format!(in rt.alloc(); "/proc/self/fd/{}", reader.as_raw_fd())?;
    writer.write_all(&[b'a'; 50_000])?;
    drop(writer);
    let mut files = OsFiles::new(rt.alloc(), &rt);
    let whole = read_whole(rt.alloc(), &mut files, name.as_str(), 100_000);
    assert!(rt; holds_whole(&whole));
    Ok(())
}

/// Whether that is the text of the pipe.
fn holds_whole<E>(whole: &Result<Option<Vec<u8>>, E>) -> bool {
    match whole {
        Ok(Some(text)) => text.len() == 50_000 && text.iter().all(|b| *b == b'a'),
        _ => false,
    }
}

/// A stream whose calls give these answers, one after another, and then 0. Of its flushes this one fails, counted from 1.
#[derive(Drop)]
struct Script {
    answers: [Result<usize, ErrorKind>; 5],
    at: usize,
    flushed: usize,
    bad_flush: usize,
}

impl Script {
    fn new(answers: [Result<usize, ErrorKind>; 5], bad_flush: usize) -> Script {
        Script {
            answers,
            at: 0,
            flushed: 0,
            bad_flush,
        }
    }

    fn next(&mut self) -> io::Result<usize> {
        let answer = self.answers.get(self.at).copied().unwrap_or(Ok(0));
        self.at = self.at.saturating_add(1);
        match answer {
            Ok(n) => Ok(n),
            Err(kind) => Err(io::Error::from(kind)),
        }
    }
}

impl Read for Script {
    fn read(&mut self, buffer: &mut [u8]) -> io::Result<usize> {
        let n = self.next()?.min(buffer.len());
        buffer[..n].fill(b'a');
        Ok(n)
    }
}

impl Write for Script {
    fn write(&mut self, bytes: &[u8]) -> io::Result<usize> {
        Ok(self.next()?.min(bytes.len()))
    }

    fn flush(&mut self) -> io::Result<()> {
        self.flushed = self.flushed.saturating_add(1);
        if self.flushed == self.bad_flush {
            return Err(io::Error::from(ErrorKind::BrokenPipe));
        }
        Ok(())
    }
}

const CUT: Result<usize, ErrorKind> = Err(ErrorKind::Interrupted);

const BROKEN: Result<usize, ErrorKind> = Err(ErrorKind::BrokenPipe);

#[test]
fn input_is_read_to_its_end(rt: HostRuntime) {
    let mut buffer = [b'.'; 3];
    let mut input = OsIn::new(Script::new([Ok(2), CUT, CUT, Ok(9), BROKEN], 0));
    let reads: [(Result<usize, Failed>, [u8; 3]); 4] = [
        (Ok(2), *b"aa."),
        (Ok(3), *b"aaa"),
        (Err(Failed), *b"aaa"),
        (Ok(0), *b"aaa"),
    ];
    for (answer, bytes) in &reads {
        let given = input.read(&mut buffer);
        assert!(rt; given == *answer && buffer == *bytes);
    }
    let mut input = OsIn::new(rt.stdin());
    assert!(rt; input.read(&mut []) == Ok(0) && input.read(&mut buffer) == Ok(0));
}

/// Whether writes of `abc` give these answers, one after another.
fn gives<S: Sink>(sink: &mut S, answers: &[Result<usize, Failed>]) -> bool {
    for answer in answers {
        if sink.write(b"abc") != *answer {
            return false;
        }
    }
    true
}

#[test]
fn output_takes_some_or_fails(rt: HostRuntime) {
    let bad = Err(Failed);
    let mut out = OsOut::new(Script::new([Ok(2), CUT, Ok(9), Ok(0), BROKEN], 2));
    assert!(rt; gives(&mut out, &[Ok(2), bad, bad, bad, bad]) && out.write(b"") == Ok(0));
    let mut err = OsErr::new(Script::new([CUT, Ok(1), Ok(0), BROKEN, Ok(9)], 0));
    assert!(rt; gives(&mut err, &[Ok(1), bad, bad, Ok(3), bad]));
    assert!(rt; OsOut::new(rt.stdout()).write(b"") == Ok(0));
    assert!(rt; OsErr::new(rt.stderr()).write(b"") == Ok(0));
}

#[test]
fn output_is_in_the_file(rt: HostRuntime) -> Result<(), Fail> {
    let mut out = OsOut::new(fs::create(&rt, "os_ports_out")?);
    assert!(rt; out.write(b"ab") == Ok(2) && out.write(b"c") == Ok(1));
    let text = fs::read(&rt, "os_ports_out")?;
    assert!(rt; text.as_slice() == b"abc".as_slice());
    fs::remove_file(&rt, "os_ports_out")?;
    Ok(())
}

/// A clock that shows so many seconds since 1970, or fails.
#[derive(Drop)]
struct Shown(Option<u64>);

impl Clock for Shown {
    fn monotonic(&self) -> io::Result<Duration> {
        self.since_1970()
    }

    fn since_1970(&self) -> io::Result<Duration> {
        match self.0 {
            Some(seconds) => Ok(Duration::from_secs(seconds)),
            None => Err(io::Error::from(ErrorKind::Other)),
        }
    }
}

/// What a clock shows, in the order of the fields.
fn shown_at(seconds: Option<u64>) -> [i64; 7] {
    let m = moment_now(&Shown(seconds));
    [m.sec, m.min, m.hour, m.mday, m.mon, m.year, m.isdst]
}

#[test]
fn moments_of_a_clock(rt: HostRuntime) {
    const FIRST: [i64; 7] = [0, 0, 0, 1, 0, 70, 0];
    let cases = [
        (Some(0), FIRST),
        (Some(951_868_799), [59, 59, 23, 29, 1, 100, 0]),
        (Some(1_709_618_828), [8, 7, 6, 5, 2, 124, 0]),
        (Some(4_107_542_400), [0, 0, 0, 1, 2, 200, 0]),
        (Some(253_402_207_200), [0, 0, 22, 30, 11, 8099, 0]),
        (Some(253_402_207_201), FIRST),
        (None, FIRST),
    ];
    for (seconds, parts) in &cases {
        assert!(rt; shown_at(*seconds) == *parts, "at {seconds:?}");
    }
    assert!(rt; moment_now(&rt).year > 120);
}
