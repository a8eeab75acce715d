ghost use Rattle.std.specs.Prelude.{◌≡◌, None};

use crate::faults::counted;
use crate::steps::{read_once, write_some};
use dump_ports::{Failed, Sink, Source};
use std::io::{Read, Write};
use std::marker::Model;

/// The standard input, or another reader. Contracts see its count of failed reads, which stops at 2^64 - 1.
#[derive(Drop)]
pub struct OsIn<R> {
    reader: R,
    faults: u64,
}

impl<R> Model for OsIn<R> {
    ghost use Rattle.std.specs.Prelude.{ℕ};

    ghost Value = { ℕ };

    ghost view = { λ s. s.faults };
}

impl<R> OsIn<R> {
    /// No read has failed so far.
    pub fn new(reader: R) -> OsIn<R>
        ensures { result ≡ 0 }
    {
        OsIn { reader, faults: 0 }
    }
}

impl<R: Read> Source for OsIn<R> {
    ghost left = { λ _. None };

    ghost faults = { λ s. s };

    fn read(&mut self, buffer: &mut [u8]) -> Result<usize, Failed> {
        counted(read_once(&mut self.reader, buffer), &mut self.faults)
    }
}

/// The standard output, or another writer. Contracts see its count of failed writes, which stops at 2^64 - 1.
#[derive(Drop)]
pub struct OsOut<W> {
    writer: W,
    faults: u64,
}

impl<W> Model for OsOut<W> {
    ghost use Rattle.std.specs.Prelude.{ℕ};

    ghost Value = { ℕ };

    ghost view = { λ s. s.faults };
}

impl<W> OsOut<W> {
    /// No write has failed so far.
    pub fn new(writer: W) -> OsOut<W>
        ensures { result ≡ 0 }
    {
        OsOut { writer, faults: 0 }
    }
}

impl<W: Write> Sink for OsOut<W> {
    ghost written = { λ _. None };

    ghost faults = { λ s. s };

    fn write(&mut self, bytes: &[u8]) -> Result<usize, Failed> {
        counted(write_some(&mut self.writer, bytes), &mut self.faults)
    }
}

/// The standard error, or another writer. Contracts see its count of failed writes, which stops at 2^64 - 1.
#[derive(Drop)]
pub struct OsErr<W> {
    writer: W,
    faults: u64,
}

impl<W> Model for OsErr<W> {
    ghost use Rattle.std.specs.Prelude.{ℕ};

    ghost Value = { ℕ };

    ghost view = { λ s. s.faults };
}

impl<W> OsErr<W> {
    /// No write has failed so far.
    pub fn new(writer: W) -> OsErr<W>
        ensures { result ≡ 0 }
    {
        OsErr { writer, faults: 0 }
    }
}

impl<W: Write> Sink for OsErr<W> {
    ghost written = { λ _. None };

    ghost faults = { λ s. s };

    fn write(&mut self, bytes: &[u8]) -> Result<usize, Failed> {
        counted(write_some(&mut self.writer, bytes), &mut self.faults)
    }
}
