//! A data file, read piece by piece.
ghost use Rattle.std.specs.Prelude.{◌≡◌, ◌+◌, ◌<◌, ◌≤◌, true, List, ℕ, drop, length, Some, IfOk, IfErr, IfSome, not};
ghost use Rattle.dump_ports.specs.Tree.{Tree, bytes_at, FillsFront};
ghost use Rattle.dump_files.specs.Readings.{begun, behind, to_come};
ghost use Rattle.dump_files.specs.Stops.{CountsRead, IsReadStop, IsOfReading, most, told_of};

use crate::file::{DataFile, MOST};
use crate::lines::{feed, finish};
use crate::stop::DumpStop;
use copy_text::Text;
use data_rows::CheckRowsError;
use dump_ports::{Failed, Files};
use std::alloc::{AllocError, Global};
use std::marker::Model;

/// How many bytes are asked for at once.
const PIECE: usize = 65536;

/// A data file that is read on, from call to call. It holds a piece of the file and the line that isn't whole yet.
#[derive(Drop)]
pub struct RowReader {
    rows: u64,
    at: u64,
    held: Vec<u8>,
    over: bool,
    buffer: Vec<u8>,
}

impl Model for RowReader {
    ghost use Rattle.std.specs.Prelude.{◌≡◌, ◌≢◌, ◌+◌, ◌≤◌, All, length};
    ghost use Rattle.copy_text.specs.Marks.{newline};
    ghost use Rattle.dump_files.specs.Readings.{Reading};
    ghost use Rattle.dump_files.specs.Stops.{most};

    ghost Value = { Reading };

    ghost view = { λ r. record { rows = r.rows; at = r.at; held = r.held.items; over = r.over } };

    ghost invariant = { λ r. (length r.buffer.items ≡ 65536) × (All (λ b. b ≢ newline) r.held.items) × (r.rows + length r.held.items ≤ r.at) × (r.at ≤ most) };
}

impl RowReader {
    /// A reader of a file of which nothing was read yet.
    pub fn new(alloc: Global) -> Result<RowReader, AllocError>
        ensures { IfOk result (λ reader. reader ≡ begun) }
    {
        Ok(RowReader {
            rows: 0,
            at: 0,
            held: Vec::new(alloc),
            over: false,
            buffer: vec![in alloc; 0u8; PIECE]?,
        })
    }

    /// How many rows are out.
    pub fn rows(&self) -> u64
        ensures value { result ≡ self.now.rows }
        ensures few { result ≤ most }
    {
        self.rows
    }

    /// Reads a file on by a piece, appends the rows of the lines that are whole by then, each in its one spelling, and says
    /// whether more may come. The last call appends the ending.
    pub fn next<F: Files>(
        &mut self,
        alloc: Global,
        files: &mut F,
        file: &DataFile,
        out: &mut Vec<u8>,
    ) -> Result<bool, DumpStop>
        // What is out, with what is still to come of the file, stays as it was; at the end nothing is.
        ensures same { (tree : Tree) → F.tree files.old ≡ Some tree → let text = bytes_at tree file.now.name in
            IfOk result (λ more. behind out.old.items self.old.rows (to_come file.now.columns self.old text) ≡ behind out.new.items self.new.rows (to_come file.now.columns self.new text)) }
        ensures over { IfOk result (λ more. self.new.over ≡ not more) }

        // An error is the one that was to come.
        ensures due { (tree : Tree) → F.tree files.old ≡ Some tree → let text = bytes_at tree file.now.name in
            IfErr result (IsReadStop file.now.table text (to_come file.now.columns self.old text)) }
        ensures reading { IfErr result IsOfReading }

        // It gets further, and never past the limit.
        ensures further { IfOk result (λ more. more ≡ true → self.old.at < self.new.at) }
        ensures within { self.new.at ≤ most }
        ensures kept { F.tree files.new ≡ F.tree files.old }
        ensures read_count { CountsRead result (F.read_faults files.old) (F.read_faults files.new) }
        ensures write_count { F.write_faults files.new ≡ F.write_faults files.old }
    {
        if self.over {
            return Ok(false);
        }
        let n = read_piece(files, &file.name, self.at, self.buffer.as_mut_slice())?;
        if n == 0 {
            let rows = told(
                file.table,
                finish(alloc, &self.held, file.columns, self.rows, out),
            )?;
            self.held.clear();
            self.rows = rows;
            self.over = true;
            return Ok(false);
        }
        if n as u64 > MOST - self.at {
            return Err(DumpStop::TooLarge(MOST + 1));
        }
        self.at += n as u64;
        let (rows, over) = told(
            file.table,
            feed(
                alloc,
                &mut self.held,
                &self.buffer[..n],
                file.columns,
                self.rows,
                out,
            ),
        )?;
        self.rows = rows;
        self.over = over;
        Ok(!over)
    }
}

/// Reads the next piece of a file; 0 at its end.
fn read_piece<F: Files>(
    files: &mut F,
    name: &Text,
    at: u64,
    buffer: &mut [u8],
) -> Result<usize, DumpStop>
    ensures fits { IfOk result (λ n. n ≤ length buffer.new) }
    ensures told { IfOk result (λ n. IfSome (F.tree files.old) (λ t. FillsFront (drop at (bytes_at t name.now)) buffer.new n)) }
    ensures stop { IfErr result (λ stop. stop ≡ DumpStop.ReadFault) }
    ensures kept { F.tree files.new ≡ F.tree files.old }
    ensures read_count { CountsRead result (F.read_faults files.old) (F.read_faults files.new) }
    ensures write_count { F.write_faults files.new ≡ F.write_faults files.old }
{
    match files.read_at(name.as_str(), at, buffer) {
        Ok(n) => Ok(n),
        Err(Failed) => Err(DumpStop::ReadFault),
    }
}

/// The same answer of a table.
fn told<T: Drop>(table: u32, answer: Result<T, CheckRowsError>) -> Result<T, DumpStop>
    ensures { result ≡ told_of table answer }
{
    match answer {
        Ok(value) => Ok(value),
        Err(CheckRowsError::Fault(first)) => Err(DumpStop::BadRows { table, first }),
        Err(CheckRowsError::Memory) => Err(DumpStop::Memory),
    }
}
