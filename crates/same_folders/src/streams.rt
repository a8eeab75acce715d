//! Data files of two folders, read in step: compared, and their lines tried, part by part.
ghost use Rattle.std.specs.Prelude.{◌≡◌, ◌≤◌, ◌<◌, ◌+◌, ◌++◌, ℕ, List, [], length, take, drop, option_map, string_bytes, Some, None, IfErr, IfOk, IfSome, IsTrue, OnOk};
ghost use Rattle.std.specs.List.{AllByRecursion};
ghost use Rattle.dump_ports.specs.Tree.{Tree, bytes_at, text_at};
ghost use Rattle.dump_ports.specs.Faults.{CountsFault};
ghost use Rattle.folder_io.specs.declared.file.ExportFile.TheVariants.{Data};
ghost use Rattle.folder_io.specs.declared.fault.FolderLimit.TheVariants.{DataFile, Folder};
ghost use Rattle.folder_io.specs.Folders.{file_of, most_bytes};
ghost use Rattle.cat_rows.specs.declared.catalogue.Catalogue.{Catalogue as TheCatalogue};
ghost use Rattle.cat_model.specs.Values.{Bytes, Named};
ghost use Rattle.cat_names.specs.DataSets.{TextsByOid};
ghost use Rattle.table_rows.specs.Values.{text_of};
ghost use Rattle.tool_words.specs.Answers.{CountsRead};
ghost use Rattle.plain_loads.specs.declared.trying.KnownKeys.{KnownKeys as TheKnownKeys};
ghost use Rattle.plain_loads.specs.Meeting.{TableTakes};
ghost use Rattle.plain_loads.specs.Trying.{IsKnown, Judges, Seen};
ghost use Rattle.same_folders.specs.CutOff.{IsCutOff};
ghost use Rattle.same_folders.specs.Streams.{HoldLines, IsAlike, IsSeen, StandsFor};

use cat_book::Book;
use copy_text::Text;
use dump_ports::{Failed, Files};
use eng_map::NamedMap;
use folder_io::{ExportFile, FolderLimit};
use key_sets::KeySet;
use memchr::memrchr;
use plain_loads::{KnownKeys, TableTrial, begin_trial};
use std::alloc::{AllocError, Global};
use tool_words::Outcome;

// How many bytes of a text are whole lines.
fn whole_lines(text: &[u8]) -> usize
    ensures { result ≤ length text.now }
{
    match memrchr(b'\n', text) {
        Some(at) => at + 1,
        None => 0,
    }
}

// Reads the next lines of a file into the front of a buffer, and says how many bytes they are.
fn read_lines<F: Files>(
    files: &mut F,
    name: &str,
    at: u64,
    buffer: &mut [u8],
) -> Result<usize, Failed>
    ensures within { IfOk result (λ n. n ≤ length buffer.new) }
    ensures front { IfOk result (λ n. (tree : Tree) → F.tree files.old ≡ Some tree → take n buffer.new ≡ take n (drop at (bytes_at tree name.now))) }
    ensures kept { F.tree files.new ≡ F.tree files.old }
    ensures read_count { CountsFault result (F.read_faults files.old) (F.read_faults files.new) }
    ensures write_count { F.write_faults files.new ≡ F.write_faults files.old }
{
    let n = files.read_at(name, at, buffer)?;
    let (front, _) = buffer.split_at(n);
    Ok(whole_lines(front))
}

// Whether the first bytes of a buffer, of which so many were read, are these.
fn begins_with(buffer: &[u8], n: usize, part: &[u8]) -> bool
    requires { n ≤ length buffer.now }
    ensures within { IsTrue result → length part.now ≤ n }
    ensures same { IsTrue result → take (length part.now) buffer.now ≡ part.now }
{
    if n < part.len() {
        return false;
    }
    let (front, _) = buffer.split_at(part.len());
    front == part
}

// Whether a file goes on with these bytes at a place.
fn goes_on<F: Files>(
    files: &mut F,
    name: &str,
    at: u64,
    part: &[u8],
    buffer: &mut [u8],
) -> Result<bool, Failed>
    ensures same { IfOk result (λ same. IsTrue same → (tree : Tree) → F.tree files.old ≡ Some tree → take (length part.now) (drop at (bytes_at tree name.now)) ≡ part.now) }
    ensures kept { F.tree files.new ≡ F.tree files.old }
    ensures read_count { CountsFault result (F.read_faults files.old) (F.read_faults files.new) }
    ensures write_count { F.write_faults files.new ≡ F.write_faults files.old }
{
    let n = files.read_at(name, at, buffer)?;
    Ok(begins_with(buffer, n, part))
}

// Reads the next lines of a data file into the front of a buffer, where they stand in the second folder too, and says how many
// bytes they are; 0 for a no.
fn same_lines<F: Files>(
    files: &mut F,
    first: &str,
    second: &str,
    at: u64,
    one: &mut [u8],
    other: &mut [u8],
) -> Result<usize, Failed>
    ensures within { IfOk result (λ n. n ≤ length one.new) }
    ensures one { IfOk result (λ n. (tree : Tree) → F.tree files.old ≡ Some tree → take n one.new ≡ take n (drop at (bytes_at tree first.now))) }
    ensures other { IfOk result (λ n. 0 < n → (tree : Tree) → F.tree files.old ≡ Some tree → take n (drop at (bytes_at tree second.now)) ≡ take n one.new) }
    ensures kept { F.tree files.new ≡ F.tree files.old }
    ensures read_count { CountsFault result (F.read_faults files.old) (F.read_faults files.new) }
    ensures write_count { F.write_faults files.new ≡ F.write_faults files.old }
{
    let n = read_lines(files, first, at, one)?;
    let (part, _) = one.split_at(n);
    if goes_on(files, second, at, part, other)? {
        Ok(n)
    } else {
        Ok(0)
    }
}

// Tries the next lines of a data file, where they stand in the second folder too; how many bytes they are, and 0 for a no.
fn take_lines<F: Files>(
    alloc: Global,
    files: &mut F,
    first: &str,
    second: &str,
    at: u64,
    trial: &TableTrial<'_, '_>,
    keys: &mut KeySet<'static>,
    one: &mut [u8],
    other: &mut [u8],
) -> Result<usize, Outcome>
    ensures same { IfOk result (λ n. 0 < n → (tree : Tree) → F.tree files.old ≡ Some tree → take n (drop at (bytes_at tree first.now)) ≡ take n (drop at (bytes_at tree second.now))) }
    ensures seen { IfOk result (λ n. 0 < n → (tree : Tree) → F.tree files.old ≡ Some tree → (text : Bytes) → Seen trial.now keys.old text → Seen trial.now keys.new (text ++ take n (drop at (bytes_at tree first.now)))) }
    ensures cut_off { IfErr result IsCutOff }
    ensures kept { F.tree files.new ≡ F.tree files.old }
    ensures read_count { CountsRead result (F.read_faults files.old) (F.read_faults files.new) }
    ensures write_count { F.write_faults files.new ≡ F.write_faults files.old }
{
    match same_lines(files, first, second, at, one, other) {
        Ok(n) => taken(alloc, trial, keys, one, n),
        Err(Failed) => Err(Outcome::ReadFault),
    }
}

// How many bytes were taken; 0 for a no.
fn taken(
    alloc: Global,
    trial: &TableTrial<'_, '_>,
    keys: &mut KeySet<'static>,
    buffer: &[u8],
    n: usize,
) -> Result<usize, Outcome>
    requires { n ≤ length buffer.now }
    ensures whole { IfOk result (λ m. 0 < m → m ≡ n) }
    ensures seen { IfOk result (λ m. 0 < m → (text : Bytes) → Seen trial.now keys.old text → Seen trial.now keys.new (text ++ take n buffer.now)) }
    ensures cut_off { IfErr result IsCutOff }
    ensures count { (k : ℕ) → CountsRead result k k }
{
    let (part, _) = buffer.split_at(n);
    match trial.take(alloc, keys, part) {
        Ok(true) => Ok(n),
        Ok(false) => Ok(0),
        Err(_) => Err(Outcome::Memory),
    }
}

/// Whether a data file of so many bytes stands in the second folder too, and its lines are such as the trial takes: the file is
/// read a part at a time, and no part is held. It says no where it can't tell, as where a line is longer than a part.
///
/// The error is `ReadFault`, exactly where a call of the files failed, or `Memory`.
fn lines_are_same<F: Files>(
    alloc: Global,
    files: &mut F,
    first: &str,
    second: &str,
    len: u64,
    trial: &TableTrial<'_, '_>,
    keys: &mut KeySet<'static>,
    one: &mut [u8],
    other: &mut [u8],
) -> Result<bool, Outcome>
    ensures same { IfOk result (λ same. IsTrue same → (tree : Tree) → F.tree files.old ≡ Some tree → length (bytes_at tree first.now) ≤ len → length (bytes_at tree second.now) ≤ len → bytes_at tree first.now ≡ bytes_at tree second.now) }
    ensures seen { IfOk result (λ same. IsTrue same → (tree : Tree) → F.tree files.old ≡ Some tree → length (bytes_at tree first.now) ≤ len → Seen trial.now keys.old [] → Seen trial.now keys.new (bytes_at tree first.now)) }
    ensures cut_off { IfErr result IsCutOff }
    ensures kept { F.tree files.new ≡ F.tree files.old }
    ensures read_count { CountsRead result (F.read_faults files.old) (F.read_faults files.new) }
    ensures write_count { F.write_faults files.new ≡ F.write_faults files.old }
{
    let mut done = 0;
    'parts: while done < len {
        let n = take_lines(alloc, files, first, second, done, trial, keys, one, other)?;
        if n == 0 {
            return Ok(false);
        }
        let Some(next) = u64::checked_add(done, n as u64) else {
            return Ok(false);
        };
        done = next;
    }
    Ok(true)
}

// ---- one data file

// The path of a file in a folder.
fn path(alloc: Global, folder: &Text, file: ExportFile) -> Result<String, AllocError>
    ensures { IfOk result (λ name. string_bytes name ≡ file_of folder.now file) }
{
    let mut name = String::from_str(alloc, folder.as_str())?;
    name.push_str("/")?;
    file.push_name(&mut name)?;
    Ok(name)
}

fn agreed(size: Option<u64>, other: Option<u64>) -> Option<u64>
    ensures one { IfSome result (λ len. size ≡ Some len) }
    ensures other { IfSome result (λ len. other ≡ Some len) }
{
    let len = size?;
    if other == Some(len) { Some(len) } else { None }
}

// How many bytes two files have, where both are there and have as many.
fn size_of_both<F: Files>(files: &mut F, first: &str, second: &str) -> Result<Option<u64>, Failed>
    ensures one { IfOk result (λ found. IfSome found (λ len. (tree : Tree) → F.tree files.old ≡ Some tree → option_map (λ text. length text) (text_at tree first.now) ≡ Some len)) }
    ensures other { IfOk result (λ found. IfSome found (λ len. (tree : Tree) → F.tree files.old ≡ Some tree → option_map (λ text. length text) (text_at tree second.now) ≡ Some len)) }
    ensures kept { F.tree files.new ≡ F.tree files.old }
    ensures read_count { CountsFault result (F.read_faults files.old) (F.read_faults files.new) }
    ensures write_count { F.write_faults files.new ≡ F.write_faults files.old }
{
    let size = files.size(first)?;
    let other = files.size(second)?;
    Ok(agreed(size, other))
}

// The same within the limit of a data file; a failed call is told as an outcome.
fn data_size<F: Files>(files: &mut F, first: &str, second: &str) -> Result<Option<u64>, Outcome>
    ensures one { IfOk result (λ found. IfSome found (λ len. (tree : Tree) → F.tree files.old ≡ Some tree → option_map (λ text. length text) (text_at tree first.now) ≡ Some len)) }
    ensures other { IfOk result (λ found. IfSome found (λ len. (tree : Tree) → F.tree files.old ≡ Some tree → option_map (λ text. length text) (text_at tree second.now) ≡ Some len)) }
    ensures limited { IfOk result (λ found. IfSome found (λ len. len ≤ most_bytes DataFile)) }
    ensures cut_off { IfErr result IsCutOff }
    ensures kept { F.tree files.new ≡ F.tree files.old }
    ensures read_count { CountsRead result (F.read_faults files.old) (F.read_faults files.new) }
    ensures write_count { F.write_faults files.new ≡ F.write_faults files.old }
{
    match size_of_both(files, first, second) {
        Ok(found) => Ok(limited(found)),
        Err(Failed) => Err(Outcome::ReadFault),
    }
}

fn limited(size: Option<u64>) -> Option<u64>
    ensures same { IfSome result (λ len. size ≡ Some len) }
    ensures limited { IfSome result (λ len. len ≤ most_bytes DataFile) }
{
    let len = size?;
    if len <= FolderLimit::DataFile.bytes() {
        Some(len)
    } else {
        None
    }
}

// How many numbers have places in the set of a file's keys.
fn places(len: u64) -> usize {
    len.min(20_000_000) as usize
}

// What was told of a data file that both folders have: how many bytes it has, and the keys of its lines.
#[derive(Drop)]
struct FileKeys {
    len: u64,
    keys: KeySet<'static>,
}

fn lines_of_len<F: Files>(
    alloc: Global,
    files: &mut F,
    first: &str,
    second: &str,
    len: u64,
    trial: &TableTrial<'_, '_>,
    one: &mut [u8],
    other: &mut [u8],
) -> Result<Option<FileKeys>, Outcome>
    ensures found { IfOk result (λ found. IfSome found (λ f. (f.len ≡ len) × ((tree : Tree) → F.tree files.old ≡ Some tree → option_map (λ text. length text) (text_at tree first.now) ≡ Some len → option_map (λ text. length text) (text_at tree second.now) ≡ Some len
        → IsSeen tree first.now second.now trial.now len f.keys))) }
    ensures cut_off { IfErr result IsCutOff }
    ensures kept { F.tree files.new ≡ F.tree files.old }
    ensures read_count { CountsRead result (F.read_faults files.old) (F.read_faults files.new) }
    ensures write_count { F.write_faults files.new ≡ F.write_faults files.old }
{
    let mut keys = trial.no_keys(alloc, places(len))?;
    if lines_are_same(
        alloc, files, first, second, len, trial, &mut keys, one, other,
    )? {
        Ok(Some(FileKeys { len, keys }))
    } else {
        Ok(None)
    }
}

// What is told of a data file by its names in both folders; `None` for a no.
fn file_is_same<F: Files>(
    alloc: Global,
    files: &mut F,
    first: &str,
    second: &str,
    trial: &TableTrial<'_, '_>,
    one: &mut [u8],
    other: &mut [u8],
) -> Result<Option<FileKeys>, Outcome>
    ensures found { IfOk result (λ found. IfSome found (λ f. (tree : Tree) → F.tree files.old ≡ Some tree → IsSeen tree first.now second.now trial.now f.len f.keys)) }
    ensures limited { IfOk result (λ found. IfSome found (λ f. f.len ≤ most_bytes DataFile)) }
    ensures cut_off { IfErr result IsCutOff }
    ensures kept { F.tree files.new ≡ F.tree files.old }
    ensures read_count { CountsRead result (F.read_faults files.old) (F.read_faults files.new) }
    ensures write_count { F.write_faults files.new ≡ F.write_faults files.old }
{
    let Some(len) = data_size(files, first, second)? else {
        return Ok(None);
    };
    lines_of_len(alloc, files, first, second, len, trial, one, other)
}

// ---- one table

// What is told of the data file of a table by its folders.
fn data_is_same<F: Files>(
    alloc: Global,
    files: &mut F,
    first: &Text,
    second: &Text,
    trial: &TableTrial<'_, '_>,
    table: u32,
    one: &mut [u8],
    other: &mut [u8],
) -> Result<Option<FileKeys>, Outcome>
    ensures found { IfOk result (λ found. IfSome found (λ f. (tree : Tree) → F.tree files.old ≡ Some tree → IsSeen tree (file_of first.now (Data table)) (file_of second.now (Data table)) trial.now f.len f.keys)) }
    ensures limited { IfOk result (λ found. IfSome found (λ f. f.len ≤ most_bytes DataFile)) }
    ensures cut_off { IfErr result IsCutOff }
    ensures kept { F.tree files.new ≡ F.tree files.old }
    ensures read_count { CountsRead result (F.read_faults files.old) (F.read_faults files.new) }
    ensures write_count { F.write_faults files.new ≡ F.write_faults files.old }
{
    let first = path(alloc, first, ExportFile::Data(table))?;
    let second = path(alloc, second, ExportFile::Data(table))?;
    file_is_same(
        alloc,
        files,
        first.as_str(),
        second.as_str(),
        trial,
        one,
        other,
    )
}

// The trial of a table; want of memory is told as an outcome.
fn trial_of<'m, 'k>(
    alloc: Global,
    named: &'m NamedMap,
    book: &'m Book<'_>,
    known: &'k [KnownKeys],
    table: u32,
) -> Result<Option<TableTrial<'m, 'k>>, Outcome>
    ensures judges { IfOk result (λ found. IfSome found (λ trial. Judges named.now book.now known.now table trial)) }
    ensures cut_off { IfErr result IsCutOff }
    ensures count { (n : ℕ) → CountsRead result n n }
{
    Ok(begin_trial(alloc, named, book, known, table)?)
}

// Keeps the keys of a table's lines, where they were kept apart; how many bytes its file has.
fn keep(trial: TableTrial<'_, '_>, found: FileKeys) -> (u64, Option<KnownKeys>)
    ensures len { result.0 ≡ found.len }
    ensures known { IfSome result.1 (λ k. (named : Named) (cat : TheCatalogue) (before : List TheKnownKeys) (table : ℕ) → Judges named cat before table trial.entry
        → (texts : TextsByOid) → Seen trial.entry found.keys (text_of texts table) → IsKnown named texts k) }
{
    let FileKeys { len, keys } = found;
    (len, trial.into_known(keys))
}

// Whether the data file of a table stands in both folders, and the table takes its lines: how many bytes it has then. The keys of
// its lines are known from then on.
fn next_table<F: Files>(
    alloc: Global,
    files: &mut F,
    first: &Text,
    second: &Text,
    named: &NamedMap,
    book: &Book<'_>,
    table: u32,
    known: &mut Vec<KnownKeys>,
    one: &mut [u8],
    other: &mut [u8],
) -> Result<Option<u64>, Outcome>
    ensures same { IfOk result (λ found. IfSome found (λ len. (tree : Tree) → F.tree files.old ≡ Some tree → IsAlike first.now second.now tree table len)) }
    ensures limited { IfOk result (λ found. IfSome found (λ len. len ≤ most_bytes DataFile)) }
    ensures takes { IfOk result (λ found. IfSome found (λ len. (tree : Tree) → F.tree files.old ≡ Some tree → (texts : TextsByOid) → StandsFor first.now tree texts table → AllByRecursion (IsKnown named.now texts) known.old.items
        → AllByRecursion (IsKnown named.now texts) known.new.items × TableTakes named.now book.now texts table)) }
    ensures cut_off { IfErr result IsCutOff }
    ensures kept { F.tree files.new ≡ F.tree files.old }
    ensures read_count { CountsRead result (F.read_faults files.old) (F.read_faults files.new) }
    ensures write_count { F.write_faults files.new ≡ F.write_faults files.old }
{
    let Some(trial) = trial_of(alloc, named, book, known.as_slice(), table)? else {
        return Ok(None);
    };
    let Some(found) = data_is_same(alloc, files, first, second, &trial, table, one, other)? else {
        return Ok(None);
    };
    let (len, keys) = keep(trial, found);
    push_keys(known, keys)?;
    Ok(Some(len))
}

fn push_keys(known: &mut Vec<KnownKeys>, keys: Option<KnownKeys>) -> Result<(), AllocError>
    ensures { OnOk result ((named : Named) (texts : TextsByOid) → AllByRecursion (IsKnown named texts) known.old.items → IfSome keys (IsKnown named texts) → AllByRecursion (IsKnown named texts) known.new.items) }
{
    if let Some(keys) = keys {
        known.push(keys)?;
    }
    Ok(())
}

// ---- all tables

fn total(bytes: u64, len: u64) -> Option<u64>
    requires bytes { bytes ≤ most_bytes Folder }
    requires len { len ≤ most_bytes DataFile }
    ensures { IfSome result (λ sum. (sum ≡ bytes + len) × (sum ≤ most_bytes Folder)) }
{
    let sum = bytes + len;
    if sum <= FolderLimit::Folder.bytes() {
        Some(sum)
    } else {
        None
    }
}

/// Whether the data files of these tables stand in both folders, within the limits together with so many bytes, and each table
/// takes the lines of its file.
pub(crate) fn tables_are_same<F: Files>(
    alloc: Global,
    files: &mut F,
    first: &Text,
    second: &Text,
    named: &NamedMap,
    book: &Book<'_>,
    tables: &[u32],
    used: u64,
    one: &mut [u8],
    other: &mut [u8],
) -> Result<bool, Outcome>
    requires { used ≤ most_bytes Folder }
    ensures same { IfOk result (λ same. IsTrue same → (tree : Tree) → F.tree files.old ≡ Some tree → HoldLines first.now second.now tree used tables.now) }
    ensures takes { IfOk result (λ same. IsTrue same → (tree : Tree) → F.tree files.old ≡ Some tree → (texts : TextsByOid) → AllByRecursion (StandsFor first.now tree texts) tables.now → AllByRecursion (TableTakes named.now book.now texts) tables.now) }
    ensures cut_off { IfErr result IsCutOff }
    ensures kept { F.tree files.new ≡ F.tree files.old }
    ensures read_count { CountsRead result (F.read_faults files.old) (F.read_faults files.new) }
    ensures write_count { F.write_faults files.new ≡ F.write_faults files.old }
{
    let mut known = Vec::new(alloc);
    let mut bytes = used;
    for i in 0..tables.len() {
        let table = tables[i];
        let Some(len) = next_table(
            alloc, files, first, second, named, book, table, &mut known, one, other,
        )?
        else {
            return Ok(false);
        };
        let Some(sum) = total(bytes, len) else {
            return Ok(false);
        };
        bytes = sum;
    }
    Ok(true)
}
