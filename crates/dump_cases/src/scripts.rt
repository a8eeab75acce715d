//! The plain script of a dump.
use cat_names::DataSet;
use cat_rows::Catalogue;
use copy_text::Text;
use dump_ports::Moment;
use fmt_text::{Options, script_text};
use std::alloc::{AllocError, Global};
use toc_entry::{Entry, Head};
use well_formed::WellFormed;

fn text_of(alloc: Global, bytes: &[u8]) -> Result<Text, AllocError> {
    Text::new(bytes.to_vec(alloc)?).ok_or(AllocError)
}

fn database_name(cat: &Catalogue) -> &[u8] {
    let rows = cat.pg_database.as_slice();
    match rows.iter().find(|row| row.datcurrent) {
        Some(row) => row.datname.as_bytes(),
        None => &[],
    }
}

fn head_of(alloc: Global, cat: &Catalogue, moment: Moment) -> Result<Head, AllocError> {
    Ok(Head {
        major: 1,
        minor: 15,
        revision: 0,
        format: 4,
        compression: 0,
        moment,
        dbname: text_of(alloc, database_name(cat))?,
        server: text_of(alloc, b"16.0")?,
        dumper: text_of(alloc, b"16.0")?,
    })
}

// The rows of an entry as a script has them: the text of its table's rows, and what ends them.
fn rows_of(alloc: Global, data: &DataSet, entry: &Entry) -> Result<Option<Vec<u8>>, AllocError> {
    if !entry.has_rows {
        return Ok(None);
    }
    let mut rows = Vec::new(alloc);
    if let Some(text) = data.text(entry.oid) {
        rows.extend_from_slice(text)?;
    }
    rows.extend_from_slice(b"\\.\n\n\n")?;
    Ok(Some(rows))
}

fn with_rows(
    alloc: Global,
    data: &DataSet,
    entries: Vec<Entry>,
) -> Result<Vec<(Entry, Option<Vec<u8>>)>, AllocError> {
    let mut pairs = Vec::new(alloc);
    let mut left = entries.into_iter();
    'entries: while let Some(entry) = left.next() {
        let rows = rows_of(alloc, data, &entry)?;
        pairs.push((entry, rows))?;
    }
    Ok(pairs)
}

/// Appends the script of these entries, with these rows of tables.
pub(crate) fn put_script(
    alloc: Global,
    cat: &WellFormed,
    data: &DataSet,
    owners: bool,
    entries: Vec<Entry>,
    out: &mut Vec<u8>,
) -> Result<(), AllocError> {
    let Some(moment) = Moment::new([5, 59, 23, 31, 11, 124, 0]) else {
        return Ok(());
    };
    let head = head_of(alloc, cat.rows(), moment)?;
    let pairs = with_rows(alloc, data, entries)?;
    script_text(alloc, &head, &pairs, &Options { owners }, out)
}
