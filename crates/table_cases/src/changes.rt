//! Cases of changes to the tables of a folder.
use crate::base::{Base, TableText};
use crate::checks::check_texts;
use crate::kind::Checked;
use cat_rows::SysTable;
use std::alloc::{AllocError, Global};
use text_cases::{decoded, table_of};

// The names of a table's columns.
fn columns(table: SysTable) -> &'static str {
    match table {
        SysTable::PgAuthid => {
            "oid rolname rolsuper rolinherit rolcreaterole rolcreatedb rolcanlogin rolreplication rolbypassrls rolconnlimit rolpassword rolvaliduntil"
        }
        SysTable::PgAuthMembers => {
            "oid roleid member grantor admin_option inherit_option set_option"
        }
        SysTable::PgDatabase => "oid datname datdba encoding datcurrent",
        SysTable::PgNamespace => "oid nspname nspowner nspacl",
        SysTable::PgType => {
            "oid typname typnamespace typowner typtype typnotnull typbasetype basetext typdefault typacl"
        }
        SysTable::PgEnum => "oid enumtypid enumpos enumlabel",
        SysTable::PgClass => "oid relname relnamespace relkind relowner relpersistence relacl",
        SysTable::PgAttribute => "attrelid attnum attname atttypid typtext attnotnull",
        SysTable::PgAttrdef => "oid adrelid adnum adexpr",
        SysTable::PgConstraint => {
            "oid conname contype conrelid contypid conindid confrelid condef"
        }
        SysTable::PgIndex => "indexrelid indrelid indisunique indexdef",
        SysTable::PgSequence => {
            "seqrelid seqtype seqstart seqincrement seqmax seqmin seqcache seqcycle last_value is_called ownrel owncol"
        }
        SysTable::PgRewrite => "oid ev_class viewdef",
        SysTable::PgDescription => "objoid classoid objsubid description",
        SysTable::PgDepend => "classid objid objsubid refclassid refobjid refobjsubid deptype",
    }
}

/// What happens to a line.
#[derive(Drop)]
enum Change<'a> {
    /// It goes.
    Removed,
    /// It stands once more behind the last.
    Repeated,
    /// The column of this number, from 0, has another text.
    Set(usize, &'a [u8]),
}

fn put_line(line: &[u8], change: &Change<'_>, out: &mut Vec<u8>) -> Result<(), AllocError> {
    match change {
        Change::Removed => return Ok(()),
        Change::Repeated => out.extend_from_slice(line)?,
        Change::Set(column, text) => {
            for (i, cell) in line.split(|b| *b == b'\t').enumerate() {
                if i > 0 {
                    out.push(b'\t')?;
                }
                out.extend_from_slice(if i == *column { text } else { cell })?;
            }
        }
    }
    Ok(out.push(b'\n')?)
}

// The text of a table with a change of the line of this number, from 1.
fn changed(
    alloc: Global,
    text: &[u8],
    number: usize,
    change: &Change<'_>,
) -> Result<Vec<u8>, AllocError> {
    let mut out = Vec::new(alloc);
    let mut repeated: &[u8] = &[];
    let lines = text.strip_suffix(b"\n".as_slice()).unwrap_or(text);
    for (i, line) in lines.split(|b| *b == b'\n').enumerate() {
        if Some(i) == number.checked_sub(1) {
            put_line(line, change, &mut out)?;
            repeated = line;
        } else {
            put_line(line, &Change::Repeated, &mut out)?;
        }
    }
    if matches!(change, Change::Repeated) {
        put_line(repeated, change, &mut out)?;
    }
    Ok(out)
}

fn with_change(
    alloc: Global,
    base: &Base,
    table: SysTable,
    number: usize,
    change: &Change<'_>,
    out: &mut Vec<u8>,
) -> Result<(), AllocError> {
    let text = changed(alloc, base.text(table), number, change)?;
    let mut with = Base::new(alloc);
    with.tables.push(TableText { table, text })?;
    check_texts(alloc, Checked::All, base, &with, out)
}

// The column's number and its new text.
fn set<'a>(table: SysTable, said: &'a str) -> Option<(usize, &'a str)> {
    let (column, text) = said.split_once(" = ")?;
    let number = columns(table).split(' ').position(|name| name == column)?;
    Some((number, text))
}

fn change_line(
    alloc: Global,
    base: &Base,
    table: SysTable,
    number: usize,
    said: &str,
    out: &mut Vec<u8>,
) -> Result<(), AllocError> {
    if said == "removed" {
        return with_change(alloc, base, table, number, &Change::Removed, out);
    }
    if said == "repeated at the end" {
        return with_change(alloc, base, table, number, &Change::Repeated, out);
    }
    let Some((column, text)) = set(table, said) else {
        return out.extend_from_slice(b"?");
    };
    let Some(text) = decoded(alloc, text)? else {
        return out.extend_from_slice(b"?");
    };
    with_change(alloc, base, table, number, &Change::Set(column, &text), out)
}

/// A change of one line of a table: `TABLE line N removed`, `.. repeated at the end` or `.. COLUMN = TEXT`; or `nothing`.
pub fn change_texts(
    alloc: Global,
    base: &Base,
    line: &str,
    out: &mut Vec<u8>,
) -> Result<(), AllocError> {
    if line == "nothing" {
        return check_texts(alloc, Checked::All, base, &Base::new(alloc), out);
    }
    let Some((name, rest)) = line.split_once(" line ") else {
        return out.extend_from_slice(b"?");
    };
    let Some((number, said)) = rest.split_once(' ') else {
        return out.extend_from_slice(b"?");
    };
    match (table_of(name), number.parse::<usize>()) {
        (Some(table), Ok(number)) => change_line(alloc, base, table, number, said, out),
        _ => out.extend_from_slice(b"?"),
    }
}
