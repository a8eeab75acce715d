//! psql on a folder of the system's files, cut at each call of the system.
use copy_text::Text;
use cut_files::{Calls, Cut, CutFiles};
use dump_ports::{MemSink, MemSource, OpenGate};
use dump_tools::run_tools;
use os_ports::{Hold, Holdable, OsFiles, moment_now};
use program_words::exit_status;
use std::alloc::Global;
use std::test::Fail;
use std::{fs, io, rt};

const FOLDER: &str = "os_ports_psql";

/// The files of the empty export that aren't empty.
const TEXTS: [(&str, &[u8]); 4] = [
    (
        "pg_authid.copy",
        b"10\tpostgres\tt\tt\tt\tt\tt\tt\tt\t-1\t\\N\t\\N\n",
    ),
    ("pg_database.copy", b"5\tpostgres\t10\tUTF8\tt\n"),
    ("format", b"1\n"),
    ("pg_namespace.copy", b"2200\tpublic\t10\t\\N\n"),
];

/// What the script makes of the last of them.
const NEW: &[u8] = b"2200\tpublic\t10\t\\N\n16384\ta\t10\t\\N\n";

/// The others.
const EMPTY: [&str; 12] = [
    "pg_auth_members.copy",
    "pg_type.copy",
    "pg_enum.copy",
    "pg_class.copy",
    "pg_attribute.copy",
    "pg_attrdef.copy",
    "pg_constraint.copy",
    "pg_index.copy",
    "pg_sequence.copy",
    "pg_rewrite.copy",
    "pg_description.copy",
    "pg_depend.copy",
];

/// Makes the folder and the script.
fn begin(rt: &HostRuntime) -> Result<(), Fail> {
    let _ = fs::remove_dir_all(rt, FOLDER);
    fs::create_dir(rt, FOLDER)?;
    for (name, text) in TEXTS {
        fs::write(rt, path(rt.alloc(), name)?, text)?;
    }
    for name in EMPTY {
        fs::write(rt, path(rt.alloc(), name)?, "")?;
    }
    fs::write(rt, "os_ports_psql.sql", "CREATE SCHEMA a;\n")?;
    Ok(())
}

/// The path of a file in the folder.
fn path(alloc: Global, name: &str) -> io::Result<String> {
    Ok(format!(in alloc; "{FOLDER}/{name}")?)
}

/// Whether the folder is whole, and has the schema or not.
fn stands(rt: &HostRuntime) -> io::Result<Option<bool>> {
    for (name, text) in [TEXTS[0], TEXTS[1], TEXTS[2]] {
        if fs::read(rt, path(rt.alloc(), name)?)?.as_slice() != text {
            return Ok(None);
        }
    }
    for name in EMPTY {
        if fs::metadata(rt, path(rt.alloc(), name)?)?.len() != 0 {
            return Ok(None);
        }
    }
    let schemas = fs::read(rt, path(rt.alloc(), TEXTS[3].0)?)?;
    if schemas.as_slice() == TEXTS[3].1 {
        return Ok(Some(false));
    }
    Ok((schemas.as_slice() == NEW).then_some(true))
}

/// A whole run of psql as the program makes it, and whether it was done.
fn psql<R: rt::Files + Drop>(alloc: Global, clock: &HostRuntime, system: R) -> Result<bool, Fail>
where
    R::File: Holdable,
{
    let mut words = Vec::new(alloc);
    for word in ["psql", "-d", FOLDER, "-f", "os_ports_psql.sql"] {
        if let Some(text) = Text::new(String::from_str(alloc, word)?.into_bytes()) {
            words.push(text)?;
        }
    }
    let mut files = OsFiles::new(alloc, system);
    if files.hold(FOLDER, Hold::Alone).is_err() {
        return Ok(false);
    }
    let mut input = MemSource::new(Vec::new(alloc), 1, Vec::new(alloc));
    let mut out = MemSink::new(alloc, Vec::new(alloc));
    let mut told = MemSink::new(alloc, Vec::new(alloc));
    let outcome = run_tools(
        alloc,
        &words,
        &mut files,
        &mut input,
        &mut out,
        &mut told,
        moment_now(clock),
        &OpenGate,
    );
    Ok(exit_status(outcome) == 0 && files.commit().is_ok())
}

/// Whether a run of psql on the old folder of which the calls behind the first so many fail had such a call. What it
/// leaves is whole.
fn is_cut(rt: &HostRuntime, left: u64) -> Result<bool, Fail> {
    fs::write(rt, path(rt.alloc(), TEXTS[3].0)?, TEXTS[3].1)?;
    let calls = Calls::new(left, Cut::All);
    let is_done = psql(rt.alloc(), rt, CutFiles { rt, calls: &calls })?;
    match stands(rt)? {
        Some(has_schema) if has_schema || !is_done => Ok(calls.has_failed()),
        _ => Err(Fail::new(format_args!("not whole behind {left}"))),
    }
}

/// A run of psql on what a cut one left: the folder then has the schema.
fn repair(rt: &HostRuntime, left: u64) -> Result<(), Fail> {
    if psql(rt.alloc(), rt, rt)? && stands(rt)? == Some(true) {
        return Ok(());
    }
    Err(Fail::new(format_args!("not repaired behind {left}")))
}

/// How many cuts there are, behind every third call. Each eighth is followed by a run that isn't cut.
fn third_cuts(rt: &HostRuntime) -> Result<u64, Fail> {
    for number in 0..700 {
        if !is_cut(rt, 3 * number)? {
            return Ok(number);
        }
        if number % 8 == 0 {
            repair(rt, 3 * number)?;
        }
    }
    Ok(700)
}

#[test]
fn psql_is_cut_at_each_third_call(rt: HostRuntime) -> Result<(), Fail> {
    begin(&rt)?;
    let cuts = third_cuts(&rt)?;
    assert!(rt; cuts > 50 && cuts < 700, "{cuts}");
    fs::remove_dir_all(&rt, FOLDER)?;
    fs::remove_file(&rt, "os_ports_psql.sql")?;
    Ok(())
}
