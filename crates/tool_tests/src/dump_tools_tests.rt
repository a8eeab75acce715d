use copy_text::Text;
use dump_ports::{MemFiles, MemSink, MemSource, OpenGate, read_all};
use dump_tools::run_tools;
use os_ports::moment_now;
use program_words::exit_status;
use std::alloc::Global;
use std::test::Fail;

/// The export of an empty cluster, in the order in which a folder is written.
const EMPTY: [(&str, &[u8]); 16] = [
    (
        "D/pg_authid.copy",
        b"10\tpostgres\tt\tt\tt\tt\tt\tt\tt\t-1\t\\N\t\\N\n",
    ),
    ("D/pg_auth_members.copy", b""),
    ("D/pg_database.copy", b"5\tpostgres\t10\tUTF8\tt\n"),
    ("D/pg_namespace.copy", b"2200\tpublic\t10\t\\N\n"),
    ("D/pg_type.copy", b""),
    ("D/pg_enum.copy", b""),
    ("D/pg_class.copy", b""),
    ("D/pg_attribute.copy", b""),
    ("D/pg_attrdef.copy", b""),
    ("D/pg_constraint.copy", b""),
    ("D/pg_index.copy", b""),
    ("D/pg_sequence.copy", b""),
    ("D/pg_rewrite.copy", b""),
    ("D/pg_description.copy", b""),
    ("D/pg_depend.copy", b""),
    ("D/format", b"1\n"),
];

/// A run over files in memory: its exit status, what the files hold, what was written to standard output and standard
/// error, and standard input.
#[derive(Drop)]
struct Run {
    status: u8,
    files: MemFiles,
    out: MemSink,
    told: MemSink,
    input: MemSource,
}

/// Applies a script to the empty export, where these calls of the files fail.
fn apply(rt: &HostRuntime, script: &[u8], fail: Vec<u64>) -> Result<Run, Fail> {
    let mut files = MemFiles::new(rt.alloc(), fail);
    for (name, text) in EMPTY {
        files.put(name, text)?;
    }
    files.put("s.sql", script)?;
    call(
        rt,
        &["psql", "-d", "D", "-f", "s.sql"],
        files,
        Vec::new(rt.alloc()),
        Vec::new(rt.alloc()),
    )
}

/// Calls the program with these words, where these calls of standard output and of standard error fail.
fn call(
    rt: &HostRuntime,
    spelled: &[&str],
    files: MemFiles,
    fail_out: Vec<u64>,
    fail_told: Vec<u64>,
) -> Result<Run, Fail> {
    let words = words_of(rt.alloc(), spelled)?;
    let input = MemSource::new(Vec::new(rt.alloc()), 1, Vec::new(rt.alloc()));
    Ok(run_words(rt, &words, files, input, fail_out, fail_told))
}

/// Applies what standard input gives to the empty export.
fn apply_input(rt: &HostRuntime, input: MemSource) -> Result<Run, Fail> {
    let words = words_of(rt.alloc(), &["psql", "-d", "D"])?;
    let mut files = MemFiles::new(rt.alloc(), Vec::new(rt.alloc()));
    for (name, text) in EMPTY {
        files.put(name, text)?;
    }
    let none = Vec::new(rt.alloc());
    Ok(run_words(rt, &words, files, input, none, Vec::new(rt.alloc())))
}

pub(crate) fn words_of(alloc: Global, spelled: &[&str]) -> Result<Vec<Text>, Fail> {
    let mut words = Vec::new(alloc);
    for word in spelled {
        if let Some(text) = Text::new(String::from_str(alloc, word)?.into_bytes()) {
            words.push(text)?;
        }
    }
    Ok(words)
}

fn run_words(
    rt: &HostRuntime,
    words: &[Text],
    mut files: MemFiles,
    mut input: MemSource,
    fail_out: Vec<u64>,
    fail_told: Vec<u64>,
) -> Run {
    let alloc = rt.alloc();
    let mut out = MemSink::new(alloc, fail_out);
    let mut told = MemSink::new(alloc, fail_told);
    let moment = moment_now(rt);
    let outcome = run_tools(
        alloc, words, &mut files, &mut input, &mut out, &mut told, moment, &OpenGate,
    );
    Run {
        status: exit_status(outcome),
        files,
        out,
        told,
        input,
    }
}

/// The text of a file, or nothing.
fn text<'a>(files: &'a MemFiles, name: &str) -> &'a [u8] {
    files.text(name).unwrap_or(b"")
}

/// What a file is to hold where the writing ended on the file of this number, counted from 0.
fn may_hold(at: usize, number: usize, text: &[u8], old: &[u8]) -> bool {
    let new: &[u8] = if number == 3 {
        b"2200\tpublic\t10\t\\N\n16384\ta\t10\t\\N\n"
    } else {
        old
    };
    match number {
        _ if number < at => text == new,
        _ if number == at => new.starts_with(text) || text == old,
        _ => text == old,
    }
}

/// The numbers of the files that the calls of a whole run write, one after another: each is made, and where its text
/// isn't empty it is added to.
const WRITES: [usize; 20] = [
    0, 0, 1, 2, 2, 3, 3, 4, 5, 6, 7, 8, 9, 10, 11, 12, 13, 14, 15, 15,
];

#[test]
fn each_call_fails_in_turn(rt: HostRuntime) -> Result<(), Fail> {
    let mut reads = 0usize;
    let mut writes = 0usize;
    for call in 1..u64::MAX {
        let mut fail = Vec::new(rt.alloc());
        fail.push(call)?;
        let run = apply(&rt, b"CREATE SCHEMA a;", fail)?;
        if run.status == 0 {
            break;
        }
        let at = if run.told.text() == b"psql: error: could not read\n".as_slice() {
            reads = reads.saturating_add(1);
            0
        } else {
            assert!(rt; run.told.text() == b"psql: error: could not write\n".as_slice());
            let at = WRITES.get(writes).copied().unwrap_or(16);
            writes = writes.saturating_add(1);
            at
        };
        assert_eq!(rt; run.status, 1);
        for (number, (name, old)) in EMPTY.into_iter().enumerate() {
            assert!(rt; may_hold(at, number, text(&run.files, name), old));
        }
    }
    assert!(rt; reads > 0 && writes == 20);
    Ok(())
}

/// Calls of each tool over the folder D, which is the empty export, and E, which has the schema `a` too; and the line that
/// each tells.
const TELLING: [(&[&str], &[u8]); 3] = [
    (
        &["psql", "-d", "D", "-f", "s.sql"],
        b"psql: error: at 17: schema a already exists\n",
    ),
    (
        &["pg_dump", "X"],
        b"pg_dump: error: missing file X/format\n",
    ),
    (
        &["pg_catcmp", "D", "E"],
        b"pg_catcmp: error: differs: schema a\n",
    ),
];

/// The two folders, and a script that makes `a` twice.
fn two_folders(alloc: Global) -> Result<MemFiles, Fail> {
    let mut files = MemFiles::new(alloc, Vec::new(alloc));
    for (name, text) in EMPTY {
        files.put(name, text)?;
        files.put(
            format!(in alloc; "E{}", name.get(1..).unwrap_or(""))?.as_str(),
            text,
        )?;
    }
    files.put(
        "E/pg_namespace.copy",
        b"2200\tpublic\t10\t\\N\n16384\ta\t10\t\\N\n",
    )?;
    files.put("s.sql", b"CREATE SCHEMA a; CREATE SCHEMA a;")?;
    Ok(files)
}

/// Whether a first part of the line was told, and then a first part of the line of a failed write.
fn is_cut_line(told: &[u8], line: &[u8]) -> bool {
    let fault: &[u8] = b"psql: error: could not write\n";
    let shared = told.iter().zip(line).take_while(|(a, b)| a == b).count();
    (0..=shared).any(|front| fault.starts_with(told.get(front..).unwrap_or(b"")))
}

#[test]
fn each_write_to_standard_error_fails_in_turn(rt: HostRuntime) -> Result<(), Fail> {
    for (words, line) in TELLING {
        for number in 1..u64::MAX {
            let mut fail = Vec::new(rt.alloc());
            fail.push(number)?;
            let files = two_folders(rt.alloc())?;
            let run = call(&rt, words, files, Vec::new(rt.alloc()), fail)?;
            if run.told.text() == line {
                assert!(rt; number > 1);
                break;
            }
            assert_eq!(rt; run.status, 1);
            assert!(rt; is_cut_line(run.told.text(), line) && run.out.text().is_empty());
        }
    }
    Ok(())
}

#[test]
fn each_write_to_standard_output_fails_in_turn(rt: HostRuntime) -> Result<(), Fail> {
    let none = Vec::new(rt.alloc());
    let whole = call(
        &rt,
        &["pg_dump", "E"],
        two_folders(rt.alloc())?,
        none,
        Vec::new(rt.alloc()),
    )?;
    assert!(rt; whole.status == 0 && !whole.out.text().is_empty());
    for number in 1..u64::MAX {
        let mut fail = Vec::new(rt.alloc());
        fail.push(number)?;
        let files = two_folders(rt.alloc())?;
        let run = call(&rt, &["pg_dump", "E"], files, fail, Vec::new(rt.alloc()))?;
        if run.status == 0 {
            assert!(rt; number > 1 && run.out.text() == whole.out.text());
            break;
        }
        assert!(rt; whole.out.text().starts_with(run.out.text()));
        assert!(rt; run.told.text() == b"pg_dump: error: could not write\n".as_slice());
    }
    Ok(())
}

/// A script that makes `a` twice.
const TWICE: &[u8] = b"CREATE SCHEMA a; CREATE SCHEMA a;";

/// Whether a run over standard input has applied that script.
fn is_applied(run: &Run) -> bool {
    run.status == 0
        && run.told.text() == b"psql: error: at 17: schema a already exists\n".as_slice()
        && EMPTY.into_iter().enumerate().all(|(number, (name, old))| may_hold(
            16,
            number,
            text(&run.files, name),
            old,
        ))
}

/// Whether the folder is as it was.
fn is_untouched(run: &Run) -> bool {
    EMPTY
        .into_iter()
        .all(|(name, old)| text(&run.files, name) == old)
}

/// How many bytes standard input has left.
fn left_of(alloc: Global, mut input: MemSource) -> usize {
    match read_all(alloc, &mut input, 1 << 20) {
        Ok(left) => left.len(),
        Err(_) => usize::MAX,
    }
}

#[test]
fn each_read_of_the_input_fails_in_turn(rt: HostRuntime) -> Result<(), Fail> {
    let alloc = rt.alloc();
    for number in 1..u64::MAX {
        let mut fail = Vec::new(alloc);
        fail.push(number)?;
        let run = apply_input(&rt, MemSource::new(TWICE.to_vec(alloc)?, 1, fail))?;
        if run.status == 0 {
            assert_eq!(rt; number, 35);
            assert!(rt; is_applied(&run));
            break;
        }
        assert!(rt; run.told.text() == b"psql: error: could not read\n".as_slice());
        assert!(rt; is_untouched(&run));
        let left = left_of(alloc, run.input) as u64;
        assert_eq!(rt; left.saturating_add(number), 34);
    }
    Ok(())
}

#[test]
fn the_input_comes_in_pieces(rt: HostRuntime) -> Result<(), Fail> {
    let alloc = rt.alloc();
    for step in [1, 2, 7, 33, 34, 1000] {
        let run = apply_input(
            &rt,
            MemSource::new(TWICE.to_vec(alloc)?, step, Vec::new(alloc)),
        )?;
        assert!(rt; is_applied(&run));
        assert_eq!(rt; left_of(alloc, run.input), 0);
    }
    Ok(())
}
