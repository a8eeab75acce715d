//! What a run writes is put in place at its end, or not at all.
use super::reads;
use cut_files::{Calls, Cut, CutFiles};
use dump_ports::{Failed, Files};
use os_ports::{Hold, Holdable, OsFiles};
use std::alloc::Global;
use std::fs::{File, Permissions};
use std::os::unix::fs::{MetadataExt, PermissionsExt, symlink};
use std::test::Fail;
use std::{fs, io, rt, thread};

/// Whether a file holds this text, or is absent.
fn holds(rt: &HostRuntime, name: &str, text: Option<&[u8]>) -> bool {
    match (fs::read(rt, name), text) {
        (Ok(found), Some(text)) => found.as_slice() == text,
        (Err(_), None) => true,
        _ => false,
    }
}

const NEW: &str = "os_ports_cut/a/one";

const OLD: &str = "os_ports_cut/two";

const LONGER: &str = "os_ports_cut/three";

const PATCHED: &str = "os_ports_cut/last";

/// What a run writes: its files, with what they held and what they are to hold.
const WRITTEN: [(&str, Option<&[u8]>, &[u8]); 4] = [
    (NEW, None, b"new one"),
    (OLD, Some(b"old two"), b"new two"),
    (LONGER, Some(b"old"), b"old three"),
    (PATCHED, Some(b"old last"), b"new last"),
];

/// Makes the folder in which a run begins.
fn begin(rt: &HostRuntime) -> io::Result<()> {
    let _ = fs::remove_dir_all(rt, "os_ports_cut");
    fs::create_dir(rt, "os_ports_cut")?;
    for (name, old, _) in &WRITTEN {
        if let Some(old) = old {
            fs::write(rt, name, *old)?;
        }
    }
    Ok(())
}

/// Makes a file of this text.
fn write_anew<F: Files>(files: &mut F, name: &str, text: &[u8]) -> Result<(), Failed> {
    files.make(name)?;
    files.append(name, text)
}

/// A run: one file is new, one is written anew, one is added to, one is written and patched.
fn write_files<R: rt::Files>(files: &mut OsFiles<R>) -> Result<(), Failed> {
    write_anew(files, NEW, b"new one")?;
    write_anew(files, OLD, b"new two")?;
    files.append(LONGER, b" three")?;
    write_anew(files, PATCHED, b"old last")?;
    files.patch(PATCHED, 0, b"new")
}

/// Ends a run: what it wrote is put in place, or let go.
fn end<R: rt::Files>(files: &mut OsFiles<R>, answer: Result<(), Failed>) -> Result<(), Failed> {
    if answer.is_err() {
        files.discard();
        return answer;
    }
    files.commit()
}

/// A run over the files of a system, from holding its folder to its end.
fn run<R: rt::Files>(files: &mut OsFiles<R>) -> Result<(), Failed>
where
    R::File: Holdable,
{
    files.hold("os_ports_cut", Hold::Alone)?;
    let answer = write_files(files);
    end(files, answer)
}

/// How many files hold what was written, where they are the first ones and the others are as they were.
fn first_ones(rt: &HostRuntime) -> Option<usize> {
    let mut written = 0;
    for (number, (name, old, new)) in WRITTEN.iter().enumerate() {
        if holds(rt, name, Some(new)) && written == number {
            written += 1;
        } else if !holds(rt, name, *old) {
            return None;
        }
    }
    Some(written)
}

/// Whether a file stands in the folder that isn't in place.
fn has_staged(rt: &HostRuntime) -> io::Result<bool> {
    for number in 0..8 {
        for folder in ["os_ports_cut", "os_ports_cut/a"] {
            let path = format!(in rt.alloc(); "{folder}/.pgtools-{number}")?;
            if fs::exists(rt, path.as_str())? {
                return Ok(true);
            }
        }
    }
    Ok(false)
}

/// What is wrong with what a run left that was done or not, if anything is.
fn left_fault(rt: &HostRuntime, is_done: bool, cut: Cut) -> io::Result<Option<&'static str>> {
    let Some(written) = first_ones(rt) else {
        return Ok(Some("neither old nor new"));
    };
    if is_done && written < WRITTEN.len() {
        return Ok(Some("not written"));
    }
    if cut == Cut::All || (written > 0 && written < WRITTEN.len()) {
        return Ok(None);
    }
    if has_staged(rt)? {
        return Ok(Some("not removed"));
    }
    let is_left = written == 0 && fs::exists(rt, "os_ports_cut/a")?;
    Ok(is_left.then_some("a folder is left"))
}

/// Fails where something is wrong.
fn told(fault: Option<&str>, left: u64, cut: Cut) -> Result<(), Fail> {
    match fault {
        Some(what) => Err(Fail::new(format_args!("{what}: {cut:?} behind {left}"))),
        None => Ok(()),
    }
}

/// Whether a run over the files of a system was done.
fn is_run<R: rt::Files + Drop>(alloc: Global, system: R) -> bool
where
    R::File: Holdable,
{
    run(&mut OsFiles::new(alloc, system)).is_ok()
}

/// A run of which a call fails behind the first so many. The answer says whether there was one.
fn is_cut(rt: &HostRuntime, left: u64, cut: Cut) -> Result<bool, Fail> {
    begin(rt)?;
    let calls = Calls::new(left, cut);
    let is_done = is_run(rt.alloc(), CutFiles { rt, calls: &calls });
    told(left_fault(rt, is_done, cut)?, left, cut)?;
    Ok(calls.has_failed())
}

/// A run of which no call fails, and how many files held what was written once it held the folder.
fn first_found(rt: &HostRuntime, files: &mut OsFiles<&HostRuntime>) -> Option<usize> {
    let is_held = files.hold("os_ports_cut", Hold::Alone).is_ok();
    let found = first_ones(rt);
    if is_held && run(files).is_ok() {
        found
    } else {
        None
    }
}

/// Whether each file holds what is written. One that is added to has it once or twice.
fn is_written(rt: &HostRuntime) -> bool {
    for (number, (name, _, new)) in WRITTEN.iter().enumerate() {
        let twice = number == 2 && holds(rt, name, Some(b"old three three"));
        if !twice && !holds(rt, name, Some(new)) {
            return false;
        }
    }
    true
}

/// What is wrong with a run in the same folder of which no call fails, if anything is. As soon as it holds the folder that
/// is the old or the new one.
fn repair_fault(rt: &HostRuntime) -> io::Result<Option<&'static str>> {
    let found = first_found(rt, &mut OsFiles::new(rt.alloc(), rt));
    if found != Some(0) && found != Some(WRITTEN.len()) {
        return Ok(Some("neither the old nor the new one"));
    }
    if fs::exists(rt, "os_ports_cut/.pgtools-list")? || has_staged(rt)? {
        return Ok(Some("still there"));
    }
    Ok((!is_written(rt)).then_some("not repaired"))
}

/// How many cuts there are, each followed by a run that isn't cut.
fn cuts_of(rt: &HostRuntime, cut: Cut) -> Result<u64, Fail> {
    for left in 0..1000 {
        if !is_cut(rt, left, cut)? {
            return Ok(left);
        }
        told(repair_fault(rt)?, left, cut)?;
    }
    Ok(1000)
}

#[test]
fn a_run_is_cut_at_each_call(rt: HostRuntime) -> Result<(), Fail> {
    for cut in [Cut::All, Cut::One] {
        let cuts = cuts_of(&rt, cut)?;
        assert!(rt; cuts > 30 && cuts < 1000, "{cut:?} {cuts}");
    }
    fs::remove_dir_all(&rt, "os_ports_cut")?;
    Ok(())
}

const FILE: &str = "os_ports_staged/file";

const LINK: &str = "os_ports_staged/link";

/// Whether what is written through a link is read there, and the file that it leads to is as it was until the end of the
/// run, which commits or doesn't.
fn is_staged(rt: &HostRuntime, files: &mut OsFiles<&HostRuntime>, commits: bool) -> bool {
    let is_written = files.make(LINK).is_ok()
        && files.append(LINK, b"new").is_ok()
        && files.make("os_ports_staged/a/b/c").is_ok();
    let is_read = reads(files, LINK, 0, b"new") && files.size(LINK) == Ok(Some(3));
    let is_kept = holds(rt, FILE, Some(b"old"));
    let is_ended = if commits {
        files.commit().is_ok()
    } else {
        files.discard();
        true
    };
    is_written && is_read && is_kept && is_ended
}

#[test]
fn what_is_written_stands_after_commit(rt: HostRuntime) -> Result<(), Fail> {
    let _ = fs::remove_dir_all(&rt, "os_ports_staged");
    fs::create_dir(&rt, "os_ports_staged")?;
    fs::write(&rt, FILE, "old")?;
    fs::set_permissions(&rt, FILE, Permissions::from_mode(0o640))?;
    symlink(&rt, "file", LINK)?;
    for commits in [false, true] {
        assert!(rt; is_staged(&rt, &mut OsFiles::new(rt.alloc(), &rt), commits));
        assert_eq!(rt; fs::exists(&rt, "os_ports_staged/a")?, commits);
    }
    assert!(rt; holds(&rt, FILE, Some(b"new")));
    assert!(rt; fs::symlink_metadata(&rt, LINK)?.is_symlink());
    assert_eq!(rt; fs::metadata(&rt, FILE)?.mode() & 0o777, 0o640);
    fs::remove_dir_all(&rt, "os_ports_staged")?;
    Ok(())
}

/// Whether a full device takes no text.
fn is_full<F: Files>(files: &mut F) -> bool {
    files.make("/dev/full").is_ok() && files.append("/dev/full", b"a").is_err()
}

#[test]
fn a_device_is_written_as_it_is(rt: HostRuntime) -> Result<(), Fail> {
    let mut files = OsFiles::new(rt.alloc(), &rt);
    assert!(rt; is_full(&mut files) && files.commit().is_ok());
    let fault = files.take_fault().ok_or("no fault is told")?;
    drop(files);
    let line = format!(in rt.alloc(); "{fault}")?;
    assert!(rt; line.as_str().starts_with("/dev/full: "), "{line}");
    assert!(rt; !fs::metadata(&rt, "/dev/full")?.is_file());
    Ok(())
}

const PAIR: &str = "os_ports_pair";

/// Whether one holds a folder twice.
fn is_held(one: &mut OsFiles<&HostRuntime>, first: Hold) -> bool {
    one.hold(PAIR, first).is_ok() && one.hold("./os_ports_pair/", first).is_ok()
}

/// Whether another may hold a folder beside one that holds it, who holds it again and lets it go; and then holds it.
fn is_shared(rt: &HostRuntime, first: Hold, second: Hold) -> Option<bool> {
    let mut one = OsFiles::new(rt.alloc(), rt);
    let mut other = OsFiles::new(rt.alloc(), rt);
    let is_first = is_held(&mut one, first);
    let is_beside = other.hold(PAIR, second).is_ok();
    drop(one);
    let is_last = other.hold(PAIR, second).is_ok();
    drop(other);
    (is_first && is_last).then_some(is_beside)
}

#[test]
fn a_folder_is_held(rt: HostRuntime) {
    let _ = fs::create_dir(&rt, PAIR);
    let pairs = [
        (Hold::Shared, Hold::Shared, true),
        (Hold::Shared, Hold::Alone, false),
        (Hold::Alone, Hold::Shared, false),
        (Hold::Alone, Hold::Alone, false),
    ];
    for (first, second, is_beside) in &pairs {
        let shared = is_shared(&rt, *first, *second);
        assert!(rt; shared == Some(*is_beside), "{first:?} {second:?}");
    }
    let mut files = OsFiles::new(rt.alloc(), &rt);
    assert!(rt; files.hold("os_ports_pair/absent", Hold::Alone).is_ok());
}

/// Adds a byte to a file, in a folder that is held.
fn add_to<R: rt::Files<File = File>>(files: &mut OsFiles<R>) -> bool {
    files.hold("os_ports_count", Hold::Alone).is_ok()
        && files.append("os_ports_count/bytes", b"a").is_ok()
        && files.commit().is_ok()
}

/// A run that adds a byte to a file. The answer says whether it was done.
fn add_byte<R: rt::Files<File = File>>(alloc: Global, rt: &R) -> bool {
    add_to(&mut OsFiles::new(alloc, rt))
}

/// How many of a hundred such runs were done.
fn add_bytes<R: rt::Files<File = File>>(alloc: Global, rt: &R) -> u64 {
    let mut done = 0u64;
    for _ in 0..100 {
        if add_byte(alloc, rt) {
            done = done.saturating_add(1);
        }
    }
    done
}

#[test]
fn no_run_of_two_is_lost(rt: HostRuntime) -> Result<(), Fail> {
    let _ = fs::create_dir(&rt, "os_ports_count");
    fs::write(&rt, "os_ports_count/bytes", "")?;
    let alloc = rt.alloc();
    let (one, other) = thread::join(&rt, || add_bytes(alloc, &rt), || add_bytes(alloc, &rt));
    let bytes = fs::metadata(&rt, "os_ports_count/bytes")?.len();
    assert_eq!(rt; bytes, one.saturating_add(other));
    assert!(rt; bytes > 0);
    fs::remove_dir_all(&rt, "os_ports_count")?;
    Ok(())
}
