use copy_text::Text;
use dump_ports::MemFiles;
use folder_io::*;
use std::alloc::Global;
use std::test::Fail;

/// The export of an empty cluster, in the order in which a folder is read.
const EMPTY: [(&str, &[u8]); 16] = [
    ("D/format", b"1\n"),
    (
        "D/pg_authid.copy",
        b"10\tpostgres\tt\tt\tt\tt\tt\tt\tt\t-1\t\\N\t\\N\n",
    ),
    ("D/pg_auth_members.copy", b""),
    ("D/pg_database.copy", b"5\tpostgres\t10\tUTF8\tt\n"),
    ("D/pg_namespace.copy", b"2200\tpublic\t10\t\\N\n"),
    ("D/pg_type.copy", b""),
    ("D/pg_enum.copy", b""),
    ("D/pg_class.copy", b""),
    ("D/pg_attribute.copy", b""),
    ("D/pg_attrdef.copy", b""),
    ("D/pg_constraint.copy", b""),
    ("D/pg_index.copy", b""),
    ("D/pg_sequence.copy", b""),
    ("D/pg_rewrite.copy", b""),
    ("D/pg_description.copy", b""),
    ("D/pg_depend.copy", b""),
];

/// The folder without one of its files, and failing this call.
fn folder_without(alloc: Global, call: u64, absent: &str) -> Result<MemFiles, Fail> {
    let mut files = MemFiles::new(alloc, Vec::from_slice(alloc, &[call])?);
    for (name, text) in &EMPTY {
        if *name != absent {
            files.put(name, text)?;
        }
    }
    Ok(files)
}

/// Whether a folder that was read has rows beyond those of an empty cluster.
fn is_beyond(read: ReadCatalogue) -> bool {
    has_rows_beyond(&read.cat)
}

/// Whether the folder is read, and has rows beyond those of an empty cluster.
fn has_more(alloc: Global, files: &mut MemFiles, folder: &Text) -> Option<bool> {
    match read_catalogue(alloc, files, folder) {
        Ok(read) => Some(is_beyond(read)),
        Err(_) => None,
    }
}

/// Why the folder can't be read, if it can't.
fn fault_of(alloc: Global, files: &mut MemFiles, folder: &Text) -> Option<FolderFault> {
    read_catalogue(alloc, files, folder).err()
}

/// Whether this fault ends in these words as it is told.
fn tells(alloc: Global, fault: &FolderFault, words: &str) -> Result<bool, Fail> {
    let told = format!(in alloc; "{fault}")?;
    Ok(told.as_str().ends_with(words))
}

/// Whether the folder can't be read, and the fault ends in these words.
fn fails(alloc: Global, files: &mut MemFiles, words: &str) -> Result<bool, Fail> {
    let folder = Text::new(b"D".to_vec(alloc)?).ok_or("no text")?;
    match &fault_of(alloc, files, &folder) {
        Some(fault) => tells(alloc, fault, words),
        None => Ok(false),
    }
}

#[test]
fn a_folder_is_read(rt: HostRuntime) -> Result<(), Fail> {
    let alloc = rt.alloc();
    let folder = Text::new(b"D".to_vec(alloc)?).ok_or("no text")?;
    let mut files = folder_without(alloc, 0, "")?;
    assert!(rt; has_more(alloc, &mut files, &folder) == Some(false));
    files.put("D/pg_enum.copy", b"8\t9\t1\tred\n")?;
    assert!(rt; has_more(alloc, &mut files, &folder) == Some(true));
    Ok(())
}

#[test]
fn each_file_must_be_there(rt: HostRuntime) -> Result<(), Fail> {
    for (name, _) in &EMPTY {
        let mut files = folder_without(rt.alloc(), 0, name)?;
        assert!(rt; fails(rt.alloc(), &mut files, name)?, "without {name}");
    }
    Ok(())
}

#[test]
fn each_read_fails_in_turn(rt: HostRuntime) -> Result<(), Fail> {
    // Each file's size, a read of each that isn't empty, and one at the end of each.
    for call in 1..=37 {
        let mut files = folder_without(rt.alloc(), call, "")?;
        let has_failed = fails(rt.alloc(), &mut files, "could not read")?;
        assert_eq!(rt; has_failed, call < 37, "{call}");
    }
    Ok(())
}
