use copy_text::*;
use std::alloc::Global;
use std::hash::{BuildHasher, BuildHasherDefault, FoldHasher};
use std::test::Fail;

/// Whether this is what a fault tells.
fn tells(alloc: Global, fault: CopyFault, message: &str) -> Result<bool, Fail> {
    let shown = format!(in alloc; "{}", ReadRowError::Fault(fault))?;
    Ok(shown.as_str() == message)
}

#[test]
fn faults_are_shown(rt: HostRuntime) -> Result<(), Fail> {
    let faults = [
        (CopyFault::RawReturn(1), "raw carriage return at byte 1"),
        (CopyFault::BadUtf8(0), "field at byte 0 is not UTF-8"),
        (
            CopyFault::EndsInBackslash(2),
            "backslash at byte 2 escapes nothing",
        ),
    ];
    for (fault, message) in &faults {
        assert!(rt; tells(rt.alloc(), *fault, message)?, "{message}");
    }
    Ok(())
}

/// A name that is one.
fn name(alloc: Global, bytes: &[u8]) -> Result<Name, Fail> {
    Ok(Name::new(bytes.to_vec(alloc)?).ok_or("no name")?)
}

/// A text that is one.
fn text(alloc: Global, bytes: &[u8]) -> Result<Text, Fail> {
    Ok(Text::new(bytes.to_vec(alloc)?).ok_or("no text")?)
}

#[test]
fn names_are_values(rt: HostRuntime) -> Result<(), Fail> {
    let a = name(rt.alloc(), b"a")?;
    let b = name(rt.alloc(), b"b")?;
    assert!(rt; a < b && a != b);
    let hasher = BuildHasherDefault::<FoldHasher>::default();
    assert_eq!(rt; hasher.hash_one(&a), hasher.hash_one(&a.clone()?));
    Ok(())
}

#[test]
fn texts_are_values(rt: HostRuntime) -> Result<(), Fail> {
    let x = text(rt.alloc(), b"x")?;
    let y = text(rt.alloc(), b"y")?;
    assert!(rt; x < y && x != y);
    let hasher = BuildHasherDefault::<FoldHasher>::default();
    assert_eq!(rt; hasher.hash_one(&x), hasher.hash_one(&x.clone()?));
    Ok(())
}

#[test]
fn rows_are_values(rt: HostRuntime) -> Result<(), Fail> {
    let mut row = Row::new(rt.alloc());
    row.push(Some(text(rt.alloc(), b"x")?))?;
    let copy = row.clone()?;
    assert!(rt; copy == row);
    assert_eq!(rt; copy.into_fields().len(), 1);
    Ok(())
}
