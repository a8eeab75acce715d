use dump_ports::*;
use std::alloc::Global;
use std::test::Fail;

/// Puts a text in place of the third byte and those behind it, where the file has them.
fn patch_third(files: &mut MemFiles, bytes: &[u8]) -> bool {
    match files.text("a") {
        Some(text) if bytes.len() <= text.len() && 2 <= text.len() - bytes.len() => {}
        _ => return false,
    }
    files.patch("a", 2, bytes).is_ok()
}

/// Makes, adds, adds, patches, asks the size and reads: which calls succeeded.
fn six_calls(files: &mut MemFiles, buffer: &mut [u8; 3]) -> [bool; 6] {
    [
        files.make("a").is_ok(),
        files.append("a", b"abcd").is_ok(),
        files.append("a", b"efg").is_ok(),
        patch_third(files, b"XYZ"),
        files.size("a") == Ok(Some(5)),
        files.read_at("a", 1, buffer) == Ok(3),
    ]
}

#[test]
fn files_fail_at_the_calls_that_are_named(rt: HostRuntime) -> Result<(), Fail> {
    let mut files = MemFiles::new(rt.alloc(), Vec::from_slice(rt.alloc(), &[3, 7])?);
    files.put("a", b"old")?;
    let mut buffer = *b"...";
    assert_eq!(rt;
        six_calls(&mut files, &mut buffer),
        [true, true, false, true, true, true]
    );
    assert!(rt; &buffer == b"bXY");
    assert!(rt; files.text("a") == Some(b"abXYZ".as_slice()) && files.starved() == 0);
    Ok(())
}

#[test]
fn sources_fail_at_the_calls_that_are_named(rt: HostRuntime) -> Result<(), Fail> {
    let bytes = Vec::from_slice(rt.alloc(), b"abcd")?;
    let mut source = MemSource::new(bytes, 3, Vec::from_slice(rt.alloc(), &[2])?);
    let mut buffer = [0; 4];
    for answer in [Ok(3), Err(Failed), Ok(1), Ok(0)] {
        assert_eq!(rt; source.read(&mut buffer), answer);
    }
    assert!(rt; &buffer[..3] == b"dbc".as_slice());
    Ok(())
}

#[test]
fn sinks_fail_at_the_calls_that_are_named(rt: HostRuntime) -> Result<(), Fail> {
    let mut sink = MemSink::new(rt.alloc(), Vec::from_slice(rt.alloc(), &[2])?);
    for answer in [Ok(()), Err(Failed), Ok(())] {
        assert_eq!(rt; write_all(&mut sink, b"ab"), answer);
    }
    assert!(rt; sink.text() == b"abab".as_slice() && sink.starved() == 0);
    Ok(())
}

/// Whether a text of 70,000 bytes is read whole within a limit, where this call fails; or its fault.
fn reads_whole(alloc: Global, call: u64, limit: u64) -> Result<Option<WholeFault>, Fail> {
    let mut files = MemFiles::new(alloc, Vec::from_slice(alloc, &[call])?);
    files.put("a", &[7; 70_000])?;
    Ok(read_whole(alloc, &mut files, "a", limit).err())
}

/// The same of a source.
fn reads_all(alloc: Global, call: u64, limit: u64) -> Result<Option<WholeFault>, Fail> {
    let fail = Vec::from_slice(alloc, &[call])?;
    let mut source = MemSource::new(vec![in alloc; 7u8; 70_000]?, 70_000, fail);
    Ok(read_all(alloc, &mut source, limit).err())
}

const TOO_LARGE: Option<WholeFault> = Some(WholeFault::TooLarge(70_000));

#[test]
fn each_read_of_a_whole_file_fails_in_turn(rt: HostRuntime) -> Result<(), Fail> {
    // The size, two pieces and the end.
    for call in 1..=5 {
        let due = (call < 5).then_some(WholeFault::Failed);
        assert!(rt; reads_whole(rt.alloc(), call, 70_000)? == due, "{call}");
    }
    assert!(rt; reads_whole(rt.alloc(), 0, 69_999)? == TOO_LARGE);
    Ok(())
}

#[test]
fn each_read_of_a_whole_source_fails_in_turn(rt: HostRuntime) -> Result<(), Fail> {
    // Two pieces and the end.
    for call in 1..=4 {
        let due = (call < 4).then_some(WholeFault::Failed);
        assert!(rt; reads_all(rt.alloc(), call, 70_000)? == due, "{call}");
    }
    assert!(rt; reads_all(rt.alloc(), 0, 69_999)? == TOO_LARGE);
    Ok(())
}
