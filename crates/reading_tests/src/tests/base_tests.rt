//! That files are asked for in small pieces.
use ncl_base::*;
use std::alloc::Global;
use std::test::Fail;

/// A file of 8,192 bytes.
fn long_file(alloc: Global) -> Result<MemFile, Memory> {
    Ok(MemFile {
        name: Name::from_bytes(alloc, b"long")?,
        bytes: Items::from_vec(vec![in alloc; 7; 8192]?),
    })
}

/// Whether the file is loaded from a source that would give all of it at once, where the call of this number fails.
fn is_loaded(alloc: Global, failing: u64) -> Result<bool, Memory> {
    let files = vec![in alloc; long_file(alloc)?]?;
    let mut source = MemSource::new(files, 9000, vec![in alloc; failing]?);
    Ok(load(alloc, &mut source, "long").is_ok())
}

/// One call begins the file, two read 4,096 bytes each, and one more finds the end.
#[test]
fn loads_at_most_4096_bytes_at_a_time(rt: HostRuntime) -> Result<(), Fail> {
    assert!(rt; !is_loaded(rt.alloc(), 4)?);
    assert!(rt; is_loaded(rt.alloc(), 5)?);
    Ok(())
}
