//! Real files, and printers that fail.
use ncl_base::{LoadFault, SinkFault, Source, deliver, load};
use ncl_system::{FileSource, StdoutSink};
use std::alloc::Global;
use std::fmt::Display;
use std::io::{ErrorKind, Print};
use std::rt::Files;
use std::sync::atomic::{AtomicU64, AtomicUsize, Ordering};
use std::test::Fail;
use std::{fs, io};

/// A printer of which a write takes at most so many bytes, or fails where there is no number. Counts its writes, and holds
/// the bytes that it took, the last one lowest.
#[derive(Drop)]
struct Narrow {
    most: Option<usize>,
    writes: AtomicUsize,
    taken: AtomicU64,
}

impl Print for Narrow {
    fn print<D: Display + Drop>(&self, _value: D) -> io::Result<()> {
        Err(io::Error::from(ErrorKind::Unsupported))
    }

    fn println<D: Display + Drop>(&self, _value: D) -> io::Result<()> {
        Err(io::Error::from(ErrorKind::Unsupported))
    }

    fn write_all(&self, _bytes: &[u8]) -> io::Result<()> {
        Err(io::Error::from(ErrorKind::Unsupported))
    }

    fn write_some(&self, bytes: &[u8]) -> io::Result<usize> {
        self.writes.fetch_add(1, Ordering::SeqCst);
        let Some(most) = self.most else {
            return Err(io::Error::from(ErrorKind::BrokenPipe));
        };
        let count = most.min(bytes.len());
        for byte in &bytes[..count] {
            let before = self.taken.load(Ordering::SeqCst);
            let after = (before << 8) | u64::from(*byte);
            self.taken.store(after, Ordering::SeqCst);
        }
        Ok(count)
    }
}

#[test]
fn a_printer_is_written_to_until_it_fails(rt: HostRuntime) {
    for (most, want, text, calls) in [
        (Some(9), Ok(()), 0x68_65_6c_6c_6f, 1),
        (Some(2), Ok(()), 0x68_65_6c_6c_6f, 3),
        (Some(0), Err(SinkFault::Write), 0, 1),
        (None, Err(SinkFault::Write), 0, 1),
    ] {
        let printer = Narrow {
            most,
            writes: AtomicUsize::new(0),
            taken: AtomicU64::new(0),
        };
        let told = deliver(&mut StdoutSink::new(&printer), b"hello");
        assert_eq!(rt; told, want, "{most:?} bytes at a time");
        let writes = printer.writes.load(Ordering::SeqCst);
        assert_eq!(rt; writes, calls, "{most:?} bytes at a time");
        let taken = printer.taken.load(Ordering::SeqCst);
        assert_eq!(rt; taken, text, "{most:?} bytes at a time");
    }
}

/// How many bytes a file has, as it is loaded.
fn length<R: Files>(
    alloc: Global,
    source: &mut FileSource<'_, R>,
    name: &str,
) -> Result<usize, LoadFault> {
    let bytes = load(alloc, source, name)?;
    Ok(bytes.len())
}

#[test]
fn what_can_not_be_read_is_told(rt: HostRuntime) {
    let cases: [(&str, Result<usize, LoadFault>); 7] = [
        ("/dev/null", Ok(0)),
        ("/dev/null ", Err(LoadFault::Read)),
        (" /dev/null", Err(LoadFault::Read)),
        ("/", Err(LoadFault::Read)),
        ("absent", Err(LoadFault::Read)),
        ("", Err(LoadFault::Read)),
        ("/dev/null", Ok(0)),
    ];
    let mut source = FileSource::new(&rt);
    for (name, want) in cases {
        let told = length(rt.alloc(), &mut source, name);
        assert_eq!(rt; told, want, "{name}");
    }
}

#[test]
fn a_file_is_read_once_it_is_begun(rt: HostRuntime) -> Result<(), Fail> {
    fs::write(&rt, "file", "bytes")?;
    let mut buffer = [0u8; 9];
    let mut source = FileSource::new(&rt);
    assert!(rt; source.begin("absent").is_err());
    source.begin("file")?;
    assert_eq!(rt; source.read(&mut buffer), Ok(5));
    assert_eq!(rt; source.read(&mut buffer), Ok(0));
    assert_eq!(rt; &buffer[..5], b"bytes".as_slice());
    fs::remove_file(&rt, "file")?;
    Ok(())
}
