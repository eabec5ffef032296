//! The whole process, called with arguments of the tests' own.
use crate::answering::process;
use std::alloc::Allocator;
use std::env::{Env, FillError};
use std::fmt::Display;
use std::fs::{Metadata, OpenOptions};
use std::io::{ErrorKind, Print};
use std::process::ExitCode;
use std::rt::Files;
use std::test::Fail;
use std::thread::Threads;
use std::{fs, io};

/// A runtime that gives other arguments, and takes whatever is written.
#[derive(Drop)]
struct Called<R> {
    host: R,
    arguments: [&'static [u8]; 3],
}

impl<R: Threads> Threads for Called<R> {}

impl<R> Env for Called<R> {
    fn arg(&self, i: usize, buf: &mut [u8]) -> Result<usize, FillError> {
        match self.arguments.get(i) {
            Some(argument) if argument.len() <= buf.len() => {
                buf[..argument.len()].copy_from_slice(argument);
                Ok(argument.len())
            }
            Some(_) => Err(FillError::TooLong),
            None => Err(FillError::NotPresent),
        }
    }

    fn var(&self, _name: &str, _buf: &mut [u8]) -> Result<usize, FillError> {
        Err(FillError::NotPresent)
    }

    fn var_at(&self, _i: usize, _buf: &mut [u8]) -> Result<usize, FillError> {
        Err(FillError::NotPresent)
    }
}

impl<R> Print for Called<R> {
    fn print<D: Display + Drop>(&self, _value: D) -> io::Result<()> {
        Err(io::Error::from(ErrorKind::Unsupported))
    }

    fn println<D: Display + Drop>(&self, _value: D) -> io::Result<()> {
        Err(io::Error::from(ErrorKind::Unsupported))
    }

    fn write_all(&self, _bytes: &[u8]) -> io::Result<()> {
        Err(io::Error::from(ErrorKind::Unsupported))
    }

    fn write_some(&self, bytes: &[u8]) -> io::Result<usize> {
        Ok(bytes.len())
    }
}

/// Files of the host, which are opened alone.
impl<R: Files> Files for Called<R> {
    type File = R::File;

    type Dir = R::Dir;

    fn open_file(&self, how: &OpenOptions, path: &str) -> io::Result<R::File> {
        self.host.open_file(how, path)
    }

    fn open_dir(&self, _path: &str) -> io::Result<R::Dir> {
        Err(io::Error::from(ErrorKind::Unsupported))
    }

    fn metadata(&self, _path: &str) -> io::Result<Metadata> {
        Err(io::Error::from(ErrorKind::Unsupported))
    }

    fn symlink_metadata(&self, _path: &str) -> io::Result<Metadata> {
        Err(io::Error::from(ErrorKind::Unsupported))
    }

    fn copy(&self, _from: &str, _to: &str) -> io::Result<u64> {
        Err(io::Error::from(ErrorKind::Unsupported))
    }

    fn rename(&self, _from: &str, _to: &str) -> io::Result<()> {
        Err(io::Error::from(ErrorKind::Unsupported))
    }

    fn remove_file(&self, _path: &str) -> io::Result<()> {
        Err(io::Error::from(ErrorKind::Unsupported))
    }

    fn create_dir(&self, _path: &str) -> io::Result<()> {
        Err(io::Error::from(ErrorKind::Unsupported))
    }

    fn remove_dir(&self, _path: &str) -> io::Result<()> {
        Err(io::Error::from(ErrorKind::Unsupported))
    }

    fn remove_dir_all<B: Allocator>(&self, _alloc: B, _path: &str) -> io::Result<()> {
        Err(io::Error::from(ErrorKind::Unsupported))
    }
}

/// Two banks of one bit, between which both rails are high where the bit is 1.
const WRONG: &str = "module t(x1_0,x1_1,ki,rst,z1_0,z1_1,ko);
input x1_0,x1_1,ki,rst;
output z1_0,z1_1,ko;
TH22N r1_0(.A(x1_0),.B(c),.RST(rst),.Z(p1_0));
TH22N r1_1(.A(x1_1),.B(c),.RST(rst),.Z(p1_1));
TH12B k1(.A(p1_0),.B(p1_1),.Z(ko));
TH12 g(.A(p1_0),.B(p1_1),.Z(w));
TH22N s1_0(.A(w),.B(ki),.RST(rst),.Z(z1_0));
TH22N s1_1(.A(p1_1),.B(ki),.RST(rst),.Z(z1_1));
TH12B d1(.A(z1_0),.B(z1_1),.Z(c));
endmodule
";

#[test]
fn the_process_ends_with_the_status_of_its_answer(rt: HostRuntime) -> Result<(), Fail> {
    static CASES: [(&[u8], &[u8], u8); 6] = [
        (b"demo", b"1", 0),
        (b"check", b"wrong.v", 1),
        (b"check", b"absent", 4),
        (b"check", b"/dev/null", 3),
        (b"match", b"wrong.v", 2),
        // an argument that is no text
        (b"check", b"\xff", 2),
    ];
    fs::write(&rt, "wrong.v", WRONG)?;
    for &(command, file, status) in &CASES {
        let arguments = [b"nclc".as_slice(), command, file];
        let called = Called {
            host: &rt,
            arguments,
        };
        let ended = process(&(called, rt.alloc()));
        assert_eq!(rt; ended, ExitCode::from(status), "{command:?} {file:?}");
    }
    fs::remove_file(&rt, "wrong.v")?;
    Ok(())
}
