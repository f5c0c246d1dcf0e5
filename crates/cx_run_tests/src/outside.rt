//! The system's files and devices, and devices that fail.

use cx_outside::{Failed, FileAnswer, Files, RealFiles, RealSink, Sink, write_all};
use std::fmt::Display;
use std::io::{Error, ErrorKind};
use std::test::Fail;
use std::{fs, io};

/// A file of more than one chunk that the test writes.
#[test]
fn reads_the_system(rt: HostRuntime) -> Result<(), Fail> {
    let alloc = rt.alloc();
    let written = vec![in alloc; 7u8; 70_000]?;
    fs::write(&rt, "seventy_thousand", written.as_slice())?;
    let mut files = RealFiles::new(&rt);
    let read = files.read_file(alloc, b"seventy_thousand", 70_000);
    assert_eq!(rt; read, Ok(written));
    let long = files.read_file(alloc, b"seventy_thousand", 69_999);
    assert_eq!(rt; long.err(), Some(FileAnswer::TooLong(70_000)));
    fs::remove_file(&rt, "seventy_thousand")?;
    Ok(())
}

#[test]
fn fails_on_no_file(rt: HostRuntime) {
    let mut files = RealFiles::new(&rt);
    for name in [b"absent".as_slice(), b"\xff", b"", b"."] {
        let failed = files.read_file(rt.alloc(), name, usize::MAX);
        assert_eq!(rt; failed.err(), Some(FileAnswer::Failed), "{name:?}");
    }
}

/// A device that takes nothing, or fails.
#[derive(Drop)]
struct Shut(bool);

impl Print for Shut {
    fn print<D: Display + Drop>(&self, _value: D) -> io::Result<()> {
        Err(Error::from(ErrorKind::Other))
    }

    fn println<D: Display + Drop>(&self, _value: D) -> io::Result<()> {
        Err(Error::from(ErrorKind::Other))
    }

    fn write_all(&self, _bytes: &[u8]) -> io::Result<()> {
        Err(Error::from(ErrorKind::Other))
    }

    fn write_some(&self, _bytes: &[u8]) -> io::Result<usize> {
        if self.0 {
            Err(Error::from(ErrorKind::Other))
        } else {
            Ok(0)
        }
    }
}

#[test]
fn writes_to_the_system(rt: HostRuntime) {
    assert_eq!(rt;
        write_all(&mut RealSink::new(rt.stdout()), b"to standard output\n"),
        Ok(())
    );
    assert_eq!(rt;
        write_all(&mut RealSink::new(rt.stderr()), b"to standard error\n"),
        Ok(())
    );
    for fails in [false, true] {
        assert_eq!(rt;
            RealSink::new(Shut(fails)).write(b"x"),
            Err(Failed),
            "{fails}"
        );
    }
}
