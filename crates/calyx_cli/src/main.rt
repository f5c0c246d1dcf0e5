//! The program: makes the words of its arguments, the files of the system and its two outputs, and calls `run`.
#![tactic(auto)]

use cx_driver::{Status, run};
use cx_outside::{RealFiles, RealSink, Word};
use std::env;
use std::io::{self, ErrorKind};
use std::process::ExitCode;

/// The status where the runtime refuses the arguments for another cause than memory. It is none of `run`.
const NO_ARGUMENTS: u8 = 8;

fn main(rt: HostRuntime) -> ExitCode {
    match words(&rt) {
        Ok(words) => {
            let mut files = RealFiles::new(&rt);
            let mut out = RealSink::new(rt.stdout());
            let mut err = RealSink::new(rt.stderr());
            ExitCode::from(run(rt.alloc(), &words, &mut files, &mut out, &mut err) as u8)
        }
        Err(error) if error.kind() == ErrorKind::OutOfMemory => ExitCode::from(
            Status::Memory as u8,
        ),
        Err(_) => ExitCode::from(NO_ARGUMENTS),
    }
}

/// The words after the program's name.
fn words(rt: &HostRuntime) -> io::Result<Vec<Word>> {
    let mut words = Vec::new(rt.alloc());
    for argument in env::args(rt)?.skip(1) {
        let Ok(word) = Word::from_bytes(rt.alloc(), argument.as_bytes()) else {
            return Err(ErrorKind::OutOfMemory.into());
        };
        words.push(word)?;
    }
    Ok(words)
}
