//! The program: runs the cases of files, each a line of JSON, by `run` over files and outputs in memory, and tells which come out
//! otherwise than they should. Its words are the names of the files; README.md has the form of a case.
#![tactic(auto)]

mod cases;
mod contents;
mod runs;
mod troubles;

use crate::cases::difference_of;
use std::process::ExitCode;
use std::{env, fs, io};

/// How many cases there are, and how many differ from what they should come to.
#[derive(Clone, Copy)]
struct Counts {
    cases: u64,
    differ: u64,
}

fn main(rt: HostRuntime) -> ExitCode {
    match all(&rt) {
        Ok(0) => ExitCode::SUCCESS,
        Ok(_) => ExitCode::FAILURE,
        Err(_) => ExitCode::from(2),
    }
}

/// Runs the cases of all files that the words name, and answers how many differ.
fn all(rt: &HostRuntime) -> io::Result<u64> {
    let mut counts = Counts {
        cases: 0,
        differ: 0,
    };
    for name in env::args(rt)?.skip(1) {
        run_file(rt, &name, &mut counts)?;
    }
    let Counts { cases, differ } = counts;
    println!(rt; "{cases} cases, {differ} differ")?;
    Ok(differ)
}

/// Runs the cases of a file, and prints a line for each that differs or is no case.
fn run_file(rt: &HostRuntime, name: &str, counts: &mut Counts) -> io::Result<()> {
    let text = fs::read_to_string(rt, name)?;
    for (index, line) in text.lines().enumerate() {
        counts.cases = counts.cases.saturating_add(1);
        let outcome = difference_of(rt.alloc(), line);
        let told = match &outcome {
            Ok(None) => continue,
            Ok(Some(difference)) => difference.as_str(),
            Err(trouble) => trouble.text(),
        };
        counts.differ = counts.differ.saturating_add(1);
        let number = index.saturating_add(1);
        println!(rt; "{name}:{number}: {told}")?;
    }
    Ok(())
}
