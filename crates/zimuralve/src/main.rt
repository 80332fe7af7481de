// The program: reads terms.txt and day.txt in the current folder, plays the day, and prints its report or the first fault of the texts.
#![tactic(auto)]

use answering::{print_answer, read_start};
use anyhow::Context;
use std::io::ErrorKind;
use std::process::ExitCode;
use std::{fs, io};
use texts::Texts;

// The first bytes of a file; a missing file is read as empty.
fn read_file(rt: &HostRuntime, path: &str) -> io::Result<Vec<u8>> {
    match fs::open(rt, path) {
        Ok(file) => read_start(rt.alloc(), file),
        Err(error) if error.kind() == ErrorKind::NotFound => Ok(Vec::new(rt.alloc())),
        Err(error) => Err(error),
    }
}

fn run(rt: &HostRuntime) -> anyhow::Result<()> {
    let terms = read_file(rt, "terms.txt").context("terms.txt")?;
    let day = read_file(rt, "day.txt").context("day.txt")?;
    let texts = Texts {
        terms: terms.as_slice(),
        day: day.as_slice(),
    };
    print_answer(rt.alloc(), texts, &mut rt.stdout())?;
    Ok(())
}

// A failure goes to standard error, and ends the program with status 1.
fn main(rt: HostRuntime) -> ExitCode {
    match run(&rt) {
        Ok(()) => ExitCode::SUCCESS,
        Err(error) => {
            let _ = eprintln!(rt; "zimuralve: {error:#}");
            ExitCode::FAILURE
        }
    }
}
