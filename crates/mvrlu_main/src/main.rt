//! The program: it makes the real outside, does what the words of the command line ask for, and ends with the status.
//!
//! It is `run_program` of `mvrlu_run` over the system's files, standard output and standard error. A word that isn't
//! UTF-8 is out of form; want of memory for the words ends as any want of memory does.
#![tactic(auto)]

use host_io::{OpenGate, RealErr, RealFiles, RealOut, Sink};
use mvrlu_run::{Ran, run_program};
use std::io::ErrorKind;
use std::process::ExitCode;
use std::{env, io};

fn main(rt: HostRuntime) -> ExitCode {
    let mut err = RealErr::new(&rt);
    let words = match read_words(&rt) {
        Ok(words) => words,
        Err(error) if error.kind() == ErrorKind::OutOfMemory => {
            // A fault of standard error changes no status.
            let _ = err.write(b"out of memory\n");
            return ExitCode::from(7);
        }
        // A word that isn't text is out of form, as no words are.
        Err(_) => Vec::new(rt.alloc()),
    };
    let mut files = RealFiles::new(&rt);
    let mut out = RealOut::new(&rt);
    let Ran { status, closed: _ } = run_program(
        &rt,
        rt.alloc(),
        &words,
        &mut files,
        &mut out,
        &mut err,
        &OpenGate,
    );
    ExitCode::from(status)
}

// The words after the program's name.
fn read_words(rt: &HostRuntime) -> io::Result<Vec<String>> {
    let mut words = Vec::new(rt.alloc());
    for word in env::args(rt)?.skip(1) {
        words.push(word)?;
    }
    Ok(words)
}
