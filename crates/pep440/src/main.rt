//! The program `pep440`: its arguments, standard input and standard output.
#![tactic(auto)]

use pep440_tool::{refuse, run};
use std::env;
use std::io::{self, ErrorKind};
use std::process::ExitCode;

// The arguments after the program's own name.
fn collect_words(rt: &HostRuntime) -> io::Result<Vec<String>> {
    let mut words = Vec::new(rt.alloc());
    for word in env::args(rt)?.skip(1) {
        words.push(word)?;
    }
    Ok(words)
}

// Arguments that are no UTF-8 are no command.
fn main(rt: HostRuntime) -> ExitCode {
    let words = match collect_words(&rt) {
        Ok(words) => words,
        Err(error) => {
            if error.kind() == ErrorKind::OutOfMemory {
                return ExitCode::from(refuse(&mut rt.stdout()));
            }
            Vec::new(rt.alloc())
        }
    };
    let status = run(
        rt.alloc(),
        words.as_slice(),
        &mut rt.stdin(),
        &mut rt.stdout(),
    );
    ExitCode::from(status)
}
