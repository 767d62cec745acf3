//! The program `pyver`: its arguments, files, standard input, standard output and standard error.
#![tactic(auto)]

mod system_files;

use pyver_tool::{refuse, run};
use std::env;
use std::io::{self, ErrorKind, Write};
use std::process::ExitCode;
use system_files::SystemFiles;

// The arguments after the program's own name.
fn words(rt: &HostRuntime) -> io::Result<Vec<String>> {
    let mut words = Vec::new(rt.alloc());
    for word in env::args(rt)?.skip(1) {
        words.push(word)?;
    }
    Ok(words)
}

// The standard library does not return which one.
const NOT_UTF8: &str = "pyver: an argument is not UTF-8\n";

fn main(rt: HostRuntime) -> ExitCode {
    let words = match words(&rt) {
        Ok(words) => words,
        Err(error) => {
            if error.kind() == ErrorKind::OutOfMemory {
                return ExitCode::from(refuse(&mut rt.stderr()));
            }
            let _ = rt.stderr().write(NOT_UTF8.as_bytes());
            return ExitCode::from(2);
        }
    };
    let status = run(
        rt.alloc(),
        words.as_slice(),
        &mut SystemFiles::new(&rt),
        &mut rt.stdin(),
        &mut rt.stdout(),
        &mut rt.stderr(),
    );
    ExitCode::from(status)
}
