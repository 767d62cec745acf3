//! Test cases of both programs: words, standard input, and what each prints with which status; `stdin` beside `src/` has them.
#![tactic(auto)]

mod pyver_runs;
mod tool_streams;

use std::alloc::Global;
use std::io;
use testing::{Calls, CaseError, run_cases};

struct ProgramCalls;

impl Calls for ProgramCalls {
    fn answer(&self, alloc: Global, call: &str, arguments: &[String]) -> Result<String, CaseError> {
        match (call, arguments) {
            _ if call.starts_with("pyver") => pyver_runs::answer_call(alloc, call, arguments),
            _ => tool_streams::answer_call(alloc, call, arguments),
        }
    }
}

fn main(rt: HostRuntime) -> io::Result<()> {
    run_cases(rt, &ProgramCalls)
}
