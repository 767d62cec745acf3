//! What the program writes, and its status.
ghost use Rattle.std.specs.Prelude.{◌≡◌, IfOk, IfSome, false, string_bytes};
ghost use Rattle.pep440_tool.specs.Answers.{shown, usage_answer};
ghost use Rattle.pep440_tool.specs.CommandErrors.{ends_lines, error_answer, error_text_of, lacks_memory};
ghost use Rattle.pep440_tool.specs.AnswerValues.{answer_value};

use crate::error::CommandError;
use std::alloc::{AllocError, Global};

/// What the program writes, and the status that it ends with.
#[derive(Drop)]
pub struct Answer {
    pub output: Vec<u8>,
    pub status: u8,
}

const USAGE: &str =
    "usage: pep440 show V / compare A B / match SPECS V / edit V CHANGE.. / range SPECS / filter SPECS / pick NAME V..\n";

impl Answer {
    // The string as a line, with status 0.
    pub(crate) fn from_line(alloc: Global, text: &str) -> Result<Answer, AllocError>
        ensures { IfOk result (λ a. answer_value a ≡ shown text.now) }
    {
        let mut output = Vec::from_slice(alloc, text.as_bytes())?;
        output.push(b'\n')?;
        Ok(Answer { output, status: 0 })
    }

    // The string, which is made of whole lines, with status 0.
    pub(crate) fn from_lines(text: String) -> Answer
        ensures { answer_value result ≡ record { output = string_bytes text; status = 0 } }
    {
        Answer {
            output: text.into_bytes(),
            status: 0,
        }
    }

    // The error's message as a line, with status 1.
    pub(crate) fn from_error(alloc: Global, error: &CommandError) -> Result<Answer, AllocError>
        ensures memory { IfOk result (λ _. lacks_memory error.now ≡ false) }
        ensures status { IfOk result (λ a. a.status ≡ 1) }
        ensures printed { IfOk result (λ a. IfSome (error_text_of error.now)
            (λ text. answer_value a ≡ error_answer (ends_lines error.now) text)) }
    {
        if error.is_out_of_memory() {
            return Err(AllocError);
        }
        let mut output = format!(in alloc; "error: {error}")?.into_bytes();
        if !error.ends_lines() {
            output.push(b'\n')?;
        }
        Ok(Answer { output, status: 1 })
    }

    // The usage line, with status 2.
    pub(crate) fn usage(alloc: Global) -> Result<Answer, AllocError>
        ensures { IfOk result (λ a. answer_value a ≡ usage_answer) }
    {
        Ok(Answer {
            output: Vec::from_slice(alloc, USAGE.as_bytes())?,
            status: 2,
        })
    }
}
