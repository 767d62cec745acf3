//! Why a file is not opened, and messages of files.
ghost use Rattle.std.specs.Prelude.{◌≡◌, ◌++◌, IfOk};
ghost use Rattle.pyver_commands.specs.AnswerViews.{outcome_of};
ghost use Rattle.pyver_commands.specs.Outcomes.{file_message};
ghost use Rattle.pyver_commands.specs.Sources.{failure_reason};
ghost use Rattle.pyver_commands.specs.Sources.VersionLines.{unopened_outcome};

use crate::answer::Answer;
use cli_io::push_escaped;
use std::alloc::{AllocError, Global};

/// Why a file could not be opened.
#[derive(Clone, Copy)]
pub enum OpenFailure {
    NotFound,
    PermissionDenied,
    IsDirectory,
    OutOfMemory,
    Other,
}

impl OpenFailure {
    /// The reason in words.
    pub fn reason(self) -> &'static str
        ensures { result.now ≡ failure_reason self }
    {
        match self {
            OpenFailure::NotFound => "no such file",
            OpenFailure::PermissionDenied => "permission denied",
            OpenFailure::IsDirectory => "is a directory",
            OpenFailure::OutOfMemory => "out of memory",
            OpenFailure::Other => "cannot be opened",
        }
    }
}

// A file that was not opened.
#[derive(Clone, Copy)]
pub(crate) struct UnopenedSource<'a> {
    pub(crate) name: &'a str,
    pub(crate) failure: OpenFailure,
}

// The message of a file at the end.
pub(crate) fn push_file_fault(
    errors: &mut Vec<u8>,
    name: &[u8],
    reason: &str,
) -> Result<(), AllocError>
    ensures { IfOk result (λ _. errors.new.items ≡ errors.old.items ++ file_message name.now reason.now) }
{
    errors.extend_from_slice(b"pyver: ")?;
    push_escaped(errors, name)?;
    errors.extend_from_slice(b": ")?;
    errors.extend_from_slice(reason.as_bytes())?;
    errors.push(b'\n')?;
    Ok(())
}

// Only the message of the file with this name, which is not opened.
pub(crate) fn report_open_failure(
    alloc: Global,
    name: &[u8],
    failure: OpenFailure,
) -> Result<Answer, AllocError>
    ensures { IfOk result (λ a. outcome_of a ≡ unopened_outcome (record { name = name.now; failure = failure })) }
{
    let mut answer = Answer::silent(alloc, 2);
    push_file_fault(&mut answer.errors, name, failure.reason())?;
    Ok(answer)
}
