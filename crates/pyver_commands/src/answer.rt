//! What the program writes on standard output and on standard error, and its status.
ghost use Rattle.std.specs.Prelude.{◌≡◌, ◌≤◌, ◌++◌, IfOk};
ghost use Rattle.pyver_commands.specs.Outcomes.{fault, fault_message, followed_by, silent};
ghost use Rattle.pyver_commands.specs.Readings.{reading_fault};

use crate::reading::Reading;
use cli_io::push_escaped;
use std::alloc::{AllocError, Global};

/// What the program writes, and the status that it ends with.
#[derive(Drop)]
pub struct Answer {
    pub output: Vec<u8>,
    pub errors: Vec<u8>,
    pub status: u8,
    ghost known: { status ≤ 2 },
}

pub(crate) fn push_fault(errors: &mut Vec<u8>, word: &[u8], reason: &str) -> Result<(), AllocError>
    ensures { IfOk result (λ _. errors.new.items ≡ errors.old.items ++ fault_message word.now reason.now) }
{
    errors.extend_from_slice(b"pyver: '")?;
    push_escaped(errors, word)?;
    errors.extend_from_slice(b"': ")?;
    push_escaped(errors, reason.as_bytes())?;
    errors.push(b'\n')?;
    Ok(())
}

impl Answer {
    ghost use Rattle.pyver_commands.specs.AnswerViews.{outcome_of, reading_of};

    /// Nothing is written, with this status.
    pub fn silent(alloc: Global, status: u8) -> Answer
        requires { status ≤ 2 }
        ensures { outcome_of result ≡ silent status }
    {
        Answer {
            output: Vec::new(alloc),
            errors: Vec::new(alloc),
            status,
        }
    }

    // A word or a line is not what it has to be: a message, and the status 2.
    pub(crate) fn push_bytes_fault(&mut self, word: &[u8], reason: &str) -> Result<(), AllocError>
        ensures { IfOk result (λ _. outcome_of self.new ≡ followed_by (outcome_of self.old) (fault word.now reason.now)) }
    {
        push_fault(&mut self.errors, word, reason)?;
        self.status = self.status.max(2);
        Ok(())
    }

    // A word is not what it has to be: a message, and the status 2.
    pub(crate) fn push_fault(&mut self, word: &str, reason: &str) -> Result<(), AllocError>
        ensures { IfOk result (λ _. outcome_of self.new ≡ followed_by (outcome_of self.old) (fault word.now reason.now)) }
    {
        self.push_bytes_fault(word.as_bytes(), reason)
    }

    // What is to be written of a word that is read so: a message where it is no version.
    pub(crate) fn push_reading_fault(
        &mut self,
        word: &str,
        reading: &Reading,
    ) -> Result<(), AllocError>
        ensures { IfOk result (λ _. outcome_of self.new ≡ followed_by (outcome_of self.old)
            (reading_fault word.now (reading_of reading.now))) }
    {
        match reading {
            Reading::Version(_) => Ok(()),
            Reading::Invalid(reason) => self.push_fault(word, reason.as_str()),
        }
    }
}
