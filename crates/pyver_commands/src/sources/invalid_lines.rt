//! What is done with invalid lines, by the option `--invalid`.
ghost use Rattle.std.specs.Prelude.{◌≡◌, ◌≤◌, ◌-◌, ◌++◌, ◌∷◌, [], IfOk, take};
ghost use Rattle.std.specs.List.{concat};
ghost use Rattle.pyver_commands.specs.Sources.InvalidLines.{invalid_lines_of, last_message, lines_status, message_limit};
ghost use Rattle.pyver_commands.specs.Outcomes.{count_message, line_fault_message, more_faults_message, skip_message};

use cli_io::push_escaped;
use std::alloc::{AllocError, Global};

/// What is done with invalid lines.
#[derive(Clone, Copy)]
pub enum InvalidLines {
    /// They are named, and the status is 2.
    Error,
    /// They are named, the status is 2, and no option leaves them out.
    AlwaysError,
    /// They are left out and counted.
    Skip,
    /// They are no error.
    Keep,
}

// So many invalid lines get a message of their own.
pub(crate) const MESSAGE_LIMIT: u64 = 20;

/// What the word asks for.
pub fn parse_invalid_lines(word: &str) -> Option<InvalidLines>
    ensures { result ≡ invalid_lines_of word.now }
{
    match word {
        "error" => Some(InvalidLines::Error),
        "skip" => Some(InvalidLines::Skip),
        "keep" => Some(InvalidLines::Keep),
        _ => None,
    }
}

impl InvalidLines {
    // So many of the first get a message of their own.
    fn message_limit(self) -> u64
        ensures { result ≡ message_limit self }
    {
        match self {
            InvalidLines::Error => MESSAGE_LIMIT,
            InvalidLines::AlwaysError => MESSAGE_LIMIT,
            InvalidLines::Skip => 0,
            InvalidLines::Keep => 0,
        }
    }

    // Pushes the message of an invalid line of the source with this name, where so many lines before it were invalid.
    pub(crate) fn push_fault(
        self,
        alloc: Global,
        errors: &mut Vec<u8>,
        count: u64,
        name: &str,
        number: u64,
        text: &[u8],
        reason: &str,
    ) -> Result<(), AllocError>
        ensures { IfOk result (λ _. errors.new.items ≡ errors.old.items
            ++ concat (take (message_limit self - count) (line_fault_message name.now number text.now reason.now ∷ []))) }
    {
        if count < self.message_limit() {
            push_line_fault(alloc, errors, name, number, text, reason)?;
        }
        Ok(())
    }

    // Pushes the message at the end, where so many lines were invalid.
    pub(crate) fn push_last(
        self,
        alloc: Global,
        errors: &mut Vec<u8>,
        count: u64,
    ) -> Result<(), AllocError>
        ensures { IfOk result (λ _. errors.new.items ≡ errors.old.items ++ last_message self count) }
    {
        match self {
            InvalidLines::Error => {
                push_more_faults(alloc, errors, count.saturating_sub(MESSAGE_LIMIT))?;
                push_skip_hint(errors, count)
            }
            InvalidLines::AlwaysError => {
                push_more_faults(alloc, errors, count.saturating_sub(MESSAGE_LIMIT))
            }
            InvalidLines::Skip => {
                push_count(alloc, errors, "pyver: invalid lines left out: ", count)
            }
            InvalidLines::Keep => Ok(()),
        }
    }

    // The status, where so many lines were invalid.
    pub(crate) fn status(self, count: u64) -> u8
        ensures is { result ≡ lines_status self count }
        ensures known { result ≤ 2 }
    {
        match self {
            InvalidLines::Error => { if count == 0 { 0 } else { 2 } }
            InvalidLines::AlwaysError => { if count == 0 { 0 } else { 2 } }
            InvalidLines::Skip => 0,
            InvalidLines::Keep => 0,
        }
    }
}

// The message of an invalid line of the source with this name, at the end.
fn push_line_fault(
    alloc: Global,
    errors: &mut Vec<u8>,
    name: &str,
    number: u64,
    text: &[u8],
    reason: &str,
) -> Result<(), AllocError>
    ensures { IfOk result (λ _. errors.new.items ≡ errors.old.items ++ line_fault_message name.now number text.now reason.now) }
{
    errors.extend_from_slice(b"pyver: ")?;
    push_escaped(errors, name.as_bytes())?;
    errors.extend_from_slice(b":")?;
    errors.extend_from_slice(number.to_string(alloc)?.as_bytes())?;
    errors.extend_from_slice(b": '")?;
    push_escaped(errors, text)?;
    errors.extend_from_slice(b"' is not a version: ")?;
    push_escaped(errors, reason.as_bytes())?;
    errors.push(b'\n')?;
    Ok(())
}

// How many invalid lines were not named.
pub(crate) fn push_more_faults(
    alloc: Global,
    errors: &mut Vec<u8>,
    count: u64,
) -> Result<(), AllocError>
    ensures { IfOk result (λ _. errors.new.items ≡ errors.old.items ++ more_faults_message count) }
{
    push_count(alloc, errors, "pyver: more invalid lines: ", count)
}

// How to leave them out, where there are some.
fn push_skip_hint(errors: &mut Vec<u8>, count: u64) -> Result<(), AllocError>
    ensures { IfOk result (λ _. errors.new.items ≡ errors.old.items ++ skip_message count) }
{
    if count == 0 {
        return Ok(());
    }
    errors.extend_from_slice(b"pyver: --invalid=skip leaves such lines out\n")
}

// How many there are, where there are some.
fn push_count(
    alloc: Global,
    errors: &mut Vec<u8>,
    start: &str,
    count: u64,
) -> Result<(), AllocError>
    ensures { IfOk result (λ _. errors.new.items ≡ errors.old.items ++ count_message start.now count) }
{
    if count == 0 {
        return Ok(());
    }
    errors.extend_from_slice(start.as_bytes())?;
    errors.extend_from_slice(count.to_string(alloc)?.as_bytes())?;
    errors.push(b'\n')?;
    Ok(())
}
