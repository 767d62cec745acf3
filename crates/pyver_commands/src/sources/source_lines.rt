//! Lines of the input as text, and what they are read as.
ghost use Rattle.std.specs.Prelude.{◌≡◌, IfOk, if◌then◌else◌, ◌==◌, string_bytes};
ghost use Rattle.std.specs.Option.{option_map};
ghost use Rattle.std.specs.Str.Lines.{strip_carriage_return};
ghost use Rattle.pyver_commands.specs.AnswerViews.{reading_of};
ghost use Rattle.pyver_commands.specs.Sources.InputLines.{is_blank, numbered, without_mark};
ghost use Rattle.pyver_commands.specs.Sources.ReadLines.{ReadsBytes, ReadsLine, field, no_field_reason};

use crate::reading::{Reading, parse_version};
use crate::sources::line_options::LineOptions;
use std::alloc::{AllocError, Global};

fn without_mark(line: &[u8]) -> &[u8]
    ensures { result.now ≡ without_mark line.now }
{
    match line {
        [0xEF, 0xBB, 0xBF, rest @ ..] => rest,
        _ => line,
    }
}

fn without_return(line: &[u8]) -> &[u8]
    ensures { result.now ≡ strip_carriage_return line.now }
{
    match line {
        [rest @ .., b'\r'] => rest,
        _ => line,
    }
}

// The line with this number without a byte order mark, where it is the first, and without a carriage return at its end.
pub(crate) fn line_text(number: u64, line: &[u8]) -> &[u8]
    ensures { (number, result.now) ≡ numbered (number, line.now) }
{
    if number == 1 {
        without_return(without_mark(line))
    } else {
        without_return(line)
    }
}

// Whether there are only blanks.
pub(crate) fn is_blank(text: &[u8]) -> bool
    ensures { result ≡ is_blank text.now }
{
    text.iter().all(|byte| byte.is_ascii_whitespace())
}

// The field with this number, from 1, where there is one.
fn find_field(number: u64, delimiter: u8, text: &[u8]) -> Option<&[u8]>
    ensures { option_map (λ f. f.now) result ≡ field number delimiter text.now }
{
    text.split(|byte| *byte == delimiter)
        .nth(number.saturating_sub(1) as usize)
}

// Why a line with fewer fields is invalid.
fn print_no_field(alloc: Global, number: u64) -> Result<String, AllocError>
    ensures { IfOk result (λ s. string_bytes s ≡ no_field_reason number) }
{
    let mut reason = String::from_str(alloc, "no field ")?;
    reason.push_str(number.to_string(alloc)?.as_str())?;
    Ok(reason)
}

// The version that the line denotes, or why it denotes none.
pub(crate) fn parse_line(
    alloc: Global,
    options: LineOptions,
    text: &[u8],
) -> Result<Reading, AllocError>
    ensures { IfOk result (λ x. ReadsLine options text.now (reading_of x)) }
{
    let Some(number) = options.field else {
        return parse_bytes(alloc, text);
    };
    match find_field(number, options.delimiter, text) {
        Some(field) => parse_bytes(alloc, field),
        None => Ok(Reading::Invalid(print_no_field(alloc, number)?)),
    }
}

fn parse_bytes(alloc: Global, text: &[u8]) -> Result<Reading, AllocError>
    ensures { IfOk result (λ x. ReadsBytes text.now (reading_of x)) }
{
    match std::str::from_utf8(text) {
        Ok(text) => parse_version(alloc, text),
        Err(_) => Ok(Reading::Invalid(String::from_str(alloc, "not UTF-8")?)),
    }
}
