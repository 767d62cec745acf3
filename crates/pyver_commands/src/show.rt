//! The command `show`.
ghost use Rattle.std.specs.Prelude.{◌≡◌, ◌++◌, IfOk, map, string_bytes};
ghost use Rattle.pyver_commands.specs.AnswerViews.{outcome_of, reading_of};
ghost use Rattle.pyver_commands.specs.Outcomes.{followed_by};
ghost use Rattle.pyver_commands.specs.Shows.{Shows, show_outcome, show_line, show_text};

use crate::answer::Answer;
use crate::part::{VersionPart, part_text};
use crate::reading::{Reading, parse_version};
use crate::version_json::{push_object, push_text};
use pep440_rs::Version;
use std::alloc::{AllocError, Global};

/// What is printed of a version.
#[derive(Clone, Copy)]
pub enum ShowFormat {
    Normal,
    Part(VersionPart),
    Json,
}

fn push_version(
    alloc: Global,
    bytes: &mut Vec<u8>,
    format: ShowFormat,
    version: &Version,
) -> Result<(), AllocError>
    ensures { IfOk result (λ _. bytes.new.items ≡ bytes.old.items ++ show_text format version.now) }
{
    match format {
        ShowFormat::Normal => push_text(bytes, version.to_string(alloc)?.as_str()),
        ShowFormat::Part(part) => push_text(bytes, part_text(alloc, part, version)?.as_str()),
        ShowFormat::Json => push_object(alloc, bytes, version),
    }
}

fn push_line(
    alloc: Global,
    bytes: &mut Vec<u8>,
    format: ShowFormat,
    version: &Version,
) -> Result<(), AllocError>
    ensures { IfOk result (λ _. bytes.new.items ≡ bytes.old.items ++ show_line format version.now) }
{
    push_version(alloc, bytes, format, version)?;
    push_text(bytes, "\n")
}

fn push_shown(
    alloc: Global,
    answer: &mut Answer,
    format: ShowFormat,
    word: &str,
    reading: &Reading,
) -> Result<(), AllocError>
    ensures { IfOk result (λ _. outcome_of answer.new ≡ followed_by (outcome_of answer.old)
        (show_outcome format word.now (reading_of reading.now))) }
{
    match reading {
        Reading::Version(version) => push_line(alloc, &mut answer.output, format, version),
        Reading::Invalid(reason) => answer.push_fault(word, reason.as_str()),
    }
}

/// `show V..`: a line for each version; the status is 0, or 2 where one is invalid.
pub fn show_versions(
    alloc: Global,
    format: ShowFormat,
    words: &[String],
) -> Result<Answer, AllocError>
    ensures { IfOk result (λ a. Shows format (map string_bytes words.now) (outcome_of a)) }
{
    let mut answer = Answer::silent(alloc, 0);
    for word in words {
        let reading = parse_version(alloc, word.as_str())?;
        push_shown(alloc, &mut answer, format, word.as_str(), &reading)?;
    }
    Ok(answer)
}
