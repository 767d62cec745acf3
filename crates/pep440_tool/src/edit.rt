//! The command `edit`.
ghost use Rattle.std.specs.Prelude.{◌≡◌, map, string_bytes};
ghost use Rattle.std.specs.List.{AllZip, enumerate_from};
ghost use Rattle.pep440_tool.specs.Answers.{DenotesChange, EditAnswer, RejectsChange, RejectsFirst, edited_answer};
ghost use Rattle.pep440_tool.specs.CommandErrors.{HoldsOrPrints};
ghost use Rattle.pep440_tool.specs.AnswerValues.{HoldsOfAnswer};
ghost use Rattle.pep440_version.specs.Changes.{apply_edits, edit};

use crate::error::CommandError;
use crate::operands::parse_version;
use crate::output::Answer;
use pep440_rs::{Change, Version, WithSentinels};
use pep440_version::{ChangeWordError, parse_change};
use std::alloc::Global;

// The changes that the words ask for.
fn parse_changes(alloc: Global, words: &[String]) -> Result<Vec<Change>, CommandError>
    ensures { HoldsOrPrints (λ v. AllZip DenotesChange (enumerate_from 1 (map string_bytes words.now)) (map edit v.items))
        (RejectsFirst DenotesChange RejectsChange (enumerate_from 1 (map string_bytes words.now))) result }
{
    let mut changes = Vec::new(alloc);
    for (at, word) in words.iter().enumerate() {
        match parse_change(alloc, word.as_str()) {
            Ok(change) => changes.push(change)?,
            Err(ChangeWordError::NotAChange) => return Err(CommandError::NotAChange(at + 1)),
            Err(ChangeWordError::OutOfMemory) => return Err(CommandError::OutOfMemory),
        }
    }
    Ok(changes)
}

// The version after the changes, with its sentinels.
fn apply_changes(
    alloc: Global,
    version: Version,
    changes: &[Change],
) -> Result<Answer, CommandError>
    ensures { HoldsOfAnswer (λ a. a ≡ edited_answer (apply_edits 1 version (map edit changes.now))) result }
{
    match version.with_changes(alloc, changes) {
        Ok(version) => {
            let print = WithSentinels(&version).to_string(alloc)?;
            Ok(Answer::from_line(alloc, print.as_str())?)
        }
        Err(error) => Err(CommandError::Change(error)),
    }
}

// `edit V CHANGE..`: all words are read before a change is made.
pub(crate) fn edit(alloc: Global, word: &str, words: &[String]) -> Result<Answer, CommandError>
    ensures { HoldsOfAnswer (EditAnswer word.now (map string_bytes words.now)) result }
{
    let version = parse_version(alloc, word)?;
    let changes = parse_changes(alloc, words)?;
    apply_changes(alloc, version, changes.as_slice())
}
