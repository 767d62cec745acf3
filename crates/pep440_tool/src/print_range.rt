//! The command `range`.
ghost use Rattle.pep440_tool.specs.Answers.{RangeAnswer};
ghost use Rattle.pep440_tool.specs.AnswerValues.{HoldsOfAnswer};

use crate::error::CommandError;
use crate::operands::parse_list;
use crate::output::Answer;
use pep440_rs::{RangeLines, specifiers_to_ranges};
use std::alloc::Global;

// `range SPECS`: the range of the list.
pub(crate) fn print_range(alloc: Global, word: &str) -> Result<Answer, CommandError>
    ensures { HoldsOfAnswer (RangeAnswer word.now) result }
{
    let list = parse_list(alloc, word)?;
    match specifiers_to_ranges(alloc, list) {
        Ok(range) => Ok(Answer::from_lines(RangeLines(&range).to_string(alloc)?)),
        Err(error) => Err(CommandError::Range(error)),
    }
}
