//! The command `match`.
ghost use Rattle.std.specs.Prelude.{◌≡◌};
ghost use Rattle.pep440_tool.specs.Answers.{MatchAnswer, yes_or_no};
ghost use Rattle.pep440_tool.specs.AnswerValues.{HoldsOfAnswer};

use crate::error::CommandError;
use crate::operands::{parse_list, parse_version};
use crate::output::Answer;
use std::alloc::Global;

// The word for whether it holds.
fn yes_or_no(is: bool) -> &'static str
    ensures { result.now ≡ yes_or_no is }
{
    if is { "yes" } else { "no" }
}

// `match SPECS V`: whether the list contains the version.
pub(crate) fn match_version(alloc: Global, list: &str, word: &str) -> Result<Answer, CommandError>
    ensures { HoldsOfAnswer (MatchAnswer list.now word.now) result }
{
    let list = parse_list(alloc, list)?;
    let version = parse_version(alloc, word)?;
    let holds = list.contains(alloc, &version)?;
    Ok(Answer::from_line(alloc, yes_or_no(holds))?)
}
