//! The command `show`.
ghost use Rattle.pep440_tool.specs.Answers.{ShowAnswer};
ghost use Rattle.pep440_tool.specs.AnswerValues.{HoldsOfAnswer};

use crate::error::CommandError;
use crate::operands::parse_version;
use crate::output::Answer;
use std::alloc::Global;

// `show V`: the normalized form of V.
pub(crate) fn show_version(alloc: Global, word: &str) -> Result<Answer, CommandError>
    ensures { HoldsOfAnswer (ShowAnswer word.now) result }
{
    let version = parse_version(alloc, word)?;
    let print = version.to_string(alloc)?;
    Ok(Answer::from_line(alloc, print.as_str())?)
}
