//! The command `compare`.
ghost use Rattle.std.specs.Prelude.{◌≡◌};
ghost use Rattle.pep440_tool.specs.Answers.{CompareAnswer, sign_of};
ghost use Rattle.pep440_tool.specs.AnswerValues.{HoldsOfAnswer};

use crate::error::CommandError;
use crate::operands::parse_version;
use crate::output::Answer;
use std::alloc::Global;
use std::cmp::Ordering;

// The sign of an order.
fn sign_of(order: Ordering) -> &'static str
    ensures { result.now ≡ sign_of order }
{
    match order {
        Ordering::Less => "<",
        Ordering::Equal => "=",
        Ordering::Greater => ">",
    }
}

// `compare A B`: how A compares with B.
pub(crate) fn compare(alloc: Global, left: &str, right: &str) -> Result<Answer, CommandError>
    ensures { HoldsOfAnswer (CompareAnswer left.now right.now) result }
{
    let first = parse_version(alloc, left)?;
    let second = parse_version(alloc, right)?;
    Ok(Answer::from_line(alloc, sign_of(first.cmp(&second)))?)
}
