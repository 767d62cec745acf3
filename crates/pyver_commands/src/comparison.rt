//! The command `compare`.
ghost use Rattle.std.specs.Prelude.{◌≡◌, IfOk};
ghost use Rattle.pyver_commands.specs.AnswerViews.{outcome_of};
ghost use Rattle.pyver_commands.specs.Comparisons.{Compares, comparison_of, holds};

use crate::answer::Answer;
use crate::reading::{Reading, parse_version};
use std::alloc::{AllocError, Global};
use std::cmp::Ordering;

/// How the one version is to stand to the other.
#[derive(Clone, Copy)]
pub enum Comparison {
    Less,
    LessOrEqual,
    Equal,
    NotEqual,
    GreaterOrEqual,
    Greater,
}

/// The comparison that the word names.
pub fn parse_comparison(word: &str) -> Option<Comparison>
    ensures { result ≡ comparison_of word.now }
{
    match word {
        "lt" => Some(Comparison::Less),
        "<" => Some(Comparison::Less),
        "le" => Some(Comparison::LessOrEqual),
        "<=" => Some(Comparison::LessOrEqual),
        "eq" => Some(Comparison::Equal),
        "==" => Some(Comparison::Equal),
        "ne" => Some(Comparison::NotEqual),
        "!=" => Some(Comparison::NotEqual),
        "ge" => Some(Comparison::GreaterOrEqual),
        ">=" => Some(Comparison::GreaterOrEqual),
        "gt" => Some(Comparison::Greater),
        ">" => Some(Comparison::Greater),
        _ => None,
    }
}

fn holds(comparison: Comparison, order: Ordering) -> bool
    ensures { result ≡ holds comparison order }
{
    match comparison {
        Comparison::Less => order.is_lt(),
        Comparison::LessOrEqual => order.is_le(),
        Comparison::Equal => order.is_eq(),
        Comparison::NotEqual => order.is_ne(),
        Comparison::GreaterOrEqual => order.is_ge(),
        Comparison::Greater => order.is_gt(),
    }
}

/// `compare A OP B`: nothing is written, and the status is 0 where it holds and else 1.
pub fn compare(
    alloc: Global,
    left: &str,
    comparison: Comparison,
    right: &str,
) -> Result<Answer, AllocError>
    ensures { IfOk result (λ a. Compares left.now comparison right.now (outcome_of a)) }
{
    let first = parse_version(alloc, left)?;
    let second = parse_version(alloc, right)?;
    if let (Reading::Version(a), Reading::Version(b)) = (&first, &second) {
        let status = if holds(comparison, a.cmp(b)) { 0 } else { 1 };
        return Ok(Answer::silent(alloc, status));
    }
    let mut answer = Answer::silent(alloc, 0);
    answer.push_reading_fault(left, &first)?;
    answer.push_reading_fault(right, &second)?;
    Ok(answer)
}
