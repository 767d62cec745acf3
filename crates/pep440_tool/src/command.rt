//! The command that words ask for, and what it prints.
ghost use Rattle.std.specs.Prelude.{◌≡◌, ◌≤◌, ◌==◌, map, string_bytes, IfOk};
ghost use Rattle.pep440_tool.specs.Commands.{IsAnswer, request_of_words, request_by_name, reads_input};
ghost use Rattle.pep440_tool.specs.AnswerValues.{HoldsOfAnswer, request, answer_value};

use crate::compare::compare;
use crate::edit::edit;
use crate::error::CommandError;
use crate::filter_lines::filter_lines;
use crate::match_version::match_version;
use crate::output::Answer;
use crate::pick::pick;
use crate::print_range::print_range;
use crate::show_version::show_version;
use std::alloc::{AllocError, Global};

/// What words ask for.
#[derive(Clone, Copy)]
pub enum Command<'a> {
    Show(&'a str),
    Compare(&'a str, &'a str),
    Match(&'a str, &'a str),
    Edit(&'a str, &'a [String]),
    Range(&'a str),
    Filter(&'a str),
    Pick(&'a str, &'a [String]),
    // No such command, or a wrong number of words.
    Usage,
}

// The command with this name, and the words after it.
fn parse_by_name<'a>(command: &str, words: &'a [String]) -> Command<'a>
    ensures { request result ≡ request_by_name command.now (map string_bytes words.now) }
{
    match command {
        "show" => match words {
            [version] => Command::Show(version.as_str()),
            _ => Command::Usage,
        },
        "compare" => match words {
            [left, right] => Command::Compare(left.as_str(), right.as_str()),
            _ => Command::Usage,
        },
        "match" => match words {
            [list, version] => Command::Match(list.as_str(), version.as_str()),
            _ => Command::Usage,
        },
        "edit" => match words {
            [version, changes @ ..] => Command::Edit(version.as_str(), changes),
            [] => Command::Usage,
        },
        "range" => match words {
            [list] => Command::Range(list.as_str()),
            _ => Command::Usage,
        },
        "filter" => match words {
            [list] => Command::Filter(list.as_str()),
            _ => Command::Usage,
        },
        "pick" => match words {
            [name, candidates @ ..] if !candidates.is_empty() => {
                Command::Pick(name.as_str(), candidates)
            }
            _ => Command::Usage,
        },
        _ => Command::Usage,
    }
}

impl<'a> Command<'a> {
    // The command that the words ask for.
    pub(crate) fn parse(words: &'a [String]) -> Command<'a>
        ensures { request result ≡ request_of_words (map string_bytes words.now) }
    {
        match words {
            [name, rest @ ..] => parse_by_name(name.as_str(), rest),
            [] => Command::Usage,
        }
    }

    // Whether it reads the input.
    pub(crate) fn reads_input(self) -> bool
        ensures { result ≡ reads_input (request self.entry) }
    {
        matches!(self, Command::Filter(_) | Command::Pick(_, _))
    }

    // What it prints for its input, or why it prints no result.
    fn run(self, alloc: Global, input: &[u8]) -> Result<Answer, CommandError>
        ensures { HoldsOfAnswer (IsAnswer (request self.entry) input.now) result }
    {
        match self {
            Command::Show(version) => show_version(alloc, version),
            Command::Compare(left, right) => compare(alloc, left, right),
            Command::Match(list, version) => match_version(alloc, list, version),
            Command::Edit(version, changes) => edit(alloc, version, changes),
            Command::Range(list) => print_range(alloc, list),
            Command::Filter(list) => filter_lines(alloc, list, input),
            Command::Pick(name, candidates) => pick(alloc, name, candidates, input),
            Command::Usage => Ok(Answer::usage(alloc)?),
        }
    }

    // What it prints for its input: a result, or the error's message.
    pub(crate) fn answer(self, alloc: Global, input: &[u8]) -> Result<Answer, AllocError>
        ensures answer { IfOk result (λ a. IsAnswer (request self.entry) input.now (answer_value a)) }
        ensures known { IfOk result (λ a. a.status ≤ 2) }
    {
        match self.run(alloc, input) {
            Ok(answer) => Ok(answer),
            Err(error) => Answer::from_error(alloc, &error),
        }
    }
}

/// What the program prints for its words and its input: what is written, and the status 0 (a result), 1 (an error) or
/// 2 (no such command, or a wrong number of words). Only `filter` and `pick` look at the input.
///
/// Allocates; `AllocError` only if that fails.
pub fn answer(alloc: Global, words: &[String], input: &[u8]) -> Result<Answer, AllocError>
    ensures answer { IfOk result (λ a. IsAnswer (request_of_words (map string_bytes words.now)) input.now (answer_value a)) }
    ensures known { IfOk result (λ a. a.status ≤ 2) }
{
    Command::parse(words).answer(alloc, input)
}
