//! The command `match`.
ghost use Rattle.std.specs.Prelude.{◌≡◌, IfOk, map, string_bytes};
ghost use Rattle.pyver_commands.specs.AnswerViews.{outcome_of, reading_of};
ghost use Rattle.pyver_commands.specs.Matches.{Matches, MatchesWords, verdict, word_outcome};
ghost use Rattle.pyver_commands.specs.Outcomes.{followed_by};

use crate::answer::Answer;
use crate::prerelease_rule::{Prereleases, takes_prereleases};
use crate::reading::{Reading, parse_version};
use crate::specifiers::{SpecifiersReading, parse_specifiers, report_list_fault};
use cli_io::push_escaped;
use pep440_rs::VersionSpecifiers;
use std::alloc::{AllocError, Global};

/// How versions are matched, and whether that is printed.
#[derive(Clone, Copy)]
pub struct MatchOptions {
    pub quiet: bool,
    pub prereleases: Prereleases,
}

fn push_verdict(
    answer: &mut Answer,
    quiet: bool,
    allowed: bool,
    word: &str,
) -> Result<(), AllocError>
    ensures { IfOk result (λ _. outcome_of answer.new ≡ followed_by (outcome_of answer.old) (verdict quiet allowed word.now)) }
{
    if !quiet {
        let start: &[u8] = if allowed { b"yes\t" } else { b"no\t" };
        answer.output.extend_from_slice(start)?;
        push_escaped(&mut answer.output, word.as_bytes())?;
        answer.output.push(b'\n')?;
    }
    let status = if allowed { 0 } else { 1 };
    answer.status = answer.status.max(status);
    Ok(())
}

fn push_reading(
    alloc: Global,
    answer: &mut Answer,
    quiet: bool,
    takes: bool,
    list: &VersionSpecifiers,
    word: &str,
    reading: &Reading,
) -> Result<(), AllocError>
    ensures { IfOk result (λ _. outcome_of answer.new ≡ followed_by (outcome_of answer.old)
        (word_outcome quiet takes list.now word.now (reading_of reading.now))) }
{
    match reading {
        Reading::Version(version) => {
            let allowed = list.allows_literally(alloc, takes, version)?;
            push_verdict(answer, quiet, allowed, word)?;
            Ok(())
        }
        Reading::Invalid(reason) => {
            answer.push_fault(word, reason.as_str())?;
            Ok(())
        }
    }
}

fn match_words(
    alloc: Global,
    quiet: bool,
    takes: bool,
    list: &VersionSpecifiers,
    words: &[String],
) -> Result<Answer, AllocError>
    ensures { IfOk result (λ a. MatchesWords quiet takes list.now (map string_bytes words.now) (outcome_of a)) }
{
    let mut answer = Answer::silent(alloc, 0);
    for word in words {
        let reading = parse_version(alloc, word.as_str())?;
        push_reading(
            alloc,
            &mut answer,
            quiet,
            takes,
            list,
            word.as_str(),
            &reading,
        )?;
    }
    Ok(answer)
}

/// `match SPECS V..`, whose usage line this is: the status is 0 where all are allowed, 1 where one is not and 2 where one is invalid.
pub fn match_versions(
    alloc: Global,
    usage: &str,
    options: MatchOptions,
    specifiers: &str,
    words: &[String],
) -> Result<Answer, AllocError>
    ensures { IfOk result (λ a. Matches usage.now options specifiers.now (map string_bytes words.now) (outcome_of a)) }
{
    match parse_specifiers(alloc, specifiers)? {
        SpecifiersReading::Specifiers(list) => {
            let takes = takes_prereleases(options.prereleases, &list);
            match_words(alloc, options.quiet, takes, &list, words)
        }
        SpecifiersReading::Invalid(message) => {
            report_list_fault(alloc, usage, specifiers, message.as_str())
        }
    }
}
