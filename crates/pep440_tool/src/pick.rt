//! The command `pick`.
ghost use Rattle.std.specs.Prelude.{◌≡◌, ◌++◌, ◌∷◌, [], List, map, option_to_list, string_bytes, IfOk};
ghost use Rattle.std.specs.List.{AllZip, enumerate_from};
ghost use Rattle.pep440_pick.specs.Allowed.{lists_of};
ghost use Rattle.pep440_pick.specs.RequirementGrammar.{DerivesRequirement, Needed, RejectsRequirement};
ghost use Rattle.pep440_tool.specs.Answers.{RejectsFirst};
ghost use Rattle.pep440_tool.specs.CommandErrors.{HoldsOrPrints};
ghost use Rattle.pep440_tool.specs.Lines.{LineDenotes, RejectsLine, numbered_lines};
ghost use Rattle.pep440_tool.specs.Picks.{CandidateDenotes, PickAnswer, PrintsNewest, RejectsCandidate, shown_requirement_error};
ghost use Rattle.pep440_tool.specs.AnswerValues.{HoldsOfAnswer, answer_value};

use crate::error::CommandError;
use crate::input_lines::{Line, Lines};
use crate::output::Answer;
use pep440_pick::{Requirement, is_name, newest};
use pep440_rs::{Version, VersionSpecifiers};
use std::alloc::{AllocError, Global};

// The version that the candidate with this number denotes.
fn parse_candidate(alloc: Global, number: usize, word: &str) -> Result<Version, CommandError>
    ensures { HoldsOrPrints (CandidateDenotes (number, word.now)) (RejectsCandidate (number, word.now)) result }
{
    match Version::from_str(alloc, word) {
        Ok(version) => Ok(version),
        Err(error) => Err(CommandError::Candidate(number, error)),
    }
}

// The versions that the candidates denote.
fn parse_candidates(alloc: Global, words: &[String]) -> Result<Vec<Version>, CommandError>
    ensures { HoldsOrPrints (λ v. AllZip CandidateDenotes (enumerate_from 1 (map string_bytes words.now)) v.items)
        (RejectsFirst CandidateDenotes RejectsCandidate (enumerate_from 1 (map string_bytes words.now))) result }
{
    let mut versions = Vec::new(alloc);
    for (at, word) in words.iter().enumerate() {
        let version = parse_candidate(alloc, at + 1, word.as_str())?;
        versions.push(version)?;
    }
    Ok(versions)
}

// The list of the requirement that the line denotes, if it is of that name.
fn parse_specifiers(
    alloc: Global,
    name: &str,
    line: Line<'_>,
) -> Result<Option<VersionSpecifiers>, CommandError>
    ensures { HoldsOrPrints (λ o. (n : Needed) × LineDenotes DerivesRequirement (line.entry.number, line.entry.bytes.now)
        n × (option_to_list o ≡ lists_of name.now (n ∷ [])))
        (RejectsLine RejectsRequirement shown_requirement_error (line.entry.number, line.entry.bytes.now)) result }
{
    match Requirement::specifiers_for(alloc, name, line.text()?) {
        Ok(specifiers) => Ok(specifiers),
        Err(error) => Err(CommandError::Requirement(line.number, error)),
    }
}

// One more list, where there is one.
fn push_list(
    lists: &mut Vec<VersionSpecifiers>,
    list: Option<VersionSpecifiers>,
) -> Result<(), AllocError>
    ensures { IfOk result (λ _. lists.new.items ≡ lists.old.items ++ option_to_list list) }
{
    match list {
        Some(list) => Ok(lists.push(list)?),
        None => Ok(()),
    }
}

// The lists of the lines of that name.
fn parse_lists(
    alloc: Global,
    name: &str,
    input: &[u8],
) -> Result<Vec<VersionSpecifiers>, CommandError>
    ensures { HoldsOrPrints (λ lists. (found : List Needed)
        × AllZip (LineDenotes DerivesRequirement) (numbered_lines input.now) found
        × (lists.items ≡ lists_of name.now found)) (RejectsFirst (LineDenotes DerivesRequirement)
        (RejectsLine RejectsRequirement shown_requirement_error) (numbered_lines input.now)) result }
{
    let mut lists = Vec::new(alloc);
    let mut lines = Lines::new(input);
    while let Some((line, later)) = lines.next_line() {
        let list = parse_specifiers(alloc, name, line)?;
        push_list(&mut lists, list)?;
        lines = later;
    }
    Ok(lists)
}

// The newest of the versions that the lists contain, or `none`, as a line.
fn print_newest(
    alloc: Global,
    lists: &[VersionSpecifiers],
    versions: &[Version],
) -> Result<Answer, AllocError>
    ensures { IfOk result (λ a. PrintsNewest lists.now versions.now (answer_value a)) }
{
    match newest(alloc, lists, versions)? {
        Some(position) => Answer::from_line(alloc, versions[position].to_string(alloc)?.as_str()),
        None => Answer::from_line(alloc, "none"),
    }
}

// `pick NAME V..`: the newest of the candidates, by the lists of the lines whose name is NAME.
pub(crate) fn pick(
    alloc: Global,
    name: &str,
    candidates: &[String],
    input: &[u8],
) -> Result<Answer, CommandError>
    ensures { HoldsOfAnswer (PickAnswer name.now (map string_bytes candidates.now) input.now) result }
{
    if !is_name(name) {
        return Err(CommandError::Name);
    }
    let versions = parse_candidates(alloc, candidates)?;
    let lists = parse_lists(alloc, name, input)?;
    Ok(print_newest(alloc, lists.as_slice(), versions.as_slice())?)
}
