//! The command `range`.
ghost use Rattle.std.specs.Prelude.{◌≡◌, ◌++◌, [], IfOk, map, string_bytes};
ghost use Rattle.pep440_rs.specs.Bounds.{alone};
ghost use Rattle.pyver_commands.specs.AnswerViews.{outcome_of};
ghost use Rattle.pyver_commands.specs.CommonRanges.{ArrangesAll, FindsCommon, ListReading, PrintsLists, ReadsMembers, json_segments, length_cmp, lines_outcome, named_outcome, named_version_text, none_outcome, set_outcome, set_text};

use crate::answer::Answer;
use crate::range_json::push_segments;
use crate::specifiers::{SpecifiersReading, parse_specifiers, push_list_message};
use crate::version_json::push_text;
use pep440_pick::add_members;
use pep440_rs::{Ranges, Version, VersionSpecifier, VersionSpecifiers};
use pep440_sets::{SetError, SetLines, find_version, specifiers_to_set};
use std::alloc::{AllocError, Global};
use std::cmp::Ordering;

// What is known after some of the words.
#[derive(Drop)]
struct CommonLists {
    // The messages of those that are no lists.
    errors: Vec<u8>,
    // The members of the others.
    members: Vec<VersionSpecifier>,
}

impl CommonLists {
    // What is known after one word more.
    fn push_word(&mut self, alloc: Global, word: &str) -> Result<(), AllocError>
        ensures { IfOk result (λ _. (x : ListReading) × ReadsMembers word.now x
            × (self.new.errors.items ≡ self.old.errors.items ++ x.message)
            × (self.new.members.items ≡ self.old.members.items ++ x.members)) }
    {
        match parse_specifiers(alloc, word)? {
            SpecifiersReading::Specifiers(list) => add_members(&mut self.members, &list)?,
            SpecifiersReading::Invalid(message) => {
                push_list_message(&mut self.errors, word, message.as_str())?;
            }
        }
        Ok(())
    }
}

fn compare_lengths(a: &VersionSpecifier, b: &VersionSpecifier) -> Ordering
    ensures { result ≡ length_cmp a.now b.now }
{
    let (a, b) = (a.version().release(), b.version().release());
    a.len().cmp(&b.len())
}

// The members by version, and of equal versions the shorter first.
fn arrange_members(
    alloc: Global,
    members: Vec<VersionSpecifier>,
) -> Result<VersionSpecifiers, AllocError>
    ensures { IfOk result (λ list. ArrangesAll members.items list) }
{
    let mut short = members;
    short.sort_by(|a, b| compare_lengths(a, b))?;
    let list = VersionSpecifiers::from_specifiers(alloc, short)?;
    Ok(list)
}

fn push_set(
    alloc: Global,
    output: &mut Vec<u8>,
    json: bool,
    set: &Ranges<Version>,
) -> Result<(), AllocError>
    ensures { IfOk result (λ _. output.new.items ≡ output.old.items ++ set_text json set.now) }
{
    if json {
        push_segments(alloc, output, set)?;
        return push_text(output, "\n");
    }
    push_text(output, SetLines(set).to_string(alloc)?.as_str())
}

// The outcome where no version is allowed; as JSON no intervals.
fn report_none(alloc: Global, json: bool) -> Result<Answer, AllocError>
    ensures { IfOk result (λ a. outcome_of a ≡ none_outcome json) }
{
    let mut answer = Answer::silent(alloc, 1);
    push_text(
        &mut answer.output,
        if json { "[]\n" } else { "no version\n" },
    )?;
    Ok(answer)
}

fn print_set(alloc: Global, json: bool, set: &Ranges<Version>) -> Result<Answer, AllocError>
    ensures { IfOk result (λ a. outcome_of a ≡ lines_outcome json set.now) }
{
    if set.is_empty() {
        return report_none(alloc, json);
    }
    let mut answer = Answer::silent(alloc, 0);
    push_set(alloc, &mut answer.output, json, set)?;
    Ok(answer)
}

// The interval of the version alone as an array.
fn push_alone(alloc: Global, output: &mut Vec<u8>, version: Version) -> Result<(), AllocError>
    ensures { IfOk result (λ _. output.new.items ≡ output.old.items ++ json_segments (alone version)) }
{
    let one = Ranges::singleton(alloc, version)?;
    push_segments(alloc, output, &one)
}

// The version; as JSON the interval of it alone.
fn push_version(
    alloc: Global,
    output: &mut Vec<u8>,
    json: bool,
    version: Version,
) -> Result<(), AllocError>
    ensures { IfOk result (λ _. output.new.items ≡ output.old.items ++ named_version_text json version) }
{
    if json {
        return push_alone(alloc, output, version);
    }
    push_text(output, version.to_string(alloc)?.as_str())
}

// The outcome of lists with `===`, which allow at most the version that it names.
fn print_found(alloc: Global, json: bool, found: Option<Version>) -> Result<Answer, AllocError>
    ensures { IfOk result (λ a. outcome_of a ≡ named_outcome json found) }
{
    let Some(version) = found else {
        return report_none(alloc, json);
    };
    let mut answer = Answer::silent(alloc, 0);
    push_version(alloc, &mut answer.output, json, version)?;
    push_text(&mut answer.output, "\n")?;
    Ok(answer)
}

fn print_list(alloc: Global, json: bool, list: &VersionSpecifiers) -> Result<Answer, AllocError>
    ensures { IfOk result (λ a. outcome_of a ≡ set_outcome json list.now) }
{
    match specifiers_to_set(alloc, list.as_slice()) {
        Ok(set) => print_set(alloc, json, &set),
        Err(SetError::OutOfMemory) => Err(AllocError),
        Err(SetError::ArbitraryEquality) => {
            let found = find_version(alloc, list.as_slice())?;
            print_found(alloc, json, found)
        }
    }
}

fn print_members(
    alloc: Global,
    json: bool,
    members: Vec<VersionSpecifier>,
) -> Result<Answer, AllocError>
    ensures { IfOk result (λ a. PrintsLists json [] members.items (outcome_of a)) }
{
    let list = arrange_members(alloc, members)?;
    let answer = print_list(alloc, json, &list)?;
    Ok(answer)
}

fn print_lists(alloc: Global, json: bool, found: CommonLists) -> Result<Answer, AllocError>
    ensures { IfOk result (λ a. PrintsLists json found.errors.items found.members.items (outcome_of a)) }
{
    if found.errors.is_empty() {
        return print_members(alloc, json, found.members);
    }
    Ok(Answer {
        output: Vec::new(alloc),
        errors: found.errors,
        status: 2,
    })
}

/// `range SPECS..`: the versions that all lists match literally, as the intervals of a set or, with `json`, as JSON. The status is 0, 1 if
/// there is no version, and 2 if a list is invalid.
pub fn find_common(alloc: Global, json: bool, words: &[String]) -> Result<Answer, AllocError>
    ensures { IfOk result (λ a. FindsCommon json (map string_bytes words.now) (outcome_of a)) }
{
    let mut found = CommonLists {
        errors: Vec::new(alloc),
        members: Vec::new(alloc),
    };
    for word in words {
        found.push_word(alloc, word.as_str())?;
    }
    let answer = print_lists(alloc, json, found)?;
    Ok(answer)
}
