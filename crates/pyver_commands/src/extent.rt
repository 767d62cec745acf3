//! The command `marker`.
ghost use Rattle.std.specs.Prelude.{◌≡◌, ◌≤◌, ◌++◌, ℕ, List, [], IfOk, None, Some, map, option_map};
ghost use Rattle.pyver_commands.specs.AnswerViews.{outcome_of};
ghost use Rattle.pyver_commands.specs.MarkerExtents.{FailsAsMarker, FindsExtent, HasSteps, PrintsSteps, extent_outcome, fault_byte, marker_fault_message, marker_message};
ghost use Rattle.pyver_commands.specs.Outcomes.{message_outcome};
ghost use Rattle.pyver_markers.specs.Extents.{assignment_of, extent_of, Somewhere, Undecided};
ghost use Rattle.pyver_requirements.specs.MarkerGrammar.{DenotesMarker};
ghost use Rattle.pyver_requirements.specs.MarkerSteps.{marker_steps};
ghost use Rattle.pyver_requirements.specs.MarkerViews.{IsMarkerFault};

use crate::answer::Answer;
use crate::version_json::push_text;
use cli_io::push_escaped;
use pyver_markers::{Domain, EnvironmentMarker, FoundVariable, MarkerExtent, push_environment};
use pyver_requirements::{MarkerError, MarkerFault};
use std::alloc::{AllocError, Global};

fn fault_byte(word: &str, position: usize) -> usize
    ensures { result ≡ fault_byte word.now position }
{
    position.min(word.len()) + 1
}

// The message of a word that is no marker from this byte on, at the end.
fn push_marker_message(
    alloc: Global,
    errors: &mut Vec<u8>,
    word: &str,
    byte: usize,
    reason: &str,
) -> Result<(), AllocError>
    ensures { IfOk result (λ _. errors.new.items ≡ errors.old.items ++ marker_fault_message word.now byte reason.now) }
{
    errors.extend_from_slice(b"pyver: '")?;
    push_escaped(errors, word.as_bytes())?;
    errors.extend_from_slice(b"' is not a marker: byte ")?;
    errors.extend_from_slice(byte.to_string(alloc)?.as_bytes())?;
    errors.extend_from_slice(b": ")?;
    errors.extend_from_slice(reason.as_bytes())?;
    errors.push(b'\n')?;
    Ok(())
}

// The outcome of a word that is no marker, for this fault.
fn report_fault(
    alloc: Global,
    word: &str,
    fault: MarkerFault,
    position: usize,
) -> Result<Answer, AllocError>
    ensures { IfOk result (λ a. outcome_of a ≡ message_outcome (marker_message word.now (record { fault = fault; position = position }))) }
{
    let mut answer = Answer::silent(alloc, 2);
    let byte = fault_byte(word, position);
    push_marker_message(alloc, &mut answer.errors, word, byte, fault.reason())?;
    Ok(answer)
}

// The outcome of a word that is no marker, for this error.
fn report_error(alloc: Global, word: &str, error: MarkerError) -> Result<Answer, AllocError>
    requires { IsMarkerFault (marker_steps word.now) error }
    ensures { IfOk result (λ a. FailsAsMarker word.now (outcome_of a)) }
{
    match error {
        MarkerError::OutOfMemory => Err(AllocError),
        MarkerError::Invalid(fault, position) => {
            let answer = report_fault(alloc, word, fault, position)?;
            Ok(answer)
        }
    }
}

fn print_word(alloc: Global, word: &str, status: u8) -> Result<Answer, AllocError>
    requires { status ≤ 2 }
    ensures { IfOk result (λ a. outcome_of a ≡ record { output = word.now; errors = []; status = status }) }
{
    let mut answer = Answer::silent(alloc, status);
    push_text(&mut answer.output, word)?;
    Ok(answer)
}

fn print_environment(alloc: Global, variables: &[FoundVariable<'_>]) -> Result<Answer, AllocError>
    ensures { IfOk result (λ a. outcome_of a ≡ extent_outcome (Somewhere (map assignment_of variables.now))) }
{
    let mut answer = Answer::silent(alloc, 0);
    push_environment(&mut answer.output, variables)?;
    push_text(&mut answer.output, "\n")?;
    Ok(answer)
}

fn report_no_decision(alloc: Global) -> Result<Answer, AllocError>
    ensures { IfOk result (λ a. outcome_of a ≡ extent_outcome Undecided) }
{
    let mut answer = Answer::silent(alloc, 2);
    push_text(
        &mut answer.errors,
        "pyver: undecided: no environment was found, and there may be one\n",
    )?;
    Ok(answer)
}

fn print_extent(alloc: Global, extent: &MarkerExtent<'_>) -> Result<Answer, AllocError>
    ensures { IfOk result (λ a. outcome_of a ≡ extent_outcome (extent_of extent.now)) }
{
    match extent {
        MarkerExtent::Nowhere => print_word(alloc, "nowhere\n", 1),
        MarkerExtent::Always => print_word(alloc, "always\n", 0),
        MarkerExtent::Somewhere(variables) => print_environment(alloc, variables.as_slice()),
        MarkerExtent::Undecided => report_no_decision(alloc),
    }
}

fn print_marker(
    alloc: Global,
    linked: bool,
    marker: &EnvironmentMarker<'_>,
) -> Result<Answer, AllocError>
    ensures { IfOk result (λ a. PrintsSteps linked marker.now (outcome_of a)) }
{
    let python = None;
    let extent = marker.find_extent(alloc, Domain { linked, python })?;
    let answer = print_extent(alloc, &extent)?;
    Ok(answer)
}

// Where both markers hold.
fn print_both(
    alloc: Global,
    linked: bool,
    marker: EnvironmentMarker<'_>,
    second: &EnvironmentMarker<'_>,
) -> Result<Answer, AllocError>
    ensures { (word other : List ℕ) → HasSteps (DenotesMarker word) marker.entry → HasSteps (DenotesMarker other) second.now
        → IfOk result (λ a. FindsExtent linked word (Some other) (outcome_of a)) }
{
    let both = marker.and(second)?;
    let answer = print_marker(alloc, linked, &both)?;
    Ok(answer)
}

#[tactic(auto, using(crate::proofs::CommandLaws::parsed, crate::proofs::CommandLaws::second_fails))]
// Where the marker of the first word and that of the other both hold.
fn find_both(
    alloc: Global,
    linked: bool,
    marker: EnvironmentMarker<'_>,
    other: &str,
) -> Result<Answer, AllocError>
    ensures { (word : List ℕ) → HasSteps (DenotesMarker word) marker.entry → IfOk result (λ a. FindsExtent linked word (Some other.now) (outcome_of a)) }
{
    match EnvironmentMarker::parse(alloc, other.as_bytes()) {
        Ok(second) => print_both(alloc, linked, marker, &second),
        Err(error) => {
            let answer = report_error(alloc, other, error)?;
            Ok(answer)
        }
    }
}

#[tactic(auto, using(crate::proofs::CommandLaws::found_one))]
// Where the marker of the first word holds.
fn find_one(
    alloc: Global,
    linked: bool,
    marker: &EnvironmentMarker<'_>,
) -> Result<Answer, AllocError>
    ensures { (word : List ℕ) → HasSteps (DenotesMarker word) marker.now → IfOk result (λ a. FindsExtent linked word None (outcome_of a)) }
{
    let answer = print_marker(alloc, linked, marker)?;
    Ok(answer)
}

// Where the marker of the first word, and that of the other if there is one, hold.
fn find_with(
    alloc: Global,
    linked: bool,
    marker: EnvironmentMarker<'_>,
    other: Option<&str>,
) -> Result<Answer, AllocError>
    ensures { (word : List ℕ) → HasSteps (DenotesMarker word) marker.entry
        → IfOk result (λ a. FindsExtent linked word (option_map (λ w. w.now) other.entry) (outcome_of a)) }
{
    match other {
        Some(other) => find_both(alloc, linked, marker, other),
        None => find_one(alloc, linked, &marker),
    }
}

/// `marker MARKER [MARKER]`: an environment in which the marker holds, or both do, as a marker, `always` or `nowhere`; on one system if its variables are
/// `linked`. The status is 0, 1 if there is none, and 2 if a word is no marker, or if it is undecided.
///
/// Allocates.
#[tactic(auto, using(crate::proofs::CommandLaws::first_fails, crate::proofs::CommandLaws::parsed))]
pub fn find_extent(
    alloc: Global,
    linked: bool,
    word: &str,
    other: Option<&str>,
) -> Result<Answer, AllocError>
    ensures { IfOk result (λ a. FindsExtent linked word.now (option_map (λ w. w.now) other.entry) (outcome_of a)) }
{
    match EnvironmentMarker::parse(alloc, word.as_bytes()) {
        Ok(marker) => find_with(alloc, linked, marker, other),
        Err(error) => {
            let answer = report_error(alloc, word, error)?;
            Ok(answer)
        }
    }
}
