//! The command `newest`: the line of the newest version that specifiers allow.
ghost use Rattle.std.specs.Prelude.{◌≡◌, IfErr, IfOk, List, Option, ℕ, map, string_bytes};
ghost use Rattle.std.specs.Option.{option_map};
ghost use Rattle.pyver_commands.specs.AnswerViews.{outcome_of, kept_line};
ghost use Rattle.pyver_commands.specs.NewestOutcomes.{FindsNewest, newest_outcome};
ghost use Rattle.pyver_commands.specs.Sources.RunFailures.{IsRunFailureOf, FailsWithoutOutcome};
ghost use Rattle.pyver_commands.specs.Sources.{IsOutcomeOfSources, source_names};
ghost use Rattle.pyver_commands.specs.Sources.VersionLines.{OfVersions};
ghost use Rattle.pyver_commands.specs.declared.sources.stream.RunFailure.TheVariants.{OutOfMemory};

use crate::answer::Answer;
use crate::filter::{FilterRule, FilterState, Selection};
use crate::filter_sources::filter_all_sources;
use crate::newest_lines::{KeptLine, take_line};
use crate::prerelease_rule::{Prereleases, takes_prereleases};
use crate::sources::files::Files;
use crate::sources::line_options::LineOptions;
use crate::sources::open_failure::report_open_failure;
use crate::sources::stream::RunFailure;
use pep440_rs::VersionSpecifiers;
use std::alloc::{AllocError, Global};
use std::io::Read;

/// How lines are read, and which pre-releases are taken.
#[derive(Clone, Copy)]
pub struct NewestOptions {
    pub prereleases: Prereleases,
    pub lines: LineOptions,
}

/// Which version is asked for.
#[derive(Drop)]
pub struct NewestRule {
    pub prereleases: Prereleases,
    pub lines: LineOptions,
    pub list: VersionSpecifiers,
}

// The line as it was written, or the status 1.
fn print_newest(
    alloc: Global,
    newest: Option<KeptLine>,
    errors: Vec<u8>,
) -> Result<Answer, AllocError>
    ensures { IfOk result (λ a. outcome_of a ≡ newest_outcome errors.items (option_map kept_line newest)) }
{
    let Some(newest) = newest else {
        return Ok(Answer {
            output: Vec::new(alloc),
            errors,
            status: 1,
        });
    };
    let mut output = newest.text;
    output.push(b'\n')?;
    Ok(Answer {
        output,
        errors,
        status: 0,
    })
}

// Messages are kept in memory, so a write fails only where an allocation did.
fn without_writes(failure: RunFailure) -> RunFailure
    ensures memory { failure ≡ OutOfMemory → result ≡ OutOfMemory }
    ensures of { (last : Option (List ℕ)) → IsRunFailureOf last failure → IsRunFailureOf last result }
{
    match failure {
        RunFailure::OutOfMemory => RunFailure::OutOfMemory,
        RunFailure::Read => RunFailure::Read,
        RunFailure::ReadFile(message) => RunFailure::ReadFile(message),
        RunFailure::Output(_) => RunFailure::OutOfMemory,
        RunFailure::Errors(_) => RunFailure::OutOfMemory,
    }
}

// `newest` of the lines of these sources, of which only those are kept that may be the newest.
pub(crate) fn find_newest<F: Files, R: Read>(
    alloc: Global,
    rule: NewestRule,
    names: &[String],
    files: &mut F,
    input: &mut R,
) -> Result<Answer, RunFailure>
    ensures finished { IfOk result (λ a. IsOutcomeOfSources (F.known files.old) R.remaining (OfVersions rule.lines (FindsNewest rule))
        (source_names (map string_bytes names.now)) input.old input.new (outcome_of a)) }
    ensures stopped { IfErr result (FailsWithoutOutcome (F.known files.old) R.remaining (source_names (map string_bytes names.now))
        input.old input.new) }
    ensures kept { F.known files.new ≡ F.known files.old }
{
    let invalid = rule.lines.invalid;
    let filter = FilterRule {
        wanted: Selection::Newest,
        takes: takes_prereleases(rule.prereleases, &rule.list),
        lines: rule.lines,
        list: rule.list,
    };
    let mut state = FilterState::new(alloc);
    let mut output = Vec::new(alloc);
    let mut errors = Vec::new(alloc);
    let unopened = match filter_all_sources(
        alloc,
        &filter,
        names,
        &mut state,
        files,
        input,
        &mut output,
        &mut errors,
    ) {
        Ok(unopened) => unopened,
        Err(failure) => return Err(without_writes(failure)),
    };
    if let Some(file) = unopened {
        return Ok(report_open_failure(alloc, file.name.as_bytes(), file.failure)?);
    }
    invalid.push_last(alloc, &mut errors, state.fault_count)?;
    let status = invalid.status(state.fault_count);
    if status > 0 {
        return Ok(Answer {
            output: Vec::new(alloc),
            errors,
            status,
        });
    }
    Ok(print_newest(alloc, take_line(rule.prereleases, state.newest), errors)?)
}
