//! `bump` without a version among the words.
ghost use Rattle.std.specs.Prelude.{◌≡◌, IfOk, map};
ghost use Rattle.pyver_commands.specs.AnswerViews.{outcome_of};
ghost use Rattle.pyver_commands.specs.WholeInputs.{BumpsOnly, only_outcome};
ghost use Rattle.pyver_commands.specs.Outcomes.{message_outcome};
ghost use Rattle.pyver_commands.specs.Sources.VersionLineViews.{input_parts_of, version_line_of};

use crate::answer::Answer;
use crate::bump::{BumpPart, bump, push_result};
use crate::sources::version_line::{VersionLine, VersionLines};
use std::alloc::{AllocError, Global};

/// Which parts are raised, and the number of the last one if it is given.
#[derive(Drop)]
pub struct BumpRule {
    pub to: Option<u64>,
    pub parts: Vec<BumpPart>,
}

// Reports by this message that there is not one version.
fn report_count(alloc: Global, message: &str) -> Result<Answer, AllocError>
    ensures { IfOk result (λ a. outcome_of a ≡ message_outcome message.now) }
{
    let mut answer = Answer::silent(alloc, 2);
    answer.errors.extend_from_slice(message.as_bytes())?;
    Ok(answer)
}

// What is to be written of these lines, of which there has to be one.
fn bump_lines(
    alloc: Global,
    rule: &BumpRule,
    lines: &[VersionLine<'_>],
) -> Result<Answer, AllocError>
    ensures { IfOk result (λ a. outcome_of a ≡ only_outcome rule.now.to rule.now.parts.items (map version_line_of lines.now)) }
{
    match lines {
        [] => report_count(alloc, "pyver: no version on standard input\n"),
        [line] => {
            let mut answer = Answer::silent(alloc, 0);
            let bumped = bump(alloc, rule.to, rule.parts.as_slice(), &line.version)?;
            push_result(alloc, &mut answer, line.text, &bumped)?;
            Ok(answer)
        }
        [_, _, ..] => report_count(alloc, "pyver: more than one version on standard input\n"),
    }
}

// `bump` of what was read.
pub(crate) fn bump_only(
    alloc: Global,
    rule: &BumpRule,
    lines: VersionLines<'_>,
) -> Result<Answer, AllocError>
    ensures { IfOk result (λ a. BumpsOnly rule.now.to rule.now.parts.items (input_parts_of lines.entry) (outcome_of a)) }
{
    let versions = lines.versions;
    bump_lines(alloc, rule, versions.as_slice())
}
