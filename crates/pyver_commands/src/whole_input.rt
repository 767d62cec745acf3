//! Commands that read all sources before they write.
ghost use Rattle.std.specs.Prelude.{◌≡◌, ◌<◌, ◌^◌, IfErr, IfOk, List, None, map, string_bytes};
ghost use Rattle.std.specs.Option.{option_map};
ghost use Rattle.pyver_commands.specs.AnswerViews.{outcome_of};
ghost use Rattle.pyver_commands.specs.Sources.InputLines.{Source, filled_lines};
ghost use Rattle.pyver_commands.specs.Sources.RunFailures.{FailsWithoutOutcome};
ghost use Rattle.pyver_commands.specs.Sources.{IsOutcomeOfSources, source_names};
ghost use Rattle.pyver_commands.specs.Sources.SourceTexts.{size_of, source_of};
ghost use Rattle.pyver_commands.specs.Sources.SourceViews.{unopened_of};
ghost use Rattle.pyver_commands.specs.Sources.VersionLineViews.{IsOfLines, input_parts_of};
ghost use Rattle.pyver_commands.specs.WholeInputs.{IsOutcomeOfInput, IsOutcomeOfLines, IsOutcomeOfParts, question_lines};

use crate::answer::Answer;
use crate::bump_input::{BumpRule, bump_only};
use crate::newest::{NewestRule, find_newest};
use crate::sort::{SortOptions, sort_versions};
use crate::sources::files::Files;
use crate::sources::line_options::LineOptions;
use crate::sources::open_failure::{UnopenedSource, report_open_failure};
use crate::sources::source_texts::{SourceText, SourceTexts, read_sources};
use crate::sources::stream::RunFailure;
use crate::sources::version_line::VersionLines;
use std::alloc::{AllocError, Global};
use std::io::Read;

/// What is asked of all lines together.
#[derive(Drop)]
pub enum Question {
    /// Of lines of which no more are kept than may be the newest.
    Newest(NewestRule),
    /// Of lines that are all kept.
    Lines(LinesQuestion),
}

/// What is asked of lines that are all kept.
#[derive(Drop)]
pub enum LinesQuestion {
    Sort(SortOptions),
    Bump(BumpRule),
}

// How lines are read.
fn question_lines(question: &LinesQuestion) -> LineOptions
    ensures { result ≡ question_lines question.now }
{
    match question {
        LinesQuestion::Sort(options) => options.lines,
        LinesQuestion::Bump(_) => LineOptions::bare(),
    }
}

// What is to be written of these lines, of which no invalid one is an error.
fn answer_valid(
    alloc: Global,
    question: &LinesQuestion,
    lines: VersionLines<'_>,
) -> Result<Answer, AllocError>
    ensures { IfOk result (λ a. IsOutcomeOfParts question.now (input_parts_of lines.entry) (outcome_of a)) }
{
    match question {
        LinesQuestion::Sort(options) => sort_versions(alloc, *options, lines),
        LinesQuestion::Bump(rule) => bump_only(alloc, rule, lines),
    }
}

// What is to be written of these lines; only their messages where invalid lines are an error and there are some.
fn answer_lines(
    alloc: Global,
    question: &LinesQuestion,
    lines: VersionLines<'_>,
) -> Result<Answer, AllocError>
    ensures { IfOk result (λ a. (sources : List Source) → IsOfLines (question_lines question.now) (filled_lines sources) lines.entry
        → IsOutcomeOfLines question.now (record { sources = sources; unopened = None }) (outcome_of a)) }
{
    let status = lines.status(question_lines(question));
    if status > 0 {
        return Ok(Answer {
            output: Vec::new(alloc),
            errors: lines.errors,
            status,
        });
    }
    answer_valid(alloc, question, lines)
}

// What is to be written of these sources, after which a file may not be opened.
fn answer_texts(
    alloc: Global,
    question: &LinesQuestion,
    sources: &[SourceText<'_>],
    unopened: Option<UnopenedSource<'_>>,
) -> Result<Answer, AllocError>
    requires { size_of sources.now < 2 ^ 63 }
    ensures { IfOk result (λ a. IsOutcomeOfLines question.now
        (record { sources = map source_of sources.now; unopened = option_map unopened_of unopened.entry }) (outcome_of a)) }
{
    if let Some(file) = unopened {
        return report_open_failure(alloc, file.name.as_bytes(), file.failure);
    }
    let lines = VersionLines::read(alloc, question_lines(question), sources)?;
    answer_lines(alloc, question, lines)
}

// The answer to the question, once all sources are read.
fn answer_sources<F: Files, R: Read>(
    alloc: Global,
    question: &LinesQuestion,
    names: &[String],
    files: &mut F,
    input: &mut R,
) -> Result<Answer, RunFailure>
    ensures finished { IfOk result (λ a. IsOutcomeOfSources (F.known files.old) R.remaining (IsOutcomeOfLines question.now)
        (source_names (map string_bytes names.now)) input.old input.new (outcome_of a)) }
    ensures stopped { IfErr result (FailsWithoutOutcome (F.known files.old) R.remaining (source_names (map string_bytes names.now))
        input.old input.new) }
    ensures kept { F.known files.new ≡ F.known files.old }
{
    let mut state = SourceTexts {
        texts: Vec::new(alloc),
        read_count: 0,
    };
    let unopened = read_sources(alloc, names, &mut state, files, input)?;
    Ok(answer_texts(alloc, question, state.texts.as_slice(), unopened)?)
}

/// The answer to the question, once all sources are read.
pub fn answer_input<F: Files, R: Read>(
    alloc: Global,
    question: Question,
    names: &[String],
    files: &mut F,
    input: &mut R,
) -> Result<Answer, RunFailure>
    ensures finished { IfOk result (λ a. IsOutcomeOfSources (F.known files.old) R.remaining (IsOutcomeOfInput question)
        (source_names (map string_bytes names.now)) input.old input.new (outcome_of a)) }
    ensures stopped { IfErr result (FailsWithoutOutcome (F.known files.old) R.remaining (source_names (map string_bytes names.now))
        input.old input.new) }
    ensures kept { F.known files.new ≡ F.known files.old }
{
    match question {
        Question::Newest(rule) => find_newest(alloc, rule, names, files, input),
        Question::Lines(question) => answer_sources(alloc, &question, names, files, input),
    }
}
