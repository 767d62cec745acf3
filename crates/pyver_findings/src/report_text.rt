//! A report as lines for people.
ghost use Rattle.std.specs.Prelude.{◌≡◌, ◌+◌, ◌++◌, IfOk, count_by, map, option_map, take};
ghost use Rattle.std.specs.Fmt.{decimal};
ghost use Rattle.std.specs.List.{flat_map};
ghost use Rattle.pyver_findings.specs.ReportTexts.{caret_text, cause_text, column_position_text, conflict_text, count_text, counted, environment_line, finding_caret, finding_message, finding_position, finding_text, first_position_text, ignored_text, left_out_lines, left_out_others, left_out_text, left_out_texts, more_text, line_position_text, problems_text, quoted_line, quoted_lines, report_text, same_cause, summary_text};
ghost use Rattle.pyver_findings.specs.Views.{file_line_of, finding_of, report_of};

use crate::file_line::FileLine;
use crate::finding::{Conflict, Finding};
use crate::report::Report;
use cli_io::push_escaped;
use pyver_requirements::Cause;
use std::alloc::{AllocError, Global};

/// Appends the text.
///
/// Allocates.
pub fn push_text(bytes: &mut Vec<u8>, text: &str) -> Result<(), AllocError>
    ensures { IfOk result (λ _. bytes.new.items ≡ bytes.old.items ++ text.now) }
{
    bytes.extend_from_slice(text.as_bytes())
}

/// Appends the number.
///
/// Allocates.
pub fn push_number(alloc: Global, bytes: &mut Vec<u8>, number: u64) -> Result<(), AllocError>
    ensures { IfOk result (λ _. bytes.new.items ≡ bytes.old.items ++ decimal number) }
{
    push_text(bytes, number.to_string(alloc)?.as_str())
}

fn push_place(alloc: Global, bytes: &mut Vec<u8>, line: &FileLine) -> Result<(), AllocError>
    ensures { IfOk result (λ _. bytes.new.items ≡ bytes.old.items ++ line_position_text (file_line_of line.now)) }
{
    push_escaped(bytes, line.file.as_slice())?;
    push_text(bytes, ":")?;
    push_number(alloc, bytes, line.number)?;
    push_text(bytes, ": ")
}

// The number that counts from 1 where this counts from 0.
pub(crate) fn push_from_one(
    alloc: Global,
    bytes: &mut Vec<u8>,
    number: usize,
) -> Result<(), AllocError>
    ensures { IfOk result (λ _. bytes.new.items ≡ bytes.old.items ++ decimal (number + 1)) }
{
    push_text(bytes, (number as u128 + 1).to_string(alloc)?.as_str())
}

fn push_column_place(
    alloc: Global,
    bytes: &mut Vec<u8>,
    line: &FileLine,
    column: usize,
) -> Result<(), AllocError>
    ensures { IfOk result (λ _. bytes.new.items ≡ bytes.old.items ++ column_position_text (file_line_of line.now) column) }
{
    push_escaped(bytes, line.file.as_slice())?;
    push_text(bytes, ":")?;
    push_number(alloc, bytes, line.number)?;
    push_text(bytes, ":")?;
    push_from_one(alloc, bytes, column)?;
    push_text(bytes, ": ")
}

fn push_first_place(
    alloc: Global,
    bytes: &mut Vec<u8>,
    lines: &[FileLine],
) -> Result<(), AllocError>
    ensures { IfOk result (λ _. bytes.new.items ≡ bytes.old.items ++ first_position_text (map file_line_of lines.now)) }
{
    match lines {
        [] => Ok(()),
        [first, ..] => push_place(alloc, bytes, first),
    }
}

// A blank for each of the characters.
fn push_blanks(bytes: &mut Vec<u8>, characters: &[u8]) -> Result<(), AllocError>
    ensures { IfOk result (λ _. bytes.new.items ≡ bytes.old.items ++ map (λ _. 32) characters.now) }
{
    for _character in characters {
        bytes.push(b' ')?;
    }
    Ok(())
}

pub(crate) fn start_of(text: &[u8], column: usize) -> &[u8]
    ensures { result.now ≡ take column text.now }
{
    if column <= text.len() {
        &text[..column]
    } else {
        text
    }
}

// A caret under the column, on a line of its own.
fn push_caret(
    alloc: Global,
    bytes: &mut Vec<u8>,
    text: &[u8],
    column: usize,
) -> Result<(), AllocError>
    ensures { IfOk result (λ _. bytes.new.items ≡ bytes.old.items ++ caret_text text.now column) }
{
    let mut before = Vec::new(alloc);
    push_escaped(&mut before, start_of(text, column))?;
    push_text(bytes, "\n    ")?;
    push_blanks(bytes, before.as_slice())?;
    push_text(bytes, "^")
}

fn push_quoted_line(alloc: Global, bytes: &mut Vec<u8>, line: &FileLine) -> Result<(), AllocError>
    ensures { IfOk result (λ _. bytes.new.items ≡ bytes.old.items ++ quoted_line (file_line_of line.now)) }
{
    push_text(bytes, "\n    ")?;
    push_place(alloc, bytes, line)?;
    push_escaped(bytes, line.text.as_slice())
}

fn push_quoted_lines(
    alloc: Global,
    bytes: &mut Vec<u8>,
    lines: &[FileLine],
) -> Result<(), AllocError>
    ensures { IfOk result (λ _. bytes.new.items ≡ bytes.old.items ++ flat_map quoted_line (map file_line_of lines.now)) }
{
    for line in lines {
        push_quoted_line(alloc, bytes, line)?;
    }
    Ok(())
}

fn take_first_lines(lines: &[FileLine]) -> &[FileLine]
    ensures { result.now ≡ take 20 lines.now }
{
    if lines.len() > 20 {
        &lines[..20]
    } else {
        lines
    }
}

// How many lines more there are, if any.
fn push_more(alloc: Global, bytes: &mut Vec<u8>, count: usize) -> Result<(), AllocError>
    ensures { IfOk result (λ _. bytes.new.items ≡ bytes.old.items ++ more_text count) }
{
    if count == 0 {
        return Ok(());
    }
    push_text(bytes, "\n    and ")?;
    push_number(alloc, bytes, count as u64)?;
    push_text(bytes, " more")
}

// At most 20 lines, and how many more.
fn push_first_lines(
    alloc: Global,
    bytes: &mut Vec<u8>,
    lines: &[FileLine],
) -> Result<(), AllocError>
    ensures { IfOk result (λ _. bytes.new.items ≡ bytes.old.items ++ quoted_lines (map file_line_of lines.now)) }
{
    push_quoted_lines(alloc, bytes, take_first_lines(lines))?;
    push_more(alloc, bytes, lines.len().saturating_sub(20))
}

fn conflict_text(conflict: Conflict) -> &'static str
    ensures { result.now ≡ conflict_text conflict }
{
    match conflict {
        Conflict::NoVersion => "no version satisfies:",
        Conflict::PinOutside => "pinned to a version that another line excludes:",
        Conflict::TwoPins => "two versions are named:",
    }
}

// The environment on a line of its own, if there is one.
fn push_environment_line(
    bytes: &mut Vec<u8>,
    environment: &Option<Vec<u8>>,
) -> Result<(), AllocError>
    ensures { IfOk result (λ _. bytes.new.items ≡ bytes.old.items ++ environment_line (option_map (λ e. e.items) environment.now)) }
{
    match environment {
        Some(environment) => {
            push_text(bytes, "\n    where ")?;
            push_escaped(bytes, environment.as_slice())
        }
        None => Ok(()),
    }
}

// The reason and the line, or why lines cannot be satisfied together, these, and where.
pub(crate) fn push_message(
    alloc: Global,
    bytes: &mut Vec<u8>,
    finding: &Finding,
) -> Result<(), AllocError>
    ensures { IfOk result (λ _. bytes.new.items ≡ bytes.old.items ++ finding_message (finding_of finding.now)) }
{
    match finding {
        Finding::NoRequirement(line, reason, _) => {
            push_escaped(bytes, reason.as_bytes())?;
            push_text(bytes, "\n    ")?;
            push_escaped(bytes, line.text.as_slice())
        }
        Finding::Conflicting(conflict, lines, environment) => {
            push_text(bytes, conflict_text(*conflict))?;
            push_first_lines(alloc, bytes, lines.as_slice())?;
            push_environment_line(bytes, environment)
        }
    }
}

fn push_finding_position(
    alloc: Global,
    bytes: &mut Vec<u8>,
    finding: &Finding,
) -> Result<(), AllocError>
    ensures { IfOk result (λ _. bytes.new.items ≡ bytes.old.items ++ finding_position (finding_of finding.now)) }
{
    match finding {
        Finding::NoRequirement(line, _, column) => push_column_place(alloc, bytes, line, *column),
        Finding::Conflicting(_, lines, _) => push_first_place(alloc, bytes, lines.as_slice()),
    }
}

fn push_finding_caret(
    alloc: Global,
    bytes: &mut Vec<u8>,
    finding: &Finding,
) -> Result<(), AllocError>
    ensures { IfOk result (λ _. bytes.new.items ≡ bytes.old.items ++ finding_caret (finding_of finding.now)) }
{
    match finding {
        Finding::NoRequirement(line, _, column) => {
            push_caret(alloc, bytes, line.text.as_slice(), *column)
        }
        Finding::Conflicting(_, _, _) => Ok(()),
    }
}

fn push_finding(alloc: Global, bytes: &mut Vec<u8>, finding: &Finding) -> Result<(), AllocError>
    ensures { IfOk result (λ _. bytes.new.items ≡ bytes.old.items ++ finding_text (finding_of finding.now)) }
{
    push_finding_position(alloc, bytes, finding)?;
    push_message(alloc, bytes, finding)?;
    push_finding_caret(alloc, bytes, finding)?;
    push_text(bytes, "\n")
}

fn push_findings(alloc: Global, bytes: &mut Vec<u8>, findings: &[Finding]) -> Result<(), AllocError>
    ensures { IfOk result (λ _. bytes.new.items ≡ bytes.old.items ++ flat_map finding_text (map finding_of findings.now)) }
{
    for finding in findings {
        push_finding(alloc, bytes, finding)?;
    }
    Ok(())
}

fn same_cause(one: Cause, other: Cause) -> bool
    ensures { result ≡ same_cause one other }
{
    matches!(
        (one, other),
        (Cause::Editable, Cause::Editable)
            | (Cause::PipOption, Cause::PipOption)
            | (Cause::Variable, Cause::Variable)
            | (Cause::Location, Cause::Location)
            | (Cause::Url, Cause::Url)
            | (Cause::OtherSyntax, Cause::OtherSyntax)
            | (Cause::OtherTable, Cause::OtherTable)
            | (Cause::Undecided, Cause::Undecided)
    )
}

fn cause_text(cause: Cause) -> &'static str
    ensures { result.now ≡ cause_text cause }
{
    match cause {
        Cause::Editable => "pyver: editable requirements left out: ",
        Cause::PipOption => "pyver: options of pip left out: ",
        Cause::Variable => "pyver: lines with a variable left out: ",
        Cause::Location => "pyver: paths, archives and URLs left out: ",
        Cause::Url => "pyver: requirements and files by URL left out: ",
        Cause::OtherSyntax => "pyver: requirements in another syntax left out: ",
        Cause::OtherTable => "pyver: tables of requirements left out: ",
        Cause::Undecided => "pyver: sets of markers not decided: ",
    }
}

fn count_cause(causes: &[Cause], cause: Cause) -> usize
    ensures { result ≡ count_by (same_cause cause) causes.now }
{
    causes
        .iter()
        .filter(|other| same_cause(cause, **other))
        .count()
}

fn push_count(
    alloc: Global,
    bytes: &mut Vec<u8>,
    start: &str,
    count: usize,
) -> Result<(), AllocError>
    ensures { IfOk result (λ _. bytes.new.items ≡ bytes.old.items ++ count_text start.now count) }
{
    push_text(bytes, start)?;
    push_number(alloc, bytes, count as u64)?;
    push_text(bytes, "\n")
}

fn push_left_out(
    alloc: Global,
    bytes: &mut Vec<u8>,
    causes: &[Cause],
    cause: Cause,
) -> Result<(), AllocError>
    ensures { IfOk result (λ _. bytes.new.items ≡ bytes.old.items ++ left_out_text causes.now cause) }
{
    let count = count_cause(causes, cause);
    if count == 0 {
        return Ok(());
    }
    push_count(alloc, bytes, cause_text(cause), count)
}

fn push_lines_left_out(
    alloc: Global,
    bytes: &mut Vec<u8>,
    causes: &[Cause],
) -> Result<(), AllocError>
    ensures { IfOk result (λ _. bytes.new.items ≡ bytes.old.items ++ left_out_lines causes.now) }
{
    push_left_out(alloc, bytes, causes, Cause::Editable)?;
    push_left_out(alloc, bytes, causes, Cause::PipOption)?;
    push_left_out(alloc, bytes, causes, Cause::Variable)?;
    push_left_out(alloc, bytes, causes, Cause::Location)?;
    push_left_out(alloc, bytes, causes, Cause::Url)?;
    push_left_out(alloc, bytes, causes, Cause::OtherSyntax)
}

// How many tables and sets of markers were left out.
fn push_others_left_out(
    alloc: Global,
    bytes: &mut Vec<u8>,
    causes: &[Cause],
) -> Result<(), AllocError>
    ensures { IfOk result (λ _. bytes.new.items ≡ bytes.old.items ++ left_out_others causes.now) }
{
    push_left_out(alloc, bytes, causes, Cause::OtherTable)?;
    push_left_out(alloc, bytes, causes, Cause::Undecided)
}

fn push_all_left_out(alloc: Global, bytes: &mut Vec<u8>, causes: &[Cause]) -> Result<(), AllocError>
    ensures { IfOk result (λ _. bytes.new.items ≡ bytes.old.items ++ left_out_texts causes.now) }
{
    push_lines_left_out(alloc, bytes, causes)?;
    push_others_left_out(alloc, bytes, causes)
}

// How many findings comments ignore, if any.
fn push_ignore_count(alloc: Global, bytes: &mut Vec<u8>, count: usize) -> Result<(), AllocError>
    ensures { IfOk result (λ _. bytes.new.items ≡ bytes.old.items ++ ignored_text count) }
{
    if count == 0 {
        return Ok(());
    }
    push_count(alloc, bytes, "pyver: findings ignored: ", count)
}

fn push_number_of(
    alloc: Global,
    bytes: &mut Vec<u8>,
    count: usize,
    noun: &str,
) -> Result<(), AllocError>
    ensures { IfOk result (λ _. bytes.new.items ≡ bytes.old.items ++ counted count noun.now) }
{
    push_number(alloc, bytes, count as u64)?;
    push_text(bytes, " ")?;
    push_text(bytes, noun)?;
    push_text(bytes, if count == 1 { "" } else { "s" })
}

fn push_problems(
    alloc: Global,
    bytes: &mut Vec<u8>,
    found: usize,
    files: usize,
) -> Result<(), AllocError>
    ensures { IfOk result (λ _. bytes.new.items ≡ bytes.old.items ++ problems_text found files) }
{
    push_text(bytes, "pyver: ")?;
    push_number_of(alloc, bytes, found, "problem")?;
    push_text(bytes, " in ")?;
    push_number_of(alloc, bytes, files, "file")?;
    push_text(bytes, "\n")
}

impl Report {
    /// The findings as lines: for each its file, its line, the column from 1 and the reason, and then the line with a caret under the position at
    /// which it is no requirement, or the lines that cannot be satisfied together. What is quoted is escaped: a byte that is not
    /// printable ASCII is written as `\x` and two digits.
    ///
    /// Allocates.
    pub fn to_text(&self, alloc: Global) -> Result<Vec<u8>, AllocError>
        ensures { IfOk result (λ bytes. bytes.items ≡ report_text (report_of self.now)) }
    {
        let mut bytes = Vec::new(alloc);
        push_findings(alloc, &mut bytes, self.findings.as_slice())?;
        Ok(bytes)
    }

    /// How many lines were read, how many were left out, by cause, how many findings comments ignore, and how many there are else in how
    /// many files, each on a line.
    ///
    /// Allocates.
    pub fn summarize(&self, alloc: Global) -> Result<Vec<u8>, AllocError>
        ensures { IfOk result (λ bytes. bytes.items ≡ summary_text (report_of self.now)) }
    {
        let mut bytes = Vec::new(alloc);
        push_count(alloc, &mut bytes, "pyver: lines read: ", self.lines)?;
        push_all_left_out(alloc, &mut bytes, self.left_out.as_slice())?;
        push_ignore_count(alloc, &mut bytes, self.ignored.len())?;
        push_problems(alloc, &mut bytes, self.findings.len(), self.files)?;
        Ok(bytes)
    }
}
