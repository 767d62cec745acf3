//! Files of constraints, and what is wrong with their lines.
ghost use Rattle.std.specs.Prelude.{◌≡◌, ◌≤◌, ◌==◌, ◌∷◌, ◌++◌, [], IfOk, bytes_eq, length, map, not, option_map};
ghost use Rattle.std.specs.Char.{is_ascii_whitespace};
ghost use Rattle.std.specs.List.{filter, flat_map, list_any, prefix_len};
ghost use Rattle.pyver_findings.specs.FileLines.{NoRequirement, all_lines};
ghost use Rattle.pyver_findings.specs.NamedFiles.{constraints_files, constraints_names, constraints_path, denoted_names};
ghost use Rattle.pyver_findings.specs.LineMeanings.{constraint_faults, extras_faults, has_extras, kind_faults, opens_extras};
ghost use Rattle.pyver_findings.specs.Reports.{constraint_findings};
ghost use Rattle.pyver_findings.specs.Views.{AddsFindings, file_line_of, file_of, finding_of};
ghost use Rattle.pep440_rs.specs.Blanks.{opens};
ghost use Rattle.pep440_version.specs.Reading.{lead};
ghost use Rattle.pyver_requirements.specs.LineKinds.{Requirement, line_kind, line_kind_of};

use crate::file_line::{FileLine, SourceFile, push_file};
use crate::finding::Finding;
use crate::line_meaning::has_scheme;
use crate::named_files::path_from;
use pyver_requirements::{LineKind, classify, has_variable, split_pip_line};
use std::alloc::{AllocError, Global};

// ---- which files they are

fn constraints_path(kind: LineKind<'_>) -> Option<&[u8]>
    ensures { option_map (λ p. p.now) result ≡ constraints_path (line_kind_of kind.entry) }
{
    match kind {
        LineKind::ConstraintsFile(path) => Some(path),
        LineKind::RequirementsFile(_) => None,
        LineKind::Invalid(_, _) => None,
        LineKind::Editable => None,
        LineKind::PipOption => None,
        LineKind::Variable => None,
        LineKind::Location => None,
        LineKind::Requirement => None,
    }
}

fn is_option(text: &[u8]) -> bool
    ensures { result ≡ opens 45 text.now }
{
    match text {
        [] => false,
        [first, ..] => *first == b'-',
    }
}

// The path of the file of constraints that the line names. Most lines are no options, and need not be classified for it.
#[tactic(auto, using(crate::proofs::StringReadings::no_constraints))]
fn constraints_path_in(text: &[u8]) -> Option<&[u8]>
    ensures { option_map (λ p. p.now) result ≡ constraints_path (line_kind text.now) }
{
    if is_option(text) {
        constraints_path(classify(text))
    } else {
        None
    }
}

fn push_denoted_name(
    alloc: Global,
    names: &mut Vec<Vec<u8>>,
    file: &[u8],
    path: Option<&[u8]>,
) -> Result<(), AllocError>
    ensures { IfOk result (λ _. map (λ n. n.items) names.new.items ≡ map (λ n. n.items) names.old.items
        ++ denoted_names file.now (option_map (λ p. p.now) path.entry)) }
{
    let Some(path) = path else {
        return Ok(());
    };
    if has_variable(path) || has_scheme(path) {
        return Ok(());
    }
    names.push(path_from(alloc, file, path)?)?;
    Ok(())
}

// The names of the files that these lines name after `-c`.
pub(crate) fn constraints_names(
    alloc: Global,
    lines: &[FileLine],
) -> Result<Vec<Vec<u8>>, AllocError>
    ensures { IfOk result (λ names. map (λ n. n.items) names.items ≡ flat_map constraints_names (map file_line_of lines.now)) }
{
    let mut names = Vec::new(alloc);
    for line in lines {
        let path = constraints_path_in(line.text.as_slice());
        push_denoted_name(alloc, &mut names, line.file.as_slice(), path)?;
    }
    Ok(names)
}

pub(crate) fn is_one_of(names: &[Vec<u8>], name: &[u8]) -> bool
    ensures { result ≡ list_any (bytes_eq name.now) (map (λ n. n.items) names.now) }
{
    for other in names {
        if name == other.as_slice() {
            return true;
        }
    }
    false
}

// The lines of the files with one of these names.
fn lines_of_named_files(
    alloc: Global,
    files: &[SourceFile],
    names: &[Vec<u8>],
) -> Result<Vec<FileLine>, AllocError>
    ensures { IfOk result (λ lines. map file_line_of lines.items
        ≡ all_lines (filter (λ f. list_any (bytes_eq f.name) (map (λ n. n.items) names.now)) (map file_of files.now))) }
{
    let mut lines = Vec::new(alloc);
    for file in files {
        if is_one_of(names, file.name.as_slice()) {
            push_file(alloc, &mut lines, file)?;
        }
    }
    Ok(lines)
}

// ---- what is wrong with their lines

fn count_before_bracket(text: &[u8]) -> usize
    ensures count { result ≡ prefix_len (λ b. not (b == 91)) text.now }
    ensures inside { result ≤ length text.now }
{
    text.iter().take_while(|byte| **byte != b'[').count()
}

fn count_inside(text: &[u8]) -> usize
    ensures count { result ≡ prefix_len (λ x. not (x == 93)) text.now }
    ensures inside { result ≤ length text.now }
{
    text.iter().take_while(|byte| **byte != b']').count()
}

// What stands before the closing bracket.
fn before_bracket(text: &[u8]) -> &[u8]
    ensures { result.now ≡ lead (λ x. not (x == 93)) text.now }
{
    &text[..count_inside(text)]
}

fn is_filled(text: &[u8]) -> bool
    ensures { result ≡ list_any (λ x. not (is_ascii_whitespace x)) text.now }
{
    text.iter().any(|byte| !byte.is_ascii_whitespace())
}

// Something but blanks stands after this bracket, before the closing one.
fn opens_extras(text: &[u8]) -> bool
    ensures { result ≡ opens_extras text.now }
{
    match text {
        [] => false,
        [_, inside @ ..] => is_filled(before_bracket(inside)),
    }
}

// Extras stand after the name.
fn has_extras(requirement: &[u8]) -> bool
    ensures { result ≡ has_extras requirement.now }
{
    opens_extras(&requirement[count_before_bracket(requirement)..])
}

pub(crate) fn push_fault(
    alloc: Global,
    findings: &mut Vec<Finding>,
    line: &FileLine,
    reason: &str,
    column: usize,
) -> Result<(), AllocError>
    ensures { IfOk result (λ _. AddsFindings findings.old.items findings.new.items (NoRequirement (file_line_of line.now) reason.now column ∷ [])) }
{
    let reason = String::from_str(alloc, reason)?;
    findings.push(Finding::NoRequirement(line.clone()?, reason, column))?;
    Ok(())
}

fn push_extras_fault(
    alloc: Global,
    findings: &mut Vec<Finding>,
    line: &FileLine,
    requirement: &[u8],
) -> Result<(), AllocError>
    ensures { IfOk result (λ _. AddsFindings findings.old.items findings.new.items
        (extras_faults (file_line_of line.now) requirement.now)) }
{
    if !has_extras(requirement) {
        return Ok(());
    }
    let column = count_before_bracket(requirement);
    push_fault(
        alloc,
        findings,
        line,
        "constraints cannot have extras",
        column,
    )
}

// What is wrong with the line, which is to be a requirement, as a constraint.
fn push_requirement_fault(
    alloc: Global,
    findings: &mut Vec<Finding>,
    line: &FileLine,
) -> Result<(), AllocError>
    ensures { IfOk result (λ _. AddsFindings findings.old.items findings.new.items (kind_faults (file_line_of line.now) Requirement)) }
{
    let parts = split_pip_line(line.text.as_slice());
    push_extras_fault(alloc, findings, line, parts.requirement)
}

// What is wrong with the line, which is of this kind, as a constraint.
fn push_kind_fault(
    alloc: Global,
    findings: &mut Vec<Finding>,
    line: &FileLine,
    kind: LineKind<'_>,
) -> Result<(), AllocError>
    ensures { IfOk result (λ _. AddsFindings findings.old.items findings.new.items
        (kind_faults (file_line_of line.now) (line_kind_of kind.entry))) }
{
    match kind {
        LineKind::Editable => push_fault(
            alloc,
            findings,
            line,
            "constraints cannot be editable",
            0,
        ),
        LineKind::Requirement => push_requirement_fault(alloc, findings, line),
        LineKind::ConstraintsFile(_) => Ok(()),
        LineKind::RequirementsFile(_) => Ok(()),
        LineKind::Invalid(_, _) => Ok(()),
        LineKind::PipOption => Ok(()),
        LineKind::Variable => Ok(()),
        LineKind::Location => Ok(()),
    }
}

fn push_faults_of_lines(
    alloc: Global,
    findings: &mut Vec<Finding>,
    lines: &[FileLine],
) -> Result<(), AllocError>
    ensures { IfOk result (λ _. AddsFindings findings.old.items findings.new.items
        (flat_map constraint_faults (map file_line_of lines.now))) }
{
    for line in lines {
        push_kind_fault(alloc, findings, line, classify(line.text.as_slice()))?;
    }
    Ok(())
}

// What cannot be a constraint in those of the files, with these lines, that one of the lines names after `-c`.
pub(crate) fn push_constraint_findings(
    alloc: Global,
    findings: &mut Vec<Finding>,
    files: &[SourceFile],
    lines: &[FileLine],
) -> Result<(), AllocError>
    requires { map file_line_of lines.now ≡ all_lines (map file_of files.now) }
    ensures { IfOk result (λ _. AddsFindings findings.old.items findings.new.items
        (constraint_findings (constraints_files (map file_of files.now)))) }
{
    let names = constraints_names(alloc, lines)?;
    let lines = lines_of_named_files(alloc, files, names.as_slice())?;
    push_faults_of_lines(alloc, findings, lines.as_slice())
}
