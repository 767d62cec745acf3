//! Lines that are requirements or lists of specifiers, or should be.
ghost use Rattle.std.specs.Prelude.{◌≡◌, ◌∷◌, [], None, Some, IfOk, IfSome, false, option_map, string_bytes, is_none};
ghost use Rattle.std.specs.List.{list_any};
ghost use Rattle.pep440_pick.specs.RequirementGrammar.{RequirementRejection};
ghost use Rattle.pep440_pick.specs.Requirements.{IsPositioned, IsRequirementLifted, needed, requirement_rejection_of, requirement_rejection_text, requirement_text_of};
ghost use Rattle.pep440_rs.specs.ErrorTexts.{specifier_rejection_text};
ghost use Rattle.pep440_rs.specs.Lists.ListResults.{line_for, line_of, list_kind_of};
ghost use Rattle.pep440_rs.specs.Lists.ListErrors.{IsListLifted, list_rejection_of};
ghost use Rattle.pep440_rs.specs.Lists.ListErrorTexts.{list_rejection_text, list_text_of};
ghost use Rattle.pep440_rs.specs.Lists.ListGrammar.{PieceRejection};
ghost use Rattle.pyver_findings.specs.LineMeanings.{list_column, IsNone, IsPartsMeaning, IsPlain, before_url, requirement_meaning, rejection_meaning, under_marker, with_url, IsListMeaning, list_meaning};
ghost use Rattle.pyver_findings.specs.FileLines.{Conflicting, NoRequirement};
ghost use Rattle.pyver_findings.specs.Views.{file_line_of, is_memory_error, line_meaning_of, piece_text_of, reason_text_of};
ghost use Rattle.pyver_findings.specs.declared.finding.Conflict.TheVariants as of_conflict;
ghost use Rattle.pyver_requirements.specs.LineParts.{is_blank_byte, line_parts, pip_parts};
ghost use Rattle.pyver_requirements.specs.LineKinds.{line_parts_of};
ghost use Rattle.pyver_requirements.specs.MarkerReading.{marker};

use crate::column::{column, list_column, marker_column};
use crate::demand::Demand;
use crate::file_line::FileLine;
use crate::finding::{Conflict, Finding};
use crate::line_meaning::LineMeaning;
use crate::plain::plain_text;
use pep440_pick::{Requirement, RequirementError, RequirementParseError};
use pep440_rs::{SpecifiersErrorKind, VersionSpecifiers, VersionSpecifiersParseError};
use pep440_sets::find_version;
use pyver_requirements::{
    Cause, LineParts, MarkerError, parse_marker, split_pip_line, split_requirement,
};
use std::alloc::{AllocError, Global};

// The line is no requirement, for this reason.
pub(crate) fn reject(
    alloc: Global,
    line: &FileLine,
    reason: &str,
    column: usize,
) -> Result<LineMeaning, AllocError>
    ensures { IfOk result (λ x. line_meaning_of x ≡ IsNone (NoRequirement (file_line_of line.now) reason.now column)) }
{
    let reason = String::from_str(alloc, reason)?;
    Ok(LineMeaning::IsNone(Finding::NoRequirement(line.clone()?, reason, column)))
}

// The reason of a list, without what its message repeats.
fn list_reason(alloc: Global, error: &VersionSpecifiersParseError) -> Result<String, AllocError>
    ensures { IfOk result (λ s. IfSome (piece_text_of (list_kind_of error.now)) (λ t. string_bytes s ≡ t)) }
{
    match error.kind() {
        SpecifiersErrorKind::Piece { error, .. } => error.to_string(alloc),
        SpecifiersErrorKind::OutOfMemory => Err(AllocError),
    }
}

// The reason, unless an allocation failed.
fn print_reason(alloc: Global, error: &RequirementError) -> Result<String, AllocError>
    ensures text { IfOk result (λ s. IfSome (reason_text_of error.now) (λ t. string_bytes s ≡ t)) }
    ensures memory { IfOk result (λ _. is_memory_error error.now ≡ false) }
{
    match error {
        RequirementError::Specifiers(error) => list_reason(alloc, error),
        RequirementError::OutOfMemory => Err(AllocError),
        _ => error.to_string(alloc),
    }
}

fn reject_error(
    alloc: Global,
    line: &FileLine,
    parts: LineParts<'_>,
    error: &RequirementParseError,
) -> Result<LineMeaning, AllocError>
    requires lifted { IsRequirementLifted error.now.kind }
    requires message { IfSome (requirement_rejection_of error.now.kind) (λ f. requirement_text_of error.now.kind ≡ Some
        (requirement_rejection_text f)) }
    requires position { IsPositioned parts.requirement.now error.now }
    ensures { IfOk result (λ x. (f : RequirementRejection) × (requirement_rejection_of error.now.kind ≡ Some f) ×
        (line_meaning_of x ≡ rejection_meaning (file_line_of line.now) (line_parts_of parts.entry) f)) }
{
    let reason = print_reason(alloc, &error.kind)?;
    let column = column(parts.requirement, error);
    reject(alloc, line, reason.as_str(), column)
}

fn has_blank(url: &[u8]) -> bool
    ensures { result ≡ list_any is_blank_byte url.now }
{
    url.iter().any(|byte| *byte == b' ' || *byte == b'\t')
}

// What the line is, which has this URL.
fn interpret_before_url(
    alloc: Global,
    line: &FileLine,
    column: usize,
    requirement: &Requirement,
    url: &[u8],
) -> Result<LineMeaning, AllocError>
    ensures { IfOk result (λ x. line_meaning_of x ≡ before_url (file_line_of line.now) column (needed requirement.now) url.now) }
{
    if !requirement.specifiers.as_slice().is_empty() {
        return reject(alloc, line, "version specifiers stand before a URL", column);
    }
    if has_blank(url) {
        return reject(alloc, line, "';' is expected behind the URL", column);
    }
    Ok(LineMeaning::LeftOut(Cause::Url))
}

// What the line is under this marker, by what stands after `@`.
fn interpret_url(
    alloc: Global,
    line: &FileLine,
    parts: LineParts<'_>,
    marker: Option<Vec<u8>>,
    requirement: &Requirement,
) -> Result<LineMeaning, AllocError>
    ensures { IfOk result (λ x. line_meaning_of x ≡ with_url (file_line_of line.now) (line_parts_of parts.entry)
        (needed requirement.now) (option_map (λ m. m.items) marker) (line_parts_of parts.entry).url) }
{
    let column = parts.requirement.len();
    match parts.url {
        None => Ok(LineMeaning::Asks(Demand::new(alloc, line, marker, requirement)?)),
        Some([]) => reject(alloc, line, "no URL follows '@'", column),
        Some(url) => interpret_before_url(alloc, line, column, requirement, url),
    }
}

// What the line is, by the text of its marker.
fn interpret_marker(
    alloc: Global,
    line: &FileLine,
    parts: LineParts<'_>,
    text: &[u8],
    requirement: &Requirement,
) -> Result<LineMeaning, AllocError>
    ensures { IfOk result (λ x. line_meaning_of x ≡ under_marker (file_line_of line.now) (line_parts_of parts.entry)
        (needed requirement.now) (marker text.now)) }
{
    match parse_marker(alloc, text) {
        Ok(marker) => interpret_url(alloc, line, parts, Some(marker), requirement),
        Err(MarkerError::Invalid(fault, position)) => {
            let column = marker_column(parts, position);
            reject(alloc, line, fault.reason(), column)
        }
        Err(MarkerError::OutOfMemory) => Err(AllocError),
    }
}

// What the line is, by what stands after `;` and `@`.
fn interpret_parts(
    alloc: Global,
    line: &FileLine,
    parts: LineParts<'_>,
    requirement: &Requirement,
) -> Result<LineMeaning, AllocError>
    ensures { IfOk result (λ x. line_meaning_of x ≡ requirement_meaning (file_line_of line.now) (line_parts_of parts.entry)
        (needed requirement.now)) }
{
    match parts.marker {
        None => interpret_url(alloc, line, parts, None, requirement),
        Some(text) => interpret_marker(alloc, line, parts, text, requirement),
    }
}

// The same for a line whose part before `@` and `;` is this string.
fn parse_text(
    alloc: Global,
    line: &FileLine,
    parts: LineParts<'_>,
    text: &str,
) -> Result<LineMeaning, AllocError>
    requires same { text.now ≡ parts.requirement.now }
    requires plain { IsPlain parts.requirement.now }
    ensures { IfOk result (λ x. IsPartsMeaning (file_line_of line.now) (line_parts_of parts.entry) (line_meaning_of x)) }
{
    match Requirement::parse(alloc, text) {
        Ok(requirement) => interpret_parts(alloc, line, parts, &requirement),
        Err(error) => reject_error(alloc, line, parts, &error),
    }
}

fn parse_parts(
    alloc: Global,
    line: &FileLine,
    parts: LineParts<'_>,
) -> Result<LineMeaning, AllocError>
    ensures { IfOk result (λ x. IsPartsMeaning (file_line_of line.now) (line_parts_of parts.entry) (line_meaning_of x)) }
{
    match plain_text(parts.requirement) {
        Ok(text) => parse_text(alloc, line, parts, text),
        Err(column) => reject(alloc, line, "neither printable ASCII nor a tab", column),
    }
}

fn is_list_memory(kind: &SpecifiersErrorKind) -> bool
    requires { IsListLifted kind.now }
    ensures { result ≡ is_none (list_rejection_of kind.now) }
{
    matches!(kind, SpecifiersErrorKind::OutOfMemory)
}

// The string of the line is no list, for the reason of the error, unless an allocation failed.
fn reject_list(
    alloc: Global,
    line: &FileLine,
    text: &str,
    error: &VersionSpecifiersParseError,
) -> Result<LineMeaning, AllocError>
    requires lifted { IsListLifted (list_kind_of error.now) }
    requires line { line_of error.now ≡ line_for text.now (list_kind_of error.now) }
    requires message { IfSome (list_rejection_of (list_kind_of error.now)) (λ f. list_text_of (list_kind_of error.now)
        (line_of error.now) ≡ Some (list_rejection_text f text.now)) }
    ensures { IfOk result (λ x. (f : PieceRejection) × (list_rejection_of (list_kind_of error.now) ≡ Some f) ×
        (line_meaning_of x ≡ IsNone (NoRequirement (file_line_of line.now) (specifier_rejection_text f.error)
        (list_column text.now f)))) }
{
    if is_list_memory(error.kind()) {
        return Err(AllocError);
    }
    let reason = list_reason(alloc, error)?;
    let column = list_column(text.as_bytes(), error);
    reject(alloc, line, reason.as_str(), column)
}

// That no version satisfies the line.
fn reject_unsatisfiable(alloc: Global, line: &FileLine) -> Result<LineMeaning, AllocError>
    ensures { IfOk result (λ x. line_meaning_of x ≡ IsNone (Conflicting of_conflict.NoVersion (file_line_of line.now ∷ []) None)) }
{
    let mut lines = Vec::new(alloc);
    lines.push(line.clone()?)?;
    let finding = Finding::Conflicting(Conflict::NoVersion, lines, None);
    Ok(LineMeaning::IsNone(finding))
}

// What a list of specifiers is.
fn list_meaning(
    alloc: Global,
    line: &FileLine,
    list: &VersionSpecifiers,
) -> Result<LineMeaning, AllocError>
    ensures { IfOk result (λ x. line_meaning_of x ≡ list_meaning (file_line_of line.now) list.now) }
{
    match find_version(alloc, list.as_slice())? {
        Some(_) => Ok(LineMeaning::AsksNothing),
        None => reject_unsatisfiable(alloc, line),
    }
}

/// What the string of this line is, which is to be a list of specifiers: it asks for no package, no version satisfies it, or it is invalid
/// for the reason and at the column of its first invalid piece.
///
/// Allocates.
#[tactic(auto, using(crate::proofs::Rejecting::list_read))]
pub fn parse_specifiers(
    alloc: Global,
    line: &FileLine,
    text: &str,
) -> Result<LineMeaning, AllocError>
    ensures { IfOk result (λ x. IsListMeaning (file_line_of line.now) text.now (line_meaning_of x)) }
{
    match VersionSpecifiers::from_str(alloc, text) {
        Ok(list) => list_meaning(alloc, line, &list),
        Err(error) => reject_list(alloc, line, text, &error),
    }
}

// What the line of a requirements file is, which is to be a requirement.
pub(crate) fn parse_pip_line(alloc: Global, line: &FileLine) -> Result<LineMeaning, AllocError>
    ensures { IfOk result (λ x. IsPartsMeaning (file_line_of line.now) (pip_parts (file_line_of line.now).text) (line_meaning_of x)) }
{
    parse_parts(alloc, line, split_pip_line(line.text.as_slice()))
}

/// What the string of this line is, which is to be a requirement (PEP 508, "Grammar"): one, left out if it has a URL, or invalid for this reason
/// and at this column. The name, the extras and the list have tabs and printable ASCII alone: no other blank.
///
/// Allocates.
pub fn parse_requirement(alloc: Global, line: &FileLine) -> Result<LineMeaning, AllocError>
    ensures { IfOk result (λ x. IsPartsMeaning (file_line_of line.now) (line_parts (file_line_of line.now).text) (line_meaning_of x)) }
{
    parse_parts(alloc, line, split_requirement(line.text.as_slice()))
}
