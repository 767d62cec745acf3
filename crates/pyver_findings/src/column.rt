//! The column at which a requirement, a list or a marker is invalid.
ghost use Rattle.std.specs.Prelude.{◌≡◌, ◌≤◌, ◌==◌, bytes_eq, drop, length, IfSome};
ghost use Rattle.std.specs.List.{list_any};
ghost use Rattle.pep440_pick.specs.Requirements.{IsPositioned, IsRequirementLifted, requirement_rejection_of};
ghost use Rattle.pyver_findings.specs.LineMeanings.{behind_operator, column, list_column, marker_column, operators, rest_in_list};
ghost use Rattle.pyver_requirements.specs.LineKinds.{line_parts_of};
ghost use Rattle.pep440_rs.specs.Lists.ListResults.{list_kind_of};
ghost use Rattle.pep440_rs.specs.Lists.ListErrors.{list_rejection_of};

use pep440_pick::{RequirementError, RequirementParseError};
use pep440_rs::{SpecifiersErrorKind, VersionSpecifiersParseError};
use pyver_requirements::{LineParts, count_operator_bytes};

fn skip_bytes(text: &[u8], count: usize) -> &[u8]
    ensures { result.now ≡ drop count text.now }
{
    if count <= text.len() {
        &text[count..]
    } else {
        &[]
    }
}

fn is_operator(text: &[u8]) -> bool
    ensures { result ≡ list_any (bytes_eq text.now) operators }
{
    text == "~=".as_bytes()
        || text == "==".as_bytes()
        || text == "!=".as_bytes()
        || text == "<=".as_bytes()
        || text == ">=".as_bytes()
        || text == "<".as_bytes()
        || text == ">".as_bytes()
        || text == "===".as_bytes()
}

// What stands after the operator, if the text begins with one.
fn skip_operator(text: &[u8]) -> &[u8]
    ensures { result.now ≡ behind_operator text.now }
{
    let count = count_operator_bytes(text);
    if is_operator(&text[..count]) {
        text[count..].trim_ascii_start()
    } else {
        text
    }
}

fn piece_start(error: &VersionSpecifiersParseError) -> usize
    ensures { IfSome (list_rejection_of (list_kind_of error.now)) (λ f. result ≡ f.start) }
{
    match error.kind() {
        SpecifiersErrorKind::Piece { start, .. } => *start,
        SpecifiersErrorKind::OutOfMemory => 0,
    }
}

// What stands from the position on at which the list is invalid.
fn skip_to_fault<'a>(text: &'a [u8], error: &VersionSpecifiersParseError) -> &'a [u8]
    ensures { IfSome (list_rejection_of (list_kind_of error.now)) (λ f. result.now ≡ rest_in_list text.now f) }
{
    skip_operator(skip_bytes(text, piece_start(error)).trim_ascii_start())
}

// The column of that position, in bytes from 0.
pub(crate) fn list_column(text: &[u8], error: &VersionSpecifiersParseError) -> usize
    ensures inside { result ≤ length text.now }
    ensures value { IfSome (list_rejection_of (list_kind_of error.now)) (λ f. result ≡ list_column text.now f) }
{
    text.len().saturating_sub(skip_to_fault(text, error).len())
}

// The column at which the requirement is invalid, in bytes from 0.
pub(crate) fn column(text: &[u8], error: &RequirementParseError) -> usize
    requires lifted { IsRequirementLifted error.now.kind }
    requires position { IsPositioned text.now error.now }
    ensures { IfSome (requirement_rejection_of error.now.kind) (λ f. result ≡ column text.now f) }
{
    match &error.kind {
        RequirementError::Specifiers(list) => {
            error.position + list_column(&text[error.position..], list)
        }
        _ => error.position,
    }
}

// The column of this position in the marker, in bytes from 0.
pub(crate) fn marker_column(parts: LineParts<'_>, position: usize) -> usize
    ensures { result ≡ marker_column (line_parts_of parts.entry) position }
{
    let marker = parts.marker.unwrap_or(&[]);
    parts
        .text
        .len()
        .saturating_sub(marker.len().saturating_sub(position))
}
