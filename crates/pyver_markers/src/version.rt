//! Comparisons of versions.
ghost use Rattle.std.specs.Prelude.{◌≡◌, ◌++◌, IfOk, IfSome, None, false, is_none, option_map, true};
ghost use Rattle.std.specs.Char.{is_ascii};
ghost use Rattle.std.specs.List.{list_all, list_any};
ghost use Rattle.pep440_rs.specs.Blanks.{trim_blanks};
ghost use Rattle.pep440_rs.specs.Denoted.{IsDenotable};
ghost use Rattle.pep440_rs.specs.Errors.{IsLifted, specifier_rejection_of};
ghost use Rattle.pyver_markers.specs.Conditions.{ComparesAs, written_specifier};
ghost use Rattle.pyver_markers.specs.MarkerComparisons.{compare_spellings, compare_versions, compare_with, compare_written, ends_operand, matches_specifier, ascii_specifier, spelling_in, ascii_version};
ghost use Rattle.pyver_requirements.specs.MarkerTerms.{marker_operator_text};

use crate::text::compare_strings;
use pep440_rs::{ParseErrorKind, Version, VersionSpecifier};
use pyver_requirements::MarkerOperator;
use std::alloc::{AllocError, Global};
use std::str;

fn is_memory(kind: &ParseErrorKind) -> bool
    requires { IsLifted kind.now }
    ensures { result ≡ is_none (specifier_rejection_of kind.now) }
{
    matches!(kind, ParseErrorKind::OutOfMemory)
}

fn is_ascii(text: &[u8]) -> bool
    ensures { result ≡ list_all is_ascii text.now }
{
    text.iter().all(|byte| byte.is_ascii())
}

// The string, if it is ASCII.
fn ascii_text(text: &[u8]) -> Option<&str>
    ensures ascii { IfSome result (λ found. (found.now ≡ text.now) × (list_all is_ascii text.now ≡ true)) }
    ensures other { result ≡ None → list_all is_ascii text.now ≡ false }
{
    if !is_ascii(text) {
        return None;
    }
    match str::from_utf8(text) {
        Ok(text) => Some(text),
        // ASCII is UTF-8
        Err(_) => None,
    }
}

// The specifier that the ASCII string is.
pub(crate) fn ascii_specifier(
    alloc: Global,
    text: &[u8],
) -> Result<Option<VersionSpecifier>, AllocError>
    ensures value { IfOk result (λ found. found ≡ ascii_specifier text.now) }
    ensures denotable { IfOk result (λ found. IfSome found IsDenotable) }
{
    let Some(text) = ascii_text(text) else {
        return Ok(None);
    };
    match VersionSpecifier::from_str(alloc, text) {
        Ok(specifier) => Ok(Some(specifier)),
        Err(error) => {
            if is_memory(error.kind()) {
                return Err(AllocError);
            }
            Ok(None)
        }
    }
}

// The version that the ASCII string is.
pub(crate) fn ascii_version(alloc: Global, text: &[u8]) -> Result<Option<Version>, AllocError>
    ensures { IfOk result (λ found. found ≡ ascii_version text.now) }
{
    let Some(text) = ascii_text(text) else {
        return Ok(None);
    };
    match Version::from_str(alloc, text) {
        Ok(version) => Ok(Some(version)),
        Err(error) => {
            if error.is_out_of_memory() {
                return Err(AllocError);
            }
            Ok(None)
        }
    }
}

// Whether the version matches the specifier; what is no version matches none.
fn matches_specifier(
    alloc: Global,
    specifier: &VersionSpecifier,
    version: Option<Version>,
) -> Result<bool, AllocError>
    ensures { IfOk result (λ b. b ≡ matches_specifier specifier.now version) }
{
    match version {
        None => Ok(false),
        Some(version) => specifier.matches_literally(alloc, &version),
    }
}

fn ends_operand(byte: u8) -> bool
    ensures { result ≡ ends_operand byte }
{
    byte.is_ascii_whitespace() || byte == b';' || byte == b')'
}

fn has_operand_end(spelling: &[u8]) -> bool
    ensures { result ≡ list_any ends_operand spelling.now }
{
    spelling.iter().any(|byte| ends_operand(*byte))
}

// By `===`.
fn compare_spellings(
    left: &[u8],
    operator: MarkerOperator,
    right: &[u8],
    spelling: &[u8],
) -> Option<bool>
    ensures { result ≡ compare_spellings left.now operator right.now spelling.now }
{
    if has_operand_end(spelling) {
        compare_strings(left, operator, right)
    } else {
        Some(left.eq_ignore_ascii_case(spelling))
    }
}

fn trim_blanks(text: &[u8]) -> &[u8]
    ensures { result.now ≡ trim_blanks text.now }
{
    text.trim_ascii()
}

// What stands behind `===`, if the string begins with it.
fn find_spelling(written: &[u8]) -> Option<&[u8]>
    ensures { option_map (λ spelling. spelling.now) result ≡ spelling_in written.now }
{
    match written {
        [b'=', b'=', b'=', spelling @ ..] => Some(trim_blanks(spelling)),
        _ => None,
    }
}

// Written is the operator and the string on the right.
fn compare_written(
    alloc: Global,
    left: &[u8],
    operator: MarkerOperator,
    right: &[u8],
    written: &[u8],
) -> Result<Option<bool>, AllocError>
    ensures { IfOk result (λ v. v ≡ compare_written left.now operator right.now written.now) }
{
    if let Some(spelling) = find_spelling(written) {
        return Ok(compare_spellings(left, operator, right, spelling));
    }
    match ascii_specifier(alloc, written)? {
        None => Ok(compare_strings(left, operator, right)),
        Some(specifier) => {
            let version = ascii_version(alloc, left)?;
            Ok(Some(matches_specifier(alloc, &specifier, version)?))
        }
    }
}

// The operator and the string on its right.
pub(crate) fn write_specifier(
    alloc: Global,
    operator: MarkerOperator,
    right: &[u8],
) -> Result<Vec<u8>, AllocError>
    ensures { IfOk result (λ text. text.items ≡ marker_operator_text operator ++ right.now) }
{
    let symbol = operator.text().as_bytes();
    let mut text = Vec::new(alloc);
    text.extend_from_slice(symbol)?;
    text.extend_from_slice(right)?;
    Ok(text)
}

// Of two strings the second may be a version.
pub(crate) fn compare_versions(
    alloc: Global,
    left: &[u8],
    operator: MarkerOperator,
    right: &[u8],
) -> Result<Option<bool>, AllocError>
    ensures { IfOk result (λ v. v ≡ compare_versions left.now operator right.now) }
{
    let written = write_specifier(alloc, operator, right)?;
    compare_written(alloc, left, operator, right, written.as_slice())
}

// The specifier with which strings compare as versions, if the operator and the string on the right are one.
pub(crate) fn find_specifier(
    alloc: Global,
    operator: MarkerOperator,
    right: &[u8],
) -> Result<Option<VersionSpecifier>, AllocError>
    ensures value { IfOk result (λ found. found ≡ written_specifier (marker_operator_text operator ++ right.now)) }
    ensures denotable { IfOk result (λ found. IfSome found IsDenotable) }
    ensures compares { IfOk result (λ found. IfSome found (ComparesAs operator right.now)) }
{
    let written = write_specifier(alloc, operator, right)?;
    if find_spelling(written.as_slice()).is_some() {
        return Ok(None);
    }
    let specifier = ascii_specifier(alloc, written.as_slice())?;
    Ok(specifier)
}
