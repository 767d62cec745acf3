//! Versions as JSON strings, and what the JSON forms of specifiers and lists share.
ghost use Rattle.std.specs.Prelude.{◌≡◌, ◌↔◌, ℕ, List, codes, string_bytes, IfOk, IfErr, IfSome, IsErrOf, IsSomeAnd, Ok, Err, Some, None, MatchOption, MatchResult};
ghost use Rattle.pep440_rs.specs.Json.{text_of, IsString, IfParserError, ReturnsFromJson};
ghost use Rattle.pep440_rs.specs.Errors.{specifier_rejection_of, parse_kind_of, IsLifted};
ghost use Rattle.pep440_rs.specs.Lists.ListResults.{list_kind_of};
ghost use Rattle.pep440_rs.specs.Lists.ListErrors.{IsListLifted, list_rejection_of};
ghost use Rattle.pep440_rs.specs.Lists.{joined};
ghost use Rattle.pep440_rs.specs.declared.json.error.JsonError.TheVariants.{NotAString, Text, OutOfMemory};
ghost use Rattle.pep440_version.specs.ErrorTexts.{error_text, rejection_text};
ghost use Rattle.pep440_version.specs.Errors.{kind_of, rejection_of};
ghost use Rattle.pep440_version.specs.Grammar.{Derives};
ghost use Rattle.pep440_version.specs.Print.{print};
ghost use Rattle.pep440_version.specs.Record.{Record, IsRecord};
ghost use Rattle.pep440_version.specs.Rejections.{Rejection, Rejects};
ghost use Rattle.pep440_version.specs.RoundTrip.{RoundTrips};

pub(crate) mod error;

use crate::json::error::JsonError;
use crate::list::error::{SpecifiersErrorKind, VersionSpecifiersParseError};
use crate::specifier::VersionSpecifier;
use crate::specifier::error::{ParseErrorKind, VersionSpecifierParseError};
use pep440_version::{ErrorKind, Version, VersionParseError};
use serde_json::Value;
use std::alloc::{AllocError, Global};

// The bytes of a string value.
pub(crate) fn expect_string<E>(value: &Value) -> Result<&str, JsonError<E>>
    ensures { MatchResult result (λ t. IsString value.now t.now) (λ e. (e ≡ NotAString) × (text_of value.now ≡ None)) }
{
    value.as_str().ok_or_else(|| JsonError::NotAString)
}

// The error of the string, or out of memory.
fn from_version_error(error: VersionParseError) -> JsonError<VersionParseError>
    ensures { MatchOption (rejection_of (kind_of error)) (result ≡ OutOfMemory) (λ _. result ≡ Text error) }
{
    match error.kind() {
        ErrorKind::OutOfMemory => JsonError::OutOfMemory,
        _ => JsonError::Text(error),
    }
}

// The error of the string, or out of memory.
pub(crate) fn from_specifier_error(
    error: VersionSpecifierParseError,
) -> JsonError<VersionSpecifierParseError>
    requires { IsLifted (parse_kind_of error) }
    ensures { MatchOption (specifier_rejection_of (parse_kind_of error)) (result ≡ OutOfMemory) (λ _. result ≡ Text error) }
{
    match error.kind() {
        ParseErrorKind::OutOfMemory => JsonError::OutOfMemory,
        _ => JsonError::Text(error),
    }
}

// The error of the string, or out of memory.
pub(crate) fn from_list_error(
    error: VersionSpecifiersParseError,
) -> JsonError<VersionSpecifiersParseError>
    requires { IsListLifted (list_kind_of error) }
    ensures { MatchOption (list_rejection_of (list_kind_of error)) (result ≡ OutOfMemory) (λ _. result ≡ Text error) }
{
    match error.kind() {
        SpecifiersErrorKind::OutOfMemory => JsonError::OutOfMemory,
        SpecifiersErrorKind::Piece { .. } => JsonError::Text(error),
    }
}

/// The version as JSON: the string that it prints.
///
/// Allocates.
pub fn version_to_json(alloc: Global, version: &Version) -> Result<Value, AllocError>
    ensures { IfOk result (λ value. IsString value (print version.now)) }
{
    Ok(Value::from(version.to_string(alloc)?))
}

/// The version that a JSON string denotes, as by `Version::from_str`.
///
/// Allocates. Every other value is rejected as `NotAString`, and a string that is no version as `Text` of the error
/// of `Version::from_str`; only if an allocation failed the error of a string may be `OutOfMemory` instead.
pub fn version_from_json(
    alloc: Global,
    value: &Value,
) -> Result<Version, JsonError<VersionParseError>>
    // `NotAString` is the error of what is no string, and of nothing else.
    ensures no_string { IsErrOf result NotAString ↔ (text_of value.now ≡ None) }
    // What is returned is what the string denotes.
    ensures found { IfOk result (λ v. (t : List ℕ) × IsString value.now t × Derives t v) }
    // What the string denotes is returned, unless an allocation fails.
    ensures only { (t : List ℕ) (r : Record) → IsString value.now t → Derives t r
        → ReturnsFromJson (λ e. rejection_of (kind_of e)) result (Ok r) }
    // The error of the string is one that its prefixes decide, and not out of memory.
    ensures refused { IfErr result (λ e. IfParserError e
        (λ inner. IsSomeAnd (rejection_of (kind_of inner)) (λ f. (t : List ℕ) × IsString value.now t × Rejects t f))) }
    // The error's message is the stated one.
    ensures message { IfErr result (λ e. IfParserError e
        (λ inner. IfSome (rejection_of (kind_of inner)) (λ f. error_text (rejection_of (kind_of inner)) ≡ Some (rejection_text f)))) }
    // The error that the prefixes of the string decide is returned, unless an allocation fails.
    ensures decided { (t : List ℕ) (f : Rejection) → IsString value.now t → Rejects t f
        → ReturnsFromJson (λ e. rejection_of (kind_of e)) result (Err f) }
    // The JSON form of a record round-trips, unless an allocation fails.
    ensures round_trips { (r : Record) → IsRecord r → RoundTrips r → IsString value.now (print r)
        → ReturnsFromJson (λ e. rejection_of (kind_of e)) result (Ok r) }
    // So does that of what some string denotes.
    ensures again { (t : List ℕ) (r : Record) → Derives t r → IsString value.now (print r)
        → ReturnsFromJson (λ e. rejection_of (kind_of e)) result (Ok r) }
{
    let text = expect_string::<VersionParseError>(value)?;
    Version::from_str(alloc, text).map_err(from_version_error)
}

// The members with commas between them.
pub(crate) fn join_members(
    alloc: Global,
    members: &[VersionSpecifier],
) -> Result<String, AllocError>
    ensures { IfOk result (λ text. string_bytes text ≡ joined (codes ",") members.now) }
{
    let Some((first, others)) = members.split_first() else {
        return Ok(String::new(alloc));
    };
    let mut text = first.to_string(alloc)?;
    for member in others {
        write!(text, ",{member}")?;
    }
    Ok(text)
}
