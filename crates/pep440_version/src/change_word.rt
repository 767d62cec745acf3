//! The parser of change words: a field, `=` and its new value, or one of two words without a value.
ghost use Rattle.std.specs.Prelude.{◌≡◌, ◌==◌, map, IfOk};
ghost use Rattle.pep440_version.specs.Changes.ChangeWordResults.{ReadsAs};
ghost use Rattle.std.specs.List.{slice_split};
ghost use Rattle.std.specs.Option.{option_map, option_copied};
ghost use Rattle.pep440_version.specs.Changes.ChangeWords.{number_of, after, parse_prerelease_of_kind, prerelease_of, local_segment_of, or_none, pieces_of, all_of, dotted_of, field_change, bare_change, change_of};
ghost use Rattle.pep440_version.specs.Changes.{edit};
ghost use Rattle.pep440_version.specs.Segments.{segment};
ghost use Rattle.pep440_version.specs.declared.change_word.ChangeWordError.TheVariants.{OutOfMemory};

use crate::change::Change;
use crate::parse::{local, scan};
use crate::prerelease::{Prerelease, PrereleaseKind};
use crate::segment::LocalSegment;
use std::alloc::{AllocError, AllocFailed, Global};

/// Why a word is not a change.
#[derive(Clone, Copy, Debug, PartialEq, Eq)]
pub enum ChangeWordError {
    /// There is no such change, or the field cannot have its value.
    NotAChange,
    /// Out of memory; the word may be valid or not.
    OutOfMemory,
}

impl From<AllocError> for ChangeWordError {
    ghost from_gives = { λ _ error. error ≡ OutOfMemory };

    fn from(_: AllocError) -> ChangeWordError {
        ChangeWordError::OutOfMemory
    }
}

impl<T: Drop> From<AllocFailed<T>> for ChangeWordError {
    ghost from_gives = { λ _ error. error ≡ OutOfMemory };

    fn from(_: AllocFailed<T>) -> ChangeWordError {
        ChangeWordError::OutOfMemory
    }
}

// One or more digits, zeros may lead, whose value fits.
fn parse_number(text: &str) -> Option<u64>
    ensures { result ≡ number_of text.now }
{
    if text.is_empty() || !scan::is_digits(text) {
        return None;
    }
    scan::parse_u64(text)
}

// The rest after the spelling, if the string begins with it.
fn strip_spelling<'a>(spelling: &str, text: &'a str) -> Option<&'a str>
    ensures { option_copied result ≡ after spelling.now text.now }
{
    text.strip_prefix(spelling)
}

// The spelling of a kind, and a number.
fn parse_prerelease_of_kind(kind: PrereleaseKind, spelling: &str, text: &str) -> Option<Prerelease>
    ensures { result ≡ parse_prerelease_of_kind kind spelling.now text.now }
{
    let number = parse_number(strip_spelling(spelling, text)?)?;
    Some(Prerelease { kind, number })
}

// `a`, `b` or `rc`, and a number.
fn parse_prerelease(text: &str) -> Option<Prerelease>
    ensures { result ≡ prerelease_of text.now }
{
    parse_prerelease_of_kind(PrereleaseKind::Alpha, "a", text)
        .or(parse_prerelease_of_kind(PrereleaseKind::Beta, "b", text))
        .or(parse_prerelease_of_kind(PrereleaseKind::Rc, "rc", text))
}

// A number or nothing, which stands for none.
fn parse_optional_number(text: &str) -> Option<Option<u64>>
    ensures { result ≡ or_none number_of text.now }
{
    if text.is_empty() {
        return Some(None);
    }
    Some(Some(parse_number(text)?))
}

// A pre-release or nothing, which stands for none.
fn parse_optional_prerelease(text: &str) -> Option<Option<Prerelease>>
    ensures { result ≡ or_none prerelease_of text.now }
{
    if text.is_empty() {
        return Some(None);
    }
    Some(Some(parse_prerelease(text)?))
}

fn split_at_dots<'a>(alloc: Global, text: &'a str) -> Result<Vec<&'a str>, AllocError>
    ensures { IfOk result (λ v. map (λ p. p.now) v.items ≡ slice_split (λ b. b == 46) text.now) }
{
    text.split('.').collect(alloc)
}

// The pieces of a string between its dots; an empty string has none.
fn split_pieces<'a>(alloc: Global, text: &'a str) -> Result<Vec<&'a str>, AllocError>
    ensures { IfOk result (λ v. map (λ p. p.now) v.items ≡ pieces_of text.now) }
{
    if text.is_empty() {
        return Ok(Vec::new(alloc));
    }
    split_at_dots(alloc, text)
}

// The number of each piece.
fn parse_all_numbers(alloc: Global, pieces: &[&str]) -> Result<Vec<u64>, ChangeWordError>
    ensures { ReadsAs (λ v. v.items) result (all_of number_of (map (λ p. p.now) pieces.now)) }
{
    let mut numbers = Vec::new(alloc);
    for i in 0..pieces.len() {
        let Some(number) = parse_number(pieces[i]) else {
            return Err(ChangeWordError::NotAChange);
        };
        numbers.push(number)?;
    }
    Ok(numbers)
}

// Numbers joined by `.`, or nothing.
fn parse_numbers(alloc: Global, text: &str) -> Result<Vec<u64>, ChangeWordError>
    ensures { ReadsAs (λ v. v.items) result (dotted_of number_of text.now) }
{
    let pieces = split_pieces(alloc, text)?;
    parse_all_numbers(alloc, pieces.as_slice())
}

// One or more ASCII letters and digits: digits that fit are a number, all else is a string in lower case.
fn parse_segment(alloc: Global, text: &str) -> Result<LocalSegment, ChangeWordError>
    ensures { ReadsAs segment result (local_segment_of text.now) }
{
    if text.is_empty() || !scan::is_alphanumeric(text) {
        return Err(ChangeWordError::NotAChange);
    }
    Ok(local::parse_segment(alloc, text)?)
}

// The segment of each piece.
fn parse_all_segments(alloc: Global, pieces: &[&str]) -> Result<Vec<LocalSegment>, ChangeWordError>
    ensures { ReadsAs (λ v. map segment v.items) result (all_of local_segment_of (map (λ p. p.now) pieces.now)) }
{
    let mut segments = Vec::new(alloc);
    for i in 0..pieces.len() {
        let segment = parse_segment(alloc, pieces[i])?;
        segments.push(segment)?;
    }
    Ok(segments)
}

// Segments joined by `.`, or nothing.
fn parse_segments(alloc: Global, text: &str) -> Result<Vec<LocalSegment>, ChangeWordError>
    ensures { ReadsAs (λ v. map segment v.items) result (dotted_of local_segment_of text.now) }
{
    let pieces = split_pieces(alloc, text)?;
    parse_all_segments(alloc, pieces.as_slice())
}

// The change, if there is one.
fn require_change(change: Option<Change>) -> Result<Change, ChangeWordError>
    ensures { ReadsAs edit result (option_map edit change) }
{
    change.ok_or(ChangeWordError::NotAChange)
}

// The change of a field to the value that the string denotes.
fn parse_field_change(alloc: Global, field: &str, value: &str) -> Result<Change, ChangeWordError>
    ensures { ReadsAs edit result (field_change field.now value.now) }
{
    match field {
        "release" => Ok(Change::Release(parse_numbers(alloc, value)?)),
        "epoch" => require_change(parse_number(value).map(Change::Epoch)),
        "pre" => require_change(parse_optional_prerelease(value).map(Change::Pre)),
        "post" => require_change(parse_optional_number(value).map(Change::Post)),
        "dev" => require_change(parse_optional_number(value).map(Change::Dev)),
        "local" => Ok(Change::Local(parse_segments(alloc, value)?)),
        "min" => require_change(parse_optional_number(value).map(Change::Min)),
        "max" => require_change(parse_optional_number(value).map(Change::Max)),
        _ => Err(ChangeWordError::NotAChange),
    }
}

// A word with no `=`.
fn parse_bare_change(word: &str) -> Option<Change>
    ensures { option_map edit result ≡ bare_change word.now }
{
    match word {
        "only-release" => Some(Change::OnlyRelease),
        "without-local" => Some(Change::WithoutLocal),
        _ => None,
    }
}

/// The change that the word asks for: `release=` and numbers with dots between them; `epoch=` and a number; `pre=` and `a`, `b` or
/// `rc` with a number; `post=`, `dev=`, `min=` or `max=` and a number; `local=` and segments with dots between them;
/// `only-release`; `without-local`. After `=` nothing stands for none, but for the epoch. Numbers are ASCII digits that fit 64 bits.
///
/// Returns `NotAChange` for any other word, and allocates; `OutOfMemory` only if that failed.
pub fn parse_change(alloc: Global, word: &str) -> Result<Change, ChangeWordError>
    ensures { ReadsAs edit result (change_of word.now) }
{
    match word.split_once('=') {
        Some((field, value)) => parse_field_change(alloc, field, value),
        None => require_change(parse_bare_change(word)),
    }
}
