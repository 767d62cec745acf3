//! The parser of local parts.
ghost use Rattle.std.specs.Prelude.{◌≡◌, ◌<◌, ◌++◌, ◌∷◌, ℕ, List, [], Ok, IsOk, OnOk, true, length, map, IfOk, Some};
ghost use Rattle.std.specs.Char.{is_ascii_alphanumeric};
ghost use Rattle.std.specs.List.{list_all};
ghost use Rattle.pep440_version.specs.Errors.{ReturnsOutcomeBy, rejection_of};
ghost use Rattle.pep440_version.specs.Grammar.{parse_segment};
ghost use Rattle.pep440_version.specs.Locals.{parse_segments, parse_local};
ghost use Rattle.pep440_version.specs.Record.{LocalSegmentValue};
ghost use Rattle.pep440_version.specs.Rejections.{LocalEmpty};
ghost use Rattle.pep440_version.specs.Segments.{segment};

use super::scan;
use crate::error::ErrorKind;
use crate::segment::LocalSegment;
use std::alloc::{AllocError, Global};

// The segment of these letters and digits.
pub(crate) fn parse_segment(alloc: Global, text: &str) -> Result<LocalSegment, AllocError>
    requires { 0 < length text.now }
    ensures { IfOk result (λ s. segment s ≡ parse_segment text.now) }
{
    if scan::is_digits(text) {
        if let Some(number) = scan::parse_u64(text) {
            return Ok(LocalSegment::Number(number));
        }
    }
    Ok(LocalSegment::String(text.to_ascii_lowercase(alloc)?))
}

fn make_local_empty(precursor: u8) -> ErrorKind
    ensures { rejection_of result ≡ Some (LocalEmpty precursor) }
{
    ErrorKind::LocalEmpty {
        precursor: char::from(precursor),
    }
}

fn push_segment(segments: &mut Vec<LocalSegment>, part: LocalSegment) -> Result<(), AllocError>
    ensures { OnOk result (segments.new.items ≡ segments.old.items ++ part ∷ []) }
{
    Ok(segments.push(part)?)
}

// The leading segments, and the rest.
fn parse_segments(alloc: Global, text: &str) -> Result<(Vec<LocalSegment>, &str), ErrorKind>
    ensures { ReturnsOutcomeBy (λ x. (map segment x.0.items, x.1.now)) result (parse_segments (length text.now) 43 text.now) }
{
    let mut segments = Vec::new(alloc);
    let mut precursor = b'+';
    let mut rest = text;
    for round in 0..text.len() {
        let (prefix, after) = scan::split_alphanumerics(rest);
        if prefix.is_empty() {
            return Err(make_local_empty(precursor));
        }
        push_segment(&mut segments, parse_segment(alloc, prefix)?)?;
        match scan::find_separator(after) {
            None => return Ok((segments, after)),
            Some(separator) => precursor = separator,
        }
        rest = scan::skip_ascii(after);
    }
    Err(make_local_empty(precursor))
}

pub(crate) fn parse_local(alloc: Global, text: &str) -> Result<(Vec<LocalSegment>, &str), ErrorKind>
    ensures reads { ReturnsOutcomeBy (λ x. (map segment x.0.items, x.1.now)) result (parse_local text.now) }
    ensures memory { (x : List LocalSegmentValue × List ℕ) → parse_local text.now ≡ Ok x → x.0 ≡ [] → IsOk result }
{
    if scan::starts_with(text, b'+') {
        parse_segments(alloc, scan::skip_ascii(text))
    } else {
        Ok((Vec::new(alloc), text))
    }
}
