//! The parsers of numbers and releases.
ghost use Rattle.std.specs.Prelude.{◌≡◌, ◌<◌, ◌≤◌, ◌==◌, ℕ, List, Ok, IfSome, IsOk, true, length};
ghost use Rattle.pep440_version.specs.Errors.{ReturnsOutcomeBy, rejection_of};
ghost use Rattle.pep440_version.specs.Grammar.{starts};
ghost use Rattle.pep440_version.specs.Rejections.{NumberTooBig};
ghost use Rattle.pep440_version.specs.Reading.{parse_release_from, parse_number, has_next_number, starts_with_number};

use super::scan;
use crate::error::ErrorKind;
use crate::release::Release;
use std::alloc::Global;

pub(crate) fn starts_with_number(text: &str) -> bool
    ensures { result ≡ starts_with_number text.now }
{
    match text.as_bytes() {
        [] => false,
        [first, ..] => first.is_ascii_digit(),
    }
}

// The error for digits whose value does not fit; not inlined, so that parsing a number stays short.
#[inline(never)]
fn make_number_too_big(alloc: Global, digits: &str) -> ErrorKind
    ensures { IfSome (rejection_of result) (λ f. f ≡ NumberTooBig digits.now) }
{
    match Vec::from_slice(alloc, digits.as_bytes()) {
        Ok(bytes) => ErrorKind::NumberTooBig { bytes },
        Err(error) => ErrorKind::from(error),
    }
}

// The leading number, and the rest.
#[inline(always)]
#[tactic(auto, unfolding(crate::specs::Reading::parse_number))]
pub(crate) fn parse_number(alloc: Global, text: &str) -> Result<(u64, &str), ErrorKind>
    requires { starts_with_number text.now ≡ true }
    ensures reads { ReturnsOutcomeBy (λ x. (x.0, x.1.now)) result (parse_number text.now) }
    ensures memory { (x : ℕ × List ℕ) → parse_number text.now ≡ Ok x → IsOk result }
{
    let (digits, rest) = scan::split_digits(text);
    match scan::parse_u64(digits) {
        Some(number) => Ok((number, rest)),
        None => Err(make_number_too_big(alloc, digits)),
    }
}

fn has_next_number(text: &str) -> bool
    ensures { result ≡ has_next_number text.now }
{
    scan::starts_with(text, b'.') && starts_with_number(scan::skip_ascii(text))
}

// A release after its first number, and the rest.
pub(crate) fn parse_release_from(
    alloc: Global,
    first: u64,
    text: &str,
) -> Result<(Release, &str), ErrorKind>
    ensures reads { ReturnsOutcomeBy (λ x. (x.0, x.1.now)) result (parse_release_from first text.now) }
    ensures memory { (x : List ℕ × List ℕ) → parse_release_from first text.now ≡ Ok x → length x.0 ≤ 4 → IsOk result }
{
    let mut numbers = Release::from_number(first);
    let mut rest = text;
    for round in 0..text.len() {
        if !has_next_number(rest) {
            return Ok((numbers, rest));
        }
        let (number, after) = parse_number(alloc, scan::skip_ascii(rest))?;
        numbers.push(alloc, number)?;
        rest = after;
    }
    Ok((numbers, rest))
}
