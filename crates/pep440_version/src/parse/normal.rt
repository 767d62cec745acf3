//! The fast path: what indexes mostly have, the letter `v`, up to four small numbers and one suffix in its normal
//! spelling, read byte by byte.
ghost use Rattle.std.specs.Prelude.{◌≡◌, ◌≤◌, ◌++◌, ◌∷◌, ℕ, List, IfSome, false, take};
ghost use Rattle.std.specs.Char.{is_ascii_digit};
ghost use Rattle.pep440_version.specs.Grammar.{Derives, IsNumber, IsRelease, starts};
ghost use Rattle.pep440_version.specs.Normal.{HasRelease, IsClass, IsPadded, IsSuffix, spelling};
ghost use Rattle.pep440_version.specs.Patterns.{DerivesPattern, DerivesStar};

use super::skip_v;
use crate::packed::Packed;
use crate::version::Version;
use crate::word::{ALPHA, BETA, DEV, MAX_SUFFIX_NUMBER, NONE, POST, RC};

// The greatest number that the short passes parse. It includes dates, which no word has.
const MAX_SMALL_NUMBER: u64 = 2147483647;

// The leading number, if it is small, and the rest.
#[inline(always)]
pub(crate) fn parse_small_number(text: &[u8]) -> Option<(u64, &[u8])>
    ensures number { IfSome result (λ x. (digits : List ℕ) × IsNumber digits x.0 × (x.0 ≤ 2147483647) × (text.now ≡ digits ++ x.1.now)) }
    ensures ended { IfSome result (λ x. starts is_ascii_digit x.1.now ≡ false) }
{
    let (first, rest) = text.split_first()?;
    if !first.is_ascii_digit() {
        return None;
    }
    let mut number = u64::from(*first - b'0');
    for i in 0..rest.len() {
        if !rest[i].is_ascii_digit() {
            return Some((number, &rest[i..]));
        }
        number = number * 10 + u64::from(rest[i] - b'0');
        if number > MAX_SMALL_NUMBER {
            return None;
        }
    }
    Some((number, &[]))
}

// The small number after a dot, and the rest.
#[inline(always)]
fn parse_next_number(text: &[u8]) -> Option<(u64, &[u8])>
    ensures { IfSome result (λ x. (digits : List ℕ) × IsNumber digits x.0 × (x.0 ≤ 2147483647)
        × (text.now ≡ 46 ∷ (digits ++ x.1.now))) }
{
    match text {
        [b'.', rest @ ..] => parse_small_number(rest),
        _ => None,
    }
}

// Up to four small numbers with dots between them, how many there are, and the rest.
#[inline(always)]
pub(crate) fn parse_small_release(text: &[u8]) -> Option<([u64; 4], usize, &[u8])>
    ensures { IfSome result (λ x. IsPadded x.1 x.0
        × ((release : List ℕ) × IsRelease release (take x.1 x.0) × (text.now ≡ release ++ x.2.now))) }
{
    let (first, mut rest) = parse_small_number(text)?;
    let mut numbers = [first, 0, 0, 0];
    for count in 1..4 {
        let Some((number, after)) = parse_next_number(rest) else {
            return Some((numbers, count, rest));
        };
        numbers[count] = number;
        rest = after;
    }
    Some((numbers, 4, rest))
}

// The class of the suffix whose normal spelling leads, and the rest.
#[inline(always)]
pub(crate) fn parse_class(text: &[u8]) -> Option<(u64, &[u8])>
    ensures { IfSome result (λ x. IsClass x.0 × (text.now ≡ spelling x.0 ++ x.1.now)) }
{
    match text {
        [b'a', rest @ ..] => Some((ALPHA, rest)),
        [b'b', rest @ ..] => Some((BETA, rest)),
        [b'r', b'c', rest @ ..] => Some((RC, rest)),
        [b'.', b'p', b'o', b's', b't', rest @ ..] => Some((POST, rest)),
        [b'.', b'd', b'e', b'v', rest @ ..] => Some((DEV, rest)),
        _ => None,
    }
}

// The class and the number of the one normal suffix that the string is.
#[inline(always)]
fn parse_normal_suffix(text: &[u8]) -> Option<(u64, u64)>
    ensures { IfSome result (λ s. IsSuffix text.now s.0 s.1 × (s.1 ≤ 2097151)) }
{
    if text.is_empty() {
        return Some((NONE, 0));
    }
    let (class, digits) = parse_class(text)?;
    let (number, rest) = parse_small_number(digits)?;
    if rest.is_empty() && number <= MAX_SUFFIX_NUMBER {
        Some((class, number))
    } else {
        None
    }
}

// The leading numbers, after the letter v or not, how many there are, and the rest.
#[inline(always)]
fn parse_normal_release(text: &str) -> Option<([u64; 4], usize, &[u8])>
    ensures { IfSome result (λ x. HasRelease text.now x.0 x.1 x.2.now) }
{
    parse_small_release(skip_v(text).as_bytes())
}

// The version of a string with this release, if the rest is a normal suffix or nothing; `None` if this pass cannot parse it.
#[inline(always)]
fn build_normal_version(text: &str, numbers: [u64; 4], count: usize, rest: &[u8]) -> Option<Version>
    requires { HasRelease text.now numbers count rest.now }
    ensures { IfSome result (λ v. Derives text.now v) }
{
    let (class, number) = parse_normal_suffix(rest)?;
    let packed = Packed::of_suffix(numbers, count, class, number)?;
    Some(Version::from_packed(packed))
}

// The version of the release, if the rest is a star.
#[inline(always)]
fn build_normal_star(text: &str, numbers: [u64; 4], count: usize, rest: &[u8]) -> Option<Version>
    requires { HasRelease text.now numbers count rest.now }
    ensures { IfSome result (DerivesStar text.now) }
{
    let [b'.', b'*'] = rest else {
        return None;
    };
    let packed = Packed::of_suffix(numbers, count, NONE, 0)?;
    Some(Version::from_packed(packed))
}

// The version that the string parses to; `None` if this pass cannot parse it.
#[inline(always)]
pub(crate) fn parse_normal_version(text: &str) -> Option<Version>
    ensures { IfSome result (λ v. Derives text.now v) }
{
    let (numbers, count, rest) = parse_normal_release(text)?;
    build_normal_version(text, numbers, count, rest)
}

// The version that the pattern parses to, and whether a star follows; `None` if this pass cannot parse it.
#[inline(always)]
pub(crate) fn parse_normal_pattern(text: &str) -> Option<(Version, bool)>
    ensures { IfSome result (λ p. DerivesPattern text.now p.0 p.1) }
{
    let (numbers, count, rest) = parse_normal_release(text)?;
    if let Some(version) = build_normal_version(text, numbers, count, rest) {
        return Some((version, false));
    }
    let version = build_normal_star(text, numbers, count, rest)?;
    Some((version, true))
}
