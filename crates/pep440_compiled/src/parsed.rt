//! Whether a string parses to a version.
ghost use Rattle.std.specs.Prelude.{◌≡◌, ◌↔◌, true, map};
ghost use Rattle.std.specs.Char.{is_ascii_digit};
ghost use Rattle.std.specs.List.{All, list_all};
ghost use Rattle.pep440_version.specs.RoundTrip.{IsParsed, SegmentRoundTrips, is_lower};
ghost use Rattle.pep440_version.specs.Grammar.{is_numeral};
ghost use Rattle.pep440_version.specs.Record.{Text};
ghost use Rattle.pep440_version.specs.Segments.{segment};

use pep440_version::{LocalSegment, Version};

// Only lower-case letters and digits.
pub(crate) fn is_lower(text: &[u8]) -> bool
    ensures { result ≡ list_all is_lower text.now }
{
    text.iter()
        .all(|byte| byte.is_ascii_digit() || byte.is_ascii_lowercase())
}

// Only digits.
pub(crate) fn is_digits(text: &[u8]) -> bool
    ensures { result ≡ list_all is_ascii_digit text.now }
{
    text.iter().all(|byte| byte.is_ascii_digit())
}

// Only digits, whose value is below 2^64; the value of no digits is 0.
fn is_numeral(text: &str) -> bool
    ensures { result ≡ is_numeral text.now }
{
    is_digits(text.as_bytes()) && (text.is_empty() || text.parse::<u64>().is_ok())
}

// Whether lower-case letters and digits are a string of a local part as parsing gives it. Those that have a letter need no other look.
#[tactic(auto, using(crate::proofs::Checking::lower_utf8))]
pub(crate) fn is_normal_lower(text: &[u8]) -> bool
    requires { list_all is_lower text.now ≡ true }
    ensures { (result ≡ true) ↔ SegmentRoundTrips (Text text.now) }
{
    if !is_digits(text) {
        return true;
    }
    match str::from_utf8(text) {
        Ok(text) => !is_numeral(text),
        Err(_) => false,
    }
}

// A string of a local part as parsing gives it; the empty string counts as a numeral.
pub(crate) fn is_normal_string(text: &str) -> bool
    ensures { (result ≡ true) ↔ SegmentRoundTrips (Text text.now) }
{
    is_lower(text.as_bytes()) && !is_numeral(text)
}

fn is_normal(part: &LocalSegment) -> bool
    ensures { (result ≡ true) ↔ SegmentRoundTrips (segment part.now) }
{
    match part {
        LocalSegment::String(text) => is_normal_string(text.as_str()),
        LocalSegment::Number(_) => true,
    }
}

fn are_normal(local: &[LocalSegment]) -> bool
    ensures { (result ≡ true) ↔ All SegmentRoundTrips (map segment local.now) }
{
    for part in local {
        if !is_normal(part) {
            return false;
        }
    }
    true
}

// Whether some string parses to the version.
pub(crate) fn is_parsed(version: &Version) -> bool
    ensures { (result ≡ true) ↔ IsParsed version.now }
{
    let _release = version.release();
    version.min().is_none() && version.max().is_none() && are_normal(version.local())
}
