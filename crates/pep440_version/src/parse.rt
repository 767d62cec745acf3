//! The parser of versions and patterns, part by part from left to right.
ghost use Rattle.std.specs.Prelude.{◌≡◌, ◌<◌, ◌≤◌, ◌==◌, ℕ, Bool, List, [], true, length, Ok, Err, Some, IfOk, IfErr, IfSome, IsOk};
ghost use Rattle.pep440_version.specs.ErrorTexts.{error_text, rejection_text};
ghost use Rattle.pep440_version.specs.Errors.{ReturnsOutcome, ReturnsOutcomeBy, error_rejection, pattern_error_rejection};
ghost use Rattle.pep440_version.specs.Grammar.{Derives, starts, is_v};
ghost use Rattle.pep440_version.specs.Print.{print};
ghost use Rattle.pep440_version.specs.Reading.{EndsWith, skip_v, starts_with_number};
ghost use Rattle.pep440_version.specs.Record.{Record, IsRecord, epoch_and_release, from_parts};
ghost use Rattle.pep440_version.specs.Rejections.{Rejection, Rejects};
ghost use Rattle.pep440_version.specs.RoundTrip.{RoundTrips};
ghost use Rattle.pep440_version.specs.Word.{is_packed};
ghost use Rattle.pep440_version.specs.Whole.{parse_release_after_first, parse_epoch_and_release, parse_through_release, parse_parts, parse_end, parse_after_release, starts_with_star, read_pattern, read_version};

pub(crate) mod local;
mod normal;
mod normal_parts;
mod number;
pub(crate) mod scan;
mod suffix;

use self::local::parse_local;
pub(crate) use self::normal::parse_normal_pattern;
use self::normal::parse_normal_version;
use self::normal_parts::{NormalParts, parse_normal_parts};
use self::number::{parse_number, parse_release_from, starts_with_number};
use self::suffix::{parse_dev, parse_post, parse_pre};
use crate::error::{ErrorKind, PatternErrorKind, VersionParseError, VersionPatternParseError};
use crate::release::Release;
use crate::version::Version;
use std::alloc::Global;

// The string without a leading letter v.
fn skip_v(text: &str) -> &str
    ensures { result.now ≡ skip_v text.now }
{
    if scan::starts_with(text, b'v') || scan::starts_with(text, b'V') {
        scan::skip_ascii(text)
    } else {
        text
    }
}

// The release from its first number on, with its epoch.
fn parse_release_after_epoch<'a>(
    alloc: Global,
    epoch: u64,
    first: u64,
    text: &'a str,
) -> Result<(u64, Release, &'a str), ErrorKind>
    ensures reads { ReturnsOutcomeBy (λ x. ((x.0, x.1), x.2.now)) result (parse_release_after_first epoch first text.now) }
    ensures memory { (x : (ℕ × List ℕ) × List ℕ) → parse_release_after_first epoch first text.now ≡ Ok x → length x.0.1 ≤ 4 → IsOk result }
{
    let (numbers, rest) = parse_release_from(alloc, first, text)?;
    Ok((epoch, numbers, rest))
}

// Epoch and release.
#[tactic(auto, unfolding(crate::specs::Whole::parse_epoch_and_release))]
fn parse_epoch_and_release(alloc: Global, text: &str) -> Result<(u64, Release, &str), ErrorKind>
    ensures reads { ReturnsOutcomeBy (λ x. ((x.0, x.1), x.2.now)) result (parse_epoch_and_release text.now) }
    ensures memory { (x : (ℕ × List ℕ) × List ℕ) → parse_epoch_and_release text.now ≡ Ok x → length x.0.1 ≤ 4 → IsOk result }
{
    if !starts_with_number(text) {
        return Err(ErrorKind::NoLeadingNumber);
    }
    let (number, after) = parse_number(alloc, text)?;
    if !scan::starts_with(after, b'!') {
        return parse_release_after_epoch(alloc, 0, number, after);
    }
    let rest = scan::skip_ascii(after);
    if !starts_with_number(rest) {
        return Err(ErrorKind::NoLeadingReleaseNumber);
    }
    let (first, behind) = parse_number(alloc, rest)?;
    parse_release_after_epoch(alloc, number, first, behind)
}

// The parts after the release.
#[tactic(auto, unfolding(crate::specs::Whole::parse_parts))]
fn parse_parts(
    alloc: Global,
    epoch: u64,
    release: Release,
    text: &str,
) -> Result<(Version, &str), ErrorKind>
    requires { 0 < length release }
    ensures reads { ReturnsOutcomeBy (λ x. (x.0, x.1.now)) result (parse_parts epoch release text.now) }
    ensures memory { (x : Record × List ℕ) → parse_parts epoch release text.now ≡ Ok x → is_packed x.0 ≡ true → IsOk result }
{
    let (pre, after_pre) = parse_pre(alloc, text)?;
    let (post, after_post) = parse_post(alloc, after_pre)?;
    let (dev, after_dev) = parse_dev(alloc, after_post)?;
    let (local, rest) = parse_local(alloc, after_dev)?;
    Ok((
        Version::from_parts(alloc, epoch, release, pre, post, dev, local)?,
        rest,
    ))
}

// White space and the end of the string.
fn parse_end(alloc: Global, text: &str, version: Version, rest: &str) -> Result<Version, ErrorKind>
    requires { EndsWith text.now rest.now }
    ensures reads { ReturnsOutcomeBy (λ v. v) result (parse_end text.now (version, rest.now)) }
    ensures memory { (r : Record) → parse_end text.now (version, rest.now) ≡ Ok r → IsOk result }
{
    let after = scan::skip_blanks(rest);
    if after.is_empty() {
        return Ok(version);
    }
    Err(ErrorKind::UnexpectedEnd {
        version: String::from_str(alloc, scan::strip_end(text, after))?,
        remaining: String::from_str(alloc, after)?,
    })
}

// Everything after a release without a star.
fn parse_after_release(
    alloc: Global,
    text: &str,
    epoch: u64,
    release: Release,
    rest: &str,
) -> Result<Version, ErrorKind>
    requires some { 0 < length release }
    requires at_end { EndsWith text.now rest.now }
    ensures reads { ReturnsOutcomeBy (λ v. v) result (parse_after_release text.now ((epoch, release), rest.now)) }
    ensures memory { (r : Record) → parse_after_release text.now ((epoch, release), rest.now) ≡ Ok r → is_packed r ≡ true → IsOk result }
{
    let (version, after) = parse_parts(alloc, epoch, release, rest)?;
    parse_end(alloc, text, version, after)
}

fn starts_with_star(text: &str) -> bool
    ensures { result ≡ starts_with_star text.now }
{
    scan::starts_with(text, b'.') && scan::starts_with(scan::skip_ascii(text), b'*')
}

// Only an epoch and a release.
fn build_star_version(alloc: Global, epoch: u64, release: Release) -> Result<Version, ErrorKind>
    requires { 0 < length release }
    ensures reads { ReturnsOutcomeBy (λ v. v) result (Ok (epoch_and_release epoch release)) }
    ensures memory { is_packed (epoch_and_release epoch release) ≡ true → IsOk result }
{
    let no_local = Vec::new(alloc);
    Ok(Version::from_parts(alloc, epoch, release, None, None, None, no_local)?)
}

// The version of the parts of a normal one.
#[inline(always)]
fn build_from_parts(alloc: Global, parts: NormalParts) -> Result<Version, ErrorKind>
    requires { 0 < length parts.release }
    ensures reads { ReturnsOutcomeBy (λ v. v) result (Ok (from_parts parts.epoch parts.release parts.pre parts.post parts.dev [])) }
    ensures memory { is_packed (from_parts parts.epoch parts.release parts.pre parts.post parts.dev []) ≡ true → IsOk result }
{
    let no_local = Vec::new(alloc);
    let NormalParts {
        epoch,
        release,
        pre,
        post,
        dev,
    } = parts;
    Ok(Version::from_parts(alloc, epoch, release, pre, post, dev, no_local)?)
}

// Blanks, the letter v, epoch and release.
fn parse_through_release(alloc: Global, text: &str) -> Result<(u64, Release, &str), ErrorKind>
    ensures reads { ReturnsOutcomeBy (λ x. ((x.0, x.1), x.2.now)) result (parse_through_release text.now) }
    ensures memory { (x : (ℕ × List ℕ) × List ℕ) → parse_through_release text.now ≡ Ok x → length x.0.1 ≤ 4 → IsOk result }
{
    parse_epoch_and_release(alloc, skip_v(scan::skip_blanks(text)))
}

// The version that the string parses to, and whether a star follows, if the version is likely not packed.
#[inline(never)]
pub(crate) fn parse_pattern(
    alloc: Global,
    text: &str,
) -> Result<(Version, bool), VersionPatternParseError>
    ensures reads { ReturnsOutcome pattern_error_rejection result (read_pattern text.now) }
    ensures memory { (x : Record × Bool) → read_pattern text.now ≡ Ok x → is_packed x.0 ≡ true → IsOk result }
{
    match parse_normal_parts(text) {
        Some(parts) => Ok((build_from_parts(alloc, parts)?, false)),
        None => parse_whole_pattern(alloc, text),
    }
}

// The version of any string, and whether a star follows, part by part.
fn parse_whole_pattern(
    alloc: Global,
    text: &str,
) -> Result<(Version, bool), VersionPatternParseError>
    ensures reads { ReturnsOutcome pattern_error_rejection result (read_pattern text.now) }
    ensures memory { (x : Record × Bool) → read_pattern text.now ≡ Ok x → is_packed x.0 ≡ true → IsOk result }
{
    let (epoch, release, rest) = parse_through_release(alloc, text)?;
    if !starts_with_star(rest) {
        return Ok((
            parse_after_release(alloc, text, epoch, release, rest)?,
            false,
        ));
    }
    if rest.len() == 2 {
        Ok((build_star_version(alloc, epoch, release)?, true))
    } else {
        Err(VersionPatternParseError::from(PatternErrorKind::WildcardNotTrailing))
    }
}

impl Version {
    // The result of parsing from left to right: a version is a pattern without a star.
    #[inline(always)]
    fn parse_any(alloc: Global, text: &str) -> Result<Version, VersionParseError>
        ensures reads { ReturnsOutcome error_rejection result (read_version text.now) }
        ensures memory { (r : Record) → read_version text.now ≡ Ok r → is_packed r ≡ true → IsOk result }
    {
        match parse_normal_version(text) {
            Some(version) => Ok(version),
            None => Version::parse_unpacked(alloc, text),
        }
    }

    // The version that the string parses to, if it is likely not packed.
    #[inline(always)]
    fn parse_unpacked(alloc: Global, text: &str) -> Result<Version, VersionParseError>
        ensures reads { ReturnsOutcome error_rejection result (read_version text.now) }
        ensures memory { (r : Record) → read_version text.now ≡ Ok r → is_packed r ≡ true → IsOk result }
    {
        match parse_normal_parts(text) {
            Some(parts) => Ok(build_from_parts(alloc, parts)?),
            None => Version::parse_whole(alloc, text),
        }
    }

    // The version of any string, part by part.
    #[inline(always)]
    fn parse_whole(alloc: Global, text: &str) -> Result<Version, VersionParseError>
        ensures reads { ReturnsOutcome error_rejection result (read_version text.now) }
        ensures memory { (r : Record) → read_version text.now ≡ Ok r → is_packed r ≡ true → IsOk result }
    {
        let (epoch, release, rest) = parse_through_release(alloc, text)?;
        if starts_with_star(rest) {
            return Err(VersionParseError::from(ErrorKind::Wildcard));
        }
        Ok(parse_after_release(alloc, text, epoch, release, rest)?)
    }

    /// Parses a version (PEP 440, "Public version identifiers", "Local version identifiers", "Normalization" and
    /// Appendix B), with white space (tab, line feed, form feed, carriage return, space) before and after it.
    ///
    /// Allocates only if the version is not packed, or for the strings in an error. Every other string is rejected
    /// with exactly one `ErrorKind`; only if an allocation failed the kind may be `OutOfMemory` instead.
    pub fn from_str(alloc: Global, text: &str) -> Result<Version, VersionParseError>
        // Ok has what the string denotes.
        ensures found { IfOk result (λ v. Derives text.now v) }
        // A string that denotes a value parses to it, unless out of memory.
        ensures only { (r : Record) → Derives text.now r → ReturnsOutcome error_rejection result (Ok r) }
        // Err has an error that the prefixes of the string determine.
        ensures refused { IfErr result (λ e. IfSome (error_rejection e) (Rejects text.now)) }
        // The error that the prefixes of the string determine is returned, unless out of memory.
        ensures decided { (f : Rejection) → Rejects text.now f → ReturnsOutcome error_rejection result (Err f) }
        // The message of the error is the stated one.
        ensures message { IfErr result (λ e. IfSome (error_rejection e) (λ f. error_text (error_rejection e) ≡ Some (rejection_text f))) }
        // The normalized form of a record that round-trips parses back to that record, unless out of memory.
        ensures round_trips { (r : Record) → IsRecord r → RoundTrips r → text.now ≡ print r → ReturnsOutcome error_rejection result (Ok r) }
        // So does the normalized form of every parsed version.
        ensures again { (t : List ℕ) (r : Record) → Derives t r → text.now ≡ print r → ReturnsOutcome error_rejection result (Ok r) }
        // A string that denotes a packed record is parsed without allocating.
        ensures memory { (r : Record) → Derives text.now r → is_packed r ≡ true → IsOk result }
    {
        Version::parse_any(alloc, text)
    }
}
