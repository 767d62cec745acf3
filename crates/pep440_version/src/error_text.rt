//! `Display` of the errors, which ignores width and fill.
ghost use Rattle.std.specs.Prelude.{◌≡◌, ◌++◌, true, Some, codes};
ghost use Rattle.std.specs.Char.{is_ascii_digit};
ghost use Rattle.std.specs.List.{list_all};
ghost use Rattle.std.specs.Fmt.{WritesStyledOnOk, DisplaysStyledOnOk, decimal};
ghost use Rattle.pep440_version.specs.ErrorTexts.{change_error_text, rejection_text, error_text, pattern_error_text};
ghost use Rattle.pep440_version.specs.Errors.{rejection_of, error_rejection, pattern_rejection_of, pattern_error_rejection};
ghost use Rattle.pep440_version.specs.Rejections.{NumberTooBig, LocalEmpty, UnexpectedEnd};

use crate::change::ChangeError;
use crate::error::{ErrorKind, PatternErrorKind, VersionParseError, VersionPatternParseError};
use crate::print::write_number;
use std::error::Error;
use std::fmt;

#[tactic(auto, using(crate::proofs::RoundTrip::Writing::two_writes))]
fn write_three<W: fmt::Write>(f: &mut fmt::Formatter<W>, a: &str, b: &str, c: &str) -> fmt::Result
    ensures { WritesStyledOnOk W.write_str_gives f.old result (a.now ++ (b.now ++ c.now)) f.new }
{
    f.write_str(a)?;
    f.write_str(b)?;
    f.write_str(c)
}

#[tactic(auto, using(crate::proofs::RoundTrip::Writing::two_writes))]
fn write_five<W: fmt::Write>(
    f: &mut fmt::Formatter<W>,
    a: &str,
    b: &str,
    c: &str,
    d: &str,
    e: &str,
) -> fmt::Result
    ensures { WritesStyledOnOk W.write_str_gives f.old result (a.now ++ (b.now ++ (c.now ++ (d.now ++ e.now)))) f.new }
{
    f.write_str(a)?;
    f.write_str(b)?;
    write_three(f, c, d, e)
}

// The digits as a string; other bytes may give another string.
fn digits_to_str(bytes: &[u8]) -> &str
    ensures { list_all is_ascii_digit bytes.now ≡ true → result.now ≡ bytes.now }
{
    match std::str::from_utf8(bytes) {
        Ok(text) => text,
        Err(_) => "",
    }
}

fn write_too_big<W: fmt::Write>(f: &mut fmt::Formatter<W>, bytes: &[u8]) -> fmt::Result
    ensures { DisplaysStyledOnOk W.write_str_gives f.old result (error_text (Some (NumberTooBig bytes.now))) f.new }
{
    write_three(
        f,
        "expected number less than or equal to 18446744073709551615, but number found in \"",
        digits_to_str(bytes),
        "\" exceeds it",
    )
}

fn write_local_empty<W: fmt::Write>(f: &mut fmt::Formatter<W>, precursor: char) -> fmt::Result
    ensures { WritesStyledOnOk W.write_str_gives f.old result (rejection_text (LocalEmpty precursor)) f.new }
{
    let mut bytes = [0u8; 4];
    let found: &str = precursor.encode_utf8(&mut bytes);
    write_five(
        f,
        "found a `",
        found,
        "` indicating the start of a local component in a version, but did not find any alphanumeric ASCII segment following the `",
        found,
        "`",
    )
}

fn write_end<W: fmt::Write>(
    f: &mut fmt::Formatter<W>,
    version: &str,
    remaining: &str,
) -> fmt::Result
    ensures { WritesStyledOnOk W.write_str_gives f.old result (rejection_text (UnexpectedEnd version.now remaining.now)) f.new }
{
    write_five(
        f,
        "after parsing `",
        version,
        "`, found `",
        remaining,
        "`, which is not part of a valid version",
    )
}

// The message of a kind of error.
fn write_error_kind<W: fmt::Write>(f: &mut fmt::Formatter<W>, kind: &ErrorKind) -> fmt::Result
    ensures { DisplaysStyledOnOk W.write_str_gives f.old result (error_text (rejection_of kind.now)) f.new }
{
    match kind {
        ErrorKind::Wildcard => f.write_str("wildcards are not allowed in a version"),
        ErrorKind::NumberTooBig { bytes } => write_too_big(f, bytes.as_slice()),
        ErrorKind::NoLeadingNumber => f.write_str(
            "expected version to start with a number, but no leading ASCII digits were found",
        ),
        ErrorKind::NoLeadingReleaseNumber => f.write_str(
            "expected version to have a non-empty release component after an epoch, but no ASCII digits after the epoch were found",
        ),
        ErrorKind::LocalEmpty { precursor } => write_local_empty(f, *precursor),
        ErrorKind::UnexpectedEnd { version, remaining } => write_end(
            f,
            version.as_str(),
            remaining.as_str(),
        ),
        ErrorKind::OutOfMemory => f.write_str("out of memory"),
    }
}

fn write_pattern_kind<W: fmt::Write>(
    f: &mut fmt::Formatter<W>,
    kind: &PatternErrorKind,
) -> fmt::Result
    ensures { DisplaysStyledOnOk W.write_str_gives f.old result (pattern_error_text (pattern_rejection_of kind.now)) f.new }
{
    match kind {
        PatternErrorKind::Version(error) => write_error_kind(f, error.kind()),
        PatternErrorKind::WildcardNotTrailing => f.write_str(
            "wildcards in versions must be at the end",
        ),
    }
}

impl fmt::Display for VersionParseError {
    ghost output = { λ e. error_text (error_rejection e) };

    ghost styled_output = { λ e _. error_text (error_rejection e) };

    fn fmt<W: fmt::Write>(&self, f: &mut fmt::Formatter<W>) -> fmt::Result {
        write_error_kind(f, self.kind())
    }
}

impl Error for VersionParseError {}

impl fmt::Display for VersionPatternParseError {
    ghost output = { λ e. pattern_error_text (pattern_error_rejection e) };

    ghost styled_output = { λ e _. pattern_error_text (pattern_error_rejection e) };

    fn fmt<W: fmt::Write>(&self, f: &mut fmt::Formatter<W>) -> fmt::Result {
        write_pattern_kind(f, self.kind())
    }
}

impl Error for VersionPatternParseError {}

// The number of a change, and why it cannot be applied.
#[tactic(auto, using(crate::proofs::RoundTrip::Writing::two_writes))]
fn write_change<W: fmt::Write>(f: &mut fmt::Formatter<W>, position: usize, why: &str) -> fmt::Result
    ensures { WritesStyledOnOk W.write_str_gives f.old result (codes "change " ++ (decimal position ++ why.now)) f.new }
{
    f.write_str("change ")?;
    write_number(f, position as u64)?;
    f.write_str(why)
}

fn write_change_error<W: fmt::Write>(f: &mut fmt::Formatter<W>, error: ChangeError) -> fmt::Result
    ensures { WritesStyledOnOk W.write_str_gives f.old result (change_error_text error) f.new }
{
    match error {
        ChangeError::EmptyRelease(position) => write_change(
            f,
            position,
            ": a release needs at least one number",
        ),
        ChangeError::MinNotAllowed(position) => write_change(
            f,
            position,
            ": min is not allowed on pre-release or dev versions",
        ),
        ChangeError::MaxNotAllowed(position) => write_change(
            f,
            position,
            ": max is not allowed on post-release or dev versions",
        ),
        ChangeError::OutOfMemory => f.write_str("out of memory"),
    }
}

impl fmt::Display for ChangeError {
    ghost output = { λ e. Some (change_error_text e) };

    ghost styled_output = { λ e _. Some (change_error_text e) };

    fn fmt<W: fmt::Write>(&self, f: &mut fmt::Formatter<W>) -> fmt::Result {
        write_change_error(f, *self)
    }
}

impl Error for ChangeError {}
