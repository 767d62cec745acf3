//! Why a string is no operator, why an operator and a version are no specifier, and why a string is no specifier: each kind
//! with its error and its message, which is the same whatever width and fill are asked for.
ghost use Rattle.std.specs.Prelude.{◌≡◌, ◌++◌, Some, codes, map, option_map};
ghost use Rattle.std.specs.Fmt.{DisplaysStyledOnOk, HasWrittenStyled, IsFlush, WritesStyledOnOk};
ghost use Rattle.pep440_version.specs.Errors.{pattern_kind_of, pattern_rejection_of};
ghost use Rattle.pep440_version.specs.Print.{dotted, print_segment};
ghost use Rattle.pep440_version.specs.Segments.{segment};
ghost use Rattle.pep440_rs.specs.Errors.{operator_kind_of, unknown_of, build_kind_of, build_rejection_of, parse_kind_of, specifier_rejection_of, IsLifted};
ghost use Rattle.pep440_rs.specs.ErrorTexts.{build_text, operator_error_text, specifier_error_text};
ghost use Rattle.pep440_rs.specs.Operators.{operator_text};
ghost use Rattle.pep440_rs.specs.Specifiers.SpecifierGrammar.{InvalidOperator, InvalidVersion};
ghost use Rattle.pep440_rs.specs.declared.specifier.error.ParseErrorKind.TheVariants.{InvalidSpecifier, OutOfMemory};

use crate::specifier::operator::Operator;
use pep440_version::{LocalSegment, Version, VersionPatternParseError, write_local_segments};
use std::alloc::AllocError;
use std::error::Error;
use std::fmt::{self, Write};

/// Why a string is no operator.
#[derive(Debug, PartialEq, Eq, Drop)]
pub enum OperatorErrorKind {
    /// The string is none of the eight operators.
    Unknown {
        /// The string.
        got: String,
    },
    /// Out of memory, which says nothing but that the string is no operator.
    OutOfMemory,
}

impl Clone for OperatorErrorKind {
    ghost is_clone = { λ kind copy. unknown_of copy ≡ unknown_of kind };

    fn clone(&self) -> Result<OperatorErrorKind, AllocError> {
        match self {
            OperatorErrorKind::Unknown { got } => Ok(OperatorErrorKind::Unknown {
                got: got.clone()?,
            }),
            OperatorErrorKind::OutOfMemory => Ok(OperatorErrorKind::OutOfMemory),
        }
    }
}

/// A string is no operator. Two are equal exactly if they report the same.
#[derive(Debug, PartialEq, Eq, Drop)]
pub struct OperatorParseError {
    kind: OperatorErrorKind,
}

impl OperatorParseError {
    /// Why: the kind of the error, with what it holds.
    pub fn kind(&self) -> &OperatorErrorKind
        ensures { result.now ≡ operator_kind_of self.now }
    {
        &self.kind
    }
}

impl Clone for OperatorParseError {
    ghost is_clone = { λ error copy. unknown_of (operator_kind_of copy) ≡ unknown_of (operator_kind_of error) };

    fn clone(&self) -> Result<OperatorParseError, AllocError> {
        Ok(OperatorParseError {
            kind: self.kind.clone()?,
        })
    }
}

impl From<OperatorErrorKind> for OperatorParseError {
    ghost from_gives = { λ kind error. operator_kind_of error ≡ kind };

    fn from(kind: OperatorErrorKind) -> OperatorParseError {
        OperatorParseError { kind }
    }
}

// Writes to the formatter whatever width and fill it has.
#[derive(Drop)]
struct Direct<'a, W> {
    f: &'a mut fmt::Formatter<W>,
}

impl<W: fmt::Write> fmt::Write for Direct<'_, W> {
    ghost write_str_gives = { λ s bs t. (IsFlush s.f.now → HasWrittenStyled W.write_str_gives s.f.now bs t.f.now) × (t.f.ghost_name ≡ s.f.ghost_name) };

    fn write_str(&mut self, s: &str) -> fmt::Result {
        self.f.write_str(s)
    }
}

// Writes that the string is no operator; it stands in quotes, as in Rust's debug form.
fn write_unknown<W: fmt::Write>(f: &mut fmt::Formatter<W>, got: &str) -> fmt::Result
    ensures { DisplaysStyledOnOk W.write_str_gives f.old result (operator_error_text (Some got.now)) f.new }
{
    let mut direct = Direct { f };
    write!(
        direct,
        "no such comparison operator {got:?}, must be one of ~= == != <= >= < > ==="
    )
}

fn write_operator_kind<W: fmt::Write>(
    f: &mut fmt::Formatter<W>,
    kind: &OperatorErrorKind,
) -> fmt::Result
    ensures { DisplaysStyledOnOk W.write_str_gives f.old result (operator_error_text (unknown_of kind.now)) f.new }
{
    match kind {
        OperatorErrorKind::Unknown { got } => write_unknown(f, got.as_str()),
        OperatorErrorKind::OutOfMemory => f.write_str("out of memory"),
    }
}

impl fmt::Display for OperatorParseError {
    ghost output = { λ e. operator_error_text (unknown_of (operator_kind_of e)) };

    ghost styled_output = { λ e _. operator_error_text (unknown_of (operator_kind_of e)) };

    fn fmt<W: fmt::Write>(&self, f: &mut fmt::Formatter<W>) -> fmt::Result {
        write_operator_kind(f, self.kind())
    }
}

impl Error for OperatorParseError {}

/// Why an operator and a version are no specifier (PEP 440, "Version specifiers").
#[derive(Debug, PartialEq, Eq, Drop)]
pub enum BuildErrorKind {
    /// The version has a local part, and the operator allows none.
    OperatorLocalCombo {
        /// The operator.
        operator: Operator,
        /// The version.
        version: Version,
    },
    /// A star follows the version, and the operator has no star form.
    OperatorWithStar {
        /// The operator.
        operator: Operator,
    },
    /// `~=` before a release of fewer than two numbers.
    CompatibleRelease,
}

impl Clone for BuildErrorKind {
    ghost is_clone = { λ kind copy. build_rejection_of copy ≡ build_rejection_of kind };

    fn clone(&self) -> Result<BuildErrorKind, AllocError> {
        match self {
            BuildErrorKind::OperatorLocalCombo { operator, version } => {
                Ok(BuildErrorKind::OperatorLocalCombo {
                    operator: *operator,
                    version: version.clone()?,
                })
            }
            BuildErrorKind::OperatorWithStar { operator } => {
                Ok(BuildErrorKind::OperatorWithStar {
                    operator: *operator,
                })
            }
            BuildErrorKind::CompatibleRelease => Ok(BuildErrorKind::CompatibleRelease),
        }
    }
}

/// An operator and a version are no specifier. Two are equal exactly if they report the same.
#[derive(Debug, PartialEq, Eq, Drop)]
pub struct VersionSpecifierBuildError {
    kind: BuildErrorKind,
}

impl VersionSpecifierBuildError {
    /// Why: the kind of the error, with what it holds.
    pub fn kind(&self) -> &BuildErrorKind
        ensures { result.now ≡ build_kind_of self.now }
    {
        &self.kind
    }
}

impl Clone for VersionSpecifierBuildError {
    ghost is_clone = { λ error copy. build_rejection_of (build_kind_of copy) ≡ build_rejection_of (build_kind_of error) };

    fn clone(&self) -> Result<VersionSpecifierBuildError, AllocError> {
        Ok(VersionSpecifierBuildError {
            kind: self.kind.clone()?,
        })
    }
}

impl From<BuildErrorKind> for VersionSpecifierBuildError {
    ghost from_gives = { λ kind error. build_kind_of error ≡ kind };

    fn from(kind: BuildErrorKind) -> VersionSpecifierBuildError {
        VersionSpecifierBuildError { kind }
    }
}

#[tactic(auto, using(pep440_version::proofs::RoundTrip::Writing::two_writes))]
fn write_three<W: fmt::Write>(f: &mut fmt::Formatter<W>, a: &str, b: &str, c: &str) -> fmt::Result
    ensures { WritesStyledOnOk W.write_str_gives f.old result (a.now ++ (b.now ++ c.now)) f.new }
{
    f.write_str(a)?;
    f.write_str(b)?;
    f.write_str(c)
}

#[tactic(auto, using(pep440_version::proofs::RoundTrip::Writing::two_writes))]
fn write_incompatible<W: fmt::Write>(
    f: &mut fmt::Formatter<W>,
    local: &[LocalSegment],
) -> fmt::Result
    ensures { WritesStyledOnOk W.write_str_gives f.old result
        (codes " is incompatible with versions containing non-empty local segments (`+"
        ++ (dotted print_segment (map segment local.now) ++ codes "`)")) f.new }
{
    f.write_str(" is incompatible with versions containing non-empty local segments (`+")?;
    write_local_segments(f, local)?;
    f.write_str("`)")
}

// Writes that the operator allows no local part.
#[tactic(auto, using(pep440_version::proofs::RoundTrip::Writing::two_writes))]
fn write_local_combo<W: fmt::Write>(
    f: &mut fmt::Formatter<W>,
    operator: Operator,
    local: &[LocalSegment],
) -> fmt::Result
    ensures { WritesStyledOnOk W.write_str_gives f.old result
        (codes "Operator " ++ (operator_text operator
        ++ (codes " is incompatible with versions containing non-empty local segments (`+"
        ++ (dotted print_segment (map segment local.now) ++ codes "`)")))) f.new }
{
    f.write_str("Operator ")?;
    f.write_str(operator.as_str())?;
    write_incompatible(f, local)
}

fn write_build_kind<W: fmt::Write>(f: &mut fmt::Formatter<W>, kind: &BuildErrorKind) -> fmt::Result
    ensures { WritesStyledOnOk W.write_str_gives f.old result (build_text (build_rejection_of kind.now)) f.new }
{
    match kind {
        BuildErrorKind::OperatorLocalCombo { operator, version } => {
            write_local_combo(f, *operator, version.local())
        }
        BuildErrorKind::OperatorWithStar { operator } => write_three(
            f,
            "Operator ",
            operator.as_str(),
            " cannot be used with a wildcard version specifier",
        ),
        BuildErrorKind::CompatibleRelease => write_three(
            f,
            "The ",
            Operator::TildeEqual.as_str(),
            " operator requires at least two segments in the release version",
        ),
    }
}

impl fmt::Display for VersionSpecifierBuildError {
    ghost output = { λ e. Some (build_text (build_rejection_of (build_kind_of e))) };

    ghost styled_output = { λ e _. Some (build_text (build_rejection_of (build_kind_of e))) };

    fn fmt<W: fmt::Write>(&self, f: &mut fmt::Formatter<W>) -> fmt::Result {
        write_build_kind(f, self.kind())
    }
}

impl Error for VersionSpecifierBuildError {}

/// Why a string is no specifier (PEP 440, "Version specifiers").
///
/// A string that is no specifier has exactly one of the kinds before the last.
#[derive(Debug, PartialEq, Eq, Drop)]
pub enum ParseErrorKind {
    /// No operator character follows the white space.
    MissingOperator,
    /// The operator characters are no operator.
    InvalidOperator(OperatorParseError),
    /// The string ends after the operator and white space.
    MissingVersion,
    /// What follows the operator, up to the next white space, is no version pattern.
    InvalidVersion(VersionPatternParseError),
    /// The operator and the version are no specifier.
    InvalidSpecifier(VersionSpecifierBuildError),
    /// The string goes on after the version and white space: what is left.
    InvalidTrailing(String),
    /// Out of memory, which says nothing about the string.
    OutOfMemory,
}

impl Clone for ParseErrorKind {
    ghost is_clone = { λ kind copy. specifier_rejection_of copy ≡ specifier_rejection_of kind };

    fn clone(&self) -> Result<ParseErrorKind, AllocError> {
        Ok(match self {
            ParseErrorKind::MissingOperator => ParseErrorKind::MissingOperator,
            ParseErrorKind::InvalidOperator(error) => {
                ParseErrorKind::InvalidOperator(error.clone()?)
            }
            ParseErrorKind::MissingVersion => ParseErrorKind::MissingVersion,
            ParseErrorKind::InvalidVersion(error) => ParseErrorKind::InvalidVersion(error.clone()?),
            ParseErrorKind::InvalidSpecifier(error) => {
                ParseErrorKind::InvalidSpecifier(error.clone()?)
            }
            ParseErrorKind::InvalidTrailing(rest) => ParseErrorKind::InvalidTrailing(rest.clone()?),
            ParseErrorKind::OutOfMemory => ParseErrorKind::OutOfMemory,
        })
    }
}

impl From<AllocError> for ParseErrorKind {
    ghost from_gives = { λ _ kind. kind ≡ OutOfMemory };

    fn from(_refused: AllocError) -> ParseErrorKind {
        ParseErrorKind::OutOfMemory
    }
}

impl From<VersionSpecifierBuildError> for ParseErrorKind {
    ghost from_gives = { λ error kind. kind ≡ InvalidSpecifier error };

    fn from(error: VersionSpecifierBuildError) -> ParseErrorKind {
        ParseErrorKind::InvalidSpecifier(error)
    }
}

impl ParseErrorKind {
    // The error of the operator, or out of memory.
    pub(crate) fn from_operator_error(error: OperatorParseError) -> ParseErrorKind
        ensures refusal { specifier_rejection_of result ≡ option_map InvalidOperator (unknown_of (operator_kind_of error)) }
        ensures lifted { IsLifted result }
    {
        match error.kind() {
            OperatorErrorKind::Unknown { .. } => ParseErrorKind::InvalidOperator(error),
            OperatorErrorKind::OutOfMemory => ParseErrorKind::OutOfMemory,
        }
    }

    // The error of the version, or out of memory.
    pub(crate) fn from_version_error(error: VersionPatternParseError) -> ParseErrorKind
        ensures refusal { specifier_rejection_of result ≡ option_map InvalidVersion (pattern_rejection_of (pattern_kind_of error)) }
        ensures lifted { IsLifted result }
    {
        if error.is_out_of_memory() {
            ParseErrorKind::OutOfMemory
        } else {
            ParseErrorKind::InvalidVersion(error)
        }
    }
}

/// A string is no specifier, or out of memory. Two are equal exactly if they report the same.
#[derive(Debug, PartialEq, Eq, Drop)]
pub struct VersionSpecifierParseError {
    kind: ParseErrorKind,
}

impl VersionSpecifierParseError {
    /// Why: the kind of the error, with what it holds.
    pub fn kind(&self) -> &ParseErrorKind
        ensures { result.now ≡ parse_kind_of self.now }
    {
        &self.kind
    }
}

impl Clone for VersionSpecifierParseError {
    ghost is_clone = { λ error copy. specifier_rejection_of (parse_kind_of copy) ≡ specifier_rejection_of (parse_kind_of error) };

    fn clone(&self) -> Result<VersionSpecifierParseError, AllocError> {
        Ok(VersionSpecifierParseError {
            kind: self.kind.clone()?,
        })
    }
}

impl From<ParseErrorKind> for VersionSpecifierParseError {
    ghost from_gives = { λ kind error. parse_kind_of error ≡ kind };

    fn from(kind: ParseErrorKind) -> VersionSpecifierParseError {
        VersionSpecifierParseError { kind }
    }
}

// Writes why a string is no specifier; of an inner error its own message.
pub(crate) fn write_parse_kind<W: fmt::Write>(
    f: &mut fmt::Formatter<W>,
    kind: &ParseErrorKind,
) -> fmt::Result
    ensures { DisplaysStyledOnOk W.write_str_gives f.old result (specifier_error_text (specifier_rejection_of kind.now)) f.new }
{
    match kind {
        ParseErrorKind::MissingOperator => f.write_str(
            "Unexpected end of version specifier, expected operator",
        ),
        ParseErrorKind::InvalidOperator(error) => write_operator_kind(f, error.kind()),
        ParseErrorKind::MissingVersion => f.write_str(
            "Unexpected end of version specifier, expected version",
        ),
        ParseErrorKind::InvalidVersion(error) => fmt::Display::fmt(error, f),
        ParseErrorKind::InvalidSpecifier(error) => write_build_kind(f, error.kind()),
        ParseErrorKind::InvalidTrailing(rest) => write_three(
            f,
            "Trailing `",
            rest.as_str(),
            "` is not allowed",
        ),
        ParseErrorKind::OutOfMemory => f.write_str("out of memory"),
    }
}

impl fmt::Display for VersionSpecifierParseError {
    ghost output = { λ e. specifier_error_text (specifier_rejection_of (parse_kind_of e)) };

    ghost styled_output = { λ e _. specifier_error_text (specifier_rejection_of (parse_kind_of e)) };

    fn fmt<W: fmt::Write>(&self, f: &mut fmt::Formatter<W>) -> fmt::Result {
        write_parse_kind(f, self.kind())
    }
}

impl Error for VersionSpecifierParseError {}
