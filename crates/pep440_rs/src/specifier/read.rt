//! The parser of specifiers.
ghost use Rattle.std.specs.Prelude.{◌==◌, length, Err, if◌then◌else◌};
ghost use Rattle.pep440_version.specs.Errors.{ReturnsOutcome, pattern_error_rejection};
ghost use Rattle.pep440_version.specs.Whole.{read_pattern};
ghost use Rattle.pep440_rs.specs.Build.{built_pattern};
ghost use Rattle.pep440_rs.specs.Errors.{ParsesSpecifier};
ghost use Rattle.pep440_rs.specs.Specifiers.SpecifierGrammar.{MissingVersion};
ghost use Rattle.pep440_rs.specs.Specifiers.SpecifierReading.{ended, read_specifier, with_pattern};

use crate::specifier::VersionSpecifier;
use crate::specifier::error::ParseErrorKind;
use crate::specifier::operator::Operator;
use crate::specifier::scan::{Run, skip_white_space, split_run};
use pep440_version::{VersionPattern, VersionPatternParseError};
use std::alloc::Global;

// The specifier of an operator and a pattern, after which nothing may be left.
fn build_specifier(
    alloc: Global,
    operator: Operator,
    pattern: VersionPattern,
    rest: &str,
) -> Result<VersionSpecifier, ParseErrorKind>
    ensures { ParsesSpecifier result (ended (built_pattern operator pattern.0 pattern.1) rest.now) }
{
    let specifier = VersionSpecifier::from_pattern(operator, pattern)?;
    if rest.is_empty() {
        return Ok(specifier);
    }
    Err(ParseErrorKind::InvalidTrailing(String::from_str(alloc, rest)?))
}

// What the string parses to, by the contract of the parser of patterns.
fn parse_pattern(alloc: Global, text: &str) -> Result<VersionPattern, VersionPatternParseError>
    ensures { ReturnsOutcome pattern_error_rejection result (read_pattern text.now) }
{
    VersionPattern::from_str(alloc, text)
}

// The specifier of an operator and a version that is yet to be parsed, after which nothing may be left.
fn parse_version(
    alloc: Global,
    operator: Operator,
    version: &str,
    rest: &str,
) -> Result<VersionSpecifier, ParseErrorKind>
    ensures { ParsesSpecifier result (if length version.now == 0 then Err MissingVersion else with_pattern operator
        (read_pattern version.now) rest.now) }
{
    if version.is_empty() {
        return Err(ParseErrorKind::MissingVersion);
    }
    let pattern = parse_pattern(alloc, version).map_err(ParseErrorKind::from_version_error)?;
    build_specifier(alloc, operator, pattern, rest)
}

// What the string parses to.
pub(crate) fn parse_specifier(alloc: Global, text: &str) -> Result<VersionSpecifier, ParseErrorKind>
    ensures { ParsesSpecifier result (read_specifier text.now) }
{
    let (spelled, behind) = split_run(skip_white_space(text), Run::Operator);
    if spelled.is_empty() {
        return Err(ParseErrorKind::MissingOperator);
    }
    let operator = Operator::from_str(alloc, spelled).map_err(ParseErrorKind::from_operator_error)?;
    let (version, behind) = split_run(skip_white_space(behind), Run::Word);
    parse_version(alloc, operator, version, skip_white_space(behind))
}
