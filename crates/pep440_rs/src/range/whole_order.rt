//! The range of a specifier, by the whole order of versions.
ghost use Rattle.std.specs.Prelude.{◌≡◌, ◌≢◌, ◌≤◌, length, IfOk, IsErrOf, Some, None};
ghost use Rattle.pep440_rs.specs.Agreement.{Agrees, IsCandidate, HasOperand, HoldsOnlyMatches, HoldsAllMatches};
ghost use Rattle.pep440_rs.specs.Bounds.{range_of, less, greater, compatible_end, star, star_end};
ghost use Rattle.pep440_rs.specs.RaisedNumbers.{ReportsMax, raised_number, raises_max};
ghost use Rattle.pep440_version.specs.Record.{Record};

use crate::range::error::RangeError;
use crate::range::next_release::{next_number, raise_last};
use crate::specifier::VersionSpecifier;
use crate::specifier::contains::without_last;
use crate::specifier::operator::Operator;
use pep440_ranges::Ranges;
use pep440_version::{Prerelease, Version};
use std::alloc::{AllocError, Global};
use std::ops::Bound;

// `!=`: all but the version.
fn exclude_version(alloc: Global, version: Version) -> Result<Ranges<Version>, AllocError>
    ensures { IfOk result (λ r. range_of Operator.NotEqual version ≡ Some r) }
{
    let one = Ranges::singleton(alloc, version)?;
    one.complement(alloc)
}

// `<`: below the version, or below the sentinel that is below all of its release.
pub(crate) fn convert_less(alloc: Global, version: Version) -> Result<Ranges<Version>, AllocError>
    ensures { IfOk result (λ r. r ≡ less version) }
{
    if version.pre().is_some() || version.dev().is_some() {
        return Ranges::strictly_lower_than(alloc, version);
    }
    Ranges::strictly_lower_than(alloc, version.with_min(alloc, Some(0))?)
}

// `>`: from the next dev, from the first dev of the next post, or above every post.
fn convert_greater(alloc: Global, version: Version) -> Result<Ranges<Version>, RangeError>
    ensures range { IfOk result (λ r. greater version version.dev version.post ≡ Some r) }
    ensures refused { IsErrOf result RangeError.NumberAtMax → greater version version.dev version.post ≡ None }
{
    if let Some(dev) = version.dev() {
        let next = next_number(dev)?;
        Ok(Ranges::higher_than(alloc, version.with_dev(alloc, Some(next))?)?)
    } else if let Some(post) = version.post() {
        let next = next_number(post)?;
        let next = version.with_post(alloc, Some(next))?;
        Ok(Ranges::higher_than(alloc, next.with_dev(alloc, Some(0))?)?)
    } else {
        Ok(Ranges::strictly_higher_than(alloc, version.with_max(alloc, Some(0))?)?)
    }
}

// The end of `~=`.
fn raise_compatible(alloc: Global, version: &Version) -> Result<Version, RangeError>
    requires { 2 ≤ length version.now.release }
    ensures end { IfOk result (λ v. compatible_end version.now ≡ Some v) }
    ensures refused { IsErrOf result RangeError.NumberAtMax → compatible_end version.now ≡ None }
{
    let numbers = raise_last(alloc, without_last(version.release()))?;
    let end = Version::new(alloc, &numbers)?.with_epoch(alloc, version.epoch())?;
    Ok(end.with_dev(alloc, Some(0))?)
}

fn convert_compatible(alloc: Global, version: Version) -> Result<Ranges<Version>, RangeError>
    requires { 2 ≤ length version.release }
    ensures range { IfOk result (λ r. range_of Operator.TildeEqual version ≡ Some r) }
    ensures refused { IsErrOf result RangeError.NumberAtMax → range_of Operator.TildeEqual version ≡ None }
{
    let end = raise_compatible(alloc, &version)?;
    Ok(Ranges::from_range_bounds(alloc, Bound::Included(version), Bound::Excluded(end))?)
}

// The version of a star with its last part raised: post, pre or release.
fn raise_star(alloc: Global, version: Version) -> Result<Version, RangeError>
    ensures end { IfOk result (λ v. star_end version version.post version.pre ≡ Some (record v { dev = Some 0 })) }
    ensures refused { IsErrOf result RangeError.NumberAtMax → star_end version version.post version.pre ≡ None }
{
    if let Some(post) = version.post() {
        let next = next_number(post)?;
        Ok(version.with_post(alloc, Some(next))?)
    } else if let Some(pre) = version.pre() {
        let next = next_number(pre.number)?;
        let raised = Prerelease {
            kind: pre.kind,
            number: next,
        };
        Ok(version.with_pre(alloc, Some(raised))?)
    } else {
        let numbers = raise_last(alloc, version.release())?;
        Ok(version.with_release(alloc, &numbers)?)
    }
}

fn convert_star(alloc: Global, version: Version) -> Result<Ranges<Version>, RangeError>
    ensures range { IfOk result (λ r. star version ≡ Some r) }
    ensures refused { IsErrOf result RangeError.NumberAtMax → star version ≡ None }
{
    let raised = raise_star(alloc, version.clone()?)?;
    let end = raised.with_dev(alloc, Some(0))?;
    let start = version.with_dev(alloc, Some(0))?;
    Ok(Ranges::from_range_bounds(alloc, Bound::Included(start), Bound::Excluded(end))?)
}

// The range of an operator that raises no number.
fn convert_unraised(
    alloc: Global,
    operator: Operator,
    version: Version,
) -> Result<Ranges<Version>, AllocError>
    requires no_compatible { operator ≢ Operator.TildeEqual }
    requires no_greater { operator ≢ Operator.GreaterThan }
    requires no_star { operator ≢ Operator.EqualStar }
    requires no_other_star { operator ≢ Operator.NotEqualStar }
    ensures { IfOk result (λ r. range_of operator version ≡ Some r) }
{
    match operator {
        Operator::NotEqual => exclude_version(alloc, version),
        Operator::LessThan => convert_less(alloc, version),
        Operator::LessThanEqual => Ranges::lower_than(alloc, version),
        Operator::GreaterThanEqual => Ranges::higher_than(alloc, version),
        _ => Ranges::singleton(alloc, version),
    }
}

// The range, operator by operator.
pub(crate) fn convert(
    alloc: Global,
    operator: Operator,
    version: Version,
) -> Result<Ranges<Version>, RangeError>
    requires { operator ≡ Operator.TildeEqual → 2 ≤ length version.release }
    ensures range { IfOk result (λ r. range_of operator version ≡ Some r) }
    ensures refused { IsErrOf result RangeError.NumberAtMax → range_of operator version ≡ None }
{
    match operator {
        Operator::TildeEqual => convert_compatible(alloc, version),
        Operator::GreaterThan => convert_greater(alloc, version),
        Operator::EqualStar => convert_star(alloc, version),
        Operator::NotEqualStar => {
            let inside = convert_star(alloc, version)?;
            Ok(inside.complement(alloc)?)
        }
        _ => Ok(convert_unraised(alloc, operator, version)?),
    }
}

/// The range of a specifier, by the whole order of versions (PEP 440, "Version specifiers" and "Summary of permitted
/// suffixes and relative ordering").
///
/// Allocates. Returns `NumberAtMax` if a number that has to be raised is 18446744073709551615, and `OutOfMemory`
/// if an allocation fails.
pub fn specifier_to_range(
    alloc: Global,
    specifier: VersionSpecifier,
) -> Result<Ranges<Version>, RangeError>
    ensures range { IfOk result (λ r. range_of specifier.operator specifier.version ≡ Some r) }
    ensures refused { IsErrOf result RangeError.NumberAtMax → range_of specifier.operator specifier.version ≡ None }
    // `NumberAtMax` exactly where the number to be raised is the greatest there is, unless an allocation fails.
    ensures at_max { ReportsMax (raises_max raised_number specifier) result }
    // Where the version is one that a string can have beside the operator, it holds exactly what the specifier
    // contains, as far as the two can be compared.
    ensures agrees { HasOperand specifier → IfOk result (Agrees IsCandidate specifier) }
    // Whatever the suffixes, the range of `<` holds only what matches, and that of `>` all that matches.
    ensures within { HasOperand specifier → IfOk result (HoldsOnlyMatches specifier) }
    ensures around { HasOperand specifier → IfOk result (HoldsAllMatches specifier) }
{
    let (operator, version) = specifier.into_parts();
    convert(alloc, operator, version)
}
