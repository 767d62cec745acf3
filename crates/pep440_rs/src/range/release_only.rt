//! The range of a specifier, by releases only.
ghost use Rattle.std.specs.Prelude.{◌≡◌, ◌≢◌, ◌≤◌, ◌<◌, length, IfOk, IsErrOf, Some, None};
ghost use Rattle.pep440_rs.specs.Agreement.{Agrees, IsReleaseComparable};
ghost use Rattle.pep440_rs.specs.Bounds.{release_range_of, release_up_to};
ghost use Rattle.pep440_rs.specs.RaisedNumbers.{ReportsMax, raised_release_number, raises_max};
ghost use Rattle.pep440_version.specs.Record.{Record, from_release};

use crate::range::error::RangeError;
use crate::range::next_release::raise_last;
use crate::specifier::VersionSpecifier;
use crate::specifier::contains::without_last;
use crate::specifier::operator::Operator;
use pep440_ranges::Ranges;
use pep440_version::Version;
use std::alloc::{AllocError, Global};
use std::ops::Bound;

// Up to the release with the last number of these raised.
fn convert_prefix(
    alloc: Global,
    release: &[u64],
    numbers: &[u64],
) -> Result<Ranges<Version>, RangeError>
    requires release { 0 < length release.now }
    requires numbers { 0 < length numbers.now }
    ensures range { IfOk result (λ r. release_up_to release.now numbers.now ≡ Some r) }
    ensures refused { IsErrOf result RangeError.NumberAtMax → release_up_to release.now numbers.now ≡ None }
{
    let next = raise_last(alloc, numbers)?;
    let start = Version::new(alloc, release)?;
    let end = Version::new(alloc, &next)?;
    Ok(Ranges::from_range_bounds(alloc, Bound::Included(start), Bound::Excluded(end))?)
}

// `!=`: all but the release.
fn exclude_release(alloc: Global, release: Version) -> Result<Ranges<Version>, AllocError>
    requires { release ≡ from_release release.release }
    ensures { IfOk result (λ r. release_range_of Operator.NotEqual release ≡ Some r) }
{
    let one = Ranges::singleton(alloc, release)?;
    one.complement(alloc)
}

// The range of an operator that raises no number.
fn convert_unraised(
    alloc: Global,
    operator: Operator,
    release: Version,
) -> Result<Ranges<Version>, AllocError>
    requires only { release ≡ from_release release.release }
    requires no_compatible { operator ≢ Operator.TildeEqual }
    requires no_star { operator ≢ Operator.EqualStar }
    requires no_other_star { operator ≢ Operator.NotEqualStar }
    ensures { IfOk result (λ r. release_range_of operator release ≡ Some r) }
{
    match operator {
        Operator::NotEqual => exclude_release(alloc, release),
        Operator::LessThan => Ranges::strictly_lower_than(alloc, release),
        Operator::LessThanEqual => Ranges::lower_than(alloc, release),
        Operator::GreaterThan => Ranges::strictly_higher_than(alloc, release),
        Operator::GreaterThanEqual => Ranges::higher_than(alloc, release),
        _ => Ranges::singleton(alloc, release),
    }
}

// The range, operator by operator.
fn convert_release(
    alloc: Global,
    operator: Operator,
    version: &Version,
) -> Result<Ranges<Version>, RangeError>
    requires { operator ≡ Operator.TildeEqual → 2 ≤ length version.now.release }
    ensures range { IfOk result (λ r. release_range_of operator version.now ≡ Some r) }
    ensures refused { IsErrOf result RangeError.NumberAtMax → release_range_of operator version.now ≡ None }
{
    let numbers = version.release();
    match operator {
        Operator::TildeEqual => convert_prefix(alloc, numbers, without_last(numbers)),
        Operator::EqualStar => convert_prefix(alloc, numbers, numbers),
        Operator::NotEqualStar => {
            let inside = convert_prefix(alloc, numbers, numbers)?;
            Ok(inside.complement(alloc)?)
        }
        _ => Ok(convert_unraised(alloc, operator, version.only_release(alloc)?)?),
    }
}

/// The release-only range of a specifier: the range of its release, whatever its other parts (PEP 440, "Version
/// specifiers" and "Final releases").
///
/// Allocates. Returns `NumberAtMax` if a number that has to be raised is 18446744073709551615, and `OutOfMemory`
/// if an allocation fails.
pub fn release_specifier_to_range(
    alloc: Global,
    specifier: VersionSpecifier,
) -> Result<Ranges<Version>, RangeError>
    ensures range { IfOk result (λ r. release_range_of specifier.operator specifier.version ≡ Some r) }
    ensures refused { IsErrOf result RangeError.NumberAtMax → release_range_of specifier.operator specifier.version ≡ None }
    // `NumberAtMax` exactly where the number to be raised is the greatest there is, unless an allocation fails.
    ensures at_max { ReportsMax (raises_max raised_release_number specifier) result }
    // It holds exactly the releases that the specifier contains.
    ensures agrees { IfOk result (Agrees IsReleaseComparable specifier) }
{
    convert_release(alloc, *specifier.operator(), specifier.version())
}
