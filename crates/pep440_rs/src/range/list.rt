//! The range of a list of specifiers, by either conversion.
ghost use Rattle.std.specs.Prelude.{◌≡◌, IfOk, IsErrOf, Some, None};
ghost use Rattle.std.specs.List.{All, list_any};
ghost use Rattle.pep440_rs.specs.Agreement.{HasOperand, IsCandidate, IsReleaseComparable, ListAgrees, HoldsInEach, HasFewSegments};
ghost use Rattle.pep440_rs.specs.Bounds.{range_of, release_range_of, list_range};
ghost use Rattle.pep440_rs.specs.Conversions.{converted, raised_by};
ghost use Rattle.pep440_rs.specs.RaisedNumbers.{ReportsMax, raised_number, raised_release_number, raises_max};

use crate::list::VersionSpecifiers;
use crate::range::error::RangeError;
use crate::range::intersection::intersect_all;
use crate::range::release_only::release_specifier_to_range;
use crate::range::whole_order::specifier_to_range;
use crate::specifier::VersionSpecifier;
use pep440_ranges::Ranges;
use pep440_version::Version;
use std::alloc::Global;

// How members become ranges.
#[derive(Clone, Copy)]
pub(crate) enum Conversion {
    WholeOrder,
    ReleaseOnly,
}

impl Conversion {
    fn convert(
        self,
        alloc: Global,
        specifier: VersionSpecifier,
    ) -> Result<Ranges<Version>, RangeError>
        ensures range { IfOk result (λ r. converted self specifier.operator specifier.version ≡ Some r) }
        ensures refused { IsErrOf result RangeError.NumberAtMax → converted self specifier.operator specifier.version ≡ None }
        ensures at_max { ReportsMax (raises_max (raised_by self) specifier) result }
    {
        match self {
            Conversion::WholeOrder => specifier_to_range(alloc, specifier),
            Conversion::ReleaseOnly => release_specifier_to_range(alloc, specifier),
        }
    }
}

// The intersection of the members' ranges, in the list's order. Each member is converted first, so that none is left
// out where those before it leave nothing.
fn convert_members(
    alloc: Global,
    conversion: Conversion,
    members: Vec<VersionSpecifier>,
) -> Result<Ranges<Version>, RangeError>
    ensures range { IfOk result (λ r. list_range (converted conversion) members.items ≡ Some r) }
    ensures refused { IsErrOf result RangeError.NumberAtMax → list_range (converted conversion) members.items ≡ None }
    ensures at_max { ReportsMax (list_any (raises_max (raised_by conversion)) members.items) result }
{
    let mut ranges = Vec::new(alloc);
    for member in members {
        let next = conversion.convert(alloc, member)?;
        ranges.push(next)?;
    }
    Ok(intersect_all(alloc, ranges)?)
}

/// The range of a list: all versions, intersected with each member's range in the list's order (PEP 440, "Version
/// specifiers": a version must match each of them). It has at most one segment more than the list has members with `!=`, with or
/// without a star.
///
/// Allocates. Returns `NumberAtMax` if the conversion of some member does, also if the members before it leave
/// no version, and `OutOfMemory` if an allocation fails.
pub fn specifiers_to_ranges(
    alloc: Global,
    specifiers: VersionSpecifiers,
) -> Result<Ranges<Version>, RangeError>
    ensures range { IfOk result (λ r. list_range range_of specifiers ≡ Some r) }
    ensures refused { IsErrOf result RangeError.NumberAtMax → list_range range_of specifiers ≡ None }
    // `NumberAtMax` exactly where some member has to raise the greatest number there is, unless an allocation fails.
    ensures at_max { ReportsMax (list_any (raises_max raised_number) specifiers) result }
    // Where each member's version is one that a string can have beside its operator, it holds exactly what the list
    // contains, as far as range and matching of each can be compared.
    ensures agrees { All HasOperand specifiers → IfOk result (ListAgrees IsCandidate specifiers) }
    // It holds what the range of each member holds.
    ensures set { IfOk result (λ r. HoldsInEach range_of specifiers r) }
    // It has at most one segment more than the list has exclusions.
    ensures count { IfOk result (λ r. HasFewSegments specifiers r) }
{
    let members = specifiers.into_members();
    convert_members(alloc, Conversion::WholeOrder, members)
}

/// The release-only range of a list: all versions, intersected with each member's in the list's order (PEP 440,
/// "Version specifiers" and "Final releases").
///
/// Allocates. Returns `NumberAtMax` if the conversion of some member does, also if the members before it leave
/// no version, and `OutOfMemory` if an allocation fails.
pub fn release_specifiers_to_ranges(
    alloc: Global,
    specifiers: VersionSpecifiers,
) -> Result<Ranges<Version>, RangeError>
    ensures range { IfOk result (λ r. list_range release_range_of specifiers ≡ Some r) }
    ensures refused { IsErrOf result RangeError.NumberAtMax → list_range release_range_of specifiers ≡ None }
    // `NumberAtMax` exactly where some member has to raise the greatest number there is, unless an allocation fails.
    ensures at_max { ReportsMax (list_any (raises_max raised_release_number) specifiers) result }
    // It holds exactly the releases that the list contains.
    ensures agrees { IfOk result (λ r. ListAgrees IsReleaseComparable specifiers r) }
    // It holds what the range of each member holds.
    ensures set { IfOk result (λ r. HoldsInEach release_range_of specifiers r) }
    // It has at most one segment more than the list has exclusions.
    ensures count { IfOk result (λ r. HasFewSegments specifiers r) }
{
    let members = specifiers.into_members();
    convert_members(alloc, Conversion::ReleaseOnly, members)
}
