//! Many versions filtered by one range, which is built once.
ghost use Rattle.std.specs.Prelude.{◌≡◌, filter, IsErrOf, None, OnErr, OnOk, Some};
ghost use Rattle.std.specs.List.{All};
ghost use Rattle.pep440_ranges.specs.RangeSegments.{contains};
ghost use Rattle.pep440_version.specs.Key.{record_cmp};
ghost use Rattle.pep440_rs.specs.Agreement.{HasOperand, IsCandidate};
ghost use Rattle.pep440_rs.specs.Bounds.{list_range, range_of};
ghost use Rattle.pep440_rs.specs.Matching.{list_matches};
ghost use Rattle.examples.specs.Versions.{versions_within};

use pep440_rs::{RangeError, Ranges, Version, VersionSpecifiers, specifiers_to_ranges};
use std::alloc::Global;

/// Keeps the versions that the range holds.
///
/// Allocates nothing.
pub fn keep(range: &Ranges<Version>, versions: &mut Vec<Version>)
    ensures { versions.new.items ≡ filter (contains record_cmp range.now) versions.old.items }
{
    versions.retain(|version| range.contains(version));
}

/// Keeps the versions that lie in the range of the list.
///
/// Allocates. Returns `NumberAtMax` if a number that has to be raised is the greatest there is. After an error the
/// versions are what they were.
pub fn keep_wanted(
    alloc: Global,
    wanted: VersionSpecifiers,
    versions: &mut Vec<Version>,
) -> Result<(), RangeError>
    ensures kept { OnOk result (versions_within (list_range range_of wanted) versions.old.items ≡ Some versions.new.items) }
    // Of versions without local part whose suffixes range and matching treat alike, these are those that the list contains.
    ensures agrees { All HasOperand wanted → All (λ v. All (λ m. IsCandidate m v) wanted) versions.old.items
        → OnOk result (versions.new.items ≡ filter (list_matches wanted) versions.old.items) }
    ensures at_max { IsErrOf result RangeError.NumberAtMax → list_range range_of wanted ≡ None }
    ensures err { OnErr result (versions.new.items ≡ versions.old.items) }
{
    let range = specifiers_to_ranges(alloc, wanted)?;
    keep(&range, versions);
    Ok(())
}
