//! The intersection of many ranges, by halves: n ranges of one segment or two take n log n steps.
ghost use Rattle.std.specs.Prelude.{◌≡◌, ◌<◌, IfOk, List, fold, length};
ghost use Rattle.pep440_ranges.specs.Intersection.{overlaps};
ghost use Rattle.std.specs.List.{All};
ghost use Rattle.pep440_rs.specs.Bounds.{Segments, full};
ghost use Rattle.pep440_rs.specs.Conversions.{IsUnchangedByFull};
ghost use Rattle.pep440_version.specs.Key.{record_cmp};

use pep440_ranges::Ranges;
use pep440_version::Version;
use std::alloc::{AllocError, Global};

// Each two neighbours intersected, and the last range itself where their count is odd.
fn intersect_pairs(
    alloc: Global,
    ranges: &[Ranges<Version>],
) -> Result<Vec<Ranges<Version>>, AllocError>
    ensures same { IfOk result (λ v. (now : Segments)
        → fold (overlaps record_cmp) now v.items ≡ fold (overlaps record_cmp) now ranges.now) }
    ensures fewer { 1 < length ranges.now → IfOk result (λ v. length v.items < length ranges.now) }
    ensures kept { All IsUnchangedByFull ranges.now → IfOk result (λ v. All IsUnchangedByFull v.items) }
{
    let mut pairs = Vec::new(alloc);
    let mut rest = ranges;
    while let Some((first, later)) = rest.split_first() {
        match later.split_first() {
            Some((second, others)) => {
                pairs.push(first.intersection(alloc, second)?)?;
                rest = others;
            }
            None => {
                pairs.push(first.clone(alloc)?)?;
                rest = later;
            }
        }
    }
    Ok(pairs)
}

/// The intersection of all these ranges in their order, as if taken one after the other; of none all versions. n ranges of one segment or
/// two take n log n steps, since each pass halves how many there are.
///
/// Allocates; returns `AllocError` if that fails.
pub fn intersect_all(
    alloc: Global,
    ranges: Vec<Ranges<Version>>,
) -> Result<Ranges<Version>, AllocError>
    requires { All IsUnchangedByFull ranges.items }
    ensures { IfOk result (λ r. r ≡ fold (overlaps record_cmp) full ranges.items) }
{
    let mut level = ranges;
    while level.len() > 1 {
        level = intersect_pairs(alloc, &level)?;
    }
    match level.pop() {
        Some(range) => Ok(range),
        None => Ranges::full(alloc),
    }
}
