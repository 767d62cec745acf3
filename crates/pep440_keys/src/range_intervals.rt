//! The intervals of a segment and of a range.
ghost use Rattle.std.specs.Prelude.{◌≡◌, ◌++◌, ◌∷◌, [], IfOk, map, option_map};
ghost use Rattle.pep440_keys.specs.SortKeys.{key_bytes};
ghost use Rattle.pep440_keys.specs.RangeKeys.{HasKeys, HoldsKeys, high_key, low_key, segment_interval};

use crate::interval::KeyInterval;
use crate::key_bytes::sort_key;
use pep440_ranges::Ranges;
use pep440_version::Version;
use std::alloc::{AllocError, Global};
use std::ops::Bound;

// The least bytes above the key of the version that are no key: above it and below the key of each greater version.
fn key_above(alloc: Global, version: &Version) -> Result<Vec<u8>, AllocError>
    ensures { IfOk result (λ key. key.items ≡ key_bytes version.now ++ 0 ∷ []) }
{
    let mut key = sort_key(alloc, version)?;
    key.push(0)?;
    Ok(key)
}

fn low_key(alloc: Global, start: &Bound<Version>) -> Result<Option<Vec<u8>>, AllocError>
    ensures { IfOk result (λ low. option_map (λ key. key.items) low ≡ low_key start.now) }
{
    match start {
        Bound::Included(version) => Ok(Some(sort_key(alloc, version)?)),
        Bound::Excluded(version) => Ok(Some(key_above(alloc, version)?)),
        Bound::Unbounded => Ok(None),
    }
}

fn high_key(alloc: Global, end: &Bound<Version>) -> Result<Option<Vec<u8>>, AllocError>
    ensures { IfOk result (λ high. option_map (λ key. key.items) high ≡ high_key end.now) }
{
    match end {
        Bound::Included(version) => Ok(Some(key_above(alloc, version)?)),
        Bound::Excluded(version) => Ok(Some(sort_key(alloc, version)?)),
        Bound::Unbounded => Ok(None),
    }
}

/// The interval of the keys of the versions between two bounds. `laws` states that it holds the key of a version exactly if the
/// version lies between the bounds.
///
/// Allocates; the only error is out of memory.
pub fn segment_keys(
    alloc: Global,
    start: &Bound<Version>,
    end: &Bound<Version>,
) -> Result<KeyInterval, AllocError>
    ensures { IfOk result (λ interval. interval ≡ segment_interval (start.now, end.now)) }
{
    let low = low_key(alloc, start)?;
    let high = high_key(alloc, end)?;
    Ok(KeyInterval::new(low, high))
}

// The intervals of the segments, in their order.
fn collect_intervals(alloc: Global, range: &Ranges<Version>) -> Result<Vec<KeyInterval>, AllocError>
    ensures { IfOk result (λ intervals. intervals.items ≡ map segment_interval range.now) }
{
    let mut intervals = Vec::new(alloc);
    for (start, end) in range.iter() {
        intervals.push(segment_keys(alloc, start, end)?)?;
    }
    Ok(intervals)
}

/// The intervals of the range's segments, in their order. The key of a version lies in one of them exactly if the range contains
/// the version.
///
/// Allocates; the only error is out of memory.
pub fn range_keys(alloc: Global, range: &Ranges<Version>) -> Result<Vec<KeyInterval>, AllocError>
    ensures value { IfOk result (λ intervals. intervals.items ≡ map segment_interval range.now) }
    // Of bounds whose local segments have no zero byte the intervals hold exactly the keys of the range's versions.
    ensures holds { HasKeys range.now → IfOk result (λ intervals. HoldsKeys range.now intervals.items) }
{
    collect_intervals(alloc, range)
}
