//! A version between the boundaries of an interval.
ghost use Rattle.std.specs.Prelude.{◌≡◌, ◌++◌, ◌∷◌, ◌-◌, [], IfOk, List, OnOk, drop, length, map, replicate, slice_index_or, string_bytes};
ghost use Rattle.pep440_sets.specs.NextVersions.{first_dev};
ghost use Rattle.pep440_sets.specs.Witnesses.{above_posts, release_above, low_string, string_after, version_between, version_in, with_low_segment};
ghost use Rattle.pep440_version.specs.Segments.{segment};

use crate::next_versions::{assemble, first_dev, least_version};
use pep440_rs::Ranges;
use pep440_version::{LocalSegment, Version};
use std::alloc::{AllocError, Global};
use std::ops::Bound;

// The number at this place of the release, 0 after its end.
fn number_at(release: &[u64], place: usize) -> u64
    ensures { result ≡ slice_index_or release.now place 0 }
{
    if place < release.len() {
        release[place]
    } else {
        0
    }
}

// The numbers of a release, padded with zeros where there are fewer than these, then 1.
#[tactic(auto, using(crate::proofs::Raised::pushed))]
fn release_above(alloc: Global, depth: usize, release: &[u64]) -> Result<Vec<u64>, AllocError>
    ensures { IfOk result (λ v. v.items ≡ release_above depth release.now) }
{
    let mut numbers = Vec::new(alloc);
    for place in 0..depth {
        numbers.push(number_at(release, place))?;
    }
    numbers.push(1)?;
    Ok(numbers)
}

// The first dev release of a release above that of the version, with as many numbers and one more.
#[tactic(auto, using(crate::proofs::VersionsBetween::above_some))]
fn next_dev(alloc: Global, version: &Version, depth: usize) -> Result<Version, AllocError>
    ensures { IfOk result (λ v. v ≡ first_dev version.now.epoch (release_above depth version.now.release)) }
{
    let release = release_above(alloc, depth, version.release())?;
    first_dev(alloc, version.epoch(), &release)
}

// Above the post-releases of the release of a version.
fn above_posts(
    alloc: Global,
    version: &Version,
    end: &Bound<Version>,
) -> Result<Version, AllocError>
    ensures { IfOk result (λ v. v ≡ above_posts version.now end.now) }
{
    let depth = version.release().len();
    match end {
        Bound::Included(last) => last.clone(),
        Bound::Excluded(end) if Version::max(end).is_some() => {
            assemble(alloc, end.epoch(), end.release(), None, None, None)
        }
        Bound::Excluded(end) => next_dev(alloc, version, depth.max(end.release().len())),
        Bound::Unbounded => next_dev(alloc, version, depth),
    }
}

// Some zeros and the letter a.
fn low_string(alloc: Global, zeros: usize) -> Result<String, AllocError>
    ensures { IfOk result (λ text. string_bytes text ≡ low_string zeros) }
{
    let mut text = String::new(alloc);
    for _ in 0..zeros {
        text.push('0')?;
    }
    text.push('a')?;
    Ok(text)
}

// Of the segment of the second local part that comes after all of the first, the bytes if it is a string.
fn string_after(local: &[LocalSegment], other: &[LocalSegment]) -> usize
    ensures { result ≡ string_after (map segment local.now) (map segment other.now) }
{
    match (local.split_first(), other.split_first()) {
        (None, Some((LocalSegment::String(text), _))) => text.len(),
        (Some((_, local)), Some((_, other))) => string_after(local, other),
        (None, Some((LocalSegment::Number(_), _))) | (_, None) => 0,
    }
}

fn copy_segments(alloc: Global, local: &[LocalSegment]) -> Result<Vec<LocalSegment>, AllocError>
    ensures { IfOk result (λ copies. map segment copies.items ≡ map segment local.now) }
{
    let mut copies = Vec::new(alloc);
    for segment in local {
        copies.push(segment.clone()?)?;
    }
    Ok(copies)
}

fn with_low_segment(alloc: Global, version: &Version, zeros: usize) -> Result<Version, AllocError>
    ensures { IfOk result (λ v. v ≡ with_low_segment version.now zeros) }
{
    let mut local = copy_segments(alloc, version.local())?;
    local.push(LocalSegment::String(low_string(alloc, zeros)?))?;
    version.clone()?.with_local(alloc, local)
}

// Just above a version with a local part.
fn above_local(
    alloc: Global,
    version: &Version,
    end: &Bound<Version>,
) -> Result<Version, AllocError>
    ensures { IfOk result (λ v. v ≡ version_between (Bound.Excluded version.now) end.now) }
{
    match end {
        Bound::Included(last) => last.clone(),
        Bound::Excluded(end) => {
            let zeros = string_after(version.local(), end.local());
            with_low_segment(alloc, version, zeros)
        }
        Bound::Unbounded => with_low_segment(alloc, version, 0),
    }
}

// A version between the boundaries of an interval of a set: the least, where there is one.
pub(crate) fn version_between(
    alloc: Global,
    start: &Bound<Version>,
    end: &Bound<Version>,
) -> Result<Version, AllocError>
    ensures { IfOk result (λ v. v ≡ version_between start.now end.now) }
{
    match start {
        Bound::Unbounded => least_version(alloc),
        Bound::Included(first) if Version::max(first).is_some() => above_posts(alloc, first, end),
        Bound::Included(first) => first.clone(),
        Bound::Excluded(before) => above_local(alloc, before, end),
    }
}

// A version of the set: the least, where there is one.
pub(crate) fn first_version(
    alloc: Global,
    set: &Ranges<Version>,
) -> Result<Option<Version>, AllocError>
    ensures { IfOk result (λ found. found ≡ version_in set.now) }
{
    match set.iter().next() {
        Some((start, end)) => Ok(Some(version_between(alloc, start, end)?)),
        None => Ok(None),
    }
}
