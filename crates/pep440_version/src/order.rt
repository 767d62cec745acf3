//! The order of versions: their keys, part by part (PEP 440, "Summary of permitted suffixes and relative ordering").
ghost use Rattle.std.specs.Prelude.{◌≡◌, [], refl, length, drop, map};
ghost use Rattle.pep440_version.specs.Key.{base_cmp, suffix_cmp, release_cmp, local_cmp, record_cmp};
ghost use Rattle.pep440_version.specs.Key.KeyLaws.{record_equiv, record_po, record_total};
ghost use Rattle.pep440_version.specs.Segments.{segment};
ghost use Rattle.std.specs.Cmp.{partial_equiv_from_equiv};
ghost use Rattle.std.specs.Ordering.{as_partial_cmp, eq_by_cmp};

use crate::key::RankedNumber;
use crate::segment::LocalSegment;
use crate::version::Version;
use std::cmp::Ordering;

/// The order of two releases as if the shorter were padded with zeros (PEP 440, "Public version identifiers").
///
/// Never allocates.
pub fn cmp_releases(a: &[u64], b: &[u64]) -> Ordering
    ensures { result ≡ release_cmp a.now b.now }
{
    let len = if a.len() < b.len() { b.len() } else { a.len() };
    for i in 0..len {
        let x = if i < a.len() { a[i] } else { 0 };
        let y = if i < b.len() { b[i] } else { 0 };
        let ordering = x.cmp(&y);
        if ordering != Ordering::Equal {
            return ordering;
        }
    }
    Ordering::Equal
}

// The order by epoch, then by release.
fn cmp_bases(a: &Version, b: &Version) -> Ordering
    ensures { result ≡ base_cmp a.now b.now }
{
    match a.epoch().cmp(&b.epoch()) {
        Ordering::Equal => cmp_releases(a.release(), b.release()),
        ordering => ordering,
    }
}

// The order by what follows the release, up to the local part.
fn cmp_suffixes(a: &Version, b: &Version) -> Ordering
    ensures { result ≡ suffix_cmp a.now b.now }
{
    let stages = RankedNumber::from_stage(a).cmp(&RankedNumber::from_stage(b));
    let posts = RankedNumber::from_post(a).cmp(&RankedNumber::from_post(b));
    let devs = RankedNumber::from_dev(a).cmp(&RankedNumber::from_dev(b));
    stages.then(posts).then(devs)
}

/// The order of two versions as if neither had a local part (PEP 440, "Version matching").
///
/// Never allocates.
#[inline(always)]
pub fn cmp_without_local(a: &Version, b: &Version) -> Ordering
    ensures { result ≡ record_cmp (record a.now { local = [] }) (record b.now { local = [] }) }
{
    match (a.word(), b.word()) {
        (Some(first), Some(second)) => first.cmp(second),
        _ => cmp_parts_without_local(a, b),
    }
}

// Part by part, up to the local part.
#[inline(never)]
fn cmp_parts_without_local(a: &Version, b: &Version) -> Ordering
    ensures { result ≡ record_cmp (record a.now { local = [] }) (record b.now { local = [] }) }
{
    match cmp_bases(a, b) {
        Ordering::Equal => cmp_suffixes(a, b),
        ordering => ordering,
    }
}

impl PartialEq for Version {
    ghost eq = { eq_by_cmp record_cmp };

    ghost laws = { partial_equiv_from_equiv record_equiv };

    #[inline(always)]
    fn eq(&self, other: &Version) -> bool {
        self.cmp(other) == Ordering::Equal
    }
}

impl Eq for Version {
    ghost laws = { record_equiv };
}

impl PartialOrd for Version {
    ghost partial_cmp = { as_partial_cmp record_cmp };

    ghost laws = { record_po };

    #[inline(always)]
    fn partial_cmp(&self, other: &Version) -> Option<Ordering> {
        Some(self.cmp(other))
    }
}

impl Ord for Version {
    ghost cmp = { record_cmp };

    ghost total = { record_total };

    ghost matches_partial_cmp = { λ a b. refl };

    ghost matches_eq = { λ a b. refl };

    // Two packed versions are compared by their words only.
    #[inline(always)]
    fn cmp(&self, other: &Version) -> Ordering {
        match (self.word(), other.word()) {
            (Some(one), Some(other)) => one.cmp(other),
            _ => cmp_parts(self, other),
        }
    }
}

// Part by part, the local parts too.
#[inline(never)]
fn cmp_parts(a: &Version, b: &Version) -> Ordering
    ensures { result ≡ record_cmp a.now b.now }
{
    match cmp_parts_without_local(a, b) {
        Ordering::Equal => cmp_locals(a.local(), b.local()),
        ordering => ordering,
    }
}

// Segment by segment.
fn cmp_locals(a: &[LocalSegment], b: &[LocalSegment]) -> Ordering
    ensures { result ≡ local_cmp (map segment a.now) (map segment b.now) }
{
    a.cmp(b)
}
