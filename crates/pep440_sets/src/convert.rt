//! The set of a specifier, operator by operator, and of a list.
ghost use Rattle.std.specs.Ordering.{is_eq};
ghost use Rattle.std.specs.Prelude.{◌≡◌, ◌<◌, ◌∷◌, ◌↔◌, [], IfOk, IsErrOf, false, length, true};
ghost use Rattle.std.specs.declared.ops.Bound.TheVariants.{Unbounded};
ghost use Rattle.pep440_ranges.specs.Complement.{gaps};
ghost use Rattle.pep440_rs.specs.Matching.{without_last};
ghost use Rattle.pep440_version.specs.Key.{record_cmp};
ghost use Rattle.pep440_sets.specs.NextVersions.{least};
ghost use Rattle.pep440_sets.specs.Sets.{above_start, below_end, between, equal_to, from_version_on, has_exact, is_exact, list_set, specifier_set, prefix_set};

use crate::error::SetError;
use crate::next_versions::{
    after_posts, after_public, after_release_prefix, first_dev, least_version,
};
use pep440_rs::{Operator, Ranges, VersionSpecifier};
use pep440_version::Version;
use std::alloc::{AllocError, Global};
use std::ops::Bound;

// Whether the release begins with a number above 0, as no version does that is the least of all.
#[tactic(auto, using(crate::proofs::Intervals::above_least))]
fn begins_above_zero(version: &Version) -> bool
    ensures { result ≡ true → is_eq (record_cmp version.now least) ≡ false }
{
    match version.release().first() {
        Some(number) => *number != 0,
        None => false,
    }
}

// Whether it is the least of all versions.
fn is_least(alloc: Global, version: &Version) -> Result<bool, AllocError>
    ensures { IfOk result (λ b. b ≡ is_eq (record_cmp version.now least)) }
{
    if begins_above_zero(version) {
        return Ok(false);
    }
    let least = least_version(alloc)?;
    Ok(version.cmp(&least).is_eq())
}

// Where the versions from this one on begin.
fn start_at(alloc: Global, version: Version) -> Result<Bound<Version>, AllocError>
    ensures { IfOk result (λ start. from_version_on version ≡ (start, Unbounded) ∷ []) }
{
    if is_least(alloc, &version)? {
        return Ok(Bound::Unbounded);
    }
    Ok(Bound::Included(version))
}

// From a version on.
#[tactic(auto, using(crate::proofs::Intervals::open_end))]
fn from_version_on(alloc: Global, version: Version) -> Result<Ranges<Version>, AllocError>
    ensures { IfOk result (λ r. r ≡ from_version_on version) }
{
    let start = start_at(alloc, version)?;
    Ranges::from_range_bounds(alloc, start, Bound::Unbounded)
}

// Below a version.
#[tactic(auto, using(crate::proofs::Intervals::below_is))]
fn below_version(alloc: Global, version: Version) -> Result<Ranges<Version>, AllocError>
    ensures { IfOk result (λ r. r ≡ gaps (from_version_on version)) }
{
    if is_least(alloc, &version)? {
        return Ok(Ranges::empty(alloc));
    }
    Ranges::strictly_lower_than(alloc, version)
}

// From one version on and below another; without an end all from the first on.
#[tactic(auto, using(crate::proofs::Intervals::between_is))]
fn between(
    alloc: Global,
    start: Version,
    end: Option<Version>,
) -> Result<Ranges<Version>, AllocError>
    ensures { IfOk result (λ r. r ≡ between start end) }
{
    let Some(end) = end else {
        return from_version_on(alloc, start);
    };
    if is_least(alloc, &end)? {
        return Ok(Ranges::empty(alloc));
    }
    let start = start_at(alloc, start)?;
    Ranges::from_range_bounds(alloc, start, Bound::Excluded(end))
}

// `==`
fn equal_to(alloc: Global, version: &Version) -> Result<Ranges<Version>, AllocError>
    ensures { IfOk result (λ r. r ≡ equal_to version.now) }
{
    if version.is_local() {
        return Ranges::singleton(alloc, version.clone()?);
    }
    let end = after_public(alloc, version)?;
    between(alloc, version.clone()?, Some(end))
}

// `==` with a star.
fn prefix_set(alloc: Global, version: &Version) -> Result<Ranges<Version>, AllocError>
    ensures { IfOk result (λ r. r ≡ prefix_set version.now) }
{
    let start = first_dev(alloc, version.epoch(), version.release())?;
    let end = after_release_prefix(alloc, version.epoch(), version.release())?;
    between(alloc, start, end)
}

// All numbers but the last.
fn without_last(release: &[u64]) -> &[u64]
    requires { 0 < length release.now }
    ensures { result.now ≡ without_last release.now }
{
    &release[..release.len() - 1]
}

// `~=`
fn compatible(alloc: Global, version: &Version) -> Result<Ranges<Version>, AllocError>
    ensures { IfOk result (λ r. r ≡ specifier_set Operator.TildeEqual version.now) }
{
    let end = after_release_prefix(alloc, version.epoch(), without_last(version.release()))?;
    between(alloc, version.clone()?, end)
}

// Where `<` ends.
fn below_end(alloc: Global, version: &Version) -> Result<Version, AllocError>
    ensures { IfOk result (λ v. v ≡ below_end version.now) }
{
    if version.any_prerelease() {
        version.clone()
    } else if version.is_post() {
        version.clone()?.with_dev(alloc, Some(0))
    } else {
        first_dev(alloc, version.epoch(), version.release())
    }
}

// Where `>` begins.
fn above_start(alloc: Global, version: &Version) -> Result<Version, AllocError>
    ensures { IfOk result (λ v. v ≡ above_start version.now) }
{
    if version.is_post() || version.is_dev() {
        after_public(alloc, version)
    } else {
        after_posts(alloc, version)
    }
}

// The set of a specifier; of `===` all versions.
pub(crate) fn specifier_set(
    alloc: Global,
    specifier: &VersionSpecifier,
) -> Result<Ranges<Version>, AllocError>
    ensures { IfOk result (λ r. r ≡ specifier_set specifier.now.operator specifier.now.version) }
{
    let version = specifier.version();
    match specifier.operator() {
        Operator::Equal => equal_to(alloc, version),
        Operator::NotEqual => equal_to(alloc, version)?.complement(alloc),
        Operator::EqualStar => prefix_set(alloc, version),
        Operator::NotEqualStar => prefix_set(alloc, version)?.complement(alloc),
        Operator::TildeEqual => compatible(alloc, version),
        Operator::LessThan => below_version(alloc, below_end(alloc, version)?),
        Operator::LessThanEqual => below_version(alloc, after_public(alloc, version)?),
        Operator::GreaterThan => from_version_on(alloc, above_start(alloc, version)?),
        Operator::GreaterThanEqual => from_version_on(alloc, version.clone()?),
        Operator::ExactEqual => Ranges::full(alloc),
    }
}

// The intersection of the sets of the members, by halves: n members take n log n steps. `===` counts as all versions.
#[tactic(auto, using(crate::proofs::Lists::halves, crate::proofs::Lists::one_member))]
pub(crate) fn list_set(
    alloc: Global,
    members: &[VersionSpecifier],
) -> Result<Ranges<Version>, AllocError>
    ensures { IfOk result (λ r. r ≡ list_set members.now) }
{
    if members.len() > 1 {
        let (left, right) = members.split_at(members.len() / 2);
        let common = list_set(alloc, left)?;
        return common.intersection(alloc, &list_set(alloc, right)?);
    }
    match members.split_first() {
        Some((member, _)) => specifier_set(alloc, member),
        None => Ranges::full(alloc),
    }
}

// Whether the specifier compares how versions are written.
pub(crate) fn is_exact(specifier: &VersionSpecifier) -> bool
    ensures { result ≡ is_exact specifier.now.operator }
{
    matches!(specifier.operator(), Operator::ExactEqual)
}

fn has_exact(specifiers: &[VersionSpecifier]) -> bool
    ensures { result ≡ has_exact specifiers.now }
{
    specifiers.iter().any(is_exact)
}

/// The intervals of the versions that match each of these specifiers by the literal rule (PEP 440, "Version specifiers"), as
/// `VersionSet::from_specifiers` has them. n specifiers take n log n steps.
///
/// Allocates. Returns `ArbitraryEquality` exactly if some specifier has the operator `===`, and `OutOfMemory` if an allocation fails.
pub fn specifiers_to_set(
    alloc: Global,
    specifiers: &[VersionSpecifier],
) -> Result<Ranges<Version>, SetError>
    ensures value { IfOk result (λ set. set ≡ list_set specifiers.now) }
    ensures without { IfOk result (λ set. has_exact specifiers.now ≡ false) }
    ensures exact { IsErrOf result SetError.ArbitraryEquality ↔ (has_exact specifiers.now ≡ true) }
{
    if has_exact(specifiers) {
        return Err(SetError::ArbitraryEquality);
    }
    let set = list_set(alloc, specifiers)?;
    Ok(set)
}
