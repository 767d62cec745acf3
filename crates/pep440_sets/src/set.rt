//! Sets of versions, and what can be asked of them.
ghost use Rattle.std.specs.Prelude.{◌≡◌, ◌↔◌, ◌&&◌, ◌||◌, IfOk, IfSome, IsErrOf, IsTrue, None, not, true};
ghost use Rattle.std.specs.List.{All};
ghost use Rattle.pep440_ranges.specs.RangeSegments.{contains};
ghost use Rattle.pep440_rs.specs.Denoted.{IsDenotable};
ghost use Rattle.pep440_sets.specs.Sets.{HoldsListMatches, has_exact, list_set};
ghost use Rattle.pep440_sets.specs.Emptiness.{HasNoVersion, IsDisjoint, IsSubset, IsVersionOf};
ghost use Rattle.pep440_sets.specs.Witnesses.{version_in};
ghost use Rattle.pep440_version.specs.Key.{record_cmp};
ghost use Rattle.pep440_version.specs.Record.{Record};

use crate::convert::specifiers_to_set;
use crate::error::SetError;
use crate::witness::first_version;
use pep440_rs::{Ranges, VersionSpecifier};
use pep440_version::Version;
use std::alloc::{AllocError, Global};
use std::marker::Model;

/// A set of versions: intervals of their order, apart from each other (PEP 440, "Summary of permitted suffixes and relative ordering").
/// An interval begins and ends at a version, above all post-releases of a release, or just above a version with a local part, so that
/// some version lies in each.
#[derive(Drop)]
pub struct VersionSet {
    intervals: Ranges<Version>,
}

impl Model for VersionSet {
    ghost use Rattle.pep440_rs.specs.Bounds.{Segments};
    ghost use Rattle.pep440_sets.specs.Boundaries.{IsVersionSet};

    ghost Value = { Segments };

    ghost view = { λ s. s.intervals };

    ghost invariant = { λ s. IsVersionSet s.intervals };
}

impl VersionSet {
    /// The versions that match each of these specifiers by the literal rule, as `VersionSpecifier::matches_literally` has it (PEP 440, "Version
    /// specifiers"). Each must be one that a string denotes. n specifiers take n log n steps.
    ///
    /// Allocates. Returns `ArbitraryEquality` exactly if some specifier has the operator `===`, and `OutOfMemory` if an allocation fails.
    #[tactic(auto, using(crate::proofs::Lists::list_is_set, crate::proofs::Lists::list_holds))]
    pub fn from_specifiers(
        alloc: Global,
        specifiers: &[VersionSpecifier],
    ) -> Result<VersionSet, SetError>
        requires { All IsDenotable specifiers.now }
        ensures value { IfOk result (λ set. set ≡ list_set specifiers.now) }
        ensures matches { IfOk result (HoldsListMatches specifiers.now) }
        ensures exact { IsErrOf result SetError.ArbitraryEquality ↔ (has_exact specifiers.now ≡ true) }
    {
        let intervals = specifiers_to_set(alloc, specifiers)?;
        Ok(VersionSet { intervals })
    }

    /// Whether the version is in the set. Never allocates.
    pub fn contains(&self, version: &Version) -> bool
        ensures { result ≡ contains record_cmp self.now version.now }
    {
        self.intervals.contains(version)
    }

    /// The intervals of the set, in order. Never allocates.
    pub fn intervals(&self) -> &Ranges<Version>
        ensures { result.now ≡ self.now }
    {
        &self.intervals
    }

    /// The versions that are not in the set.
    ///
    /// Allocates.
    #[tactic(auto, using(crate::proofs::SetBoundaries::gaps_set))]
    pub fn complement(&self, alloc: Global) -> Result<VersionSet, AllocError>
        ensures { IfOk result (λ set. (v : Record) → contains record_cmp set v ≡ not (contains record_cmp self.now v)) }
    {
        let intervals = self.intervals.complement(alloc)?;
        Ok(VersionSet { intervals })
    }

    /// The versions that are in both sets, in one pass over both.
    ///
    /// Allocates.
    #[tactic(auto, using(crate::proofs::SetBoundaries::overlaps_set))]
    pub fn intersection(&self, alloc: Global, other: &VersionSet) -> Result<VersionSet, AllocError>
        ensures { IfOk result (λ set. (v : Record) → contains record_cmp set v ≡ contains record_cmp self.now v && contains record_cmp other.now v) }
    {
        let intervals = self.intervals.intersection(alloc, &other.intervals)?;
        Ok(VersionSet { intervals })
    }

    /// The versions that are in either set: the complement of what is in neither.
    ///
    /// Allocates.
    pub fn union(&self, alloc: Global, other: &VersionSet) -> Result<VersionSet, AllocError>
        ensures { IfOk result (λ set. (v : Record) → contains record_cmp set v ≡ contains record_cmp self.now v || contains record_cmp other.now v) }
    {
        let without = self.complement(alloc)?;
        let neither = without.difference(alloc, other)?;
        let either = neither.complement(alloc)?;
        Ok(either)
    }

    /// The versions that are in this set and not in the other.
    ///
    /// Allocates.
    pub fn difference(&self, alloc: Global, other: &VersionSet) -> Result<VersionSet, AllocError>
        ensures { IfOk result (λ set. (v : Record) → contains record_cmp set v ≡ contains record_cmp self.now v && not (contains record_cmp other.now v)) }
    {
        let outside = other.complement(alloc)?;
        let rest = self.intersection(alloc, &outside)?;
        Ok(rest)
    }

    /// Whether no version is in the set. Never allocates.
    pub fn is_empty(&self) -> bool
        ensures { IsTrue result ↔ HasNoVersion self.now }
    {
        self.intervals.is_empty()
    }

    /// Whether each version of this set is in the other.
    ///
    /// Allocates.
    pub fn is_subset(&self, alloc: Global, other: &VersionSet) -> Result<bool, AllocError>
        ensures { IfOk result (λ b. IsTrue b ↔ IsSubset self.now other.now) }
    {
        let rest = self.difference(alloc, other)?;
        Ok(rest.is_empty())
    }

    /// Whether no version is in both sets.
    ///
    /// Allocates.
    pub fn is_disjoint(&self, alloc: Global, other: &VersionSet) -> Result<bool, AllocError>
        ensures { IfOk result (λ b. IsTrue b ↔ IsDisjoint self.now other.now) }
    {
        let both = self.intersection(alloc, other)?;
        Ok(both.is_empty())
    }

    /// A version of the set, or `None` if there is none: the least, unless the set begins just above a version with a local part or above
    /// all post-releases of a release: then none is least.
    ///
    /// Allocates.
    pub fn find_version(&self, alloc: Global) -> Result<Option<Version>, AllocError>
        ensures value { IfOk result (λ found. found ≡ version_in self.now) }
        ensures inside { IfOk result (λ found. IfSome found (IsVersionOf self.now)) }
        ensures none { IfOk result (λ found. (found ≡ None) ↔ HasNoVersion self.now) }
    {
        let found = first_version(alloc, &self.intervals)?;
        Ok(found)
    }
}
