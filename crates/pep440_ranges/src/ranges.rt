//! The ranges and their calls.

ghost use Rattle.std.specs.Prelude.{◌≡◌, ◌∷◌, [], ◌+◌, ◌-◌, ◌≤◌, ◌↔◌, length, IfOk, not, ◌&&◌, true, false, IsTrue};
ghost use Rattle.std.specs.Ordering.{is_eq, is_lt, is_le};
ghost use Rattle.std.specs.declared.ops.Bound.TheVariants.{Included, Excluded, Unbounded};
ghost use Rattle.pep440_ranges.specs.RangeSegments.{lies_in, contains, IsRange, one_segment};
ghost use Rattle.pep440_ranges.specs.Complement.{gaps};
ghost use Rattle.pep440_ranges.specs.Intersection.{overlaps};
ghost use Rattle.pep440_ranges.specs.Clones.{IsCloneSame, ClonesBoundValues};

use crate::bound_order::is_valid;
use crate::gaps::find_gaps;
use crate::merge::find_overlaps;
use crate::segment_search::lies_within;
use crate::segments::{Segment, Segments, clone_segments};
use std::alloc::{AllocError, Global};
use std::marker::Model;
use std::ops::Bound;

/// The values that lie in one of a list of segments, in order and apart from each other.
///
/// Contracts see a range as that list. Calls that clone values require that a clone of each stored value is that same
/// value.
#[derive(Drop)]
pub struct Ranges<V: Ord + Clone> {
    segments: Vec<Segment<V>>,
}

impl<V: Ord + Clone> Model for Ranges<V> {
    ghost use Rattle.std.specs.Prelude.{List};
    ghost use Rattle.pep440_ranges.specs.RangeSegments.{Segment, IsRange};

    ghost Value = { List (Segment V) };

    ghost view = { λ r. r.segments.items };

    ghost invariant = { λ r. IsRange V.cmp r.segments.items };
}

impl<V: Ord + Clone> Ranges<V> {
    /// The empty range, which has no segment. Allocates nothing.
    pub fn empty(alloc: Global) -> Self
        ensures segments { result ≡ [] }
        ensures set { (v : V) → contains V.cmp result v ≡ false }
    {
        Ranges {
            segments: Vec::new(alloc),
        }
    }

    /// The range of all values: the one segment that is unbounded on both sides.
    ///
    /// Allocates; returns `AllocError` if that fails.
    pub fn full(alloc: Global) -> Result<Self, AllocError>
        ensures segments { IfOk result (λ r. r ≡ (Unbounded, Unbounded) ∷ []) }
        ensures set { IfOk result (λ r. (v : V) → contains V.cmp r v ≡ true) }
    {
        Self::from_range_bounds(alloc, Bound::Unbounded, Bound::Unbounded)
    }

    /// The range of just this value: the segment from it to it, both included. The value is cloned.
    ///
    /// Allocates; returns `AllocError` if that fails.
    pub fn singleton(alloc: Global, value: V) -> Result<Self, AllocError>
        requires { IsCloneSame V.is_clone value }
        ensures segments { IfOk result (λ r. r ≡ (Included value, Included value) ∷ []) }
        ensures set { IfOk result (λ r. (v : V) → contains V.cmp r v ≡ is_eq (V.cmp v value)) }
    {
        let start = value.clone()?;
        Self::from_range_bounds(alloc, Bound::Included(start), Bound::Included(value))
    }

    /// The range of this value and all greater ones.
    ///
    /// Allocates; returns `AllocError` if that fails.
    pub fn higher_than(alloc: Global, value: V) -> Result<Self, AllocError>
        ensures segments { IfOk result (λ r. r ≡ (Included value, Unbounded) ∷ []) }
        ensures set { IfOk result (λ r. (v : V) → contains V.cmp r v ≡ is_le (V.cmp value v)) }
    {
        Self::from_range_bounds(alloc, Bound::Included(value), Bound::Unbounded)
    }

    /// The range of all greater values.
    ///
    /// Allocates; returns `AllocError` if that fails.
    pub fn strictly_higher_than(alloc: Global, value: V) -> Result<Self, AllocError>
        ensures segments { IfOk result (λ r. r ≡ (Excluded value, Unbounded) ∷ []) }
        ensures set { IfOk result (λ r. (v : V) → contains V.cmp r v ≡ is_lt (V.cmp value v)) }
    {
        Self::from_range_bounds(alloc, Bound::Excluded(value), Bound::Unbounded)
    }

    /// The range of this value and all smaller ones.
    ///
    /// Allocates; returns `AllocError` if that fails.
    pub fn lower_than(alloc: Global, value: V) -> Result<Self, AllocError>
        ensures segments { IfOk result (λ r. r ≡ (Unbounded, Included value) ∷ []) }
        ensures set { IfOk result (λ r. (v : V) → contains V.cmp r v ≡ is_le (V.cmp v value)) }
    {
        Self::from_range_bounds(alloc, Bound::Unbounded, Bound::Included(value))
    }

    /// The range of all smaller values.
    ///
    /// Allocates; returns `AllocError` if that fails.
    pub fn strictly_lower_than(alloc: Global, value: V) -> Result<Self, AllocError>
        ensures segments { IfOk result (λ r. r ≡ (Unbounded, Excluded value) ∷ []) }
        ensures set { IfOk result (λ r. (v : V) → contains V.cmp r v ≡ is_lt (V.cmp v value)) }
    {
        Self::from_range_bounds(alloc, Bound::Unbounded, Bound::Excluded(value))
    }

    /// The range between two bounds: the segment from start to end if it is valid, else no segment. It is valid if
    /// one side is unbounded, the start is below the end, or both are included and equal.
    ///
    /// Allocates; returns `AllocError` if that fails.
    pub fn from_range_bounds(
        alloc: Global,
        start: Bound<V>,
        end: Bound<V>,
    ) -> Result<Self, AllocError>
        ensures segments { IfOk result (λ r. r ≡ one_segment V.cmp start end) }
        ensures set { IfOk result (λ r. (v : V) → contains V.cmp r v ≡ lies_in V.cmp (start, end) v) }
    {
        let mut segments = Vec::new(alloc);
        if is_valid(&start, &end) {
            segments.push((start, end))?;
        }
        Ok(Ranges { segments })
    }

    /// The values that the range does not contain: all values if it has no segment, else the gaps before, between and
    /// after the segments, each bound with included and excluded swapped. n segments have at most n + 1 gaps.
    ///
    /// Allocates; returns `AllocError` if that fails.
    pub fn complement(&self, alloc: Global) -> Result<Self, AllocError>
        requires { ClonesBoundValues V.is_clone self.now }
        ensures segments { IfOk result (λ r. r ≡ gaps self.now) }
        ensures set { IfOk result (λ r. (v : V) → contains V.cmp r v ≡ not (contains V.cmp self.now v)) }
        ensures count { IfOk result (λ r. length r ≤ length self.now + 1) }
    {
        Ok(Ranges {
            segments: find_gaps(alloc, &self.segments)?,
        })
    }

    /// The values that both ranges contain: the valid overlaps of a segment of self with one of other, ascending. An
    /// overlap has the greater start and the lesser end; at equal values an excluded bound wins, and of two equal
    /// bounds, self's is cloned. n and m segments have at most n + m - 1 overlaps, and none if n or m is 0.
    ///
    /// One pass over both lists: n + m steps of at most three comparisons, and a clone for each bound that is kept. Allocates; returns
    /// `AllocError` if that fails.
    pub fn intersection(&self, alloc: Global, other: &Self) -> Result<Self, AllocError>
        requires here { ClonesBoundValues V.is_clone self.now }
        requires there { ClonesBoundValues V.is_clone other.now }
        ensures segments { IfOk result (λ r. r ≡ overlaps V.cmp self.now other.now) }
        ensures set { IfOk result (λ r. (v : V) → contains V.cmp r v ≡ contains V.cmp self.now v && contains V.cmp other.now v) }
        ensures count { IfOk result (λ r. length r ≤ length self.now + length other.now - 1) }
        ensures none_here { IfOk result (λ r. self.now ≡ [] → r ≡ []) }
        ensures none_there { IfOk result (λ r. other.now ≡ [] → r ≡ []) }
    {
        Ok(Ranges {
            segments: find_overlaps(alloc, &self.segments, &other.segments)?,
        })
    }

    /// Whether the value lies in a segment. n segments take log n steps. Never allocates.
    pub fn contains(&self, value: &V) -> bool
        ensures set { result ≡ contains V.cmp self.now value.now }
    {
        lies_within(&self.segments, value)
    }

    /// Whether there is no segment, so that no value is contained. Never allocates.
    ///
    /// A range with a segment may still contain no value, if none lies between its bounds.
    pub fn is_empty(&self) -> bool
        ensures segments { IsTrue result ↔ (self.now ≡ []) }
        ensures set { IsTrue result → (v : V) → contains V.cmp self.now v ≡ false }
    {
        self.segments.is_empty()
    }

    /// A range with these segments.
    ///
    /// Allocates; returns `AllocError` if that fails.
    pub fn clone(&self, alloc: Global) -> Result<Self, AllocError>
        requires { ClonesBoundValues V.is_clone self.now }
        ensures segments { IfOk result (λ r. r ≡ self.now) }
    {
        Ok(Ranges {
            segments: clone_segments(alloc, &self.segments)?,
        })
    }

    /// The segments in order, as pairs of a start and an end. Never allocates.
    ///
    /// Each segment is valid, and apart from the next: its end is below the next one's start, or
    /// both are excluded and equal.
    pub fn iter(&self) -> Segments<'_, V>
        ensures segments { result ≡ self.now }
        ensures apart { IsRange V.cmp self.now }
    {
        Segments::new(&self.segments)
    }
}
