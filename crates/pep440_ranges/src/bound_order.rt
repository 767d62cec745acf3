//! Tests of one or two bounds, and clones of one.

ghost use Rattle.std.specs.Prelude.{◌≡◌, IfOk, if◌then◌else◌};
ghost use Rattle.pep440_ranges.specs.BoundOrder.{flipped_bound, is_from_start, is_up_to_end, is_valid, starts_before, ends_before};
ghost use Rattle.pep440_ranges.specs.Clones.{ClonesBound};

use std::alloc::AllocError;
use std::ops::Bound;

// Whether the value is not before the start.
pub(crate) fn is_from_start<V: Ord>(start: &Bound<V>, value: &V) -> bool
    ensures { result ≡ is_from_start V.cmp start.now value.now }
{
    match start {
        Bound::Included(x) => x.cmp(value).is_le(),
        Bound::Excluded(x) => x.cmp(value).is_lt(),
        Bound::Unbounded => true,
    }
}

// Whether the value is not after the end.
pub(crate) fn is_up_to_end<V: Ord>(end: &Bound<V>, value: &V) -> bool
    ensures { result ≡ is_up_to_end V.cmp end.now value.now }
{
    match end {
        Bound::Included(x) => value.cmp(x).is_le(),
        Bound::Excluded(x) => value.cmp(x).is_lt(),
        Bound::Unbounded => true,
    }
}

// Whether the two bounds make a valid segment.
pub(crate) fn is_valid<V: Ord>(start: &Bound<V>, end: &Bound<V>) -> bool
    ensures { result ≡ is_valid V.cmp start.now end.now }
{
    match (start, end) {
        (Bound::Unbounded, _) | (_, Bound::Unbounded) => true,
        (Bound::Included(x), Bound::Included(y)) => x.cmp(y).is_le(),
        (Bound::Included(x), Bound::Excluded(y))
        | (Bound::Excluded(x), Bound::Included(y))
        | (Bound::Excluded(x), Bound::Excluded(y)) => x.cmp(y).is_lt(),
    }
}

// Whether the second of two starts is greater.
fn starts_before<V: Ord>(a: &Bound<V>, b: &Bound<V>) -> bool
    ensures { result ≡ starts_before V.cmp a.now b.now }
{
    match (a, b) {
        (_, Bound::Unbounded) => false,
        (Bound::Unbounded, _) => true,
        (Bound::Included(x), Bound::Excluded(y)) => x.cmp(y).is_le(),
        (Bound::Included(x), Bound::Included(y))
        | (Bound::Excluded(x), Bound::Included(y))
        | (Bound::Excluded(x), Bound::Excluded(y)) => x.cmp(y).is_lt(),
    }
}

// The greater of two starts; the first if they are equal.
pub(crate) fn greater_start<'a, V: Ord>(a: &'a Bound<V>, b: &'a Bound<V>) -> &'a Bound<V>
    ensures { result.now ≡ (if starts_before V.cmp a.now b.now then b.now else a.now) }
{
    if starts_before(a, b) { b } else { a }
}

// Whether the first of two ends is less.
pub(crate) fn ends_before<V: Ord>(a: &Bound<V>, b: &Bound<V>) -> bool
    ensures { result ≡ ends_before V.cmp a.now b.now }
{
    match (a, b) {
        (Bound::Unbounded, _) => false,
        (_, Bound::Unbounded) => true,
        (Bound::Excluded(x), Bound::Included(y)) => x.cmp(y).is_le(),
        (Bound::Included(x), Bound::Included(y))
        | (Bound::Included(x), Bound::Excluded(y))
        | (Bound::Excluded(x), Bound::Excluded(y)) => x.cmp(y).is_lt(),
    }
}

// A copy of the bound, with a clone of its value.
pub(crate) fn clone_bound<V: Clone>(bound: &Bound<V>) -> Result<Bound<V>, AllocError>
    requires { ClonesBound V.is_clone bound.now }
    ensures { IfOk result (λ b. b ≡ bound.now) }
{
    Ok(match bound {
        Bound::Included(x) => Bound::Included(x.clone()?),
        Bound::Excluded(x) => Bound::Excluded(x.clone()?),
        Bound::Unbounded => Bound::Unbounded,
    })
}

// The bound with included and excluded swapped, with a clone of its value.
pub(crate) fn flip_bound<V: Clone>(bound: &Bound<V>) -> Result<Bound<V>, AllocError>
    requires { ClonesBound V.is_clone bound.now }
    ensures { IfOk result (λ b. b ≡ flipped_bound bound.now) }
{
    Ok(match bound {
        Bound::Included(x) => Bound::Excluded(x.clone()?),
        Bound::Excluded(x) => Bound::Included(x.clone()?),
        Bound::Unbounded => Bound::Unbounded,
    })
}
