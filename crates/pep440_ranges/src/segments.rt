//! A list of segments: its iterator, and its copy.

ghost use Rattle.std.specs.Prelude.{◌≡◌, IfOk};
ghost use Rattle.std.specs.Iterator.{YieldsFirstBy, item_count};
ghost use Rattle.pep440_ranges.specs.Clones.{ClonesEach};

use crate::bound_order::clone_bound;
use std::alloc::{AllocError, Global};
use std::marker::Model;
use std::ops::Bound;

/// Where it starts and where it ends.
pub(crate) type Segment<V> = (Bound<V>, Bound<V>);

/// The segments of a range in order, as pairs of a start and an end; made by `Ranges::iter`.
///
/// It never allocates. Contracts see it as the list of the segments that are left.
#[derive(Drop)]
pub struct Segments<'a, V> {
    rest: &'a [Segment<V>],
}

impl<'a, V> Model for Segments<'a, V> {
    ghost use Rattle.std.specs.Prelude.{List};
    ghost use Rattle.pep440_ranges.specs.RangeSegments.{Segment};

    ghost Value = { List (Segment V) };

    ghost view = { λ s. s.rest.now };
}

impl<'a, V> Segments<'a, V> {
    // An iterator over these.
    pub(crate) fn new(segments: &'a [Segment<V>]) -> Self
        ensures { result ≡ segments.now }
    {
        Segments { rest: segments }
    }
}

impl<'a, V> Iterator for Segments<'a, V> {
    type Item = (&'a Bound<V>, &'a Bound<V>);

    ghost next_gives = { YieldsFirstBy (λ x. (x.0.now, x.1.now)) (λ s. s) };

    ghost remaining = { item_count (λ s. s) };

    /// The next segment, or `None` after the last.
    fn next(&mut self) -> Option<(&'a Bound<V>, &'a Bound<V>)> {
        let (first, others) = self.rest.split_first()?;
        self.rest = others;
        Some((&first.0, &first.1))
    }
}

// A copy of the segments, with clones of their values.
pub(crate) fn clone_segments<V: Clone>(
    alloc: Global,
    segments: &[Segment<V>],
) -> Result<Vec<Segment<V>>, AllocError>
    requires { ClonesEach V.is_clone segments.now }
    ensures { IfOk result (λ v. v.items ≡ segments.now) }
{
    let mut copy = Vec::new(alloc);
    let mut rest = segments;
    while let Some((segment, others)) = rest.split_first() {
        copy.push((clone_bound(&segment.0)?, clone_bound(&segment.1)?))?;
        rest = others;
    }
    Ok(copy)
}
