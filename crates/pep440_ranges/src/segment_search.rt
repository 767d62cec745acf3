//! The segments of a range, searched by halves.
ghost use Rattle.std.specs.Prelude.{◌≡◌};
ghost use Rattle.pep440_ranges.specs.RangeSegments.{IsRange, contains};

use crate::bound_order::{is_from_start, is_up_to_end};
use crate::segments::Segment;

// Whether the value lies in one of the segments, which are those of a range.
pub(crate) fn lies_within<V: Ord + Clone>(segments: &[Segment<V>], value: &V) -> bool
    ensures { IsRange V.cmp segments.now → result ≡ contains V.cmp segments.now value.now }
{
    let (front, from) = segments.split_at(segments.len() / 2);
    let Some((segment, back)) = from.split_first() else {
        return false;
    };
    if !is_from_start(&segment.0, value) {
        lies_within(front, value)
    } else if is_up_to_end(&segment.1, value) {
        true
    } else {
        lies_within(back, value)
    }
}
