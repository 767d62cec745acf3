//! The merge of two lists of segments into their overlaps.

ghost use Rattle.std.specs.Prelude.{◌≡◌, ◌++◌, IfOk, OnOk};
ghost use Rattle.pep440_ranges.specs.RangeSegments.{IsRange, one_segment};
ghost use Rattle.pep440_ranges.specs.Intersection.{overlaps};
ghost use Rattle.pep440_ranges.specs.Clones.{ClonesBound, ClonesEach};

use crate::bound_order::{clone_bound, ends_before, greater_start, is_valid};
use crate::segments::Segment;
use std::alloc::{AllocError, Global};
use std::ops::Bound;

// Appends the segment between the two bounds, if it is valid.
fn push_valid<V: Ord + Clone>(
    shared: &mut Vec<Segment<V>>,
    start: &Bound<V>,
    end: &Bound<V>,
) -> Result<(), AllocError>
    requires start { ClonesBound V.is_clone start.now }
    requires end { ClonesBound V.is_clone end.now }
    ensures { OnOk result (shared.new.items ≡ shared.old.items ++ one_segment V.cmp start.now end.now) }
{
    if is_valid(start, end) {
        shared.push((clone_bound(start)?, clone_bound(end)?))?;
    }
    Ok(())
}

// The valid overlaps, in order: one pass over both lists, one clone for each bound that is kept.
pub(crate) fn find_overlaps<V: Ord + Clone>(
    alloc: Global,
    left: &[Segment<V>],
    right: &[Segment<V>],
) -> Result<Vec<Segment<V>>, AllocError>
    requires left { IsRange V.cmp left.now }
    requires right { IsRange V.cmp right.now }
    requires clones_left { ClonesEach V.is_clone left.now }
    requires clones_right { ClonesEach V.is_clone right.now }
    ensures { IfOk result (λ v. v.items ≡ overlaps V.cmp left.now right.now) }
{
    // Of n and m segments there are at most n + m - 1 overlaps, so one allocation is enough.
    let most = if left.is_empty() || right.is_empty() {
        0
    } else {
        left.len().saturating_add(right.len()) - 1
    };
    let mut shared = Vec::with_capacity(alloc, most)?;
    let mut left_rest = left;
    let mut right_rest = right;
    while let (Some((s, left_others)), Some((t, right_others))) = (
        left_rest.split_first(),
        right_rest.split_first(),
    ) {
        let start = greater_start(&s.0, &t.0);
        // The segment that ends first overlaps nothing later.
        if ends_before(&t.1, &s.1) {
            push_valid(&mut shared, start, &t.1)?;
            right_rest = right_others;
        } else {
            push_valid(&mut shared, start, &s.1)?;
            left_rest = left_others;
        }
    }
    Ok(shared)
}
