//! The gaps before, between and after segments.

ghost use Rattle.std.specs.Prelude.{◌≡◌, ◌++◌, IfOk, OnOk};
ghost use Rattle.pep440_ranges.specs.Complement.{gaps, gap_before, gap_after};
ghost use Rattle.pep440_ranges.specs.Clones.{ClonesBound, ClonesEach};

use crate::bound_order::flip_bound;
use crate::segments::Segment;
use std::alloc::{AllocError, Global};
use std::ops::Bound;

// Appends the gap before the start, if there is one.
fn push_gap_before<V: Clone>(
    found: &mut Vec<Segment<V>>,
    start: &Bound<V>,
) -> Result<(), AllocError>
    requires { ClonesBound V.is_clone start.now }
    ensures { OnOk result (found.new.items ≡ found.old.items ++ gap_before start.now) }
{
    if !matches!(start, Bound::Unbounded) {
        found.push((Bound::Unbounded, flip_bound(start)?))?;
    }
    Ok(())
}

// Appends the gap after the end, if there is one.
fn push_gap_after<V: Clone>(found: &mut Vec<Segment<V>>, end: &Bound<V>) -> Result<(), AllocError>
    requires { ClonesBound V.is_clone end.now }
    ensures { OnOk result (found.new.items ≡ found.old.items ++ gap_after end.now) }
{
    if !matches!(end, Bound::Unbounded) {
        found.push((flip_bound(end)?, Bound::Unbounded))?;
    }
    Ok(())
}

// The gaps, in order: one pass, one clone for each bound of a gap.
pub(crate) fn find_gaps<V: Clone>(
    alloc: Global,
    segments: &[Segment<V>],
) -> Result<Vec<Segment<V>>, AllocError>
    requires { ClonesEach V.is_clone segments.now }
    ensures { IfOk result (λ v. v.items ≡ gaps segments.now) }
{
    let mut found = Vec::new(alloc);
    let Some((first, others)) = segments.split_first() else {
        found.push((Bound::Unbounded, Bound::Unbounded))?;
        return Ok(found);
    };
    push_gap_before(&mut found, &first.0)?;
    let mut end = &first.1;
    let mut rest = others;
    while let Some((segment, others)) = rest.split_first() {
        found.push((flip_bound(end)?, flip_bound(&segment.0)?))?;
        end = &segment.1;
        rest = others;
    }
    push_gap_after(&mut found, end)?;
    Ok(found)
}
