//! The segments of a range as JSON.
ghost use Rattle.std.specs.Prelude.{◌≡◌, ◌++◌, IfOk};
ghost use Rattle.std.specs.List.{flat_map};
ghost use Rattle.pyver_commands.specs.CommonRanges.{json_bound, json_high, json_low, json_segment, json_segments, json_truth, next_segment};

use crate::version_json::{push_in_quotes, push_text};
use pep440_rs::{Ranges, Segments, Version};
use pep440_sets::{BoundaryText, is_closed_end, is_closed_start};
use std::alloc::{AllocError, Global};
use std::ops::Bound;

fn push_bound(alloc: Global, bytes: &mut Vec<u8>, bound: &Bound<Version>) -> Result<(), AllocError>
    ensures { IfOk result (λ _. bytes.new.items ≡ bytes.old.items ++ json_bound bound.now) }
{
    match bound {
        Bound::Included(_) | Bound::Excluded(_) => {
            push_in_quotes(bytes, BoundaryText(bound).to_string(alloc)?.as_str())
        }
        Bound::Unbounded => push_text(bytes, "null"),
    }
}

fn push_truth(bytes: &mut Vec<u8>, holds: bool) -> Result<(), AllocError>
    ensures { IfOk result (λ _. bytes.new.items ≡ bytes.old.items ++ json_truth holds) }
{
    push_text(bytes, if holds { "true" } else { "false" })
}

fn push_low(alloc: Global, bytes: &mut Vec<u8>, bound: &Bound<Version>) -> Result<(), AllocError>
    ensures { IfOk result (λ _. bytes.new.items ≡ bytes.old.items ++ json_low bound.now) }
{
    push_text(bytes, "\"low\":")?;
    push_bound(alloc, bytes, bound)?;
    push_text(bytes, ",\"low_included\":")?;
    push_truth(bytes, is_closed_start(bound))?;
    Ok(())
}

fn push_high(alloc: Global, bytes: &mut Vec<u8>, bound: &Bound<Version>) -> Result<(), AllocError>
    ensures { IfOk result (λ _. bytes.new.items ≡ bytes.old.items ++ json_high bound.now) }
{
    push_text(bytes, "\"high\":")?;
    push_bound(alloc, bytes, bound)?;
    push_text(bytes, ",\"high_included\":")?;
    push_truth(bytes, is_closed_end(bound))?;
    Ok(())
}

fn push_segment(
    alloc: Global,
    bytes: &mut Vec<u8>,
    start: &Bound<Version>,
    end: &Bound<Version>,
) -> Result<(), AllocError>
    ensures { IfOk result (λ _. bytes.new.items ≡ bytes.old.items ++ json_segment (start.now, end.now)) }
{
    push_text(bytes, "{")?;
    push_low(alloc, bytes, start)?;
    push_text(bytes, ",")?;
    push_high(alloc, bytes, end)?;
    push_text(bytes, "}")
}

fn push_next_segments(
    alloc: Global,
    bytes: &mut Vec<u8>,
    segments: Segments<'_, Version>,
) -> Result<(), AllocError>
    ensures { IfOk result (λ _. bytes.new.items ≡ bytes.old.items ++ flat_map next_segment segments.entry) }
{
    for (start, end) in segments {
        push_text(bytes, ",")?;
        push_segment(alloc, bytes, start, end)?;
    }
    Ok(())
}

// The segments as an array at the end.
pub(crate) fn push_segments(
    alloc: Global,
    bytes: &mut Vec<u8>,
    range: &Ranges<Version>,
) -> Result<(), AllocError>
    ensures { IfOk result (λ _. bytes.new.items ≡ bytes.old.items ++ json_segments range.now) }
{
    let mut segments = range.iter();
    push_text(bytes, "[")?;
    if let Some((start, end)) = segments.next() {
        push_segment(alloc, bytes, start, end)?;
        push_next_segments(alloc, bytes, segments)?;
    }
    push_text(bytes, "]")
}
