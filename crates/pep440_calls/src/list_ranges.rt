//! The range of a list, as lines and as bounds.
ghost use Rattle.std.specs.Prelude.{IfOk, OnOk, [], string_bytes, ◌++◌, ◌∷◌, ◌≡◌};
ghost use Rattle.pep440_compiled.specs.Version.{compiled_bytes};
ghost use Rattle.pep440_rs.specs.Bounds.{Segments, range_of, release_range_of};
ghost use Rattle.pep440_calls.specs.Statuses.{HoldsOr, WritesBytesOr, WritesJoinedOr};
ghost use Rattle.pep440_calls.specs.CallerBytes.{ListFaults};
ghost use Rattle.pep440_calls.specs.CallResults.{HasRange, IsRangeLines, JoinsBounds, LacksRange, JoinsRangeBounds, bound_bytes};

use crate::buffer::{put_joined, put_text};
use crate::fault::Fault;
use crate::joined_strings::JoinedStrings;
use crate::read::to_list;
use pep440_compiled::push_compiled_form;
use pep440_ranges::Ranges;
use pep440_rs::{RangeLines, Version, release_specifiers_to_ranges, specifiers_to_ranges};
use std::alloc::{AllocError, Global};
use std::ops::Bound;

/// Writes the range of the list, a segment a line. Status 5 if a bound of it would need a number above the greatest.
pub fn write_range(alloc: Global, list: &[u8], out: &mut [u8], written: &mut usize) -> u8
    ensures { WritesBytesOr (ListFaults ⊥ list.now (LacksRange range_of list.now)) (IsRangeLines list.now)
        out.old out.new written.old written.new result }
{
    put_text(to_range_lines(alloc, list), out, written)
}

/// Writes the range of the list as bounds, two a segment, and where each of them ends: only 0 for no bound, else 1 for an
/// included or 2 for an excluded version, and its compiled form; for one with a sentinel 4 and its sort key and zeros, as of other
/// versions. Reports how many bytes and how many bounds there are. Status 5 if a bound would need a number above the greatest.
pub fn write_range_bounds(
    alloc: Global,
    list: &[u8],
    out: &mut [u8],
    ends: &mut [usize],
    written: &mut usize,
    count: &mut usize,
) -> u8
    ensures { WritesJoinedOr (ListFaults ⊥ list.now (LacksRange range_of list.now)) (JoinsRangeBounds range_of list.now)
        out.old out.new ends.old ends.new written.old written.new count.old count.new result }
{
    put_joined(to_bounds(alloc, list), out, ends, written, count)
}

/// Writes the release-only range of the list (PEP 440, "Final releases"), in the form of `write_range_bounds`. Status 5 if a bound would need a number above the greatest.
pub fn write_release_range_bounds(
    alloc: Global,
    list: &[u8],
    out: &mut [u8],
    ends: &mut [usize],
    written: &mut usize,
    count: &mut usize,
) -> u8
    ensures { WritesJoinedOr (ListFaults ⊥ list.now (LacksRange release_range_of list.now))
        (JoinsRangeBounds release_range_of list.now) out.old out.new ends.old ends.new written.old written.new count.old count.new result }
{
    put_joined(to_release_bounds(alloc, list), out, ends, written, count)
}

fn to_range(alloc: Global, list: &[u8]) -> Result<Ranges<Version>, Fault>
    ensures { HoldsOr (ListFaults ⊥ list.now (LacksRange range_of list.now)) (HasRange range_of list.now) result }
{
    let specifiers = to_list(alloc, list)?;
    Ok(specifiers_to_ranges(alloc, specifiers)?)
}

// The range of a list, a segment a line.
fn to_range_lines(alloc: Global, list: &[u8]) -> Result<String, Fault>
    ensures { HoldsOr (ListFaults ⊥ list.now (LacksRange range_of list.now)) (λ text. IsRangeLines list.now (string_bytes text)) result }
{
    let range = to_range(alloc, list)?;
    Ok(RangeLines(&range).to_string(alloc)?)
}

const INCLUDED: u8 = 1;

const EXCLUDED: u8 = 2;

// The kind of a bound, and its version.
fn compile_kind(alloc: Global, kind: u8, version: &Version) -> Result<Vec<u8>, AllocError>
    ensures { IfOk result (λ bytes. bytes.items ≡ kind ∷ compiled_bytes version.now) }
{
    let mut bytes = Vec::new(alloc);
    bytes.push(kind)?;
    push_compiled_form(&mut bytes, version)?;
    Ok(bytes)
}

fn compile_bound(alloc: Global, bound: &Bound<Version>) -> Result<Vec<u8>, AllocError>
    ensures { IfOk result (λ bytes. bytes.items ≡ bound_bytes bound.now) }
{
    match bound {
        Bound::Included(version) => compile_kind(alloc, INCLUDED, version),
        Bound::Excluded(version) => compile_kind(alloc, EXCLUDED, version),
        Bound::Unbounded => {
            let mut bytes = Vec::new(alloc);
            bytes.push(0)?;
            Ok(bytes)
        }
    }
}

fn push_segment(
    alloc: Global,
    found: &mut JoinedStrings,
    low: &Bound<Version>,
    high: &Bound<Version>,
) -> Result<(), AllocError>
    ensures { (range : Segments) → JoinsBounds range found.old.bytes.items found.old.ends.items
        → OnOk result (JoinsBounds (range ++ (low.now, high.now) ∷ []) found.new.bytes.items found.new.ends.items) }
{
    let low = compile_bound(alloc, low)?;
    let high = compile_bound(alloc, high)?;
    found.push(low.as_slice())?;
    found.push(high.as_slice())?;
    Ok(())
}

// The bounds of the segments, in their order.
#[tactic(auto, using(crate::proofs::Placed::segments_more))]
fn join_bounds(alloc: Global, range: &Ranges<Version>) -> Result<JoinedStrings, AllocError>
    ensures { IfOk result (λ found. JoinsBounds range.now found.bytes.items found.ends.items) }
{
    let mut found = JoinedStrings::with_capacity(alloc, 2)?;
    for (low, high) in range.iter() {
        push_segment(alloc, &mut found, low, high)?;
    }
    Ok(found)
}

fn to_bounds(alloc: Global, list: &[u8]) -> Result<JoinedStrings, Fault>
    ensures { HoldsOr (ListFaults ⊥ list.now (LacksRange range_of list.now))
        (λ found. JoinsRangeBounds range_of list.now found.bytes.items found.ends.items) result }
{
    let range = to_range(alloc, list)?;
    Ok(join_bounds(alloc, &range)?)
}

fn to_release_bounds(alloc: Global, list: &[u8]) -> Result<JoinedStrings, Fault>
    ensures { HoldsOr (ListFaults ⊥ list.now (LacksRange release_range_of list.now))
        (λ found. JoinsRangeBounds release_range_of list.now found.bytes.items found.ends.items) result }
{
    let specifiers = to_list(alloc, list)?;
    let range = release_specifiers_to_ranges(alloc, specifiers)?;
    Ok(join_bounds(alloc, &range)?)
}
