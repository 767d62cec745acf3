//! The intervals of sets as bytes: their keys, complement and intersection, in one pass over them.
ghost use Rattle.std.specs.Prelude.{◌≡◌, ◌<◌, ◌++◌, ◌∷◌, ◌||◌, ◌==◌, [], List, ℕ, IfErr, IfOk, IfSome, MatchOption, OnOk, false, if◌then◌else◌, length, map, true, unwrap_or};
ghost use Rattle.std.specs.List.{All};
ghost use Rattle.std.specs.declared.ops.Bound.{Bound};
ghost use Rattle.pep440_compiled.specs.SetBytes.{IsSized, high_bytes, interval_bytes, low_bytes, set_bytes, set_keys, sized_bytes};
ghost use Rattle.pep440_compiled.specs.SetForms.{IsBytesOf};
ghost use Rattle.pep440_compiled.specs.declared.error.CompiledError.TheVariants as unread;
ghost use Rattle.pep440_keys.specs.RangeKeys.{high_key, is_below_key, segment_interval};
ghost use Rattle.pep440_ranges.specs.Complement.{gaps, gaps_after};
ghost use Rattle.pep440_ranges.specs.Intersection.{overlaps};
ghost use Rattle.pep440_ranges.specs.RangeSegments.{Segment};
ghost use Rattle.pep440_rs.specs.Bounds.{Segments};
ghost use Rattle.pep440_version.specs.Key.{record_cmp};
ghost use Rattle.pep440_version.specs.Record.{Fits, Record};

use crate::byte_order::is_below;
use crate::error::CompiledError;
use crate::set_bytes::{push_with_length, split_by_length};
use std::alloc::{AllocError, Global};

// The low key and the high key of the leading interval, and what follows it.
#[inline(always)]
fn split_interval(set: &[u8]) -> Option<(&[u8], &[u8], &[u8])>
    ensures found { (s : Segment Record) (rest : List ℕ) → IsSized s → set.now ≡ interval_bytes (segment_interval s) ++ rest
        → MatchOption result ⊥ (λ p. (p.0.now ≡ low_bytes (segment_interval s)) × (p.1.now ≡ high_bytes (segment_interval s)) × (p.2.now ≡ rest)) }
    ensures shorter { IfSome result (λ p. length p.2.now < length set.now) }
{
    let (low, rest) = split_by_length(set)?;
    let (high, rest) = split_by_length(rest)?;
    Some((low, high, rest))
}

// The low key and the high key of each interval, as they lie; `NotCompiled` if these are none.
pub(crate) fn collect_keys(alloc: Global, set: &[u8]) -> Result<Vec<&[u8]>, CompiledError>
    ensures ok { (s : Segments) → All IsSized s → set.now ≡ set_bytes s
        → IfOk result (λ keys. map (λ k. k.now) keys.items ≡ set_keys s) }
    ensures err { (s : Segments) → All IsSized s → set.now ≡ set_bytes s → IfErr result (λ e. e ≡ unread.NotCompiled → ⊥) }
{
    let mut keys = Vec::new(alloc);
    let mut left = set;
    while !left.is_empty() {
        let Some((low, high, rest)) = split_interval(left) else {
            return Err(CompiledError::NotCompiled);
        };
        keys.push(low)?;
        keys.push(high)?;
        left = rest;
    }
    Ok(keys)
}

// Appends an interval.
fn push_keys(out: &mut Vec<u8>, low: &[u8], high: &[u8]) -> Result<(), AllocError>
    ensures { OnOk result (out.new.items ≡ out.old.items ++ (sized_bytes low.now ++ sized_bytes high.now)) }
{
    push_with_length(out, low)?;
    push_with_length(out, high)
}

// Appends the gap before a start, if this has a key.
fn push_gap_before(out: &mut Vec<u8>, low: &[u8]) -> Result<(), AllocError>
    ensures { OnOk result (out.new.items ≡ out.old.items ++ (if length low.now == 0 then [] else sized_bytes [] ++ sized_bytes low.now)) }
{
    if !low.is_empty() {
        push_keys(out, b"", low)?;
    }
    Ok(())
}

// Whether the last key of an end and the intervals after it, whose bytes these are, is one. The gaps after that end are these bytes but for
// the byte 0 of no key: it stands after a last key, and is left out if the last one is none.
fn ends_in_key(keys: &[u8]) -> Option<bool>
    ensures found { (end : Bound Record) (s : Segments) → All IsSized s → Fits (length (unwrap_or (high_key end) []))
        → keys.now ≡ sized_bytes (unwrap_or (high_key end) []) ++ set_bytes s
        → MatchOption result ⊥ (λ is_key. (is_key ≡ true → set_bytes (gaps_after end s) ≡ keys.now ++ 0 ∷ [])
        × (is_key ≡ false → keys.now ≡ set_bytes (gaps_after end s) ++ 0 ∷ [])) }
    ensures some { IfSome result (λ _. 0 < length keys.now) }
{
    let mut left = keys;
    while !left.is_empty() {
        let (high, rest) = split_by_length(left)?;
        if rest.is_empty() {
            return Some(!high.is_empty());
        }
        let (_, later) = split_by_length(rest)?;
        left = later;
    }
    None
}

// Appends the gaps after an end, whose key leads, between the intervals and after them, in one piece; `NotCompiled` if these are none.
fn push_gaps_after(out: &mut Vec<u8>, keys: &[u8]) -> Result<(), CompiledError>
    ensures ok { (end : Bound Record) (s : Segments) → All IsSized s → Fits (length (unwrap_or (high_key end) []))
        → keys.now ≡ sized_bytes (unwrap_or (high_key end) []) ++ set_bytes s
        → OnOk result (out.new.items ≡ out.old.items ++ set_bytes (gaps_after end s)) }
    ensures err { (end : Bound Record) (s : Segments) → All IsSized s → Fits (length (unwrap_or (high_key end) []))
        → keys.now ≡ sized_bytes (unwrap_or (high_key end) []) ++ set_bytes s → IfErr result (λ e. e ≡ unread.NotCompiled → ⊥) }
{
    match ends_in_key(keys) {
        Some(true) => {
            out.extend_from_slice(keys)?;
            out.push(0)?;
            Ok(())
        }
        Some(false) => {
            out.extend_from_slice(&keys[..keys.len() - 1])?;
            Ok(())
        }
        None => Err(CompiledError::NotCompiled),
    }
}

// Appends the gaps before, between and after the intervals; `NotCompiled` if these are none.
pub(crate) fn push_gaps(out: &mut Vec<u8>, set: &[u8]) -> Result<(), CompiledError>
    ensures ok { (s : Segments) → IsBytesOf set.now s → OnOk result (out.new.items ≡ out.old.items ++ set_bytes (gaps s)) }
    ensures err { (s : Segments) → IsBytesOf set.now s → IfErr result (λ e. e ≡ unread.NotCompiled → ⊥) }
{
    if set.is_empty() {
        push_keys(out, b"", b"")?;
        return Ok(());
    }
    let Some((low, keys)) = split_by_length(set) else {
        return Err(CompiledError::NotCompiled);
    };
    push_gap_before(out, low)?;
    push_gaps_after(out, keys)
}

// The later of two starts; no key is the first of all.
#[inline(always)]
fn later_start<'a>(low: &'a [u8], other: &'a [u8]) -> &'a [u8]
    ensures { result.now ≡ (if is_below_key low.now other.now then other.now else low.now) }
{
    if is_below(low, other) { other } else { low }
}

// Whether the one end is before the other; no key is the last of all.
#[inline(always)]
fn ends_before(high: &[u8], other: &[u8]) -> bool
    ensures { result ≡ (if length high.now == 0 then false else (length other.now == 0) || is_below_key high.now other.now) }
{
    !high.is_empty() && (other.is_empty() || is_below(high, other))
}

// Appends the interval if keys lie in it.
fn push_valid(out: &mut Vec<u8>, low: &[u8], high: &[u8]) -> Result<(), AllocError>
    ensures { OnOk result (out.new.items ≡ out.old.items
        ++ (if (length high.now == 0) || is_below_key low.now high.now then sized_bytes low.now ++ sized_bytes high.now else [])) }
{
    if high.is_empty() || is_below(low, high) {
        push_keys(out, low, high)?;
    }
    Ok(())
}

// Appends the intervals that two sets share, in one pass over both; `NotCompiled` if one is none.
pub(crate) fn push_overlaps(
    out: &mut Vec<u8>,
    left: &[u8],
    right: &[u8],
) -> Result<(), CompiledError>
    ensures ok { (s t : Segments) → IsBytesOf left.now s → IsBytesOf right.now t
        → OnOk result (out.new.items ≡ out.old.items ++ set_bytes (overlaps record_cmp s t)) }
    ensures err { (s t : Segments) → IsBytesOf left.now s → IsBytesOf right.now t → IfErr result (λ e. e ≡ unread.NotCompiled → ⊥) }
{
    let mut left_rest = left;
    let mut right_rest = right;
    while !left_rest.is_empty() && !right_rest.is_empty() {
        let Some((s_low, s_high, left_others)) = split_interval(left_rest) else {
            return Err(CompiledError::NotCompiled);
        };
        let Some((t_low, t_high, right_others)) = split_interval(right_rest) else {
            return Err(CompiledError::NotCompiled);
        };
        let low = later_start(s_low, t_low);
        // The interval that ends first overlaps nothing later.
        if ends_before(t_high, s_high) {
            push_valid(out, low, t_high)?;
            right_rest = right_others;
        } else {
            push_valid(out, low, s_high)?;
            left_rest = left_others;
        }
    }
    Ok(())
}
