//! Sets as bytes: the sort keys of their intervals, written and searched.
ghost use Rattle.std.specs.Prelude.{◌≡◌, ◌<◌, ◌≤◌, ◌++◌, ◌&&◌, ◌||◌, ◌==◌, [], List, ℕ, IfOk, IfSome, IsSome, MatchOption, OnOk, Some, length, nat_lt, not, take, unwrap_or};
ghost use Rattle.std.specs.List.{All, list_any};
ghost use Rattle.std.specs.Slice.Scan.{big_endian};
ghost use Rattle.pep440_compiled.specs.SetBytes.{AreOthers, HasFronts, HasLongKeys, IsFront, IsLong, IsSized, interval_bytes, set_bytes, sized_bytes};
ghost use Rattle.pep440_keys.specs.RangeKeys.{high_key, is_below_key, is_within, low_key, segment_interval};
ghost use Rattle.pep440_rs.specs.Bounds.{Segments};
ghost use Rattle.pep440_version.specs.Record.{Fits};

use crate::byte_order::{is_below, read_word};
use crate::decode::{read_short_number, read_whole_number};
use arrayvec::ArrayVec;
use pep440_keys::{push_number, push_sort_key};
use pep440_rs::{Ranges, Version};
use std::alloc::{AllocError, Global};
use std::ops::Bound;

// How many bytes there are, and these.
pub(crate) fn push_with_length(bytes: &mut Vec<u8>, item: &[u8]) -> Result<(), AllocError>
    ensures bytes { OnOk result (bytes.new.items ≡ bytes.old.items ++ sized_bytes item.now) }
    ensures size { Fits (length item.now) }
{
    push_number(bytes, 0, item.len() as u64)?;
    if item.is_empty() {
        return Ok(());
    }
    bytes.extend_from_slice(item)
}

// Overwrites `key` with the key of a start: a byte 0 is appended to that of an excluded version, and no bytes stand for no version.
fn write_low_key(key: &mut Vec<u8>, start: &Bound<Version>) -> Result<(), AllocError>
    ensures { OnOk result (key.new.items ≡ unwrap_or (low_key start.now) []) }
{
    key.clear();
    match start {
        Bound::Included(version) => push_sort_key(key, version),
        Bound::Excluded(version) => {
            push_sort_key(key, version)?;
            key.push(0)?;
            Ok(())
        }
        Bound::Unbounded => Ok(()),
    }
}

// Overwrites `key` with the key of an end, in the same way if its version is included.
fn write_high_key(key: &mut Vec<u8>, end: &Bound<Version>) -> Result<(), AllocError>
    ensures { OnOk result (key.new.items ≡ unwrap_or (high_key end.now) []) }
{
    key.clear();
    match end {
        Bound::Included(version) => {
            push_sort_key(key, version)?;
            key.push(0)?;
            Ok(())
        }
        Bound::Excluded(version) => push_sort_key(key, version),
        Bound::Unbounded => Ok(()),
    }
}

// Appends both keys of an interval; `key` is overwritten, so that one allocation serves for all keys.
fn push_interval(
    bytes: &mut Vec<u8>,
    key: &mut Vec<u8>,
    start: &Bound<Version>,
    end: &Bound<Version>,
) -> Result<(), AllocError>
    ensures bytes { OnOk result (bytes.new.items ≡ bytes.old.items ++ interval_bytes (segment_interval (start.now, end.now))) }
    ensures sizes { OnOk result (IsSized (start.now, end.now)) }
{
    write_low_key(key, start)?;
    push_with_length(bytes, key.as_slice())?;
    write_high_key(key, end)?;
    push_with_length(bytes, key.as_slice())
}

/// The sort keys of the intervals, in order, each after how many bytes it has.
pub(crate) fn set_bytes(alloc: Global, set: &Ranges<Version>) -> Result<Vec<u8>, AllocError>
    ensures bytes { IfOk result (λ bytes. bytes.items ≡ set_bytes set.now) }
    ensures sizes { IfOk result (λ _. All IsSized set.now) }
{
    // Estimates: more bytes allocate again.
    let mut key = Vec::with_capacity(alloc, 32)?;
    let mut bytes = Vec::with_capacity(alloc, 64)?;
    for (start, end) in set.iter() {
        push_interval(&mut bytes, &mut key, start, end)?;
    }
    Ok(bytes)
}

// The leading bytes before which their count stands, and the rest.
#[inline(always)]
pub(crate) fn split_by_length(bytes: &[u8]) -> Option<(&[u8], &[u8])>
    ensures found { (item rest : List ℕ) → Fits (length item) → bytes.now ≡ sized_bytes item ++ rest
        → MatchOption result ⊥ (λ p. (p.0.now ≡ item) × (p.1.now ≡ rest)) }
    ensures exact { IfSome result (λ p. bytes.now ≡ sized_bytes p.0.now ++ p.1.now) }
    ensures shorter { IfSome result (λ p. length p.1.now < length bytes.now) }
{
    let (count, rest) = read_whole_number(bytes)?;
    rest.split_at_checked(count as usize)
}

// The leading bytes and the rest in fewer instructions, if their count has at most one byte.
#[inline(always)]
pub(crate) fn split_by_short_length(bytes: &[u8]) -> Option<(&[u8], &[u8])>
    ensures found { (item rest : List ℕ) → Fits (length item) → bytes.now ≡ sized_bytes item ++ rest
        → IfSome result (λ p. (p.0.now ≡ item) × (p.1.now ≡ rest)) }
    ensures shorter { IfSome result (λ p. length p.1.now < length bytes.now) }
{
    let (count, rest) = read_short_number(bytes)?;
    rest.split_at_checked(usize::from(count))
}

// At least the low key, and below the high one; no bytes are no key.
#[inline(always)]
fn is_between(low: &[u8], high: &[u8], key: &[u8]) -> bool
    ensures { result ≡ not (is_below_key key.now low.now) && ((length high.now == 0) || is_below_key key.now high.now) }
{
    !is_below(key, low) && (high.is_empty() || is_below(key, high))
}

// Whether the key lies in an interval of the set.
#[inline(always)]
pub(crate) fn holds_key(set: &[u8], key: &[u8]) -> Option<bool>
    ensures { (segments : Segments) → All IsSized segments → set.now ≡ set_bytes segments
        → result ≡ Some (list_any (λ s. is_within (segment_interval s) key.now) segments) }
{
    let mut left = set;
    while !left.is_empty() {
        let (low, rest) = split_by_length(left)?;
        let (high, rest) = split_by_length(rest)?;
        if is_between(low, high, key) {
            return Some(true);
        }
        left = rest;
    }
    Some(false)
}

// Whether the set holds the key in fewer instructions, if the keys up to the answer are short.
#[inline(always)]
pub(crate) fn holds_key_soon(set: &[u8], key: &[u8]) -> Option<bool>
    ensures { (segments : Segments) → All IsSized segments → set.now ≡ set_bytes segments
        → IfSome result (λ b. b ≡ list_any (λ s. is_within (segment_interval s) key.now) segments) }
{
    let mut left = set;
    while !left.is_empty() {
        let (low, rest) = split_by_short_length(left)?;
        let (high, rest) = split_by_short_length(rest)?;
        if is_between(low, high, key) {
            return Some(true);
        }
        left = rest;
    }
    Some(false)
}

// The first eight bytes of a key as a number; of no key the number that stands for none. `None` of a shorter key.
fn read_front(key: &[u8], none: u64) -> Option<u64>
    ensures front { IfSome result (λ front. IsFront none front key.now) }
    ensures long { IsLong key.now → IsSome result }
{
    if key.is_empty() {
        return Some(none);
    }
    if key.len() < 8 {
        return None;
    }
    Some(read_word(key))
}

// The fronts of both keys of each interval, the least number for no low key and the greatest for no high key; `None` of a set with more
// intervals than there is room for, or with a key that is too short.
pub(crate) fn read_fronts(set: &[u8]) -> Option<ArrayVec<(u64, u64), 8>>
    ensures fronts { (segments : Segments) → All IsSized segments → set.now ≡ set_bytes segments
        → IfSome result (λ fronts. HasFronts fronts.items segments) }
    ensures some { (segments : Segments) → All IsSized segments → set.now ≡ set_bytes segments
        → length segments ≤ 8 → HasLongKeys segments → IsSome result }
{
    let mut fronts = ArrayVec::new();
    let mut left = set;
    while !left.is_empty() {
        let (low, rest) = split_by_length(left)?;
        let (high, rest) = split_by_length(rest)?;
        let low_front = read_front(low, 0)?;
        let high_front = read_front(high, u64::MAX)?;
        if fronts.is_full() {
            return None;
        }
        fronts.push((low_front, high_front));
        left = rest;
    }
    Some(fronts)
}

// Above a low key's front, and below a high one's.
#[inline(always)]
fn is_between_fronts(range: (u64, u64), front: u64) -> bool
    ensures { result ≡ nat_lt range.0 front && nat_lt front range.1 }
{
    range.0 < front && front < range.1
}

// Whether the low key or the high one begins with this.
#[inline(always)]
fn is_at_front(range: (u64, u64), front: u64) -> bool
    ensures { result ≡ (front == range.0) || (front == range.1) }
{
    front == range.0 || front == range.1
}

// Whether the key lies in an interval of the set, if the fronts decide: where none of them is that of the key.
#[inline(always)]
pub(crate) fn holds_front(fronts: &[(u64, u64)], key: &[u8]) -> Option<bool>
    ensures held { (segments : Segments) → HasFronts fronts.now segments
        → IfSome result (λ b. b ≡ list_any (λ s. is_within (segment_interval s) key.now) segments) }
    ensures some { 8 ≤ length key.now → AreOthers (big_endian 0 (take 8 key.now)) fronts.now → IsSome result }
{
    if key.len() < 8 {
        return None;
    }
    let front = read_word(key);
    let mut left = fronts;
    while let Some((range, rest)) = left.split_first() {
        if is_at_front(*range, front) {
            return None;
        }
        if is_between_fronts(*range, front) {
            return Some(true);
        }
        left = rest;
    }
    Some(false)
}
