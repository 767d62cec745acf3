//! The sort key of a version, part after part.
ghost use Rattle.std.specs.Prelude.{◌≡◌, ◌+◌, ◌++◌, ℕ, IfOk, IsOk, OnOk, length, map};
ghost use Rattle.std.specs.List.{flat_map};
ghost use Rattle.pep440_keys.specs.SortKeys.{key_bytes, local_bytes, number_bytes, rank_bytes, segment_bytes};
ghost use Rattle.pep440_version.specs.Record.{from_release};
ghost use Rattle.pep440_version.specs.Segments.{segment};
ghost use Rattle.pep440_version.specs.Key.Trim.{trim};

use crate::number_bytes::push_number;
use crate::sink::KeySink;
use pep440_version::key::{RankedNumber, trim_trailing_zeros};
use pep440_version::{LocalSegment, Version};
use std::alloc::{AllocError, Global};

#[inline(always)]
fn push_numbers<K: KeySink>(key: &mut K, release: &[u64]) -> Result<(), AllocError>
    ensures { OnOk result (K.written key.new ≡ K.written key.old ++ flat_map (number_bytes 1) (trim release.now)) }
{
    for number in trim_trailing_zeros(release) {
        push_number(key, 1, *number)?;
    }
    Ok(())
}

fn push_ranked<K: KeySink>(key: &mut K, ranked: RankedNumber) -> Result<(), AllocError>
    ensures appended { OnOk result (K.written key.new ≡ K.written key.old ++ rank_bytes (ranked.rank, ranked.number)) }
    ensures fits { (more : ℕ) → K.has_capacity key.old (length (rank_bytes (ranked.rank, ranked.number)) + more)
        → IsOk result × K.has_capacity key.new more }
{
    push_number(key, 16 * ranked.rank, ranked.number)
}

// A byte each, and so one piece, if none of them has a number.
pub(crate) fn push_suffix<K: KeySink>(
    key: &mut K,
    stage: RankedNumber,
    post: RankedNumber,
    dev: RankedNumber,
) -> Result<(), AllocError>
    ensures appended { OnOk result (K.written key.new
        ≡ K.written key.old ++ (rank_bytes (stage.rank, stage.number) ++ rank_bytes (post.rank, post.number)
        ++ rank_bytes (dev.rank, dev.number))) }
    ensures fits { (more : ℕ) → K.has_capacity key.old
        (length (rank_bytes (stage.rank, stage.number) ++ rank_bytes (post.rank, post.number)
        ++ rank_bytes (dev.rank, dev.number)) + more) → IsOk result × K.has_capacity key.new more }
{
    if stage.number == 0 && post.number == 0 && dev.number == 0 {
        return key.append(&[16 * stage.rank, 16 * post.rank, 16 * dev.rank]);
    }
    push_ranked(key, stage)?;
    push_ranked(key, post)?;
    push_ranked(key, dev)
}

fn push_segment(key: &mut Vec<u8>, part: &LocalSegment) -> Result<(), AllocError>
    ensures { OnOk result (key.new.items ≡ key.old.items ++ segment_bytes (segment part.now)) }
{
    match part {
        LocalSegment::String(text) => {
            key.push(1)?;
            key.extend_from_slice(text.as_bytes())?;
            key.push(0)?;
            Ok(())
        }
        LocalSegment::Number(number) => push_number(key, 2, *number),
    }
}

fn push_local(key: &mut Vec<u8>, local: &[LocalSegment]) -> Result<(), AllocError>
    ensures { OnOk result (key.new.items ≡ key.old.items ++ local_bytes (map segment local.now)) }
{
    for part in local {
        push_segment(key, part)?;
    }
    key.extend_from_slice(&[0])
}

// The greatest length of a packed version's key, and an estimate for others: a longer key allocates again.
fn estimate_length(version: &Version) -> usize {
    let mut length = version.release().len().saturating_mul(2).saturating_add(10);
    for part in version.local() {
        let bytes = match part {
            LocalSegment::String(text) => text.len(),
            LocalSegment::Number(_) => 0,
        };
        length = length.saturating_add(bytes).saturating_add(2);
    }
    length
}

// The key of a version that is only a release: whatever its numbers, the same bytes surround them.
fn push_release_only(key: &mut Vec<u8>, release: &[u64]) -> Result<(), AllocError>
    ensures { OnOk result (key.new.items ≡ key.old.items ++ key_bytes (from_release release.now)) }
{
    key.extend_from_slice(&[0])?;
    push_numbers(key, release)?;
    key.extend_from_slice(&[0, 80, 0, 16, 0])
}

// The key of any version. All its parts are read before the key is written, so that its form is tested once.
fn push_all_parts(key: &mut Vec<u8>, version: &Version) -> Result<(), AllocError>
    ensures { OnOk result (key.new.items ≡ key.old.items ++ key_bytes version.now) }
{
    let stage = RankedNumber::from_stage(version);
    let post = RankedNumber::from_post(version);
    let dev = RankedNumber::from_dev(version);
    push_number(key, 0, version.epoch())?;
    push_numbers(key, version.release())?;
    key.extend_from_slice(&[0])?;
    push_suffix(key, stage, post, dev)?;
    push_local(key, version.local())
}

/// Appends the sort key of a version, as `sort_key` makes it. If memory runs out, a part of it may have been appended.
///
/// Allocates if the capacity is too small; the only error is out of memory.
pub fn push_sort_key(key: &mut Vec<u8>, version: &Version) -> Result<(), AllocError>
    ensures { OnOk result (key.new.items ≡ key.old.items ++ key_bytes version.now) }
{
    if version.is_release_only() {
        push_release_only(key, version.release())
    } else {
        push_all_parts(key, version)
    }
}

/// The sort key of a version: bytes whose order, byte by byte, is the order of the versions (PEP 440, "Summary of
/// permitted suffixes and relative ordering"); a proper prefix of a key is less. Two keys are the same bytes exactly
/// if the versions are equal, as `1.0` and `1.0.0` are.
///
/// `laws` states this for every version that a string parses to, and for each other one whose local segments have no
/// zero byte. A version with a zero byte in a local segment gets a key too, but its order among the others is not
/// specified.
///
/// Allocates, once for a packed version; the only error is out of memory.
pub fn sort_key(alloc: Global, version: &Version) -> Result<Vec<u8>, AllocError>
    ensures { IfOk result (λ key. key.items ≡ key_bytes version.now) }
{
    let mut key = Vec::with_capacity(alloc, estimate_length(version))?;
    push_sort_key(&mut key, version)?;
    Ok(key)
}
