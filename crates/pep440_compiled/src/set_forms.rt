//! Sets of versions as compiled forms: what is made of one and of two, and what they hold.
ghost use Rattle.std.specs.Prelude.{◌≡◌, ◌↔◌, ◌∷◌, [], Ok, IfErr, IfOk, IfSome, IsSome, IsTrue, MatchOption, Some, false, map, true};
ghost use Rattle.pep440_compiled.specs.Lists.{HasSetFormat};
ghost use Rattle.pep440_compiled.specs.SetBytes.{set_keys};
ghost use Rattle.pep440_compiled.specs.SetForms.{DenotesSet, HasFewLongKeys, HasFormatOfSets, HasLoneSetFormat, HasSet, IsBytesOf, IsDecidedBy, IsFrontsOf};
ghost use Rattle.pep440_compiled.specs.Version.{DenotesVersion, HasVersionFormat};
ghost use Rattle.pep440_compiled.specs.declared.error.CompiledError.TheVariants as unread;
ghost use Rattle.pep440_compiled.specs.declared.error.ContainsError.TheVariants.{NoList, NoVersion};
ghost use Rattle.pep440_keys.specs.SortKeys.{key_bytes};
ghost use Rattle.pep440_ranges.specs.Complement.{gaps};
ghost use Rattle.pep440_ranges.specs.Intersection.{overlaps};
ghost use Rattle.pep440_ranges.specs.RangeSegments.{contains};
ghost use Rattle.pep440_rs.specs.Bounds.{Segments};
ghost use Rattle.pep440_rs.specs.Matching.{any_prerelease};
ghost use Rattle.pep440_sets.specs.Emptiness.{IsSubset};
ghost use Rattle.pep440_version.specs.Key.{record_cmp};
ghost use Rattle.pep440_version.specs.Record.{Record};
ghost use Rattle.pep440_version.specs.RoundTrip.{IsParsed};

use crate::checked_version::check_version;
use crate::error::{CompiledError, ContainsError};
use crate::list::{WITH_SET, split_set};
use crate::set_bytes::{
    holds_front, holds_key, holds_key_soon, read_fronts, split_by_short_length,
};
use crate::set_operations::{collect_keys, push_gaps, push_overlaps};
use crate::views::{strip_format, view_key, view_version_parts};
use arrayvec::ArrayVec;
use std::alloc::{AllocError, Global};

// The format of sets by themselves.
const SET: u8 = 7;

/// Whether the bytes begin with the format byte of sets by themselves, which no string of a list begins with.
pub fn has_lone_set_format(bytes: &[u8]) -> bool
    ensures { (result ≡ true) ↔ HasLoneSetFormat bytes.now }
{
    bytes.first() == Some(&SET)
}

// The keys of the set that the bytes have.
#[inline(always)]
fn view_set(bytes: &[u8]) -> Option<&[u8]>
    ensures found { (s : Segments) → HasSet bytes.now s → MatchOption result ⊥ (λ keys. IsBytesOf keys.now s) }
    ensures format { IfSome result (λ _. HasFormatOfSets bytes.now) }
{
    if let Some((&SET, keys)) = bytes.split_first() {
        return Some(keys);
    }
    let (keys, _) = split_set(bytes)?;
    Some(keys)
}

// The keys of the set of a list, if their count of bytes is short.
#[inline(always)]
fn view_short_set(list: &[u8]) -> Option<&[u8]>
    ensures found { (s : Segments) → HasSet list.now s → IfSome result (λ keys. IsBytesOf keys.now s) }
    ensures format { IfSome result (λ _. HasSetFormat list.now) }
{
    // Before the bytes are split, so that one test serves for all.
    if list.len() < 3 {
        return None;
    }
    let (format, rest) = list.split_first()?;
    if *format != WITH_SET {
        return None;
    }
    let (keys, _) = split_by_short_length(rest)?;
    Some(keys)
}

/// Whether the version is in the set of a list, as `set_contains` and in fewer instructions, if that is soon found: of a version that is
/// neither a pre-release nor a developmental release, and of a short list. `None` if more has to be looked at.
///
/// Does not allocate.
#[inline(always)]
pub fn set_contains_soon(list: &[u8], version: &[u8]) -> Option<bool>
    ensures found { (s : Segments) (r : Record) → HasSet list.now s → DenotesVersion version.now r
        → IfSome result (λ b. b ≡ contains record_cmp s r) }
    ensures prerelease { (r : Record) → DenotesVersion version.now r → IfSome result (λ _. any_prerelease r ≡ false) }
    ensures format { IfSome result (λ _. HasSetFormat list.now × HasVersionFormat version.now) }
{
    let keys = view_short_set(list)?;
    let version = view_key(strip_format(version)?)?;
    let held = holds_key_soon(keys, version.key)?;
    Some(held)
}

/// Whether the version is in the set of a list, or in a set by itself; and whether it is a pre-release or a developmental release. A list
/// matches the versions of its set literally, as `VersionSpecifiers::matches_literally` (PEP 440, "Version specifiers"). If one is of
/// another format, the error names it; if one denotes nothing, an error or any result.
///
/// Does not allocate.
pub fn set_contains(set: &[u8], version: &[u8]) -> Result<(bool, bool), ContainsError>
    ensures found { (s : Segments) (r : Record) → HasSet set.now s → DenotesVersion version.now r
        → result ≡ Ok (contains record_cmp s r, any_prerelease r) }
    ensures prerelease { (r : Record) → DenotesVersion version.now r → IfOk result (λ found. found.1 ≡ any_prerelease r) }
    ensures format { IfOk result (λ _. HasFormatOfSets set.now × HasVersionFormat version.now) }
    ensures version { IfErr result (λ e. e ≡ NoVersion → (r : Record) → DenotesVersion version.now r → ⊥) }
    ensures list { IfErr result (λ e. e ≡ NoList → (s : Segments) → HasSet set.now s → ⊥) }
{
    let Some(version) = view_version_parts(version) else {
        return Err(ContainsError::NoVersion);
    };
    let Some(keys) = view_set(set) else {
        return Err(ContainsError::NoList);
    };
    match holds_key(keys, version.version.key) {
        Some(held) => Ok((held, version.suffix.is_prerelease)),
        None => Err(ContainsError::NoList),
    }
}

// Whether the set of a list has the version of this sort key, if the list is short.
#[inline(always)]
fn holds_version_soon(list: &[u8], key: &[u8]) -> Option<bool>
    ensures { (s : Segments) (r : Record) → HasSet list.now s → IsParsed r → key.now ≡ key_bytes r
        → IfSome result (λ b. b ≡ contains record_cmp s r) }
{
    let keys = view_short_set(list)?;
    let held = holds_key_soon(keys, key)?;
    Some(held)
}

// Whether the set of a list, or a set by itself, has the version of this sort key.
#[inline(always)]
fn holds_version(set: &[u8], key: &[u8]) -> Option<bool>
    ensures { (s : Segments) (r : Record) → HasSet set.now s → IsParsed r → key.now ≡ key_bytes r
        → result ≡ Some (contains record_cmp s r) }
{
    if let Some(held) = holds_version_soon(set, key) {
        return Some(held);
    }
    let keys = view_set(set)?;
    holds_key(keys, key)
}

/// As `set_contains`, after a test of all bytes of the version: `NoVersion` if they denote none.
///
/// Does not allocate.
#[inline(always)]
pub fn read_membership(set: &[u8], version: &[u8]) -> Result<(bool, bool), ContainsError>
    ensures ok { IfOk result (λ found. (r : Record) × DenotesVersion version.now r × (found.1 ≡ any_prerelease r)
        × ((s : Segments) → HasSet set.now s → found.0 ≡ contains record_cmp s r)) }
    ensures version { IfErr result (λ e. e ≡ NoVersion → (r : Record) → DenotesVersion version.now r → ⊥) }
    ensures list { IfErr result (λ e. e ≡ NoList → (s : Segments) → HasSet set.now s → ⊥) }
{
    let Some(version) = check_version(version) else {
        return Err(ContainsError::NoVersion);
    };
    match holds_version(set, version.key) {
        Some(held) => Ok((held, version.is_prerelease)),
        None => Err(ContainsError::NoList),
    }
}

/// The fronts of a set, the first eight bytes of each key of its intervals: read once, they decide for most versions of a batch.
#[derive(Drop)]
pub struct SetFronts {
    ranges: ArrayVec<(u64, u64), 8>,
}

/// The fronts of the set of a list, or of a set by itself; of each set with at most eight intervals whose keys have at least eight bytes,
/// as keys have unless a release is all zeros. Of bytes that have no set, `None` or any fronts.
///
/// Does not allocate.
pub fn view_fronts(set: &[u8]) -> Option<SetFronts>
    ensures fronts { IfSome result (λ fronts. (s : Segments) → HasSet set.now s → IsFrontsOf fronts s) }
    ensures some { (s : Segments) → HasSet set.now s → HasFewLongKeys s → IsSome result }
{
    let keys = view_set(set)?;
    let ranges = read_fronts(keys)?;
    Some(SetFronts { ranges })
}

/// As `read_membership` of the set that has these fronts, in fewer instructions, if they decide: if the version's key begins with none of
/// them. `None` if more has to be looked at, and of bytes that denote no version.
///
/// Does not allocate.
#[inline(always)]
pub fn read_membership_soon(fronts: &SetFronts, version: &[u8]) -> Option<(bool, bool)>
    ensures some { (r : Record) → DenotesVersion version.now r → IsDecidedBy fronts.now r → IsSome result }
    ensures found { IfSome result (λ found. (r : Record) × DenotesVersion version.now r × (found.1 ≡ any_prerelease r)
        × ((s : Segments) → IsFrontsOf fronts.now s → found.0 ≡ contains record_cmp s r)) }
{
    let version = check_version(version)?;
    let held = holds_front(fronts.ranges.as_slice(), version.key)?;
    Some((held, version.is_prerelease))
}

/// The sort keys between which the versions of a set lie, of a list or by itself: the low key and the high key of each interval, in order, no
/// bytes for none. They are taken from the bytes as they lie. Bytes of another format are `NotCompiled`; of others that have no set,
/// `NotCompiled` or any keys.
///
/// Allocates, and may return `OutOfMemory`.
pub fn set_keys(alloc: Global, set: &[u8]) -> Result<Vec<&[u8]>, CompiledError>
    ensures ok { (s : Segments) → HasSet set.now s → IfOk result (λ keys. map (λ k. k.now) keys.items ≡ set_keys s) }
    ensures format { IfOk result (λ _. HasFormatOfSets set.now) }
    ensures err { (s : Segments) → HasSet set.now s → IfErr result (λ e. e ≡ unread.NotCompiled → ⊥) }
{
    let Some(keys) = view_set(set) else {
        return Err(CompiledError::NotCompiled);
    };
    collect_keys(alloc, keys)
}

// The format byte, with room for so many bytes.
fn begin_set(alloc: Global, capacity: usize) -> Result<Vec<u8>, AllocError>
    ensures { IfOk result (λ bytes. bytes.items ≡ 7 ∷ []) }
{
    let mut bytes = Vec::with_capacity(alloc, capacity)?;
    bytes.push(SET)?;
    Ok(bytes)
}

/// The versions that are not in the set, of a list or by itself, as a set by itself. Bytes of another format are `NotCompiled`; of others
/// that have no set, `NotCompiled` or any set.
///
/// Allocates, and may return `OutOfMemory`.
pub fn complement(alloc: Global, set: &[u8]) -> Result<Vec<u8>, CompiledError>
    ensures ok { (s : Segments) → HasSet set.now s → IfOk result (λ bytes. DenotesSet bytes.items (gaps s)) }
    ensures format { IfOk result (λ _. HasFormatOfSets set.now) }
    ensures err { (s : Segments) → HasSet set.now s → IfErr result (λ e. e ≡ unread.NotCompiled → ⊥) }
{
    let Some(keys) = view_set(set) else {
        return Err(CompiledError::NotCompiled);
    };
    let mut bytes = begin_set(alloc, set.len().saturating_add(2))?;
    push_gaps(&mut bytes, keys)?;
    Ok(bytes)
}

/// The versions that are in both sets, of lists or by themselves, as a set by itself. If one is of another format, `NotCompiled`; if one
/// has no set, `NotCompiled` or any set.
///
/// Allocates, and may return `OutOfMemory`.
pub fn intersection(alloc: Global, left: &[u8], right: &[u8]) -> Result<Vec<u8>, CompiledError>
    ensures ok { (s t : Segments) → HasSet left.now s → HasSet right.now t
        → IfOk result (λ bytes. DenotesSet bytes.items (overlaps record_cmp s t)) }
    ensures format { IfOk result (λ _. HasFormatOfSets left.now × HasFormatOfSets right.now) }
    ensures err { (s t : Segments) → HasSet left.now s → HasSet right.now t → IfErr result (λ e. e ≡ unread.NotCompiled → ⊥) }
{
    let Some(left_keys) = view_set(left) else {
        return Err(CompiledError::NotCompiled);
    };
    let Some(right_keys) = view_set(right) else {
        return Err(CompiledError::NotCompiled);
    };
    let mut bytes = begin_set(alloc, left.len().saturating_add(right.len()))?;
    push_overlaps(&mut bytes, left_keys, right_keys)?;
    Ok(bytes)
}

/// The versions that are in one of the sets, as `intersection`: the complement of what is in neither.
///
/// Allocates, and may return `OutOfMemory`.
pub fn union(alloc: Global, left: &[u8], right: &[u8]) -> Result<Vec<u8>, CompiledError>
    ensures ok { (s t : Segments) → HasSet left.now s → HasSet right.now t
        → IfOk result (λ bytes. DenotesSet bytes.items (gaps (overlaps record_cmp (gaps s) (gaps t)))) }
    ensures format { IfOk result (λ _. HasFormatOfSets left.now × HasFormatOfSets right.now) }
    ensures err { (s t : Segments) → HasSet left.now s → HasSet right.now t → IfErr result (λ e. e ≡ unread.NotCompiled → ⊥) }
{
    let outside_left = complement(alloc, left)?;
    let outside_right = complement(alloc, right)?;
    let neither = intersection(alloc, outside_left.as_slice(), outside_right.as_slice())?;
    complement(alloc, neither.as_slice())
}

/// Whether each version of the left set is in the right one, as `intersection`: whether nothing is in the left one and outside of the right one.
///
/// Allocates, and may return `OutOfMemory`.
pub fn is_subset(alloc: Global, left: &[u8], right: &[u8]) -> Result<bool, CompiledError>
    ensures ok { (s t : Segments) → HasSet left.now s → HasSet right.now t → IfOk result (λ b. IsTrue b ↔ IsSubset s t) }
    ensures format { IfOk result (λ _. HasFormatOfSets left.now × HasFormatOfSets right.now) }
    ensures err { (s t : Segments) → HasSet left.now s → HasSet right.now t → IfErr result (λ e. e ≡ unread.NotCompiled → ⊥) }
{
    let outside = complement(alloc, right)?;
    let rest = intersection(alloc, left, outside.as_slice())?;
    Ok(rest.len() == 1)
}
