//! Compiled versions tested as they lie: each byte of them, without making a version.
ghost use Rattle.std.specs.Prelude.{◌≡◌, ◌<◌, ◌≤◌, ◌++◌, ◌∷◌, ℕ, List, length, IfSome, IsSome, MatchOption, true};
ghost use Rattle.std.specs.List.{All, flat_map};
ghost use Rattle.pep440_compiled.specs.KeyParts.{ending_zeros, suffix_bytes};
ghost use Rattle.pep440_compiled.specs.Version.{DenotesVersion};
ghost use Rattle.pep440_keys.specs.SortKeys.{key_bytes, local_bytes, needed_bytes, number_bytes, segment_bytes};
ghost use Rattle.pep440_rs.specs.Matching.{any_prerelease};
ghost use Rattle.pep440_version.specs.Record.{Fits, LocalSegmentValue, Record, SegmentFits};
ghost use Rattle.pep440_version.specs.RoundTrip.{IsParsed, SegmentRoundTrips};
ghost use Rattle.pep440_version.specs.Key.Trim.{trim};

use crate::decode::read_suffix;
use crate::parsed::is_normal_lower;
use crate::stack_form::split_lower;
use crate::views::{strip_final_suffix, view_version};
use pep440_version::Prerelease;

// A number fits, since it is a `u64`.
fn prove_fits(number: Option<u64>)
    ensures { IfSome number Fits }
{
    if let Some(number) = number {
        let _fits = number;
    }
}

fn prove_pre_fits(pre: Option<Prerelease>)
    ensures { IfSome pre (λ p. Fits p.number) }
{
    if let Some(pre) = pre {
        let _fits = pre.number;
    }
}

// Whether the bytes are just those that a number needs. Which number does not count.
#[inline(always)]
fn is_number(bytes: &[u8]) -> bool
    ensures found { (n : ℕ) → bytes.now ≡ needed_bytes n → result ≡ true }
    ensures exact { result ≡ true → (n : ℕ) × Fits n × (bytes.now ≡ needed_bytes n) }
{
    let Some((first, _)) = bytes.split_first() else {
        return true;
    };
    *first > 0 && bytes.len() <= 8
}

// What follows a number of so many bytes.
#[inline(always)]
fn check_number(count: u8, bytes: &[u8]) -> Option<&[u8]>
    ensures found { (n : ℕ) (rest : List ℕ) → count ≡ length (needed_bytes n) → bytes.now ≡ needed_bytes n ++ rest
        → MatchOption result ⊥ (λ r. r.now ≡ rest) }
    ensures exact { IfSome result (λ r. (n : ℕ) × Fits n × (count ≡ length (needed_bytes n)) × (bytes.now ≡ needed_bytes n ++ r.now)) }
    ensures shorter { IfSome result (λ r. length r.now ≤ length bytes.now) }
{
    let (number, rest) = bytes.split_at_checked(usize::from(count))?;
    if !is_number(number) {
        return None;
    }
    Some(rest)
}

// What follows an epoch, which seldom has a byte.
#[inline(always)]
fn check_epoch(bytes: &[u8]) -> Option<&[u8]>
    ensures found { (n : ℕ) (rest : List ℕ) → bytes.now ≡ number_bytes 0 n ++ rest → MatchOption result ⊥ (λ r. r.now ≡ rest) }
    ensures exact { IfSome result (λ r. (n : ℕ) × Fits n × (bytes.now ≡ number_bytes 0 n ++ r.now)) }
{
    let (first, later) = bytes.split_first()?;
    if *first == 0 {
        return check_number(0, later);
    }
    check_number(*first, later)
}

// What follows a number of a release that has one byte.
#[tactic(auto, using(crate::proofs::Rewritten::coded_again))]
#[inline(always)]
fn check_short_number(bytes: &[u8]) -> Option<&[u8]>
    ensures found { (n : ℕ) (rest : List ℕ) → 1 ≡ length (needed_bytes n) → bytes.now ≡ number_bytes 1 n ++ rest
        → IfSome result (λ r. r.now ≡ rest) }
    ensures exact { IfSome result (λ r. (n : ℕ) × Fits n × (1 ≡ length (needed_bytes n)) × (bytes.now ≡ number_bytes 1 n ++ r.now)) }
    ensures shorter { IfSome result (λ r. length r.now < length bytes.now) }
{
    let (first, later) = bytes.split_first()?;
    if *first != 2 {
        return None;
    }
    check_number(1, later)
}

// What follows the release, which ends in so many zeros that the key leaves out. Another zero may not end its numbers, and one number
// or zero there must be.
#[inline(always)]
fn check_release(bytes: &[u8], zeros: usize) -> Option<&[u8]>
    ensures found { (release rest : List ℕ) → All Fits (trim release) → 0 < length release
        → zeros ≡ ending_zeros release → bytes.now ≡ flat_map (number_bytes 1) (trim release) ++ 0 ∷ rest
        → MatchOption result ⊥ (λ r. r.now ≡ rest) }
    ensures exact { IfSome result (λ r. (release : List ℕ) × All Fits release × (0 < length release)
        × (zeros ≡ ending_zeros release) × (bytes.now ≡ flat_map (number_bytes 1) (trim release) ++ 0 ∷ r.now)) }
{
    let mut may_end = zeros > 0;
    let mut left = bytes;
    // Most numbers have one byte, and take fewer instructions by themselves.
    while let Some(rest) = check_short_number(left) {
        may_end = true;
        left = rest;
    }
    while let Some((first, later)) = left.split_first() {
        if *first == 0 {
            if !may_end {
                return None;
            }
            return Some(later);
        }
        let rest = check_number(*first - 1, later)?;
        may_end = *first > 1;
        left = rest;
    }
    None
}

// What follows a local segment, whose first byte this is.
fn check_segment(first: u8, bytes: &[u8]) -> Option<&[u8]>
    requires { 0 < first }
    ensures found { (s : LocalSegmentValue) (rest : List ℕ) → SegmentFits s → SegmentRoundTrips s
        → first ∷ bytes.now ≡ segment_bytes s ++ rest → MatchOption result ⊥ (λ r. r.now ≡ rest) }
    ensures exact { IfSome result (λ r. (s : LocalSegmentValue) × SegmentFits s × SegmentRoundTrips s
        × (first ∷ bytes.now ≡ segment_bytes s ++ r.now)) }
    ensures shorter { IfSome result (λ r. length r.now ≤ length bytes.now) }
{
    if first > 1 {
        let rest = check_number(first - 2, bytes)?;
        return Some(rest);
    }
    let (text, after) = split_lower(bytes);
    let (end, rest) = after.split_first()?;
    if *end != 0 {
        return None;
    }
    if !is_normal_lower(text) {
        return None;
    }
    Some(rest)
}

// Whether the bytes are a local part, after which nothing follows.
fn is_local_part(bytes: &[u8]) -> bool
    ensures found { (local : List LocalSegmentValue) → All SegmentFits local → All SegmentRoundTrips local
        → bytes.now ≡ local_bytes local → result ≡ true }
    ensures exact { result ≡ true → (local : List LocalSegmentValue) × All SegmentFits local
        × All SegmentRoundTrips local × (bytes.now ≡ local_bytes local) }
{
    let mut left = bytes;
    while let Some((first, later)) = left.split_first() {
        if *first == 0 {
            return later.is_empty();
        }
        let Some(rest) = check_segment(*first, later) else {
            return false;
        };
        left = rest;
    }
    false
}

// Whether the bytes are a suffix and a local part, after which nothing follows, of a pre-release or a developmental release. A call of its
// own, so that final releases pay nothing for it.
#[inline(never)]
fn check_any_suffix(bytes: &[u8]) -> Option<bool>
    ensures found { (r : Record) → IsParsed r → bytes.now ≡ suffix_bytes r ++ local_bytes r.local → IsSome result }
    ensures exact { IfSome result (λ is_prerelease. (r : Record) × IsParsed r × (bytes.now ≡ suffix_bytes r ++ local_bytes r.local)
        × (is_prerelease ≡ any_prerelease r)) }
{
    let (suffix, local) = read_suffix(bytes)?;
    if !is_local_part(local) {
        return None;
    }
    prove_pre_fits(suffix.pre);
    prove_fits(suffix.post);
    prove_fits(suffix.dev);
    Some(suffix.is_pre_or_dev())
}

// Whether the bytes are such a suffix and such a local part of any version; in fewer instructions of a final release, as most are.
#[inline(always)]
fn check_suffix(bytes: &[u8]) -> Option<bool>
    ensures found { (r : Record) → IsParsed r → bytes.now ≡ suffix_bytes r ++ local_bytes r.local → IsSome result }
    ensures exact { IfSome result (λ is_prerelease. (r : Record) × IsParsed r × (bytes.now ≡ suffix_bytes r ++ local_bytes r.local)
        × (is_prerelease ≡ any_prerelease r)) }
{
    if let Some(rest) = strip_final_suffix(bytes) {
        if rest.is_empty() {
            return Some(false);
        }
    }
    check_any_suffix(bytes)
}

// A version whose bytes were tested: its sort key, and whether it is a pre-release or a developmental release.
#[derive(Clone, Copy)]
pub(crate) struct CheckedVersion<'a> {
    pub(crate) key: &'a [u8],
    pub(crate) is_prerelease: bool,
}

// The version that the bytes denote.
#[inline(always)]
pub(crate) fn check_version(bytes: &[u8]) -> Option<CheckedVersion<'_>>
    ensures found { (r : Record) → DenotesVersion bytes.now r → IsSome result }
    ensures exact { IfSome result (λ version. (r : Record) × DenotesVersion bytes.now r × (version.key.now ≡ key_bytes r)
        × (version.is_prerelease ≡ any_prerelease r)) }
{
    let view = view_version(bytes)?;
    let numbers = check_epoch(view.key)?;
    let suffix = check_release(numbers, view.zeros)?;
    let is_prerelease = check_suffix(suffix)?;
    Some(CheckedVersion {
        key: view.key,
        is_prerelease,
    })
}
