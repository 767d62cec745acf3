//! Versions made of their sort keys. Each byte is tested, and no version is made of another one's key; only the characters of local
//! parts are left to the caller.
ghost use Rattle.std.specs.Prelude.{◌≡◌, ◌↔◌, ◌<◌, ◌≤◌, ◌++◌, ◌||◌, ◌∷◌, [], ℕ, List, is_some, length, map, MatchOption, IfOk, replicate, IfSome, OnOk, Option, Some, None, true};
ghost use Rattle.std.specs.List.{All, flat_map};
ghost use Rattle.pep440_compiled.specs.KeyParts.{BeginsOtherwise, ending_zeros, suffix_bytes};
ghost use Rattle.pep440_version.specs.RoundTrip.{IsParsed, SegmentRoundTrips};
ghost use Rattle.pep440_compiled.specs.KeyViews.{IsViewOf};
ghost use Rattle.pep440_keys.specs.SortKeys.{local_bytes, needed_bytes, number_bytes, rank_bytes, segment_bytes};
ghost use Rattle.pep440_version.specs.Key.{dev_of, dev_rank, post_of, post_rank, stage_of, stage_rank};
ghost use Rattle.pep440_version.specs.Record.{Fits, LocalSegmentValue, Record, SegmentFits, from_parts};
ghost use Rattle.pep440_version.specs.Segments.{segment};
ghost use Rattle.pep440_version.specs.Key.Trim.{trim};
ghost use Rattle.pep440_version.specs.declared.prerelease.Prerelease.{Prerelease};

use crate::key_parts::skip_text;
use crate::views::VersionView;
use pep440_version::key::trim_trailing_zeros;
use pep440_version::{LocalSegment, Prerelease, PrereleaseKind, Version};
use smallvec::SmallVec;
use std::alloc::{AllocError, Global};

// The number of these bytes, the most significant first.
#[inline(never)]
fn to_long_number(bytes: &[u8]) -> Option<u64>
    ensures found { (n : ℕ) → Fits n → bytes.now ≡ needed_bytes n → result ≡ Some n }
    ensures exact { BeginsOtherwise 0 bytes.now → IfSome result (λ n. bytes.now ≡ needed_bytes n) }
{
    let start = 8_usize.checked_sub(bytes.len())?;
    let mut padded = [0; 8];
    padded[start..].copy_from_slice(bytes);
    Some(u64::from_be_bytes(padded))
}

// The number of these bytes, the most significant first; `None` if they are not just those that a number needs. Most numbers need
// one or none.
#[inline(always)]
fn to_number(bytes: &[u8]) -> Option<u64>
    ensures found { (n : ℕ) → Fits n → bytes.now ≡ needed_bytes n → result ≡ Some n }
    ensures exact { IfSome result (λ n. bytes.now ≡ needed_bytes n) }
{
    let Some((first, rest)) = bytes.split_first() else {
        return Some(0);
    };
    if *first == 0 {
        return None;
    }
    if rest.is_empty() {
        return Some(u64::from(*first));
    }
    to_long_number(bytes)
}

// A number of so many bytes, and the rest.
#[inline(always)]
pub(crate) fn read_number(count: u8, bytes: &[u8]) -> Option<(u64, &[u8])>
    ensures found { (n : ℕ) (rest : List ℕ) → Fits n → count ≡ length (needed_bytes n)
        → bytes.now ≡ needed_bytes n ++ rest → MatchOption result ⊥ (λ p. (p.0 ≡ n) × (p.1.now ≡ rest)) }
    ensures exact { IfSome result (λ p. (count ≡ length (needed_bytes p.0)) × (bytes.now ≡ needed_bytes p.0 ++ p.1.now)) }
    ensures shorter { IfSome result (λ p. length p.1.now ≤ length bytes.now) }
{
    let (number, rest) = bytes.split_at_checked(usize::from(count))?;
    Some((to_number(number)?, rest))
}

// A number with the byte that counts its bytes, as an epoch is written, and the rest.
#[inline(always)]
pub(crate) fn read_whole_number(bytes: &[u8]) -> Option<(u64, &[u8])>
    ensures found { (n : ℕ) (rest : List ℕ) → Fits n → bytes.now ≡ number_bytes 0 n ++ rest
        → MatchOption result ⊥ (λ p. (p.0 ≡ n) × (p.1.now ≡ rest)) }
    ensures exact { IfSome result (λ p. bytes.now ≡ number_bytes 0 p.0 ++ p.1.now) }
{
    let (first, rest) = bytes.split_first()?;
    let (number, rest) = read_number(*first, rest)?;
    Some((number, rest))
}

// A number of at most one byte with the byte that counts its bytes, and the rest; `None` of a longer one.
#[inline(always)]
pub(crate) fn read_short_number(bytes: &[u8]) -> Option<(u8, &[u8])>
    ensures found { (n : ℕ) (rest : List ℕ) → Fits n → bytes.now ≡ number_bytes 0 n ++ rest
        → IfSome result (λ p. (p.0 ≡ n) × (p.1.now ≡ rest)) }
    ensures shorter { IfSome result (λ p. length p.1.now < length bytes.now) }
{
    let (count, rest) = bytes.split_first()?;
    if *count == 0 {
        return Some((0, rest));
    }
    if *count > 1 {
        return None;
    }
    let (number, rest) = rest.split_first()?;
    Some((*number, rest))
}

// A rank and its number, as any bytes have them.
#[derive(Clone, Copy)]
struct RankAndNumber {
    rank: u8,
    number: u64,
}

// A rank and its number, and the rest.
fn read_ranked_number(bytes: &[u8]) -> Option<(RankAndNumber, &[u8])>
    ensures found { (rank n : ℕ) (rest : List ℕ) → rank < 16 → Fits n → bytes.now ≡ rank_bytes (rank, n) ++ rest
        → MatchOption result ⊥ (λ p. (p.0.rank ≡ rank) × (p.0.number ≡ n) × (p.1.now ≡ rest)) }
    ensures exact { IfSome result (λ p. bytes.now ≡ rank_bytes (p.0.rank, p.0.number) ++ p.1.now) }
{
    let (first, rest) = bytes.split_first()?;
    let (number, rest) = read_number(*first % 16, rest)?;
    let rank = *first / 16;
    Some((RankAndNumber { rank, number }, rest))
}

// Release numbers up to the 0 that ends them, and the rest.
fn read_numbers(
    alloc: Global,
    bytes: &[u8],
) -> Result<Option<(SmallVec<u64, 4>, &[u8])>, AllocError>
    ensures found { (numbers rest : List ℕ) → All Fits numbers
        → bytes.now ≡ flat_map (number_bytes 1) numbers ++ 0 ∷ rest
        → IfOk result (λ o. MatchOption o ⊥ (λ p. (p.0.items ≡ numbers) × (p.1.now ≡ rest))) }
    ensures exact { IfOk result (λ o. IfSome o (λ p. bytes.now ≡ flat_map (number_bytes 1) p.0.items ++ 0 ∷ p.1.now)) }
{
    let mut numbers = SmallVec::new(alloc);
    let mut left = bytes;
    while let Some((first, later)) = left.split_first() {
        if *first == 0 {
            return Ok(Some((numbers, later)));
        }
        let Some((number, rest)) = read_number(*first - 1, later) else {
            return Ok(None);
        };
        numbers.push(number)?;
        left = rest;
    }
    Ok(None)
}

// Appends zeros.
fn push_zeros(numbers: &mut SmallVec<u64, 4>, zeros: usize) -> Result<(), AllocError>
    ensures { OnOk result (numbers.new.items ≡ numbers.old.items ++ replicate zeros 0) }
{
    for _ in 0..zeros {
        numbers.push(0)?;
    }
    Ok(())
}

// No zero ends the numbers.
fn are_trimmed(numbers: &[u64]) -> bool
    ensures { (result ≡ true) ↔ (trim numbers.now ≡ numbers.now) }
{
    trim_trailing_zeros(numbers).len() == numbers.len()
}

// The release, which ends in so many zeros that the key leaves out; and the rest.
fn read_release(
    alloc: Global,
    bytes: &[u8],
    zeros: usize,
) -> Result<Option<(SmallVec<u64, 4>, &[u8])>, AllocError>
    ensures found { (release rest : List ℕ) → All Fits (trim release) → 0 < length release
        → zeros ≡ ending_zeros release → bytes.now ≡ flat_map (number_bytes 1) (trim release) ++ 0 ∷ rest
        → IfOk result (λ o. MatchOption o ⊥ (λ p. (p.0.items ≡ release) × (p.1.now ≡ rest))) }
    ensures exact { IfOk result (λ o. IfSome o (λ p. (zeros ≡ ending_zeros p.0.items)
        × (bytes.now ≡ flat_map (number_bytes 1) (trim p.0.items) ++ 0 ∷ p.1.now))) }
    ensures some { IfOk result (λ o. IfSome o (λ p. 0 < length p.0.items)) }
{
    let Some((mut numbers, rest)) = read_numbers(alloc, bytes)? else {
        return Ok(None);
    };
    if !are_trimmed(numbers.as_slice()) {
        return Ok(None);
    }
    push_zeros(&mut numbers, zeros)?;
    if numbers.as_slice().is_empty() {
        return Ok(None);
    }
    Ok(Some((numbers, rest)))
}

// Up to the first 0, and what follows it.
fn split_text(bytes: &[u8]) -> Option<(&[u8], &[u8])>
    ensures found { (text rest : List ℕ) → All (λ b. 0 < b) text → bytes.now ≡ text ++ 0 ∷ rest
        → MatchOption result ⊥ (λ p. (p.0.now ≡ text) × (p.1.now ≡ rest)) }
    ensures exact { IfSome result (λ p. bytes.now ≡ p.0.now ++ 0 ∷ p.1.now) }
    ensures shorter { IfSome result (λ p. length p.1.now < length bytes.now) }
{
    let rest = skip_text(bytes)?;
    Some((&bytes[..bytes.len() - rest.len() - 1], rest))
}

// A local segment, whose first byte this is, and the rest.
fn read_segment(
    alloc: Global,
    first: u8,
    bytes: &[u8],
) -> Result<Option<(LocalSegment, &[u8])>, AllocError>
    requires { 0 < first }
    ensures found { (s : LocalSegmentValue) (rest : List ℕ) → SegmentFits s → SegmentRoundTrips s
        → first ∷ bytes.now ≡ segment_bytes s ++ rest → IfOk result (λ o. MatchOption o ⊥ (λ p. (segment p.0 ≡ s) × (p.1.now ≡ rest))) }
    ensures exact { IfOk result (λ o. IfSome o (λ p. first ∷ bytes.now ≡ segment_bytes (segment p.0) ++ p.1.now)) }
    ensures shorter { IfOk result (λ o. IfSome o (λ p. length p.1.now ≤ length bytes.now)) }
{
    if first > 1 {
        let Some((number, rest)) = read_number(first - 2, bytes) else {
            return Ok(None);
        };
        return Ok(Some((LocalSegment::Number(number), rest)));
    }
    let Some((text, rest)) = split_text(bytes) else {
        return Ok(None);
    };
    let Ok(text) = str::from_utf8(text) else {
        return Ok(None);
    };
    Ok(Some((LocalSegment::String(String::from_str(alloc, text)?), rest)))
}

// A local part, after which nothing follows.
fn read_local(alloc: Global, bytes: &[u8]) -> Result<Option<Vec<LocalSegment>>, AllocError>
    ensures found { (local : List LocalSegmentValue) → All SegmentFits local → All SegmentRoundTrips local
        → bytes.now ≡ local_bytes local → IfOk result (λ o. MatchOption o ⊥ (λ segments. map segment segments.items ≡ local)) }
    ensures exact { IfOk result (λ o. IfSome o (λ segments. bytes.now ≡ local_bytes (map segment segments.items))) }
{
    let mut segments = Vec::new(alloc);
    let mut left = bytes;
    while let Some((first, later)) = left.split_first() {
        if *first == 0 {
            if !later.is_empty() {
                return Ok(None);
            }
            return Ok(Some(segments));
        }
        let Some((part, rest)) = read_segment(alloc, *first, later)? else {
            return Ok(None);
        };
        segments.push(part)?;
        left = rest;
    }
    Ok(None)
}

// The rank of the stage of a version without a pre-release: a dev release counts here only by itself.
fn rank_without_pre(post: Option<u64>, dev: Option<u64>) -> u8
    ensures { (result, 0) ≡ stage_rank (stage_of None None dev post None) }
{
    if dev.is_some() && post.is_none() {
        1
    } else {
        5
    }
}

// The pre-release of a stage, beside these parts.
fn pre_of_stage(
    stage: RankAndNumber,
    post: Option<u64>,
    dev: Option<u64>,
) -> Option<Option<Prerelease>>
    ensures found { (pre : Option Prerelease) → (stage.rank, stage.number)
        ≡ stage_rank (stage_of None pre dev post None) → MatchOption result ⊥ (λ found. found ≡ pre) }
    ensures exact { IfSome result (λ pre. (stage.rank, stage.number) ≡ stage_rank (stage_of None pre dev post None)) }
{
    let number = stage.number;
    if stage.rank == rank_without_pre(post, dev) && number == 0 {
        return Some(None);
    }
    let kind = match stage.rank {
        2 => PrereleaseKind::Alpha,
        3 => PrereleaseKind::Beta,
        4 => PrereleaseKind::Rc,
        _ => return None,
    };
    Some(Some(Prerelease { kind, number }))
}

fn post_number(post: RankAndNumber) -> Option<Option<u64>>
    ensures found { (number : Option ℕ) → (post.rank, post.number) ≡ post_rank (post_of None number)
        → MatchOption result ⊥ (λ found. found ≡ number) }
    ensures exact { IfSome result (λ number. (post.rank, post.number) ≡ post_rank (post_of None number)) }
{
    match (post.rank, post.number) {
        (0, 0) => Some(None),
        (1, number) => Some(Some(number)),
        _ => None,
    }
}

fn dev_number(dev: RankAndNumber) -> Option<Option<u64>>
    ensures found { (number : Option ℕ) → (dev.rank, dev.number) ≡ dev_rank (dev_of None number)
        → MatchOption result ⊥ (λ found. found ≡ number) }
    ensures exact { IfSome result (λ number. (dev.rank, dev.number) ≡ dev_rank (dev_of None number)) }
{
    match (dev.rank, dev.number) {
        (0, number) => Some(Some(number)),
        (1, 0) => Some(None),
        _ => None,
    }
}

// What stands between release and local part.
#[derive(Clone, Copy)]
pub(crate) struct SuffixParts {
    pub(crate) pre: Option<Prerelease>,
    pub(crate) post: Option<u64>,
    pub(crate) dev: Option<u64>,
}

// The parts of any suffix.
#[inline(always)]
fn read_any_suffix(bytes: &[u8]) -> Option<(SuffixParts, &[u8])>
    ensures found { (r : Record) (rest : List ℕ) → IsParsed r → bytes.now ≡ suffix_bytes r ++ rest
        → MatchOption result ⊥ (λ p. (p.0.pre ≡ r.pre) × (p.0.post ≡ r.post) × (p.0.dev ≡ r.dev) × (p.1.now ≡ rest)) }
    ensures exact { IfSome result (λ p. bytes.now ≡ suffix_bytes (from_parts 0 [] p.0.pre p.0.post p.0.dev []) ++ p.1.now) }
{
    let (stage, rest) = read_ranked_number(bytes)?;
    let (post_rank, rest) = read_ranked_number(rest)?;
    let (dev_rank, rest) = read_ranked_number(rest)?;
    let post = post_number(post_rank)?;
    let dev = dev_number(dev_rank)?;
    let pre = pre_of_stage(stage, post, dev)?;
    Some((SuffixParts { pre, post, dev }, rest))
}

// The parts of the leading suffix, and the rest.
#[inline(always)]
pub(crate) fn read_suffix(bytes: &[u8]) -> Option<(SuffixParts, &[u8])>
    ensures found { (r : Record) (rest : List ℕ) → IsParsed r → bytes.now ≡ suffix_bytes r ++ rest
        → MatchOption result ⊥ (λ p. (p.0.pre ≡ r.pre) × (p.0.post ≡ r.post) × (p.0.dev ≡ r.dev) × (p.1.now ≡ rest)) }
    ensures exact { IfSome result (λ p. bytes.now ≡ suffix_bytes (from_parts 0 [] p.0.pre p.0.post p.0.dev []) ++ p.1.now) }
{
    // A final release, as most versions are.
    if let [80, 0, 16, rest @ ..] = bytes {
        let none = SuffixParts {
            pre: None,
            post: None,
            dev: None,
        };
        return Some((none, rest));
    }
    read_any_suffix(bytes)
}

impl SuffixParts {
    // A pre-release or a developmental release.
    pub(crate) fn is_pre_or_dev(self) -> bool
        ensures { result ≡ is_some self.pre || is_some self.dev }
    {
        self.pre.is_some() || self.dev.is_some()
    }

    fn is_empty(self) -> bool
        ensures { result ≡ true → (self.pre ≡ None) × (self.post ≡ None) × (self.dev ≡ None) }
    {
        self.pre.is_none() && self.post.is_none() && self.dev.is_none()
    }
}

// The version, which has no such part, with this pre-release, if it is one.
#[inline(always)]
fn add_pre(alloc: Global, version: Version, pre: Option<Prerelease>) -> Result<Version, AllocError>
    requires { version.pre ≡ None }
    ensures { IfOk result (λ v. v ≡ record version { pre = pre }) }
{
    match pre {
        Some(_) => version.with_pre(alloc, pre),
        None => Ok(version),
    }
}

#[inline(always)]
fn add_post(alloc: Global, version: Version, post: Option<u64>) -> Result<Version, AllocError>
    requires { version.post ≡ None }
    ensures { IfOk result (λ v. v ≡ record version { post = post }) }
{
    match post {
        Some(_) => version.with_post(alloc, post),
        None => Ok(version),
    }
}

#[inline(always)]
fn add_dev(alloc: Global, version: Version, dev: Option<u64>) -> Result<Version, AllocError>
    requires { version.dev ≡ None }
    ensures { IfOk result (λ v. v ≡ record version { dev = dev }) }
{
    match dev {
        Some(_) => version.with_dev(alloc, dev),
        None => Ok(version),
    }
}

#[inline(always)]
fn add_epoch(alloc: Global, version: Version, epoch: u64) -> Result<Version, AllocError>
    requires { version.epoch ≡ 0 }
    ensures { IfOk result (λ v. v ≡ record version { epoch = epoch }) }
{
    if epoch == 0 {
        return Ok(version);
    }
    version.with_epoch(alloc, epoch)
}

// Most versions are only a release, and others have few parts; no others are replaced.
fn assemble(
    alloc: Global,
    epoch: u64,
    release: &[u64],
    suffix: SuffixParts,
    local: Vec<LocalSegment>,
) -> Result<Version, AllocError>
    requires { 0 < length release.now }
    ensures { IfOk result (λ v. v ≡ from_parts epoch release.now suffix.pre suffix.post suffix.dev (map segment local.items)) }
{
    let version = Version::new(alloc, release)?;
    if epoch == 0 && suffix.is_empty() && local.is_empty() {
        return Ok(version);
    }
    let version = add_pre(alloc, version, suffix.pre)?;
    let version = add_post(alloc, version, suffix.post)?;
    let version = add_dev(alloc, version, suffix.dev)?;
    let version = add_epoch(alloc, version, epoch)?;
    if local.is_empty() {
        return Ok(version);
    }
    version.with_local(alloc, local)
}

// The version of this sort key, with so many zeros at the end of its release.
pub(crate) fn decode_version(
    alloc: Global,
    view: VersionView<'_>,
) -> Result<Option<Version>, AllocError>
    ensures found { (r : Record) → IsViewOf view.entry r → IfOk result (λ o. o ≡ Some r) }
    ensures exact { IfOk result (λ o. IfSome o (λ version. IsParsed version → IsViewOf view.entry version)) }
{
    let Some((epoch, rest)) = read_whole_number(view.key) else {
        return Ok(None);
    };
    let Some((release, rest)) = read_release(alloc, rest, view.zeros)? else {
        return Ok(None);
    };
    let Some((suffix, rest)) = read_suffix(rest) else {
        return Ok(None);
    };
    let Some(local) = read_local(alloc, rest)? else {
        return Ok(None);
    };
    let version = assemble(alloc, epoch, release.as_slice(), suffix, local)?;
    Ok(Some(version))
}
