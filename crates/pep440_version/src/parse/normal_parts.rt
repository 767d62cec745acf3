//! The short pass for what is not packed: the letter `v`, an epoch, up to four small numbers and a suffix of each kind in
//! its normal spelling, read byte by byte.
ghost use Rattle.std.specs.Prelude.{◌≡◌, ◌++◌, [], List, IfSome, ℕ};
ghost use Rattle.pep440_version.specs.Grammar.{Derives, IsEpoch, IsPre};
ghost use Rattle.pep440_version.specs.Normal.{HasSuffix, IsClassOfKind};
ghost use Rattle.pep440_version.specs.Reading.{skip_v};
ghost use Rattle.pep440_version.specs.Record.{from_parts};

use super::normal::{parse_class, parse_small_number, parse_small_release};
use crate::prerelease::{Prerelease, PrereleaseKind};
use crate::release::Release;
use crate::word::{ALPHA, BETA, DEV, POST, RC};

// The parts of a version but for a local part and sentinels.
#[derive(Drop)]
pub(crate) struct NormalParts {
    pub(crate) epoch: u64,
    pub(crate) release: Release,
    pub(crate) pre: Option<Prerelease>,
    pub(crate) post: Option<u64>,
    pub(crate) dev: Option<u64>,
}

// The bytes without a leading letter v.
#[inline(always)]
fn skip_letter(text: &[u8]) -> &[u8]
    ensures { result.now ≡ skip_v text.now }
{
    match text {
        [b'v' | b'V', rest @ ..] => rest,
        _ => text,
    }
}

// The leading epoch, 0 if none is written, and the rest.
#[inline(always)]
fn parse_normal_epoch(text: &[u8]) -> (u64, &[u8])
    ensures { (e : List ℕ) × IsEpoch e result.0 × (text.now ≡ e ++ result.1.now) }
{
    if let Some((number, after)) = parse_small_number(text) {
        if let [b'!', rest @ ..] = after {
            return (number, rest);
        }
    }
    (0, text)
}

// The kind of pre-release of a class.
#[inline(always)]
fn find_kind(class: u64) -> Option<PrereleaseKind>
    ensures { IfSome result (IsClassOfKind class) }
{
    if class == ALPHA {
        Some(PrereleaseKind::Alpha)
    } else if class == BETA {
        Some(PrereleaseKind::Beta)
    } else if class == RC {
        Some(PrereleaseKind::Rc)
    } else {
        None
    }
}

// The leading pre-release, and the rest.
#[inline(always)]
fn parse_normal_pre(text: &[u8]) -> (Option<Prerelease>, &[u8])
    ensures { (p : List ℕ) × IsPre p result.1.now result.0 × (text.now ≡ p ++ result.1.now) }
{
    if let Some((class, digits)) = parse_class(text) {
        if let Some(kind) = find_kind(class) {
            if let Some((number, rest)) = parse_small_number(digits) {
                return (Some(Prerelease { kind, number }), rest);
            }
        }
    }
    (None, text)
}

// The number of the leading suffix of this class, and the rest.
#[inline(always)]
fn parse_suffix_of(class: u64, text: &[u8]) -> (Option<u64>, &[u8])
    ensures { HasSuffix class text.now result.0 result.1.now }
{
    if let Some((found, digits)) = parse_class(text) {
        if found == class {
            if let Some((number, rest)) = parse_small_number(digits) {
                return (Some(number), rest);
            }
        }
    }
    (None, text)
}

// The parts of the version that the string parses to; `None` if this pass cannot parse it.
#[inline(always)]
pub(crate) fn parse_normal_parts(text: &str) -> Option<NormalParts>
    ensures { IfSome result (λ parts. Derives text.now (from_parts parts.epoch parts.release parts.pre parts.post parts.dev [])) }
{
    let (epoch, after_epoch) = parse_normal_epoch(skip_letter(text.as_bytes()));
    let (numbers, count, after_release) = parse_small_release(after_epoch)?;
    let (pre, after_pre) = parse_normal_pre(after_release);
    let (post, after_post) = parse_suffix_of(POST, after_pre);
    let (dev, rest) = parse_suffix_of(DEV, after_post);
    if !rest.is_empty() {
        return None;
    }
    Some(NormalParts {
        epoch,
        release: Release::from_array(numbers, count),
        pre,
        post,
        dev,
    })
}
