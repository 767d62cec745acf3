//! A packed version: its word (`word`), read and changed part by part.
ghost use Rattle.std.specs.Prelude.{◌≡◌, ◌+◌, ◌<◌, ◌≤◌, ◌&&◌, true, false, None, length, slice_index, take, IfSome, IfNone, if◌then◌else◌};
ghost use Rattle.pep440_version.specs.Form.{IsWord, is_class_of_part, unpacked_record, number_of_class, packed_record, prerelease_of_class, record_in, suffix_of_part, word_with_part};
ghost use Rattle.pep440_version.specs.Key.{kind_rank};
ghost use Rattle.pep440_version.specs.Normal.{IsPadded, IsKnown};
ghost use Rattle.pep440_version.specs.Word.{class_in, dev_class, is_packed, is_short, max_class, min_class, number_in, post_class, suffix};

use crate::prerelease::{Prerelease, PrereleaseKind};
use crate::release::pad_with_zeros;
use crate::unpacked::Unpacked;
use crate::word::{
    ALPHA, BETA, DEV, MAX, MAX_SUFFIX_NUMBER, MIN, NONE, POST, RC, are_small, class_in, number_in,
    pack_word, replace_suffix,
};

// The parts that are a suffix, each with classes of its own; `None` is its absence.
#[derive(Clone, Copy)]
pub(crate) enum Part {
    Min(Option<u64>),
    Dev(Option<u64>),
    Pre(Option<Prerelease>),
    Post(Option<u64>),
    Max(Option<u64>),
}

// The count of release numbers, the word, and the numbers in it.
pub(crate) struct Packed {
    pub(crate) count: u8,
    pub(crate) word: u64,
    pub(crate) numbers: [u64; 4],
}

// The number, if the word's suffix is of this class.
fn number_of_class(asked: u64, word: u64) -> Option<u64>
    ensures { result ≡ number_of_class asked (class_in word) (number_in word) }
{
    if class_in(word) == asked {
        Some(number_in(word))
    } else {
        None
    }
}

pub(crate) fn pre_in(word: u64) -> Option<Prerelease>
    ensures { result ≡ prerelease_of_class (class_in word) (number_in word) }
{
    let class = class_in(word);
    let kind = if class == ALPHA {
        PrereleaseKind::Alpha
    } else if class == BETA {
        PrereleaseKind::Beta
    } else if class == RC {
        PrereleaseKind::Rc
    } else {
        return None;
    };
    let number = number_in(word);
    Some(Prerelease { kind, number })
}

pub(crate) fn post_in(word: u64) -> Option<u64>
    ensures { result ≡ number_of_class post_class (class_in word) (number_in word) }
{
    number_of_class(POST, word)
}

pub(crate) fn dev_in(word: u64) -> Option<u64>
    ensures { result ≡ number_of_class dev_class (class_in word) (number_in word) }
{
    number_of_class(DEV, word)
}

pub(crate) fn min_in(word: u64) -> Option<u64>
    ensures { result ≡ number_of_class min_class (class_in word) (number_in word) }
{
    number_of_class(MIN, word)
}

pub(crate) fn max_in(word: u64) -> Option<u64>
    ensures { result ≡ number_of_class max_class (class_in word) (number_in word) }
{
    number_of_class(MAX, word)
}

#[inline(always)]
fn class_of_kind(kind: PrereleaseKind) -> u64
    ensures { result ≡ 2 + kind_rank kind }
{
    match kind {
        PrereleaseKind::Alpha => ALPHA,
        PrereleaseKind::Beta => BETA,
        PrereleaseKind::Rc => RC,
    }
}

// The class and the number of a part that is there.
#[inline(always)]
fn suffix_of_part(part: Part) -> Option<(u64, u64)>
    ensures { result ≡ suffix_of_part part }
{
    match part {
        Part::Min(Some(number)) => Some((MIN, number)),
        Part::Dev(Some(number)) => Some((DEV, number)),
        Part::Pre(Some(pre)) => Some((class_of_kind(pre.kind), pre.number)),
        Part::Post(Some(number)) => Some((POST, number)),
        Part::Max(Some(number)) => Some((MAX, number)),
        _ => None,
    }
}

// Whether the class is one of the part's.
#[inline(always)]
fn is_class_of_part(part: Part, class: u64) -> bool
    ensures { result ≡ is_class_of_part part class }
{
    match part {
        Part::Min(_) => class == MIN,
        Part::Dev(_) => class == DEV,
        Part::Pre(_) => class == ALPHA || class == BETA || class == RC,
        Part::Post(_) => class == POST,
        Part::Max(_) => class == MAX,
    }
}

// The word with this part, if it has no suffix of another part.
#[inline(always)]
pub(crate) fn replace_part(word: u64, part: Part) -> Option<u64>
    ensures { result ≡ word_with_part word part }
{
    let own = class_in(word);
    let is_own = is_class_of_part(part, own);
    match suffix_of_part(part) {
        Some((class, number)) => {
            if number <= MAX_SUFFIX_NUMBER && (own == NONE || is_own) {
                Some(replace_suffix(word, class, number))
            } else {
                None
            }
        }
        None => {
            if is_own {
                Some(replace_suffix(word, NONE, 0))
            } else {
                Some(word)
            }
        }
    }
}

// The class and the number of the one suffix; `None` if there are more.
fn find_suffix(unpacked: &Unpacked) -> Option<(u64, u64)>
    ensures { result ≡ suffix (unpacked_record unpacked.now) }
{
    match (
        unpacked.min,
        unpacked.dev,
        unpacked.pre,
        unpacked.post,
        unpacked.max,
    ) {
        (None, None, None, None, None) => Some((NONE, 0)),
        (Some(min), None, None, None, None) => Some((MIN, min)),
        (None, Some(dev), None, None, None) => Some((DEV, dev)),
        (None, None, Some(pre), None, None) => Some((class_of_kind(pre.kind), pre.number)),
        (None, None, None, Some(post), None) => Some((POST, post)),
        (None, None, None, None, Some(max)) => Some((MAX, max)),
        _ => None,
    }
}

// The suffix of a version that a word can hold; its release numbers are given, padded.
fn find_packed_suffix(unpacked: &Unpacked, numbers: [u64; 4]) -> Option<(u64, u64)>
    requires few { length unpacked.now.release ≤ 4 }
    requires first { slice_index numbers 0 ≡ slice_index unpacked.now.release 0 }
    requires second { slice_index numbers 1 ≡ slice_index unpacked.now.release 1 }
    requires third { slice_index numbers 2 ≡ slice_index unpacked.now.release 2 }
    requires fourth { slice_index numbers 3 ≡ slice_index unpacked.now.release 3 }
    ensures { result ≡ (if is_packed (unpacked_record unpacked.now) then suffix (unpacked_record unpacked.now) else None) }
{
    if unpacked.epoch != 0 || !unpacked.local.is_empty() || !are_small(numbers) {
        return None;
    }
    let (class, number) = find_suffix(unpacked)?;
    if number > MAX_SUFFIX_NUMBER {
        None
    } else {
        Some((class, number))
    }
}

impl Packed {
    // The version packed, if it can be.
    pub(crate) fn pack(unpacked: &Unpacked) -> Option<Packed>
        ensures none { IfNone result (is_packed (unpacked_record unpacked.now) ≡ false) }
        ensures some { IfSome result (λ p. IsWord p.count p.word p.numbers
            × (packed_record p.count p.word p.numbers ≡ unpacked_record unpacked.now)) }
    {
        let release = unpacked.release.as_slice();
        if release.len() > 4 {
            return None;
        }
        let numbers = pad_with_zeros(release);
        let (class, number) = find_packed_suffix(unpacked, numbers)?;
        Some(Packed {
            count: release.len() as u8,
            word: pack_word(numbers, class, number),
            numbers,
        })
    }

    // Up to four numbers and one suffix packed, if they can be.
    #[inline(always)]
    pub(crate) fn of_suffix(
        numbers: [u64; 4],
        count: usize,
        class: u64,
        number: u64,
    ) -> Option<Packed>
        requires padded { IsPadded count numbers }
        requires known { IsKnown class number }
        requires small { number ≤ 2097151 }
        ensures none { IfNone result (is_short (take count numbers) ≡ false) }
        ensures some { IfSome result (λ p. IsWord p.count p.word p.numbers
            × (packed_record p.count p.word p.numbers ≡ record_in (take count numbers) class number)) }
    {
        if !are_small(numbers) {
            return None;
        }
        Some(Packed {
            count: count as u8,
            word: pack_word(numbers, class, number),
            numbers,
        })
    }
}
