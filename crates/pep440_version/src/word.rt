//! The packed word: a `u64` that has the release and the one suffix of a packed version, and orders as the versions do.
//!
//! From its highest bit on it has four release numbers, missing ones being 0, the first in 16 bits and the others in 8 each; the
//! class of the suffix in 3 bits; and the number of the suffix in 21. The count of release numbers is not in it.
ghost use Rattle.std.specs.Prelude.{◌≡◌, ◌+◌, ◌*◌, ◌^◌, ◌<◌, ◌≤◌, ◌&&◌, nat_le, slice_index};
ghost use Rattle.pep440_version.specs.Word.{class_in, number_in, word_with};

// Where the fourth release number begins, and what precedes it ends.
pub(crate) const FOURTH_SHIFT: u32 = 24;

// Where the class of the suffix begins.
pub(crate) const CLASS_SHIFT: u32 = 21;

// The greatest first release number.
pub(crate) const MAX_FIRST_NUMBER: u64 = 65535;

// The greatest of the other release numbers.
pub(crate) const MAX_OTHER_NUMBER: u64 = 255;

// The greatest number of a suffix.
pub(crate) const MAX_SUFFIX_NUMBER: u64 = 2097151;

// The class of the sentinel `min`, the least class.
pub(crate) const MIN: u64 = 0;

// The class of a dev release.
pub(crate) const DEV: u64 = 1;

// The class of an alpha release.
pub(crate) const ALPHA: u64 = 2;

// The class of a beta release.
pub(crate) const BETA: u64 = 3;

// The class of a release candidate.
pub(crate) const RC: u64 = 4;

// The class of a version without a suffix, whose number is 0.
pub(crate) const NONE: u64 = 5;

// The class of a post-release.
pub(crate) const POST: u64 = 6;

// The class of the sentinel `max`, the greatest class.
pub(crate) const MAX: u64 = 7;

// The class of the suffix.
#[inline(always)]
pub(crate) fn class_in(word: u64) -> u64
    ensures { result ≡ class_in word }
{
    word >> CLASS_SHIFT & MAX
}

// The number of the suffix.
#[inline(always)]
pub(crate) fn number_in(word: u64) -> u64
    ensures { result ≡ number_in word }
{
    word & MAX_SUFFIX_NUMBER
}

// Whether the numbers fit into their bits.
pub(crate) fn are_small(numbers: [u64; 4]) -> bool
    ensures { result ≡ (nat_le (slice_index numbers 0) 65535
        && (nat_le (slice_index numbers 1) 255 && (nat_le (slice_index numbers 2) 255 && nat_le (slice_index numbers 3) 255))) }
{
    let [first, second, third, fourth] = numbers;
    first <= MAX_FIRST_NUMBER
        && second <= MAX_OTHER_NUMBER
        && third <= MAX_OTHER_NUMBER
        && fourth <= MAX_OTHER_NUMBER
}

// Four numbers, a class and a number, each in its bits: the shifts are the widths of what follows.
pub(crate) fn pack_word(numbers: [u64; 4], class: u64, number: u64) -> u64
    requires first { slice_index numbers 0 ≤ 65535 }
    requires second { slice_index numbers 1 ≤ 255 }
    requires third { slice_index numbers 2 ≤ 255 }
    requires fourth { slice_index numbers 3 ≤ 255 }
    requires class { class < 8 }
    requires number { number ≤ 2097151 }
    ensures { result ≡ slice_index numbers 0 * 2 ^ 48 + slice_index numbers 1 * 2 ^ 40
        + slice_index numbers 2 * 2 ^ 32 + slice_index numbers 3 * 2 ^ 24 + class * 2 ^ 21 + number }
{
    let release = ((numbers[0] << 8 | numbers[1]) << 8 | numbers[2]) << 8 | numbers[3];
    (release << 3 | class) << CLASS_SHIFT | number
}

// The word with this suffix in place of its own.
#[inline(always)]
pub(crate) fn replace_suffix(word: u64, class: u64, number: u64) -> u64
    requires class { class < 8 }
    requires number { number ≤ 2097151 }
    ensures { result ≡ word_with word class number }
{
    (word >> FOURTH_SHIFT << 3 | class) << CLASS_SHIFT | number
}
