//! The order of bytes, eight at a time.
ghost use Rattle.std.specs.Prelude.{◌≡◌, ◌≤◌, ◌-◌, drop, length, take};
ghost use Rattle.std.specs.Cmp.Lexicographic.{slice_cmp};
ghost use Rattle.std.specs.Ordering.{is_lt, nat_cmp};
ghost use Rattle.std.specs.Slice.Scan.{big_endian};

use std::cmp::Ordering;

// The first eight bytes as a number, which is read in one piece.
#[inline(always)]
pub(crate) fn read_word(bytes: &[u8]) -> u64
    requires { 8 ≤ length bytes.now }
    ensures { result ≡ big_endian 0 (take 8 bytes.now) }
{
    u64::from_be_bytes([
        bytes[0], bytes[1], bytes[2], bytes[3], bytes[4], bytes[5], bytes[6], bytes[7],
    ])
}

// The last eight bytes as a number.
#[inline(always)]
fn read_last_word(bytes: &[u8]) -> u64
    requires { 8 ≤ length bytes.now }
    ensures { result ≡ big_endian 0 (take 8 (drop (length bytes.now - 8) bytes.now)) }
{
    read_word(&bytes[bytes.len() - 8..])
}

// The first four bytes as a number, which is read in one piece.
#[inline(always)]
pub(crate) fn read_half_word(bytes: &[u8]) -> u32
    requires { 4 ≤ length bytes.now }
    ensures { result ≡ big_endian 0 (take 4 bytes.now) }
{
    u32::from_be_bytes([bytes[0], bytes[1], bytes[2], bytes[3]])
}

/// The order of bytes as `cmp` of slices has it, in fewer instructions for few bytes. Of sort keys it is the order of the versions.
///
/// Does not allocate.
#[inline(always)]
pub(crate) fn cmp_bytes(a: &[u8], b: &[u8]) -> Ordering
    ensures { result ≡ slice_cmp nat_cmp a.now b.now }
{
    let mut left = a;
    let mut right = b;
    while left.len() >= 8 && right.len() >= 8 {
        let x = read_word(left);
        let y = read_word(right);
        if x != y {
            return x.cmp(&y);
        }
        left = &left[8..];
        right = &right[8..];
    }
    if left.is_empty() {
        return 0.cmp(&right.len());
    }
    if a.len() >= 8 && a.len() == b.len() {
        // What was compared is the same, and so may be compared again.
        return read_last_word(a).cmp(&read_last_word(b));
    }
    left.cmp(right)
}

// Whether the bytes are below the others, by all of them. A call of its own, so that bytes which differ early pay nothing for it.
#[inline(never)]
fn is_below_by_all(a: &[u8], b: &[u8]) -> bool
    ensures { result ≡ is_lt (slice_cmp nat_cmp a.now b.now) }
{
    cmp_bytes(a, b).is_lt()
}

// Whether the bytes are below the others, by the first eight if these differ.
#[inline(always)]
pub(crate) fn is_below(a: &[u8], b: &[u8]) -> bool
    ensures { result ≡ is_lt (slice_cmp nat_cmp a.now b.now) }
{
    if a.len() >= 8 && b.len() >= 8 {
        let x = read_word(a);
        let y = read_word(b);
        if x != y {
            return x.cmp(&y).is_lt();
        }
    }
    is_below_by_all(a, b)
}

// The order of the bytes that both have: where the one ends first, what follows in the other does not count.
#[inline(always)]
pub(crate) fn cmp_common(a: &[u8], b: &[u8]) -> Ordering
    ensures { result ≡ slice_cmp nat_cmp (take (length b.now) a.now) (take (length a.now) b.now) }
{
    if a.len() < b.len() {
        return cmp_bytes(a, &b[..a.len()]);
    }
    cmp_bytes(&a[..b.len()], b)
}
