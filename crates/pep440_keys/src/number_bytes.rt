//! Numbers as bytes in their order: how many bytes a number needs, and then these bytes.
ghost use Rattle.std.specs.Prelude.{◌≡◌, ◌≤◌, ◌+◌, ◌++◌, ℕ, length, IsOk, OnOk};
ghost use Rattle.pep440_keys.specs.SortKeys.{number_bytes, trim_leading_zeros};

use crate::sink::KeySink;
use std::alloc::AllocError;

// The bytes without leading zeros.
fn skip_leading_zeros(bytes: &[u8]) -> &[u8]
    ensures value { result.now ≡ trim_leading_zeros bytes.now }
    ensures shorter { length result.now ≤ length bytes.now }
{
    for (i, byte) in bytes.iter().enumerate() {
        if *byte != 0 {
            return &bytes[i..];
        }
    }
    &[]
}

// Appends a number of any size; its length byte is added to this base. One of two bytes, as a year, and one of four, as a date, is one piece.
#[inline(never)]
fn push_any_number<K: KeySink>(key: &mut K, base: u8, number: u64) -> Result<(), AllocError>
    requires { base ≤ 80 }
    ensures appended { OnOk result (K.written key.new ≡ K.written key.old ++ number_bytes base number) }
    ensures fits { (more : ℕ) → K.has_capacity key.old (length (number_bytes base number) + more)
        → IsOk result × K.has_capacity key.new more }
{
    match number {
        0x100..=0xffff => {
            let bytes = (number as u16).to_be_bytes();
            key.append(&[base + 2, bytes[0], bytes[1]])
        }
        0x100_0000..=0xffff_ffff => {
            let bytes = (number as u32).to_be_bytes();
            key.append(&[base + 4, bytes[0], bytes[1], bytes[2], bytes[3]])
        }
        _ => {
            let padded = number.to_be_bytes();
            let bytes = skip_leading_zeros(&padded);
            key.append(&[base + bytes.len() as u8])?;
            key.append(bytes)
        }
    }
}

// Appends the number; its length byte is added to this base. A number of one byte, as most are, is one piece of two.
#[inline(always)]
pub fn push_number<K: KeySink>(key: &mut K, base: u8, number: u64) -> Result<(), AllocError>
    requires { base ≤ 80 }
    ensures appended { OnOk result (K.written key.new ≡ K.written key.old ++ number_bytes base number) }
    ensures fits { (more : ℕ) → K.has_capacity key.old (length (number_bytes base number) + more)
        → IsOk result × K.has_capacity key.new more }
{
    match number {
        0 => key.append(&[base]),
        1..=255 => key.append(&[base + 1, number as u8]),
        _ => push_any_number(key, base, number),
    }
}
