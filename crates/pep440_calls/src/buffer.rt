//! What is written to the caller's memory.
ghost use Rattle.std.specs.List.{flat_map};
ghost use Rattle.std.specs.Prelude.{IfErr, IfSome, List, drop, length, map, string_bytes, ℕ, ◌++◌, ◌≡◌, ◌≢◌, ◌≤◌};
ghost use Rattle.pep440_calls.specs.Statuses.{Joins, WritesAtStart, WritesBoth, WritesJoinedResult, WritesResult, WritesStrings, flag};
ghost use Rattle.pep440_calls.specs.declared.fault.Fault.TheVariants.{OutOfMemory};

use crate::fault::Fault;
use crate::joined_strings::JoinedStrings;

pub(crate) const OK: u8 = 0;

const NO_ROOM: u8 = 4;

pub(crate) const NOT_PACKED: u8 = 7;

// The number that stands for a truth value.
pub(crate) fn flag(truth: bool) -> u8
    ensures { result ≡ flag truth }
{
    if truth { 1 } else { 0 }
}

// Writes the items at the start of the buffer if it has room.
pub(crate) fn put<T: Copy>(items: &[T], out: &mut [T]) -> u8
    ensures { WritesAtStart items.now out.old out.new result }
{
    if out.len() < items.len() {
        return NO_ROOM;
    }
    out[..items.len()].copy_from_slice(items);
    OK
}

// Writes the bytes at the start of the buffer if it has room, and reports how many they are.
pub(crate) fn put_and_count(bytes: &[u8], out: &mut [u8], written: &mut usize) -> u8
    ensures counted { written.new ≡ length bytes.now }
    ensures put { WritesAtStart bytes.now out.old out.new result }
{
    *written = bytes.len();
    put(bytes, out)
}

// Writes the string that a call gives at the start of the buffer if it has room, and reports how many bytes it
// takes.
pub(crate) fn put_text(given: Result<String, Fault>, out: &mut [u8], written: &mut usize) -> u8
    ensures { WritesResult string_bytes given out.old out.new written.old written.new result }
{
    match given {
        Ok(text) => put_and_count(text.as_bytes(), out, written),
        Err(fault) => fault.status(),
    }
}

// Writes the bytes that a call finds at the start of the buffer if it has room, and reports how many they are.
pub(crate) fn put_slice(given: Result<&[u8], Fault>, out: &mut [u8], written: &mut usize) -> u8
    ensures found { WritesResult (λ bytes. bytes.now) given.entry out.old out.new written.old written.new result }
    ensures memory { IfErr given.entry (λ f. f ≢ OutOfMemory) → result ≢ 3 }
{
    match given {
        Ok(bytes) => put_and_count(bytes, out, written),
        Err(fault) => fault.status(),
    }
}

// Writes the bytes that a call makes at the start of the buffer if it has room, and reports how many they are.
pub(crate) fn put_bytes(given: Result<Vec<u8>, Fault>, out: &mut [u8], written: &mut usize) -> u8
    ensures { WritesResult (λ bytes. bytes.items) given out.old out.new written.old written.new result }
{
    match given {
        Ok(bytes) => put_and_count(bytes.as_slice(), out, written),
        Err(fault) => fault.status(),
    }
}

// Writes bytes and positions at the start of the two buffers if both have room.
pub(crate) fn put_both(bytes: &[u8], places: &[usize], out: &mut [u8], ends: &mut [usize]) -> u8
    ensures { WritesBoth bytes.now places.now out.old out.new ends.old ends.new result }
{
    if out.len() < bytes.len() || ends.len() < places.len() {
        return NO_ROOM;
    }
    out[..bytes.len()].copy_from_slice(bytes);
    ends[..places.len()].copy_from_slice(places);
    OK
}

// How many bytes the strings have together, if that is a `usize`.
#[tactic(auto, using(crate::proofs::Placed::length_more))]
fn sum_lengths(strings: &[&[u8]]) -> Option<usize>
    ensures { IfSome result (λ sum. sum ≡ length (flat_map (λ s. s) (map (λ s. s.now) strings.now))) }
{
    let mut sum = 0_usize;
    for string in strings {
        sum = sum.checked_add(string.len())?;
    }
    Some(sum)
}

// Copies the strings, one after the other, to the start of the one buffer, and their ends to the start of the other.
fn copy_strings(strings: &[&[u8]], out: &mut [u8], ends: &mut [usize])
    requires bytes { length (flat_map (λ s. s) (map (λ s. s.now) strings.now)) ≤ length out.old }
    requires ends { length strings.now ≤ length ends.old }
    ensures { (bytes places : List ℕ) × Joins (map (λ s. s.now) strings.now) bytes places
        × (out.new ≡ bytes ++ drop (length bytes) out.old) × (ends.new ≡ places ++ drop (length places) ends.old) }
{
    let mut start = 0;
    for (position, string) in strings.iter().enumerate() {
        let end = start + string.len();
        out[start..end].copy_from_slice(string);
        ends[position] = end;
        start = end;
    }
}

// Writes strings, one after the other, and their ends at the start of the two buffers if both have room, and reports how many bytes
// they are. Out of memory if no memory has so many, which strings that lie in one another may have.
#[tactic(auto, using(crate::proofs::Placed::no_bytes_fit))]
pub(crate) fn put_strings(
    strings: &[&[u8]],
    out: &mut [u8],
    ends: &mut [usize],
    written: &mut usize,
) -> u8
    ensures { WritesStrings (map (λ s. s.now) strings.now) out.old out.new ends.old ends.new written.old written.new result }
{
    let Some(sum) = sum_lengths(strings) else {
        return Fault::OutOfMemory.status();
    };
    *written = sum;
    if out.len() < sum {
        return NO_ROOM;
    }
    if ends.len() < strings.len() {
        return NO_ROOM;
    }
    copy_strings(strings, out, ends);
    OK
}

// Writes joined strings and where each ends at the start of the two buffers if both have room, and reports how many bytes and
// strings they are.
pub(crate) fn put_joined(
    given: Result<JoinedStrings, Fault>,
    out: &mut [u8],
    ends: &mut [usize],
    written: &mut usize,
    count: &mut usize,
) -> u8
    ensures { WritesJoinedResult given out.old out.new ends.old ends.new written.old written.new count.old count.new result }
{
    match given {
        Ok(joined) => {
            *written = joined.bytes.len();
            *count = joined.ends.len();
            put_both(joined.bytes.as_slice(), joined.ends.as_slice(), out, ends)
        }
        Err(fault) => fault.status(),
    }
}
