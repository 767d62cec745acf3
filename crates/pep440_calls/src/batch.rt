//! Many strings in one call.
ghost use Rattle.std.specs.List.{All, AllZip, enumerate_from};
ghost use Rattle.std.specs.Prelude.{IfOk, IfSome, List, [], if◌then◌else◌, length, map, ℕ, ◌++◌, ◌∷◌, ◌≡◌, ◌≤◌, drop, take};
ghost use Rattle.std.specs.Cmp.Lexicographic.{slice_cmp};
ghost use Rattle.std.specs.Ordering.{nat_cmp};
ghost use Rattle.std.specs.Slice.Scan.{big_endian};
ghost use Rattle.pep440_compiled.specs.Lists.{HasSetFormat};
ghost use Rattle.pep440_compiled.specs.SetForms.{HasSet, IsFrontsOf};
ghost use Rattle.pep440_compiled.specs.Version.{HasVersionFormat};
ghost use Rattle.pep440_rs.specs.Bounds.{Segments};
ghost use Rattle.pep440_rs.specs.Specifiers.{Spec};
ghost use Rattle.pep440_keys.specs.SortKeys.{key_bytes};
ghost use Rattle.pep440_version.specs.Record.{Record};
ghost use Rattle.pep440_version.specs.RoundTrip.{IsParsed};
ghost use Rattle.pep440_calls.specs.Batches.{ArrangesPositions, HasEntries, IsEntryOf, entry_cmp, key_at, padded, rest_cmp, FilterMarks, HoldsOrBatchFaults, IsMark, EncodingsResult, FormsResult, JoinsEncodings, KeysResult, Marks, encoding_bytes, SortResult, Sorts, ReportsBatchError, batch_error_at};
ghost use Rattle.pep440_calls.specs.CallResults.{IsCompiled, IsKey};
ghost use Rattle.pep440_calls.specs.CallerBytes.{BytesDenote, BytesDenoteList, ListFaults, RejectsBytes};
ghost use Rattle.pep440_calls.specs.Statuses.{Faults, HoldsOr, HoldsOrFaults};
ghost use Rattle.pep440_calls.specs.declared.batch.BatchError.TheVariants.{OutOfMemory};

use crate::buffer::{put, put_both, put_strings};
use crate::fault::Fault;
use crate::joined_strings::JoinedStrings;
use crate::one_version::{compile_string, find_form, find_key, make_string_key};
use crate::read::{read, to_list};
use pep440_compiled::{
    ContainsError, FormBuffer, SetFronts, compare_sort_keys, has_set_format, has_version_format,
    read_membership, read_membership_soon, view_fronts,
};
use pep440_rs::VersionSpecifiers;
use std::alloc::{AllocError, AllocFailed, Global};
use std::cmp::Ordering;

const NO_MATCH: u8 = 0;

const MATCH: u8 = 1;

const NOT_A_VERSION: u8 = 2;

const PRERELEASE_MATCH: u8 = 3;

// Why a batch is rejected.
#[derive(Clone, Copy, Debug)]
enum BatchError {
    // The string at this position is the first that is no version.
    InvalidAt(usize),
    // Out of memory.
    OutOfMemory,
}

impl From<AllocError> for BatchError {
    ghost from_gives = { λ _ stop. stop ≡ OutOfMemory };

    fn from(_refused: AllocError) -> BatchError {
        BatchError::OutOfMemory
    }
}

impl<T: Drop> From<AllocFailed<T>> for BatchError {
    ghost from_gives = { λ _ stop. stop ≡ OutOfMemory };

    fn from(_refused: AllocFailed<T>) -> BatchError {
        BatchError::OutOfMemory
    }
}

impl BatchError {
    // Why a batch is rejected, where the string at this position was not read.
    fn from_fault(position: usize, fault: Fault) -> BatchError
        ensures { result ≡ batch_error_at position fault }
    {
        match fault {
            Fault::InvalidVersion
            | Fault::InvalidList
            | Fault::NumberAtMax
            | Fault::InvalidRight
            | Fault::NoSet
            | Fault::NoList => BatchError::InvalidAt(position),
            Fault::OutOfMemory => BatchError::OutOfMemory,
        }
    }
}

/// Writes a mark for each string, in order: 1 the list matches its version literally, 3 it does and this is a pre-release or a
/// developmental release, 0 it doesn't, 2 it is no version.
pub fn write_marks(alloc: Global, list: &[u8], texts: &[&[u8]], marks: &mut [u8]) -> u8
    ensures { FilterMarks list.now (map (λ t. t.now) texts.now) marks.old marks.new result }
{
    match filter(alloc, list, texts) {
        Ok(found) => put(found.as_slice(), marks),
        Err(fault) => fault.status(),
    }
}

// The mark of a version that a list matches or not.
fn version_mark(matches: bool, is_prerelease: bool) -> u8
    ensures { result ≡ (if matches then (if is_prerelease then 3 else 1) else 0) }
{
    if !matches {
        NO_MATCH
    } else if is_prerelease {
        PRERELEASE_MATCH
    } else {
        MATCH
    }
}

// The mark of a string that has no version; out of memory ends the batch.
fn fault_mark(fault: Fault) -> Result<u8, AllocError>
    ensures { (list : List Spec) (text : List ℕ) → Faults (RejectsBytes text) ⊥ ⊥ fault → IfOk result (IsMark list text) }
{
    if matches!(fault, Fault::OutOfMemory) {
        return Err(AllocError);
    }
    Ok(NOT_A_VERSION)
}

// What the list says of the string.
#[inline(always)]
fn mark_string(alloc: Global, list: &VersionSpecifiers, text: &[u8]) -> Result<u8, AllocError>
    ensures { IfOk result (IsMark list.now text.now) }
{
    match read(alloc, text) {
        Ok(version) => {
            let matches = list.matches_literally(alloc, &version)?;
            Ok(version_mark(matches, version.any_prerelease()))
        }
        Err(fault) => fault_mark(fault),
    }
}

// What the set of a compiled list says of a compiled version, both as they lie. A call of its own, since the fronts decide most often.
#[inline(never)]
fn any_compiled_mark(form: &[u8], version: &[u8]) -> u8
    requires form { HasSetFormat form.now }
    requires version { HasVersionFormat version.now }
    ensures { (list : List Spec) → BytesDenoteList form.now list → IsMark list version.now result }
{
    match read_membership(form, version) {
        Ok((held, is_prerelease)) => version_mark(held, is_prerelease),
        Err(ContainsError::NoVersion) => NOT_A_VERSION,
        Err(ContainsError::NoList) => NO_MATCH,
    }
}

// What the set of a compiled list says of a compiled version, by the fronts of the set if they decide.
#[inline(always)]
fn compiled_mark(form: &[u8], fronts: &Option<SetFronts>, version: &[u8]) -> u8
    requires form { HasSetFormat form.now }
    requires fronts { IfSome fronts.now (λ f. (s : Segments) → HasSet form.now s → IsFrontsOf f s) }
    requires version { HasVersionFormat version.now }
    ensures { (list : List Spec) → BytesDenoteList form.now list → IsMark list version.now result }
{
    if let Some(fronts) = fronts {
        if let Some((held, is_prerelease)) = read_membership_soon(fronts, version) {
            return version_mark(held, is_prerelease);
        }
    }
    any_compiled_mark(form, version)
}

// What the set of a compiled list says of a string, which is compiled first. A call of its own, so that compiled versions pay nothing for it.
#[inline(never)]
fn string_mark(
    alloc: Global,
    form: &[u8],
    fronts: &Option<SetFronts>,
    text: &[u8],
) -> Result<u8, AllocError>
    requires form { HasSetFormat form.now }
    requires fronts { IfSome fronts.now (λ f. (s : Segments) → HasSet form.now s → IsFrontsOf f s) }
    requires text { ¬ HasVersionFormat text.now }
    ensures { (list : List Spec) → BytesDenoteList form.now list → IfOk result (IsMark list text.now) }
{
    let mut buffer = FormBuffer::new(alloc);
    match compile_string(alloc, &mut buffer, text) {
        Ok(compiled) => Ok(compiled_mark(form, fronts, compiled)),
        Err(fault) => fault_mark(fault),
    }
}

// What the set of a compiled list says of a compiled version or a string.
#[inline(always)]
fn form_mark(
    alloc: Global,
    form: &[u8],
    fronts: &Option<SetFronts>,
    text: &[u8],
) -> Result<u8, AllocError>
    requires form { HasSetFormat form.now }
    requires fronts { IfSome fronts.now (λ f. (s : Segments) → HasSet form.now s → IsFrontsOf f s) }
    ensures { (list : List Spec) → BytesDenoteList form.now list → IfOk result (IsMark list text.now) }
{
    if has_version_format(text) {
        return Ok(compiled_mark(form, fronts, text));
    }
    string_mark(alloc, form, fronts, text)
}

// What the list, which the bytes before it denote, says of the string.
#[inline(always)]
fn mark(
    alloc: Global,
    form: &[u8],
    fronts: &Option<SetFronts>,
    list: &VersionSpecifiers,
    text: &[u8],
) -> Result<u8, AllocError>
    requires list { BytesDenoteList form.now list.now }
    requires fronts { IfSome fronts.now (λ f. (s : Segments) → HasSet form.now s → IsFrontsOf f s) }
    ensures { IfOk result (IsMark list.now text.now) }
{
    if has_set_format(form) {
        return form_mark(alloc, form, fronts, text);
    }
    mark_string(alloc, list, text)
}

// Of each string, what the list says of it.
#[tactic(auto, using(crate::proofs::Placed::marked_more))]
fn mark_all(
    alloc: Global,
    form: &[u8],
    list: &VersionSpecifiers,
    texts: &[&[u8]],
) -> Result<Vec<u8>, AllocError>
    requires { BytesDenoteList form.now list.now }
    ensures { IfOk result (λ found. AllZip (IsMark list.now) (map (λ t. t.now) texts.now) found.items) }
{
    let fronts = view_fronts(form);
    let mut found = Vec::with_capacity(alloc, texts.len())?;
    for text in texts {
        let said = mark(alloc, form, &fronts, list, text)?;
        found.push(said)?;
    }
    Ok(found)
}

// Of each string, whether the list matches it.
fn filter(alloc: Global, list: &[u8], texts: &[&[u8]]) -> Result<Vec<u8>, Fault>
    ensures { HoldsOr (ListFaults ⊥ list.now ⊥) (λ found. Marks list.now (map (λ t. t.now) texts.now) found.items) result }
{
    let specifiers = to_list(alloc, list)?;
    Ok(mark_all(alloc, list, &specifiers, texts)?)
}

/// Writes the positions of the strings in the order of their versions, equal ones in the order given. With status 1
/// `at` is the position of the first that is no version.
pub fn write_positions(alloc: Global, texts: &[&[u8]], places: &mut [usize], at: &mut usize) -> u8
    ensures { SortResult (map (λ t. t.now) texts.now) places.old places.new at.old at.new result }
{
    match sort(alloc, texts) {
        Ok(found) => put(found.as_slice(), places),
        Err(stop) => report_batch_error(stop, at),
    }
}

// A sort key by its first sixteen bytes, as two numbers, with zeros for those that it lacks, and its position.
#[derive(Clone, Copy)]
struct Entry {
    front: u64,
    next: u64,
    position: usize,
}

// The first eight bytes as a number, which is read in one piece.
#[inline(always)]
fn read_word(key: &[u8]) -> u64
    requires { 8 ≤ length key.now }
    ensures { result ≡ big_endian 0 (take 8 key.now) }
{
    u64::from_be_bytes([
        key[0], key[1], key[2], key[3], key[4], key[5], key[6], key[7],
    ])
}

// At most eight bytes as a number, with zeros for those that lack.
#[tactic(auto, using(crate::proofs::Placed::padded_read))]
#[inline(always)]
fn pad_word(key: &[u8]) -> u64
    requires { length key.now ≤ 8 }
    ensures { result ≡ big_endian 0 (padded 8 key.now) }
{
    let mut bytes = [0; 8];
    bytes[..key.len()].copy_from_slice(key);
    read_word(&bytes)
}

// The first eight bytes.
#[tactic(auto, using(crate::proofs::Placed::padded_whole))]
#[inline(always)]
fn read_front(key: &[u8]) -> u64
    ensures { result ≡ big_endian 0 (padded 8 key.now) }
{
    if key.len() < 8 {
        return pad_word(key);
    }
    read_word(key)
}

// What follows so many bytes, none if there are no more.
#[inline(always)]
fn skip(count: usize, key: &[u8]) -> &[u8]
    ensures { result.now ≡ drop count key.now }
{
    match key.get(count..) {
        Some(rest) => rest,
        None => &[],
    }
}

#[inline(always)]
fn read_entry(position: usize, key: &[u8]) -> Entry
    ensures { IsEntryOf position key.now result }
{
    Entry {
        front: read_front(key),
        next: read_front(skip(8, key)),
        position,
    }
}

// The key at a position; no bytes at one past the end.
fn key_at<'a>(keys: &[&'a [u8]], position: usize) -> &'a [u8]
    ensures { result.now ≡ key_at (map (λ k. k.now) keys.now) position }
{
    match keys.get(position) {
        Some(key) => key,
        None => &[],
    }
}

// By the bytes after the first sixteen. A call of its own, since few keys have so many.
#[inline(never)]
fn cmp_long(a: &[u8], b: &[u8]) -> Ordering
    ensures { result ≡ slice_cmp nat_cmp (drop 16 a.now) (drop 16 b.now) }
{
    compare_sort_keys(skip(16, a), skip(16, b))
}

// As above; equal if both keys have no more.
#[tactic(auto, using(crate::proofs::Placed::none_follow))]
#[inline(always)]
fn cmp_ends(a: &[u8], b: &[u8]) -> Ordering
    ensures { result ≡ slice_cmp nat_cmp (drop 16 a.now) (drop 16 b.now) }
{
    if a.len() > 16 || b.len() > 16 {
        return cmp_long(a, b);
    }
    Ordering::Equal
}

// By the bytes after the first sixteen, and then by position. A call of its own, so that keys which differ early pay nothing for it.
#[inline(never)]
fn cmp_rest(keys: &[&[u8]], a: usize, b: usize) -> Ordering
    ensures { result ≡ rest_cmp (map (λ k. k.now) keys.now) a b }
{
    let order = cmp_ends(key_at(keys, a), key_at(keys, b));
    if order != Ordering::Equal {
        return order;
    }
    a.cmp(&b)
}

#[inline(always)]
fn cmp_entries(keys: &[&[u8]], a: &Entry, b: &Entry) -> Ordering
    ensures { result ≡ entry_cmp (map (λ k. k.now) keys.now) a.now b.now }
{
    if a.front != b.front {
        return a.front.cmp(&b.front);
    }
    if a.next != b.next {
        return a.next.cmp(&b.next);
    }
    cmp_rest(keys, a.position, b.position)
}

// The entries of the keys, in the order given.
#[tactic(auto, using(crate::proofs::Placed::entries_more))]
fn collect_entries(alloc: Global, keys: &[&[u8]]) -> Result<Vec<Entry>, AllocError>
    ensures { IfOk result (λ entries. HasEntries 0 (map (λ k. k.now) keys.now) entries.items) }
{
    let mut entries = Vec::with_capacity(alloc, keys.len())?;
    for (position, key) in keys.iter().enumerate() {
        entries.push(read_entry(position, key))?;
    }
    Ok(entries)
}

// The positions of the entries.
fn collect_positions(alloc: Global, entries: &[Entry]) -> Result<Vec<usize>, AllocError>
    ensures { IfOk result (λ found. found.items ≡ map (λ e. e.position) entries.now) }
{
    let mut found = Vec::with_capacity(alloc, entries.len())?;
    for entry in entries {
        found.push(entry.position)?;
    }
    Ok(found)
}

// The positions of the sort keys of versions in their order, equal ones in the order given.
fn sort_positions(alloc: Global, keys: &[&[u8]]) -> Result<Vec<usize>, AllocError>
    ensures { (versions : List Record) → All IsParsed versions → map (λ k. k.now) keys.now ≡ map key_bytes versions
        → IfOk result (λ found. ArrangesPositions (enumerate_from 0 versions) found.items) }
{
    let mut entries = collect_entries(alloc, keys)?;
    entries.sort_unstable_by(|a, b| cmp_entries(keys, a, b));
    collect_positions(alloc, entries.as_slice())
}

// The positions of the strings in the order of their versions: of their sort keys, which are made first, if they are not compiled versions.
fn sort(alloc: Global, texts: &[&[u8]]) -> Result<Vec<usize>, BatchError>
    ensures { HoldsOrBatchFaults (map (λ t. t.now) texts.now) (λ found. Sorts (map (λ t. t.now) texts.now) found.items) result }
{
    if let Some(keys) = view_encodings(alloc, texts, Encoding::SortKey)? {
        return Ok(sort_positions(alloc, keys.as_slice())?);
    }
    let joined = encode_all(alloc, texts, Encoding::SortKey)?;
    let strings = joined.split(alloc)?;
    Ok(sort_positions(alloc, strings.as_slice())?)
}

// What a version is written as.
#[derive(Clone, Copy)]
enum Encoding {
    SortKey,
    Compiled,
}

/// Writes the sort keys of the strings, one after the other, and the end of each. `at` as above.
pub fn write_sort_keys(
    alloc: Global,
    texts: &[&[u8]],
    out: &mut [u8],
    ends: &mut [usize],
    written: &mut usize,
    at: &mut usize,
) -> u8
    ensures { KeysResult (map (λ t. t.now) texts.now) out.old out.new ends.old ends.new written.old written.new at.old at.new result }
{
    write_encodings(alloc, texts, Encoding::SortKey, out, ends, written, at)
}

/// Writes the compiled forms of the strings, one after the other, and the end of each. `at` as above.
pub fn write_forms(
    alloc: Global,
    texts: &[&[u8]],
    out: &mut [u8],
    ends: &mut [usize],
    written: &mut usize,
    at: &mut usize,
) -> u8
    ensures { FormsResult (map (λ t. t.now) texts.now) out.old out.new ends.old ends.new written.old written.new at.old at.new result }
{
    write_encodings(alloc, texts, Encoding::Compiled, out, ends, written, at)
}

// Writes the versions of the strings, one after the other, and the end of each: of compiled versions as they lie in them, with no copy between.
fn write_encodings(
    alloc: Global,
    texts: &[&[u8]],
    encoding: Encoding,
    out: &mut [u8],
    ends: &mut [usize],
    written: &mut usize,
    at: &mut usize,
) -> u8
    ensures { EncodingsResult (encoding_bytes encoding) (map (λ t. t.now) texts.now) out.old out.new ends.old ends.new written.old written.new at.old at.new result }
{
    match view_encodings(alloc, texts, encoding) {
        Ok(Some(found)) => put_strings(found.as_slice(), out, ends, written),
        Ok(None) => encode_and_write(alloc, texts, encoding, out, ends, written, at),
        Err(_) => Fault::OutOfMemory.status(),
    }
}

// As above, of strings that are not all compiled versions: they are joined first, since one may be invalid.
fn encode_and_write(
    alloc: Global,
    texts: &[&[u8]],
    encoding: Encoding,
    out: &mut [u8],
    ends: &mut [usize],
    written: &mut usize,
    at: &mut usize,
) -> u8
    ensures { EncodingsResult (encoding_bytes encoding) (map (λ t. t.now) texts.now) out.old out.new ends.old ends.new written.old written.new at.old at.new result }
{
    match encode_all(alloc, texts, encoding) {
        Ok(found) => {
            *written = found.bytes.len();
            put_both(found.bytes.as_slice(), found.ends.as_slice(), out, ends)
        }
        Err(stop) => report_batch_error(stop, at),
    }
}

// A compiled version as it is written, as it lies in its form.
#[inline(always)]
fn view_encoding(encoding: Encoding, form: &[u8]) -> Result<&[u8], Fault>
    requires { HasVersionFormat form.now }
    ensures { HoldsOrFaults (RejectsBytes form.now) ⊥ ⊥ (λ found. (r : Record) × BytesDenote form.now r
        × (found.now ≡ encoding_bytes encoding r)) result }
{
    match encoding {
        Encoding::SortKey => find_key(form),
        Encoding::Compiled => find_form(form),
    }
}

// Compiled versions as they are written, as they lie in their forms; `None` if one of the strings is no compiled version.
fn view_encodings<'a>(
    alloc: Global,
    texts: &[&'a [u8]],
    encoding: Encoding,
) -> Result<Option<Vec<&'a [u8]>>, AllocError>
    ensures { IfOk result (λ o. IfSome o (λ found. (versions : List Record)
        × AllZip BytesDenote (map (λ t. t.now) texts.now) versions × (map (λ f. f.now) found.items ≡ map (encoding_bytes encoding) versions))) }
{
    let mut found = Vec::with_capacity(alloc, texts.len())?;
    for text in texts {
        if !has_version_format(text) {
            return Ok(None);
        }
        let Ok(view) = view_encoding(encoding, text) else {
            return Ok(None);
        };
        found.push(view)?;
    }
    Ok(Some(found))
}

// The version of a string as it is written, in the buffer.
#[inline(always)]
fn encode_string<'a>(
    alloc: Global,
    buffer: &'a mut FormBuffer,
    encoding: Encoding,
    text: &[u8],
) -> Result<&'a [u8], Fault>
    requires { ¬ HasVersionFormat text.now }
    ensures { HoldsOrFaults (RejectsBytes text.now) ⊥ ⊥ (λ found. (r : Record) × BytesDenote text.now r
        × (found.now ≡ encoding_bytes encoding r)) result }
{
    match encoding {
        Encoding::SortKey => make_string_key(alloc, buffer, text),
        Encoding::Compiled => compile_string(alloc, buffer, text),
    }
}

// One more version, as it is written. Compiled ones pay nothing for the buffer.
#[inline(always)]
fn push_encoding(
    alloc: Global,
    joined: &mut JoinedStrings,
    encoding: Encoding,
    bytes: &[u8],
) -> Result<(), Fault>
    ensures { HoldsOrFaults (RejectsBytes bytes.now) ⊥ ⊥ (λ _. (r : Record) × BytesDenote bytes.now r
        × (joined.new.bytes.items ≡ joined.old.bytes.items ++ encoding_bytes encoding r)
        × (joined.new.ends.items ≡ joined.old.ends.items ++ length joined.new.bytes.items ∷ [])) result }
{
    if has_version_format(bytes) {
        let found = view_encoding(encoding, bytes)?;
        return Ok(joined.push(found)?);
    }
    let mut buffer = FormBuffer::new(alloc);
    let made = encode_string(alloc, &mut buffer, encoding, bytes)?;
    Ok(joined.push(made)?)
}

// The versions of the strings, as they are written.
fn encode_all(
    alloc: Global,
    texts: &[&[u8]],
    encoding: Encoding,
) -> Result<JoinedStrings, BatchError>
    ensures { HoldsOrBatchFaults (map (λ t. t.now) texts.now)
        (λ joined. JoinsEncodings (encoding_bytes encoding) (map (λ t. t.now) texts.now) joined.bytes.items joined.ends.items) result }
{
    let mut joined = JoinedStrings::with_capacity(alloc, texts.len())?;
    for (position, text) in texts.iter().enumerate() {
        match push_encoding(alloc, &mut joined, encoding, text) {
            Ok(()) => {}
            Err(fault) => return Err(BatchError::from_fault(position, fault)),
        }
    }
    Ok(joined)
}

// Reports the position of the invalid string, and returns the status.
fn report_batch_error(stop: BatchError, at: &mut usize) -> u8
    ensures { ReportsBatchError stop at.old at.new result }
{
    match stop {
        BatchError::InvalidAt(position) => {
            *at = position;
            1
        }
        BatchError::OutOfMemory => 3,
    }
}
