//! The newest version of a batch that a list matches.
ghost use Rattle.std.specs.Prelude.{IfOk, IfSome, MatchOption, false, map, not, true, ◌||◌, ◌≡◌, ◌⊎◌};
ghost use Rattle.std.specs.Ordering.{is_ge, is_lt};
ghost use Rattle.pep440_pick.specs.Newest.{Greatest, is_above, preference};
ghost use Rattle.pep440_rs.specs.LiteralMatching.{list_matches_literally};
ghost use Rattle.pep440_rs.specs.Matching.{any_prerelease};
ghost use Rattle.pep440_version.specs.Key.{record_cmp};
ghost use Rattle.pep440_version.specs.Record.{Record};
ghost use Rattle.pep440_calls.specs.CallerBytes.{BytesDenote, ListFaults, RejectsBytes};
ghost use Rattle.pep440_calls.specs.Batches.{FindsNewestString, IsContainedString, NewestResult};
ghost use Rattle.pep440_calls.specs.Statuses.{HoldsOr};

use crate::buffer::OK;
use crate::fault::Fault;
use crate::read::{read, to_list};
use pep440_pick::is_preferred;
use pep440_rs::{Version, VersionSpecifiers};
use std::alloc::{AllocError, Global};

const NONE_FOUND: u8 = 10;

/// Writes the index of the newest version that the list matches literally, and of equal ones the first; strings that are no version are
/// passed over. Pre-releases and developmental releases count only if the list asks for them, or matches no final release
/// of the batch (PEP 440, "Handling of pre-releases"). Status 10 if the list matches none; `index` is then unchanged.
pub fn write_newest(alloc: Global, list: &[u8], texts: &[&[u8]], index: &mut usize) -> u8
    ensures { NewestResult list.now (map (λ t. t.now) texts.now) index.old index.new result }
{
    match find(alloc, list, texts) {
        Ok(Some(position)) => {
            *index = position;
            OK
        }
        Ok(None) => NONE_FOUND,
        Err(fault) => fault.status(),
    }
}

// The index of the newest version that the list of the bytes matches.
fn find(alloc: Global, list: &[u8], texts: &[&[u8]]) -> Result<Option<usize>, Fault>
    ensures { HoldsOr (ListFaults ⊥ list.now ⊥) (FindsNewestString list.now (map (λ t. t.now) texts.now)) result }
{
    let specifiers = to_list(alloc, list)?;
    let takes = specifiers.requests_prereleases();
    let newest = find_newest(alloc, takes, &specifiers, texts)?;
    Ok(newest.map(|(position, _)| position))
}

// The version that the bytes denote, if the list matches it.
fn read_match(
    alloc: Global,
    list: &VersionSpecifiers,
    bytes: &[u8],
) -> Result<Option<Version>, AllocError>
    ensures { IfOk result (λ found. MatchOption found
        (RejectsBytes bytes.now ⊎ ((r : Record) × BytesDenote bytes.now r × (list_matches_literally list.now r ≡ false)))
        (IsContainedString list.now bytes.now)) }
{
    let version = match read(alloc, bytes) {
        Ok(version) => version,
        Err(Fault::OutOfMemory) => return Err(AllocError),
        Err(_) => return Ok(None),
    };
    if list.matches_literally(alloc, &version)? {
        Ok(Some(version))
    } else {
        Ok(None)
    }
}

fn is_above(takes: bool, newest: &Option<(usize, Version)>, version: &Version) -> bool
    ensures { result ≡ is_above (preference takes) newest.now version.now }
{
    match newest {
        None => true,
        Some((_, newest)) => is_preferred(takes, newest, version),
    }
}

// Whether it is a final release, or taken as one.
fn is_taken(takes: bool, version: &Version) -> bool
    ensures { result ≡ (takes || not (any_prerelease version.now)) }
{
    takes || !version.any_prerelease()
}

// Whether the bytes are those of a compiled pre-release or developmental release.
fn is_prerelease(bytes: &[u8]) -> bool
    ensures { result ≡ true → (r : Record) → BytesDenote bytes.now r → any_prerelease r ≡ true }
{
    match pep440_compiled::any_prerelease(bytes) {
        Ok(found) => found,
        Err(_) => false,
    }
}

// Whether the bytes, as they lie, are those of a compiled version that is not above the best one.
fn is_at_most(best: &[u8], bytes: &[u8]) -> bool
    ensures { result ≡ true → (p r : Record) → BytesDenote best.now p → BytesDenote bytes.now r → is_ge (record_cmp p r) ≡ true }
{
    match pep440_compiled::compare(best, bytes) {
        Ok(order) => order.is_ge(),
        Err(_) => false,
    }
}

// Whether the bytes, as they lie, are those of a compiled version that is not preferred to the newest one, which the best denote.
fn is_below(takes: bool, newest: &Version, best: &[u8], bytes: &[u8]) -> bool
    requires { BytesDenote best.now newest.now }
    ensures { result ≡ true → (r : Record) → BytesDenote bytes.now r → is_lt (preference takes newest.now r) ≡ false }
{
    is_at_most(best, bytes) && (is_taken(takes, newest) || is_prerelease(bytes))
}

// Whether the bytes need no other look, as those of most compiled versions of a batch.
fn is_passed(takes: bool, newest: &Option<(usize, Version)>, best: &[u8], bytes: &[u8]) -> bool
    requires { IfSome newest.now (λ p. BytesDenote best.now p.1) }
    ensures { result ≡ true → (r : Record) → BytesDenote bytes.now r → is_above (preference takes) newest.now r ≡ false }
{
    match newest {
        None => false,
        Some((_, newest)) => is_below(takes, newest, best, bytes),
    }
}

// The newest version that the list matches, and its index.
fn find_newest(
    alloc: Global,
    takes: bool,
    list: &VersionSpecifiers,
    texts: &[&[u8]],
) -> Result<Option<(usize, Version)>, AllocError>
    ensures { IfOk result (Greatest (IsContainedString list.now) (preference takes) (map (λ t. t.now) texts.now)) }
{
    let mut newest: Option<(usize, Version)> = None;
    let mut best: &[u8] = &[];
    for (position, text) in texts.iter().enumerate() {
        if is_passed(takes, &newest, best, text) {
            continue;
        }
        let Some(version) = read_match(alloc, list, text)? else {
            continue;
        };
        if is_above(takes, &newest, &version) {
            newest = Some((position, version));
            best = text;
        }
    }
    Ok(newest)
}
