//! A version and changes of it, as words.
ghost use Rattle.std.specs.List.{AllZip};
ghost use Rattle.std.specs.Prelude.{IfErr, IfOk, List, Ok, map, string_bytes, ℕ, ◌≡◌};
ghost use Rattle.pep440_version.specs.Changes.ChangeWords.{not_a_change_text};
ghost use Rattle.pep440_version.specs.Record.{Record};
ghost use Rattle.pep440_version.specs.declared.change_word.ChangeWordError.TheVariants.{NotAChange};
ghost use Rattle.pep440_version.specs.Changes.{edit};
ghost use Rattle.pep440_calls.specs.CallResults.{ChangesTo, HoldsOrEditFaults, IsEditError, IsEdited, BytesDenoteChange, WritesEdited, RejectsChangeWord, edit_status};
ghost use Rattle.pep440_calls.specs.CallerBytes.{BytesDenote};
ghost use Rattle.pep440_calls.specs.Statuses.{HoldsOrFaults, WritesBytes};
ghost use Rattle.pep440_calls.specs.declared.edits.EditError.TheVariants.{OutOfMemory};

use crate::buffer::{put_and_count, put_text};
use crate::fault::Fault;
use crate::messages::explain_version;
use crate::read::read;
use pep440_rs::{Change, ChangeError, Version, WithSentinels};
use pep440_version::{ChangeWordError, parse_change};
use std::alloc::{AllocError, AllocFailed, Global};

// Why there is no edited version.
#[derive(Clone, Copy, Debug)]
enum EditError {
    // The string is no version.
    InvalidVersion,
    // The change with this number, counted from 1, is the first that is no change word.
    NotAChange(usize),
    // A change cannot be made.
    Change(ChangeError),
    // Out of memory.
    OutOfMemory,
}

impl EditError {
    // The status that says it.
    pub(crate) fn status(self) -> u8
        ensures { result ≡ edit_status self }
    {
        match self {
            EditError::InvalidVersion => 1,
            EditError::NotAChange(_) | EditError::Change(_) => 8,
            EditError::OutOfMemory => 3,
        }
    }
}

impl From<AllocError> for EditError {
    ghost from_gives = { λ _ error. error ≡ OutOfMemory };

    fn from(_refused: AllocError) -> EditError {
        EditError::OutOfMemory
    }
}

impl<T: Drop> From<AllocFailed<T>> for EditError {
    ghost from_gives = { λ _ error. error ≡ OutOfMemory };

    fn from(_refused: AllocFailed<T>) -> EditError {
        EditError::OutOfMemory
    }
}

/// Writes the version after the changes, one after the other, with its sentinels; the program's command `edit` takes the same
/// words. The version is parsed first, then all words. Status 8 if one is no change word, or a change cannot be made.
pub fn write_edited(
    alloc: Global,
    text: &[u8],
    changes: &[&[u8]],
    out: &mut [u8],
    written: &mut usize,
) -> u8
    ensures { WritesEdited text.now (map (λ t. t.now) changes.now) out.old out.new written.old written.new result }
{
    match edit_version(alloc, text, changes) {
        Ok(edited) => put_and_count(edited.as_bytes(), out, written),
        Err(error) => error.status(),
    }
}

/// Writes why the version cannot be changed so, or why the string is none; nothing if it can.
pub fn write_edit_error(
    alloc: Global,
    text: &[u8],
    changes: &[&[u8]],
    out: &mut [u8],
    written: &mut usize,
) -> u8
    ensures { WritesBytes ⊥ ⊥ ⊥ (IsEditError text.now (map (λ t. t.now) changes.now)) out.old out.new written.old written.new result }
{
    put_text(explain_edit(alloc, text, changes), out, written)
}

// The change that the bytes ask for.
fn read_change(alloc: Global, word: &[u8]) -> Result<Change, ChangeWordError>
    ensures ok { IfOk result (λ change. BytesDenoteChange word.now (edit change)) }
    ensures err { IfErr result (λ e. e ≡ NotAChange → RejectsChangeWord word.now) }
{
    let Ok(text) = std::str::from_utf8(word) else {
        return Err(ChangeWordError::NotAChange);
    };
    parse_change(alloc, text)
}

// The changes that the words ask for; of a version, so that an error is one of both.
fn read_changes(alloc: Global, words: &[&[u8]]) -> Result<Vec<Change>, EditError>
    ensures { (text : List ℕ) (r : Record) → BytesDenote text r
        → HoldsOrEditFaults text (map (λ t. t.now) words.now)
        (λ changes. AllZip BytesDenoteChange (map (λ t. t.now) words.now) (map edit changes.items)) result }
{
    let mut changes = Vec::with_capacity(alloc, words.len())?;
    for (position, word) in words.iter().enumerate() {
        match read_change(alloc, word) {
            Ok(change) => changes.push(change)?,
            Err(ChangeWordError::NotAChange) => return Err(EditError::NotAChange(position + 1)),
            Err(ChangeWordError::OutOfMemory) => return Err(EditError::OutOfMemory),
        }
    }
    Ok(changes)
}

// The version after the changes.
fn apply_changes(alloc: Global, version: Version, words: &[&[u8]]) -> Result<Version, EditError>
    ensures { (text : List ℕ) → BytesDenote text version
        → HoldsOrEditFaults text (map (λ t. t.now) words.now)
        (λ q. (r : Record) × BytesDenote text r × ChangesTo r (map (λ t. t.now) words.now) (Ok q)) result }
{
    let changes = read_changes(alloc, words)?;
    match version.with_changes(alloc, changes.as_slice()) {
        Ok(changed) => Ok(changed),
        Err(ChangeError::OutOfMemory) => Err(EditError::OutOfMemory),
        Err(error) => Err(EditError::Change(error)),
    }
}

// The version that the bytes denote, after the changes. The version is read first, then all words, and then the changes are made.
fn change(alloc: Global, bytes: &[u8], words: &[&[u8]]) -> Result<Version, EditError>
    ensures { HoldsOrEditFaults bytes.now (map (λ t. t.now) words.now)
        (λ q. (r : Record) × BytesDenote bytes.now r × ChangesTo r (map (λ t. t.now) words.now) (Ok q)) result }
{
    match read(alloc, bytes) {
        Ok(version) => apply_changes(alloc, version, words),
        Err(Fault::OutOfMemory) => Err(EditError::OutOfMemory),
        Err(_) => Err(EditError::InvalidVersion),
    }
}

// The version after the changes, with its sentinels.
fn edit_version(alloc: Global, bytes: &[u8], words: &[&[u8]]) -> Result<String, EditError>
    ensures { HoldsOrEditFaults bytes.now (map (λ t. t.now) words.now)
        (λ text. IsEdited bytes.now (map (λ t. t.now) words.now) (string_bytes text)) result }
{
    let version = change(alloc, bytes, words)?;
    Ok(WithSentinels(&version).to_string(alloc)?)
}

// Why the change with this number is none.
fn explain_no_change(alloc: Global, number: usize) -> Result<String, AllocError>
    ensures { IfOk result (λ text. string_bytes text ≡ not_a_change_text number) }
{
    format!(in alloc; "change {number}: not a change")
}

// Why there is no such version; empty if there is one.
fn explain_edit(alloc: Global, bytes: &[u8], words: &[&[u8]]) -> Result<String, Fault>
    ensures { HoldsOrFaults ⊥ ⊥ ⊥ (λ text. IsEditError bytes.now (map (λ t. t.now) words.now) (string_bytes text)) result }
{
    match change(alloc, bytes, words) {
        Ok(_) => Ok(String::new(alloc)),
        Err(EditError::InvalidVersion) => explain_version(alloc, bytes),
        Err(EditError::NotAChange(number)) => Ok(explain_no_change(alloc, number)?),
        Err(EditError::Change(error)) => Ok(error.to_string(alloc)?),
        Err(EditError::OutOfMemory) => Err(Fault::OutOfMemory),
    }
}
