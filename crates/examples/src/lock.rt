//! A lock file checker: which lines hold a version that their own list does not contain.
ghost use Rattle.std.specs.Prelude.{◌≡◌, map, string_bytes, IfErr, IfNone, IfOk, IfSome};
ghost use Rattle.pep440_version.specs.Grammar.{Derives};
ghost use Rattle.pep440_rs.specs.Lists.ListGrammar.{DerivesList};
ghost use Rattle.examples.specs.Lock.{IsFault, IsShort, broken_names, list_part, name_part, version_part};

use pep440_rs::{Version, VersionParseError, VersionSpecifiers, VersionSpecifiersParseError};
use std::alloc::{AllocError, Global};

/// A line of a lock file, as `demo; >=1.0, <2.0; 1.5`.
#[derive(Debug, Drop)]
pub struct LockEntry {
    /// The name, as it is written.
    pub name: String,
    /// The versions that are wanted.
    pub wanted: VersionSpecifiers,
    /// The version that was chosen.
    pub version: Version,
}

/// Why a line is rejected.
#[derive(Debug, Drop)]
pub enum LockError {
    /// There are fewer than two semicolons.
    Parts,
    /// The second part is no list.
    Wanted(VersionSpecifiersParseError),
    /// The third part is no version.
    Version(VersionParseError),
    /// Out of memory, which says nothing about the line.
    OutOfMemory,
}

impl From<VersionSpecifiersParseError> for LockError {
    ghost use Rattle.examples.specs.declared.lock.LockError.TheVariants.{Wanted};

    ghost from_gives = { λ error of. of ≡ Wanted error };

    fn from(error: VersionSpecifiersParseError) -> LockError {
        LockError::Wanted(error)
    }
}

impl From<VersionParseError> for LockError {
    ghost use Rattle.examples.specs.declared.lock.LockError.TheVariants.{Version};

    ghost from_gives = { λ error of. of ≡ Version error };

    fn from(error: VersionParseError) -> LockError {
        LockError::Version(error)
    }
}

impl From<AllocError> for LockError {
    ghost use Rattle.examples.specs.declared.lock.LockError.TheVariants.{OutOfMemory};

    ghost from_gives = { λ _ of. of ≡ OutOfMemory };

    fn from(_refused: AllocError) -> LockError {
        LockError::OutOfMemory
    }
}

// The parts of the line, between semicolons; none if there are fewer than two.
fn split_parts(line: &str) -> Option<(&str, &str, &str)>
    ensures short { IfNone result (IsShort line.now) }
    ensures long { IfSome result (λ _. ¬ IsShort line.now) }
    ensures name { IfSome result (λ p. p.0.now ≡ name_part line.now) }
    ensures list { IfSome result (λ p. p.1.now ≡ list_part line.now) }
    ensures version { IfSome result (λ p. p.2.now ≡ version_part line.now) }
{
    let (name, rest) = line.split_once(';')?;
    let (wanted, version) = rest.split_once(';')?;
    Some((name, wanted, version))
}

impl LockEntry {
    /// The entry of a line: a name, a list and a version, with semicolons between them.
    ///
    /// Allocates. The error names the first fault: `Parts`, then the list's, then the version's. `OutOfMemory`
    /// says nothing about the line.
    pub fn from_line(alloc: Global, line: &str) -> Result<LockEntry, LockError>
        ensures name { IfOk result (λ l. string_bytes l.name ≡ name_part line.now) }
        ensures wanted { IfOk result (λ l. DerivesList (list_part line.now) l.wanted) }
        ensures version { IfOk result (λ l. Derives (version_part line.now) l.version) }
        ensures refused { IfErr result (IsFault line.now) }
    {
        let Some((name, wanted, version)) = split_parts(line) else {
            return Err(LockError::Parts);
        };
        Ok(LockEntry {
            name: String::from_str(alloc, name)?,
            wanted: VersionSpecifiers::from_str(alloc, wanted)?,
            version: Version::from_str(alloc, version)?,
        })
    }
}

/// The names of the lines whose version is not contained in their list, in order.
///
/// Allocates; the error is out of memory.
pub fn find_broken(alloc: Global, lock: &[LockEntry]) -> Result<Vec<String>, AllocError>
    ensures { IfOk result (λ names. map string_bytes names.items ≡ broken_names lock.now) }
{
    let mut names = Vec::new(alloc);
    for locked in lock {
        if !locked.wanted.contains(alloc, &locked.version)? {
            names.push(locked.name.clone()?)?;
        }
    }
    Ok(names)
}
