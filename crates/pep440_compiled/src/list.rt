//! Compiled lists of specifiers: made, read, asked.
ghost use Rattle.std.specs.Prelude.{◌≡◌, ◌↔◌, ◌++◌, ◌∷◌, List, Ok, false, true, IfErr, IfOk, IfSome, MatchOption, string_bytes};
ghost use Rattle.std.specs.List.{All};
ghost use Rattle.pep440_compiled.specs.Lists.{DenotesList, DenotesMembers, DenotesWithSet, HasListFormat, HasMembersFormat, HasSetFormat, IsListForm, has_set};
ghost use Rattle.pep440_compiled.specs.SetBytes.{set_bytes, sized_bytes};
ghost use Rattle.pep440_compiled.specs.Version.{DenotesVersion, HasVersionFormat};
ghost use Rattle.pep440_compiled.specs.declared.error.CompileError.TheVariants.{NotParsed};
ghost use Rattle.pep440_compiled.specs.declared.error.CompiledError.TheVariants as unread;
ghost use Rattle.pep440_compiled.specs.declared.error.ContainsError.TheVariants.{NoList, NoVersion};
ghost use Rattle.pep440_rs.specs.Lists.{print_list};
ghost use Rattle.pep440_rs.specs.Matching.{any_prerelease, list_matches};
ghost use Rattle.pep440_rs.specs.Prereleases.{requests_prereleases};
ghost use Rattle.pep440_rs.specs.Specifiers.{Spec};
ghost use Rattle.pep440_sets.specs.Sets.{list_set};
ghost use Rattle.pep440_version.specs.Record.{Record};
ghost use Rattle.pep440_version.specs.RoundTrip.{IsParsed};

use crate::error::{CompileError, CompiledError, ContainsError, NotCompiled};
use crate::list_members::{self, compile_members, has_members_format, read_members};
use crate::operand::have_operands;
use crate::set_bytes::{push_with_length, set_bytes, split_by_length};
use pep440_rs::{Ranges, Version, VersionSpecifiers};
use pep440_sets::{SetError, specifiers_to_set};
use std::alloc::{AllocError, Global};

// The format of lists that have their set.
pub(crate) const WITH_SET: u8 = 6;

/// Whether the bytes begin with a format byte of compiled lists, which no string of a list begins with.
pub fn has_list_format(bytes: &[u8]) -> bool
    ensures { (result ≡ true) ↔ HasListFormat bytes.now }
{
    has_members_format(bytes) || has_set_format(bytes)
}

/// Whether the bytes begin with the format byte of compiled lists that have their set.
pub fn has_set_format(bytes: &[u8]) -> bool
    ensures { (result ≡ true) ↔ HasSetFormat bytes.now }
{
    bytes.first() == Some(&WITH_SET)
}

// The set before the members.
fn prepend_set(alloc: Global, set: &Ranges<Version>, members: &[u8]) -> Result<Vec<u8>, AllocError>
    ensures { (l : List Spec) → DenotesMembers members.now l → has_set l ≡ true → set.now ≡ list_set l
        → IfOk result (λ bytes. DenotesWithSet bytes.items l) }
{
    let set = set_bytes(alloc, set)?;
    let mut bytes = Vec::with_capacity(alloc, set.len().saturating_add(members.len()))?;
    bytes.push(WITH_SET)?;
    push_with_length(&mut bytes, set.as_slice())?;
    bytes.extend_from_slice(members)?;
    Ok(bytes)
}

/// The compiled form of a list: its set and its members; or, with `===`, which has no set, or with a member that no string denotes, just
/// the members. `NotParsed` if no string parses to the version of some member.
///
/// Allocates.
pub fn compile_list(alloc: Global, list: &VersionSpecifiers) -> Result<Vec<u8>, CompileError>
    ensures ok { IfOk result (λ bytes. IsListForm bytes.items list.now) }
    ensures err { IfErr result (λ e. e ≡ NotParsed → All (λ (s : Spec). IsParsed s.version) list.now → ⊥) }
{
    let members = compile_members(alloc, list)?;
    if !have_operands(list.as_slice()) {
        return Ok(members);
    }
    match specifiers_to_set(alloc, list.as_slice()) {
        Ok(set) => Ok(prepend_set(alloc, &set, members.as_slice())?),
        Err(SetError::ArbitraryEquality) => Ok(members),
        Err(SetError::OutOfMemory) => Err(CompileError::OutOfMemory),
    }
}

// The set, and the members with their format byte.
#[inline(always)]
pub(crate) fn split_set(bytes: &[u8]) -> Option<(&[u8], &[u8])>
    ensures found { (l : List Spec) → DenotesWithSet bytes.now l
        → MatchOption result ⊥ (λ p. (p.0.now ≡ set_bytes (list_set l)) × DenotesMembers p.1.now l) }
    ensures exact { IfSome result (λ p. bytes.now ≡ 6 ∷ sized_bytes p.0.now ++ p.1.now) }
{
    match bytes.split_first() {
        Some((&WITH_SET, rest)) => split_by_length(rest),
        _ => None,
    }
}

// The members with their format byte.
#[inline(always)]
fn skip_set(bytes: &[u8]) -> &[u8]
    ensures found { (l : List Spec) → DenotesList bytes.now l → DenotesMembers result.now l }
    ensures format { HasMembersFormat result.now → HasListFormat bytes.now }
{
    match split_set(bytes) {
        Some((_, members)) => members,
        None => bytes,
    }
}

/// Whether the list that the one bytes denote contains the version that the others denote, as `VersionSpecifiers::contains`
/// (PEP 440, "Version specifiers"); and whether the version is a pre-release or a developmental release. If one is of another
/// format, the error names it; if `list` denotes no list or `version` no version, an error or any result.
///
/// Does not allocate.
#[inline(always)]
pub fn contains(list: &[u8], version: &[u8]) -> Result<(bool, bool), ContainsError>
    ensures found { (l : List Spec) (r : Record) → DenotesList list.now l → DenotesVersion version.now r
        → result ≡ Ok (list_matches l r, any_prerelease r) }
    ensures prerelease { (r : Record) → DenotesVersion version.now r → IfOk result (λ found. found.1 ≡ any_prerelease r) }
    ensures format { IfOk result (λ _. HasListFormat list.now × HasVersionFormat version.now) }
    ensures version { IfErr result (λ e. e ≡ NoVersion → (r : Record) → DenotesVersion version.now r → ⊥) }
    ensures list { IfErr result (λ e. e ≡ NoList → (l : List Spec) → DenotesList list.now l → ⊥) }
{
    list_members::contains(skip_set(list), version)
}

/// Whether the list that the bytes denote asks for pre-releases: some specifier with another operator than `!=` names a
/// pre-release or a developmental release (PEP 440, "Handling of pre-releases"). If the bytes are of another format,
/// `NotCompiled`; if they denote no list, `NotCompiled` or either result.
///
/// Does not allocate.
pub fn requests_prereleases(bytes: &[u8]) -> Result<bool, NotCompiled>
    ensures found { (l : List Spec) → DenotesList bytes.now l → result ≡ Ok (requests_prereleases l) }
    ensures format { IfOk result (λ _. HasListFormat bytes.now) }
{
    list_members::requests_prereleases(skip_set(bytes))
}

// Whether the list compiles to these bytes.
fn is_list_form(alloc: Global, list: &VersionSpecifiers, bytes: &[u8]) -> Result<bool, AllocError>
    ensures { IfOk result (λ b. (b ≡ true) ↔ IsListForm bytes.now list.now) }
{
    match compile_list(alloc, list) {
        Ok(compiled) => Ok(compiled.as_slice() == bytes),
        Err(CompileError::NotParsed) => Ok(false),
        Err(CompileError::OutOfMemory) => Err(AllocError),
    }
}

/// The list that the bytes denote; `NotCompiled` if they denote none.
///
/// Allocates, and may return `OutOfMemory`.
pub fn read_list(alloc: Global, bytes: &[u8]) -> Result<VersionSpecifiers, CompiledError>
    ensures ok { IfOk result (λ l. DenotesList bytes.now l) }
    ensures err { IfErr result (λ e. e ≡ unread.NotCompiled → (l : List Spec) → DenotesList bytes.now l → ⊥) }
{
    let Some((_, members)) = split_set(bytes) else {
        return read_members(alloc, bytes);
    };
    let list = read_members(alloc, members)?;
    if !is_list_form(alloc, &list, bytes)? {
        return Err(CompiledError::NotCompiled);
    }
    Ok(list)
}

/// The normalized form of the list that the bytes denote, its members with a comma and a space between them; `NotCompiled`
/// if they denote none.
///
/// Allocates, and may return `OutOfMemory`.
pub fn normalize_list(alloc: Global, bytes: &[u8]) -> Result<String, CompiledError>
    ensures ok { IfOk result (λ text. (l : List Spec) × DenotesList bytes.now l × (string_bytes text ≡ print_list l)) }
    ensures err { IfErr result (λ e. e ≡ unread.NotCompiled → (l : List Spec) → DenotesList bytes.now l → ⊥) }
{
    let list = read_list(alloc, bytes)?;
    match list.to_string(alloc) {
        Ok(text) => Ok(text),
        Err(_) => Err(CompiledError::OutOfMemory),
    }
}
