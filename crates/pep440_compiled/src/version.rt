//! Compiled versions: made, read, compared.
ghost use Rattle.std.specs.Prelude.{◌≡◌, ◌++◌, Ok, IfErr, IfOk, MatchResult, OnOk, string_bytes};
ghost use Rattle.std.specs.Cmp.Lexicographic.{slice_cmp};
ghost use Rattle.std.specs.Ordering.{nat_cmp};
ghost use Rattle.pep440_compiled.specs.Version.{DenotesVersion, HasVersionFormat, compiled_bytes, version_bytes, zero_bytes};
ghost use Rattle.pep440_version.specs.RoundTrip.{IsParsed};
ghost use Rattle.pep440_compiled.specs.declared.error.CompileError.TheVariants.{NotParsed};
ghost use Rattle.pep440_compiled.specs.declared.error.CompiledError.TheVariants as unread;
ghost use Rattle.pep440_keys.specs.SortKeys.{key_bytes};
ghost use Rattle.pep440_rs.specs.Matching.{any_prerelease};
ghost use Rattle.pep440_version.specs.Key.{record_cmp};
ghost use Rattle.pep440_version.specs.Print.{print};
ghost use Rattle.pep440_version.specs.Record.{Record};

use crate::byte_order::{cmp_bytes, cmp_common};
use crate::checked_version::check_version;
use crate::decode::decode_version;
use crate::error::{CompileError, CompiledError, NotCompiled};
use crate::parsed::is_parsed;
use crate::views::{VERSION, has_version_format, view_version, view_version_parts};
use pep440_keys::push_sort_key;
use pep440_version::Version;
use pep440_version::key::trim_trailing_zeros;
use std::alloc::{AllocError, Global};
use std::cmp::Ordering;

// A byte 1 for each zero that ends the release.
#[inline(always)]
fn push_zeros(bytes: &mut Vec<u8>, release: &[u64]) -> Result<(), AllocError>
    ensures { OnOk result (bytes.new.items ≡ bytes.old.items ++ zero_bytes release.now) }
{
    let kept = trim_trailing_zeros(release).len();
    for _ in kept..release.len() {
        bytes.push(1)?;
    }
    Ok(())
}

// Appends the sort key and the zeros that it leaves out.
pub(crate) fn push_version(bytes: &mut Vec<u8>, version: &Version) -> Result<(), AllocError>
    ensures { OnOk result (bytes.new.items ≡ bytes.old.items ++ version_bytes version.now) }
{
    push_sort_key(bytes, version)?;
    push_zeros(bytes, version.release())
}

/// Appends the byte 4, the sort key, and a byte 1 for each zero that ends the release: the compiled form, if a string parses to
/// the version. Others, as the bounds of ranges with a sentinel, are written in the same way; their bytes denote no version.
pub fn push_compiled_form(bytes: &mut Vec<u8>, version: &Version) -> Result<(), AllocError>
    ensures { OnOk result (bytes.new.items ≡ bytes.old.items ++ compiled_bytes version.now) }
{
    bytes.push(VERSION)?;
    push_version(bytes, version)
}

/// The compiled form of a version; `NotParsed` if no string parses to the version.
///
/// Allocates, once for a version that is packed.
pub fn compile_version(alloc: Global, version: &Version) -> Result<Vec<u8>, CompileError>
    ensures ok { IfOk result (λ bytes. DenotesVersion bytes.items version.now) }
    ensures err { IfErr result (λ e. e ≡ NotParsed → IsParsed version.now → ⊥) }
{
    if !is_parsed(version) {
        return Err(CompileError::NotParsed);
    }
    let mut bytes = Vec::with_capacity(alloc, 32)?;
    push_compiled_form(&mut bytes, version)?;
    Ok(bytes)
}

/// The version that the bytes denote; `NotCompiled` if they denote none.
///
/// Allocates, and may return `OutOfMemory`.
pub fn read_version(alloc: Global, bytes: &[u8]) -> Result<Version, CompiledError>
    ensures ok { IfOk result (λ version. DenotesVersion bytes.now version) }
    ensures err { IfErr result (λ e. e ≡ unread.NotCompiled → (r : Record) → DenotesVersion bytes.now r → ⊥) }
{
    let Some(view) = view_version(bytes) else {
        return Err(CompiledError::NotCompiled);
    };
    let Some(version) = decode_version(alloc, view)? else {
        return Err(CompiledError::NotCompiled);
    };
    // Decoding does not test the characters of a local part.
    if !is_parsed(&version) {
        return Err(CompiledError::NotCompiled);
    }
    Ok(version)
}

/// The normalized form of the version that the bytes denote (PEP 440, "Normalization"); `NotCompiled` if they denote
/// none.
///
/// Allocates, and may return `OutOfMemory`.
pub fn normalize(alloc: Global, bytes: &[u8]) -> Result<String, CompiledError>
    ensures ok { IfOk result (λ text. (r : Record) × DenotesVersion bytes.now r × (string_bytes text ≡ print r)) }
    ensures err { IfErr result (λ e. e ≡ unread.NotCompiled → (r : Record) → DenotesVersion bytes.now r → ⊥) }
{
    let version = read_version(alloc, bytes)?;
    Ok(version.to_string(alloc)?)
}

/// The sort key of the version that the bytes denote (`pep440_keys::sort_key`), as it lies in them. Bytes of another format
/// are `NotCompiled`; of others that denote no version, `NotCompiled` or any part of them.
///
/// Does not allocate.
pub fn sort_key(bytes: &[u8]) -> Result<&[u8], NotCompiled>
    ensures found { (r : Record) → DenotesVersion bytes.now r → MatchResult result (λ key. key.now ≡ key_bytes r) (λ _. ⊥) }
    ensures format { IfOk result (λ _. HasVersionFormat bytes.now) }
{
    match view_version(bytes) {
        Some(view) => Ok(view.key),
        None => Err(NotCompiled),
    }
}

/// The sort key of the version that the bytes denote, as it lies in them, after a test of all bytes: `NotCompiled` if they denote
/// no version.
///
/// Does not allocate.
#[inline(always)]
pub fn read_sort_key(bytes: &[u8]) -> Result<&[u8], NotCompiled>
    ensures ok { IfOk result (λ key. (r : Record) × DenotesVersion bytes.now r × (key.now ≡ key_bytes r)) }
    ensures err { IfErr result (λ _. (r : Record) → DenotesVersion bytes.now r → ⊥) }
{
    match check_version(bytes) {
        Some(version) => Ok(version.key),
        None => Err(NotCompiled),
    }
}

/// The order of the versions that the bytes denote (PEP 440, "Summary of permitted suffixes and relative ordering"). If `a` or
/// `b` is of another format, `NotCompiled`; if one denotes no version, `NotCompiled` or any order.
///
/// Does not allocate.
pub fn compare(a: &[u8], b: &[u8]) -> Result<Ordering, NotCompiled>
    ensures found { (r q : Record) → DenotesVersion a.now r → DenotesVersion b.now q → result ≡ Ok (record_cmp r q) }
    ensures format { MatchResult result (λ _. HasVersionFormat a.now × HasVersionFormat b.now)
        (λ _. HasVersionFormat a.now → HasVersionFormat b.now → ⊥) }
{
    if !has_version_format(a) || !has_version_format(b) {
        return Err(NotCompiled);
    }
    // No sort key begins with another one, so those of different versions differ before either ends; only zeros follow equal ones.
    Ok(cmp_common(a, b))
}

/// The order of two sort keys as bytes, and so of their versions, in fewer instructions than `cmp` of slices takes.
///
/// Does not allocate.
#[inline(always)]
pub fn compare_sort_keys(a: &[u8], b: &[u8]) -> Ordering
    ensures { result ≡ slice_cmp nat_cmp a.now b.now }
{
    cmp_bytes(a, b)
}

/// Whether the version that the bytes denote is a pre-release or a developmental release (PEP 440, "Handling of
/// pre-releases"). Bytes of another format are `NotCompiled`; of others that denote no version, `NotCompiled` or either result.
///
/// Does not allocate.
pub fn any_prerelease(bytes: &[u8]) -> Result<bool, NotCompiled>
    ensures found { (r : Record) → DenotesVersion bytes.now r → result ≡ Ok (any_prerelease r) }
    ensures format { IfOk result (λ _. HasVersionFormat bytes.now) }
{
    match view_version_parts(bytes) {
        Some(parts) => Ok(parts.suffix.is_prerelease),
        None => Err(NotCompiled),
    }
}
