//! What is made of one version: its normal form, compiled form, parts, sort key and word.
ghost use Rattle.std.specs.Prelude.{IfErr, IsOk, false, string_bytes, true, ◌≡◌, ◌≢◌};
ghost use Rattle.pep440_compiled.specs.Version.{DenotesVersion, HasVersionFormat};
ghost use Rattle.pep440_version.specs.Record.{Record};
ghost use Rattle.pep440_calls.specs.CallResults.{IsCompiled, IsKey, IsShortNormalForm, IsNormal, PartsResult, HasPartsOf, IsPackedWord, NeedsNoMemory, WordResult, kind_number};
ghost use Rattle.pep440_calls.specs.CallerBytes.{RejectsBytes};
ghost use Rattle.pep440_calls.specs.Statuses.{HoldsOrFaults, WritesBytes};
ghost use Rattle.pep440_calls.specs.declared.fault.Fault.TheVariants.{OutOfMemory};

use crate::buffer::{NOT_PACKED, OK, flag, put, put_slice, put_text};
use crate::fault::Fault;
use crate::read::read;
use pep440_compiled::{FormBuffer, has_version_format};
use pep440_rs::{PrereleaseKind, Version};
use pep440_version::laws::word;
use std::alloc::Global;

/// Writes the normal form of the version (PEP 440, "Normalization").
pub fn write_normal_form(alloc: Global, text: &[u8], out: &mut [u8], written: &mut usize) -> u8
    ensures { WritesBytes (RejectsBytes text.now) ⊥ ⊥ (IsNormal text.now) out.old out.new written.old written.new result }
{
    put_text(normalize(alloc, text), out, written)
}

// The normal form of a version.
fn normalize(alloc: Global, bytes: &[u8]) -> Result<String, Fault>
    ensures { HoldsOrFaults (RejectsBytes bytes.now) ⊥ ⊥ (λ text. IsNormal bytes.now (string_bytes text)) result }
{
    let version = read(alloc, bytes)?;
    Ok(version.to_string(alloc)?)
}

/// Writes the compiled form of the version. Allocates nothing for a compiled version, or for a short string in normal form.
pub fn write_compiled(alloc: Global, text: &[u8], out: &mut [u8], written: &mut usize) -> u8
    ensures found { WritesBytes (RejectsBytes text.now) ⊥ ⊥ (IsCompiled text.now) out.old out.new written.old written.new result }
    ensures memory { NeedsNoMemory text.now → result ≢ 3 }
{
    if has_version_format(text) {
        return put_slice(find_form(text), out, written);
    }
    let mut buffer = FormBuffer::new(alloc);
    put_slice(compile_string(alloc, &mut buffer, text), out, written)
}

// Whether the bytes are a compiled version, all of them. A call of its own, since two copies would make each program that compares larger.
#[inline(never)]
fn is_compiled(bytes: &[u8]) -> bool
    ensures form { result ≡ true → (r : Record) × DenotesVersion bytes.now r }
    ensures none { result ≡ false → (r : Record) → DenotesVersion bytes.now r → ⊥ }
{
    match pep440_compiled::read_sort_key(bytes) {
        Ok(_) => true,
        Err(_) => false,
    }
}

// A compiled version, as it lies in the bytes.
#[tactic(auto, using(crate::proofs::Forms::copied, crate::proofs::Forms::no_compiled))]
#[inline(always)]
pub(crate) fn find_form(bytes: &[u8]) -> Result<&[u8], Fault>
    requires { HasVersionFormat bytes.now }
    ensures found { HoldsOrFaults (RejectsBytes bytes.now) ⊥ ⊥ (λ form. IsCompiled bytes.now form.now) result }
    ensures memory { IfErr result (λ f. f ≢ OutOfMemory) }
{
    if !is_compiled(bytes) {
        return Err(Fault::InvalidVersion);
    }
    Ok(bytes)
}

// The compiled form of a string, in the buffer.
#[inline(always)]
pub(crate) fn compile_string<'a>(
    alloc: Global,
    buffer: &'a mut FormBuffer,
    text: &[u8],
) -> Result<&'a [u8], Fault>
    requires { ¬ HasVersionFormat text.now }
    ensures found { HoldsOrFaults (RejectsBytes text.now) ⊥ ⊥ (λ form. IsCompiled text.now form.now) result }
    ensures memory { IsShortNormalForm text.now → IsOk result }
{
    Ok(buffer.compile(alloc, text)?)
}

/// Writes the sort key of the version: `memcmp` orders keys as their versions (PEP 440, "Summary of permitted
/// suffixes and relative ordering"). Allocates nothing for a compiled version, or for a short string in normal form.
pub fn write_sort_key(alloc: Global, text: &[u8], out: &mut [u8], written: &mut usize) -> u8
    ensures found { WritesBytes (RejectsBytes text.now) ⊥ ⊥ (IsKey text.now) out.old out.new written.old written.new result }
    ensures memory { NeedsNoMemory text.now → result ≢ 3 }
{
    if has_version_format(text) {
        return put_slice(find_key(text), out, written);
    }
    let mut buffer = FormBuffer::new(alloc);
    put_slice(make_string_key(alloc, &mut buffer, text), out, written)
}

// The sort key of a compiled version, as it lies in the bytes.
#[inline(always)]
pub(crate) fn find_key(bytes: &[u8]) -> Result<&[u8], Fault>
    requires { HasVersionFormat bytes.now }
    ensures found { HoldsOrFaults (RejectsBytes bytes.now) ⊥ ⊥ (λ key. IsKey bytes.now key.now) result }
    ensures memory { IfErr result (λ f. f ≢ OutOfMemory) }
{
    match pep440_compiled::read_sort_key(bytes) {
        Ok(key) => Ok(key),
        Err(_) => Err(Fault::InvalidVersion),
    }
}

// The sort key of a string, in the buffer.
#[inline(always)]
pub(crate) fn make_string_key<'a>(
    alloc: Global,
    buffer: &'a mut FormBuffer,
    text: &[u8],
) -> Result<&'a [u8], Fault>
    requires { ¬ HasVersionFormat text.now }
    ensures found { HoldsOrFaults (RejectsBytes text.now) ⊥ ⊥ (λ key. IsKey text.now key.now) result }
    ensures memory { IsShortNormalForm text.now → IfErr result (λ f. f ≢ OutOfMemory) }
{
    let form = compile_string(alloc, buffer, text)?;
    match pep440_compiled::sort_key(form) {
        Ok(key) => Ok(key),
        Err(_) => Err(Fault::InvalidVersion),
    }
}

/// Writes the word of the version: words are numbers in the order of their versions (PEP 440, "Summary of permitted
/// suffixes and relative ordering"). Status 7 if the version is not packed: then it has no word.
pub fn write_word(alloc: Global, text: &[u8], word: &mut u64) -> u8
    ensures { WordResult text.now word.old word.new result }
{
    match to_word(alloc, text) {
        Ok(Some(found)) => {
            *word = found;
            OK
        }
        Ok(None) => NOT_PACKED,
        Err(fault) => fault.status(),
    }
}

// The word of a version; `None` of one that is not packed.
fn to_word(alloc: Global, bytes: &[u8]) -> Result<Option<u64>, Fault>
    ensures { HoldsOrFaults (RejectsBytes bytes.now) ⊥ ⊥ (IsPackedWord bytes.now) result }
{
    let version = read(alloc, bytes)?;
    Ok(word(&version).copied())
}

/// The numbers of a version, 0 if it has no such part.
#[repr(C)]
#[derive(Clone, Copy, Debug)]
pub struct Parts {
    pub epoch: u64,
    pub pre: u64,
    pub post: u64,
    pub dev: u64,
    /// How many numbers the release has.
    pub release_length: usize,
    /// 0 no pre-release, 1 alpha, 2 beta, 3 release candidate.
    pub pre_kind: u8,
    /// 1 or 0, as the next two.
    pub has_post: u8,
    pub has_dev: u8,
    pub has_local: u8,
}

/// Writes the parts of the version, and the numbers of its release (PEP 440, "Public version identifiers").
pub fn write_parts(alloc: Global, text: &[u8], parts: &mut Parts, release: &mut [u64]) -> u8
    ensures { PartsResult text.now parts.old parts.new release.old release.new result }
{
    match read(alloc, text) {
        Ok(version) => {
            *parts = parts_of(&version);
            put(version.release(), release)
        }
        Err(fault) => fault.status(),
    }
}

// The number that stands for a kind of pre-release.
fn kind_number(kind: PrereleaseKind) -> u8
    ensures { result ≡ kind_number kind }
{
    match kind {
        PrereleaseKind::Alpha => 1,
        PrereleaseKind::Beta => 2,
        PrereleaseKind::Rc => 3,
    }
}

// The parts of the version.
fn parts_of(version: &Version) -> Parts
    ensures { HasPartsOf version.now result }
{
    let (pre_kind, pre) = match version.pre() {
        None => (0, 0),
        Some(pre) => (kind_number(pre.kind), pre.number),
    };
    Parts {
        epoch: version.epoch(),
        pre,
        post: version.post().unwrap_or(0),
        dev: version.dev().unwrap_or(0),
        release_length: version.release().len(),
        pre_kind,
        has_post: flag(version.is_post()),
        has_dev: flag(version.is_dev()),
        has_local: flag(version.is_local()),
    }
}
