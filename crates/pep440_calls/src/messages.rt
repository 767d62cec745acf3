//! Why bytes are not what they were to be, and why an operator and a version make no specifier.
ghost use Rattle.std.specs.Prelude.{List, MatchOption, [], codes, not, string_bytes, ◌==◌, ◌≡◌, ◌≤◌, ◌⊎◌};
ghost use Rattle.pep440_compiled.specs.Lists.{DenotesList};
ghost use Rattle.pep440_compiled.specs.Version.{DenotesVersion};
ghost use Rattle.pep440_rs.specs.Specifiers.{Spec};
ghost use Rattle.pep440_version.specs.Record.{Record};
ghost use Rattle.pep440_calls.specs.Explanations.{ErrorResult, IsBuildError, IsErrorOf, IsNoOperator, RejectsNumbered, bytes_kind_number};
ghost use Rattle.pep440_calls.specs.CallerBytes.{IsNoCompiledList, IsNoCompiledVersion, StringDenotesList, StringDenotes, ExplainsListString, ExplainsString};
ghost use Rattle.pep440_calls.specs.Statuses.{HoldsOrFaults, WritesBytes};
ghost use Rattle.pep440_calls.specs.declared.messages.BytesKind.TheVariants as to_be;

use crate::buffer::put_text;
use crate::fault::Fault;
use crate::read::read;
use pep440_compiled::{
    CompiledError, has_list_format, has_version_format, read_list, read_version,
};
use pep440_rs::{
    Operator, ParseErrorKind, SpecifiersErrorKind, Version, VersionPattern, VersionSpecifier,
    VersionSpecifiers,
};
use std::alloc::Global;

const NOT_UTF8: &str = "not UTF-8";

const NO_COMPILED_VERSION: &str = "not a compiled version";

const NO_COMPILED_LIST: &str = "not a compiled list";

const INVALID_KIND: u8 = 9;

// What bytes are to be.
#[derive(Clone, Copy, Debug)]
enum BytesKind {
    Version,
    Pattern,
    Specifier,
    List,
}

impl BytesKind {
    // What C has this number for; `None` from 4 on.
    fn from_number(number: u8) -> Option<BytesKind>
        ensures { MatchOption result (4 ≤ number) (λ k. bytes_kind_number k ≡ number) }
    {
        Some(match number {
            0 => BytesKind::Version,
            1 => BytesKind::Pattern,
            2 => BytesKind::Specifier,
            3 => BytesKind::List,
            _ => return None,
        })
    }
}

/// Writes why the bytes are no version, no pattern, no specifier or no list, as `kind` is 0, 1, 2 or 3; nothing if they are one.
/// Patterns and specifiers are strings. Status 9 with another `kind`.
pub fn write_error(alloc: Global, kind: u8, bytes: &[u8], out: &mut [u8], written: &mut usize) -> u8
    ensures { ErrorResult kind bytes.now out.old out.new written.old written.new result }
{
    match BytesKind::from_number(kind) {
        Some(kind) => put_text(explain(alloc, kind, bytes), out, written),
        None => INVALID_KIND,
    }
}

fn explain(alloc: Global, kind: BytesKind, bytes: &[u8]) -> Result<String, Fault>
    ensures { HoldsOrFaults ⊥ ⊥ ⊥ (λ words. IsErrorOf kind bytes.now (string_bytes words)) result }
{
    match kind {
        BytesKind::Version => explain_version(alloc, bytes),
        BytesKind::Pattern => explain_pattern(alloc, bytes),
        BytesKind::Specifier => explain_specifier(alloc, bytes),
        BytesKind::List => explain_list(alloc, bytes),
    }
}

/// Writes why the operator of this number, its position in `Operator`, and the version make no specifier; nothing if they do
/// (PEP 440, "Version specifiers"). `.*` follows the version unless `star` is 0. Status 2 if no operator has the number.
pub fn write_build_error(
    alloc: Global,
    operator: u8,
    text: &[u8],
    star: u8,
    out: &mut [u8],
    written: &mut usize,
) -> u8
    ensures { WritesBytes (RejectsNumbered operator text.now) (IsNoOperator operator) ⊥
        (IsBuildError operator text.now (not (star == 0))) out.old out.new written.old written.new result }
{
    put_text(
        explain_build(alloc, operator, text, star != 0),
        out,
        written,
    )
}

// Why the operator and the version make no specifier; empty if they do.
fn explain_build(
    alloc: Global,
    operator: u8,
    text: &[u8],
    is_wildcard: bool,
) -> Result<String, Fault>
    ensures { HoldsOrFaults (RejectsNumbered operator text.now) (IsNoOperator operator) ⊥
        (λ words. IsBuildError operator text.now is_wildcard (string_bytes words)) result }
{
    let Some(operator) = Operator::from_number(operator) else {
        return Err(Fault::InvalidList);
    };
    let version = read(alloc, text)?;
    let pattern = if is_wildcard {
        VersionPattern::wildcard(version)
    } else {
        VersionPattern::verbatim(version)
    };
    match VersionSpecifier::from_pattern(operator, pattern) {
        Ok(_) => Ok(String::new(alloc)),
        Err(error) => Ok(error.to_string(alloc)?),
    }
}

fn explain_string(alloc: Global, bytes: &[u8]) -> Result<String, Fault>
    ensures { HoldsOrFaults ⊥ ⊥ ⊥ (λ words. ((r : Record) × StringDenotes bytes.now r × (string_bytes words ≡ []))
        ⊎ ExplainsString bytes.now (string_bytes words)) result }
{
    let Ok(text) = std::str::from_utf8(bytes) else {
        return Ok(String::from_str(alloc, NOT_UTF8)?);
    };
    match Version::from_str(alloc, text) {
        Ok(_) => Ok(String::new(alloc)),
        Err(error) => {
            if error.is_out_of_memory() {
                return Err(Fault::OutOfMemory);
            }
            Ok(error.to_string(alloc)?)
        }
    }
}

fn explain_compiled(alloc: Global, bytes: &[u8]) -> Result<String, Fault>
    ensures { HoldsOrFaults ⊥ ⊥ ⊥ (λ words. ((r : Record) × DenotesVersion bytes.now r × (string_bytes words ≡ []))
        ⊎ (IsNoCompiledVersion bytes.now × (string_bytes words ≡ codes "not a compiled version"))) result }
{
    match read_version(alloc, bytes) {
        Ok(_) => Ok(String::new(alloc)),
        Err(CompiledError::NotCompiled) => Ok(String::from_str(alloc, NO_COMPILED_VERSION)?),
        Err(CompiledError::OutOfMemory) => Err(Fault::OutOfMemory),
    }
}

// Why the bytes are no version; empty if they are one.
pub(crate) fn explain_version(alloc: Global, bytes: &[u8]) -> Result<String, Fault>
    ensures { HoldsOrFaults ⊥ ⊥ ⊥ (λ words. IsErrorOf to_be.Version bytes.now (string_bytes words)) result }
{
    if has_version_format(bytes) {
        return explain_compiled(alloc, bytes);
    }
    explain_string(alloc, bytes)
}

fn explain_list_string(alloc: Global, bytes: &[u8]) -> Result<String, Fault>
    ensures { HoldsOrFaults ⊥ ⊥ ⊥ (λ words. ((list : List Spec) × StringDenotesList bytes.now list × (string_bytes words ≡ []))
        ⊎ ExplainsListString bytes.now (string_bytes words)) result }
{
    let Ok(text) = std::str::from_utf8(bytes) else {
        return Ok(String::from_str(alloc, NOT_UTF8)?);
    };
    match VersionSpecifiers::from_str(alloc, text) {
        Ok(_) => Ok(String::new(alloc)),
        Err(error) => {
            if let SpecifiersErrorKind::OutOfMemory = error.kind() {
                return Err(Fault::OutOfMemory);
            }
            Ok(error.to_string(alloc)?)
        }
    }
}

fn explain_compiled_list(alloc: Global, bytes: &[u8]) -> Result<String, Fault>
    ensures { HoldsOrFaults ⊥ ⊥ ⊥ (λ words. ((list : List Spec) × DenotesList bytes.now list × (string_bytes words ≡ []))
        ⊎ (IsNoCompiledList bytes.now × (string_bytes words ≡ codes "not a compiled list"))) result }
{
    match read_list(alloc, bytes) {
        Ok(_) => Ok(String::new(alloc)),
        Err(CompiledError::NotCompiled) => Ok(String::from_str(alloc, NO_COMPILED_LIST)?),
        Err(CompiledError::OutOfMemory) => Err(Fault::OutOfMemory),
    }
}

// Why the bytes are no list; empty if they are one.
fn explain_list(alloc: Global, bytes: &[u8]) -> Result<String, Fault>
    ensures { HoldsOrFaults ⊥ ⊥ ⊥ (λ words. IsErrorOf to_be.List bytes.now (string_bytes words)) result }
{
    if has_list_format(bytes) {
        return explain_compiled_list(alloc, bytes);
    }
    explain_list_string(alloc, bytes)
}

// Why the bytes are no pattern; empty if they are one.
fn explain_pattern(alloc: Global, bytes: &[u8]) -> Result<String, Fault>
    ensures { HoldsOrFaults ⊥ ⊥ ⊥ (λ words. IsErrorOf to_be.Pattern bytes.now (string_bytes words)) result }
{
    let Ok(text) = std::str::from_utf8(bytes) else {
        return Ok(String::from_str(alloc, NOT_UTF8)?);
    };
    match VersionPattern::from_str(alloc, text) {
        Ok(_) => Ok(String::new(alloc)),
        Err(error) => {
            if error.is_out_of_memory() {
                return Err(Fault::OutOfMemory);
            }
            Ok(error.to_string(alloc)?)
        }
    }
}

// Why the bytes are no specifier; empty if they are one.
fn explain_specifier(alloc: Global, bytes: &[u8]) -> Result<String, Fault>
    ensures { HoldsOrFaults ⊥ ⊥ ⊥ (λ words. IsErrorOf to_be.Specifier bytes.now (string_bytes words)) result }
{
    let Ok(text) = std::str::from_utf8(bytes) else {
        return Ok(String::from_str(alloc, NOT_UTF8)?);
    };
    match VersionSpecifier::from_str(alloc, text) {
        Ok(_) => Ok(String::new(alloc)),
        Err(error) => {
            if let ParseErrorKind::OutOfMemory = error.kind() {
                return Err(Fault::OutOfMemory);
            }
            Ok(error.to_string(alloc)?)
        }
    }
}
