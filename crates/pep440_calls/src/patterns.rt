//! Version patterns, specifiers of an operator and a pattern, and one specifier.
ghost use Rattle.std.specs.Prelude.{string_bytes};
ghost use Rattle.pep440_rs.specs.Operators.{Spells};
ghost use Rattle.pep440_calls.specs.CallResults.{IsCompiledSpecifier, IsOperator, IsPattern, IsSpecifier, StringDenotesPattern, BytesDenoteSpecifier, PatternResult, RejectsOperand, RejectsOperator, RejectsPatternBytes, RejectsSpecifierBytes};
ghost use Rattle.pep440_calls.specs.Statuses.{HoldsOrFaults, WritesBytes};

use crate::buffer::{flag, put_and_count, put_bytes, put_text};
use crate::fault::Fault;
use pep440_rs::{
    Operator, OperatorErrorKind, ParseErrorKind, VersionPattern, VersionSpecifier,
    VersionSpecifiers,
};
use std::alloc::Global;

/// Writes the normal form of the version of a pattern, and whether `.*` follows it, 1 or 0 (PEP 440, "Version matching").
pub fn write_pattern(
    alloc: Global,
    pattern: &[u8],
    out: &mut [u8],
    written: &mut usize,
    star: &mut u8,
) -> u8
    ensures { PatternResult pattern.now out.old out.new written.old written.new star.old star.new result }
{
    match normalize_pattern(alloc, pattern) {
        Ok((text, is_wildcard)) => {
            *star = flag(is_wildcard);
            put_and_count(text.as_bytes(), out, written)
        }
        Err(fault) => fault.status(),
    }
}

/// Writes the specifier of an operator and a version, as its list prints it; the version may end with `.*` for `==` and
/// `!=` (PEP 440, "Version specifiers"). The operator is parsed first. Status 2 if it is none, or does not go with the
/// version: `.*` or a local part if it allows none, or `~=` before a single release number.
pub fn write_specifier(
    alloc: Global,
    operator: &[u8],
    version: &[u8],
    out: &mut [u8],
    written: &mut usize,
) -> u8
    ensures { WritesBytes (RejectsOperand operator.now version.now) (RejectsOperator operator.now version.now) ⊥
        (IsSpecifier operator.now version.now) out.old out.new written.old written.new result }
{
    put_text(to_specifier(alloc, operator, version), out, written)
}

/// Writes the compiled form of the list of the one specifier that the string denotes (PEP 440, "Version specifiers"). Status 2
/// if it denotes none, as the empty string and a string with a comma.
pub fn write_compiled_specifier(
    alloc: Global,
    specifier: &[u8],
    out: &mut [u8],
    written: &mut usize,
) -> u8
    ensures { WritesBytes ⊥ (RejectsSpecifierBytes specifier.now) ⊥ (IsCompiledSpecifier specifier.now)
        out.old out.new written.old written.new result }
{
    put_bytes(compile_specifier(alloc, specifier), out, written)
}

// The pattern that the bytes denote.
fn read_pattern(alloc: Global, bytes: &[u8]) -> Result<VersionPattern, Fault>
    ensures { HoldsOrFaults (RejectsPatternBytes bytes.now) ⊥ ⊥ (λ pattern. StringDenotesPattern bytes.now pattern.0 pattern.1) result }
{
    let Ok(text) = std::str::from_utf8(bytes) else {
        return Err(Fault::InvalidVersion);
    };
    match VersionPattern::from_str(alloc, text) {
        Ok(pattern) => Ok(pattern),
        Err(error) => {
            if error.is_out_of_memory() {
                return Err(Fault::OutOfMemory);
            }
            Err(Fault::InvalidVersion)
        }
    }
}

// The operator that the bytes are.
fn read_operator(alloc: Global, bytes: &[u8]) -> Result<Operator, Fault>
    ensures { HoldsOrFaults ⊥ (¬ IsOperator bytes.now) ⊥ (Spells bytes.now) result }
{
    let Ok(text) = std::str::from_utf8(bytes) else {
        return Err(Fault::InvalidList);
    };
    match Operator::from_str(alloc, text) {
        Ok(operator) => Ok(operator),
        Err(error) => {
            if let OperatorErrorKind::OutOfMemory = error.kind() {
                return Err(Fault::OutOfMemory);
            }
            Err(Fault::InvalidList)
        }
    }
}

// The normal form of a pattern's version, and whether `.*` follows it.
fn normalize_pattern(alloc: Global, bytes: &[u8]) -> Result<(String, bool), Fault>
    ensures { HoldsOrFaults (RejectsPatternBytes bytes.now) ⊥ ⊥ (λ found. IsPattern bytes.now (string_bytes found.0) found.1) result }
{
    let pattern = read_pattern(alloc, bytes)?;
    let text = pattern.version().to_string(alloc)?;
    Ok((text, pattern.is_wildcard()))
}

// The specifier of an operator and a pattern, as it prints.
fn to_specifier(alloc: Global, operator: &[u8], version: &[u8]) -> Result<String, Fault>
    ensures { HoldsOrFaults (RejectsOperand operator.now version.now) (RejectsOperator operator.now version.now) ⊥
        (λ text. IsSpecifier operator.now version.now (string_bytes text)) result }
{
    let operator = read_operator(alloc, operator)?;
    let pattern = read_pattern(alloc, version)?;
    match VersionSpecifier::from_pattern(operator, pattern) {
        Ok(specifier) => Ok(specifier.to_string(alloc)?),
        Err(_) => Err(Fault::InvalidList),
    }
}

// The specifier that the bytes denote.
fn read_specifier(alloc: Global, bytes: &[u8]) -> Result<VersionSpecifier, Fault>
    ensures { HoldsOrFaults ⊥ (RejectsSpecifierBytes bytes.now) ⊥ (BytesDenoteSpecifier bytes.now) result }
{
    let Ok(text) = std::str::from_utf8(bytes) else {
        return Err(Fault::InvalidList);
    };
    match VersionSpecifier::from_str(alloc, text) {
        Ok(specifier) => Ok(specifier),
        Err(error) => {
            if let ParseErrorKind::OutOfMemory = error.kind() {
                return Err(Fault::OutOfMemory);
            }
            Err(Fault::InvalidList)
        }
    }
}

// The compiled form of its list.
fn compile_specifier(alloc: Global, bytes: &[u8]) -> Result<Vec<u8>, Fault>
    ensures { HoldsOrFaults ⊥ (RejectsSpecifierBytes bytes.now) ⊥ (λ compiled. IsCompiledSpecifier bytes.now compiled.items) result }
{
    let specifier = read_specifier(alloc, bytes)?;
    let list = VersionSpecifiers::from_specifier(alloc, specifier)?;
    Ok(pep440_compiled::compile_list(alloc, &list)?)
}
