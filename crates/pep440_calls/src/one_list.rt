//! What is made of one list: its normal form, compiled form and members, and a version that it matches.
ghost use Rattle.std.specs.List.{flat_map, list_any};
ghost use Rattle.std.specs.Option.{option_map_or};
ghost use Rattle.std.specs.Prelude.{IfErr, IfOk, List, OnOk, [], string_bytes, ℕ, ◌++◌, ◌≡◌, ◌≢◌};
ghost use Rattle.pep440_compiled.specs.Lists.{HasListFormat};
ghost use Rattle.pep440_rs.specs.Matching.{any_prerelease};
ghost use Rattle.pep440_rs.specs.Operators.{operator_text};
ghost use Rattle.pep440_rs.specs.Specifiers.{Spec};
ghost use Rattle.pep440_version.specs.Print.{print};
ghost use Rattle.pep440_calls.specs.CallResults.{RequestsPrereleases, IsCompiledList, IsNormalList, IsTakenAsList, IsVersionIn, NamesPrerelease, JoinsMembers, member_strings, version_string};
ghost use Rattle.pep440_calls.specs.Statuses.{HoldsOr, IsFlagOf, Joins, WritesBytesOr, WritesJoinedOr, WritesOr};
ghost use Rattle.pep440_calls.specs.CallerBytes.{ListFaults};
ghost use Rattle.pep440_calls.specs.declared.fault.Fault.TheVariants.{OutOfMemory};

use crate::buffer::{OK, flag, put_bytes, put_joined, put_text};
use crate::fault::Fault;
use crate::joined_strings::JoinedStrings;
use crate::read::to_list;
use pep440_compiled::has_list_format;
use pep440_rs::{Version, VersionSpecifier, VersionSpecifiers};
use pep440_sets::find_version;
use std::alloc::{AllocError, Global};

/// Writes the normal form of the list.
pub fn write_normal_list(alloc: Global, list: &[u8], out: &mut [u8], written: &mut usize) -> u8
    ensures { WritesBytesOr (ListFaults ⊥ list.now ⊥) (IsNormalList list.now) out.old out.new written.old written.new result }
{
    put_text(normalize_list(alloc, list), out, written)
}

// The normal form of a list.
fn normalize_list(alloc: Global, bytes: &[u8]) -> Result<String, Fault>
    ensures { HoldsOr (ListFaults ⊥ bytes.now ⊥) (λ text. IsNormalList bytes.now (string_bytes text)) result }
{
    let list = to_list(alloc, bytes)?;
    Ok(list.to_string(alloc)?)
}

/// Writes the compiled form of the list.
pub fn write_compiled_list(alloc: Global, list: &[u8], out: &mut [u8], written: &mut usize) -> u8
    ensures { WritesBytesOr (ListFaults ⊥ list.now ⊥) (IsCompiledList list.now) out.old out.new written.old written.new result }
{
    put_bytes(compile_list(alloc, list), out, written)
}

pub(crate) fn compile_list(alloc: Global, list: &[u8]) -> Result<Vec<u8>, Fault>
    ensures { HoldsOr (ListFaults ⊥ list.now ⊥) (λ compiled. IsCompiledList list.now compiled.items) result }
{
    let list = to_list(alloc, list)?;
    Ok(pep440_compiled::compile_list(alloc, &list)?)
}

/// Whether a version of the list's specifiers is a pre-release or a developmental release, 1 or 0 (PEP 440, "Handling of pre-releases").
pub fn write_prerelease_flag(alloc: Global, list: &[u8], any: &mut u8) -> u8
    ensures { WritesOr (ListFaults ⊥ list.now ⊥) (IsFlagOf (NamesPrerelease list.now)) any.old any.new result }
{
    match any_prerelease(alloc, list) {
        Ok(found) => {
            *any = flag(found);
            OK
        }
        Err(fault) => fault.status(),
    }
}

// Whether the version of a member is a pre-release or a developmental release.
fn has_prerelease(list: &VersionSpecifiers) -> bool
    ensures { result ≡ list_any (λ (s : Spec). any_prerelease s.version) list.now }
{
    list.as_slice().iter().any(|member| member.any_prerelease())
}

// Whether a version of the list is a pre-release or a developmental release.
fn any_prerelease(alloc: Global, list: &[u8]) -> Result<bool, Fault>
    ensures { HoldsOr (ListFaults ⊥ list.now ⊥) (NamesPrerelease list.now) result }
{
    let specifiers = to_list(alloc, list)?;
    Ok(has_prerelease(&specifiers))
}

/// Whether the list asks for pre-releases, 1 or 0 (PEP 440, "Handling of pre-releases"): a specifier with another operator than `!=` names a
/// pre-release or a developmental release. A compiled list is taken as it lies, and nothing is allocated for it.
pub fn write_request_flag(alloc: Global, list: &[u8], requests: &mut u8) -> u8
    ensures found { WritesOr (ListFaults ⊥ list.now ⊥) (IsFlagOf (RequestsPrereleases list.now)) requests.old requests.new result }
    ensures memory { IsTakenAsList list.now → result ≢ 3 }
{
    match requests_prereleases(alloc, list) {
        Ok(found) => {
            *requests = flag(found);
            OK
        }
        Err(fault) => fault.status(),
    }
}

// Whether a compiled list asks for pre-releases.
fn form_requests_prereleases(list: &[u8]) -> Result<bool, Fault>
    requires { HasListFormat list.now }
    ensures found { HoldsOr (ListFaults ⊥ list.now ⊥) (RequestsPrereleases list.now) result }
    ensures memory { IfErr result (λ f. f ≢ OutOfMemory) }
{
    match pep440_compiled::requests_prereleases(list) {
        Ok(found) => Ok(found),
        Err(_) => Err(Fault::InvalidList),
    }
}

// Whether the list asks for pre-releases.
fn requests_prereleases(alloc: Global, list: &[u8]) -> Result<bool, Fault>
    ensures found { HoldsOr (ListFaults ⊥ list.now ⊥) (RequestsPrereleases list.now) result }
    ensures memory { HasListFormat list.now → IfErr result (λ f. f ≢ OutOfMemory) }
{
    if has_list_format(list) {
        return form_requests_prereleases(list);
    }
    let specifiers = to_list(alloc, list)?;
    Ok(specifiers.requests_prereleases())
}

/// Writes a version that the list matches literally, and nothing if it matches none that a string denotes (PEP 440, "Version specifiers").
pub fn write_version_in(alloc: Global, list: &[u8], out: &mut [u8], written: &mut usize) -> u8
    ensures { WritesBytesOr (ListFaults ⊥ list.now ⊥) (IsVersionIn list.now) out.old out.new written.old written.new result }
{
    put_text(find_in(alloc, list), out, written)
}

// The normal form of the version, empty without one.
fn print_found(alloc: Global, found: Option<Version>) -> Result<String, AllocError>
    ensures { IfOk result (λ text. string_bytes text ≡ option_map_or print found []) }
{
    match found {
        Some(version) => version.to_string(alloc),
        None => Ok(String::new(alloc)),
    }
}

// A version that the list matches; empty if it matches none.
fn find_in(alloc: Global, list: &[u8]) -> Result<String, Fault>
    ensures { HoldsOr (ListFaults ⊥ list.now ⊥) (λ text. IsVersionIn list.now (string_bytes text)) result }
{
    let specifiers = to_list(alloc, list)?;
    let found = find_version(alloc, specifiers.as_slice())?;
    let text = print_found(alloc, found)?;
    Ok(text)
}

/// Writes operator and version of each member of the list, as its normal form has them, in their order, and the end of
/// each. Reports how many bytes and how many strings there are.
pub fn write_members(
    alloc: Global,
    list: &[u8],
    out: &mut [u8],
    ends: &mut [usize],
    written: &mut usize,
    count: &mut usize,
) -> u8
    ensures { WritesJoinedOr (ListFaults ⊥ list.now ⊥) (JoinsMembers list.now)
        out.old out.new ends.old ends.new written.old written.new count.old count.new result }
{
    put_joined(to_members(alloc, list), out, ends, written, count)
}

fn print_operator(alloc: Global, member: &VersionSpecifier) -> Result<String, AllocError>
    ensures { IfOk result (λ text. string_bytes text ≡ operator_text member.now.operator) }
{
    member.operator().to_string(alloc)
}

fn print_version(alloc: Global, member: &VersionSpecifier) -> Result<String, AllocError>
    ensures { IfOk result (λ text. string_bytes text ≡ version_string member.now) }
{
    let mut text = member.version().to_string(alloc)?;
    if member.operator().is_star() {
        text.push_str(".*")?;
    }
    Ok(text)
}

fn push_member(
    alloc: Global,
    found: &mut JoinedStrings,
    member: &VersionSpecifier,
) -> Result<(), AllocError>
    ensures { (strings : List (List ℕ)) → Joins strings found.old.bytes.items found.old.ends.items
        → OnOk result (Joins (strings ++ member_strings member.now) found.new.bytes.items found.new.ends.items) }
{
    let operator = print_operator(alloc, member)?;
    let version = print_version(alloc, member)?;
    found.push(operator.as_bytes())?;
    found.push(version.as_bytes())?;
    Ok(())
}

// Operators and versions of the members, in their order.
fn join_members(alloc: Global, members: &[VersionSpecifier]) -> Result<JoinedStrings, AllocError>
    ensures { IfOk result (λ found. Joins (flat_map member_strings members.now) found.bytes.items found.ends.items) }
{
    let mut found = JoinedStrings::with_capacity(alloc, members.len())?;
    for member in members {
        push_member(alloc, &mut found, member)?;
    }
    Ok(found)
}

// Operators and versions of the members of the list.
fn to_members(alloc: Global, list: &[u8]) -> Result<JoinedStrings, Fault>
    ensures { HoldsOr (ListFaults ⊥ list.now ⊥) (λ found. JoinsMembers list.now found.bytes.items found.ends.items) result }
{
    let specifiers = to_list(alloc, list)?;
    Ok(join_members(alloc, specifiers.as_slice())?)
}
