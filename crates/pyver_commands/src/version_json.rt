//! All parts of a version as a JSON object.
ghost use Rattle.std.specs.Prelude.{◌≡◌, ◌++◌, IfOk, codes};
ghost use Rattle.std.specs.List.{flat_map};
ghost use Rattle.pep440_version.specs.Print.{prerelease_kind_text};
ghost use Rattle.pyver_commands.specs.JsonObjects.{in_quotes, json_array, json_forms, json_local, json_members, json_number, json_numbers, json_object, json_optional, json_pre, json_prerelease, json_release, json_suffixes, next_name};

use crate::part::{base_text, local_text, public_text, release_number};
use pep440_rs::{Prerelease, PrereleaseKind, Version};
use std::alloc::{AllocError, Global};

// The greatest number up to which each is exact where JSON's numbers are read as floats, 2^53.
const GREATEST: u64 = 9_007_199_254_740_992;

// The string at the end.
pub(crate) fn push_text(bytes: &mut Vec<u8>, text: &str) -> Result<(), AllocError>
    ensures { IfOk result (λ _. bytes.new.items ≡ bytes.old.items ++ text.now) }
{
    bytes.extend_from_slice(text.as_bytes())
}

pub(crate) fn push_in_quotes(bytes: &mut Vec<u8>, text: &str) -> Result<(), AllocError>
    ensures { IfOk result (λ _. bytes.new.items ≡ bytes.old.items ++ in_quotes text.now) }
{
    bytes.push(b'"')?;
    push_text(bytes, text)?;
    bytes.push(b'"')?;
    Ok(())
}

fn push_number(alloc: Global, bytes: &mut Vec<u8>, number: u64) -> Result<(), AllocError>
    ensures { IfOk result (λ _. bytes.new.items ≡ bytes.old.items ++ json_number number) }
{
    let text = number.to_string(alloc)?;
    if number <= GREATEST {
        push_text(bytes, text.as_str())
    } else {
        push_in_quotes(bytes, text.as_str())
    }
}

fn push_optional(alloc: Global, bytes: &mut Vec<u8>, number: Option<u64>) -> Result<(), AllocError>
    ensures { IfOk result (λ _. bytes.new.items ≡ bytes.old.items ++ json_optional number) }
{
    match number {
        Some(number) => push_number(alloc, bytes, number),
        None => push_text(bytes, "null"),
    }
}

fn push_next_number(alloc: Global, bytes: &mut Vec<u8>, number: u64) -> Result<(), AllocError>
    ensures { IfOk result (λ _. bytes.new.items ≡ bytes.old.items ++ (codes "," ++ json_number number)) }
{
    push_text(bytes, ",")?;
    push_number(alloc, bytes, number)
}

fn push_next_numbers(alloc: Global, bytes: &mut Vec<u8>, numbers: &[u64]) -> Result<(), AllocError>
    ensures { IfOk result (λ _. bytes.new.items ≡ bytes.old.items ++ flat_map (λ n. codes "," ++ json_number n) numbers.now) }
{
    for number in numbers {
        push_next_number(alloc, bytes, *number)?;
    }
    Ok(())
}

fn push_array(alloc: Global, bytes: &mut Vec<u8>, numbers: &[u64]) -> Result<(), AllocError>
    ensures { IfOk result (λ _. bytes.new.items ≡ bytes.old.items ++ json_array numbers.now) }
{
    match numbers {
        [] => push_text(bytes, "[]"),
        [first, rest @ ..] => {
            push_text(bytes, "[")?;
            push_number(alloc, bytes, *first)?;
            push_next_numbers(alloc, bytes, rest)?;
            push_text(bytes, "]")
        }
    }
}

fn kind_text(kind: PrereleaseKind) -> &'static str
    ensures { result.now ≡ prerelease_kind_text kind }
{
    match kind {
        PrereleaseKind::Alpha => "a",
        PrereleaseKind::Beta => "b",
        PrereleaseKind::Rc => "rc",
    }
}

fn push_prerelease(alloc: Global, bytes: &mut Vec<u8>, pre: Prerelease) -> Result<(), AllocError>
    ensures { IfOk result (λ _. bytes.new.items ≡ bytes.old.items ++ json_prerelease pre) }
{
    push_text(bytes, "[")?;
    push_in_quotes(bytes, kind_text(pre.kind))?;
    push_next_number(alloc, bytes, pre.number)?;
    push_text(bytes, "]")
}

fn push_pre(alloc: Global, bytes: &mut Vec<u8>, pre: Option<Prerelease>) -> Result<(), AllocError>
    ensures { IfOk result (λ _. bytes.new.items ≡ bytes.old.items ++ json_pre pre) }
{
    match pre {
        Some(pre) => push_prerelease(alloc, bytes, pre),
        None => push_text(bytes, "null"),
    }
}

fn push_local(alloc: Global, bytes: &mut Vec<u8>, version: &Version) -> Result<(), AllocError>
    ensures { IfOk result (λ _. bytes.new.items ≡ bytes.old.items ++ json_local version.now.local) }
{
    if version.is_local() {
        push_in_quotes(bytes, local_text(alloc, version)?.as_str())
    } else {
        push_text(bytes, "null")
    }
}

// The name of a member, after a comma.
fn push_name(bytes: &mut Vec<u8>, name: &str) -> Result<(), AllocError>
    ensures { IfOk result (λ _. bytes.new.items ≡ bytes.old.items ++ next_name name.now) }
{
    push_text(bytes, ",\"")?;
    push_text(bytes, name)?;
    push_text(bytes, "\":")
}

fn push_number_member(
    alloc: Global,
    bytes: &mut Vec<u8>,
    name: &str,
    number: u64,
) -> Result<(), AllocError>
    ensures { IfOk result (λ _. bytes.new.items ≡ bytes.old.items ++ (next_name name.now ++ json_number number)) }
{
    push_name(bytes, name)?;
    push_number(alloc, bytes, number)
}

fn push_optional_member(
    alloc: Global,
    bytes: &mut Vec<u8>,
    name: &str,
    number: Option<u64>,
) -> Result<(), AllocError>
    ensures { IfOk result (λ _. bytes.new.items ≡ bytes.old.items ++ (next_name name.now ++ json_optional number)) }
{
    push_name(bytes, name)?;
    push_optional(alloc, bytes, number)
}

fn push_text_member(bytes: &mut Vec<u8>, name: &str, text: &str) -> Result<(), AllocError>
    ensures { IfOk result (λ _. bytes.new.items ≡ bytes.old.items ++ (next_name name.now ++ in_quotes text.now)) }
{
    push_name(bytes, name)?;
    push_in_quotes(bytes, text)
}

fn push_first_numbers(
    alloc: Global,
    bytes: &mut Vec<u8>,
    version: &Version,
) -> Result<(), AllocError>
    ensures { IfOk result (λ _. bytes.new.items ≡ bytes.old.items ++ json_numbers version.now) }
{
    push_number_member(alloc, bytes, "major", release_number(version, 0))?;
    push_number_member(alloc, bytes, "minor", release_number(version, 1))?;
    push_number_member(alloc, bytes, "micro", release_number(version, 2))
}

fn push_release(alloc: Global, bytes: &mut Vec<u8>, version: &Version) -> Result<(), AllocError>
    ensures { IfOk result (λ _. bytes.new.items ≡ bytes.old.items ++ json_release version.now) }
{
    push_number_member(alloc, bytes, "epoch", version.epoch())?;
    push_name(bytes, "release")?;
    push_array(alloc, bytes, version.release())?;
    push_first_numbers(alloc, bytes, version)?;
    Ok(())
}

fn push_suffixes(alloc: Global, bytes: &mut Vec<u8>, version: &Version) -> Result<(), AllocError>
    ensures { IfOk result (λ _. bytes.new.items ≡ bytes.old.items ++ json_suffixes version.now) }
{
    push_name(bytes, "pre")?;
    push_pre(alloc, bytes, version.pre())?;
    push_optional_member(alloc, bytes, "post", version.post())?;
    push_optional_member(alloc, bytes, "dev", version.dev())?;
    push_name(bytes, "local")?;
    push_local(alloc, bytes, version)
}

fn push_forms(alloc: Global, bytes: &mut Vec<u8>, version: &Version) -> Result<(), AllocError>
    ensures { IfOk result (λ _. bytes.new.items ≡ bytes.old.items ++ json_forms version.now) }
{
    push_text_member(bytes, "public", public_text(alloc, version)?.as_str())?;
    push_text_member(bytes, "base", base_text(alloc, version)?.as_str())
}

fn push_members(alloc: Global, bytes: &mut Vec<u8>, version: &Version) -> Result<(), AllocError>
    ensures { IfOk result (λ _. bytes.new.items ≡ bytes.old.items ++ json_members version.now) }
{
    push_release(alloc, bytes, version)?;
    push_suffixes(alloc, bytes, version)?;
    push_forms(alloc, bytes, version)
}

// All parts of the version as a JSON object at the end.
pub(crate) fn push_object(
    alloc: Global,
    bytes: &mut Vec<u8>,
    version: &Version,
) -> Result<(), AllocError>
    ensures { IfOk result (λ _. bytes.new.items ≡ bytes.old.items ++ json_object version.now) }
{
    push_text(bytes, "{\"version\":")?;
    push_in_quotes(bytes, version.to_string(alloc)?.as_str())?;
    push_members(alloc, bytes, version)?;
    push_text(bytes, "}")?;
    Ok(())
}
