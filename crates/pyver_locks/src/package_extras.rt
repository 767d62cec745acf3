//! What locked packages require for their extras, and which of these are asked for.
ghost use Rattle.std.specs.Prelude.{◌≡◌, IfOk, ◌++◌, map, codes, option_copied, ◌∷◌, [], option_map, string_bytes, Some};
ghost use Rattle.std.specs.List.{flat_map};
ghost use Rattle.std.specs.Option.{option_map_or};
ghost use Rattle.pep440_version.specs.Changes.ChangeWords.{after};
ghost use Rattle.toml.specs.View.{view, table_view};
ghost use Rattle.pyver_locks.specs.LockContents.{requirement_of, locked_extra_of, parts_of};
ghost use Rattle.pyver_locks.specs.Locks.{plain_asks, optional_asks, lock_asks, asked_requirement, other_extra, not_asked, with_asked};
ghost use Rattle.pyver_locks.specs.PackageRequirements.{extra_key, asked_keys, without_parentheses, extra_string, extra_items, extra_requirements, extras_by, extras_from};
ghost use Rattle.pyver_projects.specs.ProjectStrings.{members_list, entries, inclusions_by, inclusion_of, has_key};

use crate::locked_package::{LockParts, LockedExtra, LockedRequirement, package_text};
use crate::package_requirements::{
    is_plain_string, is_unconditional, new_requirement, past_extras,
};
use pep440_pick::{normalize_name, normalize_names, split_name};
use pyver_projects::inclusions::{Inclusion, InclusionIndex, included_groups, push_inclusions_by};
use pyver_projects::own_extras::string_extras;
use pyver_projects::requirement_strings::{cut_at, lacks, poetry_list};
use pyver_projects::table::{items, listed_strings, table, text};
use std::alloc::{AllocError, Global};
use std::collections::HashMap;
use toml::{Table, Value};

// ---- keys

// The key of an extra of a package, by the normal forms of both names.
fn extra_key(alloc: Global, name: &[u8], extra: &[u8]) -> Result<Vec<u8>, AllocError>
    ensures { IfOk result (λ key. key.items ≡ extra_key name.now extra.now) }
{
    let mut key = Vec::from_slice(alloc, name)?;
    key.push(b'[')?;
    key.extend_from_slice(extra)?;
    Ok(key)
}

/// Adds the keys of these extras of the package, whose names are in their normal forms.
///
/// Allocates.
pub fn push_extra_keys(
    alloc: Global,
    keys: &mut Vec<Vec<u8>>,
    name: &[u8],
    extras: &[Vec<u8>],
) -> Result<(), AllocError>
    ensures { IfOk result (λ _. map (λ k. k.items) keys.new.items ≡ map (λ k. k.items) keys.old.items ++ map (extra_key name.now) (map (λ e. e.items) extras.now)) }
{
    for extra in extras {
        keys.push(extra_key(alloc, name, extra.as_slice())?)?;
    }
    Ok(())
}

// The keys of the extras that a requirement asks for.
fn asked_keys(alloc: Global, requirement: &LockedRequirement) -> Result<Vec<Vec<u8>>, AllocError>
    ensures { IfOk result (λ keys. map (λ k. k.items) keys.items ≡ asked_keys (requirement_of requirement.now)) }
{
    let name = normalize_name(alloc, requirement.name.as_str())?;
    let extras = normalize_names(alloc, requirement.extras.as_slice())?;
    let mut keys = Vec::new(alloc);
    push_extra_keys(alloc, &mut keys, name.as_slice(), extras.as_slice())?;
    Ok(keys)
}

// ---- what packages require for extras

fn strip_opening(list: &str) -> Option<&str>
    ensures { option_copied result ≡ after (codes " (") list.now }
{
    list.strip_prefix(" (")
}

// The list in a string of Poetry's extras, which stands in parentheses.
fn without_parentheses(list: &str) -> &str
    ensures { result.now ≡ without_parentheses list.now }
{
    let Some(open) = strip_opening(list) else {
        return list;
    };
    let (inside, _) = cut_at(open, ')');
    inside
}

fn push_for_extra(
    alloc: Global,
    found: &mut Vec<LockedExtra>,
    key: &[u8],
    requirement: LockedRequirement,
) -> Result<(), AllocError>
    ensures { IfOk result (λ _. map locked_extra_of found.new.items ≡ map locked_extra_of found.old.items ++ record { key = key.now; requirement = requirement_of requirement } ∷ []) }
{
    let key = Vec::from_slice(alloc, key)?;
    found.push(LockedExtra { key, requirement })?;
    Ok(())
}

// Adds the requirement of the string, unless it has a marker or a URL.
fn push_string(
    alloc: Global,
    found: &mut Vec<LockedExtra>,
    line: u64,
    requirer: &[u8],
    key: &[u8],
    text: &str,
) -> Result<(), AllocError>
    ensures { IfOk result (λ _. map locked_extra_of found.new.items ≡ map locked_extra_of found.old.items ++ extra_string line requirer.now key.now text.now) }
{
    let (name, rest) = split_name(text);
    if !is_plain_string(text, name) {
        return Ok(());
    }
    let extras = string_extras(alloc, text)?;
    let list = poetry_list(alloc, without_parentheses(past_extras(rest)))?;
    let requirement = new_requirement(alloc, line, requirer, name, extras, list.as_str())?;
    push_for_extra(alloc, found, key, requirement)
}

fn push_text(
    alloc: Global,
    found: &mut Vec<LockedExtra>,
    line: u64,
    requirer: &[u8],
    key: &[u8],
    text: Option<&str>,
) -> Result<(), AllocError>
    ensures { IfOk result (λ _. map locked_extra_of found.new.items ≡ map locked_extra_of found.old.items ++ option_map_or (extra_string line requirer.now key.now) (option_map (λ t. t.now) text.entry) []) }
{
    match text {
        Some(text) => push_string(alloc, found, line, requirer, key, text),
        None => Ok(()),
    }
}

// Adds what an item of an array of extras requires: a string of Poetry, or a table of uv without a marker.
fn push_item(
    alloc: Global,
    found: &mut Vec<LockedExtra>,
    line: u64,
    requirer: &[u8],
    key: &[u8],
    item: &Value,
) -> Result<(), AllocError>
    ensures { IfOk result (λ _. map locked_extra_of found.new.items ≡ map locked_extra_of found.old.items ++ extra_items line requirer.now key.now (view item.now)) }
{
    push_text(alloc, found, line, requirer, key, item.as_str())?;
    if !lacks(item, "marker") {
        return Ok(());
    }
    let Some(name) = text(item.get("name")) else {
        return Ok(());
    };
    let extras = listed_strings(alloc, item.get("extra"))?;
    let requirement = new_requirement(alloc, line, requirer, name, extras, "")?;
    push_for_extra(alloc, found, key, requirement)
}

fn push_items(
    alloc: Global,
    found: &mut Vec<LockedExtra>,
    line: u64,
    requirer: &[u8],
    key: &[u8],
    list: &[Value],
) -> Result<(), AllocError>
    ensures { IfOk result (λ _. map locked_extra_of found.new.items ≡ map locked_extra_of found.old.items ++ flat_map (extra_items line requirer.now key.now) (map view list.now)) }
{
    for item in list {
        push_item(alloc, found, line, requirer, key, item)?;
    }
    Ok(())
}

// Adds what the package with this name, in its normal form, requires for the extra.
fn push_extra(
    alloc: Global,
    found: &mut Vec<LockedExtra>,
    line: u64,
    requirer: &[u8],
    name: &[u8],
    extra: &String,
    value: &Value,
) -> Result<(), AllocError>
    ensures { IfOk result (λ _. map locked_extra_of found.new.items ≡ map locked_extra_of found.old.items ++ extra_requirements line requirer.now name.now (string_bytes extra.now, view value.now)) }
{
    let extra = normalize_name(alloc, extra.as_str())?;
    let key = extra_key(alloc, name, extra.as_slice())?;
    push_items(
        alloc,
        found,
        line,
        requirer,
        key.as_slice(),
        items(Some(value)),
    )
}

fn push_extras(
    alloc: Global,
    found: &mut Vec<LockedExtra>,
    line: u64,
    requirer: &[u8],
    name: &[u8],
    extras: &Table,
) -> Result<(), AllocError>
    ensures { IfOk result (λ _. map locked_extra_of found.new.items ≡ map locked_extra_of found.old.items ++ flat_map (extra_requirements line requirer.now name.now) (members_list (table_view extras.now))) }
{
    for (extra, value) in extras.iter() {
        push_extra(alloc, found, line, requirer, name, extra, value)?;
    }
    Ok(())
}

// Adds what it requires for each extra of the table, if there is one.
fn push_table(
    alloc: Global,
    found: &mut Vec<LockedExtra>,
    line: u64,
    requirer: &[u8],
    name: &[u8],
    value: Option<&Value>,
) -> Result<(), AllocError>
    ensures { IfOk result (λ _. map locked_extra_of found.new.items ≡ map locked_extra_of found.old.items ++ flat_map (extra_requirements line requirer.now name.now) (entries (option_map (λ v. view v.now) value.entry))) }
{
    match table(value) {
        Some(extras) => push_extras(alloc, found, line, requirer, name, extras),
        None => Ok(()),
    }
}

fn push_by(
    alloc: Global,
    found: &mut Vec<LockedExtra>,
    line: u64,
    name: Option<&str>,
    item: &Value,
) -> Result<(), AllocError>
    ensures { IfOk result (λ _. map locked_extra_of found.new.items ≡ map locked_extra_of found.old.items ++ extras_by line (option_map (λ t. t.now) name.entry) (view item.now)) }
{
    let Some(name) = name else {
        return Ok(());
    };
    let requirer = package_text(alloc, name, text(item.get("version")))?;
    let requirer = requirer.as_slice();
    let name = normalize_name(alloc, name)?;
    let name = name.as_slice();
    push_table(alloc, found, line, requirer, name, item.get("extras"))?;
    let extras = item.get("optional-dependencies");
    push_table(alloc, found, line, requirer, name, extras)
}

// Adds what the package on this line requires for its extras, if it is locked for each environment.
pub(crate) fn push_package_extras(
    alloc: Global,
    found: &mut Vec<LockedExtra>,
    parts: &LockParts,
    line: u64,
    item: &Value,
) -> Result<(), AllocError>
    ensures { IfOk result (λ _. map locked_extra_of found.new.items ≡ map locked_extra_of found.old.items ++ extras_from (parts_of parts.now) (line, view item.now)) }
{
    if !is_unconditional(alloc, parts, item)? {
        return Ok(());
    }
    push_by(alloc, found, line, text(item.get("name")), item)
}

// ---- which are asked for

fn push_asks(
    alloc: Global,
    asks: &mut Vec<Inclusion>,
    asker: &Vec<u8>,
    requirement: &LockedRequirement,
) -> Result<(), AllocError>
    ensures { IfOk result (λ _. map inclusion_of asks.new.items ≡ map inclusion_of asks.old.items ++ inclusions_by (Some asker.now.items) (asked_keys (requirement_of requirement.now))) }
{
    let keys = asked_keys(alloc, requirement)?;
    push_inclusions_by(asks, asker, keys.as_slice())
}

// What requirements ask for, under no key.
fn requirement_asks(
    alloc: Global,
    requirements: &[LockedRequirement],
) -> Result<Vec<Inclusion>, AllocError>
    ensures { IfOk result (λ is. map inclusion_of is.items ≡ flat_map plain_asks (map requirement_of requirements.now)) }
{
    let none = Vec::new(alloc);
    let mut asks = Vec::new(alloc);
    for requirement in requirements {
        push_asks(alloc, &mut asks, &none, requirement)?;
    }
    Ok(asks)
}

// Adds what the requirements of extras ask for, under the keys of these.
fn push_extra_asks(
    alloc: Global,
    asks: &mut Vec<Inclusion>,
    extras: &[LockedExtra],
) -> Result<(), AllocError>
    ensures { IfOk result (λ _. map inclusion_of asks.new.items ≡ map inclusion_of asks.old.items ++ flat_map optional_asks (map locked_extra_of extras.now)) }
{
    for extra in extras {
        push_asks(alloc, asks, &extra.key, &extra.requirement)?;
    }
    Ok(())
}

// Which extras are asked for.
fn lock_asks(
    alloc: Global,
    requirements: &[LockedRequirement],
    extras: &[LockedExtra],
) -> Result<Vec<Inclusion>, AllocError>
    ensures { IfOk result (λ is. map inclusion_of is.items ≡ lock_asks (map requirement_of requirements.now) (map locked_extra_of extras.now)) }
{
    let mut asks = requirement_asks(alloc, requirements)?;
    push_extra_asks(alloc, &mut asks, extras)?;
    Ok(asks)
}

// Adds to the first what is required for the extra, if it has one of these keys, or it to the second.
fn push_extra_requirement(
    requirements: &mut Vec<LockedRequirement>,
    optional: &mut Vec<LockedExtra>,
    keys: &HashMap<&[u8], ()>,
    extra: LockedExtra,
) -> Result<(), AllocError>
    ensures asked { IfOk result (λ _. map requirement_of requirements.new.items ≡ map requirement_of requirements.old.items ++ asked_requirement (has_key keys.now) (locked_extra_of extra)) }
    ensures others { IfOk result (λ _. map locked_extra_of optional.new.items ≡ map locked_extra_of optional.old.items ++ other_extra (has_key keys.now) (locked_extra_of extra)) }
{
    if !keys.contains_key(extra.key.as_slice()) {
        optional.push(extra)?;
        return Ok(());
    }
    let LockedExtra {
        key: _key,
        requirement,
    } = extra;
    requirements.push(requirement)?;
    Ok(())
}

fn push_each_requirement(
    requirements: &mut Vec<LockedRequirement>,
    optional: &mut Vec<LockedExtra>,
    keys: &HashMap<&[u8], ()>,
    extras: Vec<LockedExtra>,
) -> Result<(), AllocError>
    ensures asked { IfOk result (λ _. map requirement_of requirements.new.items ≡ map requirement_of requirements.old.items ++ flat_map (asked_requirement (has_key keys.now)) (map locked_extra_of extras.items)) }
    ensures others { IfOk result (λ _. map locked_extra_of optional.new.items ≡ map locked_extra_of optional.old.items ++ flat_map (other_extra (has_key keys.now)) (map locked_extra_of extras.items)) }
{
    for extra in extras {
        push_extra_requirement(requirements, optional, keys, extra)?;
    }
    Ok(())
}

// Adds to the requirements those of the extras that are asked for, and returns those of the others.
pub(crate) fn push_extra_requirements(
    alloc: Global,
    requirements: &mut Vec<LockedRequirement>,
    extras: Vec<LockedExtra>,
) -> Result<Vec<LockedExtra>, AllocError>
    ensures asked { IfOk result (λ _. map requirement_of requirements.new.items ≡ with_asked (map requirement_of requirements.old.items) (map locked_extra_of extras.items)) }
    ensures others { IfOk result (λ optional. map locked_extra_of optional.items ≡ not_asked (map requirement_of requirements.old.items) (map locked_extra_of extras.items)) }
{
    let asks = lock_asks(alloc, requirements.as_slice(), extras.as_slice())?;
    let index = InclusionIndex::new(alloc, asks.as_slice())?;
    let keys = included_groups(alloc, &index, b"")?;
    let mut optional = Vec::new(alloc);
    push_each_requirement(requirements, &mut optional, &keys, extras)?;
    Ok(optional)
}
