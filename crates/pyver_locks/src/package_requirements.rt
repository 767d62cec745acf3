//! What locked packages require of one another, as it is written.
ghost use Rattle.std.specs.Prelude.{◌≡◌, IfOk, map, string_bytes, ◌++◌, option_map};
ghost use Rattle.std.specs.List.{flat_map};
ghost use Rattle.pep440_pick.specs.Names.{is_name_byte};
ghost use Rattle.pep440_rs.specs.Blanks.{opens};
ghost use Rattle.pep440_version.specs.Reading.{lead};
ghost use Rattle.toml.specs.View.{view, table_view};
ghost use Rattle.pyver_locks.specs.LockContents.{requirement_of, parts_of};
ghost use Rattle.pyver_locks.specs.PackageRequirements.{requirement, requirement_in, named_requirement, past_extras, is_plain_string, string_requirement, requirement_of_text, item_requirements, version_requirements, member_requirements, reference, pylock_requirements, tool_requirements, table_requirements, requirements_by, is_everywhere, is_unconditional, requirements_from};
ghost use Rattle.pyver_projects.specs.ProjectStrings.{members_list, entries};

use crate::known_environment::holds_everywhere;
use crate::lock_kind::LockKind;
use crate::locked_package::{LockParts, LockedRequirement, package_text};
use pep440_pick::{is_name, split_at_byte, split_name};
use pyver_projects::own_extras::{is_conditional, string_extras};
use pyver_projects::requirement_strings::{lacks, poetry_list, text_or_empty};
use pyver_projects::table::{inside, items, listed_strings, table, text};
use std::alloc::{AllocError, Global};
use toml::{Table, Value};

pub(crate) fn new_requirement(
    alloc: Global,
    line: u64,
    requirer: &[u8],
    name: &str,
    extras: Vec<String>,
    list: &str,
) -> Result<LockedRequirement, AllocError>
    ensures { IfOk result (λ q. requirement_of q ≡ requirement line requirer.now name.now (map string_bytes extras.items) list.now) }
{
    Ok(LockedRequirement {
        line,
        requirer: Vec::from_slice(alloc, requirer)?,
        name: String::from_str(alloc, name)?,
        extras,
        list: String::from_str(alloc, list)?,
        is_reference: false,
    })
}

// Adds the requirement of this name, if there is a list.
fn push_list(
    alloc: Global,
    found: &mut Vec<LockedRequirement>,
    line: u64,
    requirer: &[u8],
    name: &str,
    extras: Vec<String>,
    list: Option<&str>,
) -> Result<(), AllocError>
    ensures { IfOk result (λ _. map requirement_of found.new.items ≡ map requirement_of found.old.items ++ requirement_in line requirer.now name.now (map string_bytes extras.items) (option_map (λ t. t.now) list.entry)) }
{
    if let Some(list) = list {
        let list = poetry_list(alloc, list)?;
        let list = list.as_str();
        found.push(new_requirement(alloc, line, requirer, name, extras, list)?)?;
    }
    Ok(())
}

fn push_named(
    alloc: Global,
    found: &mut Vec<LockedRequirement>,
    line: u64,
    requirer: &[u8],
    name: Option<&str>,
    extras: Vec<String>,
    list: &str,
) -> Result<(), AllocError>
    ensures { IfOk result (λ _. map requirement_of found.new.items ≡ map requirement_of found.old.items ++ named_requirement line requirer.now (option_map (λ t. t.now) name.entry) (map string_bytes extras.items) list.now) }
{
    if let Some(name) = name {
        found.push(new_requirement(alloc, line, requirer, name, extras, list)?)?;
    }
    Ok(())
}

fn opens_bracket(rest: &[u8]) -> bool
    ensures { result ≡ opens 91 rest.now }
{
    matches!(rest, [b'[', ..])
}

// What follows the extras of a name, if it has some.
pub(crate) fn past_extras(rest: &str) -> &str
    ensures { result.now ≡ past_extras rest.now }
{
    if !opens_bracket(rest.as_bytes()) {
        return rest;
    }
    match split_at_byte(rest, ']') {
        Some((_, list)) => list,
        None => rest,
    }
}

pub(crate) fn is_plain_string(text: &str, name: &str) -> bool
    requires { name.now ≡ lead is_name_byte text.now }
    ensures { result ≡ is_plain_string text.now }
{
    is_name(name) && !is_conditional(text)
}

// Adds PDM's requirement, unless it has a marker or a URL.
fn push_string(
    alloc: Global,
    found: &mut Vec<LockedRequirement>,
    line: u64,
    requirer: &[u8],
    text: &str,
) -> Result<(), AllocError>
    ensures { IfOk result (λ _. map requirement_of found.new.items ≡ map requirement_of found.old.items ++ string_requirement line requirer.now text.now) }
{
    let (name, rest) = split_name(text);
    if !is_plain_string(text, name) {
        return Ok(());
    }
    let extras = string_extras(alloc, text)?;
    let list = past_extras(rest);
    found.push(new_requirement(alloc, line, requirer, name, extras, list)?)?;
    Ok(())
}

// Adds the requirement of this string, if there is one.
fn push_text(
    alloc: Global,
    found: &mut Vec<LockedRequirement>,
    line: u64,
    requirer: &[u8],
    text: Option<&str>,
) -> Result<(), AllocError>
    ensures { IfOk result (λ _. map requirement_of found.new.items ≡ map requirement_of found.old.items ++ requirement_of_text line requirer.now (option_map (λ t. t.now) text.entry)) }
{
    match text {
        Some(text) => push_string(alloc, found, line, requirer, text),
        None => Ok(()),
    }
}

// Adds the item of uv's `requires-dist`, or of an array `dependencies`, unless it has a marker.
fn push_item(
    alloc: Global,
    found: &mut Vec<LockedRequirement>,
    line: u64,
    requirer: &[u8],
    item: &Value,
) -> Result<(), AllocError>
    ensures { IfOk result (λ _. map requirement_of found.new.items ≡ map requirement_of found.old.items ++ item_requirements line requirer.now (view item.now)) }
{
    push_text(alloc, found, line, requirer, item.as_str())?;
    if !lacks(item, "marker") {
        return Ok(());
    }
    let name = text(item.get("name"));
    let extras = listed_strings(alloc, item.get("extra"))?;
    let list = text_or_empty(text(item.get("specifier")));
    push_named(alloc, found, line, requirer, name, extras, list)
}

fn push_items(
    alloc: Global,
    found: &mut Vec<LockedRequirement>,
    line: u64,
    requirer: &[u8],
    list: &[Value],
) -> Result<(), AllocError>
    ensures { IfOk result (λ _. map requirement_of found.new.items ≡ map requirement_of found.old.items ++ flat_map (item_requirements line requirer.now) (map view list.now)) }
{
    for item in list {
        push_item(alloc, found, line, requirer, item)?;
    }
    Ok(())
}

// Adds Poetry's requirement of this name: a list, or a table with one, unless it has markers or is optional.
fn push_version(
    alloc: Global,
    found: &mut Vec<LockedRequirement>,
    line: u64,
    requirer: &[u8],
    name: &str,
    value: &Value,
) -> Result<(), AllocError>
    ensures { IfOk result (λ _. map requirement_of found.new.items ≡ map requirement_of found.old.items ++ version_requirements line requirer.now name.now (view value.now)) }
{
    let none = Vec::new(alloc);
    push_list(alloc, found, line, requirer, name, none, value.as_str())?;
    if lacks(value, "markers") && lacks(value, "optional") {
        let extras = listed_strings(alloc, value.get("extras"))?;
        let list = text(value.get("version"));
        push_list(alloc, found, line, requirer, name, extras, list)?;
    }
    Ok(())
}

fn push_versions(
    alloc: Global,
    found: &mut Vec<LockedRequirement>,
    line: u64,
    requirer: &[u8],
    name: &str,
    list: &[Value],
) -> Result<(), AllocError>
    ensures { IfOk result (λ _. map requirement_of found.new.items ≡ map requirement_of found.old.items ++ flat_map (version_requirements line requirer.now name.now) (map view list.now)) }
{
    for value in list {
        push_version(alloc, found, line, requirer, name, value)?;
    }
    Ok(())
}

// Adds a member of Poetry's `dependencies`: such a requirement, or an array of them.
fn push_member(
    alloc: Global,
    found: &mut Vec<LockedRequirement>,
    line: u64,
    requirer: &[u8],
    name: &String,
    value: &Value,
) -> Result<(), AllocError>
    ensures { IfOk result (λ _. map requirement_of found.new.items ≡ map requirement_of found.old.items ++ member_requirements line requirer.now (string_bytes name.now, view value.now)) }
{
    push_version(alloc, found, line, requirer, name.as_str(), value)?;
    push_versions(
        alloc,
        found,
        line,
        requirer,
        name.as_str(),
        items(Some(value)),
    )
}

fn push_members(
    alloc: Global,
    found: &mut Vec<LockedRequirement>,
    line: u64,
    requirer: &[u8],
    members: &Table,
) -> Result<(), AllocError>
    ensures { IfOk result (λ _. map requirement_of found.new.items ≡ map requirement_of found.old.items ++ flat_map (member_requirements line requirer.now) (members_list (table_view members.now))) }
{
    for (name, value) in members.iter() {
        push_member(alloc, found, line, requirer, name, value)?;
    }
    Ok(())
}

fn push_dependencies(
    alloc: Global,
    found: &mut Vec<LockedRequirement>,
    line: u64,
    requirer: &[u8],
    value: Option<&Value>,
) -> Result<(), AllocError>
    ensures { IfOk result (λ _. map requirement_of found.new.items ≡ map requirement_of found.old.items ++ flat_map (member_requirements line requirer.now) (entries (option_map (λ v. view v.now) value.entry))) }
{
    match table(value) {
        Some(members) => push_members(alloc, found, line, requirer, members),
        None => Ok(()),
    }
}

// Adds the reference to another package, if the item has a name.
fn push_reference(
    alloc: Global,
    found: &mut Vec<LockedRequirement>,
    line: u64,
    requirer: &[u8],
    item: &Value,
) -> Result<(), AllocError>
    ensures { IfOk result (λ _. map requirement_of found.new.items ≡ map requirement_of found.old.items ++ reference line requirer.now (view item.now)) }
{
    let Some(name) = text(item.get("name")) else {
        return Ok(());
    };
    found.push(LockedRequirement {
        line,
        requirer: Vec::from_slice(alloc, requirer)?,
        name: String::from_str(alloc, name)?,
        extras: Vec::new(alloc),
        list: String::new(alloc),
        is_reference: true,
    })?;
    Ok(())
}

fn push_references(
    alloc: Global,
    found: &mut Vec<LockedRequirement>,
    line: u64,
    requirer: &[u8],
    list: &[Value],
) -> Result<(), AllocError>
    ensures { IfOk result (λ _. map requirement_of found.new.items ≡ map requirement_of found.old.items ++ flat_map (reference line requirer.now) (map view list.now)) }
{
    for item in list {
        push_reference(alloc, found, line, requirer, item)?;
    }
    Ok(())
}

// Adds the requirements in `pylock.toml`, of PEP 751 and of PDM.
fn push_pylock(
    alloc: Global,
    found: &mut Vec<LockedRequirement>,
    line: u64,
    requirer: &[u8],
    table: &Value,
) -> Result<(), AllocError>
    ensures { IfOk result (λ _. map requirement_of found.new.items ≡ map requirement_of found.old.items ++ pylock_requirements line requirer.now (view table.now)) }
{
    let list = items(table.get("dependencies"));
    push_references(alloc, found, line, requirer, list)?;
    let list = items(inside(inside(table.get("tool"), "pdm"), "dependencies"));
    push_items(alloc, found, line, requirer, list)
}

// Adds the requirements of uv, of uv and PDM, and of Poetry.
fn push_tool(
    alloc: Global,
    found: &mut Vec<LockedRequirement>,
    line: u64,
    requirer: &[u8],
    table: &Value,
) -> Result<(), AllocError>
    ensures { IfOk result (λ _. map requirement_of found.new.items ≡ map requirement_of found.old.items ++ tool_requirements line requirer.now (view table.now)) }
{
    let list = items(inside(table.get("metadata"), "requires-dist"));
    push_items(alloc, found, line, requirer, list)?;
    let list = items(table.get("dependencies"));
    push_items(alloc, found, line, requirer, list)?;
    push_dependencies(alloc, found, line, requirer, table.get("dependencies"))
}

// Adds the requirements in the table of a package of a lock of this kind.
fn push_table(
    alloc: Global,
    found: &mut Vec<LockedRequirement>,
    kind: LockKind,
    line: u64,
    requirer: &[u8],
    table: &Value,
) -> Result<(), AllocError>
    ensures { IfOk result (λ _. map requirement_of found.new.items ≡ map requirement_of found.old.items ++ table_requirements line requirer.now kind (view table.now)) }
{
    match kind {
        LockKind::Pylock => push_pylock(alloc, found, line, requirer, table),
        _ => push_tool(alloc, found, line, requirer, table),
    }
}

fn push_by(
    alloc: Global,
    found: &mut Vec<LockedRequirement>,
    kind: LockKind,
    line: u64,
    name: Option<&str>,
    table: &Value,
) -> Result<(), AllocError>
    ensures { IfOk result (λ _. map requirement_of found.new.items ≡ map requirement_of found.old.items ++ requirements_by kind line (option_map (λ t. t.now) name.entry) (view table.now)) }
{
    let Some(name) = name else {
        return Ok(());
    };
    let requirer = package_text(alloc, name, text(table.get("version")))?;
    push_table(alloc, found, kind, line, requirer.as_slice(), table)
}

// The marker, if there is one, holds wherever the parts are installed.
fn is_everywhere(
    alloc: Global,
    parts: &LockParts,
    value: Option<&Value>,
) -> Result<bool, AllocError>
    ensures { IfOk result (λ b. b ≡ is_everywhere (parts_of parts.now) (option_map (λ v. view v.now) value.entry)) }
{
    let Some(value) = value else {
        return Ok(true);
    };
    match value.as_str() {
        Some(text) => holds_everywhere(alloc, parts, text.as_bytes()),
        None => Ok(false),
    }
}

// The package is locked for each environment.
pub(crate) fn is_unconditional(
    alloc: Global,
    parts: &LockParts,
    table: &Value,
) -> Result<bool, AllocError>
    ensures { IfOk result (λ b. b ≡ is_unconditional (parts_of parts.now) (view table.now)) }
{
    if !lacks(table, "markers") || !lacks(table, "resolution-markers") {
        return Ok(false);
    }
    is_everywhere(alloc, parts, table.get("marker"))
}

// Adds the requirements of the package on this line, if it is locked for each environment.
pub(crate) fn push_requirements(
    alloc: Global,
    found: &mut Vec<LockedRequirement>,
    kind: LockKind,
    parts: &LockParts,
    line: u64,
    table: &Value,
) -> Result<(), AllocError>
    ensures { IfOk result (λ _. map requirement_of found.new.items ≡ map requirement_of found.old.items ++ requirements_from kind (parts_of parts.now) (line, view table.now)) }
{
    if !is_unconditional(alloc, parts, table)? {
        return Ok(());
    }
    push_by(alloc, found, kind, line, text(table.get("name")), table)
}
