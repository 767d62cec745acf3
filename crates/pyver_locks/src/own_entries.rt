//! What `uv.lock` says that the project in its folder requires.
ghost use Rattle.std.specs.Prelude.{◌≡◌, ◌++◌, IfOk, map, option_map};
ghost use Rattle.std.specs.List.{flat_map};
ghost use Rattle.toml.specs.View.{view, table_view};
ghost use Rattle.pyver_locks.specs.LockContents.{requirement_of};
ghost use Rattle.pyver_locks.specs.PackageRequirements.{has_folder, has_own_source, entry, group_entries, metadata_entries, is_dot, is_own_package, entries_from};
ghost use Rattle.pyver_locks.specs.declared.lock_kind.LockKind.TheVariants.{Uv};
ghost use Rattle.pyver_projects.specs.ProjectStrings.{members_list, entries};

use crate::lock_kind::LockKind;
use crate::locked_package::{LockedRequirement, package_text};
use pyver_projects::requirement_strings::text_or_empty;
use pyver_projects::table::{inside, items, listed_strings, table, text};
use std::alloc::{AllocError, Global};
use toml::{Table, Value};

// The requirement is for a project in a folder.
fn has_folder(item: &Value) -> bool
    ensures { result ≡ has_folder (view item.now) }
{
    item.get("directory").is_some()
        || item.get("editable").is_some()
        || item.get("virtual").is_some()
        || item.get("workspace").is_some()
}

// The requirement is for something else than versions of an index.
fn has_own_source(item: &Value) -> bool
    ensures { result ≡ has_own_source (view item.now) }
{
    item.get("git").is_some()
        || item.get("url").is_some()
        || item.get("path").is_some()
        || has_folder(item)
}

// Adds the item, if it has a name.
fn push_entry(
    alloc: Global,
    found: &mut Vec<LockedRequirement>,
    line: u64,
    requirer: &[u8],
    item: &Value,
) -> Result<(), AllocError>
    ensures { IfOk result (λ _. map requirement_of found.new.items ≡ map requirement_of found.old.items ++ entry line requirer.now (view item.now)) }
{
    let Some(name) = text(item.get("name")) else {
        return Ok(());
    };
    let list = text_or_empty(text(item.get("specifier")));
    found.push(LockedRequirement {
        line,
        requirer: Vec::from_slice(alloc, requirer)?,
        name: String::from_str(alloc, name)?,
        extras: listed_strings(alloc, item.get("extras"))?,
        list: String::from_str(alloc, list)?,
        is_reference: has_own_source(item),
    })?;
    Ok(())
}

fn push_entries(
    alloc: Global,
    found: &mut Vec<LockedRequirement>,
    line: u64,
    requirer: &[u8],
    list: &[Value],
) -> Result<(), AllocError>
    ensures { IfOk result (λ _. map requirement_of found.new.items ≡ map requirement_of found.old.items ++ flat_map (entry line requirer.now) (map view list.now)) }
{
    for item in list {
        push_entry(alloc, found, line, requirer, item)?;
    }
    Ok(())
}

// Adds those of each group of the table.
fn push_group_entries(
    alloc: Global,
    found: &mut Vec<LockedRequirement>,
    line: u64,
    requirer: &[u8],
    groups: &Table,
) -> Result<(), AllocError>
    ensures { IfOk result (λ _. map requirement_of found.new.items ≡ map requirement_of found.old.items ++ flat_map (group_entries line requirer.now) (members_list (table_view groups.now))) }
{
    for (_, group) in groups.iter() {
        push_entries(alloc, found, line, requirer, items(Some(group)))?;
    }
    Ok(())
}

// Adds those of each group, if there is a table of groups.
fn push_all_groups(
    alloc: Global,
    found: &mut Vec<LockedRequirement>,
    line: u64,
    requirer: &[u8],
    groups: Option<&Value>,
) -> Result<(), AllocError>
    ensures { IfOk result (λ _. map requirement_of found.new.items ≡ map requirement_of found.old.items ++ flat_map (group_entries line requirer.now) (entries (option_map (λ v. view v.now) groups.entry))) }
{
    match table(groups) {
        Some(groups) => push_group_entries(alloc, found, line, requirer, groups),
        None => Ok(()),
    }
}

fn push_metadata(
    alloc: Global,
    found: &mut Vec<LockedRequirement>,
    line: u64,
    requirer: &[u8],
    metadata: Option<&Value>,
) -> Result<(), AllocError>
    ensures { IfOk result (λ _. map requirement_of found.new.items ≡ map requirement_of found.old.items ++ metadata_entries line requirer.now (option_map (λ v. view v.now) metadata.entry)) }
{
    let list = items(inside(metadata, "requires-dist"));
    push_entries(alloc, found, line, requirer, list)?;
    push_all_groups(
        alloc,
        found,
        line,
        requirer,
        inside(metadata, "requires-dev"),
    )
}

fn is_dot(path: Option<&str>) -> bool
    ensures { result ≡ is_dot (option_map (λ t. t.now) path.entry) }
{
    match path {
        Some(path) => path == ".",
        None => false,
    }
}

// The package is the project in the folder of the lock.
pub(crate) fn is_own_package(item: &Value) -> bool
    ensures { result ≡ is_own_package (view item.now) }
{
    let source = item.get("source");
    is_dot(text(inside(source, "editable"))) || is_dot(text(inside(source, "virtual")))
}

fn push_entries_of(
    alloc: Global,
    found: &mut Vec<LockedRequirement>,
    line: u64,
    item: &Value,
) -> Result<(), AllocError>
    ensures { IfOk result (λ _. map requirement_of found.new.items ≡ map requirement_of found.old.items ++ entries_from Uv (line, view item.now)) }
{
    if !is_own_package(item) {
        return Ok(());
    }
    let Some(name) = text(item.get("name")) else {
        return Ok(());
    };
    let requirer = package_text(alloc, name, text(item.get("version")))?;
    push_metadata(
        alloc,
        found,
        line,
        requirer.as_slice(),
        item.get("metadata"),
    )
}

// Adds what the package on this line requires, if it is the project in the folder of the lock, and this is of uv.
pub(crate) fn push_own_entries(
    alloc: Global,
    found: &mut Vec<LockedRequirement>,
    kind: LockKind,
    line: u64,
    item: &Value,
) -> Result<(), AllocError>
    ensures { IfOk result (λ _. map requirement_of found.new.items ≡ map requirement_of found.old.items ++ entries_from kind (line, view item.now)) }
{
    match kind {
        LockKind::Uv => push_entries_of(alloc, found, line, item),
        _ => Ok(()),
    }
}
