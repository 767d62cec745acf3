//! The folders of the members of a lock of uv.
ghost use Rattle.std.specs.Prelude.{◌≡◌, IfOk, option_map, map, ◌++◌, bytes_eq};
ghost use Rattle.std.specs.List.{flat_map, list_any};
ghost use Rattle.toml.specs.View.{view, table_view};
ghost use Rattle.pyver_locks.specs.Locks.{lock_members, member_by, member_folder, member_from, member_path};

use crate::lock_faults::{contains_name, listed_names};
use crate::lock_kind::LockKind;
use pep440_pick::normalize_name;
use pyver_projects::requirement_strings::first_of;
use pyver_projects::table::{inside, text, top};
use std::alloc::{AllocError, Global};
use toml::{Table, Value};

// The folder with this path, as what stands before the names of its files.
fn member_folder(alloc: Global, path: &str) -> Result<Vec<u8>, AllocError>
    ensures { IfOk result (λ folder. folder.items ≡ member_folder path.now) }
{
    let mut folder = Vec::new(alloc);
    if path == "." {
        return Ok(folder);
    }
    folder.extend_from_slice(path.as_bytes())?;
    folder.extend_from_slice(b"/")?;
    Ok(folder)
}

// Where the package lies, if it is a project in a folder.
fn member_path(item: &Value) -> Option<&str>
    ensures { option_map (λ t. t.now) result ≡ member_path (view item.now) }
{
    let source = item.get("source");
    first_of(
        text(inside(source, "editable")),
        text(inside(source, "virtual")),
    )
}

#[tactic(auto, using(pyver_requirements::proofs::Grouped::any_viewed))]
fn has_name(names: &[Vec<u8>], name: &[u8]) -> bool
    ensures { result ≡ list_any (bytes_eq name.now) (map (λ n. n.items) names.now) }
{
    contains_name(names, name)
}

// Adds the folder with this path, if one of the names is this.
fn push_named(
    alloc: Global,
    folders: &mut Vec<Vec<u8>>,
    names: &[Vec<u8>],
    name: Option<&str>,
    path: Option<&str>,
) -> Result<(), AllocError>
    ensures { IfOk result (λ _. map (λ f. f.items) folders.new.items ≡ map (λ f. f.items) folders.old.items ++ member_by (map (λ n. n.items) names.now) (option_map (λ t. t.now) name.entry) (option_map (λ t. t.now) path.entry)) }
{
    let Some(name) = name else {
        return Ok(());
    };
    let Some(path) = path else {
        return Ok(());
    };
    let name = normalize_name(alloc, name)?;
    if has_name(names, name.as_slice()) {
        folders.push(member_folder(alloc, path)?)?;
    }
    Ok(())
}

// Adds the folder of the package, if that is one of the members with these names.
fn push_member(
    alloc: Global,
    folders: &mut Vec<Vec<u8>>,
    names: &[Vec<u8>],
    item: &Value,
) -> Result<(), AllocError>
    ensures { IfOk result (λ _. map (λ f. f.items) folders.new.items ≡ map (λ f. f.items) folders.old.items ++ member_from (map (λ n. n.items) names.now) (view item.now)) }
{
    let name = text(item.get("name"));
    push_named(alloc, folders, names, name, member_path(item))
}

// The folders of the packages that are members with these names.
fn named_members(
    alloc: Global,
    names: &[Vec<u8>],
    packages: &[Value],
) -> Result<Vec<Vec<u8>>, AllocError>
    ensures { IfOk result (λ folders. map (λ f. f.items) folders.items ≡ flat_map (member_from (map (λ n. n.items) names.now)) (map view packages.now)) }
{
    let mut folders = Vec::new(alloc);
    for item in packages {
        push_member(alloc, &mut folders, names, item)?;
    }
    Ok(folders)
}

// The folders of the members of a lock of this kind with these packages.
pub(crate) fn lock_members(
    alloc: Global,
    kind: LockKind,
    document: &Table,
    packages: &[Value],
) -> Result<Vec<Vec<u8>>, AllocError>
    ensures { IfOk result (λ folders. map (λ f. f.items) folders.items ≡ lock_members kind (table_view document.now) (map view packages.now)) }
{
    match kind {
        LockKind::Uv => {
            let names = listed_names(alloc, inside(top(document, "manifest"), "members"))?;
            named_members(alloc, names.as_slice(), packages)
        }
        _ => Ok(Vec::new(alloc)),
    }
}
