//! The parts of a project that a lock has, for which Pythons it is, and what is wrong with locked packages, by themselves and beside others of one name.
ghost use Rattle.std.specs.Prelude.{◌≡◌, IfOk, option_map, string_bytes, map, ◌++◌, ◌∷◌, Some, bytes_eq, option_to_list, ◌&&◌, codes, is_none};
ghost use Rattle.std.specs.List.{flat_map, list_any};
ghost use Rattle.toml.specs.Data.{as_str, get_member};
ghost use Rattle.toml.specs.View.{table_view, view};
ghost use Rattle.pyver_locks.specs.LockContents.{condition_of_package, parts_of, fault_of};
ghost use Rattle.pyver_locks.specs.LockedFiles.{has_markers, target_python, locked_python, package_condition, is_uv, written_marker, marker_text, marked_name, package_name_in, names_listed, marked_names, counted_names, is_shared, twin_fault, twin_in, twins, ambiguous_fault, ambiguous_name, ambiguous_item, ambiguous, faults_beside, fault_unless, text_faults, value_faults, package_faults};
ghost use Rattle.pyver_locks.specs.Locks.{is_new_group, has_default, named_parts, with_default, part_names, package_parts, own_python, lock_parts};
ghost use Rattle.pyver_locks.specs.PackageRequirements.{is_own_package};
ghost use Rattle.pyver_projects.specs.ProjectStrings.{inside, IsNameIndex, indexed_names};
ghost use Rattle.pyver_projects.specs.RequirementStrings.{poetry_list};
ghost use Rattle.pyver_locks.specs.declared.lock_kind.LockKind.TheVariants as lock_kind;

use crate::lock_kind::LockKind;
use crate::locked_package::{LockFault, LockParts, PackageCondition, package_text};
use crate::own_entries::is_own_package;
use crate::workspace::lock_members;
use pep440_pick::normalize_name;
use pyver_projects::inclusions::NameIndex;
use pyver_projects::requirement_strings::{copy_text, first_of, lacks, poetry_list};
use pyver_projects::table::{inside, is_table_or_none, is_text_or_none, items, text, top};
use std::alloc::{AllocError, Global};
use toml::{Table, Value};

// In the format of the lock, packages of one name have markers that differ.
pub(crate) fn has_markers(kind: LockKind, document: &Table) -> bool
    ensures { result ≡ has_markers kind (table_view document.now) }
{
    let metadata = top(document, "metadata");
    match kind {
        LockKind::Pylock => true,
        LockKind::Poetry => match text(inside(metadata, "lock-version")) {
            Some(version) => version == "2.1",
            None => false,
        },
        LockKind::Pdm => items(inside(metadata, "targets")).len() < 2,
        LockKind::Uv | LockKind::Unknown => false,
    }
}

// Poetry's list as one of PEP 440, if there is one.
fn poetry_list_or_none(alloc: Global, list: Option<&str>) -> Result<Option<String>, AllocError>
    ensures { IfOk result (λ text. option_map string_bytes text ≡ option_map poetry_list (option_map (λ t. t.now) list.entry)) }
{
    match list {
        Some(list) => Ok(Some(poetry_list(alloc, list)?)),
        None => Ok(None),
    }
}

// That of the one target.
fn target_python(targets: &[Value]) -> Option<&str>
    ensures { option_map (λ t. t.now) result ≡ target_python (map view targets.now) }
{
    match targets {
        [target] => text(target.get("requires_python")),
        _ => None,
    }
}

// The Pythons that the lock is for, where its packages have markers that say where they are needed.
pub(crate) fn locked_python(
    alloc: Global,
    kind: LockKind,
    document: &Table,
) -> Result<Option<String>, AllocError>
    ensures { IfOk result (λ text. option_map string_bytes text ≡ locked_python kind (table_view document.now)) }
{
    let metadata = top(document, "metadata");
    match kind {
        LockKind::Poetry if has_markers(kind, document) => {
            poetry_list_or_none(alloc, text(inside(metadata, "python-versions")))
        }
        LockKind::Pdm => copy_text(alloc, target_python(items(inside(metadata, "targets")))),
        LockKind::Pylock => copy_text(alloc, text(top(document, "requires-python"))),
        _ => Ok(None),
    }
}

// Where a lock for these Pythons has the package, if not everywhere.
pub(crate) fn package_condition(
    alloc: Global,
    python: &Option<String>,
    table: &Value,
) -> Result<Option<PackageCondition>, AllocError>
    ensures { IfOk result (λ c. option_map condition_of_package c ≡ package_condition (option_map string_bytes python.now) (view table.now)) }
{
    match (python, written_marker(table)) {
        (Some(python), Some(marker)) => Ok(Some(PackageCondition {
            python: python.clone()?,
            marker: String::from_str(alloc, marker)?,
        })),
        _ => Ok(None),
    }
}

fn is_uv(kind: LockKind) -> bool
    ensures { result ≡ is_uv kind }
{
    matches!(kind, LockKind::Uv)
}

// The marker of the package, if it has one.
fn written_marker(table: &Value) -> Option<&str>
    ensures { option_map (λ t. t.now) result ≡ written_marker (view table.now) }
{
    first_of(text(table.get("marker")), text(table.get("markers")))
}

// The marker of the package, empty without one.
fn marker_text(table: &Value) -> Option<&str>
    ensures { option_map (λ t. t.now) result ≡ marker_text (view table.now) }
{
    if lacks(table, "marker") && lacks(table, "markers") {
        return Some("");
    }
    written_marker(table)
}

fn push_each_extra(text: &mut Vec<u8>, extras: &[Vec<u8>]) -> Result<(), AllocError>
    ensures { IfOk result (λ _. text.new.items ≡ text.old.items ++ flat_map (λ e. 91 ∷ e) (map (λ e. e.items) extras.now)) }
{
    for extra in extras {
        text.push(b'[')?;
        text.extend_from_slice(extra.as_slice())?;
    }
    Ok(())
}

// The name in its normal form beside the extras and the marker.
fn marked_name(
    alloc: Global,
    name: &str,
    extras: &[Vec<u8>],
    marker: &str,
) -> Result<Vec<u8>, AllocError>
    ensures { IfOk result (λ marked. marked.items ≡ marked_name name.now (map (λ e. e.items) extras.now) marker.now) }
{
    let mut marked = normalize_name(alloc, name)?;
    push_each_extra(&mut marked, extras)?;
    marked.push(b';')?;
    marked.extend_from_slice(marker.as_bytes())?;
    Ok(marked)
}

// Adds the normal form of the name, if it is a string.
fn push_package_name(
    alloc: Global,
    names: &mut Vec<Vec<u8>>,
    value: Option<&Value>,
) -> Result<(), AllocError>
    ensures { IfOk result (λ _. map (λ n. n.items) names.new.items ≡ map (λ n. n.items) names.old.items ++ package_name_in (option_map (λ v. view v.now) value.entry)) }
{
    if let Some(name) = text(value) {
        names.push(normalize_name(alloc, name)?)?;
    }
    Ok(())
}

// Adds the normal forms of the names.
fn push_names(alloc: Global, names: &mut Vec<Vec<u8>>, list: &[Value]) -> Result<(), AllocError>
    ensures { IfOk result (λ _. map (λ n. n.items) names.new.items ≡ map (λ n. n.items) names.old.items ++ flat_map (λ d. package_name_in (Some d)) (map view list.now)) }
{
    for item in list {
        push_package_name(alloc, names, Some(item))?;
    }
    Ok(())
}

/// Whether the name is one of these.
///
/// Allocates nothing.
pub fn contains_name(names: &[Vec<u8>], name: &[u8]) -> bool
    ensures { result ≡ list_any (λ known. bytes_eq name.now known.items) names.now }
{
    names.iter().any(|known| name == known.as_slice())
}

// It is none of these, nor PDM's name for the dependencies.
#[tactic(auto, using(pyver_requirements::proofs::Grouped::any_viewed))]
fn is_new_group(named: &[Vec<u8>], name: &[u8]) -> bool
    ensures { result ≡ is_new_group (map (λ n. n.items) named.now) name.now }
{
    name != b"default".as_slice() && !contains_name(named, name)
}

fn has_new_group(named: &[Vec<u8>], names: &[Vec<u8>]) -> bool
    ensures { result ≡ list_any (λ name. is_new_group (map (λ n. n.items) named.now) name.items) names.now }
{
    names
        .iter()
        .any(|name| is_new_group(named, name.as_slice()))
}

#[tactic(auto, using(pyver_requirements::proofs::Grouped::any_viewed))]
fn has_new_name(named: &[Vec<u8>], names: &[Vec<u8>]) -> bool
    ensures { result ≡ list_any (is_new_group (map (λ n. n.items) named.now)) (map (λ n. n.items) names.now) }
{
    has_new_group(named, names)
}

// A lock that names these groups and extras, and installs these groups by default, has the dependencies.
fn has_default(named: &[Vec<u8>], names: &[Vec<u8>]) -> bool
    ensures { result ≡ has_default (map (λ n. n.items) named.now) (map (λ n. n.items) names.now) }
{
    if names.is_empty() {
        return named.len() > 0;
    }
    has_new_name(named, names)
}

// Adds the normal forms of the names, if there is an array.
fn push_listed_names(
    alloc: Global,
    names: &mut Vec<Vec<u8>>,
    value: Option<&Value>,
) -> Result<(), AllocError>
    ensures { IfOk result (λ _. map (λ n. n.items) names.new.items ≡ map (λ n. n.items) names.old.items ++ names_listed (option_map (λ v. view v.now) value.entry)) }
{
    push_names(alloc, names, items(value))
}

pub(crate) fn listed_names(alloc: Global, value: Option<&Value>) -> Result<Vec<Vec<u8>>, AllocError>
    ensures { IfOk result (λ names. map (λ n. n.items) names.items ≡ names_listed (option_map (λ v. view v.now) value.entry)) }
{
    let mut names = Vec::new(alloc);
    push_listed_names(alloc, &mut names, value)?;
    Ok(names)
}

// The groups and the extras of `pylock.toml`.
fn named_parts(alloc: Global, document: &Table) -> Result<Vec<Vec<u8>>, AllocError>
    ensures { IfOk result (λ names. map (λ n. n.items) names.items ≡ named_parts (table_view document.now)) }
{
    let mut parts = listed_names(alloc, top(document, "dependency-groups"))?;
    push_listed_names(alloc, &mut parts, top(document, "extras"))?;
    Ok(parts)
}

// These, and `default`, if a lock that installs these by default has the dependencies.
fn with_default(
    alloc: Global,
    named: Vec<Vec<u8>>,
    defaults: &[Vec<u8>],
) -> Result<Vec<Vec<u8>>, AllocError>
    ensures { IfOk result (λ names. map (λ n. n.items) names.items ≡ with_default (map (λ n. n.items) named.items) (map (λ n. n.items) defaults.now)) }
{
    let mut parts = named;
    if has_default(parts.as_slice(), defaults) {
        parts.push(Vec::from_slice(alloc, b"default")?)?;
    }
    Ok(parts)
}

// Those of `pylock.toml`, with `default` for the dependencies of the project.
fn pylock_parts(alloc: Global, document: &Table) -> Result<Vec<Vec<u8>>, AllocError>
    ensures { IfOk result (λ names. map (λ n. n.items) names.items ≡ part_names lock_kind.Pylock (table_view document.now)) }
{
    let named = named_parts(alloc, document)?;
    let defaults = listed_names(alloc, top(document, "default-groups"))?;
    with_default(alloc, named, defaults.as_slice())
}

// The groups that a lock of this kind names beside its packages, in their normal form.
fn part_names(alloc: Global, kind: LockKind, document: &Table) -> Result<Vec<Vec<u8>>, AllocError>
    ensures { IfOk result (λ names. map (λ n. n.items) names.items ≡ part_names kind (table_view document.now)) }
{
    match kind {
        LockKind::Pdm => listed_names(alloc, inside(top(document, "metadata"), "groups")),
        LockKind::Pylock => pylock_parts(alloc, document),
        _ => Ok(Vec::new(alloc)),
    }
}

// Adds the groups that the packages name.
fn push_group_names(
    alloc: Global,
    names: &mut Vec<Vec<u8>>,
    packages: &[Value],
) -> Result<(), AllocError>
    ensures { IfOk result (λ _. map (λ n. n.items) names.new.items ≡ map (λ n. n.items) names.old.items ++ package_parts lock_kind.Poetry (map view packages.now)) }
{
    for table in packages {
        push_listed_names(alloc, names, table.get("groups"))?;
    }
    Ok(())
}

// Adds the groups that the packages of Poetry's lock name, and nothing of another.
fn push_package_parts(
    alloc: Global,
    names: &mut Vec<Vec<u8>>,
    kind: LockKind,
    packages: &[Value],
) -> Result<(), AllocError>
    ensures { IfOk result (λ _. map (λ n. n.items) names.new.items ≡ map (λ n. n.items) names.old.items ++ package_parts kind (map view packages.now)) }
{
    match kind {
        LockKind::Poetry => push_group_names(alloc, names, packages),
        _ => Ok(()),
    }
}

// Adds the string, if it is one.
fn push_text(alloc: Global, texts: &mut Vec<Vec<u8>>, item: &Value) -> Result<(), AllocError>
    ensures { IfOk result (λ _. map (λ t. t.items) texts.new.items ≡ map (λ t. t.items) texts.old.items ++ option_to_list (as_str (view item.now))) }
{
    if let Some(text) = item.as_str() {
        texts.push(Vec::from_slice(alloc, text.as_bytes())?)?;
    }
    Ok(())
}

fn listed_texts(alloc: Global, list: &[Value]) -> Result<Vec<Vec<u8>>, AllocError>
    ensures { IfOk result (λ texts. map (λ t. t.items) texts.items ≡ flat_map (λ d. option_to_list (as_str d)) (map view list.now)) }
{
    let mut texts = Vec::new(alloc);
    for item in list {
        push_text(alloc, &mut texts, item)?;
    }
    Ok(texts)
}

fn any_own_package(packages: &[Value]) -> bool
    ensures { result ≡ list_any (λ v. is_own_package (view v)) packages.now }
{
    packages.iter().any(|item| is_own_package(item))
}

// The project in the folder of the lock is one of its packages, and it has no other members.
#[tactic(auto, using(pyver_requirements::proofs::Grouped::any_viewed))]
fn is_of_one_project(document: &Table, packages: &[Value]) -> bool
    ensures { result ≡ list_any is_own_package (map view packages.now) && is_none (inside (codes "members") (get_member (codes "manifest") (table_view document.now))) }
{
    any_own_package(packages) && inside(top(document, "manifest"), "members").is_none()
}

// For which Pythons a lock says that the project in its folder is.
fn own_python(
    alloc: Global,
    kind: LockKind,
    document: &Table,
    packages: &[Value],
) -> Result<Option<String>, AllocError>
    ensures { IfOk result (λ python. option_map string_bytes python ≡ own_python kind (table_view document.now) (map view packages.now)) }
{
    match kind {
        LockKind::Uv if is_of_one_project(document, packages) => {
            copy_text(alloc, text(top(document, "requires-python")))
        }
        _ => Ok(None),
    }
}

// The parts of a lock of this kind with these packages.
pub(crate) fn lock_parts(
    alloc: Global,
    kind: LockKind,
    document: &Table,
    packages: &[Value],
) -> Result<LockParts, AllocError>
    ensures { IfOk result (λ parts. parts_of parts ≡ lock_parts kind (table_view document.now) (map view packages.now)) }
{
    let mut names = part_names(alloc, kind, document)?;
    push_package_parts(alloc, &mut names, kind, packages)?;
    let extras = listed_names(alloc, top(document, "extras"))?;
    let mut groups = listed_names(alloc, top(document, "dependency-groups"))?;
    push_listed_names(alloc, &mut groups, top(document, "default-groups"))?;
    let environments = listed_texts(alloc, items(top(document, "environments")))?;
    let python = own_python(alloc, kind, document, packages)?;
    let members = lock_members(alloc, kind, document, packages)?;
    Ok(LockParts {
        names,
        extras,
        groups,
        environments,
        python,
        members,
    })
}

// Adds the name with the extras and the marker, if the package has a name and a marker.
fn push_marked_names(
    alloc: Global,
    names: &mut Vec<Vec<u8>>,
    table: &Value,
) -> Result<(), AllocError>
    ensures { IfOk result (λ _. map (λ n. n.items) names.new.items ≡ map (λ n. n.items) names.old.items ++ marked_names (view table.now)) }
{
    let (Some(name), Some(marker)) = (text(table.get("name")), marker_text(table)) else {
        return Ok(());
    };
    let extras = listed_names(alloc, table.get("extras"))?;
    names.push(marked_name(alloc, name, extras.as_slice(), marker)?)?;
    Ok(())
}

// Adds the name of the package, with its marker unless the lock is uv's.
fn push_counted_names(
    alloc: Global,
    names: &mut Vec<Vec<u8>>,
    kind: LockKind,
    table: &Value,
) -> Result<(), AllocError>
    ensures { IfOk result (λ _. map (λ n. n.items) names.new.items ≡ map (λ n. n.items) names.old.items ++ counted_names kind (view table.now)) }
{
    if is_uv(kind) {
        push_package_name(alloc, names, table.get("name"))
    } else {
        push_marked_names(alloc, names, table)
    }
}

pub(crate) fn counted_names(
    alloc: Global,
    kind: LockKind,
    tables: &[Value],
) -> Result<Vec<Vec<u8>>, AllocError>
    ensures { IfOk result (λ names. map (λ n. n.items) names.items ≡ flat_map (counted_names kind) (map view tables.now)) }
{
    let mut names = Vec::new(alloc);
    for table in tables {
        push_counted_names(alloc, &mut names, kind, table)?;
    }
    Ok(names)
}

// Two packages with one of the names have this name.
fn is_shared(alloc: Global, names: &NameIndex<'_>, name: &str) -> Result<bool, AllocError>
    requires { IsNameIndex names.now }
    ensures { IfOk result (λ b. b ≡ is_shared (indexed_names names.now) name.now) }
{
    let normal = normalize_name(alloc, name)?;
    Ok(names.has_twice(normal.as_slice()))
}

// That another package has the name and the marker of this one.
fn twin_fault(
    alloc: Global,
    line: u64,
    name: &str,
    version: Option<&str>,
) -> Result<LockFault, AllocError>
    ensures { IfOk result (λ fault. fault_of fault ≡ twin_fault line name.now (option_map (λ t. t.now) version.entry)) }
{
    Ok(LockFault {
        line,
        text: package_text(alloc, name, version)?,
        reason: "another package has this name and no other marker",
    })
}

// Adds the package with this name and version, if two of the names are its name with these extras and this marker.
fn push_twin_in(
    alloc: Global,
    faults: &mut Vec<LockFault>,
    names: &NameIndex<'_>,
    line: u64,
    name: &str,
    version: Option<&str>,
    extras: &[Vec<u8>],
    marker: &str,
) -> Result<(), AllocError>
    requires { IsNameIndex names.now }
    ensures { IfOk result (λ _. map fault_of faults.new.items ≡ map fault_of faults.old.items ++ twin_in (indexed_names names.now) line name.now (option_map (λ t. t.now) version.entry) (marked_name name.now (map (λ e. e.items) extras.now) marker.now)) }
{
    let marked = marked_name(alloc, name, extras, marker)?;
    if names.has_twice(marked.as_slice()) {
        faults.push(twin_fault(alloc, line, name, version)?)?;
    }
    Ok(())
}

// Adds the package, if another one has its name, its extras and its marker.
fn push_twin(
    alloc: Global,
    faults: &mut Vec<LockFault>,
    names: &NameIndex<'_>,
    line: u64,
    table: &Value,
) -> Result<(), AllocError>
    requires { IsNameIndex names.now }
    ensures { IfOk result (λ _. map fault_of faults.new.items ≡ map fault_of faults.old.items ++ twins (indexed_names names.now) (line, view table.now)) }
{
    let (Some(name), Some(marker)) = (text(table.get("name")), marker_text(table)) else {
        return Ok(());
    };
    let extras = listed_names(alloc, table.get("extras"))?;
    let version = text(table.get("version"));
    push_twin_in(
        alloc,
        faults,
        names,
        line,
        name,
        version,
        extras.as_slice(),
        marker,
    )
}

// That the package of this text requires a name that more than one has.
fn ambiguous_fault(
    alloc: Global,
    line: u64,
    requirer: &[u8],
    name: &str,
) -> Result<LockFault, AllocError>
    ensures { IfOk result (λ fault. fault_of fault ≡ ambiguous_fault line requirer.now name.now) }
{
    let mut text = Vec::from_slice(alloc, requirer)?;
    text.extend_from_slice(b" requires ")?;
    text.extend_from_slice(name.as_bytes())?;
    let reason = "more than one package has this name";
    Ok(LockFault { line, text, reason })
}

// Adds that the package of this text requires the name, if two packages with one of the names have it.
fn push_ambiguous_name(
    alloc: Global,
    faults: &mut Vec<LockFault>,
    names: &NameIndex<'_>,
    line: u64,
    requirer: &[u8],
    name: Option<&str>,
) -> Result<(), AllocError>
    requires { IsNameIndex names.now }
    ensures { IfOk result (λ _. map fault_of faults.new.items ≡ map fault_of faults.old.items ++ ambiguous_name (indexed_names names.now) line requirer.now (option_map (λ t. t.now) name.entry)) }
{
    let Some(name) = name else {
        return Ok(());
    };
    if is_shared(alloc, names, name)? {
        faults.push(ambiguous_fault(alloc, line, requirer, name)?)?;
    }
    Ok(())
}

fn push_ambiguous_item(
    alloc: Global,
    faults: &mut Vec<LockFault>,
    names: &NameIndex<'_>,
    line: u64,
    requirer: &[u8],
    item: &Value,
) -> Result<(), AllocError>
    requires { IsNameIndex names.now }
    ensures { IfOk result (λ _. map fault_of faults.new.items ≡ map fault_of faults.old.items ++ ambiguous_item (indexed_names names.now) line requirer.now (view item.now)) }
{
    if !lacks(item, "source") {
        return Ok(());
    }
    push_ambiguous_name(alloc, faults, names, line, requirer, text(item.get("name")))
}

fn push_ambiguous_items(
    alloc: Global,
    faults: &mut Vec<LockFault>,
    names: &NameIndex<'_>,
    line: u64,
    requirer: &[u8],
    list: &[Value],
) -> Result<(), AllocError>
    requires { IsNameIndex names.now }
    ensures { IfOk result (λ _. map fault_of faults.new.items ≡ map fault_of faults.old.items ++ flat_map (ambiguous_item (indexed_names names.now) line requirer.now) (map view list.now)) }
{
    for item in list {
        push_ambiguous_item(alloc, faults, names, line, requirer, item)?;
    }
    Ok(())
}

// Adds the dependencies of the package whose source is missing, though two packages with one of the names have theirs.
fn push_ambiguous_dependencies(
    alloc: Global,
    faults: &mut Vec<LockFault>,
    names: &NameIndex<'_>,
    line: u64,
    table: &Value,
) -> Result<(), AllocError>
    requires { IsNameIndex names.now }
    ensures { IfOk result (λ _. map fault_of faults.new.items ≡ map fault_of faults.old.items ++ ambiguous (indexed_names names.now) (line, view table.now)) }
{
    let Some(name) = text(table.get("name")) else {
        return Ok(());
    };
    let requirer = package_text(alloc, name, text(table.get("version")))?;
    let list = items(table.get("dependencies"));
    push_ambiguous_items(alloc, faults, names, line, requirer.as_slice(), list)
}

// The packages of a lock beside which each is looked at.
#[derive(Drop)]
pub(crate) struct CountedNames<'a> {
    pub(crate) kind: LockKind,
    pub(crate) has_markers: bool,
    // The Pythons that the lock is for, where markers say where packages are needed.
    pub(crate) python: Option<String>,
    pub(crate) names: NameIndex<'a>,
}

// Adds what is wrong with the package beside the others.
fn push_faults_beside(
    alloc: Global,
    faults: &mut Vec<LockFault>,
    counted: &CountedNames<'_>,
    line: u64,
    table: &Value,
) -> Result<(), AllocError>
    requires { IsNameIndex counted.now.names }
    ensures { IfOk result (λ _. map fault_of faults.new.items ≡ map fault_of faults.old.items ++ faults_beside counted.now.kind counted.now.has_markers (indexed_names counted.now.names) (line, view table.now)) }
{
    if is_uv(counted.kind) {
        push_ambiguous_dependencies(alloc, faults, &counted.names, line, table)
    } else if counted.has_markers {
        push_twin(alloc, faults, &counted.names, line, table)
    } else {
        Ok(())
    }
}

// Adds what is wrong on this line, unless it is right.
pub(crate) fn push_fault_unless(
    alloc: Global,
    faults: &mut Vec<LockFault>,
    is_right: bool,
    line: u64,
    text: &str,
    reason: &'static str,
) -> Result<(), AllocError>
    ensures { IfOk result (λ _. map fault_of faults.new.items ≡ map fault_of faults.old.items ++ fault_unless is_right line text.now reason.now) }
{
    if is_right {
        return Ok(());
    }
    let text = Vec::from_slice(alloc, text.as_bytes())?;
    faults.push(LockFault { line, text, reason })?;
    Ok(())
}

fn push_text_fault(
    alloc: Global,
    faults: &mut Vec<LockFault>,
    line: u64,
    key: &str,
    table: &Value,
) -> Result<(), AllocError>
    ensures { IfOk result (λ _. map fault_of faults.new.items ≡ map fault_of faults.old.items ++ text_faults line key.now (view table.now)) }
{
    let is_right = is_text_or_none(table.get(key));
    push_fault_unless(alloc, faults, is_right, line, key, "not a string")
}

// Adds what is wrong with the package by itself.
fn push_value_faults(
    alloc: Global,
    faults: &mut Vec<LockFault>,
    line: u64,
    table: &Value,
) -> Result<(), AllocError>
    ensures { IfOk result (λ _. map fault_of faults.new.items ≡ map fault_of faults.old.items ++ value_faults (line, view table.now)) }
{
    let is_right = is_table_or_none(Some(table));
    push_fault_unless(alloc, faults, is_right, line, "package", "not a table")?;
    push_text_fault(alloc, faults, line, "name", table)?;
    push_text_fault(alloc, faults, line, "version", table)
}

// Adds what is wrong with the package by itself and beside the others.
pub(crate) fn push_package_faults(
    alloc: Global,
    faults: &mut Vec<LockFault>,
    counted: &CountedNames<'_>,
    line: u64,
    table: &Value,
) -> Result<(), AllocError>
    requires { IsNameIndex counted.now.names }
    ensures { IfOk result (λ _. map fault_of faults.new.items ≡ map fault_of faults.old.items ++ package_faults counted.now.kind counted.now.has_markers (indexed_names counted.now.names) (line, view table.now)) }
{
    push_value_faults(alloc, faults, line, table)?;
    push_faults_beside(alloc, faults, counted, line, table)
}
