//! What a TOML lock has.
ghost use Rattle.std.specs.Prelude.{◌≡◌, ◌++◌, IfOk, map, option_map, string_bytes, get_or, codes};
ghost use Rattle.toml.specs.View.{view, table_view};
ghost use Rattle.pyver_locks.specs.LockContents.{condition_of_package, locked_of, contents_of, fault_of, parts_of};
ghost use Rattle.pyver_locks.specs.LockedFiles.{array_faults};
ghost use Rattle.pyver_locks.specs.Locks.{package_in, package_from, numbered_tables, table_contents, contents};
ghost use Rattle.pyver_projects.specs.ProjectStrings.{header_lines, IsNameIndex, indexed_names};

use crate::lock_faults::{
    CountedNames, counted_names, has_markers, lock_parts, locked_python, package_condition,
    push_fault_unless, push_package_faults,
};
use crate::lock_kind::LockKind;
use crate::locked_package::{
    LockContents, LockFault, LockParts, LockedPackage, PackageCondition, push_locked_files,
};
use crate::own_entries::push_own_entries;
use crate::package_extras::{push_extra_requirements, push_package_extras};
use crate::package_requirements::push_requirements;
use pyver_projects::inclusions::NameIndex;
use pyver_projects::place::header_lines;
use pyver_projects::requirement_strings::copy_text;
use pyver_projects::table::{is_array_or_none, items, text, top};
use std::alloc::{AllocError, Global};
use toml::{Table, Value};

// Adds the package, if it has a name.
fn push_package(
    alloc: Global,
    packages: &mut Vec<LockedPackage>,
    line: u64,
    name: Option<&str>,
    version: Option<&str>,
    condition: Option<PackageCondition>,
) -> Result<(), AllocError>
    ensures { IfOk result (λ _. map locked_of packages.new.items ≡ map locked_of packages.old.items ++ package_in line (option_map (λ t. t.now) name.entry) (option_map (λ t. t.now) version.entry) (option_map condition_of_package condition)) }
{
    let Some(name) = name else {
        return Ok(());
    };
    let name = String::from_str(alloc, name)?;
    let version = copy_text(alloc, version)?;
    packages.push(LockedPackage {
        line,
        name,
        version,
        condition,
    })?;
    Ok(())
}

fn push_item(
    alloc: Global,
    packages: &mut Vec<LockedPackage>,
    python: &Option<String>,
    line: u64,
    item: &Value,
) -> Result<(), AllocError>
    ensures { IfOk result (λ _. map locked_of packages.new.items ≡ map locked_of packages.old.items ++ package_from (option_map string_bytes python.now) (line, view item.now)) }
{
    let name = text(item.get("name"));
    let version = text(item.get("version"));
    let condition = package_condition(alloc, python, item)?;
    push_package(alloc, packages, line, name, version, condition)
}

fn line_or_one(lines: &[u64], index: usize) -> u64
    ensures { result ≡ get_or lines.now index 1 }
{
    if index < lines.len() { lines[index] } else { 1 }
}

// What the tables have, with these lines of headers, beside these parts, faults and names.
fn read_tables(
    alloc: Global,
    parts: LockParts,
    faults: Vec<LockFault>,
    counted: &CountedNames<'_>,
    lines: &[u64],
    tables: &[Value],
) -> Result<LockContents, AllocError>
    requires { IsNameIndex counted.now.names }
    ensures { IfOk result (λ found. contents_of found ≡ table_contents counted.now.kind (parts_of parts) (map fault_of faults.items) counted.now.has_markers (option_map string_bytes counted.now.python) (indexed_names counted.now.names) (numbered_tables lines.now 0 (map view tables.now))) }
{
    let mut packages = Vec::new(alloc);
    let mut requirements = Vec::new(alloc);
    let mut extras = Vec::new(alloc);
    let mut entries = Vec::new(alloc);
    let mut files = Vec::new(alloc);
    let mut faults = faults;
    for (index, item) in tables.iter().enumerate() {
        let line = line_or_one(lines, index);
        push_item(alloc, &mut packages, &counted.python, line, item)?;
        push_requirements(alloc, &mut requirements, counted.kind, &parts, line, item)?;
        push_package_extras(alloc, &mut extras, &parts, line, item)?;
        push_own_entries(alloc, &mut entries, counted.kind, line, item)?;
        push_locked_files(alloc, &mut files, line, item)?;
        push_package_faults(alloc, &mut faults, counted, line, item)?;
    }
    let optional = push_extra_requirements(alloc, &mut requirements, extras)?;
    Ok(LockContents {
        parts,
        packages,
        requirements,
        optional,
        entries,
        files,
        faults,
    })
}

// The header of a table at the key.
fn table_header(alloc: Global, key: &str) -> Result<String, AllocError>
    ensures { IfOk result (λ header. string_bytes header ≡ codes "[" ++ (key.now ++ codes "]")) }
{
    let mut header = String::from_str(alloc, "[")?;
    header.push_str(key)?;
    header.push_str("]")?;
    Ok(header)
}

// The number of the line of the header of a table at the key, or 1.
fn table_line(alloc: Global, text: &str, key: &str) -> Result<u64, AllocError>
    ensures { IfOk result (λ line. line ≡ get_or (header_lines (codes "[" ++ (key.now ++ codes "]")) text.now) 0 1) }
{
    let header = table_header(alloc, key)?;
    let lines = header_lines(alloc, header.as_bytes(), text.as_bytes())?;
    Ok(line_or_one(lines.as_slice(), 0))
}

// What is wrong with the value at the key of a lock with this text, which is to be an array of tables.
fn array_faults(
    alloc: Global,
    text: &str,
    key: &str,
    value: Option<&Value>,
) -> Result<Vec<LockFault>, AllocError>
    ensures { IfOk result (λ faults. map fault_of faults.items ≡ array_faults text.now key.now (option_map (λ v. view v.now) value.entry)) }
{
    let mut faults = Vec::new(alloc);
    if is_array_or_none(value) {
        return Ok(faults);
    }
    let line = table_line(alloc, text, key)?;
    push_fault_unless(
        alloc,
        &mut faults,
        false,
        line,
        key,
        "not an array of tables",
    )?;
    Ok(faults)
}

/// What a lock of this kind has, whose text is this document: packages in the array of tables at the key, each at a line that begins with the
/// header, as `[[package]]`.
///
/// Allocates.
pub fn toml_contents(
    alloc: Global,
    kind: LockKind,
    key: &str,
    header: &str,
    text: &str,
    document: &Table,
) -> Result<LockContents, AllocError>
    ensures { IfOk result (λ found. contents_of found ≡ contents kind header.now text.now key.now (table_view document.now)) }
{
    let lines = header_lines(alloc, header.as_bytes(), text.as_bytes())?;
    let found = top(document, key);
    let faults = array_faults(alloc, text, key, found)?;
    let tables = items(found);
    let names = counted_names(alloc, kind, tables)?;
    let python = locked_python(alloc, kind, document)?;
    let counted = CountedNames {
        kind,
        has_markers: has_markers(kind, document),
        python,
        names: NameIndex::new(alloc, names.as_slice())?,
    };
    let parts = lock_parts(alloc, kind, document, tables)?;
    read_tables(alloc, parts, faults, &counted, lines.as_slice(), tables)
}
