//! The strings of `pyproject.toml` in the tables of its standards, and all of a document as they are written.
ghost use Rattle.std.specs.Prelude.{◌≡◌, bytes_eq, option_map, option_to_list, IfOk, map, ◌∷◌, ◌++◌, [], codes, Some, string_bytes, length, nat_eq};
ghost use Rattle.std.specs.List.{list_any, flat_map};
ghost use Rattle.pep440_pick.specs.Names.{normal};
ghost use Rattle.toml.specs.Data.{Data, as_str};
ghost use Rattle.toml.specs.View.{table_view, view};
ghost use Rattle.pyver_projects.specs.ProjectStrings.{Extra, Group, Include, members_list, entries, section_of, project_string_of, IsNameIndex, indexed_names};
ghost use Rattle.pyver_projects.specs.ProjectTables.{written_name, project_names, invalid_name, unless, string_or, text_sources, source_from, array_sources, repeated_name, name_faults, extra_sources, included_name, item_source, item_sources, group_items, group_sources, entry_names, group_names, groups_table, table_fault, optional_sources, field_sources, table_sources, dynamic_source, dynamic_sources, table_faults, build_sources, written_sources};

use crate::inclusions::{NameIndex, group_names, table_names};
use crate::requirement_strings::first_of;
use crate::table::{inside, is_array_or_none, is_table_or_none, items, table, text, top};
use crate::tool_tables::push_tools;
use pep440_pick::{is_name, normalize_name};
use pyver_requirements::Cause;
use std::alloc::{AllocError, Global};
use toml::{Table, Value};

/// Whether the project has this name.
///
/// Allocates nothing.
#[tactic(auto, using(crate::proofs::Walks::or_none))]
pub fn is_project_name(project: &Option<Vec<u8>>, name: &[u8]) -> bool
    ensures { result ≡ list_any (bytes_eq name.now) (option_to_list (option_map (λ n. n.items) project.now)) }
{
    match project {
        Some(project) => name == project.as_slice(),
        None => false,
    }
}

// The name of the project as it is written, by PEP 621 or as Poetry has it.
fn written_name(document: &Table) -> Option<&str>
    ensures { option_map (λ t. t.now) result ≡ written_name (table_view document.now) }
{
    let poetry = inside(top(document, "tool"), "poetry");
    let name = inside(top(document, "project"), "name");
    first_of(text(name), text(inside(poetry, "name")))
}

/// The name of the project in its normal form, if it has one.
///
/// Allocates.
pub fn project_name(alloc: Global, document: &Table) -> Result<Option<Vec<u8>>, AllocError>
    ensures { IfOk result (λ name. option_to_list (option_map (λ n. n.items) name) ≡ project_names (table_view document.now)) }
{
    match written_name(document) {
        Some(name) => Ok(Some(normalize_name(alloc, name)?)),
        None => Ok(None),
    }
}

/// The part of `pyproject.toml` that a string stands in. Names of extras and groups are in their normal form; the key of an entry is
/// as it is written.
#[derive(Drop)]
pub enum Section {
    /// In `project.dependencies`.
    Dependencies,
    /// In `project.optional-dependencies`, in the array of this extra.
    Extra(Vec<u8>),
    /// In the array of this group: in `dependency-groups` (PEP 735), or in `dev-dependencies` of `tool.uv` (`dev`) or `tool.pdm`.
    Group(Vec<u8>),
    /// There, as the name of a group that is included: this group includes that one.
    Include(Vec<u8>, Vec<u8>),
    /// As a request for these extras of the project itself, which this extra includes, if one does.
    OwnExtras(Option<Vec<u8>>, Vec<Vec<u8>>),
    /// As the name of a value in the table with this path that is invalid for this reason.
    Invalid(Vec<u8>, &'static str),
    /// As what this key of Poetry's table with this path asks for.
    Entry(Vec<u8>, Vec<u8>),
    /// In uv's `constraint-dependencies` or `override-dependencies`.
    Constraint,
    /// As what is not read for this cause.
    Unread(Cause),
    /// In `build-system.requires`.
    Build,
    /// `project.requires-python`.
    Python,
    /// `project.version`.
    Version,
}

/// A string, and the part that it stands in: it is to be a requirement, of an `Entry` one made of it, a list of specifiers or a version. It is a
/// name for `Include` and `Invalid`, and empty for `Unread`.
#[derive(Drop)]
pub struct ProjectString {
    pub section: Section,
    pub text: String,
}

/// A copy of the name, if there is one.
///
/// Allocates.
pub fn copy_name(name: &Option<Vec<u8>>) -> Result<Option<Vec<u8>>, AllocError>
    ensures { IfOk result (λ copy. option_map (λ n. n.items) copy ≡ option_map (λ n. n.items) name.now) }
{
    match name {
        Some(name) => Ok(Some(name.clone()?)),
        None => Ok(None),
    }
}

/// A copy of the names.
///
/// Allocates.
pub fn copy_names(names: &Vec<Vec<u8>>) -> Result<Vec<Vec<u8>>, AllocError>
    ensures { IfOk result (λ copy. map (λ n. n.items) copy.items ≡ map (λ n. n.items) names.now.items) }
{
    Ok(names.clone()?)
}

impl Clone for Section {
    ghost is_clone = { λ section copy. section_of copy ≡ section_of section };

    fn clone(&self) -> Result<Section, AllocError> {
        match self {
            Section::Dependencies => Ok(Section::Dependencies),
            Section::Extra(name) => Ok(Section::Extra(name.clone()?)),
            Section::Group(name) => Ok(Section::Group(name.clone()?)),
            Section::Include(group, included) => {
                Ok(Section::Include(group.clone()?, included.clone()?))
            }
            Section::OwnExtras(asker, extras) => {
                Ok(Section::OwnExtras(copy_name(asker)?, copy_names(extras)?))
            }
            Section::Invalid(table, reason) => Ok(Section::Invalid(table.clone()?, *reason)),
            Section::Entry(table, name) => Ok(Section::Entry(table.clone()?, name.clone()?)),
            Section::Constraint => Ok(Section::Constraint),
            Section::Unread(cause) => Ok(Section::Unread(*cause)),
            Section::Build => Ok(Section::Build),
            Section::Python => Ok(Section::Python),
            Section::Version => Ok(Section::Version),
        }
    }
}

pub(crate) fn push_string(
    alloc: Global,
    sources: &mut Vec<ProjectString>,
    section: Section,
    text: &str,
) -> Result<(), AllocError>
    ensures { IfOk result (λ _. map project_string_of sources.new.items ≡ map project_string_of sources.old.items ++ record { section = section_of section; text = text.now } ∷ []) }
{
    let text = String::from_str(alloc, text)?;
    sources.push(ProjectString { section, text })?;
    Ok(())
}

// Adds the name of a value in the table with this path, which is invalid for this reason.
fn push_invalid(
    alloc: Global,
    sources: &mut Vec<ProjectString>,
    table: &[u8],
    name: &str,
    reason: &'static str,
) -> Result<(), AllocError>
    ensures { IfOk result (λ _. map project_string_of sources.new.items ≡ map project_string_of sources.old.items ++ invalid_name table.now name.now reason.now) }
{
    let table = Vec::from_slice(alloc, table)?;
    push_string(alloc, sources, Section::Invalid(table, reason), name)
}

// Adds the name for this reason, unless it is right.
fn push_unless(
    alloc: Global,
    sources: &mut Vec<ProjectString>,
    is_right: bool,
    table: &'static str,
    name: &str,
    reason: &'static str,
) -> Result<(), AllocError>
    ensures { IfOk result (λ _. map project_string_of sources.new.items ≡ map project_string_of sources.old.items ++ unless is_right table.now name.now reason.now) }
{
    if is_right {
        return Ok(());
    }
    push_invalid(alloc, sources, table.as_bytes(), name, reason)
}

// Adds the string, or the name for this reason, if there is none.
fn push_string_or(
    alloc: Global,
    sources: &mut Vec<ProjectString>,
    table: &'static str,
    name: &str,
    reason: &'static str,
    section: &Section,
    text: Option<&str>,
) -> Result<(), AllocError>
    ensures { IfOk result (λ _. map project_string_of sources.new.items ≡ map project_string_of sources.old.items ++ string_or table.now name.now reason.now (section_of section.now) (option_map (λ t. t.now) text.entry)) }
{
    match text {
        Some(text) => push_string(alloc, sources, section.clone()?, text),
        None => push_invalid(alloc, sources, table.as_bytes(), name, reason),
    }
}

// Adds the string at this name, if there is a value.
fn push_text(
    alloc: Global,
    sources: &mut Vec<ProjectString>,
    table: &'static str,
    name: &str,
    section: &Section,
    value: Option<&Value>,
) -> Result<(), AllocError>
    ensures { IfOk result (λ _. map project_string_of sources.new.items ≡ map project_string_of sources.old.items ++ text_sources table.now name.now (section_of section.now) (option_map (λ v. view v.now) value.entry)) }
{
    match value {
        Some(value) => {
            push_string_or(
                alloc,
                sources,
                table,
                name,
                "not a string",
                section,
                value.as_str(),
            )
        }
        None => Ok(()),
    }
}

// Adds the strings of an array that is to have no other items.
fn push_strings(
    alloc: Global,
    sources: &mut Vec<ProjectString>,
    table: &'static str,
    name: &str,
    section: &Section,
    found: &[Value],
) -> Result<(), AllocError>
    ensures { IfOk result (λ _. map project_string_of sources.new.items ≡ map project_string_of sources.old.items ++ flat_map (source_from table.now name.now (section_of section.now)) (map view found.now)) }
{
    let reason = "not an array of strings";
    for item in found {
        push_string_or(alloc, sources, table, name, reason, section, item.as_str())?;
    }
    Ok(())
}

// Adds the strings of the array at this name, if there is a value.
pub(crate) fn push_array(
    alloc: Global,
    sources: &mut Vec<ProjectString>,
    table: &'static str,
    name: &str,
    section: &Section,
    value: Option<&Value>,
) -> Result<(), AllocError>
    ensures { IfOk result (λ _. map project_string_of sources.new.items ≡ map project_string_of sources.old.items ++ array_sources table.now name.now (section_of section.now) (option_map (λ v. view v.now) value.entry)) }
{
    let is_right = is_array_or_none(value);
    push_unless(
        alloc,
        sources,
        is_right,
        table,
        name,
        "not an array of strings",
    )?;
    push_strings(alloc, sources, table, name, section, items(value))
}

// Adds the name for this reason, if another one of these is the same.
fn push_duplicate(
    alloc: Global,
    sources: &mut Vec<ProjectString>,
    table: &'static str,
    names: &NameIndex<'_>,
    name: &str,
    reason: &'static str,
) -> Result<(), AllocError>
    requires { IsNameIndex names.now }
    ensures { IfOk result (λ _. map project_string_of sources.new.items ≡ map project_string_of sources.old.items ++ repeated_name table.now reason.now (indexed_names names.now) name.now) }
{
    let normal = normalize_name(alloc, name)?;
    let is_alone = !names.has_twice(normal.as_slice());
    push_unless(alloc, sources, is_alone, table, name, reason)
}

// Adds the name, if it is none; and for this reason, if another one of these is the same.
fn push_name_faults(
    alloc: Global,
    sources: &mut Vec<ProjectString>,
    table: &'static str,
    names: &NameIndex<'_>,
    name: &str,
    reason: &'static str,
) -> Result<(), AllocError>
    requires { IsNameIndex names.now }
    ensures { IfOk result (λ _. map project_string_of sources.new.items ≡ map project_string_of sources.old.items ++ name_faults table.now reason.now (indexed_names names.now) name.now) }
{
    push_unless(
        alloc,
        sources,
        is_name(name),
        table,
        name,
        "not a valid name",
    )?;
    push_duplicate(alloc, sources, table, names, name, reason)
}

// Adds the strings of the extra with this name.
fn push_extra_items(
    alloc: Global,
    sources: &mut Vec<ProjectString>,
    name: &str,
    value: &Value,
) -> Result<(), AllocError>
    ensures { IfOk result (λ _. map project_string_of sources.new.items ≡ map project_string_of sources.old.items ++ array_sources (codes "project.optional-dependencies.") name.now (Extra (normal name.now)) (Some (view value.now))) }
{
    let section = Section::Extra(normalize_name(alloc, name)?);
    push_array(
        alloc,
        sources,
        "project.optional-dependencies.",
        name,
        &section,
        Some(value),
    )
}

fn push_extra(
    alloc: Global,
    sources: &mut Vec<ProjectString>,
    names: &NameIndex<'_>,
    name: &String,
    value: &Value,
) -> Result<(), AllocError>
    requires { IsNameIndex names.now }
    ensures { IfOk result (λ _. map project_string_of sources.new.items ≡ map project_string_of sources.old.items ++ extra_sources (indexed_names names.now) (string_bytes name.now, view value.now)) }
{
    let reason = "another extra has this name";
    push_name_faults(
        alloc,
        sources,
        "project.optional-dependencies.",
        names,
        name.as_str(),
        reason,
    )?;
    push_extra_items(alloc, sources, name.as_str(), value)
}

fn group_section(alloc: Global, name: &str) -> Result<Section, AllocError>
    ensures { IfOk result (λ section. section_of section ≡ Group (normal name.now)) }
{
    Ok(Section::Group(normalize_name(alloc, name)?))
}

fn include_section(alloc: Global, name: &str, included: &str) -> Result<Section, AllocError>
    ensures { IfOk result (λ section. section_of section ≡ Include (normal name.now) (normal included.now)) }
{
    let group = normalize_name(alloc, name)?;
    Ok(Section::Include(group, normalize_name(alloc, included)?))
}

// The table has one key.
#[tactic(auto, using(crate::proofs::Walks::members_length))]
fn has_one_key(table: &Table) -> bool
    ensures { result ≡ nat_eq (length (members_list (table_view table.now))) 1 }
{
    table.len() == 1
}

// The name of the group that the item includes: it is a table with the key `include-group` only.
fn included_name(item: &Value) -> Option<&str>
    ensures { option_map (λ t. t.now) result ≡ included_name (view item.now) }
{
    match table(Some(item)) {
        Some(keys) if has_one_key(keys) => text(item.get("include-group")),
        _ => None,
    }
}

// Adds an item of the group with this name: a string, or the name of a group that it includes, or neither.
fn push_item_source(
    alloc: Global,
    sources: &mut Vec<ProjectString>,
    name: &str,
    text: Option<&str>,
    included: Option<&str>,
) -> Result<(), AllocError>
    ensures { IfOk result (λ _. map project_string_of sources.new.items ≡ map project_string_of sources.old.items ++ item_source name.now (option_map (λ t. t.now) text.entry) (option_map (λ t. t.now) included.entry)) }
{
    let reason = "an item is neither a requirement nor an included group";
    match (text, included) {
        (Some(text), _) => push_string(alloc, sources, group_section(alloc, name)?, text),
        (None, Some(included)) => {
            let section = include_section(alloc, name, included)?;
            push_string(alloc, sources, section, included)
        }
        (None, None) => push_invalid(alloc, sources, b"dependency-groups.", name, reason),
    }
}

fn push_items(
    alloc: Global,
    sources: &mut Vec<ProjectString>,
    name: &str,
    found: &[Value],
) -> Result<(), AllocError>
    ensures { IfOk result (λ _. map project_string_of sources.new.items ≡ map project_string_of sources.old.items ++ flat_map (item_sources name.now) (map view found.now)) }
{
    for item in found {
        push_item_source(alloc, sources, name, item.as_str(), included_name(item))?;
    }
    Ok(())
}

// Adds the items of the group with this name.
fn push_group_items(
    alloc: Global,
    sources: &mut Vec<ProjectString>,
    name: &str,
    value: &Value,
) -> Result<(), AllocError>
    ensures { IfOk result (λ _. map project_string_of sources.new.items ≡ map project_string_of sources.old.items ++ group_items name.now (view value.now)) }
{
    let is_right = is_array_or_none(Some(value));
    push_unless(
        alloc,
        sources,
        is_right,
        "dependency-groups.",
        name,
        "not an array",
    )?;
    push_items(alloc, sources, name, items(Some(value)))
}

fn push_group(
    alloc: Global,
    sources: &mut Vec<ProjectString>,
    names: &NameIndex<'_>,
    name: &String,
    value: &Value,
) -> Result<(), AllocError>
    requires { IsNameIndex names.now }
    ensures { IfOk result (λ _. map project_string_of sources.new.items ≡ map project_string_of sources.old.items ++ group_sources (indexed_names names.now) (string_bytes name.now, view value.now)) }
{
    let reason = "another group has this name";
    push_name_faults(
        alloc,
        sources,
        "dependency-groups.",
        names,
        name.as_str(),
        reason,
    )?;
    push_group_items(alloc, sources, name.as_str(), value)
}

fn push_extras(
    alloc: Global,
    sources: &mut Vec<ProjectString>,
    names: &NameIndex<'_>,
    extras: &Table,
) -> Result<(), AllocError>
    requires { IsNameIndex names.now }
    ensures { IfOk result (λ _. map project_string_of sources.new.items ≡ map project_string_of sources.old.items ++ flat_map (extra_sources (indexed_names names.now)) (members_list (table_view extras.now))) }
{
    for (name, value) in extras.iter() {
        push_extra(alloc, sources, names, name, value)?;
    }
    Ok(())
}

fn push_extras_table(
    alloc: Global,
    sources: &mut Vec<ProjectString>,
    extras: &Table,
) -> Result<(), AllocError>
    ensures { IfOk result (λ _. map project_string_of sources.new.items ≡ map project_string_of sources.old.items ++ flat_map (extra_sources (entry_names (members_list (table_view extras.now)))) (members_list (table_view extras.now))) }
{
    let names = table_names(alloc, extras)?;
    let names = NameIndex::new(alloc, names.as_slice())?;
    push_extras(alloc, sources, &names, extras)
}

fn push_groups(
    alloc: Global,
    sources: &mut Vec<ProjectString>,
    names: &NameIndex<'_>,
    groups: &Table,
) -> Result<(), AllocError>
    requires { IsNameIndex names.now }
    ensures { IfOk result (λ _. map project_string_of sources.new.items ≡ map project_string_of sources.old.items ++ flat_map (group_sources (indexed_names names.now)) (members_list (table_view groups.now))) }
{
    for (name, value) in groups.iter() {
        push_group(alloc, sources, names, name, value)?;
    }
    Ok(())
}

fn push_all_extras(
    alloc: Global,
    sources: &mut Vec<ProjectString>,
    value: Option<&Value>,
) -> Result<(), AllocError>
    ensures { IfOk result (λ _. map project_string_of sources.new.items ≡ map project_string_of sources.old.items ++ flat_map (extra_sources (entry_names (entries (option_map (λ v. view v.now) value.entry)))) (entries (option_map (λ v. view v.now) value.entry))) }
{
    match table(value) {
        Some(extras) => push_extras_table(alloc, sources, extras),
        None => Ok(()),
    }
}

fn push_all_groups(
    alloc: Global,
    sources: &mut Vec<ProjectString>,
    document: &Table,
) -> Result<(), AllocError>
    ensures { IfOk result (λ _. map project_string_of sources.new.items ≡ map project_string_of sources.old.items ++ flat_map (group_sources (group_names (table_view document.now))) (groups_table (table_view document.now))) }
{
    let names = group_names(alloc, document)?;
    let names = NameIndex::new(alloc, names.as_slice())?;
    match table(top(document, "dependency-groups")) {
        Some(groups) => push_groups(alloc, sources, &names, groups),
        None => Ok(()),
    }
}

// Adds the name, if the value is no table.
fn push_table_fault(
    alloc: Global,
    sources: &mut Vec<ProjectString>,
    table: &'static str,
    name: &str,
    value: Option<&Value>,
) -> Result<(), AllocError>
    ensures { IfOk result (λ _. map project_string_of sources.new.items ≡ map project_string_of sources.old.items ++ table_fault table.now name.now (option_map (λ v. view v.now) value.entry)) }
{
    push_unless(
        alloc,
        sources,
        is_table_or_none(value),
        table,
        name,
        "not a table",
    )
}

// Adds the strings of the extras.
fn push_optional(
    alloc: Global,
    sources: &mut Vec<ProjectString>,
    extras: Option<&Value>,
) -> Result<(), AllocError>
    ensures { IfOk result (λ _. map project_string_of sources.new.items ≡ map project_string_of sources.old.items ++ optional_sources (option_map (λ v. view v.now) extras.entry)) }
{
    push_table_fault(alloc, sources, "project.", "optional-dependencies", extras)?;
    push_all_extras(alloc, sources, extras)
}

// Adds the two fields of the table `project` that are strings.
fn push_fields(
    alloc: Global,
    sources: &mut Vec<ProjectString>,
    project: Option<&Value>,
) -> Result<(), AllocError>
    ensures { IfOk result (λ _. map project_string_of sources.new.items ≡ map project_string_of sources.old.items ++ field_sources (option_map (λ v. view v.now) project.entry)) }
{
    let python = inside(project, "requires-python");
    push_text(
        alloc,
        sources,
        "project.",
        "requires-python",
        &Section::Python,
        python,
    )?;
    let version = inside(project, "version");
    push_text(
        alloc,
        sources,
        "project.",
        "version",
        &Section::Version,
        version,
    )
}

// Adds the strings of the table `project`.
fn push_project(
    alloc: Global,
    sources: &mut Vec<ProjectString>,
    project: Option<&Value>,
) -> Result<(), AllocError>
    ensures { IfOk result (λ _. map project_string_of sources.new.items ≡ map project_string_of sources.old.items ++ table_sources (option_map (λ v. view v.now) project.entry)) }
{
    let name = "dependencies";
    push_array(
        alloc,
        sources,
        "project.",
        name,
        &Section::Dependencies,
        inside(project, name),
    )?;
    push_optional(alloc, sources, inside(project, "optional-dependencies"))?;
    push_fields(alloc, sources, project)
}

// Adds an item of `dynamic`, if it is no string, or names a field that the table has.
fn push_dynamic_item(
    alloc: Global,
    sources: &mut Vec<ProjectString>,
    project: Option<&Value>,
    name: Option<&str>,
) -> Result<(), AllocError>
    ensures { IfOk result (λ _. map project_string_of sources.new.items ≡ map project_string_of sources.old.items ++ dynamic_source (option_map (λ v. view v.now) project.entry) (option_map (λ t. t.now) name.entry)) }
{
    let reason = "not an array of strings";
    match name {
        Some(name) => {
            let is_right = inside(project, name).is_none();
            push_unless(
                alloc,
                sources,
                is_right,
                "project.dynamic.",
                name,
                "both dynamic and given",
            )
        }
        None => push_invalid(alloc, sources, b"project.", "dynamic", reason),
    }
}

fn push_dynamic_items(
    alloc: Global,
    sources: &mut Vec<ProjectString>,
    project: Option<&Value>,
    found: &[Value],
) -> Result<(), AllocError>
    ensures { IfOk result (λ _. map project_string_of sources.new.items ≡ map project_string_of sources.old.items ++ flat_map (λ (d : Data). dynamic_source (option_map (λ v. view v.now) project.entry) (as_str d)) (map view found.now)) }
{
    for item in found {
        push_dynamic_item(alloc, sources, project, item.as_str())?;
    }
    Ok(())
}

// Adds what is wrong with the fields that the table `project` says to be dynamic.
fn push_dynamic(
    alloc: Global,
    sources: &mut Vec<ProjectString>,
    project: Option<&Value>,
) -> Result<(), AllocError>
    ensures { IfOk result (λ _. map project_string_of sources.new.items ≡ map project_string_of sources.old.items ++ dynamic_sources (option_map (λ v. view v.now) project.entry)) }
{
    let dynamic = inside(project, "dynamic");
    let is_right = is_array_or_none(dynamic);
    push_unless(
        alloc,
        sources,
        is_right,
        "project.",
        "dynamic",
        "not an array of strings",
    )?;
    push_dynamic_items(alloc, sources, project, items(dynamic))
}

// Adds the names of tables that are none.
fn push_table_faults(
    alloc: Global,
    sources: &mut Vec<ProjectString>,
    document: &Table,
) -> Result<(), AllocError>
    ensures { IfOk result (λ _. map project_string_of sources.new.items ≡ map project_string_of sources.old.items ++ table_faults (table_view document.now)) }
{
    push_table_fault(alloc, sources, "", "project", top(document, "project"))?;
    let groups = top(document, "dependency-groups");
    push_table_fault(alloc, sources, "", "dependency-groups", groups)?;
    let build = top(document, "build-system");
    push_table_fault(alloc, sources, "", "build-system", build)
}

// Adds what the build requires.
fn push_build(
    alloc: Global,
    sources: &mut Vec<ProjectString>,
    document: &Table,
) -> Result<(), AllocError>
    ensures { IfOk result (λ _. map project_string_of sources.new.items ≡ map project_string_of sources.old.items ++ build_sources (table_view document.now)) }
{
    let build = inside(top(document, "build-system"), "requires");
    push_array(
        alloc,
        sources,
        "build-system.",
        "requires",
        &Section::Build,
        build,
    )
}

// The strings of `pyproject.toml` as they are written.
pub(crate) fn written_strings(
    alloc: Global,
    document: &Table,
) -> Result<Vec<ProjectString>, AllocError>
    ensures { IfOk result (λ found. map project_string_of found.items ≡ written_sources (table_view document.now)) }
{
    let mut found = Vec::new(alloc);
    push_table_faults(alloc, &mut found, document)?;
    push_project(alloc, &mut found, top(document, "project"))?;
    push_dynamic(alloc, &mut found, top(document, "project"))?;
    push_all_groups(alloc, &mut found, document)?;
    push_tools(alloc, &mut found, top(document, "tool"))?;
    push_build(alloc, &mut found, document)?;
    Ok(found)
}
