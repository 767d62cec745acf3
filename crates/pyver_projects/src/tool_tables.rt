//! What tables of tools in `pyproject.toml` ask for, and what they override.
ghost use Rattle.std.specs.Prelude.{◌≡◌, option_map, IfOk, string_bytes, ◌++◌, map, Some, codes};
ghost use Rattle.std.specs.List.{flat_map, list_any};
ghost use Rattle.pep440_pick.specs.Names.{normal};
ghost use Rattle.pep440_rs.specs.Blanks.{opens};
ghost use Rattle.toml.specs.Data.{Data, as_str};
ghost use Rattle.toml.specs.View.{view, table_view};
ghost use Rattle.pyver_projects.specs.ProjectStrings.{Entry, members_list, listed, key_path, Group, inside, entries, section_of, project_string_of};
ghost use Rattle.pyver_projects.specs.ProjectTables.{table_list, entry_list, is_package_name, unread, listed_source, entry_source, each_source, entry_sources, tool_table, is_editable, group_path, tool_group, array_sources, tool_groups, poetry_sources, dev_sources, unread_table, unread_tables, unread_fields, unread_environments, added_sources, constraint_sources, tool_sources, leading_name, entry_names, pdm_names, overridden_names};
ghost use Rattle.pyver_projects.specs.RequirementStrings.{marked_text};
ghost use Rattle.pyver_projects.specs.declared.tool_tables.GroupTool.TheVariants as of_tool;

use crate::inclusions::table_names;
use crate::place::key_path;
use crate::poetry_marker::{entry_marker, has_conditions};
use crate::project::{ProjectString, Section, push_array, push_string};
use crate::requirement_strings::{name_with_extras, poetry_list, requirement_text};
use crate::table::{inside, items, listed_strings, table, text, top};
use pep440_pick::{is_name, normalize_name, split_name};
use pyver_requirements::Cause;
use std::alloc::{AllocError, Global};
use toml::{Table, Value};

// ---- tables of Poetry

// The list of a table, or `*`.
fn table_list(entry: &Value) -> Option<&str>
    ensures { option_map (λ t. t.now) result ≡ table_list (view entry.now) }
{
    if !has_conditions(entry) {
        return None;
    }
    match text(entry.get("version")) {
        Some(list) => Some(list),
        None => Some("*"),
    }
}

// The list of an entry: a string, or a table.
fn entry_list(entry: &Value) -> Option<&str>
    ensures { option_map (λ t. t.now) result ≡ entry_list (view entry.now) }
{
    if let Some(list) = entry.as_str() {
        return Some(list);
    }
    match entry.as_table() {
        Some(_) => table_list(entry),
        None => None,
    }
}

fn is_package_name(name: &str) -> bool
    ensures { result ≡ is_package_name name.now }
{
    is_name(name) && name != "python"
}

fn entry_section(alloc: Global, table: &[u8], name: &str) -> Result<Section, AllocError>
    ensures { IfOk result (λ section. section_of section ≡ Entry table.now name.now) }
{
    let table = Vec::from_slice(alloc, table)?;
    let name = Vec::from_slice(alloc, name.as_bytes())?;
    Ok(Section::Entry(table, name))
}

// Adds that it is not read for this cause.
fn push_unread(
    alloc: Global,
    sources: &mut Vec<ProjectString>,
    cause: Cause,
) -> Result<(), AllocError>
    ensures { IfOk result (λ _. map project_string_of sources.new.items ≡ map project_string_of sources.old.items ++ unread cause) }
{
    push_string(alloc, sources, Section::Unread(cause), "")
}

// The requirement under the marker, if there is one.
fn marked_text(requirement: String, marker: &str) -> Result<String, AllocError>
    ensures { IfOk result (λ text. string_bytes text ≡ marked_text (string_bytes requirement) marker.now) }
{
    let mut text = requirement;
    if !marker.is_empty() {
        text.push_str("; ")?;
        text.push_str(marker)?;
    }
    Ok(text)
}

// Adds the entry of this name with these extras, this list and this marker, or that it is not read.
fn push_listed(
    alloc: Global,
    sources: &mut Vec<ProjectString>,
    table: &[u8],
    name: &str,
    extras: &[String],
    marker: &str,
    list: Option<&str>,
) -> Result<(), AllocError>
    ensures { IfOk result (λ _. map project_string_of sources.new.items ≡ map project_string_of sources.old.items ++ listed_source table.now name.now (map string_bytes extras.now) marker.now (option_map (λ t. t.now) list.entry)) }
{
    let Some(list) = list else {
        return push_unread(alloc, sources, Cause::OtherSyntax);
    };
    let list = poetry_list(alloc, list)?;
    let full_name = name_with_extras(alloc, name, extras)?;
    let text = requirement_text(alloc, full_name.as_str(), list.as_str())?;
    let text = marked_text(text, marker)?;
    let section = entry_section(alloc, table, name)?;
    push_string(alloc, sources, section, text.as_str())
}

fn push_entry(
    alloc: Global,
    sources: &mut Vec<ProjectString>,
    table: &[u8],
    name: &str,
    entry: &Value,
) -> Result<(), AllocError>
    ensures { IfOk result (λ _. map project_string_of sources.new.items ≡ map project_string_of sources.old.items ++ entry_source table.now name.now (view entry.now)) }
{
    let extras = listed_strings(alloc, entry.get("extras"))?;
    let marker = entry_marker(alloc, entry)?;
    push_listed(
        alloc,
        sources,
        table,
        name,
        extras.as_slice(),
        marker.as_str(),
        entry_list(entry),
    )
}

fn push_items(
    alloc: Global,
    sources: &mut Vec<ProjectString>,
    table: &[u8],
    name: &str,
    found: &[Value],
) -> Result<(), AllocError>
    ensures { IfOk result (λ _. map project_string_of sources.new.items ≡ map project_string_of sources.old.items ++ flat_map (entry_source table.now name.now) (map view found.now)) }
{
    for entry in found {
        push_entry(alloc, sources, table, name, entry)?;
    }
    Ok(())
}

// Adds what an array of entries asks for, or another value, which is one.
fn push_each(
    alloc: Global,
    sources: &mut Vec<ProjectString>,
    table: &[u8],
    name: &str,
    value: &Value,
) -> Result<(), AllocError>
    ensures { IfOk result (λ _. map project_string_of sources.new.items ≡ map project_string_of sources.old.items ++ each_source table.now name.now (view value.now)) }
{
    if value.as_array().is_some() {
        return push_items(alloc, sources, table, name, items(Some(value)));
    }
    push_entry(alloc, sources, table, name, value)
}

// Adds what the entry asks for.
#[tactic(auto, unfolding(crate::specs::ProjectTables::entry_sources))]
fn push_named(
    alloc: Global,
    sources: &mut Vec<ProjectString>,
    table: &[u8],
    name: &String,
    value: &Value,
) -> Result<(), AllocError>
    ensures { IfOk result (λ _. map project_string_of sources.new.items ≡ map project_string_of sources.old.items ++ entry_sources table.now (string_bytes name.now, view value.now)) }
{
    if !is_package_name(name.as_str()) {
        return Ok(());
    }
    push_each(alloc, sources, table, name.as_str(), value)
}

fn push_entries(
    alloc: Global,
    sources: &mut Vec<ProjectString>,
    path: &[u8],
    found: &Table,
) -> Result<(), AllocError>
    ensures { IfOk result (λ _. map project_string_of sources.new.items ≡ map project_string_of sources.old.items ++ flat_map (entry_sources path.now) (members_list (table_view found.now))) }
{
    for (name, entry) in found.iter() {
        push_named(alloc, sources, path, name, entry)?;
    }
    Ok(())
}

// Adds the entries of the table with this path.
fn push_tool_table(
    alloc: Global,
    sources: &mut Vec<ProjectString>,
    path: &[u8],
    value: Option<&Value>,
) -> Result<(), AllocError>
    ensures { IfOk result (λ _. map project_string_of sources.new.items ≡ map project_string_of sources.old.items ++ tool_table path.now (option_map (λ v. view v.now) value.entry)) }
{
    match table(value) {
        Some(found) => push_entries(alloc, sources, path, found),
        None => Ok(()),
    }
}

// ---- groups

// The tool that has a table of groups.
#[derive(Clone, Copy)]
enum GroupTool {
    Poetry,
    Pdm,
}

fn any_editable(found: &[Value]) -> bool
    ensures { result ≡ list_any (λ v. is_editable (view v)) found.now }
{
    found.iter().any(|item| is_editable(item))
}

// An item is an editable of PDM.
#[tactic(auto, using(pyver_requirements::proofs::Grouped::any_viewed))]
fn has_editable(group: &Value) -> bool
    ensures { result ≡ list_any is_editable (listed (Some (view group.now))) }
{
    any_editable(items(Some(group)))
}

fn is_editable(item: &Value) -> bool
    ensures { result ≡ is_editable (view item.now) }
{
    match item.as_str() {
        Some(text) => opens_option(text),
        None => false,
    }
}

fn opens_option(text: &str) -> bool
    ensures { result ≡ opens 45 text.now }
{
    matches!(text.as_bytes(), [b'-', ..])
}

// The path of a key in the table, and of what stands in its table.
fn nested_path(alloc: Global, table: &[u8], key: &[u8], inner: &[u8]) -> Result<Vec<u8>, AllocError>
    ensures { IfOk result (λ path. path.items ≡ key_path table.now key.now ++ inner.now) }
{
    let mut path = key_path(alloc, table, key)?;
    path.extend_from_slice(inner)?;
    Ok(path)
}

fn group_path(alloc: Global, name: &str) -> Result<Vec<u8>, AllocError>
    ensures { IfOk result (λ path. path.items ≡ group_path name.now) }
{
    nested_path(
        alloc,
        b"tool.poetry.group.",
        name.as_bytes(),
        b"dependencies.",
    )
}

fn push_poetry_group(
    alloc: Global,
    sources: &mut Vec<ProjectString>,
    name: &str,
    group: &Value,
) -> Result<(), AllocError>
    ensures { IfOk result (λ _. map project_string_of sources.new.items ≡ map project_string_of sources.old.items ++ tool_group of_tool.Poetry (name.now, view group.now)) }
{
    let path = group_path(alloc, name)?;
    let value = group.get("dependencies");
    push_tool_table(alloc, sources, path.as_slice(), value)
}

// Adds the requirements of a group of PDM.
fn push_pdm_array(
    alloc: Global,
    sources: &mut Vec<ProjectString>,
    name: &str,
    group: &Value,
) -> Result<(), AllocError>
    ensures { IfOk result (λ _. map project_string_of sources.new.items ≡ map project_string_of sources.old.items ++ array_sources (codes "tool.pdm.dev-dependencies.") name.now (Group (normal name.now)) (Some (view group.now))) }
{
    let section = Section::Group(normalize_name(alloc, name)?);
    push_array(
        alloc,
        sources,
        "tool.pdm.dev-dependencies.",
        name,
        &section,
        Some(group),
    )
}

fn push_pdm_group(
    alloc: Global,
    sources: &mut Vec<ProjectString>,
    name: &str,
    group: &Value,
) -> Result<(), AllocError>
    ensures { IfOk result (λ _. map project_string_of sources.new.items ≡ map project_string_of sources.old.items ++ tool_group of_tool.Pdm (name.now, view group.now)) }
{
    if has_editable(group) {
        return push_unread(alloc, sources, Cause::Editable);
    }
    push_pdm_array(alloc, sources, name, group)
}

fn push_group(
    alloc: Global,
    sources: &mut Vec<ProjectString>,
    tool: GroupTool,
    name: &String,
    group: &Value,
) -> Result<(), AllocError>
    ensures { IfOk result (λ _. map project_string_of sources.new.items ≡ map project_string_of sources.old.items ++ tool_group tool (string_bytes name.now, view group.now)) }
{
    match tool {
        GroupTool::Poetry => push_poetry_group(alloc, sources, name.as_str(), group),
        GroupTool::Pdm => push_pdm_group(alloc, sources, name.as_str(), group),
    }
}

fn push_table_groups(
    alloc: Global,
    sources: &mut Vec<ProjectString>,
    tool: GroupTool,
    groups: &Table,
) -> Result<(), AllocError>
    ensures { IfOk result (λ _. map project_string_of sources.new.items ≡ map project_string_of sources.old.items ++ flat_map (tool_group tool) (members_list (table_view groups.now))) }
{
    for (name, group) in groups.iter() {
        push_group(alloc, sources, tool, name, group)?;
    }
    Ok(())
}

// Adds what the groups in the table ask for.
fn push_groups(
    alloc: Global,
    sources: &mut Vec<ProjectString>,
    tool: GroupTool,
    groups: Option<&Value>,
) -> Result<(), AllocError>
    ensures { IfOk result (λ _. map project_string_of sources.new.items ≡ map project_string_of sources.old.items ++ tool_groups tool (option_map (λ v. view v.now) groups.entry)) }
{
    match table(groups) {
        Some(groups) => push_table_groups(alloc, sources, tool, groups),
        None => Ok(()),
    }
}

// ---- tools

// Adds what Poetry's tables ask for.
fn push_poetry(
    alloc: Global,
    sources: &mut Vec<ProjectString>,
    poetry: Option<&Value>,
) -> Result<(), AllocError>
    ensures { IfOk result (λ _. map project_string_of sources.new.items ≡ map project_string_of sources.old.items ++ poetry_sources (option_map (λ v. view v.now) poetry.entry)) }
{
    let path = b"tool.poetry.dependencies.";
    push_tool_table(alloc, sources, path, inside(poetry, "dependencies"))?;
    let path = b"tool.poetry.dev-dependencies.";
    push_tool_table(alloc, sources, path, inside(poetry, "dev-dependencies"))?;
    push_groups(alloc, sources, GroupTool::Poetry, inside(poetry, "group"))
}

// The name of the group to which uv adds.
fn dev_name(alloc: Global) -> Result<Vec<u8>, AllocError>
    ensures { IfOk result (λ name. name.items ≡ codes "dev") }
{
    Vec::from_slice(alloc, b"dev")
}

// Adds what uv adds to the group `dev`.
fn push_dev(
    alloc: Global,
    sources: &mut Vec<ProjectString>,
    uv: Option<&Value>,
) -> Result<(), AllocError>
    ensures { IfOk result (λ _. map project_string_of sources.new.items ≡ map project_string_of sources.old.items ++ dev_sources (option_map (λ v. view v.now) uv.entry)) }
{
    let name = "dev-dependencies";
    let section = Section::Group(dev_name(alloc)?);
    push_array(alloc, sources, "tool.uv.", name, &section, inside(uv, name))
}

// ---- tables that are not read

fn push_unread_table(
    alloc: Global,
    sources: &mut Vec<ProjectString>,
    value: Option<&Value>,
) -> Result<(), AllocError>
    ensures { IfOk result (λ _. map project_string_of sources.new.items ≡ map project_string_of sources.old.items ++ unread_table (option_map (λ v. view v.now) value.entry)) }
{
    match value {
        Some(_) => push_unread(alloc, sources, Cause::OtherTable),
        None => Ok(()),
    }
}

// Adds the tables of Pixi.
fn push_unread_tables(
    alloc: Global,
    sources: &mut Vec<ProjectString>,
    tool: Option<&Value>,
) -> Result<(), AllocError>
    ensures { IfOk result (λ _. map project_string_of sources.new.items ≡ map project_string_of sources.old.items ++ unread_tables (option_map (λ v. view v.now) tool.entry)) }
{
    let pixi = inside(tool, "pixi");
    push_unread_table(alloc, sources, inside(pixi, "dependencies"))?;
    push_unread_table(alloc, sources, inside(pixi, "pypi-dependencies"))
}

// Adds those of Setuptools and Flit.
fn push_unread_fields(
    alloc: Global,
    sources: &mut Vec<ProjectString>,
    tool: Option<&Value>,
) -> Result<(), AllocError>
    ensures { IfOk result (λ _. map project_string_of sources.new.items ≡ map project_string_of sources.old.items ++ unread_fields (option_map (λ v. view v.now) tool.entry)) }
{
    let setuptools = inside(inside(tool, "setuptools"), "dynamic");
    push_unread_table(alloc, sources, inside(setuptools, "dependencies"))?;
    push_unread_table(alloc, sources, inside(setuptools, "optional-dependencies"))?;
    let flit = inside(inside(tool, "flit"), "metadata");
    push_unread_table(alloc, sources, inside(flit, "requires"))?;
    push_unread_table(alloc, sources, inside(flit, "requires-extra"))
}

// Adds those of Hatch and Rye.
fn push_unread_environments(
    alloc: Global,
    sources: &mut Vec<ProjectString>,
    tool: Option<&Value>,
) -> Result<(), AllocError>
    ensures { IfOk result (λ _. map project_string_of sources.new.items ≡ map project_string_of sources.old.items ++ unread_environments (option_map (λ v. view v.now) tool.entry)) }
{
    push_unread_table(alloc, sources, inside(inside(tool, "hatch"), "envs"))?;
    push_unread_table(
        alloc,
        sources,
        inside(inside(tool, "rye"), "dev-dependencies"),
    )
}

// ---- all tables

// Adds what uv and PDM add to groups.
fn push_additions(
    alloc: Global,
    sources: &mut Vec<ProjectString>,
    tool: Option<&Value>,
) -> Result<(), AllocError>
    ensures { IfOk result (λ _. map project_string_of sources.new.items ≡ map project_string_of sources.old.items ++ added_sources (option_map (λ v. view v.now) tool.entry)) }
{
    push_dev(alloc, sources, inside(tool, "uv"))?;
    let pdm = inside(inside(tool, "pdm"), "dev-dependencies");
    push_groups(alloc, sources, GroupTool::Pdm, pdm)
}

// Adds uv's constraints and overrides.
fn push_constraints(
    alloc: Global,
    sources: &mut Vec<ProjectString>,
    uv: Option<&Value>,
) -> Result<(), AllocError>
    ensures { IfOk result (λ _. map project_string_of sources.new.items ≡ map project_string_of sources.old.items ++ constraint_sources (option_map (λ v. view v.now) uv.entry)) }
{
    let name = "constraint-dependencies";
    let section = Section::Constraint;
    push_array(alloc, sources, "tool.uv.", name, &section, inside(uv, name))?;
    let name = "override-dependencies";
    push_array(alloc, sources, "tool.uv.", name, &section, inside(uv, name))
}

// Adds which tables are not read.
fn push_all_unread(
    alloc: Global,
    sources: &mut Vec<ProjectString>,
    tool: Option<&Value>,
) -> Result<(), AllocError>
    ensures { IfOk result (λ _. map project_string_of sources.new.items ≡ map project_string_of sources.old.items ++ (unread_tables (option_map (λ v. view v.now) tool.entry) ++ (unread_fields (option_map (λ v. view v.now) tool.entry) ++ unread_environments (option_map (λ v. view v.now) tool.entry)))) }
{
    push_unread_tables(alloc, sources, tool)?;
    push_unread_fields(alloc, sources, tool)?;
    push_unread_environments(alloc, sources, tool)
}

// Adds what tables of tools ask for, and which are not read.
pub(crate) fn push_tools(
    alloc: Global,
    sources: &mut Vec<ProjectString>,
    tool: Option<&Value>,
) -> Result<(), AllocError>
    ensures { IfOk result (λ _. map project_string_of sources.new.items ≡ map project_string_of sources.old.items ++ tool_sources (option_map (λ v. view v.now) tool.entry)) }
{
    push_poetry(alloc, sources, inside(tool, "poetry"))?;
    push_additions(alloc, sources, tool)?;
    push_constraints(alloc, sources, inside(tool, "uv"))?;
    push_all_unread(alloc, sources, tool)
}

// ---- overrides

// Adds the normal form of the name that the requirement begins with, if it is a string.
fn push_leading_name(
    alloc: Global,
    names: &mut Vec<Vec<u8>>,
    text: Option<&str>,
) -> Result<(), AllocError>
    ensures { IfOk result (λ _. map (λ n. n.items) names.new.items ≡ map (λ n. n.items) names.old.items ++ leading_name (option_map (λ t. t.now) text.entry)) }
{
    if let Some(text) = text {
        let (name, _) = split_name(text);
        names.push(normalize_name(alloc, name)?)?;
    }
    Ok(())
}

fn push_leading_names(
    alloc: Global,
    names: &mut Vec<Vec<u8>>,
    found: &[Value],
) -> Result<(), AllocError>
    ensures { IfOk result (λ _. map (λ n. n.items) names.new.items ≡ map (λ n. n.items) names.old.items ++ flat_map (λ (d : Data). leading_name (as_str d)) (map view found.now)) }
{
    for item in found {
        push_leading_name(alloc, names, item.as_str())?;
    }
    Ok(())
}

// The normal forms of the names in the table, if it is one.
pub(crate) fn names_in(alloc: Global, value: Option<&Value>) -> Result<Vec<Vec<u8>>, AllocError>
    ensures { IfOk result (λ names. map (λ n. n.items) names.items ≡ entry_names (entries (option_map (λ v. view v.now) value.entry))) }
{
    match table(value) {
        Some(table) => table_names(alloc, table),
        None => Ok(Vec::new(alloc)),
    }
}

// The names that PDM overrides, then those that it leaves out.
fn pdm_names(alloc: Global, resolution: Option<&Value>) -> Result<Vec<Vec<u8>>, AllocError>
    ensures { IfOk result (λ names. map (λ n. n.items) names.items ≡ pdm_names (option_map (λ v. view v.now) resolution.entry)) }
{
    let mut names = names_in(alloc, inside(resolution, "overrides"))?;
    push_leading_names(alloc, &mut names, items(inside(resolution, "excludes")))?;
    Ok(names)
}

/// The names whose versions the project sets itself, in their normal form: those with which strings of `tool.uv.override-dependencies` begin,
/// then the keys of `tool.pdm.resolution.overrides`, then those with which strings of `tool.pdm.resolution.excludes` begin.
///
/// Allocates.
#[tactic(auto, using(crate::proofs::Walks::joined_views))]
pub fn overridden_names(alloc: Global, document: &Table) -> Result<Vec<Vec<u8>>, AllocError>
    ensures { IfOk result (λ names. map (λ n. n.items) names.items ≡ overridden_names (table_view document.now)) }
{
    let tool = top(document, "tool");
    let of_uv = inside(inside(tool, "uv"), "override-dependencies");
    let mut names = Vec::new(alloc);
    push_leading_names(alloc, &mut names, items(of_uv))?;
    let mut more = pdm_names(alloc, inside(inside(tool, "pdm"), "resolution"))?;
    names.append(&mut more)?;
    Ok(names)
}
