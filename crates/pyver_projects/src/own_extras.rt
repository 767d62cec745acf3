//! The strings of a project, also those that ask for its own extras, and the names of its extras.
ghost use Rattle.std.specs.Prelude.{◌≡◌, codes, option_copied, IfOk, map, string_bytes, bytes_eq, option_map, option_to_list, false};
ghost use Rattle.std.specs.Char.{is_ascii_whitespace};
ghost use Rattle.std.specs.List.{list_any};
ghost use Rattle.std.specs.Option.{option_map_or};
ghost use Rattle.pep440_pick.specs.Names.{normal};
ghost use Rattle.pep440_pick.specs.RequirementReading.{name_of};
ghost use Rattle.pep440_version.specs.Changes.ChangeWords.{after};
ghost use Rattle.pep440_version.specs.Reading.{past};
ghost use Rattle.toml.specs.Data.{as_str};
ghost use Rattle.toml.specs.View.{view, table_view};
ghost use Rattle.pyver_projects.specs.ProjectTables.{asker_in, own_section, own_string, has_dynamic_extras, own_names, sources, extra_names};
ghost use Rattle.pyver_projects.specs.ProjectStrings.{section_of, project_string_of};
ghost use Rattle.pyver_projects.specs.RequirementStrings.{in_brackets, string_extras, is_conditional};

use crate::project::{ProjectString, Section, is_project_name, project_name, written_strings};
use crate::table::{inside, items, top};
use crate::tool_tables::names_in;
use pep440_pick::{copy_extras, normalize_name, normalize_names, split_at_byte, split_name};
use std::alloc::{AllocError, Global};
use toml::{Table, Value};

// What follows the bracket with which this begins.
fn strip_bracket(rest: &str) -> Option<&str>
    ensures { option_copied result ≡ after (codes "[") rest.now }
{
    rest.strip_prefix("[")
}

// What follows blanks.
fn skip_blanks(text: &str) -> &str
    ensures { result.now ≡ past is_ascii_whitespace text.now }
{
    text.trim_ascii_start()
}

// What stands in the brackets with which this begins.
fn in_brackets(rest: &str) -> &str
    ensures { result.now ≡ in_brackets rest.now }
{
    let Some(open) = strip_bracket(rest) else {
        return "";
    };
    match split_at_byte(open, ']') {
        Some((inside, _)) => inside,
        None => "",
    }
}

/// The extras after the name that the string begins with, as they are written.
///
/// Allocates.
pub fn string_extras(alloc: Global, text: &str) -> Result<Vec<String>, AllocError>
    ensures { IfOk result (λ extras. map string_bytes extras.items ≡ string_extras text.now) }
{
    let (_, rest) = split_name(skip_blanks(text));
    copy_extras(alloc, in_brackets(skip_blanks(rest)))
}

/// Whether the string has a `;` or an `@`, as one with a marker or a URL has (PEP 508).
///
/// Allocates nothing.
pub fn is_conditional(text: &str) -> bool
    ensures { result ≡ is_conditional text.now }
{
    let bytes = text.as_bytes();
    bytes.contains(&b';') || bytes.contains(&b'@')
}

// The string begins with the name.
fn begins_with_name(alloc: Global, name: &Option<Vec<u8>>, text: &str) -> Result<bool, AllocError>
    ensures { IfOk result (λ b. b ≡ list_any (bytes_eq (normal (name_of text.now))) (option_to_list (option_map (λ n. n.items) name.now))) }
{
    let (found, _) = split_name(skip_blanks(text));
    let found = normalize_name(alloc, found)?;
    Ok(is_project_name(name, found.as_slice()))
}

// An extra includes those that the string in it always asks for.
fn asker_in(name: Vec<u8>, text: &str) -> Option<Vec<u8>>
    ensures { option_map (λ n. n.items) result ≡ asker_in name.items text.now }
{
    if is_conditional(text) {
        None
    } else {
        Some(name)
    }
}

// The section of a string that asks the project itself for these extras.
fn own_section(section: Section, text: &str, extras: Vec<Vec<u8>>) -> Section
    requires { map (λ e. e.items) extras.items ≡ map normal (string_extras text.now) }
    ensures { section_of result ≡ own_section (section_of section) text.now }
{
    match section {
        Section::Extra(name) => Section::OwnExtras(asker_in(name, text), extras),
        Section::Dependencies | Section::Group(_) => Section::OwnExtras(None, extras),
        other => other,
    }
}

// The string, of a project that asks itself by this name.
fn own_string(
    alloc: Global,
    name: &Option<Vec<u8>>,
    string: ProjectString,
) -> Result<ProjectString, AllocError>
    ensures { IfOk result (λ s. project_string_of s ≡ own_string (option_to_list (option_map (λ n. n.items) name.now)) (project_string_of string)) }
{
    let extras = string_extras(alloc, string.text.as_str())?;
    if extras.is_empty() || !begins_with_name(alloc, name, string.text.as_str())? {
        return Ok(string);
    }
    let extras = normalize_names(alloc, extras.as_slice())?;
    let ProjectString { section, text } = string;
    let section = own_section(section, text.as_str(), extras);
    Ok(ProjectString { section, text })
}

fn is_extras_field(item: &Value) -> bool
    ensures { result ≡ option_map_or (bytes_eq (codes "optional-dependencies")) (as_str (view item.now)) false }
{
    match item.as_str() {
        Some(field) => field == "optional-dependencies",
        None => false,
    }
}

fn any_extras_field(fields: &[Value]) -> bool
    ensures { result ≡ list_any (λ v. option_map_or (bytes_eq (codes "optional-dependencies")) (as_str (view v)) false) fields.now }
{
    fields.iter().any(|item| is_extras_field(item))
}

// The table `project` does not have all extras.
#[tactic(auto, using(pyver_requirements::proofs::Grouped::any_viewed))]
fn has_dynamic_extras(document: &Table) -> bool
    ensures { result ≡ has_dynamic_extras (table_view document.now) }
{
    any_extras_field(items(inside(top(document, "project"), "dynamic")))
}

// The name by which the project asks itself, if its extras are known.
fn own_name(alloc: Global, document: &Table) -> Result<Option<Vec<u8>>, AllocError>
    ensures { IfOk result (λ name. option_to_list (option_map (λ n. n.items) name) ≡ own_names (table_view document.now)) }
{
    if has_dynamic_extras(document) {
        return Ok(None);
    }
    project_name(alloc, document)
}

// The strings, of a project that asks itself by this name.
fn own_strings(
    alloc: Global,
    name: &Option<Vec<u8>>,
    strings: Vec<ProjectString>,
) -> Result<Vec<ProjectString>, AllocError>
    ensures { IfOk result (λ found. map project_string_of found.items ≡ map (own_string (option_to_list (option_map (λ n. n.items) name.now))) (map project_string_of strings.items)) }
{
    let mut found = Vec::new(alloc);
    for string in strings {
        found.push(own_string(alloc, name, string)?)?;
    }
    Ok(found)
}

/// The strings of `pyproject.toml` (PEP 621, PEP 735), also in tables of tools.
///
/// Allocates.
pub fn project_strings(alloc: Global, document: &Table) -> Result<Vec<ProjectString>, AllocError>
    ensures { IfOk result (λ found. map project_string_of found.items ≡ sources (table_view document.now)) }
{
    let name = own_name(alloc, document)?;
    let written = written_strings(alloc, document)?;
    let found = own_strings(alloc, &name, written)?;
    Ok(found)
}

/// The names of the extras of the document, in their normal form: of `project.optional-dependencies` (PEP 621), then of `tool.poetry.extras`.
///
/// Allocates.
#[tactic(auto, using(crate::proofs::Walks::joined_views))]
pub fn extra_names(alloc: Global, document: &Table) -> Result<Vec<Vec<u8>>, AllocError>
    ensures { IfOk result (λ names. map (λ n. n.items) names.items ≡ extra_names (table_view document.now)) }
{
    let poetry = inside(top(document, "tool"), "poetry");
    let mut names = names_in(
        alloc,
        inside(top(document, "project"), "optional-dependencies"),
    )?;
    let mut more = names_in(alloc, inside(poetry, "extras"))?;
    names.append(&mut more)?;
    Ok(names)
}
