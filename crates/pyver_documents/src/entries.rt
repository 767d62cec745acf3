//! What a lock says that its project requires, and for which Pythons, beside the project.
ghost use Rattle.std.specs.Prelude.{◌≡◌, map, option_map, option_to_list, ◌∷◌, ◌++◌, [], IfOk, codes, is_some, if◌then◌else◌};
ghost use Rattle.std.specs.List.{list_any, flat_map, find};
ghost use Rattle.toml.specs.Data.{as_str, get_member};
ghost use Rattle.toml.specs.View.{view, table_view};
ghost use Rattle.pyver_documents.specs.Comparing.{same_specifier, has_each, same_list, is_same_requirement, is_in_lock, is_declared, locked_demands, is_in_project, unmatched, unentered, unentered_in, unrequired, unrequired_in, is_in_one, python_minors, python_line, python_finding, first_difference, python_difference, is_dynamic, has_dynamic, is_plain_for_uv, differing, replaced_names};
ghost use Rattle.pyver_documents.specs.DocumentViews.{string_reading_of};
ghost use Rattle.pyver_documents.specs.Together.{project_python};
ghost use Rattle.pyver_findings.specs.Views.{demand_of, line_meaning_of, finding_of, file_line_of, file_of};
ghost use Rattle.pyver_locks.specs.PackageRequirements.{entry};
ghost use Rattle.pyver_projects.specs.ProjectStrings.{entries, inside, text_in, section_of};

use crate::document_reading::{ProjectReading, StringReading};
use crate::extra_comparison::same_extras;
use crate::stale_lock::key_line;
use crate::together::{is_standard, project_python};
use pep440_rs::{Version, VersionSpecifier};
use pep440_sets::VersionSet;
use pyver_findings::{Demand, FileLine, Finding, LineMeaning, SourceFile};
use pyver_projects::inclusions::has_tool;
use pyver_projects::project::{Section, is_project_name};
use pyver_projects::table::{inside, items, text, top};
use std::alloc::{AllocError, Global};
use toml::{Table, Value};

// ---- requirements of both

fn has_specifier(list: &[VersionSpecifier], specifier: &VersionSpecifier) -> bool
    ensures { result ≡ list_any (same_specifier specifier.now) list.now }
{
    list.iter().any(|other| specifier == other)
}

// Each specifier of the first list is one of the second.
fn has_each(list: &[VersionSpecifier], other: &[VersionSpecifier]) -> bool
    ensures { result ≡ has_each list.now other.now }
{
    list.iter().all(|specifier| has_specifier(other, specifier))
}

fn same_list(list: &[VersionSpecifier], other: &[VersionSpecifier]) -> bool
    ensures { result ≡ same_list list.now other.now }
{
    has_each(list, other) && has_each(other, list)
}

// The second, in the lock, is for the first, of the project.
#[tactic(auto, unfolding(pyver_findings::specs::Views::names_of))]
fn is_same_requirement(demand: &Demand, entry: &Demand) -> bool
    ensures { result ≡ is_same_requirement (demand_of demand.now) (demand_of entry.now) }
{
    demand.name.as_slice() == entry.name.as_slice()
        && same_extras(demand.extras.as_slice(), entry.extras.as_slice())
        && (entry.marker.is_some()
            || same_list(demand.specifiers.as_slice(), entry.specifiers.as_slice()))
}

fn is_in_lock(demand: &Demand, entry: &LineMeaning) -> bool
    ensures { result ≡ is_in_lock (demand_of demand.now) (line_meaning_of entry.now) }
{
    match entry {
        LineMeaning::Asks(entry) => is_same_requirement(demand, entry),
        _ => false,
    }
}

fn any_in_lock(demand: &Demand, entries: &[LineMeaning]) -> bool
    ensures { result ≡ list_any (λ m. is_in_lock (demand_of demand.now) (line_meaning_of m)) entries.now }
{
    entries.iter().any(|entry| is_in_lock(demand, entry))
}

// The lock has the requirement.
#[tactic(auto, using(pyver_requirements::proofs::Grouped::any_viewed))]
fn is_entered(demand: &Demand, entries: &[LineMeaning]) -> bool
    ensures { result ≡ list_any (is_in_lock (demand_of demand.now)) (map line_meaning_of entries.now) }
{
    any_in_lock(demand, entries)
}

// The same, or of a string that asks for extras of the project itself.
fn is_declared(section: &Section) -> bool
    ensures { result ≡ is_declared (section_of section.now) }
{
    match section {
        Section::OwnExtras(_, _) => true,
        _ => is_standard(section),
    }
}

// What the string asks for that its lock is to have.
fn locked_demand(string: &StringReading) -> Option<&Demand>
    ensures { option_to_list (option_map (λ a. demand_of a.now) result) ≡ locked_demands (string_reading_of string.now) }
{
    if !is_declared(&string.section) {
        return None;
    }
    match &string.meaning {
        LineMeaning::Asks(demand) => Some(demand),
        _ => None,
    }
}

fn is_in_project(entry: &Demand, string: &StringReading) -> bool
    ensures { result ≡ is_in_project (demand_of entry.now) (string_reading_of string.now) }
{
    match locked_demand(string) {
        Some(demand) => is_same_requirement(demand, entry),
        None => false,
    }
}

fn any_in_project(entry: &Demand, strings: &[StringReading]) -> bool
    ensures { result ≡ list_any (λ x. is_in_project (demand_of entry.now) (string_reading_of x)) strings.now }
{
    strings.iter().any(|string| is_in_project(entry, string))
}

// The project has the requirement.
#[tactic(auto, using(pyver_requirements::proofs::Grouped::any_viewed))]
fn is_required(entry: &Demand, strings: &[StringReading]) -> bool
    ensures { result ≡ list_any (is_in_project (demand_of entry.now)) (map string_reading_of strings.now) }
{
    any_in_project(entry, strings)
}

// Adds that the requirement is not there, for this reason.
fn push_requirement_fault(
    alloc: Global,
    findings: &mut Vec<Finding>,
    reason: &str,
    demand: &Demand,
) -> Result<(), AllocError>
    ensures { IfOk result (λ _. map finding_of findings.new.items ≡ map finding_of findings.old.items ++ unmatched reason.now (demand_of demand.now) ∷ []) }
{
    let reason = String::from_str(alloc, reason)?;
    findings.push(Finding::NoRequirement(demand.line.clone()?, reason, 0))?;
    Ok(())
}

// Adds the requirement of the project, if its lock does not have it.
fn push_unentered(
    alloc: Global,
    findings: &mut Vec<Finding>,
    project: &Option<Vec<u8>>,
    entries: &[LineMeaning],
    demand: &Demand,
) -> Result<(), AllocError>
    ensures { IfOk result (λ _. map finding_of findings.new.items ≡ map finding_of findings.old.items ++ unentered (option_to_list (option_map (λ n. n.items) project.now)) (map line_meaning_of entries.now) (demand_of demand.now)) }
{
    if is_project_name(project, demand.name.as_slice()) {
        return Ok(());
    }
    if is_entered(demand, entries) {
        return Ok(());
    }
    let reason = "the lock is out of date: it does not have this requirement";
    push_requirement_fault(alloc, findings, reason, demand)
}

fn push_unentered_in(
    alloc: Global,
    findings: &mut Vec<Finding>,
    project: &Option<Vec<u8>>,
    entries: &[LineMeaning],
    string: &StringReading,
) -> Result<(), AllocError>
    ensures { IfOk result (λ _. map finding_of findings.new.items ≡ map finding_of findings.old.items ++ unentered_in (option_to_list (option_map (λ n. n.items) project.now)) (map line_meaning_of entries.now) (string_reading_of string.now)) }
{
    if !is_declared(&string.section) {
        return Ok(());
    }
    match &string.meaning {
        LineMeaning::Asks(demand) => push_unentered(alloc, findings, project, entries, demand),
        _ => Ok(()),
    }
}

fn push_all_unentered(
    alloc: Global,
    findings: &mut Vec<Finding>,
    project: &Option<Vec<u8>>,
    entries: &[LineMeaning],
    strings: &[StringReading],
) -> Result<(), AllocError>
    ensures { IfOk result (λ _. map finding_of findings.new.items ≡ map finding_of findings.old.items ++ flat_map (unentered_in (option_to_list (option_map (λ n. n.items) project.now)) (map line_meaning_of entries.now)) (map string_reading_of strings.now)) }
{
    for string in strings {
        push_unentered_in(alloc, findings, project, entries, string)?;
    }
    Ok(())
}

// Adds the requirement in the lock, if its project does not have it.
fn push_unrequired(
    alloc: Global,
    findings: &mut Vec<Finding>,
    project: &Option<Vec<u8>>,
    strings: &[StringReading],
    entry: &Demand,
) -> Result<(), AllocError>
    ensures { IfOk result (λ _. map finding_of findings.new.items ≡ map finding_of findings.old.items ++ unrequired (option_to_list (option_map (λ n. n.items) project.now)) (map string_reading_of strings.now) (demand_of entry.now)) }
{
    if is_project_name(project, entry.name.as_slice()) || entry.marker.is_some() {
        return Ok(());
    }
    if is_required(entry, strings) {
        return Ok(());
    }
    let reason = "the lock is out of date: the project does not have this requirement";
    push_requirement_fault(alloc, findings, reason, entry)
}

fn push_unrequired_in(
    alloc: Global,
    findings: &mut Vec<Finding>,
    project: &Option<Vec<u8>>,
    strings: &[StringReading],
    entry: &LineMeaning,
) -> Result<(), AllocError>
    ensures { IfOk result (λ _. map finding_of findings.new.items ≡ map finding_of findings.old.items ++ unrequired_in (option_to_list (option_map (λ n. n.items) project.now)) (map string_reading_of strings.now) (line_meaning_of entry.now)) }
{
    match entry {
        LineMeaning::Asks(entry) => push_unrequired(alloc, findings, project, strings, entry),
        _ => Ok(()),
    }
}

fn push_all_unrequired(
    alloc: Global,
    findings: &mut Vec<Finding>,
    project: &Option<Vec<u8>>,
    strings: &[StringReading],
    entries: &[LineMeaning],
) -> Result<(), AllocError>
    ensures { IfOk result (λ _. map finding_of findings.new.items ≡ map finding_of findings.old.items ++ flat_map (unrequired_in (option_to_list (option_map (λ n. n.items) project.now)) (map string_reading_of strings.now)) (map line_meaning_of entries.now)) }
{
    for entry in entries {
        push_unrequired_in(alloc, findings, project, strings, entry)?;
    }
    Ok(())
}

// ---- their versions of Python

// One of the sets has this Python, and the other does not.
fn is_in_one(
    alloc: Global,
    own: &VersionSet,
    locked: &VersionSet,
    minor: u64,
) -> Result<bool, AllocError>
    ensures { IfOk result (λ b. b ≡ is_in_one own.now locked.now minor) }
{
    let version = Version::new(alloc, &[3, minor, 0])?;
    let in_lock = locked.contains(&version);
    if own.contains(&version) {
        return Ok(!in_lock);
    }
    Ok(in_lock)
}

// The first of these that one of them has.
fn find_difference(
    alloc: Global,
    own: &VersionSet,
    locked: &VersionSet,
    minors: &[u64],
) -> Result<Option<u64>, AllocError>
    ensures { IfOk result (λ found. found ≡ find (is_in_one own.now locked.now) minors.now) }
{
    for minor in minors {
        if is_in_one(alloc, own, locked, *minor)? {
            return Ok(Some(*minor));
        }
    }
    Ok(None)
}

// The second numbers of the versions of CPython 3 that are and may soon be.
fn python_minors() -> [u64; 21]
    ensures { result ≡ python_minors }
{
    [
        0, 1, 2, 3, 4, 5, 6, 7, 8, 9, 10, 11, 12, 13, 14, 15, 16, 17, 18, 19, 20,
    ]
}

// The line of `requires-python` in the lock.
fn python_line(alloc: Global, lock: &SourceFile) -> Result<FileLine, AllocError>
    ensures { IfOk result (λ line. file_line_of line ≡ python_line (file_of lock.now)) }
{
    let number = match key_line(alloc, lock.text.as_slice(), b"requires-python.")? {
        Some(number) => number as u64,
        None => 1,
    };
    Ok(FileLine {
        file: Vec::from_slice(alloc, lock.name.as_slice())?,
        number,
        text: Vec::from_slice(alloc, b"requires-python")?,
        comment: Vec::new(alloc),
    })
}

// That the lock is out of date by this Python.
fn python_finding(alloc: Global, lock: &SourceFile, minor: u64) -> Result<Finding, AllocError>
    ensures { IfOk result (λ f. finding_of f ≡ python_finding (file_of lock.now) minor) }
{
    let reason = "the lock is out of date: it and its project differ on Python 3.";
    let mut reason = String::from_str(alloc, reason)?;
    reason.push_str(minor.to_string(alloc)?.as_str())?;
    Ok(Finding::NoRequirement(python_line(alloc, lock)?, reason, 0))
}

fn push_first_difference(
    alloc: Global,
    findings: &mut Vec<Finding>,
    lock: &SourceFile,
    minor: Option<u64>,
) -> Result<(), AllocError>
    ensures { IfOk result (λ _. map finding_of findings.new.items ≡ map finding_of findings.old.items ++ first_difference (file_of lock.now) minor) }
{
    if let Some(minor) = minor {
        findings.push(python_finding(alloc, lock, minor)?)?;
    }
    Ok(())
}

// Adds the first Python that only the project has or only its lock, if both have a set of them.
pub(crate) fn push_python_difference(
    alloc: Global,
    findings: &mut Vec<Finding>,
    lock: &SourceFile,
    project: &ProjectReading,
    locked: &Option<VersionSet>,
) -> Result<(), AllocError>
    ensures { IfOk result (λ _. map finding_of findings.new.items ≡ map finding_of findings.old.items ++ python_difference (file_of lock.now) (project_python (map string_reading_of project.now.strings.items)) locked.now) }
{
    let Some(own) = project_python(project.strings.as_slice()) else {
        return Ok(());
    };
    let Some(locked) = locked else {
        return Ok(());
    };
    let minor = find_difference(alloc, own, locked, &python_minors())?;
    push_first_difference(alloc, findings, lock, minor)
}

// ---- what uv reads of a project

// The field is that of dependencies or of extras.
fn is_dynamic(field: Option<&str>) -> bool
    ensures { result ≡ is_dynamic (option_map (λ t. t.now) field.entry) }
{
    match field {
        Some(field) => matches!(field, "dependencies" | "optional-dependencies"),
        None => false,
    }
}

fn is_dynamic_item(item: &Value) -> bool
    ensures { result ≡ is_dynamic (as_str (view item.now)) }
{
    is_dynamic(item.as_str())
}

fn any_dynamic(fields: &[Value]) -> bool
    ensures { result ≡ list_any (λ v. is_dynamic (as_str (view v))) fields.now }
{
    fields.iter().any(|field| is_dynamic_item(field))
}

#[tactic(auto, using(pyver_requirements::proofs::Grouped::any_viewed))]
fn has_dynamic(project: Option<&Value>) -> bool
    ensures { result ≡ has_dynamic (option_map (λ v. view v.now) project.entry) }
{
    any_dynamic(items(inside(project, "dynamic")))
}

// The tables have all that uv reads of what the project requires, and nothing that it does not read.
fn is_plain_for_uv(document: &Table) -> bool
    ensures { result ≡ is_plain_for_uv (table_view document.now) }
{
    let project = top(document, "project");
    text(inside(project, "name")).is_some()
        && !has_dynamic(project)
        && !has_tool("poetry", document)
        && !has_tool("pdm", document)
}

// Its version is in the table `project`.
fn has_version(document: &Table) -> bool
    ensures { result ≡ is_some (text_in (inside (codes "version") (get_member (codes "project") (table_view document.now)))) }
{
    text(inside(top(document, "project"), "version")).is_some()
}

// Adds in what the project, but for this name, differs from its lock, where that has some requirements of it.
fn push_differing(
    alloc: Global,
    findings: &mut Vec<Finding>,
    project: &Option<Vec<u8>>,
    strings: &[StringReading],
    entries: &[LineMeaning],
) -> Result<(), AllocError>
    ensures { IfOk result (λ _. map finding_of findings.new.items ≡ map finding_of findings.old.items ++ differing (option_to_list (option_map (λ n. n.items) project.now)) (map string_reading_of strings.now) (map line_meaning_of entries.now)) }
{
    if entries.is_empty() {
        return Ok(());
    }
    push_all_unentered(alloc, findings, project, entries, strings)?;
    push_all_unrequired(alloc, findings, project, strings, entries)
}

// Adds it, if the tables of the project have all that uv reads.
pub(crate) fn push_differences(
    alloc: Global,
    findings: &mut Vec<Finding>,
    project: &ProjectReading,
    entries: &[LineMeaning],
) -> Result<(), AllocError>
    ensures { IfOk result (λ _. map finding_of findings.new.items ≡ map finding_of findings.old.items ++ (if is_plain_for_uv (table_view project.now.table) then differing (replaced_names (table_view project.now.table) (option_to_list (option_map (λ n. n.items) project.now.name))) (map string_reading_of project.now.strings.items) (map line_meaning_of entries.now) else [])) }
{
    if !is_plain_for_uv(&project.table) {
        return Ok(());
    }
    let strings = project.strings.as_slice();
    if has_version(&project.table) {
        return push_differing(alloc, findings, &None, strings, entries);
    }
    push_differing(alloc, findings, &project.name, strings, entries)
}
