//! Requirements of a project that hold together.
ghost use Rattle.std.specs.Prelude.{◌≡◌, IfOk, map, List, ℕ, ◌++◌, [], option_map, Bool, true};
ghost use Rattle.std.specs.List.{list_any, flat_map, All};
ghost use Rattle.pyver_documents.specs.DocumentViews.{string_reading_of};
ghost use Rattle.pyver_documents.specs.Meanings.{extra_inclusions as extra_inclusions_in, inclusions as inclusions_in, IsSoundString};
ghost use Rattle.pyver_documents.specs.Together.{section_part, same_part, parts, has_dependencies, is_build, has_group, has_extra, holds_in, is_standard, is_replaced, unreplaced, demand_in_part, part_demands, same_line, same_lines, same_finding, with_new, project_python, project_domain, FindsOfPart, sections, all_demands, is_marked, FindsOfParts};
ghost use Rattle.pyver_findings.specs.MarkedConflicts.{FindsOfEach};
ghost use Rattle.pyver_findings.specs.Reports.{demands_in};
ghost use Rattle.pyver_findings.specs.Views.{demand_of, line_meaning_of, file_line_of, finding_of, AddsFound};
ghost use Rattle.pyver_markers.specs.Extents.{domain_of};
ghost use Rattle.pyver_projects.specs.ProjectStrings.{section_of, IsInclusionIndex, has_key, inclusions_of};

use crate::document_reading::StringReading;
use crate::groups::{extra_inclusions, inclusions};
use pep440_sets::VersionSet;
use pyver_findings::{Demand, FileLine, Finding, LineMeaning, push_conflicts};
use pyver_locks::lock_faults::contains_name;
use pyver_markers::Domain;
use pyver_projects::inclusions::{InclusionIndex, included_groups};
use pyver_projects::project::{Section, copy_name, copy_names};
use pyver_requirements::Cause;
use std::alloc::{AllocError, Global};
use std::collections::HashMap;

// ---- parts of a project

// The strings of a project, which groups and which extras include which, whether groups hold together with the dependencies, and the names that it overrides.
#[derive(Drop)]
struct ProjectParts<'a, 'b, 'c> {
    together: bool,
    overridden: &'a [Vec<u8>],
    inclusions: InclusionIndex<'b>,
    extras: InclusionIndex<'c>,
    strings: &'a [StringReading],
}

fn section_part(section: &Section) -> Result<Section, AllocError>
    ensures { IfOk result (λ part. section_of part ≡ section_part (section_of section.now)) }
{
    match section {
        Section::Include(group, _) => Ok(Section::Group(group.clone()?)),
        Section::OwnExtras(Some(asker), _) => Ok(Section::Extra(asker.clone()?)),
        Section::Entry(_, _) | Section::Constraint => Ok(Section::Dependencies),
        other => other.clone(),
    }
}

fn same_part(one: &Section, other: &Section) -> bool
    ensures { result ≡ same_part (section_of one.now) (section_of other.now) }
{
    match (one, other) {
        (Section::Extra(one), Section::Extra(other)) => one.as_slice() == other.as_slice(),
        (Section::Group(one), Section::Group(other)) => one.as_slice() == other.as_slice(),
        (Section::Dependencies, Section::Dependencies) => true,
        (Section::Build, Section::Build) => true,
        _ => false,
    }
}

fn any_same_part(parts: &[Section], part: &Section) -> bool
    ensures { result ≡ list_any (λ other. same_part (section_of part.now) (section_of other)) parts.now }
{
    parts.iter().any(|other| same_part(part, other))
}

#[tactic(auto, using(pyver_requirements::proofs::Grouped::any_viewed))]
fn has_part(parts: &[Section], part: &Section) -> bool
    ensures { result ≡ list_any (same_part (section_of part.now)) (map section_of parts.now) }
{
    any_same_part(parts, part)
}

// The parts of the strings, each once.
fn parts(alloc: Global, strings: &[StringReading]) -> Result<Vec<Section>, AllocError>
    ensures { IfOk result (λ found. map section_of found.items ≡ parts (map string_reading_of strings.now)) }
{
    let mut found = Vec::new(alloc);
    for string in strings {
        let part = section_part(&string.section)?;
        if !has_part(found.as_slice(), &part) {
            found.push(part)?;
        }
    }
    Ok(found)
}

fn has_dependencies(together: bool, part: &Section) -> bool
    ensures { result ≡ has_dependencies together (section_of part.now) }
{
    match part {
        Section::Dependencies | Section::Extra(_) => true,
        Section::Group(_) => together,
        _ => false,
    }
}

fn is_build(part: &Section) -> bool
    ensures { result ≡ is_build (section_of part.now) }
{
    matches!(part, Section::Build)
}

// The names of the groups in the part.
fn part_groups<'a>(
    alloc: Global,
    inclusions: &InclusionIndex<'a>,
    part: &'a Section,
) -> Result<HashMap<&'a [u8], ()>, AllocError>
    requires { IsInclusionIndex inclusions.now }
    ensures { IfOk result (λ names. (q : List ℕ) → has_key names q ≡ has_group (inclusions_of inclusions.now) (section_of part.now) q) }
{
    match part {
        Section::Group(group) => included_groups(alloc, inclusions, group.as_slice()),
        _ => Ok(HashMap::new(alloc)),
    }
}

// The names of the extras in the part.
fn part_extras<'a>(
    alloc: Global,
    inclusions: &InclusionIndex<'a>,
    part: &'a Section,
) -> Result<HashMap<&'a [u8], ()>, AllocError>
    requires { IsInclusionIndex inclusions.now }
    ensures { IfOk result (λ names. (q : List ℕ) → has_key names q ≡ has_extra (inclusions_of inclusions.now) (section_of part.now) q) }
{
    match part {
        Section::Extra(extra) => included_groups(alloc, inclusions, extra.as_slice()),
        _ => Ok(HashMap::new(alloc)),
    }
}

// A part of a project, and the names of the groups and extras in it.
#[derive(Drop)]
struct PartNames<'a> {
    part: &'a Section,
    groups: HashMap<&'a [u8], ()>,
    extras: HashMap<&'a [u8], ()>,
}

// A string of the section holds in the part.
fn holds_in(together: bool, names: &PartNames<'_>, section: &Section) -> bool
    ensures { result ≡ holds_in together (has_key names.now.groups) (has_key names.now.extras) (section_of names.now.part.now) (section_of section.now) }
{
    match section {
        Section::Dependencies => has_dependencies(together, names.part),
        Section::Entry(_, _) | Section::Constraint => has_dependencies(together, names.part),
        Section::Extra(name) => names.extras.contains_key(name.as_slice()),
        Section::Group(name) => names.groups.contains_key(name.as_slice()),
        Section::Build => is_build(names.part),
        Section::Include(_, _) | Section::OwnExtras(_, _) => false,
        Section::Invalid(..) | Section::Unread(_) => false,
        Section::Python | Section::Version => false,
    }
}

// ---- requirements of a part

#[tactic(auto, unfolding(pyver_findings::specs::Views::names_of))]
fn copy_demand(demand: &Demand) -> Result<Demand, AllocError>
    ensures { IfOk result (λ copy. demand_of copy ≡ demand_of demand.now) }
{
    Ok(Demand {
        line: demand.line.clone()?,
        name: demand.name.clone()?,
        extras: copy_names(&demand.extras)?,
        marker: copy_name(&demand.marker)?,
        pinned: demand.pinned,
        specifiers: demand.specifiers.clone()?,
    })
}

// The section is of dependencies, an extra or a group, whose requirements uv and PDM may replace.
pub(crate) fn is_standard(section: &Section) -> bool
    ensures { result ≡ is_standard (section_of section.now) }
{
    matches!(
        section,
        Section::Dependencies | Section::Extra(_) | Section::Group(_)
    )
}

// The project overrides these names, and so a requirement of this section for the name.
#[tactic(auto, using(pyver_requirements::proofs::Grouped::any_viewed))]
fn is_replaced(overridden: &[Vec<u8>], section: &Section, name: &[u8]) -> bool
    ensures { result ≡ is_replaced (map (λ n. n.items) overridden.now) (section_of section.now) name.now }
{
    is_standard(section) && contains_name(overridden, name)
}

fn push_demand(demands: &mut Vec<Demand>, meaning: &LineMeaning) -> Result<(), AllocError>
    ensures { IfOk result (λ _. map demand_of demands.new.items ≡ map demand_of demands.old.items ++ demands_in (line_meaning_of meaning.now)) }
{
    match meaning {
        LineMeaning::Asks(demand) => demands.push(copy_demand(demand)?)?,
        LineMeaning::IsNone(_) | LineMeaning::LeftOut(_) | LineMeaning::AsksNothing => {}
    }
    Ok(())
}

// Adds what the string asks for, unless the project, which overrides these names, replaces it.
fn push_string_demand(
    demands: &mut Vec<Demand>,
    overridden: &[Vec<u8>],
    string: &StringReading,
) -> Result<(), AllocError>
    ensures { IfOk result (λ _. map demand_of demands.new.items ≡ map demand_of demands.old.items ++ unreplaced (map (λ n. n.items) overridden.now) (string_reading_of string.now).section (demands_in (string_reading_of string.now).meaning)) }
{
    if let LineMeaning::Asks(demand) = &string.meaning {
        if !is_replaced(overridden, &string.section, demand.name.as_slice()) {
            demands.push(copy_demand(demand)?)?;
        }
    }
    Ok(())
}

fn push_in_part(
    demands: &mut Vec<Demand>,
    project: &ProjectParts<'_, '_, '_>,
    names: &PartNames<'_>,
    string: &StringReading,
) -> Result<(), AllocError>
    ensures { IfOk result (λ _. map demand_of demands.new.items ≡ map demand_of demands.old.items ++ demand_in_part project.now.together (map (λ n. n.items) project.now.overridden.now) (has_key names.now.groups) (has_key names.now.extras) (section_of names.now.part.now) (string_reading_of string.now)) }
{
    if holds_in(project.together, names, &string.section) {
        push_string_demand(demands, project.overridden, string)?;
    }
    Ok(())
}

// The requirements of the part.
fn demands_of_part(
    alloc: Global,
    project: &ProjectParts<'_, '_, '_>,
    names: &PartNames<'_>,
) -> Result<Vec<Demand>, AllocError>
    ensures { IfOk result (λ demands. map demand_of demands.items ≡ flat_map (demand_in_part project.now.together (map (λ n. n.items) project.now.overridden.now) (has_key names.now.groups) (has_key names.now.extras) (section_of names.now.part.now)) (map string_reading_of project.now.strings.now)) }
{
    let mut demands = Vec::new(alloc);
    for string in project.strings {
        push_in_part(&mut demands, project, names, string)?;
    }
    Ok(demands)
}

// The requirements of the part.
fn part_demands(
    alloc: Global,
    project: &ProjectParts<'_, '_, '_>,
    part: &Section,
) -> Result<Vec<Demand>, AllocError>
    requires groups { IsInclusionIndex project.now.inclusions }
    requires extras { IsInclusionIndex project.now.extras }
    ensures { IfOk result (λ demands. map demand_of demands.items ≡ part_demands project.now.together (map (λ n. n.items) project.now.overridden.now) (inclusions_of project.now.inclusions) (inclusions_of project.now.extras) (section_of part.now) (map string_reading_of project.now.strings.now)) }
{
    let names = PartNames {
        part,
        groups: part_groups(alloc, &project.inclusions, part)?,
        extras: part_extras(alloc, &project.extras, part)?,
    };
    demands_of_part(alloc, project, &names)
}

// ---- findings, each once

fn same_line(one: &FileLine, other: &FileLine) -> bool
    ensures { result ≡ same_line (file_line_of one.now) (file_line_of other.now) }
{
    one.number == other.number
        && one.file.as_slice() == other.file.as_slice()
        && one.text.as_slice() == other.text.as_slice()
}

fn same_lines(lines: &[FileLine], others: &[FileLine]) -> bool
    ensures { result ≡ same_lines (map file_line_of lines.now) (map file_line_of others.now) }
{
    match lines {
        [] => others.is_empty(),
        [line, more @ ..] => match others {
            [] => false,
            [other, more_others @ ..] => same_line(line, other) && same_lines(more, more_others),
        },
    }
}

fn same_finding(one: &Finding, other: &Finding) -> bool
    ensures { result ≡ same_finding (finding_of one.now) (finding_of other.now) }
{
    match (one, other) {
        (Finding::Conflicting(_, lines, _), Finding::Conflicting(_, others, _)) => {
            same_lines(lines.as_slice(), others.as_slice())
        }
        _ => false,
    }
}

fn any_same_finding(findings: &[Finding], finding: &Finding) -> bool
    ensures { result ≡ list_any (λ other. same_finding (finding_of finding.now) (finding_of other)) findings.now }
{
    findings.iter().any(|other| same_finding(finding, other))
}

#[tactic(auto, using(pyver_requirements::proofs::Grouped::any_viewed))]
fn has_finding(findings: &[Finding], finding: &Finding) -> bool
    ensures { result ≡ list_any (same_finding (finding_of finding.now)) (map finding_of findings.now) }
{
    any_same_finding(findings, finding)
}

// The findings, each once.
fn each_once(alloc: Global, findings: Vec<Finding>) -> Result<Vec<Finding>, AllocError>
    ensures { IfOk result (λ found. map finding_of found.items ≡ with_new same_finding [] (map finding_of findings.items)) }
{
    let mut found = Vec::new(alloc);
    for finding in findings {
        if !has_finding(found.as_slice(), &finding) {
            found.push(finding)?;
        }
    }
    Ok(found)
}

// ---- requirements that have no version in common

// The versions of Python that the project with these strings is for, or all.
pub(crate) fn project_python(strings: &[StringReading]) -> Option<&VersionSet>
    ensures { option_map (λ set. set.now) result ≡ project_python (map string_reading_of strings.now) }
{
    let mut rest = strings;
    while let [string, later @ ..] = rest {
        if let Some(versions) = &string.python {
            return Some(versions);
        }
        rest = later;
    }
    None
}

// The environments in which the project is installed.
fn project_domain(strings: &[StringReading]) -> Domain<'_>
    ensures { domain_of result ≡ project_domain (map string_reading_of strings.now) }
{
    Domain {
        linked: true,
        python: project_python(strings),
    }
}

// Adds what is wrong with the requirements of the part together.
fn push_part_conflicts(
    alloc: Global,
    findings: &mut Vec<Finding>,
    left_out: &mut Vec<Cause>,
    project: &ProjectParts<'_, '_, '_>,
    part: &Section,
) -> Result<(), AllocError>
    requires sound { All IsSoundString (map string_reading_of project.now.strings.now) }
    requires known { inclusions_of project.now.inclusions ≡ inclusions_in (sections (map string_reading_of project.now.strings.now)) }
    requires index { IsInclusionIndex project.now.inclusions }
    requires extras { inclusions_of project.now.extras ≡ extra_inclusions_in (sections (map string_reading_of project.now.strings.now)) }
    requires extra_index { IsInclusionIndex project.now.extras }
    ensures { IfOk result (λ _. AddsFound (FindsOfPart project.now.together (map (λ n. n.items) project.now.overridden.now) (map string_reading_of project.now.strings.now) (section_of part.now)) findings.old.items findings.new.items left_out.old.items left_out.new.items) }
{
    let demands = part_demands(alloc, project, part)?;
    let domain = project_domain(project.strings);
    push_conflicts(alloc, findings, left_out, demands.as_slice(), domain)?;
    Ok(())
}

// What is wrong with the requirements of each of the parts together.
fn conflicts_of_parts<'a>(
    alloc: Global,
    left_out: &mut Vec<Cause>,
    together: bool,
    overridden: &'a [Vec<u8>],
    parts: &[Section],
    strings: &'a [StringReading],
) -> Result<Vec<Finding>, AllocError>
    requires { All IsSoundString (map string_reading_of strings.now) }
    ensures { IfOk result (λ found. AddsFound (FindsOfEach (FindsOfPart together (map (λ n. n.items) overridden.now) (map string_reading_of strings.now)) (map section_of parts.now)) [] found.items left_out.old.items left_out.new.items) }
{
    let inclusions = inclusions(alloc, strings)?;
    let inclusions = InclusionIndex::new(alloc, inclusions.as_slice())?;
    let extras = extra_inclusions(alloc, strings)?;
    let extras = InclusionIndex::new(alloc, extras.as_slice())?;
    let project = ProjectParts {
        together,
        overridden,
        inclusions,
        extras,
        strings,
    };
    let mut findings = Vec::new(alloc);
    for part in parts {
        push_part_conflicts(alloc, &mut findings, left_out, &project, part)?;
    }
    Ok(findings)
}

// ---- all requirements

// The requirements of all strings.
fn all_demands(alloc: Global, strings: &[StringReading]) -> Result<Vec<Demand>, AllocError>
    ensures { IfOk result (λ demands. map demand_of demands.items ≡ all_demands (map string_reading_of strings.now)) }
{
    let mut demands = Vec::new(alloc);
    for string in strings {
        push_demand(&mut demands, &string.meaning)?;
    }
    Ok(demands)
}

fn asks_under_marker(meaning: &LineMeaning) -> bool
    ensures { result ≡ list_any is_marked (demands_in (line_meaning_of meaning.now)) }
{
    match meaning {
        LineMeaning::Asks(demand) => demand.marker.is_some(),
        _ => false,
    }
}

// Whether some requirement has a marker.
fn has_marker(strings: &[StringReading]) -> bool
    ensures { result ≡ list_any is_marked (all_demands (map string_reading_of strings.now)) }
{
    let mut rest = strings;
    while let [string, later @ ..] = rest {
        if asks_under_marker(&string.meaning) {
            return true;
        }
        rest = later;
    }
    false
}

// Whether no requirement has a marker, and all that have one name have a version in common, as if they held together; then so have those of each part.
fn are_satisfiable(alloc: Global, strings: &[StringReading]) -> Result<bool, AllocError>
    requires { All IsSoundString (map string_reading_of strings.now) }
    ensures { IfOk result (λ b. b ≡ true → (together : Bool) (overridden : List (List ℕ)) → FindsOfParts together overridden (map string_reading_of strings.now) [] []) }
{
    if has_marker(strings) {
        return Ok(false);
    }
    let demands = all_demands(alloc, strings)?;
    let domain = project_domain(strings);
    let mut findings = Vec::new(alloc);
    let mut left_out = Vec::new(alloc);
    push_conflicts(
        alloc,
        &mut findings,
        &mut left_out,
        demands.as_slice(),
        domain,
    )?;
    Ok(findings.is_empty())
}

// What is wrong with requirements of a project together.
pub(crate) fn project_conflicts(
    alloc: Global,
    left_out: &mut Vec<Cause>,
    together: bool,
    overridden: &[Vec<u8>],
    strings: &[StringReading],
) -> Result<Vec<Finding>, AllocError>
    requires { All IsSoundString (map string_reading_of strings.now) }
    ensures { IfOk result (λ found. AddsFound (FindsOfParts together (map (λ n. n.items) overridden.now) (map string_reading_of strings.now)) [] found.items left_out.old.items left_out.new.items) }
{
    if are_satisfiable(alloc, strings)? {
        return Ok(Vec::new(alloc));
    }
    let parts = parts(alloc, strings)?;
    let parts = parts.as_slice();
    let found = conflicts_of_parts(alloc, left_out, together, overridden, parts, strings)?;
    let once = each_once(alloc, found)?;
    Ok(once)
}
