//! A project beside a lock, and the requirements of a lock beside its packages.
ghost use Rattle.std.specs.Prelude.{◌≡◌, [], ◌++◌, IfOk, if◌then◌else◌, map, ◌∷◌, List, bytes_eq, ℕ, option_map, option_to_list};
ghost use Rattle.std.specs.HashMap.{get_by};
ghost use Rattle.std.specs.List.{filter, list_any, flat_map};
ghost use Rattle.std.specs.Option.{option_map_or};
ghost use Rattle.pyver_documents.specs.Comparing.{locks_groups, locks_extras, names_groups, locks_entries, is_of_other_tool, is_needed, leaves_out, is_locked, is_overridden, outside, accepts_version, locked_line, excluded, has_name, absent, may_take, lack_without_marker, taken_packages, unlocked, lacking, unmet_demand, unmet, missing, excluded_in, compared_demand, compared, unmet_extras, found_beside, is_beside, found_in_pair, beside_all};
ghost use Rattle.pyver_documents.specs.DocumentViews.{locked_reading_of, IsIndex, index_parts, packages_of, excuses, string_reading_of, extra_reading_of, document_reading_of, read_pair};
ghost use Rattle.pyver_findings.specs.Reports.{demands_in};
ghost use Rattle.pyver_findings.specs.Views.{file_line_of, finding_of, demand_of, line_meaning_of};
ghost use Rattle.pyver_locks.specs.LockContents.{parts_of};
ghost use Rattle.pyver_projects.specs.ProjectStrings.{section_of};

use crate::document_kind::{DocumentKind, belongs};
use crate::document_reading::{
    DocumentReading, ExtraReading, LockReading, ProjectReading, ReadDocument, StringReading,
};
use crate::extra_comparison::push_unmet_extras;
use crate::known_projects::{KnownProjects, is_installer};
use crate::lack::push_lack_without_marker;
use crate::locked_reading::LockedReading;
use crate::stale_lock::{in_one_folder, push_stale_in_pair};
use crate::together::is_standard;
use pep440_rs::Version;
use pyver_findings::{Conflict, Demand, FileLine, Finding, LineMeaning};
use pyver_locks::lock_faults::contains_name;
use pyver_locks::lock_kind::LockKind;
use pyver_locks::locked_package::LockParts;
use pyver_projects::project::{Section, is_project_name};
use std::alloc::{AllocError, Global};
use std::collections::HashMap;

// The parts of a lock, all its packages, and the packages of each name in their order.
#[derive(Drop)]
pub(crate) struct PackageIndex<'a> {
    pub(crate) parts: &'a LockParts,
    pub(crate) packages: &'a [LockedReading],
    by_name: HashMap<&'a [u8], Vec<&'a LockedReading>>,
}

// The packages, or none.
fn packages_or_none<'a>(
    alloc: Global,
    group: Option<Vec<&'a LockedReading>>,
) -> Vec<&'a LockedReading>
    ensures { result.items ≡ option_map_or (λ g. g.items) group.entry [] }
{
    match group {
        Some(packages) => packages,
        None => Vec::new(alloc),
    }
}

// Adds the package to the group of its name.
fn push_to_group<'a>(
    alloc: Global,
    groups: &mut HashMap<&'a [u8], Vec<&'a LockedReading>>,
    locked: &'a LockedReading,
) -> Result<(), AllocError>
    ensures { IfOk result (λ _. (q : List ℕ) → map (λ y. locked_reading_of y.now) (option_map_or (λ g. g.items) (get_by (λ k. bytes_eq q k.now) groups.new) []) ≡ map (λ y. locked_reading_of y.now) (option_map_or (λ g. g.items) (get_by (λ k. bytes_eq q k.now) groups.old) []) ++ (if bytes_eq q locked.now.name.items then locked_reading_of locked.now ∷ [] else [])) }
{
    let name = locked.name.as_slice();
    let mut group = packages_or_none(alloc, groups.remove(name));
    group.push(locked)?;
    groups.insert(name, group)?;
    Ok(())
}

impl<'a> PackageIndex<'a> {
    pub(crate) fn new(
        alloc: Global,
        parts: &'a LockParts,
        packages: &'a [LockedReading],
    ) -> Result<PackageIndex<'a>, AllocError>
        ensures index { IfOk result (λ index. IsIndex index) }
        ensures parts { IfOk result (λ index. index_parts index ≡ parts_of parts.now) }
        ensures packages { IfOk result (λ index. packages_of index ≡ map locked_reading_of packages.now) }
    {
        let mut by_name: HashMap<&'a [u8], Vec<&'a LockedReading>> = HashMap::new(alloc);
        for locked in packages {
            push_to_group(alloc, &mut by_name, locked)?;
        }
        Ok(PackageIndex {
            parts,
            packages,
            by_name,
        })
    }

    // The packages with this name, if there are any.
    pub(crate) fn of_name(&self, name: &[u8]) -> Option<&Vec<&'a LockedReading>>
        requires { IsIndex self.now }
        ensures { map (λ y. locked_reading_of y.now) (option_map_or (λ g. g.now.items) result []) ≡ filter (λ y. bytes_eq name.now y.name) (packages_of self.now) }
    {
        self.by_name.get(name)
    }
}

// A lock beside a project.
#[derive(Drop)]
pub(crate) struct IndexedLock<'a> {
    pub(crate) kind: LockKind,
    // The name of the project beside it, in its normal form.
    project: &'a Option<Vec<u8>>,
    // In one folder with it.
    pub(crate) near: bool,
    pub(crate) projects: &'a KnownProjects,
    pub(crate) packages: PackageIndex<'a>,
}

fn locks_groups(kind: LockKind) -> bool
    ensures { result ≡ locks_groups kind }
{
    matches!(kind, LockKind::Uv)
}

fn locks_extras(kind: LockKind) -> bool
    ensures { result ≡ locks_extras kind }
{
    matches!(kind, LockKind::Uv | LockKind::Poetry)
}

// The lock says which groups it has, if it names some.
fn names_groups(kind: LockKind, parts: &[Vec<u8>]) -> bool
    ensures { result ≡ names_groups kind (map (λ n. n.items) parts.now) }
{
    match kind {
        LockKind::Pdm | LockKind::Pylock => parts.len() > 0,
        _ => false,
    }
}

// The lock has what all tables of Poetry ask for.
fn locks_entries(kind: LockKind) -> bool
    ensures { result ≡ locks_entries kind }
{
    matches!(kind, LockKind::Poetry)
}

// The section is of a table of another tool than that of the lock.
fn is_of_other_tool(kind: LockKind, section: &Section) -> bool
    ensures { result ≡ is_of_other_tool kind (section_of section.now) }
{
    match section {
        Section::Entry(_, _) => !locks_entries(kind),
        Section::Constraint => !locks_groups(kind),
        _ => false,
    }
}

// A lock with these groups has what this part of the project needs.
#[tactic(auto, using(pyver_requirements::proofs::Grouped::any_viewed))]
pub(crate) fn is_needed(kind: LockKind, parts: &[Vec<u8>], section: &Section) -> bool
    ensures { result ≡ is_needed kind (map (λ n. n.items) parts.now) (section_of section.now) }
{
    match section {
        Section::Dependencies => !names_groups(kind, parts) || contains_name(parts, b"default"),
        Section::Extra(name) => locks_extras(kind) || contains_name(parts, name.as_slice()),
        Section::Group(name) => locks_groups(kind) || contains_name(parts, name.as_slice()),
        Section::Entry(_, _) => locks_entries(kind),
        _ => false,
    }
}

// It is for other parts of the project.
fn leaves_out(kind: LockKind, parts: &[Vec<u8>], section: &Section) -> bool
    ensures { result ≡ leaves_out kind (map (λ n. n.items) parts.now) (section_of section.now) }
{
    is_of_other_tool(kind, section)
        || (names_groups(kind, parts) && !is_needed(kind, parts, section))
}

// A lock, in one folder with the project or not, may have what the part needs.
pub(crate) fn is_locked(near: bool, section: &Section) -> bool
    ensures { result ≡ is_locked near (section_of section.now) }
{
    match section {
        Section::Dependencies | Section::Extra(_) | Section::Group(_) => true,
        Section::Entry(_, _) => true,
        Section::Constraint => near,
        _ => false,
    }
}

// A project overrides the name, and so what tables of the standard require of it.
pub(crate) fn is_overridden(projects: &KnownProjects, section: &Section, name: &[u8]) -> bool
    ensures { result ≡ is_overridden (excuses projects.now) (section_of section.now) name.now }
{
    is_standard(section) && projects.overrides(name)
}

// Adds the line beside those of versions that it excludes, if there are some.
fn push_outside(
    alloc: Global,
    findings: &mut Vec<Finding>,
    line: &FileLine,
    others: Vec<FileLine>,
) -> Result<(), AllocError>
    ensures { IfOk result (λ _. map finding_of findings.new.items ≡ map finding_of findings.old.items ++ outside (file_line_of line.now) (map file_line_of others.items)) }
{
    let mut others = others;
    if others.is_empty() {
        return Ok(());
    }
    let mut lines = Vec::new(alloc);
    lines.push(line.clone()?)?;
    lines.append(&mut others)?;
    findings.push(Finding::Conflicting(Conflict::PinOutside, lines, None))?;
    Ok(())
}

// The list of the requirement contains the version, if there is one.
fn accepts_version(
    alloc: Global,
    demand: &Demand,
    version: &Option<Version>,
) -> Result<bool, AllocError>
    ensures { IfOk result (λ b. b ≡ accepts_version (demand_of demand.now).specifiers version.now) }
{
    match version {
        Some(version) => demand.specifiers.matches_literally(alloc, version),
        None => Ok(false),
    }
}

// The list of the requirement contains the version of one of these packages.
fn contains_any(
    alloc: Global,
    demand: &Demand,
    group: &[&LockedReading],
) -> Result<bool, AllocError>
    ensures { IfOk result (λ b. b ≡ list_any (λ y. accepts_version (demand_of demand.now).specifiers y.version) (map (λ y. locked_reading_of y.now) group.now)) }
{
    for locked in group {
        if accepts_version(alloc, demand, &locked.version)? {
            return Ok(true);
        }
    }
    Ok(false)
}

fn push_locked_line(lines: &mut Vec<FileLine>, locked: &LockedReading) -> Result<(), AllocError>
    ensures { IfOk result (λ _. map file_line_of lines.new.items ≡ map file_line_of lines.old.items ++ locked_line (locked_reading_of locked.now)) }
{
    if locked.version.is_some() {
        lines.push(locked.line.clone()?)?;
    }
    Ok(())
}

// The lines of the packages with a version.
fn locked_lines(alloc: Global, group: &[&LockedReading]) -> Result<Vec<FileLine>, AllocError>
    ensures { IfOk result (λ lines. map file_line_of lines.items ≡ flat_map locked_line (map (λ y. locked_reading_of y.now) group.now)) }
{
    let mut lines = Vec::new(alloc);
    for locked in group {
        push_locked_line(&mut lines, locked)?;
    }
    Ok(lines)
}

// Adds the requirement beside these packages, if its list contains the version of none.
fn push_excluded(
    alloc: Global,
    findings: &mut Vec<Finding>,
    demand: &Demand,
    group: &[&LockedReading],
) -> Result<(), AllocError>
    ensures { IfOk result (λ _. map finding_of findings.new.items ≡ map finding_of findings.old.items ++ (if list_any (λ y. accepts_version (demand_of demand.now).specifiers y.version) (map (λ y. locked_reading_of y.now) group.now) then [] else outside (demand_of demand.now).line (flat_map locked_line (map (λ y. locked_reading_of y.now) group.now)))) }
{
    if contains_any(alloc, demand, group)? {
        return Ok(());
    }
    let others = locked_lines(alloc, group)?;
    push_outside(alloc, findings, &demand.line, others)
}

// Adds the requirement beside the packages of its name, if its list contains the version of none.
fn push_all_excluded(
    alloc: Global,
    findings: &mut Vec<Finding>,
    demand: &Demand,
    packages: &PackageIndex<'_>,
) -> Result<(), AllocError>
    requires { IsIndex packages.now }
    ensures { IfOk result (λ _. map finding_of findings.new.items ≡ map finding_of findings.old.items ++ excluded (demand_of demand.now) (packages_of packages.now)) }
{
    match packages.of_name(demand.name.as_slice()) {
        Some(group) => push_excluded(alloc, findings, demand, group.as_slice()),
        None => Ok(()),
    }
}

// Some package has the name of the requirement.
fn has_package(demand: &Demand, packages: &PackageIndex<'_>) -> bool
    requires { IsIndex packages.now }
    ensures { result ≡ list_any (has_name (demand_of demand.now)) (packages_of packages.now) }
{
    match packages.of_name(demand.name.as_slice()) {
        Some(group) => !group.as_slice().is_empty(),
        None => false,
    }
}

// Adds that no package has the name of the requirement, if none has.
fn push_absent(
    alloc: Global,
    findings: &mut Vec<Finding>,
    packages: &PackageIndex<'_>,
    demand: &Demand,
) -> Result<(), AllocError>
    requires { IsIndex packages.now }
    ensures { IfOk result (λ _. map finding_of findings.new.items ≡ map finding_of findings.old.items ++ absent (packages_of packages.now) (demand_of demand.now)) }
{
    if has_package(demand, packages) {
        return Ok(());
    }
    let reason = String::from_str(alloc, "the lock has no package of this name")?;
    findings.push(Finding::NoRequirement(demand.line.clone()?, reason, 0))?;
    Ok(())
}

// The requirement may take the package.
fn may_take(alloc: Global, demand: &Demand, locked: &LockedReading) -> Result<bool, AllocError>
    ensures { IfOk result (λ b. b ≡ may_take (demand_of demand.now).specifiers (locked_reading_of locked.now)) }
{
    if locked.version.is_none() {
        return Ok(true);
    }
    accepts_version(alloc, demand, &locked.version)
}

// The packages that it may take.
fn filter_taken<'a>(
    alloc: Global,
    demand: &Demand,
    group: &[&'a LockedReading],
) -> Result<Vec<&'a LockedReading>, AllocError>
    ensures { IfOk result (λ taken. map (λ y. locked_reading_of y.now) taken.items ≡ filter (may_take (demand_of demand.now).specifiers) (map (λ y. locked_reading_of y.now) group.now)) }
{
    let mut taken = Vec::new(alloc);
    for locked in group {
        if may_take(alloc, demand, *locked)? {
            taken.push(*locked)?;
        }
    }
    Ok(taken)
}

fn push_lack_of_group(
    alloc: Global,
    findings: &mut Vec<Finding>,
    parts: &LockParts,
    demand: &Demand,
    group: &[&LockedReading],
) -> Result<(), AllocError>
    ensures { IfOk result (λ _. map finding_of findings.new.items ≡ map finding_of findings.old.items ++ lack_without_marker (parts_of parts.now) (demand_of demand.now) (filter (may_take (demand_of demand.now).specifiers) (map (λ y. locked_reading_of y.now) group.now))) }
{
    let taken = filter_taken(alloc, demand, group)?;
    push_lack_without_marker(alloc, findings, parts, demand, taken.as_slice())
}

fn push_lack_of_name(
    alloc: Global,
    findings: &mut Vec<Finding>,
    packages: &PackageIndex<'_>,
    demand: &Demand,
) -> Result<(), AllocError>
    requires { IsIndex packages.now }
    ensures { IfOk result (λ _. map finding_of findings.new.items ≡ map finding_of findings.old.items ++ lack_without_marker (index_parts packages.now) (demand_of demand.now) (taken_packages (packages_of packages.now) (demand_of demand.now))) }
{
    match packages.of_name(demand.name.as_slice()) {
        Some(group) => {
            push_lack_of_group(alloc, findings, packages.parts, demand, group.as_slice())
        }
        None => Ok(()),
    }
}

// Adds that the lock has no package of the name of the requirement; or, if that has no marker, in some environment none that it may take.
fn push_absence_or_lack(
    alloc: Global,
    findings: &mut Vec<Finding>,
    packages: &PackageIndex<'_>,
    demand: &Demand,
) -> Result<(), AllocError>
    requires { IsIndex packages.now }
    ensures { IfOk result (λ _. map finding_of findings.new.items ≡ map finding_of findings.old.items ++ unlocked (index_parts packages.now) (packages_of packages.now) (demand_of demand.now)) }
{
    push_absent(alloc, findings, packages, demand)?;
    push_lack_of_name(alloc, findings, packages, demand)
}

// Adds that no package has the name of the requirement of a package, if the lock lacks it.
fn push_lacking(
    alloc: Global,
    findings: &mut Vec<Finding>,
    projects: &KnownProjects,
    packages: &PackageIndex<'_>,
    demand: &Demand,
) -> Result<(), AllocError>
    requires { IsIndex packages.now }
    ensures { IfOk result (λ _. map finding_of findings.new.items ≡ map finding_of findings.old.items ++ lacking (excuses projects.now) (index_parts packages.now) (packages_of packages.now) (demand_of demand.now)) }
{
    if projects.excuses(demand.name.as_slice()) {
        return Ok(());
    }
    push_absence_or_lack(alloc, findings, packages, demand)
}

// Adds what it lacks and excludes, unless a project overrides it.
fn push_unmet_demand(
    alloc: Global,
    findings: &mut Vec<Finding>,
    projects: &KnownProjects,
    packages: &PackageIndex<'_>,
    demand: &Demand,
) -> Result<(), AllocError>
    requires { IsIndex packages.now }
    ensures { IfOk result (λ _. map finding_of findings.new.items ≡ map finding_of findings.old.items ++ unmet_demand (excuses projects.now) (index_parts packages.now) (packages_of packages.now) (demand_of demand.now)) }
{
    if projects.overrides(demand.name.as_slice()) {
        return Ok(());
    }
    push_lacking(alloc, findings, projects, packages, demand)?;
    push_all_excluded(alloc, findings, demand, packages)
}

// Adds what a requirement of a package lacks and excludes in its own lock.
pub(crate) fn push_unmet_meaning(
    alloc: Global,
    findings: &mut Vec<Finding>,
    projects: &KnownProjects,
    packages: &PackageIndex<'_>,
    requirement: &LineMeaning,
) -> Result<(), AllocError>
    requires { IsIndex packages.now }
    ensures { IfOk result (λ _. map finding_of findings.new.items ≡ map finding_of findings.old.items ++ unmet (excuses projects.now) (index_parts packages.now) (packages_of packages.now) (line_meaning_of requirement.now)) }
{
    match requirement {
        LineMeaning::Asks(demand) => {
            push_unmet_demand(alloc, findings, projects, packages, demand)
        }
        LineMeaning::IsNone(_) | LineMeaning::LeftOut(_) | LineMeaning::AsksNothing => Ok(()),
    }
}

fn push_unmet_in_index(
    alloc: Global,
    findings: &mut Vec<Finding>,
    projects: &KnownProjects,
    packages: &PackageIndex<'_>,
    requirements: &[LineMeaning],
) -> Result<(), AllocError>
    requires { IsIndex packages.now }
    ensures { IfOk result (λ _. map finding_of findings.new.items ≡ map finding_of findings.old.items ++ flat_map (unmet (excuses projects.now) (index_parts packages.now) (packages_of packages.now)) (map line_meaning_of requirements.now)) }
{
    for requirement in requirements {
        push_unmet_meaning(alloc, findings, projects, packages, requirement)?;
    }
    Ok(())
}

// Adds what requirements of packages lack and exclude in their own lock.
pub(crate) fn push_unmet_requirements(
    alloc: Global,
    findings: &mut Vec<Finding>,
    projects: &KnownProjects,
    parts: &LockParts,
    packages: &[LockedReading],
    requirements: &[LineMeaning],
) -> Result<(), AllocError>
    ensures { IfOk result (λ _. map finding_of findings.new.items ≡ map finding_of findings.old.items ++ flat_map (unmet (excuses projects.now) (parts_of parts.now) (map locked_reading_of packages.now)) (map line_meaning_of requirements.now)) }
{
    let packages = PackageIndex::new(alloc, parts, packages)?;
    push_unmet_in_index(alloc, findings, projects, &packages, requirements)
}

fn push_missing(
    alloc: Global,
    findings: &mut Vec<Finding>,
    lock: &IndexedLock<'_>,
    section: &Section,
    demand: &Demand,
) -> Result<(), AllocError>
    requires { IsIndex lock.now.packages }
    ensures { IfOk result (λ _. map finding_of findings.new.items ≡ map finding_of findings.old.items ++ missing lock.now.kind (index_parts lock.now.packages) (option_to_list (option_map (λ n. n.items) lock.now.project.now)) (packages_of lock.now.packages) (section_of section.now) (demand_of demand.now)) }
{
    if is_installer(demand.name.as_slice()) {
        return Ok(());
    }
    if is_project_name(lock.project, demand.name.as_slice()) {
        return Ok(());
    }
    if !is_needed(lock.kind, lock.packages.parts.names.as_slice(), section) {
        return Ok(());
    }
    push_absence_or_lack(alloc, findings, &lock.packages, demand)
}

// Adds the requirement beside the packages of its name, if its list contains the version of none, unless the lock leaves the part out.
fn push_excluded_in(
    alloc: Global,
    findings: &mut Vec<Finding>,
    lock: &IndexedLock<'_>,
    section: &Section,
    demand: &Demand,
) -> Result<(), AllocError>
    requires { IsIndex lock.now.packages }
    ensures { IfOk result (λ _. map finding_of findings.new.items ≡ map finding_of findings.old.items ++ excluded_in lock.now.kind (index_parts lock.now.packages) (option_to_list (option_map (λ n. n.items) lock.now.project.now)) (packages_of lock.now.packages) (section_of section.now) (demand_of demand.now)) }
{
    if leaves_out(lock.kind, lock.packages.parts.names.as_slice(), section) {
        return Ok(());
    }
    push_all_excluded(alloc, findings, demand, &lock.packages)
}

fn push_compared_demand(
    alloc: Global,
    findings: &mut Vec<Finding>,
    lock: &IndexedLock<'_>,
    section: &Section,
    demand: &Demand,
) -> Result<(), AllocError>
    requires { IsIndex lock.now.packages }
    ensures { IfOk result (λ _. map finding_of findings.new.items ≡ map finding_of findings.old.items ++ compared_demand lock.now.kind (index_parts lock.now.packages) (option_to_list (option_map (λ n. n.items) lock.now.project.now)) (excuses lock.now.projects.now) lock.now.near (packages_of lock.now.packages) (section_of section.now) (demand_of demand.now)) }
{
    if demand.marker.is_some() {
        return Ok(());
    }
    if is_overridden(lock.projects, section, demand.name.as_slice()) {
        return Ok(());
    }
    push_missing(alloc, findings, lock, section, demand)?;
    push_excluded_in(alloc, findings, lock, section, demand)
}

fn push_compared_meaning(
    alloc: Global,
    findings: &mut Vec<Finding>,
    lock: &IndexedLock<'_>,
    section: &Section,
    meaning: &LineMeaning,
) -> Result<(), AllocError>
    requires { IsIndex lock.now.packages }
    ensures { IfOk result (λ _. map finding_of findings.new.items ≡ map finding_of findings.old.items ++ flat_map (compared_demand lock.now.kind (index_parts lock.now.packages) (option_to_list (option_map (λ n. n.items) lock.now.project.now)) (excuses lock.now.projects.now) lock.now.near (packages_of lock.now.packages) (section_of section.now)) (demands_in (line_meaning_of meaning.now))) }
{
    match meaning {
        LineMeaning::Asks(demand) => {
            push_compared_demand(alloc, findings, lock, section, demand)
        }
        LineMeaning::IsNone(_) | LineMeaning::LeftOut(_) | LineMeaning::AsksNothing => Ok(()),
    }
}

fn push_compared(
    alloc: Global,
    findings: &mut Vec<Finding>,
    lock: &IndexedLock<'_>,
    string: &StringReading,
) -> Result<(), AllocError>
    requires { IsIndex lock.now.packages }
    ensures { IfOk result (λ _. map finding_of findings.new.items ≡ map finding_of findings.old.items ++ compared lock.now.kind (index_parts lock.now.packages) (option_to_list (option_map (λ n. n.items) lock.now.project.now)) (excuses lock.now.projects.now) lock.now.near (packages_of lock.now.packages) (string_reading_of string.now)) }
{
    if !is_locked(lock.near, &string.section) {
        return Ok(());
    }
    push_compared_meaning(alloc, findings, lock, &string.section, &string.meaning)
}

fn push_all_compared(
    alloc: Global,
    findings: &mut Vec<Finding>,
    lock: &IndexedLock<'_>,
    strings: &[StringReading],
) -> Result<(), AllocError>
    requires { IsIndex lock.now.packages }
    ensures { IfOk result (λ _. map finding_of findings.new.items ≡ map finding_of findings.old.items ++ flat_map (compared lock.now.kind (index_parts lock.now.packages) (option_to_list (option_map (λ n. n.items) lock.now.project.now)) (excuses lock.now.projects.now) lock.now.near (packages_of lock.now.packages)) (map string_reading_of strings.now)) }
{
    for string in strings {
        push_compared(alloc, findings, lock, string)?;
    }
    Ok(())
}

// Adds what is found of the strings of a project, and of the extras that they ask for.
fn push_compared_strings(
    alloc: Global,
    findings: &mut Vec<Finding>,
    lock: &IndexedLock<'_>,
    strings: &[StringReading],
    optional: &[ExtraReading],
) -> Result<(), AllocError>
    requires { IsIndex lock.now.packages }
    ensures { IfOk result (λ _. map finding_of findings.new.items ≡ map finding_of findings.old.items ++ (flat_map (compared lock.now.kind (index_parts lock.now.packages) (option_to_list (option_map (λ n. n.items) lock.now.project.now)) (excuses lock.now.projects.now) lock.now.near (packages_of lock.now.packages)) (map string_reading_of strings.now) ++ unmet_extras lock.now.kind (index_parts lock.now.packages) (excuses lock.now.projects.now) lock.now.near (packages_of lock.now.packages) (map extra_reading_of optional.now) (map string_reading_of strings.now))) }
{
    push_all_compared(alloc, findings, lock, strings)?;
    push_unmet_extras(alloc, findings, lock, optional, strings)
}

// What is found in the project beside the lock of this kind.
fn push_beside_lock<'a>(
    alloc: Global,
    findings: &mut Vec<Finding>,
    projects: &'a KnownProjects,
    near: bool,
    kind: LockKind,
    project: &'a ProjectReading,
    lock: &'a LockReading,
) -> Result<(), AllocError>
    ensures { IfOk result (λ _. map finding_of findings.new.items ≡ map finding_of findings.old.items ++ (flat_map (compared kind (parts_of lock.now.parts) (option_to_list (option_map (λ n. n.items) project.now.name)) (excuses projects.now) near (map locked_reading_of lock.now.packages.items)) (map string_reading_of project.now.strings.items)
        ++ unmet_extras kind (parts_of lock.now.parts) (excuses projects.now) near (map locked_reading_of lock.now.packages.items) (map extra_reading_of lock.now.optional.items) (map string_reading_of project.now.strings.items))) }
{
    let strings = project.strings.as_slice();
    let optional = lock.optional.as_slice();
    let found = lock.packages.as_slice();
    let packages = PackageIndex::new(alloc, &lock.parts, found)?;
    let lock = IndexedLock {
        kind,
        project: &project.name,
        near,
        projects,
        packages,
    };
    push_compared_strings(alloc, findings, &lock, strings, optional)
}

// What is found in the first document beside the second, of this kind, in one folder with it or not.
fn push_beside<'a>(
    alloc: Global,
    findings: &mut Vec<Finding>,
    projects: &'a KnownProjects,
    near: bool,
    kind: DocumentKind,
    document: &'a DocumentReading,
    other: &'a DocumentReading,
) -> Result<(), AllocError>
    ensures { IfOk result (λ _. map finding_of findings.new.items ≡ map finding_of findings.old.items ++ found_beside (excuses projects.now) near kind (document_reading_of document.now) (document_reading_of other.now)) }
{
    let DocumentKind::Lock(kind) = kind else {
        return Ok(());
    };
    let DocumentReading::Project(project) = document else {
        return Ok(());
    };
    let DocumentReading::Lock(lock) = other else {
        return Ok(());
    };
    push_beside_lock(alloc, findings, projects, near, kind, project, lock)
}

// The document that was read is a lock that belongs to the project with this name.
fn is_beside(alloc: Global, project: &[u8], other: &ReadDocument<'_>) -> Result<bool, AllocError>
    ensures { IfOk result (λ b. b ≡ is_beside project.now (read_pair other.now).0.file.name (read_pair other.now).1) }
{
    let name = other.document.file.name.as_slice();
    match &other.reading {
        DocumentReading::Lock(lock) => belongs(alloc, &lock.parts, name, project),
        DocumentReading::Project(_) | DocumentReading::Broken(_) => Ok(false),
    }
}

// What is found in the first document beside the second, if this is a lock that belongs to it.
fn push_pair_of_documents(
    alloc: Global,
    findings: &mut Vec<Finding>,
    projects: &KnownProjects,
    read: &ReadDocument<'_>,
    other: &ReadDocument<'_>,
) -> Result<(), AllocError>
    ensures { IfOk result (λ _. map finding_of findings.new.items ≡ map finding_of findings.old.items ++ found_in_pair (excuses projects.now) (read_pair read.now) (read_pair other.now)) }
{
    if !is_beside(alloc, read.document.file.name.as_slice(), other)? {
        return Ok(());
    }
    push_stale_in_pair(alloc, findings, read, other)?;
    push_beside(
        alloc,
        findings,
        projects,
        in_one_folder(read.document, other.document),
        other.document.kind,
        &read.reading,
        &other.reading,
    )
}

// What is found in the document beside each of the others.
pub(crate) fn push_beside_all(
    alloc: Global,
    findings: &mut Vec<Finding>,
    projects: &KnownProjects,
    others: &[ReadDocument<'_>],
    read: &ReadDocument<'_>,
) -> Result<(), AllocError>
    ensures { IfOk result (λ _. map finding_of findings.new.items ≡ map finding_of findings.old.items ++ beside_all (excuses projects.now) (map read_pair others.now) (read_pair read.now)) }
{
    for other in others {
        push_pair_of_documents(alloc, findings, projects, read, other)?;
    }
    Ok(())
}
