//! What is read of a lock: packages, what they require, and files in whose names another version stands.
ghost use Rattle.std.specs.Prelude.{◌≡◌, IfOk, option_map, ◌++◌, map, option_to_list, bytes_eq, codes, false};
ghost use Rattle.std.specs.Option.{option_map_or};
ghost use Rattle.toml.specs.View.{view};
ghost use Rattle.pyver_locks.specs.LockContents.{locked_file_of};
ghost use Rattle.pyver_locks.specs.LockedFiles.{last_section, without_ending, wheel_version, archive_version, file_version, file_path, file_name, new_file, named_file, version_from, files_after, files_in, is_index, is_indexed, files_from};
ghost use Rattle.pyver_locks.specs.PackageRequirements.{package_text};

use pep440_pick::{same_name, split_at_byte};
use pyver_projects::requirement_strings::{first_of, lacks};
use pyver_projects::table::{items, text};
use std::alloc::{AllocError, Global};
use toml::Value;

/// The environments in which a lock has a package: these Pythons, if the marker holds, as both are written.
#[derive(Drop)]
pub struct PackageCondition {
    pub python: String,
    pub marker: String,
}

/// A package in a lock.
#[derive(Drop)]
pub struct LockedPackage {
    /// The number of its line, from 1.
    pub line: u64,
    pub name: String,
    pub version: Option<String>,
    /// In which environments it is, if not in all.
    pub condition: Option<PackageCondition>,
}

/// A requirement of a package in a lock.
#[derive(Drop)]
pub struct LockedRequirement {
    /// The number of the line of the package, from 1.
    pub line: u64,
    /// Its name and its version.
    pub requirer: Vec<u8>,
    /// The name that it requires.
    pub name: String,
    /// The extras that it asks for, as they are written.
    pub extras: Vec<String>,
    /// The list of specifiers; empty if it has none.
    pub list: String,
    /// It only refers to a package, which may have a marker (PEP 751, `packages.dependencies`), or, in `entries`, has a source of its own: its list
    /// does not count.
    pub is_reference: bool,
}

/// A requirement that a package in a lock has for one of its extras.
#[derive(Drop)]
pub struct LockedExtra {
    /// The name of the package and the extra, in their normal forms, with `[` between.
    pub key: Vec<u8>,
    pub requirement: LockedRequirement,
}

/// A file of a package in a lock, in whose name a version stands.
#[derive(Drop)]
pub struct LockedFile {
    /// The number of the line of the package, from 1.
    pub line: u64,
    /// The name and the version of the package.
    pub name: String,
    pub version: String,
    /// The name of the file, and the version in it.
    pub file: String,
    pub written: String,
}

/// What is wrong in a lock: with a package by itself or beside others, or with a value of another type.
#[derive(Drop)]
pub struct LockFault {
    /// The number of the line of the package or the value, from 1; 1 if none is known.
    pub line: u64,
    /// What is shown of it.
    pub text: Vec<u8>,
    pub reason: &'static str,
}

/// The parts of a project that a lock has, in normal form.
#[derive(Drop)]
pub struct LockParts {
    /// The names of its groups and extras, with `default` for the dependencies.
    pub names: Vec<Vec<u8>>,
    /// What `extras` and `dependency_groups` are in its markers if all that it has is installed.
    pub extras: Vec<Vec<u8>>,
    pub groups: Vec<Vec<u8>>,
    /// The markers of the environments that it is for, or none.
    pub environments: Vec<Vec<u8>>,
    /// For which versions of Python it says that the project in its folder is.
    pub python: Option<String>,
    /// The folders of its members, as its own folder has them: what stands before the names of their files.
    pub members: Vec<Vec<u8>>,
}

/// What is read of a lock.
#[derive(Drop)]
pub struct LockContents {
    pub parts: LockParts,
    pub packages: Vec<LockedPackage>,
    /// What the packages require, also for the extras that these ask for.
    pub requirements: Vec<LockedRequirement>,
    /// What they require for other extras.
    pub optional: Vec<LockedExtra>,
    /// What it says that the project in its folder requires.
    pub entries: Vec<LockedRequirement>,
    pub files: Vec<LockedFile>,
    pub faults: Vec<LockFault>,
}

/// The name, and after a blank the version, if there is one.
///
/// Allocates.
pub fn package_text(alloc: Global, name: &str, version: Option<&str>) -> Result<Vec<u8>, AllocError>
    ensures { IfOk result (λ text. text.items ≡ package_text name.now (option_map (λ t. t.now) version.entry)) }
{
    let mut text = Vec::from_slice(alloc, name.as_bytes())?;
    if let Some(version) = version {
        text.push(b' ')?;
        text.extend_from_slice(version.as_bytes())?;
    }
    Ok(text)
}

// A package that has a name and a version.
#[derive(Drop)]
struct NamedPackage<'a> {
    // The number of its line, from 1.
    line: u64,
    name: &'a str,
    version: &'a str,
}

// What stands after the last `/`, or all.
#[tactic(auto, using(crate::proofs::Readings::no_section))]
fn last_section(path: &str) -> &str
    ensures { result.now ≡ last_section path.now }
{
    match path.rsplit_once('/') {
        Some((_, section)) => section,
        None => path,
    }
}

// The string before the ending, if it ends so.
#[tactic(auto, using(crate::proofs::Readings::ending_is))]
fn without_ending<'a>(text: &'a str, ending: &str) -> Option<&'a str>
    ensures { option_map (λ t. t.now) result ≡ without_ending ending.now text.now }
{
    text.strip_suffix(ending)
}

// The version of a wheel, of what follows its project and a dash.
fn wheel_version(rest: &str) -> Option<&str>
    ensures { option_map (λ t. t.now) result ≡ wheel_version rest.now }
{
    let tagged = without_ending(rest, ".whl")?;
    let (version, _) = split_at_byte(tagged, '-')?;
    Some(version)
}

// The version of an archive of sources, of what follows its project and a dash.
fn archive_version(rest: &str) -> Option<&str>
    ensures { option_map (λ t. t.now) result ≡ archive_version rest.now }
{
    match without_ending(rest, ".tar.gz") {
        Some(version) => Some(version),
        None => without_ending(rest, ".zip"),
    }
}

// The version in the name of a file of this project.
fn file_version<'a>(name: &str, file: &'a str) -> Option<&'a str>
    ensures { option_map (λ t. t.now) result ≡ file_version name.now file.now }
{
    let (project, rest) = split_at_byte(file, '-')?;
    if !same_name(project, name) {
        return None;
    }
    match wheel_version(rest) {
        Some(version) => Some(version),
        None => archive_version(rest),
    }
}

// Where the file is said to be.
fn file_path(item: &Value) -> Option<&str>
    ensures { option_map (λ t. t.now) result ≡ file_path (view item.now) }
{
    let location = first_of(text(item.get("url")), text(item.get("path")));
    let named = first_of(text(item.get("name")), location);
    first_of(text(item.get("file")), named)
}

fn file_name(item: &Value) -> Option<&str>
    ensures { option_map (λ t. t.now) result ≡ file_name (view item.now) }
{
    match file_path(item) {
        Some(path) => Some(last_section(path)),
        None => None,
    }
}

// Adds the file with this version, unless that is written as the last one was.
fn push_new_file(
    alloc: Global,
    files: &mut Vec<LockedFile>,
    named: &NamedPackage<'_>,
    last: &str,
    file: &str,
    written: &str,
) -> Result<(), AllocError>
    ensures { IfOk result (λ _. map locked_file_of files.new.items ≡ map locked_file_of files.old.items ++ new_file named.now.line named.now.name.now named.now.version.now last.now file.now (Some written.now)) }
{
    if written == last {
        return Ok(());
    }
    files.push(LockedFile {
        line: named.line,
        name: String::from_str(alloc, named.name)?,
        version: String::from_str(alloc, named.version)?,
        file: String::from_str(alloc, file)?,
        written: String::from_str(alloc, written)?,
    })?;
    Ok(())
}

// Adds the file, if a version in its name is written otherwise than the last one, and returns what is the last one then.
fn push_file<'a>(
    alloc: Global,
    files: &mut Vec<LockedFile>,
    named: &NamedPackage<'_>,
    last: &'a str,
    item: &'a Value,
) -> Result<&'a str, AllocError>
    ensures files { IfOk result (λ _. map locked_file_of files.new.items ≡ map locked_file_of files.old.items ++ named_file named.now.line named.now.name.now named.now.version.now last.now (file_name (view item.now))) }
    ensures last { IfOk result (λ t. t.now ≡ version_from named.now.name.now last.now (view item.now)) }
{
    let Some(file) = file_name(item) else {
        return Ok(last);
    };
    let Some(written) = file_version(named.name, file) else {
        return Ok(last);
    };
    push_new_file(alloc, files, named, last, file, written)?;
    Ok(written)
}

// Adds the files that begin a run of another version than that of the named.
fn push_files<'a>(
    alloc: Global,
    files: &mut Vec<LockedFile>,
    named: &NamedPackage<'a>,
    list: &'a [Value],
) -> Result<(), AllocError>
    ensures { IfOk result (λ _. map locked_file_of files.new.items ≡ map locked_file_of files.old.items ++ files_after named.now.line named.now.name.now named.now.version.now named.now.version.now (map view list.now)) }
{
    let mut last = named.version;
    for item in list {
        last = push_file(alloc, files, named, last, item)?;
    }
    Ok(())
}

// Adds the file, if there is one.
fn push_archive<'a>(
    alloc: Global,
    files: &mut Vec<LockedFile>,
    named: &NamedPackage<'a>,
    item: Option<&'a Value>,
) -> Result<(), AllocError>
    ensures { IfOk result (λ _. map locked_file_of files.new.items ≡ map locked_file_of files.old.items ++ files_after named.now.line named.now.name.now named.now.version.now named.now.version.now (option_to_list (option_map (λ v. view v.now) item.entry))) }
{
    if let Some(item) = item {
        push_file(alloc, files, named, named.version, item)?;
    }
    Ok(())
}

fn push_files_in(
    alloc: Global,
    files: &mut Vec<LockedFile>,
    named: &NamedPackage<'_>,
    table: &Value,
) -> Result<(), AllocError>
    ensures { IfOk result (λ _. map locked_file_of files.new.items ≡ map locked_file_of files.old.items ++ files_in named.now.line named.now.name.now named.now.version.now (view table.now)) }
{
    push_files(alloc, files, named, items(table.get("files")))?;
    push_files(alloc, files, named, items(table.get("wheels")))?;
    push_archive(alloc, files, named, table.get("sdist"))
}

fn is_legacy(kind: Option<&str>) -> bool
    ensures { result ≡ option_map_or (λ t. bytes_eq t (codes "legacy")) (option_map (λ t. t.now) kind.entry) false }
{
    match kind {
        Some(kind) => kind == "legacy",
        None => false,
    }
}

// The source of a package is an index, as uv and Poetry write it.
fn is_index(source: Option<&Value>) -> bool
    ensures { result ≡ is_index (option_map (λ v. view v.now) source.entry) }
{
    match source {
        Some(source) => source.get("registry").is_some() || is_legacy(text(source.get("type"))),
        None => true,
    }
}

// The package is from an index, and not at a URL or a path.
fn is_indexed(table: &Value) -> bool
    ensures { result ≡ is_indexed (view table.now) }
{
    lacks(table, "url") && lacks(table, "path") && is_index(table.get("source"))
}

// Adds the files of the package on this line that begin a run of another version, if it is from an index and has a name and a version.
pub(crate) fn push_locked_files(
    alloc: Global,
    files: &mut Vec<LockedFile>,
    line: u64,
    table: &Value,
) -> Result<(), AllocError>
    ensures { IfOk result (λ _. map locked_file_of files.new.items ≡ map locked_file_of files.old.items ++ files_from (line, view table.now)) }
{
    if !is_indexed(table) {
        return Ok(());
    }
    let Some(name) = text(table.get("name")) else {
        return Ok(());
    };
    let Some(version) = text(table.get("version")) else {
        return Ok(());
    };
    let named = NamedPackage {
        line,
        name,
        version,
    };
    push_files_in(alloc, files, &named, table)
}
