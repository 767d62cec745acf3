//! The report of documents.
ghost use Rattle.std.specs.Prelude.{◌≡◌, ◌++◌, IfOk, map, []};
ghost use Rattle.std.specs.List.{flat_map, All, AllZip, zip};
ghost use Rattle.toml.specs.Data.{no_members};
ghost use Rattle.pyver_documents.specs.Comparing.{invalid_string, left_out_string, is_excused, own_report, invalid_package, with_own_reports, beside_all, FindsOfReading, IsDocumentsReport};
ghost use Rattle.pyver_documents.specs.DocumentViews.{string_reading_of, locked_reading_of, excuses, document_reading_of, reading_in, document_of, read_pair};
ghost use Rattle.pyver_documents.specs.Meanings.{IsProject, IsSoundDocument, IsDocumentReading};
ghost use Rattle.pyver_findings.specs.MarkedConflicts.{FindsOfEach};
ghost use Rattle.pyver_findings.specs.Reports.{invalid_in, left_out_in, empty_report};
ghost use Rattle.pyver_findings.specs.Views.{finding_of, report_of, line_meaning_of, AddsFound};
ghost use Rattle.pyver_documents.specs.declared.document_reading.DocumentReading.TheVariants as reading;

use crate::document_kind::Document;
use crate::document_reading::{
    DocumentReading, LockReading, ProjectReading, ReadDocument, StringReading, read_document,
};
use crate::known_projects::KnownProjects;
use crate::lock_comparison::{push_beside_all, push_unmet_requirements};
use crate::locked_reading::LockedReading;
use crate::together::project_conflicts;
use pyver_findings::{Finding, LineMeaning, Report};
use pyver_requirements::Cause;
use std::alloc::{AllocError, Global};

// Adds what is wrong with the string by itself, and why it is left out.
fn push_string(report: &mut Report, string: StringReading) -> Result<(), AllocError>
    ensures findings { IfOk result (λ _. map finding_of report.new.findings.items ≡ map finding_of report.old.findings.items ++ invalid_string (string_reading_of string)) }
    ensures left_out { IfOk result (λ _. report.new.left_out.items ≡ report.old.left_out.items ++ left_out_string (string_reading_of string)) }
    ensures ignored { report.new.ignored ≡ report.old.ignored }
    ensures lines { report.new.lines ≡ report.old.lines }
    ensures files { report.new.files ≡ report.old.files }
{
    let StringReading {
        section: _section,
        meaning,
        python: _python,
    } = string;
    match meaning {
        LineMeaning::IsNone(finding) => report.findings.push(finding)?,
        LineMeaning::LeftOut(cause) => report.left_out.push(cause)?,
        LineMeaning::Asks(_) | LineMeaning::AsksNothing => {}
    }
    Ok(())
}

fn report_strings(
    alloc: Global,
    together: bool,
    strings: Vec<StringReading>,
) -> Result<Report, AllocError>
    ensures { IfOk result (λ r. report_of r ≡ own_report (is_excused []) (IsProject no_members together [] [] (map string_reading_of strings.items))) }
{
    let mut report = Report::empty(alloc);
    report.lines = strings.len();
    report.files = 1;
    for string in strings {
        push_string(&mut report, string)?;
    }
    Ok(report)
}

fn push_package(findings: &mut Vec<Finding>, locked: LockedReading) -> Result<(), AllocError>
    ensures { IfOk result (λ _. map finding_of findings.new.items ≡ map finding_of findings.old.items ++ invalid_package (locked_reading_of locked)) }
{
    let LockedReading {
        line: _line,
        name: _name,
        condition: _condition,
        version: _version,
        invalid,
    } = locked;
    if let Some(finding) = invalid {
        findings.push(finding)?;
    }
    Ok(())
}

fn push_packages(
    findings: &mut Vec<Finding>,
    packages: Vec<LockedReading>,
) -> Result<(), AllocError>
    ensures { IfOk result (λ _. map finding_of findings.new.items ≡ map finding_of findings.old.items ++ flat_map invalid_package (map locked_reading_of packages.items)) }
{
    for locked in packages {
        push_package(findings, locked)?;
    }
    Ok(())
}

// Adds what is wrong with a file or a package, if something is.
fn push_lock_fault(findings: &mut Vec<Finding>, fault: LineMeaning) -> Result<(), AllocError>
    ensures { IfOk result (λ _. map finding_of findings.new.items ≡ map finding_of findings.old.items ++ invalid_in (line_meaning_of fault)) }
{
    if let LineMeaning::IsNone(finding) = fault {
        findings.push(finding)?;
    }
    Ok(())
}

fn push_lock_faults(findings: &mut Vec<Finding>, faults: Vec<LineMeaning>) -> Result<(), AllocError>
    ensures { IfOk result (λ _. map finding_of findings.new.items ≡ map finding_of findings.old.items ++ flat_map invalid_in (map line_meaning_of faults.items)) }
{
    for fault in faults {
        push_lock_fault(findings, fault)?;
    }
    Ok(())
}

// Adds why the requirement is left out, if it is.
fn push_left_out(causes: &mut Vec<Cause>, requirement: &LineMeaning) -> Result<(), AllocError>
    ensures { IfOk result (λ _. causes.new.items ≡ causes.old.items ++ left_out_in (line_meaning_of requirement.now)) }
{
    if let LineMeaning::LeftOut(cause) = requirement {
        causes.push(*cause)?;
    }
    Ok(())
}

fn push_all_left_out(
    causes: &mut Vec<Cause>,
    requirements: &[LineMeaning],
) -> Result<(), AllocError>
    ensures { IfOk result (λ _. causes.new.items ≡ causes.old.items ++ flat_map left_out_in (map line_meaning_of requirements.now)) }
{
    for requirement in requirements {
        push_left_out(causes, requirement)?;
    }
    Ok(())
}

fn report_lock(
    alloc: Global,
    projects: &KnownProjects,
    lock: LockReading,
) -> Result<Report, AllocError>
    ensures { IfOk result (λ r. report_of r ≡ own_report (excuses projects.now) (document_reading_of (reading.Lock lock))) }
{
    let LockReading {
        parts,
        python: _python,
        packages,
        requirements,
        optional: _optional,
        entries: _entries,
        faults,
    } = lock;
    let requirements = requirements.as_slice();
    let mut report = Report::empty(alloc);
    report.lines = packages.len();
    report.files = 1;
    let mut unmet = Vec::new(alloc);
    push_unmet_requirements(
        alloc,
        &mut unmet,
        projects,
        &parts,
        packages.as_slice(),
        requirements,
    )?;
    push_packages(&mut report.findings, packages)?;
    push_lock_faults(&mut report.findings, faults)?;
    report.findings.append(&mut unmet)?;
    push_all_left_out(&mut report.left_out, requirements)?;
    Ok(report)
}

// The report of a document by itself.
fn report_document(
    alloc: Global,
    projects: &KnownProjects,
    document: DocumentReading,
) -> Result<Report, AllocError>
    ensures { IfOk result (λ r. report_of r ≡ own_report (excuses projects.now) (document_reading_of document)) }
{
    match document {
        DocumentReading::Project(project) => {
            let ProjectReading {
                table: _table,
                together,
                name: _name,
                overridden: _overridden,
                strings,
            } = project;
            report_strings(alloc, together, strings)
        }
        DocumentReading::Lock(lock) => report_lock(alloc, projects, lock),
        DocumentReading::Broken(finding) => {
            let mut report = Report::empty(alloc);
            report.files = 1;
            report.findings.push(finding)?;
            Ok(report)
        }
    }
}

fn report_all(
    alloc: Global,
    projects: &KnownProjects,
    documents: Vec<ReadDocument<'_>>,
) -> Result<Report, AllocError>
    ensures { IfOk result (λ r. report_of r ≡ with_own_reports (excuses projects.now) empty_report (map reading_in documents.entry.items)) }
{
    let mut report = Report::empty(alloc);
    for read in documents {
        let ReadDocument {
            document: _document,
            reading,
        } = read;
        report.append(report_document(alloc, projects, reading)?)?;
    }
    Ok(report)
}

// What is found in each project beside each lock that belongs to it.
fn compare_all(
    alloc: Global,
    projects: &KnownProjects,
    read: &[ReadDocument<'_>],
) -> Result<Vec<Finding>, AllocError>
    ensures { IfOk result (λ found. map finding_of found.items ≡ flat_map (beside_all (excuses projects.now) (map read_pair read.now)) (map read_pair read.now)) }
{
    let mut findings = Vec::new(alloc);
    for document in read {
        push_beside_all(alloc, &mut findings, projects, read, document)?;
    }
    Ok(findings)
}

// Adds what is wrong with the requirements of the document together.
fn push_reading_conflicts(
    alloc: Global,
    findings: &mut Vec<Finding>,
    left_out: &mut Vec<Cause>,
    reading: &DocumentReading,
) -> Result<(), AllocError>
    requires { IsSoundDocument (document_reading_of reading.now) }
    ensures { IfOk result (λ _. AddsFound (FindsOfReading (document_reading_of reading.now)) findings.old.items findings.new.items left_out.old.items left_out.new.items) }
{
    match reading {
        DocumentReading::Project(project) => {
            let strings = project.strings.as_slice();
            let mut found = project_conflicts(
                alloc,
                left_out,
                project.together,
                project.overridden.as_slice(),
                strings,
            )?;
            findings.append(&mut found)?;
            Ok(())
        }
        DocumentReading::Lock(_) => Ok(()),
        DocumentReading::Broken(_) => Ok(()),
    }
}

// Adds what is wrong with the requirements of each document together.
fn push_all_conflicts(
    alloc: Global,
    findings: &mut Vec<Finding>,
    left_out: &mut Vec<Cause>,
    read: &[ReadDocument<'_>],
) -> Result<(), AllocError>
    requires { All IsSoundDocument (map reading_in read.now) }
    ensures { IfOk result (λ _. AddsFound (FindsOfEach FindsOfReading (map reading_in read.now)) findings.old.items findings.new.items left_out.old.items left_out.new.items) }
{
    for document in read {
        push_reading_conflicts(alloc, findings, left_out, &document.reading)?;
    }
    Ok(())
}

pub(crate) fn read_documents<'a>(
    alloc: Global,
    documents: &'a [Document],
) -> Result<Vec<ReadDocument<'a>>, AllocError>
    ensures read { IfOk result (λ xs. AllZip IsDocumentReading (map document_of documents.now) (map reading_in xs.items)) }
    ensures pairs { IfOk result (λ xs. zip (map document_of documents.now) (map reading_in xs.items) ≡ map read_pair xs.items) }
{
    let mut read = Vec::new(alloc);
    for document in documents {
        let reading = read_document(alloc, document)?;
        read.push(ReadDocument { document, reading })?;
    }
    Ok(read)
}

/// What is wrong in the documents. First what is wrong in each by itself, in order: tables, arrays or strings of a project that are none,
/// strings that are no requirement, no list of specifiers or no version, a list that no version satisfies, fields that are both dynamic and given (PEP 621, "dynamic"),
/// names of extras and groups that are none (PEP 508, "Names"), extras (PEP 685) and groups (PEP 735) with the normal name of another, groups with an item that is neither a string nor a table of `include-group` only, or that include a group that does
/// not exist or that includes them in turn, strings of dependencies, extras and groups that ask for an extra of the project itself that it does not have,
/// by its table or Poetry's, unless `optional-dependencies` is dynamic, versions of a lock that are none, and a document that is not TOML, or JSON, in UTF-8. After
/// the packages of a lock the files of those from an index in whose
/// names is a version (PEP 427, "File name convention"; PEP 625, "Specification") that `==` with the package's does not match, of those that
/// follow one another with one version the first; the packages of one name with the same extras and the same marker or none (PEP 751 ("Specification"),
/// `poetry.lock` from format 2.1 on and `pdm.lock` with at most one target have one), and in `uv.lock` each dependency without a source on a name
/// of more than one package; packages that are no array of tables, or in `Pipfile.lock` no object of objects, and names and versions
/// that are no strings; and for each requirement of a package, beside projects, whether no package has its name, or `pdm.lock` none for the extras that it asks
/// for, or the first environment
/// in which the lock leaves out all packages that it may take, unless that is one of them, setuptools, distribute, pip or wheel, and the locked
/// versions of its name, if it contains none.
/// Then what is wrong in each project beside each lock in its folder, and each `uv.lock` that names it as a member, by the folder in which it lies: in one folder whether `metadata.content-hash` of `poetry.lock`, `metadata.content_hash` of `pdm.lock`, or
/// `tool.pdm.hashes` of `pylock.toml`, or `_meta.hash.sha256` of `Pipfile.lock`, is the hash of the project, on the line of that key; in one folder, where `uv.lock` has that project as a package and names
/// no members, the first of CPython 3.0 to 3.20 that only one of both `requires-python` contains, on the line of the lock's; where it says what the project requires, for
/// each requirement of the project of dependencies, extras and groups whether the lock has one with its name, its extras and its list, and for each of the lock, on the line of
/// its package, whether the project has; for each requirement, in order, whether the lock lacks a package of its name or for its extras, or such an environment,
/// and the lines of the locked versions of its name with the line of the requirement, if it contains none; and the same for what packages require for the
/// extras that the project asks for. Then the requirements of each project that hold
/// together and have no version in common, as `pyver_findings` reports them, each once: `project.dependencies`; these with each extra and those that it asks the project for, always, itself or through others; each group with
/// all that it includes, and with these if there is a table `tool.uv` or `tool.poetry`; what the build requires; and each environment of `tool.hatch.envs`, with the
/// dependencies if neither it nor `default` has `detached` or `skip-install`, and it no `template`. With
/// the dependencies hold `tool.uv.constraint-dependencies` and `override-dependencies`; a requirement of dependencies, extras and groups for a name that the project
/// overrides does not count. Those with markers are reported in an environment with a version of Python that `project.requires-python` contains, if that is a list without `===`.
///
/// Of `pyproject.toml` these are read: `project.dependencies`, `project.optional-dependencies`, `project.requires-python`,
/// `project.version`, `dependency-groups` with the names of included groups, `build-system.requires`, `dev-dependencies` of `tool.uv`, `tool.rye` and `tool.pdm`,
/// uv's constraints and overrides, `dependencies` and `extra-dependencies` of each environment of Hatch, but for strings with a `{`, and the tables of
/// `tool.poetry`; of a Pipfile `packages` and `dev-packages`, whose lists are of PEP 440, with `markers` and variables of markers as conditions; of a lock the names and
/// versions of its packages, in `Pipfile.lock` of the members of `default` and of those of `develop` that are not there with the same
/// version. Their requirements are the names in uv's `metadata.requires-dist`, each with its `specifier`, those in an array
/// `dependencies`, or its strings, as PDM writes them, there or, in `pylock.toml`, at `tool.pdm`, and those in Poetry's table `dependencies` with their lists; one that PEP 440 does
/// not know, as `^1.0`, is left out. For an extra that a requirement asks for they require what stands in Poetry's table `extras` and uv's `optional-dependencies`, also
/// through other extras. `pdm.lock` has a package for each set of `extras` that is asked for ("Lock file" of PDM). An array `dependencies` in `pylock.toml` only refers to packages, wherever these are (PEP 751, `packages.dependencies`). The name of a project is `project.name`, or else `tool.poetry.name`. The files of packages are `files`,
/// `wheels` and `sdist`, each named by its `file`, `name`, `url` or `path`. Other values of other types in a lock are passed over. Extras and groups come in the order of
/// their names. A string has the number of the first line on which it stands in quotes, a package of `Pipfile.lock` the number of the first line with its name in quotes, another
/// package, with what it requires, the number of its header. Either has 1 without one. Each string and each package counts as a line.
///
/// A requirement with a marker, but of a Pipfile, or a URL, of a package with markers that may not hold, of the build or an environment of Hatch, or that is optional, is not
/// compared, nor one of a package, dependencies, extras or groups for a name that a project overrides: with which a string of its `tool.uv.override-dependencies`
/// begins, or that is a key of `tool.pdm.resolution.overrides`. With uv's constraints and overrides only the `uv.lock` in their folder is compared, which need not have their packages, with a Pipfile only the `Pipfile.lock` in its folder.
/// Each lock is to have packages for `project.dependencies`, `poetry.lock` and `uv.lock` for extras, `uv.lock` for groups, `poetry.lock` for `tool.poetry`,
/// `Pipfile.lock` for a Pipfile, too; `poetry.lock` for the groups
/// that its packages name, and `pdm.lock` and `pylock.toml` (PEP 751, `dependency-groups`, `extras`) for those that they name: `default` are the
/// dependencies, and extras are groups; with what they then do not have nothing is compared. `pylock.toml` has the dependencies, unless its
/// `default-groups` are some, each of them named, or `default`.
///
/// The environments are CPython 3.9 to 3.14 on Linux, Windows and macOS, of those for which the lock is: `poetry.lock` from format 2.1 on by its
/// `metadata.python-versions`, where `^3.9` is `>=3.9`, `pdm.lock` by the `requires_python` of its one target, and `pylock.toml` by `requires-python` and
/// `environments`. It leaves a package out if its marker, a string at `markers` or `marker`, does not hold with all its `extras`, `dependency-groups` and
/// `default-groups` installed (PEP 508, "Environment Markers"; PEP 751, "Installation"); what depends on other variables is not left out. A string at
/// `marker` may not hold, unless it does in all of these environments; one at `markers` or `resolution-markers` may not.
///
/// Takes time for each requirement, each package, each pair of them with one name, and, if not all requirements of a project have a version in
/// common, or one has a marker, for each extra or group and requirement.
///
/// Allocates.
#[tactic(auto, using(crate::proofs::Holding::sound_documents))]
pub fn find_document_problems(alloc: Global, documents: &[Document]) -> Result<Report, AllocError>
    ensures { IfOk result (λ r. IsDocumentsReport (map document_of documents.now) (report_of r)) }
{
    let read = read_documents(alloc, documents)?;
    let projects = KnownProjects::new(alloc, read.as_slice())?;
    let mut compared = compare_all(alloc, &projects, read.as_slice())?;
    let (mut conflicts, mut undecided) = (Vec::new(alloc), Vec::new(alloc));
    push_all_conflicts(alloc, &mut conflicts, &mut undecided, read.as_slice())?;
    let mut report = report_all(alloc, &projects, read)?;
    report.findings.append(&mut compared)?;
    report.findings.append(&mut conflicts)?;
    report.left_out.append(&mut undecided)?;
    Ok(report)
}
