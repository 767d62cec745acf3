//! What locked packages and their files are to the check.
ghost use Rattle.std.specs.Prelude.{◌≡◌, IfOk, string_bytes, map, option_map, ◌+◌, None, Some, length, IfSome, MatchOption, false, ◌++◌};
ghost use Rattle.std.specs.List.{AllZip};
ghost use Rattle.pep440_pick.specs.Names.{normal};
ghost use Rattle.pep440_rs.specs.Lists.ListGrammar.{DerivesList, PieceRejection, RejectsList};
ghost use Rattle.pep440_version.specs.ErrorTexts.{error_text, rejection_text};
ghost use Rattle.pep440_version.specs.Errors.{error_rejection};
ghost use Rattle.pep440_version.specs.Grammar.{Derives};
ghost use Rattle.pep440_version.specs.Rejections.{Rejection};
ghost use Rattle.pyver_documents.specs.DocumentViews.{locked_reading_of};
ghost use Rattle.pyver_documents.specs.Meanings.{package_line, IsVersionReading, IsConditionReading, IsLockedReading, IsNoVersion, file_package_line, file_meaning, IsFileReading, fault_meaning, requirement_line, reference_marker, IsRequirementReading};
ghost use Rattle.pyver_findings.specs.Demands.{line_demand};
ghost use Rattle.pyver_findings.specs.FileLines.{NoRequirement};
ghost use Rattle.pyver_findings.specs.LineMeanings.{Asks};
ghost use Rattle.pyver_findings.specs.Views.{file_line_of, line_meaning_of};
ghost use Rattle.pyver_locks.specs.LockContents.{locked_of, condition_of_package, locked_file_of, fault_of, requirement_of};
ghost use Rattle.pyver_locks.specs.KnownEnvironments.{read_condition_of};

use crate::document_reading::version_reason;
use pep440_pick::{Requirement, normalize_name};
use pep440_rs::{Version, VersionParseError, VersionSpecifier, VersionSpecifiers};
use pyver_findings::{Demand, FileLine, Finding, LineMeaning};
use pyver_locks::known_environment::ReadCondition;
use pyver_locks::locked_package::{
    LockFault, LockedFile, LockedPackage, LockedRequirement, PackageCondition, package_text,
};
use pyver_projects::requirement_strings::{name_with_extras, requirement_text};
use pyver_requirements::Cause;
use std::alloc::{AllocError, Global};

fn copy_strings(strings: &Vec<String>) -> Result<Vec<String>, AllocError>
    ensures { IfOk result (λ copy. map string_bytes copy.items ≡ map string_bytes strings.now.items) }
{
    Ok(strings.clone()?)
}

// A package, and what is wrong with it.
#[derive(Drop)]
pub(crate) struct LockedReading {
    pub(crate) line: FileLine,
    // In its normal form.
    pub(crate) name: Vec<u8>,
    // Where it is, if not everywhere.
    pub(crate) condition: Option<ReadCondition>,
    // The version, if it has one that is valid.
    pub(crate) version: Option<Version>,
    pub(crate) invalid: Option<Finding>,
}

fn version_text(version: &Option<String>) -> Option<&str>
    ensures { option_map (λ t. t.now) result ≡ option_map string_bytes version.now }
{
    match version {
        Some(version) => Some(version.as_str()),
        None => None,
    }
}

// The package as a line of the file with this name.
fn package_line(alloc: Global, file: &[u8], locked: &LockedPackage) -> Result<FileLine, AllocError>
    ensures { IfOk result (λ line. file_line_of line ≡ package_line file.now (locked_of locked.now)) }
{
    Ok(FileLine {
        file: Vec::from_slice(alloc, file)?,
        number: locked.line,
        text: package_text(alloc, locked.name.as_str(), version_text(&locked.version))?,
        comment: Vec::new(alloc),
    })
}

fn reject(
    alloc: Global,
    line: FileLine,
    locked: &LockedPackage,
    condition: Option<ReadCondition>,
    reason: String,
) -> Result<LockedReading, AllocError>
    ensures { IfOk result (λ y. locked_reading_of y ≡ record { line = file_line_of line; name = normal (locked_of locked.now).name; condition = option_map read_condition_of condition; version = None; invalid = Some (NoRequirement (file_line_of line) (string_bytes reason) (length (locked_of locked.now).name + 1)) }) }
{
    let column = locked.name.len() + 1;
    Ok(LockedReading {
        line: line.clone()?,
        name: normalize_name(alloc, locked.name.as_str())?,
        condition,
        version: None,
        invalid: Some(Finding::NoRequirement(line, reason, column)),
    })
}

fn reject_version(
    alloc: Global,
    line: FileLine,
    locked: &LockedPackage,
    condition: Option<ReadCondition>,
    error: &VersionParseError,
) -> Result<LockedReading, AllocError>
    requires { IfSome (error_rejection error.now) (λ f. error_text (error_rejection error.now) ≡ Some (rejection_text f)) }
    ensures { IfOk result (λ y. (f : Rejection) × (error_rejection error.now ≡ Some f) × (locked_reading_of y ≡ record { line = file_line_of line; name = normal (locked_of locked.now).name; condition = option_map read_condition_of condition; version = None; invalid = Some (NoRequirement (file_line_of line) (rejection_text f) (length (locked_of locked.now).name + 1)) })) }
{
    let reason = version_reason(alloc, error)?;
    reject(alloc, line, locked, condition, reason)
}

fn read_version(
    alloc: Global,
    line: FileLine,
    locked: &LockedPackage,
    condition: Option<ReadCondition>,
    version: &str,
) -> Result<LockedReading, AllocError>
    ensures { IfOk result (λ y. IsVersionReading (file_line_of line) (locked_of locked.now).name (option_map read_condition_of condition) (Some version.now) (locked_reading_of y)) }
{
    match Version::from_str(alloc, version) {
        Ok(version) => Ok(LockedReading {
            line,
            name: normalize_name(alloc, locked.name.as_str())?,
            condition,
            version: Some(version),
            invalid: None,
        }),
        Err(error) => reject_version(alloc, line, locked, condition, &error),
    }
}

// The list, unless the string is none.
fn parse_list(alloc: Global, text: &str) -> Result<Option<VersionSpecifiers>, AllocError>
    ensures { IfOk result (λ found. MatchOption found ((f : PieceRejection) × RejectsList text.now f) (λ list. DerivesList text.now list)) }
{
    match VersionSpecifiers::from_str(alloc, text) {
        Ok(list) => Ok(Some(list)),
        Err(error) if error.is_out_of_memory() => Err(AllocError),
        Err(_) => Ok(None),
    }
}

// Where a package is for these Pythons, if the marker holds; everywhere, if their list is none of PEP 440.
fn parse_condition(
    alloc: Global,
    condition: &PackageCondition,
) -> Result<Option<ReadCondition>, AllocError>
    ensures { IfOk result (λ c. IsConditionReading (Some (condition_of_package condition.now)) (option_map read_condition_of c)) }
{
    let Some(python) = parse_list(alloc, condition.python.as_str())? else {
        return Ok(None);
    };
    let marker = Vec::from_slice(alloc, condition.marker.as_bytes())?;
    Ok(Some(ReadCondition { python, marker }))
}

fn read_condition(
    alloc: Global,
    condition: &Option<PackageCondition>,
) -> Result<Option<ReadCondition>, AllocError>
    ensures { IfOk result (λ c. IsConditionReading (option_map condition_of_package condition.now) (option_map read_condition_of c)) }
{
    match condition {
        Some(condition) => parse_condition(alloc, condition),
        None => Ok(None),
    }
}

// What the package on this line is, under this condition.
fn read_package_version(
    alloc: Global,
    line: FileLine,
    locked: &LockedPackage,
    condition: Option<ReadCondition>,
) -> Result<LockedReading, AllocError>
    ensures { IfOk result (λ y. IsVersionReading (file_line_of line) (locked_of locked.now).name (option_map read_condition_of condition) (locked_of locked.now).version (locked_reading_of y)) }
{
    match &locked.version {
        Some(version) => read_version(alloc, line, locked, condition, version.as_str()),
        None => Ok(LockedReading {
            line,
            name: normalize_name(alloc, locked.name.as_str())?,
            condition,
            version: None,
            invalid: None,
        }),
    }
}

// What the package is, of the file with this name.
fn read_package(
    alloc: Global,
    file: &[u8],
    locked: &LockedPackage,
) -> Result<LockedReading, AllocError>
    ensures { IfOk result (λ y. IsLockedReading file.now (locked_of locked.now) (locked_reading_of y)) }
{
    let line = package_line(alloc, file, locked)?;
    let condition = read_condition(alloc, &locked.condition)?;
    read_package_version(alloc, line, locked, condition)
}

// What the packages are.
pub(crate) fn read_packages(
    alloc: Global,
    file: &[u8],
    packages: &[LockedPackage],
) -> Result<Vec<LockedReading>, AllocError>
    ensures { IfOk result (λ ys. AllZip (IsLockedReading file.now) (map locked_of packages.now) (map locked_reading_of ys.items)) }
{
    let mut readings = Vec::new(alloc);
    for locked in packages {
        readings.push(read_package(alloc, file, locked)?)?;
    }
    Ok(readings)
}

// The version, unless the string is none.
fn parse_locked_version(alloc: Global, text: &str) -> Result<Option<Version>, AllocError>
    ensures { IfOk result (λ found. MatchOption found (IsNoVersion text.now) (λ version. Derives text.now version)) }
{
    match Version::from_str(alloc, text) {
        Ok(version) => Ok(Some(version)),
        Err(error) if error.is_out_of_memory() => Err(AllocError),
        Err(_) => Ok(None),
    }
}

// The line of the package of the file.
fn file_package_line(
    alloc: Global,
    name: &[u8],
    locked: &LockedFile,
) -> Result<FileLine, AllocError>
    ensures { IfOk result (λ line. file_line_of line ≡ file_package_line name.now (locked_file_of locked.now)) }
{
    Ok(FileLine {
        file: Vec::from_slice(alloc, name)?,
        number: locked.line,
        text: package_text(alloc, locked.name.as_str(), Some(locked.version.as_str()))?,
        comment: Vec::new(alloc),
    })
}

// That the file has another version than its package.
fn reject_file(alloc: Global, name: &[u8], locked: &LockedFile) -> Result<LineMeaning, AllocError>
    ensures { IfOk result (λ x. line_meaning_of x ≡ file_meaning name.now (locked_file_of locked.now) false) }
{
    let mut reason = String::from_str(alloc, "its file ")?;
    reason.push_str(locked.file.as_str())?;
    reason.push_str(" has another version")?;
    let line = file_package_line(alloc, name, locked)?;
    let column = locked.name.len() + 1;
    Ok(LineMeaning::IsNone(Finding::NoRequirement(line, reason, column)))
}

// What the file is.
fn read_file(alloc: Global, name: &[u8], locked: &LockedFile) -> Result<LineMeaning, AllocError>
    ensures { IfOk result (λ x. IsFileReading name.now (locked_file_of locked.now) (line_meaning_of x)) }
{
    let Some(version) = parse_locked_version(alloc, locked.version.as_str())? else {
        return Ok(LineMeaning::AsksNothing);
    };
    let Some(written) = parse_locked_version(alloc, locked.written.as_str())? else {
        return Ok(LineMeaning::AsksNothing);
    };
    let specifier = VersionSpecifier::equals_version(version);
    if specifier.matches_literally(alloc, &written)? {
        Ok(LineMeaning::AsksNothing)
    } else {
        reject_file(alloc, name, locked)
    }
}

// What the files are, of the lock with this name.
pub(crate) fn read_files(
    alloc: Global,
    name: &[u8],
    files: &[LockedFile],
) -> Result<Vec<LineMeaning>, AllocError>
    ensures { IfOk result (λ xs. AllZip (IsFileReading name.now) (map locked_file_of files.now) (map line_meaning_of xs.items)) }
{
    let mut readings = Vec::new(alloc);
    for locked in files {
        readings.push(read_file(alloc, name, locked)?)?;
    }
    Ok(readings)
}

// That the lock with this name has it.
fn report_fault(alloc: Global, name: &[u8], fault: &LockFault) -> Result<LineMeaning, AllocError>
    ensures { IfOk result (λ x. line_meaning_of x ≡ fault_meaning name.now (fault_of fault.now)) }
{
    let line = FileLine {
        file: Vec::from_slice(alloc, name)?,
        number: fault.line,
        text: fault.text.clone()?,
        comment: Vec::new(alloc),
    };
    let reason = String::from_str(alloc, fault.reason)?;
    Ok(LineMeaning::IsNone(Finding::NoRequirement(line, reason, 0)))
}

// Adds what is wrong in the lock with this name.
pub(crate) fn push_faults(
    alloc: Global,
    readings: &mut Vec<LineMeaning>,
    name: &[u8],
    faults: &[LockFault],
) -> Result<(), AllocError>
    ensures { IfOk result (λ _. map line_meaning_of readings.new.items ≡ map line_meaning_of readings.old.items ++ map (fault_meaning name.now) (map fault_of faults.now)) }
{
    for fault in faults {
        readings.push(report_fault(alloc, name, fault)?)?;
    }
    Ok(())
}

// The requirement as a line of the file with this name.
fn requirement_line(
    alloc: Global,
    file: &[u8],
    requirement: &LockedRequirement,
) -> Result<FileLine, AllocError>
    ensures { IfOk result (λ line. file_line_of line ≡ requirement_line file.now (requirement_of requirement.now)) }
{
    let mut text = Vec::from_slice(alloc, requirement.requirer.as_slice())?;
    text.extend_from_slice(b" requires ")?;
    let extras = requirement.extras.as_slice();
    let name = name_with_extras(alloc, requirement.name.as_str(), extras)?;
    let required = requirement_text(alloc, name.as_str(), requirement.list.as_str())?;
    text.extend_from_slice(required.as_bytes())?;
    Ok(FileLine {
        file: Vec::from_slice(alloc, file)?,
        number: requirement.line,
        text,
        comment: Vec::new(alloc),
    })
}

// The marker under which a requirement counts.
fn reference_marker(alloc: Global, is_reference: bool) -> Option<Vec<u8>>
    ensures { option_map (λ m. m.items) result ≡ reference_marker is_reference }
{
    if is_reference {
        Some(Vec::new(alloc))
    } else {
        None
    }
}

// What the requirement asks for, whose list is this.
fn ask(
    alloc: Global,
    file: &[u8],
    requirement: &LockedRequirement,
    specifiers: VersionSpecifiers,
) -> Result<LineMeaning, AllocError>
    ensures { IfOk result (λ x. line_meaning_of x ≡ Asks (line_demand (requirement_line file.now (requirement_of requirement.now)) (reference_marker requirement.now.is_reference) (record { name = string_bytes requirement.now.name; extras = map string_bytes requirement.now.extras.items; specifiers = specifiers }))) }
{
    let line = requirement_line(alloc, file, requirement)?;
    let asked = Requirement {
        name: requirement.name.clone()?,
        extras: copy_strings(&requirement.extras)?,
        specifiers,
    };
    let marker = reference_marker(alloc, requirement.is_reference);
    Ok(LineMeaning::Asks(Demand::new(alloc, &line, marker, &asked)?))
}

// What the requirement is.
pub(crate) fn read_requirement(
    alloc: Global,
    file: &[u8],
    requirement: &LockedRequirement,
) -> Result<LineMeaning, AllocError>
    ensures { IfOk result (λ x. IsRequirementReading file.now (requirement_of requirement.now) (line_meaning_of x)) }
{
    match parse_list(alloc, requirement.list.as_str())? {
        Some(specifiers) => ask(alloc, file, requirement, specifiers),
        None => Ok(LineMeaning::LeftOut(Cause::OtherSyntax)),
    }
}

// What the requirements are.
pub(crate) fn read_requirements(
    alloc: Global,
    file: &[u8],
    requirements: &[LockedRequirement],
) -> Result<Vec<LineMeaning>, AllocError>
    ensures { IfOk result (λ xs. AllZip (IsRequirementReading file.now) (map requirement_of requirements.now) (map line_meaning_of xs.items)) }
{
    let mut readings = Vec::new(alloc);
    for requirement in requirements {
        readings.push(read_requirement(alloc, file, requirement)?)?;
    }
    Ok(readings)
}
