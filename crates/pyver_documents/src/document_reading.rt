//! What strings of a project and documents are to the check.
ghost use Rattle.std.specs.Prelude.{IfOk, map, ◌≡◌, option_map, string_bytes, IfSome, Some, is_none, false, ◌≤◌, length, take};
ghost use Rattle.std.specs.List.{AllZip, All};
ghost use Rattle.pep440_rs.specs.Denoted.{IsDenotable};
ghost use Rattle.pep440_version.specs.ErrorTexts.{error_text, rejection_text};
ghost use Rattle.pep440_version.specs.Errors.{error_rejection};
ghost use Rattle.pep440_version.specs.Rejections.{Rejection};
ghost use Rattle.toml.specs.View.{table_view};
ghost use Rattle.pyver_documents.specs.DocumentKinds.{toml_contents};
ghost use Rattle.pyver_documents.specs.DocumentViews.{document_reading_of, extra_reading_of, document_of, HasGroups, groups_of, string_reading_of};
ghost use Rattle.pyver_documents.specs.Meanings.{IsProjectReading, IsExtraReading, IsLockReading, IsBrokenReading, IsTextReading, IsContentsReading, IsDocumentReading, list_versions, AreVersions, AreLockedPythons, ArePythons, IsVersionMeaning, no_group, include_meaning, IsEntryMeaning, if_it_has, IsOwnMeaning, IsSectionMeaning, IsStringReading, string_line, last_bytes, broken_at};
ghost use Rattle.pyver_findings.specs.FileLines.{NoRequirement};
ghost use Rattle.pyver_findings.specs.LineMeanings.{IsNone};
ghost use Rattle.pyver_findings.specs.Views.{file_line_of, line_meaning_of};
ghost use Rattle.pyver_locks.specs.LockContents.{locked_extra_of, contents_of};
ghost use Rattle.pyver_projects.specs.ProjectStrings.{HasPlaces, section_of, project_string_of};
ghost use Rattle.pyver_documents.specs.declared.document_kind.DocumentKind.TheVariants as of_kind;

use crate::document_kind::{Document, DocumentKind};
use crate::groups::{Groups, string_inclusions};
use crate::locked_reading::{
    LockedReading, push_faults, read_files, read_packages, read_requirement, read_requirements,
};
use pep440_rs::{ErrorKind, Version, VersionParseError, VersionSpecifiers};
use pep440_sets::{SetError, VersionSet};
use pyver_findings::{FileLine, Finding, LineMeaning, parse_requirement, parse_specifiers};
use pyver_locks::lock_kind::LockKind;
use pyver_locks::locked_package::{LockContents, LockParts, LockedExtra};
use pyver_locks::toml_lock::toml_contents;
use pyver_projects::inclusions::{group_names, has_group_tool};
use pyver_projects::own_extras::{extra_names, project_strings};
use pyver_projects::place::{
    Places, document_keys, line_after, line_at, read_places, string_number,
};
use pyver_projects::project::{ProjectString, Section, project_name};
use pyver_projects::tool_tables::overridden_names;
use pyver_requirements::Cause;
use std::alloc::{AllocError, Global};
use toml::Table;

// A project that was read.
#[derive(Drop)]
pub(crate) struct ProjectReading {
    pub(crate) table: Table,
    // Its groups hold together with its dependencies.
    pub(crate) together: bool,
    // In its normal form.
    pub(crate) name: Option<Vec<u8>>,
    // The names whose versions it sets itself, in their normal form.
    pub(crate) overridden: Vec<Vec<u8>>,
    pub(crate) strings: Vec<StringReading>,
}

// A lock that was read.
#[derive(Drop)]
pub(crate) struct LockReading {
    pub(crate) parts: LockParts,
    // For which versions of Python the lock says that the project in its folder is, as a set.
    pub(crate) python: Option<VersionSet>,
    pub(crate) packages: Vec<LockedReading>,
    // What the packages require of one another.
    pub(crate) requirements: Vec<LineMeaning>,
    // What they require for other extras than these ask for.
    pub(crate) optional: Vec<ExtraReading>,
    // What the lock says that the project in its folder requires.
    pub(crate) entries: Vec<LineMeaning>,
    // What is wrong with their files, and with them by themselves and beside one another.
    pub(crate) faults: Vec<LineMeaning>,
}

// A requirement for an extra: the key of this, and what it is.
#[derive(Drop)]
pub(crate) struct ExtraReading {
    pub(crate) key: Vec<u8>,
    pub(crate) meaning: LineMeaning,
}

// A document that was read.
#[derive(Drop)]
pub(crate) enum DocumentReading {
    Project(ProjectReading),
    Lock(LockReading),
    // Why it was not read.
    Broken(Finding),
}

// A document, and what it was read as.
#[derive(Drop)]
pub(crate) struct ReadDocument<'a> {
    pub(crate) document: &'a Document,
    pub(crate) reading: DocumentReading,
}

fn read_project(
    alloc: Global,
    name: &[u8],
    text: &str,
    table: Table,
) -> Result<DocumentReading, AllocError>
    ensures { IfOk result (λ x. IsProjectReading (record { name = name.now; text = text.now }) (table_view table) (document_reading_of x)) }
{
    let strings = project_strings(alloc, &table)?;
    let names = group_names(alloc, &table)?;
    let inclusions = string_inclusions(alloc, strings.as_slice())?;
    let extras = extra_names(alloc, &table)?;
    let groups = Groups::new(
        alloc,
        names.as_slice(),
        inclusions.as_slice(),
        extras.as_slice(),
    )?;
    let keys = document_keys(alloc, text.as_bytes())?;
    let places = read_places(alloc, text.as_bytes(), keys.as_slice())?;
    let strings = read_strings(alloc, &groups, name, &places, strings.as_slice())?;
    let together = has_group_tool(&table);
    let name = project_name(alloc, &table)?;
    let overridden = overridden_names(alloc, &table)?;
    Ok(DocumentReading::Project(ProjectReading {
        table,
        together,
        name,
        overridden,
        strings,
    }))
}

// What a requirement for an extra is.
fn read_extra(alloc: Global, file: &[u8], extra: &LockedExtra) -> Result<ExtraReading, AllocError>
    ensures { IfOk result (λ x. IsExtraReading file.now (locked_extra_of extra.now) (extra_reading_of x)) }
{
    Ok(ExtraReading {
        key: extra.key.clone()?,
        meaning: read_requirement(alloc, file, &extra.requirement)?,
    })
}

// What the requirements for extras are.
fn read_extras(
    alloc: Global,
    file: &[u8],
    extras: &[LockedExtra],
) -> Result<Vec<ExtraReading>, AllocError>
    ensures { IfOk result (λ xs. AllZip (IsExtraReading file.now) (map locked_extra_of extras.now) (map extra_reading_of xs.items)) }
{
    let mut readings = Vec::new(alloc);
    for extra in extras {
        readings.push(read_extra(alloc, file, extra)?)?;
    }
    Ok(readings)
}

// What a lock with this name is, which has this.
fn read_lock(
    alloc: Global,
    name: &[u8],
    contents: LockContents,
) -> Result<DocumentReading, AllocError>
    ensures { IfOk result (λ x. IsLockReading name.now (contents_of contents) (document_reading_of x)) }
{
    let python = parse_locked_pythons(alloc, &contents.parts.python)?;
    let packages = read_packages(alloc, name, contents.packages.as_slice())?;
    let requirements = read_requirements(alloc, name, contents.requirements.as_slice())?;
    let optional = read_extras(alloc, name, contents.optional.as_slice())?;
    let entries = read_requirements(alloc, name, contents.entries.as_slice())?;
    let mut faults = read_files(alloc, name, contents.files.as_slice())?;
    push_faults(alloc, &mut faults, name, contents.faults.as_slice())?;
    Ok(DocumentReading::Lock(LockReading {
        parts: contents.parts,
        python,
        packages,
        requirements,
        optional,
        entries,
        faults,
    }))
}

fn reject_toml(
    alloc: Global,
    name: &[u8],
    text: &str,
    error: &toml::de::Error,
) -> Result<DocumentReading, AllocError>
    ensures broken { IfOk result (λ x. IsBrokenReading (record { name = name.now; text = text.now }) (document_reading_of x)) }
{
    let position = match error.span() {
        Some(span) => span.start,
        None => 0,
    };
    reject_document(alloc, name, text.as_bytes(), position, error.message())
}

fn read_toml_project(alloc: Global, name: &[u8], text: &str) -> Result<DocumentReading, AllocError>
    ensures { IfOk result (λ x. IsTextReading of_kind.Project (record { name = name.now; text = text.now }) (document_reading_of x)) }
{
    match toml::table_from_str(alloc, text) {
        Ok(table) => read_project(alloc, name, text, table),
        Err(error) if error.is_memory() => Err(AllocError),
        Err(error) => reject_toml(alloc, name, text, &error),
    }
}

// What a TOML lock is that has its packages at the key, each under the header.
fn read_toml_lock(
    alloc: Global,
    name: &[u8],
    text: &str,
    kind: LockKind,
    key: &str,
    header: &str,
) -> Result<DocumentReading, AllocError>
    ensures { IfOk result (λ x. IsContentsReading (record { name = name.now; text = text.now }) (toml_contents kind key.now header.now text.now) (document_reading_of x)) }
{
    match toml::table_from_str(alloc, text) {
        Ok(table) => {
            let contents = toml_contents(alloc, kind, key, header, text, &table)?;
            read_lock(alloc, name, contents)
        }
        Err(error) if error.is_memory() => Err(AllocError),
        Err(error) => reject_toml(alloc, name, text, &error),
    }
}

fn read_lock_text(
    alloc: Global,
    kind: LockKind,
    name: &[u8],
    text: &str,
) -> Result<DocumentReading, AllocError>
    ensures { IfOk result (λ x. IsTextReading (of_kind.Lock kind) (record { name = name.now; text = text.now }) (document_reading_of x)) }
{
    match kind {
        LockKind::Pylock => {
            read_toml_lock(
                alloc,
                name,
                text,
                LockKind::Pylock,
                "packages",
                "[[packages]]",
            )
        }
        LockKind::Uv => read_toml_lock(alloc, name, text, LockKind::Uv, "package", "[[package]]"),
        LockKind::Poetry => {
            read_toml_lock(
                alloc,
                name,
                text,
                LockKind::Poetry,
                "package",
                "[[package]]",
            )
        }
        LockKind::Pdm => read_toml_lock(alloc, name, text, LockKind::Pdm, "package", "[[package]]"),
        LockKind::Unknown => reject_document(alloc, name, text.as_bytes(), 0, "no known format"),
    }
}

fn read_text(
    alloc: Global,
    kind: DocumentKind,
    name: &[u8],
    text: &str,
) -> Result<DocumentReading, AllocError>
    ensures { IfOk result (λ x. IsTextReading kind (record { name = name.now; text = text.now }) (document_reading_of x)) }
{
    match kind {
        DocumentKind::Project => read_toml_project(alloc, name, text),
        DocumentKind::Lock(kind) => read_lock_text(alloc, kind, name, text),
    }
}

// What the document is.
pub(crate) fn read_document(
    alloc: Global,
    document: &Document,
) -> Result<DocumentReading, AllocError>
    ensures { IfOk result (λ x. IsDocumentReading (document_of document.now) (document_reading_of x)) }
{
    let name = document.file.name.as_slice();
    let text = document.file.text.as_slice();
    match std::str::from_utf8(text) {
        Ok(text) => read_text(alloc, document.kind, name, text),
        Err(error) => reject_document(alloc, name, text, error.valid_up_to(), "not UTF-8"),
    }
}

// A string, and what it is.
#[derive(Drop)]
pub(crate) struct StringReading {
    pub(crate) section: Section,
    pub(crate) meaning: LineMeaning,
    // The versions of Python that there are by it, if it bounds them.
    pub(crate) python: Option<VersionSet>,
}

// The versions that the list contains, unless it has `===`.
fn list_versions(alloc: Global, list: &VersionSpecifiers) -> Result<Option<VersionSet>, AllocError>
    requires { All IsDenotable list.now }
    ensures { IfOk result (λ set. set ≡ list_versions list.now) }
{
    match VersionSet::from_specifiers(alloc, list.as_slice()) {
        Ok(set) => Ok(Some(set)),
        Err(SetError::ArbitraryEquality) => Ok(None),
        Err(SetError::OutOfMemory) => Err(AllocError),
    }
}

// The versions of the list that the string is, if it is one.
fn parse_versions(alloc: Global, text: &str) -> Result<Option<VersionSet>, AllocError>
    ensures { IfOk result (AreVersions text.now) }
{
    match VersionSpecifiers::from_str(alloc, text) {
        Ok(list) => list_versions(alloc, &list),
        Err(error) if error.is_out_of_memory() => Err(AllocError),
        Err(_) => Ok(None),
    }
}

// The versions of Python of a lock, if it has such a list.
fn parse_locked_pythons(
    alloc: Global,
    list: &Option<String>,
) -> Result<Option<VersionSet>, AllocError>
    ensures { IfOk result (AreLockedPythons (option_map string_bytes list.now)) }
{
    match list {
        Some(list) => parse_versions(alloc, list.as_str()),
        None => Ok(None),
    }
}

// The versions of Python that the string bounds in this section.
fn parse_python(
    alloc: Global,
    section: &Section,
    text: &str,
) -> Result<Option<VersionSet>, AllocError>
    ensures { IfOk result (ArePythons (section_of section.now) text.now) }
{
    match section {
        Section::Python => parse_versions(alloc, text),
        Section::Version | Section::Dependencies | Section::Build => Ok(None),
        Section::Extra(_) | Section::Group(_) => Ok(None),
        Section::Include(_, _) | Section::Invalid(_, _) | Section::Entry(_, _) => Ok(None),
        Section::OwnExtras(_, _) => Ok(None),
        Section::Constraint | Section::Unread(_) => Ok(None),
    }
}

fn reject(line: &FileLine, reason: String) -> Result<LineMeaning, AllocError>
    ensures { IfOk result (λ x. line_meaning_of x ≡ IsNone (NoRequirement (file_line_of line.now) (string_bytes reason) 0)) }
{
    Ok(LineMeaning::IsNone(Finding::NoRequirement(line.clone()?, reason, 0)))
}

fn reject_version(
    alloc: Global,
    line: &FileLine,
    error: &VersionParseError,
) -> Result<LineMeaning, AllocError>
    requires { IfSome (error_rejection error.now) (λ f. error_text (error_rejection error.now) ≡ Some (rejection_text f)) }
    ensures { IfOk result (λ x. (f : Rejection) × (error_rejection error.now ≡ Some f) × (line_meaning_of x ≡ IsNone (NoRequirement (file_line_of line.now) (rejection_text f) 0))) }
{
    let reason = version_reason(alloc, error)?;
    reject(line, reason)
}

// What a string of this line is that is to be a version.
fn parse_version(alloc: Global, line: &FileLine, text: &str) -> Result<LineMeaning, AllocError>
    ensures { IfOk result (λ x. IsVersionMeaning (file_line_of line.now) text.now (line_meaning_of x)) }
{
    match Version::from_str(alloc, text) {
        Ok(_) => Ok(LineMeaning::AsksNothing),
        Err(error) => reject_version(alloc, line, &error),
    }
}

fn no_group(alloc: Global, line: &FileLine, reason: &str) -> Result<LineMeaning, AllocError>
    ensures { IfOk result (λ x. line_meaning_of x ≡ no_group (file_line_of line.now) reason.now) }
{
    let reason = String::from_str(alloc, reason)?;
    reject(line, reason)
}

// What the name of a group is that another includes.
fn include_meaning(
    alloc: Global,
    groups: &Groups<'_>,
    line: &FileLine,
    group: &[u8],
    included: &[u8],
) -> Result<LineMeaning, AllocError>
    requires { HasGroups groups.now }
    ensures { IfOk result (λ x. line_meaning_of x ≡ include_meaning (groups_of groups.now) (file_line_of line.now) group.now included.now) }
{
    if !groups.has(included) {
        return no_group(alloc, line, "there is no group of this name");
    }
    if groups.includes(alloc, included, group)? {
        return no_group(alloc, line, "the group includes itself");
    }
    Ok(LineMeaning::AsksNothing)
}

// What a line is that stands for an entry of Poetry, whose list PEP 440 may not have.
fn parse_entry(alloc: Global, line: &FileLine) -> Result<LineMeaning, AllocError>
    ensures { IfOk result (λ x. IsEntryMeaning (file_line_of line.now) (line_meaning_of x)) }
{
    match parse_requirement(alloc, line)? {
        LineMeaning::IsNone(_) => Ok(LineMeaning::LeftOut(Cause::OtherSyntax)),
        meaning => Ok(meaning),
    }
}

// What a line is that asks for extras of the project itself, if it has them or not.
fn if_it_has(
    alloc: Global,
    has: bool,
    line: &FileLine,
    meaning: LineMeaning,
) -> Result<LineMeaning, AllocError>
    ensures { IfOk result (λ x. line_meaning_of x ≡ if_it_has has (file_line_of line.now) (line_meaning_of meaning)) }
{
    match meaning {
        LineMeaning::Asks(_) | LineMeaning::LeftOut(_) if !has => {
            no_group(alloc, line, "the project has no extra of this name")
        }
        other => Ok(other),
    }
}

// What a line is that asks for these extras of the project itself.
fn parse_own(
    alloc: Global,
    groups: &Groups<'_>,
    line: &FileLine,
    extras: &[Vec<u8>],
) -> Result<LineMeaning, AllocError>
    requires { HasGroups groups.now }
    ensures { IfOk result (λ x. IsOwnMeaning (groups_of groups.now) (map (λ e. e.items) extras.now) (file_line_of line.now) (line_meaning_of x)) }
{
    let meaning = parse_requirement(alloc, line)?;
    if_it_has(alloc, groups.has_each_extra(extras), line, meaning)
}

// What the string of this line, which is this text, is in this section of a project with these groups.
fn parse_string(
    alloc: Global,
    groups: &Groups<'_>,
    section: &Section,
    line: &FileLine,
    text: &str,
) -> Result<LineMeaning, AllocError>
    requires { HasGroups groups.now }
    ensures { IfOk result (λ x. IsSectionMeaning (groups_of groups.now) (section_of section.now) (file_line_of line.now) text.now (line_meaning_of x)) }
{
    match section {
        Section::Python => parse_specifiers(alloc, line, text),
        Section::Version => parse_version(alloc, line, text),
        Section::Dependencies => parse_requirement(alloc, line),
        Section::Extra(_) => parse_requirement(alloc, line),
        Section::Group(_) => parse_requirement(alloc, line),
        Section::Build => parse_requirement(alloc, line),
        Section::OwnExtras(_, extras) => parse_own(alloc, groups, line, extras.as_slice()),
        Section::Invalid(_, reason) => no_group(alloc, line, reason),
        Section::Entry(_, _) => parse_entry(alloc, line),
        Section::Constraint => parse_requirement(alloc, line),
        Section::Unread(cause) => Ok(LineMeaning::LeftOut(*cause)),
        Section::Include(group, included) => {
            include_meaning(alloc, groups, line, group.as_slice(), included.as_slice())
        }
    }
}

// What a string of the file with this name is.
fn read_string(
    alloc: Global,
    groups: &Groups<'_>,
    name: &[u8],
    places: &Places,
    string: &ProjectString,
) -> Result<StringReading, AllocError>
    requires places { HasPlaces places.now }
    requires groups { HasGroups groups.now }
    ensures { IfOk result (λ x. IsStringReading (groups_of groups.now) (record { name = name.now; text = places.now.quoted.text.now }) (project_string_of string.now) (string_reading_of x)) }
{
    let line = string_line(alloc, name, places, string)?;
    let text = string.text.as_str();
    let meaning = parse_string(alloc, groups, &string.section, &line, text)?;
    let python = parse_python(alloc, &string.section, text)?;
    Ok(StringReading {
        section: string.section.clone()?,
        meaning,
        python,
    })
}

// What the strings are.
fn read_strings(
    alloc: Global,
    groups: &Groups<'_>,
    name: &[u8],
    places: &Places,
    strings: &[ProjectString],
) -> Result<Vec<StringReading>, AllocError>
    requires places { HasPlaces places.now }
    requires groups { HasGroups groups.now }
    ensures { IfOk result (λ xs. AllZip (IsStringReading (groups_of groups.now) (record { name = name.now; text = places.now.quoted.text.now })) (map project_string_of strings.now) (map string_reading_of xs.items)) }
{
    let mut readings = Vec::new(alloc);
    for string in strings {
        readings.push(read_string(alloc, groups, name, places, string)?)?;
    }
    Ok(readings)
}

// The reason, unless an allocation failed.
pub(crate) fn version_reason(alloc: Global, error: &VersionParseError) -> Result<String, AllocError>
    ensures text { IfOk result (λ s. IfSome (error_text (error_rejection error.now)) (λ t. string_bytes s ≡ t)) }
    ensures memory { IfOk result (λ _. is_none (error_rejection error.now) ≡ false) }
{
    match error.kind() {
        ErrorKind::OutOfMemory => Err(AllocError),
        _ => error.to_string(alloc),
    }
}

// A string as a line of the file with this name.
fn string_line(
    alloc: Global,
    name: &[u8],
    places: &Places,
    string: &ProjectString,
) -> Result<FileLine, AllocError>
    requires { HasPlaces places.now }
    ensures { IfOk result (λ line. file_line_of line ≡ string_line (record { name = name.now; text = places.now.quoted.text.now }) (project_string_of string.now)) }
{
    Ok(FileLine {
        file: Vec::from_slice(alloc, name)?,
        number: string_number(alloc, places, &string.section, string.text.as_bytes())?,
        text: Vec::from_slice(alloc, string.text.as_bytes())?,
        comment: Vec::new(alloc),
    })
}

// How many bytes stand after the last newline.
fn count_last_bytes(text: &[u8]) -> usize
    ensures count { result ≡ last_bytes text.now }
    ensures inside { result ≤ length text.now }
{
    text.iter().rev().take_while(|byte| **byte != b'\n').count()
}

fn text_before(text: &[u8], position: usize) -> &[u8]
    ensures { result.now ≡ take position text.now }
{
    if position <= text.len() {
        &text[..position]
    } else {
        text
    }
}

// That the document with this name is not read for this reason, with the line and the column of the position.
fn reject_document(
    alloc: Global,
    name: &[u8],
    text: &[u8],
    position: usize,
    reason: &str,
) -> Result<DocumentReading, AllocError>
    ensures at { IfOk result (λ x. document_reading_of x ≡ broken_at (record { name = name.now; text = text.now }) position reason.now) }
    ensures broken { IfOk result (λ x. IsBrokenReading (record { name = name.now; text = text.now }) (document_reading_of x)) }
{
    let before = text_before(text, position);
    let column = count_last_bytes(before);
    let line = line_at(&text[before.len() - column..]);
    let line = FileLine {
        file: Vec::from_slice(alloc, name)?,
        number: line_after(before) as u64,
        text: Vec::from_slice(alloc, line)?,
        comment: Vec::new(alloc),
    };
    let reason = String::from_str(alloc, reason)?;
    Ok(DocumentReading::Broken(Finding::NoRequirement(line, reason, column)))
}
