//! Locks that are out of date: by their Pythons or their project's requirements.
ghost use Rattle.std.specs.Prelude.{◌≡◌, IfOk, ◌++◌, map};
ghost use Rattle.pyver_documents.specs.Comparing.{stale_beside, in_one_folder, stale_in_pair};
ghost use Rattle.pyver_documents.specs.DocumentViews.{document_reading_of, document_of, read_pair};
ghost use Rattle.pyver_findings.specs.Views.{file_of, finding_of};
ghost use Rattle.pyver_projects.specs.ProjectStrings.{key_line};

use crate::document_kind::Document;
use crate::document_reading::{DocumentReading, ReadDocument};
use crate::entries::{push_differences, push_python_difference};
use pyver_findings::{Finding, SourceFile, folder};
use pyver_projects::place::{document_keys, number_keys};
use std::alloc::{AllocError, Global};

// The number of the first line of the text that has the key with this path.
pub(crate) fn key_line(alloc: Global, text: &[u8], path: &[u8]) -> Result<Option<usize>, AllocError>
    ensures { IfOk result (λ number. number ≡ key_line text.now path.now) }
{
    let keys = document_keys(alloc, text)?;
    let numbers = number_keys(alloc, keys.as_slice())?;
    Ok(numbers.get(path).copied())
}

// Adds in what both differ, if the first document is a project, and the second this lock: Pythons, requirements.
fn push_stale_beside(
    alloc: Global,
    findings: &mut Vec<Finding>,
    lock: &SourceFile,
    reading: &DocumentReading,
    other: &DocumentReading,
) -> Result<(), AllocError>
    ensures { IfOk result (λ _. map finding_of findings.new.items ≡ map finding_of findings.old.items ++ stale_beside (file_of lock.now) (document_reading_of reading.now) (document_reading_of other.now)) }
{
    let DocumentReading::Project(project) = reading else {
        return Ok(());
    };
    let DocumentReading::Lock(read) = other else {
        return Ok(());
    };
    push_python_difference(alloc, findings, lock, project, &read.python)?;
    push_differences(alloc, findings, project, read.entries.as_slice())
}

// Both are in one folder.
pub(crate) fn in_one_folder(one: &Document, other: &Document) -> bool
    ensures { result ≡ in_one_folder (document_of one.now) (document_of other.now) }
{
    folder(one.file.name.as_slice()) == folder(other.file.name.as_slice())
}

// Adds in what the first, if it is a project, differs from the second, if that is a lock in its folder.
pub(crate) fn push_stale_in_pair(
    alloc: Global,
    findings: &mut Vec<Finding>,
    read: &ReadDocument<'_>,
    other: &ReadDocument<'_>,
) -> Result<(), AllocError>
    ensures { IfOk result (λ _. map finding_of findings.new.items ≡ map finding_of findings.old.items ++ stale_in_pair (read_pair read.now) (read_pair other.now)) }
{
    if !in_one_folder(read.document, other.document) {
        return Ok(());
    }
    let lock = &other.document.file;
    push_stale_beside(alloc, findings, lock, &read.reading, &other.reading)
}
