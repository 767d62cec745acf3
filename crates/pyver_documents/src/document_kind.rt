//! The kinds of documents, and to which projects a lock belongs.
ghost use Rattle.std.specs.Prelude.{◌≡◌, ◌++◌, ◌==◌, IfOk, bytes_eq, count_by, map};
ghost use Rattle.std.specs.List.{list_any};
ghost use Rattle.pyver_documents.specs.Comparing.{belongs};
ghost use Rattle.pyver_documents.specs.DocumentKinds.{ends_path, is_named_pylock, is_document_path, is_pipenv_path, kind_of_path, kind_of_word};
ghost use Rattle.pyver_findings.specs.NamedFiles.{folder};
ghost use Rattle.pyver_locks.specs.LockContents.{parts_of};
ghost use Rattle.pyver_locks.specs.LockedFiles.{last_section};

use pyver_findings::{SourceFile, folder};
use pyver_locks::lock_kind::LockKind;
use pyver_locks::locked_package::LockParts;
use std::alloc::{AllocError, Global};

/// The kinds of documents.
#[derive(Clone, Copy, Debug, PartialEq, Eq)]
pub enum DocumentKind {
    /// `pyproject.toml`.
    Project,
    /// A lock.
    Lock(LockKind),
}

/// A document that is checked: its kind, its name in findings and its text.
#[derive(Debug, Drop)]
pub struct Document {
    pub kind: DocumentKind,
    pub file: SourceFile,
}

// The lock lies in a folder in which one of its members is the project.
fn has_member(
    alloc: Global,
    members: &[Vec<u8>],
    lock: &[u8],
    project: &[u8],
) -> Result<bool, AllocError>
    ensures { IfOk result (λ b. b ≡ list_any (λ m. bytes_eq (folder lock.now ++ m) (folder project.now)) (map (λ m. m.items) members.now)) }
{
    for member in members {
        let mut place = Vec::from_slice(alloc, folder(lock))?;
        place.extend_from_slice(member.as_slice())?;
        if place.as_slice() == folder(project) {
            return Ok(true);
        }
    }
    Ok(false)
}

// The lock with these parts belongs to the project.
pub(crate) fn belongs(
    alloc: Global,
    parts: &LockParts,
    lock: &[u8],
    project: &[u8],
) -> Result<bool, AllocError>
    ensures { IfOk result (λ b. b ≡ belongs (parts_of parts.now) lock.now project.now) }
{
    if folder(lock) == folder(project) {
        return Ok(true);
    }
    has_member(alloc, parts.members.as_slice(), lock, project)
}

// The path is this name, or ends with it after a `/`.
fn ends_path(path: &[u8], name: &[u8], after_slash: &[u8]) -> bool
    ensures { result ≡ ends_path path.now name.now after_slash.now }
{
    path == name || path.ends_with(after_slash)
}

// What follows the last `/`, or all.
#[tactic(auto, using(crate::proofs::Walks::folder_fits))]
fn last_section(path: &[u8]) -> &[u8]
    ensures { result.now ≡ last_section path.now }
{
    &path[folder(path).len()..]
}

fn count_dots(name: &[u8]) -> usize
    ensures { result ≡ count_by (λ b. b == 46) name.now }
{
    name.iter().filter(|byte| **byte == b'.').count()
}

// `pylock.NAME.toml`, where NAME has no dot.
fn is_named_pylock(name: &[u8]) -> bool
    ensures { result ≡ is_named_pylock name.now }
{
    name.len() > 12
        && name.starts_with(b"pylock.")
        && name.ends_with(b".toml")
        && count_dots(name) == 2
}

/// Whether the path has an ending of documents: `.lock`, `.toml`, `.cfg` or `.json`.
///
/// Allocates nothing.
pub fn is_document_path(path: &[u8]) -> bool
    ensures { result ≡ is_document_path path.now }
{
    path.ends_with(b".lock")
        || path.ends_with(b".toml")
        || path.ends_with(b".cfg")
        || path.ends_with(b".json")
}

/// Whether the path names a Pipfile or its lock, which are not read: `pipenv verify` checks them.
///
/// Allocates nothing.
pub fn is_pipenv_path(path: &[u8]) -> bool
    ensures { result ≡ is_pipenv_path path.now }
{
    ends_path(path, b"Pipfile", b"/Pipfile") || ends_path(path, b"Pipfile.lock", b"/Pipfile.lock")
}

/// The kind of the document with this path, by its last section: `pyproject.toml`, `pylock.toml`, `pylock.NAME.toml` with a
/// NAME without a dot, `uv.lock`, `poetry.lock` or `pdm.lock`. Any other document has none.
///
/// Allocates nothing.
pub fn kind_of_path(path: &[u8]) -> Option<DocumentKind>
    ensures { result ≡ kind_of_path path.now }
{
    if ends_path(path, b"pyproject.toml", b"/pyproject.toml") {
        Some(DocumentKind::Project)
    } else if ends_path(path, b"pylock.toml", b"/pylock.toml") {
        Some(DocumentKind::Lock(LockKind::Pylock))
    } else if is_named_pylock(last_section(path)) {
        Some(DocumentKind::Lock(LockKind::Pylock))
    } else if ends_path(path, b"uv.lock", b"/uv.lock") {
        Some(DocumentKind::Lock(LockKind::Uv))
    } else if ends_path(path, b"poetry.lock", b"/poetry.lock") {
        Some(DocumentKind::Lock(LockKind::Poetry))
    } else if ends_path(path, b"pdm.lock", b"/pdm.lock") {
        Some(DocumentKind::Lock(LockKind::Pdm))
    } else {
        None
    }
}

/// The kind of document that this word names: `pyproject`, `pylock`, `uv`, `poetry` or `pdm`. Any other word names none.
///
/// Allocates nothing.
pub fn kind_of_word(word: &str) -> Option<DocumentKind>
    ensures { result ≡ kind_of_word word.now }
{
    match word {
        "pyproject" => Some(DocumentKind::Project),
        "pylock" => Some(DocumentKind::Lock(LockKind::Pylock)),
        "uv" => Some(DocumentKind::Lock(LockKind::Uv)),
        "poetry" => Some(DocumentKind::Lock(LockKind::Poetry)),
        "pdm" => Some(DocumentKind::Lock(LockKind::Pdm)),
        _ => None,
    }
}
