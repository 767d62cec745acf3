//! Where the locks of projects are sought.
ghost use Rattle.std.specs.Prelude.{◌≡◌, ◌++◌, [], IfOk, map};
ghost use Rattle.pyver_documents.specs.DocumentViews.{document_of};
ghost use Rattle.pyver_tool.specs.RequirementFiles.{is_folder, lock_searches, name_between, own_name, path_searches, search_of, searches_for, sought_names};
ghost use Rattle.pyver_documents.specs.Comparing.{is_project};

use pyver_documents::{Document, DocumentKind};
use pyver_findings::folder;
use std::alloc::{AllocError, Global};

// The names of a lock in the folders of a file, the nearest first.
#[derive(Drop)]
pub(crate) struct LockSearch {
    pub(crate) names: Vec<Vec<u8>>,
}

// Whether the start of a path is a folder in which its file lies, as the path names it: `..` leads out of what stands before it.
fn is_folder(start: &[u8], rest: &[u8]) -> bool
    ensures { result ≡ is_folder start.now rest.now }
{
    match start {
        [] => !(rest.starts_with(b"/") || rest.starts_with(b"../")),
        [_, ..] => start.ends_with(b"/") && !rest.starts_with(b"../"),
    }
}

// The name of the lock in the start of a path, if that is a folder.
fn push_name(
    alloc: Global,
    names: &mut Vec<Vec<u8>>,
    lock: &str,
    start: &[u8],
    rest: &[u8],
) -> Result<(), AllocError>
    ensures { IfOk result (λ _. map (λ name. name.items) names.new.items ≡ map (λ name. name.items) names.old.items ++ name_between lock.now start.now rest.now) }
{
    if !is_folder(start, rest) {
        return Ok(());
    }
    let mut name = Vec::from_slice(alloc, start)?;
    name.extend_from_slice(lock.as_bytes())?;
    names.push(name)?;
    Ok(())
}

// The names of the lock in the folders of the path.
fn list_names(alloc: Global, path: &[u8], lock: &str) -> Result<LockSearch, AllocError>
    ensures { IfOk result (λ search. search_of search ≡ sought_names path.now lock.now) }
{
    let mut names = Vec::new(alloc);
    let mut end = path.len() + 1;
    while end > 0 {
        end -= 1;
        push_name(alloc, &mut names, lock, &path[..end], &path[end..])?;
    }
    Ok(LockSearch { names })
}

// The name of the lock in the folder of the path.
fn list_own_name(alloc: Global, path: &[u8], lock: &str) -> Result<LockSearch, AllocError>
    ensures { IfOk result (λ search. search_of search ≡ own_name path.now lock.now) }
{
    let mut name = Vec::from_slice(alloc, folder(path))?;
    name.extend_from_slice(lock.as_bytes())?;
    let mut names = Vec::new(alloc);
    names.push(name)?;
    Ok(LockSearch { names })
}

// The searches for each lock of the project with this path.
fn push_searches(
    alloc: Global,
    searches: &mut Vec<LockSearch>,
    path: &[u8],
) -> Result<(), AllocError>
    ensures { IfOk result (λ _. map search_of searches.new.items ≡ map search_of searches.old.items ++ path_searches path.now) }
{
    searches.push(list_own_name(alloc, path, "pylock.toml")?)?;
    searches.push(list_names(alloc, path, "uv.lock")?)?;
    searches.push(list_own_name(alloc, path, "poetry.lock")?)?;
    searches.push(list_own_name(alloc, path, "pdm.lock")?)?;
    Ok(())
}

fn is_project(document: &Document) -> bool
    ensures { result ≡ is_project (document_of document.now).kind }
{
    matches!(document.kind, DocumentKind::Project)
}

// The searches for the locks of the document, if it is a project and not standard input.
fn push_document(
    alloc: Global,
    searches: &mut Vec<LockSearch>,
    document: &Document,
) -> Result<(), AllocError>
    ensures { IfOk result (λ _. map search_of searches.new.items ≡ map search_of searches.old.items ++ searches_for (document_of document.now)) }
{
    let path = document.file.name.as_slice();
    if !is_project(document) || path == b"-".as_slice() {
        return Ok(());
    }
    push_searches(alloc, searches, path)
}

// The searches for the locks of these documents.
pub(crate) fn list_searches(
    alloc: Global,
    documents: &[Document],
) -> Result<Vec<LockSearch>, AllocError>
    ensures { IfOk result (λ searches. map search_of searches.items ≡ lock_searches (map document_of documents.now)) }
{
    let mut searches = Vec::new(alloc);
    for document in documents {
        push_document(alloc, &mut searches, document)?;
    }
    Ok(searches)
}
