//! The projects that are checked, and what by them is not asked of a lock.
ghost use Rattle.std.specs.Prelude.{◌≡◌, ◌++◌, ◌∷◌, [], IfOk, map, option_map, option_to_list};
ghost use Rattle.std.specs.List.{list_any, flat_map};
ghost use Rattle.pyver_documents.specs.Comparing.{is_project_reading, names_read, overrides_read, is_excused, is_installer};
ghost use Rattle.pyver_documents.specs.DocumentViews.{document_reading_of, reading_in, excuses};

use crate::document_reading::{DocumentReading, ReadDocument};
use pyver_locks::lock_faults::contains_name;
use std::alloc::{AllocError, Global};

// The projects that are checked: whether there are some, and the names that they have and override.
#[derive(Drop)]
pub(crate) struct KnownProjects {
    is_some: bool,
    // In their normal form.
    names: Vec<Vec<u8>>,
    // The names that they override.
    overridden: Vec<Vec<u8>>,
}

fn is_project_reading(reading: &DocumentReading) -> bool
    ensures { result ≡ is_project_reading (document_reading_of reading.now) }
{
    matches!(reading, DocumentReading::Project(_))
}

fn has_project_reading(read: &[ReadDocument<'_>]) -> bool
    ensures { result ≡ list_any (λ document. is_project_reading (reading_in document)) read.now }
{
    read.iter()
        .any(|document| is_project_reading(&document.reading))
}

// Adds a copy of the name.
fn push_copy(alloc: Global, names: &mut Vec<Vec<u8>>, name: &Vec<u8>) -> Result<(), AllocError>
    ensures { IfOk result (λ _. map (λ n. n.items) names.new.items ≡ map (λ n. n.items) names.old.items ++ name.now.items ∷ []) }
{
    names.push(Vec::from_slice(alloc, name.as_slice())?)?;
    Ok(())
}

// Adds the name, if there is one.
fn push_name(
    alloc: Global,
    names: &mut Vec<Vec<u8>>,
    name: &Option<Vec<u8>>,
) -> Result<(), AllocError>
    ensures { IfOk result (λ _. map (λ n. n.items) names.new.items ≡ map (λ n. n.items) names.old.items ++ option_to_list (option_map (λ n. n.items) name.now)) }
{
    match name {
        Some(name) => push_copy(alloc, names, name),
        None => Ok(()),
    }
}

// Adds the name of the project, if it is one and has a name.
fn push_project_name(
    alloc: Global,
    names: &mut Vec<Vec<u8>>,
    reading: &DocumentReading,
) -> Result<(), AllocError>
    ensures { IfOk result (λ _. map (λ n. n.items) names.new.items ≡ map (λ n. n.items) names.old.items ++ names_read (document_reading_of reading.now)) }
{
    match reading {
        DocumentReading::Project(project) => push_name(alloc, names, &project.name),
        DocumentReading::Lock(_) | DocumentReading::Broken(_) => Ok(()),
    }
}

// Adds copies of these.
fn push_copies(
    alloc: Global,
    names: &mut Vec<Vec<u8>>,
    others: &[Vec<u8>],
) -> Result<(), AllocError>
    ensures { IfOk result (λ _. map (λ n. n.items) names.new.items ≡ map (λ n. n.items) names.old.items ++ map (λ n. n.items) others.now) }
{
    for name in others {
        push_copy(alloc, names, name)?;
    }
    Ok(())
}

// Adds the names that the project overrides, if it is one.
fn push_overridden_names(
    alloc: Global,
    names: &mut Vec<Vec<u8>>,
    reading: &DocumentReading,
) -> Result<(), AllocError>
    ensures { IfOk result (λ _. map (λ n. n.items) names.new.items ≡ map (λ n. n.items) names.old.items ++ overrides_read (document_reading_of reading.now)) }
{
    match reading {
        DocumentReading::Project(project) => push_copies(
            alloc,
            names,
            project.overridden.as_slice(),
        ),
        DocumentReading::Lock(_) | DocumentReading::Broken(_) => Ok(()),
    }
}

// The names of the projects, and those that they override.
fn collect_names(
    alloc: Global,
    read: &[ReadDocument<'_>],
) -> Result<(Vec<Vec<u8>>, Vec<Vec<u8>>), AllocError>
    ensures names { IfOk result (λ found. map (λ n. n.items) found.0.items ≡ flat_map names_read (map reading_in read.now)) }
    ensures overridden { IfOk result (λ found. map (λ n. n.items) found.1.items ≡ flat_map overrides_read (map reading_in read.now)) }
{
    let mut names = Vec::new(alloc);
    let mut overridden = Vec::new(alloc);
    for document in read {
        push_project_name(alloc, &mut names, &document.reading)?;
        push_overridden_names(alloc, &mut overridden, &document.reading)?;
    }
    Ok((names, overridden))
}

impl KnownProjects {
    pub(crate) fn new(alloc: Global, read: &[ReadDocument<'_>]) -> Result<KnownProjects, AllocError>
        ensures { IfOk result (λ projects. excuses projects ≡ is_excused (map reading_in read.now)) }
    {
        let (names, overridden) = collect_names(alloc, read)?;
        Ok(KnownProjects {
            is_some: has_project_reading(read),
            names,
            overridden,
        })
    }

    // No lock is to have a package of this name.
    #[tactic(auto, using(pyver_requirements::proofs::Grouped::any_viewed))]
    pub(crate) fn excuses(&self, name: &[u8]) -> bool
        ensures { result ≡ (excuses self.now name.now).lacks }
    {
        is_installer(name) || !self.is_some || contains_name(self.names.as_slice(), name)
    }

    // Nothing is asked of a package of this name.
    #[tactic(auto, using(pyver_requirements::proofs::Grouped::any_viewed))]
    pub(crate) fn overrides(&self, name: &[u8]) -> bool
        ensures { result ≡ (excuses self.now name.now).overrides }
    {
        contains_name(self.overridden.as_slice(), name)
    }
}

pub(crate) fn is_installer(name: &[u8]) -> bool
    ensures { result ≡ is_installer name.now }
{
    name == b"setuptools".as_slice()
        || name == b"distribute".as_slice()
        || name == b"pip".as_slice()
        || name == b"wheel".as_slice()
}
