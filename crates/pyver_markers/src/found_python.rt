//! The versions of Python that meet all conditions.
use crate::found_environment::{Search, find_in_set, suits};
use crate::marker_comparison::is_version_variable;
use crate::python_condition::first_two;
use crate::text_condition::{Operand, find_operand};
use crate::version::{ascii_version, find_specifier};
use crate::version_condition::{specifier_set, variable_set};
use pep440_rs::Version;
use pyver_requirements::{MarkerOperator, Side};
use std::alloc::{AllocError, Global};

// What `python_version` is by preference.
const PYTHONS: [&str; 10] = [
    "3.13", "3.12", "3.11", "3.10", "3.9", "3.8", "3.7", "3.6", "2.7", "0.1",
];

// What the versions of Python are, of two numbers and of all.
#[derive(Drop)]
pub(crate) struct PythonVersions {
    pub(crate) short: Vec<u8>,
    pub(crate) full: Vec<u8>,
}

// The string without `.*` at its end.
fn without_star(text: &[u8]) -> &[u8] {
    match text {
        [start @ .., b'.', b'*'] => start,
        _ => text,
    }
}

// The third number of a release.
fn third(release: &[u64]) -> u64 {
    match release {
        [_, _, third, ..] => *third,
        _ => 0,
    }
}

// The version of two numbers with this one more, if all conditions are met there.
fn find_with_third(
    alloc: Global,
    short: &[u8],
    third: u64,
    search: Search<'_, '_>,
) -> Result<Option<Vec<u8>>, AllocError> {
    let mut text = Vec::from_slice(alloc, short)?;
    text.push(b'.')?;
    text.extend_from_slice(third.to_string(alloc)?.as_bytes())?;
    if suits(
        alloc,
        "python_full_version".as_bytes(),
        text.as_slice(),
        search,
    )? {
        return Ok(Some(text));
    }
    Ok(None)
}

// The version of three numbers, within that of two, near those that are named in the string.
fn find_third(
    alloc: Global,
    short: &[u8],
    text: &[u8],
    search: Search<'_, '_>,
) -> Result<Option<Vec<u8>>, AllocError> {
    for word in text.split(|byte| *byte == b' ' || *byte == b',') {
        let Some(version) = ascii_version(alloc, without_star(word))? else {
            continue;
        };
        let last = third(version.release());
        for near in [last, last.saturating_add(1), last.saturating_sub(1)] {
            let found = find_with_third(alloc, short, near, search)?;
            if found.is_some() {
                return Ok(found);
            }
        }
    }
    Ok(None)
}

// The version of three numbers, within that of two.
fn find_release(
    alloc: Global,
    short: &[u8],
    search: Search<'_, '_>,
) -> Result<Option<Vec<u8>>, AllocError> {
    let mut found = find_with_third(alloc, short, 0, search)?;
    for condition in search.conditions {
        if found.is_some() {
            return Ok(found);
        }
        if let Some(Operand::Right(text) | Operand::Left(text)) = find_operand(
            "python_full_version".as_bytes(),
            condition,
        ) {
            found = find_third(alloc, short, text, search)?;
        }
    }
    Ok(found)
}

// A version that all conditions allow, within that of two numbers.
fn find_within(
    alloc: Global,
    short: &[u8],
    search: Search<'_, '_>,
) -> Result<Option<Vec<u8>>, AllocError> {
    let name = "python_full_version".as_bytes();
    if !is_version_variable(name) {
        return Ok(None);
    }
    let mut pattern = Vec::from_slice(alloc, short)?;
    pattern.extend_from_slice(b".*")?;
    let Some(within) = find_specifier(alloc, MarkerOperator::Equal, pattern.as_slice())? else {
        return Ok(None);
    };
    let Some(versions) = specifier_set(alloc, within)? else {
        return Ok(None);
    };
    let mut set = variable_set(alloc, name, search.conditions)?.intersection(alloc, &versions)?;
    if let Some(allowed) = search.domain.python {
        set = set.intersection(alloc, allowed)?;
    }
    find_in_set(alloc, name, &set, search)
}

// The version of all numbers, within that of two.
fn find_full_version(
    alloc: Global,
    short: &[u8],
    search: Search<'_, '_>,
) -> Result<Option<Vec<u8>>, AllocError> {
    let found = find_release(alloc, short, search)?;
    if found.is_some() {
        return Ok(found);
    }
    find_within(alloc, short, search)
}

// The versions of Python, of which this is that of two numbers.
fn find_at(
    alloc: Global,
    short: &[u8],
    search: Search<'_, '_>,
) -> Result<Option<PythonVersions>, AllocError> {
    if !suits(alloc, "python_version".as_bytes(), short, search)? {
        return Ok(None);
    }
    let Some(full) = find_full_version(alloc, short, search)? else {
        return Ok(None);
    };
    let short = Vec::from_slice(alloc, short)?;
    Ok(Some(PythonVersions { short, full }))
}

// The versions of Python near this one.
fn find_near(
    alloc: Global,
    version: &Version,
    search: Search<'_, '_>,
) -> Result<Option<PythonVersions>, AllocError> {
    let (major, minor) = first_two(version.release());
    let near = [
        (major, minor),
        (major, minor.saturating_add(1)),
        (major, minor.saturating_sub(1)),
        (major.saturating_add(1), 0),
    ];
    for (major, minor) in near {
        let short = format!(in alloc; "{major}.{minor}")?;
        let found = find_at(alloc, short.as_bytes(), search)?;
        if found.is_some() {
            return Ok(found);
        }
    }
    Ok(None)
}

// The versions of Python near those that are named in the string.
fn find_near_any(
    alloc: Global,
    text: &[u8],
    search: Search<'_, '_>,
) -> Result<Option<PythonVersions>, AllocError> {
    for word in text.split(|byte| *byte == b' ' || *byte == b',') {
        if let Some(version) = ascii_version(alloc, without_star(word))? {
            let found = find_near(alloc, &version, search)?;
            if found.is_some() {
                return Ok(found);
            }
        }
    }
    Ok(None)
}

// The versions of Python near one that is allowed.
fn find_near_bound(
    alloc: Global,
    search: Search<'_, '_>,
) -> Result<Option<PythonVersions>, AllocError> {
    let Some(allowed) = search.domain.python else {
        return Ok(None);
    };
    match allowed.find_version(alloc)? {
        Some(version) => find_near(alloc, &version, search),
        None => Ok(None),
    }
}

// The versions of Python where all conditions are met.
pub(crate) fn find_python(
    alloc: Global,
    search: Search<'_, '_>,
) -> Result<Option<PythonVersions>, AllocError> {
    for short in PYTHONS {
        let found = find_at(alloc, short.as_bytes(), search)?;
        if found.is_some() {
            return Ok(found);
        }
    }
    for condition in search.conditions {
        if let (Side::Variable(_), Side::Constant(text))
        | (Side::Constant(text), Side::Variable(_)) = (condition.left, condition.right)
        {
            let found = find_near_any(alloc, text, search)?;
            if found.is_some() {
                return Ok(found);
            }
        }
    }
    find_near_bound(alloc, search)
}
