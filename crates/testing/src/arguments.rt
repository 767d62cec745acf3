//! Arguments of cases; `Display` output of values, and what holds of each: it equals its copy, and has a debug form.
use crate::run::CaseError;
use pep440_version::{Change, ChangeWordError, ErrorKind, Version, parse_change};
use std::alloc::{AllocError, Global};
use std::fmt::{Debug, Display};
use std::ops::Bound;

/// The version, which has no changes.
pub fn parse_version(alloc: Global, text: &str) -> Result<Version, CaseError> {
    Version::from_str(alloc, text).map_err(|error| {
        if *error.kind() == ErrorKind::OutOfMemory {
            CaseError::OutOfMemory
        } else {
            CaseError::Unreadable
        }
    })
}

/// The bound, written `[1.0` if it is included, `(1.0` if it is excluded, and `*` if there is none.
pub fn bound_argument(alloc: Global, text: &str) -> Result<Bound<Version>, CaseError> {
    match text.split_at_checked(1) {
        Some(("[", version)) => Ok(Bound::Included(parse_version(alloc, version)?)),
        Some(("(", version)) => Ok(Bound::Excluded(parse_version(alloc, version)?)),
        Some(("*", "")) => Ok(Bound::Unbounded),
        _ => Err(CaseError::Unreadable),
    }
}

/// The change that the word asks for.
pub fn change_argument(alloc: Global, word: &str) -> Result<Change, CaseError> {
    parse_change(alloc, word).map_err(|error| match error {
        ChangeWordError::NotAChange => CaseError::Unreadable,
        ChangeWordError::OutOfMemory => CaseError::OutOfMemory,
    })
}

// The version after the change, by its setter.
fn set(alloc: Global, version: Version, change: Change) -> Result<Version, CaseError> {
    Ok(match change {
        Change::Release(numbers) => {
            if numbers.is_empty() {
                return Err(CaseError::Unreadable);
            }
            version.with_release(alloc, numbers.as_slice())?
        }
        Change::Epoch(epoch) => version.with_epoch(alloc, epoch)?,
        Change::Pre(pre) => version.with_pre(alloc, pre)?,
        Change::Post(post) => version.with_post(alloc, post)?,
        Change::Dev(dev) => version.with_dev(alloc, dev)?,
        Change::Local(local) => version.with_local(alloc, local)?,
        Change::WithoutLocal => version.without_local(alloc)?,
        Change::OnlyRelease => version.only_release(alloc)?,
        Change::Min(min) => {
            if version.pre().is_some() || version.dev().is_some() {
                return Err(CaseError::Unreadable);
            }
            version.with_min(alloc, min)?
        }
        Change::Max(max) => {
            if version.post().is_some() || version.dev().is_some() {
                return Err(CaseError::Unreadable);
            }
            version.with_max(alloc, max)?
        }
    })
}

/// The version after its changes.
pub fn version_argument(alloc: Global, text: &str) -> Result<Version, CaseError> {
    let mut words = text.split('~');
    let mut version = parse_version(alloc, words.next().unwrap_or(""))?;
    for word in words {
        version = set(alloc, version, change_argument(alloc, word)?)?;
    }
    Ok(version)
}

/// The versions.
pub fn version_arguments(alloc: Global, texts: &[String]) -> Result<Vec<Version>, CaseError> {
    let mut versions = Vec::new(alloc);
    for text in texts {
        versions.push(version_argument(alloc, text.as_str())?)?;
    }
    Ok(versions)
}

/// The words, each between two bars.
pub fn split_words(alloc: Global, text: &str) -> Result<Vec<String>, AllocError> {
    let mut words = Vec::new(alloc);
    for word in text.split('|') {
        words.push(String::from_str(alloc, word)?)?;
    }
    Ok(words)
}

/// The `Display` output; where the padded ones differ, these too: in 30 columns filled with blanks and with stars, after bars.
pub fn print_value<T: Display>(alloc: Global, value: &T) -> Result<String, AllocError> {
    let mut text = value.to_string(alloc)?;
    let right = format!(in alloc; "{value:>30}")?;
    let left = format!(in alloc; "{value:*<30}")?;
    if right != text || left != text {
        write!(text, "|{right}|{left}")?;
    }
    Ok(text)
}

/// The `Display` output, or `none`.
pub fn print_or_none<T: Display + Drop>(
    alloc: Global,
    value: Option<T>,
) -> Result<String, CaseError> {
    match value {
        Some(value) => Ok(print_value(alloc, &value)?),
        None => Ok(String::from_str(alloc, "none")?),
    }
}

/// Fails unless two results of the case are the same.
pub fn check(is_same: bool) -> Result<(), CaseError> {
    if is_same {
        Ok(())
    } else {
        Err(CaseError::Disagreement)
    }
}

/// Fails unless the value equals its copy.
pub fn check_copy<T: Clone + PartialEq + Drop>(value: &T) -> Result<(), CaseError> {
    check(value.clone()? == *value)
}

/// Fails unless the value has a debug form that is not empty.
pub fn check_debug<T: Debug>(alloc: Global, value: &T) -> Result<(), CaseError> {
    let form = format!(in alloc; "{value:?}")?;
    check(!form.is_empty())
}
