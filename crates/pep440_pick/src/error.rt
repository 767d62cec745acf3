//! The errors of requirements, their positions and their messages.
ghost use Rattle.std.specs.Prelude.{◌≡◌};
ghost use Rattle.pep440_pick.specs.Requirements.{requirement_rejection_of, requirement_text_of};
ghost use Rattle.pep440_pick.specs.declared.error.RequirementError.TheVariants.{OutOfMemory};

use pep440_rs::VersionSpecifiersParseError;
use std::alloc::{AllocError, AllocFailed};
use std::error::Error;
use std::fmt;

/// Why a string is no requirement: the first of these that holds. Two are equal exactly if they report the same.
#[derive(Debug, PartialEq, Eq, Drop)]
pub enum RequirementError {
    /// There is a `;`: markers are not supported.
    Marker,
    /// There is an `@`: URLs are not supported.
    Url,
    /// It does not begin with a name.
    InvalidName,
    /// What is in brackets are no extras, or the brackets are not closed.
    InvalidExtras,
    /// A parenthesis opens before the list and is not closed.
    Unclosed,
    /// The list of specifiers is invalid; the error's line is the list.
    Specifiers(VersionSpecifiersParseError),
    /// Out of memory, which says nothing about the string.
    OutOfMemory,
}

impl Clone for RequirementError {
    ghost is_clone = { λ error copy. requirement_rejection_of copy ≡ requirement_rejection_of error };

    fn clone(&self) -> Result<RequirementError, AllocError> {
        match self {
            RequirementError::Marker => Ok(RequirementError::Marker),
            RequirementError::Url => Ok(RequirementError::Url),
            RequirementError::InvalidName => Ok(RequirementError::InvalidName),
            RequirementError::InvalidExtras => Ok(RequirementError::InvalidExtras),
            RequirementError::Unclosed => Ok(RequirementError::Unclosed),
            RequirementError::Specifiers(error) => Ok(RequirementError::Specifiers(error.clone()?)),
            RequirementError::OutOfMemory => Ok(RequirementError::OutOfMemory),
        }
    }
}

impl From<AllocError> for RequirementError {
    ghost from_gives = { λ _ error. error ≡ OutOfMemory };

    fn from(_refused: AllocError) -> RequirementError {
        RequirementError::OutOfMemory
    }
}

impl<T: Drop> From<AllocFailed<T>> for RequirementError {
    ghost from_gives = { λ _ error. error ≡ OutOfMemory };

    fn from(_refused: AllocFailed<T>) -> RequirementError {
        RequirementError::OutOfMemory
    }
}

impl RequirementError {
    pub(crate) fn with_position(self, position: usize) -> RequirementParseError
        ensures kind { result.kind ≡ self }
        ensures position { result.position ≡ position }
    {
        RequirementParseError {
            kind: self,
            position,
        }
    }
}

/// Why a string is no requirement, and its position.
#[derive(Drop)]
pub struct RequirementParseError {
    /// Why.
    pub kind: RequirementError,
    /// The byte of the string at which the invalid extras, the unclosed parenthesis or the invalid list begins; otherwise 0. The
    /// error of a list has the position of the invalid piece in the list.
    pub position: usize,
}

impl From<RequirementParseError> for RequirementError {
    ghost from_gives = { λ error kind. kind ≡ error.kind };

    fn from(error: RequirementParseError) -> RequirementError {
        error.kind
    }
}

impl From<AllocError> for RequirementParseError {
    ghost from_gives = { λ _ error. error.kind ≡ OutOfMemory };

    fn from(_refused: AllocError) -> RequirementParseError {
        RequirementError::OutOfMemory.with_position(0)
    }
}

impl fmt::Display for RequirementError {
    ghost output = { λ e. requirement_text_of e };

    ghost styled_output = { λ e _. requirement_text_of e };

    fn fmt<W: fmt::Write>(&self, f: &mut fmt::Formatter<W>) -> fmt::Result {
        let text = match self {
            RequirementError::Marker => "markers are not supported",
            RequirementError::Url => "URLs are not supported",
            RequirementError::InvalidName => "not a valid name",
            RequirementError::InvalidExtras => "not valid extras",
            RequirementError::Unclosed => "unclosed parenthesis",
            RequirementError::Specifiers(error) => return fmt::Display::fmt(error, f),
            RequirementError::OutOfMemory => "out of memory",
        };
        f.write_str(text)
    }
}

impl Error for RequirementError {}
