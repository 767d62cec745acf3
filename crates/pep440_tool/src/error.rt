//! Why a command prints no result.
ghost use Rattle.std.specs.Prelude.{◌≡◌};
ghost use Rattle.pep440_tool.specs.CommandErrors.{ends_lines, error_text_of, lacks_memory};
ghost use Rattle.pep440_tool.specs.declared.error.CommandError.TheVariants.{OutOfMemory};

use pep440_pick::RequirementError;
use pep440_rs::{
    ChangeError, ErrorKind, RangeError, SpecifiersErrorKind, VersionParseError,
    VersionSpecifiersParseError,
};
use std::alloc::{AllocError, AllocFailed};
use std::fmt;

// Why a command prints no result. Words and lines are numbered from 1.
#[derive(Drop)]
pub(crate) enum CommandError {
    // A word is no version.
    Version(VersionParseError),
    // A word is no list of specifiers.
    List(VersionSpecifiersParseError),
    // The word with this number asks for no change.
    NotAChange(usize),
    // A change cannot be made.
    Change(ChangeError),
    // The list has no range.
    Range(RangeError),
    // The word for a name is none.
    Name,
    // The candidate with this number is no version.
    Candidate(usize, VersionParseError),
    // The line with this number is not UTF-8.
    NotUtf8(usize),
    // The line with this number is no version.
    Line(usize, VersionParseError),
    // The line with this number is no requirement.
    Requirement(usize, RequirementError),
    // Out of memory.
    OutOfMemory,
}

impl From<AllocError> for CommandError {
    ghost from_gives = { λ _ error. error ≡ OutOfMemory };

    fn from(_: AllocError) -> CommandError {
        CommandError::OutOfMemory
    }
}

impl<T: Drop> From<AllocFailed<T>> for CommandError {
    ghost from_gives = { λ _ error. error ≡ OutOfMemory };

    fn from(_: AllocFailed<T>) -> CommandError {
        CommandError::OutOfMemory
    }
}

impl CommandError {
    // Whether it is out of memory, in itself or by the error that it holds.
    pub(crate) fn is_out_of_memory(&self) -> bool
        ensures { result ≡ lacks_memory self.now }
    {
        match self {
            CommandError::Version(error) => matches!(error.kind(), ErrorKind::OutOfMemory),
            CommandError::List(error) => matches!(error.kind(), SpecifiersErrorKind::OutOfMemory),
            CommandError::Change(error) => matches!(error, ChangeError::OutOfMemory),
            CommandError::Range(error) => matches!(error, RangeError::OutOfMemory),
            CommandError::Candidate(_, error) => matches!(error.kind(), ErrorKind::OutOfMemory),
            CommandError::Line(_, error) => matches!(error.kind(), ErrorKind::OutOfMemory),
            CommandError::Requirement(_, error) => matches!(error, RequirementError::OutOfMemory),
            CommandError::OutOfMemory => true,
            _ => false,
        }
    }

    // Whether its message ends its own lines, as that of a list does.
    pub(crate) fn ends_lines(&self) -> bool
        ensures { result ≡ ends_lines self.now }
    {
        match self {
            CommandError::List(_) => true,
            CommandError::Requirement(_, error) => matches!(error, RequirementError::Specifiers(_)),
            _ => false,
        }
    }
}

impl fmt::Display for CommandError {
    ghost output = { λ error. error_text_of error };

    fn fmt<W: fmt::Write>(&self, f: &mut fmt::Formatter<W>) -> fmt::Result {
        match self {
            CommandError::Version(error) => fmt::Display::fmt(error, f),
            CommandError::List(error) => fmt::Display::fmt(error, f),
            CommandError::NotAChange(number) => write!(f, "change {number}: not a change"),
            CommandError::Change(error) => fmt::Display::fmt(error, f),
            CommandError::Range(error) => fmt::Display::fmt(error, f),
            CommandError::Name => f.write_str("name: not a valid name"),
            CommandError::Candidate(number, error) => write!(f, "candidate {number}: {error}"),
            CommandError::NotUtf8(number) => write!(f, "line {number}: not UTF-8"),
            CommandError::Line(number, error) => write!(f, "line {number}: {error}"),
            CommandError::Requirement(number, error) => write!(f, "line {number}: {error}"),
            CommandError::OutOfMemory => f.write_str("out of memory"),
        }
    }
}
