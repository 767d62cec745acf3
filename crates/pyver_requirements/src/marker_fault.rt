//! Why a string is no environment marker.
ghost use Rattle.std.specs.Prelude.{◌≡◌};
ghost use Rattle.pyver_requirements.specs.declared.marker_fault.MarkerError.TheVariants.{OutOfMemory};

use std::alloc::{AllocError, AllocFailed};

/// Why a string is no environment marker.
#[derive(Clone, Copy, PartialEq, Eq)]
pub enum MarkerFault {
    /// A variable or a string is missing.
    MissingOperand,
    /// A string has no closing quote.
    UnclosedString,
    /// An operator is missing.
    MissingOperator,
    /// A backslash stands in a string.
    Backslash,
    /// Neither `and` nor `or` follows a comparison, nor a parenthesis that can close, nor the end.
    NoConnective,
    /// A parenthesis is not closed.
    Unclosed,
    /// More than 100 parentheses are open.
    TooDeep,
}

impl MarkerFault {
    ghost use Rattle.pyver_requirements.specs.MarkerSteps.{marker_reason};

    /// Why the string is none, in words. Never allocates.
    pub fn reason(self) -> &'static str
        ensures { result.now ≡ marker_reason self }
    {
        match self {
            MarkerFault::MissingOperand => "a variable or a string is expected",
            MarkerFault::UnclosedString => "the string has no closing quote",
            MarkerFault::MissingOperator => "an operator is expected",
            MarkerFault::Backslash => "a backslash stands in the string",
            MarkerFault::NoConnective => "'and' or 'or' is expected",
            MarkerFault::Unclosed => "')' is expected",
            MarkerFault::TooDeep => "more than 100 parentheses are open",
        }
    }
}

/// Why a string is no environment marker, and from which byte on.
#[derive(Clone, Copy, PartialEq, Eq)]
pub enum MarkerError {
    /// The string is none, and this is the position, in bytes from 0, from which on it is none.
    Invalid(MarkerFault, usize),
    /// Out of memory; the string may be a marker or not.
    OutOfMemory,
}

impl From<AllocError> for MarkerError {
    ghost from_gives = { λ _ error. error ≡ OutOfMemory };

    fn from(_: AllocError) -> MarkerError {
        MarkerError::OutOfMemory
    }
}

impl<T: Drop> From<AllocFailed<T>> for MarkerError {
    ghost from_gives = { λ _ error. error ≡ OutOfMemory };

    fn from(_: AllocFailed<T>) -> MarkerError {
        MarkerError::OutOfMemory
    }
}
