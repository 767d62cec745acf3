//! Why a conversion into a range fails, and its message.
ghost use Rattle.std.specs.Prelude.{Some};
ghost use Rattle.pep440_rs.specs.ErrorTexts.{range_error_text};

use std::alloc::{AllocError, AllocFailed};
use std::error::Error;
use std::fmt;

/// Why a conversion into a range fails.
#[derive(Debug, Clone, Copy, PartialEq, Eq)]
pub enum RangeError {
    /// A number that has to be raised is 18446744073709551615, the greatest there is; of a list it is so in some
    /// member.
    NumberAtMax,
    /// Out of memory, which says nothing about the specifiers.
    OutOfMemory,
}

impl From<AllocError> for RangeError {
    ghost use Rattle.std.specs.Prelude.{◌≡◌};
    ghost use Rattle.pep440_rs.specs.declared.range.error.RangeError.TheVariants.{OutOfMemory};

    ghost from_gives = { λ _ e. e ≡ OutOfMemory };

    fn from(_: AllocError) -> Self {
        RangeError::OutOfMemory
    }
}

impl<T: Drop> From<AllocFailed<T>> for RangeError {
    ghost use Rattle.std.specs.Prelude.{◌≡◌};
    ghost use Rattle.pep440_rs.specs.declared.range.error.RangeError.TheVariants.{OutOfMemory};

    ghost from_gives = { λ _ e. e ≡ OutOfMemory };

    fn from(_: AllocFailed<T>) -> Self {
        RangeError::OutOfMemory
    }
}

impl fmt::Display for RangeError {
    ghost output = { λ e. Some (range_error_text e) };

    ghost styled_output = { λ e _. Some (range_error_text e) };

    fn fmt<W: fmt::Write>(&self, f: &mut fmt::Formatter<W>) -> fmt::Result {
        match self {
            RangeError::NumberAtMax => f.write_str(
                "a number of 18446744073709551615 cannot be raised",
            ),
            RangeError::OutOfMemory => f.write_str("out of memory"),
        }
    }
}

impl Error for RangeError {}
