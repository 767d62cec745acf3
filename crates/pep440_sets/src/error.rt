//! Why a list of specifiers has no set.
ghost use Rattle.std.specs.Prelude.{Some};
ghost use Rattle.pep440_sets.specs.ErrorTexts.{set_error_text};

use std::alloc::AllocError;
use std::error::Error;
use std::fmt;

/// Why a list of specifiers has no set.
#[derive(Debug, Clone, Copy, PartialEq, Eq)]
pub enum SetError {
    /// A member has the operator `===`, which compares how versions are written (PEP 440, "Arbitrary equality").
    ArbitraryEquality,
    /// Out of memory, which says nothing about the list.
    OutOfMemory,
}

impl From<AllocError> for SetError {
    ghost use Rattle.std.specs.Prelude.{◌≡◌};
    ghost use Rattle.pep440_sets.specs.declared.error.SetError.TheVariants.{OutOfMemory};

    ghost from_gives = { λ _ e. e ≡ OutOfMemory };

    fn from(_: AllocError) -> Self {
        SetError::OutOfMemory
    }
}

impl fmt::Display for SetError {
    ghost output = { λ e. Some (set_error_text e) };

    ghost styled_output = { λ e _. Some (set_error_text e) };

    fn fmt<W: fmt::Write>(&self, f: &mut fmt::Formatter<W>) -> fmt::Result {
        match self {
            SetError::ArbitraryEquality => {
                f.write_str(
                    "a list with === has no set, since === compares how versions are written",
                )
            }
            SetError::OutOfMemory => f.write_str("out of memory"),
        }
    }
}

impl Error for SetError {}
