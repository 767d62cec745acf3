//! Why a bound gives no specifier, and its message.
ghost use Rattle.std.specs.Prelude.{◌≡◌, Some, codes};
ghost use Rattle.std.specs.Option.{option_map_or};
ghost use Rattle.pep440_rs.specs.ErrorTexts.{build_text};
ghost use Rattle.pep440_rs.specs.BoundErrors.{bound_rejection_of};
ghost use Rattle.pep440_rs.specs.declared.bounds.error.BoundError.TheVariants.{OutOfMemory};

use crate::specifier::error::VersionSpecifierBuildError;
use std::alloc::AllocError;
use std::error::Error;
use std::fmt;

/// Why a bound gives no specifier. Two are equal exactly if they report the same.
#[derive(Debug, PartialEq, Eq, Drop)]
pub enum BoundError {
    /// The version has a local part, which no operator of a bound allows: always `OperatorLocalCombo`, with the
    /// operator that the bound would have given.
    Build(VersionSpecifierBuildError),
    /// Out of memory, which says nothing about the bound.
    OutOfMemory,
}

impl Clone for BoundError {
    ghost is_clone = { λ error copy. bound_rejection_of copy ≡ bound_rejection_of error };

    fn clone(&self) -> Result<BoundError, AllocError> {
        match self {
            BoundError::Build(error) => Ok(BoundError::Build(error.clone()?)),
            BoundError::OutOfMemory => Ok(BoundError::OutOfMemory),
        }
    }
}

impl From<AllocError> for BoundError {
    ghost from_gives = { λ _ error. error ≡ OutOfMemory };

    fn from(_refused: AllocError) -> BoundError {
        BoundError::OutOfMemory
    }
}

impl fmt::Display for BoundError {
    ghost output = { λ e. Some (option_map_or build_text (bound_rejection_of e) (codes "out of memory")) };

    ghost styled_output = { λ e _. Some (option_map_or build_text (bound_rejection_of e) (codes "out of memory")) };

    fn fmt<W: fmt::Write>(&self, f: &mut fmt::Formatter<W>) -> fmt::Result {
        match self {
            BoundError::Build(error) => fmt::Display::fmt(error, f),
            BoundError::OutOfMemory => f.write_str("out of memory"),
        }
    }
}

impl Error for BoundError {}
