//! Why something is not compiled, and why bytes cannot be read.
ghost use Rattle.std.specs.Prelude.{◌≡◌};

use std::alloc::{AllocError, AllocFailed};

/// Why a version or a list has no compiled form.
#[derive(Clone, Copy, Debug, PartialEq, Eq, thiserror::Error)]
pub enum CompileError {
    /// No string parses to the version: it has a sentinel, or a local segment that is not in normal form.
    #[error("no string parses to this version")]
    NotParsed,
    /// Out of memory.
    #[error("out of memory")]
    OutOfMemory,
}

impl From<AllocError> for CompileError {
    ghost use Rattle.pep440_compiled.specs.declared.error.CompileError.TheVariants.{OutOfMemory};

    ghost from_gives = { λ _ error. error ≡ OutOfMemory };

    fn from(_refused: AllocError) -> CompileError {
        CompileError::OutOfMemory
    }
}

impl<T: Drop> From<AllocFailed<T>> for CompileError {
    ghost use Rattle.pep440_compiled.specs.declared.error.CompileError.TheVariants.{OutOfMemory};

    ghost from_gives = { λ _ error. error ≡ OutOfMemory };

    fn from(_refused: AllocFailed<T>) -> CompileError {
        CompileError::OutOfMemory
    }
}

/// Why a string has no compiled form.
#[derive(Clone, Copy, Debug, PartialEq, Eq, thiserror::Error)]
pub enum CompileStringError {
    /// The string is no version, for which `Version::from_str` returns why, or the bytes are not UTF-8.
    #[error("not a version")]
    NotAVersion,
    /// Out of memory.
    #[error("out of memory")]
    OutOfMemory,
}

impl From<AllocError> for CompileStringError {
    ghost use Rattle.pep440_compiled.specs.declared.error.CompileStringError.TheVariants.{OutOfMemory};

    ghost from_gives = { λ _ error. error ≡ OutOfMemory };

    fn from(_refused: AllocError) -> CompileStringError {
        CompileStringError::OutOfMemory
    }
}

/// Why bytes cannot be read.
#[derive(Clone, Copy, Debug, PartialEq, Eq, thiserror::Error)]
pub enum CompiledError {
    /// The bytes denote nothing.
    #[error("not compiled")]
    NotCompiled,
    /// Out of memory.
    #[error("out of memory")]
    OutOfMemory,
}

impl From<AllocError> for CompiledError {
    ghost use Rattle.pep440_compiled.specs.declared.error.CompiledError.TheVariants.{OutOfMemory};

    ghost from_gives = { λ _ error. error ≡ OutOfMemory };

    fn from(_refused: AllocError) -> CompiledError {
        CompiledError::OutOfMemory
    }
}

impl<T: Drop> From<AllocFailed<T>> for CompiledError {
    ghost use Rattle.pep440_compiled.specs.declared.error.CompiledError.TheVariants.{OutOfMemory};

    ghost from_gives = { λ _ error. error ≡ OutOfMemory };

    fn from(_refused: AllocFailed<T>) -> CompiledError {
        CompiledError::OutOfMemory
    }
}

/// Bytes that denote nothing.
#[derive(Clone, Copy, Debug, PartialEq, Eq, thiserror::Error)]
#[error("not compiled")]
pub struct NotCompiled;

/// Which of two compiled forms bytes are not.
#[derive(Clone, Copy, Debug, PartialEq, Eq, thiserror::Error)]
pub enum ContainsError {
    /// The one is to be a version.
    #[error("not a compiled version")]
    NoVersion,
    /// The other is to be a list.
    #[error("not a compiled list")]
    NoList,
}
