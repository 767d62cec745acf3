//! Why a call gives nothing.
ghost use Rattle.std.specs.Prelude.{◌≡◌};
ghost use Rattle.pep440_calls.specs.Statuses.{fault_of_compile, fault_of_range, fault_of_read, fault_of_set, fault_of_string, fault_status};
ghost use Rattle.pep440_calls.specs.declared.fault.Fault.TheVariants.{OutOfMemory};

use pep440_compiled::{CompileError, CompileStringError, CompiledError};
use pep440_rs::RangeError;
use pep440_sets::SetError;
use std::alloc::{AllocError, AllocFailed};

// Why a call gives nothing.
#[derive(Clone, Copy, Debug)]
pub(crate) enum Fault {
    // A string is no version.
    InvalidVersion,
    // A string is no list of specifiers.
    InvalidList,
    // Out of memory.
    OutOfMemory,
    // A bound of a range would need a number above the greatest.
    NumberAtMax,
    // The right one of two versions, or of two lists that give sets, is none.
    InvalidRight,
    // A list with `===` has no set.
    NoSet,
    // A set by itself has no list, which asks for pre-releases or not.
    NoList,
}

impl Fault {
    // The status that says it.
    pub(crate) fn status(self) -> u8
        ensures { result ≡ fault_status self }
    {
        match self {
            Fault::InvalidVersion => 1,
            Fault::InvalidList => 2,
            Fault::OutOfMemory => 3,
            Fault::NumberAtMax => 5,
            Fault::InvalidRight => 6,
            Fault::NoSet => 12,
            Fault::NoList => 13,
        }
    }
}

impl From<AllocError> for Fault {
    ghost from_gives = { λ _ fault. fault ≡ OutOfMemory };

    fn from(_refused: AllocError) -> Fault {
        Fault::OutOfMemory
    }
}

impl<T: Drop> From<AllocFailed<T>> for Fault {
    ghost from_gives = { λ _ fault. fault ≡ OutOfMemory };

    fn from(_refused: AllocFailed<T>) -> Fault {
        Fault::OutOfMemory
    }
}

impl From<RangeError> for Fault {
    ghost from_gives = { λ error fault. fault ≡ fault_of_range error };

    fn from(error: RangeError) -> Fault {
        match error {
            RangeError::NumberAtMax => Fault::NumberAtMax,
            RangeError::OutOfMemory => Fault::OutOfMemory,
        }
    }
}

impl From<CompileStringError> for Fault {
    ghost from_gives = { λ error fault. fault ≡ fault_of_string error };

    fn from(error: CompileStringError) -> Fault {
        match error {
            CompileStringError::NotAVersion => Fault::InvalidVersion,
            CompileStringError::OutOfMemory => Fault::OutOfMemory,
        }
    }
}

impl From<CompileError> for Fault {
    ghost from_gives = { λ error fault. fault ≡ fault_of_compile error };

    // Each version that a string parses to has a compiled form.
    fn from(error: CompileError) -> Fault {
        match error {
            CompileError::NotParsed => Fault::InvalidVersion,
            CompileError::OutOfMemory => Fault::OutOfMemory,
        }
    }
}

impl From<CompiledError> for Fault {
    ghost from_gives = { λ error fault. fault ≡ fault_of_read error };

    // Of the compiled form of a list or of a set.
    fn from(error: CompiledError) -> Fault {
        match error {
            CompiledError::NotCompiled => Fault::InvalidList,
            CompiledError::OutOfMemory => Fault::OutOfMemory,
        }
    }
}

impl From<SetError> for Fault {
    ghost from_gives = { λ error fault. fault ≡ fault_of_set error };

    fn from(error: SetError) -> Fault {
        match error {
            SetError::ArbitraryEquality => Fault::NoSet,
            SetError::OutOfMemory => Fault::OutOfMemory,
        }
    }
}
