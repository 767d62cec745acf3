//! Why a run stops, and writing to both outputs.
ghost use Rattle.std.specs.Prelude.{◌≡◌, IfErr, List, OnOk, Option, Some, ℕ};
ghost use Rattle.std.specs.Io.KnownBytes.{Appends};
ghost use Rattle.cli_io.specs.Streams.{WroteBeginning};
ghost use Rattle.pyver_commands.specs.Sources.RunFailures.{IsReadingFailure, IsRunFailureOf};
ghost use Rattle.pyver_commands.specs.declared.sources.stream.RunFailure.TheVariants.{OutOfMemory};

use crate::sources::open_failure::push_file_fault;
use crate::sources::origin::is_input;
use cli_io::{WriteFailure, write_whole};
use std::alloc::{AllocError, AllocFailed, Global};
use std::io::Write;

/// Why a run stopped before its end.
#[derive(Drop)]
pub enum RunFailure {
    OutOfMemory,
    /// A read of standard input.
    Read,
    /// A read of a file, with its message.
    ReadFile(Vec<u8>),
    /// A write of the output.
    Output(WriteFailure),
    /// A write of the errors, after the output.
    Errors(WriteFailure),
}

impl From<AllocError> for RunFailure {
    ghost from_gives = { λ _ failure. failure ≡ OutOfMemory };

    fn from(_: AllocError) -> RunFailure {
        RunFailure::OutOfMemory
    }
}

impl<T: Drop> From<AllocFailed<T>> for RunFailure {
    ghost from_gives = { λ _ failure. failure ≡ OutOfMemory };

    fn from(_: AllocFailed<T>) -> RunFailure {
        RunFailure::OutOfMemory
    }
}

// So many reads are made at most, which takes years.
pub(crate) const MOST_READS: u64 = 562949953421312;

// A read of the source with this name failed.
pub(crate) fn fail_reading(alloc: Global, name: &str) -> RunFailure
    ensures of { IsRunFailureOf (Some name.now) result }
    ensures reading { IsReadingFailure name.now result }
{
    if is_input(name) {
        return RunFailure::Read;
    }
    let mut message = Vec::new(alloc);
    match push_file_fault(&mut message, name.as_bytes(), "a read failed") {
        Ok(()) => RunFailure::ReadFile(message),
        Err(_) => RunFailure::OutOfMemory,
    }
}

// Writes the output and then the errors. Where a call failed or took no byte, a beginning of each was written.
pub(crate) fn write_both<W: Write, E: Write>(
    out: &mut W,
    err: &mut E,
    output: &[u8],
    errors: &[u8],
) -> Result<(), RunFailure>
    ensures whole { OnOk result (Appends (W.contents out.old) (W.contents out.new) output.now
        × Appends (E.contents err.old) (E.contents err.new) errors.now) }
    ensures output { WroteBeginning (W.contents out.old) (W.contents out.new) output.now }
    ensures errors { WroteBeginning (E.contents err.old) (E.contents err.new) errors.now }
    ensures failure { IfErr result (λ failure. (last : Option (List ℕ)) → IsRunFailureOf last failure) }
{
    write_whole(out, output).map_err(RunFailure::Output)?;
    write_whole(err, errors).map_err(RunFailure::Errors)
}
