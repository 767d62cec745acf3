//! Reading to the end within a bound, and writing whole, with no call made twice.
ghost use Rattle.std.specs.Prelude.{◌+◌, ◌*◌, ◌<◌, ◌≤◌, IfErr, IfOk, List, OnOk, length, ℕ};
ghost use Rattle.std.specs.Io.KnownBytes.{Appends, Consumes, IsAtEnd};
ghost use Rattle.cli_io.specs.Streams.{WroteBeginning};

use std::alloc::{AllocError, Global};
use std::io::{Error, ErrorKind, Read, Write};

/// The most bytes that a read gives.
pub const READ_SIZE: usize = 8192;

/// Why the input was not read to its end.
#[derive(Clone, Copy, Debug)]
pub enum ReadFailure {
    /// A read failed, or the most reads were made.
    Io,
    /// An allocation failed.
    OutOfMemory,
}

impl From<AllocError> for ReadFailure {
    ghost use Rattle.std.specs.Prelude.{◌≡◌};
    ghost use Rattle.cli_io.specs.declared.stream.ReadFailure.TheVariants.{OutOfMemory};

    ghost from_gives = { λ _ failure. failure ≡ OutOfMemory };

    fn from(_: AllocError) -> ReadFailure {
        ReadFailure::OutOfMemory
    }
}

/// Reads to the end, and counts the reads, of which no more are made than `most_reads` and none is made again if it fails.
pub fn read_whole<R: Read>(
    alloc: Global,
    most_reads: u64,
    read_count: &mut u64,
    reader: &mut R,
) -> Result<Vec<u8>, ReadFailure>
    ensures read { IfOk result (λ input. Consumes (R.remaining reader.old) (R.remaining reader.new) input.items) }
    ensures end { OnOk result (IsAtEnd (R.remaining reader.new)) }
    ensures limits { IfOk result (λ input. (length input.items + 8192 * read_count.old < 8192 * read_count.new)
        × (read_count.new ≤ most_reads)) }
    ensures part { IfErr result (λ _. (read : List ℕ) × Consumes (R.remaining reader.old) (R.remaining reader.new) read) }
{
    let mut input = Vec::new(alloc);
    let mut buffer = [0u8; READ_SIZE];
    while *read_count < most_reads {
        *read_count += 1;
        let Ok(count) = reader.read(&mut buffer) else {
            return Err(ReadFailure::Io);
        };
        if count == 0 {
            return Ok(input);
        }
        input.extend_from_slice(&buffer[..count])?;
    }
    Err(ReadFailure::Io)
}

/// Why not all was written.
#[derive(Clone, Copy, Debug)]
pub enum WriteFailure {
    /// Nobody reads what is written.
    BrokenPipe,
    /// A write failed or took no byte, or a flush failed.
    Other,
}

impl From<Error> for WriteFailure {
    ghost use Rattle.std.specs.Prelude.{◌≡◌, ◌↔◌};
    ghost use Rattle.std.specs.IoError.{error_kind};
    ghost use Rattle.std.specs.declared.io.ErrorKind.TheVariants as kind;
    ghost use Rattle.cli_io.specs.declared.stream.WriteFailure.TheVariants.{BrokenPipe};

    ghost from_gives = { λ error failure. (failure ≡ BrokenPipe) ↔ (error_kind error ≡ kind.BrokenPipe) };

    fn from(error: Error) -> WriteFailure {
        match error.kind() {
            ErrorKind::BrokenPipe => WriteFailure::BrokenPipe,
            _ => WriteFailure::Other,
        }
    }
}

/// Writes all of it and flushes. Where a call failed or took no byte, a beginning was written.
pub fn write_whole<W: Write>(writer: &mut W, bytes: &[u8]) -> Result<(), WriteFailure>
    ensures whole { OnOk result (Appends (W.contents writer.old) (W.contents writer.new) bytes.now) }
    ensures beginning { WroteBeginning (W.contents writer.old) (W.contents writer.new) bytes.now }
{
    let mut at = 0;
    while at < bytes.len() {
        match writer.write(&bytes[at..])? {
            0 => return Err(WriteFailure::Other),
            count => at += count,
        }
    }
    Ok(writer.flush()?)
}
