//! The program over any reader and any writer.
ghost use Rattle.std.specs.Prelude.{◌≡◌, ◌⊎◌, false, map, string_bytes};
ghost use Rattle.std.specs.Io.KnownBytes.{Appends};
ghost use Rattle.cli_io.specs.Streams.{WroteBeginning};
ghost use Rattle.pep440_tool.specs.Commands.{request_of_words, reads_input};
ghost use Rattle.pep440_tool.specs.Runs.{RunEnds};
ghost use Rattle.pep440_tool.specs.Answers.{memory_text};

use crate::command::Command;
use cli_io::status::{FAILED, OUT_OF_MEMORY};
use cli_io::{ReadFailure, read_whole, write_whole};
use std::alloc::Global;
use std::io::{Read, Write};

// At most 8 GiB are read.
const MOST_READS: u64 = 1048576;

const MEMORY: &str = "error: out of memory\n";

/// Runs the command of the words and returns the status of the process: 0, 1 or 2 as `answer`, 3 out of memory, 4 a read or a write
/// failed.
///
/// With 0, 1 or 2 the output of `answer` was written and nothing else, and `filter` and `pick` have read all input. With 3 the message was
/// written and nothing else. With 4 a prefix was written, of the output, after the input that it needs was read, or of that
/// message. Only `filter` and `pick`, with a right number of words, read the input.
pub fn run<R: Read, W: Write>(alloc: Global, words: &[String], reader: &mut R, writer: &mut W) -> u8
    ensures ends { RunEnds R.remaining W.contents (map string_bytes words.now) reader.old reader.new writer.old writer.new result }
    ensures memory { result ≡ 3 → Appends (W.contents writer.old) (W.contents writer.new) memory_text }
    ensures unread { reads_input (request_of_words (map string_bytes words.now)) ≡ false → reader.new ≡ reader.old }
{
    let command = Command::parse(words);
    let mut input = Vec::new(alloc);
    if command.reads_input() {
        match read_whole(alloc, MOST_READS, &mut 0, reader) {
            Ok(bytes) => input = bytes,
            Err(ReadFailure::Io) => return FAILED,
            Err(ReadFailure::OutOfMemory) => return refuse(writer),
        }
    }
    let Ok(answer) = command.answer(alloc, input.as_slice()) else {
        return refuse(writer);
    };
    match write_whole(writer, answer.output.as_slice()) {
        Ok(()) => answer.status,
        Err(_) => FAILED,
    }
}

/// Writes `error: out of memory`, without allocating, and returns the status of the process: 3, or 4 if the writer
/// failed or took no byte.
pub fn refuse<W: Write>(writer: &mut W) -> u8
    ensures status { (result ≡ 3) ⊎ (result ≡ 4) }
    ensures whole { result ≡ 3 → Appends (W.contents writer.old) (W.contents writer.new) memory_text }
    ensures beginning { WroteBeginning (W.contents writer.old) (W.contents writer.new) memory_text }
{
    match write_whole(writer, MEMORY.as_bytes()) {
        Ok(()) => OUT_OF_MEMORY,
        Err(_) => FAILED,
    }
}
