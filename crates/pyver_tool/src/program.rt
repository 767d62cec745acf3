//! The program over any reader and any writers.
ghost use Rattle.std.specs.Prelude.{◌≡◌, ◌⊎◌, List, Ok, ℕ, map, string_bytes};
ghost use Rattle.cli_io.specs.Streams.{WroteBeginning};
ghost use Rattle.cli_io.specs.declared.stream.WriteFailure.TheVariants.{BrokenPipe, Other};
ghost use Rattle.pyver_commands.specs.Sources.RunFailures.{IsWriteFailure, Reports, memory_message};
ghost use Rattle.pyver_tool.specs.TaskViews.{AnswerEnds, TaskEnds};
ghost use Rattle.pyver_tool.specs.Tasks.{NeedsInput, task_of};

use crate::check::check_files;
use crate::command::{Command, Work};
use crate::words::Words;
use cli_io::status::{FAILED, NOBODY_READS, OUT_OF_MEMORY};
use cli_io::{WriteFailure, write_whole};
use pyver_commands::filter_sources::filter_sources;
use pyver_commands::{Answer, Files, RunFailure, answer_input, find_output, report_output};
use std::alloc::Global;
use std::io::{Read, Write};

const MEMORY: &str = "pyver: out of memory\n";

const READ: &str = "pyver: a read failed\n";

const WRITE: &str = "pyver: a write failed\n";

fn failure_status(failure: WriteFailure) -> u8
    ensures either { (result ≡ 4) ⊎ (result ≡ 141) }
    ensures unread { failure ≡ BrokenPipe → result ≡ 141 }
    ensures other { failure ≡ Other → result ≡ 4 }
{
    match failure {
        WriteFailure::BrokenPipe => NOBODY_READS,
        WriteFailure::Other => FAILED,
    }
}

// Writes that a write failed, unless nobody reads, and returns the status.
fn report_write_failure<E: Write>(failure: WriteFailure, err: &mut E) -> u8
    ensures unread { failure ≡ BrokenPipe → result ≡ 141 }
    ensures other { failure ≡ Other → result ≡ 4 }
    ensures told { (message : List ℕ) × IsWriteFailure result message × WroteBeginning (E.contents err.old) (E.contents err.new) message }
{
    match failure {
        WriteFailure::BrokenPipe => NOBODY_READS,
        WriteFailure::Other => {
            let _ = write_whole(err, WRITE.as_bytes());
            FAILED
        }
    }
}

// Writes why a run stopped, where somebody reads that, and returns the status.
fn report_run_failure<E: Write>(failure: RunFailure, err: &mut E) -> u8
    ensures { (message : List ℕ) × Reports failure result message × WroteBeginning (E.contents err.old) (E.contents err.new) message }
{
    match failure {
        RunFailure::OutOfMemory => refuse(err),
        RunFailure::Read => {
            let _ = write_whole(err, READ.as_bytes());
            FAILED
        }
        RunFailure::ReadFile(message) => {
            let _ = write_whole(err, message.as_slice());
            FAILED
        }
        RunFailure::Output(failure) => report_write_failure(failure, err),
        RunFailure::Errors(failure) => failure_status(failure),
    }
}

// Writes an answer and returns the status.
fn write_answer<W: Write, E: Write>(answer: &Answer, out: &mut W, err: &mut E) -> u8
    ensures { AnswerEnds (Ok answer.now) W.contents E.contents out.old out.new err.old err.new result }
{
    if let Err(failure) = write_whole(out, answer.output.as_slice()) {
        return report_write_failure(failure, err);
    }
    if let Err(failure) = write_whole(err, answer.errors.as_slice()) {
        return failure_status(failure);
    }
    answer.status
}

// Writes an answer, or why there is none, and returns the status.
fn write_result<W: Write, E: Write>(
    answer: Result<Answer, RunFailure>,
    out: &mut W,
    err: &mut E,
) -> u8
    ensures { AnswerEnds answer W.contents E.contents out.old out.new err.old err.new result }
{
    match answer {
        Ok(answer) => write_answer(&answer, out, err),
        Err(failure) => report_run_failure(failure, err),
    }
}

/// Runs the command of the words and returns the status of the process: 0, 1 or 2 as its outcome, 3 out of memory, 4 a read or a
/// write failed, 141 nobody reads the output. Answers go to `out` and faults to `err`. Only `sort` and `check`, and `filter` and `newest`
/// with a valid list, read `input` and open files, and `bump` without a version reads `input`.
///
/// A run ends in one of two ways. It finishes, with 0, 1 or 2: all was read, or all before a file that is not opened, where `check` goes on,
/// and the whole outcome was written. Or it stops, with 3, 4 or 141, and of a message `err` got what it took. If reading stopped or
/// an allocation failed before there was an outcome, only that message was written, which names the source if a read failed. If a write failed, a prefix of
/// the output was written and then the message, or all output and a prefix of the errors. `filter`, which prints lines as they come, wrote a
/// prefix of the output of the first lines read, and a prefix of their errors and then of the message. It reads nothing if a source is
/// also the output: the status is 2.
pub fn run<F: Files, R: Read, W: Write, E: Write>(
    alloc: Global,
    words: &[String],
    files: &mut F,
    input: &mut R,
    out: &mut W,
    err: &mut E,
) -> u8
    ensures ends { TaskEnds (F.known files.old) (F.path files.old) (F.output files.old) R.remaining (task_of (map string_bytes words.now)) input.old input.new W.contents E.contents out.old out.new err.old err.new result }
    ensures unread { ¬ NeedsInput (task_of (map string_bytes words.now)) → (input.new ≡ input.old) × (files.new ≡ files.old) }
    ensures kept { F.known files.new ≡ F.known files.old }
{
    let Ok(read) = Words::read(alloc, words) else {
        return refuse(err);
    };
    match Command::parse(&read).run(alloc) {
        Ok(Work::Answer(answer)) => write_answer(&answer, out, err),
        Ok(Work::Filter(rule, names)) => {
            if let Some(name) = find_output(names, files) {
                return write_result(report_output(alloc, name), out, err);
            }
            match filter_sources(alloc, &rule, names, files, input, out, err) {
                Ok(status) => status,
                Err(failure) => report_run_failure(failure, err),
            }
        }
        Ok(Work::Whole(question, names)) => {
            write_result(answer_input(alloc, question, names, files, input), out, err)
        }
        Ok(Work::Check(options, names)) => {
            write_result(check_files(alloc, options, names, files, input), out, err)
        }
        Err(_) => refuse(err),
    }
}

/// Writes that the program is out of memory, without allocating, and returns the status of the process, 3.
pub fn refuse<E: Write>(err: &mut E) -> u8
    ensures status { result ≡ 3 }
    ensures written { WroteBeginning (E.contents err.old) (E.contents err.new) memory_message }
{
    let _ = write_whole(err, MEMORY.as_bytes());
    OUT_OF_MEMORY
}
