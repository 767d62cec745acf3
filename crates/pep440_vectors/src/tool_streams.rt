//! Runs of `pep440`, also over streams whose calls fail.
use pep440_tool::{answer, run};
use std::alloc::{AllocError, Global};
use testing::{After, CaseError, Manner, Sink, Trickle, split_words};

const OUT_OF_MEMORY_LINE: &[u8] = b"error: out of memory\n";

// What a run wrote, how often it read, and the shortest buffer that it passed the reader.
#[derive(Drop)]
struct Run {
    status: u8,
    output: Sink,
    reads: u32,
    shortest: usize,
}

fn run_words(alloc: Global, words: &[String], text: &[u8], after: After, manner: Manner) -> Run {
    let mut reader = Trickle::new(text, after);
    let mut output = Sink::new(manner);
    let status = run(alloc, words, &mut reader, &mut output);
    Run {
        status,
        output,
        reads: reader.calls,
        shortest: reader.shortest,
    }
}

fn print_run(alloc: Global, run: &Run) -> Result<String, CaseError> {
    let Ok(output) = std::str::from_utf8(run.output.bytes()) else {
        return Err(CaseError::Unreadable);
    };
    let (status, writes, flushes) = (run.status, run.output.writes, run.output.flushes);
    let mut text = format!(in alloc; "{status} {output}, {writes} writes, {flushes} flushes")?;
    if run.reads > 0 {
        let (reads, shortest) = (run.reads, run.shortest);
        write!(text, ", {reads} reads of {shortest}")?;
    }
    Ok(text)
}

// Whether an allocation of the run may have failed.
fn may_lack_memory(run: &Run) -> bool {
    run.status > 2 && OUT_OF_MEMORY_LINE.starts_with(run.output.bytes())
}

/// The status, what is written, and how many writes, flushes and reads that takes.
pub fn run_over_streams(
    alloc: Global,
    words: &str,
    text: &str,
    after: &str,
    manner: &str,
) -> Result<String, CaseError> {
    let words = split_words(alloc, words)?;
    let text = input_argument(alloc, text)?;
    let (after, manner) = (after_argument(after)?, manner_argument(manner)?);
    // Of the allocations of both runs at most one fails.
    let first = run_words(alloc, words.as_slice(), text.as_slice(), after, manner);
    let again = run_words(alloc, words.as_slice(), text.as_slice(), after, manner);
    let print = print_run(alloc, &first)?;
    if print == print_run(alloc, &again)? {
        Ok(print)
    } else if may_lack_memory(&first) || may_lack_memory(&again) {
        Err(CaseError::OutOfMemory)
    } else {
        Err(CaseError::Disagreement)
    }
}

// Whether the run over a writer that fails past so many bytes writes these of the output, and reads nothing.
fn is_cut(alloc: Global, words: &[String], output: &[u8], taken: usize) -> Result<bool, CaseError> {
    let manner = Manner::FailsPast(taken);
    let run = run_words(alloc, words, b"never read", After::Fails, manner);
    if run.output.bytes() == output && run.status == 4 && run.reads == 0 {
        Ok(true)
    } else if may_lack_memory(&run) {
        Err(CaseError::OutOfMemory)
    } else {
        Ok(false)
    }
}

/// How many beginnings of its output a run writes over writers that fail past each.
pub fn cut_anywhere(alloc: Global, words: &str) -> Result<String, CaseError> {
    let words = split_words(alloc, words)?;
    let said = answer(alloc, words.as_slice(), b"")?;
    let mut cuts = 0u64;
    for taken in 0..said.output.len() {
        let (front, _) = said.output.as_slice().split_at(taken);
        if is_cut(alloc, words.as_slice(), front, taken)? {
            cuts = cuts.saturating_add(1);
        }
    }
    Ok(format!(in alloc; "{cuts}")?)
}

/// What a reader does after its last byte.
pub fn after_argument(text: &str) -> Result<After, CaseError> {
    match text {
        "end" => Ok(After::End),
        "fails" => Ok(After::Fails),
        "newlines" => Ok(After::NewlinesForEver),
        _ => Err(CaseError::Unreadable),
    }
}

fn count(text: &str) -> Result<usize, CaseError> {
    usize::from_str_radix(text, 10).map_err(|_| CaseError::Unreadable)
}

/// What a writer does.
pub fn manner_argument(text: &str) -> Result<Manner, CaseError> {
    match text.split_once(' ') {
        Some(("by", bytes)) => Ok(Manner::TakesAtMost(count(bytes)?)),
        Some(("past", bytes)) => Ok(Manner::FailsPast(count(bytes)?)),
        Some(_) => Err(CaseError::Unreadable),
        None => match text {
            "all" => Ok(Manner::TakesAtMost(4096)),
            "none" => Ok(Manner::TakesNone),
            "interrupted" => Ok(Manner::Interrupted),
            "flush" => Ok(Manner::FlushFails),
            _ => Err(CaseError::Unreadable),
        },
    }
}

/// The bytes of the string, with the byte 255, which no string has, for each U+10FFFF.
pub fn input_argument(alloc: Global, text: &str) -> Result<Vec<u8>, AllocError> {
    let mut bytes = Vec::new(alloc);
    for (index, piece) in text.split('\u{10ffff}').enumerate() {
        if index > 0 {
            bytes.push(255)?;
        }
        bytes.extend_from_slice(piece.as_bytes())?;
    }
    Ok(bytes)
}

const OUT_OF_MEMORY: u8 = 3;

// More than any case prints.
const MOST_OUTPUT: usize = 1024;

// The status and the output, where `answer` and `run` agree on both.
fn answer_words(alloc: Global, words: &[String], input: &[u8]) -> Result<String, CaseError> {
    let said = answer(alloc, words, input)?;
    let mut reader = input;
    let mut output = Vec::with_capacity(alloc, MOST_OUTPUT)?;
    let status = run(alloc, words, &mut reader, &mut output);
    if status == OUT_OF_MEMORY && output.as_slice() == b"error: out of memory\n".as_slice() {
        return Err(CaseError::OutOfMemory);
    }
    if status != said.status || output != said.output {
        return Err(CaseError::Disagreement);
    }
    match std::str::from_utf8(output.as_slice()) {
        Ok(text) => Ok(format!(in alloc; "{status} {text}")?),
        Err(_) => Err(CaseError::Unreadable),
    }
}

fn split_and_answer(alloc: Global, words: &str, input: &[u8]) -> Result<String, CaseError> {
    let words = split_words(alloc, words)?;
    answer_words(alloc, words.as_slice(), input)
}

/// The status and what is printed, of words with or without standard input.
pub fn answer_call(alloc: Global, call: &str, arguments: &[String]) -> Result<String, CaseError> {
    match (call, arguments) {
        ("tool-no-words", []) => answer_words(alloc, &[], b""),
        ("tool", [words]) => split_and_answer(alloc, words.as_str(), b"never read\n"),
        ("tool-input", [words, input]) => {
            let input = input_argument(alloc, input.as_str())?;
            split_and_answer(alloc, words.as_str(), input.as_slice())
        }
        ("tool-streams", [words, input, after, manner]) => run_over_streams(
            alloc,
            words.as_str(),
            input.as_str(),
            after.as_str(),
            manner.as_str(),
        ),
        ("tool-cuts", [words]) => cut_anywhere(alloc, words.as_str()),
        _ => Err(CaseError::Unreadable),
    }
}
