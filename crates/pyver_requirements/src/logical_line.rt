//! The logical lines of a requirements file.
ghost use Rattle.std.specs.Prelude.{◌≡◌, ◌∷◌, ◌++◌, ◌+◌, ◌≤◌, ◌^◌, [], List, ℕ, IfOk, map, take};
ghost use Rattle.pyver_requirements.specs.LineKinds.{logical_line_of, lines_with};
ghost use Rattle.pyver_requirements.specs.LogicalLines.{filled, joined_from, joined_lines, logical_lines};

use crate::comment::split_comment;
use crate::physical_line::{after_mark, opens_with_mark, split_continuation, split_line};
use std::alloc::{AllocError, Global};

/// A line of a requirements file: physical lines joined.
#[derive(Drop)]
pub struct LogicalLine {
    /// The number of its first physical line, from 1.
    pub number: u64,
    /// What stands before the comment, without blanks at both ends.
    pub text: Vec<u8>,
    /// The comment from its `#` on, or nothing.
    pub comment: Vec<u8>,
}

// The logical lines so far, and the one that has begun.
#[derive(Drop)]
struct LineJoiner {
    lines: Vec<LogicalLine>,
    first: u64,
    text: Vec<u8>,
    // The number of the physical line that comes next.
    next: u64,
}

impl LineJoiner {
    fn new(alloc: Global) -> LineJoiner
        ensures lines { (rest : List (List ℕ)) → lines_with result rest ≡ filled (joined_from 1 rest) }
        ensures next { result.next ≡ 1 }
    {
        LineJoiner {
            lines: Vec::new(alloc),
            first: 1,
            text: Vec::new(alloc),
            next: 1,
        }
    }

    // The line that has begun is whole.
    fn complete(&mut self, alloc: Global) -> Result<(), AllocError>
        ensures lines { IfOk result (λ _. map logical_line_of self.new.lines.items
            ≡ map logical_line_of self.old.lines.items ++ filled (record { number = self.old.first; text = self.old.text.items } ∷ [])) }
        ensures text { IfOk result (λ _. self.new.text.items ≡ []) }
        ensures first { IfOk result (λ _. self.new.first ≡ self.old.next) }
        ensures next { IfOk result (λ _. self.new.next ≡ self.old.next) }
    {
        let (text, comment) = split_comment(self.text.as_slice());
        if !text.is_empty() {
            let text = Vec::from_slice(alloc, text)?;
            let comment = Vec::from_slice(alloc, comment)?;
            self.lines.push(LogicalLine {
                number: self.first,
                text,
                comment,
            })?;
        }
        self.text.clear();
        self.first = self.next;
        Ok(())
    }

    // One more physical line.
    fn push(&mut self, alloc: Global, line: &[u8]) -> Result<(), AllocError>
        requires { self.old.next ≤ 2 ^ 63 }
        ensures lines { IfOk result (λ _. (rest : List (List ℕ)) →
            lines_with self.new rest ≡ lines_with self.old (line.now ∷ rest)) }
        ensures next { IfOk result (λ _. self.new.next ≡ self.old.next + 1) }
    {
        let (added, continues) = split_continuation(line);
        self.text.extend_from_slice(added)?;
        self.next += 1;
        if !continues {
            self.complete(alloc)?;
        }
        Ok(())
    }

    fn finish(mut self, alloc: Global) -> Result<Vec<LogicalLine>, AllocError>
        ensures { IfOk result (λ lines. map logical_line_of lines.items ≡ lines_with self []) }
    {
        self.complete(alloc)?;
        Ok(self.lines)
    }
}

// Only the mark that the text begins with.
fn mark_line(alloc: Global, text: &[u8]) -> Result<Vec<LogicalLine>, AllocError>
    ensures { IfOk result (λ lines. map logical_line_of lines.items ≡ record { number = 1; text = take 2 text.now; comment = [] } ∷ []) }
{
    let mut lines = Vec::new(alloc);
    lines.push(LogicalLine {
        number: 1,
        text: Vec::from_slice(alloc, first_two(text))?,
        comment: Vec::new(alloc),
    })?;
    Ok(lines)
}

fn first_two(text: &[u8]) -> &[u8]
    ensures { result.now ≡ take 2 text.now }
{
    if text.len() > 2 { &text[..2] } else { text }
}

// The logical lines of a string that is no UTF-16.
fn join_lines(alloc: Global, text: &[u8]) -> Result<Vec<LogicalLine>, AllocError>
    ensures { IfOk result (λ lines. map logical_line_of lines.items ≡ joined_lines text.now) }
{
    let mut joiner = LineJoiner::new(alloc);
    let mut rest = Some(after_mark(text));
    while let Some(left) = rest {
        let (line, later) = split_line(left);
        joiner.push(alloc, line)?;
        rest = later;
    }
    joiner.finish(alloc)
}

/// The logical lines of a requirements file: lines that end with `\` are joined with the next one, comments are split off, and left out
/// are blanks at both ends, a byte order mark at the start and lines that are then empty.
///
/// This is how pip reads, if its page is silent: lines end as for Python's `splitlines`, in UTF-8; a line that continues loses all `\`
/// at both ends; a comment line never continues, and ends the line that it is joined with; a comment begins only at the start or after
/// a blank, so `demo#1` has none. Blanks are ASCII, and bytes are not decoded: of a file in UTF-16 only its mark is a line.
///
/// Allocates.
pub fn logical_lines(alloc: Global, text: &[u8]) -> Result<Vec<LogicalLine>, AllocError>
    ensures { IfOk result (λ lines. map logical_line_of lines.items ≡ logical_lines text.now) }
{
    if opens_with_mark(text) {
        mark_line(alloc, text)
    } else {
        join_lines(alloc, text)
    }
}
