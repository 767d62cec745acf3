//! The lines of an input with their numbers.
ghost use Rattle.std.specs.Prelude.{◌≡◌, ◌+◌, ◌<◌, ◌∷◌, ◌^◌, [], length, IfSome, MatchResult};
ghost use Rattle.std.specs.Option.{ForSome, option_map_or};
ghost use Rattle.std.specs.Str.{IsUtf8};
ghost use Rattle.pep440_tool.specs.Lines.{is_skipped, numbered_lines};
ghost use Rattle.cli_io.specs.Newlines.{input_lines};
ghost use Rattle.pep440_tool.specs.declared.error.CommandError.TheVariants.{NotUtf8};

use crate::error::CommandError;
use cli_io::split_line;

// Only blanks.
fn is_skipped(line: &[u8]) -> bool
    ensures { result ≡ is_skipped line.now }
{
    line.iter().all(|byte| *byte == b'\t' || *byte == 12 || *byte == b'\r' || *byte == b' ')
}

// A line that is not skipped.
#[derive(Clone, Copy)]
pub(crate) struct Line<'a> {
    // Its number, from 1.
    pub(crate) number: usize,
    bytes: &'a [u8],
}

impl<'a> Line<'a> {
    // The line as a string.
    pub(crate) fn text(self) -> Result<&'a str, CommandError>
        ensures { MatchResult result (λ text. (text.now ≡ self.entry.bytes.now) × IsUtf8 self.entry.bytes.now)
            (λ e. (¬ IsUtf8 self.entry.bytes.now) × (e ≡ NotUtf8 self.entry.number)) }
    {
        match std::str::from_utf8(self.bytes) {
            Ok(text) => Ok(text),
            Err(_) => Err(CommandError::NotUtf8(self.number)),
        }
    }
}

// The lines that are left of an input.
#[derive(Clone, Copy)]
pub(crate) struct Lines<'a> {
    // None after the last line.
    rest: Option<&'a [u8]>,
    // How many lines were read.
    read: usize,
    ghost counted: { ForSome rest (λ r. read + length r.now < 2 ^ 63) },
}

impl<'a> Lines<'a> {
    ghost use Rattle.pep440_tool.specs.LinesLeft.{bytes_left, left};

    // The lines of the input.
    pub(crate) fn new(input: &'a [u8]) -> Lines<'a>
        ensures { left result ≡ numbered_lines input.now }
    {
        Lines {
            rest: Some(input),
            read: 0,
        }
    }

    // The next line that is not skipped, and those that are left.
    pub(crate) fn next_line(self) -> Option<(Line<'a>, Lines<'a>)>
        ensures next { left self.entry ≡ option_map_or (λ x. (x.0.number, x.0.bytes.now) ∷ left x.1) result [] }
        ensures fewer { IfSome result (λ x. bytes_left x.1 < bytes_left self.entry) }
    {
        let mut rest = self.rest;
        let mut read = self.read;
        while let Some(text) = rest {
            let (bytes, later) = split_line(text);
            read += 1;
            if !is_skipped(bytes) {
                let line = Line {
                    number: read,
                    bytes,
                };
                return Some((line, Lines { rest: later, read }));
            }
            rest = later;
        }
        None
    }
}
