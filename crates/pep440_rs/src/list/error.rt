//! Why a string is no list of specifiers, and the error's message, which is the same whatever width and fill are asked for.
ghost use Rattle.std.specs.Prelude.{◌≡◌, ◌<◌, ◌≤◌, ◌⊎◌, ◌++◌, [], IsCharBoundary, codes, length, option_map, replicate, string_bytes};
ghost use Rattle.std.specs.Fmt.{DisplaysStyledOnOk, WritesStyledOnOk};
ghost use Rattle.pep440_rs.specs.Errors.{parse_kind_of, specifier_rejection_of};
ghost use Rattle.pep440_rs.specs.ErrorTexts.{specifier_error_text};
ghost use Rattle.pep440_rs.specs.Lists.ListErrors.{IsSpan, lacks_list_memory, list_rejection_of, span_of};
ghost use Rattle.pep440_rs.specs.Lists.ListErrorTexts.{caret_line, list_text_of, piece_text};
ghost use Rattle.pep440_rs.specs.declared.list.error.SpecifiersErrorKind.TheVariants.{OutOfMemory};

use crate::specifier::error::{VersionSpecifierParseError, write_parse_kind};
use std::alloc::{AllocError, AllocFailed, Global};
use std::error::Error;
use std::fmt;
use unicode_width::UnicodeWidthStr;

/// Why a string is no list of specifiers.
#[derive(Debug, PartialEq, Eq, Drop)]
pub enum SpecifiersErrorKind {
    /// A piece between commas is no specifier; it is the first such piece.
    Piece {
        /// Why it is none.
        error: VersionSpecifierParseError,
        /// The byte of the string at which the piece begins.
        start: usize,
        /// The byte of the string at which the piece ends.
        stop: usize,
    },
    /// Out of memory, which says nothing about the string.
    OutOfMemory,
}

impl Clone for SpecifiersErrorKind {
    ghost is_clone = { λ kind copy. (list_rejection_of copy ≡ list_rejection_of kind) × (span_of copy ≡ span_of kind) };

    fn clone(&self) -> Result<SpecifiersErrorKind, AllocError> {
        match self {
            SpecifiersErrorKind::Piece { error, start, stop } => Ok(SpecifiersErrorKind::Piece {
                error: error.clone()?,
                start: *start,
                stop: *stop,
            }),
            SpecifiersErrorKind::OutOfMemory => Ok(SpecifiersErrorKind::OutOfMemory),
        }
    }
}

impl From<AllocError> for SpecifiersErrorKind {
    ghost from_gives = { λ _ kind. kind ≡ OutOfMemory };

    fn from(_refused: AllocError) -> SpecifiersErrorKind {
        SpecifiersErrorKind::OutOfMemory
    }
}

impl<T: Drop> From<AllocFailed<T>> for SpecifiersErrorKind {
    ghost from_gives = { λ _ kind. kind ≡ OutOfMemory };

    fn from(_refused: AllocFailed<T>) -> SpecifiersErrorKind {
        SpecifiersErrorKind::OutOfMemory
    }
}

/// A string is no list of specifiers, or out of memory. Two are equal exactly if they report the same of the same
/// string.
#[derive(Debug, PartialEq, Eq, Drop)]
pub struct VersionSpecifiersParseError {
    kind: SpecifiersErrorKind,
    line: String,
    ghost in_order: { (span_of kind).0 ≤ (span_of kind).1 },
    ghost starts: { IsCharBoundary (string_bytes line) (span_of kind).0 },
    ghost stops: { IsCharBoundary (string_bytes line) (span_of kind).1 },
}

impl VersionSpecifiersParseError {
    ghost use Rattle.pep440_rs.specs.Lists.ListResults.{line_for, line_of, list_kind_of};

    /// Why: the kind of the error, with what it holds.
    pub fn kind(&self) -> &SpecifiersErrorKind
        ensures { result.now ≡ list_kind_of self.now }
    {
        &self.kind
    }

    /// Whether the call was out of memory, which says nothing about the string.
    pub fn is_out_of_memory(&self) -> bool
        ensures { result ≡ lacks_list_memory (list_kind_of self.now) }
    {
        matches!(self.kind, SpecifiersErrorKind::OutOfMemory)
    }

    /// The whole string; empty when out of memory.
    pub fn line(&self) -> &str
        ensures { result.now ≡ line_of self.now }
    {
        self.line.as_str()
    }

    // Out of memory; allocates nothing.
    pub(crate) fn out_of_memory(alloc: Global) -> VersionSpecifiersParseError
        ensures kind { list_kind_of result ≡ OutOfMemory }
        ensures line { line_of result ≡ [] }
    {
        VersionSpecifiersParseError {
            kind: SpecifiersErrorKind::OutOfMemory,
            line: String::new(alloc),
        }
    }

    // This kind of the string, or out of memory.
    pub(crate) fn from_text(
        alloc: Global,
        text: &str,
        kind: SpecifiersErrorKind,
    ) -> VersionSpecifiersParseError
        requires { IsSpan text.now kind }
        ensures kind { (list_kind_of result ≡ kind) ⊎ (list_kind_of result ≡ OutOfMemory) }
        ensures line { line_of result ≡ line_for text.now (list_kind_of result) }
    {
        if let SpecifiersErrorKind::OutOfMemory = kind {
            return VersionSpecifiersParseError::out_of_memory(alloc);
        }
        match String::from_str(alloc, text) {
            Ok(line) => VersionSpecifiersParseError { kind, line },
            Err(_) => VersionSpecifiersParseError::out_of_memory(alloc),
        }
    }
}

impl Clone for VersionSpecifiersParseError {
    ghost use Rattle.pep440_rs.specs.Lists.ListResults.{line_of, list_kind_of};

    ghost is_clone = { λ error copy. (list_rejection_of (list_kind_of copy) ≡ list_rejection_of (list_kind_of error)) × (line_of copy ≡ line_of error) };

    fn clone(&self) -> Result<VersionSpecifiersParseError, AllocError> {
        Ok(VersionSpecifiersParseError {
            kind: self.kind.clone()?,
            line: self.line.clone()?,
        })
    }
}

// Writes an ASCII character this many times.
fn write_times<W: fmt::Write>(
    f: &mut fmt::Formatter<W>,
    character: char,
    count: usize,
) -> fmt::Result
    requires ascii { character < 128 }
    ensures { WritesStyledOnOk W.write_str_gives f.old result (replicate count character) f.new }
{
    for _i in 0..count {
        f.write_char(character)?;
    }
    Ok(())
}

// Blanks up to the span, and a caret for each of its columns.
fn write_caret_line<W: fmt::Write>(
    f: &mut fmt::Formatter<W>,
    line: &str,
    start: usize,
    stop: usize,
) -> fmt::Result
    requires in_order { start ≤ stop }
    requires starts { IsCharBoundary line.now start }
    requires stops { IsCharBoundary line.now stop }
    ensures { WritesStyledOnOk W.write_str_gives f.old result (caret_line line.now start stop) f.new }
{
    write_times(f, ' ', line[..start].width())?;
    write_times(f, '^', line[start..stop].width())?;
    f.write_str("\n")
}

// Writes what follows the piece's own message: the whole string, and the line that marks the piece.
fn write_line<W: fmt::Write>(
    f: &mut fmt::Formatter<W>,
    line: &str,
    start: usize,
    stop: usize,
) -> fmt::Result
    requires in_order { start ≤ stop }
    requires starts { IsCharBoundary line.now start }
    requires stops { IsCharBoundary line.now stop }
    ensures { WritesStyledOnOk W.write_str_gives f.old result
        (codes ":\n" ++ (line.now ++ (codes "\n" ++ caret_line line.now start stop))) f.new }
{
    f.write_str(":\n")?;
    f.write_str(line)?;
    f.write_str("\n")?;
    write_caret_line(f, line, start, stop)
}

fn write_piece<W: fmt::Write>(
    f: &mut fmt::Formatter<W>,
    error: &VersionSpecifierParseError,
    line: &str,
    start: usize,
    stop: usize,
) -> fmt::Result
    requires in_order { start ≤ stop }
    requires starts { IsCharBoundary line.now start }
    requires stops { IsCharBoundary line.now stop }
    ensures { DisplaysStyledOnOk W.write_str_gives f.old result
        (option_map (λ inner. piece_text inner line.now start stop)
        (specifier_error_text (specifier_rejection_of (parse_kind_of error.now)))) f.new }
{
    f.write_str("Failed to parse version: ")?;
    write_parse_kind(f, error.kind())?;
    write_line(f, line, start, stop)
}

impl fmt::Display for VersionSpecifiersParseError {
    ghost use Rattle.pep440_rs.specs.Lists.ListResults.{line_of, list_kind_of};

    ghost output = { λ e. list_text_of (list_kind_of e) (line_of e) };

    ghost styled_output = { λ e _. list_text_of (list_kind_of e) (line_of e) };

    fn fmt<W: fmt::Write>(&self, f: &mut fmt::Formatter<W>) -> fmt::Result {
        match self.kind() {
            SpecifiersErrorKind::Piece { error, start, stop } => {
                write_piece(f, error, self.line(), *start, *stop)
            }
            SpecifiersErrorKind::OutOfMemory => f.write_str("out of memory"),
        }
    }
}

impl Error for VersionSpecifiersParseError {}
