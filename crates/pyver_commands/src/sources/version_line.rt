//! The lines of sources by what they are: the header, versions, and others.
ghost use Rattle.std.specs.Prelude.{◌≡◌, ◌<◌, ◌≤◌, ◌∷◌, ◌++◌, [], IfOk, length, map};
ghost use Rattle.cli_io.specs.Newlines.{input_lines};
ghost use Rattle.pyver_commands.specs.Sources.VersionLines.{kept_text};

use crate::reading::Reading;
use crate::sources::invalid_lines::InvalidLines;
use crate::sources::line_options::LineOptions;
use crate::sources::origin::Origin;
use crate::sources::source_lines::{is_blank, line_text, parse_line};
use crate::sources::source_texts::SourceText;
use cli_io::split_line;
use pep440_rs::Version;
use std::alloc::{AllocError, Global};

// A line as it was written, and its version.
#[derive(Drop)]
pub(crate) struct VersionLine<'a> {
    pub(crate) text: &'a [u8],
    pub(crate) version: Version,
}

// The lines by what they are, and the messages of the invalid ones.
#[derive(Drop)]
pub(crate) struct VersionLines<'a> {
    // How many lines of the source were read that is read last.
    line_count: u64,
    // The header of the first source and its newline, where there is one.
    pub(crate) header: Vec<u8>,
    pub(crate) versions: Vec<VersionLine<'a>>,
    // The invalid lines, where they are kept.
    pub(crate) invalid: Vec<&'a [u8]>,
    // How many lines were invalid.
    pub(crate) fault_count: u64,
    pub(crate) errors: Vec<u8>,
}

// One more invalid line, where such lines are kept.
fn keep_text<'a>(
    how: InvalidLines,
    kept: &mut Vec<&'a [u8]>,
    text: &'a [u8],
) -> Result<(), AllocError>
    ensures { IfOk result (λ _. map (λ t. t.now) kept.new.items ≡ map (λ t. t.now) kept.old.items ++ kept_text how text.now) }
{
    match how {
        InvalidLines::Error => Ok(()),
        InvalidLines::AlwaysError => Ok(()),
        InvalidLines::Skip => Ok(()),
        InvalidLines::Keep => {
            kept.push(text)?;
            Ok(())
        }
    }
}

impl<'a> VersionLines<'a> {
    ghost use Rattle.std.specs.Prelude.{◌+◌, ◌^◌, List};
    ghost use Rattle.pyver_commands.specs.AnswerViews.{reading_of};
    ghost use Rattle.pyver_commands.specs.Sources.InvalidLines.{lines_status};
    ghost use Rattle.pyver_commands.specs.Sources.ReadLines.{Entry, Header};
    ghost use Rattle.pyver_commands.specs.Readings.{Denotes, Fails};
    ghost use Rattle.pyver_commands.specs.Sources.InputLines.{SourceLine, filled_lines, filled_lines_from, source_lines};
    ghost use Rattle.pyver_commands.specs.Sources.SourceTexts.{size_of, source_of};
    ghost use Rattle.pyver_commands.specs.Sources.SourceViews.{origin_of};
    ghost use Rattle.pyver_commands.specs.Sources.VersionLineViews.{IsOfLines, KeepsAt, KeepsLines};

    fn new(alloc: Global) -> VersionLines<'a>
        ensures { (options : LineOptions) → KeepsLines options [] result }
    {
        VersionLines {
            line_count: 0,
            header: Vec::new(alloc),
            versions: Vec::new(alloc),
            invalid: Vec::new(alloc),
            fault_count: 0,
            errors: Vec::new(alloc),
        }
    }

    fn push_header(
        &mut self,
        options: LineOptions,
        origin: Origin<'_>,
        text: &'a [u8],
    ) -> Result<(), AllocError>
        ensures { IfOk result (λ _. KeepsAt options origin.entry text.now Header self.old self.new) }
    {
        if origin.is_first {
            self.header.extend_from_slice(text)?;
            self.header.push(b'\n')?;
        }
        Ok(())
    }

    fn push_version(
        &mut self,
        options: LineOptions,
        origin: Origin<'_>,
        text: &'a [u8],
        version: Version,
    ) -> Result<(), AllocError>
        ensures { IfOk result (λ _. KeepsAt options origin.entry text.now (Entry (Denotes version)) self.old self.new) }
    {
        self.versions.push(VersionLine { text, version })?;
        Ok(())
    }

    fn push_fault(
        &mut self,
        alloc: Global,
        options: LineOptions,
        origin: Origin<'_>,
        text: &'a [u8],
        reason: &str,
    ) -> Result<(), AllocError>
        requires { self.old.fault_count < 2 ^ 63 }
        ensures { IfOk result (λ _. KeepsAt options origin.entry text.now (Entry (Fails reason.now)) self.old self.new) }
    {
        options.invalid.push_fault(
            alloc,
            &mut self.errors,
            self.fault_count,
            origin.name,
            self.line_count,
            text,
            reason,
        )?;
        keep_text(options.invalid, &mut self.invalid, text)?;
        self.fault_count += 1;
        Ok(())
    }

    fn push_reading(
        &mut self,
        alloc: Global,
        options: LineOptions,
        origin: Origin<'_>,
        text: &'a [u8],
        reading: Reading,
    ) -> Result<(), AllocError>
        requires { self.old.fault_count < 2 ^ 63 }
        ensures { IfOk result (λ _. KeepsAt options origin.entry text.now (Entry (reading_of reading)) self.old self.new) }
    {
        match reading {
            Reading::Version(version) => self.push_version(options, origin, text, version),
            Reading::Invalid(reason) => {
                self.push_fault(alloc, options, origin, text, reason.as_str())
            }
        }
    }

    // One more line of a source.
    fn push_line(
        &mut self,
        alloc: Global,
        options: LineOptions,
        origin: Origin<'_>,
        line: &'a [u8],
    ) -> Result<(), AllocError>
        requires { (self.old.fault_count < 2 ^ 63) × (self.old.line_count < 2 ^ 63) }
        ensures lines { IfOk result (λ _. (lines : List SourceLine) → KeepsLines options lines self.old
            → KeepsLines options (lines ++ filled_lines_from (origin_of origin.entry) (self.old.line_count + 1) (line.now ∷ [])) self.new) }
        ensures count { IfOk result (λ _. self.new.line_count ≡ self.old.line_count + 1) }
        ensures faults { IfOk result (λ _. self.new.fault_count ≤ self.old.fault_count + 1) }
    {
        self.line_count += 1;
        let text = line_text(self.line_count, line);
        if is_blank(text) {
            return Ok(());
        }
        if options.is_header(self.line_count) {
            self.push_header(options, origin, text)?;
            return Ok(());
        }
        let reading = parse_line(alloc, options, text)?;
        self.push_reading(alloc, options, origin, text, reading)?;
        Ok(())
    }

    // The lines of one more source.
    fn push_source(
        &mut self,
        alloc: Global,
        options: LineOptions,
        origin: Origin<'_>,
        text: &'a [u8],
    ) -> Result<(), AllocError>
        requires { self.old.fault_count + length text.now < 2 ^ 63 }
        ensures lines { IfOk result (λ _. (lines : List SourceLine) → KeepsLines options lines self.old
            → KeepsLines options
            (lines ++ source_lines (record { origin = origin_of origin.entry; lines = input_lines text.now })) self.new) }
        ensures faults { IfOk result (λ _. self.new.fault_count ≤ self.old.fault_count + length text.now + 1) }
    {
        self.line_count = 0;
        let mut rest = Some(text);
        while let Some(left) = rest {
            let (line, later) = split_line(left);
            self.push_line(alloc, options, origin, line)?;
            rest = later;
        }
        Ok(())
    }

    // Pushes the message of the invalid lines at the end.
    fn finish(&mut self, alloc: Global, options: LineOptions) -> Result<(), AllocError>
        ensures { IfOk result (λ _. (lines : List SourceLine) → KeepsLines options lines self.old → IsOfLines options lines self.new) }
    {
        options
            .invalid
            .push_last(alloc, &mut self.errors, self.fault_count)?;
        Ok(())
    }

    // The status by the invalid lines.
    pub(crate) fn status(&self, options: LineOptions) -> u8
        ensures is { result ≡ lines_status options.invalid self.now.fault_count }
        ensures known { result ≤ 2 }
    {
        options.invalid.status(self.fault_count)
    }

    // The lines of the sources.
    pub(crate) fn read(
        alloc: Global,
        options: LineOptions,
        sources: &'a [SourceText<'_>],
    ) -> Result<VersionLines<'a>, AllocError>
        requires { size_of sources.now < 2 ^ 63 }
        ensures { IfOk result (IsOfLines options (filled_lines (map source_of sources.now))) }
    {
        let mut lines = VersionLines::new(alloc);
        for source in sources {
            lines.push_source(alloc, options, source.origin, source.text.as_slice())?;
        }
        lines.finish(alloc, options)?;
        Ok(lines)
    }
}
