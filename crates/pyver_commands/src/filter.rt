//! The lines of the commands `filter` and `newest`, one after another: which are wanted, and what is to be written of them.
ghost use Rattle.std.specs.Prelude.{◌≡◌, ◌≤◌, ◌++◌, IfOk};
ghost use Rattle.std.specs.Option.{option_map};
ghost use Rattle.pyver_commands.specs.Sources.{unopened_message, unopened_status};
ghost use Rattle.pyver_commands.specs.Sources.SourceViews.{unopened_of};

use crate::newest_lines::{KeptLine, keep_newer};
use crate::prerelease_rule::Prereleases;
use crate::reading::Reading;
use crate::sources::line_options::LineOptions;
use crate::sources::open_failure::{UnopenedSource, push_file_fault};
use crate::sources::origin::Origin;
use crate::sources::source_lines::{is_blank, line_text, parse_line};
use pep440_rs::{Version, VersionSpecifiers};
use std::alloc::{AllocError, Global};

/// Which lines are asked for.
#[derive(Clone, Copy)]
pub struct FilterOptions {
    pub inverted: bool,
    pub prereleases: Prereleases,
    pub lines: LineOptions,
}

/// Which lines are wanted.
#[derive(Clone, Copy)]
pub enum Selection {
    /// Those whose version the list allows.
    Allowed,
    /// Those whose version it does not allow.
    Others,
    /// The newest that it allows, which is kept, and nothing is printed.
    Newest,
}

impl Selection {
    ghost use Rattle.std.specs.Prelude.{Bool, false};
    ghost use Rattle.pyver_commands.specs.Filters.{is_wanted, is_wanted_header, wanted_by};

    /// The allowed lines, or the others.
    pub fn from_inverted(inverted: bool) -> Selection
        ensures { result ≡ wanted_by inverted }
    {
        if inverted {
            Selection::Others
        } else {
            Selection::Allowed
        }
    }

    // Whether a line is printed whose version is allowed or not.
    fn shows(self, allowed: bool) -> bool
        ensures { result ≡ is_wanted self allowed }
    {
        match self {
            Selection::Allowed => allowed,
            Selection::Others => !allowed,
            Selection::Newest => false,
        }
    }

    // Whether a header is printed that is the first or not.
    fn shows_header(self, is_first: bool) -> bool
        ensures { result ≡ is_wanted_header self is_first }
    {
        match self {
            Selection::Allowed => is_first,
            Selection::Others => is_first,
            Selection::Newest => false,
        }
    }
}

/// Which lines are wanted, and by which list.
#[derive(Drop)]
pub struct FilterRule {
    pub wanted: Selection,
    /// Whether the list takes pre-releases.
    pub takes: bool,
    pub lines: LineOptions,
    pub list: VersionSpecifiers,
}

impl FilterRule {
    ghost use Rattle.pyver_commands.specs.Filters.{is_shown};

    fn shows(&self, alloc: Global, version: &Version) -> Result<bool, AllocError>
        ensures { IfOk result (λ b. b ≡ is_shown self.now version.now) }
    {
        let allowed = self.list.allows_literally(alloc, self.takes, version)?;
        Ok(self.wanted.shows(allowed))
    }
}

fn push_open_failure(
    errors: &mut Vec<u8>,
    unopened: Option<UnopenedSource<'_>>,
) -> Result<(), AllocError>
    ensures { IfOk result (λ _. errors.new.items ≡ errors.old.items ++ unopened_message (option_map unopened_of unopened.entry)) }
{
    match unopened {
        Some(file) => push_file_fault(errors, file.name.as_bytes(), file.failure.reason()),
        None => Ok(()),
    }
}

// The status, where it is this one without the file.
fn unopened_status(unopened: Option<UnopenedSource<'_>>, status: u8) -> u8
    requires { status ≤ 2 }
    ensures is { result ≡ unopened_status (option_map unopened_of unopened.entry) status }
    ensures low { result ≤ 2 }
{
    match unopened {
        Some(_) => 2,
        None => status,
    }
}

// What lines have asked for, and what of it is not yet written.
#[derive(Drop)]
pub(crate) struct FilterState {
    // How many reads were made.
    pub(crate) read_count: u64,
    // How many lines of the source were read.
    pub(crate) line_count: u64,
    // How many lines of all sources were invalid.
    pub(crate) fault_count: u64,
    // The newest line, where it is wanted.
    pub(crate) newest: Option<KeptLine>,
    pub(crate) output: Vec<u8>,
    pub(crate) errors: Vec<u8>,
}

impl FilterState {
    ghost use Rattle.std.specs.Prelude.{◌+◌, ◌*◌, ◌<◌, ◌^◌, ◌∷◌, [], List, None, ℕ, length};
    ghost use Rattle.pyver_commands.specs.AnswerViews.{reading_of};
    ghost use Rattle.pyver_commands.specs.FilterSteps.{SplitsLines, FinishesBy, HasNoNewline, Steps, StepsAt};
    ghost use Rattle.pyver_commands.specs.Sources.ReadLines.{Entry, Header};
    ghost use Rattle.pyver_commands.specs.Readings.{Denotes, Fails};
    ghost use Rattle.pyver_commands.specs.Sources.SourceViews.{origin_of};

    pub(crate) fn new(alloc: Global) -> FilterState
        ensures counts { (result.read_count ≡ 0) × (result.fault_count ≡ 0) }
        ensures no_line { result.newest ≡ None }
        ensures nothing { (result.output.items ≡ []) × (result.errors.items ≡ []) }
    {
        FilterState {
            read_count: 0,
            line_count: 0,
            fault_count: 0,
            newest: None,
            output: Vec::new(alloc),
            errors: Vec::new(alloc),
        }
    }

    // At most that of the first source is printed.
    fn push_header(
        &mut self,
        rule: &FilterRule,
        origin: Origin<'_>,
        text: &[u8],
    ) -> Result<(), AllocError>
        ensures { IfOk result (λ _. StepsAt rule.now origin.entry text.now Header self.old self.new) }
    {
        if !rule.wanted.shows_header(origin.is_first) {
            return Ok(());
        }
        self.output.extend_from_slice(text)?;
        self.output.push(b'\n')?;
        Ok(())
    }

    fn push_version(
        &mut self,
        alloc: Global,
        rule: &FilterRule,
        origin: Origin<'_>,
        text: &[u8],
        version: &Version,
    ) -> Result<(), AllocError>
        ensures { IfOk result (λ _. StepsAt rule.now origin.entry text.now (Entry (Denotes version.now)) self.old self.new) }
    {
        if let Selection::Newest = rule.wanted {
            keep_newer(
                alloc,
                rule.takes,
                &rule.list,
                &mut self.newest,
                text,
                version,
            )?;
            return Ok(());
        }
        if rule.shows(alloc, version)? {
            self.output.extend_from_slice(text)?;
            self.output.push(b'\n')?;
        }
        Ok(())
    }

    fn push_fault(
        &mut self,
        alloc: Global,
        rule: &FilterRule,
        origin: Origin<'_>,
        text: &[u8],
        reason: &str,
    ) -> Result<(), AllocError>
        requires { self.old.fault_count + 1 < 2 ^ 63 }
        ensures { IfOk result (λ _. StepsAt rule.now origin.entry text.now (Entry (Fails reason.now)) self.old self.new) }
    {
        rule.lines.invalid.push_fault(
            alloc,
            &mut self.errors,
            self.fault_count,
            origin.name,
            self.line_count,
            text,
            reason,
        )?;
        self.fault_count += 1;
        Ok(())
    }

    fn push_reading(
        &mut self,
        alloc: Global,
        rule: &FilterRule,
        origin: Origin<'_>,
        text: &[u8],
        reading: &Reading,
    ) -> Result<(), AllocError>
        requires { self.old.fault_count + 1 < 2 ^ 63 }
        ensures { IfOk result (λ _. StepsAt rule.now origin.entry text.now (Entry (reading_of reading.now)) self.old self.new) }
    {
        match reading {
            Reading::Version(version) => self.push_version(alloc, rule, origin, text, version),
            Reading::Invalid(reason) => {
                self.push_fault(alloc, rule, origin, text, reason.as_str())
            }
        }
    }

    // One more line of the source, which has ended.
    pub(crate) fn push_line(
        &mut self,
        alloc: Global,
        rule: &FilterRule,
        origin: Origin<'_>,
        line: &[u8],
    ) -> Result<(), AllocError>
        requires { (self.old.line_count + 1 < 2 ^ 63) × (self.old.fault_count + 1 < 2 ^ 63) }
        ensures { IfOk result (λ _. Steps rule.now (origin_of origin.entry) (line.now ∷ []) self.old self.new) }
    {
        self.line_count += 1;
        let text = line_text(self.line_count, line);
        if is_blank(text) {
            return Ok(());
        }
        if rule.lines.is_header(self.line_count) {
            self.push_header(rule, origin, text)?;
            return Ok(());
        }
        let reading = parse_line(alloc, rule.lines, text)?;
        self.push_reading(alloc, rule, origin, text, &reading)?;
        Ok(())
    }

    // More bytes, after those of the line that has begun.
    pub(crate) fn push_bytes(
        &mut self,
        alloc: Global,
        rule: &FilterRule,
        origin: Origin<'_>,
        line: &mut Vec<u8>,
        bytes: &[u8],
    ) -> Result<(), AllocError>
        requires line { HasNoNewline line.old.items }
        requires limits { (self.old.line_count + length bytes.now < 2 ^ 63) × (self.old.fault_count + length bytes.now < 2 ^ 63) }
        ensures steps { IfOk result (λ _. (ended : List (List ℕ)) × SplitsLines (line.old.items ++ bytes.now) ended line.new.items
            × Steps rule.now (origin_of origin.entry) ended self.old self.new) }
        ensures count { IfOk result (λ _. (self.new.line_count ≤ self.old.line_count + length bytes.now)
            × (self.new.fault_count ≤ self.old.fault_count + length bytes.now)) }
    {
        for byte in bytes {
            if *byte == b'\n' {
                self.push_line(alloc, rule, origin, line.as_slice())?;
                line.clear();
            } else {
                line.push(*byte)?;
            }
        }
        Ok(())
    }

    // Pushes the messages at the end; returns the status.
    pub(crate) fn finish(
        &mut self,
        alloc: Global,
        rule: &FilterRule,
        unopened: Option<UnopenedSource<'_>>,
    ) -> Result<u8, AllocError>
        ensures { IfOk result (λ status. FinishesBy rule.now (option_map unopened_of unopened.entry) self.old self.new status) }
    {
        let invalid = rule.lines.invalid;
        invalid.push_last(alloc, &mut self.errors, self.fault_count)?;
        push_open_failure(&mut self.errors, unopened)?;
        Ok(unopened_status(unopened, invalid.status(self.fault_count)))
    }

    // What was to be written was written.
    pub(crate) fn clear(&mut self)
        ensures counts { (self.new.read_count ≡ self.old.read_count) × (self.new.line_count ≡ self.old.line_count)
            × (self.new.fault_count ≡ self.old.fault_count) }
        ensures kept { self.new.newest ≡ self.old.newest }
        ensures nothing { (self.new.output.items ≡ []) × (self.new.errors.items ≡ []) }
    {
        self.output.clear();
        self.errors.clear();
    }
}
