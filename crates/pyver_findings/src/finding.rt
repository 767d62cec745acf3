//! What is reported.
ghost use Rattle.std.specs.Prelude.{◌≡◌, bytes_eq, map, not};
ghost use Rattle.std.specs.List.{list_any};
ghost use Rattle.pyver_findings.specs.Reports.{are_of_several, conflict_kind_of, finding_kind, ignore_comment, ignores, is_ignored, kind_code, kind_summary, kind_word, spans_files};
ghost use Rattle.pyver_findings.specs.Views.{file_line_of, finding_of};

use crate::file_line::FileLine;
use crate::line_meaning::has_part;

/// Why lines cannot be satisfied together.
#[derive(Clone, Copy, Debug, PartialEq, Eq)]
pub enum Conflict {
    /// No version satisfies all of them.
    NoVersion,
    /// One names a version that the other excludes.
    PinOutside,
    /// Each names another version.
    TwoPins,
}

/// What kind a finding is of.
#[derive(Clone, Copy, Debug, PartialEq, Eq)]
pub enum FindingKind {
    /// A line is no requirement, cannot be a constraint, or lacks a pin or a hash.
    NoRequirement,
    /// No version satisfies lines together.
    NoVersion,
    /// A line names a version that another excludes.
    PinOutside,
    /// Two lines name two versions.
    TwoPins,
}

impl FindingKind {
    /// The code, which stays: `PV001` and so on.
    ///
    /// Allocates nothing.
    pub fn code(self) -> &'static str
        ensures { result.now ≡ kind_code self }
    {
        match self {
            FindingKind::NoRequirement => "PV001",
            FindingKind::NoVersion => "PV002",
            FindingKind::PinOutside => "PV003",
            FindingKind::TwoPins => "PV004",
        }
    }

    /// What it says of a finding.
    ///
    /// Allocates nothing.
    pub fn summary(self) -> &'static str
        ensures { result.now ≡ kind_summary self }
    {
        match self {
            FindingKind::NoRequirement => {
                "A line or string is malformed, or what it names is missing."
            }
            FindingKind::NoVersion => "No version satisfies the lines.",
            FindingKind::PinOutside => "A line is pinned to a version that another excludes.",
            FindingKind::TwoPins => "Two lines are pinned to two versions.",
        }
    }

    /// The word for it.
    ///
    /// Allocates nothing.
    pub fn word(self) -> &'static str
        ensures { result.now ≡ kind_word self }
    {
        match self {
            FindingKind::NoRequirement => "no-requirement",
            FindingKind::NoVersion => "no-version",
            FindingKind::PinOutside => "pin-outside",
            FindingKind::TwoPins => "two-pins",
        }
    }

    // The comment that ignores findings of the kind.
    fn ignore_comment(self) -> &'static str
        ensures { result.now ≡ ignore_comment self }
    {
        match self {
            FindingKind::NoRequirement => "# pyver: ignore[PV001]",
            FindingKind::NoVersion => "# pyver: ignore[PV002]",
            FindingKind::PinOutside => "# pyver: ignore[PV003]",
            FindingKind::TwoPins => "# pyver: ignore[PV004]",
        }
    }
}

fn ignores(line: &FileLine, kind: FindingKind) -> bool
    ensures { result ≡ ignores kind (file_line_of line.now) }
{
    has_part(line.comment.as_slice(), kind.ignore_comment())
}

fn has_ignoring(lines: &[FileLine], kind: FindingKind) -> bool
    ensures { result ≡ list_any (ignores kind) (map file_line_of lines.now) }
{
    for line in lines {
        if ignores(line, kind) {
            return true;
        }
    }
    false
}

fn conflict_kind_of(conflict: Conflict) -> FindingKind
    ensures { result ≡ conflict_kind_of conflict }
{
    match conflict {
        Conflict::NoVersion => FindingKind::NoVersion,
        Conflict::PinOutside => FindingKind::PinOutside,
        Conflict::TwoPins => FindingKind::TwoPins,
    }
}

/// What is wrong with a line, or with lines together.
#[derive(Debug, Drop)]
pub enum Finding {
    /// The line is no requirement, cannot be a constraint, or lacks a pin or a hash, for this reason, and this is the column of it, in bytes from 0.
    NoRequirement(FileLine, String, usize),
    /// No version satisfies these lines together: where their markers differ, in this environment, as a marker.
    Conflicting(Conflict, Vec<FileLine>, Option<Vec<u8>>),
}

fn has_other_file(lines: &[FileLine], file: &[u8]) -> bool
    ensures { result ≡ list_any (λ m. not (bytes_eq m.file file.now)) (map file_line_of lines.now) }
{
    for line in lines {
        if line.file.as_slice() != file {
            return true;
        }
    }
    false
}

fn are_of_several(lines: &[FileLine]) -> bool
    ensures { result ≡ are_of_several (map file_line_of lines.now) }
{
    match lines {
        [] => false,
        [first, rest @ ..] => has_other_file(rest, first.file.as_slice()),
    }
}

impl Finding {
    /// Its kind.
    ///
    /// Allocates nothing.
    pub fn kind(&self) -> FindingKind
        ensures { result ≡ finding_kind (finding_of self.now) }
    {
        match self {
            Finding::NoRequirement(_, _, _) => FindingKind::NoRequirement,
            Finding::Conflicting(conflict, _, _) => conflict_kind_of(*conflict),
        }
    }

    /// Whether a comment `# pyver: ignore[CODE]` with its code stands in its line, or in one of its lines.
    ///
    /// Allocates nothing.
    pub fn is_ignored(&self) -> bool
        ensures { result ≡ is_ignored (finding_of self.now) }
    {
        match self {
            Finding::NoRequirement(line, _, _) => ignores(line, FindingKind::NoRequirement),
            Finding::Conflicting(conflict, lines, _) => {
                has_ignoring(lines.as_slice(), conflict_kind_of(*conflict))
            }
        }
    }

    /// Whether lines of two files, or more, are reported together.
    ///
    /// Allocates nothing.
    pub fn spans_files(&self) -> bool
        ensures { result ≡ spans_files (finding_of self.now) }
    {
        match self {
            Finding::NoRequirement(_, _, _) => false,
            Finding::Conflicting(_, lines, _) => are_of_several(lines.as_slice()),
        }
    }
}
