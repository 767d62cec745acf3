//! The report of requirements files.
ghost use Rattle.std.specs.Prelude.{◌≡◌, ◌++◌, IfOk, map, not};
ghost use Rattle.std.specs.List.{filter};
ghost use Rattle.pyver_findings.specs.Reports.{IsReport, demands_in, empty_report, invalid_in, is_ignored, joined_report, left_out_in, without_ignored};
ghost use Rattle.pyver_findings.specs.Views.{AddsFindings, KeepsReadings, demand_of, file_line_of, file_of, finding_of, line_meaning_of, report_of};

use crate::conflicts::push_conflicts;
use crate::constraints::push_constraint_findings;
use crate::demand::Demand;
use crate::file_line::{FileLine, SourceFile, all_lines};
use crate::finding::Finding;
use crate::hashes::push_hash_findings;
use crate::line_meaning::{LineMeaning, parse_line};
use pyver_markers::Domain;
use pyver_requirements::Cause;
use std::alloc::{AllocError, Global};

/// What is wrong in requirements files, and how much of them was read.
#[derive(Debug, Drop)]
pub struct Report {
    /// First the lines that are no requirements, in order; then what cannot be a constraint; then what lacks a hash; then what is wrong with lines
    /// together, by name.
    pub findings: Vec<Finding>,
    /// Those that comments ignore, once `apply_comments` has moved them here.
    pub ignored: Vec<Finding>,
    /// How many lines were read that are neither empty nor comments.
    pub lines: usize,
    /// How many files were read.
    pub files: usize,
    /// Of each line that was left out, why, and of each set of markers.
    pub left_out: Vec<Cause>,
}

// All environments, each of one system.
const EVERYWHERE: Domain = Domain {
    linked: true,
    python: None,
};

// What the lines so far are.
#[derive(Drop)]
pub(crate) struct Readings {
    invalid: Vec<Finding>,
    pub(crate) demands: Vec<Demand>,
    left_out: Vec<Cause>,
}

impl Readings {
    fn push(&mut self, reading: LineMeaning) -> Result<(), AllocError>
        ensures invalid { IfOk result (λ _. map finding_of self.new.invalid.items ≡ map finding_of self.old.invalid.items
            ++ invalid_in (line_meaning_of reading)) }
        ensures demands { IfOk result (λ _. map demand_of self.new.demands.items ≡ map demand_of self.old.demands.items
            ++ demands_in (line_meaning_of reading)) }
        ensures left_out { IfOk result (λ _. self.new.left_out.items
            ≡ self.old.left_out.items ++ left_out_in (line_meaning_of reading)) }
    {
        match reading {
            LineMeaning::Asks(demand) => self.demands.push(demand)?,
            LineMeaning::IsNone(finding) => self.invalid.push(finding)?,
            LineMeaning::LeftOut(cause) => self.left_out.push(cause)?,
            LineMeaning::AsksNothing => {}
        }
        Ok(())
    }
}

pub(crate) fn parse_lines(alloc: Global, lines: &[FileLine]) -> Result<Readings, AllocError>
    ensures { IfOk result (KeepsReadings (map file_line_of lines.now)) }
{
    let mut readings = Readings {
        invalid: Vec::new(alloc),
        demands: Vec::new(alloc),
        left_out: Vec::new(alloc),
    };
    for line in lines {
        let reading = parse_line(alloc, line)?;
        readings.push(reading)?;
    }
    Ok(readings)
}

/// What is wrong in these files, each of which is read once, in this order: first the lines that are no requirements, in
/// order; then editables, and requirements with extras, in files that a line names after `-c`; then, in files in which a line
/// has a hash or says `--require-hashes`, requirements of whose name no line is pinned, or none has a hash; then what `push_conflicts` adds: for each name, in
/// the order in which names are first mentioned, lines that no version satisfies together in some environment of one system.
///
/// A line names a version if a member of its list is `==` without a star, or `===`; a finding of two lines says whether one or both do.
/// Takes n log n steps for n lines, and for a finding as many each time that its lines can be halved. But each marker of a name takes time
/// for the lines without one, a finding under a marker for all lines of the name, and one of lines with `===` n log n steps for each line
/// that it has.
///
/// Allocates.
pub fn find_problems(alloc: Global, files: &[SourceFile]) -> Result<Report, AllocError>
    ensures { IfOk result (λ r. IsReport (map file_of files.now) (report_of r)) }
{
    let lines = all_lines(alloc, files)?;
    let readings = parse_lines(alloc, lines.as_slice())?;
    let mut findings = readings.invalid;
    let mut left_out = readings.left_out;
    push_constraint_findings(alloc, &mut findings, files, lines.as_slice())?;
    let demands = readings.demands;
    push_hash_findings(alloc, &mut findings, lines.as_slice(), demands.as_slice())?;
    push_conflicts(
        alloc,
        &mut findings,
        &mut left_out,
        demands.as_slice(),
        EVERYWHERE,
    )?;
    Ok(Report {
        findings,
        ignored: Vec::new(alloc),
        lines: lines.len(),
        files: files.len(),
        left_out,
    })
}

// The findings that no comment ignores; the others follow those that are ignored.
fn split_findings(
    alloc: Global,
    findings: Vec<Finding>,
    ignored: &mut Vec<Finding>,
) -> Result<Vec<Finding>, AllocError>
    ensures left { IfOk result (λ left. map finding_of left.items ≡ filter (λ f. not (is_ignored f)) (map finding_of findings.items)) }
    ensures ignored { IfOk result (λ _. AddsFindings ignored.old.items ignored.new.items (filter is_ignored (map finding_of findings.items))) }
{
    let mut left = Vec::new(alloc);
    for finding in findings {
        if finding.is_ignored() {
            ignored.push(finding)?;
        } else {
            left.push(finding)?;
        }
    }
    Ok(left)
}

impl Report {
    /// The report of no files.
    ///
    /// Allocates nothing.
    pub fn empty(alloc: Global) -> Report
        ensures { report_of result ≡ empty_report }
    {
        Report {
            findings: Vec::new(alloc),
            ignored: Vec::new(alloc),
            lines: 0,
            files: 0,
            left_out: Vec::new(alloc),
        }
    }

    /// Appends the report of other files, whose findings follow. Counts stop at 2^64 - 1. Fails if memory runs out; then only a part of it
    /// may have been appended.
    ///
    /// Allocates.
    pub fn append(&mut self, other: Report) -> Result<(), AllocError>
        ensures { IfOk result (λ _. report_of self.new ≡ joined_report (report_of self.old) (report_of other)) }
    {
        let mut other = other;
        self.findings.append(&mut other.findings)?;
        self.ignored.append(&mut other.ignored)?;
        self.left_out.append(&mut other.left_out)?;
        self.lines = self.lines.saturating_add(other.lines);
        self.files = self.files.saturating_add(other.files);
        Ok(())
    }

    /// The report without the findings that comments ignore, which follow those in `ignored`.
    ///
    /// Allocates.
    pub fn apply_comments(self, alloc: Global) -> Result<Report, AllocError>
        ensures { IfOk result (λ r. report_of r ≡ without_ignored (report_of self)) }
    {
        let mut ignored = self.ignored;
        let findings = split_findings(alloc, self.findings, &mut ignored)?;
        Ok(Report {
            findings,
            ignored,
            lines: self.lines,
            files: self.files,
            left_out: self.left_out,
        })
    }
}
