//! The command `filter`.
ghost use Rattle.std.specs.Prelude.{◌≡◌, ◌∷◌, ◌++◌, [], IfOk, List, Some};
ghost use Rattle.std.specs.Fmt.{WritesStyledOnOk};
ghost use Rattle.std.specs.List.{AllZip, filter, flat_map};
ghost use Rattle.pep440_rs.specs.Matching.{list_matches};
ghost use Rattle.pep440_tool.specs.Answers.{RejectsFirst, line};
ghost use Rattle.pep440_tool.specs.CommandErrors.{HoldsOrPrints};
ghost use Rattle.pep440_tool.specs.Lines.{FilterAnswer, LineDenotes, RejectsLine, numbered_lines, shown_version_error};
ghost use Rattle.pep440_tool.specs.AnswerValues.{HoldsOfAnswer};
ghost use Rattle.pep440_version.specs.Grammar.{Derives};
ghost use Rattle.pep440_version.specs.Print.{print};
ghost use Rattle.pep440_version.specs.Record.{Record};
ghost use Rattle.pep440_version.specs.Rejections.{Rejects};

use crate::error::CommandError;
use crate::input_lines::{Line, Lines};
use crate::operands::parse_list;
use crate::output::Answer;
use pep440_rs::{Version, VersionSpecifiers};
use std::alloc::{AllocError, Global};
use std::fmt;

// The version that the line denotes.
fn parse_line(alloc: Global, line: Line<'_>) -> Result<Version, CommandError>
    ensures { HoldsOrPrints (LineDenotes Derives (line.entry.number, line.entry.bytes.now))
        (RejectsLine Rejects shown_version_error (line.entry.number, line.entry.bytes.now)) result }
{
    match Version::from_str(alloc, line.text()?) {
        Ok(version) => Ok(version),
        Err(error) => Err(CommandError::Line(line.number, error)),
    }
}

// One more version, where the list contains it.
fn push_match(
    alloc: Global,
    list: &VersionSpecifiers,
    version: Version,
    versions: &mut Vec<Version>,
) -> Result<(), AllocError>
    ensures { IfOk result (λ _. versions.new.items ≡ versions.old.items ++ filter (list_matches list.now) (version ∷ [])) }
{
    if list.contains(alloc, &version)? {
        versions.push(version)?;
    }
    Ok(())
}

// The versions of the lines that the list contains, in the order of the lines.
fn parse_matches(
    alloc: Global,
    list: &VersionSpecifiers,
    input: &[u8],
) -> Result<Vec<Version>, CommandError>
    ensures { HoldsOrPrints (λ versions. (found : List Record)
        × AllZip (LineDenotes Derives) (numbered_lines input.now) found
        × (versions.items ≡ filter (list_matches list.now) found))
        (RejectsFirst (LineDenotes Derives) (RejectsLine Rejects shown_version_error) (numbered_lines input.now)) result }
{
    let mut versions = Vec::new(alloc);
    let mut lines = Lines::new(input);
    while let Some((line, later)) = lines.next_line() {
        let version = parse_line(alloc, line)?;
        push_match(alloc, list, version, &mut versions)?;
        lines = later;
    }
    Ok(versions)
}

// Versions to be printed a line each.
#[derive(Drop)]
struct SortedVersions<'a> {
    versions: &'a [Version],
}

#[tactic(auto, using(pep440_version::proofs::RoundTrip::Writing::two_writes))]
fn write_line<W: fmt::Write>(f: &mut fmt::Formatter<W>, version: &Version) -> fmt::Result
    ensures { WritesStyledOnOk W.write_str_gives f.old result (line (print version.now)) f.new }
{
    fmt::Display::fmt(version, f)?;
    f.write_str("\n")
}

fn write_lines<W: fmt::Write>(f: &mut fmt::Formatter<W>, versions: &[Version]) -> fmt::Result
    ensures { WritesStyledOnOk W.write_str_gives f.old result (flat_map (λ v. line (print v)) versions.now) f.new }
{
    for version in versions {
        write_line(f, version)?;
    }
    Ok(())
}

impl fmt::Display for SortedVersions<'_> {
    ghost output = { λ l. Some (flat_map (λ v. line (print v)) l.versions.now) };

    ghost styled_output = { λ l _. Some (flat_map (λ v. line (print v)) l.versions.now) };

    fn fmt<W: fmt::Write>(&self, f: &mut fmt::Formatter<W>) -> fmt::Result {
        write_lines(f, self.versions)
    }
}

// `filter SPECS`: the versions of the lines that the list contains, in order.
pub(crate) fn filter_lines(alloc: Global, word: &str, input: &[u8]) -> Result<Answer, CommandError>
    ensures { HoldsOfAnswer (FilterAnswer word.now input.now) result }
{
    let list = parse_list(alloc, word)?;
    let mut versions = parse_matches(alloc, &list, input)?;
    versions.sort()?;
    let lines = SortedVersions {
        versions: versions.as_slice(),
    };
    Ok(Answer::from_lines(lines.to_string(alloc)?))
}
