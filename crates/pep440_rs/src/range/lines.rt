//! Ranges printed one segment a line, the same whatever width and fill are asked for.
ghost use Rattle.std.specs.Prelude.{Some};
ghost use Rattle.std.specs.Fmt.{WritesStyledOnOk};
ghost use Rattle.std.specs.List.{flat_map};
ghost use Rattle.pep440_rs.specs.RangeLines.{end_text, range_lines, segment_line, start_text};

use pep440_ranges::Ranges;
use pep440_version::{Version, WithSentinels};
use std::fmt;
use std::ops::Bound;

/// A range to be printed, each segment as a line: `[1.0, 2.0)`, square for an included bound, round for an excluded one, and
/// `(*` or `*)` for an open side. A bound is printed with its sentinels. A range without a segment is the line `empty`.
#[derive(Clone, Copy)]
pub struct RangeLines<'a>(pub &'a Ranges<Version>);

#[tactic(auto, using(pep440_version::proofs::RoundTrip::Writing::two_writes))]
fn write_start<W: fmt::Write>(f: &mut fmt::Formatter<W>, start: &Bound<Version>) -> fmt::Result
    ensures { WritesStyledOnOk W.write_str_gives f.old result (start_text start.now) f.new }
{
    match start {
        Bound::Included(version) => {
            f.write_str("[")?;
            fmt::Display::fmt(&WithSentinels(version), f)
        }
        Bound::Excluded(version) => {
            f.write_str("(")?;
            fmt::Display::fmt(&WithSentinels(version), f)
        }
        Bound::Unbounded => f.write_str("(*"),
    }
}

#[tactic(auto, using(pep440_version::proofs::RoundTrip::Writing::two_writes))]
fn write_end<W: fmt::Write>(f: &mut fmt::Formatter<W>, end: &Bound<Version>) -> fmt::Result
    ensures { WritesStyledOnOk W.write_str_gives f.old result (end_text end.now) f.new }
{
    match end {
        Bound::Included(version) => {
            fmt::Display::fmt(&WithSentinels(version), f)?;
            f.write_str("]")
        }
        Bound::Excluded(version) => {
            fmt::Display::fmt(&WithSentinels(version), f)?;
            f.write_str(")")
        }
        Bound::Unbounded => f.write_str("*)"),
    }
}

fn write_segment<W: fmt::Write>(
    f: &mut fmt::Formatter<W>,
    start: &Bound<Version>,
    end: &Bound<Version>,
) -> fmt::Result
    ensures { WritesStyledOnOk W.write_str_gives f.old result (segment_line (start.now, end.now)) f.new }
{
    write_start(f, start)?;
    f.write_str(", ")?;
    write_end(f, end)?;
    f.write_str("\n")
}

fn write_segments<W: fmt::Write>(f: &mut fmt::Formatter<W>, range: &Ranges<Version>) -> fmt::Result
    ensures { WritesStyledOnOk W.write_str_gives f.old result (flat_map segment_line range.now) f.new }
{
    for (start, end) in range.iter() {
        write_segment(f, start, end)?;
    }
    Ok(())
}

fn write_lines<W: fmt::Write>(f: &mut fmt::Formatter<W>, range: &Ranges<Version>) -> fmt::Result
    ensures { WritesStyledOnOk W.write_str_gives f.old result (range_lines range.now) f.new }
{
    if range.is_empty() {
        return f.write_str("empty\n");
    }
    write_segments(f, range)
}

impl fmt::Display for RangeLines<'_> {
    ghost output = { λ lines. Some (range_lines lines.0.now) };

    ghost styled_output = { λ lines _. Some (range_lines lines.0.now) };

    fn fmt<W: fmt::Write>(&self, f: &mut fmt::Formatter<W>) -> fmt::Result {
        write_lines(f, self.0)
    }
}
