//! Sets printed one interval a line.
ghost use Rattle.std.specs.Prelude.{◌≡◌, Some, codes, if◌then◌else◌};
ghost use Rattle.std.specs.Fmt.{WritesStyledOnOk};
ghost use Rattle.std.specs.List.{flat_map};
ghost use Rattle.pep440_sets.specs.SetLines.{bound_text, boundary_text, interval_end, interval_line, is_closed_end, is_closed_start, set_lines, interval_start};

use crate::set::VersionSet;
use pep440_rs::Ranges;
use pep440_version::Version;
use std::fmt;
use std::ops::Bound;

/// Whether the start of an interval is its least version. Never allocates.
pub fn is_closed_start(start: &Bound<Version>) -> bool
    ensures { result ≡ is_closed_start start.now }
{
    match start {
        Bound::Included(version) => Version::max(version).is_none(),
        Bound::Excluded(_) | Bound::Unbounded => false,
    }
}

/// Whether the end of an interval names versions that it has. Never allocates.
pub fn is_closed_end(end: &Bound<Version>) -> bool
    ensures { result ≡ is_closed_end end.now }
{
    match end {
        Bound::Included(_) => true,
        Bound::Excluded(version) => Version::max(version).is_some(),
        Bound::Unbounded => false,
    }
}

/// A boundary of a set, as it is printed: a version, `V.post*` for the post-releases of V, or a star for none.
#[derive(Clone, Copy)]
pub struct BoundaryText<'a>(pub &'a Bound<Version>);

#[tactic(auto, using(pep440_version::proofs::RoundTrip::Writing::two_writes))]
fn write_boundary<W: fmt::Write>(f: &mut fmt::Formatter<W>, version: &Version) -> fmt::Result
    ensures { WritesStyledOnOk W.write_str_gives f.old result (boundary_text version.now) f.new }
{
    fmt::Display::fmt(version, f)?;
    let suffix = if Version::max(version).is_some() {
        ".post*"
    } else {
        ""
    };
    f.write_str(suffix)
}

fn write_bound<W: fmt::Write>(f: &mut fmt::Formatter<W>, bound: &Bound<Version>) -> fmt::Result
    ensures { WritesStyledOnOk W.write_str_gives f.old result (bound_text bound.now) f.new }
{
    match bound {
        Bound::Included(version) | Bound::Excluded(version) => write_boundary(f, version),
        Bound::Unbounded => f.write_str("*"),
    }
}

impl fmt::Display for BoundaryText<'_> {
    ghost output = { λ text. Some (bound_text text.0.now) };

    ghost styled_output = { λ text _. Some (bound_text text.0.now) };

    fn fmt<W: fmt::Write>(&self, f: &mut fmt::Formatter<W>) -> fmt::Result {
        write_bound(f, self.0)
    }
}

fn open_bracket(start: &Bound<Version>) -> &'static str
    ensures { result.now ≡ (if is_closed_start start.now then codes "[" else codes "(") }
{
    if is_closed_start(start) { "[" } else { "(" }
}

fn close_bracket(end: &Bound<Version>) -> &'static str
    ensures { result.now ≡ (if is_closed_end end.now then codes "]" else codes ")") }
{
    if is_closed_end(end) { "]" } else { ")" }
}

#[tactic(auto, using(pep440_version::proofs::RoundTrip::Writing::two_writes))]
fn write_start<W: fmt::Write>(f: &mut fmt::Formatter<W>, start: &Bound<Version>) -> fmt::Result
    ensures { WritesStyledOnOk W.write_str_gives f.old result (interval_start start.now) f.new }
{
    let bracket = open_bracket(start);
    f.write_str(bracket)?;
    write_bound(f, start)
}

#[tactic(auto, using(pep440_version::proofs::RoundTrip::Writing::two_writes))]
fn write_end<W: fmt::Write>(f: &mut fmt::Formatter<W>, end: &Bound<Version>) -> fmt::Result
    ensures { WritesStyledOnOk W.write_str_gives f.old result (interval_end end.now) f.new }
{
    let bracket = close_bracket(end);
    write_bound(f, end)?;
    f.write_str(bracket)
}

fn write_interval<W: fmt::Write>(
    f: &mut fmt::Formatter<W>,
    start: &Bound<Version>,
    end: &Bound<Version>,
) -> fmt::Result
    ensures { WritesStyledOnOk W.write_str_gives f.old result (interval_line (start.now, end.now)) f.new }
{
    write_start(f, start)?;
    f.write_str(", ")?;
    write_end(f, end)?;
    f.write_str("\n")
}

fn write_intervals<W: fmt::Write>(
    f: &mut fmt::Formatter<W>,
    intervals: &Ranges<Version>,
) -> fmt::Result
    ensures { WritesStyledOnOk W.write_str_gives f.old result (set_lines intervals.now) f.new }
{
    for (start, end) in intervals.iter() {
        write_interval(f, start, end)?;
    }
    Ok(())
}

/// The intervals of a set to be printed, a line each: `[1.0, 2.0.dev0)`, `(*, 1.0.post*]`; the empty set has none.
#[derive(Clone, Copy)]
pub struct SetLines<'a>(pub &'a Ranges<Version>);

impl fmt::Display for SetLines<'_> {
    ghost output = { λ lines. Some (set_lines lines.0.now) };

    ghost styled_output = { λ lines _. Some (set_lines lines.0.now) };

    fn fmt<W: fmt::Write>(&self, f: &mut fmt::Formatter<W>) -> fmt::Result {
        write_intervals(f, self.0)
    }
}

/// As `SetLines` prints its intervals.
impl fmt::Display for VersionSet {
    ghost output = { λ set. Some (set_lines set) };

    ghost styled_output = { λ set _. Some (set_lines set) };

    fn fmt<W: fmt::Write>(&self, f: &mut fmt::Formatter<W>) -> fmt::Result {
        write_intervals(f, self.intervals())
    }
}
