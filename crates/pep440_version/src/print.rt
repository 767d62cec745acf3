//! `Display` in normalized form (PEP 440, "Normalization"), which ignores width and fill.
ghost use Rattle.std.specs.Prelude.{Some, map, ◌++◌, ◌<◌, ◌+◌, ◌∷◌, [], codes};
ghost use Rattle.std.specs.List.{flat_map};
ghost use Rattle.std.specs.Fmt.{WritesStyledOnOk, DisplaysOnOk, decimal};
ghost use Rattle.pep440_version.specs.Print.{print, quoted, dotted, print_segment, prerelease_kind_text, prerelease_text, pre_text, epoch_text, local_text, labelled};
ghost use Rattle.pep440_version.specs.Segments.{segment};

use crate::prerelease::{Prerelease, PrereleaseKind};
use crate::segment::LocalSegment;
use crate::version::Version;
use std::fmt::{self, Write as _};

// A number in decimal, whatever the options of `f`. By std's `Display`, over a writer that ignores them, a version of
// small numbers took 3 to 5 in a hundred more instructions (`bench/versions`).
pub(crate) fn write_number<W: fmt::Write>(f: &mut fmt::Formatter<W>, n: u64) -> fmt::Result
    ensures { WritesStyledOnOk W.write_str_gives f.old result (decimal n) f.new }
{
    if n < 10 {
        return write_digit(f, n);
    }
    if n >= 1_000_000 {
        return write_long_number(f, n);
    }
    write_number(f, n / 10)?;
    write_digit(f, n % 10)
}

// Writes a number through a buffer that any number fits in: from seven digits on that is faster than a write for each digit. Not
// inlined, so that short numbers do not pay for the buffer.
#[inline(never)]
fn write_long_number<W: fmt::Write>(f: &mut fmt::Formatter<W>, n: u64) -> fmt::Result
    ensures { WritesStyledOnOk W.write_str_gives f.old result (decimal n) f.new }
{
    let mut text = fmt::InlineText::<20>::new();
    write!(text, "{n}")?;
    f.write_str(text.as_str())
}

fn write_digit<W: fmt::Write>(f: &mut fmt::Formatter<W>, n: u64) -> fmt::Result
    requires { n < 10 }
    ensures { WritesStyledOnOk W.write_str_gives f.old result ((48 + n) ∷ []) f.new }
{
    f.write_str(match n {
        0 => "0",
        1 => "1",
        2 => "2",
        3 => "3",
        4 => "4",
        5 => "5",
        6 => "6",
        7 => "7",
        8 => "8",
        _ => "9",
    })
}

// A label and a number.
#[tactic(auto, using(crate::proofs::RoundTrip::Writing::two_writes))]
fn write_after_label<W: fmt::Write>(f: &mut fmt::Formatter<W>, label: &str, n: u64) -> fmt::Result
    ensures { WritesStyledOnOk W.write_str_gives f.old result (label.now ++ decimal n) f.new }
{
    f.write_str(label)?;
    write_number(f, n)
}

// Each number after a dot.
fn write_dotted<W: fmt::Write>(f: &mut fmt::Formatter<W>, numbers: &[u64]) -> fmt::Result
    ensures { WritesStyledOnOk W.write_str_gives f.old result (flat_map (λ n. codes "." ++ decimal n) numbers.now) f.new }
{
    for n in numbers {
        write_after_label(f, ".", *n)?;
    }
    Ok(())
}

// The numbers with dots between them.
fn write_release<W: fmt::Write>(f: &mut fmt::Formatter<W>, release: &[u64]) -> fmt::Result
    ensures { WritesStyledOnOk W.write_str_gives f.old result (dotted decimal release.now) f.new }
{
    match release {
        [] => Ok(()),
        [first, rest @ ..] => {
            write_number(f, *first)?;
            write_dotted(f, rest)
        }
    }
}

#[tactic(auto, using(crate::proofs::RoundTrip::Writing::two_writes))]
fn write_epoch<W: fmt::Write>(f: &mut fmt::Formatter<W>, epoch: u64) -> fmt::Result
    ensures { WritesStyledOnOk W.write_str_gives f.old result (epoch_text epoch) f.new }
{
    if epoch == 0 {
        return Ok(());
    }
    write_number(f, epoch)?;
    f.write_str("!")
}

fn write_prerelease_kind<W: fmt::Write>(
    f: &mut fmt::Formatter<W>,
    kind: PrereleaseKind,
) -> fmt::Result
    ensures { WritesStyledOnOk W.write_str_gives f.old result (prerelease_kind_text kind) f.new }
{
    f.write_str(match kind {
        PrereleaseKind::Alpha => "a",
        PrereleaseKind::Beta => "b",
        PrereleaseKind::Rc => "rc",
    })
}

#[tactic(auto, using(crate::proofs::RoundTrip::Writing::two_writes))]
fn write_prerelease<W: fmt::Write>(f: &mut fmt::Formatter<W>, pre: Prerelease) -> fmt::Result
    ensures { WritesStyledOnOk W.write_str_gives f.old result (prerelease_text pre) f.new }
{
    write_prerelease_kind(f, pre.kind)?;
    write_number(f, pre.number)
}

fn write_pre<W: fmt::Write>(f: &mut fmt::Formatter<W>, pre: Option<Prerelease>) -> fmt::Result
    ensures { WritesStyledOnOk W.write_str_gives f.old result (pre_text pre) f.new }
{
    match pre {
        None => Ok(()),
        Some(pre) => write_prerelease(f, pre),
    }
}

fn write_labelled<W: fmt::Write>(
    f: &mut fmt::Formatter<W>,
    label: &str,
    number: Option<u64>,
) -> fmt::Result
    ensures { WritesStyledOnOk W.write_str_gives f.old result (labelled label.now number) f.new }
{
    match number {
        None => Ok(()),
        Some(n) => write_after_label(f, label, n),
    }
}

fn write_segment<W: fmt::Write>(
    f: &mut fmt::Formatter<W>,
    local_segment: &LocalSegment,
) -> fmt::Result
    ensures { WritesStyledOnOk W.write_str_gives f.old result (print_segment (segment local_segment.now)) f.new }
{
    match local_segment {
        LocalSegment::String(text) => f.write_str(text.as_str()),
        LocalSegment::Number(number) => write_number(f, *number),
    }
}

fn write_dotted_segment<W: fmt::Write>(
    f: &mut fmt::Formatter<W>,
    local_segment: &LocalSegment,
) -> fmt::Result
    ensures { WritesStyledOnOk W.write_str_gives f.old result (codes "." ++ print_segment (segment local_segment.now)) f.new }
{
    f.write_str(".")?;
    write_segment(f, local_segment)
}

// Each segment after a dot.
fn write_segments<W: fmt::Write>(
    f: &mut fmt::Formatter<W>,
    segments: &[LocalSegment],
) -> fmt::Result
    ensures { WritesStyledOnOk W.write_str_gives f.old result (flat_map (λ s. codes "." ++ print_segment (segment s)) segments.now) f.new }
{
    for local_segment in segments {
        write_dotted_segment(f, local_segment)?;
    }
    Ok(())
}

/// Writes local segments with dots between them, as the normalized form has them after its `+`; no segments write
/// nothing. Width and fill of `f` are ignored (PEP 440, "Local version identifiers").
///
/// The only error is the writer's.
pub fn write_local_segments<W: fmt::Write>(
    f: &mut fmt::Formatter<W>,
    local: &[LocalSegment],
) -> fmt::Result
    ensures { WritesStyledOnOk W.write_str_gives f.old result (dotted print_segment (map segment local.now)) f.new }
{
    match local {
        [] => Ok(()),
        [first, rest @ ..] => {
            write_segment(f, first)?;
            write_segments(f, rest)
        }
    }
}

fn write_local<W: fmt::Write>(f: &mut fmt::Formatter<W>, local: &[LocalSegment]) -> fmt::Result
    ensures { WritesStyledOnOk W.write_str_gives f.old result (local_text (map segment local.now)) f.new }
{
    if local.is_empty() {
        return Ok(());
    }
    f.write_str("+")?;
    write_local_segments(f, local)
}

// The normalized form of a version.
fn write_version<W: fmt::Write>(f: &mut fmt::Formatter<W>, v: &Version) -> fmt::Result
    ensures { WritesStyledOnOk W.write_str_gives f.old result (print v.now) f.new }
{
    write_epoch(f, v.epoch())?;
    write_release(f, v.release())?;
    write_pre(f, v.pre())?;
    write_labelled(f, ".post", v.post())?;
    write_labelled(f, ".dev", v.dev())?;
    write_local(f, v.local())
}

impl fmt::Display for PrereleaseKind {
    ghost output = { λ k. Some (prerelease_kind_text k) };

    ghost styled_output = { λ k _. Some (prerelease_kind_text k) };

    fn fmt<W: fmt::Write>(&self, f: &mut fmt::Formatter<W>) -> fmt::Result {
        write_prerelease_kind(f, *self)
    }
}

impl fmt::Display for Prerelease {
    ghost output = { λ p. Some (prerelease_text p) };

    ghost styled_output = { λ p _. Some (prerelease_text p) };

    fn fmt<W: fmt::Write>(&self, f: &mut fmt::Formatter<W>) -> fmt::Result {
        write_prerelease(f, *self)
    }
}

impl fmt::Display for LocalSegment {
    ghost output = { λ s. Some (print_segment (segment s)) };

    ghost styled_output = { λ s _. Some (print_segment (segment s)) };

    fn fmt<W: fmt::Write>(&self, f: &mut fmt::Formatter<W>) -> fmt::Result {
        write_segment(f, self)
    }
}

impl fmt::Display for Version {
    ghost output = { λ v. Some (print v) };

    ghost styled_output = { λ v _. Some (print v) };

    fn fmt<W: fmt::Write>(&self, f: &mut fmt::Formatter<W>) -> fmt::Result {
        write_version(f, self)
    }
}

// The normalized form and a quote.
#[tactic(auto, using(crate::proofs::RoundTrip::Writing::two_writes))]
fn write_closed<W: fmt::Write>(f: &mut fmt::Formatter<W>, v: &Version) -> fmt::Result
    ensures { WritesStyledOnOk W.write_str_gives f.old result (print v.now ++ codes "\"") f.new }
{
    write_version(f, v)?;
    f.write_str("\"")
}

// The normalized form in double quotes.
#[tactic(auto, using(crate::proofs::RoundTrip::Writing::two_writes))]
fn write_quoted<W: fmt::Write>(f: &mut fmt::Formatter<W>, v: &Version) -> fmt::Result
    ensures { WritesStyledOnOk W.write_str_gives f.old result (quoted v.now) f.new }
{
    f.write_str("\"")?;
    write_closed(f, v)
}

impl fmt::Debug for Version {
    ghost debug_output = { λ v. Some (quoted v) };

    /// Writes the normalized form in double quotes, whatever the options.
    fn fmt<W: fmt::Write>(&self, f: &mut fmt::Formatter<W>) -> fmt::Result
        ensures writes { DisplaysOnOk W.write_str_gives f.old result (Some (quoted self.now)) f.new }
        ensures styled { WritesStyledOnOk W.write_str_gives f.old result (quoted self.now) f.new }
    {
        write_quoted(f, self)
    }
}
