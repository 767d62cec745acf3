//! Versions printed with their sentinels, the same whatever width and fill are asked for.
ghost use Rattle.std.specs.Prelude.{Some};
ghost use Rattle.std.specs.Fmt.{WritesStyledOnOk};
ghost use Rattle.pep440_version.specs.Sentinels.{print_with_sentinels};
ghost use Rattle.pep440_version.specs.Print.{labelled};

use crate::segment::LocalSegment;
use crate::version::Version;
use std::fmt;

/// A version to be printed with its sentinels: the normalized form, then `~min` and min, then `~max` and max, each if it is set.
#[derive(Clone, Copy)]
pub struct WithSentinels<'a>(pub &'a Version);

#[tactic(auto, using(crate::proofs::RoundTrip::Writing::two_writes))]
fn write_sentinel<W: fmt::Write>(
    f: &mut fmt::Formatter<W>,
    label: &str,
    number: Option<u64>,
) -> fmt::Result
    ensures { WritesStyledOnOk W.write_str_gives f.old result (labelled label.now number) f.new }
{
    match number {
        None => Ok(()),
        Some(number) => {
            f.write_str(label)?;
            // A segment prints its number whatever width `f` has.
            fmt::Display::fmt(&LocalSegment::Number(number), f)
        }
    }
}

fn write_with_sentinels<W: fmt::Write>(f: &mut fmt::Formatter<W>, version: &Version) -> fmt::Result
    ensures { WritesStyledOnOk W.write_str_gives f.old result (print_with_sentinels version.now) f.new }
{
    fmt::Display::fmt(version, f)?;
    write_sentinel(f, "~min", version.min())?;
    write_sentinel(f, "~max", version.max())
}

impl fmt::Display for WithSentinels<'_> {
    ghost output = { λ v. Some (print_with_sentinels v.0.now) };

    ghost styled_output = { λ v _. Some (print_with_sentinels v.0.now) };

    fn fmt<W: fmt::Write>(&self, f: &mut fmt::Formatter<W>) -> fmt::Result {
        write_with_sentinels(f, self.0)
    }
}
