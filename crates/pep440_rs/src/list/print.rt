//! How a list is printed, the same whatever width and fill are asked for.
ghost use Rattle.std.specs.Prelude.{◌++◌, codes};
ghost use Rattle.std.specs.Fmt.{WritesStyledOnOk};
ghost use Rattle.std.specs.List.{flat_map};
ghost use Rattle.pep440_rs.specs.Lists.{print_list};
ghost use Rattle.pep440_rs.specs.Specifiers.{print_spec};

use crate::specifier::{VersionSpecifier, write_specifier};
use std::fmt;

fn write_rest<W: fmt::Write>(f: &mut fmt::Formatter<W>, specifier: &VersionSpecifier) -> fmt::Result
    ensures { WritesStyledOnOk W.write_str_gives f.old result (codes ", " ++ print_spec specifier.now) f.new }
{
    f.write_str(", ")?;
    write_specifier(f, specifier)
}

// Writes each member after a comma and a space.
fn write_members<W: fmt::Write>(
    f: &mut fmt::Formatter<W>,
    members: &[VersionSpecifier],
) -> fmt::Result
    ensures { WritesStyledOnOk W.write_str_gives f.old result (flat_map (λ s. codes ", " ++ print_spec s) members.now) f.new }
{
    for member in members {
        write_rest(f, member)?;
    }
    Ok(())
}

// Writes the members with a comma and a space between them.
pub(crate) fn write_list<W: fmt::Write>(
    f: &mut fmt::Formatter<W>,
    members: &[VersionSpecifier],
) -> fmt::Result
    ensures { WritesStyledOnOk W.write_str_gives f.old result (print_list members.now) f.new }
{
    match members {
        [] => Ok(()),
        [first, rest @ ..] => {
            write_specifier(f, first)?;
            write_members(f, rest)
        }
    }
}
