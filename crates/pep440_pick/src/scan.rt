//! Where the string of a requirement is split.
ghost use Rattle.std.specs.Prelude.{◌≡◌, ◌<◌, ◌≤◌, Some, None, length, option_map, drop, if◌then◌else◌};
ghost use Rattle.std.specs.Char.{is_ascii_whitespace};
ghost use Rattle.std.specs.List.{list_all, prefix_len};
ghost use Rattle.pep440_version.specs.Reading.{lead, past};
ghost use Rattle.pep440_pick.specs.Names.{is_name_byte};
ghost use Rattle.pep440_rs.specs.Blanks.{opens, trim_blanks};
ghost use Rattle.pep440_pick.specs.RequirementGrammar.{has_byte};
ghost use Rattle.pep440_pick.specs.RequirementReading.{split_at_byte, without_end};

use crate::name::is_name_byte;

// The string has the byte.
pub(crate) fn has_byte(text: &str, byte: u8) -> bool
    ensures { result ≡ has_byte byte text.now }
{
    text.as_bytes().contains(&byte)
}

// The string without the blanks at its ends.
pub(crate) fn trim_blanks(text: &str) -> &str
    ensures { result.now ≡ trim_blanks text.now }
{
    text.trim_ascii()
}

fn count_name_bytes(text: &[u8]) -> usize
    ensures count { result ≡ prefix_len is_name_byte text.now }
    ensures inside { result ≤ length text.now }
{
    text.iter().take_while(|byte| is_name_byte(**byte)).count()
}

/// The longest run of bytes of names at the start, and what follows it.
///
/// Allocates nothing.
pub fn split_name(text: &str) -> (&str, &str)
    ensures name { result.0.now ≡ lead is_name_byte text.now }
    ensures rest { result.1.now ≡ past is_name_byte text.now }
{
    text.split_at(count_name_bytes(text.as_bytes()))
}

// Only blanks, or nothing.
pub(crate) fn are_blanks(text: &str) -> bool
    ensures { result ≡ list_all is_ascii_whitespace text.now }
{
    text.as_bytes()
        .iter()
        .all(|byte| byte.is_ascii_whitespace())
}

/// What stands before the first such character, which is to be ASCII, and what after it; none without one.
///
/// Allocates nothing.
pub fn split_at_byte(text: &str, character: char) -> Option<(&str, &str)>
    requires { character < 128 }
    ensures { option_map (λ x. (x.0.now, x.1.now)) result ≡ split_at_byte character text.now }
{
    text.split_once(character)
}

// The string without this character at its start, if it begins with it.
pub(crate) fn strip_start(text: &str, character: char) -> Option<&str>
    requires { character < 128 }
    ensures { option_map (λ x. x.now) result ≡ (if opens character text.now then Some (drop 1 text.now) else None) }
{
    text.strip_prefix(character)
}

// The string without this character at its end, if it ends with it.
pub(crate) fn strip_end(text: &str, character: char) -> Option<&str>
    requires { character < 128 }
    ensures { option_map (λ x. x.now) result ≡ without_end character text.now }
{
    text.strip_suffix(character)
}
