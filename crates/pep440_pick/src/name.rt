//! Names of packages and of extras.
ghost use Rattle.std.specs.Prelude.{◌≡◌, ◌∷◌, ◌&&◌, ◌<◌, ◌≤◌, [], length, map, string_bytes, IfOk, IfSome};
ghost use Rattle.std.specs.Char.{is_ascii_alphanumeric};
ghost use Rattle.std.specs.List.{list_all, prefix_len};
ghost use Rattle.std.specs.Option.{option_map_or};
ghost use Rattle.pep440_version.specs.Grammar.{is_separator, starts};
ghost use Rattle.pep440_version.specs.Rejections.{ends};
ghost use Rattle.pep440_pick.specs.Names.{is_name, is_name_byte, normal, same_name};

use std::alloc::{AllocError, Global};

// `.`, `-` and `_`.
fn is_separator(byte: u8) -> bool
    ensures { result ≡ is_separator byte }
{
    matches!(byte, b'.' | b'-' | b'_')
}

/// Whether the byte may stand in a name: an ASCII letter or digit, `.`, `-` or `_`.
///
/// Allocates nothing.
pub fn is_name_byte(byte: u8) -> bool
    ensures { result ≡ is_name_byte byte }
{
    byte.is_ascii_alphanumeric() || is_separator(byte)
}

// A letter or a digit stands at the start.
fn starts_well(text: &[u8]) -> bool
    ensures { result ≡ starts is_ascii_alphanumeric text.now }
{
    match text {
        [] => false,
        [first, ..] => first.is_ascii_alphanumeric(),
    }
}

// A letter or a digit stands at the end.
fn ends_well(text: &[u8]) -> bool
    ensures { result ≡ ends is_ascii_alphanumeric text.now }
{
    match text {
        [] => false,
        [.., last] => last.is_ascii_alphanumeric(),
    }
}

fn has_name_bytes(text: &[u8]) -> bool
    ensures { result ≡ list_all is_name_byte text.now }
{
    text.iter().all(|byte| is_name_byte(*byte))
}

// A letter or a digit stands at both ends.
pub(crate) fn has_name_ends(text: &[u8]) -> bool
    ensures { result ≡ (starts is_ascii_alphanumeric text.now && ends is_ascii_alphanumeric text.now) }
{
    starts_well(text) && ends_well(text)
}

/// Whether the string is a name: ASCII letters and digits, `.`, `-` and `_`, one or more, with a letter or a digit at
/// both ends.
///
/// Allocates nothing.
pub fn is_name(text: &str) -> bool
    ensures { result ≡ is_name text.now }
{
    let bytes = text.as_bytes();
    has_name_bytes(bytes) && has_name_ends(bytes)
}

fn count_separators(text: &[u8]) -> usize
    ensures count { result ≡ prefix_len is_separator text.now }
    ensures inside { result ≤ length text.now }
{
    text.iter().take_while(|byte| is_separator(**byte)).count()
}

// The first byte of the name in its normal form, and what follows.
fn next_byte(text: &[u8]) -> Option<(u8, &[u8])>
    ensures value { normal text.now ≡ option_map_or (λ x. x.0 ∷ normal x.1.now) result [] }
    ensures shorter { IfSome result (λ x. length x.1.now < length text.now) }
{
    let (first, rest) = text.split_first()?;
    if is_separator(*first) {
        Some((b'-', &rest[count_separators(rest)..]))
    } else {
        Some((first.to_ascii_lowercase(), rest))
    }
}

/// Whether the two names are the same: equal but for the case of ASCII letters, and with each run of `.`, `-` and `_`
/// as one `-`.
///
/// Allocates nothing.
pub fn same_name(one: &str, other: &str) -> bool
    ensures { result ≡ same_name one.now other.now }
{
    let mut left = one.as_bytes();
    let mut right = other.as_bytes();
    while let Some((byte, left_rest)) = next_byte(left) {
        let Some((other_byte, right_rest)) = next_byte(right) else {
            return false;
        };
        if byte != other_byte {
            return false;
        }
        left = left_rest;
        right = right_rest;
    }
    next_byte(right).is_none()
}

/// The normal form of the name in these bytes, as `normalize_name`.
///
/// Allocates.
pub fn normalize_bytes(alloc: Global, name: &[u8]) -> Result<Vec<u8>, AllocError>
    ensures { IfOk result (λ text. text.items ≡ normal name.now) }
{
    let mut text = Vec::with_capacity(alloc, name.len())?;
    let mut rest = name;
    while let Some((byte, later)) = next_byte(rest) {
        text.push(byte)?;
        rest = later;
    }
    Ok(text)
}

/// The normal form of the name: it in lower case, with each run of `.`, `-` and `_` as one `-`.
///
/// Allocates.
pub fn normalize_name(alloc: Global, name: &str) -> Result<Vec<u8>, AllocError>
    ensures { IfOk result (λ text. text.items ≡ normal name.now) }
{
    normalize_bytes(alloc, name.as_bytes())
}

/// The normal form of each of the names, in order.
///
/// Allocates.
pub fn normalize_names(alloc: Global, names: &[String]) -> Result<Vec<Vec<u8>>, AllocError>
    ensures { IfOk result (λ found. map (λ n. n.items) found.items ≡ map normal (map string_bytes names.now)) }
{
    let mut found = Vec::new(alloc);
    for name in names {
        found.push(normalize_name(alloc, name.as_str())?)?;
    }
    Ok(found)
}
