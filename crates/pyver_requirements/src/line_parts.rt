//! The parts of a string, or of a line, that is a requirement.
ghost use Rattle.std.specs.Prelude.{◌≡◌, ◌≤◌, ◌==◌, length, not, option_map};
ghost use Rattle.std.specs.List.{prefix_len};
ghost use Rattle.pyver_requirements.specs.LineParts.{before_byte, before_options, behind_byte, is_blank_byte, is_list_byte, is_url_byte, line_parts, parts_before, parts_behind, pip_parts, rest_of, semicolon_parts, skip_blanks, url_parts};
ghost use Rattle.pyver_requirements.specs.LineKinds.{line_parts_of};

use crate::line_kind::opens_with;

/// The parts of a string that is a requirement.
#[derive(Clone, Copy)]
pub struct LineParts<'a> {
    /// The string: of a line of a requirements file without its options.
    pub text: &'a [u8],
    /// The name with the extras and the list of specifiers.
    pub requirement: &'a [u8],
    /// What stands after `@` and blanks, up to the marker; it has a blank only where none of these ends it.
    pub url: Option<&'a [u8]>,
    /// What stands after the `;` of the marker.
    pub marker: Option<&'a [u8]>,
}

pub(crate) fn is_blank_byte(byte: u8) -> bool
    ensures { result ≡ is_blank_byte byte }
{
    byte == b' ' || byte == b'\t'
}

fn count_blanks(text: &[u8]) -> usize
    ensures count { result ≡ prefix_len is_blank_byte text.now }
    ensures inside { result ≤ length text.now }
{
    text.iter().take_while(|byte| is_blank_byte(**byte)).count()
}

pub(crate) fn skip_blanks(text: &[u8]) -> &[u8]
    ensures { result.now ≡ skip_blanks text.now }
{
    &text[count_blanks(text)..]
}

fn count_before(text: &[u8], byte: u8) -> usize
    ensures count { result ≡ prefix_len (λ x. not (x == byte)) text.now }
    ensures inside { result ≤ length text.now }
{
    text.iter().take_while(|other| **other != byte).count()
}

pub(crate) fn split_rest(text: &[u8]) -> Option<&[u8]>
    ensures { option_map (λ x. x.now) result ≡ rest_of text.now }
{
    match text {
        [] => None,
        [_, rest @ ..] => Some(rest),
    }
}

// What stands before the first such byte, and what after it if there is one.
pub(crate) fn split_at_first(text: &[u8], byte: u8) -> (&[u8], Option<&[u8]>)
    ensures before { result.0.now ≡ before_byte byte text.now }
    ensures behind { option_map (λ x. x.now) result.1 ≡ behind_byte byte text.now }
{
    let count = count_before(text, byte);
    (&text[..count], split_rest(&text[count..]))
}

fn is_list_byte(byte: u8) -> bool
    ensures { result ≡ is_list_byte byte }
{
    !(byte == b'@' || byte == b';')
}

fn count_list_bytes(text: &[u8]) -> usize
    ensures count { result ≡ prefix_len is_list_byte text.now }
    ensures inside { result ≤ length text.now }
{
    text.iter().take_while(|byte| is_list_byte(**byte)).count()
}

fn count_url_bytes(text: &[u8]) -> usize
    ensures count { result ≡ prefix_len is_url_byte text.now }
    ensures inside { result ≤ length text.now }
{
    text.iter()
        .take_while(|byte| !is_blank_byte(**byte))
        .count()
}

// The parts of the string that has this before `@`, and this after it and blanks; of which this follows the URL.
fn split_behind<'a>(
    text: &'a [u8],
    requirement: &'a [u8],
    rest: &'a [u8],
    behind: &'a [u8],
) -> LineParts<'a>
    ensures { line_parts_of result ≡ parts_behind text.now requirement.now rest.now behind.now }
{
    let url = &rest[..count_url_bytes(rest)];
    match behind {
        [] => LineParts {
            text,
            requirement,
            url: Some(url),
            marker: None,
        },
        [b';', marker @ ..] => LineParts {
            text,
            requirement,
            url: Some(url),
            marker: Some(marker),
        },
        _ => LineParts {
            text,
            requirement,
            url: Some(rest),
            marker: None,
        },
    }
}

// The parts of the string that has this before `@`, and this after it and blanks.
fn split_url<'a>(text: &'a [u8], requirement: &'a [u8], rest: &'a [u8]) -> LineParts<'a>
    ensures { line_parts_of result ≡ url_parts text.now requirement.now rest.now }
{
    let behind = skip_blanks(&rest[count_url_bytes(rest)..]);
    split_behind(text, requirement, rest, behind)
}

// The parts of the string whose list ends before this rest.
fn split_list<'a>(text: &'a [u8], requirement: &'a [u8], rest: &'a [u8]) -> LineParts<'a>
    ensures { line_parts_of result ≡ parts_before text.now requirement.now rest.now }
{
    match rest {
        [] => LineParts {
            text,
            requirement,
            url: None,
            marker: None,
        },
        [b'@', rest @ ..] => split_url(text, requirement, skip_blanks(rest)),
        [_, marker @ ..] => LineParts {
            text,
            requirement,
            url: None,
            marker: Some(marker),
        },
    }
}

/// The name with extras and list, the URL and the marker of a string that is a requirement (PEP 508, "Grammar").
///
/// A URL ends at a blank, so that a `;` begins a marker after it only if one stands between.
///
/// Allocates nothing.
pub fn split_requirement(text: &[u8]) -> LineParts<'_>
    ensures { line_parts_of result ≡ line_parts text.now }
{
    let count = count_list_bytes(text);
    split_list(text, &text[..count], &text[count..])
}

// What stands before the first option.
pub(crate) fn before_options(text: &[u8]) -> &[u8]
    ensures value { result.now ≡ before_options text.now }
    ensures inside { length result.now ≤ length text.now }
{
    for (at, byte) in text.iter().enumerate() {
        if *byte == b' ' && opens_with(&text[at + 1..], b'-') {
            return &text[..at];
        }
    }
    text
}

// The parts of the string whose marker stands after its first `;`.
fn split_at_semicolon(text: &[u8]) -> LineParts<'_>
    ensures { line_parts_of result ≡ semicolon_parts text.now }
{
    let (named, marker) = split_at_first(text, b';');
    let parts = split_requirement(named);
    LineParts {
        text,
        requirement: parts.requirement,
        url: parts.url,
        marker,
    }
}

/// The same of a line of a requirements file (pip, "Requirements File Format"): without its options, whose first begins with `-` after
/// a space, and with the marker after its first `;`, also after a URL without a blank.
///
/// Allocates nothing.
pub fn split_pip_line(text: &[u8]) -> LineParts<'_>
    ensures { line_parts_of result ≡ pip_parts text.now }
{
    split_at_semicolon(before_options(text))
}
