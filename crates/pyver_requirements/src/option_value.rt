//! Words and values of options, as a shell splits them.
ghost use Rattle.std.specs.Prelude.{◌≡◌, ◌≤◌, ◌==◌, drop, length, option_map};
ghost use Rattle.pyver_requirements.specs.Options.{closes, first_value, from_long_value, from_value, is_plain, is_quote, long_value, next_state, shell_word, value_column, without_quotes};

use crate::comment::trim_blanks;
use crate::line_parts::split_at_first;
use crate::option_name::count_name_bytes;

// What the bytes so far leave open.
#[derive(Clone, Copy)]
pub(crate) enum ShellState {
    Plain,
    // Behind a backslash.
    Escaped,
    // In single quotes.
    Single,
    // In double quotes.
    Double,
    // Behind a backslash in them.
    EscapedInDouble,
}

pub(crate) fn is_quote(byte: u8) -> bool
    ensures { result ≡ is_quote byte }
{
    byte == b'"' || byte == b'\''
}

fn is_plain(state: ShellState) -> bool
    ensures { result ≡ is_plain state }
{
    matches!(state, ShellState::Plain)
}

fn pass_byte(state: ShellState, byte: u8) -> ShellState
    ensures { result ≡ next_state state byte }
{
    match (state, byte) {
        (ShellState::Plain, b'\\') => ShellState::Escaped,
        (ShellState::Plain, b'\'') => ShellState::Single,
        (ShellState::Plain, b'"') => ShellState::Double,
        (ShellState::Single, b'\'') => ShellState::Plain,
        (ShellState::Single, _) => ShellState::Single,
        (ShellState::Double, b'\\') => ShellState::EscapedInDouble,
        (ShellState::Double, b'"') => ShellState::Plain,
        (ShellState::Double, _) => ShellState::Double,
        (ShellState::EscapedInDouble, _) => ShellState::Double,
        (_, _) => ShellState::Plain,
    }
}

// Up to the first blank that stands in no quotes and after no backslash.
pub(crate) fn take_word(text: &[u8]) -> &[u8]
    ensures value { result.now ≡ shell_word ShellState.Plain text.now }
    ensures inside { length result.now ≤ length text.now }
{
    let mut state = ShellState::Plain;
    for (at, byte) in text.iter().enumerate() {
        if is_plain(state) && byte.is_ascii_whitespace() {
            return &text[..at];
        }
        state = pass_byte(state, *byte);
    }
    text
}

// No quote is open at the end, and no backslash stands there.
pub(crate) fn closes(text: &[u8]) -> bool
    ensures { result ≡ closes ShellState.Plain text.now }
{
    let mut state = ShellState::Plain;
    let mut rest = text;
    while let [byte, later @ ..] = rest {
        state = pass_byte(state, *byte);
        rest = later;
    }
    is_plain(state)
}

// Quotes elsewhere than around the whole word stay, since a part of the text has no gaps.
pub(crate) fn strip_quotes(word: &[u8]) -> &[u8]
    ensures { result.now ≡ without_quotes word.now }
{
    let [first, rest @ ..] = word else {
        return word;
    };
    if !is_quote(*first) {
        return word;
    }
    match split_at_first(rest, *first) {
        (inside, Some([])) => inside,
        _ => word,
    }
}

// The value that the text begins with.
pub(crate) fn first_value(text: &[u8]) -> &[u8]
    ensures { result.now ≡ first_value text.now }
{
    strip_quotes(take_word(text))
}

// The value of a long option, of which the text follows the name.
pub(crate) fn long_value(text: &[u8]) -> &[u8]
    ensures { result.now ≡ long_value text.now }
{
    match text {
        [] => text,
        [b'=', value @ ..] => first_value(value),
        [_, value @ ..] => first_value(trim_blanks(value)),
    }
}

// Where the name of a long option ends.
fn skip_long_name(text: &[u8]) -> &[u8]
    ensures { result.now ≡ from_long_value text.now }
{
    match text {
        [] => text,
        [b'=', value @ ..] => value,
        [_, value @ ..] => value.trim_ascii_start(),
    }
}

pub(crate) fn skip_short_name(text: &[u8]) -> &[u8]
    ensures { result.now ≡ drop 2 text.now }
{
    match text {
        [_, _, rest @ ..] => rest,
        _ => &[],
    }
}

fn skip_name(text: &[u8]) -> &[u8]
    ensures { result.now ≡ from_value text.now }
{
    if text.starts_with("--".as_bytes()) {
        skip_long_name(&text[count_name_bytes(text)..])
    } else {
        skip_short_name(text).trim_ascii_start()
    }
}

/// The column, in bytes from 0, at which the value begins of the option that the line begins with, its quote included.
///
/// Allocates nothing.
pub fn value_column(text: &[u8]) -> usize
    ensures { result ≡ value_column text.now }
{
    text.len().saturating_sub(skip_name(text).len())
}
