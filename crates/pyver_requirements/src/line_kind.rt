//! What a logical line is.
ghost use Rattle.std.specs.Prelude.{◌≡◌, ◌≤◌, ◌==◌, ◌||◌, IsTrue, length, not, option_map};
ghost use Rattle.std.specs.Char.{eq_ignore_ascii_case, is_ascii_whitespace};
ghost use Rattle.std.specs.List.{ends_with, list_any, prefix_len};
ghost use Rattle.pep440_rs.specs.Blanks.{opens, trim_blanks};
ghost use Rattle.pyver_requirements.specs.LineKinds.{closes_variable, ends_as, first_word, has_variable, is_archive, is_location, is_variable_byte, line_kind, long_option_value, opens_variable, option_kind, option_value, right_kind, short_endings, tar_endings, unless_fault, line_kind_of, fault_position_of};
ghost use Rattle.pyver_requirements.specs.Options.{options_fault, options_in};

use crate::comment::trim_blanks;
use crate::line_fault::{LineFault, is_conflict_mark};
use crate::option_fault::{FaultPosition, line_fault};
use crate::option_name::{count_name_bytes, names_option};
use crate::option_value::{first_value, long_value};
use crate::physical_line::opens_with_mark;

/// What a logical line is.
#[derive(Clone, Copy)]
pub enum LineKind<'a> {
    /// `-r FILE` or `--requirement FILE`: another file of requirements, and its path.
    RequirementsFile(&'a [u8]),
    /// `-c FILE` or `--constraint FILE`: a file of constraints, and its path.
    ConstraintsFile(&'a [u8]),
    /// Neither a requirement nor an option of pip, from this column on, in bytes from 0.
    Invalid(LineFault, usize),
    /// `-e` or `--editable`.
    Editable,
    /// Another option of pip.
    PipOption,
    /// A line with `${NAME}`.
    Variable,
    /// A URL, a path or an archive.
    Location,
    /// Any other line: a requirement, or an invalid one.
    Requirement,
}

pub(crate) fn opens_with(text: &[u8], byte: u8) -> bool
    ensures { result ≡ opens byte text.now }
{
    match text {
        [] => false,
        [first, ..] => *first == byte,
    }
}

// The value of the long option, if the text begins with it.
fn long_option_value<'a>(text: &'a [u8], long: &str) -> Option<&'a [u8]>
    ensures { option_map (λ x. x.now) result ≡ long_option_value long.now text.now }
{
    let count = count_name_bytes(text);
    if names_option(long.as_bytes(), &text[..count]) {
        Some(long_value(&text[count..]))
    } else {
        None
    }
}

// The value of the option, if the text begins with one of its names.
fn option_value<'a>(text: &'a [u8], long: &str, short: &str) -> Option<&'a [u8]>
    ensures { option_map (λ x. x.now) result ≡ option_value long.now short.now text.now }
{
    if text.starts_with("--".as_bytes()) {
        long_option_value(text, long)
    } else if text.starts_with(short.as_bytes()) {
        Some(first_value(trim_blanks(&text[short.len()..])))
    } else {
        None
    }
}

// What a line is that begins with `-`.
fn option_kind(text: &[u8]) -> LineKind<'_>
    ensures { line_kind_of result ≡ option_kind text.now }
{
    if let Some(path) = option_value(text, "--requirement", "-r") {
        return LineKind::RequirementsFile(path);
    }
    if let Some(path) = option_value(text, "--constraint", "-c") {
        return LineKind::ConstraintsFile(path);
    }
    match option_value(text, "--editable", "-e") {
        Some(_) => LineKind::Editable,
        None => LineKind::PipOption,
    }
}

fn is_variable_byte(byte: u8) -> bool
    ensures { result ≡ is_variable_byte byte }
{
    byte.is_ascii_uppercase() || byte.is_ascii_digit() || byte == b'_'
}

fn count_variable_bytes(text: &[u8]) -> usize
    ensures count { result ≡ prefix_len is_variable_byte text.now }
    ensures inside { result ≤ length text.now }
{
    text.iter()
        .take_while(|byte| is_variable_byte(**byte))
        .count()
}

// One or more bytes of a variable's name, and then `}`.
fn closes_variable(text: &[u8]) -> bool
    ensures { result ≡ closes_variable text.now }
{
    let [first, ..] = text else {
        return false;
    };
    is_variable_byte(*first) && opens_with(&text[count_variable_bytes(text)..], b'}')
}

fn opens_variable(text: &[u8]) -> bool
    ensures { result ≡ opens_variable text.now }
{
    match text {
        [first, second, rest @ ..] => { *first == b'$' && *second == b'{' && closes_variable(rest) }
        _ => false,
    }
}

/// Whether a variable, as `${NAME}`, stands somewhere in the text.
///
/// Allocates nothing.
pub fn has_variable(text: &[u8]) -> bool
    ensures { result ≡ has_variable text.now }
{
    let mut rest = text;
    while let [_, later @ ..] = rest {
        if opens_variable(rest) {
            return true;
        }
        rest = later;
    }
    false
}

fn is_word_byte(byte: u8) -> bool
    ensures { result ≡ not (is_ascii_whitespace byte || ((byte == 59) || (byte == 64))) }
{
    !(byte.is_ascii_whitespace() || byte == b';' || byte == b'@')
}

fn count_word_bytes(text: &[u8]) -> usize
    ensures count { result ≡ prefix_len (λ b. not (is_ascii_whitespace b || ((b == 59) || (b == 64)))) text.now }
    ensures inside { result ≤ length text.now }
{
    text.iter().take_while(|byte| is_word_byte(**byte)).count()
}

// The bytes up to the first blank, `;` or `@`.
fn first_word(text: &[u8]) -> &[u8]
    ensures { result.now ≡ first_word text.now }
{
    &text[..count_word_bytes(text)]
}

// The word ends so, in any case.
fn has_ending(word: &[u8], ending: &[u8]) -> bool
    ensures { result ≡ ends_with eq_ignore_ascii_case word.now ending.now }
{
    ending.eq_ignore_ascii_case(&word[word.len().saturating_sub(ending.len())..])
}

fn has_tar_ending(word: &[u8]) -> bool
    ensures { result ≡ ends_as tar_endings word.now }
{
    has_ending(word, ".tar".as_bytes())
        || has_ending(word, ".tar.gz".as_bytes())
        || has_ending(word, ".tar.bz2".as_bytes())
        || has_ending(word, ".tar.xz".as_bytes())
        || has_ending(word, ".tar.lz".as_bytes())
        || has_ending(word, ".tar.lzma".as_bytes())
}

fn has_short_ending(word: &[u8]) -> bool
    ensures { result ≡ ends_as short_endings word.now }
{
    has_ending(word, ".whl".as_bytes())
        || has_ending(word, ".zip".as_bytes())
        || has_ending(word, ".tgz".as_bytes())
        || has_ending(word, ".tbz".as_bytes())
        || has_ending(word, ".txz".as_bytes())
        || has_ending(word, ".tlz".as_bytes())
}

fn is_archive(word: &[u8]) -> bool
    ensures { result ≡ is_archive word.now }
{
    has_short_ending(word) || has_tar_ending(word)
}

fn has_slash(word: &[u8]) -> bool
    ensures { result ≡ list_any (λ b. b == 47) word.now }
{
    word.contains(&b'/')
}

fn is_location(word: &[u8]) -> bool
    ensures { result ≡ is_location word.now }
{
    opens_with(word, b'.') || has_slash(word) || is_archive(word)
}

// What a line without a fault is.
fn right_kind(text: &[u8]) -> LineKind<'_>
    ensures { line_kind_of result ≡ right_kind text.now }
{
    if opens_with(text, b'-') {
        option_kind(text)
    } else if has_variable(text) {
        LineKind::Variable
    } else if is_location(first_word(text)) {
        LineKind::Location
    } else {
        LineKind::Requirement
    }
}

// What the line is, which has this fault or none.
fn kind_unless(text: &[u8], fault: Option<FaultPosition>) -> LineKind<'_>
    ensures { line_kind_of result ≡ unless_fault text.now (option_map fault_position_of fault) (right_kind text.now) }
{
    match fault {
        None => right_kind(text),
        Some(fault) => LineKind::Invalid(fault.fault, text.len().saturating_sub(fault.left)),
    }
}

/// What the logical line is: the first that holds of the mark of a merge conflict, the mark of UTF-16, options that pip 26.2 does not take, an
/// option, a line with a variable, a location and a requirement.
///
/// Options stand after a requirement or without one, and the first decides. A long one may be abbreviated if no other that pip knows begins
/// so. A path ends at a blank that stands in no quotes and after no backslash, and quotes around the whole path are left out. The first word, up
/// to a blank, `;` or `@`, makes a location if it has a `/`, begins with `.` or ends as an archive, in any case: so a later URL makes none. Files
/// are not looked for.
///
/// Allocates nothing.
pub fn classify(text: &[u8]) -> LineKind<'_>
    ensures { line_kind_of result ≡ line_kind text.now }
{
    if is_conflict_mark(text) {
        LineKind::Invalid(LineFault::ConflictMark, 0)
    } else if opens_with_mark(text) {
        LineKind::Invalid(LineFault::Utf16, 0)
    } else {
        kind_unless(text, line_fault(text))
    }
}
