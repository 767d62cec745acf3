//! Names of options; `optparse` lets long ones be abbreviated.
ghost use Rattle.std.specs.Prelude.{◌≡◌, ◌≤◌, ◌==◌, bytes_eq, length, nat_eq};
ghost use Rattle.std.specs.List.{count_by, list_any, prefix_len, starts_with};
ghost use Rattle.pyver_requirements.specs.Options.{takes_path, count_options, flags, is_long_option, is_option_byte, is_short_option, long_fault, name_fault, name_options, names_one_of, names_option, path_options, short_fault};

use crate::line_fault::LineFault;

const LONG_OPTIONS: [&str; 20] = [
    "--index-url",
    "--pypi-url",
    "--extra-index-url",
    "--no-index",
    "--constraint",
    "--requirement",
    "--editable",
    "--find-links",
    "--no-binary",
    "--only-binary",
    "--prefer-binary",
    "--require-hashes",
    "--no-require-hashes",
    "--pre",
    "--all-releases",
    "--only-final",
    "--trusted-host",
    "--use-feature",
    "--hash",
    "--config-settings",
];

const FLAGS: [&str; 5] = [
    "--no-index",
    "--prefer-binary",
    "--require-hashes",
    "--no-require-hashes",
    "--pre",
];

const PATH_OPTIONS: [&str; 2] = ["--requirement", "--constraint"];

const NAME_OPTIONS: [&str; 4] = [
    "--no-binary",
    "--only-binary",
    "--all-releases",
    "--only-final",
];

fn count_beginning(options: &[&str], name: &[u8]) -> usize
    ensures { result ≡ count_by (λ option. starts_with nat_eq option.now name.now) options.now }
{
    options
        .iter()
        .filter(|option| option.as_bytes().starts_with(name))
        .count()
}

// How many long options begin so.
fn count_options(name: &[u8]) -> usize
    ensures { result ≡ count_options name.now }
{
    count_beginning(&LONG_OPTIONS, name)
}

// The option has this name, or begins so while no other does.
#[tactic(auto, unfolding(crate::specs::Options::names_option))]
pub(crate) fn names_option(option: &[u8], name: &[u8]) -> bool
    ensures { result ≡ names_option option.now name.now }
{
    option == name || (option.starts_with(name) && count_options(name) == 1)
}

fn names_one_of(options: &[&str], name: &[u8]) -> bool
    ensures { result ≡ list_any (λ option. names_option option.now name.now) options.now }
{
    options
        .iter()
        .any(|option| names_option(option.as_bytes(), name))
}

// The option takes no value.
pub(crate) fn is_flag(name: &[u8]) -> bool
    ensures { result ≡ names_one_of flags name.now }
{
    names_one_of(&FLAGS, name)
}

// Its value is a list of names.
pub(crate) fn takes_names(name: &[u8]) -> bool
    ensures { result ≡ names_one_of name_options name.now }
{
    names_one_of(&NAME_OPTIONS, name)
}

// Its value is the path of a file.
pub(crate) fn takes_path(name: &[u8]) -> bool
    ensures { result ≡ takes_path name.now }
{
    names_one_of(&PATH_OPTIONS, name) || name == "-r".as_bytes() || name == "-c".as_bytes()
}

fn is_option_byte(byte: u8) -> bool
    ensures { result ≡ is_option_byte byte }
{
    !(byte.is_ascii_whitespace() || byte == b'=')
}

pub(crate) fn count_name_bytes(text: &[u8]) -> usize
    ensures count { result ≡ prefix_len is_option_byte text.now }
    ensures inside { result ≤ length text.now }
{
    text.iter()
        .take_while(|byte| is_option_byte(**byte))
        .count()
}

fn is_one_of(options: &[&str], name: &[u8]) -> bool
    ensures { result ≡ list_any (λ option. bytes_eq option.now name.now) options.now }
{
    options.iter().any(|option| option.as_bytes() == name)
}

// A long option has this name.
fn is_long_option(name: &[u8]) -> bool
    ensures { result ≡ is_long_option name.now }
{
    is_one_of(&LONG_OPTIONS, name)
}

fn long_fault(name: &[u8]) -> Option<LineFault>
    ensures { result ≡ long_fault name.now }
{
    if is_long_option(name) {
        return None;
    }
    match count_options(name) {
        0 => Some(LineFault::UnknownOption),
        1 => None,
        _ => Some(LineFault::AmbiguousOption),
    }
}

fn is_short_option(letter: u8) -> bool
    ensures { result ≡ is_short_option letter }
{
    matches!(letter, b'i' | b'e' | b'r' | b'c' | b'f' | b'C')
}

fn short_fault(name: &[u8]) -> Option<LineFault>
    ensures { result ≡ short_fault name.now }
{
    match name {
        [_, letter, ..] if is_short_option(*letter) => None,
        _ => Some(LineFault::UnknownOption),
    }
}

// Why this is not the name of an option.
#[tactic(auto, unfolding(crate::specs::Options::name_fault))]
pub(crate) fn name_fault(name: &[u8]) -> Option<LineFault>
    ensures { result ≡ name_fault name.now }
{
    if name.starts_with("--".as_bytes()) {
        long_fault(name)
    } else {
        short_fault(name)
    }
}
