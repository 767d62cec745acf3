//! Why pip does not take the options of a line, and whether it has one.
ghost use Rattle.std.specs.Prelude.{◌≡◌, ◌&&◌, ◌||◌, None, bytes_eq, codes, not, option_map};
ghost use Rattle.std.specs.List.{list_any};
ghost use Rattle.pyver_requirements.specs.Options.{end_fault, flag_step, given_step, has_option, has_plain_options, is_shell_byte, is_strong_hash, known_step, named_step, option_name, option_step, option_words, options_fault, options_in, short_value, taken_if, value_step, either_step, word_step, word_value, words_fault, name_fault, names_option};
ghost use Rattle.pyver_requirements.specs.LineKinds.{fault_position_of, word_step_of};

use crate::line_fault::LineFault;
use crate::line_kind::opens_with;
use crate::line_parts::{before_options, split_rest};
use crate::option_name::{
    count_name_bytes, is_flag, name_fault, names_option, takes_names, takes_path,
};
use crate::option_value::{closes, is_quote, skip_short_name, strip_quotes, take_word};

// A fault, and how many bytes of the text there are from it on.
#[derive(Clone, Copy)]
pub(crate) struct FaultPosition {
    pub(crate) fault: LineFault,
    pub(crate) left: usize,
}

// What a word is.
#[derive(Clone, Copy)]
enum WordStep<'a> {
    Wrong(LineFault),
    // An option whose value comes next, by its name.
    Awaits(&'a [u8]),
    Taken,
    Ends,
}

fn is_shell_byte(byte: u8) -> bool
    ensures { result ≡ is_shell_byte byte }
{
    is_quote(byte) || byte == b'\\' || byte == b'$'
}

fn has_shell_byte(text: &[u8]) -> bool
    ensures { result ≡ list_any is_shell_byte text.now }
{
    text.iter().any(|byte| is_shell_byte(*byte))
}

// The name of the option that the word is.
fn option_name(word: &[u8]) -> &[u8]
    ensures { result.now ≡ option_name word.now }
{
    if word.starts_with("--".as_bytes()) {
        return &word[..count_name_bytes(word)];
    }
    if word.len() > 2 { &word[..2] } else { word }
}

fn short_value(rest: &[u8]) -> Option<&[u8]>
    ensures { option_map (λ x. x.now) result ≡ short_value rest.now }
{
    match rest {
        [] => None,
        [_, ..] => Some(rest),
    }
}

// The value in the same word.
fn word_value(word: &[u8]) -> Option<&[u8]>
    ensures { option_map (λ x. x.now) result ≡ word_value word.now }
{
    if word.starts_with("--".as_bytes()) {
        split_rest(&word[count_name_bytes(word)..])
    } else {
        short_value(skip_short_name(word))
    }
}

fn is_strong_hash(value: &[u8]) -> bool
    ensures { result ≡ is_strong_hash value.now }
{
    value.starts_with("sha256:".as_bytes())
        || value.starts_with("sha384:".as_bytes())
        || value.starts_with("sha512:".as_bytes())
}

fn taken_if<'a>(holds: bool, fault: LineFault) -> WordStep<'a>
    ensures { word_step_of result ≡ taken_if holds fault }
{
    if holds {
        WordStep::Taken
    } else {
        WordStep::Wrong(fault)
    }
}

fn is_setting_option(name: &[u8]) -> bool
    ensures { result ≡ (names_option (codes "--config-settings") name.now || bytes_eq name.now (codes "-C")) }
{
    names_option("--config-settings".as_bytes(), name) || name == "-C".as_bytes()
}

// The value of the option.
fn check_value<'a>(name: &[u8], value: &[u8]) -> WordStep<'a>
    ensures { word_step_of result ≡ value_step name.now value.now }
{
    if takes_path(name) {
        taken_if(!strip_quotes(value).is_empty(), LineFault::MissingValue)
    } else if has_shell_byte(value) {
        WordStep::Taken
    } else if names_option("--hash".as_bytes(), name) {
        taken_if(is_strong_hash(value), LineFault::WrongHash)
    } else if is_setting_option(name) {
        taken_if(value.contains(&b'='), LineFault::WrongSetting)
    } else if takes_names(name) {
        taken_if(!opens_with(value, b'-'), LineFault::MissingValue)
    } else {
        WordStep::Taken
    }
}

fn check_flag<'a>(value: Option<&[u8]>) -> WordStep<'a>
    ensures { word_step_of result ≡ flag_step (option_map (λ x. x.now) value.entry) }
{
    match value {
        None => WordStep::Taken,
        Some(_) => WordStep::Wrong(LineFault::UnwantedValue),
    }
}

// An option that is known, with this value in the same word.
fn check_known<'a>(name: &'a [u8], value: Option<&'a [u8]>) -> WordStep<'a>
    ensures { word_step_of result ≡ known_step name.now (option_map (λ x. x.now) value.entry) }
{
    if is_flag(name) {
        return check_flag(value);
    }
    match value {
        None => WordStep::Awaits(name),
        Some(value) => check_value(name, value),
    }
}

fn check_name<'a>(name: &'a [u8], value: Option<&'a [u8]>) -> WordStep<'a>
    ensures { word_step_of result ≡ named_step name.now (option_map (λ x. x.now) value.entry) (name_fault name.now) }
{
    match name_fault(name) {
        None => check_known(name, value),
        Some(fault) => WordStep::Wrong(fault),
    }
}

// A word that is no value.
fn check_option(word: &[u8]) -> WordStep<'_>
    ensures { word_step_of result ≡ option_step word.now }
{
    if word == "--".as_bytes() {
        WordStep::Ends
    } else if !(opens_with(word, b'-') && word.len() > 1) {
        WordStep::Taken
    } else if has_shell_byte(option_name(word)) {
        WordStep::Ends
    } else {
        check_name(option_name(word), word_value(word))
    }
}

// A word, which is the value of the option that awaits one.
fn check_word<'a>(awaited: Option<&'a [u8]>, word: &'a [u8]) -> WordStep<'a>
    ensures { word_step_of result ≡ word_step (option_map (λ x. x.now) awaited.entry) word.now }
{
    match awaited {
        None => check_option(word),
        Some(name) => check_value(name, word),
    }
}

fn end_fault(awaited: Option<&[u8]>) -> Option<FaultPosition>
    ensures { option_map fault_position_of result ≡ end_fault (option_map (λ x. x.now) awaited.entry) }
{
    match awaited {
        None => None,
        Some(_) => Some(FaultPosition {
            fault: LineFault::MissingValue,
            left: 0,
        }),
    }
}

// The first fault of the words.
fn words_fault(text: &[u8]) -> Option<FaultPosition>
    ensures { option_map fault_position_of result ≡ words_fault None (option_words 0 text.now) }
{
    let mut awaited: Option<&[u8]> = None;
    let mut rest = text.trim_ascii_start();
    while !rest.is_empty() {
        let word = take_word(rest);
        match check_word(awaited, word) {
            WordStep::Wrong(fault) => {
                return Some(FaultPosition {
                    fault,
                    left: rest.len(),
                });
            }
            WordStep::Awaits(name) => awaited = Some(name),
            WordStep::Taken => awaited = None,
            WordStep::Ends => return None,
        }
        rest = rest[word.len()..].trim_ascii_start();
    }
    end_fault(awaited)
}

fn options_fault(text: &[u8]) -> Option<FaultPosition>
    ensures { option_map fault_position_of result ≡ options_fault text.now }
{
    if closes(text) {
        return words_fault(text);
    }
    Some(FaultPosition {
        fault: LineFault::UnclosedQuote,
        left: text.len(),
    })
}

fn options_in(text: &[u8]) -> &[u8]
    ensures { result.now ≡ options_in text.now }
{
    if opens_with(text, b'-') {
        text
    } else {
        &text[before_options(text).len()..]
    }
}

// Why pip does not take the options of the line.
pub(crate) fn line_fault(text: &[u8]) -> Option<FaultPosition>
    ensures { option_map fault_position_of result ≡ options_fault (options_in text.now) }
{
    options_fault(options_in(text))
}

// A word, which is the value of an option if one awaits its value.
fn check_either(is_value: bool, word: &[u8]) -> WordStep<'_>
    ensures { word_step_of result ≡ either_step is_value word.now }
{
    if is_value {
        return WordStep::Taken;
    }
    check_option(word)
}

// The word is this option, and no value.
fn is_option(option: &[u8], is_value: bool, word: &[u8]) -> bool
    ensures { result ≡ (not is_value && names_option option.now (option_name word.now)) }
{
    !is_value && names_option(option, option_name(word))
}

/// Whether the options of the line, which stand after a requirement or without one, have the one with this long name, which may be abbreviated.
///
/// Allocates nothing.
pub fn has_option(text: &[u8], option: &str) -> bool
    ensures { result ≡ has_option option.now text.now }
{
    let mut is_value = false;
    let mut rest = options_in(text).trim_ascii_start();
    while !rest.is_empty() {
        let word = take_word(rest);
        if is_option(option.as_bytes(), is_value, word) {
            return true;
        }
        match check_either(is_value, word) {
            WordStep::Awaits(_) => is_value = true,
            WordStep::Taken => is_value = false,
            WordStep::Wrong(_) | WordStep::Ends => return false,
        }
        rest = rest[word.len()..].trim_ascii_start();
    }
    false
}

/// Whether the options of the line have neither quotes nor backslashes nor `$`, so that `has_option` finds each that pip reads.
///
/// Allocates nothing.
pub fn has_plain_options(text: &[u8]) -> bool
    ensures { result ≡ has_plain_options text.now }
{
    !has_shell_byte(options_in(text))
}
