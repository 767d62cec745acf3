//! The words of a call, split by the options of their command.
ghost use Rattle.std.specs.Prelude.{◌≡◌, IfOk, map, string_bytes, ◌++◌, None};
ghost use Rattle.pyver_tool.specs.TaskViews.{words_task, end_of, option_with_value, split_of};
ghost use Rattle.pyver_tool.specs.Tasks.{help_task, is_program_word, named_task, task_of, topic_of};
ghost use Rattle.std.specs.Option.{option_copied, option_map};
ghost use Rattle.pyver_tool.specs.SplitWords.{row_of, rows_of, first_letter, is_option, letter_options, named, named_options, split_words, value_behind, value_in, word_options};

use crate::help::Topic;
use crate::options::{OptionRow, options};
use std::alloc::{AllocError, Global};

// What the words of a call are.
#[derive(Drop)]
pub(crate) enum Words {
    Help(Topic),
    Version,
    Command(Topic, Split),
    // There is no such command.
    Unknown(String),
    // There are none.
    Nothing,
    // They are too many.
    Miscounted,
}

// The command of this name.
fn parse_topic(word: &str) -> Option<Topic>
    ensures { result ≡ topic_of word.now }
{
    match word {
        "compare" => Some(Topic::Compare),
        "match" => Some(Topic::Match),
        "filter" => Some(Topic::Filter),
        "sort" => Some(Topic::Sort),
        "newest" => Some(Topic::Newest),
        "show" => Some(Topic::Show),
        "bump" => Some(Topic::Bump),
        "range" => Some(Topic::Range),
        "marker" => Some(Topic::Marker),
        "check" => Some(Topic::Check),
        _ => None,
    }
}

// Whether it is one of the program's own words, which name no command.
fn is_program_word(word: &str) -> bool
    ensures { result ≡ is_program_word word.now }
{
    matches!(word, "help" | "-h" | "--help" | "-V" | "--version")
}

// The words after `help`.
fn read_help(words: &[String]) -> Result<Words, AllocError>
    ensures { IfOk result (λ w. words_task w ≡ help_task (map string_bytes words.now)) }
{
    match words {
        [] => Ok(Words::Help(Topic::Program)),
        [word] if is_program_word(word.as_str()) => Ok(Words::Help(Topic::Program)),
        [word] => match parse_topic(word.as_str()) {
            Some(topic) => Ok(Words::Help(topic)),
            None => Ok(Words::Unknown(word.clone()?)),
        },
        _ => Ok(Words::Miscounted),
    }
}

// The words after this one, which names a command.
fn read_command(alloc: Global, name: &str, words: &[String]) -> Result<Words, AllocError>
    ensures { IfOk result (λ w. words_task w ≡ named_task name.now (map string_bytes words.now)) }
{
    match parse_topic(name) {
        Some(topic) => Ok(Words::Command(topic, split_words(alloc, options(topic), words)?)),
        None => Ok(Words::Unknown(name.to_string(alloc)?)),
    }
}

impl Words {
    // What these words are.
    pub(crate) fn read(alloc: Global, words: &[String]) -> Result<Words, AllocError>
        ensures { IfOk result (λ w. words_task w ≡ task_of (map string_bytes words.now)) }
    {
        let [word, rest @ ..] = words else {
            return Ok(Words::Nothing);
        };
        match word.as_str() {
            "-h" => Ok(Words::Help(Topic::Program)),
            "--help" => Ok(Words::Help(Topic::Program)),
            "-V" => Ok(Words::Version),
            "--version" => Ok(Words::Version),
            "help" => read_help(rest),
            name => read_command(alloc, name, rest),
        }
    }
}

// An option, and whether it is named by its letter.
pub(crate) type NamedOption = (OptionRow, bool);

// An option and its value, which is empty where it takes none.
pub(crate) type GivenOption = (NamedOption, String);

// What words are.
#[derive(Drop)]
pub(crate) enum Split {
    // The options and the operands, each in their order.
    Given(Vec<GivenOption>, Vec<String>),
    // The word names no option, or gives a value to one that takes none.
    Unknown(String),
    // The last word names this option, whose value is missing.
    Missing(NamedOption),
}

// How a word of options ends.
#[derive(Clone, Copy)]
enum WordEnd {
    Whole,
    // With an option whose value is the next word.
    Awaits(NamedOption),
    Unknown,
}

fn is_option(word: &str) -> bool
    ensures { result ≡ is_option word.now }
{
    match word.as_bytes() {
        [] => false,
        [first, rest @ ..] => *first == b'-' && !rest.is_empty(),
    }
}

// What stands behind this start of the word.
#[tactic(auto, using(crate::proofs::RunEnds::behind_is))]
fn value_behind<'a>(start: &str, word: &'a str) -> Option<&'a str>
    ensures { option_copied result ≡ value_behind start.now word.now }
{
    word.strip_prefix(start)
}

// The option with the first letter, and the other letters.
fn first_letter<'a>(rows: &[OptionRow], letters: &'a str) -> Option<(OptionRow, &'a str)>
    ensures { option_map (λ x. (row_of (λ s. s.now) (λ t. t.now) x.0, x.1.now)) result ≡ first_letter (rows_of (λ s. s.now) (λ t. t.now) rows.now) letters.now }
{
    for row in rows {
        if row.0.len() == 1 {
            if let Some(after) = value_behind(row.0, letters) {
                return Some((*row, after));
            }
        }
    }
    None
}

// The value in the word that begins with the name of the option, if it has one.
fn value_in<'a>(row: OptionRow, word: &'a str) -> Option<Option<&'a str>>
    ensures { option_map option_copied result ≡ value_in (row_of (λ s. s.now) (λ t. t.now) row.entry) word.now }
{
    let rest = value_behind(row.1, word)?;
    if rest.is_empty() {
        return Some(None);
    }
    match value_behind("=", rest) {
        Some(value) => Some(Some(value)),
        None => None,
    }
}

// The option that the word names, and the value in it, if it has one.
fn find_long_option<'a>(rows: &[OptionRow], word: &'a str) -> Option<(OptionRow, Option<&'a str>)>
    ensures { option_map (λ x. (row_of (λ s. s.now) (λ t. t.now) x.0, option_copied x.1)) result ≡ named (rows_of (λ s. s.now) (λ t. t.now) rows.now) word.now }
{
    for row in rows {
        if let Some(value) = value_in(*row, word) {
            return Some((*row, value));
        }
    }
    None
}

// Pushes the options that the letters name.
fn push_letters(
    alloc: Global,
    options: &mut Vec<GivenOption>,
    rows: &[OptionRow],
    letters: &str,
) -> Result<WordEnd, AllocError>
    ensures options { IfOk result (λ _. map (option_with_value (λ s. s.now) (λ t. t.now) string_bytes) options.new.items ≡ map (option_with_value (λ s. s.now) (λ t. t.now) string_bytes) options.old.items ++ (letter_options (rows_of (λ s. s.now) (λ t. t.now) rows.now) letters.now).0) }
    ensures end { IfOk result (λ end. end_of end ≡ (letter_options (rows_of (λ s. s.now) (λ t. t.now) rows.now) letters.now).1) }
{
    let mut left = letters;
    while let Some((row, after)) = first_letter(rows, left) {
        if row.2.is_empty() {
            options.push(((row, true), String::new(alloc)))?;
            left = after;
        } else if after.is_empty() {
            return Ok(WordEnd::Awaits((row, true)));
        } else {
            options.push(((row, true), after.to_string(alloc)?))?;
            return Ok(WordEnd::Whole);
        }
    }
    if left.is_empty() {
        Ok(WordEnd::Whole)
    } else {
        Ok(WordEnd::Unknown)
    }
}

// Pushes the option that the word names, if its value is in the word or it takes none.
fn push_long_option(
    alloc: Global,
    options: &mut Vec<GivenOption>,
    rows: &[OptionRow],
    word: &str,
) -> Result<WordEnd, AllocError>
    ensures options { IfOk result (λ _. map (option_with_value (λ s. s.now) (λ t. t.now) string_bytes) options.new.items ≡ map (option_with_value (λ s. s.now) (λ t. t.now) string_bytes) options.old.items ++ (named_options (rows_of (λ s. s.now) (λ t. t.now) rows.now) word.now).0) }
    ensures end { IfOk result (λ end. end_of end ≡ (named_options (rows_of (λ s. s.now) (λ t. t.now) rows.now) word.now).1) }
{
    match find_long_option(rows, word) {
        None => Ok(WordEnd::Unknown),
        Some((row, None)) => {
            if !row.2.is_empty() {
                return Ok(WordEnd::Awaits((row, false)));
            }
            options.push(((row, false), String::new(alloc)))?;
            Ok(WordEnd::Whole)
        }
        Some((row, Some(value))) => {
            if row.2.is_empty() {
                return Ok(WordEnd::Unknown);
            }
            options.push(((row, false), value.to_string(alloc)?))?;
            Ok(WordEnd::Whole)
        }
    }
}

// Pushes the options of the word, which begins with a dash.
fn push_word(
    alloc: Global,
    options: &mut Vec<GivenOption>,
    rows: &[OptionRow],
    word: &str,
) -> Result<WordEnd, AllocError>
    ensures options { IfOk result (λ _. map (option_with_value (λ s. s.now) (λ t. t.now) string_bytes) options.new.items ≡ map (option_with_value (λ s. s.now) (λ t. t.now) string_bytes) options.old.items ++ (word_options (rows_of (λ s. s.now) (λ t. t.now) rows.now) word.now).0) }
    ensures end { IfOk result (λ end. end_of end ≡ (word_options (rows_of (λ s. s.now) (λ t. t.now) rows.now) word.now).1) }
{
    if value_behind("--", word).is_some() {
        return push_long_option(alloc, options, rows, word);
    }
    match value_behind("-", word) {
        Some(letters) => push_letters(alloc, options, rows, letters),
        None => Ok(WordEnd::Unknown),
    }
}

// Pushes the words.
fn push_all(operands: &mut Vec<String>, words: &[String]) -> Result<(), AllocError>
    ensures { IfOk result (λ _. map string_bytes operands.new.items ≡ map string_bytes operands.old.items ++ map string_bytes words.now) }
{
    for word in words {
        operands.push(word.clone()?)?;
    }
    Ok(())
}

// The options and the operands of the words: `--` ends the options, and an option may stand behind an operand.
pub(crate) fn split_words(
    alloc: Global,
    rows: &[OptionRow],
    words: &[String],
) -> Result<Split, AllocError>
    ensures { IfOk result (λ s. split_of s ≡ split_words (rows_of (λ s. s.now) (λ t. t.now) rows.now) None (map string_bytes words.now)) }
{
    let mut options = Vec::new(alloc);
    let mut operands = Vec::new(alloc);
    let mut awaited = None;
    let mut left = words;
    while let [word, rest @ ..] = left {
        left = rest;
        let word = word.as_str();
        if let Some(option) = awaited {
            options.push((option, word.to_string(alloc)?))?;
            awaited = None;
        } else if word == "--" {
            push_all(&mut operands, rest)?;
            return Ok(Split::Given(options, operands));
        } else if !is_option(word) {
            operands.push(word.to_string(alloc)?)?;
        } else {
            match push_word(alloc, &mut options, rows, word)? {
                WordEnd::Whole => {}
                WordEnd::Awaits(option) => awaited = Some(option),
                WordEnd::Unknown => return Ok(Split::Unknown(word.to_string(alloc)?)),
            }
        }
    }
    match awaited {
        None => Ok(Split::Given(options, operands)),
        Some(option) => Ok(Split::Missing(option)),
    }
}
