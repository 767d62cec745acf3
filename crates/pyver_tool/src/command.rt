//! The command that words ask for, and what it writes.
ghost use Rattle.std.specs.Prelude.{◌≡◌, [], IfOk, Some, map, option_map, string_bytes};
ghost use Rattle.std.specs.List.{find};
ghost use Rattle.pyver_commands.specs.AnswerViews.{outcome_of};
ghost use Rattle.pyver_documents.specs.DocumentKinds.{is_pipenv_path};
ghost use Rattle.pyver_tool.specs.TaskViews.{IsWork, misuse_message, option_with_value, split_of, task, words_task};
ghost use Rattle.pyver_commands.specs.Outcomes.{message_outcome};
ghost use Rattle.pyver_tool.specs.Settings.{effect, no_settings};
ghost use Rattle.pyver_tool.specs.Tasks.{Check, Filter, Newest, asks_help, begins_with_digit, bump_from_words, bump_operands, bump_parts, bump_word, by_effect, by_last, by_split, has_number, is_json, printed, task_with};

use crate::check::CheckOptions;
use crate::help::{Topic, VERSION_LINE, help, usage};
use crate::misuse::{Misuse, push_misuse};
use crate::settings::Settings;
use crate::words::{GivenOption, Split, Words};
use pyver_commands::{
    Answer, BumpRule, Comparison, FilterOptions, FilterRule, LinesQuestion, MatchOptions,
    NewestOptions, NewestRule, Question, Selection, ShowFormat, SortOptions, SpecifiersReading,
    bump_version, compare, find_common, find_extent, match_versions, parse_bump_part,
    parse_comparison, parse_specifiers, report_list_fault, show_versions, takes_prereleases,
};
use pyver_documents::is_pipenv_path;
use std::alloc::{AllocError, Global};

// What words ask for.
#[derive(Clone, Copy)]
pub(crate) enum Command<'a> {
    Help(Topic),
    Version,
    Compare(&'a str, Comparison, &'a str),
    Match(MatchOptions, &'a str, &'a [String]),
    // The specifiers, and the names of the sources.
    Filter(FilterOptions, &'a str, &'a [String]),
    // The names of the sources.
    Sort(SortOptions, &'a [String]),
    // The specifiers, and the names of the sources.
    Newest(NewestOptions, &'a str, &'a [String]),
    Show(ShowFormat, &'a [String]),
    // The number of the last part, the names of the parts, and the version if it is among the words.
    Bump(Option<u64>, &'a [String], Option<&'a str>),
    Range(bool, &'a [String]),
    Marker(bool, &'a str, Option<&'a str>),
    // How, and the names of the files.
    Check(CheckOptions, &'a [String]),
    Misused(Misuse<'a>),
}

// What is to be done for a command.
#[derive(Drop)]
pub(crate) enum Work<'a> {
    // Nothing but to write this.
    Answer(Answer),
    // To read the sources with these names, whose lines are filtered so.
    Filter(FilterRule, &'a [String]),
    // To read the sources with these names to their ends, of which this is asked.
    Whole(Question, &'a [String]),
    // To check the files with these names so.
    Check(CheckOptions, &'a [String]),
}

fn is_json(format: ShowFormat) -> bool
    ensures { result ≡ is_json format }
{
    matches!(format, ShowFormat::Json)
}

fn parse_compare<'a>(words: &'a [String]) -> Command<'a>
    ensures { (settings : Settings) → task result ≡ task_with settings Topic.Compare (map string_bytes words.now) }
{
    match words {
        [left, word, right] => match parse_comparison(word.as_str()) {
            Some(operator) => Command::Compare(left.as_str(), operator, right.as_str()),
            None => Command::Misused(Misuse::Comparison(word.as_str())),
        },
        _ => Command::Misused(Misuse::Count(Topic::Compare)),
    }
}

fn parse_match<'a>(settings: Settings, words: &'a [String]) -> Command<'a>
    ensures { task result ≡ task_with settings Topic.Match (map string_bytes words.now) }
{
    match words {
        [specifiers, versions @ ..] if !versions.is_empty() => {
            let options = MatchOptions {
                quiet: settings.quiet,
                prereleases: settings.prereleases,
            };
            Command::Match(options, specifiers.as_str(), versions)
        }
        _ => Command::Misused(Misuse::Count(Topic::Match)),
    }
}

fn parse_filter<'a>(settings: Settings, words: &'a [String]) -> Command<'a>
    ensures { task result ≡ task_with settings Topic.Filter (map string_bytes words.now) }
{
    match words {
        [specifiers, names @ ..] => {
            let options = FilterOptions {
                inverted: settings.inverted,
                prereleases: settings.prereleases,
                lines: settings.lines,
            };
            Command::Filter(options, specifiers.as_str(), names)
        }
        _ => Command::Misused(Misuse::Count(Topic::Filter)),
    }
}

fn parse_sort<'a>(settings: Settings, words: &'a [String]) -> Command<'a>
    ensures { task result ≡ task_with settings Topic.Sort (map string_bytes words.now) }
{
    let options = SortOptions {
        reversed: settings.reversed,
        unique: settings.unique,
        last: settings.last,
        lines: settings.lines,
    };
    Command::Sort(options, words)
}

fn parse_newest<'a>(settings: Settings, words: &'a [String]) -> Command<'a>
    ensures { task result ≡ task_with settings Topic.Newest (map string_bytes words.now) }
{
    match words {
        [specifiers, names @ ..] => {
            let options = NewestOptions {
                prereleases: settings.prereleases,
                lines: settings.lines,
            };
            Command::Newest(options, specifiers.as_str(), names)
        }
        _ => Command::Misused(Misuse::Count(Topic::Newest)),
    }
}

fn parse_show<'a>(settings: Settings, words: &'a [String]) -> Command<'a>
    ensures { task result ≡ task_with settings Topic.Show (map string_bytes words.now) }
{
    if words.is_empty() {
        Command::Misused(Misuse::Count(Topic::Show))
    } else {
        Command::Show(settings.format, words)
    }
}

fn parse_range<'a>(settings: Settings, words: &'a [String]) -> Command<'a>
    ensures { task result ≡ task_with settings Topic.Range (map string_bytes words.now) }
{
    if words.is_empty() {
        return Command::Misused(Misuse::Count(Topic::Range));
    }
    Command::Range(is_json(settings.format), words)
}

fn parse_marker<'a>(settings: Settings, words: &'a [String]) -> Command<'a>
    ensures { task result ≡ task_with settings Topic.Marker (map string_bytes words.now) }
{
    match words {
        [marker] => Command::Marker(settings.linked, marker.as_str(), None),
        [marker, other] => {
            Command::Marker(settings.linked, marker.as_str(), Some(other.as_str()))
        },
        _ => Command::Misused(Misuse::Count(Topic::Marker)),
    }
}

// Parts, at least one, and then the version.
fn parse_bump_word<'a>(to: Option<u64>, parts: &'a [String], version: &'a str) -> Command<'a>
    ensures { task result ≡ bump_word to (map string_bytes parts.now) version.now }
{
    if parts.is_empty() {
        return Command::Misused(Misuse::Count(Topic::Bump));
    }
    Command::Bump(to, parts, Some(version))
}

fn begins_with_digit(bytes: &[u8]) -> bool
    ensures { result ≡ begins_with_digit bytes.now }
{
    match bytes {
        [first, ..] => first.is_ascii_digit(),
        [] => false,
    }
}

// Whether the word begins as a version may and no part does.
fn has_number(word: &[u8]) -> bool
    ensures { result ≡ has_number word.now }
{
    match word {
        [b'v', rest @ ..] => begins_with_digit(rest),
        _ => begins_with_digit(word),
    }
}

// Parts, of which the first may be a version.
fn parse_bump_parts<'a>(to: Option<u64>, words: &'a [String]) -> Command<'a>
    ensures { task result ≡ bump_parts to (map string_bytes words.now) }
{
    match words {
        [word, rest @ ..] if has_number(word.as_bytes()) => {
            Command::Misused(Misuse::VersionFirst(to, word.as_str(), rest))
        }
        _ => Command::Bump(to, words, None),
    }
}

// The last of the words, and those before it.
fn parse_bump_last<'a>(
    to: Option<u64>,
    words: &'a [String],
    before: &'a [String],
    last: &'a str,
) -> Command<'a>
    ensures { task result ≡ by_last to (map string_bytes words.now) (map string_bytes before.now) last.now }
{
    if parse_bump_part(last).is_some() {
        parse_bump_parts(to, words)
    } else {
        parse_bump_word(to, before, last)
    }
}

// `bump PART.. [V]`.
fn parse_bump<'a>(to: Option<u64>, words: &'a [String]) -> Command<'a>
    ensures { task result ≡ bump_operands to (map string_bytes words.now) }
{
    match words.split_last() {
        Some((last, before)) => parse_bump_last(to, words, before, last.as_str()),
        None => Command::Misused(Misuse::Count(Topic::Bump)),
    }
}

// The first word that names a Pipfile or its lock.
fn find_pipenv_word(words: &[String]) -> Option<&str>
    ensures { option_map (λ n. n.now) result ≡ find is_pipenv_path (map string_bytes words.now) }
{
    for word in words {
        if is_pipenv_path(word.as_bytes()) {
            return Some(word.as_str());
        }
    }
    None
}

fn parse_check<'a>(settings: Settings, words: &'a [String]) -> Command<'a>
    ensures { task result ≡ task_with settings Topic.Check (map string_bytes words.now) }
{
    if let Some(word) = find_pipenv_word(words) {
        return Command::Misused(Misuse::OfPipenv(word));
    }
    let options = CheckOptions {
        output: settings.output,
        each: settings.each,
        quiet: settings.quiet,
        kind: settings.kind,
        seeks_locks: settings.seeks_locks,
    };
    Command::Check(options, words)
}

// The command with these settings and operands.
fn parse_operands<'a>(topic: Topic, settings: Settings, words: &'a [String]) -> Command<'a>
    ensures { task result ≡ task_with settings topic (map string_bytes words.now) }
{
    match topic {
        Topic::Program => Command::Misused(Misuse::Count(topic)),
        Topic::Compare => parse_compare(words),
        Topic::Match => parse_match(settings, words),
        Topic::Filter => parse_filter(settings, words),
        Topic::Sort => parse_sort(settings, words),
        Topic::Newest => parse_newest(settings, words),
        Topic::Show => parse_show(settings, words),
        Topic::Bump => parse_bump(settings.to, words),
        Topic::Range => parse_range(settings, words),
        Topic::Marker => parse_marker(settings, words),
        Topic::Check => parse_check(settings, words),
    }
}

fn asks_help(options: &[GivenOption]) -> bool
    ensures { result ≡ asks_help (map (option_with_value (λ s. s.now) (λ t. t.now) string_bytes) options.now) }
{
    for given in options {
        if given.0.0.1 == "--help" {
            return true;
        }
    }
    false
}

// The command with these options and operands, of which none asks for help.
fn parse_given<'a>(topic: Topic, options: &'a [GivenOption], operands: &'a [String]) -> Command<'a>
    ensures { task result ≡ by_effect topic (map string_bytes operands.now) (effect no_settings (map (option_with_value (λ s. s.now) (λ t. t.now) string_bytes) options.now)) }
{
    let mut settings = Settings::none();
    for given in options {
        match settings.with_option(given.0.0.1, given.1.as_str()) {
            Some(taken) => settings = taken,
            None => return Command::Misused(Misuse::Value(topic, given.0, given.1.as_str())),
        }
    }
    parse_operands(topic, settings, operands)
}

fn parse_split<'a>(topic: Topic, split: &'a Split) -> Command<'a>
    ensures { task result ≡ by_split topic (split_of split.now) }
{
    match split {
        Split::Given(options, operands) => {
            if asks_help(options.as_slice()) {
                Command::Help(topic)
            } else {
                parse_given(topic, options.as_slice(), operands.as_slice())
            }
        }
        Split::Unknown(word) => Command::Misused(Misuse::Option(topic, word.as_str())),
        Split::Missing(option) => Command::Misused(Misuse::Missing(topic, *option)),
    }
}

impl<'a> Command<'a> {
    // The command that the words ask for.
    pub(crate) fn parse(words: &'a Words) -> Command<'a>
        ensures { task result ≡ words_task words.now }
    {
        match words {
            Words::Help(topic) => Command::Help(*topic),
            Words::Version => Command::Version,
            Words::Command(topic, split) => parse_split(*topic, split),
            Words::Unknown(word) => Command::Misused(Misuse::Command(word.as_str())),
            Words::Nothing => Command::Misused(Misuse::NoWords),
            Words::Miscounted => Command::Misused(Misuse::Count(Topic::Program)),
        }
    }

    // What is to be done for it.
    pub(crate) fn run(self, alloc: Global) -> Result<Work<'a>, AllocError>
        ensures { IfOk result (λ w. IsWork (task self.entry) w) }
    {
        match self {
            Command::Help(topic) => Ok(Work::Answer(print_text(alloc, help(topic))?)),
            Command::Version => Ok(Work::Answer(print_text(alloc, VERSION_LINE)?)),
            Command::Compare(left, operator, right) => {
                Ok(Work::Answer(compare(alloc, left, operator, right)?))
            }
            Command::Match(options, specifiers, words) => {
                Ok(Work::Answer(match_versions(
                    alloc,
                    usage(Topic::Match),
                    options,
                    specifiers,
                    words,
                )?))
            }
            Command::Filter(options, specifiers, names) => {
                start_filter(alloc, options, specifiers, names)
            }
            Command::Sort(options, names) => {
                Ok(Work::Whole(Question::Lines(LinesQuestion::Sort(options)), names))
            },
            Command::Newest(options, specifiers, names) => {
                start_newest(alloc, options, specifiers, names)
            }
            Command::Show(format, words) => {
                Ok(Work::Answer(show_versions(alloc, format, words)?))
            }
            Command::Bump(to, names, version) => start_bump(alloc, to, names, version),
            Command::Range(json, words) => { Ok(Work::Answer(find_common(alloc, json, words)?)) }
            Command::Marker(linked, marker, other) => {
                Ok(Work::Answer(find_extent(alloc, linked, marker, other)?))
            }
            Command::Check(options, names) => Ok(Work::Check(options, names)),
            Command::Misused(misuse) => Ok(Work::Answer(report_misuse(alloc, misuse)?)),
        }
    }
}

// `filter SPECS [FILE..]`: the rule, or why SPECS is no list.
fn start_filter<'a>(
    alloc: Global,
    options: FilterOptions,
    specifiers: &str,
    names: &'a [String],
) -> Result<Work<'a>, AllocError>
    ensures { IfOk result (λ w. IsWork (Filter options specifiers.now (map string_bytes names.now)) w) }
{
    match parse_specifiers(alloc, specifiers)? {
        SpecifiersReading::Specifiers(list) => {
            let takes = takes_prereleases(options.prereleases, &list);
            let rule = FilterRule {
                wanted: Selection::from_inverted(options.inverted),
                takes,
                lines: options.lines,
                list,
            };
            Ok(Work::Filter(rule, names))
        }
        SpecifiersReading::Invalid(message) => Ok(Work::Answer(report_list_fault(
            alloc,
            usage(Topic::Filter),
            specifiers,
            message.as_str(),
        )?)),
    }
}

// `newest SPECS [FILE..]`: what is asked, or why SPECS is no list.
fn start_newest<'a>(
    alloc: Global,
    options: NewestOptions,
    specifiers: &str,
    names: &'a [String],
) -> Result<Work<'a>, AllocError>
    ensures { IfOk result (λ w. IsWork (Newest options specifiers.now (map string_bytes names.now)) w) }
{
    match parse_specifiers(alloc, specifiers)? {
        SpecifiersReading::Specifiers(list) => {
            let rule = NewestRule {
                prereleases: options.prereleases,
                lines: options.lines,
                list,
            };
            Ok(Work::Whole(Question::Newest(rule), names))
        }
        SpecifiersReading::Invalid(message) => Ok(Work::Answer(report_list_fault(
            alloc,
            usage(Topic::Newest),
            specifiers,
            message.as_str(),
        )?)),
    }
}

// `bump PART.. [V]`: the version, what is asked of standard input, or which word names no part.
fn start_bump<'a>(
    alloc: Global,
    to: Option<u64>,
    names: &'a [String],
    version: Option<&str>,
) -> Result<Work<'a>, AllocError>
    ensures { IfOk result (λ w. IsWork (bump_from_words to [] (map string_bytes names.now) (option_map (λ v. v.now) version.entry)) w) }
{
    let mut parts = Vec::new(alloc);
    let mut left = names;
    while let [name, rest @ ..] = left {
        let Some(part) = parse_bump_part(name.as_str()) else {
            let misuse = Misuse::BumpPart(name.as_str());
            return Ok(Work::Answer(report_misuse(alloc, misuse)?));
        };
        parts.push(part)?;
        left = rest;
    }
    match version {
        Some(word) => Ok(Work::Answer(bump_version(alloc, to, parts.as_slice(), word)?)),
        // No name is left, and no name denotes standard input.
        None => {
            let question = LinesQuestion::Bump(BumpRule { to, parts });
            Ok(Work::Whole(Question::Lines(question), left))
        }
    }
}

fn print_text(alloc: Global, text: &str) -> Result<Answer, AllocError>
    ensures { IfOk result (λ a. outcome_of a ≡ printed text.now) }
{
    let mut answer = Answer::silent(alloc, 0);
    answer.output.extend_from_slice(text.as_bytes())?;
    Ok(answer)
}

fn report_misuse(alloc: Global, why: Misuse<'_>) -> Result<Answer, AllocError>
    ensures { IfOk result (λ a. outcome_of a ≡ message_outcome (misuse_message why.entry)) }
{
    let mut answer = Answer::silent(alloc, 2);
    push_misuse(alloc, &mut answer.errors, why)?;
    Ok(answer)
}
