//! What options set.
ghost use Rattle.std.specs.Prelude.{◌≡◌};
ghost use Rattle.pyver_tool.specs.Settings.{delimiter_of, field_number_of, no_settings, output_form_of, with_check_option, with_line_option, with_option};

use crate::options::{FileKind, parse_file_kind};
use pyver_commands::{
    LineOptions, Prereleases, ShowFormat, parse_invalid_lines, parse_number, parse_part,
};

// How findings are printed.
#[derive(Clone, Copy)]
pub(crate) enum OutputForm {
    Text,
    Json,
    // Commands to GitHub Actions.
    Github,
    Sarif,
}

// What the options of any command set; of two that contradict each other the last counts.
#[derive(Clone, Copy)]
pub(crate) struct Settings {
    pub(crate) quiet: bool,
    pub(crate) prereleases: Prereleases,
    pub(crate) inverted: bool,
    pub(crate) reversed: bool,
    pub(crate) unique: bool,
    pub(crate) last: Option<u64>,
    pub(crate) lines: LineOptions,
    pub(crate) format: ShowFormat,
    pub(crate) to: Option<u64>,
    pub(crate) each: bool,
    pub(crate) kind: FileKind,
    pub(crate) output: OutputForm,
    pub(crate) seeks_locks: bool,
    pub(crate) linked: bool,
}

// The form that the word names.
pub(crate) fn parse_output_form(word: &str) -> Option<OutputForm>
    ensures { result ≡ output_form_of word.now }
{
    match word {
        "text" => Some(OutputForm::Text),
        "json" => Some(OutputForm::Json),
        "github" => Some(OutputForm::Github),
        "sarif" => Some(OutputForm::Sarif),
        _ => None,
    }
}

// A number from 1.
fn parse_field_number(word: &str) -> Option<u64>
    ensures { result ≡ field_number_of word.now }
{
    match parse_number(word) {
        Some(0) => None,
        number => number,
    }
}

// A string of one byte, which is ASCII.
fn parse_delimiter(word: &str) -> Option<u8>
    ensures { result ≡ delimiter_of word.now }
{
    match word.as_bytes() {
        [byte] => Some(*byte),
        _ => None,
    }
}

// The options of lines with this one, if it is one of them with a right value.
fn with_line_option(lines: LineOptions, name: &str, value: &str) -> Option<LineOptions>
    ensures { result ≡ with_line_option lines name.now value.now }
{
    let mut lines = lines;
    match name {
        "--field" => lines.field = Some(parse_field_number(value)?),
        "--delimiter" => lines.delimiter = parse_delimiter(value)?,
        "--header" => lines.header = true,
        "--invalid" => lines.invalid = parse_invalid_lines(value)?,
        _ => return None,
    }
    Some(lines)
}

impl Settings {
    // Those without an option.
    pub(crate) fn none() -> Settings
        ensures { result ≡ no_settings }
    {
        Settings {
            quiet: false,
            prereleases: Prereleases::Listed,
            inverted: false,
            reversed: false,
            unique: false,
            last: None,
            lines: LineOptions::none(),
            format: ShowFormat::Normal,
            to: None,
            each: false,
            kind: FileKind::unknown(),
            output: OutputForm::Text,
            seeks_locks: true,
            linked: true,
        }
    }

    #[tactic(auto, unfolding(crate::specs::Settings::with_check_option))]
    // With this option of `check`, of `marker` or of lines, if the value is one of it.
    fn with_check_option(self, name: &str, value: &str) -> Option<Settings>
        ensures { result ≡ with_check_option self name.now value.now }
    {
        let mut settings = self;
        match name {
            "--each" => settings.each = true,
            "--format" => settings.kind = parse_file_kind(value)?,
            "--output" => settings.output = parse_output_form(value)?,
            "--no-lock" => settings.seeks_locks = false,
            "--any-system" => settings.linked = false,
            _ => settings.lines = with_line_option(settings.lines, name, value)?,
        }
        Some(settings)
    }

    // With this option, if the value is one of it.
    pub(crate) fn with_option(self, name: &str, value: &str) -> Option<Settings>
        ensures { result ≡ with_option self name.now value.now }
    {
        let mut settings = self;
        match name {
            "--quiet" => settings.quiet = true,
            "--pre" => settings.prereleases = Prereleases::Always,
            "--no-pre" => settings.prereleases = Prereleases::Never,
            "--invert-match" => settings.inverted = true,
            "--reverse" => settings.reversed = true,
            "--unique" => settings.unique = true,
            "--last" => settings.last = Some(parse_number(value)?),
            "--json" => {
                settings.format = ShowFormat::Json;
                settings.output = OutputForm::Json;
            }
            "--part" => settings.format = ShowFormat::Part(parse_part(value)?),
            "--to" => settings.to = Some(parse_number(value)?),
            _ => return settings.with_check_option(name, value),
        }
        Some(settings)
    }
}
