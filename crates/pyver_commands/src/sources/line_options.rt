//! The options of the commands that read lines.
ghost use Rattle.std.specs.Prelude.{◌≡◌};

use crate::sources::invalid_lines::InvalidLines;

/// How lines are read.
#[derive(Clone, Copy)]
pub struct LineOptions {
    pub invalid: InvalidLines,
    /// The number of the field that is the version, from 1, or none where the whole line is it.
    pub field: Option<u64>,
    /// The byte between fields.
    pub delimiter: u8,
    /// Whether the first line is no version and stays first.
    pub header: bool,
}

impl LineOptions {
    ghost use Rattle.pyver_commands.specs.Sources.LineOptions.{bare_line_options, is_header, no_line_options};

    /// What is read without options.
    pub fn none() -> LineOptions
        ensures { result ≡ no_line_options }
    {
        LineOptions {
            invalid: InvalidLines::Error,
            field: None,
            delimiter: b'\t',
            header: false,
        }
    }

    // What a command without these options reads.
    pub(crate) fn bare() -> LineOptions
        ensures { result ≡ bare_line_options }
    {
        LineOptions {
            invalid: InvalidLines::AlwaysError,
            ..LineOptions::none()
        }
    }

    // Whether the line with this number is the header.
    pub(crate) fn is_header(self, number: u64) -> bool
        ensures { result ≡ is_header self number }
    {
        self.header && number == 1
    }
}
