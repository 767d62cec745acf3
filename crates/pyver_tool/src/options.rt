//! The options of each command, which the parser and its messages read, and the kinds of files, which `--format` names.
ghost use Rattle.std.specs.Prelude.{◌≡◌};
ghost use Rattle.pyver_tool.specs.SplitWords.{file_kind_of, is_unknown, kind_by_ending, kind_by_name, options, rows_of, unknown_kind};

use crate::help::Topic;
use pyver_documents::{DocumentKind, LockKind, is_document_path, kind_of_path, kind_of_word};

// The letter of an option, its name, what its value is, and its values if they are few; empty where it has none. Tuples of
// strings, since definitions can cite a constant of them.
pub(crate) type OptionRow = (
    &'static str,
    &'static str,
    &'static str,
    &'static [&'static str],
);

const HELP: OptionRow = ("h", "--help", "", &[]);

const QUIET: OptionRow = ("q", "--quiet", "", &[]);

const PRE: OptionRow = ("", "--pre", "", &[]);

const NO_PRE: OptionRow = ("", "--no-pre", "", &[]);

const INVERT_MATCH: OptionRow = ("v", "--invert-match", "", &[]);

const FIELD: OptionRow = ("k", "--field", "a whole number from 1", &[]);

const DELIMITER: OptionRow = ("d", "--delimiter", "one ASCII character", &[]);

const HEADER: OptionRow = ("", "--header", "", &[]);

const INVALID: OptionRow = (
    "",
    "--invalid",
    "one of its choices",
    &["error", "skip", "keep"],
);

const REVERSE: OptionRow = ("r", "--reverse", "", &[]);

const UNIQUE: OptionRow = ("u", "--unique", "", &[]);

const LAST: OptionRow = ("n", "--last", "a whole number", &[]);

const PART: OptionRow = (
    "",
    "--part",
    "one of its choices",
    &[
        "epoch", "release", "major", "minor", "micro", "pre", "post", "dev", "local", "public",
        "base",
    ],
);

const JSON: OptionRow = ("", "--json", "", &[]);

const OUTPUT: OptionRow = (
    "",
    "--output",
    "one of its choices",
    &["text", "json", "github", "sarif"],
);

const TO: OptionRow = ("", "--to", "a whole number", &[]);

const EACH: OptionRow = ("", "--each", "", &[]);

const NO_LOCK: OptionRow = ("", "--no-lock", "", &[]);

const ANY_SYSTEM: OptionRow = ("", "--any-system", "", &[]);

const FORMAT: OptionRow = (
    "",
    "--format",
    "one of its choices",
    &["requirements", "pyproject", "pylock", "uv", "poetry", "pdm"],
);

const COMPARE_OPTIONS: &[OptionRow] = &[HELP];

const MATCH_OPTIONS: &[OptionRow] = &[HELP, QUIET, PRE, NO_PRE];

const FILTER_OPTIONS: &[OptionRow] = &[
    HELP,
    INVERT_MATCH,
    PRE,
    NO_PRE,
    FIELD,
    DELIMITER,
    HEADER,
    INVALID,
];

const SORT_OPTIONS: &[OptionRow] = &[
    HELP, REVERSE, UNIQUE, LAST, FIELD, DELIMITER, HEADER, INVALID,
];

const NEWEST_OPTIONS: &[OptionRow] = &[HELP, PRE, NO_PRE, FIELD, DELIMITER, HEADER, INVALID];

const SHOW_OPTIONS: &[OptionRow] = &[HELP, PART, JSON];

const BUMP_OPTIONS: &[OptionRow] = &[HELP, TO];

const RANGE_OPTIONS: &[OptionRow] = &[HELP, JSON];

const MARKER_OPTIONS: &[OptionRow] = &[HELP, ANY_SYSTEM];

const CHECK_OPTIONS: &[OptionRow] = &[HELP, QUIET, EACH, NO_LOCK, FORMAT, OUTPUT, JSON];

// The options of the command.
pub(crate) fn options(topic: Topic) -> &'static [OptionRow]
    ensures { rows_of (λ s. s.now) (λ t. t.now) result.now ≡ options topic }
{
    match topic {
        Topic::Program => COMPARE_OPTIONS,
        Topic::Compare => COMPARE_OPTIONS,
        Topic::Match => MATCH_OPTIONS,
        Topic::Filter => FILTER_OPTIONS,
        Topic::Sort => SORT_OPTIONS,
        Topic::Newest => NEWEST_OPTIONS,
        Topic::Show => SHOW_OPTIONS,
        Topic::Bump => BUMP_OPTIONS,
        Topic::Range => RANGE_OPTIONS,
        Topic::Marker => MARKER_OPTIONS,
        Topic::Check => CHECK_OPTIONS,
    }
}

// What a file is read as.
#[derive(Clone, Copy)]
pub(crate) enum FileKind {
    Requirements,
    Document(DocumentKind),
}

// The kind that the word names.
#[tactic(auto, unfolding(crate::specs::SplitWords::file_kind_of))]
pub(crate) fn parse_file_kind(word: &str) -> Option<FileKind>
    ensures { result ≡ file_kind_of word.now }
{
    if word == "requirements" {
        return Some(FileKind::Requirements);
    }
    let kind = kind_of_word(word)?;
    Some(FileKind::Document(kind))
}

impl FileKind {
    // The kind, if none is given.
    pub(crate) fn unknown() -> FileKind
        ensures { result ≡ unknown_kind }
    {
        FileKind::Document(DocumentKind::Lock(LockKind::Unknown))
    }

    fn is_unknown(self) -> bool
        ensures { result ≡ is_unknown self }
    {
        matches!(
            self,
            FileKind::Document(DocumentKind::Lock(LockKind::Unknown))
        )
    }

    // This kind. If none is given, a file that is not named as documents are has requirements.
    fn by_ending(self, is_document: bool) -> FileKind
        ensures { result ≡ kind_by_ending self is_document }
    {
        if self.is_unknown() && !is_document {
            FileKind::Requirements
        } else {
            self
        }
    }

    // The kind of the file with this name: the one by its name, or else this one.
    pub(crate) fn by_name(self, name: &[u8]) -> FileKind
        ensures { result ≡ kind_by_name self name.now }
    {
        match kind_of_path(name) {
            Some(kind) => FileKind::Document(kind),
            None => self.by_ending(is_document_path(name)),
        }
    }
}
