//! Why a line is neither a requirement nor an option.
ghost use Rattle.std.specs.Prelude.{◌≡◌, ◌≤◌, ◌==◌, length};
ghost use Rattle.std.specs.List.{prefix_len};
ghost use Rattle.pyver_requirements.specs.LineKinds.{ends_word, is_conflict_mark, is_mark_byte};

/// Why a line is neither a requirement nor an option.
#[derive(Clone, Copy, PartialEq, Eq)]
pub enum LineFault {
    /// An option that pip 26.2 does not know.
    UnknownOption,
    /// The beginning of several options of pip.
    AmbiguousOption,
    /// An option without its value.
    MissingValue,
    /// A value after `=` of an option that takes none.
    UnwantedValue,
    /// A value of `--hash` that begins with none of `sha256:`, `sha384:` and `sha512:`.
    WrongHash,
    /// A value of `-C` or `--config-settings` without `=`.
    WrongSetting,
    /// A quote in the options that is not closed, or a backslash at their end.
    UnclosedQuote,
    /// A mark that version control leaves at a conflict, as `<<<<<<<`.
    ConflictMark,
    /// The mark of UTF-16, with which the file begins.
    Utf16,
}

fn count_same(text: &[u8], byte: u8) -> usize
    ensures count { result ≡ prefix_len (λ b. b == byte) text.now }
    ensures inside { result ≤ length text.now }
{
    text.iter().take_while(|other| **other == byte).count()
}

fn is_mark_byte(byte: u8) -> bool
    ensures { result ≡ is_mark_byte byte }
{
    matches!(byte, b'<' | b'=' | b'>' | b'|')
}

// The text is empty or begins with a blank.
fn ends_word(text: &[u8]) -> bool
    ensures { result ≡ ends_word text.now }
{
    match text {
        [] => true,
        [first, ..] => first.is_ascii_whitespace(),
    }
}

// The line is the mark of a merge conflict.
pub(crate) fn is_conflict_mark(text: &[u8]) -> bool
    ensures { result ≡ is_conflict_mark text.now }
{
    let [first, ..] = text else {
        return false;
    };
    let count = count_same(text, *first);
    is_mark_byte(*first) && count == 7 && ends_word(&text[count..])
}
