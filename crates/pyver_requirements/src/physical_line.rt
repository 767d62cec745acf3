//! The physical lines of a string, and which continue.
ghost use Rattle.std.specs.Prelude.{◌≡◌, ◌<◌, ◌≤◌, ◌==◌, ◌∷◌, [], IfSome, length};
ghost use Rattle.std.specs.List.{prefix_len, suffix_len};
ghost use Rattle.std.specs.Option.{option_map_or};
ghost use Rattle.pep440_rs.specs.Blanks.{opens};
ghost use Rattle.pep440_version.specs.Grammar.{starts};
ghost use Rattle.pep440_version.specs.Rejections.{ends};
ghost use Rattle.pyver_requirements.specs.LogicalLines.{added, after_mark, continues, ends_separator, is_comment_line, is_line_end, is_utf16, line_end, physical_lines, trim_backslashes};

// The text without a byte order mark at the start.
pub(crate) fn after_mark(text: &[u8]) -> &[u8]
    ensures { result.now ≡ after_mark text.now }
{
    match text {
        [0xEF, 0xBB, 0xBF, rest @ ..] => rest,
        _ => text,
    }
}

// The text begins with the mark of UTF-16, in either order of bytes.
pub(crate) fn opens_with_mark(text: &[u8]) -> bool
    ensures { result ≡ is_utf16 text.now }
{
    matches!(text, [0xFF, 0xFE, ..] | [0xFE, 0xFF, ..])
}

fn is_line_end(byte: u8) -> bool
    ensures { result ≡ is_line_end byte }
{
    (byte >= b'\n' && byte <= b'\r') || (byte >= 0x1C && byte <= 0x1E)
}

fn opens_with_separator_end(text: &[u8]) -> bool
    ensures { result ≡ starts ends_separator text.now }
{
    match text {
        [] => false,
        [first, ..] => *first == 0xA8 || *first == 0xA9,
    }
}

// The number of bytes of the line end that the text begins with, or 0: the line ends of Python's `splitlines`, in UTF-8.
fn line_end(text: &[u8]) -> usize
    ensures count { result ≡ line_end text.now }
    ensures inside { result ≤ length text.now }
{
    match text {
        [] => 0,
        [b'\r', b'\n', ..] => 2,
        [first, ..] if is_line_end(*first) => 1,
        [0xC2, 0x85, ..] => 2,
        [0xE2, 0x80, rest @ ..] if opens_with_separator_end(rest) => 3,
        _ => 0,
    }
}

// The first line, and what follows its end if it has one.
pub(crate) fn split_line(text: &[u8]) -> (&[u8], Option<&[u8]>)
    ensures lines { physical_lines text.now ≡ result.0.now ∷ option_map_or (λ rest. physical_lines rest.now) result.1 [] }
    ensures shorter { IfSome result.1 (λ rest. length rest.now < length text.now) }
{
    for at in 0..text.len() {
        let ending = line_end(&text[at..]);
        if ending > 0 {
            return (&text[..at], Some(&text[at + ending..]));
        }
    }
    (text, None)
}

fn opens_with_hash(text: &[u8]) -> bool
    ensures { result ≡ opens 35 text.now }
{
    match text {
        [] => false,
        [first, ..] => *first == b'#',
    }
}

// The first byte that is no blank is `#`.
fn is_comment_line(line: &[u8]) -> bool
    ensures { result ≡ is_comment_line line.now }
{
    opens_with_hash(line.trim_ascii_start())
}

fn ends_with_backslash(line: &[u8]) -> bool
    ensures { result ≡ ends (λ b. b == 92) line.now }
{
    match line {
        [] => false,
        [.., last] => *last == b'\\',
    }
}

fn count_leading_backslashes(text: &[u8]) -> usize
    ensures count { result ≡ prefix_len (λ b. b == 92) text.now }
    ensures inside { result ≤ length text.now }
{
    text.iter().take_while(|byte| **byte == b'\\').count()
}

fn count_trailing_backslashes(text: &[u8]) -> usize
    ensures count { result ≡ suffix_len (λ b. b == 92) text.now }
    ensures inside { result ≤ length text.now }
{
    text.iter().rev().take_while(|byte| **byte == b'\\').count()
}

// The text without the backslashes at both ends.
fn trim_backslashes(text: &[u8]) -> &[u8]
    ensures { result.now ≡ trim_backslashes text.now }
{
    let rest = &text[count_leading_backslashes(text)..];
    &rest[..rest.len() - count_trailing_backslashes(rest)]
}

// What the line adds to its logical line, and whether the next one is joined with it.
pub(crate) fn split_continuation(line: &[u8]) -> (&[u8], bool)
    ensures added { result.0.now ≡ added line.now }
    ensures continues { result.1 ≡ continues line.now }
{
    if is_comment_line(line) {
        (&[], false)
    } else if ends_with_backslash(line) {
        (trim_backslashes(line), true)
    } else {
        (line, false)
    }
}
