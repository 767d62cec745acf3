//! Runs of bytes, and splits of a string.
ghost use Rattle.std.specs.Prelude.{◌≡◌, ◌<◌, ◌≤◌, ◌-◌, ◌^◌, ◌==◌, true, Some, None, length, option_map, nat_lt, take, drop, slice_index, if◌then◌else◌};
ghost use Rattle.std.specs.Char.{is_ascii_digit, is_ascii_alphanumeric, is_ascii_whitespace};
ghost use Rattle.std.specs.List.{list_all, prefix_len};
ghost use Rattle.std.specs.Str.Parse.{digits_value};
ghost use Rattle.pep440_version.specs.Grammar.{starts, is_separator, is_v};
ghost use Rattle.pep440_version.specs.Locals.{first_byte};
ghost use Rattle.pep440_version.specs.Reading.{lead, past, skip_v, EndsWith};
ghost use Rattle.pep440_version.specs.Suffixes.{starts_with_word, skip_separator};

fn count_digits(text: &[u8]) -> usize
    ensures count { result ≡ prefix_len is_ascii_digit text.now }
    ensures inside { result ≤ length text.now }
{
    text.iter().take_while(|byte| byte.is_ascii_digit()).count()
}

// Splits the string after an ASCII byte.
fn split_at_ascii(text: &str, at: usize) -> (&str, &str)
    requires inside { at ≤ length text.now }
    requires ascii { 0 < at → slice_index text.now (at - 1) < 128 }
    ensures prefix { result.0.now ≡ take at text.now }
    ensures back { result.1.now ≡ drop at text.now }
{
    text.split_at(at)
}

pub(crate) fn skip_blanks(text: &str) -> &str
    ensures { result.now ≡ past is_ascii_whitespace text.now }
{
    text.trim_ascii_start()
}

pub(crate) fn split_digits(text: &str) -> (&str, &str)
    ensures prefix { result.0.now ≡ lead is_ascii_digit text.now }
    ensures back { result.1.now ≡ past is_ascii_digit text.now }
{
    split_at_ascii(text, count_digits(text.as_bytes()))
}

// The number of the digits, if it fits.
pub(crate) fn parse_u64(digits: &str) -> Option<u64>
    requires some { 0 < length digits.now }
    requires all { list_all is_ascii_digit digits.now ≡ true }
    ensures { result ≡ (if nat_lt (digits_value 10 digits.now) (2 ^ 64) then Some (digits_value 10 digits.now) else None) }
{
    digits.parse::<u64>().ok()
}

// Whether the first byte is this one.
pub(crate) fn starts_with(text: &str, byte: u8) -> bool
    ensures { result ≡ starts (λ b. b == byte) text.now }
{
    match text.as_bytes() {
        [] => false,
        [first, ..] => *first == byte,
    }
}

// The leading separator.
pub(crate) fn find_separator(text: &str) -> Option<u8>
    ensures { result ≡ (if starts is_separator text.now then Some (first_byte text.now) else None) }
{
    match text.as_bytes() {
        [] => None,
        [first, ..] => match *first {
            b'.' | b'-' | b'_' => Some(*first),
            _ => None,
        },
    }
}

// The string without a leading separator.
pub(crate) fn skip_separator(text: &str) -> &str
    ensures { result.now ≡ skip_separator text.now }
{
    match find_separator(text) {
        Some(_) => skip_ascii(text),
        None => text,
    }
}

// Whether the string begins with the word, ignoring case.
fn starts_with_word(text: &[u8], word: &[u8]) -> bool
    ensures { result ≡ starts_with_word word.now text.now }
{
    if text.len() < word.len() {
        return false;
    }
    for i in 0..word.len() {
        if text[i].to_ascii_lowercase() != word[i] {
            return false;
        }
    }
    true
}

// The string without the word, if it begins with it, ignoring case.
pub(crate) fn strip_word<'a>(text: &'a str, word: &str) -> Option<&'a str>
    requires { list_all (λ b. nat_lt b 128) word.now ≡ true }
    ensures { option_map (λ s. s.now) result ≡ (if starts_with_word word.now text.now then Some
        (drop (length word.now) text.now) else None) }
{
    if starts_with_word(text.as_bytes(), word.as_bytes()) {
        Some(split_at_ascii(text, word.len()).1)
    } else {
        None
    }
}

fn count_alphanumerics(text: &[u8]) -> usize
    ensures count { result ≡ prefix_len is_ascii_alphanumeric text.now }
    ensures inside { result ≤ length text.now }
{
    text.iter()
        .take_while(|byte| byte.is_ascii_alphanumeric())
        .count()
}

pub(crate) fn split_alphanumerics(text: &str) -> (&str, &str)
    ensures prefix { result.0.now ≡ lead is_ascii_alphanumeric text.now }
    ensures back { result.1.now ≡ past is_ascii_alphanumeric text.now }
{
    split_at_ascii(text, count_alphanumerics(text.as_bytes()))
}

// Whether all bytes are digits.
pub(crate) fn is_digits(text: &str) -> bool
    ensures { result ≡ list_all is_ascii_digit text.now }
{
    count_digits(text.as_bytes()) == text.len()
}

// Whether all bytes are letters and digits.
pub(crate) fn is_alphanumeric(text: &str) -> bool
    ensures { result ≡ list_all is_ascii_alphanumeric text.now }
{
    count_alphanumerics(text.as_bytes()) == text.len()
}

// The string without its first byte, which is ASCII.
pub(crate) fn skip_ascii(text: &str) -> &str
    requires some { 0 < length text.now }
    requires ascii { slice_index text.now 0 < 128 }
    ensures { result.now ≡ drop 1 text.now }
{
    split_at_ascii(text, 1).1
}

// The string without this end.
pub(crate) fn strip_end<'a>(text: &'a str, end: &str) -> &'a str
    requires { EndsWith text.now end.now }
    ensures { result.now ≡ take (length text.now - length end.now) text.now }
{
    let (prefix, _) = text.split_at(text.len() - end.len());
    prefix
}
