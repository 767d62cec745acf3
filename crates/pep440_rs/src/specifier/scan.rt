//! The runs of characters that a specifier is made of.
ghost use Rattle.std.specs.Prelude.{◌≡◌};
ghost use Rattle.std.specs.Char.{is_whitespace};
ghost use Rattle.std.specs.Str.{chars, encode_utf8_all};
ghost use Rattle.pep440_version.specs.Reading.{lead, past, EndsWith};
ghost use Rattle.pep440_rs.specs.Specifiers.SpecifierReading.{passes};

// What a run is made of.
#[derive(Clone, Copy)]
pub(crate) enum Run {
    Blanks,
    Operator,
    Word,
}

impl Run {
    fn passes(self, c: char) -> bool
        ensures { result ≡ passes self c }
    {
        match self {
            Run::Blanks => c.is_whitespace(),
            Run::Operator => matches!(c, '=' | '!' | '~' | '<' | '>'),
            Run::Word => !c.is_whitespace(),
        }
    }
}

// What follows the longest run at the start, character by character.
fn skip_characters(text: &str, run: Run) -> &str
    ensures back { chars result.now ≡ past (passes run) (chars text.now) }
    ensures ends { EndsWith text.now result.now }
{
    let mut characters = text.chars();
    let mut rest = text;
    while let Some(c) = characters.next() {
        if !run.passes(c) {
            return rest;
        }
        rest = characters.as_str();
    }
    rest
}

// What follows the longest run at the start: byte by byte, up to one that is not ASCII.
#[inline(always)]
fn skip_run(text: &str, run: Run) -> &str
    ensures back { chars result.now ≡ past (passes run) (chars text.now) }
    ensures ends { EndsWith text.now result.now }
{
    let bytes = text.as_bytes();
    for at in 0..bytes.len() {
        if !bytes[at].is_ascii() {
            return skip_characters(&text[at..], run);
        }
        if !run.passes(char::from(bytes[at])) {
            return &text[at..];
        }
    }
    ""
}

// The longest run at the start, and what follows it.
#[inline(always)]
pub(crate) fn split_run(text: &str, run: Run) -> (&str, &str)
    ensures prefix { result.0.now ≡ encode_utf8_all (lead (passes run) (chars text.now)) }
    ensures back { chars result.1.now ≡ past (passes run) (chars text.now) }
    ensures bytes { result.1.now ≡ encode_utf8_all (past (passes run) (chars text.now)) }
{
    let rest = skip_run(text, run);
    text.split_at(text.len() - rest.len())
}

// What follows the white space at the start.
#[inline(always)]
pub(crate) fn skip_white_space(text: &str) -> &str
    ensures back { chars result.now ≡ past is_whitespace (chars text.now) }
    ensures bytes { result.now ≡ encode_utf8_all (past is_whitespace (chars text.now)) }
{
    skip_run(text, Run::Blanks)
}
