//! Lines and their comments.
ghost use Rattle.std.specs.Prelude.{◌≡◌, ◌≤◌, length, true};
ghost use Rattle.pep440_rs.specs.Blanks.{trim_blanks};
ghost use Rattle.pyver_requirements.specs.LogicalLines.{comment, comment_start, content};

// How many bytes stand before the comment, which begins with a `#` at the start or after a blank.
fn comment_start(line: &[u8]) -> usize
    ensures count { result ≡ comment_start true line.now }
    ensures inside { result ≤ length line.now }
{
    let mut may_begin = true;
    for (at, byte) in line.iter().enumerate() {
        if may_begin && *byte == b'#' {
            return at;
        }
        may_begin = byte.is_ascii_whitespace();
    }
    line.len()
}

// The text without the blanks at both ends.
pub(crate) fn trim_blanks(text: &[u8]) -> &[u8]
    ensures { result.now ≡ trim_blanks text.now }
{
    text.trim_ascii()
}

// The line without its comment and without blanks at both ends, and the comment.
pub(crate) fn split_comment(line: &[u8]) -> (&[u8], &[u8])
    ensures content { result.0.now ≡ content line.now }
    ensures comment { result.1.now ≡ comment line.now }
{
    let start = comment_start(line);
    (trim_blanks(&line[..start]), &line[start..])
}
