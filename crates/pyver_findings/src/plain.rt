//! The strings of requirements, which have tabs and printable ASCII.
ghost use Rattle.std.specs.Prelude.{◌≡◌, ◌≤◌, IfErr, IfOk, length};
ghost use Rattle.std.specs.List.{prefix_len};
ghost use Rattle.pyver_findings.specs.LineMeanings.{IsPlain, is_plain_byte};

use cli_io::is_printable;
use std::str;

fn is_plain_byte(byte: u8) -> bool
    ensures { result ≡ is_plain_byte byte }
{
    byte == b'\t' || is_printable(byte)
}

fn count_plain_bytes(text: &[u8]) -> usize
    ensures count { result ≡ prefix_len is_plain_byte text.now }
    ensures inside { result ≤ length text.now }
{
    text.iter().take_while(|byte| is_plain_byte(**byte)).count()
}

// The string, or the position of its first byte that no requirement has.
pub(crate) fn plain_text(text: &[u8]) -> Result<&str, usize>
    ensures plain { IfOk result (λ s. (s.now ≡ text.now) × IsPlain text.now) }
    ensures other { IfErr result (λ at. (¬ IsPlain text.now) × (at ≡ prefix_len is_plain_byte text.now)) }
{
    let count = count_plain_bytes(text);
    if count < text.len() {
        return Err(count);
    }
    match str::from_utf8(text) {
        Ok(text) => Ok(text),
        // ASCII is UTF-8
        Err(_) => Err(count),
    }
}
