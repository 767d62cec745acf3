//! Numbers that words write.
ghost use Rattle.std.specs.Prelude.{◌≡◌};
ghost use Rattle.pyver_commands.specs.Readings.{are_digits, word_number};

fn is_digits(text: &str) -> bool
    ensures { result ≡ are_digits text.now }
{
    let bytes = text.as_bytes();
    !bytes.is_empty() && bytes.iter().all(|byte| byte.is_ascii_digit())
}

/// One or more digits, zeros may lead, whose value fits.
pub fn parse_number(text: &str) -> Option<u64>
    ensures { result ≡ word_number text.now }
{
    if !is_digits(text) {
        return None;
    }
    text.parse::<u64>().ok()
}
