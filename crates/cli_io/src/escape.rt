//! Text of others in messages: what is not printable ASCII is escaped, so that no control character reaches a terminal.
ghost use Rattle.std.specs.Prelude.{◌≡◌, ◌++◌, ◌<◌, IfOk};
ghost use Rattle.cli_io.specs.Escapes.{escaped, escaped_byte, escaped_line_byte, escaped_lines, hex_digit, hex_digits, is_printable};

use std::alloc::AllocError;

fn hex_digit(number: u8) -> u8
    requires { number < 16 }
    ensures { result ≡ hex_digit number }
{
    if number < 10 {
        48 + number
    } else {
        87 + number
    }
}

/// Whether the byte is printable ASCII: from the space to the tilde.
pub fn is_printable(byte: u8) -> bool
    ensures { result ≡ is_printable byte }
{
    32 <= byte && byte < 127
}

/// Appends the two hexadecimal digits of the byte.
///
/// Allocates if `text` grows; returns `AllocError` if that fails.
pub fn push_hex_digits(text: &mut Vec<u8>, byte: u8) -> Result<(), AllocError>
    ensures { IfOk result (λ _. text.new.items ≡ text.old.items ++ hex_digits byte) }
{
    text.extend_from_slice(&[hex_digit(byte / 16), hex_digit(byte % 16)])
}

// The byte at the end, escaped if it is not printable.
fn push_escaped_byte(text: &mut Vec<u8>, byte: u8) -> Result<(), AllocError>
    ensures { IfOk result (λ _. text.new.items ≡ text.old.items ++ escaped_byte byte) }
{
    if is_printable(byte) {
        text.push(byte)?;
        return Ok(());
    }
    text.extend_from_slice(b"\\x")?;
    push_hex_digits(text, byte)
}

/// Appends the bytes, each that is not printable ASCII as `\x` and two digits.
///
/// Allocates if `text` grows; returns `AllocError` if that fails.
pub fn push_escaped(text: &mut Vec<u8>, bytes: &[u8]) -> Result<(), AllocError>
    ensures { IfOk result (λ _. text.new.items ≡ text.old.items ++ escaped bytes.now) }
{
    for byte in bytes {
        push_escaped_byte(text, *byte)?;
    }
    Ok(())
}

fn push_escaped_line_byte(text: &mut Vec<u8>, byte: u8) -> Result<(), AllocError>
    ensures { IfOk result (λ _. text.new.items ≡ text.old.items ++ escaped_line_byte byte) }
{
    if byte == 10 {
        text.push(byte)?;
        return Ok(());
    }
    push_escaped_byte(text, byte)
}

/// Appends the bytes as `push_escaped`, but newlines as they are.
///
/// Allocates if `text` grows; returns `AllocError` if that fails.
pub fn push_escaped_lines(text: &mut Vec<u8>, bytes: &[u8]) -> Result<(), AllocError>
    ensures { IfOk result (λ _. text.new.items ≡ text.old.items ++ escaped_lines bytes.now) }
{
    for byte in bytes {
        push_escaped_line_byte(text, *byte)?;
    }
    Ok(())
}
