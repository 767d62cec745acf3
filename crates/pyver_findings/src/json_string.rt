//! Text of others as JSON strings.
ghost use Rattle.std.specs.Prelude.{◌≡◌, ◌++◌, IfOk};
ghost use Rattle.std.specs.List.{flat_map};
ghost use Rattle.std.specs.Str.{is_utf8};
ghost use Rattle.pyver_findings.specs.ReportTexts.{json_byte, json_string};

use cli_io::{is_printable, push_hex_digits};
use std::alloc::AllocError;

// The byte at the end, of a string that is UTF-8 or not.
fn push_json_byte(text: &mut Vec<u8>, in_utf8: bool, byte: u8) -> Result<(), AllocError>
    ensures { IfOk result (λ _. text.new.items ≡ text.old.items ++ json_byte in_utf8 byte) }
{
    if byte == b'"' || byte == b'\\' {
        return text.extend_from_slice(&[b'\\', byte]);
    }
    if is_printable(byte) || (in_utf8 && byte >= 128) {
        text.push(byte)?;
        return Ok(());
    }
    if byte < 128 {
        text.extend_from_slice(b"\\u00")?;
    } else {
        text.extend_from_slice(b"\\udc")?;
    }
    push_hex_digits(text, byte)
}

fn push_json_bytes(text: &mut Vec<u8>, in_utf8: bool, bytes: &[u8]) -> Result<(), AllocError>
    ensures { IfOk result (λ _. text.new.items ≡ text.old.items ++ flat_map (json_byte in_utf8) bytes.now) }
{
    for byte in bytes {
        push_json_byte(text, in_utf8, *byte)?;
    }
    Ok(())
}

fn is_utf8(bytes: &[u8]) -> bool
    ensures { result ≡ is_utf8 bytes.now }
{
    match std::str::from_utf8(bytes) {
        Ok(_) => true,
        Err(_) => false,
    }
}

/// Appends the bytes as a JSON string, from which they can be had again: UTF-8 as it is but for quotes, backslashes and control
/// characters; of other bytes each beyond ASCII as the surrogate that Python's `surrogateescape` makes of it.
///
/// Allocates if `text` grows; returns `AllocError` if that fails.
pub fn push_json_string(text: &mut Vec<u8>, bytes: &[u8]) -> Result<(), AllocError>
    ensures { IfOk result (λ _. text.new.items ≡ text.old.items ++ json_string bytes.now) }
{
    text.push(b'"')?;
    push_json_bytes(text, is_utf8(bytes), bytes)?;
    text.push(b'"')?;
    Ok(())
}
