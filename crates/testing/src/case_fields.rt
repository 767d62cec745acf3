//! The fields of a line, with their escapes: `\n`, `\r`, `\t`, `\\`, `\e` for nothing, and `\u{a0}` for the character of that number.
use crate::run::CaseError;
use std::alloc::Global;

// The character of a leading `{a0}`, and the rest.
fn split_character(text: &str) -> Option<(char, &str)> {
    let (digits, rest) = text.strip_prefix('{')?.split_once('}')?;
    let number = u32::from_str_radix(digits, 16).ok()?;
    Some((char::from_u32(number)?, rest))
}

// Appends what an escape, without its backslash, stands for, and the rest.
fn push_escape(text: &mut String, escape: &str) -> Result<(), CaseError> {
    let Some((name, rest)) = escape.split_at_checked(1) else {
        return Err(CaseError::Unreadable);
    };
    let (character, rest) = match name {
        "e" => return Ok(text.push_str(rest)?),
        "n" => ('\n', rest),
        "r" => ('\r', rest),
        "t" => ('\t', rest),
        "u" => split_character(rest).ok_or(CaseError::Unreadable)?,
        _ => return Err(CaseError::Unreadable),
    };
    text.push(character)?;
    Ok(text.push_str(rest)?)
}

// The field with its escapes replaced.
fn unescape(alloc: Global, field: &str) -> Result<String, CaseError> {
    let mut text = String::new(alloc);
    // What precedes the first backslash is plain, and so is what follows two.
    let mut is_plain = true;
    for piece in field.split('\\') {
        if is_plain {
            text.push_str(piece)?;
            is_plain = false;
        } else if piece.is_empty() {
            text.push('\\')?;
            is_plain = true;
        } else {
            push_escape(&mut text, piece)?;
        }
    }
    if is_plain {
        return Err(CaseError::Unreadable);
    }
    Ok(text)
}

/// The fields of the line.
pub fn split_fields(alloc: Global, line: &str) -> Result<Vec<String>, CaseError> {
    let mut fields = Vec::new(alloc);
    for field in line.split('\t') {
        fields.push(unescape(alloc, field)?)?;
    }
    Ok(fields)
}
