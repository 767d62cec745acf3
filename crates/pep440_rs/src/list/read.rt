//! The parser of lists, piece by piece.
ghost use Rattle.std.specs.Prelude.{◌<◌, ◌+◌, ◌^◌, ◌≡◌, ◌++◌, ◌∷◌, [], length, Ok, IfOk, Err, IfErr, IsCharBoundary};
ghost use Rattle.std.specs.Option.{option_map_or};
ghost use Rattle.pep440_rs.specs.Lists.ListErrors.{IsListLifted, IsSpan, ParsesMembers, ParsesPiece};
ghost use Rattle.pep440_rs.specs.Lists.ListGrammar.{pieces};
ghost use Rattle.pep440_rs.specs.Lists.ListReading.{read_members};
ghost use Rattle.pep440_rs.specs.Specifiers.SpecifierReading.{read_specifier};
ghost use Rattle.pep440_rs.specs.Specifiers.{Spec};

use crate::list::error::SpecifiersErrorKind;
use crate::specifier::VersionSpecifier;
use crate::specifier::error::{ParseErrorKind, VersionSpecifierParseError};
use crate::specifier::read::parse_specifier;
use std::alloc::Global;

// What a piece of a list that begins at this byte parses to.
#[inline(always)]
fn parse_piece(
    alloc: Global,
    start: usize,
    piece: &str,
) -> Result<VersionSpecifier, SpecifiersErrorKind>
    requires { start + length piece.now < 2 ^ 64 }
    ensures value { ParsesPiece start piece.now result (read_specifier piece.now) }
    ensures lifted { IfErr result IsListLifted }
{
    match parse_specifier(alloc, piece) {
        Ok(specifier) => Ok(specifier),
        Err(ParseErrorKind::OutOfMemory) => Err(SpecifiersErrorKind::OutOfMemory),
        Err(kind) => Err(SpecifiersErrorKind::Piece {
            error: VersionSpecifierParseError::from(kind),
            start,
            stop: start + piece.len(),
        }),
    }
}

// Adds the member that a piece that begins at this byte parses to.
#[inline(always)]
fn add_piece(
    alloc: Global,
    members: &mut Vec<VersionSpecifier>,
    start: usize,
    text: &str,
) -> Result<(), SpecifiersErrorKind>
    requires { start + length text.now < 2 ^ 64 }
    ensures added { IfOk result (λ _. (s : Spec) × (read_specifier text.now ≡ Ok s) × (members.new.items ≡ members.old.items ++ s ∷ [])) }
    ensures refused { IfErr result (λ kind. ParsesPiece start text.now (Err kind) (read_specifier text.now)) }
    ensures lifted { IfErr result IsListLifted }
{
    let member = parse_piece(alloc, start, text)?;
    members.push(member)?;
    Ok(())
}

// The first piece, and what follows the comma after it if there is one.
#[inline(always)]
fn split_piece(text: &str) -> (&str, Option<&str>)
    ensures pieces { pieces text.now ≡ result.0.now ∷ option_map_or (λ later. pieces later.now) result.1 [] }
    ensures whole { text.now ≡ result.0.now ++ option_map_or (λ later. 44 ∷ later.now) result.1 [] }
    ensures boundary { IsCharBoundary text.now (length result.0.now) }
{
    let bytes = text.as_bytes();
    for (at, byte) in bytes.iter().enumerate() {
        if *byte == b',' {
            return (&text[..at], Some(&text[at + 1..]));
        }
    }
    (text, None)
}

// The members of a list, in the order of the string.
pub(crate) fn parse_members(
    alloc: Global,
    text: &str,
) -> Result<Vec<VersionSpecifier>, SpecifiersErrorKind>
    ensures value { ParsesMembers (λ v. v.items) result (read_members text.now) }
    ensures lifted { IfErr result IsListLifted }
    ensures span { IfErr result (IsSpan text.now) }
{
    let mut members = Vec::new(alloc);
    if text.is_empty() {
        return Ok(members);
    }
    let mut rest = text;
    loop {
        let (piece, later) = split_piece(rest);
        add_piece(alloc, &mut members, text.len() - rest.len(), piece)?;
        match later {
            Some(later) => rest = later,
            None => return Ok(members),
        }
    }
}
