//! The parts of a requirement, parsed.
ghost use Rattle.std.specs.Prelude.{◌≡◌, ◌-◌, ◌∷◌, ◌++◌, [], length, true, map, option_map, string_bytes, IfOk, IfErr, IfSome, Some};
ghost use Rattle.std.specs.List.{All, list_all};
ghost use Rattle.pep440_rs.specs.Agreement.{HasOperand};
ghost use Rattle.pep440_rs.specs.Lists.ListResults.{line_of, list_kind_of};
ghost use Rattle.pep440_rs.specs.Lists.ListErrors.{IsListLifted, list_rejection_of};
ghost use Rattle.pep440_rs.specs.Lists.ListErrorTexts.{list_text_of};
ghost use Rattle.pep440_rs.specs.Lists.ListGrammar.{DerivesList, pieces};
ghost use Rattle.pep440_pick.specs.Names.{is_name, is_name_byte};
ghost use Rattle.pep440_rs.specs.Blanks.{trim_blanks};
ghost use Rattle.pep440_pick.specs.RequirementGrammar.{Specifiers};
ghost use Rattle.pep440_pick.specs.RequirementReading.{behind_name, extras_at, in_parenthesis, list_in, list_position, listed_extras, prefix_after_name, read_prefix};
ghost use Rattle.pep440_pick.specs.Requirements.{ParsesPrefix, IsOfList, IsPositioned, IsRequirementLifted, requirement_rejection_of, requirement_rejection_text, requirement_text_of};
ghost use Rattle.pep440_pick.specs.declared.error.RequirementError.TheVariants.{OutOfMemory};

use crate::error::{RequirementError, RequirementParseError};
use crate::name::{has_name_ends, is_name};
use crate::scan::{
    are_blanks, has_byte, split_at_byte, split_name, strip_end, strip_start, trim_blanks,
};
use pep440_rs::{SpecifiersErrorKind, VersionSpecifiers, VersionSpecifiersParseError};
use std::alloc::{AllocError, Global};

// The parts of a requirement: the name, what stands in brackets, and the string of the list.
#[derive(Clone, Copy)]
pub(crate) struct SplitRequirement<'a> {
    pub(crate) name: &'a str,
    // Empty if there are no brackets.
    pub(crate) extras: &'a str,
    pub(crate) list: &'a str,
    // Of the list in the string, in bytes.
    pub(crate) list_position: usize,
}

// Whether names stand between the commas, but for blanks at their ends.
fn are_names(inside: &str) -> bool
    ensures { result ≡ list_all is_name (map trim_blanks (pieces inside.now)) }
{
    let mut rest = inside;
    while let Some((part, later)) = rest.split_once(',') {
        if !is_name(trim_blanks(part)) {
            return false;
        }
        rest = later;
    }
    is_name(trim_blanks(rest))
}

// Whether what stands in brackets are extras; blanks only are no extra.
fn are_extras(inside: &str) -> bool
    ensures { result ≡ list_all is_name (listed_extras inside.now) }
{
    are_blanks(inside) || are_names(inside)
}

fn push_extra(alloc: Global, extras: &mut Vec<String>, part: &str) -> Result<(), AllocError>
    ensures { IfOk result (λ _. map string_bytes extras.new.items ≡ map string_bytes extras.old.items ++ trim_blanks part.now ∷ []) }
{
    extras.push(String::from_str(alloc, trim_blanks(part))?)?;
    Ok(())
}

/// The extras in what stands between brackets: names between commas, without the blanks around them; none if there are only blanks (PEP 508,
/// "Extras"). That each is a name is not checked.
///
/// Allocates.
pub fn copy_extras(alloc: Global, inside: &str) -> Result<Vec<String>, AllocError>
    ensures { IfOk result (λ extras. map string_bytes extras.items ≡ listed_extras inside.now) }
{
    let mut extras = Vec::new(alloc);
    if are_blanks(inside) {
        return Ok(extras);
    }
    let mut rest = inside;
    while let Some((part, later)) = rest.split_once(',') {
        push_extra(alloc, &mut extras, part)?;
        rest = later;
    }
    push_extra(alloc, &mut extras, rest)?;
    Ok(extras)
}

// What stands in brackets at the start, if they open there, and the rest; none if they hold no extras or are not closed.
fn split_extras(text: &str) -> Option<(&str, &str)>
    ensures { option_map (λ x. (listed_extras x.0.now, x.1.now)) result ≡ extras_at text.now }
{
    let Some(open) = strip_start(text, '[') else {
        return Some(("", text));
    };
    let (inside, behind) = split_at_byte(open, ']')?;
    if are_extras(inside) {
        Some((inside, behind))
    } else {
        None
    }
}

// The string of the list, without parentheses around it; none if they are not closed.
fn strip_parentheses(text: &str) -> Option<&str>
    ensures { option_map (λ x. x.now) result ≡ list_in text.now }
{
    match strip_start(text, '(') {
        None => Some(text),
        Some(open) => Some(trim_blanks(strip_end(open, ')')?)),
    }
}

// What stands behind a parenthesis at the start, and blanks.
fn skip_parenthesis(text: &str) -> &str
    ensures { result.now ≡ in_parenthesis text.now }
{
    match strip_start(text, '(') {
        None => text,
        Some(open) => open.trim_ascii_start(),
    }
}

// The bytes of the string before its end.
fn count_bytes_before(end: &str, text: &str) -> usize
    ensures { result ≡ length text.now - length end.now }
{
    text.len().saturating_sub(end.len())
}

// The parts of the string, by its name and what follows the name after blanks.
fn parse_after_name<'a>(
    text: &'a str,
    name: &'a str,
    rest: &'a str,
) -> Result<SplitRequirement<'a>, RequirementParseError>
    requires name { list_all is_name_byte name.now ≡ true }
    requires rest { rest.now ≡ behind_name text.now }
    ensures value { ParsesPrefix result (prefix_after_name name.now rest.now) }
    ensures lifted { IfErr result (λ e. IsRequirementLifted e.kind) }
    ensures message { IfErr result (λ e. IfSome (requirement_rejection_of e.kind)
        (λ f. requirement_text_of e.kind ≡ Some (requirement_rejection_text f))) }
    ensures position { IfErr result (IsPositioned text.now) }
    ensures list { IfOk result (λ p. p.list_position ≡ list_position text.now) }
{
    if !has_name_ends(name.as_bytes()) {
        return Err(RequirementError::InvalidName.with_position(0));
    }
    let Some((extras, behind)) = split_extras(rest) else {
        return Err(RequirementError::InvalidExtras.with_position(count_bytes_before(rest, text)));
    };
    let list_part = behind.trim_ascii_start();
    match strip_parentheses(trim_blanks(behind)) {
        Some(list) => Ok(SplitRequirement {
            name,
            extras,
            list,
            list_position: count_bytes_before(skip_parenthesis(list_part), text),
        }),
        None => Err(RequirementError::Unclosed.with_position(count_bytes_before(list_part, text))),
    }
}

// The parts of the string.
pub(crate) fn parse_parts(text: &str) -> Result<SplitRequirement<'_>, RequirementParseError>
    ensures value { ParsesPrefix result (read_prefix text.now) }
    ensures lifted { IfErr result (λ e. IsRequirementLifted e.kind) }
    ensures message { IfErr result (λ e. IfSome (requirement_rejection_of e.kind)
        (λ f. requirement_text_of e.kind ≡ Some (requirement_rejection_text f))) }
    ensures position { IfErr result (IsPositioned text.now) }
    ensures list { IfOk result (λ p. p.list_position ≡ list_position text.now) }
{
    if has_byte(text, b';') {
        return Err(RequirementError::Marker.with_position(0));
    }
    if has_byte(text, b'@') {
        return Err(RequirementError::Url.with_position(0));
    }
    let (name, rest) = split_name(text.trim_ascii_start());
    parse_after_name(text, name, rest.trim_ascii_start())
}

// The error of a requirement whose list has this error.
fn from_list_error(error: VersionSpecifiersParseError) -> RequirementError
    requires { IsListLifted (list_kind_of error) }
    ensures refusal { requirement_rejection_of result
        ≡ option_map (λ f. Specifiers (line_of error) f) (list_rejection_of (list_kind_of error)) }
    ensures message { requirement_text_of result ≡ list_text_of (list_kind_of error) (line_of error) }
    ensures lifted { IsRequirementLifted result }
{
    if let SpecifiersErrorKind::OutOfMemory = error.kind() {
        return RequirementError::OutOfMemory;
    }
    RequirementError::Specifiers(error)
}

// The list of the parts.
pub(crate) fn parse_list(
    alloc: Global,
    parts: SplitRequirement<'_>,
) -> Result<VersionSpecifiers, RequirementParseError>
    ensures found { IfOk result (λ list. DerivesList parts.entry.list.now list) }
    ensures operand { IfOk result (λ list. All HasOperand list) }
    ensures refused { IfErr result (λ e. IfSome (requirement_rejection_of e.kind) (IsOfList parts.entry.list.now)) }
    ensures message { IfErr result (λ e. IfSome (requirement_rejection_of e.kind)
        (λ f. requirement_text_of e.kind ≡ Some (requirement_rejection_text f))) }
    ensures lifted { IfErr result (λ e. IsRequirementLifted e.kind) }
    ensures position { IfErr result (λ e. e.position ≡ parts.entry.list_position) }
{
    match VersionSpecifiers::from_str(alloc, parts.list) {
        Ok(list) => Ok(list),
        Err(error) => Err(from_list_error(error).with_position(parts.list_position)),
    }
}
