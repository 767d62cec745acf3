//! Strings of requirements: their names and extras, and Poetry's lists of specifiers.
ghost use Rattle.std.specs.Prelude.{◌≡◌, IfOk, option_map, string_bytes, ◌<◌, ◌++◌, codes, map, option_copied, nat_lt, ◌&&◌, []};
ghost use Rattle.std.specs.List.{flat_map, list_any};
ghost use Rattle.std.specs.Option.{option_or, unwrap_or};
ghost use Rattle.pep440_version.specs.Changes.ChangeWords.{after};
ghost use Rattle.pep440_version.specs.Grammar.{starts};
ghost use Rattle.toml.specs.View.{view};
ghost use Rattle.pyver_projects.specs.RequirementStrings.{extras_text, lacks, plain_list, is_counted, is_zero, cut_at, first_number, later_numbers, caret_numbers, tilde_numbers, from_comma, list_keeping, bare_list, tilde_list, poetry_list, requirement_text};

use pep440_pick::split_at_byte;
use std::alloc::{AllocError, Global};
use toml::Value;

/// A copy of the string, if there is one.
///
/// Allocates.
pub fn copy_text(alloc: Global, text: Option<&str>) -> Result<Option<String>, AllocError>
    ensures { IfOk result (λ copy. option_map string_bytes copy ≡ option_map (λ t. t.now) text.entry) }
{
    match text {
        Some(text) => Ok(Some(String::from_str(alloc, text)?)),
        None => Ok(None),
    }
}

/// The first string, or else the other.
///
/// Allocates nothing.
pub fn first_of<'a>(one: Option<&'a str>, other: Option<&'a str>) -> Option<&'a str>
    ensures { option_map (λ t. t.now) result ≡ option_or (option_map (λ t. t.now) one.entry) (option_map (λ t. t.now) other.entry) }
{
    match one {
        Some(text) => Some(text),
        None => other,
    }
}

// ---- extras

fn push_more_extras(text: &mut String, extras: &[String]) -> Result<(), AllocError>
    ensures { IfOk result (λ _. string_bytes text.new ≡ string_bytes text.old ++ flat_map (λ e. codes "," ++ e) (map string_bytes extras.now)) }
{
    for extra in extras {
        text.push_str(",")?;
        text.push_str(extra.as_str())?;
    }
    Ok(())
}

// Adds the extras, in brackets, if there are some.
fn push_extras_text(text: &mut String, extras: &[String]) -> Result<(), AllocError>
    ensures { IfOk result (λ _. string_bytes text.new ≡ string_bytes text.old ++ extras_text (map string_bytes extras.now)) }
{
    let [first, more @ ..] = extras else {
        return Ok(());
    };
    text.push_str("[")?;
    text.push_str(first.as_str())?;
    push_more_extras(text, more)?;
    text.push_str("]")
}

/// The name, and the extras in brackets with commas between them, if there are some (PEP 508, "Extras").
///
/// Allocates.
pub fn name_with_extras(alloc: Global, name: &str, extras: &[String]) -> Result<String, AllocError>
    ensures { IfOk result (λ text. string_bytes text ≡ name.now ++ extras_text (map string_bytes extras.now)) }
{
    let mut text = String::from_str(alloc, name)?;
    push_extras_text(&mut text, extras)?;
    Ok(text)
}

/// Whether the value has nothing at the key, as one that is no table.
///
/// Allocates nothing.
pub fn lacks(value: &Value, key: &str) -> bool
    ensures { result ≡ lacks key.now (view value.now) }
{
    value.get(key).is_none()
}

// ---- Poetry's lists of specifiers

// The list, where `*` excludes no version.
pub(crate) fn plain_list(list: &str) -> &str
    ensures { result.now ≡ plain_list list.now }
{
    if list == "*" { "" } else { list }
}

// A digit from 1 to 9.
fn is_counted(byte: u8) -> bool
    ensures { result ≡ is_counted byte }
{
    b'0' < byte && byte < b':'
}

fn has_counted(number: &[u8]) -> bool
    ensures { result ≡ list_any is_counted number.now }
{
    number.iter().any(|byte| is_counted(*byte))
}

// The number has no digit but 0.
fn is_zero(number: &str) -> bool
    ensures { result ≡ is_zero number.now }
{
    !has_counted(number.as_bytes())
}

/// The text before the first such character, which is to be ASCII, and what follows it; all and nothing without one.
///
/// Allocates nothing.
pub fn cut_at(text: &str, character: char) -> (&str, &str)
    requires { character < 128 }
    ensures { (result.0.now, result.1.now) ≡ cut_at character text.now }
{
    match split_at_byte(text, character) {
        Some(parts) => parts,
        None => (text, ""),
    }
}

fn push_first_number(kept: &mut String, version: &str) -> Result<(), AllocError>
    ensures { IfOk result (λ _. string_bytes kept.new ≡ string_bytes kept.old ++ first_number version.now) }
{
    let (number, _) = cut_at(version, '.');
    kept.push_str(number)
}

// Adds of these numbers those up to the first that is not 0, at most two.
fn push_later_numbers(kept: &mut String, version: &str) -> Result<(), AllocError>
    ensures { IfOk result (λ _. string_bytes kept.new ≡ string_bytes kept.old ++ later_numbers version.now) }
{
    let Some((number, rest)) = split_at_byte(version, '.') else {
        return kept.push_str(version);
    };
    kept.push_str(number)?;
    if !is_zero(number) {
        return Ok(());
    }
    kept.push_str(".")?;
    push_first_number(kept, rest)
}

// Adds the numbers that a caret keeps of a version: up to the first that is not 0, at most three.
fn push_caret_numbers(kept: &mut String, version: &str) -> Result<(), AllocError>
    ensures { IfOk result (λ _. string_bytes kept.new ≡ string_bytes kept.old ++ caret_numbers version.now) }
{
    let Some((number, rest)) = split_at_byte(version, '.') else {
        return kept.push_str(version);
    };
    kept.push_str(number)?;
    if !is_zero(number) {
        return Ok(());
    }
    kept.push_str(".")?;
    push_later_numbers(kept, rest)
}

// Adds those that a tilde keeps: the first two.
fn push_tilde_numbers(kept: &mut String, version: &str) -> Result<(), AllocError>
    ensures { IfOk result (λ _. string_bytes kept.new ≡ string_bytes kept.old ++ tilde_numbers version.now) }
{
    let Some((number, rest)) = split_at_byte(version, '.') else {
        return kept.push_str(version);
    };
    kept.push_str(number)?;
    kept.push_str(".")?;
    push_first_number(kept, rest)
}

// Adds the list from the first comma on.
fn push_from_comma(text: &mut String, list: &str) -> Result<(), AllocError>
    ensures { IfOk result (λ _. string_bytes text.new ≡ string_bytes text.old ++ from_comma list.now) }
{
    match split_at_byte(list, ',') {
        Some((_, others)) => {
            text.push_str(",")?;
            text.push_str(others)
        }
        None => Ok(()),
    }
}

// Adds the version that the list begins with, as the least one.
fn push_least(text: &mut String, version: &str) -> Result<(), AllocError>
    ensures { IfOk result (λ _. string_bytes text.new ≡ string_bytes text.old ++ (codes ">=" ++ (version.now ++ codes ",=="))) }
{
    text.push_str(">=")?;
    text.push_str(version)?;
    text.push_str(",==")
}

// Adds that what stands before is how versions begin, and what else the list asks.
fn push_rest(text: &mut String, list: &str) -> Result<(), AllocError>
    ensures { IfOk result (λ _. string_bytes text.new ≡ string_bytes text.old ++ (codes ".*" ++ from_comma list.now)) }
{
    text.push_str(".*")?;
    push_from_comma(text, list)
}

fn strip_caret(list: &str) -> Option<&str>
    ensures { option_copied result ≡ after (codes "^") list.now }
{
    list.strip_prefix("^")
}

fn strip_tilde(list: &str) -> Option<&str>
    ensures { option_copied result ≡ after (codes "~") list.now }
{
    list.strip_prefix("~")
}

// What follows a caret stands for these versions.
fn list_after_caret(alloc: Global, list: &str) -> Result<String, AllocError>
    ensures { IfOk result (λ text. string_bytes text ≡ list_keeping caret_numbers list.now) }
{
    let (version, _) = cut_at(list, ',');
    let mut text = String::new(alloc);
    push_least(&mut text, version)?;
    push_caret_numbers(&mut text, version)?;
    push_rest(&mut text, list)?;
    Ok(text)
}

// What follows a tilde stands for these versions.
fn list_after_tilde(alloc: Global, list: &str) -> Result<String, AllocError>
    ensures { IfOk result (λ text. string_bytes text ≡ list_keeping tilde_numbers list.now) }
{
    let (version, _) = cut_at(list, ',');
    let mut text = String::new(alloc);
    push_least(&mut text, version)?;
    push_tilde_numbers(&mut text, version)?;
    push_rest(&mut text, list)?;
    Ok(text)
}

fn begins_with_digit(list: &str) -> bool
    ensures { result ≡ starts (λ b. nat_lt 47 b && nat_lt b 58) list.now }
{
    matches!(list.as_bytes(), [b'0'..=b'9', ..])
}

// A version by itself is this one.
fn bare_list(alloc: Global, list: &str) -> Result<String, AllocError>
    ensures { IfOk result (λ text. string_bytes text ≡ bare_list list.now) }
{
    if !begins_with_digit(list) {
        return String::from_str(alloc, plain_list(list));
    }
    let mut text = String::from_str(alloc, "==")?;
    text.push_str(list)?;
    Ok(text)
}

// A list that does not begin with a caret.
fn tilde_list(alloc: Global, list: &str) -> Result<String, AllocError>
    ensures { IfOk result (λ text. string_bytes text ≡ tilde_list list.now) }
{
    if list.starts_with("~=") {
        return String::from_str(alloc, list);
    }
    match strip_tilde(list) {
        Some(rest) => list_after_tilde(alloc, rest),
        None => bare_list(alloc, list),
    }
}

/// The list of PEP 440 that a list of Poetry stands for ("Dependency specification" of Poetry): `^1.2` is `>=1.2,==1.*`, `~1.2.3` is
/// `>=1.2.3,==1.2.*`, `1.2` is `==1.2`, `*` is empty. Only its start is changed; other syntax stays, and is none.
///
/// Allocates.
pub fn poetry_list(alloc: Global, list: &str) -> Result<String, AllocError>
    ensures { IfOk result (λ text. string_bytes text ≡ poetry_list list.now) }
{
    match strip_caret(list) {
        Some(rest) => list_after_caret(alloc, rest),
        None => tilde_list(alloc, list),
    }
}

/// The name, and after a blank the list, unless that is empty.
///
/// Allocates.
pub fn requirement_text(alloc: Global, name: &str, list: &str) -> Result<String, AllocError>
    ensures { IfOk result (λ text. string_bytes text ≡ requirement_text name.now list.now) }
{
    let mut text = String::from_str(alloc, name)?;
    if !list.is_empty() {
        text.push_str(" ")?;
        text.push_str(list)?;
    }
    Ok(text)
}

/// The string, or an empty one.
///
/// Allocates nothing.
pub fn text_or_empty(text: Option<&str>) -> &str
    ensures { result.now ≡ unwrap_or (option_map (λ t. t.now) text.entry) [] }
{
    match text {
        Some(text) => text,
        None => "",
    }
}
