//! The conditions of an entry of Poetry as a marker of PEP 508.
ghost use Rattle.std.specs.Prelude.{◌≡◌, ◌&&◌, codes, option_copied, ◌++◌, IfOk, string_bytes, ◌==◌, count_by, map};
ghost use Rattle.std.specs.List.{list_all, flat_map, slice_split};
ghost use Rattle.pep440_version.specs.Changes.ChangeWords.{after};
ghost use Rattle.pep440_version.specs.Grammar.{starts};
ghost use Rattle.pep440_version.specs.Reading.{lead, past};
ghost use Rattle.toml.specs.View.{view};
ghost use Rattle.pyver_projects.specs.ProjectStrings.{is_text_or_none};
ghost use Rattle.pyver_projects.specs.ProjectTables.{has_conditions, condition, entry_marker};
ghost use Rattle.pyver_projects.specs.RequirementStrings.{is_value_byte, past_blank, quoted_value, specifier_comparison, is_python_pair, python_variable, python_comparison, python_marker, platform_specifier, platform_comparison, platform_marker, both_markers};
ghost use Rattle.pyver_requirements.specs.MarkerTerms.{joined_terms};
ghost use Rattle.pyver_requirements.specs.MarkerTokens.{is_operator_byte};

use crate::requirement_strings::{plain_list, poetry_list, text_or_empty};
use crate::table::{is_text_or_none, text};
use pep440_pick::is_name_byte;
use pyver_requirements::{count_operator_bytes, starts_with_operator};
use std::alloc::{AllocError, Global};
use toml::Value;

// ---- comparisons

// A byte of a version, of `.*` or of the name of a platform.
fn is_value_byte(byte: u8) -> bool
    ensures { result ≡ is_value_byte byte }
{
    is_name_byte(byte) || byte == b'*'
}

fn are_value_bytes(text: &[u8]) -> bool
    ensures { result ≡ list_all is_value_byte text.now }
{
    text.iter().all(|byte| is_value_byte(*byte))
}

fn is_value(text: &str) -> bool
    ensures { result ≡ starts is_value_byte text.now && list_all is_value_byte text.now }
{
    !text.is_empty() && are_value_bytes(text.as_bytes())
}

fn strip_blank(text: &str) -> Option<&str>
    ensures { option_copied result ≡ after (codes " ") text.now }
{
    text.strip_prefix(" ")
}

// What follows the blank, if there is one.
fn past_blank(text: &str) -> &str
    ensures { result.now ≡ past_blank text.now }
{
    match strip_blank(text) {
        Some(rest) => rest,
        None => text,
    }
}

// The operator that the specifier begins with, and what follows it.
fn split_operator(specifier: &str) -> (&str, &str)
    ensures operator { result.0.now ≡ lead is_operator_byte specifier.now }
    ensures rest { result.1.now ≡ past is_operator_byte specifier.now }
{
    specifier.split_at(count_operator_bytes(specifier.as_bytes()))
}

// Adds the string in quotes, or what is no version and no platform as it is.
fn push_quoted(marker: &mut String, text: &str) -> Result<(), AllocError>
    ensures { IfOk result (λ _. string_bytes marker.new ≡ string_bytes marker.old ++ quoted_value text.now) }
{
    if !is_value(text) {
        return marker.push_str(text);
    }
    marker.push_str("\"")?;
    marker.push_str(text)?;
    marker.push_str("\"")
}

// Adds the variable, compared with what the operator of the specifier leads to.
fn push_comparison(marker: &mut String, variable: &str, specifier: &str) -> Result<(), AllocError>
    ensures { IfOk result (λ _. string_bytes marker.new ≡ string_bytes marker.old ++ specifier_comparison variable.now specifier.now) }
{
    let (operator, value) = split_operator(specifier);
    marker.push_str(variable)?;
    marker.push_str(" ")?;
    marker.push_str(operator)?;
    marker.push_str(" ")?;
    push_quoted(marker, past_blank(value))
}

// ---- Pythons

fn count_dots(text: &[u8]) -> usize
    ensures { result ≡ count_by (λ b. b == 46) text.now }
{
    text.iter().filter(|byte| **byte == b'.').count()
}

// The version is each Python that begins with its two numbers.
fn is_python_pair(specifier: &str) -> bool
    ensures { result ≡ is_python_pair specifier.now }
{
    specifier.starts_with("==")
        && count_dots(specifier.as_bytes()) < 2
        && !specifier.as_bytes().contains(&b'*')
}

fn python_variable(specifier: &str) -> &'static str
    ensures { result.now ≡ python_variable specifier.now }
{
    if is_python_pair(specifier) {
        "python_version"
    } else {
        "python_full_version"
    }
}

// Adds that the Python is one that the specifier contains.
fn push_python(marker: &mut String, specifier: &str) -> Result<(), AllocError>
    ensures { IfOk result (λ _. string_bytes marker.new ≡ string_bytes marker.old ++ python_comparison specifier.now) }
{
    let specifier = past_blank(specifier);
    push_comparison(marker, python_variable(specifier), specifier)
}

fn push_more_pythons(marker: &mut String, specifiers: &[&str]) -> Result<(), AllocError>
    ensures { IfOk result (λ _. string_bytes marker.new ≡ string_bytes marker.old ++ flat_map (λ s. codes " and " ++ s) (map python_comparison (map (λ s. s.now) specifiers.now))) }
{
    for specifier in specifiers {
        marker.push_str(" and ")?;
        push_python(marker, specifier)?;
    }
    Ok(())
}

fn push_pythons(marker: &mut String, specifiers: &[&str]) -> Result<(), AllocError>
    ensures { IfOk result (λ _. string_bytes marker.new ≡ string_bytes marker.old ++ joined_terms (codes " and ") (map python_comparison (map (λ s. s.now) specifiers.now))) }
{
    let [first, more @ ..] = specifiers else {
        return Ok(());
    };
    push_python(marker, first)?;
    push_more_pythons(marker, more)
}

fn split_at_commas<'a>(alloc: Global, list: &'a str) -> Result<Vec<&'a str>, AllocError>
    ensures { IfOk result (λ specifiers. map (λ s. s.now) specifiers.items ≡ slice_split (λ b. b == 44) list.now) }
{
    list.split(',').collect(alloc)
}

// That the Python is one that the list contains, if it excludes any.
fn python_marker(alloc: Global, list: &str) -> Result<String, AllocError>
    ensures { IfOk result (λ marker. string_bytes marker ≡ python_marker list.now) }
{
    let mut marker = String::new(alloc);
    if list.is_empty() {
        return Ok(marker);
    }
    let specifiers = split_at_commas(alloc, list)?;
    push_pythons(&mut marker, specifiers.as_slice())?;
    Ok(marker)
}

// ---- platforms

// A platform by itself is this one.
fn platform_specifier(alloc: Global, platform: &str) -> Result<String, AllocError>
    ensures { IfOk result (λ specifier. string_bytes specifier ≡ platform_specifier platform.now) }
{
    if starts_with_operator(platform.as_bytes()) {
        return String::from_str(alloc, platform);
    }
    let mut specifier = String::from_str(alloc, "==")?;
    specifier.push_str(platform)?;
    Ok(specifier)
}

fn platform_comparison(alloc: Global, platform: &str) -> Result<String, AllocError>
    ensures { IfOk result (λ marker. string_bytes marker ≡ platform_comparison platform.now) }
{
    let mut marker = String::new(alloc);
    if platform.is_empty() {
        return Ok(marker);
    }
    let specifier = platform_specifier(alloc, platform)?;
    push_comparison(&mut marker, "sys_platform", specifier.as_str())?;
    Ok(marker)
}

// That the platform is this one, if that is not `*`.
fn platform_marker(alloc: Global, platform: &str) -> Result<String, AllocError>
    ensures { IfOk result (λ marker. string_bytes marker ≡ platform_marker platform.now) }
{
    platform_comparison(alloc, plain_list(platform))
}

// ---- entries

// The conditions of a table, if it has some, are those that are read, and strings.
pub(crate) fn has_conditions(entry: &Value) -> bool
    ensures { result ≡ has_conditions (view entry.now) }
{
    is_text_or_none(entry.get("markers"))
        && is_text_or_none(entry.get("python"))
        && is_text_or_none(entry.get("platform"))
}

// Both markers hold, where none always does.
fn both_markers(alloc: Global, marker: &str, other: &str) -> Result<String, AllocError>
    ensures { IfOk result (λ both. string_bytes both ≡ both_markers marker.now other.now) }
{
    if marker.is_empty() {
        return String::from_str(alloc, other);
    }
    if other.is_empty() {
        return String::from_str(alloc, marker);
    }
    let mut both = String::from_str(alloc, "(")?;
    both.push_str(marker)?;
    both.push_str(") and (")?;
    both.push_str(other)?;
    both.push_str(")")?;
    Ok(both)
}

// The condition of a table, or none.
fn condition<'a>(entry: &'a Value, key: &str) -> &'a str
    ensures { result.now ≡ condition key.now (view entry.now) }
{
    text_or_empty(text(entry.get(key)))
}

// The conditions of an entry as one marker.
pub(crate) fn entry_marker(alloc: Global, entry: &Value) -> Result<String, AllocError>
    ensures { IfOk result (λ marker. string_bytes marker ≡ entry_marker (view entry.now)) }
{
    let pythons = poetry_list(alloc, condition(entry, "python"))?;
    let pythons = python_marker(alloc, pythons.as_str())?;
    let platform = platform_marker(alloc, condition(entry, "platform"))?;
    let installed = both_markers(alloc, pythons.as_str(), platform.as_str())?;
    both_markers(alloc, condition(entry, "markers"), installed.as_str())
}
