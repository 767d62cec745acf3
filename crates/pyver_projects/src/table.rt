//! Values in a table of a TOML document.
ghost use Rattle.std.specs.Prelude.{◌≡◌, option_map, option_and_then, map, ◌++◌, IfOk, option_to_list, string_bytes};
ghost use Rattle.toml.specs.Data.{get_member, as_array, as_table, as_str};
ghost use Rattle.toml.specs.View.{table_view, view, array_view};
ghost use Rattle.pyver_projects.specs.ProjectStrings.{inside, listed, text_in, texts_listed, is_array_or_none, is_table_or_none, is_text_or_none};

use std::alloc::{AllocError, Global};
use toml::value::Array;
use toml::{Table, Value};

/// The value at a key of the document.
///
/// Allocates nothing.
#[tactic(auto, using(toml::proofs::Views::table_get))]
pub fn top<'a>(document: &'a Table, key: &str) -> Option<&'a Value>
    ensures { option_map (λ v. view v.now) result ≡ get_member key.now (table_view document.now) }
{
    document.get(key)
}

/// The value at a key, if there is a table that has it.
///
/// Allocates nothing.
pub fn inside<'a>(value: Option<&'a Value>, key: &str) -> Option<&'a Value>
    ensures { option_map (λ v. view v.now) result ≡ inside key.now (option_map (λ v. view v.now) value.entry) }
{
    match value {
        Some(value) => value.get(key),
        None => None,
    }
}

fn array(value: Option<&Value>) -> Option<&Array>
    ensures { option_map (λ a. array_view a.now) result ≡ option_and_then as_array (option_map (λ v. view v.now) value.entry) }
{
    match value {
        Some(value) => value.as_array(),
        None => None,
    }
}

/// The items, if there is an array.
///
/// Allocates nothing.
#[tactic(auto, using(crate::proofs::Walks::items_list_of))]
pub fn items(value: Option<&Value>) -> &[Value]
    ensures { map view result.now ≡ listed (option_map (λ v. view v.now) value.entry) }
{
    match array(value) {
        Some(items) => items.as_slice(),
        None => &[],
    }
}

/// The table, if there is one.
///
/// Allocates nothing.
pub fn table(value: Option<&Value>) -> Option<&Table>
    ensures { option_map (λ t. table_view t.now) result ≡ option_and_then as_table (option_map (λ v. view v.now) value.entry) }
{
    match value {
        Some(value) => value.as_table(),
        None => None,
    }
}

/// The string, if there is one.
///
/// Allocates nothing.
pub fn text(value: Option<&Value>) -> Option<&str>
    ensures { option_map (λ t. t.now) result ≡ text_in (option_map (λ v. view v.now) value.entry) }
{
    match value {
        Some(value) => value.as_str(),
        None => None,
    }
}

// Adds the string, if it is one.
fn push_string(alloc: Global, strings: &mut Vec<String>, item: &Value) -> Result<(), AllocError>
    ensures { IfOk result (λ _. map string_bytes strings.new.items ≡ map string_bytes strings.old.items ++ option_to_list (as_str (view item.now))) }
{
    if let Some(text) = item.as_str() {
        strings.push(String::from_str(alloc, text)?)?;
    }
    Ok(())
}

/// The strings in the array, if there is one.
///
/// Allocates.
pub fn listed_strings(alloc: Global, value: Option<&Value>) -> Result<Vec<String>, AllocError>
    ensures { IfOk result (λ strings. map string_bytes strings.items ≡ texts_listed (option_map (λ v. view v.now) value.entry)) }
{
    let mut strings = Vec::new(alloc);
    for item in items(value) {
        push_string(alloc, &mut strings, item)?;
    }
    Ok(strings)
}

/// Whether the value is an array, if there is one.
///
/// Allocates nothing.
pub fn is_array_or_none(value: Option<&Value>) -> bool
    ensures { result ≡ is_array_or_none (option_map (λ v. view v.now) value.entry) }
{
    match value {
        Some(value) => value.as_array().is_some(),
        None => true,
    }
}

/// Whether the value is a table, if there is one.
///
/// Allocates nothing.
pub fn is_table_or_none(value: Option<&Value>) -> bool
    ensures { result ≡ is_table_or_none (option_map (λ v. view v.now) value.entry) }
{
    match value {
        Some(value) => value.as_table().is_some(),
        None => true,
    }
}

/// Whether the value is a string, if there is one.
///
/// Allocates nothing.
pub fn is_text_or_none(value: Option<&Value>) -> bool
    ensures { result ≡ is_text_or_none (option_map (λ v. view v.now) value.entry) }
{
    match value {
        Some(value) => value.as_str().is_some(),
        None => true,
    }
}
