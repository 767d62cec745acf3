//! The lines of a document on which keys, strings and packages stand.
ghost use Rattle.std.specs.Prelude.{◌≡◌, ◌≤◌, length, option_map, IfOk, List, ℕ, ◌==◌, ◌||◌, ◌%◌, count_by, not, ◌++◌, map};
ghost use Rattle.std.specs.BTreeMap.{get_by};
ghost use Rattle.std.specs.Cmp.Lexicographic.{slice_cmp};
ghost use Rattle.std.specs.List.{filter, prefix_len};
ghost use Rattle.std.specs.Ordering.{nat_cmp};
ghost use Rattle.pyver_projects.specs.ProjectStrings.{is_string_quote, others, before_next, opened_string, line_after, number_or, HasQuotedLines, is_key_byte, key_path, line_at, after_blanks, header_name, line_key, table_path, table_after, key_on, line_keys, document_keys, first_key, HasPlaces, key_line, own_line, section_path, first_line, string_number, header_lines, key_line_of, section_of};

use crate::project::Section;
use std::alloc::{AllocError, Global};
use std::collections::BTreeMap;

/// A document, and of each string that stands in quotes in it the number of its first line.
#[derive(Drop)]
pub struct QuotedLines<'a> {
    pub text: &'a [u8],
    numbers: BTreeMap<&'a [u8], usize>,
}

/// A key of a line, or a table of which it is the header.
#[derive(Drop)]
pub struct KeyLine {
    // With a dot after each key.
    path: Vec<u8>,
    number: usize,
}

/// A document, and the numbers of the first lines of its strings and, by their paths, of its keys.
#[derive(Drop)]
pub struct Places<'a> {
    pub quoted: QuotedLines<'a>,
    keys: BTreeMap<&'a [u8], usize>,
}

fn is_string_quote(byte: u8) -> bool
    ensures { result ≡ is_string_quote byte }
{
    byte == b'"' || byte == b'\''
}

fn count_others(text: &[u8], quote: u8) -> usize
    ensures count { result ≡ others quote text.now }
    ensures inside { result ≤ length text.now }
{
    text.iter().take_while(|byte| **byte != quote).count()
}

// What stands before the next byte like this, if there is one.
fn before_next(text: &[u8], quote: u8) -> Option<&[u8]>
    ensures { option_map (λ s. s.now) result ≡ before_next quote text.now }
{
    let count = count_others(text, quote);
    if count < text.len() {
        Some(&text[..count])
    } else {
        None
    }
}

// The string between the quote that the text begins with and the next like it.
fn opened_string(text: &[u8]) -> Option<&[u8]>
    ensures { option_map (λ s. s.now) result ≡ opened_string text.now }
{
    match text {
        [byte, rest @ ..] if is_string_quote(*byte) => before_next(rest, *byte),
        _ => None,
    }
}

/// The number, from 1, of the line on which what follows these bytes stands.
///
/// Allocates nothing.
pub fn line_after(before: &[u8]) -> usize
    ensures { result ≡ line_after before.now }
{
    before.iter().filter(|byte| **byte == b'\n').count() + 1
}

// Puts the string on the line with this number.
fn put_string<'a>(
    numbers: &mut BTreeMap<&'a [u8], usize>,
    string: Option<&'a [u8]>,
    number: usize,
) -> Result<(), AllocError>
    ensures { IfOk result (λ _. (q : List ℕ) → get_by (λ k. slice_cmp nat_cmp q k.now) numbers.new ≡ number_or q number (option_map (λ s. s.now) string.entry) (get_by (λ k. slice_cmp nat_cmp q k.now) numbers.old)) }
{
    if let Some(string) = string {
        numbers.insert(string, number)?;
    }
    Ok(())
}

// The lines of the strings of a document, in one pass from its end, so that the first line of a string stays.
fn read_quoted_lines(alloc: Global, text: &[u8]) -> Result<QuotedLines<'_>, AllocError>
    ensures text { IfOk result (λ lines. lines.text.now ≡ text.now) }
    ensures lines { IfOk result HasQuotedLines }
{
    let mut numbers = BTreeMap::new(alloc);
    let mut number = line_after(text);
    for at in (0..text.len()).rev() {
        if text[at] == b'\n' {
            number -= 1;
        }
        put_string(&mut numbers, opened_string(&text[at..]), number)?;
    }
    Ok(QuotedLines { text, numbers })
}

// ---- keys

fn is_key_byte(byte: u8) -> bool
    ensures { result ≡ is_key_byte byte }
{
    !(byte == b' ' || byte == b'\t' || byte == b'[' || is_string_quote(byte))
}

// What counts in a key.
fn key_bytes(alloc: Global, key: &[u8]) -> Result<Vec<u8>, AllocError>
    ensures { IfOk result (λ bytes. bytes.items ≡ filter is_key_byte key.now) }
{
    key.iter()
        .copied()
        .filter(|byte| is_key_byte(*byte))
        .collect(alloc)
}

/// The path of the table, then the key without blanks, quotes and `[`, then a dot.
///
/// Allocates.
pub fn key_path(alloc: Global, table: &[u8], key: &[u8]) -> Result<Vec<u8>, AllocError>
    ensures { IfOk result (λ path. path.items ≡ key_path table.now key.now) }
{
    let mut path = Vec::from_slice(alloc, table)?;
    path.append(&mut key_bytes(alloc, key)?)?;
    path.push(b'.')?;
    Ok(path)
}

/// What the text begins with, up to a newline.
///
/// Allocates nothing.
pub fn line_at(text: &[u8]) -> &[u8]
    ensures { result.now ≡ line_at text.now }
{
    &text[..count_others(text, b'\n')]
}

fn count_blanks(line: &[u8]) -> usize
    ensures count { result ≡ prefix_len (λ b. b == 32 || b == 9) line.now }
    ensures inside { result ≤ length line.now }
{
    line.iter()
        .take_while(|byte| **byte == b' ' || **byte == b'\t')
        .count()
}

fn after_blanks(line: &[u8]) -> &[u8]
    ensures { result.now ≡ after_blanks line.now }
{
    &line[count_blanks(line)..]
}

// The name of a table, if the line is its header.
fn header_name(line: &[u8]) -> Option<&[u8]>
    ensures { option_map (λ n. n.now) result ≡ header_name line.now }
{
    if after_blanks(line).starts_with(b"[") {
        before_next(line, b']')
    } else {
        None
    }
}

fn is_open(key: &[u8]) -> bool
    ensures { result ≡ not (count_by is_string_quote key.now % 2 == 0) }
{
    key.iter().filter(|byte| is_string_quote(**byte)).count() % 2 != 0
}

// What the line has before `=`, unless that stands in quotes.
fn line_key(line: &[u8]) -> Option<&[u8]>
    ensures { option_map (λ k. k.now) result ≡ line_key line.now }
{
    match before_next(line, b'=') {
        Some(key) if !is_open(key) => Some(key),
        _ => None,
    }
}

// The path of the table with this name; of a long name a dot, since it is kept before each key.
fn table_path(alloc: Global, name: &[u8]) -> Result<Vec<u8>, AllocError>
    ensures { IfOk result (λ path. path.items ≡ table_path name.now) }
{
    let path = key_path(alloc, b"", name)?;
    if path.len() < 256 {
        return Ok(path);
    }
    Vec::from_slice(alloc, b".")
}

// The table that the lines after one with this header stand in.
fn table_after(alloc: Global, table: Vec<u8>, name: Option<&[u8]>) -> Result<Vec<u8>, AllocError>
    ensures { IfOk result (λ after. after.items ≡ table_after table.items (option_map (λ n. n.now) name.entry)) }
{
    match name {
        Some(name) => table_path(alloc, name),
        None => Ok(table),
    }
}

fn push_key(
    alloc: Global,
    keys: &mut Vec<KeyLine>,
    number: usize,
    table: &[u8],
    key: Option<&[u8]>,
) -> Result<(), AllocError>
    ensures { IfOk result (λ _. map key_line_of keys.new.items ≡ map key_line_of keys.old.items ++ key_on number table.now (option_map (λ k. k.now) key.entry)) }
{
    if let Some(key) = key {
        let path = key_path(alloc, table, key)?;
        keys.push(KeyLine { path, number })?;
    }
    Ok(())
}

// Adds the key that the line has, or the table of which it is the header.
fn push_line_keys(
    alloc: Global,
    keys: &mut Vec<KeyLine>,
    number: usize,
    table: &[u8],
    line: &[u8],
    name: Option<&[u8]>,
) -> Result<(), AllocError>
    ensures { IfOk result (λ _. map key_line_of keys.new.items ≡ map key_line_of keys.old.items ++ line_keys number table.now line.now (option_map (λ n. n.now) name.entry)) }
{
    match name {
        Some(name) => push_key(alloc, keys, number, b"", Some(name)),
        None => push_key(alloc, keys, number, table, line_key(line)),
    }
}

// Adds the keys of the line that starts here in the table, and returns that of the next line.
fn read_line(
    alloc: Global,
    keys: &mut Vec<KeyLine>,
    number: usize,
    table: Vec<u8>,
    line: &[u8],
) -> Result<Vec<u8>, AllocError>
    ensures keys { IfOk result (λ _. map key_line_of keys.new.items ≡ map key_line_of keys.old.items ++ line_keys number table.items line.now (header_name line.now)) }
    ensures table { IfOk result (λ after. after.items ≡ table_after table.items (header_name line.now)) }
{
    let name = header_name(line);
    push_line_keys(alloc, keys, number, table.as_slice(), line, name)?;
    table_after(alloc, table, name)
}

/// The keys of the lines of a document.
///
/// Allocates.
pub fn document_keys(alloc: Global, text: &[u8]) -> Result<Vec<KeyLine>, AllocError>
    ensures { IfOk result (λ keys. map key_line_of keys.items ≡ document_keys text.now) }
{
    let mut keys = Vec::new(alloc);
    let mut table = Vec::new(alloc);
    let mut starts = true;
    let mut number: usize = 1;
    for (at, byte) in text.iter().enumerate() {
        if starts {
            table = read_line(alloc, &mut keys, number, table, line_at(&text[at..]))?;
        }
        starts = *byte == b'\n';
        if starts {
            number += 1;
        }
    }
    Ok(keys)
}

/// The number of the first line of each key.
///
/// Allocates.
pub fn number_keys(alloc: Global, keys: &[KeyLine]) -> Result<BTreeMap<&[u8], usize>, AllocError>
    ensures { IfOk result (λ numbers. (path : List ℕ) → get_by (λ k. slice_cmp nat_cmp path k.now) numbers ≡ first_key path (map key_line_of keys.now)) }
{
    let mut numbers = BTreeMap::new(alloc);
    for at in (0..keys.len()).rev() {
        put_string(
            &mut numbers,
            Some(keys[at].path.as_slice()),
            keys[at].number,
        )?;
    }
    Ok(numbers)
}

/// The lines of the strings in the document with these keys, and of the keys.
///
/// Allocates.
pub fn read_places<'a>(
    alloc: Global,
    text: &'a [u8],
    keys: &'a [KeyLine],
) -> Result<Places<'a>, AllocError>
    requires { map key_line_of keys.now ≡ document_keys text.now }
    ensures text { IfOk result (λ places. places.quoted.text.now ≡ text.now) }
    ensures places { IfOk result HasPlaces }
{
    let quoted = read_quoted_lines(alloc, text)?;
    let keys = number_keys(alloc, keys)?;
    Ok(Places { quoted, keys })
}

// The number of the line of the key with this path.
fn key_line(places: &Places, path: &[u8]) -> Option<usize>
    requires { HasPlaces places.now }
    ensures { result ≡ key_line places.now.quoted.text.now path.now }
{
    places.keys.get(path).copied()
}

// The number of the line of a key that is invalid, or that asks for a package.
fn own_line(
    alloc: Global,
    places: &Places,
    section: &Section,
    string: &[u8],
) -> Result<Option<usize>, AllocError>
    requires { HasPlaces places.now }
    ensures { IfOk result (λ number. number ≡ own_line places.now.quoted.text.now (section_of section.now) string.now) }
{
    match section {
        Section::Invalid(table, _) => {
            let path = key_path(alloc, table.as_slice(), string)?;
            Ok(key_line(places, path.as_slice()))
        }
        Section::Entry(table, name) => {
            let path = key_path(alloc, table.as_slice(), name.as_slice())?;
            Ok(key_line(places, path.as_slice()))
        }
        _ => Ok(None),
    }
}

// The path of what the strings of a section stand in.
fn section_path(section: &Section) -> &[u8]
    ensures { result.now ≡ section_path (section_of section.now) }
{
    match section {
        Section::Dependencies => b"project.dependencies.",
        Section::Extra(_) => b"project.optional-dependencies.",
        Section::Group(_) => b"dependency-groups.",
        Section::Include(_, _) => b"dependency-groups.",
        Section::OwnExtras(_, _) => b"project.optional-dependencies.",
        Section::Invalid(table, _) => table.as_slice(),
        Section::Entry(table, _) => table.as_slice(),
        Section::Constraint => b"tool.uv.",
        Section::Unread(_) => b"",
        Section::Build => b"build-system.requires.",
        Section::Python => b"project.requires-python.",
        Section::Version => b"project.version.",
    }
}

fn quoted_line(places: &Places, string: &[u8]) -> Option<usize>
    requires { HasPlaces places.now }
    ensures { result ≡ first_line places.now.quoted.text.now string.now }
{
    places.quoted.numbers.get(string).copied()
}

/// The number of the line of a string: a key has its own, another string the first on which it opens, or the line of what it stands in; 1
/// without one.
///
/// Allocates.
pub fn string_number(
    alloc: Global,
    places: &Places,
    section: &Section,
    string: &[u8],
) -> Result<u64, AllocError>
    requires { HasPlaces places.now }
    ensures { IfOk result (λ number. number ≡ string_number places.now.quoted.text.now (section_of section.now) string.now) }
{
    let own = own_line(alloc, places, section, string)?;
    let found = own
        .or(quoted_line(places, string))
        .or(key_line(places, section_path(section)));
    match found {
        Some(number) => Ok(number as u64),
        None => Ok(1),
    }
}

/// The numbers of the lines that begin with the header.
///
/// Allocates.
pub fn header_lines(alloc: Global, header: &[u8], text: &[u8]) -> Result<Vec<u64>, AllocError>
    ensures { IfOk result (λ lines. lines.items ≡ header_lines header.now text.now) }
{
    let mut lines = Vec::new(alloc);
    let mut starts = true;
    let mut number: usize = 1;
    for (at, byte) in text.iter().enumerate() {
        if starts && text[at..].starts_with(header) {
            lines.push(number as u64)?;
        }
        starts = *byte == b'\n';
        if starts {
            number += 1;
        }
    }
    Ok(lines)
}
