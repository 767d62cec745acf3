//! The tokens of environment markers.
ghost use Rattle.std.specs.Prelude.{◌≡◌, ◌≤◌, ◌==◌, bytes_eq, codes, length, option_map};
ghost use Rattle.std.specs.List.{list_any, prefix_len};
ghost use Rattle.pep440_version.specs.Grammar.{starts};
ghost use Rattle.pep440_version.specs.Reading.{lead, past};
ghost use Rattle.pyver_requirements.specs.MarkerTokens.{behind_comparing, behind_side, behind_token, behind_word, comparison_by, comparison_with, comparing, comparison, constant, has_word, is_operator_byte, is_word_byte, modern_name, side, side_fault, symbol, token, variable, variables, marker_word, word_operator};
ghost use Rattle.pyver_requirements.specs.MarkerViews.{side_of, token_of};

use crate::line_kind::opens_with;
use crate::line_parts::{skip_blanks, split_at_first};
use crate::marker_fault::MarkerFault;
use crate::marker_operator::MarkerOperator;
use crate::option_value::is_quote;

const VARIABLES: [&str; 14] = [
    "python_version",
    "python_full_version",
    "os_name",
    "sys_platform",
    "platform_release",
    "platform_system",
    "platform_version",
    "platform_machine",
    "platform_python_implementation",
    "implementation_name",
    "implementation_version",
    "extra",
    "extras",
    "dependency_groups",
];

/// One side of a comparison.
#[derive(Clone, Copy)]
pub enum Side<'a> {
    /// A variable, by its modern name.
    Variable(&'a [u8]),
    /// A string, without its quotes.
    Constant(&'a [u8]),
    /// Neither, for this reason; of no step.
    Invalid(MarkerFault),
}

#[derive(Clone, Copy)]
pub(crate) enum Token<'a> {
    Open,
    Close,
    And,
    Or,
    Compares(Side<'a>, MarkerOperator, Side<'a>),
    // A comparison with this fault, and how many bytes there are from it on.
    Faulty(MarkerFault, usize),
}

fn is_word_byte(byte: u8) -> bool
    ensures { result ≡ is_word_byte byte }
{
    byte.is_ascii_alphanumeric() || byte == b'_' || byte == b'.'
}

fn count_word_bytes(text: &[u8]) -> usize
    ensures count { result ≡ prefix_len is_word_byte text.now }
    ensures inside { result ≤ length text.now }
{
    text.iter().take_while(|byte| is_word_byte(**byte)).count()
}

// The word that the text begins with.
fn scan_word(text: &[u8]) -> &[u8]
    ensures { result.now ≡ marker_word text.now }
{
    &text[..count_word_bytes(text)]
}

fn behind_word(text: &[u8]) -> &[u8]
    ensures { result.now ≡ behind_word text.now }
{
    &text[count_word_bytes(text)..]
}

fn has_word(text: &[u8], name: &str) -> bool
    ensures { result ≡ has_word text.now name.now }
{
    scan_word(text) == name.as_bytes()
}

fn is_text(bytes: &[u8], text: &str) -> bool
    ensures { result ≡ bytes_eq bytes.now text.now }
{
    bytes == text.as_bytes()
}

// The name that stands for an older one.
fn modern_name(name: &[u8]) -> &[u8]
    ensures { result.now ≡ modern_name name.now }
{
    if is_text(name, "os.name") {
        "os_name".as_bytes()
    } else if is_text(name, "sys.platform") {
        "sys_platform".as_bytes()
    } else if is_text(name, "platform.version") {
        "platform_version".as_bytes()
    } else if is_text(name, "platform.machine") {
        "platform_machine".as_bytes()
    } else if is_text(name, "platform.python_implementation") {
        "platform_python_implementation".as_bytes()
    } else if is_text(name, "python_implementation") {
        "platform_python_implementation".as_bytes()
    } else {
        name
    }
}

fn is_one_of(names: &[&str], name: &[u8]) -> bool
    ensures { result ≡ list_any (λ v. bytes_eq v.now name.now) names.now }
{
    names.iter().any(|other| other.as_bytes() == name)
}

fn is_variable(name: &[u8]) -> bool
    ensures { result ≡ list_any (λ v. bytes_eq v name.now) variables }
{
    is_one_of(&VARIABLES, name)
}

fn find_variable(name: &[u8]) -> Side<'_>
    ensures { side_of result ≡ variable name.now }
{
    let name = modern_name(name);
    if is_variable(name) {
        Side::Variable(name)
    } else {
        Side::Invalid(MarkerFault::MissingOperand)
    }
}

fn make_constant<'a>(inside: &'a [u8], behind: Option<&'a [u8]>) -> Side<'a>
    ensures { side_of result ≡ constant inside.now (option_map (λ x. x.now) behind.entry) }
{
    match behind {
        None => Side::Invalid(MarkerFault::UnclosedString),
        Some(_) if inside.contains(&b'\\') => Side::Invalid(MarkerFault::Backslash),
        Some(_) => Side::Constant(inside),
    }
}

// The side of a comparison that the text begins with.
fn scan_side(text: &[u8]) -> Side<'_>
    ensures { side_of result ≡ side text.now }
{
    let [first, rest @ ..] = text else {
        return Side::Invalid(MarkerFault::MissingOperand);
    };
    if is_quote(*first) {
        let (inside, behind) = split_at_first(rest, *first);
        make_constant(inside, behind)
    } else {
        find_variable(scan_word(text))
    }
}

// What follows it, without blanks.
fn behind_side(text: &[u8]) -> &[u8]
    ensures { result.now ≡ behind_side text.now }
{
    match text {
        [] => text,
        [quote, rest @ ..] if is_quote(*quote) => {
            skip_blanks(split_at_first(rest, *quote).1.unwrap_or(&[]))
        }
        _ => skip_blanks(behind_word(text)),
    }
}

fn is_operator_byte(byte: u8) -> bool
    ensures { result ≡ is_operator_byte byte }
{
    matches!(byte, b'<' | b'=' | b'>' | b'!' | b'~')
}

/// How many bytes of operators the text begins with: `<`, `=`, `>`, `!` and `~`.
///
/// Allocates nothing.
pub fn count_operator_bytes(text: &[u8]) -> usize
    ensures count { result ≡ prefix_len is_operator_byte text.now }
    ensures inside { result ≤ length text.now }
{
    text.iter()
        .take_while(|byte| is_operator_byte(**byte))
        .count()
}

/// Whether the text begins with a byte of operators.
///
/// Allocates nothing.
pub fn starts_with_operator(text: &[u8]) -> bool
    ensures { result ≡ starts is_operator_byte text.now }
{
    match text {
        [] => false,
        [first, ..] => is_operator_byte(*first),
    }
}

fn find_symbol(bytes: &[u8]) -> Option<MarkerOperator>
    ensures { result ≡ symbol bytes.now }
{
    if is_text(bytes, "<") {
        Some(MarkerOperator::Less)
    } else if is_text(bytes, "<=") {
        Some(MarkerOperator::LessOrEqual)
    } else if is_text(bytes, "!=") {
        Some(MarkerOperator::NotEqual)
    } else if is_text(bytes, "==") {
        Some(MarkerOperator::Equal)
    } else if is_text(bytes, ">=") {
        Some(MarkerOperator::GreaterOrEqual)
    } else if is_text(bytes, ">") {
        Some(MarkerOperator::Greater)
    } else if is_text(bytes, "~=") {
        Some(MarkerOperator::Compatible)
    } else if is_text(bytes, "===") {
        Some(MarkerOperator::Arbitrary)
    } else {
        None
    }
}

fn scan_word_operator(text: &[u8]) -> Option<MarkerOperator>
    ensures { result ≡ word_operator text.now }
{
    if has_word(text, "in") {
        Some(MarkerOperator::In)
    } else if has_word(text, "not") && has_word(skip_blanks(behind_word(text)), "in") {
        Some(MarkerOperator::NotIn)
    } else {
        None
    }
}

// The operator that the text begins with.
fn scan_operator(text: &[u8]) -> Option<MarkerOperator>
    ensures { result ≡ comparing text.now }
{
    if starts_with_operator(text) {
        find_symbol(&text[..count_operator_bytes(text)])
    } else {
        scan_word_operator(text)
    }
}

// What follows it, without blanks.
fn behind_operator(text: &[u8]) -> &[u8]
    ensures { result.now ≡ behind_comparing text.now }
{
    if starts_with_operator(text) {
        skip_blanks(&text[count_operator_bytes(text)..])
    } else if has_word(text, "not") {
        skip_blanks(behind_word(skip_blanks(behind_word(text))))
    } else {
        skip_blanks(behind_word(text))
    }
}

fn side_fault(side: Side<'_>) -> Option<MarkerFault>
    ensures { result ≡ side_fault (side_of side.entry) }
{
    match side {
        Side::Variable(_) => None,
        Side::Constant(_) => None,
        Side::Invalid(fault) => Some(fault),
    }
}

// The comparison of this side with the one that the text begins with.
fn compare_with<'a>(left: Side<'a>, operator: MarkerOperator, text: &'a [u8]) -> Token<'a>
    ensures { token_of result ≡ comparison_with (side_of left.entry) operator text.now }
{
    let right = scan_side(text);
    match side_fault(right) {
        Some(fault) => Token::Faulty(fault, text.len()),
        None => Token::Compares(left, operator, right),
    }
}

// The comparison of this side, from its operator on.
fn compare_by<'a>(left: Side<'a>, text: &'a [u8]) -> Token<'a>
    ensures { token_of result ≡ comparison_by (side_of left.entry) (comparing text.now) text.now }
{
    match scan_operator(text) {
        None => Token::Faulty(MarkerFault::MissingOperator, text.len()),
        Some(operator) => compare_with(left, operator, behind_operator(text)),
    }
}

// The comparison that the text begins with.
fn scan_comparison(text: &[u8]) -> Token<'_>
    ensures { token_of result ≡ comparison text.now }
{
    let left = scan_side(text);
    match side_fault(left) {
        Some(fault) => Token::Faulty(fault, text.len()),
        None => compare_by(left, behind_side(text)),
    }
}

// The token that the text begins with.
pub(crate) fn scan_token(text: &[u8]) -> Token<'_>
    ensures { token_of result ≡ token text.now }
{
    if opens_with(text, b'(') {
        Token::Open
    } else if opens_with(text, b')') {
        Token::Close
    } else if has_word(text, "and") {
        Token::And
    } else if has_word(text, "or") {
        Token::Or
    } else {
        scan_comparison(text)
    }
}

// What follows it.
pub(crate) fn behind_token(text: &[u8]) -> &[u8]
    ensures { result.now ≡ behind_token text.now }
{
    match text {
        [b'(' | b')', rest @ ..] => rest,
        _ if has_word(text, "and") || has_word(text, "or") => behind_word(text),
        _ => behind_side(behind_operator(behind_side(text))),
    }
}
