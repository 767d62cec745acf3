//! The parsers of pre-, post- and dev releases.
ghost use Rattle.std.specs.Prelude.{◌≡◌, ℕ, List, Ok, IsOk, Option, drop, option_map, map, nat_lt, true};
ghost use Rattle.std.specs.List.{list_all};
ghost use Rattle.pep440_version.specs.declared.prerelease.Prerelease.{Prerelease};
ghost use Rattle.pep440_version.specs.declared.prerelease.PrereleaseKind.{PrereleaseKind};
ghost use Rattle.pep440_version.specs.Errors.{ReturnsOutcomeBy};
ghost use Rattle.pep440_version.specs.Grammar.{pre_spellings, post_spellings, dev_spellings};
ghost use Rattle.pep440_version.specs.Suffixes.{parse_spelled_post, spelled, parse_count, skip_separator, parse_pre, parse_post, parse_dev, is_implicit_post};

use super::number::{parse_number, starts_with_number};
use super::scan;
use crate::error::ErrorKind;
use crate::prerelease::{Prerelease, PrereleaseKind};
use std::alloc::Global;

// PEP 440, "Pre-release spelling".
const PRE_SPELLINGS: [(&str, PrereleaseKind); 8] = [
    ("alpha", PrereleaseKind::Alpha),
    ("a", PrereleaseKind::Alpha),
    ("beta", PrereleaseKind::Beta),
    ("b", PrereleaseKind::Beta),
    ("rc", PrereleaseKind::Rc),
    ("c", PrereleaseKind::Rc),
    ("preview", PrereleaseKind::Rc),
    ("pre", PrereleaseKind::Rc),
];

// PEP 440, "Post release spelling".
const POST_SPELLINGS: [(&str, ()); 3] = [("post", ()), ("rev", ()), ("r", ())];

// PEP 440, "Development release separators".
const DEV_SPELLINGS: [(&str, ()); 1] = [("dev", ())];

// The value of the first word of the table that the string begins with, and the rest.
fn parse_spelling<'a, A: Copy>(text: &'a str, table: &[(&str, A)]) -> Option<(A, &'a str)>
    requires { list_all (λ e. list_all (λ b. nat_lt b 128) e.0.now) table.now ≡ true }
    ensures { option_map {U = A × List ℕ} (λ x. (x.0, x.1.now)) result
        ≡ option_map {U = A × List ℕ} (λ x. (x.0, drop x.1 text.now))
        (spelled (map {B = List ℕ × A} (λ e. (e.0.now, e.1)) table.now) text.now) }
{
    for entry in table {
        if let Some(rest) = scan::strip_word(text, entry.0) {
            return Some((entry.1, rest));
        }
    }
    None
}

// The number after a spelling, and the rest.
fn parse_count(alloc: Global, text: &str) -> Result<(u64, &str), ErrorKind>
    ensures reads { ReturnsOutcomeBy (λ x. (x.0, x.1.now)) result (parse_count (skip_separator text.now)) }
    ensures memory { (x : ℕ × List ℕ) → parse_count (skip_separator text.now) ≡ Ok x → IsOk result }
{
    let rest = scan::skip_separator(text);
    if starts_with_number(rest) {
        parse_number(alloc, rest)
    } else {
        Ok((0, rest))
    }
}

pub(crate) fn parse_pre(alloc: Global, text: &str) -> Result<(Option<Prerelease>, &str), ErrorKind>
    ensures reads { ReturnsOutcomeBy (λ x. (x.0, x.1.now)) result (parse_pre text.now) }
    ensures memory { (x : Option Prerelease × List ℕ) → parse_pre text.now ≡ Ok x → IsOk result }
{
    match parse_spelling(scan::skip_separator(text), &PRE_SPELLINGS) {
        None => Ok((None, text)),
        Some((kind, after)) => {
            let (number, rest) = parse_count(alloc, after)?;
            Ok((Some(Prerelease { kind, number }), rest))
        }
    }
}

fn is_implicit_post(text: &str) -> bool
    ensures { result ≡ is_implicit_post text.now }
{
    scan::starts_with(text, b'-') && starts_with_number(scan::skip_ascii(text))
}

// A post-release with a spelling.
fn parse_spelled_post(alloc: Global, text: &str) -> Result<(Option<u64>, &str), ErrorKind>
    ensures reads { ReturnsOutcomeBy (λ x. (x.0, x.1.now)) result (parse_spelled_post text.now) }
    ensures memory { (x : Option ℕ × List ℕ) → parse_spelled_post text.now ≡ Ok x → IsOk result }
{
    match parse_spelling(scan::skip_separator(text), &POST_SPELLINGS) {
        None => Ok((None, text)),
        Some((_, after)) => {
            let (number, rest) = parse_count(alloc, after)?;
            Ok((Some(number), rest))
        }
    }
}

pub(crate) fn parse_post(alloc: Global, text: &str) -> Result<(Option<u64>, &str), ErrorKind>
    ensures reads { ReturnsOutcomeBy (λ x. (x.0, x.1.now)) result (parse_post text.now) }
    ensures memory { (x : Option ℕ × List ℕ) → parse_post text.now ≡ Ok x → IsOk result }
{
    if is_implicit_post(text) {
        let (number, rest) = parse_number(alloc, scan::skip_ascii(text))?;
        return Ok((Some(number), rest));
    }
    parse_spelled_post(alloc, text)
}

pub(crate) fn parse_dev(alloc: Global, text: &str) -> Result<(Option<u64>, &str), ErrorKind>
    ensures reads { ReturnsOutcomeBy (λ x. (x.0, x.1.now)) result (parse_dev text.now) }
    ensures memory { (x : Option ℕ × List ℕ) → parse_dev text.now ≡ Ok x → IsOk result }
{
    match parse_spelling(scan::skip_separator(text), &DEV_SPELLINGS) {
        None => Ok((None, text)),
        Some((_, after)) => {
            let (number, rest) = parse_count(alloc, after)?;
            Ok((Some(number), rest))
        }
    }
}
