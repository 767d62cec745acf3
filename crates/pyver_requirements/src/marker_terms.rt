//! Environment markers in their normal form.
ghost use Rattle.std.specs.Prelude.{◌≡◌, ◌==◌, ◌++◌, ◌∷◌, [], IfOk, codes, length};
ghost use Rattle.std.specs.List.{flat_map, list_any};
ghost use Rattle.pyver_requirements.specs.MarkerTerms.{All, Any, as_written, both, comparison_text, either, exchanged, joined_terms, mirrored, marker_operator_text, quote_around, side_text, terms_text, under_and, under_or, union};
ghost use Rattle.pyver_requirements.specs.MarkerViews.{set_of, side_of, terms_of};

use crate::marker_operator::MarkerOperator;
use crate::marker_token::Side;
use std::alloc::{AllocError, Global};
use std::collections::BTreeSet;

// What `and` joins, or `or`, each as a string.
#[derive(Drop)]
pub(crate) enum Terms {
    All(BTreeSet<Vec<u8>>),
    Any(BTreeSet<Vec<u8>>),
}

fn quote_around(text: &[u8]) -> u8
    ensures { result ≡ quote_around text.now }
{
    if text.contains(&b'"') { b'\'' } else { b'"' }
}

fn push_quoted(text: &mut Vec<u8>, inside: &[u8]) -> Result<(), AllocError>
    ensures { IfOk result (λ _. text.new.items ≡ text.old.items
        ++ (quote_around inside.now ∷ (inside.now ++ quote_around inside.now ∷ []))) }
{
    let quote = quote_around(inside);
    text.push(quote)?;
    text.extend_from_slice(inside)?;
    text.push(quote)?;
    Ok(())
}

fn push_side(text: &mut Vec<u8>, side: Side<'_>) -> Result<(), AllocError>
    ensures { IfOk result (λ _. text.new.items ≡ text.old.items ++ side_text (side_of side.entry)) }
{
    match side {
        Side::Variable(name) => {
            text.extend_from_slice(name)?;
            Ok(())
        }
        Side::Constant(inside) => push_quoted(text, inside),
        Side::Invalid(_) => Ok(()),
    }
}

// The comparison as it stands.
fn write_comparison(
    alloc: Global,
    left: Side<'_>,
    operator: MarkerOperator,
    right: Side<'_>,
) -> Result<Vec<u8>, AllocError>
    ensures { IfOk result (λ text. text.items ≡ as_written (side_of left.entry) operator (side_of right.entry)) }
{
    let mut text = Vec::new(alloc);
    push_side(&mut text, left)?;
    text.extend_from_slice(b" ")?;
    text.extend_from_slice(operator.text().as_bytes())?;
    text.extend_from_slice(b" ")?;
    push_side(&mut text, right)?;
    Ok(text)
}

// The comparison with its sides exchanged, if the operator has a mirrored one.
fn exchange_sides(
    alloc: Global,
    left: Side<'_>,
    operator: MarkerOperator,
    right: Side<'_>,
) -> Result<Vec<u8>, AllocError>
    ensures { IfOk result (λ text. text.items ≡ exchanged (side_of left.entry) operator (side_of right.entry) (mirrored operator)) }
{
    match operator.mirror() {
        Some(mirrored) => write_comparison(alloc, right, mirrored, left),
        None => write_comparison(alloc, left, operator, right),
    }
}

// The comparison, with a string on its right side where the operator has a mirrored one.
pub(crate) fn normalize_comparison(
    alloc: Global,
    left: Side<'_>,
    operator: MarkerOperator,
    right: Side<'_>,
) -> Result<Vec<u8>, AllocError>
    ensures { IfOk result (λ text. text.items ≡ comparison_text (side_of left.entry) operator (side_of right.entry)) }
{
    match left {
        Side::Constant(_) => exchange_sides(alloc, left, operator, right),
        _ => write_comparison(alloc, left, operator, right),
    }
}

// Adds the terms to the first ones.
fn insert_all(terms: &mut BTreeSet<Vec<u8>>, more: BTreeSet<Vec<u8>>) -> Result<(), AllocError>
    ensures { IfOk result (λ _. set_of terms.new ≡ union (set_of terms.old) (set_of more)) }
{
    let mut more = more;
    while let Some(term) = more.pop_first() {
        terms.insert(term)?;
    }
    Ok(())
}

// The only term.
fn one_term(alloc: Global, term: Vec<u8>) -> Result<BTreeSet<Vec<u8>>, AllocError>
    ensures { IfOk result (λ terms. set_of terms ≡ term.items ∷ []) }
{
    let mut terms = BTreeSet::new(alloc);
    terms.insert(term)?;
    Ok(terms)
}

// The terms that are left, each behind the connective.
fn push_joined(
    text: &mut Vec<u8>,
    connective: &[u8],
    terms: BTreeSet<Vec<u8>>,
) -> Result<(), AllocError>
    ensures { IfOk result (λ _. text.new.items ≡ text.old.items ++ flat_map (λ u. connective.now ++ u) (set_of terms)) }
{
    let mut terms = terms;
    while let Some(term) = terms.pop_first() {
        text.extend_from_slice(connective)?;
        text.extend_from_slice(term.as_slice())?;
    }
    Ok(())
}

// The terms with the connective between them.
fn join_terms(
    alloc: Global,
    connective: &[u8],
    terms: BTreeSet<Vec<u8>>,
) -> Result<Vec<u8>, AllocError>
    ensures { IfOk result (λ text. text.items ≡ joined_terms connective.now (set_of terms)) }
{
    let mut terms = terms;
    let Some(first) = terms.pop_first() else {
        return Ok(Vec::new(alloc));
    };
    let mut text = first;
    push_joined(&mut text, connective, terms)?;
    Ok(text)
}

fn in_parentheses(alloc: Global, inside: &[u8]) -> Result<Vec<u8>, AllocError>
    ensures { IfOk result (λ text. text.items ≡ codes "(" ++ (inside.now ++ codes ")")) }
{
    let mut text = Vec::with_capacity(alloc, inside.len())?;
    text.extend_from_slice(b"(")?;
    text.extend_from_slice(inside)?;
    text.extend_from_slice(b")")?;
    Ok(text)
}

impl Terms {
    pub(crate) fn none(alloc: Global) -> Terms
        ensures { terms_of result ≡ All [] }
    {
        Terms::All(BTreeSet::new(alloc))
    }

    // The only one.
    pub(crate) fn one(alloc: Global, term: Vec<u8>) -> Result<Terms, AllocError>
        ensures { IfOk result (λ t. terms_of t ≡ All (term.items ∷ [])) }
    {
        Ok(Terms::All(one_term(alloc, term)?))
    }

    // The marker in its normal form.
    pub(crate) fn write(self, alloc: Global) -> Result<Vec<u8>, AllocError>
        ensures { IfOk result (λ text. text.items ≡ terms_text (terms_of self)) }
    {
        match self {
            Terms::All(terms) => join_terms(alloc, b" and ", terms),
            Terms::Any(terms) => join_terms(alloc, b" or ", terms),
        }
    }

    // As `and` joins it with others.
    fn under_and(self, alloc: Global) -> Result<BTreeSet<Vec<u8>>, AllocError>
        ensures { IfOk result (λ terms. set_of terms ≡ under_and (terms_of self)) }
    {
        match self {
            Terms::All(terms) => Ok(terms),
            Terms::Any(terms) => {
                let inside = join_terms(alloc, b" or ", terms)?;
                one_term(alloc, in_parentheses(alloc, inside.as_slice())?)
            }
        }
    }

    // As `or` joins it with others.
    fn under_or(self, alloc: Global) -> Result<BTreeSet<Vec<u8>>, AllocError>
        ensures { IfOk result (λ terms. set_of terms ≡ under_or (terms_of self)) }
    {
        match self {
            Terms::All(terms) => one_term(alloc, join_terms(alloc, b" and ", terms)?),
            Terms::Any(terms) => Ok(terms),
        }
    }

    // Both, by `and`.
    pub(crate) fn and(self, alloc: Global, operand: Terms) -> Result<Terms, AllocError>
        ensures { IfOk result (λ terms. terms_of terms ≡ both (terms_of self) (terms_of operand)) }
    {
        let mut terms = self.under_and(alloc)?;
        insert_all(&mut terms, operand.under_and(alloc)?)?;
        Ok(Terms::All(terms))
    }

    // Both, by `or`.
    pub(crate) fn or(self, alloc: Global, operand: Terms) -> Result<Terms, AllocError>
        ensures { IfOk result (λ terms. terms_of terms ≡ either (terms_of self) (terms_of operand)) }
    {
        let mut terms = self.under_or(alloc)?;
        insert_all(&mut terms, operand.under_or(alloc)?)?;
        Ok(Terms::Any(terms))
    }
}
