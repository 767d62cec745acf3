//! What conditions compare a variable with, and what they ask of a string.
ghost use Rattle.std.specs.Prelude.{◌≡◌, IfOk, IfSome, map, option_map};
ghost use Rattle.std.specs.List.{list_all};
ghost use Rattle.pyver_markers.specs.Extents.{condition_of};
ghost use Rattle.pyver_markers.specs.Boxes.{is_met};
ghost use Rattle.pyver_markers.specs.Conditions.{IsOperand, asked_text, beside_variable, compare_operand, first_asked, is_met_at, lacks_text, operand_text, wants_equal};
ghost use Rattle.pyver_requirements.specs.MarkerViews.{side_of};

use crate::environment_box::Condition;
use crate::marker_comparison::compare_texts;
use pyver_requirements::{MarkerOperator, Side};
use std::alloc::{AllocError, Global};

// The string beside a variable.
#[derive(Clone, Copy)]
pub(crate) enum Operand<'a> {
    Right(&'a [u8]),
    Left(&'a [u8]),
}

// What the condition compares the variable of this name with.
pub(crate) fn find_operand<'a>(name: &[u8], condition: &Condition<'a>) -> Option<Operand<'a>>
    ensures found { IfSome result (IsOperand name.now (condition_of condition.now)) }
    ensures value { option_map operand_text result ≡ beside_variable name.now (side_of condition.now.left) (side_of condition.now.right) }
{
    match (condition.left, condition.right) {
        (Side::Variable(left), Side::Constant(text) | Side::Variable(text)) => {
            if left == name {
                Some(Operand::Right(text))
            } else {
                None
            }
        }
        (Side::Constant(text), Side::Variable(right)) => {
            if right == name {
                Some(Operand::Left(text))
            } else {
                None
            }
        }
        _ => None,
    }
}

// Whether strings are to be equal.
fn wants_equal(operator: MarkerOperator, wanted: bool) -> bool
    ensures { result ≡ wants_equal operator wanted }
{
    match operator {
        MarkerOperator::Equal | MarkerOperator::LessOrEqual | MarkerOperator::GreaterOrEqual => {
            wanted
        }
        MarkerOperator::NotEqual => !wanted,
        _ => false,
    }
}

// The string that the variable is to be equal to.
fn find_asked_text<'a>(name: &[u8], condition: &Condition<'a>) -> Option<&'a [u8]>
    ensures { option_map (λ text. text.now) result ≡ asked_text name.now (condition_of condition.now) }
{
    if !wants_equal(condition.operator, condition.wanted) {
        return None;
    }
    match find_operand(name, condition)? {
        Operand::Right(text) => Some(text),
        Operand::Left(text) => Some(text),
    }
}

// The first such string.
pub(crate) fn find_first_text<'a>(name: &[u8], conditions: &[Condition<'a>]) -> Option<&'a [u8]>
    ensures { option_map (λ text. text.now) result ≡ first_asked name.now (map condition_of conditions.now) }
{
    for condition in conditions {
        if let Some(text) = find_asked_text(name, condition) {
            return Some(text);
        }
    }
    None
}

// An undefined value is not wanted.
fn is_met(wanted: bool, value: Option<bool>) -> bool
    ensures { result ≡ is_met wanted value }
{
    match value {
        Some(value) => value == wanted,
        None => false,
    }
}

// What the comparison with the operand gives where the variable is this string.
fn compare_operand(
    alloc: Global,
    name: &[u8],
    text: &[u8],
    operator: MarkerOperator,
    operand: Operand<'_>,
) -> Result<Option<bool>, AllocError>
    ensures { IfOk result (λ v. v ≡ compare_operand name.now text.now operator operand.entry) }
{
    match operand {
        Operand::Right(right) => compare_texts(alloc, name, text, operator, right),
        Operand::Left(left) => compare_texts(alloc, name, left, operator, text),
    }
}

// Whether the condition is one of another variable, or is met where the variable is this string.
pub(crate) fn is_met_at(
    alloc: Global,
    name: &[u8],
    text: &[u8],
    condition: &Condition<'_>,
) -> Result<bool, AllocError>
    ensures { IfOk result (λ b. b ≡ is_met_at name.now text.now (condition_of condition.now)) }
{
    let Some(operand) = find_operand(name, condition) else {
        return Ok(true);
    };
    let value = compare_operand(alloc, name, text, condition.operator, operand)?;
    Ok(is_met(condition.wanted, value))
}

pub(crate) fn are_met_at(
    alloc: Global,
    name: &[u8],
    text: &[u8],
    conditions: &[Condition<'_>],
) -> Result<bool, AllocError>
    ensures { IfOk result (λ b. b ≡ list_all (is_met_at name.now text.now) (map condition_of conditions.now)) }
{
    for condition in conditions {
        if !is_met_at(alloc, name, text, condition)? {
            return Ok(false);
        }
    }
    Ok(true)
}

// Whether the variable is to be equal to a string that does not meet all conditions.
pub(crate) fn lacks_text(
    alloc: Global,
    name: &str,
    conditions: &[Condition<'_>],
) -> Result<bool, AllocError>
    ensures { IfOk result (λ b. b ≡ lacks_text name.now (map condition_of conditions.now)) }
{
    let name = name.as_bytes();
    match find_first_text(name, conditions) {
        Some(text) => Ok(!are_met_at(alloc, name, text, conditions)?),
        None => Ok(false),
    }
}
