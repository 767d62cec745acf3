//! Comparisons of markers in environments.
ghost use Rattle.std.specs.Prelude.{◌≡◌, ◌==◌, IfOk, bytes_eq, map, option_map};
ghost use Rattle.std.specs.List.{list_any};
ghost use Rattle.pep440_pick.specs.Names.{normal};
ghost use Rattle.pyver_markers.specs.MarkerComparisons.{compare, compare_left, compare_names, compare_right, compare_texts, is_name_variable, is_version_variable};
ghost use Rattle.pyver_markers.specs.Extents.{environment_of, setting_of};
ghost use Rattle.pyver_requirements.specs.MarkerViews.{side_of};

use crate::environment::{Setting, Variable, find_setting};
use crate::text::compare_strings;
use crate::version::compare_versions;
use pep440_pick::normalize_bytes;
use pyver_requirements::{MarkerOperator, Side};
use std::alloc::{AllocError, Global};

pub(crate) fn is_version_variable(name: &[u8]) -> bool
    ensures { result ≡ is_version_variable name.now }
{
    name == "python_version".as_bytes()
        || name == "python_full_version".as_bytes()
        || name == "implementation_version".as_bytes()
        || name == "platform_release".as_bytes()
}

fn is_name_variable(name: &[u8]) -> bool
    ensures { result ≡ is_name_variable name.now }
{
    name == "extra".as_bytes()
        || name == "extras".as_bytes()
        || name == "dependency_groups".as_bytes()
}

fn has_name(alloc: Global, names: &[&[u8]], name: &[u8]) -> Result<bool, AllocError>
    ensures { IfOk result (λ b. b ≡ list_any (λ n. bytes_eq (normal n) (normal name.now)) (map (λ n. n.now) names.now)) }
{
    let name = normalize_bytes(alloc, name)?;
    let mut rest = names;
    while let [other, later @ ..] = rest {
        if normalize_bytes(alloc, other)?.as_slice() == name.as_slice() {
            return Ok(true);
        }
        rest = later;
    }
    Ok(false)
}

fn compare_names(
    alloc: Global,
    left: &[u8],
    operator: MarkerOperator,
    names: &[&[u8]],
) -> Result<Option<bool>, AllocError>
    ensures { IfOk result (λ v. v ≡ compare_names left.now operator (map (λ n. n.now) names.now)) }
{
    match operator {
        MarkerOperator::In => Ok(Some(has_name(alloc, names, left)?)),
        MarkerOperator::NotIn => Ok(Some(!has_name(alloc, names, left)?)),
        MarkerOperator::NotEqual => Ok(Some(true)),
        MarkerOperator::Compatible | MarkerOperator::Arbitrary => Ok(None),
        MarkerOperator::Less
        | MarkerOperator::LessOrEqual
        | MarkerOperator::Equal
        | MarkerOperator::GreaterOrEqual
        | MarkerOperator::Greater => Ok(Some(false)),
    }
}

// Two strings, of which one is that of the variable.
pub(crate) fn compare_texts(
    alloc: Global,
    name: &[u8],
    left: &[u8],
    operator: MarkerOperator,
    right: &[u8],
) -> Result<Option<bool>, AllocError>
    ensures { IfOk result (λ v. v ≡ compare_texts name.now left.now operator right.now) }
{
    if is_version_variable(name) {
        compare_versions(alloc, left, operator, right)
    } else if is_name_variable(name) {
        let left = normalize_bytes(alloc, left)?;
        let right = normalize_bytes(alloc, right)?;
        Ok(compare_strings(left.as_slice(), operator, right.as_slice()))
    } else {
        Ok(compare_strings(left, operator, right))
    }
}

// The variable on the left.
fn compare_left(
    alloc: Global,
    name: &[u8],
    operator: MarkerOperator,
    right: &[u8],
    setting: Option<Setting<'_>>,
) -> Result<Option<bool>, AllocError>
    ensures { IfOk result (λ v. v ≡ compare_left name.now operator right.now (option_map setting_of setting.entry)) }
{
    match setting {
        None => Ok(None),
        Some(Setting::Names(_)) => Ok(None),
        Some(Setting::Text(left)) => compare_texts(alloc, name, left, operator, right),
    }
}

// The variable on the right.
fn compare_right(
    alloc: Global,
    left: &[u8],
    operator: MarkerOperator,
    name: &[u8],
    setting: Option<Setting<'_>>,
) -> Result<Option<bool>, AllocError>
    ensures { IfOk result (λ v. v ≡ compare_right left.now operator name.now (option_map setting_of setting.entry)) }
{
    match setting {
        None => Ok(None),
        Some(Setting::Names(names)) => compare_names(alloc, left, operator, names),
        Some(Setting::Text(right)) => compare_texts(alloc, name, left, operator, right),
    }
}

// What the comparison gives in the environment.
pub(crate) fn compare(
    alloc: Global,
    environment: &[Variable<'_>],
    left: Side<'_>,
    operator: MarkerOperator,
    right: Side<'_>,
) -> Result<Option<bool>, AllocError>
    ensures { IfOk result (λ v. v ≡ compare (environment_of environment.now) (side_of left.entry) operator (side_of right.entry)) }
{
    match (left, right) {
        (Side::Variable(name), Side::Constant(text) | Side::Variable(text)) => {
            compare_left(alloc, name, operator, text, find_setting(environment, name))
        }
        (Side::Constant(text), Side::Variable(name)) => {
            compare_right(alloc, text, operator, name, find_setting(environment, name))
        }
        _ => Ok(None),
    }
}
