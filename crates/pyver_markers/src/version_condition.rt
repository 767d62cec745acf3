//! The versions of a variable that meet conditions.
ghost use Rattle.std.specs.Prelude.{◌≡◌, IfOk, IfSome, false, map, true};
ghost use Rattle.pep440_ranges.specs.RangeSegments.{contains};
ghost use Rattle.pep440_rs.specs.Denoted.{IsDenotable, IsDenoted};
ghost use Rattle.pep440_version.specs.Key.{record_cmp};
ghost use Rattle.pep440_version.specs.Record.{Record};
ghost use Rattle.pyver_markers.specs.Extents.{condition_of};
ghost use Rattle.pyver_markers.specs.Environments.{Environment};
ghost use Rattle.pyver_markers.specs.Boxes.{in_box};
ghost use Rattle.pyver_markers.specs.Conditions.{HasVersion, HoldsMatchesOf, HoldsMet, HoldsVersionsOf, Narrows};
ghost use Rattle.pyver_markers.specs.MarkerComparisons.{is_version_variable};

use crate::environment_box::Condition;
use crate::text_condition::{Operand, find_operand};
use crate::version::find_specifier;
use pep440_rs::VersionSpecifier;
use pep440_sets::{SetError, VersionSet};
use pyver_requirements::Side;
use std::alloc::{AllocError, Global};

// The versions that match the specifier, unless it is `===`.
pub(crate) fn specifier_set(
    alloc: Global,
    specifier: VersionSpecifier,
) -> Result<Option<VersionSet>, AllocError>
    requires { IsDenotable specifier }
    ensures { IfOk result (λ found. IfSome found (HoldsMatchesOf specifier)) }
{
    let mut list = Vec::new(alloc);
    list.push(specifier)?;
    match VersionSet::from_specifiers(alloc, list.as_slice()) {
        Ok(set) => Ok(Some(set)),
        Err(SetError::ArbitraryEquality) => Ok(None),
        Err(SetError::OutOfMemory) => Err(AllocError),
    }
}

// The versions that meet the condition, if it asks whether they match a specifier.
fn condition_set(
    alloc: Global,
    name: &[u8],
    condition: &Condition<'_>,
) -> Result<Option<VersionSet>, AllocError>
    requires { is_version_variable name.now ≡ true }
    ensures { IfOk result (λ found. IfSome found (HoldsMet name.now (condition_of condition.now))) }
{
    let Some(Operand::Right(right)) = find_operand(name, condition) else {
        return Ok(None);
    };
    let Some(specifier) = find_specifier(alloc, condition.operator, right)? else {
        return Ok(None);
    };
    let Some(set) = specifier_set(alloc, specifier)? else {
        return Ok(None);
    };
    if condition.wanted {
        return Ok(Some(set));
    }
    Ok(Some(set.complement(alloc)?))
}

// The versions of the set that meet the condition, or all where it does not ask whether they match a specifier.
fn narrow(
    alloc: Global,
    name: &[u8],
    condition: &Condition<'_>,
    set: VersionSet,
) -> Result<VersionSet, AllocError>
    requires { is_version_variable name.now ≡ true }
    ensures { IfOk result (Narrows name.now (condition_of condition.now) set) }
{
    match condition_set(alloc, name, condition)? {
        Some(met) => set.intersection(alloc, &met),
        None => Ok(set),
    }
}

fn all_versions(alloc: Global) -> Result<VersionSet, AllocError>
    ensures { IfOk result (λ set. (v : Record) → IsDenoted v → contains record_cmp set v ≡ true) }
{
    match VersionSet::from_specifiers(alloc, &[]) {
        Ok(set) => Ok(set),
        // the list has no `===`
        Err(SetError::ArbitraryEquality | SetError::OutOfMemory) => Err(AllocError),
    }
}

// The versions that the variable may be where all conditions are met, by halves: n conditions take n log n steps.
pub(crate) fn variable_set(
    alloc: Global,
    name: &[u8],
    conditions: &[Condition<'_>],
) -> Result<VersionSet, AllocError>
    requires { is_version_variable name.now ≡ true }
    ensures { IfOk result (HoldsVersionsOf name.now (map condition_of conditions.now)) }
{
    if conditions.len() > 1 {
        let (left, right) = conditions.split_at(conditions.len() / 2);
        let set = variable_set(alloc, name, left)?;
        return set.intersection(alloc, &variable_set(alloc, name, right)?);
    }
    let set = all_versions(alloc)?;
    match conditions.split_first() {
        Some((condition, _)) => narrow(alloc, name, condition, set),
        None => Ok(set),
    }
}

// Whether the variable cannot be a version where all conditions are met.
pub(crate) fn excludes_versions(
    alloc: Global,
    name: &[u8],
    conditions: &[Condition<'_>],
) -> Result<bool, AllocError>
    requires { is_version_variable name.now ≡ true }
    ensures { IfOk result (λ b. b ≡ true → (e : Environment) → HasVersion e name.now → in_box e (map condition_of conditions.now) ≡ false) }
{
    let set = variable_set(alloc, name, conditions)?;
    Ok(set.is_empty())
}
