//! The versions of Python that meet conditions on their first two numbers, which `python_version` is.
ghost use Rattle.std.specs.Prelude.{◌≡◌, ◌∷◌, [], IfOk, IfSome, false, map, option_map, true};
ghost use Rattle.pep440_ranges.specs.RangeSegments.{contains};
ghost use Rattle.pep440_rs.specs.Denoted.{IsDenotable};
ghost use Rattle.pep440_sets.specs.Sets.{is_exact};
ghost use Rattle.pep440_version.specs.Key.{record_cmp};
ghost use Rattle.pep440_version.specs.Record.{Record};
ghost use Rattle.pyver_markers.specs.Extents.{condition_of};
ghost use Rattle.pyver_markers.specs.Environments.{Environment};
ghost use Rattle.pyver_markers.specs.Boxes.{in_box};
ghost use Rattle.pyver_markers.specs.Conditions.{HasAllowed, HasPython, IsAllowed, HoldsShortMatchesOf, HoldsShortMet, NarrowsByAllShort, NarrowsByShort, first_two, short_version};
ghost use Rattle.pyver_markers.specs.MarkerComparisons.{is_version_variable};

use crate::environment_box::Condition;
use crate::text_condition::{Operand, find_operand};
use crate::version::find_specifier;
use crate::version_condition::{specifier_set, variable_set};
use pep440_rs::{Operator, Version, VersionSpecifier};
use pep440_sets::VersionSet;
use std::alloc::{AllocError, Global};

// The first two numbers of a release; those that are not written are 0.
pub(crate) fn first_two(release: &[u64]) -> (u64, u64)
    ensures { result.0 ∷ result.1 ∷ [] ≡ first_two release.now }
{
    match release {
        [] => (0, 0),
        [major] => (*major, 0),
        [major, minor, ..] => (*major, *minor),
    }
}

// The version of the first two numbers.
fn shorten(alloc: Global, version: &Version) -> Result<Version, AllocError>
    ensures { IfOk result (λ v. v ≡ short_version version.now) }
{
    let (major, minor) = first_two(version.release());
    let short = Version::new(alloc, &[major, minor])?;
    short.with_epoch(alloc, version.epoch())
}

// Whether the specifier compares how versions are written.
fn is_exact(specifier: &VersionSpecifier) -> bool
    ensures { result ≡ is_exact specifier.now.operator }
{
    matches!(specifier.operator(), Operator::ExactEqual)
}

// The versions of which the first two numbers match the specifier, unless it is `===`. Versions that begin with its own two numbers match all or none; each
// other one matches as its first two numbers do.
fn short_set(alloc: Global, specifier: VersionSpecifier) -> Result<Option<VersionSet>, AllocError>
    requires { IsDenotable specifier }
    ensures { IfOk result (λ found. IfSome found (HoldsShortMatchesOf specifier)) }
{
    if is_exact(&specifier) {
        return Ok(None);
    }
    let short = shorten(alloc, specifier.version())?;
    let matches = specifier.matches_literally(alloc, &short)?;
    let star = VersionSpecifier::equals_star_version(short);
    let Some(own) = specifier_set(alloc, star)? else {
        return Ok(None);
    };
    let Some(set) = specifier_set(alloc, specifier)? else {
        return Ok(None);
    };
    if matches {
        return Ok(Some(set.union(alloc, &own)?));
    }
    Ok(Some(set.difference(alloc, &own)?))
}

// The versions of which the first two numbers meet the condition, if it asks whether they match a specifier.
fn short_condition_set(
    alloc: Global,
    name: &[u8],
    condition: &Condition<'_>,
) -> Result<Option<VersionSet>, AllocError>
    requires { is_version_variable name.now ≡ true }
    ensures { IfOk result (λ found. IfSome found (HoldsShortMet name.now (condition_of condition.now))) }
{
    let Some(Operand::Right(right)) = find_operand(name, condition) else {
        return Ok(None);
    };
    let Some(specifier) = find_specifier(alloc, condition.operator, right)? else {
        return Ok(None);
    };
    let Some(set) = short_set(alloc, specifier)? else {
        return Ok(None);
    };
    if condition.wanted {
        return Ok(Some(set));
    }
    Ok(Some(set.complement(alloc)?))
}

// The versions of the set of which the first two numbers meet the condition, or all where it does not ask whether they match a specifier.
fn narrow_by_short(
    alloc: Global,
    name: &[u8],
    condition: &Condition<'_>,
    set: VersionSet,
) -> Result<VersionSet, AllocError>
    requires { is_version_variable name.now ≡ true }
    ensures { IfOk result (NarrowsByShort name.now (condition_of condition.now) set) }
{
    match short_condition_set(alloc, name, condition)? {
        Some(met) => set.intersection(alloc, &met),
        None => Ok(set),
    }
}

// The versions of the set of which the first two numbers meet all conditions.
fn narrow_by_all_short(
    alloc: Global,
    name: &[u8],
    conditions: &[Condition<'_>],
    set: VersionSet,
) -> Result<VersionSet, AllocError>
    requires { is_version_variable name.now ≡ true }
    ensures { IfOk result (NarrowsByAllShort name.now (map condition_of conditions.now) set) }
{
    let mut narrowed = set;
    let mut rest = conditions;
    while let [condition, later @ ..] = rest {
        narrowed = narrow_by_short(alloc, name, condition, narrowed)?;
        rest = later;
    }
    Ok(narrowed)
}

// The versions of the set that are allowed.
fn narrow_to_set(
    alloc: Global,
    set: VersionSet,
    allowed: Option<&VersionSet>,
) -> Result<VersionSet, AllocError>
    ensures wide { IfOk result (λ both. (v : Record) → IsAllowed (option_map (λ s. s.now) allowed.entry) v → contains record_cmp set v ≡ true
        → contains record_cmp both v ≡ true) }
    ensures allowed { IfOk result (λ both. (v : Record) → contains record_cmp both v ≡ true → IsAllowed (option_map (λ s. s.now) allowed.entry) v) }
{
    match allowed {
        Some(allowed) => set.intersection(alloc, allowed),
        None => Ok(set),
    }
}

// Whether Python cannot have a version that is allowed where all conditions are met.
pub(crate) fn excludes_python(
    alloc: Global,
    conditions: &[Condition<'_>],
    allowed: Option<&VersionSet>,
) -> Result<bool, AllocError>
    ensures { IfOk result (λ b. b ≡ true → (e : Environment) → HasPython e → HasAllowed (option_map (λ s. s.now) allowed.entry) e
        → in_box e (map condition_of conditions.now) ≡ false) }
{
    let short = "python_version".as_bytes();
    let full = "python_full_version".as_bytes();
    let set = variable_set(alloc, full, conditions)?;
    let within = narrow_to_set(alloc, set, allowed)?;
    let narrowed = narrow_by_all_short(alloc, short, conditions, within)?;
    Ok(narrowed.is_empty())
}
