//! Boxes without environments.
ghost use Rattle.std.specs.Prelude.{◌≡◌, IfOk, false, map, true};
ghost use Rattle.pyver_markers.specs.Extents.{condition_of, domain_of};
ghost use Rattle.pyver_markers.specs.Environments.{Environment};
ghost use Rattle.pyver_markers.specs.Boxes.{in_boxes};
ghost use Rattle.pyver_markers.specs.Conditions.{HasNoEnvironment, IsEnvironment, lacks_any_text, lacks_platform_text};

use crate::environment::Domain;
use crate::environment_box::{Condition, EnvironmentBox};
use crate::python_condition::excludes_python;
use crate::system::excludes_systems;
use crate::text_condition::lacks_text;
use crate::version_condition::excludes_versions;
use std::alloc::{AllocError, Global};

// Whether a variable of the platform is to be equal to a string that does not meet all conditions.
fn lacks_platform_text(alloc: Global, conditions: &[Condition<'_>]) -> Result<bool, AllocError>
    ensures { IfOk result (λ b. b ≡ lacks_platform_text (map condition_of conditions.now)) }
{
    if lacks_text(alloc, "os_name", conditions)? {
        return Ok(true);
    }
    if lacks_text(alloc, "sys_platform", conditions)? {
        return Ok(true);
    }
    if lacks_text(alloc, "platform_system", conditions)? {
        return Ok(true);
    }
    if lacks_text(alloc, "platform_version", conditions)? {
        return Ok(true);
    }
    let last = lacks_text(alloc, "platform_machine", conditions)?;
    Ok(last)
}

// Whether a variable that is a string is to be equal to one that does not meet all conditions.
fn lacks_any_text(alloc: Global, conditions: &[Condition<'_>]) -> Result<bool, AllocError>
    ensures { IfOk result (λ b. b ≡ lacks_any_text (map condition_of conditions.now)) }
{
    if lacks_platform_text(alloc, conditions)? {
        return Ok(true);
    }
    if lacks_text(alloc, "platform_python_implementation", conditions)? {
        return Ok(true);
    }
    if lacks_text(alloc, "implementation_name", conditions)? {
        return Ok(true);
    }
    let last = lacks_text(alloc, "extra", conditions)?;
    Ok(last)
}

fn excludes_any_version(
    alloc: Global,
    conditions: &[Condition<'_>],
    domain: Domain<'_>,
) -> Result<bool, AllocError>
    ensures { IfOk result (λ b. b ≡ true → HasNoEnvironment (domain_of domain.entry) (map condition_of conditions.now)) }
{
    if excludes_python(alloc, conditions, domain.python)? {
        return Ok(true);
    }
    let last = excludes_versions(alloc, "implementation_version".as_bytes(), conditions)?;
    Ok(last)
}

fn excludes_any_system(
    alloc: Global,
    conditions: &[Condition<'_>],
    domain: Domain<'_>,
) -> Result<bool, AllocError>
    ensures { IfOk result (λ b. b ≡ true → HasNoEnvironment (domain_of domain.entry) (map condition_of conditions.now)) }
{
    if domain.linked {
        return excludes_systems(alloc, conditions);
    }
    Ok(false)
}

#[tactic(auto, using(crate::proofs::Texts::without_text))]
// Whether it is known that no environment is in the box.
pub(crate) fn excludes_all(
    alloc: Global,
    conditions: &[Condition<'_>],
    domain: Domain<'_>,
) -> Result<bool, AllocError>
    ensures { IfOk result (λ b. b ≡ true → HasNoEnvironment (domain_of domain.entry) (map condition_of conditions.now)) }
{
    if lacks_any_text(alloc, conditions)? {
        return Ok(true);
    }
    if excludes_any_version(alloc, conditions, domain)? {
        return Ok(true);
    }
    excludes_any_system(alloc, conditions, domain)
}

// Whether it is known that no environment is in any of the boxes.
pub(crate) fn are_empty(
    alloc: Global,
    boxes: &[EnvironmentBox<'_>],
    domain: Domain<'_>,
) -> Result<bool, AllocError>
    ensures { IfOk result (λ b. b ≡ true → (e : Environment) → IsEnvironment (domain_of domain.entry) e → in_boxes e boxes.now ≡ false) }
{
    let mut rest = boxes;
    while let [first, later @ ..] = rest {
        if !first.is_empty(alloc, domain)? {
            return Ok(false);
        }
        rest = later;
    }
    Ok(true)
}
