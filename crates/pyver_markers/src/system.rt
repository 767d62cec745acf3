//! Systems: what `os_name`, `sys_platform` and `platform_system` are together.
ghost use Rattle.std.specs.Prelude.{◌≡◌, IfOk, Some, false, map, true};
ghost use Rattle.pyver_markers.specs.Boxes.{in_box};
ghost use Rattle.pyver_markers.specs.Conditions.{LacksOthers, LacksSystem, first_asked};
ghost use Rattle.pyver_markers.specs.Environments.{Environment, HasSystem, Text, has_known_name, is_known_system, has_either_name, has_windows_name, is_system, same_system, system};
ghost use Rattle.pyver_markers.specs.Extents.{condition_of, system_of};

use crate::environment_box::Condition;
use crate::text_condition::{are_met_at, find_first_text};
use std::alloc::{AllocError, Global};

// The names of a system, as variables of markers have them.
#[derive(Clone, Copy)]
pub(crate) struct SystemNames<'a> {
    pub(crate) os: &'a [u8],
    pub(crate) sys: &'a [u8],
    pub(crate) platform: &'a [u8],
}

// ---- systems

fn is_same(one: SystemNames<'_>, os: &str, sys: &str, platform: &str) -> bool
    ensures { result ≡ same_system (system_of one.entry) (system os.now sys.now platform.now) }
{
    one.os == os.as_bytes() && one.sys == sys.as_bytes() && one.platform == platform.as_bytes()
}

fn is_known_system(one: SystemNames<'_>) -> bool
    ensures { result ≡ is_known_system (system_of one.entry) }
{
    is_same(one, "posix", "linux", "Linux")
        || is_same(one, "nt", "win32", "Windows")
        || is_same(one, "posix", "darwin", "Darwin")
        || is_same(one, "posix", "android", "Android")
        || is_same(one, "posix", "ios", "iOS")
}

fn has_either_name(one: SystemNames<'_>, sys: &str, platform: &str) -> bool
    ensures { result ≡ has_either_name (system_of one.entry) sys.now platform.now }
{
    one.sys == sys.as_bytes() || one.platform == platform.as_bytes()
}

fn has_windows_name(one: SystemNames<'_>) -> bool
    ensures { result ≡ has_windows_name (system_of one.entry) }
{
    one.os == "nt".as_bytes() || has_either_name(one, "win32", "Windows")
}

// Whether it has a name of a known system but `posix`.
fn has_known_name(one: SystemNames<'_>) -> bool
    ensures { result ≡ has_known_name (system_of one.entry) }
{
    has_either_name(one, "linux", "Linux")
        || has_windows_name(one)
        || has_either_name(one, "darwin", "Darwin")
        || has_either_name(one, "android", "Android")
        || has_either_name(one, "ios", "iOS")
}

// Whether there is such a system, as far as is known.
pub(crate) fn is_system(one: SystemNames<'_>) -> bool
    ensures { result ≡ is_system (system_of one.entry) }
{
    is_known_system(one) || !has_known_name(one)
}

// ---- boxes

#[tactic(auto, using(crate::proofs::Texts::text_excluded))]
// Whether not all conditions are met where the variable is this string.
fn excludes_text(
    alloc: Global,
    name: &str,
    text: &str,
    conditions: &[Condition<'_>],
) -> Result<bool, AllocError>
    ensures { IfOk result (λ b. b ≡ true → (e : Environment) → e name.now ≡ Some (Text text.now)
        → in_box e (map condition_of conditions.now) ≡ false) }
{
    let met = are_met_at(alloc, name.as_bytes(), text.as_bytes(), conditions)?;
    Ok(!met)
}

// Whether not all conditions are met on the system.
fn excludes_system(
    alloc: Global,
    os: &str,
    sys: &str,
    platform: &str,
    conditions: &[Condition<'_>],
) -> Result<bool, AllocError>
    ensures { IfOk result (λ b. b ≡ true → LacksSystem (map condition_of conditions.now) (system os.now sys.now platform.now)) }
{
    if excludes_text(alloc, "os_name", os, conditions)? {
        return Ok(true);
    }
    if excludes_text(alloc, "sys_platform", sys, conditions)? {
        return Ok(true);
    }
    let last = excludes_text(alloc, "platform_system", platform, conditions)?;
    Ok(last)
}

// Whether the variable is to be equal to this string.
fn is_asked(name: &str, text: &str, conditions: &[Condition<'_>]) -> bool
    ensures { result ≡ true → first_asked name.now (map condition_of conditions.now) ≡ Some text.now }
{
    match find_first_text(name.as_bytes(), conditions) {
        Some(asked) => asked == text.as_bytes(),
        None => false,
    }
}

#[tactic(auto, using(crate::proofs::FoundEnvironments::platform_asked, crate::proofs::FoundEnvironments::sys_asked))]
// Whether a variable is to be equal to one of these names.
fn asks_name(sys: &str, platform: &str, conditions: &[Condition<'_>]) -> bool
    ensures { result ≡ true → LacksOthers (map condition_of conditions.now) (λ s. has_either_name s sys.now platform.now) }
{
    if is_asked("sys_platform", sys, conditions) {
        return true;
    }
    is_asked("platform_system", platform, conditions)
}

#[tactic(auto, using(crate::proofs::FoundEnvironments::os_asked, crate::proofs::FoundEnvironments::windows_named))]
fn asks_windows_name(conditions: &[Condition<'_>]) -> bool
    ensures { result ≡ true → LacksOthers (map condition_of conditions.now) has_windows_name }
{
    if is_asked("os_name", "nt", conditions) {
        return true;
    }
    asks_name("win32", "Windows", conditions)
}

#[tactic(auto, using(crate::proofs::FoundEnvironments::linux_asked, crate::proofs::FoundEnvironments::windows_asked, crate::proofs::FoundEnvironments::macos_asked, crate::proofs::FoundEnvironments::android_asked, crate::proofs::FoundEnvironments::ios_asked))]
// Whether not all conditions are met on a system that is not known.
fn excludes_others(conditions: &[Condition<'_>]) -> bool
    ensures { result ≡ true → LacksOthers (map condition_of conditions.now) has_known_name }
{
    if asks_name("linux", "Linux", conditions) {
        return true;
    }
    if asks_windows_name(conditions) {
        return true;
    }
    if asks_name("darwin", "Darwin", conditions) {
        return true;
    }
    if asks_name("android", "Android", conditions) {
        return true;
    }
    asks_name("ios", "iOS", conditions)
}

#[tactic(auto, using(crate::proofs::FoundEnvironments::all_lack))]
// Whether not all conditions are met on any system.
pub(crate) fn excludes_systems(
    alloc: Global,
    conditions: &[Condition<'_>],
) -> Result<bool, AllocError>
    ensures { IfOk result (λ b. b ≡ true → (e : Environment) → HasSystem e → in_box e (map condition_of conditions.now) ≡ false) }
{
    if !excludes_others(conditions) {
        return Ok(false);
    }
    if !excludes_system(alloc, "posix", "linux", "Linux", conditions)? {
        return Ok(false);
    }
    if !excludes_system(alloc, "nt", "win32", "Windows", conditions)? {
        return Ok(false);
    }
    if !excludes_system(alloc, "posix", "darwin", "Darwin", conditions)? {
        return Ok(false);
    }
    if !excludes_system(alloc, "posix", "android", "Android", conditions)? {
        return Ok(false);
    }
    let last = excludes_system(alloc, "posix", "ios", "iOS", conditions)?;
    Ok(last)
}
