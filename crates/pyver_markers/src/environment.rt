//! Environments, and how they are written.
ghost use Rattle.std.specs.Prelude.{◌≡◌, ◌==◌, ◌++◌, IfOk, codes, map, option_map};
ghost use Rattle.std.specs.List.{flat_map, list_any};
ghost use Rattle.pyver_markers.specs.Extents.{assignment_of, environment_of, setting_of};
ghost use Rattle.pyver_markers.specs.Environments.{assignment_text, environment_text, quoted_text};

use crate::found_environment::FoundVariable;
use pep440_sets::VersionSet;
use std::alloc::AllocError;

/// What a variable is in an environment.
#[derive(Clone, Copy)]
pub enum Setting<'a> {
    /// A string.
    Text(&'a [u8]),
    /// Names, as of `extras` and `dependency_groups`.
    Names(&'a [&'a [u8]]),
}

/// A variable of an environment.
#[derive(Clone, Copy)]
pub struct Variable<'a> {
    /// Its modern name, as `sys_platform`.
    pub name: &'a [u8],
    /// What it is.
    pub setting: Setting<'a>,
}

/// Which environments are considered. In each, `python_version`, `python_full_version` and `implementation_version` are versions, the first of them the first
/// two numbers of the second, of its epoch and with no other part.
#[derive(Clone, Copy)]
pub struct Domain<'a> {
    /// Whether `os_name`, `sys_platform` and `platform_system` are the names of one system: of Linux, Windows, macOS, Android or iOS, or of another one, which
    /// has no name of these but `posix`; otherwise they say nothing of each other.
    pub linked: bool,
    /// The versions that Python may have, or all.
    pub python: Option<&'a VersionSet>,
}

// What the variable of this name is, if there is one.
pub(crate) fn find_setting<'a>(variables: &[Variable<'a>], name: &[u8]) -> Option<Setting<'a>>
    ensures { option_map setting_of result ≡ environment_of variables.now name.now }
{
    let found = variables.iter().find(|variable| variable.name == name)?;
    Some(found.setting)
}

fn has_double_quote(text: &[u8]) -> bool
    ensures { result ≡ list_any (λ b. b == 34) text.now }
{
    text.iter().any(|byte| *byte == b'"')
}

fn push_quoted_text(output: &mut Vec<u8>, text: &[u8]) -> Result<(), AllocError>
    ensures { IfOk result (λ _. output.new.items ≡ output.old.items ++ quoted_text text.now) }
{
    let quote = if has_double_quote(text) { b'\'' } else { b'"' };
    output.push(quote)?;
    output.extend_from_slice(text)?;
    output.push(quote)?;
    Ok(())
}

fn push_assignment(output: &mut Vec<u8>, variable: &FoundVariable<'_>) -> Result<(), AllocError>
    ensures { IfOk result (λ _. output.new.items ≡ output.old.items ++ assignment_text (assignment_of variable.now)) }
{
    output.extend_from_slice(variable.name)?;
    output.extend_from_slice(b" == ")?;
    push_quoted_text(output, variable.text.as_slice())
}

// The variables behind the first one.
fn push_others(output: &mut Vec<u8>, variables: &[FoundVariable<'_>]) -> Result<(), AllocError>
    ensures { IfOk result (λ _. output.new.items ≡ output.old.items
        ++ flat_map (λ x. codes " and " ++ assignment_text x) (map assignment_of variables.now)) }
{
    for variable in variables {
        output.extend_from_slice(b" and ")?;
        push_assignment(output, variable)?;
    }
    Ok(())
}

/// Appends the variables, each equal to its string, as a marker: `python_version == "3.13" and os_name == "nt"`; nothing of none.
///
/// Allocates.
pub fn push_environment(
    output: &mut Vec<u8>,
    variables: &[FoundVariable<'_>],
) -> Result<(), AllocError>
    ensures { IfOk result (λ _. output.new.items ≡ output.old.items ++ environment_text (map assignment_of variables.now)) }
{
    match variables {
        [] => Ok(()),
        [first, others @ ..] => {
            push_assignment(output, first)?;
            push_others(output, others)
        }
    }
}
