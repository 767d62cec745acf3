//! The known environments, and in which of them the marker of a package holds.
ghost use Rattle.std.specs.Prelude.{◌≡◌, IfOk, map, option_map, string_bytes, ◌++◌};
ghost use Rattle.std.specs.List.{list_all, list_any};
ghost use Rattle.pyver_locks.specs.KnownEnvironments.{os_name, platform_machine, platform_system, sys_platform, system_name, python_text, cpython_variables, with_names, known_environment, marker_value, is_true_in, holds_everywhere, environment_name, is_false, is_left_out, is_left_out_in, is_for, environments_of, known_environments, read_condition_of};
ghost use Rattle.pyver_locks.specs.LockContents.{parts_of};
ghost use Rattle.pyver_markers.specs.Extents.{setting_of};
ghost use Rattle.pyver_markers.specs.Environments.{Text, Names, assigned};
ghost use Rattle.pyver_markers.specs.MarkerValues.{value};
ghost use Rattle.pyver_requirements.specs.MarkerGrammar.{Marker};
ghost use Rattle.pyver_requirements.specs.MarkerSteps.{steps};

use crate::locked_package::LockParts;
use pep440_rs::{Version, VersionSpecifiers};
use pyver_markers::{EnvironmentMarker, Setting, Variable};
use pyver_requirements::MarkerError;
use std::alloc::{AllocError, Global};

/// The environments in which a lock has a package: these Pythons, if the marker holds.
#[derive(Drop)]
pub struct ReadCondition {
    pub python: VersionSpecifiers,
    pub marker: Vec<u8>,
}

/// The systems that are known.
#[derive(Clone, Copy)]
pub enum System {
    Linux,
    Windows,
    MacOs,
}

/// CPython 3 on a system.
#[derive(Clone, Copy)]
pub struct KnownEnvironment {
    pub system: System,
    /// The second number of its version.
    pub minor: u64,
}

impl System {
    fn name(self) -> &'static str
        ensures { result.now ≡ system_name self }
    {
        match self {
            System::Linux => "Linux",
            System::Windows => "Windows",
            System::MacOs => "macOS",
        }
    }

    fn os_name(self) -> &'static str
        ensures { result.now ≡ os_name self }
    {
        match self {
            System::Linux => "posix",
            System::Windows => "nt",
            System::MacOs => "posix",
        }
    }

    fn sys_platform(self) -> &'static str
        ensures { result.now ≡ sys_platform self }
    {
        match self {
            System::Linux => "linux",
            System::Windows => "win32",
            System::MacOs => "darwin",
        }
    }

    fn platform_system(self) -> &'static str
        ensures { result.now ≡ platform_system self }
    {
        match self {
            System::Linux => "Linux",
            System::Windows => "Windows",
            System::MacOs => "Darwin",
        }
    }

    fn platform_machine(self) -> &'static str
        ensures { result.now ≡ platform_machine self }
    {
        match self {
            System::Linux => "x86_64",
            System::Windows => "AMD64",
            System::MacOs => "arm64",
        }
    }
}

// The first two numbers of the version of Python.
fn python_text(alloc: Global, minor: u64) -> Result<Vec<u8>, AllocError>
    ensures { IfOk result (λ text. text.items ≡ python_text minor) }
{
    let mut text = Vec::from_slice(alloc, b"3.")?;
    text.extend_from_slice(minor.to_string(alloc)?.as_bytes())?;
    Ok(text)
}

// The variable that is this string.
fn assign<'a>(name: &'a str, text: &'a [u8]) -> Variable<'a>
    ensures name { result.name.now ≡ name.now }
    ensures setting { setting_of result.setting ≡ Text text.now }
{
    Variable {
        name: name.as_bytes(),
        setting: Setting::Text(text),
    }
}

// The variable that is these names.
fn assign_names<'a, 'b>(name: &'b str, names: &'b [&'a [u8]]) -> Variable<'b>
    ensures name { result.name.now ≡ name.now }
    ensures setting { setting_of result.setting ≡ Names (map (λ n. n.now) names.now) }
{
    Variable {
        name: name.as_bytes(),
        setting: Setting::Names(names),
    }
}

fn borrow_names<'a>(alloc: Global, names: &'a [Vec<u8>]) -> Result<Vec<&'a [u8]>, AllocError>
    ensures { IfOk result (λ borrowed. map (λ n. n.now) borrowed.items ≡ map (λ n. n.items) names.now) }
{
    let mut borrowed = Vec::new(alloc);
    for name in names {
        borrowed.push(name.as_slice())?;
    }
    Ok(borrowed)
}

// What the marker is with these versions of CPython, where these extras and groups are installed.
fn evaluate_with<'a, 'b>(
    alloc: Global,
    marker: &EnvironmentMarker<'_>,
    system: System,
    extras: &'b [&'a [u8]],
    groups: &'b [&'a [u8]],
    short: &'b [u8],
    full: &'b [u8],
) -> Result<Option<bool>, AllocError>
    ensures { (m : Marker) → marker.now ≡ steps m
        → IfOk result (λ v. v ≡ value (with_names (map (λ n. n.now) extras.now) (map (λ n. n.now) groups.now) (assigned (cpython_variables system short.now full.now))) m) }
{
    let variables = [
        assign_names("extras", extras),
        assign_names("dependency_groups", groups),
        assign("python_version", short),
        assign("python_full_version", full),
        assign("implementation_version", full),
        assign("implementation_name", b"cpython"),
        assign("platform_python_implementation", b"CPython"),
        assign("os_name", system.os_name().as_bytes()),
        assign("sys_platform", system.sys_platform().as_bytes()),
        assign("platform_system", system.platform_system().as_bytes()),
        assign("platform_machine", system.platform_machine().as_bytes()),
    ];
    marker.evaluate(alloc, &variables)
}

// What the marker is in the environment, where the parts are installed.
fn evaluate_in(
    alloc: Global,
    parts: &LockParts,
    marker: &EnvironmentMarker<'_>,
    environment: KnownEnvironment,
) -> Result<Option<bool>, AllocError>
    ensures { (m : Marker) → marker.now ≡ steps m → IfOk result (λ v. v ≡ value (known_environment (parts_of parts.now) environment) m) }
{
    let short = python_text(alloc, environment.minor)?;
    let mut full = Vec::from_slice(alloc, short.as_slice())?;
    full.extend_from_slice(b".0")?;
    let extras = borrow_names(alloc, parts.extras.as_slice())?;
    let groups = borrow_names(alloc, parts.groups.as_slice())?;
    evaluate_with(
        alloc,
        marker,
        environment.system,
        extras.as_slice(),
        groups.as_slice(),
        short.as_slice(),
        full.as_slice(),
    )
}

fn is_false(value: Option<bool>) -> bool
    ensures { result ≡ is_false value }
{
    match value {
        Some(value) => !value,
        None => false,
    }
}

// What the marker is in the environment, if the string is one.
#[tactic(auto, using(crate::proofs::Readings::no_value))]
fn evaluate_text(
    alloc: Global,
    parts: &LockParts,
    marker: &[u8],
    environment: KnownEnvironment,
) -> Result<Option<bool>, AllocError>
    ensures { IfOk result (λ v. v ≡ marker_value (parts_of parts.now) environment marker.now) }
{
    match EnvironmentMarker::parse(alloc, marker) {
        Ok(marker) => evaluate_in(alloc, parts, &marker, environment),
        Err(MarkerError::Invalid(_, _)) => Ok(None),
        Err(MarkerError::OutOfMemory) => Err(AllocError),
    }
}

// The marker holds in the environment, where the parts are installed.
fn is_true_in(
    alloc: Global,
    parts: &LockParts,
    marker: &[u8],
    environment: KnownEnvironment,
) -> Result<bool, AllocError>
    ensures { IfOk result (λ b. b ≡ is_true_in (parts_of parts.now) environment marker.now) }
{
    let value = evaluate_text(alloc, parts, marker, environment)?;
    Ok(value.unwrap_or(false))
}

// The marker holds in each of these environments.
fn is_true_in_all(
    alloc: Global,
    parts: &LockParts,
    marker: &[u8],
    environments: &[KnownEnvironment],
) -> Result<bool, AllocError>
    ensures { IfOk result (λ b. b ≡ list_all (λ k. is_true_in (parts_of parts.now) k marker.now) environments.now) }
{
    for environment in environments {
        if !is_true_in(alloc, parts, marker, *environment)? {
            return Ok(false);
        }
    }
    Ok(true)
}

// The marker holds in all known environments.
pub(crate) fn holds_everywhere(
    alloc: Global,
    parts: &LockParts,
    marker: &[u8],
) -> Result<bool, AllocError>
    ensures { IfOk result (λ b. b ≡ holds_everywhere (parts_of parts.now) marker.now) }
{
    let environments = known_environments(alloc)?;
    is_true_in_all(alloc, parts, marker, environments.as_slice())
}

impl KnownEnvironment {
    /// The name of the environment for people.
    ///
    /// Allocates.
    pub fn name(self, alloc: Global) -> Result<String, AllocError>
        ensures { IfOk result (λ name. string_bytes name ≡ environment_name self) }
    {
        let mut name = String::from_str(alloc, self.system.name())?;
        name.push_str(" with Python 3.")?;
        name.push_str(self.minor.to_string(alloc)?.as_str())?;
        Ok(name)
    }

    // A lock with these parts leaves a package under this condition out.
    fn is_left_out(
        self,
        alloc: Global,
        parts: &LockParts,
        condition: &ReadCondition,
    ) -> Result<bool, AllocError>
        ensures { IfOk result (λ b. b ≡ is_left_out (parts_of parts.now) self (read_condition_of condition.now)) }
    {
        let version = Version::new(alloc, &[3, self.minor, 0])?;
        if !condition.python.matches_literally(alloc, &version)? {
            return Ok(false);
        }
        let value = evaluate_text(alloc, parts, condition.marker.as_slice(), self)?;
        if !is_false(value) {
            return Ok(false);
        }
        is_for(alloc, parts, self)
    }

    /// Whether a lock with these parts, which is for this environment and Python, leaves out a package with this condition, whose marker does not
    /// hold with all parts installed (PEP 508, "Environment Markers"; PEP 751, "Installation"). Without a condition: no.
    ///
    /// Allocates.
    pub fn is_left_out_in(
        self,
        alloc: Global,
        parts: &LockParts,
        condition: &Option<ReadCondition>,
    ) -> Result<bool, AllocError>
        ensures { IfOk result (λ b. b ≡ is_left_out_in (parts_of parts.now) self (option_map read_condition_of condition.now)) }
    {
        match condition {
            Some(condition) => self.is_left_out(alloc, parts, condition),
            None => Ok(false),
        }
    }
}

// One of the markers holds in the environment, where the parts are installed.
fn has_true_marker(
    alloc: Global,
    parts: &LockParts,
    markers: &[Vec<u8>],
    environment: KnownEnvironment,
) -> Result<bool, AllocError>
    ensures { IfOk result (λ b. b ≡ list_any (is_true_in (parts_of parts.now) environment) (map (λ m. m.items) markers.now)) }
{
    for marker in markers {
        if is_true_in(alloc, parts, marker.as_slice(), environment)? {
            return Ok(true);
        }
    }
    Ok(false)
}

// A lock with these parts is for the environment.
fn is_for(
    alloc: Global,
    parts: &LockParts,
    environment: KnownEnvironment,
) -> Result<bool, AllocError>
    ensures { IfOk result (λ b. b ≡ is_for (parts_of parts.now) environment) }
{
    if parts.environments.is_empty() {
        return Ok(true);
    }
    has_true_marker(alloc, parts, parts.environments.as_slice(), environment)
}

fn push_environments_of(
    environments: &mut Vec<KnownEnvironment>,
    system: System,
) -> Result<(), AllocError>
    ensures { IfOk result (λ _. environments.new.items ≡ environments.old.items ++ environments_of system) }
{
    environments.push(KnownEnvironment { system, minor: 9 })?;
    environments.push(KnownEnvironment { system, minor: 10 })?;
    environments.push(KnownEnvironment { system, minor: 11 })?;
    environments.push(KnownEnvironment { system, minor: 12 })?;
    environments.push(KnownEnvironment { system, minor: 13 })?;
    environments.push(KnownEnvironment { system, minor: 14 })?;
    Ok(())
}

/// The environments that are known: CPython 3.9 to 3.14, one after another, on Linux, then on Windows, then on macOS.
///
/// Allocates.
pub fn known_environments(alloc: Global) -> Result<Vec<KnownEnvironment>, AllocError>
    ensures { IfOk result (λ environments. environments.items ≡ known_environments) }
{
    let mut environments = Vec::new(alloc);
    push_environments_of(&mut environments, System::Linux)?;
    push_environments_of(&mut environments, System::Windows)?;
    push_environments_of(&mut environments, System::MacOs)?;
    Ok(environments)
}
