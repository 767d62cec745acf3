//! Environments in which all conditions are met.
ghost use Rattle.std.specs.Prelude.{◌≡◌, ◌==◌, IfOk, codes, map, option_map, true};
ghost use Rattle.std.specs.List.{list_all, list_any};
ghost use Rattle.pyver_markers.specs.Conditions.{AreLinked, HasAllowed, HasNoText, HasPython, HasVersion, IsAllowed, IsEnvironment, first_two, short_version, variable_version};
ghost use Rattle.pyver_markers.specs.Extents.{assignment_of, domain_of, environment_of, found_environment, is_writable};
ghost use Rattle.pyver_markers.specs.Environments.{HasSystem, Text};

use crate::environment::{Domain, Setting, Variable};
use crate::environment_box::Condition;
use crate::found_python::{PythonVersions, find_python};
use crate::marker_comparison::is_version_variable;
use crate::system::{SystemNames, is_system};
use crate::text_condition::{Operand, find_operand, is_met_at};
use crate::version::ascii_version;
use crate::version_condition::variable_set;
use pep440_rs::Version;
use pep440_sets::VersionSet;
use pyver_requirements::{MarkerOperator, Side, Step};
use std::alloc::{AllocError, Global};

/// A variable of an environment, and what it is there.
#[derive(Drop)]
pub struct FoundVariable<'a> {
    pub name: &'a [u8],
    pub text: Vec<u8>,
}

// What is searched: where these conditions are met, in an environment of the domain.
#[derive(Clone, Copy)]
pub(crate) struct Search<'s, 'a> {
    pub(crate) conditions: &'s [Condition<'a>],
    pub(crate) domain: Domain<'s>,
}

// The variables that each environment has.
const REQUIRED: [&str; 6] = [
    "python_version",
    "python_full_version",
    "implementation_version",
    "os_name",
    "sys_platform",
    "platform_system",
];

// What `os_name`, `sys_platform` and `platform_system` are together, by preference.
const SYSTEMS: [(&str, &str, &str); 8] = [
    ("posix", "linux", "Linux"),
    ("nt", "win32", "Windows"),
    ("posix", "darwin", "Darwin"),
    ("posix", "android", "Android"),
    ("posix", "ios", "iOS"),
    ("posix", "cygwin", "CYGWIN_NT-10.0"),
    ("java", "java11", "Java"),
    ("posix", "freebsd14", "FreeBSD"),
];

// What other variables are by preference.
const USUAL: [(&str, &str); 14] = [
    ("implementation_version", "3.13.0"),
    ("os_name", "posix"),
    ("os_name", "nt"),
    ("sys_platform", "linux"),
    ("sys_platform", "win32"),
    ("sys_platform", "darwin"),
    ("platform_system", "Linux"),
    ("platform_system", "Windows"),
    ("platform_system", "Darwin"),
    ("platform_machine", "x86_64"),
    ("platform_python_implementation", "CPython"),
    ("platform_python_implementation", "PyPy"),
    ("implementation_name", "cpython"),
    ("implementation_name", "pypy"),
];

// Whether it is a version of two numbers and no other part.
fn has_two_numbers(version: &Version) -> bool {
    version.is_release_only() && version.release().len() == 2
}

// Whether the variable may be this version.
fn may_be_version(name: &[u8], version: &Version, domain: Domain<'_>) -> bool {
    if name == "python_version".as_bytes() {
        return has_two_numbers(version);
    }
    if name == "python_full_version".as_bytes() {
        return is_allowed(version, domain.python);
    }
    true
}

// Whether the variable may be this string.
fn may_be(alloc: Global, name: &[u8], text: &[u8], domain: Domain<'_>) -> Result<bool, AllocError> {
    if !is_version_variable(name) {
        return Ok(true);
    }
    match ascii_version(alloc, text)? {
        Some(version) => Ok(may_be_version(name, &version, domain)),
        None => Ok(false),
    }
}

// Whether the variable may be this string, and all conditions are met where it is.
pub(crate) fn suits(
    alloc: Global,
    name: &[u8],
    text: &[u8],
    search: Search<'_, '_>,
) -> Result<bool, AllocError> {
    if !may_be(alloc, name, text, search.domain)? {
        return Ok(false);
    }
    for condition in search.conditions {
        if !is_met_at(alloc, name, text, condition)? {
            return Ok(false);
        }
    }
    Ok(true)
}

fn find_usual(
    alloc: Global,
    name: &[u8],
    search: Search<'_, '_>,
) -> Result<Option<Vec<u8>>, AllocError> {
    for (known, text) in USUAL {
        let text = text.as_bytes();
        if known.as_bytes() == name && suits(alloc, name, text, search)? {
            return Ok(Some(Vec::from_slice(alloc, text)?));
        }
    }
    Ok(None)
}

// A version of the set that all conditions allow.
pub(crate) fn find_in_set(
    alloc: Global,
    name: &[u8],
    set: &VersionSet,
    search: Search<'_, '_>,
) -> Result<Option<Vec<u8>>, AllocError> {
    let Some(version) = set.find_version(alloc)? else {
        return Ok(None);
    };
    let text = Vec::from_slice(alloc, version.to_string(alloc)?.as_bytes())?;
    if suits(alloc, name, text.as_slice(), search)? {
        return Ok(Some(text));
    }
    Ok(None)
}

// A version that all conditions allow.
fn find_version(
    alloc: Global,
    name: &[u8],
    search: Search<'_, '_>,
) -> Result<Option<Vec<u8>>, AllocError> {
    if !is_version_variable(name) {
        return Ok(None);
    }
    let set = variable_set(alloc, name, search.conditions)?;
    find_in_set(alloc, name, &set, search)
}

// The string, or a word of it.
fn find_word(
    alloc: Global,
    name: &[u8],
    text: &[u8],
    search: Search<'_, '_>,
) -> Result<Option<Vec<u8>>, AllocError> {
    if suits(alloc, name, text, search)? {
        return Ok(Some(Vec::from_slice(alloc, text)?));
    }
    for word in text.split(|byte| *byte == b' ' || *byte == b',') {
        if suits(alloc, name, word, search)? {
            return Ok(Some(Vec::from_slice(alloc, word)?));
        }
    }
    Ok(None)
}

// A string that the variable is compared with.
fn find_operand_text(
    alloc: Global,
    name: &[u8],
    search: Search<'_, '_>,
) -> Result<Option<Vec<u8>>, AllocError> {
    for condition in search.conditions {
        if let Some(Operand::Right(text) | Operand::Left(text)) = find_operand(name, condition) {
            let found = find_word(alloc, name, text, search)?;
            if found.is_some() {
                return Ok(found);
            }
        }
    }
    Ok(None)
}

// Whether its left operand is to be in the string.
fn is_to_contain(condition: &Condition<'_>) -> bool {
    condition.wanted && matches!(condition.operator, MarkerOperator::In)
}

// A string that has all that is to be in it, and is longer than each other one.
fn find_long_text(
    alloc: Global,
    name: &[u8],
    search: Search<'_, '_>,
) -> Result<Option<Vec<u8>>, AllocError> {
    let mut text = vec![in alloc; b'x']?;
    for condition in search.conditions {
        match find_operand(name, condition) {
            Some(Operand::Left(part)) if is_to_contain(condition) => text.extend_from_slice(part)?,
            Some(Operand::Right(other)) => {
                for _ in other {
                    text.push(b'x')?;
                }
            }
            _ => {}
        }
    }
    if suits(alloc, name, text.as_slice(), search)? {
        return Ok(Some(text));
    }
    Ok(None)
}

// What the variable is where all conditions are met.
fn find_text(
    alloc: Global,
    name: &[u8],
    search: Search<'_, '_>,
) -> Result<Option<Vec<u8>>, AllocError> {
    let mut found = find_usual(alloc, name, search)?;
    if found.is_none() {
        found = find_version(alloc, name, search)?;
    }
    if found.is_none() {
        found = find_operand_text(alloc, name, search)?;
    }
    if found.is_none() {
        found = find_long_text(alloc, name, search)?;
    }
    Ok(found)
}

// The variable of a step.
fn step_variable<'a>(step: Step<'a>) -> Option<&'a [u8]> {
    match step {
        Step::Compare(Side::Variable(name), _, _) => Some(name),
        Step::Compare(_, _, Side::Variable(name)) => Some(name),
        _ => None,
    }
}

fn has_variable(variables: &[FoundVariable<'_>], name: &[u8]) -> bool {
    variables.iter().any(|variable| variable.name == name)
}

// What is chosen first: the versions of Python, and the system, of which each name holds unless a condition on it is not met.
#[derive(Drop)]
struct Choice {
    python: PythonVersions,
    system: (&'static str, &'static str, &'static str),
}

// Whether all conditions are met on the system.
fn suits_system(
    alloc: Global,
    system: (&str, &str, &str),
    search: Search<'_, '_>,
) -> Result<bool, AllocError> {
    let (os, sys, platform) = system;
    Ok(
        suits(alloc, "os_name".as_bytes(), os.as_bytes(), search)?
            && suits(alloc, "sys_platform".as_bytes(), sys.as_bytes(), search)?
            && suits(
                alloc,
                "platform_system".as_bytes(),
                platform.as_bytes(),
                search,
            )?,
    )
}

// The first system where all conditions are met, or else the last one.
fn find_system(
    alloc: Global,
    search: Search<'_, '_>,
) -> Result<(&'static str, &'static str, &'static str), AllocError> {
    let mut last = ("posix", "freebsd14", "FreeBSD");
    for system in SYSTEMS {
        if suits_system(alloc, system, search)? {
            return Ok(system);
        }
        last = system;
    }
    Ok(last)
}

// What the variable is on the system.
fn system_text(
    name: &[u8],
    system: (&'static str, &'static str, &'static str),
) -> Option<&'static [u8]> {
    let (os, sys, platform) = system;
    if name == "os_name".as_bytes() {
        return Some(os.as_bytes());
    }
    if name == "sys_platform".as_bytes() {
        return Some(sys.as_bytes());
    }
    if name == "platform_system".as_bytes() {
        return Some(platform.as_bytes());
    }
    None
}

// What the variable is by the choice, if it says so and all conditions are met there.
fn find_chosen(
    alloc: Global,
    name: &[u8],
    search: Search<'_, '_>,
    choice: &Choice,
) -> Result<Option<Vec<u8>>, AllocError> {
    if name == "python_version".as_bytes() {
        return Ok(Some(Vec::from_slice(alloc, choice.python.short.as_slice())?));
    }
    if name == "python_full_version".as_bytes() {
        return Ok(Some(Vec::from_slice(alloc, choice.python.full.as_slice())?));
    }
    if !search.domain.linked {
        return Ok(None);
    }
    match system_text(name, choice.system) {
        Some(text) if suits(alloc, name, text, search)? => Ok(Some(Vec::from_slice(alloc, text)?)),
        _ => Ok(None),
    }
}

// Adds the variable, unless it is there. Whether it can be something where all conditions are met.
fn add_variable<'a>(
    alloc: Global,
    name: &'a [u8],
    search: Search<'_, 'a>,
    choice: &Choice,
    variables: &mut Vec<FoundVariable<'a>>,
) -> Result<bool, AllocError> {
    if has_variable(variables.as_slice(), name) {
        return Ok(true);
    }
    let mut found = find_chosen(alloc, name, search, choice)?;
    if found.is_none() {
        found = find_text(alloc, name, search)?;
    }
    let Some(text) = found else {
        return Ok(false);
    };
    variables.push(FoundVariable { name, text })?;
    Ok(true)
}

// What the variables of these steps are where all conditions are met, and behind them those that each environment has; and how many are of
// the steps.
pub(crate) fn find_variables<'a>(
    alloc: Global,
    steps: &[Step<'a>],
    conditions: &[Condition<'a>],
    domain: Domain<'_>,
) -> Result<Option<(Vec<FoundVariable<'a>>, usize)>, AllocError> {
    let search = Search { conditions, domain };
    let Some(python) = find_python(alloc, search)? else {
        return Ok(None);
    };
    let choice = Choice {
        python,
        system: find_system(alloc, search)?,
    };
    let mut variables = Vec::new(alloc);
    for step in steps {
        let Some(name) = step_variable(*step) else {
            continue;
        };
        if !add_variable(alloc, name, search, &choice, &mut variables)? {
            return Ok(None);
        }
    }
    let asked = variables.len();
    for name in REQUIRED {
        if !add_variable(alloc, name.as_bytes(), search, &choice, &mut variables)? {
            return Ok(None);
        }
    }
    Ok(Some((variables, asked)))
}

fn find_by_name<'b>(found: &'b [FoundVariable<'_>], name: &[u8]) -> Option<&'b [u8]>
    ensures { option_map (λ text. Text text.now) result ≡ found_environment found.now name.now }
{
    let mut rest = found;
    while let [variable, later @ ..] = rest {
        if variable.name == name {
            return Some(variable.text.as_slice());
        }
        rest = later;
    }
    None
}

// The version that the variable is.
fn version_by_name(
    alloc: Global,
    found: &[FoundVariable<'_>],
    name: &[u8],
) -> Result<Option<Version>, AllocError>
    ensures { IfOk result (λ v. v ≡ variable_version (found_environment found.now) name.now) }
{
    match find_by_name(found, name) {
        Some(text) => ascii_version(alloc, text),
        None => Ok(None),
    }
}

#[tactic(auto, using(crate::proofs::FoundEnvironments::version_there))]
fn has_version(alloc: Global, found: &[FoundVariable<'_>], name: &[u8]) -> Result<bool, AllocError>
    ensures { IfOk result (λ b. b ≡ true → HasVersion (found_environment found.now) name.now) }
{
    let version = version_by_name(alloc, found, name)?;
    Ok(version.is_some())
}

// Whether the release is the first two numbers of the other.
fn is_first_two(short: &[u64], release: &[u64]) -> bool
    ensures { result ≡ true → short.now ≡ first_two release.now }
{
    match (short, release) {
        ([a, b], [c, d, ..]) => a == c && b == d,
        ([a, b], [c]) => a == c && *b == 0,
        ([a, b], []) => *a == 0 && *b == 0,
        _ => false,
    }
}

// Whether the version is that of the first two numbers of the other, which has no epoch.
fn is_short_version(short: &Version, version: &Version) -> bool
    ensures { result ≡ true → short.now ≡ short_version version.now }
{
    if version.epoch() != 0 {
        return false;
    }
    if !short.is_release_only() {
        return false;
    }
    is_first_two(short.release(), version.release())
}

#[tactic(auto, using(crate::proofs::FoundEnvironments::linked))]
// Whether one variable is the first two numbers of the other.
fn have_link(
    alloc: Global,
    found: &[FoundVariable<'_>],
    short: &[u8],
    full: &[u8],
) -> Result<bool, AllocError>
    ensures { IfOk result (λ b. b ≡ true → AreLinked (found_environment found.now) short.now full.now) }
{
    let Some(one) = version_by_name(alloc, found, short)? else {
        return Ok(false);
    };
    let Some(other) = version_by_name(alloc, found, full)? else {
        return Ok(false);
    };
    Ok(is_short_version(&one, &other))
}

// Whether the versions of Python are versions, one within the other.
fn has_python(alloc: Global, found: &[FoundVariable<'_>]) -> Result<bool, AllocError>
    ensures { IfOk result (λ b. b ≡ true → HasPython (found_environment found.now)) }
{
    let short = "python_version".as_bytes();
    let full = "python_full_version".as_bytes();
    if !has_version(alloc, found, short)? {
        return Ok(false);
    }
    if !has_version(alloc, found, full)? {
        return Ok(false);
    }
    let last = have_link(alloc, found, short, full)?;
    Ok(last)
}

// Whether the version is one of these.
fn is_allowed(version: &Version, allowed: Option<&VersionSet>) -> bool
    ensures { result ≡ true → IsAllowed (option_map (λ s. s.now) allowed.entry) version.now }
{
    match allowed {
        Some(allowed) => allowed.contains(version),
        None => true,
    }
}

// Whether Python has a version that is allowed.
fn has_allowed(
    alloc: Global,
    found: &[FoundVariable<'_>],
    allowed: Option<&VersionSet>,
) -> Result<bool, AllocError>
    ensures { IfOk result (λ b. b ≡ true → HasAllowed (option_map (λ s. s.now) allowed.entry) (found_environment found.now)) }
{
    let full = "python_full_version".as_bytes();
    let Some(version) = version_by_name(alloc, found, full)? else {
        return Ok(false);
    };
    Ok(is_allowed(&version, allowed))
}

// Whether the variables of the system are those of one.
fn has_system(found: &[FoundVariable<'_>]) -> bool
    ensures { result ≡ true → HasSystem (found_environment found.now) }
{
    let Some(os) = find_by_name(found, "os_name".as_bytes()) else {
        return false;
    };
    let Some(sys) = find_by_name(found, "sys_platform".as_bytes()) else {
        return false;
    };
    let Some(platform) = find_by_name(found, "platform_system".as_bytes()) else {
        return false;
    };
    is_system(SystemNames { os, sys, platform })
}

// So they are, if they are linked.
fn has_linked_system(found: &[FoundVariable<'_>], linked: bool) -> bool
    ensures { result ≡ true → linked ≡ true → HasSystem (found_environment found.now) }
{
    if linked {
        return has_system(found);
    }
    true
}

// Whether no names are a string.
fn lacks_names(found: &[FoundVariable<'_>]) -> bool
    ensures extras { result ≡ true → HasNoText (found_environment found.now) (codes "extras") }
    ensures dependency_groups { result ≡ true → HasNoText (found_environment found.now) (codes "dependency_groups") }
{
    if find_by_name(found, "extras".as_bytes()).is_some() {
        return false;
    }
    find_by_name(found, "dependency_groups".as_bytes()).is_none()
}

// Whether the versions are versions, and that of Python is allowed.
fn has_versions(
    alloc: Global,
    found: &[FoundVariable<'_>],
    allowed: Option<&VersionSet>,
) -> Result<bool, AllocError>
    ensures python { IfOk result (λ b. b ≡ true → HasPython (found_environment found.now)) }
    ensures allowed { IfOk result (λ b. b ≡ true → HasAllowed (option_map (λ s. s.now) allowed.entry) (found_environment found.now)) }
    ensures implementation { IfOk result (λ b. b ≡ true → HasVersion (found_environment found.now) (codes "implementation_version")) }
{
    if !has_python(alloc, found)? {
        return Ok(false);
    }
    if !has_allowed(alloc, found, allowed)? {
        return Ok(false);
    }
    let last = has_version(alloc, found, "implementation_version".as_bytes())?;
    Ok(last)
}

// Whether the variables are those of an environment of the domain.
pub(crate) fn is_environment(
    alloc: Global,
    found: &[FoundVariable<'_>],
    domain: Domain<'_>,
) -> Result<bool, AllocError>
    ensures { IfOk result (λ b. b ≡ true → IsEnvironment (domain_of domain.entry) (found_environment found.now)) }
{
    if !lacks_names(found) {
        return Ok(false);
    }
    if !has_linked_system(found, domain.linked) {
        return Ok(false);
    }
    has_versions(alloc, found, domain.python)
}

fn has_byte(text: &[u8], wanted: u8) -> bool
    ensures { result ≡ list_any (λ b. b == wanted) text.now }
{
    text.iter().any(|byte| *byte == wanted)
}

fn is_writable(text: &[u8]) -> bool
    ensures { result ≡ is_writable text.now }
{
    if has_byte(text, b'\\') {
        return false;
    }
    if has_byte(text, b'"') {
        return !has_byte(text, b'\'');
    }
    true
}

// Whether markers can name all the strings.
pub(crate) fn are_writable(found: &[FoundVariable<'_>]) -> bool
    ensures { result ≡ list_all (λ v. is_writable v.text) (map assignment_of found.now) }
{
    let mut rest = found;
    while let [variable, later @ ..] = rest {
        if !is_writable(variable.text.as_slice()) {
            return false;
        }
        rest = later;
    }
    true
}

// The variables as they are evaluated.
pub(crate) fn borrow_variables<'a, 'b>(
    alloc: Global,
    found: &'b [FoundVariable<'a>],
) -> Result<Vec<Variable<'b>>, AllocError>
    ensures { IfOk result (λ variables. environment_of variables.items ≡ found_environment found.now) }
{
    let mut variables = Vec::new(alloc);
    let mut rest = found;
    while let [variable, later @ ..] = rest {
        variables.push(Variable {
            name: variable.name,
            setting: Setting::Text(variable.text.as_slice()),
        })?;
        rest = later;
    }
    Ok(variables)
}
