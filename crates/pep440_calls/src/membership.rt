//! Whether a list contains or allows a version.
ghost use Rattle.std.specs.Prelude.{Bool, IfErr, List, ℕ, true, ◌↔◌, ◌≡◌, ◌≢◌, ◌≤◌};
ghost use Rattle.pep440_compiled.specs.Lists.{HasListFormat};
ghost use Rattle.pep440_compiled.specs.SetForms.{HasFormatOfSets, HasLoneSetFormat};
ghost use Rattle.pep440_compiled.specs.Version.{HasVersionFormat};
ghost use Rattle.pep440_rs.specs.Matching.{any_prerelease};
ghost use Rattle.pep440_rs.specs.Specifiers.{Spec};
ghost use Rattle.pep440_version.specs.Record.{Record};
ghost use Rattle.pep440_calls.specs.CallResults.{AllowFaults, Allows, AllowsResult, AsksInPlace, AsksSet, Contains, ContainsResult, IsPrerelease, IsShortNormalForm, MatchesInPlace, RejectsSecond, RejectsSet, RejectsVersion, Selects, takes};
ghost use Rattle.pep440_calls.specs.CallerBytes.{BytesDenote, BytesDenoteList, ListFaults, RejectsBytes, RejectsListBytes};
ghost use Rattle.pep440_calls.specs.Statuses.{Faults, HoldsOr, HoldsOrFaults};
ghost use Rattle.pep440_calls.specs.declared.fault.Fault.TheVariants.{OutOfMemory};

use crate::buffer::{OK, flag};
use crate::fault::Fault;
use crate::one_version::compile_string;
use crate::read::{read, read_list, to_list};
use crate::set_calls::has_form;
use pep440_compiled::{
    ContainsError, FormBuffer, has_list_format, has_lone_set_format, has_version_format,
    set_contains_soon,
};
use pep440_rs::VersionSpecifiers;
use std::alloc::Global;

// Writes whether a list contains a version, and whether this is a pre-release or a developmental release.
#[inline(always)]
fn put_match(given: Result<(bool, bool), Fault>, contained: &mut u8, prerelease: &mut u8) -> u8
    ensures found { (list version : List ℕ) → HoldsOr (ListFaults (RejectsSecond list version) list ⊥)
        (λ found. Contains list version found.0 × IsPrerelease version found.1) given
        → ContainsResult list version contained.old contained.new prerelease.old prerelease.new result }
    ensures memory { IfErr given (λ f. f ≢ OutOfMemory) → result ≢ 3 }
{
    match given {
        Ok((found, is_early)) => {
            *contained = flag(found);
            *prerelease = flag(is_early);
            OK
        }
        Err(fault) => fault.status(),
    }
}

// Whether a compiled list contains a compiled version, and whether this is a pre-release or a developmental release.
#[inline(always)]
fn contains_compiled(list: &[u8], version: &[u8]) -> Result<(bool, bool), Fault>
    requires list { HasListFormat list.now }
    requires version { HasVersionFormat version.now }
    ensures found { HoldsOr (ListFaults (RejectsSecond list.now version.now) list.now ⊥)
        (λ found. Contains list.now version.now found.0 × IsPrerelease version.now found.1) result }
    ensures memory { IfErr result (λ f. f ≢ OutOfMemory) }
{
    match pep440_compiled::contains(list, version) {
        Ok(found) => Ok(found),
        Err(ContainsError::NoVersion) => Err(Fault::InvalidVersion),
        Err(ContainsError::NoList) => Err(Fault::InvalidList),
    }
}

// Why nothing is said of a string beside a compiled list, if this is why the string has no compiled form: an invalid list is named first.
// Out of memory ends the call.
fn name_fault(alloc: Global, list: &[u8], of_string: Fault) -> Fault
    ensures fault { (text : List ℕ) → Faults (RejectsBytes text) ⊥ ⊥ of_string
        → Faults (((l : List Spec) × BytesDenoteList list.now l) × RejectsBytes text) (RejectsListBytes list.now) ⊥ result }
    ensures memory { of_string ≡ OutOfMemory → result ≡ OutOfMemory }
{
    if !matches!(of_string, Fault::InvalidVersion) {
        return of_string;
    }
    match read_list(alloc, list) {
        Ok(_) => of_string,
        Err(of_list) => of_list,
    }
}

// Whether a compiled list contains the version of a string, which is compiled first.
fn contains_string(alloc: Global, list: &[u8], text: &[u8]) -> Result<(bool, bool), Fault>
    requires list { HasListFormat list.now }
    requires text { ¬ HasVersionFormat text.now }
    ensures found { HoldsOr (ListFaults (RejectsSecond list.now text.now) list.now ⊥)
        (λ found. Contains list.now text.now found.0 × IsPrerelease text.now found.1) result }
    ensures memory { IsShortNormalForm text.now → IfErr result (λ f. f ≢ OutOfMemory) }
{
    let mut buffer = FormBuffer::new(alloc);
    match compile_string(alloc, &mut buffer, text) {
        Ok(form) => contains_compiled(list, form),
        Err(fault) => Err(name_fault(alloc, list, fault)),
    }
}

// Whether a list that is read contains the version that the bytes denote.
fn contains(alloc: Global, list: &[u8], bytes: &[u8]) -> Result<(bool, bool), Fault>
    ensures { HoldsOr (ListFaults (RejectsSecond list.now bytes.now) list.now ⊥)
        (λ found. Contains list.now bytes.now found.0 × IsPrerelease bytes.now found.1) result }
{
    let specifiers = to_list(alloc, list)?;
    let version = read(alloc, bytes)?;
    let contained = specifiers.contains(alloc, &version)?;
    Ok((contained, version.any_prerelease()))
}

// As `write_match`, of a string at least. A call of its own, so that two compiled forms pay nothing for strings.
#[inline(never)]
fn write_string_match(
    alloc: Global,
    list: &[u8],
    text: &[u8],
    contained: &mut u8,
    prerelease: &mut u8,
) -> u8
    ensures found { ContainsResult list.now text.now contained.old contained.new prerelease.old prerelease.new result }
    ensures memory { HasListFormat list.now → (¬ HasVersionFormat text.now) → IsShortNormalForm text.now → result ≢ 3 }
{
    if has_list_format(list) && !has_version_format(text) {
        return put_match(contains_string(alloc, list, text), contained, prerelease);
    }
    put_match(contains(alloc, list, text), contained, prerelease)
}

/// Whether the list contains the version, 1 or 0 (PEP 440, "Version specifiers"); and whether the version is a pre-release or
/// a developmental release, 1 or 0 (PEP 440, "Handling of pre-releases"). The list is read first, unless it is compiled: then
/// nothing is allocated for a compiled version, or for a short string in normal form.
pub fn write_match(
    alloc: Global,
    list: &[u8],
    text: &[u8],
    contained: &mut u8,
    prerelease: &mut u8,
) -> u8
    ensures found { ContainsResult list.now text.now contained.old contained.new prerelease.old prerelease.new result }
    ensures memory { MatchesInPlace list.now text.now → result ≢ 3 }
{
    if !has_list_format(list) || !has_version_format(text) {
        return write_string_match(alloc, list, text, contained, prerelease);
    }
    put_match(contains_compiled(list, text), contained, prerelease)
}

/// Whether the list allows the version, 1 or 0 (PEP 440, "Handling of pre-releases"): it matches the version literally, and this is no
/// pre-release and no developmental release unless these are taken. `prereleases` is 0 if they are not, 1 if they are, and else they are
/// if a specifier with another operator than `!=` names one. A set by itself allows versions in it in the same way, but has no list that
/// names one: status 13 if `prereleases` is above 1. The list is read first, unless it is compiled and has its set: then nothing is
/// allocated for a compiled version, or for a short string in normal form.
pub fn write_allow_flag(
    alloc: Global,
    list: &[u8],
    text: &[u8],
    prereleases: u8,
    allowed: &mut u8,
) -> u8
    ensures found { AllowsResult list.now text.now prereleases allowed.old allowed.new result }
    ensures memory { AsksInPlace list.now text.now → result ≢ 3 }
{
    // Before all else, so that what is soon found pays nothing for the rest.
    if let Some(held) = set_contains_soon(list, text) {
        *allowed = flag(held);
        return OK;
    }
    write_any_allow_flag(alloc, list, text, prereleases, allowed)
}

// As `write_allow_flag`, if more has to be looked at.
#[inline(never)]
fn write_any_allow_flag(
    alloc: Global,
    list: &[u8],
    text: &[u8],
    prereleases: u8,
    allowed: &mut u8,
) -> u8
    ensures found { AllowsResult list.now text.now prereleases allowed.old allowed.new result }
    ensures memory { AsksInPlace list.now text.now → result ≢ 3 }
{
    match allows(alloc, list, text, prereleases) {
        Ok(found) => {
            *allowed = flag(found);
            OK
        }
        Err(fault) => fault.status(),
    }
}

// Whether a compiled form has a compiled version in its set, and whether this is a pre-release or a developmental release.
#[inline(always)]
fn find_in_set(set: &[u8], version: &[u8]) -> Result<(bool, bool), Fault>
    requires set { HasFormatOfSets set.now }
    requires version { HasVersionFormat version.now }
    ensures found { HoldsOrFaults (RejectsVersion set.now version.now) (RejectsSet set.now) ⊥
        (λ found. (members : List Spec) (selects : Record → Bool) (r : Record) → Selects set.now members selects
        → BytesDenote version.now r → found ≡ (selects r, any_prerelease r)) result }
    ensures memory { IfErr result (λ f. f ≢ OutOfMemory) }
{
    match pep440_compiled::set_contains(set, version) {
        Ok(found) => Ok(found),
        Err(ContainsError::NoVersion) => Err(Fault::InvalidVersion),
        Err(ContainsError::NoList) => Err(Fault::InvalidList),
    }
}

// Whether pre-releases are taken as the list asks.
#[inline(always)]
fn asks_list(prereleases: u8) -> bool
    ensures { (result ≡ true) ↔ (2 ≤ prereleases) }
{
    prereleases > 1
}

// Whether pre-releases are taken of a compiled form with a set.
fn takes(set: &[u8], prereleases: u8) -> Result<bool, Fault>
    requires set { HasFormatOfSets set.now }
    requires asked { ¬ AsksSet set.now prereleases }
    ensures found { HoldsOrFaults ⊥ (RejectsSet set.now) ⊥ (λ taken. (members : List Spec) (selects : Record → Bool)
        → Selects set.now members selects → taken ≡ takes prereleases members) result }
    ensures memory { IfErr result (λ f. f ≢ OutOfMemory) }
{
    if !asks_list(prereleases) {
        return Ok(prereleases == 1);
    }
    match pep440_compiled::requests_prereleases(set) {
        Ok(requests) => Ok(requests),
        Err(_) => Err(Fault::InvalidList),
    }
}

// Whether a compiled form with a set allows a compiled version. A version in the set is a pre-release seldom.
#[inline(always)]
fn allows_version(set: &[u8], version: &[u8], prereleases: u8) -> Result<bool, Fault>
    requires set { HasFormatOfSets set.now }
    requires asked { ¬ AsksSet set.now prereleases }
    requires version { HasVersionFormat version.now }
    ensures found { HoldsOr (AllowFaults set.now version.now prereleases) (Allows set.now version.now prereleases) result }
    ensures memory { IfErr result (λ f. f ≢ OutOfMemory) }
{
    let (held, is_prerelease) = find_in_set(set, version)?;
    if !held {
        return Ok(false);
    }
    if !is_prerelease {
        return Ok(true);
    }
    takes(set, prereleases)
}

// Whether a compiled form with a set allows a compiled version, in fewer instructions if that is soon found.
#[inline(always)]
fn allows_form(set: &[u8], version: &[u8], prereleases: u8) -> Result<bool, Fault>
    requires set { HasFormatOfSets set.now }
    requires asked { ¬ AsksSet set.now prereleases }
    requires version { HasVersionFormat version.now }
    ensures found { HoldsOr (AllowFaults set.now version.now prereleases) (Allows set.now version.now prereleases) result }
    ensures memory { IfErr result (λ f. f ≢ OutOfMemory) }
{
    match set_contains_soon(set, version) {
        Some(found) => Ok(found),
        None => allows_version(set, version, prereleases),
    }
}

// Whether a compiled form with a set allows the version of a string, which is compiled first.
#[inline(never)]
fn allows_string(alloc: Global, set: &[u8], text: &[u8], prereleases: u8) -> Result<bool, Fault>
    requires set { HasFormatOfSets set.now }
    requires asked { ¬ AsksSet set.now prereleases }
    requires text { ¬ HasVersionFormat text.now }
    ensures found { HoldsOr (AllowFaults set.now text.now prereleases) (Allows set.now text.now prereleases) result }
    ensures memory { IsShortNormalForm text.now → IfErr result (λ f. f ≢ OutOfMemory) }
{
    let mut buffer = FormBuffer::new(alloc);
    match compile_string(alloc, &mut buffer, text) {
        Ok(form) => allows_form(set, form, prereleases),
        Err(fault) => {
            if has_lone_set_format(set) {
                return Err(fault);
            }
            Err(name_fault(alloc, set, fault))
        }
    }
}

// Whether pre-releases are taken of a list that was read.
fn are_taken(list: &VersionSpecifiers, prereleases: u8) -> bool
    ensures { result ≡ takes prereleases list.now }
{
    match prereleases {
        0 => false,
        1 => true,
        _ => list.requests_prereleases(),
    }
}

// Whether a list that is read allows the version that the bytes denote.
#[inline(never)]
fn read_and_ask(alloc: Global, list: &[u8], bytes: &[u8], prereleases: u8) -> Result<bool, Fault>
    requires { ¬ HasLoneSetFormat list.now }
    ensures { HoldsOr (AllowFaults list.now bytes.now prereleases) (Allows list.now bytes.now prereleases) result }
{
    let specifiers = read_list(alloc, list)?;
    let version = read(alloc, bytes)?;
    let taken = are_taken(&specifiers, prereleases);
    Ok(specifiers.allows_literally(alloc, taken, &version)?)
}

// Whether a set by itself is to be asked as its list asks.
#[inline(always)]
fn asks_set(list: &[u8], prereleases: u8) -> bool
    ensures { (result ≡ true) ↔ AsksSet list.now prereleases }
{
    prereleases > 1 && has_lone_set_format(list)
}

// Whether the list allows the version that the bytes denote.
#[inline(always)]
fn allows(alloc: Global, list: &[u8], bytes: &[u8], prereleases: u8) -> Result<bool, Fault>
    ensures found { HoldsOr (AllowFaults list.now bytes.now prereleases) (Allows list.now bytes.now prereleases) result }
    ensures memory { AsksInPlace list.now bytes.now → IfErr result (λ f. f ≢ OutOfMemory) }
{
    if asks_set(list, prereleases) {
        return Err(Fault::NoList);
    }
    if !has_form(list) {
        return read_and_ask(alloc, list, bytes, prereleases);
    }
    if has_version_format(bytes) {
        return allows_version(list, bytes, prereleases);
    }
    allows_string(alloc, list, bytes, prereleases)
}
