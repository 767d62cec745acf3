//! The members of compiled lists: made, read, asked.
ghost use Rattle.std.specs.Prelude.{◌≡◌, ◌↔◌, ◌+◌, ◌++◌, ◌<◌, ◌≤◌, ℕ, not, if◌then◌else◌, List, false, true, length, Ok, Some, IfErr, IfOk, IfSome, MatchOption, OnOk};
ghost use Rattle.std.specs.List.{All, flat_map};
ghost use Rattle.pep440_compiled.specs.KeyParts.{BeginsOtherwise};
ghost use Rattle.pep440_compiled.specs.Lists.{DenotesMembers, HasMembersFormat, IsParsedMember, member_bytes};
ghost use Rattle.pep440_compiled.specs.Version.{DenotesVersion, HasVersionFormat, version_bytes};
ghost use Rattle.pep440_version.specs.RoundTrip.{IsParsed};
ghost use Rattle.pep440_compiled.specs.KeyViews.{HasKey, HasParts, IsDecided};
ghost use Rattle.pep440_compiled.specs.declared.error.CompileError.TheVariants.{NotParsed};
ghost use Rattle.pep440_compiled.specs.declared.error.CompiledError.TheVariants as unread;
ghost use Rattle.pep440_compiled.specs.declared.error.ContainsError.TheVariants.{NoList, NoVersion};
ghost use Rattle.pep440_rs.specs.Matching.{any_prerelease, has_prefix, list_matches, matches};
ghost use Rattle.pep440_rs.specs.Operators.{operator_rank};
ghost use Rattle.pep440_rs.specs.Prereleases.{requests_prerelease, requests_prereleases};
ghost use Rattle.pep440_rs.specs.Specifiers.{Spec};
ghost use Rattle.pep440_keys.specs.SortKeys.{key_bytes};
ghost use Rattle.pep440_version.specs.Key.{record_cmp};
ghost use Rattle.pep440_version.specs.Record.{Record};

use crate::byte_order::cmp_common;
use crate::decode::decode_version;
use crate::error::{CompileError, CompiledError, ContainsError, NotCompiled};
use crate::key_parts::skip_zeros;
use crate::matching::{begins_with_release, matches_bytes, matches_order};
use crate::parsed::is_parsed;
use crate::version::push_version;
use crate::views::{
    KeyView, PartsView, split_final, strip_format, view_key, view_parts, view_version_parts,
};
use pep440_rs::{Operator, VersionSpecifier, VersionSpecifiers};
use std::alloc::{AllocError, Global};
use std::cmp::Ordering;

// The format of members alone.
const MEMBERS: u8 = 5;

// Added to the number of an operator, so that no member begins as the zeros after a key do.
const OPERATOR: u8 = 16;

// The first bytes of members of the star forms.
const EQUAL_STAR: u8 = 17;

const NOT_EQUAL_STAR: u8 = 20;

// Whether the bytes begin with the format byte of members alone.
pub(crate) fn has_members_format(bytes: &[u8]) -> bool
    ensures { (result ≡ true) ↔ HasMembersFormat bytes.now }
{
    bytes.first() == Some(&MEMBERS)
}

// All versions are such that strings parse to them.
fn have_parsed_versions(members: &[VersionSpecifier]) -> bool
    ensures members { result ≡ true → All IsParsedMember members.now }
    ensures versions { All (λ (s : Spec). IsParsed s.version) members.now → result ≡ true }
{
    for member in members {
        if !is_parsed(member.version()) {
            return false;
        }
    }
    true
}

fn push_member(bytes: &mut Vec<u8>, member: &VersionSpecifier) -> Result<(), AllocError>
    ensures { OnOk result (bytes.new.items ≡ bytes.old.items ++ member_bytes member.now) }
{
    bytes.push(OPERATOR + member.operator().number())?;
    push_version(bytes, member.version())
}

// The members of a list; `NotParsed` if no string parses to the version of some member.
pub(crate) fn compile_members(
    alloc: Global,
    list: &VersionSpecifiers,
) -> Result<Vec<u8>, CompileError>
    ensures ok { IfOk result (λ bytes. DenotesMembers bytes.items list.now) }
    ensures err { IfErr result (λ e. e ≡ NotParsed → All (λ (s : Spec). IsParsed s.version) list.now → ⊥) }
{
    let members = list.as_slice();
    if !have_parsed_versions(members) {
        return Err(CompileError::NotParsed);
    }
    // An estimate: more bytes allocate again.
    let mut bytes = Vec::with_capacity(alloc, members.len().saturating_mul(16).saturating_add(1))?;
    bytes.push(MEMBERS)?;
    for member in members {
        push_member(&mut bytes, member)?;
    }
    Ok(bytes)
}

// A member: its operator, and the parts of its version.
#[derive(Clone, Copy)]
struct MemberView<'a> {
    operator: Operator,
    parts: PartsView<'a>,
}

// The operator of a member, whose first byte this is.
#[inline(always)]
fn read_operator(first: u8) -> Option<Operator>
    ensures { (o : Operator) → first ≡ 16 + operator_rank o → MatchOption result ⊥ (λ r. r ≡ o) }
{
    Operator::from_number(first.checked_sub(OPERATOR)?)
}

// The leading member, and the rest.
#[inline(always)]
fn view_member(bytes: &[u8]) -> Option<(MemberView<'_>, &[u8])>
    ensures found { (s : Spec) (rest : List ℕ) → IsParsedMember s → BeginsOtherwise 1 rest
        → bytes.now ≡ member_bytes s ++ rest → MatchOption result ⊥
        (λ p. (p.0.operator ≡ s.operator) × HasParts p.0.parts s.version × (p.1.now ≡ rest)) }
    ensures shorter { IfSome result (λ p. length p.1.now < length bytes.now) }
{
    let (first, rest) = bytes.split_first()?;
    let operator = read_operator(*first)?;
    let (parts, rest) = view_parts(rest)?;
    Some((MemberView { operator, parts }, rest))
}

// What follows the format of lists.
fn view_members(bytes: &[u8]) -> Option<&[u8]>
    ensures found { (list : List Spec) → DenotesMembers bytes.now list → MatchOption result ⊥ (λ rest. rest.now ≡ flat_map member_bytes list) }
    ensures format { IfSome result (λ _. HasMembersFormat bytes.now) }
{
    match bytes.split_first() {
        Some((&MEMBERS, rest)) => Some(rest),
        _ => None,
    }
}

// What follows the sort key of a member, and the order decides; `None` if more than the order counts.
#[inline(always)]
fn skip_key<'a>(member: &'a [u8], order: Ordering, version: &KeyView<'_>) -> Option<&'a [u8]>
    ensures found { (s v : Record) (rest : List ℕ) → IsParsed s → HasKey version.now v → order ≡ record_cmp v s
        → member.now ≡ key_bytes s ++ rest → IfSome result (λ r. (r.now ≡ rest) × IsDecided order s v) }
    ensures shorter { IfSome result (λ r. length r.now ≤ length member.now) }
{
    if order.is_eq() {
        let (_, rest) = member.split_at_checked(version.key.len())?;
        return Some(rest);
    }
    if !version.is_final {
        return None;
    }
    let (_, rest) = split_final(member)?;
    Some(rest)
}

// What follows a member, whose first byte this is, if the version meets it; of the operators that only compare.
#[inline(always)]
fn compare_member<'a>(
    first: u8,
    member: &'a [u8],
    version: &KeyView<'_>,
) -> Option<Option<&'a [u8]>>
    ensures found { (s : Spec) (v : Record) (rest : List ℕ) → first ≡ 16 + operator_rank s.operator
        → IsParsed s.version → HasKey version.now v → BeginsOtherwise 1 rest
        → member.now ≡ version_bytes s.version ++ rest
        → IfSome result (λ o. MatchOption o (matches s.operator s.version v ≡ false)
        (λ r. (matches s.operator s.version v ≡ true) × (r.now ≡ rest))) }
    ensures shorter { IfSome result (λ o. IfSome o (λ r. length r.now ≤ length member.now)) }
{
    let order = cmp_common(version.key, member);
    let rest = skip_key(member, order, version)?;
    // After the order, so that one test serves for reading the operator and for the choice.
    let operator = read_operator(first)?;
    if matches_order(operator, order)? {
        Some(Some(skip_zeros(rest)))
    } else {
        Some(None)
    }
}

// What follows a member of a star form, if the version meets it; `None` if the member has more than a release, or zeros at its end.
#[inline(always)]
fn match_star<'a>(
    is_exclusion: bool,
    member: &'a [u8],
    version: &KeyView<'_>,
) -> Option<Option<&'a [u8]>>
    ensures found { (s v : Record) (rest : List ℕ) → IsParsed s → HasKey version.now v → BeginsOtherwise 1 rest
        → member.now ≡ version_bytes s ++ rest → let found =
        (if is_exclusion then not (has_prefix s s.release v) else has_prefix s s.release v) in IfSome result
        (λ o. MatchOption o (found ≡ false) (λ r. (found ≡ true) × (r.now ≡ rest))) }
    ensures shorter { IfSome result (λ o. IfSome o (λ r. length r.now ≤ length member.now)) }
{
    let (release, after) = split_final(member)?;
    let rest = skip_zeros(after);
    if rest.len() < after.len() {
        return None;
    }
    if begins_with_release(version.key, release) == is_exclusion {
        return Some(None);
    }
    Some(Some(rest))
}

// What follows a member, whose first byte this is, if the version meets it; `None` if more than the order or a prefix decides.
#[inline(always)]
fn meet_member<'a>(first: u8, member: &'a [u8], version: &KeyView<'_>) -> Option<Option<&'a [u8]>>
    ensures found { (s : Spec) (v : Record) (rest : List ℕ) → first ≡ 16 + operator_rank s.operator
        → IsParsed s.version → HasKey version.now v → BeginsOtherwise 1 rest
        → member.now ≡ version_bytes s.version ++ rest
        → IfSome result (λ o. MatchOption o (matches s.operator s.version v ≡ false)
        (λ r. (matches s.operator s.version v ≡ true) × (r.now ≡ rest))) }
    ensures shorter { IfSome result (λ o. IfSome o (λ r. length r.now ≤ length member.now)) }
{
    if first == EQUAL_STAR {
        return match_star(false, member, version);
    }
    if first == NOT_EQUAL_STAR {
        return match_star(true, member, version);
    }
    compare_member(first, member, version)
}

// Whether the list contains the version, as `contains_any` and in fewer instructions, if that is soon found; never of a
// pre-release or a developmental release.
#[inline(always)]
fn contains_final(list: &[u8], version: &[u8]) -> Option<bool>
    ensures found { (l : List Spec) (r : Record) → DenotesMembers list.now l → DenotesVersion version.now r
        → IfSome result (λ b. b ≡ list_matches l r) }
    ensures prerelease { (r : Record) → DenotesVersion version.now r → IfSome result (λ _. any_prerelease r ≡ false) }
    ensures format { IfSome result (λ _. HasMembersFormat list.now × HasVersionFormat version.now) }
{
    let version = view_key(strip_format(version)?)?;
    let mut left = view_members(list)?;
    while let Some((first, member)) = left.split_first() {
        match meet_member(*first, member, &version)? {
            Some(rest) => left = rest,
            None => return Some(false),
        }
    }
    Some(true)
}

// As `contains`, by the parts of the version. A call of its own, so that what is soon found pays nothing for it.
#[inline(never)]
fn contains_any(list: &[u8], version: &[u8]) -> Result<(bool, bool), ContainsError>
    ensures found { (l : List Spec) (r : Record) → DenotesMembers list.now l → DenotesVersion version.now r
        → result ≡ Ok (list_matches l r, any_prerelease r) }
    ensures prerelease { (r : Record) → DenotesVersion version.now r → IfOk result (λ found. found.1 ≡ any_prerelease r) }
    ensures format { IfOk result (λ _. HasMembersFormat list.now × HasVersionFormat version.now) }
    ensures version { IfErr result (λ e. e ≡ NoVersion → (r : Record) → DenotesVersion version.now r → ⊥) }
    ensures list { IfErr result (λ e. e ≡ NoList → (l : List Spec) → DenotesMembers list.now l → ⊥) }
{
    let Some(version) = view_version_parts(version) else {
        return Err(ContainsError::NoVersion);
    };
    let Some(mut left) = view_members(list) else {
        return Err(ContainsError::NoList);
    };
    let is_prerelease = version.suffix.is_prerelease;
    while !left.is_empty() {
        let Some((member, rest)) = view_member(left) else {
            return Err(ContainsError::NoList);
        };
        if !matches_bytes(member.operator, &member.parts, &version) {
            return Ok((false, is_prerelease));
        }
        left = rest;
    }
    Ok((true, is_prerelease))
}

// Whether the members contain the version, and whether this is a pre-release or a developmental release.
#[inline(always)]
pub(crate) fn contains(list: &[u8], version: &[u8]) -> Result<(bool, bool), ContainsError>
    ensures found { (l : List Spec) (r : Record) → DenotesMembers list.now l → DenotesVersion version.now r
        → result ≡ Ok (list_matches l r, any_prerelease r) }
    ensures prerelease { (r : Record) → DenotesVersion version.now r → IfOk result (λ found. found.1 ≡ any_prerelease r) }
    ensures format { IfOk result (λ _. HasMembersFormat list.now × HasVersionFormat version.now) }
    ensures version { IfErr result (λ e. e ≡ NoVersion → (r : Record) → DenotesVersion version.now r → ⊥) }
    ensures list { IfErr result (λ e. e ≡ NoList → (l : List Spec) → DenotesMembers list.now l → ⊥) }
{
    match contains_final(list, version) {
        Some(found) => Ok((found, false)),
        // taken apart, or what is soon found has a place in memory, too
        None => Ok(contains_any(list, version)?),
    }
}

fn requests_prerelease(member: MemberView<'_>) -> bool
    ensures { (s : Spec) → member.entry.operator ≡ s.operator → HasParts member.entry.parts s.version → result ≡ requests_prerelease s }
{
    !member.operator.is_exclusion() && member.parts.suffix.is_prerelease
}

// Whether some member with another operator than `!=` names a pre-release or a developmental release.
pub(crate) fn requests_prereleases(bytes: &[u8]) -> Result<bool, NotCompiled>
    ensures found { (l : List Spec) → DenotesMembers bytes.now l → result ≡ Ok (requests_prereleases l) }
    ensures format { IfOk result (λ _. HasMembersFormat bytes.now) }
{
    let Some(members) = view_members(bytes) else {
        return Err(NotCompiled);
    };
    let mut left = members;
    while !left.is_empty() {
        let Some((member, rest)) = view_member(left) else {
            return Err(NotCompiled);
        };
        if requests_prerelease(member) {
            return Ok(true);
        }
        left = rest;
    }
    Ok(false)
}

// The specifier of a member.
fn decode_member(
    alloc: Global,
    member: MemberView<'_>,
) -> Result<Option<VersionSpecifier>, AllocError>
    ensures { (s : Spec) → IsParsedMember s → member.entry.operator ≡ s.operator
        → HasParts member.entry.parts s.version → IfOk result (λ o. o ≡ Some s) }
{
    let Some(version) = decode_version(alloc, member.parts.version)? else {
        return Ok(None);
    };
    if matches!(member.operator, Operator::TildeEqual) && version.release().len() < 2 {
        return Ok(None);
    }
    Ok(Some(VersionSpecifier::from_parts(member.operator, version)))
}

// The specifiers of the members.
fn decode_members(alloc: Global, bytes: &[u8]) -> Result<Option<Vec<VersionSpecifier>>, AllocError>
    ensures { (list : List Spec) → All IsParsedMember list → bytes.now ≡ flat_map member_bytes list
        → IfOk result (λ o. MatchOption o ⊥ (λ members. members.items ≡ list)) }
{
    let mut members = Vec::new(alloc);
    let mut left = bytes;
    while !left.is_empty() {
        let Some((member, rest)) = view_member(left) else {
            return Ok(None);
        };
        let Some(specifier) = decode_member(alloc, member)? else {
            return Ok(None);
        };
        members.push(specifier)?;
        left = rest;
    }
    Ok(Some(members))
}

// The bytes are the compiled form of this list.
fn is_compiled_form(
    alloc: Global,
    list: &VersionSpecifiers,
    bytes: &[u8],
) -> Result<bool, AllocError>
    ensures { IfOk result (λ b. (b ≡ true) ↔ DenotesMembers bytes.now list.now) }
{
    match compile_members(alloc, list) {
        Ok(compiled) => Ok(compiled.as_slice() == bytes),
        Err(CompileError::NotParsed) => Ok(false),
        Err(CompileError::OutOfMemory) => Err(AllocError),
    }
}

// The list whose members the bytes are; `NotCompiled` if they are none.
pub(crate) fn read_members(alloc: Global, bytes: &[u8]) -> Result<VersionSpecifiers, CompiledError>
    ensures ok { IfOk result (λ l. DenotesMembers bytes.now l) }
    ensures err { IfErr result (λ e. e ≡ unread.NotCompiled → (l : List Spec) → DenotesMembers bytes.now l → ⊥) }
{
    let Some(members) = view_members(bytes) else {
        return Err(CompiledError::NotCompiled);
    };
    let Some(members) = decode_members(alloc, members)? else {
        return Err(CompiledError::NotCompiled);
    };
    let list = VersionSpecifiers::from_specifiers(alloc, members)?;
    // Bytes that no list compiles to are decoded to something, too.
    if !is_compiled_form(alloc, &list, bytes)? {
        return Err(CompiledError::NotCompiled);
    }
    Ok(list)
}
