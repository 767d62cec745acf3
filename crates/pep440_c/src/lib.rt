//! PEP 440 for C: versions and lists of specifiers, as bytes in the caller's memory.
//!
//! Each function is the one of `pep440_calls` that it calls, which says what is written and each status. The header `callers/c/pep440.h`
//! says it in C's words.
//!
//! A call may allocate from `malloc`, and frees what it allocated before it returns. If `malloc` fails it returns 3, and may be made
//! again.
//!
//! In reading order, as in this file: strings in normal form and the messages of errors; comparing and matching; parts and sort keys; ranges;
//! compiled forms; and the calls on many strings.
#![tactic(auto)]

ghost use Rattle.std.specs.Prelude.{map, not, ◌==◌, ◌≡◌, ◌≢◌};
ghost use Rattle.pep440_rs.specs.Bounds.{range_of, release_range_of};
ghost use Rattle.pep440_calls.specs.Batches.{FilterMarks, FormsResult, KeysResult, NewestResult, SortResult};
ghost use Rattle.pep440_calls.specs.CallResults.{AllowsResult, RequestsPrereleases, AsksInPlace, ContainsResult, IsCompiled, IsCompiledList, IsCompiledSpecifier, IsComplement, IsEditError, IsIntersection, IsKey, IsNormal, IsNormalList, IsRangeLines, IsSpecifier, IsTakenAsList, IsUnion, IsVersionIn, JoinsBoundaries, JoinsMembers, JoinsRangeBounds, LacksRange, MatchesInPlace, NamesPrerelease, NeedsNoMemory, OrderResult, PartsResult, PatternResult, RejectsOperand, RejectsOperator, RejectsSpecifierBytes, SetFault, SubsetResult, TwoSetFaults, WordResult, WritesEdited};
ghost use Rattle.pep440_calls.specs.Explanations.{ErrorResult, IsBuildError, IsNoOperator, RejectsNumbered};
ghost use Rattle.pep440_calls.specs.Statuses.{IsFlagOf, WritesBytes, WritesBytesOr, WritesJoinedOr, WritesOr};
ghost use Rattle.pep440_calls.specs.CallerBytes.{ListFaults, RejectsBytes};

use pep440_calls::{
    Parts, write_allow_flag, write_boundaries, write_build_error, write_compiled,
    write_compiled_list, write_compiled_specifier, write_complement, write_edit_error,
    write_edited, write_error, write_forms, write_intersection, write_marks, write_match,
    write_members, write_newest, write_normal_form, write_normal_list, write_order, write_parts,
    write_pattern, write_positions, write_prerelease_flag, write_range, write_range_bounds,
    write_release_range_bounds, write_request_flag, write_sort_key, write_sort_keys,
    write_specifier, write_subset, write_union, write_version_in, write_word,
};
use std::alloc::Global;

const VERSION_OF_LIBRARY: u32 = 0x00_03_00;

/// The version of the library, a byte for each of its three numbers. Allocates nothing.
#[unsafe(no_mangle)]
pub extern "C" fn pep440_version_of_library() -> u32
    ensures { result ≡ 0x00_03_00 }
{
    VERSION_OF_LIBRARY
}

/// Writes the normal form of the version.
#[unsafe(no_mangle)]
pub extern "C" fn pep440_normalize(
    alloc: Global,
    text: &[u8],
    out: &mut [u8],
    written: &mut usize,
) -> u8
    ensures { WritesBytes (RejectsBytes text.now) ⊥ ⊥ (IsNormal text.now) out.old out.new written.old written.new result }
{
    write_normal_form(alloc, text, out, written)
}

/// Writes the normal form of the list.
#[unsafe(no_mangle)]
pub extern "C" fn pep440_normalize_list(
    alloc: Global,
    list: &[u8],
    out: &mut [u8],
    written: &mut usize,
) -> u8
    ensures { WritesBytesOr (ListFaults ⊥ list.now ⊥) (IsNormalList list.now) out.old out.new written.old written.new result }
{
    write_normal_list(alloc, list, out, written)
}

/// Writes operator and version of each member of the list, as its normal form has them, in their order, and the end of each.
#[unsafe(no_mangle)]
pub extern "C" fn pep440_specifiers_of(
    alloc: Global,
    list: &[u8],
    out: &mut [u8],
    ends: &mut [usize],
    written: &mut usize,
    count: &mut usize,
) -> u8
    ensures { WritesJoinedOr (ListFaults ⊥ list.now ⊥) (JoinsMembers list.now)
        out.old out.new ends.old ends.new written.old written.new count.old count.new result }
{
    write_members(alloc, list, out, ends, written, count)
}

/// Writes the specifier of an operator and a version, as its list prints it; the version may end with `.*` for `==` and `!=`.
#[unsafe(no_mangle)]
pub extern "C" fn pep440_specifier(
    alloc: Global,
    operator: &[u8],
    version: &[u8],
    out: &mut [u8],
    written: &mut usize,
) -> u8
    ensures { WritesBytes (RejectsOperand operator.now version.now) (RejectsOperator operator.now version.now) ⊥
        (IsSpecifier operator.now version.now) out.old out.new written.old written.new result }
{
    write_specifier(alloc, operator, version, out, written)
}

/// Writes the normal form of the version of a pattern, and whether `.*` follows it, 1 or 0.
#[unsafe(no_mangle)]
pub extern "C" fn pep440_pattern(
    alloc: Global,
    pattern: &[u8],
    out: &mut [u8],
    written: &mut usize,
    star: &mut u8,
) -> u8
    ensures { PatternResult pattern.now out.old out.new written.old written.new star.old star.new result }
{
    write_pattern(alloc, pattern, out, written, star)
}

/// Writes the version after the changes, one after the other, with its sentinels; the program's command `edit` takes the same words.
#[unsafe(no_mangle)]
pub extern "C" fn pep440_edit(
    alloc: Global,
    text: &[u8],
    changes: &[&[u8]],
    out: &mut [u8],
    written: &mut usize,
) -> u8
    ensures { WritesEdited text.now (map (λ t. t.now) changes.now) out.old out.new written.old written.new result }
{
    write_edited(alloc, text, changes, out, written)
}

/// Writes why the version cannot be changed so, or why the string is none; nothing if it can.
#[unsafe(no_mangle)]
pub extern "C" fn pep440_edit_error(
    alloc: Global,
    text: &[u8],
    changes: &[&[u8]],
    out: &mut [u8],
    written: &mut usize,
) -> u8
    ensures { WritesBytes ⊥ ⊥ ⊥ (IsEditError text.now (map (λ t. t.now) changes.now)) out.old out.new written.old written.new result }
{
    write_edit_error(alloc, text, changes, out, written)
}

/// Writes why the bytes are no version, no pattern, no specifier or no list, as `kind` is 0, 1, 2 or 3; nothing if they are one.
#[unsafe(no_mangle)]
pub extern "C" fn pep440_error(
    alloc: Global,
    kind: u8,
    bytes: &[u8],
    out: &mut [u8],
    written: &mut usize,
) -> u8
    ensures { ErrorResult kind bytes.now out.old out.new written.old written.new result }
{
    write_error(alloc, kind, bytes, out, written)
}

/// How the left version compares with the right one: -1 below, 0 equal, 1 above.
#[unsafe(no_mangle)]
pub extern "C" fn pep440_compare(alloc: Global, left: &[u8], right: &[u8], order: &mut i8) -> u8
    ensures found { OrderResult left.now right.now order.old order.new result }
    ensures memory { NeedsNoMemory left.now → NeedsNoMemory right.now → result ≢ 3 }
{
    write_order(alloc, left, right, order)
}

/// Whether the list contains the version, 1 or 0; and whether the version is a pre-release or a developmental release, 1 or 0.
#[unsafe(no_mangle)]
pub extern "C" fn pep440_contains(
    alloc: Global,
    list: &[u8],
    text: &[u8],
    contained: &mut u8,
    prerelease: &mut u8,
) -> u8
    ensures found { ContainsResult list.now text.now contained.old contained.new prerelease.old prerelease.new result }
    ensures memory { MatchesInPlace list.now text.now → result ≢ 3 }
{
    write_match(alloc, list, text, contained, prerelease)
}

/// Whether the list allows the version, 1 or 0: it matches the version literally, and this is no pre-release and no developmental release unless `prereleases` is 1, or is not 0 and a specifier with another operator than `!=` names one.
#[unsafe(no_mangle)]
pub extern "C" fn pep440_allows(
    alloc: Global,
    list: &[u8],
    text: &[u8],
    prereleases: u8,
    allowed: &mut u8,
) -> u8
    ensures found { AllowsResult list.now text.now prereleases allowed.old allowed.new result }
    ensures memory { AsksInPlace list.now text.now → result ≢ 3 }
{
    write_allow_flag(alloc, list, text, prereleases, allowed)
}

/// Whether a version of the list's specifiers is a pre-release or a developmental release, 1 or 0.
#[unsafe(no_mangle)]
pub extern "C" fn pep440_any_prerelease(alloc: Global, list: &[u8], any: &mut u8) -> u8
    ensures { WritesOr (ListFaults ⊥ list.now ⊥) (IsFlagOf (NamesPrerelease list.now)) any.old any.new result }
{
    write_prerelease_flag(alloc, list, any)
}

/// Whether the list asks for pre-releases, 1 or 0.
#[unsafe(no_mangle)]
pub extern "C" fn pep440_requests_prereleases(alloc: Global, list: &[u8], requests: &mut u8) -> u8
    ensures found { WritesOr (ListFaults ⊥ list.now ⊥) (IsFlagOf (RequestsPrereleases list.now)) requests.old requests.new result }
    ensures memory { IsTakenAsList list.now → result ≢ 3 }
{
    write_request_flag(alloc, list, requests)
}

/// Writes a version that the list matches literally, and nothing if it matches none that a string denotes.
#[unsafe(no_mangle)]
pub extern "C" fn pep440_version_in(
    alloc: Global,
    list: &[u8],
    out: &mut [u8],
    written: &mut usize,
) -> u8
    ensures { WritesBytesOr (ListFaults ⊥ list.now ⊥) (IsVersionIn list.now) out.old out.new written.old written.new result }
{
    write_version_in(alloc, list, out, written)
}

/// Writes the parts of the version, and the numbers of its release.
#[unsafe(no_mangle)]
pub extern "C" fn pep440_parts_of(
    alloc: Global,
    text: &[u8],
    parts: &mut Parts,
    release: &mut [u64],
) -> u8
    ensures { PartsResult text.now parts.old parts.new release.old release.new result }
{
    write_parts(alloc, text, parts, release)
}

/// Writes the sort key of the version: `memcmp` orders keys as their versions.
#[unsafe(no_mangle)]
pub extern "C" fn pep440_sort_key(
    alloc: Global,
    text: &[u8],
    out: &mut [u8],
    written: &mut usize,
) -> u8
    ensures found { WritesBytes (RejectsBytes text.now) ⊥ ⊥ (IsKey text.now) out.old out.new written.old written.new result }
    ensures memory { NeedsNoMemory text.now → result ≢ 3 }
{
    write_sort_key(alloc, text, out, written)
}

/// Writes the word of the version: words are numbers in the order of their versions.
#[unsafe(no_mangle)]
pub extern "C" fn pep440_word(alloc: Global, text: &[u8], word: &mut u64) -> u8
    ensures { WordResult text.now word.old word.new result }
{
    write_word(alloc, text, word)
}

/// Writes the range of the list, a segment a line.
#[unsafe(no_mangle)]
pub extern "C" fn pep440_ranges(
    alloc: Global,
    list: &[u8],
    out: &mut [u8],
    written: &mut usize,
) -> u8
    ensures { WritesBytesOr (ListFaults ⊥ list.now (LacksRange range_of list.now)) (IsRangeLines list.now)
        out.old out.new written.old written.new result }
{
    write_range(alloc, list, out, written)
}

/// Writes the set, of a list or by itself, as sort keys, two an interval, and where each of them ends: the set has a version if its key is at least the first of an interval and below the second.
#[unsafe(no_mangle)]
pub extern "C" fn pep440_boundaries(
    alloc: Global,
    set: &[u8],
    out: &mut [u8],
    ends: &mut [usize],
    written: &mut usize,
    count: &mut usize,
) -> u8
    ensures { WritesJoinedOr (SetFault set.now) (JoinsBoundaries set.now)
        out.old out.new ends.old ends.new written.old written.new count.old count.new result }
{
    write_boundaries(alloc, set, out, ends, written, count)
}

/// Writes the versions that are not in the set, of a list or by itself, as a set by itself.
#[unsafe(no_mangle)]
pub extern "C" fn pep440_complement(
    alloc: Global,
    set: &[u8],
    out: &mut [u8],
    written: &mut usize,
) -> u8
    ensures { WritesBytesOr (SetFault set.now) (IsComplement set.now) out.old out.new written.old written.new result }
{
    write_complement(alloc, set, out, written)
}

/// Writes the versions that are in both sets, of lists or by themselves, as a set by itself.
#[unsafe(no_mangle)]
pub extern "C" fn pep440_intersection(
    alloc: Global,
    left: &[u8],
    right: &[u8],
    out: &mut [u8],
    written: &mut usize,
) -> u8
    ensures { WritesBytesOr (TwoSetFaults left.now right.now) (IsIntersection left.now right.now) out.old out.new written.old written.new result }
{
    write_intersection(alloc, left, right, out, written)
}

/// Writes the versions that are in one of the sets, of lists or by themselves, as a set by itself.
#[unsafe(no_mangle)]
pub extern "C" fn pep440_union(
    alloc: Global,
    left: &[u8],
    right: &[u8],
    out: &mut [u8],
    written: &mut usize,
) -> u8
    ensures { WritesBytesOr (TwoSetFaults left.now right.now) (IsUnion left.now right.now) out.old out.new written.old written.new result }
{
    write_union(alloc, left, right, out, written)
}

/// Whether each version of the left set, of a list or by itself, is in the right one, 1 or 0.
#[unsafe(no_mangle)]
pub extern "C" fn pep440_is_subset(alloc: Global, left: &[u8], right: &[u8], inside: &mut u8) -> u8
    ensures { SubsetResult left.now right.now inside.old inside.new result }
{
    write_subset(alloc, left, right, inside)
}

/// Writes the range of the list as bounds, two a segment, and where each of them ends: only 0 for no bound, else 1 for an included or 2 for an excluded version, and its compiled form; for one with a sentinel 4 and its sort key and zeros, as of other versions.
#[unsafe(no_mangle)]
pub extern "C" fn pep440_range_bounds(
    alloc: Global,
    list: &[u8],
    out: &mut [u8],
    ends: &mut [usize],
    written: &mut usize,
    count: &mut usize,
) -> u8
    ensures { WritesJoinedOr (ListFaults ⊥ list.now (LacksRange range_of list.now)) (JoinsRangeBounds range_of list.now)
        out.old out.new ends.old ends.new written.old written.new count.old count.new result }
{
    write_range_bounds(alloc, list, out, ends, written, count)
}

/// Writes the release-only range of the list, in the form of `pep440_range_bounds`.
#[unsafe(no_mangle)]
pub extern "C" fn pep440_release_range_bounds(
    alloc: Global,
    list: &[u8],
    out: &mut [u8],
    ends: &mut [usize],
    written: &mut usize,
    count: &mut usize,
) -> u8
    ensures { WritesJoinedOr (ListFaults ⊥ list.now (LacksRange release_range_of list.now))
        (JoinsRangeBounds release_range_of list.now) out.old out.new ends.old ends.new written.old written.new count.old count.new result }
{
    write_release_range_bounds(alloc, list, out, ends, written, count)
}

/// Writes the compiled form of the version.
#[unsafe(no_mangle)]
pub extern "C" fn pep440_compile(
    alloc: Global,
    text: &[u8],
    out: &mut [u8],
    written: &mut usize,
) -> u8
    ensures found { WritesBytes (RejectsBytes text.now) ⊥ ⊥ (IsCompiled text.now) out.old out.new written.old written.new result }
    ensures memory { NeedsNoMemory text.now → result ≢ 3 }
{
    write_compiled(alloc, text, out, written)
}

/// Writes the compiled form of the list.
#[unsafe(no_mangle)]
pub extern "C" fn pep440_compile_list(
    alloc: Global,
    list: &[u8],
    out: &mut [u8],
    written: &mut usize,
) -> u8
    ensures { WritesBytesOr (ListFaults ⊥ list.now ⊥) (IsCompiledList list.now) out.old out.new written.old written.new result }
{
    write_compiled_list(alloc, list, out, written)
}

/// Writes the compiled form of the list of the one specifier that the string denotes.
#[unsafe(no_mangle)]
pub extern "C" fn pep440_compile_specifier(
    alloc: Global,
    specifier: &[u8],
    out: &mut [u8],
    written: &mut usize,
) -> u8
    ensures { WritesBytes ⊥ (RejectsSpecifierBytes specifier.now) ⊥ (IsCompiledSpecifier specifier.now)
        out.old out.new written.old written.new result }
{
    write_compiled_specifier(alloc, specifier, out, written)
}

/// Writes why the operator of this number, its position in `Operator`, and the version make no specifier; nothing if they do.
#[unsafe(no_mangle)]
pub extern "C" fn pep440_build_error(
    alloc: Global,
    operator: u8,
    text: &[u8],
    star: u8,
    out: &mut [u8],
    written: &mut usize,
) -> u8
    ensures { WritesBytes (RejectsNumbered operator text.now) (IsNoOperator operator) ⊥
        (IsBuildError operator text.now (not (star == 0))) out.old out.new written.old written.new result }
{
    write_build_error(alloc, operator, text, star, out, written)
}

/// Writes a mark for each string, in order: 1 the list matches its version literally, 3 it does and this is a pre-release or a developmental release, 0 it doesn't, 2 it is no version.
#[unsafe(no_mangle)]
pub extern "C" fn pep440_filter(alloc: Global, list: &[u8], texts: &[&[u8]], marks: &mut [u8]) -> u8
    ensures { FilterMarks list.now (map (λ t. t.now) texts.now) marks.old marks.new result }
{
    write_marks(alloc, list, texts, marks)
}

/// Writes the index of the newest version that the list matches literally, and of equal ones the first; strings that are no version are passed over.
#[unsafe(no_mangle)]
pub extern "C" fn pep440_newest(
    alloc: Global,
    list: &[u8],
    texts: &[&[u8]],
    index: &mut usize,
) -> u8
    ensures { NewestResult list.now (map (λ t. t.now) texts.now) index.old index.new result }
{
    write_newest(alloc, list, texts, index)
}

/// Writes the positions of the strings in the order of their versions, equal ones in the order given.
#[unsafe(no_mangle)]
pub extern "C" fn pep440_sort(
    alloc: Global,
    texts: &[&[u8]],
    places: &mut [usize],
    at: &mut usize,
) -> u8
    ensures { SortResult (map (λ t. t.now) texts.now) places.old places.new at.old at.new result }
{
    write_positions(alloc, texts, places, at)
}

/// Writes the sort keys of the strings, one after the other, and the end of each.
#[unsafe(no_mangle)]
pub extern "C" fn pep440_sort_keys(
    alloc: Global,
    texts: &[&[u8]],
    out: &mut [u8],
    ends: &mut [usize],
    written: &mut usize,
    at: &mut usize,
) -> u8
    ensures { KeysResult (map (λ t. t.now) texts.now) out.old out.new ends.old ends.new written.old written.new at.old at.new result }
{
    write_sort_keys(alloc, texts, out, ends, written, at)
}

/// Writes the compiled forms of the strings, one after the other, and the end of each.
#[unsafe(no_mangle)]
pub extern "C" fn pep440_compile_all(
    alloc: Global,
    texts: &[&[u8]],
    out: &mut [u8],
    ends: &mut [usize],
    written: &mut usize,
    at: &mut usize,
) -> u8
    ensures { FormsResult (map (λ t. t.now) texts.now) out.old out.new ends.old ends.new written.old written.new at.old at.new result }
{
    write_forms(alloc, texts, out, ends, written, at)
}
