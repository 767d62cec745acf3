//! The keys of a set, and what is made of one set or of two, each of a list or a set by itself.
ghost use Rattle.std.specs.Prelude.{◌≡◌, ◌↔◌, IfOk, map, true};
ghost use Rattle.pep440_compiled.specs.SetForms.{HasFormatOfSets, HasLoneSetFormat, HasSet};
ghost use Rattle.pep440_rs.specs.Bounds.{Segments};
ghost use Rattle.pep440_calls.specs.CallerBytes.{RejectsListBytes};
ghost use Rattle.pep440_calls.specs.Statuses.{HoldsOr, Joins, SetFaults, WritesBytesOr, WritesJoinedOr};
ghost use Rattle.pep440_calls.specs.CallResults.{HasListSet, LacksListSet, IsComplement, IsFormOf, IsInside, IsIntersection, IsUnion, JoinsBoundaries, SetFault, SubsetResult, TwoSetFaults, form_bytes};

use crate::buffer::{OK, flag, put_bytes, put_joined};
use crate::fault::Fault;
use crate::joined_strings::JoinedStrings;
use crate::one_list::compile_list;
use pep440_compiled::{has_lone_set_format, has_set_format};
use std::alloc::{AllocError, Global};

/// Writes the set as sort keys, two an interval, and where each of them ends: the set has a version exactly if its key is at least the first
/// and below the second of some interval (PEP 440, "Version specifiers"). No bytes stand for no bound. Reports how many bytes and how many
/// keys there are. The set is that of a list or a set by itself. Status 12 if the list has no set.
pub fn write_boundaries(
    alloc: Global,
    set: &[u8],
    out: &mut [u8],
    ends: &mut [usize],
    written: &mut usize,
    count: &mut usize,
) -> u8
    ensures { WritesJoinedOr (SetFault set.now) (JoinsBoundaries set.now)
        out.old out.new ends.old ends.new written.old written.new count.old count.new result }
{
    put_joined(to_boundaries(alloc, set), out, ends, written, count)
}

/// Writes the versions that are not in the set, as a set by itself. The set is as of `write_boundaries`.
pub fn write_complement(alloc: Global, set: &[u8], out: &mut [u8], written: &mut usize) -> u8
    ensures { WritesBytesOr (SetFault set.now) (IsComplement set.now) out.old out.new written.old written.new result }
{
    put_bytes(complement(alloc, set), out, written)
}

/// Writes the versions that are in both sets, as `write_complement`.
pub fn write_intersection(
    alloc: Global,
    left: &[u8],
    right: &[u8],
    out: &mut [u8],
    written: &mut usize,
) -> u8
    ensures { WritesBytesOr (TwoSetFaults left.now right.now) (IsIntersection left.now right.now) out.old out.new written.old written.new result }
{
    put_bytes(intersection(alloc, left, right), out, written)
}

/// Writes the versions that are in one of the sets, as `write_complement`.
pub fn write_union(
    alloc: Global,
    left: &[u8],
    right: &[u8],
    out: &mut [u8],
    written: &mut usize,
) -> u8
    ensures { WritesBytesOr (TwoSetFaults left.now right.now) (IsUnion left.now right.now) out.old out.new written.old written.new result }
{
    put_bytes(union(alloc, left, right), out, written)
}

/// Whether each version of the left set is in the right one, 1 or 0. The sets are as of `write_complement`.
pub fn write_subset(alloc: Global, left: &[u8], right: &[u8], inside: &mut u8) -> u8
    ensures { SubsetResult left.now right.now inside.old inside.new result }
{
    match is_subset(alloc, left, right) {
        Ok(found) => {
            *inside = flag(found);
            OK
        }
        Err(fault) => fault.status(),
    }
}

// A set as a compiled form: as the caller has it, or made of a list.
#[derive(Drop)]
pub(crate) enum SetForm<'a> {
    Given(&'a [u8]),
    Made(Vec<u8>),
}

impl SetForm<'_> {
    fn as_slice(&self) -> &[u8]
        ensures { result.now ≡ form_bytes self.now }
    {
        match self {
            SetForm::Given(bytes) => bytes,
            SetForm::Made(bytes) => bytes.as_slice(),
        }
    }
}

// The compiled form of a list with its set.
#[tactic(auto, using(crate::proofs::Allowed::with_set))]
fn compile_set(alloc: Global, list: &[u8]) -> Result<Vec<u8>, Fault>
    requires { ¬ HasLoneSetFormat list.now }
    ensures { HoldsOr (SetFaults (RejectsListBytes list.now) ⊥ (LacksListSet list.now))
        (λ form. (s : Segments) × HasListSet list.now s × HasSet form.items s) result }
{
    let form = compile_list(alloc, list)?;
    if !has_set_format(form.as_slice()) {
        return Err(Fault::NoSet);
    }
    Ok(form)
}

// Whether the bytes begin as a compiled form that has a set.
pub(crate) fn has_form(bytes: &[u8]) -> bool
    ensures { (result ≡ true) ↔ HasFormatOfSets bytes.now }
{
    has_set_format(bytes) || has_lone_set_format(bytes)
}

// The set of the bytes as a compiled form. Forms with sets are taken as they lie.
fn to_form(alloc: Global, bytes: &[u8]) -> Result<SetForm<'_>, Fault>
    ensures { HoldsOr (SetFaults (RejectsListBytes bytes.now) ⊥ (LacksListSet bytes.now)) (λ form. IsFormOf bytes.now form) result }
{
    if has_form(bytes) {
        return Ok(SetForm::Given(bytes));
    }
    Ok(SetForm::Made(compile_set(alloc, bytes)?))
}

// The set of the right bytes of two.
fn to_right_form(alloc: Global, bytes: &[u8]) -> Result<SetForm<'_>, Fault>
    ensures { HoldsOr (SetFaults ⊥ (RejectsListBytes bytes.now) (LacksListSet bytes.now)) (λ form. IsFormOf bytes.now form) result }
{
    match to_form(alloc, bytes) {
        Ok(form) => Ok(form),
        Err(Fault::InvalidList) => Err(Fault::InvalidRight),
        Err(fault) => Err(fault),
    }
}

// The keys, in their order.
fn join_keys(alloc: Global, keys: &[&[u8]]) -> Result<JoinedStrings, AllocError>
    ensures { IfOk result (λ found. Joins (map (λ k. k.now) keys.now) found.bytes.items found.ends.items) }
{
    let mut found = JoinedStrings::with_capacity(alloc, keys.len())?;
    for key in keys {
        found.push(key)?;
    }
    Ok(found)
}

// The keys of the intervals of a set, in their order.
fn to_boundaries(alloc: Global, set: &[u8]) -> Result<JoinedStrings, Fault>
    ensures { HoldsOr (SetFault set.now) (λ found. JoinsBoundaries set.now found.bytes.items found.ends.items) result }
{
    let form = to_form(alloc, set)?;
    let keys = pep440_compiled::set_keys(alloc, form.as_slice())?;
    Ok(join_keys(alloc, keys.as_slice())?)
}

// The complement of a set.
fn complement(alloc: Global, set: &[u8]) -> Result<Vec<u8>, Fault>
    ensures { HoldsOr (SetFault set.now) (λ bytes. IsComplement set.now bytes.items) result }
{
    let form = to_form(alloc, set)?;
    Ok(pep440_compiled::complement(alloc, form.as_slice())?)
}

// What two sets share.
fn intersection(alloc: Global, left: &[u8], right: &[u8]) -> Result<Vec<u8>, Fault>
    ensures { HoldsOr (TwoSetFaults left.now right.now) (λ bytes. IsIntersection left.now right.now bytes.items) result }
{
    let left_form = to_form(alloc, left)?;
    let right_form = to_right_form(alloc, right)?;
    Ok(pep440_compiled::intersection(alloc, left_form.as_slice(), right_form.as_slice())?)
}

// What is in one of two sets.
fn union(alloc: Global, left: &[u8], right: &[u8]) -> Result<Vec<u8>, Fault>
    ensures { HoldsOr (TwoSetFaults left.now right.now) (λ bytes. IsUnion left.now right.now bytes.items) result }
{
    let left_form = to_form(alloc, left)?;
    let right_form = to_right_form(alloc, right)?;
    Ok(pep440_compiled::union(alloc, left_form.as_slice(), right_form.as_slice())?)
}

// Whether the left set is in the right one.
fn is_subset(alloc: Global, left: &[u8], right: &[u8]) -> Result<bool, Fault>
    ensures { HoldsOr (TwoSetFaults left.now right.now) (IsInside left.now right.now) result }
{
    let left_form = to_form(alloc, left)?;
    let right_form = to_right_form(alloc, right)?;
    Ok(pep440_compiled::is_subset(alloc, left_form.as_slice(), right_form.as_slice())?)
}
