//! A smallest list of lines that have no version in common.
ghost use Rattle.std.specs.Prelude.{◌≡◌, ◌++◌, ◌-◌, ◌<◌, ◌≤◌, IfOk, false, length, map, take, true};
ghost use Rattle.std.specs.List.{All};
ghost use Rattle.pyver_findings.specs.Conflicts.{have_none, smallest, specifiers_of};
ghost use Rattle.pyver_findings.specs.Demands.{IsSound};
ghost use Rattle.pyver_findings.specs.Views.{demand_of, demands_at};

use crate::demand::Demand;
use crate::halves::find_by_sets;
use pep440_rs::VersionSpecifier;
use pep440_sets::{SetError, find_version};
use std::alloc::{AllocError, Global};

fn push_copies(
    members: &mut Vec<VersionSpecifier>,
    list: &[VersionSpecifier],
) -> Result<(), AllocError>
    ensures { IfOk result (λ _. members.new.items ≡ members.old.items ++ list.now) }
{
    members.extend_from_slice(list)
}

// Adds the members of the lists of the lines.
pub(crate) fn push_members(
    members: &mut Vec<VersionSpecifier>,
    lines: &[&Demand],
) -> Result<(), AllocError>
    ensures { IfOk result (λ _. members.new.items ≡ members.old.items ++ specifiers_of (demands_at lines.now)) }
{
    for line in lines {
        push_copies(members, line.specifiers.as_slice())?;
    }
    Ok(())
}

#[tactic(auto, using(crate::proofs::SmallestLists::members_of))]
// Whether there is no version that the lists of all these lines contain.
pub(crate) fn have_none(
    alloc: Global,
    lines: &[&Demand],
    kept: &[&Demand],
) -> Result<bool, AllocError>
    ensures { IfOk result (λ none. none ≡ have_none (demands_at lines.now ++ demands_at kept.now)) }
{
    let mut members = Vec::new(alloc);
    push_members(&mut members, lines)?;
    push_members(&mut members, kept)?;
    Ok(find_version(alloc, members.as_slice())?.is_none())
}

// The number to try next: twice as many, at most halfway.
fn next_try(low: usize, high: usize) -> usize
    requires { low < high }
    ensures from { low ≤ result }
    ensures below { result < high }
{
    let middle = low + (high - low) / 2;
    middle.min(low.saturating_mul(2))
}

// How many of the lines, from the first on, it takes to have no version in common with those that are kept.
fn count_apart(alloc: Global, lines: &[&Demand], kept: &[&Demand]) -> Result<usize, AllocError>
    requires { have_none (demands_at lines.now ++ demands_at kept.now) ≡ true }
    ensures inside { IfOk result (λ n. n ≤ length lines.now) }
    ensures enough { IfOk result (λ n. have_none (demands_at (take n lines.now) ++ demands_at kept.now) ≡ true) }
    ensures fewest { IfOk result (λ n. 0 < n → have_none (demands_at (take (n - 1) lines.now)
        ++ demands_at kept.now) ≡ false) }
{
    let (mut low, mut high) = (0, lines.len());
    while low < high {
        let count = next_try(low, high);
        if have_none(alloc, &lines[..count], kept)? {
            high = count;
        } else {
            low = count + 1;
        }
    }
    Ok(high)
}

// The smallest list of the lines. Asks for each line of it about twice as often as the number of lines has binary digits whether some of
// them have a version in common.
fn find_by_lists<'a>(alloc: Global, lines: &[&'a Demand]) -> Result<Vec<&'a Demand>, AllocError>
    requires none { have_none (demands_at lines.now) ≡ true }
    requires sound { All IsSound (demands_at lines.now) }
    ensures { IfOk result (λ kept. demands_at kept.items ≡ smallest (demands_at lines.now)) }
{
    let mut kept = Vec::new(alloc);
    let mut rest = lines;
    'rounds: loop {
        let count = count_apart(alloc, rest, &kept)?;
        if count == 0 {
            return Ok(kept);
        }
        kept.insert(0, rest[count - 1])?;
        rest = &rest[..count - 1];
    }
}

// A smallest list of the lines, which have no version in common.
pub(crate) fn find_smallest<'a>(
    alloc: Global,
    lines: &[&'a Demand],
) -> Result<Vec<&'a Demand>, AllocError>
    requires none { have_none (demands_at lines.now) ≡ true }
    requires sound { All IsSound (demands_at lines.now) }
    ensures { IfOk result (λ kept. demands_at kept.items ≡ smallest (demands_at lines.now)) }
{
    match find_by_sets(alloc, lines) {
        Ok(kept) => Ok(kept),
        Err(SetError::ArbitraryEquality) => find_by_lists(alloc, lines),
        Err(SetError::OutOfMemory) => Err(AllocError),
    }
}
