//! A smallest list of lines that have no version in common, by sets.
ghost use Rattle.std.specs.Prelude.{◌≡◌, ◌&&◌, ◌∷◌, [], IfOk, map};
ghost use Rattle.std.specs.List.{All};
ghost use Rattle.pep440_ranges.specs.RangeSegments.{contains};
ghost use Rattle.pep440_rs.specs.Denoted.{IsDenoted};
ghost use Rattle.pep440_rs.specs.LiteralMatching.{list_matches_literally};
ghost use Rattle.pep440_sets.specs.Sets.{HoldsListMatches};
ghost use Rattle.pep440_version.specs.Key.{record_cmp};
ghost use Rattle.pep440_version.specs.Record.{Record};
ghost use Rattle.pyver_findings.specs.Conflicts.{IsNeeded, smallest, specifiers_of};
ghost use Rattle.pyver_findings.specs.Demands.{IsSound};
ghost use Rattle.pyver_findings.specs.Views.{demand_of, demands_at};

use crate::demand::Demand;
use crate::smallest::push_members;
use pep440_sets::{SetError, VersionSet};
use std::alloc::{AllocError, Global};

#[tactic(auto, using(crate::proofs::SmallestLists::sound_members))]
// The versions that the lists of all these lines contain.
fn lines_set(alloc: Global, lines: &[&Demand]) -> Result<VersionSet, SetError>
    requires { All IsSound (demands_at lines.now) }
    ensures { IfOk result (HoldsListMatches (specifiers_of (demands_at lines.now))) }
{
    let mut members = Vec::new(alloc);
    push_members(&mut members, lines)?;
    VersionSet::from_specifiers(alloc, members.as_slice())
}

// The versions of the set that these lines allow.
fn narrow(alloc: Global, allowed: &VersionSet, lines: &[&Demand]) -> Result<VersionSet, SetError>
    requires { All IsSound (demands_at lines.now) }
    ensures { IfOk result (λ set. (v : Record) → IsDenoted v → contains record_cmp set v
        ≡ contains record_cmp allowed.now v && list_matches_literally (specifiers_of (demands_at lines.now)) v) }
{
    let set = lines_set(alloc, lines)?;
    let both = allowed.intersection(alloc, &set)?;
    Ok(both)
}

fn one_line<'a>(alloc: Global, line: &'a Demand) -> Result<Vec<&'a Demand>, AllocError>
    ensures { IfOk result (λ kept. demands_at kept.items ≡ demand_of line.now ∷ []) }
{
    let mut kept = Vec::new(alloc);
    kept.push(line)?;
    Ok(kept)
}

// Those of the lines that are kept where others allow the versions of the set: of the later half those beside the first half, and then
// of the first half those beside what is kept of the later one. The sets beside parts without a common line are disjoint, so n lines take
// n log n steps each time that they can be halved.
fn find_core<'a>(
    alloc: Global,
    allowed: &VersionSet,
    lines: &[&'a Demand],
) -> Result<Vec<&'a Demand>, SetError>
    requires { All IsSound (demands_at lines.now) }
    ensures sound { IfOk result (λ kept. All IsSound (demands_at kept.items)) }
    ensures kept { IfOk result (λ kept. IsNeeded allowed.now (demands_at lines.now) (demands_at kept.items)) }
{
    if allowed.is_empty() || lines.is_empty() {
        return Ok(Vec::new(alloc));
    }
    if lines.len() == 1 {
        let kept = one_line(alloc, lines[0])?;
        return Ok(kept);
    }
    let middle = lines.len() / 2;
    let beside_first = narrow(alloc, allowed, &lines[..middle])?;
    let mut later = find_core(alloc, &beside_first, &lines[middle..])?;
    let beside_later = narrow(alloc, allowed, later.as_slice())?;
    let mut kept = find_core(alloc, &beside_later, &lines[..middle])?;
    kept.append(&mut later)?;
    Ok(kept)
}

// The smallest list of the lines, unless some have `===`, for which there is no set.
pub(crate) fn find_by_sets<'a>(
    alloc: Global,
    lines: &[&'a Demand],
) -> Result<Vec<&'a Demand>, SetError>
    requires { All IsSound (demands_at lines.now) }
    ensures { IfOk result (λ kept. demands_at kept.items ≡ smallest (demands_at lines.now)) }
{
    let all = lines_set(alloc, &[])?;
    find_core(alloc, &all, lines)
}
