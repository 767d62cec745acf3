//! The markers of lines of one name.
ghost use Rattle.std.specs.Prelude.{◌≡◌, ◌∷◌, ◌++◌, [], IfOk, List, None, bytes_eq, cond, false, option_map, ℕ, if◌then◌else◌};
ghost use Rattle.std.specs.HashMap.{get_by};
ghost use Rattle.std.specs.List.{filter};
ghost use Rattle.std.specs.Option.{option_map_or};
ghost use Rattle.pyver_findings.specs.Conflicts.{has_marker, have_none, same_marker, unmarked};
ghost use Rattle.pyver_findings.specs.Views.{demand_of, demands_at, group_at};

use crate::demand::Demand;
use crate::key_groups::push_to_group;
use crate::smallest::have_none;
use std::alloc::{AllocError, Global};
use std::collections::HashMap;

// Both markers have the same normal form, or there is neither.
pub(crate) fn same_marker(one: &Option<Vec<u8>>, other: &Option<Vec<u8>>) -> bool
    ensures { result ≡ same_marker (option_map (λ m. m.items) one.now) (option_map (λ m. m.items) other.now) }
{
    match one {
        None => other.is_none(),
        Some(one) => match other {
            None => false,
            Some(other) => one.as_slice() == other.as_slice(),
        },
    }
}

#[tactic(auto, using(pyver_requirements::proofs::Grouped::filter_viewed))]
// The lines without a marker.
pub(crate) fn find_without_marker<'a>(
    alloc: Global,
    lines: &[&'a Demand],
) -> Result<Vec<&'a Demand>, AllocError>
    ensures { IfOk result (λ kept. demands_at kept.items ≡ unmarked (demands_at lines.now)) }
{
    lines
        .iter()
        .copied()
        .filter(|line| line.marker.is_none())
        .collect(alloc)
}

// Adds the line to those of its marker, if it has one.
fn push_to_marker<'a>(
    alloc: Global,
    groups: &mut HashMap<&'a [u8], Vec<&'a Demand>>,
    line: &'a Demand,
) -> Result<(), AllocError>
    ensures { IfOk result (λ _. (q : List ℕ) → group_at groups.new q ≡ group_at groups.old q
        ++ (if has_marker q (demand_of line.now) then demand_of line.now ∷ [] else [])) }
{
    match &line.marker {
        Some(marker) => push_to_group(alloc, groups, marker.as_slice(), line),
        None => Ok(()),
    }
}

// The lines of each marker, in their order.
pub(crate) fn group_by_marker<'a>(
    alloc: Global,
    lines: &[&'a Demand],
) -> Result<HashMap<&'a [u8], Vec<&'a Demand>>, AllocError>
    ensures { IfOk result (λ groups. (q : List ℕ) → group_at groups q ≡ filter (has_marker q) (demands_at lines.now)) }
{
    let mut groups: HashMap<&'a [u8], Vec<&'a Demand>> = HashMap::new(alloc);
    for line in lines {
        push_to_marker(alloc, &mut groups, *line)?;
    }
    Ok(groups)
}

// Takes the group of the line's marker, and says whether its lines have no version in common with those without a marker.
pub(crate) fn excludes_all(
    alloc: Global,
    groups: &mut HashMap<&[u8], Vec<&Demand>>,
    always: &[&Demand],
    line: &Demand,
) -> Result<bool, AllocError>
    requires { have_none (demands_at always.now) ≡ false }
    ensures none { IfOk result (λ none. none ≡ have_none (demands_at always.now
        ++ option_map_or (group_at groups.old) (demand_of line.now).marker [])) }
    ensures taken { (q : List ℕ) → get_by (λ k. bytes_eq q k.now) groups.new ≡ cond (has_marker q (demand_of line.now)) None (get_by
        (λ k. bytes_eq q k.now) groups.old) }
{
    match &line.marker {
        Some(marker) => match groups.remove(marker.as_slice()) {
            Some(group) => have_none(alloc, always, group.as_slice()),
            None => Ok(false),
        },
        None => Ok(false),
    }
}
