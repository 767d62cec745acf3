//! The names in requirements files, and what is wrong with the lines of each.
ghost use Rattle.std.specs.Prelude.{◌≡◌, IfOk, List, bytes_eq, map, ℕ};
ghost use Rattle.std.specs.List.{All, filter};
ghost use Rattle.pyver_findings.specs.Demands.{IsSound};
ghost use Rattle.pyver_findings.specs.MarkedConflicts.{FindsOfName, FindsOfNames};
ghost use Rattle.pyver_findings.specs.Views.{AddsFound, demand_of, demands_of_group, group_at};
ghost use Rattle.pyver_markers.specs.Extents.{domain_of};

use crate::demand::Demand;
use crate::finding::Finding;
use crate::key_groups::push_to_group;
use crate::marked_conflicts::push_of_name;
use pyver_markers::Domain;
use pyver_requirements::Cause;
use std::alloc::{AllocError, Global};
use std::collections::HashMap;

// The lines of each name, in their order.
pub(crate) fn group_by_name<'a>(
    alloc: Global,
    lines: &'a [Demand],
) -> Result<HashMap<&'a [u8], Vec<&'a Demand>>, AllocError>
    ensures { IfOk result (λ groups. (q : List ℕ) → group_at groups q ≡ filter (λ a. bytes_eq q a.name) (map demand_of lines.now)) }
{
    let mut groups: HashMap<&'a [u8], Vec<&'a Demand>> = HashMap::new(alloc);
    for line in lines {
        push_to_group(alloc, &mut groups, line.name.as_slice(), line)?;
    }
    Ok(groups)
}

// What is wrong with the lines of the group, if there is one.
fn push_of_group(
    alloc: Global,
    findings: &mut Vec<Finding>,
    left_out: &mut Vec<Cause>,
    group: Option<Vec<&Demand>>,
    domain: Domain<'_>,
) -> Result<(), AllocError>
    requires { All IsSound (demands_of_group group) }
    ensures { IfOk result (λ _. AddsFound (FindsOfName (domain_of domain.entry) (demands_of_group group.entry)) findings.old.items findings.new.items left_out.old.items
        left_out.new.items) }
{
    match group {
        Some(lines) => push_of_name(alloc, findings, left_out, lines.as_slice(), domain),
        None => Ok(()),
    }
}

/// Adds what is wrong with these lines together, for each name, in the order in which names are first mentioned: a smallest list of lines
/// that no version satisfies together. They are lines without a marker; or, if these have a version in common, lines whose markers hold in one
/// environment of the domain, which is named: first lines of one marker, then of each two markers whose lines have no version in common, and then of
/// larger sets, if no two in them have none. In each of these environments, lines of a name that ask in it and have no version in common have a
/// finding among them. A cause is added for each set of markers where it is not known whether they hold together, for a name with more than 32 markers,
/// and for one with so many sets that a search of 1,000 steps does not find all. Fails if memory runs out; then findings of some names may have
/// been added.
///
/// Allocates.
pub fn push_conflicts(
    alloc: Global,
    findings: &mut Vec<Finding>,
    left_out: &mut Vec<Cause>,
    lines: &[Demand],
    domain: Domain<'_>,
) -> Result<(), AllocError>
    requires { All IsSound (map demand_of lines.now) }
    ensures { IfOk result (λ _. AddsFound (FindsOfNames (domain_of domain.entry) (map demand_of lines.now)) findings.old.items findings.new.items left_out.old.items
        left_out.new.items) }
{
    let mut groups = group_by_name(alloc, lines)?;
    for line in lines {
        let group = groups.remove(line.name.as_slice());
        push_of_group(alloc, findings, left_out, group, domain)?;
    }
    Ok(())
}
