//! Sets of markers of one name whose lines have no version in common.
ghost use Rattle.std.specs.Prelude.{◌≡◌, ◌∷◌, ◌++◌, [], IfOk, map, option_map};
ghost use Rattle.std.specs.List.{All, filter, list_any};
ghost use Rattle.pyver_findings.specs.Conflicts.{has_same_marker};
ghost use Rattle.pyver_findings.specs.Demands.{IsSound};
ghost use Rattle.pyver_findings.specs.MarkedConflicts.{branches, branches_of, conflicting_pair, conflicting_pairs, conflicting_sets, counts_with, first_branches, has_all, others_than, set_among, under_any, with_set};
ghost use Rattle.pyver_findings.specs.Views.{branch_of, demand_of, demands_at, demands_of_sets, found_sets_of};

use crate::demand::Demand;
use crate::marker::same_marker;
use crate::smallest::{find_smallest, have_none};
use std::alloc::{AllocError, Global};

// The most branches of one name that are looked at.
const MOST_BRANCHES: usize = 1_000;

// Markers that hold in an environment, and others of which any may, each by the first line that has it.
#[derive(Drop)]
struct Branch<'a> {
    kept: Vec<&'a Demand>,
    free: Vec<&'a Demand>,
}

// Sets of markers, and whether all branches were looked at.
#[derive(Drop)]
pub(crate) struct FoundSets<'a> {
    pub(crate) sets: Vec<Vec<&'a Demand>>,
    pub(crate) whole: bool,
}

// Whether one of these has the marker of the line.
pub(crate) fn have_same_marker(firsts: &[&Demand], line: &Demand) -> bool
    ensures { result ≡ list_any (has_same_marker (demand_of line.now)) (demands_at firsts.now) }
{
    let mut rest = firsts;
    while let [first, later @ ..] = rest {
        if same_marker(&line.marker, &first.marker) {
            return true;
        }
        rest = later;
    }
    false
}

// The line has no marker, or that of one of the set.
fn counts_with(set: &[&Demand], line: &Demand) -> bool
    ensures { result ≡ counts_with (demands_at set.now) (demand_of line.now) }
{
    line.marker.is_none() || have_same_marker(set, line)
}

#[tactic(auto, using(pyver_requirements::proofs::Grouped::filter_viewed))]
// The lines without a marker, and those with the marker of one of the set.
pub(crate) fn under_any<'a>(
    alloc: Global,
    set: &[&Demand],
    lines: &[&'a Demand],
) -> Result<Vec<&'a Demand>, AllocError>
    ensures { IfOk result (λ kept. demands_at kept.items ≡ under_any (demands_at set.now) (demands_at lines.now)) }
{
    lines
        .iter()
        .copied()
        .filter(|line| counts_with(set, *line))
        .collect(alloc)
}

// Whether these have each marker of the set.
fn has_all(firsts: &[&Demand], set: &[&Demand]) -> bool
    ensures { result ≡ has_all (demands_at firsts.now) (demands_at set.now) }
{
    let mut rest = set;
    while let [line, later @ ..] = rest {
        if !have_same_marker(firsts, *line) {
            return false;
        }
        rest = later;
    }
    true
}

fn copy_lines<'a>(alloc: Global, lines: &[&'a Demand]) -> Result<Vec<&'a Demand>, AllocError>
    ensures { IfOk result (λ copies. copies.items ≡ lines.now) }
{
    Vec::from_slice(alloc, lines)
}

// The first of the sets of which these have each marker.
fn find_among<'a>(
    alloc: Global,
    firsts: &[&Demand],
    sets: &[Vec<&'a Demand>],
) -> Result<Option<Vec<&'a Demand>>, AllocError>
    ensures { IfOk result (λ found. option_map (λ s. demands_at s.items) found ≡ set_among (demands_at firsts.now)
        (demands_of_sets sets.now)) }
{
    let mut rest = sets;
    while let [set, later @ ..] = rest {
        if has_all(firsts, set.as_slice()) {
            let found = copy_lines(alloc, set.as_slice())?;
            return Ok(Some(found));
        }
        rest = later;
    }
    Ok(None)
}

#[tactic(auto, using(pyver_requirements::proofs::Grouped::filter_viewed))]
// Those whose markers these lines have.
fn find_by_markers<'a>(
    alloc: Global,
    firsts: &[&'a Demand],
    lines: &[&Demand],
) -> Result<Vec<&'a Demand>, AllocError>
    ensures { IfOk result (λ set. demands_at set.items ≡ filter (λ a. list_any (has_same_marker a) (demands_at lines.now))
        (demands_at firsts.now)) }
{
    firsts
        .iter()
        .copied()
        .filter(|first| have_same_marker(lines, *first))
        .collect(alloc)
}

// Adds a set of these markers, if their lines have no version in common and none of the sets says so.
fn push_set<'a>(
    alloc: Global,
    sets: &mut Vec<Vec<&'a Demand>>,
    lines: &[&Demand],
    firsts: &[&'a Demand],
) -> Result<(), AllocError>
    requires { All IsSound (demands_at lines.now) }
    ensures { IfOk result (λ _. demands_of_sets sets.new.items ≡ with_set (demands_at lines.now) (demands_at firsts.now)
        (demands_of_sets sets.old.items)) }
{
    if find_among(alloc, firsts, sets.as_slice())?.is_some() {
        return Ok(());
    }
    let together = under_any(alloc, firsts, lines)?;
    if !have_none(alloc, together.as_slice(), &[])? {
        return Ok(());
    }
    let kept = find_smallest(alloc, together.as_slice())?;
    let set = find_by_markers(alloc, firsts, kept.as_slice())?;
    sets.push(set)?;
    Ok(())
}

// Adds the two markers, if their lines have no version in common.
fn push_pair<'a>(
    alloc: Global,
    sets: &mut Vec<Vec<&'a Demand>>,
    lines: &[&Demand],
    one: &'a Demand,
    other: &'a Demand,
) -> Result<(), AllocError>
    ensures { IfOk result (λ _. demands_of_sets sets.new.items ≡ demands_of_sets sets.old.items
        ++ conflicting_pair (demands_at lines.now) (demand_of one.now) (demand_of other.now)) }
{
    let mut pair = Vec::new(alloc);
    pair.push(one)?;
    pair.push(other)?;
    let together = under_any(alloc, pair.as_slice(), lines)?;
    if have_none(alloc, together.as_slice(), &[])? {
        sets.push(pair)?;
    }
    Ok(())
}

// Each two of these markers whose lines have no version in common.
fn find_pairs<'a>(
    alloc: Global,
    lines: &[&Demand],
    firsts: &[&'a Demand],
) -> Result<Vec<Vec<&'a Demand>>, AllocError>
    ensures { IfOk result (λ sets. demands_of_sets sets.items ≡ conflicting_pairs (demands_at lines.now) (demands_at firsts.now)) }
{
    let mut sets = Vec::new(alloc);
    let mut rest = firsts;
    while let [one, later @ ..] = rest {
        for other in later {
            push_pair(alloc, &mut sets, lines, *one, *other)?;
        }
        rest = later;
    }
    Ok(sets)
}

// All markers of the branch.
fn join_branch<'a>(alloc: Global, branch: &Branch<'a>) -> Result<Vec<&'a Demand>, AllocError>
    ensures { IfOk result (λ all. demands_at all.items ≡ (branch_of branch.now).kept ++ (branch_of branch.now).free) }
{
    let mut all = copy_lines(alloc, branch.kept.as_slice())?;
    all.extend_from_slice(branch.free.as_slice())?;
    Ok(all)
}

#[tactic(auto, using(pyver_requirements::proofs::Grouped::filter_viewed))]
// All but those with the marker of the line.
fn find_others<'a>(
    alloc: Global,
    line: &Demand,
    firsts: &[&'a Demand],
) -> Result<Vec<&'a Demand>, AllocError>
    ensures { IfOk result (λ others. demands_at others.items ≡ others_than (demand_of line.now) (demands_at firsts.now)) }
{
    firsts
        .iter()
        .copied()
        .filter(|first| !same_marker(&line.marker, &first.marker))
        .collect(alloc)
}

fn push_branch<'a>(
    alloc: Global,
    queue: &mut Vec<Branch<'a>>,
    kept: &[&'a Demand],
    free: &[&'a Demand],
) -> Result<(), AllocError>
    ensures { IfOk result (λ _. map branch_of queue.new.items ≡ map branch_of queue.old.items
        ++ record { kept = demands_at kept.now; free = demands_at free.now } ∷ []) }
{
    let kept = copy_lines(alloc, kept)?;
    let free = copy_lines(alloc, free)?;
    queue.push(Branch { kept, free })?;
    Ok(())
}

// Adds the branches in which not all markers of the set hold.
fn push_branches<'a>(
    alloc: Global,
    queue: &mut Vec<Branch<'a>>,
    branch: &Branch<'a>,
    set: &[&'a Demand],
) -> Result<(), AllocError>
    ensures { IfOk result (λ _. map branch_of queue.new.items ≡ map branch_of queue.old.items
        ++ branches (branch_of branch.now).kept (branch_of branch.now).free (demands_at set.now)) }
{
    let mut kept = copy_lines(alloc, branch.kept.as_slice())?;
    let mut free = copy_lines(alloc, branch.free.as_slice())?;
    for line in set {
        if !have_same_marker(kept.as_slice(), *line) {
            free = find_others(alloc, *line, free.as_slice())?;
            push_branch(alloc, queue, kept.as_slice(), free.as_slice())?;
            kept.push(*line)?;
        }
    }
    Ok(())
}

// Adds a set of the branch, if there is one, and the branches of the environments in which not all markers of it hold.
fn visit<'a>(
    alloc: Global,
    lines: &[&Demand],
    queue: &mut Vec<Branch<'a>>,
    sets: &mut Vec<Vec<&'a Demand>>,
    branch: &Branch<'a>,
) -> Result<(), AllocError>
    requires { All IsSound (demands_at lines.now) }
    ensures sets { IfOk result (λ _. demands_of_sets sets.new.items ≡ with_set (demands_at lines.now) ((branch_of branch.now).kept
        ++ (branch_of branch.now).free) (demands_of_sets sets.old.items)) }
    ensures branches { IfOk result (λ _. map branch_of queue.new.items ≡ map branch_of queue.old.items ++ branches_of (branch_of branch.now)
        (set_among ((branch_of branch.now).kept ++ (branch_of branch.now).free) (demands_of_sets sets.new.items))) }
{
    let firsts = join_branch(alloc, branch)?;
    push_set(alloc, sets, lines, firsts.as_slice())?;
    match find_among(alloc, firsts.as_slice(), sets.as_slice())? {
        Some(set) => push_branches(alloc, queue, branch, set.as_slice()),
        None => Ok(()),
    }
}

// The branch of all of these markers, if there are any.
fn begin_search<'a>(alloc: Global, firsts: &[&'a Demand]) -> Result<Vec<Branch<'a>>, AllocError>
    ensures { IfOk result (λ queue. map branch_of queue.items ≡ first_branches (demands_at firsts.now)) }
{
    let mut queue = Vec::new(alloc);
    if let [_, ..] = firsts {
        push_branch(alloc, &mut queue, &[], firsts)?;
    }
    Ok(queue)
}

// Sets of these markers whose lines have no version in common: pairs, and those of branches, and of the branches that these lead to, until there
// are no more or too many.
pub(crate) fn find_conflicting_sets<'a>(
    alloc: Global,
    lines: &[&Demand],
    firsts: &[&'a Demand],
) -> Result<FoundSets<'a>, AllocError>
    requires { All IsSound (demands_at lines.now) }
    ensures { IfOk result (λ found. found_sets_of found ≡ conflicting_sets (demands_at lines.now) (demands_at firsts.now)) }
{
    let mut sets = find_pairs(alloc, lines, firsts)?;
    let mut queue = begin_search(alloc, firsts)?;
    let mut left = MOST_BRANCHES;
    while left > 0 && !queue.is_empty() {
        let branch = queue.remove(0);
        visit(alloc, lines, &mut queue, &mut sets, &branch)?;
        left -= 1;
    }
    let whole = queue.is_empty();
    Ok(FoundSets { sets, whole })
}
