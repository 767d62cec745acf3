//! Lines of one name that no version satisfies together, and whose markers hold in one environment of a domain.
ghost use Rattle.std.specs.Prelude.{◌≡◌, ◌∷◌, ◌++◌, [], IfOk, IfSome, option_map, true, false};
ghost use Rattle.std.specs.List.{All};
ghost use Rattle.pyver_findings.specs.Conflicts.{have_none, unmarked};
ghost use Rattle.pyver_findings.specs.Demands.{IsSound};
ghost use Rattle.pyver_findings.specs.MarkedConflicts.{AreJoined, FindsDecided, FindsOfEach, FindsOfFirsts, FindsOfMarkers, FindsOfName, FindsOfSet, HasDenoted, HoldsUnder, IsDenotedBySteps, IsDecision, KnowsSteps, few_first_lines, lines_to_pair, open_lines, under_any, with_first};
ghost use Rattle.pyver_findings.specs.Views.{AddsFound, demand_of, demands_at, demands_of_sets};
ghost use Rattle.pyver_requirements.specs.declared.cause.Cause.TheVariants as cause;
ghost use Rattle.pyver_markers.specs.Extents.{domain_of};
ghost use Rattle.pyver_requirements.specs.MarkerGrammar.{DenotesMarker};

use crate::demand::Demand;
use crate::finding::Finding;
use crate::group::push_of_all;
use crate::marker::{excludes_all, find_without_marker, group_by_marker};
use crate::marker_sets::{find_conflicting_sets, have_same_marker, under_any};
use crate::smallest::have_none;
use pyver_markers::{Domain, EnvironmentMarker, push_environment};
use pyver_requirements::{Cause, MarkerError};
use std::alloc::{AllocError, Global};

// The most markers of one name that are compared.
const MOST: usize = 32;

// What is known of several markers.
#[derive(Drop)]
enum Decision {
    // All hold in this environment, as a marker.
    Together(Vec<u8>),
    // In no environment of the domain all hold.
    Apart,
    Unknown,
}

#[tactic(auto, using(crate::proofs::MarkedConflicts::parsed))]
// The marker, or none if the string is none.
fn parse_marker<'a>(
    alloc: Global,
    text: &'a [u8],
) -> Result<Option<EnvironmentMarker<'a>>, AllocError>
    ensures { IfOk result (λ read. IfSome read (IsDenotedBySteps (DenotesMarker text.now))) }
{
    match EnvironmentMarker::parse(alloc, text) {
        Ok(marker) => Ok(Some(marker)),
        Err(MarkerError::Invalid(_, _)) => Ok(None),
        Err(MarkerError::OutOfMemory) => Err(AllocError),
    }
}

// The marker of the line, or none if it has none.
fn parse_marker_of<'a>(
    alloc: Global,
    line: &'a Demand,
) -> Result<Option<EnvironmentMarker<'a>>, AllocError>
    ensures { IfOk result (λ read. IfSome read (IsDenotedBySteps (HasDenoted (demand_of line.now)))) }
{
    match &line.marker {
        Some(text) => parse_marker(alloc, text.as_slice()),
        None => Ok(None),
    }
}

// The marker that holds where those of all these lines do, or none if one of them has none.
fn join_markers<'a>(
    alloc: Global,
    set: &[&'a Demand],
) -> Result<Option<EnvironmentMarker<'a>>, AllocError>
    ensures { IfOk result (λ joined. IfSome joined (IsDenotedBySteps (AreJoined (demands_at set.now)))) }
{
    let [first, others @ ..] = set else {
        return Ok(None);
    };
    let Some(marker) = parse_marker_of(alloc, *first)? else {
        return Ok(None);
    };
    if others.is_empty() {
        return Ok(Some(marker));
    }
    let Some(joined) = join_markers(alloc, others)? else {
        return Ok(None);
    };
    Ok(Some(marker.and(&joined)?))
}

// Where the marker holds, as a marker, if an environment of the domain is found.
fn find_environment(
    alloc: Global,
    marker: &EnvironmentMarker<'_>,
    domain: Domain<'_>,
) -> Result<Option<Vec<u8>>, AllocError>
    ensures { IfOk result (λ found. IfSome found (λ environment. HoldsUnder (domain_of domain.entry) marker.now environment.items)) }
{
    let Some(variables) = marker.find_environment(alloc, domain)? else {
        return Ok(None);
    };
    let mut environment = Vec::new(alloc);
    push_environment(&mut environment, variables.as_slice())?;
    Ok(Some(environment))
}

// What is known of the marker that holds where all do.
fn decide_marker(
    alloc: Global,
    joined: &EnvironmentMarker<'_>,
    domain: Domain<'_>,
) -> Result<Decision, AllocError>
    ensures { IfOk result (KnowsSteps (domain_of domain.entry) joined.now) }
{
    if joined.is_never(alloc, true, domain)? {
        return Ok(Decision::Apart);
    }
    match find_environment(alloc, joined, domain)? {
        Some(environment) => Ok(Decision::Together(environment)),
        None => Ok(Decision::Unknown),
    }
}

#[tactic(auto, using(crate::proofs::MarkedConflicts::known))]
// What is known of the markers of these lines.
fn decide(alloc: Global, set: &[&Demand], domain: Domain<'_>) -> Result<Decision, AllocError>
    ensures { IfOk result (IsDecision (domain_of domain.entry) (demands_at set.now)) }
{
    match join_markers(alloc, set)? {
        Some(joined) => decide_marker(alloc, &joined, domain),
        None => Ok(Decision::Unknown),
    }
}

fn push_undecided_cause(left_out: &mut Vec<Cause>) -> Result<(), AllocError>
    ensures { IfOk result (λ _. left_out.new.items ≡ left_out.old.items ++ cause.Undecided ∷ []) }
{
    left_out.push(Cause::Undecided)?;
    Ok(())
}

// What is wrong with lines that have no version in common, by what is known of their markers.
fn push_by_decision(
    alloc: Global,
    findings: &mut Vec<Finding>,
    left_out: &mut Vec<Cause>,
    decision: Decision,
    together: &[&Demand],
) -> Result<(), AllocError>
    requires sound { All IsSound (demands_at together.now) }
    requires none { have_none (demands_at together.now) ≡ true }
    ensures { IfOk result (λ _. AddsFound (FindsDecided decision (demands_at together.now)) findings.old.items findings.new.items
        left_out.old.items left_out.new.items) }
{
    match decision {
        Decision::Together(environment) => {
            push_of_all(alloc, findings, together, Some(environment))
        }
        Decision::Apart => Ok(()),
        Decision::Unknown => push_undecided_cause(left_out),
    }
}

// What is wrong with the lines of one name under the markers of the set.
fn push_of_set(
    alloc: Global,
    findings: &mut Vec<Finding>,
    left_out: &mut Vec<Cause>,
    lines: &[&Demand],
    set: &[&Demand],
    domain: Domain<'_>,
) -> Result<(), AllocError>
    requires { All IsSound (demands_at lines.now) }
    ensures { IfOk result (λ _. AddsFound (FindsOfSet (domain_of domain.entry) (demands_at lines.now) (demands_at set.now)) findings.old.items findings.new.items
        left_out.old.items left_out.new.items) }
{
    let together = under_any(alloc, set, lines)?;
    if !have_none(alloc, together.as_slice(), &[])? {
        return Ok(());
    }
    let decision = decide(alloc, set, domain)?;
    push_by_decision(alloc, findings, left_out, decision, together.as_slice())?;
    Ok(())
}

// What is wrong with the lines of each of the sets.
fn push_of_each_set(
    alloc: Global,
    findings: &mut Vec<Finding>,
    left_out: &mut Vec<Cause>,
    lines: &[&Demand],
    sets: &[Vec<&Demand>],
    domain: Domain<'_>,
) -> Result<(), AllocError>
    requires { All IsSound (demands_at lines.now) }
    ensures { IfOk result (λ _. AddsFound (FindsOfEach (FindsOfSet (domain_of domain.entry) (demands_at lines.now)) (demands_of_sets sets.now)) findings.old.items
        findings.new.items left_out.old.items left_out.new.items) }
{
    for set in sets {
        push_of_set(alloc, findings, left_out, lines, set.as_slice(), domain)?;
    }
    Ok(())
}

// Adds the line, if it has a marker that none of these has.
fn push_first<'a>(firsts: &mut Vec<&'a Demand>, line: &'a Demand) -> Result<(), AllocError>
    ensures { IfOk result (λ _. demands_at firsts.new.items ≡ with_first (demands_at firsts.old.items) (demand_of line.now)) }
{
    if line.marker.is_none() || have_same_marker(firsts.as_slice(), line) {
        return Ok(());
    }
    firsts.push(line)?;
    Ok(())
}

// Of each marker the first line, unless these are too many.
fn few_first_lines<'a>(
    alloc: Global,
    lines: &[&'a Demand],
) -> Result<Option<Vec<&'a Demand>>, AllocError>
    ensures { IfOk result (λ found. option_map (λ f. demands_at f.items) found ≡ few_first_lines (demands_at lines.now)) }
{
    let mut firsts = Vec::new(alloc);
    for line in lines {
        push_first(&mut firsts, *line)?;
        if firsts.len() > MOST {
            return Ok(None);
        }
    }
    Ok(Some(firsts))
}

// Whether the lines under the marker of this one have no version in common.
fn have_none_under(alloc: Global, lines: &[&Demand], first: &Demand) -> Result<bool, AllocError>
    ensures { IfOk result (λ b. b ≡ have_none (under_any (demand_of first.now ∷ []) (demands_at lines.now))) }
{
    let mut set = Vec::new(alloc);
    set.push(first)?;
    let together = under_any(alloc, set.as_slice(), lines)?;
    have_none(alloc, together.as_slice(), &[])
}

// Those whose lines have a version in common with the lines without a marker.
fn find_open_lines<'a>(
    alloc: Global,
    lines: &[&Demand],
    firsts: &[&'a Demand],
) -> Result<Vec<&'a Demand>, AllocError>
    ensures { IfOk result (λ paired. demands_at paired.items ≡ open_lines (demands_at lines.now) (demands_at firsts.now)) }
{
    let mut paired = Vec::new(alloc);
    for first in firsts {
        if !have_none_under(alloc, lines, *first)? {
            paired.push(*first)?;
        }
    }
    Ok(paired)
}

// Of these lines those whose markers are to be compared.
fn lines_to_pair<'a>(
    alloc: Global,
    lines: &[&Demand],
    firsts: &[&'a Demand],
) -> Result<Vec<&'a Demand>, AllocError>
    ensures { IfOk result (λ paired. demands_at paired.items ≡ lines_to_pair (demands_at lines.now) (demands_at firsts.now)) }
{
    if firsts.len() < 2 {
        return Ok(Vec::new(alloc));
    }
    find_open_lines(alloc, lines, firsts)
}

// What is wrong with lines of one name under several markers.
fn push_of_markers(
    alloc: Global,
    findings: &mut Vec<Finding>,
    left_out: &mut Vec<Cause>,
    lines: &[&Demand],
    domain: Domain<'_>,
) -> Result<(), AllocError>
    requires { All IsSound (demands_at lines.now) }
    ensures { IfOk result (λ _. AddsFound (FindsOfFirsts (domain_of domain.entry) (demands_at lines.now) (few_first_lines (demands_at lines.now))) findings.old.items
        findings.new.items left_out.old.items left_out.new.items) }
{
    let Some(firsts) = few_first_lines(alloc, lines)? else {
        return push_undecided_cause(left_out);
    };
    let paired = lines_to_pair(alloc, lines, firsts.as_slice())?;
    let found = find_conflicting_sets(alloc, lines, paired.as_slice())?;
    push_of_each_set(
        alloc,
        findings,
        left_out,
        lines,
        found.sets.as_slice(),
        domain,
    )?;
    if found.whole {
        return Ok(());
    }
    push_undecided_cause(left_out)
}

// What is wrong with the lines under the marker of this one.
fn push_of_marker(
    alloc: Global,
    findings: &mut Vec<Finding>,
    left_out: &mut Vec<Cause>,
    lines: &[&Demand],
    line: &Demand,
    domain: Domain<'_>,
) -> Result<(), AllocError>
    requires { All IsSound (demands_at lines.now) }
    ensures { IfOk result (λ _. AddsFound (FindsOfSet (domain_of domain.entry) (demands_at lines.now) (demand_of line.now ∷ [])) findings.old.items findings.new.items
        left_out.old.items left_out.new.items) }
{
    let mut set = Vec::new(alloc);
    set.push(line)?;
    push_of_set(alloc, findings, left_out, lines, set.as_slice(), domain)
}

// What is wrong with the lines under each marker, at the first line that has it.
fn push_of_each_marker(
    alloc: Global,
    findings: &mut Vec<Finding>,
    left_out: &mut Vec<Cause>,
    lines: &[&Demand],
    always: &[&Demand],
    domain: Domain<'_>,
) -> Result<(), AllocError>
    requires sound { All IsSound (demands_at lines.now) }
    requires always { demands_at always.now ≡ unmarked (demands_at lines.now) }
    requires some { have_none (demands_at always.now) ≡ false }
    ensures { IfOk result (λ _. AddsFound (FindsOfMarkers (domain_of domain.entry) (demands_at lines.now)) findings.old.items findings.new.items left_out.old.items
        left_out.new.items) }
{
    let mut groups = group_by_marker(alloc, lines)?;
    for line in lines {
        if excludes_all(alloc, &mut groups, always, *line)? {
            push_of_marker(alloc, findings, left_out, lines, *line, domain)?;
        }
    }
    Ok(())
}

// What is wrong with lines of one name.
pub(crate) fn push_of_name(
    alloc: Global,
    findings: &mut Vec<Finding>,
    left_out: &mut Vec<Cause>,
    lines: &[&Demand],
    domain: Domain<'_>,
) -> Result<(), AllocError>
    requires { All IsSound (demands_at lines.now) }
    ensures { IfOk result (λ _. AddsFound (FindsOfName (domain_of domain.entry) (demands_at lines.now)) findings.old.items findings.new.items left_out.old.items
        left_out.new.items) }
{
    let always = find_without_marker(alloc, lines)?;
    if have_none(alloc, always.as_slice(), &[])? {
        return push_of_all(alloc, findings, always.as_slice(), None);
    }
    push_of_each_marker(alloc, findings, left_out, lines, always.as_slice(), domain)?;
    push_of_markers(alloc, findings, left_out, lines, domain)
}
