//! Lines of one name that have no version in common, as a finding.
ghost use Rattle.std.specs.Prelude.{◌≡◌, ◌∷◌, [], IfOk, map, option_map};
ghost use Rattle.std.specs.List.{All};
ghost use Rattle.pyver_findings.specs.Conflicts.{conflict_kind, of_all, pin_conflict};
ghost use Rattle.pyver_findings.specs.Demands.{IsSound};
ghost use Rattle.pyver_findings.specs.FileLines.{Conflicting};
ghost use Rattle.pyver_findings.specs.Views.{AddsFindings, demand_of, demands_at, file_line_of};

use crate::demand::Demand;
use crate::file_line::FileLine;
use crate::finding::{Conflict, Finding};
use crate::smallest::{find_smallest, have_none};
use std::alloc::{AllocError, Global};

fn pin_conflict(one: &Demand, other: &Demand) -> Conflict
    ensures { result ≡ pin_conflict (demand_of one.now) (demand_of other.now) }
{
    if one.pinned && other.pinned {
        Conflict::TwoPins
    } else if one.pinned || other.pinned {
        Conflict::PinOutside
    } else {
        Conflict::NoVersion
    }
}

fn conflict_kind(lines: &[&Demand]) -> Conflict
    ensures { result ≡ conflict_kind (demands_at lines.now) }
{
    match lines {
        [one, other] => pin_conflict(one, other),
        _ => Conflict::NoVersion,
    }
}

fn copy_lines(alloc: Global, lines: &[&Demand]) -> Result<Vec<FileLine>, AllocError>
    ensures { IfOk result (λ copies. map file_line_of copies.items ≡ map (λ a. a.line) (demands_at lines.now)) }
{
    let mut copies = Vec::new(alloc);
    for line in lines {
        copies.push(line.line.clone()?)?;
    }
    Ok(copies)
}

// These lines cannot be satisfied together, in this environment, if one is named.
fn push_conflict(
    alloc: Global,
    findings: &mut Vec<Finding>,
    conflict: Conflict,
    lines: &[&Demand],
    environment: Option<Vec<u8>>,
) -> Result<(), AllocError>
    ensures { IfOk result (λ _. AddsFindings findings.old.items findings.new.items (Conflicting conflict (map (λ a. a.line)
        (demands_at lines.now)) (option_map (λ e. e.items) environment) ∷ [])) }
{
    let lines = copy_lines(alloc, lines)?;
    findings.push(Finding::Conflicting(conflict, lines, environment))?;
    Ok(())
}

// What is wrong with these lines together, in this environment, if one is named.
pub(crate) fn push_of_all(
    alloc: Global,
    findings: &mut Vec<Finding>,
    lines: &[&Demand],
    environment: Option<Vec<u8>>,
) -> Result<(), AllocError>
    requires { All IsSound (demands_at lines.now) }
    ensures { IfOk result (λ _. AddsFindings findings.old.items findings.new.items (of_all (option_map (λ e. e.items) environment) (demands_at lines.now))) }
{
    if !have_none(alloc, lines, &[])? {
        return Ok(());
    }
    let kept = find_smallest(alloc, lines)?;
    push_conflict(
        alloc,
        findings,
        conflict_kind(kept.as_slice()),
        kept.as_slice(),
        environment,
    )
}
