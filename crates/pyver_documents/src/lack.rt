//! Requirements that no package meets in some known environment.
ghost use Rattle.std.specs.Prelude.{◌≡◌, IfOk, map, is_none, ◌++◌};
ghost use Rattle.std.specs.List.{find, list_any};
ghost use Rattle.pyver_documents.specs.Comparing.{leaves_out_all, lack_in, lack_finding, partly_locked, lack_without_marker};
ghost use Rattle.pyver_documents.specs.DocumentViews.{locked_reading_of};
ghost use Rattle.pyver_findings.specs.Views.{file_line_of, finding_of, demand_of};
ghost use Rattle.pyver_locks.specs.KnownEnvironments.{known_environments};
ghost use Rattle.pyver_locks.specs.LockContents.{parts_of};

use crate::locked_reading::LockedReading;
use pyver_findings::{Demand, FileLine, Finding};
use pyver_locks::known_environment::{KnownEnvironment, known_environments};
use pyver_locks::locked_package::LockParts;
use std::alloc::{AllocError, Global};

// In the environment the lock with these parts leaves out all of these.
fn leaves_out_all(
    alloc: Global,
    parts: &LockParts,
    taken: &[&LockedReading],
    environment: KnownEnvironment,
) -> Result<bool, AllocError>
    ensures { IfOk result (λ b. b ≡ leaves_out_all (parts_of parts.now) (map (λ y. locked_reading_of y.now) taken.now) environment) }
{
    for locked in taken {
        if !environment.is_left_out_in(alloc, parts, &locked.condition)? {
            return Ok(false);
        }
    }
    Ok(true)
}

// The first environment in which it does.
fn find_lack(
    alloc: Global,
    parts: &LockParts,
    taken: &[&LockedReading],
) -> Result<Option<KnownEnvironment>, AllocError>
    ensures { IfOk result (λ found. found ≡ find (leaves_out_all (parts_of parts.now) (map (λ y. locked_reading_of y.now) taken.now)) known_environments) }
{
    let environments = known_environments(alloc)?;
    for environment in &environments {
        if leaves_out_all(alloc, parts, taken, *environment)? {
            return Ok(Some(*environment));
        }
    }
    Ok(None)
}

// One of these is everywhere.
fn has_unconditional(taken: &[&LockedReading]) -> bool
    ensures { result ≡ list_any (λ y. is_none y.now.condition) taken.now }
{
    taken.iter().any(|locked| locked.condition.is_none())
}

// That the requirement on this line is met by no package in the environment.
fn lack_in(
    alloc: Global,
    line: &FileLine,
    environment: KnownEnvironment,
) -> Result<Finding, AllocError>
    ensures { IfOk result (λ f. finding_of f ≡ lack_in (file_line_of line.now) environment) }
{
    let mut reason = String::from_str(alloc, "no locked package meets it on ")?;
    reason.push_str(environment.name(alloc)?.as_str())?;
    Ok(Finding::NoRequirement(line.clone()?, reason, 0))
}

fn push_lack(
    alloc: Global,
    findings: &mut Vec<Finding>,
    line: &FileLine,
    environment: Option<KnownEnvironment>,
) -> Result<(), AllocError>
    ensures { IfOk result (λ _. map finding_of findings.new.items ≡ map finding_of findings.old.items ++ lack_finding (file_line_of line.now) environment) }
{
    if let Some(environment) = environment {
        findings.push(lack_in(alloc, line, environment)?)?;
    }
    Ok(())
}

// Adds the first environment in which the lock leaves out all packages that a requirement on this line may take, if there are some.
#[tactic(auto, using(crate::proofs::LockedPackages::none_lacking))]
fn push_first_lack(
    alloc: Global,
    findings: &mut Vec<Finding>,
    parts: &LockParts,
    line: &FileLine,
    taken: &[&LockedReading],
) -> Result<(), AllocError>
    ensures { IfOk result (λ _. map finding_of findings.new.items ≡ map finding_of findings.old.items ++ partly_locked (parts_of parts.now) (file_line_of line.now) (map (λ y. locked_reading_of y.now) taken.now)) }
{
    if taken.is_empty() {
        return Ok(());
    }
    if has_unconditional(taken) {
        return Ok(());
    }
    let environment = find_lack(alloc, parts, taken)?;
    push_lack(alloc, findings, line, environment)
}

// Adds the first environment in which none of these packages is there, if the requirement has no marker.
pub(crate) fn push_lack_without_marker(
    alloc: Global,
    findings: &mut Vec<Finding>,
    parts: &LockParts,
    demand: &Demand,
    needed: &[&LockedReading],
) -> Result<(), AllocError>
    ensures { IfOk result (λ _. map finding_of findings.new.items ≡ map finding_of findings.old.items ++ lack_without_marker (parts_of parts.now) (demand_of demand.now) (map (λ y. locked_reading_of y.now) needed.now)) }
{
    if demand.marker.is_some() {
        return Ok(());
    }
    push_first_lack(alloc, findings, parts, &demand.line, needed)
}
