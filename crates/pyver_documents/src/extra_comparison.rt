//! Extras that requirements ask for, beside a lock.
ghost use Rattle.std.specs.Prelude.{◌≡◌, IfOk, map, bytes_eq, ◌++◌};
ghost use Rattle.std.specs.List.{list_any, flat_map};
ghost use Rattle.pyver_documents.specs.Comparing.{demand_keys, has_keys, same_extras, asks_for_extras, demand_asks, asked_in, extra_asks, project_asks, unmet_extra, unmet_extras};
ghost use Rattle.pyver_documents.specs.DocumentViews.{excuses, index_parts, string_reading_of, extra_reading_of, IsIndex, packages_of};
ghost use Rattle.pyver_findings.specs.Views.{demand_of, finding_of};
ghost use Rattle.pyver_projects.specs.ProjectStrings.{section_of, inclusion_of, has_key};

use crate::document_reading::{ExtraReading, StringReading};
use crate::lock_comparison::{
    IndexedLock, is_locked, is_needed, is_overridden, push_unmet_meaning,
};
use pyver_findings::{Demand, Finding, LineMeaning};
use pyver_locks::lock_faults::contains_name;
use pyver_locks::package_extras::push_extra_keys;
use pyver_projects::inclusions::{Inclusion, InclusionIndex, included_groups, push_inclusions_by};
use pyver_projects::project::Section;
use std::alloc::{AllocError, Global};
use std::collections::HashMap;

// The keys of the extras that the requirement asks for.
#[tactic(auto, unfolding(pyver_findings::specs::Views::names_of))]
fn demand_keys(alloc: Global, demand: &Demand) -> Result<Vec<Vec<u8>>, AllocError>
    ensures { IfOk result (λ keys. map (λ k. k.items) keys.items ≡ demand_keys (demand_of demand.now)) }
{
    let mut keys = Vec::new(alloc);
    push_extra_keys(
        alloc,
        &mut keys,
        demand.name.as_slice(),
        demand.extras.as_slice(),
    )?;
    Ok(keys)
}

#[tactic(auto, using(pyver_requirements::proofs::Grouped::any_viewed))]
fn has_key(found: &[Vec<u8>], key: &[u8]) -> bool
    ensures { result ≡ list_any (bytes_eq key.now) (map (λ k. k.items) found.now) }
{
    contains_name(found, key)
}

// Each of these is there.
fn has_keys(found: &[Vec<u8>], keys: &[Vec<u8>]) -> bool
    ensures { result ≡ has_keys (map (λ k. k.items) found.now) (map (λ k. k.items) keys.now) }
{
    for key in keys {
        if !has_key(found, key.as_slice()) {
            return false;
        }
    }
    true
}

pub(crate) fn same_extras(extras: &[Vec<u8>], other: &[Vec<u8>]) -> bool
    ensures { result ≡ same_extras (map (λ e. e.items) extras.now) (map (λ e. e.items) other.now) }
{
    has_keys(other, extras) && has_keys(extras, other)
}

// ---- a lock that says what packages require for extras

// The string asks for extras, which the lock is to have.
fn asks_for_extras(lock: &IndexedLock<'_>, section: &Section, demand: &Demand) -> bool
    ensures { result ≡ asks_for_extras lock.now.kind (index_parts lock.now.packages) (excuses lock.now.projects.now) lock.now.near (section_of section.now) (demand_of demand.now) }
{
    demand.marker.is_none()
        && !is_overridden(lock.projects, section, demand.name.as_slice())
        && is_needed(lock.kind, lock.packages.parts.names.as_slice(), section)
}

fn push_demand_asks(
    alloc: Global,
    asks: &mut Vec<Inclusion>,
    lock: &IndexedLock<'_>,
    section: &Section,
    demand: &Demand,
) -> Result<(), AllocError>
    ensures { IfOk result (λ _. map inclusion_of asks.new.items ≡ map inclusion_of asks.old.items ++ demand_asks lock.now.kind (index_parts lock.now.packages) (excuses lock.now.projects.now) lock.now.near (section_of section.now) (demand_of demand.now)) }
{
    if !asks_for_extras(lock, section, demand) {
        return Ok(());
    }
    let keys = demand_keys(alloc, demand)?;
    push_inclusions_by(asks, &Vec::new(alloc), keys.as_slice())
}

// Adds the extras that the string asks for, under no key.
fn push_string_asks(
    alloc: Global,
    asks: &mut Vec<Inclusion>,
    lock: &IndexedLock<'_>,
    string: &StringReading,
) -> Result<(), AllocError>
    ensures { IfOk result (λ _. map inclusion_of asks.new.items ≡ map inclusion_of asks.old.items ++ asked_in lock.now.kind (index_parts lock.now.packages) (excuses lock.now.projects.now) lock.now.near (string_reading_of string.now)) }
{
    if !is_locked(lock.near, &string.section) {
        return Ok(());
    }
    match &string.meaning {
        LineMeaning::Asks(demand) => push_demand_asks(alloc, asks, lock, &string.section, demand),
        LineMeaning::IsNone(_) | LineMeaning::LeftOut(_) | LineMeaning::AsksNothing => Ok(()),
    }
}

fn push_all_string_asks(
    alloc: Global,
    asks: &mut Vec<Inclusion>,
    lock: &IndexedLock<'_>,
    strings: &[StringReading],
) -> Result<(), AllocError>
    ensures { IfOk result (λ _. map inclusion_of asks.new.items ≡ map inclusion_of asks.old.items ++ flat_map (asked_in lock.now.kind (index_parts lock.now.packages) (excuses lock.now.projects.now) lock.now.near) (map string_reading_of strings.now)) }
{
    for string in strings {
        push_string_asks(alloc, asks, lock, string)?;
    }
    Ok(())
}

// Adds what the requirement of an extra asks for, under the key of this.
fn push_extra_asks(
    alloc: Global,
    asks: &mut Vec<Inclusion>,
    extra: &ExtraReading,
) -> Result<(), AllocError>
    ensures { IfOk result (λ _. map inclusion_of asks.new.items ≡ map inclusion_of asks.old.items ++ extra_asks (extra_reading_of extra.now)) }
{
    match &extra.meaning {
        LineMeaning::Asks(demand) => {
            let keys = demand_keys(alloc, demand)?;
            push_inclusions_by(asks, &extra.key, keys.as_slice())
        }
        LineMeaning::IsNone(_) | LineMeaning::LeftOut(_) | LineMeaning::AsksNothing => Ok(()),
    }
}

fn push_all_extra_asks(
    alloc: Global,
    asks: &mut Vec<Inclusion>,
    extras: &[ExtraReading],
) -> Result<(), AllocError>
    ensures { IfOk result (λ _. map inclusion_of asks.new.items ≡ map inclusion_of asks.old.items ++ flat_map extra_asks (map extra_reading_of extras.now)) }
{
    for extra in extras {
        push_extra_asks(alloc, asks, extra)?;
    }
    Ok(())
}

// Which extras strings ask for, and which these require.
fn project_asks(
    alloc: Global,
    lock: &IndexedLock<'_>,
    strings: &[StringReading],
    extras: &[ExtraReading],
) -> Result<Vec<Inclusion>, AllocError>
    ensures { IfOk result (λ is. map inclusion_of is.items ≡ project_asks lock.now.kind (index_parts lock.now.packages) (excuses lock.now.projects.now) lock.now.near (map string_reading_of strings.now) (map extra_reading_of extras.now)) }
{
    let mut asks = Vec::new(alloc);
    push_all_string_asks(alloc, &mut asks, lock, strings)?;
    push_all_extra_asks(alloc, &mut asks, extras)?;
    Ok(asks)
}

// Adds what the requirement of an extra with one of these keys lacks and excludes.
fn push_unmet_extra(
    alloc: Global,
    findings: &mut Vec<Finding>,
    lock: &IndexedLock<'_>,
    keys: &HashMap<&[u8], ()>,
    extra: &ExtraReading,
) -> Result<(), AllocError>
    requires { IsIndex lock.now.packages }
    ensures { IfOk result (λ _. map finding_of findings.new.items ≡ map finding_of findings.old.items ++ unmet_extra lock.now.kind (index_parts lock.now.packages) (excuses lock.now.projects.now) lock.now.near (has_key keys.now) (packages_of lock.now.packages) (extra_reading_of extra.now)) }
{
    if !keys.contains_key(extra.key.as_slice()) {
        return Ok(());
    }
    push_unmet_meaning(
        alloc,
        findings,
        lock.projects,
        &lock.packages,
        &extra.meaning,
    )
}

fn push_all_unmet_extras(
    alloc: Global,
    findings: &mut Vec<Finding>,
    lock: &IndexedLock<'_>,
    keys: &HashMap<&[u8], ()>,
    extras: &[ExtraReading],
) -> Result<(), AllocError>
    requires { IsIndex lock.now.packages }
    ensures { IfOk result (λ _. map finding_of findings.new.items ≡ map finding_of findings.old.items ++ flat_map (unmet_extra lock.now.kind (index_parts lock.now.packages) (excuses lock.now.projects.now) lock.now.near (has_key keys.now) (packages_of lock.now.packages)) (map extra_reading_of extras.now)) }
{
    for extra in extras {
        push_unmet_extra(alloc, findings, lock, keys, extra)?;
    }
    Ok(())
}

// Adds what the requirements of extras for which these strings ask lack and exclude.
pub(crate) fn push_unmet_extras(
    alloc: Global,
    findings: &mut Vec<Finding>,
    lock: &IndexedLock<'_>,
    extras: &[ExtraReading],
    strings: &[StringReading],
) -> Result<(), AllocError>
    requires { IsIndex lock.now.packages }
    ensures { IfOk result (λ _. map finding_of findings.new.items ≡ map finding_of findings.old.items ++ unmet_extras lock.now.kind (index_parts lock.now.packages) (excuses lock.now.projects.now) lock.now.near (packages_of lock.now.packages) (map extra_reading_of extras.now) (map string_reading_of strings.now)) }
{
    let asks = project_asks(alloc, lock, strings, extras)?;
    let index = InclusionIndex::new(alloc, asks.as_slice())?;
    let keys = included_groups(alloc, &index, b"")?;
    push_all_unmet_extras(alloc, findings, lock, &keys, extras)
}
