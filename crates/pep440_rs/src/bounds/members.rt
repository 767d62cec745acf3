//! Specifiers from bounds on releases.
ghost use Rattle.std.specs.Prelude.{◌≡◌, ◌++◌, IfOk, OnOk};
ghost use Rattle.pep440_rs.specs.Members.{is_next, lower_member, upper_member, pair_members, gap_members, list_members, without_locals};
ghost use Rattle.pep440_rs.specs.BoundErrors.{ReturnsBound};

use crate::bounds::error::BoundError;
use crate::bounds::release_bounds::ReleaseBounds;
use crate::specifier::VersionSpecifier;
use crate::specifier::error::{BuildErrorKind, VersionSpecifierBuildError};
use pep440_version::Version;
use std::alloc::{AllocError, Global};
use std::ops::Bound;

// Two numbers each, the first alike, and the second of the second release one more.
fn is_next(release: &[u64], next: &[u64]) -> bool
    ensures { result ≡ is_next release.now next.now }
{
    if release.len() != 2 || next.len() != 2 {
        return false;
    }
    next[0] == release[0] && next[1] > 0 && next[1] - 1 == release[1]
}

// The member of a lower bound.
pub(crate) fn convert_lower(bound: &Bound<Version>) -> Result<Option<VersionSpecifier>, AllocError>
    ensures { IfOk result (λ m. m ≡ lower_member bound.now) }
{
    Ok(match bound {
        Bound::Included(version) => {
            Some(VersionSpecifier::greater_than_equal_version(version.clone()?))
        }
        Bound::Excluded(version) => Some(VersionSpecifier::greater_than_version(version.clone()?)),
        Bound::Unbounded => None,
    })
}

// The member of an upper bound.
pub(crate) fn convert_upper(bound: &Bound<Version>) -> Result<Option<VersionSpecifier>, AllocError>
    ensures { IfOk result (λ m. m ≡ upper_member bound.now) }
{
    Ok(match bound {
        Bound::Included(version) => {
            Some(VersionSpecifier::less_than_equal_version(version.clone()?))
        }
        Bound::Excluded(version) => Some(VersionSpecifier::less_than_version(version.clone()?)),
        Bound::Unbounded => None,
    })
}

// The members of a pair: one if one is enough, else the lower bound's, then the upper's.
pub(crate) fn convert_pair(
    start: &Bound<Version>,
    end: &Bound<Version>,
) -> Result<ReleaseBounds, AllocError>
    ensures { IfOk result (λ m. m ≡ pair_members start.now end.now) }
{
    match (start, end) {
        (Bound::Included(v), Bound::Included(w)) => {
            if v == w {
                let member = VersionSpecifier::equals_version(v.clone()?);
                return Ok(ReleaseBounds::new(Some(member), None));
            }
        }
        (Bound::Included(v), Bound::Excluded(w)) => {
            if is_next(v.release(), w.release()) {
                let member = VersionSpecifier::equals_star_version(v.clone()?);
                return Ok(ReleaseBounds::new(Some(member), None));
            }
        }
        _ => {}
    }
    Ok(ReleaseBounds::new(convert_lower(start)?, convert_upper(end)?))
}

// The members of a pair, after those that are there.
fn push_pair(
    members: &mut Vec<VersionSpecifier>,
    start: &Bound<Version>,
    end: &Bound<Version>,
) -> Result<(), AllocError>
    ensures { OnOk result (members.new.items ≡ members.old.items ++ pair_members start.now end.now) }
{
    for member in convert_pair(start, end)? {
        members.push(member)?;
    }
    Ok(())
}

// What excludes the gap between an end and the next start, where a member does.
fn push_gap(
    members: &mut Vec<VersionSpecifier>,
    end: &Bound<Version>,
    start: &Bound<Version>,
) -> Result<(), AllocError>
    ensures { OnOk result (members.new.items ≡ members.old.items ++ gap_members end.now start.now) }
{
    match (end, start) {
        (Bound::Excluded(v), Bound::Excluded(w)) => {
            if v == w {
                members.push(VersionSpecifier::not_equals_version(v.clone()?))?;
            }
        }
        (Bound::Excluded(v), Bound::Included(w)) => {
            if is_next(v.release(), w.release()) {
                members.push(VersionSpecifier::not_equals_star_version(v.clone()?))?;
            }
        }
        _ => {}
    }
    Ok(())
}

// The members of a list of pairs, not yet arranged.
pub(crate) fn convert_pairs(
    alloc: Global,
    pairs: &[(Bound<Version>, Bound<Version>)],
) -> Result<Vec<VersionSpecifier>, AllocError>
    ensures { IfOk result (λ m. m.items ≡ list_members pairs.now) }
{
    let mut members = Vec::new(alloc);
    if let Some((first, others)) = pairs.split_first() {
        let mut end = &first.1;
        let mut rest = others;
        while let Some((next, later)) = rest.split_first() {
            push_gap(&mut members, end, &next.0)?;
            end = &next.1;
            rest = later;
        }
        push_pair(&mut members, &first.0, end)?;
    }
    Ok(members)
}

// The member, rejected if its version has a local part.
pub(crate) fn reject_local(
    member: Option<VersionSpecifier>,
) -> Result<Option<VersionSpecifier>, BoundError>
    ensures { ReturnsBound result (without_locals member) }
{
    match member {
        Some(member) => {
            if !member.version().is_local() {
                return Ok(Some(member));
            }
            let (operator, version) = member.into_parts();
            Err(BoundError::Build(VersionSpecifierBuildError::from(
                BuildErrorKind::OperatorLocalCombo { operator, version },
            )))
        }
        None => Ok(None),
    }
}
