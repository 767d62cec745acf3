//! The versions that requirements of one name allow.
ghost use Rattle.std.specs.Prelude.{◌≡◌, ◌++◌, [], map, is_none, IfOk};
ghost use Rattle.std.specs.List.{flat_map, list_any};
ghost use Rattle.pep440_rs.specs.Bounds.{full, list_range, range_of};
ghost use Rattle.pep440_rs.specs.RaisedNumbers.{ReportsMax};
ghost use Rattle.pep440_pick.specs.Allowed.{HoldsAllowed, lists_of};
ghost use Rattle.pep440_pick.specs.Requirements.{needed};

use crate::name::same_name;
use crate::requirement::Requirement;
use pep440_rs::{
    RangeError, Ranges, Version, VersionSpecifier, VersionSpecifiers, specifiers_to_ranges,
};
use std::alloc::{AllocError, Global};

/// Adds the members of the list.
pub fn add_members(
    members: &mut Vec<VersionSpecifier>,
    list: &VersionSpecifiers,
) -> Result<(), AllocError>
    ensures { IfOk result (λ _. members.new.items ≡ members.old.items ++ list.now) }
{
    members.extend_with_clones(list.as_slice())
}

// The members of the lists of the requirements of that name.
fn collect_members(
    alloc: Global,
    requirements: &[Requirement],
    name: &str,
) -> Result<Vec<VersionSpecifier>, AllocError>
    ensures { IfOk result (λ v. v.items ≡ flat_map (λ list. list) (lists_of name.now (map needed requirements.now))) }
{
    let mut members = Vec::new(alloc);
    for requirement in requirements {
        if same_name(requirement.name.as_str(), name) {
            add_members(&mut members, &requirement.specifiers)?;
        }
    }
    Ok(members)
}

/// The versions that are in the range of each requirement of that name (`specifiers_to_ranges`): all versions if there is no
/// such requirement. Requirements of other names are not looked at.
///
/// Allocates. Returns `NumberAtMax` if some requirement of that name gives it, also if the others allow no version, and
/// `OutOfMemory` if an allocation fails. The ranges are intersected by halves: n members take n log n steps.
pub fn allowed(
    alloc: Global,
    requirements: &[Requirement],
    name: &str,
) -> Result<Ranges<Version>, RangeError>
    ensures set { IfOk result (HoldsAllowed (lists_of name.now (map needed requirements.now))) }
    // `NumberAtMax` exactly if some requirement of that name has no range, unless an allocation fails.
    ensures at_max { ReportsMax (list_any (λ list. is_none (list_range range_of list))
        (lists_of name.now (map needed requirements.now))) result }
    ensures all { lists_of name.now (map needed requirements.now) ≡ [] → IfOk result (λ range. range ≡ full) }
{
    let members = collect_members(alloc, requirements, name)?;
    let list = VersionSpecifiers::from_specifiers(alloc, members)?;
    specifiers_to_ranges(alloc, list)
}
