//! A version that a list matches, also where it has members with `===`.
ghost use Rattle.std.specs.Prelude.{◌≡◌, IfOk, IfSome, IsTrue, None, if◌then◌else◌};
ghost use Rattle.std.specs.List.{All};
ghost use Rattle.pep440_rs.specs.Denoted.{IsDenotable, IsDenoted};
ghost use Rattle.pep440_rs.specs.LiteralMatching.{list_matches_literally};
ghost use Rattle.pep440_sets.specs.Common.{common_version, named_version};
ghost use Rattle.pep440_sets.specs.Emptiness.{IsUnsatisfiable};

use crate::convert::{is_exact, list_set};
use crate::witness::first_version;
use pep440_rs::VersionSpecifier;
use pep440_version::Version;
use std::alloc::{AllocError, Global};

fn each_matches(
    alloc: Global,
    members: &[VersionSpecifier],
    version: &Version,
) -> Result<bool, AllocError>
    ensures { IfOk result (λ b. b ≡ list_matches_literally members.now version.now) }
{
    for member in members {
        if !member.matches_literally(alloc, version)? {
            return Ok(false);
        }
    }
    Ok(true)
}

// The version, if each member matches it.
fn named_version(
    alloc: Global,
    members: &[VersionSpecifier],
    version: &Version,
) -> Result<Option<Version>, AllocError>
    ensures { IfOk result (λ found. found ≡ named_version members.now version.now) }
{
    if each_matches(alloc, members, version)? {
        return Ok(Some(version.clone()?));
    }
    Ok(None)
}

// The version of the first `===`, if the list matches it; without one a version of the set.
fn find_common(alloc: Global, members: &[VersionSpecifier]) -> Result<Option<Version>, AllocError>
    ensures { IfOk result (λ found. found ≡ common_version members.now) }
{
    for member in members {
        if is_exact(member) {
            return named_version(alloc, members, member.version());
        }
    }
    let set = list_set(alloc, members)?;
    let found = first_version(alloc, &set)?;
    Ok(found)
}

/// A version that each specifier matches by the literal rule, or `None` if there is none that a string denotes (PEP 440, "Version
/// specifiers"): with `===` among them the version that it names, and otherwise one of their set, as `VersionSet::find_version` has it.
/// n specifiers take n log n steps.
///
/// Allocates.
#[tactic(auto, using(crate::proofs::CommonVersions::common_matches, crate::proofs::CommonVersions::common_is_denoted, crate::proofs::CommonVersions::none_in_common))]
pub fn find_version(
    alloc: Global,
    specifiers: &[VersionSpecifier],
) -> Result<Option<Version>, AllocError>
    ensures value { IfOk result (λ found. found ≡ common_version specifiers.now) }
    ensures matched { All IsDenotable specifiers.now → IfOk result (λ found. IfSome found (λ v. IsTrue (list_matches_literally specifiers.now v))) }
    ensures denoted { All IsDenotable specifiers.now → IfOk result (λ found. IfSome found IsDenoted) }
    ensures none { All IsDenotable specifiers.now → IfOk result (λ found. found ≡ None → IsUnsatisfiable specifiers.now) }
{
    let found = find_common(alloc, specifiers)?;
    Ok(found)
}
