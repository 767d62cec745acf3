//! What matching asks of two versions.
ghost use Rattle.std.specs.Prelude.{◌≡◌, ◌<◌, ◌+◌, length, IfOk};
ghost use Rattle.pep440_rs.specs.Matching.{matches, candidate, same_release, begins_with, has_prefix, is_early, is_late, without_last};
ghost use Rattle.pep440_rs.specs.declared.specifier.operator.Operator.TheVariants.{ExactEqual};
ghost use Rattle.pep440_version.specs.Key.{record_cmp};

use pep440_version::{Version, cmp_releases, cmp_without_local};
use std::alloc::{AllocError, Global};
use std::cmp::Ordering;

// The order of the candidate, without its local part if the specifier has none, and the specifier.
pub(crate) fn cmp_candidate(specifier: &Version, version: &Version) -> Ordering
    ensures { result ≡ record_cmp (candidate specifier.now version.now) specifier.now }
{
    if specifier.is_local() {
        version.cmp(specifier)
    } else {
        cmp_without_local(version, specifier)
    }
}

// The release without its last number.
pub(crate) fn without_last(release: &[u64]) -> &[u64]
    requires { 0 < length release.now }
    ensures value { result.now ≡ without_last release.now }
    ensures len { length result.now + 1 ≡ length release.now }
{
    &release[..release.len() - 1]
}

// The release, padded with zeros, begins with these numbers.
fn begins_with(numbers: &[u64], prefix: &[u64]) -> bool
    ensures { result ≡ begins_with numbers.now prefix.now }
{
    let (shared, beyond) = prefix.split_at(prefix.len().min(numbers.len()));
    numbers.starts_with(shared) && beyond.iter().all(|number| *number == 0)
}

pub(crate) fn has_prefix(specifier: &Version, prefix: &[u64], version: &Version) -> bool
    ensures { result ≡ has_prefix specifier.now prefix.now version.now }
{
    version.epoch() == specifier.epoch() && begins_with(version.release(), prefix)
}

pub(crate) fn same_release(specifier: &Version, version: &Version) -> bool
    ensures { result ≡ same_release specifier.now version.now }
{
    version.epoch() == specifier.epoch()
        && cmp_releases(version.release(), specifier.release()).is_eq()
}

pub(crate) fn is_early(specifier: &Version, version: &Version) -> bool
    ensures { result ≡ is_early specifier.now version.now }
{
    same_release(specifier, version) && !specifier.any_prerelease() && version.any_prerelease()
}

pub(crate) fn is_late(specifier: &Version, version: &Version) -> bool
    ensures { result ≡ is_late specifier.now version.now }
{
    same_release(specifier, version)
        && ((version.is_post() && !specifier.is_post())
            || (specifier.is_local() && version.is_local()))
}

// Whether the two have the same normalized form.
pub(crate) fn has_same_print(
    alloc: Global,
    specifier: &Version,
    version: &Version,
) -> Result<bool, AllocError>
    ensures { IfOk result (λ b. b ≡ matches ExactEqual specifier.now version.now) }
{
    let wanted = specifier.to_string(alloc)?;
    let found = version.to_string(alloc)?;
    Ok(wanted == found)
}
