//! The newest of some candidates.
ghost use Rattle.std.specs.Prelude.{◌≡◌, ◌≢◌, ◌<◌, ◌||◌, length, not, IfOk, IfSome, IsOk};
ghost use Rattle.std.specs.List.{All};
ghost use Rattle.std.specs.Ordering.{is_lt};
ghost use Rattle.pep440_version.specs.Key.{record_cmp};
ghost use Rattle.pep440_rs.specs.Matching.{any_prerelease};
ghost use Rattle.pep440_rs.specs.declared.specifier.operator.Operator.TheVariants.{ExactEqual};
ghost use Rattle.pep440_pick.specs.Newest.{is_above, Newest, all_contain, positioned, preference};

use pep440_rs::{Version, VersionSpecifiers};
use std::alloc::{AllocError, Global};

// Each list contains the version.
fn all_contain(
    alloc: Global,
    lists: &[VersionSpecifiers],
    version: &Version,
) -> Result<bool, AllocError>
    ensures value { IfOk result (λ b. b ≡ all_contain lists.now version.now) }
    ensures answered { All (λ list. All (λ m. m.operator ≢ ExactEqual) list) lists.now → IsOk result }
{
    for list in lists {
        if !list.contains(alloc, version)? {
            return Ok(false);
        }
    }
    Ok(true)
}

fn is_above(newest: Option<(usize, &Version)>, version: &Version) -> bool
    ensures { result ≡ is_above record_cmp (positioned newest.entry) version.now }
{
    match newest {
        None => true,
        Some((_, newest)) => *newest < *version,
    }
}

// Whether it is a final release, or taken as one.
fn is_taken(takes: bool, version: &Version) -> bool
    ensures { result ≡ (takes || not (any_prerelease version.now)) }
{
    takes || !version.any_prerelease()
}

/// Whether the version is preferred to the newest so far: where it is above it. Pre-releases and developmental releases lie below all
/// final releases unless they are taken, so that one is the newest only of candidates without a final release (PEP 440, "Handling of
/// pre-releases").
pub fn is_preferred(takes: bool, newest: &Version, version: &Version) -> bool
    ensures { result ≡ is_lt (preference takes newest.now version.now) }
{
    is_taken(takes, newest)
        .cmp(&is_taken(takes, version))
        .then(newest.cmp(version))
        .is_lt()
}

/// The index of the greatest candidate that every list contains; of equal ones the first. `None` only if no candidate is
/// contained. Without lists every candidate is contained.
///
/// Allocates only for members with `===`, and returns `AllocError` only if that fails; without such a member it always
/// succeeds. Candidates that are not above the newest so far are not matched.
pub fn newest(
    alloc: Global,
    lists: &[VersionSpecifiers],
    candidates: &[Version],
) -> Result<Option<usize>, AllocError>
    ensures newest { IfOk result (Newest lists.now candidates.now) }
    // It is the index of a candidate.
    ensures inside { IfOk result (λ newest. IfSome newest (λ position. position < length candidates.now)) }
    ensures answered { All (λ list. All (λ m. m.operator ≢ ExactEqual) list) lists.now → IsOk result }
{
    let mut newest: Option<(usize, &Version)> = None;
    for (position, candidate) in candidates.iter().enumerate() {
        if is_above(newest, candidate) && all_contain(alloc, lists, candidate)? {
            newest = Some((position, candidate));
        }
    }
    Ok(newest.map(|(position, _)| position))
}
