//! The least version above others.
ghost use Rattle.std.specs.Prelude.{◌≡◌, ◌<◌, ◌∷◌, [], IfOk, IfSome, length, option_map};
ghost use Rattle.pep440_rs.specs.Bounds.{next_number};
ghost use Rattle.pep440_sets.specs.NextVersions.{after_dev_releases, after_epoch, after_kind, after_post, after_posts, after_release_prefix, after_public, first_dev, least, pre_dev, raised_release};
ghost use Rattle.pep440_version.specs.Record.{from_parts};

use pep440_version::{Prerelease, PrereleaseKind, Version};
use std::alloc::{AllocError, Global};

// The version of these parts.
pub(crate) fn assemble(
    alloc: Global,
    epoch: u64,
    release: &[u64],
    pre: Option<Prerelease>,
    post: Option<u64>,
    dev: Option<u64>,
) -> Result<Version, AllocError>
    requires { 0 < length release.now }
    ensures { IfOk result (λ v. v ≡ from_parts epoch release.now pre post dev []) }
{
    Version::new(alloc, release)?
        .with_pre(alloc, pre)?
        .with_post(alloc, post)?
        .with_dev(alloc, dev)?
        .with_epoch(alloc, epoch)
}

// The least of all versions, `0.dev0`.
pub(crate) fn least_version(alloc: Global) -> Result<Version, AllocError>
    ensures { IfOk result (λ v. v ≡ least) }
{
    Version::new(alloc, &[0])?.with_dev(alloc, Some(0))
}

// The least version of a release.
pub(crate) fn first_dev(alloc: Global, epoch: u64, release: &[u64]) -> Result<Version, AllocError>
    requires { 0 < length release.now }
    ensures { IfOk result (λ v. v ≡ first_dev epoch release.now) }
{
    Version::new(alloc, release)?
        .with_dev(alloc, Some(0))?
        .with_epoch(alloc, epoch)
}

// The first dev release of a pre-release of the release of a version.
fn pre_dev(
    alloc: Global,
    version: &Version,
    kind: PrereleaseKind,
    number: u64,
) -> Result<Version, AllocError>
    ensures { IfOk result (λ v. v ≡ pre_dev version.now.epoch version.now.release kind number) }
{
    let pre = Prerelease { kind, number };
    assemble(
        alloc,
        version.epoch(),
        version.release(),
        Some(pre),
        None,
        Some(0),
    )
}

fn after_kind(alloc: Global, version: &Version, kind: PrereleaseKind) -> Result<Version, AllocError>
    ensures { IfOk result (λ v. v ≡ after_kind version.now.epoch version.now.release kind) }
{
    match kind {
        PrereleaseKind::Alpha => pre_dev(alloc, version, PrereleaseKind::Beta, 0),
        PrereleaseKind::Beta => pre_dev(alloc, version, PrereleaseKind::Rc, 0),
        PrereleaseKind::Rc => {
            assemble(alloc, version.epoch(), version.release(), None, None, None)
        }
    }
}

// After the release and pre-release of a version and all their post-releases.
pub(crate) fn after_posts(alloc: Global, version: &Version) -> Result<Version, AllocError>
    ensures { IfOk result (λ v. v ≡ after_posts version.now.epoch version.now.release version.now.pre) }
{
    let Some(pre) = version.pre() else {
        let release = assemble(alloc, version.epoch(), version.release(), None, None, None)?;
        return release.with_max(alloc, Some(0));
    };
    match pre.number.checked_add(1) {
        Some(number) => pre_dev(alloc, version, pre.kind, number),
        None => after_kind(alloc, version, pre.kind),
    }
}

fn after_post(alloc: Global, version: &Version, post: u64) -> Result<Version, AllocError>
    ensures { IfOk result (λ v. v ≡ after_post version.now.epoch version.now.release version.now.pre post) }
{
    let Some(number) = post.checked_add(1) else {
        return after_posts(alloc, version);
    };
    assemble(
        alloc,
        version.epoch(),
        version.release(),
        version.pre(),
        Some(number),
        Some(0),
    )
}

fn after_dev_releases(alloc: Global, version: &Version) -> Result<Version, AllocError>
    ensures { IfOk result (λ v. v ≡ after_dev_releases version.now.epoch version.now.release version.now.pre version.now.post) }
{
    if version.pre().is_none() && version.post().is_none() {
        return pre_dev(alloc, version, PrereleaseKind::Alpha, 0);
    }
    assemble(
        alloc,
        version.epoch(),
        version.release(),
        version.pre(),
        version.post(),
        None,
    )
}

// After the public version and its local versions.
pub(crate) fn after_public(alloc: Global, version: &Version) -> Result<Version, AllocError>
    ensures { IfOk result (λ v. v ≡ after_public version.now) }
{
    let (epoch, release, pre) = (version.epoch(), version.release(), version.pre());
    match (version.dev(), version.post()) {
        (Some(dev), post) => match dev.checked_add(1) {
            Some(number) => assemble(alloc, epoch, release, pre, post, Some(number)),
            None => after_dev_releases(alloc, version),
        },
        (None, Some(post)) => after_post(alloc, version, post),
        (None, None) => assemble(alloc, epoch, release, pre, Some(0), Some(0)),
    }
}

// The number plus 1, if it is not the greatest.
fn next_number(number: u64) -> Option<u64>
    ensures { result ≡ next_number number }
{
    number.checked_add(1)
}

// The least release above all that begin with these numbers, if there is one.
#[tactic(auto, using(crate::proofs::Raised::greatest_at, crate::proofs::Raised::raised_at))]
fn raise_numbers(alloc: Global, numbers: &[u64]) -> Result<Option<Vec<u64>>, AllocError>
    ensures value { IfOk result (λ o. option_map (λ v. v.items) o ≡ raised_release numbers.now) }
    ensures some { IfOk result (λ o. IfSome o (λ v. 0 < length v.items)) }
{
    for place in (0..numbers.len()).rev() {
        if let Some(next) = next_number(numbers[place]) {
            let mut release = Vec::with_capacity(alloc, place + 1)?;
            release.extend_from_slice(&numbers[..place])?;
            release.push(next)?;
            return Ok(Some(release));
        }
    }
    Ok(None)
}

fn after_epoch(alloc: Global, epoch: u64) -> Result<Option<Version>, AllocError>
    ensures { IfOk result (λ v. v ≡ after_epoch epoch) }
{
    match next_number(epoch) {
        Some(next) => Ok(Some(first_dev(alloc, next, &[0])?)),
        None => Ok(None),
    }
}

// After all versions of the epoch whose release begins with these numbers.
pub(crate) fn after_release_prefix(
    alloc: Global,
    epoch: u64,
    numbers: &[u64],
) -> Result<Option<Version>, AllocError>
    ensures { IfOk result (λ v. v ≡ after_release_prefix epoch numbers.now) }
{
    match raise_numbers(alloc, numbers)? {
        Some(release) => Ok(Some(first_dev(alloc, epoch, &release)?)),
        None => after_epoch(alloc, epoch),
    }
}
