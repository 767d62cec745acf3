//! What follows the release in the sort key of a version, by its parts, before a version is made of them.
ghost use Rattle.std.specs.Prelude.{◌≡◌, ◌+◌, ◌++◌, ◌∷◌, ℕ, None, IsOk, OnOk, length};
ghost use Rattle.pep440_keys.specs.SortKeys.{rank_bytes};
ghost use Rattle.pep440_version.specs.Key.{Pre, dev_of, dev_rank, post_of, post_rank, stage_of, stage_rank};

use crate::key_bytes::push_suffix;
use crate::sink::KeySink;
use pep440_version::key::RankedNumber;
use pep440_version::{Prerelease, PrereleaseKind};
use std::alloc::AllocError;

#[inline(always)]
fn rank_pre(pre: Prerelease) -> RankedNumber
    ensures { (result.rank, result.number) ≡ stage_rank (Pre pre.kind pre.number) }
{
    let rank = match pre.kind {
        PrereleaseKind::Alpha => 2,
        PrereleaseKind::Beta => 3,
        PrereleaseKind::Rc => 4,
    };
    RankedNumber {
        rank,
        number: pre.number,
    }
}

// The stage of a version without sentinels.
#[inline(always)]
fn rank_stage(pre: Option<Prerelease>, post: Option<u64>, dev: Option<u64>) -> RankedNumber
    ensures { (result.rank, result.number) ≡ stage_rank (stage_of None pre dev post None) }
{
    match (pre, post, dev) {
        (Some(pre), _, _) => rank_pre(pre),
        (None, None, Some(_)) => RankedNumber { rank: 1, number: 0 },
        _ => RankedNumber { rank: 5, number: 0 },
    }
}

#[inline(always)]
fn rank_post(post: Option<u64>) -> RankedNumber
    ensures { (result.rank, result.number) ≡ post_rank (post_of None post) }
{
    match post {
        Some(number) => RankedNumber { rank: 1, number },
        None => RankedNumber { rank: 0, number: 0 },
    }
}

#[inline(always)]
fn rank_dev(dev: Option<u64>) -> RankedNumber
    ensures { (result.rank, result.number) ≡ dev_rank (dev_of None dev) }
{
    match dev {
        Some(number) => RankedNumber { rank: 0, number },
        None => RankedNumber { rank: 1, number: 0 },
    }
}

/// Appends what follows the numbers of a release in the sort key of a version of these parts, up to the local part, whose bytes follow: the end of
/// the release, stage, post and dev. Fails and allocates as `append` does.
#[inline(always)]
pub fn push_suffix_of<K: KeySink>(
    key: &mut K,
    pre: Option<Prerelease>,
    post: Option<u64>,
    dev: Option<u64>,
) -> Result<(), AllocError>
    ensures appended { OnOk result (K.written key.new
        ≡ K.written key.old ++ 0 ∷ (rank_bytes (stage_rank (stage_of None pre dev post None))
        ++ rank_bytes (post_rank (post_of None post)) ++ rank_bytes (dev_rank (dev_of None dev)))) }
    ensures fits { (more : ℕ) → K.has_capacity key.old
        (length (0 ∷ (rank_bytes (stage_rank (stage_of None pre dev post None))
        ++ rank_bytes (post_rank (post_of None post)) ++ rank_bytes (dev_rank (dev_of None dev)))) + more)
        → IsOk result × K.has_capacity key.new more }
{
    if let (None, None, None) = (pre, post, dev) {
        return key.append(&[0, 80, 0, 16]);
    }
    key.append(&[0])?;
    push_suffix(
        key,
        rank_stage(pre, post, dev),
        rank_post(post),
        rank_dev(dev),
    )
}
