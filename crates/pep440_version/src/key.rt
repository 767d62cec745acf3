//! The key of a version, as its order, its hash and its sort key use it: the ranks of stage, post and dev, and the release
//! without the zeros at its end.
ghost use Rattle.std.specs.Prelude.{◌≡◌, ◌≤◌};
ghost use Rattle.pep440_version.specs.Key.{dev_rank, key, post_rank, stage_rank};
ghost use Rattle.pep440_version.specs.Key.Trim.{trim};

use crate::prerelease::PrereleaseKind;
use crate::version::Version;

/// The position of a part among other versions' parts: by rank, and then by number (PEP 440, "Summary of permitted suffixes
/// and relative ordering").
#[derive(Clone, Copy, PartialEq, Eq, PartialOrd, Ord)]
pub struct RankedNumber {
    /// At most 5.
    pub rank: u8,
    /// 0 if the rank has no numbers.
    pub number: u64,
    ghost few: { rank ≤ 5 },
}

impl RankedNumber {
    /// The stage: `min`, dev, the kinds of pre-releases, final.
    pub fn from_stage(version: &Version) -> RankedNumber
        ensures { (result.rank, result.number) ≡ stage_rank (key version.now).stage }
    {
        if version.min().is_some() {
            return RankedNumber { rank: 0, number: 0 };
        }
        match version.pre() {
            Some(pre) => {
                let rank = match pre.kind {
                    PrereleaseKind::Alpha => 2,
                    PrereleaseKind::Beta => 3,
                    PrereleaseKind::Rc => 4,
                };
                RankedNumber {
                    rank,
                    number: pre.number,
                }
            }
            None => {
                let alone = version.post().is_none() && version.max().is_none();
                let rank = if alone && version.dev().is_some() {
                    1
                } else {
                    5
                };
                RankedNumber { rank, number: 0 }
            }
        }
    }

    /// The post-release: none, one, the sentinel `max`.
    pub fn from_post(version: &Version) -> RankedNumber
        ensures { (result.rank, result.number) ≡ post_rank (key version.now).post }
    {
        match (version.max(), version.post()) {
            (Some(number), _) => RankedNumber { rank: 2, number },
            (None, Some(number)) => RankedNumber { rank: 1, number },
            (None, None) => RankedNumber { rank: 0, number: 0 },
        }
    }

    /// The dev release: the sentinel `min` or one, none.
    pub fn from_dev(version: &Version) -> RankedNumber
        ensures { (result.rank, result.number) ≡ dev_rank (key version.now).dev }
    {
        match (version.min(), version.dev()) {
            (Some(number), _) | (None, Some(number)) => RankedNumber { rank: 0, number },
            (None, None) => RankedNumber { rank: 1, number: 0 },
        }
    }
}

/// The release without the zeros at its end.
pub fn trim_trailing_zeros(numbers: &[u64]) -> &[u64]
    ensures { result.now ≡ trim numbers.now }
{
    let mut end = numbers.len();
    while end > 0 && numbers[end - 1] == 0 {
        end -= 1;
    }
    &numbers[..end]
}
