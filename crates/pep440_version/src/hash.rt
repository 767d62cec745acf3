//! `Hash`: a version feeds its key to the hasher, so that equal versions hash alike.
ghost use Rattle.std.specs.Prelude.{◌≡◌, length, take, map};
ghost use Rattle.std.specs.Hash as fed;
ghost use Rattle.std.specs.List.{flat_map, fold};
ghost use Rattle.pep440_version.specs.Feed.{feed, feed_kind, feed_prerelease, feed_items, feed_stage, feed_post, feed_dev, feed_segment};
ghost use Rattle.pep440_version.specs.Key.{key};
ghost use Rattle.pep440_version.specs.Segments.{segment};
ghost use Rattle.pep440_version.specs.Key.Ties.{feeds_alike, segments_feed_alike, kinds_feed_alike, prereleases_feed_alike};

use crate::key::{RankedNumber, trim_trailing_zeros};
use crate::prerelease::{Prerelease, PrereleaseKind};
use crate::segment::LocalSegment;
use crate::version::Version;
use std::hash::{Hash, Hasher};

impl Hash for PrereleaseKind {
    ghost hash_input = { feed_kind };

    ghost respects_eq = { kinds_feed_alike };

    fn hash<H: Hasher>(&self, state: &mut H) {
        match self {
            PrereleaseKind::Alpha => state.write_u64(0),
            PrereleaseKind::Beta => state.write_u64(1),
            PrereleaseKind::Rc => state.write_u64(2),
        }
    }
}

impl Hash for Prerelease {
    ghost hash_input = { feed_prerelease };

    ghost respects_eq = { prereleases_feed_alike };

    fn hash<H: Hasher>(&self, state: &mut H) {
        self.kind.hash(state);
        state.write_u64(self.number);
    }
}

impl Hash for LocalSegment {
    ghost hash_input = { λ s. feed_segment (segment s) };

    ghost respects_eq = { segments_feed_alike };

    fn hash<H: Hasher>(&self, state: &mut H) {
        match self {
            LocalSegment::String(text) => {
                state.write_u64(0);
                state.write_u64(text.len() as u64);
                state.write(text.as_bytes());
            }
            LocalSegment::Number(number) => {
                state.write_u64(1);
                state.write_u64(*number);
            }
        }
    }
}

fn hash_numbers<H: Hasher>(numbers: &[u64], state: &mut H)
    ensures { state.new ≡ fold H.write state.old (feed_items fed.u64 numbers.now) }
{
    state.write_u64(numbers.len() as u64);
    u64::hash_slice(numbers, state);
}

fn hash_stage<H: Hasher>(v: &Version, state: &mut H)
    ensures { state.new ≡ fold H.write state.old (feed_stage (key v.now).stage) }
{
    let RankedNumber { rank, number, .. } = RankedNumber::from_stage(v);
    state.write_u64(u64::from(rank));
    if rank >= 2 && rank <= 4 {
        state.write_u64(number);
    }
}

fn hash_post<H: Hasher>(v: &Version, state: &mut H)
    ensures { state.new ≡ fold H.write state.old (feed_post (key v.now).post) }
{
    let RankedNumber { rank, number, .. } = RankedNumber::from_post(v);
    state.write_u64(u64::from(rank));
    if rank > 0 {
        state.write_u64(number);
    }
}

fn hash_dev<H: Hasher>(v: &Version, state: &mut H)
    ensures { state.new ≡ fold H.write state.old (feed_dev (key v.now).dev) }
{
    let RankedNumber { rank, number, .. } = RankedNumber::from_dev(v);
    state.write_u64(u64::from(rank));
    if rank == 0 {
        state.write_u64(number);
    }
}

fn hash_local<H: Hasher>(segments: &[LocalSegment], state: &mut H)
    ensures { state.new ≡ fold H.write state.old (feed_items feed_segment (map segment segments.now)) }
{
    state.write_u64(segments.len() as u64);
    for part in segments {
        part.hash(state);
    }
}

impl Hash for Version {
    ghost hash_input = { feed };

    ghost respects_eq = { feeds_alike };

    fn hash<H: Hasher>(&self, state: &mut H) {
        state.write_u64(self.epoch());
        hash_numbers(trim_trailing_zeros(self.release()), state);
        hash_stage(self, state);
        hash_post(self, state);
        hash_dev(self, state);
        hash_local(self.local(), state);
    }
}
