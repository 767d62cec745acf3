//! Setters: each replaces one part of a version.
ghost use Rattle.std.specs.Prelude.{◌≡◌, ◌<◌, [], length, None, IfOk, IsOk, map, true};
ghost use Rattle.pep440_version.specs.Feed.{feed};
ghost use Rattle.pep440_version.specs.Key.{record_cmp};
ghost use Rattle.pep440_version.specs.Record.{from_release};
ghost use Rattle.pep440_version.specs.Segments.{segment};
ghost use Rattle.pep440_version.specs.Key.Trim.{trim};
ghost use Rattle.pep440_version.specs.Word.{is_packed};
ghost use Rattle.std.specs.declared.cmp.Ordering.TheVariants.{Equal};

use crate::packed::Part;
use crate::prerelease::Prerelease;
use crate::release::Release;
use crate::segment::LocalSegment;
use crate::version::{Version, prove_segments_fit};
use std::alloc::{AllocError, Global};

impl Version {
    /// The version with this release. The release must not be empty; `is_empty` is its test. Zeros at its end make no difference to
    /// order, equality and hash.
    ///
    /// Allocates only if the result is not packed.
    pub fn with_release(self, alloc: Global, release: &[u64]) -> Result<Version, AllocError>
        requires { 0 < length release.now }
        ensures value { IfOk result (λ v. v ≡ record self { release = release.now }) }
        ensures memory { is_packed (record self { release = release.now }) ≡ true → IsOk result }
        // Trailing zeros of the release make no difference to order and hash.
        ensures zeros { trim release.now ≡ trim self.release → IfOk result (λ v. (record_cmp v self ≡ Equal) × (feed v ≡ feed self)) }
    {
        let numbers = Release::from_slice(alloc, release)?;
        let mut unpacked = self.into_unpacked(alloc);
        unpacked.release = numbers;
        Version::from_unpacked(alloc, unpacked)
    }

    /// The version with this epoch; the version itself if it has it.
    ///
    /// Allocates only if the result is not packed.
    pub fn with_epoch(self, alloc: Global, epoch: u64) -> Result<Version, AllocError>
        ensures value { IfOk result (λ v. v ≡ record self { epoch = epoch }) }
        ensures memory { is_packed (record self { epoch = epoch }) ≡ true → IsOk result }
    {
        if epoch == self.epoch() {
            return Ok(self);
        }
        let mut unpacked = self.into_unpacked(alloc);
        unpacked.epoch = epoch;
        Version::from_unpacked(alloc, unpacked)
    }

    /// The version with this pre-release part, or without one.
    ///
    /// Allocates only if the result is not packed.
    #[inline(always)]
    pub fn with_pre(self, alloc: Global, pre: Option<Prerelease>) -> Result<Version, AllocError>
        ensures value { IfOk result (λ v. v ≡ record self { pre = pre }) }
        ensures memory { is_packed (record self { pre = pre }) ≡ true → IsOk result }
    {
        if let Some(version) = self.with_part(Part::Pre(pre)) {
            return Ok(version);
        }
        let mut unpacked = self.into_unpacked(alloc);
        unpacked.pre = pre;
        Version::from_unpacked(alloc, unpacked)
    }

    /// The version with this post-release number, or without one.
    ///
    /// Allocates only if the result is not packed.
    #[inline(always)]
    pub fn with_post(self, alloc: Global, post: Option<u64>) -> Result<Version, AllocError>
        ensures value { IfOk result (λ v. v ≡ record self { post = post }) }
        ensures memory { is_packed (record self { post = post }) ≡ true → IsOk result }
    {
        if let Some(version) = self.with_part(Part::Post(post)) {
            return Ok(version);
        }
        let mut unpacked = self.into_unpacked(alloc);
        unpacked.post = post;
        Version::from_unpacked(alloc, unpacked)
    }

    /// The version with this dev number, or without one.
    ///
    /// Allocates only if the result is not packed.
    #[inline(always)]
    pub fn with_dev(self, alloc: Global, dev: Option<u64>) -> Result<Version, AllocError>
        ensures value { IfOk result (λ v. v ≡ record self { dev = dev }) }
        ensures memory { is_packed (record self { dev = dev }) ≡ true → IsOk result }
    {
        if let Some(version) = self.with_part(Part::Dev(dev)) {
            return Ok(version);
        }
        let mut unpacked = self.into_unpacked(alloc);
        unpacked.dev = dev;
        Version::from_unpacked(alloc, unpacked)
    }

    /// The version with these local segments; an empty vector is no local part.
    ///
    /// Allocates only if the result is not packed.
    pub fn with_local(self, alloc: Global, local: Vec<LocalSegment>) -> Result<Version, AllocError>
        ensures value { IfOk result (λ v. v ≡ record self { local = map segment local.items }) }
        ensures memory { is_packed (record self { local = map segment local.items }) ≡ true → IsOk result }
    {
        prove_segments_fit(&local);
        let mut unpacked = self.into_unpacked(alloc);
        unpacked.local = local;
        Version::from_unpacked(alloc, unpacked)
    }

    // The version with a copy of these local segments.
    pub(crate) fn with_copied_local(
        self,
        alloc: Global,
        local: &Vec<LocalSegment>,
    ) -> Result<Version, AllocError>
        ensures value { IfOk result (λ v. v ≡ record self { local = map segment local.now.items }) }
    {
        let copy = local.clone()?;
        self.with_local(alloc, copy)
    }

    /// The version without its local part.
    ///
    /// Allocates only if the result is not packed.
    pub fn without_local(self, alloc: Global) -> Result<Version, AllocError>
        ensures value { IfOk result (λ v. v ≡ record self { local = [] }) }
        ensures memory { is_packed (record self { local = [] }) ≡ true → IsOk result }
    {
        self.with_local(alloc, Vec::new(alloc))
    }

    /// The version that is only this release, with epoch 0.
    ///
    /// Allocates only if the result is not packed.
    pub fn only_release(&self, alloc: Global) -> Result<Version, AllocError>
        ensures value { IfOk result (λ v. v ≡ from_release self.now.release) }
        ensures memory { is_packed (from_release self.now.release) ≡ true → IsOk result }
    {
        Version::new(alloc, self.release())
    }

    /// The version with the sentinel `min`, or without it. The version must have neither a pre-release nor a dev
    /// part, also to remove the sentinel; `any_prerelease` is the test.
    ///
    /// Allocates only if the result is not packed.
    #[inline(always)]
    pub fn with_min(self, alloc: Global, min: Option<u64>) -> Result<Version, AllocError>
        requires no_pre { self.pre ≡ None }
        requires no_dev { self.dev ≡ None }
        ensures value { IfOk result (λ v. v ≡ record self { min = min }) }
        ensures memory { is_packed (record self { min = min }) ≡ true → IsOk result }
    {
        if let Some(version) = self.with_part(Part::Min(min)) {
            return Ok(version);
        }
        let mut unpacked = self.into_unpacked(alloc);
        unpacked.min = min;
        Version::from_unpacked(alloc, unpacked)
    }

    /// The version with the sentinel `max`, or without it. The version must have neither a post-release nor a dev
    /// part, also to remove the sentinel; `is_post` and `is_dev` are the tests.
    ///
    /// Allocates only if the result is not packed.
    #[inline(always)]
    pub fn with_max(self, alloc: Global, max: Option<u64>) -> Result<Version, AllocError>
        requires no_post { self.post ≡ None }
        requires no_dev { self.dev ≡ None }
        ensures value { IfOk result (λ v. v ≡ record self { max = max }) }
        ensures memory { is_packed (record self { max = max }) ≡ true → IsOk result }
    {
        if let Some(version) = self.with_part(Part::Max(max)) {
            return Ok(version);
        }
        let mut unpacked = self.into_unpacked(alloc);
        unpacked.max = max;
        Version::from_unpacked(alloc, unpacked)
    }
}
