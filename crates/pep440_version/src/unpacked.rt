//! An unpacked version: a field for each part.
ghost use Rattle.std.specs.Prelude.{◌≡◌, ◌≤◌, length, IfOk, IsOk};
ghost use Rattle.pep440_version.specs.Form.{unpacked_record};
ghost use Rattle.pep440_version.specs.Record.{from_release};

use crate::prerelease::Prerelease;
use crate::release::Release;
use crate::segment::LocalSegment;
use std::alloc::{AllocError, Global};

#[derive(Drop)]
pub(crate) struct Unpacked {
    pub(crate) epoch: u64,
    pub(crate) release: Release,
    pub(crate) pre: Option<Prerelease>,
    pub(crate) post: Option<u64>,
    pub(crate) dev: Option<u64>,
    pub(crate) local: Vec<LocalSegment>,
    pub(crate) min: Option<u64>,
    pub(crate) max: Option<u64>,
}

impl Unpacked {
    // Only a release.
    pub(crate) fn new(alloc: Global, release: &[u64]) -> Result<Unpacked, AllocError>
        ensures value { IfOk result (λ unpacked. unpacked_record unpacked ≡ from_release release.now) }
        ensures memory { length release.now ≤ 4 → IsOk result }
    {
        Ok(Unpacked {
            epoch: 0,
            release: Release::from_slice(alloc, release)?,
            pre: None,
            post: None,
            dev: None,
            local: Vec::new(alloc),
            min: None,
            max: None,
        })
    }
}

impl Clone for Unpacked {
    ghost is_clone = { λ f g. unpacked_record g ≡ unpacked_record f };

    fn clone(&self) -> Result<Unpacked, AllocError> {
        Ok(Unpacked {
            epoch: self.epoch,
            release: self.release.clone()?,
            pre: self.pre,
            post: self.post,
            dev: self.dev,
            local: self.local.clone()?,
            min: self.min,
            max: self.max,
        })
    }
}
