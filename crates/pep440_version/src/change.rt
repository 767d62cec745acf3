//! Lists of changes.
ghost use Rattle.std.specs.Prelude.{◌≡◌, ◌⊎◌, ◌+◌, ◌<◌, Ok, Err, IfOk, IfErr, length, map};
ghost use Rattle.pep440_version.specs.Changes.{apply_edit, apply_edits, edit};
ghost use Rattle.pep440_version.specs.declared.change.ChangeError.TheVariants.{OutOfMemory};

use crate::prerelease::Prerelease;
use crate::segment::LocalSegment;
use crate::version::Version;
use std::alloc::{AllocError, Global};

/// One change of a version, by the setter of its name.
#[derive(Debug, Drop)]
pub enum Change {
    /// `with_release`.
    Release(Vec<u64>),
    /// `with_epoch`.
    Epoch(u64),
    /// `with_pre`.
    Pre(Option<Prerelease>),
    /// `with_post`.
    Post(Option<u64>),
    /// `with_dev`.
    Dev(Option<u64>),
    /// `with_local`.
    Local(Vec<LocalSegment>),
    /// `without_local`.
    WithoutLocal,
    /// `only_release`.
    OnlyRelease,
    /// `with_min`.
    Min(Option<u64>),
    /// `with_max`.
    Max(Option<u64>),
}

impl Clone for Change {
    ghost is_clone = { λ change copy. edit copy ≡ edit change };

    fn clone(&self) -> Result<Change, AllocError> {
        match self {
            Change::Release(numbers) => Ok(Change::Release(numbers.clone()?)),
            Change::Epoch(epoch) => Ok(Change::Epoch(*epoch)),
            Change::Pre(pre) => Ok(Change::Pre(*pre)),
            Change::Post(post) => Ok(Change::Post(*post)),
            Change::Dev(dev) => Ok(Change::Dev(*dev)),
            Change::Local(local) => Ok(Change::Local(local.clone()?)),
            Change::WithoutLocal => Ok(Change::WithoutLocal),
            Change::OnlyRelease => Ok(Change::OnlyRelease),
            Change::Min(min) => Ok(Change::Min(*min)),
            Change::Max(max) => Ok(Change::Max(*max)),
        }
    }
}

/// Why a list of changes cannot be applied: the number, counted from 1, of the first change that cannot be applied to
/// the version that those before it made.
#[derive(Debug, Clone, Copy, PartialEq, Eq)]
pub enum ChangeError {
    /// A release of no numbers.
    EmptyRelease(usize),
    /// `min` on a version with a pre-release or dev part.
    MinNotAllowed(usize),
    /// `max` on a version with a post-release or dev part.
    MaxNotAllowed(usize),
    /// Out of memory; the changes may be valid or not.
    OutOfMemory,
}

impl From<AllocError> for ChangeError {
    ghost from_gives = { λ _ e. e ≡ OutOfMemory };

    fn from(_e: AllocError) -> ChangeError {
        ChangeError::OutOfMemory
    }
}

impl Version {
    // One change, with its number in the list.
    fn with_change(
        self,
        alloc: Global,
        change: &Change,
        position: usize,
    ) -> Result<Version, ChangeError>
        ensures ok { IfOk result (λ v. apply_edit position self (edit change.now) ≡ Ok v) }
        ensures err { IfErr result (λ e. (e ≡ OutOfMemory) ⊎ (apply_edit position self (edit change.now) ≡ Err e)) }
    {
        let changed = match change {
            Change::Release(numbers) => {
                if numbers.is_empty() {
                    return Err(ChangeError::EmptyRelease(position));
                }
                self.with_release(alloc, numbers.as_slice())
            }
            Change::Epoch(epoch) => self.with_epoch(alloc, *epoch),
            Change::Pre(pre) => self.with_pre(alloc, *pre),
            Change::Post(post) => self.with_post(alloc, *post),
            Change::Dev(dev) => self.with_dev(alloc, *dev),
            Change::Local(local) => self.with_copied_local(alloc, local),
            Change::WithoutLocal => self.without_local(alloc),
            Change::OnlyRelease => {
                let version = self;
                version.only_release(alloc)
            }
            Change::Min(min) => {
                if self.pre().is_some() || self.dev().is_some() {
                    return Err(ChangeError::MinNotAllowed(position));
                }
                self.with_min(alloc, *min)
            }
            Change::Max(max) => {
                if self.post().is_some() || self.dev().is_some() {
                    return Err(ChangeError::MaxNotAllowed(position));
                }
                self.with_max(alloc, *max)
            }
        };
        Ok(changed?)
    }

    /// The version after the changes, applied in order by their setters.
    ///
    /// Every release must have a number, `min` goes with neither pre nor dev, `max` with neither post nor dev: the
    /// error names the first change that cannot be applied to the version reached by then.
    ///
    /// May allocate.
    pub fn with_changes(self, alloc: Global, changes: &[Change]) -> Result<Version, ChangeError>
        ensures ok { IfOk result (λ v. apply_edits 1 self (map edit changes.now) ≡ Ok v) }
        ensures err { IfErr result (λ e. (e ≡ OutOfMemory) ⊎ (apply_edits 1 self (map edit changes.now) ≡ Err e)) }
    {
        let mut version = self;
        for i in 0..changes.len() {
            version = version.with_change(alloc, &changes[i], i + 1)?;
        }
        Ok(version)
    }
}
