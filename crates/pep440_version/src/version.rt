//! The type `Version`: how one is made, and its parts.
ghost use Rattle.std.specs.Prelude.{◌≡◌, ◌<◌, ◌||◌, ◌↔◌, [], ◌∷◌, length, Some, None, IfOk, IfSome, IsOk, IsTrue, map, is_some, is_none, if◌then◌else◌, true, false};
ghost use Rattle.std.specs.List.{All};
ghost use Rattle.pep440_version.specs.Form.{IsWord, unpacked_record, packed_record, with_part};
ghost use Rattle.pep440_version.specs.Record.{from_parts, from_release, zero_alpha_dev, IsRecord, SegmentFits};
ghost use Rattle.pep440_version.specs.Segments.{segment};
ghost use Rattle.pep440_version.specs.Word.{is_packed, word};
ghost use Rattle.std.specs.Option.{option_copied};

use crate::packed::{Packed, Part, dev_in, max_in, min_in, post_in, pre_in, replace_part};
use crate::prerelease::{Prerelease, PrereleaseKind};
use crate::release::{Release, prove_numbers_fit};
use crate::segment::LocalSegment;
use crate::unpacked::Unpacked;
use std::alloc::{AllocError, Global};
use std::marker::Model;

/// A version (PEP 440, "Public version identifiers" and "Local version identifiers"): epoch, release, optional pre,
/// post, dev and local parts, and the sentinels `min` and `max`.
///
/// Versions are ordered by their key, so that `1.0` equals `1.0.0`; `release` and `Display` distinguish them.
///
/// A version is packed if its epoch is 0, it has no local part, at most four release numbers, the first at most 65535
/// and the others at most 255, and at most one of pre, post, dev, `min` and `max`, whose number is at most 2097151.
/// It then stores its release numbers, their count and one word (`laws::word`) inline, without a box.
#[derive(Drop)]
pub struct Version {
    form: Form,
}

// Packed, with its word, exactly if the record is: so the record determines the form.
#[derive(Drop)]
enum Form {
    PackedWord {
        count: u8,
        word: u64,
        numbers: [u64; 4],
    },
    UnpackedFields(Box<Unpacked>),
}

impl Model for Version {
    ghost use Rattle.pep440_version.specs.Record.{Record, IsRecord};

    ghost Value = { Record };

    ghost use Rattle.pep440_version.specs.Form.{form_record, IsVersionForm};

    ghost view = { λ v. form_record v.form };

    ghost invariant = { λ v. IsVersionForm v.form };
}

// A number fits, since it is a `u64`.
fn prove_segment_fits(local_segment: &LocalSegment)
    ensures { SegmentFits (segment local_segment.now) }
{
    if let LocalSegment::Number(number) = local_segment {
        let _fits = *number;
    }
}

// The loop is compiled away: `with_local` takes as many instructions for 100,001 segments as for one.
pub(crate) fn prove_segments_fit(segments: &[LocalSegment])
    ensures { All SegmentFits (map segment segments.now) }
{
    for segment in segments {
        prove_segment_fits(segment);
    }
}

/// The version `0a0.dev0`. It is not the least one: `0.dev0` is below it.
///
/// Allocates.
pub fn min_version(alloc: Global) -> Result<Version, AllocError>
    ensures { IfOk result (λ v. v ≡ zero_alpha_dev) }
{
    let pre = Prerelease {
        kind: PrereleaseKind::Alpha,
        number: 0,
    };
    let release = Release::from_number(0);
    Version::from_parts(alloc, 0, release, Some(pre), None, Some(0), Vec::new(alloc))
}

impl Version {
    // Every version but a clone is made here or by `from_packed`.
    pub(crate) fn from_unpacked(alloc: Global, unpacked: Unpacked) -> Result<Version, AllocError>
        requires { IsRecord (unpacked_record unpacked) }
        ensures value { IfOk result (λ v. v ≡ unpacked_record unpacked) }
        ensures memory { is_packed (unpacked_record unpacked) ≡ true → IsOk result }
    {
        match Packed::pack(&unpacked) {
            Some(packed) => Ok(Version::from_packed(packed)),
            None => Ok(Version {
                form: Form::UnpackedFields(Box::new(alloc, unpacked)?),
            }),
        }
    }

    // The version with these packed parts.
    #[inline(always)]
    pub(crate) fn from_packed(packed: Packed) -> Version
        requires valid { IsRecord (packed_record packed.count packed.word packed.numbers) }
        requires word { IsWord packed.count packed.word packed.numbers }
        ensures { result ≡ packed_record packed.count packed.word packed.numbers }
    {
        let Packed {
            count,
            word,
            numbers,
        } = packed;
        Version {
            form: Form::PackedWord {
                count,
                word,
                numbers,
            },
        }
    }

    // The version with this part, if both are packed.
    #[inline(always)]
    pub(crate) fn with_part(&self, part: Part) -> Option<Version>
        ensures { IfSome result (λ v. v ≡ with_part part self.now) }
    {
        match &self.form {
            Form::UnpackedFields(_) => None,
            Form::PackedWord {
                count,
                word,
                numbers,
            } => {
                let word = replace_part(*word, part)?;
                Some(Version::from_packed(Packed {
                    count: *count,
                    word,
                    numbers: *numbers,
                }))
            }
        }
    }

    // All parts, unpacked.
    pub(crate) fn into_unpacked(self, alloc: Global) -> Unpacked
        ensures value { unpacked_record result ≡ self }
        ensures valid { IsRecord self }
    {
        let Version { form } = self;
        match form {
            Form::UnpackedFields(unpacked) => Box::into_inner(unpacked),
            Form::PackedWord {
                count,
                word,
                numbers,
            } => Unpacked {
                epoch: 0,
                release: Release::from_array(numbers, usize::from(count)),
                pre: pre_in(word),
                post: post_in(word),
                dev: dev_in(word),
                local: Vec::new(alloc),
                min: min_in(word),
                max: max_in(word),
            },
        }
    }

    // The version of these parts, without sentinels.
    pub(crate) fn from_parts(
        alloc: Global,
        epoch: u64,
        release: Release,
        pre: Option<Prerelease>,
        post: Option<u64>,
        dev: Option<u64>,
        local: Vec<LocalSegment>,
    ) -> Result<Version, AllocError>
        requires some { 0 < length release }
        requires fits { All SegmentFits (map segment local.items) }
        ensures value { IfOk result (λ v. v ≡ from_parts epoch release pre post dev (map segment local.items)) }
        ensures memory { is_packed (from_parts epoch release pre post dev (map segment local.items)) ≡ true → IsOk result }
    {
        prove_numbers_fit(release.as_slice());
        let unpacked = Unpacked {
            epoch,
            release,
            pre,
            post,
            dev,
            local,
            min: None,
            max: None,
        };
        Version::from_unpacked(alloc, unpacked)
    }

    /// The version that is only this release, as `1.2.3` of 1, 2 and 3 (PEP 440, "Final releases").
    /// The release must not be empty; `is_empty` is its test.
    ///
    /// Allocates only if the version is not packed.
    pub fn new(alloc: Global, release: &[u64]) -> Result<Version, AllocError>
        requires { 0 < length release.now }
        ensures value { IfOk result (λ v. v ≡ from_release release.now) }
        ensures memory { is_packed (from_release release.now) ≡ true → IsOk result }
    {
        Version::from_unpacked(alloc, Unpacked::new(alloc, release)?)
    }

    // The word, if the version is packed.
    #[inline(always)]
    pub(crate) fn word(&self) -> Option<&u64>
        ensures { option_copied result ≡ (if is_packed self.now then Some (word self.now) else None) }
    {
        match &self.form {
            Form::PackedWord { word, .. } => Some(word),
            Form::UnpackedFields(_) => None,
        }
    }

    /// The epoch, 0 if none is written (PEP 440, "Version epochs").
    pub fn epoch(&self) -> u64
        ensures { result ≡ self.now.epoch }
    {
        match &self.form {
            Form::PackedWord { .. } => 0,
            Form::UnpackedFields(unpacked) => unpacked.epoch,
        }
    }

    /// The release numbers as they were given, zeros at the end included; at least one (PEP 440,
    /// "Final releases").
    pub fn release(&self) -> &[u64]
        ensures value { result.now ≡ self.now.release }
        // Every version's release is not empty, and its numbers fit.
        ensures valid { IsRecord self.now }
    {
        match &self.form {
            Form::PackedWord { count, numbers, .. } => &numbers[..usize::from(*count)],
            Form::UnpackedFields(unpacked) => unpacked.release.as_slice(),
        }
    }

    /// The pre-release (PEP 440, "Pre-releases").
    pub fn pre(&self) -> Option<Prerelease>
        ensures { result ≡ self.now.pre }
    {
        match &self.form {
            Form::PackedWord { word, .. } => pre_in(*word),
            Form::UnpackedFields(unpacked) => unpacked.pre,
        }
    }

    /// The number of the post-release (PEP 440, "Post-releases").
    pub fn post(&self) -> Option<u64>
        ensures { result ≡ self.now.post }
    {
        match &self.form {
            Form::PackedWord { word, .. } => post_in(*word),
            Form::UnpackedFields(unpacked) => unpacked.post,
        }
    }

    /// The number of the dev release (PEP 440, "Developmental releases").
    pub fn dev(&self) -> Option<u64>
        ensures { result ≡ self.now.dev }
    {
        match &self.form {
            Form::PackedWord { word, .. } => dev_in(*word),
            Form::UnpackedFields(unpacked) => unpacked.dev,
        }
    }

    /// The segments of the local part; none if there is no local part (PEP 440, "Local version
    /// identifiers").
    pub fn local(&self) -> &[LocalSegment]
        ensures { map segment result.now ≡ self.now.local }
    {
        match &self.form {
            Form::PackedWord { .. } => &[],
            Form::UnpackedFields(unpacked) => unpacked.local.as_slice(),
        }
    }

    /// The number of the sentinel `min`, which is below every version of the same epoch and release without it. No
    /// string parses to it. Of an owned version write `Version::min(&version)`, since `version.min()` is `Ord::min`.
    pub fn min(&self) -> Option<u64>
        ensures { result ≡ self.now.min }
    {
        match &self.form {
            Form::PackedWord { word, .. } => min_in(*word),
            Form::UnpackedFields(unpacked) => unpacked.min,
        }
    }

    /// The number of the sentinel `max`, which is above every post-release of the same release and pre-release. No
    /// string parses to it. Of an owned version write `Version::max(&version)`, since `version.max()` is `Ord::max`.
    pub fn max(&self) -> Option<u64>
        ensures { result ≡ self.now.max }
    {
        match &self.form {
            Form::PackedWord { word, .. } => max_in(*word),
            Form::UnpackedFields(unpacked) => unpacked.max,
        }
    }

    /// Whether there is a pre-release part.
    pub fn is_pre(&self) -> bool
        ensures { result ≡ is_some self.now.pre }
    {
        self.pre().is_some()
    }

    /// Whether there is a post-release part.
    pub fn is_post(&self) -> bool
        ensures { result ≡ is_some self.now.post }
    {
        self.post().is_some()
    }

    /// Whether there is a dev part.
    pub fn is_dev(&self) -> bool
        ensures { result ≡ is_some self.now.dev }
    {
        self.dev().is_some()
    }

    /// Whether there is a local part.
    pub fn is_local(&self) -> bool
        ensures { IsTrue result ↔ (0 < length self.now.local) }
    {
        !self.local().is_empty()
    }

    /// Whether there is a pre-release or a dev part.
    pub fn any_prerelease(&self) -> bool
        ensures { result ≡ (is_some self.now.pre || is_some self.now.dev) }
    {
        self.is_pre() || self.is_dev()
    }

    /// Whether there is neither a pre-release nor a dev part.
    pub fn is_stable(&self) -> bool
        ensures { result ≡ (if is_some self.now.pre || is_some self.now.dev then false else true) }
    {
        !self.any_prerelease()
    }

    /// Whether the version is a release with epoch 0 and has no other part and no sentinel.
    pub fn is_release_only(&self) -> bool
        ensures { IsTrue result ↔ (self.now ≡ from_release self.now.release) }
    {
        self.epoch() == 0
            && self.pre().is_none()
            && self.post().is_none()
            && self.dev().is_none()
            && self.local().is_empty()
            && self.min().is_none()
            && self.max().is_none()
    }
}

impl Clone for Version {
    ghost is_clone = { λ version copy. copy ≡ version };

    ghost is_infallible = { λ version. is_packed version ≡ true };

    fn clone(&self) -> Result<Version, AllocError> {
        let form = match &self.form {
            Form::PackedWord {
                count,
                word,
                numbers,
            } => Form::PackedWord {
                count: *count,
                word: *word,
                numbers: *numbers,
            },
            Form::UnpackedFields(unpacked) => Form::UnpackedFields(unpacked.clone()?),
        };
        Ok(Version { form })
    }
}
