//! The parts of a version, by name.
ghost use Rattle.std.specs.Prelude.{◌≡◌, ◌++◌, IfOk, get_or, map, string_bytes, Some};
ghost use Rattle.std.specs.Fmt.{decimal};
ghost use Rattle.pep440_version.specs.Print.{dotted, pre_text, print_segment};
ghost use Rattle.pep440_version.specs.Record.{epoch_and_release};
ghost use Rattle.pep440_version.specs.Segments.{segment};
ghost use Rattle.pyver_commands.specs.Parts.{number_text, part_of, part_text};

use pep440_rs::{LocalSegment, Prerelease, Version, write_local_segments};
use std::alloc::{AllocError, Global};
use std::fmt;

/// A part of a version (PEP 440), by its name.
#[derive(Clone, Copy)]
pub enum VersionPart {
    Epoch,
    Release,
    Major,
    Minor,
    Micro,
    Pre,
    Post,
    Dev,
    Local,
    /// All but the local part.
    Public,
    /// Epoch and release.
    Base,
}

/// The part that the word names.
pub fn parse_part(word: &str) -> Option<VersionPart>
    ensures { result ≡ part_of word.now }
{
    match word {
        "epoch" => Some(VersionPart::Epoch),
        "release" => Some(VersionPart::Release),
        "major" => Some(VersionPart::Major),
        "minor" => Some(VersionPart::Minor),
        "micro" => Some(VersionPart::Micro),
        "pre" => Some(VersionPart::Pre),
        "post" => Some(VersionPart::Post),
        "dev" => Some(VersionPart::Dev),
        "local" => Some(VersionPart::Local),
        "public" => Some(VersionPart::Public),
        "base" => Some(VersionPart::Base),
        _ => None,
    }
}

// The number of the release at the index, 0 where the release is shorter.
pub(crate) fn release_number(version: &Version, index: usize) -> u64
    ensures { result ≡ get_or version.now.release index 0 }
{
    let release = version.release();
    if index < release.len() {
        release[index]
    } else {
        0
    }
}

// Local segments with dots between them.
#[derive(Clone, Copy)]
struct LocalPart<'a>(&'a [LocalSegment]);

impl fmt::Display for LocalPart<'_> {
    ghost output = { λ l. Some (dotted print_segment (map segment l.0.now)) };

    ghost styled_output = { λ l _. Some (dotted print_segment (map segment l.0.now)) };

    fn fmt<W: fmt::Write>(&self, f: &mut fmt::Formatter<W>) -> fmt::Result {
        write_local_segments(f, self.0)
    }
}

// The local part, nothing where there is none.
pub(crate) fn local_text(alloc: Global, version: &Version) -> Result<String, AllocError>
    ensures { IfOk result (λ s. string_bytes s ≡ dotted print_segment version.now.local) }
{
    LocalPart(version.local()).to_string(alloc)
}

// The version without its local part.
pub(crate) fn public_text(alloc: Global, version: &Version) -> Result<String, AllocError>
    ensures { IfOk result (λ s. string_bytes s ≡ part_text VersionPart.Public version.now) }
{
    let public = version.clone()?.without_local(alloc)?;
    public.to_string(alloc)
}

// Epoch and release.
pub(crate) fn base_version(alloc: Global, version: &Version) -> Result<Version, AllocError>
    ensures { IfOk result (λ v. v ≡ epoch_and_release version.now.epoch version.now.release) }
{
    let release = version.only_release(alloc)?;
    release.with_epoch(alloc, version.epoch())
}

pub(crate) fn base_text(alloc: Global, version: &Version) -> Result<String, AllocError>
    ensures { IfOk result (λ s. string_bytes s ≡ part_text VersionPart.Base version.now) }
{
    base_version(alloc, version)?.to_string(alloc)
}

fn pre_text(alloc: Global, pre: Option<Prerelease>) -> Result<String, AllocError>
    ensures { IfOk result (λ s. string_bytes s ≡ pre_text pre) }
{
    match pre {
        Some(pre) => pre.to_string(alloc),
        None => Ok(String::new(alloc)),
    }
}

fn number_text(alloc: Global, number: Option<u64>) -> Result<String, AllocError>
    ensures { IfOk result (λ s. string_bytes s ≡ number_text number) }
{
    match number {
        Some(number) => number.to_string(alloc),
        None => Ok(String::new(alloc)),
    }
}

// The part of the version, nothing where it has none.
pub(crate) fn part_text(
    alloc: Global,
    part: VersionPart,
    version: &Version,
) -> Result<String, AllocError>
    ensures { IfOk result (λ s. string_bytes s ≡ part_text part version.now) }
{
    match part {
        VersionPart::Epoch => version.epoch().to_string(alloc),
        VersionPart::Release => version.only_release(alloc)?.to_string(alloc),
        VersionPart::Major => release_number(version, 0).to_string(alloc),
        VersionPart::Minor => release_number(version, 1).to_string(alloc),
        VersionPart::Micro => release_number(version, 2).to_string(alloc),
        VersionPart::Pre => pre_text(alloc, version.pre()),
        VersionPart::Post => number_text(alloc, version.post()),
        VersionPart::Dev => number_text(alloc, version.dev()),
        VersionPart::Local => local_text(alloc, version),
        VersionPart::Public => public_text(alloc, version),
        VersionPart::Base => base_text(alloc, version),
    }
}
