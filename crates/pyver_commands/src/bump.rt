//! The command `bump`.
ghost use Rattle.std.specs.Prelude.{◌≡◌, ◌++◌, IfOk, false, map};
ghost use Rattle.pep440_version.specs.Key.{kind_rank};
ghost use Rattle.pep440_version.specs.Record.{epoch_and_release};
ghost use Rattle.pyver_commands.specs.AnswerViews.{outcome_of};
ghost use Rattle.pyver_commands.specs.Bumps.{Bumps, bump, bump_dev, bump_error_text, bump_from, bump_part, bump_part_of, bump_post, bump_pre, bump_release, bump_stable, result_outcome, is_dev_of_pre, is_later_kind, knows_release, last_number, new_number, pre_number, release_with};
ghost use Rattle.pyver_commands.specs.Outcomes.{followed_by};

use crate::answer::Answer;
use crate::part::{base_version, release_number};
use crate::reading::{Reading, parse_version};
use crate::version_json::push_text;
use pep440_rs::{Prerelease, PrereleaseKind, Version};
use std::alloc::{AllocError, Global};

/// A part of a version that is raised.
#[derive(Clone, Copy)]
pub enum BumpPart {
    /// The number of the release at this index.
    Release(u8),
    /// All that makes it a pre-release or a developmental release, which goes.
    Stable,
    Pre(PrereleaseKind),
    Post,
    Dev,
}

// Why there is no version with these parts raised.
#[derive(Clone, Copy)]
pub(crate) enum BumpError {
    // The words do not name a release.
    NoRelease,
    // The result would not be greater.
    NotGreater,
    // No number is greater.
    Greatest,
    // The last part has no number that could be set.
    NoNumber,
}

/// The part that the word names.
pub fn parse_bump_part(word: &str) -> Option<BumpPart>
    ensures { result ≡ bump_part_of word.now }
{
    match word {
        "major" => Some(BumpPart::Release(0)),
        "minor" => Some(BumpPart::Release(1)),
        "patch" => Some(BumpPart::Release(2)),
        "stable" => Some(BumpPart::Stable),
        "alpha" => Some(BumpPart::Pre(PrereleaseKind::Alpha)),
        "beta" => Some(BumpPart::Pre(PrereleaseKind::Beta)),
        "rc" => Some(BumpPart::Pre(PrereleaseKind::Rc)),
        "post" => Some(BumpPart::Post),
        "dev" => Some(BumpPart::Dev),
        _ => None,
    }
}

// The number that is asked for; else 1 where there is none, the same where its release is still in development, or the one after it.
fn new_number(to: Option<u64>, is_dev: bool, old: Option<u64>) -> Result<u64, BumpError>
    ensures { result ≡ new_number to is_dev old }
{
    match (to, old) {
        (Some(number), _) => Ok(number),
        (None, None) => Ok(1),
        (None, Some(old)) if is_dev => Ok(old),
        (None, Some(old)) => old.checked_add(1).ok_or(BumpError::Greatest),
    }
}

fn push_zeros(numbers: &mut Vec<u64>, replaced: &[u64]) -> Result<(), AllocError>
    ensures { IfOk result (λ _. numbers.new.items ≡ numbers.old.items ++ map (λ _. 0) replaced.now) }
{
    for _number in replaced {
        numbers.push(0)?;
    }
    Ok(())
}

// Appends the release with this number at the index: missing numbers before it are 0, and those after it become 0.
fn push_release_with(
    numbers: &mut Vec<u64>,
    index: u8,
    number: u64,
    release: &[u64],
) -> Result<(), AllocError>
    ensures { IfOk result (λ _. numbers.new.items ≡ numbers.old.items ++ release_with index number release.now) }
{
    match release {
        [] => {
            if index == 0 {
                numbers.push(number)?;
                return Ok(());
            }
            numbers.push(0)?;
            push_release_with(numbers, index - 1, number, release)
        }
        [first, rest @ ..] => {
            if index == 0 {
                numbers.push(number)?;
                return push_zeros(numbers, rest);
            }
            numbers.push(*first)?;
            push_release_with(numbers, index - 1, number, rest)
        }
    }
}

// Epoch and release, with this number in the release.
fn with_release_number(
    alloc: Global,
    version: &Version,
    index: u8,
    number: u64,
) -> Result<Version, AllocError>
    ensures { IfOk result (λ v. v ≡ epoch_and_release version.now.epoch (release_with index number version.now.release)) }
{
    let mut numbers = Vec::new(alloc);
    push_release_with(&mut numbers, index, number, version.release())?;
    let release = base_version(alloc, version)?;
    release.with_release(alloc, numbers.as_slice())
}

fn bump_release(
    alloc: Global,
    to: Option<u64>,
    index: u8,
    version: &Version,
) -> Result<Result<Version, BumpError>, AllocError>
    ensures { IfOk result (λ x. x ≡ bump_release to index version.now) }
{
    let old = release_number(version, index as usize);
    match new_number(to, false, Some(old)) {
        Ok(number) => Ok(Ok(with_release_number(alloc, version, index, number)?)),
        Err(error) => Ok(Err(error)),
    }
}

// Without all after the release where it is a pre-release, and else without its developmental part.
fn stable_version(alloc: Global, version: &Version) -> Result<Version, AllocError>
    ensures { IfOk result (λ v. Ok v ≡ bump_stable None version.now) }
{
    if version.is_pre() {
        return base_version(alloc, version);
    }
    version.clone()?.with_dev(alloc, None)?.without_local(alloc)
}

// Whether it is known which release comes next.
fn knows_release(named: bool, version: &Version) -> bool
    ensures { result ≡ knows_release named version.now }
{
    named || version.any_prerelease()
}

fn kind_rank(kind: PrereleaseKind) -> u64
    ensures { result ≡ kind_rank kind }
{
    match kind {
        PrereleaseKind::Alpha => 0,
        PrereleaseKind::Beta => 1,
        PrereleaseKind::Rc => 2,
    }
}

fn is_later_kind(kind: PrereleaseKind, pre: Option<Prerelease>) -> bool
    ensures { result ≡ is_later_kind kind pre }
{
    match pre {
        Some(pre) => kind_rank(kind) < kind_rank(pre.kind),
        None => false,
    }
}

// The number of the pre-release where it is of this kind.
fn pre_number(kind: PrereleaseKind, pre: Option<Prerelease>) -> Option<u64>
    ensures { result ≡ pre_number kind pre }
{
    match pre {
        Some(pre) if kind_rank(pre.kind) == kind_rank(kind) => Some(pre.number),
        _ => None,
    }
}

// Whether a pre-release is still in development, and not its post-release.
fn is_dev_of_pre(version: &Version) -> bool
    ensures { result ≡ is_dev_of_pre version.now }
{
    version.is_dev() && !version.is_post()
}

fn bump_pre(
    alloc: Global,
    to: Option<u64>,
    named: bool,
    kind: PrereleaseKind,
    version: &Version,
) -> Result<Result<Version, BumpError>, AllocError>
    ensures { IfOk result (λ x. x ≡ bump_pre to named kind version.now) }
{
    if is_later_kind(kind, version.pre()) {
        return Ok(Err(BumpError::NotGreater));
    }
    if !knows_release(named, version) {
        return Ok(Err(BumpError::NoRelease));
    }
    match new_number(to, is_dev_of_pre(version), pre_number(kind, version.pre())) {
        Ok(number) => {
            let release = base_version(alloc, version)?;
            Ok(Ok(release.with_pre(alloc, Some(Prerelease { kind, number }))?))
        }
        Err(error) => Ok(Err(error)),
    }
}

fn bump_post(
    alloc: Global,
    to: Option<u64>,
    version: &Version,
) -> Result<Result<Version, BumpError>, AllocError>
    ensures { IfOk result (λ x. x ≡ bump_post to version.now) }
{
    match new_number(to, version.is_dev(), version.post()) {
        Ok(number) => {
            let post = version.clone()?.with_post(alloc, Some(number))?;
            Ok(Ok(post.with_dev(alloc, None)?.without_local(alloc)?))
        }
        Err(error) => Ok(Err(error)),
    }
}

fn bump_dev(
    alloc: Global,
    to: Option<u64>,
    named: bool,
    version: &Version,
) -> Result<Result<Version, BumpError>, AllocError>
    ensures { IfOk result (λ x. x ≡ bump_dev to named version.now) }
{
    if !knows_release(named, version) {
        return Ok(Err(BumpError::NoRelease));
    }
    match new_number(to, false, version.dev()) {
        Ok(number) => {
            let dev = version.clone()?.with_dev(alloc, Some(number))?;
            Ok(Ok(dev.without_local(alloc)?))
        }
        Err(error) => Ok(Err(error)),
    }
}

fn bump_part(
    alloc: Global,
    to: Option<u64>,
    named: bool,
    part: BumpPart,
    version: &Version,
) -> Result<Result<Version, BumpError>, AllocError>
    ensures { IfOk result (λ x. x ≡ bump_part to named part version.now) }
{
    match part {
        BumpPart::Release(index) => bump_release(alloc, to, index, version),
        BumpPart::Stable => match to {
            Some(_) => Ok(Err(BumpError::NoNumber)),
            None => Ok(Ok(stable_version(alloc, version)?)),
        },
        BumpPart::Pre(kind) => bump_pre(alloc, to, named, kind, version),
        BumpPart::Post => bump_post(alloc, to, version),
        BumpPart::Dev => bump_dev(alloc, to, named, version),
    }
}

// The number is that of the last part.
fn last_number(to: Option<u64>, rest: &[BumpPart]) -> Option<u64>
    ensures { result ≡ last_number to rest.now }
{
    if rest.is_empty() { to } else { None }
}

// The version with one part raised after another.
fn bump_in_turn(
    alloc: Global,
    to: Option<u64>,
    parts: &[BumpPart],
    version: &Version,
) -> Result<Result<Version, BumpError>, AllocError>
    ensures { IfOk result (λ x. x ≡ bump_from false to parts.now version.now) }
{
    let mut bumped = version.clone()?;
    let mut named = false;
    let mut left = parts;
    while let [part, rest @ ..] = left {
        match bump_part(alloc, last_number(to, rest), named, *part, &bumped)? {
            Ok(next) => bumped = next,
            Err(error) => return Ok(Err(error)),
        }
        named = true;
        left = rest;
    }
    Ok(Ok(bumped))
}

// The version with all parts raised, which has to be greater.
pub(crate) fn bump(
    alloc: Global,
    to: Option<u64>,
    parts: &[BumpPart],
    version: &Version,
) -> Result<Result<Version, BumpError>, AllocError>
    ensures { IfOk result (λ x. x ≡ bump to parts.now version.now) }
{
    match bump_in_turn(alloc, to, parts, version)? {
        Ok(bumped) if bumped.cmp(version).is_gt() => Ok(Ok(bumped)),
        Ok(_) => Ok(Err(BumpError::NotGreater)),
        Err(error) => Ok(Err(error)),
    }
}

fn error_text(error: BumpError) -> &'static str
    ensures { result.now ≡ bump_error_text error }
{
    match error {
        BumpError::NoRelease =>
            "name the next release first, by major, minor or patch, as in: pyver bump minor alpha 1.0",
        BumpError::NotGreater => "the result would not be greater",
        BumpError::Greatest => "a number is the greatest that there is",
        BumpError::NoNumber => "stable has no number that --to could set",
    }
}

pub(crate) fn push_result(
    alloc: Global,
    answer: &mut Answer,
    word: &[u8],
    bumped: &Result<Version, BumpError>,
) -> Result<(), AllocError>
    ensures { IfOk result (λ _. outcome_of answer.new ≡ followed_by (outcome_of answer.old) (result_outcome word.now bumped.now)) }
{
    match bumped {
        Ok(version) => {
            push_text(&mut answer.output, version.to_string(alloc)?.as_str())?;
            push_text(&mut answer.output, "\n")
        }
        Err(error) => answer.push_bytes_fault(word, error_text(*error)),
    }
}

/// `bump PART.. V`: the status is 0, or 2 where there is no version with these parts raised.
pub fn bump_version(
    alloc: Global,
    to: Option<u64>,
    parts: &[BumpPart],
    word: &str,
) -> Result<Answer, AllocError>
    ensures { IfOk result (λ a. Bumps to parts.now word.now (outcome_of a)) }
{
    let mut answer = Answer::silent(alloc, 0);
    match parse_version(alloc, word)? {
        Reading::Version(version) => {
            let bumped = bump(alloc, to, parts, &version)?;
            push_result(alloc, &mut answer, word.as_bytes(), &bumped)?;
        }
        Reading::Invalid(reason) => answer.push_fault(word, reason.as_str())?,
    }
    Ok(answer)
}
