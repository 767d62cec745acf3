//! The newest of the lines that were read so far.
ghost use Rattle.std.specs.Prelude.{◌≡◌, ◌∷◌, ◌++◌, [], IfOk, List, true};
ghost use Rattle.std.specs.Option.{option_map, option_map_or};
ghost use Rattle.std.specs.Ordering.{is_lt};
ghost use Rattle.pep440_pick.specs.Newest.{preference};
ghost use Rattle.pyver_commands.specs.NewestOutcomes.{taken, without_prerelease};
ghost use Rattle.pyver_commands.specs.AnswerViews.{KeepsNewest, kept_line};
ghost use Rattle.pyver_commands.specs.Sources.VersionLines.{VersionLine};

use crate::prerelease_rule::Prereleases;
use pep440_pick::is_preferred;
use pep440_rs::{Version, VersionSpecifiers};
use std::alloc::{AllocError, Global};

// A line as it was written, and its version.
#[derive(Drop)]
pub(crate) struct KeptLine {
    pub(crate) text: Vec<u8>,
    pub(crate) version: Version,
}

fn is_newer(takes: bool, newest: &Option<KeptLine>, version: &Version) -> bool
    ensures { result ≡ option_map_or (λ x. is_lt (preference takes x.version version.now)) newest.now true }
{
    match newest {
        Some(newest) => is_preferred(takes, &newest.version, version),
        None => true,
    }
}

// Keeps one more line in place of the newest so far, where the list matches its version and it is newer.
pub(crate) fn keep_newer(
    alloc: Global,
    takes: bool,
    list: &VersionSpecifiers,
    newest: &mut Option<KeptLine>,
    text: &[u8],
    version: &Version,
) -> Result<(), AllocError>
    ensures { IfOk result (λ _. (lines : List VersionLine) → KeepsNewest takes list.now lines newest.old
        → KeepsNewest takes list.now (lines ++ record { text = text.now; version = version.now } ∷ []) newest.new) }
{
    if is_newer(takes, newest, version) && list.matches_literally(alloc, version)? {
        let version = version.clone()?;
        let mut kept = Vec::new(alloc);
        kept.extend_from_slice(text)?;
        *newest = Some(KeptLine {
            text: kept,
            version,
        });
    }
    Ok(())
}

fn without_prerelease(newest: Option<KeptLine>) -> Option<KeptLine>
    ensures { option_map kept_line result ≡ without_prerelease (option_map kept_line newest) }
{
    match newest {
        Some(newest) => {
            if newest.version.any_prerelease() {
                None
            } else {
                Some(newest)
            }
        }
        None => None,
    }
}

// The line, unless it is a pre-release and none is taken.
pub(crate) fn take_line(prereleases: Prereleases, newest: Option<KeptLine>) -> Option<KeptLine>
    ensures { option_map kept_line result ≡ taken prereleases (option_map kept_line newest) }
{
    match prereleases {
        Prereleases::Listed => newest,
        Prereleases::Always => newest,
        Prereleases::Never => without_prerelease(newest),
    }
}
