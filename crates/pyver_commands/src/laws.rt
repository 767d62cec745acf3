//! What holds of the outcomes of `bump`, `range` and `marker`, as the contract of a function that does nothing.
ghost use Rattle.pyver_commands.specs.CommandLaws.{BumpsAreGreater, BumpsChangeOnly, ReleasesAreBumped, NoVersionHasItsStatus, NoVersionIsCommon, VersionIsCommon};
ghost use Rattle.pyver_commands.specs.MarkerExtents.{HoldsOrNot};

/// A version that `bump` makes is greater, and differs only in the stated parts; a number of the release can be
/// raised unless it is the greatest. The epoch stays, and so does each part that no word changes; the local part goes.
pub fn bumps()
    ensures greater { BumpsAreGreater }
    ensures parts { BumpsChangeOnly }
    ensures release { ReleasesAreBumped }
{}

/// `range` says that there is no version exactly if none is contained in all lists.
pub fn common_ranges()
    ensures none { NoVersionIsCommon }
    ensures some { VersionIsCommon }
    ensures status { NoVersionHasItsStatus }
{}

/// `marker` never prints an environment for words for which it also prints `nowhere`.
#[tactic(auto, using(crate::proofs::CommandLaws::holds_or_not))]
pub fn marker_extents()
    ensures { HoldsOrNot }
{}
