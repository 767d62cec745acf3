//! Operands of commands: words parsed as versions and lists.
ghost use Rattle.pep440_rs.specs.Lists.ListGrammar.{DerivesList};
ghost use Rattle.pep440_tool.specs.Answers.{RejectsListWord, RejectsWord};
ghost use Rattle.pep440_tool.specs.CommandErrors.{HoldsOrPrints};
ghost use Rattle.pep440_version.specs.Grammar.{Derives};

use crate::error::CommandError;
use pep440_rs::{Version, VersionSpecifiers};
use std::alloc::Global;

// The version that the word denotes.
pub(crate) fn parse_version(alloc: Global, word: &str) -> Result<Version, CommandError>
    ensures { HoldsOrPrints (Derives word.now) (RejectsWord word.now) result }
{
    match Version::from_str(alloc, word) {
        Ok(version) => Ok(version),
        Err(error) => Err(CommandError::Version(error)),
    }
}

// The list that the word denotes.
pub(crate) fn parse_list(alloc: Global, word: &str) -> Result<VersionSpecifiers, CommandError>
    ensures { HoldsOrPrints (DerivesList word.now) (RejectsListWord word.now) result }
{
    match VersionSpecifiers::from_str(alloc, word) {
        Ok(list) => Ok(list),
        Err(error) => Err(CommandError::List(error)),
    }
}
