//! Words and lines read as versions.
ghost use Rattle.std.specs.Prelude.{IfOk};
ghost use Rattle.pyver_commands.specs.AnswerViews.{reading_of};
ghost use Rattle.pyver_commands.specs.Readings.{Reads};

use pep440_rs::Version;
use std::alloc::{AllocError, Global};

// What a string is read as.
#[derive(Drop)]
pub(crate) enum Reading {
    Version(Version),
    // No version, for this reason.
    Invalid(String),
}

// The version that the string denotes, or why it denotes none.
pub(crate) fn parse_version(alloc: Global, text: &str) -> Result<Reading, AllocError>
    ensures { IfOk result (λ x. Reads text.now (reading_of x)) }
{
    match Version::from_str(alloc, text) {
        Ok(version) => Ok(Reading::Version(version)),
        Err(error) => {
            if error.is_out_of_memory() {
                return Err(AllocError);
            }
            Ok(Reading::Invalid(error.to_string(alloc)?))
        }
    }
}
