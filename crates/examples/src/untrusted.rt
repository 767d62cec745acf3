//! A reader of untrusted strings: each is accepted or rejected with an error, and none ends the process.
ghost use Rattle.std.specs.Prelude.{IfOk};
ghost use Rattle.std.specs.List.{AllZip};
ghost use Rattle.examples.specs.Versions.{IsVerdict};

use pep440_rs::Version;
use std::alloc::{AllocError, Global};

/// What a string is: a version, or invalid.
#[derive(Debug, Drop)]
pub enum Verdict {
    /// The version that the string denotes.
    Accepted(Version),
    /// Why it denotes none.
    Rejected(String),
}

/// The version that the string denotes, or why it denotes none.
///
/// Allocates; the error is out of memory.
pub fn read(alloc: Global, text: &str) -> Result<Verdict, AllocError>
    ensures { IfOk result (IsVerdict text.now) }
{
    match Version::from_str(alloc, text) {
        Ok(version) => Ok(Verdict::Accepted(version)),
        Err(error) => {
            if error.is_out_of_memory() {
                return Err(AllocError);
            }
            let reason = error.to_string(alloc)?;
            Ok(Verdict::Rejected(reason))
        }
    }
}

/// A verdict for each string, in order.
///
/// Allocates; the error is out of memory.
pub fn read_all(alloc: Global, texts: &[&str]) -> Result<Vec<Verdict>, AllocError>
    ensures { IfOk result (λ verdicts. AllZip (λ text. IsVerdict text.now) texts.now verdicts.items) }
{
    let mut verdicts = Vec::new(alloc);
    for text in texts {
        verdicts.push(read(alloc, text)?)?;
    }
    Ok(verdicts)
}
