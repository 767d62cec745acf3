//! The files that a run reads by their names, so that a test can hold them in memory.
ghost use Rattle.std.specs.Prelude.{◌≡◌, ◌⊎◌, Bool, List, None, Option, ℕ, IfErr, IfOk, map, option_map, string_bytes};
ghost use Rattle.pyver_commands.specs.AnswerViews.{outcome_of};
ghost use Rattle.pyver_commands.specs.Sources.{FindsOutput, IsKnownOutput, IsKnownPath, KnownFile, MayOpen, MayFailToOpen, Unknown, output_outcome, source_names};

use crate::answer::Answer;
use crate::sources::open_failure::{OpenFailure, push_file_fault};
use crate::sources::stream::RunFailure;
use std::alloc::{AllocError, Global};
use std::io::Read;

/// Files that are opened by their names.
pub trait Files {
    type File: Read + Drop;

    /// What is known of the file with a name.
    ghost known: { Self → List ℕ → KnownFile } = { λ _ _. Unknown };
    /// What is known of the path of a file with a name.
    ghost path: { Self → List ℕ → Option (List ℕ) } = { λ _ _. None };

    /// What is known of whether the source with a name is also the output.
    ghost output: { Self → List ℕ → Option Bool } = { λ _ _. None };

    /// Whether the source with the name, `-` for standard input, is a regular file that is also the output: of what is written
    /// to it more would be read.
    fn is_output(&self, name: &str) -> bool
        ensures { IsKnownOutput (output self.now name.now) result };

    /// The file with the name, from its first byte on. Fails with `OutOfMemory` if an allocation failed, and otherwise with why
    /// the file is not opened.
    fn open(&mut self, alloc: Global, name: &str) -> Result<Self::File, OpenFailure>
        ensures opened { IfOk result (λ file. MayOpen (known self.old name.now) (Self.File.remaining file)) }
        ensures refused { IfErr result (λ failure. (failure ≡ OpenFailure.OutOfMemory) ⊎ MayFailToOpen (known self.old name.now) failure) }
        ensures kept { known self.new ≡ known self.old }
        ensures kept_paths { path self.new ≡ path self.old };

    /// The path that all names of the file have in common, or the name if there is none.
    fn canonical_path(&mut self, alloc: Global, name: &str) -> Result<String, AllocError>
        ensures path { IfOk result (λ found. IsKnownPath (path self.old name.now) (string_bytes found)) }
        ensures kept { known self.new ≡ known self.old }
        ensures kept_paths { path self.new ≡ path self.old };
}

/// The first of the sources that the names denote that is also the output.
pub fn find_output<'a, F: Files>(names: &'a [String], files: &F) -> Option<&'a str>
    ensures { FindsOutput (F.output files.now) (source_names (map string_bytes names.now)) (option_map (λ n. n.now) result) }
{
    if names.is_empty() {
        return if files.is_output("-") {
            Some("-")
        } else {
            None
        };
    }
    find_among(names, files)
}

// The first of these names whose source is also the output.
fn find_among<'a, F: Files>(names: &'a [String], files: &F) -> Option<&'a str>
    ensures { FindsOutput (F.output files.now) (map string_bytes names.now) (option_map (λ n. n.now) result) }
{
    for name in names {
        if files.is_output(name.as_str()) {
            return Some(name.as_str());
        }
    }
    None
}

/// The message that the source with this name is also the output; the status is 2.
pub fn report_output(alloc: Global, name: &str) -> Result<Answer, RunFailure>
    ensures answer { IfOk result (λ a. outcome_of a ≡ output_outcome name.now) }
    ensures memory { IfErr result (λ why. why ≡ RunFailure.OutOfMemory) }
{
    let mut answer = Answer::silent(alloc, 2);
    push_file_fault(
        &mut answer.errors,
        name.as_bytes(),
        "input file is also the output",
    )?;
    Ok(answer)
}
