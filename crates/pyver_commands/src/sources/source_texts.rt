//! The texts of sources that are read to their ends, one after another.
ghost use Rattle.std.specs.Prelude.{◌≡◌, ◌+◌, ◌<◌, ◌≤◌, ◌*◌, [], IfErr, IfOk, List, MatchResult, ℕ, length, map, string_bytes};
ghost use Rattle.std.specs.Io.KnownBytes.{Consumes, IsAtEnd};
ghost use Rattle.std.specs.Option.{option_map};
ghost use Rattle.pyver_commands.specs.Sources.{IsUnopened, ReadsInput, ReadsWhole, source_names};
ghost use Rattle.pyver_commands.specs.Sources.SourceViews.{origin_of, unopened_of};
ghost use Rattle.pyver_commands.specs.Sources.RunFailures.{IsReadingFailure};
ghost use Rattle.pyver_commands.specs.Sources.SourceTexts.{GainsSource, HasBoundedSize, FailsInSource, FailsInSources, FailsInText, sources_of};

use crate::sources::files::Files;
use crate::sources::open_failure::{OpenFailure, UnopenedSource};
use crate::sources::origin::{Origin, is_input};
use crate::sources::stream::{MOST_READS, RunFailure, fail_reading};
use cli_io::{ReadFailure, read_whole};
use std::alloc::Global;
use std::io::Read;

// A source that was read to its end.
#[derive(Drop)]
pub(crate) struct SourceText<'a> {
    pub(crate) origin: Origin<'a>,
    pub(crate) text: Vec<u8>,
}

// The sources that were read to their ends, and how many reads were made.
#[derive(Drop)]
pub(crate) struct SourceTexts<'a> {
    pub(crate) texts: Vec<SourceText<'a>>,
    pub(crate) read_count: u64,
}

// What is left of the source with this name.
fn read_text<R: Read>(
    alloc: Global,
    name: &str,
    read_count: &mut u64,
    input: &mut R,
) -> Result<Vec<u8>, RunFailure>
    ensures whole { IfOk result (λ text. Consumes (R.remaining input.old) (R.remaining input.new) text.items
        × IsAtEnd (R.remaining input.new)) }
    ensures limits { IfOk result (λ text. (length text.items + 8192 * read_count.old < 8192 * read_count.new)
        × (read_count.new ≤ 562949953421312)) }
    ensures part { IfErr result (λ _. (read : List ℕ) × Consumes (R.remaining input.old) (R.remaining input.new) read) }
    ensures failure { IfErr result (IsReadingFailure name.now) }
{
    match read_whole(alloc, MOST_READS, read_count, input) {
        Ok(text) => Ok(text),
        Err(ReadFailure::Io) => Err(fail_reading(alloc, name)),
        Err(ReadFailure::OutOfMemory) => Err(RunFailure::OutOfMemory),
    }
}

/// The text of the source with this name, or why its file is not opened.
pub fn read_by_name<F: Files, R: Read>(
    alloc: Global,
    name: &str,
    read_count: &mut u64,
    files: &mut F,
    input: &mut R,
) -> Result<Result<Vec<u8>, OpenFailure>, RunFailure>
    ensures read { IfOk result (λ read. MatchResult read
        (λ text. ReadsWhole (F.known files.old) R.remaining name.now input.old input.new text.items)
        (IsUnopened (F.known files.old) R.remaining name.now input.old input.new)) }
    ensures limits { IfOk result (λ read. MatchResult read
        (λ text. (length text.items + 8192 * read_count.old < 8192 * read_count.new) × (read_count.new ≤ 562949953421312))
        (λ _. read_count.new ≡ read_count.old)) }
    ensures stopped { IfErr result (FailsInText (F.known files.old) R.remaining name.now input.old input.new) }
    ensures kept { F.known files.new ≡ F.known files.old }
    ensures kept_paths { F.path files.new ≡ F.path files.old }
{
    if is_input(name) {
        return Ok(Ok(read_text(alloc, name, read_count, input)?));
    }
    match files.open(alloc, name) {
        Ok(mut file) => Ok(Ok(read_text(alloc, name, read_count, &mut file)?)),
        Err(OpenFailure::OutOfMemory) => Err(RunFailure::OutOfMemory),
        Err(failure) => Ok(Err(failure)),
    }
}

// Reads the source with this name, or returns why it is not opened.
fn open_and_read<'a, F: Files, R: Read>(
    alloc: Global,
    origin: Origin<'a>,
    state: &mut SourceTexts<'a>,
    files: &mut F,
    input: &mut R,
) -> Result<Option<OpenFailure>, RunFailure>
    requires { HasBoundedSize state.old }
    ensures read { IfOk result (GainsSource (F.known files.old) R.remaining (origin_of origin.entry) (sources_of state.old)
        (sources_of state.new) input.old input.new) }
    ensures limits { IfOk result (λ _. HasBoundedSize state.new) }
    ensures stopped { IfErr result (FailsInSource (F.known files.old) R.remaining (origin_of origin.entry) input.old input.new) }
    ensures kept { F.known files.new ≡ F.known files.old }
{
    match read_by_name(alloc, origin.name, &mut state.read_count, files, input)? {
        Ok(text) => {
            state.texts.push(SourceText { origin, text })?;
            Ok(None)
        }
        Err(failure) => Ok(Some(failure)),
    }
}

// Reads the sources with these names, up to one that is not opened.
fn read_all<'a, F: Files, R: Read>(
    alloc: Global,
    names: &'a [String],
    state: &mut SourceTexts<'a>,
    files: &mut F,
    input: &mut R,
) -> Result<Option<UnopenedSource<'a>>, RunFailure>
    requires new { (state.old.texts.items ≡ []) × (state.old.read_count ≡ 0) }
    ensures read { IfOk result (λ unopened. ReadsInput (F.known files.old) R.remaining (map string_bytes names.now) input.old input.new
        (record { sources = sources_of state.new; unopened = option_map unopened_of unopened })) }
    ensures limits { IfOk result (λ _. HasBoundedSize state.new) }
    ensures stopped { IfErr result (FailsInSources (F.known files.old) R.remaining (map string_bytes names.now) input.old input.new) }
    ensures kept { F.known files.new ≡ F.known files.old }
{
    let mut is_first = true;
    for name in names {
        let name = name.as_str();
        let origin = Origin { is_first, name };
        match open_and_read(alloc, origin, state, files, input)? {
            None => is_first = false,
            Some(failure) => return Ok(Some(UnopenedSource { name, failure })),
        }
    }
    Ok(None)
}

// Reads the sources that the names denote, up to one that is not opened.
pub(crate) fn read_sources<'a, F: Files, R: Read>(
    alloc: Global,
    names: &'a [String],
    state: &mut SourceTexts<'a>,
    files: &mut F,
    input: &mut R,
) -> Result<Option<UnopenedSource<'a>>, RunFailure>
    requires new { (state.old.texts.items ≡ []) × (state.old.read_count ≡ 0) }
    ensures read { IfOk result (λ unopened. ReadsInput (F.known files.old) R.remaining (source_names (map string_bytes names.now))
        input.old input.new (record { sources = sources_of state.new; unopened = option_map unopened_of unopened })) }
    ensures limits { IfOk result (λ _. HasBoundedSize state.new) }
    ensures stopped { IfErr result (FailsInSources (F.known files.old) R.remaining (source_names (map string_bytes names.now))
        input.old input.new) }
    ensures kept { F.known files.new ≡ F.known files.old }
{
    if !names.is_empty() {
        return read_all(alloc, names, state, files, input);
    }
    let origin = Origin {
        is_first: true,
        name: "-",
    };
    match open_and_read(alloc, origin, state, files, input)? {
        None => Ok(None),
        Some(failure) => Ok(Some(UnopenedSource { name: "-", failure })),
    }
}
