//! The sources of `filter` and `newest`, one after another.
ghost use Rattle.std.specs.Prelude.{◌≡◌, ◌≤◌, ◌*◌, [], IfErr, IfOk, map, string_bytes};
ghost use Rattle.std.specs.Option.{option_map};
ghost use Rattle.pyver_commands.specs.FilterSteps.{AllFinish, AllFail, FilterFinishes, FilterFails, IsNewState, OneFinishes, OneFails};
ghost use Rattle.pyver_commands.specs.Sources.{source_names};
ghost use Rattle.pyver_commands.specs.Sources.SourceViews.{origin_of, unopened_of};

use crate::filter::{FilterRule, FilterState};
use crate::filter_input::filter_input;
use crate::sources::files::Files;
use crate::sources::open_failure::{OpenFailure, UnopenedSource};
use crate::sources::origin::{Origin, is_input};
use crate::sources::stream::{RunFailure, write_both};
use std::alloc::Global;
use std::io::{Read, Write};

// Filters a source, or returns why it is not opened.
fn open_and_filter<F: Files, R: Read, W: Write, E: Write>(
    alloc: Global,
    rule: &FilterRule,
    origin: Origin<'_>,
    state: &mut FilterState,
    files: &mut F,
    input: &mut R,
    out: &mut W,
    err: &mut E,
) -> Result<Option<OpenFailure>, RunFailure>
    requires nothing { (state.old.output.items ≡ []) × (state.old.errors.items ≡ []) }
    requires limits { state.old.fault_count ≤ 8192 * state.old.read_count }
    ensures finished { IfOk result (OneFinishes (F.known files.old) R.remaining W.contents E.contents rule.now (origin_of origin.entry)
        state.old state.new input.old input.new out.old out.new err.old err.new) }
    ensures limits { IfOk result (λ _. state.new.fault_count ≤ 8192 * state.new.read_count) }
    ensures stopped { IfErr result (OneFails (F.known files.old) R.remaining W.contents E.contents rule.now (origin_of origin.entry)
        state.old input.old input.new out.old out.new err.old err.new) }
    ensures kept { F.known files.new ≡ F.known files.old }
{
    if is_input(origin.name) {
        filter_input(alloc, rule, origin, state, input, out, err)?;
        return Ok(None);
    }
    match files.open(alloc, origin.name) {
        Ok(mut file) => {
            filter_input(alloc, rule, origin, state, &mut file, out, err)?;
            Ok(None)
        }
        Err(OpenFailure::OutOfMemory) => Err(RunFailure::OutOfMemory),
        Err(failure) => Ok(Some(failure)),
    }
}

// Filters the sources with these names, up to one that is not opened.
fn filter_all<'a, F: Files, R: Read, W: Write, E: Write>(
    alloc: Global,
    rule: &FilterRule,
    names: &'a [String],
    state: &mut FilterState,
    files: &mut F,
    input: &mut R,
    out: &mut W,
    err: &mut E,
) -> Result<Option<UnopenedSource<'a>>, RunFailure>
    requires new { IsNewState state.old }
    ensures finished { IfOk result (λ unopened. AllFinish (F.known files.old) R.remaining W.contents E.contents rule.now
        (map string_bytes names.now) (option_map unopened_of unopened) state.new input.old input.new out.old out.new err.old err.new) }
    ensures stopped { IfErr result (AllFail (F.known files.old) R.remaining W.contents E.contents rule.now (map string_bytes names.now)
        input.old input.new out.old out.new err.old err.new) }
    ensures kept { F.known files.new ≡ F.known files.old }
{
    let mut is_first = true;
    for name in names {
        let name = name.as_str();
        let origin = Origin { is_first, name };
        match open_and_filter(alloc, rule, origin, state, files, input, out, err)? {
            None => is_first = false,
            Some(failure) => return Ok(Some(UnopenedSource { name, failure })),
        }
    }
    Ok(None)
}

// Filters the sources that the names denote, up to one that is not opened.
pub(crate) fn filter_all_sources<'a, F: Files, R: Read, W: Write, E: Write>(
    alloc: Global,
    rule: &FilterRule,
    names: &'a [String],
    state: &mut FilterState,
    files: &mut F,
    input: &mut R,
    out: &mut W,
    err: &mut E,
) -> Result<Option<UnopenedSource<'a>>, RunFailure>
    requires new { IsNewState state.old }
    ensures finished { IfOk result (λ unopened. AllFinish (F.known files.old) R.remaining W.contents E.contents rule.now
        (source_names (map string_bytes names.now)) (option_map unopened_of unopened)
        state.new input.old input.new out.old out.new err.old err.new) }
    ensures stopped { IfErr result (AllFail (F.known files.old) R.remaining W.contents E.contents rule.now
        (source_names (map string_bytes names.now)) input.old input.new out.old out.new err.old err.new) }
    ensures kept { F.known files.new ≡ F.known files.old }
{
    if !names.is_empty() {
        return filter_all(alloc, rule, names, state, files, input, out, err);
    }
    let origin = Origin {
        is_first: true,
        name: "-",
    };
    filter_input(alloc, rule, origin, state, input, out, err)?;
    Ok(None)
}

/// Writes what the rule asks for of the sources, of each before the next is read, and returns the status.
pub fn filter_sources<F: Files, R: Read, W: Write, E: Write>(
    alloc: Global,
    rule: &FilterRule,
    names: &[String],
    files: &mut F,
    input: &mut R,
    out: &mut W,
    err: &mut E,
) -> Result<u8, RunFailure>
    ensures finished { IfOk result (FilterFinishes (F.known files.old) R.remaining W.contents E.contents rule.now
        (source_names (map string_bytes names.now)) input.old input.new out.old out.new err.old err.new) }
    ensures stopped { IfErr result (FilterFails (F.known files.old) R.remaining W.contents E.contents rule.now
        (source_names (map string_bytes names.now)) input.old input.new out.old out.new err.old err.new) }
    ensures kept { F.known files.new ≡ F.known files.old }
{
    let mut state = FilterState::new(alloc);
    let unopened = filter_all_sources(alloc, rule, names, &mut state, files, input, out, err)?;
    let status = state.finish(alloc, rule, unopened)?;
    write_both(out, err, state.output.as_slice(), state.errors.as_slice())?;
    Ok(status)
}
