//! The loop of `filter` and `newest` over a source.
ghost use Rattle.std.specs.Prelude.{◌≡◌, ◌≤◌, ◌*◌, [], IfErr, IfOk, Some};
ghost use Rattle.pyver_commands.specs.FilterSteps.{SourceFinishes, SourceFails};
ghost use Rattle.pyver_commands.specs.Sources.SourceViews.{origin_of};
ghost use Rattle.pyver_commands.specs.Sources.RunFailures.{IsRunFailureOf};

use crate::filter::{FilterRule, FilterState};
use crate::sources::origin::Origin;
use crate::sources::stream::{MOST_READS, RunFailure, fail_reading, write_both};
use cli_io::READ_SIZE;
use std::alloc::Global;
use std::io::{Read, Write};

// Writes what the rule asks for of each line of the source, before more is read.
pub(crate) fn filter_input<R: Read, W: Write, E: Write>(
    alloc: Global,
    rule: &FilterRule,
    origin: Origin<'_>,
    state: &mut FilterState,
    input: &mut R,
    out: &mut W,
    err: &mut E,
) -> Result<(), RunFailure>
    requires nothing { (state.old.output.items ≡ []) × (state.old.errors.items ≡ []) }
    requires limits { state.old.fault_count ≤ 8192 * state.old.read_count }
    ensures finished { IfOk result (λ _. SourceFinishes R.remaining W.contents E.contents rule.now (origin_of origin.entry)
        state.old state.new input.old input.new out.old out.new err.old err.new) }
    ensures limits { IfOk result (λ _. state.new.fault_count ≤ 8192 * state.new.read_count) }
    ensures stopped { IfErr result (λ _. SourceFails R.remaining W.contents E.contents rule.now (origin_of origin.entry)
        state.old input.old input.new out.old out.new err.old err.new) }
    ensures failure { IfErr result (IsRunFailureOf (Some (origin_of origin.entry).name)) }
{
    let mut buffer = [0u8; READ_SIZE];
    let mut line = Vec::new(alloc);
    state.line_count = 0;
    while state.read_count < MOST_READS {
        state.read_count += 1;
        let Ok(count) = input.read(&mut buffer) else {
            return Err(fail_reading(alloc, origin.name));
        };
        if count == 0 {
            state.push_line(alloc, rule, origin, line.as_slice())?;
            write_both(out, err, state.output.as_slice(), state.errors.as_slice())?;
            state.clear();
            return Ok(());
        }
        state.push_bytes(alloc, rule, origin, &mut line, &buffer[..count])?;
        write_both(out, err, state.output.as_slice(), state.errors.as_slice())?;
        state.clear();
    }
    Err(fail_reading(alloc, origin.name))
}
