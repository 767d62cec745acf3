//! Lines that are grouped by a key.
ghost use Rattle.std.specs.Prelude.{◌≡◌, ◌∷◌, ◌++◌, [], IfOk, List, bytes_eq, map, ℕ, if◌then◌else◌};
ghost use Rattle.std.specs.HashMap.{get_by};
ghost use Rattle.std.specs.Option.{option_map_or};
ghost use Rattle.pyver_findings.specs.Views.{demand_of, group_at};

use crate::demand::Demand;
use std::alloc::{AllocError, Global};
use std::collections::HashMap;

// The lines, or none.
fn lines_or_none<'a>(alloc: Global, group: Option<Vec<&'a Demand>>) -> Vec<&'a Demand>
    ensures { result.items ≡ option_map_or (λ g. g.items) group.entry [] }
{
    match group {
        Some(lines) => lines,
        None => Vec::new(alloc),
    }
}

// Adds the line to those of the key.
pub(crate) fn push_to_group<'a>(
    alloc: Global,
    groups: &mut HashMap<&'a [u8], Vec<&'a Demand>>,
    key: &'a [u8],
    line: &'a Demand,
) -> Result<(), AllocError>
    ensures { IfOk result (λ _. (q : List ℕ) → group_at groups.new q ≡ group_at groups.old q
        ++ (if bytes_eq q key.now then demand_of line.now ∷ [] else [])) }
{
    let mut group = lines_or_none(alloc, groups.remove(key));
    group.push(line)?;
    groups.insert(key, group)?;
    Ok(())
}
