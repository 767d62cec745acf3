//! Environment markers in their normal form, as in PEP 508.
ghost use Rattle.std.specs.Prelude.{◌≡◌, [], IfErr, IfOk, map};
ghost use Rattle.pyver_requirements.specs.MarkerReading.{earlier_terms, last_terms, marker, terms_after_step, terms_after_steps};
ghost use Rattle.pyver_requirements.specs.MarkerViews.{step_of, IsMarkerFault, terms_of};

use crate::marker_fault::MarkerError;
use crate::marker_steps::{Step, parse_steps};
use crate::marker_terms::{Terms, normalize_comparison};
use std::alloc::{AllocError, Global};
use std::collections::VecDeque;

// Removes the last terms.
fn pop_terms(alloc: Global, terms: &mut VecDeque<Terms>) -> Terms
    ensures terms { terms_of result ≡ last_terms (map terms_of terms.old.items) }
    ensures rest { map terms_of terms.new.items ≡ earlier_terms (map terms_of terms.old.items) }
{
    match terms.pop_front() {
        Some(last) => last,
        None => Terms::none(alloc),
    }
}

// Does the step.
fn take_step(alloc: Global, step: Step<'_>, terms: &mut VecDeque<Terms>) -> Result<(), AllocError>
    ensures { IfOk result (λ _. map terms_of terms.new.items ≡ terms_after_step (step_of step.entry) (map terms_of terms.old.items)) }
{
    let joined = match step {
        Step::Compare(left, operator, right) => {
            Terms::one(alloc, normalize_comparison(alloc, left, operator, right)?)?
        }
        Step::JoinBoth => {
            let right = pop_terms(alloc, terms);
            pop_terms(alloc, terms).and(alloc, right)?
        }
        Step::JoinEither => {
            let right = pop_terms(alloc, terms);
            pop_terms(alloc, terms).or(alloc, right)?
        }
    };
    terms.push_front(joined)?;
    Ok(())
}

// The last terms after all steps.
fn take_steps(alloc: Global, steps: &[Step<'_>]) -> Result<Terms, AllocError>
    ensures { IfOk result (λ t. terms_of t ≡ last_terms (terms_after_steps (map step_of steps.now) [])) }
{
    let mut terms = VecDeque::new(alloc);
    let mut rest = steps;
    while let [step, later @ ..] = rest {
        take_step(alloc, *step, &mut terms)?;
        rest = later;
    }
    Ok(pop_terms(alloc, &mut terms))
}

/// The environment marker in its normal form: two strings are the same marker if these bytes are the same. Quotes and blanks, older names,
/// parentheses that do not matter, the order of what `and` or `or` joins, how often it stands there, and the sides of `<`, `<=`, `==`,
/// `!=`, `>=` and `>` do not count. Fails with the first fault from the left and its position.
///
/// Allocates.
#[tactic(auto, using(crate::proofs::MarkerReadings::normal_steps, crate::proofs::MarkerReadings::stray_steps))]
pub fn parse_marker(alloc: Global, text: &[u8]) -> Result<Vec<u8>, MarkerError>
    ensures found { IfOk result (λ m. marker text.now ≡ Ok m.items) }
    ensures refused { IfErr result (IsMarkerFault (marker text.now)) }
{
    let steps = parse_steps(alloc, text)?;
    Ok(take_steps(alloc, steps.as_slice())?.write(alloc)?)
}
