//! Environment markers, their values, and the environments in which they hold.
ghost use Rattle.std.specs.Prelude.{◌≡◌, [], IfErr, IfOk, IfSome, map, true};
ghost use Rattle.pyver_markers.specs.Boxes.{HasValueInBoxes, boxes};
ghost use Rattle.pyver_markers.specs.Conditions.{IsNever};
ghost use Rattle.pyver_markers.specs.Extents.{assignment_of, boxes_of, domain_of, environment_of, extent_of, found_environment, IsExample, IsExtent};
ghost use Rattle.pyver_markers.specs.MarkerValues.{after_step, after_steps, both_hold, earlier_values, either_holds, last_value, value};
ghost use Rattle.pyver_markers.specs.MarkerComparisons.{compare};
ghost use Rattle.pyver_requirements.specs.MarkerGrammar.{Both, DenotesMarker, Marker};
ghost use Rattle.pyver_requirements.specs.MarkerSteps.{marker_steps, steps};
ghost use Rattle.pyver_requirements.specs.MarkerViews.{step_of, IsMarkerFault};

use crate::emptiness::are_empty;
use crate::environment::{Domain, Variable};
use crate::environment_box::EnvironmentBox;
use crate::found_environment::{
    FoundVariable, are_writable, borrow_variables, find_variables, is_environment,
};
use crate::marker_boxes::take_box_steps;
use crate::marker_comparison::compare;
use pyver_requirements::{MarkerError, Step, parse_steps};
use std::alloc::{AllocError, Global};
use std::collections::VecDeque;
use std::marker::Model;

/// The environments in which a marker holds, as far as they are known.
#[derive(Drop)]
pub enum MarkerExtent<'a> {
    /// In no environment.
    Nowhere,
    /// In some, and it is false in none.
    Always,
    /// Wherever its variables are so.
    Somewhere(Vec<FoundVariable<'a>>),
    /// This is not known.
    Undecided,
}

/// An environment marker (PEP 508, "Environment Markers").
#[derive(Drop)]
pub struct EnvironmentMarker<'a> {
    steps: Vec<Step<'a>>,
}

impl<'a> Model for EnvironmentMarker<'a> {
    ghost use Rattle.std.specs.Prelude.{List, map};
    ghost use Rattle.pyver_requirements.specs.MarkerSteps.{Step};
    ghost use Rattle.pyver_requirements.specs.MarkerViews.{step_of};

    ghost Value = { List Step };

    ghost view = { λ m. map step_of m.steps.items };
}

// `and`
fn both_hold(left: Option<bool>, right: Option<bool>) -> Option<bool>
    ensures { result ≡ both_hold left right }
{
    match (left, right) {
        (Some(left), Some(right)) => Some(left && right),
        _ => None,
    }
}

// `or`
fn either_holds(left: Option<bool>, right: Option<bool>) -> Option<bool>
    ensures { result ≡ either_holds left right }
{
    match (left, right) {
        (Some(left), Some(right)) => Some(left || right),
        _ => None,
    }
}

// Removes the last value.
fn pop_value(values: &mut VecDeque<Option<bool>>) -> Option<bool>
    ensures value { result ≡ last_value values.old.items }
    ensures rest { values.new.items ≡ earlier_values values.old.items }
{
    values.pop_front().unwrap_or(None)
}

// Does the step.
fn take_step(
    alloc: Global,
    environment: &[Variable<'_>],
    step: Step<'_>,
    values: &mut VecDeque<Option<bool>>,
) -> Result<(), AllocError>
    ensures { IfOk result (λ _. values.new.items ≡ after_step (compare (environment_of environment.now)) both_hold either_holds
        (step_of step.entry) values.old.items) }
{
    let value = match step {
        Step::Compare(left, operator, right) => {
            compare(alloc, environment, left, operator, right)?
        }
        Step::JoinBoth => {
            let right = pop_value(values);
            both_hold(pop_value(values), right)
        }
        Step::JoinEither => {
            let right = pop_value(values);
            either_holds(pop_value(values), right)
        }
    };
    values.push_front(value)?;
    Ok(())
}

// The last value after all steps.
fn take_steps(
    alloc: Global,
    environment: &[Variable<'_>],
    steps: &[Step<'_>],
) -> Result<Option<bool>, AllocError>
    ensures { IfOk result (λ v. v ≡ last_value (after_steps (compare (environment_of environment.now)) both_hold either_holds
        (map step_of steps.now) [])) }
{
    let mut values = VecDeque::new(alloc);
    let mut rest = steps;
    while let [step, later @ ..] = rest {
        take_step(alloc, environment, *step, &mut values)?;
        rest = later;
    }
    Ok(pop_value(&mut values))
}

impl<'a> EnvironmentMarker<'a> {
    /// The marker that the string denotes (PEP 508, "Grammar"). Fails with the first fault from the left and its position.
    ///
    /// Allocates.
    pub fn parse(alloc: Global, text: &'a [u8]) -> Result<EnvironmentMarker<'a>, MarkerError>
        ensures found { IfOk result (λ p. (m : Marker) × DenotesMarker text.now m × (p ≡ steps m)) }
        ensures only { IfOk result (λ p. (m : Marker) → DenotesMarker text.now m → p ≡ steps m) }
        ensures refused { IfErr result (IsMarkerFault (marker_steps text.now)) }
    {
        let steps = parse_steps(alloc, text)?;
        Ok(EnvironmentMarker { steps })
    }

    /// The value of the marker in the environment (PEP 508, "Environment Markers"): whether it holds, or `None` if one of its comparisons
    /// is undefined there.
    ///
    /// Allocates.
    #[tactic(auto, using(crate::proofs::Readings::last_is_value))]
    pub fn evaluate(
        &self,
        alloc: Global,
        environment: &[Variable<'_>],
    ) -> Result<Option<bool>, AllocError>
        ensures { (m : Marker) → self.now ≡ steps m → IfOk result (λ v. v ≡ value (environment_of environment.now) m) }
    {
        let value = take_steps(alloc, environment, self.steps.as_slice())?;
        Ok(value)
    }

    /// The environments in which the marker has the wanted value, as boxes, of those in which it is defined. `None` if and-ing and or-ing them
    /// comes to more than 1,000 boxes.
    ///
    /// Allocates.
    #[tactic(auto, using(crate::proofs::Readings::last_is_boxes, crate::proofs::BoxLaws::hold_in_boxes))]
    pub fn to_boxes(
        &self,
        alloc: Global,
        wanted: bool,
    ) -> Result<Option<Vec<EnvironmentBox<'a>>>, AllocError>
        ensures value { (m : Marker) → self.now ≡ steps m → IfOk result (λ found. boxes_of found ≡ boxes wanted m) }
        ensures holds { (m : Marker) → self.now ≡ steps m → IfOk result (λ found. IfSome (boxes_of found) (HasValueInBoxes wanted m)) }
    {
        let found = take_box_steps(alloc, wanted, self.steps.as_slice())?;
        Ok(found)
    }

    /// Whether it is known that the marker has the wanted value in no environment of the domain.
    ///
    /// Allocates.
    pub fn is_never(
        &self,
        alloc: Global,
        wanted: bool,
        domain: Domain<'_>,
    ) -> Result<bool, AllocError>
        ensures { (m : Marker) → self.now ≡ steps m → IfOk result (λ b. b ≡ true → IsNever (domain_of domain.entry) wanted m) }
    {
        match self.to_boxes(alloc, wanted)? {
            Some(boxes) => are_empty(alloc, boxes.as_slice(), domain),
            None => Ok(false),
        }
    }

    /// What the variables of the marker are in an environment of the domain in which it holds, or `None` if none was found. It holds wherever they are so.
    ///
    /// Allocates.
    pub fn find_environment(
        &self,
        alloc: Global,
        domain: Domain<'_>,
    ) -> Result<Option<Vec<FoundVariable<'a>>>, AllocError>
        ensures { (m : Marker) → self.now ≡ steps m
            → IfOk result (λ found. IfSome found (λ v. IsExample (domain_of domain.entry) m (map assignment_of v.items))) }
    {
        let Some(boxes) = self.to_boxes(alloc, true)? else {
            return Ok(None);
        };
        for one in &boxes {
            if let Some(found) = self.find_in_box(alloc, one, domain)? {
                return Ok(Some(found));
            }
        }
        Ok(None)
    }

    /// The environments of the domain in which the marker holds, as far as they are known: none, some while it is false in none, or those with the variables
    /// found.
    ///
    /// Allocates.
    #[tactic(auto, using(crate::proofs::FoundEnvironments::always))]
    pub fn find_extent(
        &self,
        alloc: Global,
        domain: Domain<'_>,
    ) -> Result<MarkerExtent<'a>, AllocError>
        ensures { (m : Marker) → self.now ≡ steps m → IfOk result (λ x. IsExtent (domain_of domain.entry) m (extent_of x)) }
    {
        if self.is_never(alloc, true, domain)? {
            return Ok(MarkerExtent::Nowhere);
        }
        let Some(variables) = self.find_environment(alloc, domain)? else {
            return Ok(MarkerExtent::Undecided);
        };
        if self.is_never(alloc, false, domain)? {
            return Ok(MarkerExtent::Always);
        }
        Ok(MarkerExtent::Somewhere(variables))
    }

    /// The marker that holds if both do.
    ///
    /// Allocates.
    pub fn and(self, other: &EnvironmentMarker<'a>) -> Result<EnvironmentMarker<'a>, AllocError>
        ensures { (m : Marker) → (n : Marker) → self.entry ≡ steps m → other.now ≡ steps n → IfOk result (λ both. both ≡ steps (Both m n)) }
    {
        let mut joined = self.steps;
        joined.extend_from_slice(other.steps.as_slice())?;
        joined.push(Step::JoinBoth)?;
        Ok(EnvironmentMarker { steps: joined })
    }

    // Whether the marker holds where its variables are as found.
    fn holds_in(&self, alloc: Global, found: &[FoundVariable<'_>]) -> Result<bool, AllocError>
        ensures { (m : Marker) → self.now ≡ steps m → IfOk result (λ b. b ≡ true → value (found_environment found.now) m ≡ Some true) }
    {
        let environment = borrow_variables(alloc, found)?;
        let value = self.evaluate(alloc, environment.as_slice())?;
        Ok(value.unwrap_or(false))
    }

    #[tactic(auto, using(crate::proofs::FoundEnvironments::example))]
    // An environment of the box in which the marker holds.
    fn find_in_box(
        &self,
        alloc: Global,
        one: &EnvironmentBox<'a>,
        domain: Domain<'_>,
    ) -> Result<Option<Vec<FoundVariable<'a>>>, AllocError>
        ensures { (m : Marker) → self.now ≡ steps m
            → IfOk result (λ found. IfSome found (λ v. IsExample (domain_of domain.entry) m (map assignment_of v.items))) }
    {
        let found = find_variables(alloc, self.steps.as_slice(), one.conditions(), domain)?;
        let Some((mut variables, asked)) = found else {
            return Ok(None);
        };
        if !is_environment(alloc, variables.as_slice(), domain)? {
            return Ok(None);
        }
        variables.truncate(asked);
        if !are_writable(variables.as_slice()) {
            return Ok(None);
        }
        if self.holds_in(alloc, variables.as_slice())? {
            return Ok(Some(variables));
        }
        Ok(None)
    }
}
