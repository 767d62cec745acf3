//! The boxes of a marker, by its steps.
ghost use Rattle.std.specs.Prelude.{◌≡◌, [], IfOk, map, not};
ghost use Rattle.pyver_markers.specs.Boxes.{Box, comparison_boxes, join_boxes};
ghost use Rattle.pyver_markers.specs.Extents.{boxes_of};
ghost use Rattle.pyver_markers.specs.MarkerValues.{after_step, after_steps, earlier_values, last_value};
ghost use Rattle.pyver_requirements.specs.MarkerViews.{step_of};

use crate::environment_box::{EnvironmentBox, comparison_boxes, join_boxes};
use pyver_requirements::Step;
use std::alloc::{AllocError, Global};
use std::collections::VecDeque;

// Removes the last boxes.
fn pop_boxes<'a>(
    stack: &mut VecDeque<Option<Vec<EnvironmentBox<'a>>>>,
) -> Option<Vec<EnvironmentBox<'a>>>
    ensures last { boxes_of result ≡ last_value (map boxes_of stack.old.items) }
    ensures rest { map boxes_of stack.new.items ≡ earlier_values (map boxes_of stack.old.items) }
{
    stack.pop_front().unwrap_or(None)
}

// Joins the last two boxes.
fn join_last<'a>(
    alloc: Global,
    both: bool,
    stack: &mut VecDeque<Option<Vec<EnvironmentBox<'a>>>>,
) -> Result<Option<Vec<EnvironmentBox<'a>>>, AllocError>
    ensures joined { IfOk result (λ found. boxes_of found ≡ join_boxes both (last_value (earlier_values (map boxes_of stack.old.items)))
        (last_value (map boxes_of stack.old.items))) }
    ensures rest { map boxes_of stack.new.items ≡ earlier_values (earlier_values (map boxes_of stack.old.items)) }
{
    let right = pop_boxes(stack);
    let left = pop_boxes(stack);
    join_boxes(alloc, both, left, right)
}

fn take_box_step<'a>(
    alloc: Global,
    wanted: bool,
    step: Step<'a>,
    stack: &mut VecDeque<Option<Vec<EnvironmentBox<'a>>>>,
) -> Result<(), AllocError>
    ensures { IfOk result (λ _. map boxes_of stack.new.items ≡ after_step (comparison_boxes wanted) (join_boxes wanted) (join_boxes (not wanted))
        (step_of step.entry) (map boxes_of stack.old.items)) }
{
    let boxes = match step {
        Step::Compare(left, operator, right) => {
            comparison_boxes(alloc, wanted, left, operator, right)?
        }
        Step::JoinBoth => join_last(alloc, wanted, stack)?,
        Step::JoinEither => join_last(alloc, !wanted, stack)?,
    };
    stack.push_front(boxes)?;
    Ok(())
}

// The boxes after all steps.
pub(crate) fn take_box_steps<'a>(
    alloc: Global,
    wanted: bool,
    steps: &[Step<'a>],
) -> Result<Option<Vec<EnvironmentBox<'a>>>, AllocError>
    ensures { IfOk result (λ found. boxes_of found ≡ last_value (after_steps (comparison_boxes wanted) (join_boxes wanted) (join_boxes (not wanted))
        (map step_of steps.now) [])) }
{
    let mut stack = VecDeque::new(alloc);
    let mut rest = steps;
    while let [step, later @ ..] = rest {
        take_box_step(alloc, wanted, *step, &mut stack)?;
        rest = later;
    }
    Ok(pop_boxes(&mut stack))
}
