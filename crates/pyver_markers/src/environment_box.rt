//! Boxes of environments, and the conditions that make them.
ghost use Rattle.std.specs.Prelude.{◌≡◌, ◌++◌, IfOk, map, true};
ghost use Rattle.pyver_markers.specs.Boxes.{Box, both_boxes, comparison_boxes, either_boxes, join_boxes, products};
ghost use Rattle.pyver_markers.specs.Extents.{boxes_of, condition_of, domain_of};
ghost use Rattle.pyver_markers.specs.Conditions.{HasNoEnvironment};
ghost use Rattle.pyver_requirements.specs.MarkerViews.{side_of};

use crate::emptiness::excludes_all;
use crate::environment::Domain;
use pyver_requirements::{MarkerOperator, Side};
use std::alloc::{AllocError, Global};
use std::marker::Model;

const MOST: usize = 1000;

/// A comparison of a marker, and what it is to give.
#[derive(Clone, Copy)]
pub struct Condition<'a> {
    pub left: Side<'a>,
    pub operator: MarkerOperator,
    pub right: Side<'a>,
    /// What it is to give.
    pub wanted: bool,
}

/// A set of environments: those in which each of its comparisons gives what is wanted.
#[derive(Drop)]
pub struct EnvironmentBox<'a> {
    conditions: Vec<Condition<'a>>,
}

impl<'a> Model for EnvironmentBox<'a> {
    ghost use Rattle.std.specs.Prelude.{List, map};
    ghost use Rattle.pyver_markers.specs.Boxes.{Condition};
    ghost use Rattle.pyver_markers.specs.Extents.{condition_of};

    ghost Value = { List Condition };

    ghost view = { λ b. map condition_of b.conditions.items };
}

impl<'a> EnvironmentBox<'a> {
    /// The comparisons, and what each is to give. Never allocates.
    pub fn conditions(&self) -> &[Condition<'a>]
        ensures { map condition_of result.now ≡ self.now }
    {
        self.conditions.as_slice()
    }

    /// Whether it is known that no environment of the domain is in the box: a variable would have to be two strings, variables would have to be of two
    /// systems, or the version of Python or of its implementation would have to be in sets without a common version. Otherwise the box may still be empty.
    ///
    /// Allocates.
    pub fn is_empty(&self, alloc: Global, domain: Domain<'_>) -> Result<bool, AllocError>
        ensures { IfOk result (λ b. b ≡ true → HasNoEnvironment (domain_of domain.entry) self.now) }
    {
        excludes_all(alloc, self.conditions(), domain)
    }
}

// What is in both boxes.
fn intersect<'a>(
    alloc: Global,
    one: &EnvironmentBox<'a>,
    other: &EnvironmentBox<'a>,
) -> Result<EnvironmentBox<'a>, AllocError>
    ensures { IfOk result (λ b. b ≡ one.now ++ other.now) }
{
    let mut conditions = Vec::new(alloc);
    conditions.extend_from_slice(one.conditions())?;
    conditions.extend_from_slice(other.conditions())?;
    Ok(EnvironmentBox { conditions })
}

fn push_intersections<'a>(
    alloc: Global,
    boxes: &mut Vec<EnvironmentBox<'a>>,
    one: &EnvironmentBox<'a>,
    others: &[EnvironmentBox<'a>],
) -> Result<(), AllocError>
    ensures { IfOk result (λ _. boxes.new.items ≡ boxes.old.items ++ map (λ b. one.now ++ b) others.now) }
{
    let mut rest = others;
    while let [other, later @ ..] = rest {
        boxes.push(intersect(alloc, one, other)?)?;
        rest = later;
    }
    Ok(())
}

fn multiply<'a>(
    alloc: Global,
    boxes: &[EnvironmentBox<'a>],
    others: &[EnvironmentBox<'a>],
) -> Result<Vec<EnvironmentBox<'a>>, AllocError>
    ensures { IfOk result (λ v. v.items ≡ products boxes.now others.now) }
{
    let mut all = Vec::new(alloc);
    let mut rest = boxes;
    while let [one, later @ ..] = rest {
        push_intersections(alloc, &mut all, one, others)?;
        rest = later;
    }
    Ok(all)
}

// `None` stands for more than 1,000 boxes.
fn both_boxes<'a>(
    alloc: Global,
    left: Option<Vec<EnvironmentBox<'a>>>,
    right: Option<Vec<EnvironmentBox<'a>>>,
) -> Result<Option<Vec<EnvironmentBox<'a>>>, AllocError>
    ensures { IfOk result (λ found. boxes_of found ≡ both_boxes (boxes_of left.entry) (boxes_of right.entry)) }
{
    let (Some(left), Some(right)) = (left, right) else {
        return Ok(None);
    };
    if left.len().saturating_mul(right.len()) > MOST {
        return Ok(None);
    }
    Ok(Some(multiply(alloc, left.as_slice(), right.as_slice())?))
}

fn either_boxes<'a>(
    left: Option<Vec<EnvironmentBox<'a>>>,
    right: Option<Vec<EnvironmentBox<'a>>>,
) -> Result<Option<Vec<EnvironmentBox<'a>>>, AllocError>
    ensures { IfOk result (λ found. boxes_of found ≡ either_boxes (boxes_of left.entry) (boxes_of right.entry)) }
{
    let (Some(mut left), Some(mut right)) = (left, right) else {
        return Ok(None);
    };
    if left.len().saturating_add(right.len()) > MOST {
        return Ok(None);
    }
    left.append(&mut right)?;
    Ok(Some(left))
}

// Where both are, or where either is.
pub(crate) fn join_boxes<'a>(
    alloc: Global,
    both: bool,
    left: Option<Vec<EnvironmentBox<'a>>>,
    right: Option<Vec<EnvironmentBox<'a>>>,
) -> Result<Option<Vec<EnvironmentBox<'a>>>, AllocError>
    ensures { IfOk result (λ found. boxes_of found ≡ join_boxes both (boxes_of left.entry) (boxes_of right.entry)) }
{
    if both {
        both_boxes(alloc, left, right)
    } else {
        either_boxes(left, right)
    }
}

// Where one comparison gives what is wanted.
pub(crate) fn comparison_boxes<'a>(
    alloc: Global,
    wanted: bool,
    left: Side<'a>,
    operator: MarkerOperator,
    right: Side<'a>,
) -> Result<Option<Vec<EnvironmentBox<'a>>>, AllocError>
    ensures { IfOk result (λ found. boxes_of found ≡ comparison_boxes wanted (side_of left.entry) operator (side_of right.entry)) }
{
    let mut conditions = Vec::new(alloc);
    conditions.push(Condition {
        left,
        operator,
        right,
        wanted,
    })?;
    let mut boxes = Vec::new(alloc);
    boxes.push(EnvironmentBox { conditions })?;
    Ok(Some(boxes))
}
