//! Environment markers as steps.
ghost use Rattle.std.specs.Prelude.{◌≡◌, ◌-◌, ◌++◌, ◌∷◌, [], IfErr, IfOk, length, map};
ghost use Rattle.pyver_requirements.specs.MarkerSteps.{behind_operand, close_group, empty_group, end_steps, join_alternatives, join_chain, marker_steps, no_groups, open_group, take_connective, take_operand, take_token};
ghost use Rattle.pyver_requirements.specs.MarkerViews.{group_of, open_groups_of, step_of, IsMarkerFault, side_of, token_of};
ghost use Rattle.pyver_requirements.specs.MarkerTokens.{Compares, Or};

use crate::line_parts::is_blank_byte;
use crate::marker_fault::{MarkerError, MarkerFault};
use crate::marker_operator::MarkerOperator;
use crate::marker_token::{Side, Token, behind_token, scan_token};
use std::alloc::{AllocError, Global};
use std::collections::VecDeque;

const DEEPEST: usize = 100;

/// A step of a marker: what `and` and `or` join stands before them.
#[derive(Clone, Copy)]
pub enum Step<'a> {
    /// A comparison.
    Compare(Side<'a>, MarkerOperator, Side<'a>),
    /// `and` of the two markers whose steps end before it.
    JoinBoth,
    /// `or` of them.
    JoinEither,
}

// What stands in a parenthesis so far.
#[derive(Clone, Copy)]
struct Group {
    // Up to the last `or`.
    has_alternatives: bool,
    // Since then.
    has_chain: bool,
}

const EMPTY: Group = Group {
    has_alternatives: false,
    has_chain: false,
};

fn push_join_chain<'a>(steps: &mut Vec<Step<'a>>, group: Group) -> Result<(), AllocError>
    ensures { IfOk result (λ _. map step_of steps.new.items ≡ map step_of steps.old.items ++ join_chain (group_of group)) }
{
    if group.has_chain {
        steps.push(Step::JoinBoth)?;
    }
    Ok(())
}

fn push_join_alternatives<'a>(steps: &mut Vec<Step<'a>>, group: Group) -> Result<(), AllocError>
    ensures { IfOk result (λ _. map step_of steps.new.items ≡ map step_of steps.old.items ++ join_alternatives (group_of group)) }
{
    if group.has_alternatives {
        steps.push(Step::JoinEither)?;
    }
    Ok(())
}

// The groups of parentheses at a token.
#[derive(Drop)]
struct OpenGroups<'a> {
    // Of the whole text.
    length: usize,
    // Around the innermost, from inside to outside.
    outer: VecDeque<Group>,
    inner: Group,
    steps: Vec<Step<'a>>,
    wants_operand: bool,
}

impl<'a> OpenGroups<'a> {
    fn new(alloc: Global, length: usize) -> OpenGroups<'a>
        ensures { open_groups_of result ≡ no_groups length }
    {
        OpenGroups {
            length,
            outer: VecDeque::new(alloc),
            inner: EMPTY,
            steps: Vec::new(alloc),
            wants_operand: true,
        }
    }

    // The fault, with so many bytes of the text from it on.
    fn misfit(&self, fault: MarkerFault, left: usize) -> MarkerError
        ensures { result ≡ MarkerError.Invalid fault (self.now.length - left) }
    {
        MarkerError::Invalid(fault, self.length.saturating_sub(left))
    }

    fn open(&mut self, left: usize) -> Result<(), MarkerError>
        ensures groups { IfOk result (λ _. open_group (open_groups_of self.old) left ≡ Ok (open_groups_of self.new)) }
        ensures fault { IfErr result (IsMarkerFault (open_group (open_groups_of self.old) left)) }
    {
        if self.outer.len() >= DEEPEST {
            return Err(self.misfit(MarkerFault::TooDeep, left));
        }
        self.outer.push_front(self.inner)?;
        self.inner = EMPTY;
        self.wants_operand = true;
        Ok(())
    }

    // Behind an operand in this group, whose steps are the last.
    fn end_operand(&mut self, inner: Group) -> Result<(), AllocError>
        ensures { IfOk result (λ _. open_groups_of self.new ≡ behind_operand self.old.length (map group_of self.old.outer.items) (group_of inner)
            (map step_of self.old.steps.items)) }
    {
        push_join_chain(&mut self.steps, inner)?;
        self.inner = Group {
            has_alternatives: inner.has_alternatives,
            has_chain: true,
        };
        self.wants_operand = false;
        Ok(())
    }

    fn close(&mut self, left: usize) -> Result<(), MarkerError>
        ensures groups { IfOk result (λ _. close_group (open_groups_of self.old) (open_groups_of self.old).outer left ≡ Ok
            (open_groups_of self.new)) }
        ensures fault { IfErr result (IsMarkerFault (close_group (open_groups_of self.old) (open_groups_of self.old).outer left)) }
    {
        let Some(next) = self.outer.pop_front() else {
            return Err(self.misfit(MarkerFault::NoConnective, left));
        };
        push_join_alternatives(&mut self.steps, self.inner)?;
        Ok(self.end_operand(next)?)
    }

    fn push_comparison(
        &mut self,
        left: Side<'a>,
        operator: MarkerOperator,
        right: Side<'a>,
    ) -> Result<(), MarkerError>
        ensures groups { IfOk result (λ _. take_operand (open_groups_of self.old)
            (Compares (side_of left.entry) operator (side_of right.entry)) 0 ≡ Ok (open_groups_of self.new)) }
        ensures fault { IfErr result (λ e. e ≡ MarkerError.OutOfMemory) }
    {
        self.steps.push(Step::Compare(left, operator, right))?;
        Ok(self.end_operand(self.inner)?)
    }

    fn push_operand(&mut self, token: Token<'a>, left: usize) -> Result<(), MarkerError>
        ensures groups { IfOk result (λ _. take_operand (open_groups_of self.old) (token_of token.entry) left
            ≡ Ok (open_groups_of self.new)) }
        ensures fault { IfErr result (IsMarkerFault (take_operand (open_groups_of self.old) (token_of token.entry) left)) }
    {
        match token {
            Token::Open => self.open(left),
            Token::Compares(one, operator, other) => self.push_comparison(one, operator, other),
            Token::Faulty(fault, at) => Err(self.misfit(fault, at)),
            _ => Err(self.misfit(MarkerFault::MissingOperand, left)),
        }
    }

    // After `or`.
    fn part(&mut self) -> Result<(), MarkerError>
        ensures groups { IfOk result (λ _. take_connective (open_groups_of self.old) Or 0 ≡ Ok (open_groups_of self.new)) }
        ensures fault { IfErr result (λ e. e ≡ MarkerError.OutOfMemory) }
    {
        push_join_alternatives(&mut self.steps, self.inner)?;
        self.inner = Group {
            has_alternatives: true,
            has_chain: false,
        };
        self.wants_operand = true;
        Ok(())
    }

    fn push_connective(&mut self, token: Token<'a>, left: usize) -> Result<(), MarkerError>
        ensures groups { IfOk result (λ _. take_connective (open_groups_of self.old) (token_of token.entry) left ≡ Ok
            (open_groups_of self.new)) }
        ensures fault { IfErr result (IsMarkerFault (take_connective (open_groups_of self.old) (token_of token.entry) left)) }
    {
        match token {
            Token::And => {
                self.wants_operand = true;
                Ok(())
            }
            Token::Or => self.part(),
            Token::Close => self.close(left),
            _ => Err(self.misfit(MarkerFault::NoConnective, left)),
        }
    }

    // Takes the next token; of what it leaves after an error, nothing is read.
    fn push(&mut self, token: Token<'a>, left: usize) -> Result<(), MarkerError>
        ensures groups { IfOk result (λ _. take_token (open_groups_of self.old) (token_of token.entry) left ≡ Ok (open_groups_of self.new)) }
        ensures fault { IfErr result (IsMarkerFault (take_token (open_groups_of self.old) (token_of token.entry) left)) }
    {
        if self.wants_operand {
            self.push_operand(token, left)
        } else {
            self.push_connective(token, left)
        }
    }

    // The steps, at the end.
    fn end(self) -> Result<Vec<Step<'a>>, MarkerError>
        ensures steps { IfOk result (λ taken. end_steps (open_groups_of self.entry) ≡ Ok (map step_of taken.items)) }
        ensures fault { IfErr result (IsMarkerFault (end_steps (open_groups_of self.entry))) }
    {
        if self.wants_operand {
            return Err(self.misfit(MarkerFault::MissingOperand, 0));
        }
        if !self.outer.is_empty() {
            return Err(self.misfit(MarkerFault::Unclosed, 0));
        }
        let mut steps = self.steps;
        push_join_alternatives(&mut steps, self.inner)?;
        Ok(steps)
    }
}

/// The steps of the environment marker (PEP 508, "Grammar"). Fails as `parse_marker` does, with the first fault from the left and its
/// position.
///
/// Allocates.
pub fn parse_steps(alloc: Global, text: &[u8]) -> Result<Vec<Step<'_>>, MarkerError>
    ensures found { IfOk result (λ taken. marker_steps text.now ≡ Ok (map step_of taken.items)) }
    ensures refused { IfErr result (IsMarkerFault (marker_steps text.now)) }
{
    let mut groups = OpenGroups::new(alloc, text.len());
    let mut skipped = 0;
    for (at, byte) in text.iter().enumerate() {
        if skipped > 0 {
            skipped -= 1;
        } else if !is_blank_byte(*byte) {
            let rest = &text[at..];
            groups.push(scan_token(rest), rest.len())?;
            skipped = (rest.len() - 1).saturating_sub(behind_token(rest).len());
        }
    }
    groups.end()
}
