//! Requirements and their parser.
ghost use Rattle.std.specs.Prelude.{◌≡◌, ◌∷◌, [], Ok, Err, Some, IfOk, IfErr, IfSome, option_to_list};
ghost use Rattle.std.specs.List.{All};
ghost use Rattle.pep440_rs.specs.Agreement.{HasOperand};
ghost use Rattle.pep440_pick.specs.Allowed.{lists_of};
ghost use Rattle.pep440_pick.specs.RequirementGrammar.{DerivesRequirement, Needed, RejectsRequirement, RequirementRejection};
ghost use Rattle.pep440_pick.specs.Requirements.{requirement_rejection_text, requirement_text_of};

use crate::error::{RequirementError, RequirementParseError};
use crate::name::same_name;
use crate::requirement_parts::{copy_extras, parse_list, parse_parts};
use pep440_rs::VersionSpecifiers;
use std::alloc::{AllocError, Global};

/// What a line asks for: versions of a package that the list contains, with some extras of it.
#[derive(Drop)]
pub struct Requirement {
    /// The name, as it is written.
    pub name: String,
    /// The names of the extras, as they are written, in order.
    pub extras: Vec<String>,
    /// The list of specifiers.
    pub specifiers: VersionSpecifiers,
}

impl Requirement {
    ghost use Rattle.pep440_pick.specs.Requirements.{IsPositioned, IsRequirementLifted, ReturnsRequirement, needed, requirement_rejection_of};

    /// The requirement that the string denotes: a name, extras in brackets if there are any, and a list of specifiers (PEP 440,
    /// "Version specifiers"), with or without parentheses around it. Tabs, line feeds, form feeds, carriage returns and spaces
    /// may stand before, between and after the parts.
    ///
    /// Allocates. Every string that is no requirement is rejected with the first kind of `RequirementError` that holds, in the
    /// order of the enum; only if an allocation failed the kind may be `OutOfMemory` instead. The message of an invalid list quotes
    /// the list without the blanks and parentheses around it.
    pub fn from_str(alloc: Global, text: &str) -> Result<Requirement, RequirementError>
        // What is returned is what the string denotes.
        ensures found { IfOk result (λ r. DerivesRequirement text.now (needed r)) }
        // What the string denotes is returned, unless an allocation fails.
        ensures only { (n : Needed) → DerivesRequirement text.now n → ReturnsRequirement result (Ok n) }
        // The error is that of the string.
        ensures refused { IfErr result (λ e. IfSome (requirement_rejection_of e) (RejectsRequirement text.now)) }
        // The error of the string is returned, unless an allocation fails.
        ensures decided { (f : RequirementRejection) → RejectsRequirement text.now f → ReturnsRequirement result (Err f) }
        // The error's message is the stated one.
        ensures message { IfErr result (λ e. IfSome (requirement_rejection_of e)
            (λ f. requirement_text_of e ≡ Some (requirement_rejection_text f))) }
        // `OutOfMemory` is a kind of its own, and is inside no other.
        ensures lifted { IfErr result IsRequirementLifted }
        // The version of each member is one that a string can have beside the operator, as the agreement of ranges requires.
        ensures operand { IfOk result (λ r. All HasOperand r.specifiers) }
    {
        Ok(Requirement::parse(alloc, text)?)
    }

    /// The requirement that the string denotes, as by `from_str`, or its error and the position of that.
    ///
    /// Allocates.
    pub fn parse(alloc: Global, text: &str) -> Result<Requirement, RequirementParseError>
        // What is returned is what the string denotes.
        ensures found { IfOk result (λ r. DerivesRequirement text.now (needed r)) }
        // The error is that of the string.
        ensures refused { IfErr result (λ e. IfSome (requirement_rejection_of e.kind) (RejectsRequirement text.now)) }
        // The position is that at which the string is invalid.
        ensures position { IfErr result (IsPositioned text.now) }
        // The error's message is the stated one.
        ensures message { IfErr result (λ e. IfSome (requirement_rejection_of e.kind)
            (λ f. requirement_text_of e.kind ≡ Some (requirement_rejection_text f))) }
        // `OutOfMemory` is a kind of its own, and is inside no other.
        ensures lifted { IfErr result (λ e. IsRequirementLifted e.kind) }
        // The version of each member is one that a string can have beside the operator, as the agreement of ranges requires.
        ensures operand { IfOk result (λ r. All HasOperand r.specifiers) }
    {
        let parts = parse_parts(text)?;
        let specifiers = parse_list(alloc, parts)?;
        let name = String::from_str(alloc, parts.name)?;
        let extras = copy_extras(alloc, parts.extras)?;
        Ok(Requirement {
            name,
            extras,
            specifiers,
        })
    }

    /// The list of specifiers of the requirement that the string denotes, if it has this name, else `None`: what `from_str` and
    /// `same_name` give, without a copy of the name and the extras.
    ///
    /// Allocates. A string that is no requirement is rejected as by `from_str`, whatever its name.
    pub fn specifiers_for(
        alloc: Global,
        name: &str,
        text: &str,
    ) -> Result<Option<VersionSpecifiers>, RequirementError>
        // What is returned is the list of what the string denotes, if that has the name.
        ensures found { IfOk result (λ o. (n : Needed) × DerivesRequirement text.now n × (option_to_list o ≡ lists_of name.now (n ∷ []))) }
        // The error is that of the string.
        ensures refused { IfErr result (λ e. IfSome (requirement_rejection_of e) (RejectsRequirement text.now)) }
        // The error's message is the stated one.
        ensures message { IfErr result (λ e. IfSome (requirement_rejection_of e)
            (λ f. requirement_text_of e ≡ Some (requirement_rejection_text f))) }
        // `OutOfMemory` is a kind of its own, and is inside no other.
        ensures lifted { IfErr result IsRequirementLifted }
    {
        let parts = parse_parts(text)?;
        let specifiers = parse_list(alloc, parts)?;
        if same_name(parts.name, name) {
            Ok(Some(specifiers))
        } else {
            Ok(None)
        }
    }
}

impl Clone for Requirement {
    ghost use Rattle.pep440_pick.specs.Requirements.{needed};

    ghost is_clone = { λ requirement copy. needed copy ≡ needed requirement };

    fn clone(&self) -> Result<Requirement, AllocError> {
        Ok(Requirement {
            name: self.name.clone()?,
            extras: self.extras.clone()?,
            specifiers: self.specifiers.clone()?,
        })
    }
}
