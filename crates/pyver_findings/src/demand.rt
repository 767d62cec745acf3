//! What a line asks for that is a requirement.
ghost use Rattle.std.specs.Prelude.{◌≡◌, IfOk, option_map};
ghost use Rattle.pep440_pick.specs.Requirements.{needed};
ghost use Rattle.pyver_findings.specs.Demands.{line_demand, is_pin_operator, is_pinned};
ghost use Rattle.pyver_findings.specs.Views.{demand_of, file_line_of};

use crate::file_line::FileLine;
use pep440_pick::{Requirement, normalize_name, normalize_names};
use pep440_rs::{Operator, VersionSpecifier, VersionSpecifiers};
use std::alloc::{AllocError, Global};

/// What a line asks for: versions of a package, under a marker or always.
#[derive(Drop)]
pub struct Demand {
    pub line: FileLine,
    /// In its normal form, as each extra and the marker.
    pub name: Vec<u8>,
    /// The names of the extras, in order.
    pub extras: Vec<Vec<u8>>,
    pub marker: Option<Vec<u8>>,
    /// Whether some member of the list names one version.
    pub pinned: bool,
    pub specifiers: VersionSpecifiers,
}

fn is_pin_operator(operator: Operator) -> bool
    ensures { result ≡ is_pin_operator operator }
{
    matches!(operator, Operator::Equal | Operator::ExactEqual)
}

fn is_pinned(members: &[VersionSpecifier]) -> bool
    ensures { result ≡ is_pinned members.now }
{
    members
        .iter()
        .any(|member| is_pin_operator(*member.operator()))
}

impl Demand {
    /// What the line asks for under this marker, or always.
    ///
    /// Allocates.
    #[tactic(auto, unfolding(crate::specs::Views::names_of))]
    pub fn new(
        alloc: Global,
        line: &FileLine,
        marker: Option<Vec<u8>>,
        requirement: &Requirement,
    ) -> Result<Demand, AllocError>
        ensures { IfOk result (λ a. demand_of a ≡ line_demand (file_line_of line.now) (option_map (λ m. m.items) marker)
            (needed requirement.now)) }
    {
        let pinned = is_pinned(requirement.specifiers.as_slice());
        let name = normalize_name(alloc, requirement.name.as_str())?;
        Ok(Demand {
            line: line.clone()?,
            name,
            extras: normalize_names(alloc, requirement.extras.as_slice())?,
            marker,
            pinned,
            specifiers: requirement.specifiers.clone()?,
        })
    }
}
