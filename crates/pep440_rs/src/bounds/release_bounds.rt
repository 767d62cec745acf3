//! The specifiers of a pair of bounds, one by one.
ghost use Rattle.std.specs.Prelude.{◌≡◌, ◌++◌, option_to_list};
ghost use Rattle.std.specs.Iterator.{YieldsFirst, item_count};

use crate::specifier::VersionSpecifier;
use std::alloc::AllocError;
use std::marker::Model;

/// The specifiers of a pair of bounds in order, at most two; made by `VersionSpecifier::from_release_only_bounds`.
///
/// It allocates nothing. A clause sees it as the list of the specifiers that are left.
#[derive(Debug, Drop)]
pub struct ReleaseBounds {
    first: Option<VersionSpecifier>,
    second: Option<VersionSpecifier>,
}

impl Model for ReleaseBounds {
    ghost use Rattle.std.specs.Prelude.{List, ◌++◌, option_to_list};
    ghost use Rattle.pep440_rs.specs.Specifiers.{Spec};

    ghost Value = { List Spec };

    ghost view = { λ b. option_to_list b.first ++ option_to_list b.second };
}

impl ReleaseBounds {
    // The one, then the other.
    pub(crate) fn new(
        first: Option<VersionSpecifier>,
        second: Option<VersionSpecifier>,
    ) -> ReleaseBounds
        ensures { result ≡ option_to_list first ++ option_to_list second }
    {
        ReleaseBounds { first, second }
    }
}

impl Clone for ReleaseBounds {
    ghost is_clone = { λ bounds copy. copy ≡ bounds };

    fn clone(&self) -> Result<ReleaseBounds, AllocError> {
        Ok(ReleaseBounds {
            first: self.first.clone()?,
            second: self.second.clone()?,
        })
    }
}

impl Iterator for ReleaseBounds {
    type Item = VersionSpecifier;

    ghost next_gives = { YieldsFirst (λ b. b) };

    ghost remaining = { item_count (λ b. b) };

    /// The next specifier, and `None` once all were given.
    fn next(&mut self) -> Option<VersionSpecifier> {
        match self.first.take() {
            Some(member) => Some(member),
            None => self.second.take(),
        }
    }
}
