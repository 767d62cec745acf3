//! Specifiers from bounds: of one bound, of a pair of bounds on releases, and of a list of such pairs.
pub(crate) mod error;
pub(crate) mod members;
pub(crate) mod release_bounds;
