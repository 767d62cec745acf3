//! Ranges of specifiers and of lists: two conversions, their intersection, raised numbers.
pub(crate) mod error;
pub(crate) mod intersection;
pub(crate) mod lines;
pub(crate) mod list;
pub(crate) mod next_release;
pub(crate) mod release_only;
pub(crate) mod whole_order;
