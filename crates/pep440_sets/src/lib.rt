//! Sets of versions, by the literal rule of matching, as pip 26 and `packaging` 26 read specifiers (PEP 440, "Version specifiers").
//!
//! A list of specifiers without `===` matches a set of versions: intervals of their order, whose boundaries are exact, local versions and
//! numbers at the limit included. So one list is in another, or they have a version in common, exactly if the sets say so.
//!
//! In the order in which to read it: `next_versions` has the least version above others, `convert` the set of each operator, `set` the sets and
//! their operations, `witness` a version of a set, `common_version` one of any list, `set_lines` how sets are printed, `laws` what is proved of all of them.
#![tactic(auto)]

mod common_version;
mod convert;
mod error;
pub mod laws;
mod next_versions;
mod set;
mod set_lines;
mod witness;

pub use common_version::find_version;
pub use convert::specifiers_to_set;
pub use error::SetError;
pub use set::VersionSet;
pub use set_lines::{BoundaryText, SetLines, is_closed_end, is_closed_start};
