//! Requirements, as `demo[extra] >=1.0, <2.0`, and which versions they allow: the newest candidate, and the range.
//!
//! In reading order: `Requirement` and its errors, names, the newest candidate, the allowed range, and `laws`.
#![tactic(auto)]

mod allowed_range;
mod candidates;
mod error;
pub mod laws;
mod name;
mod requirement;
mod requirement_parts;
mod scan;

pub use allowed_range::{add_members, allowed};
pub use candidates::{is_preferred, newest};
pub use error::{RequirementError, RequirementParseError};
pub use name::{
    is_name, is_name_byte, normalize_bytes, normalize_name, normalize_names, same_name,
};
pub use requirement::Requirement;
pub use requirement_parts::copy_extras;
pub use scan::{split_at_byte, split_name};
