//! Environment markers in environments, and as sets of them.
//!
//! In the order in which to read it: `environment`, what variables are and how they are written; `text` and `version`, how two strings compare; `marker_comparison`;
//! `environment_box`, sets of environments, with `emptiness`, by `text_condition`, `version_condition`, `python_condition` and `system`; `marker_boxes`, from steps;
//! `found_environment`, with `found_python`; `environment_marker`, which reads markers and asks all this.
#![tactic(auto)]

mod emptiness;
mod environment;
mod environment_box;
mod environment_marker;
mod found_environment;
mod found_python;
mod marker_boxes;
mod marker_comparison;
mod python_condition;
mod system;
mod text;
mod text_condition;
mod version;
mod version_condition;

pub use environment::{Domain, Setting, Variable, push_environment};
pub use environment_box::{Condition, EnvironmentBox};
pub use environment_marker::{EnvironmentMarker, MarkerExtent};
pub use found_environment::FoundVariable;
