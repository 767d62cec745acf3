//! What is wrong in requirements files: lines that are no requirements, and lines that no version can satisfy together.
#![tactic(auto)]

mod column;
mod conflicts;
mod constraints;
mod demand;
mod file_line;
mod finding;
mod group;
mod halves;
mod hashes;
mod json_string;
mod key_groups;
pub mod laws;
mod line_meaning;
mod marked_conflicts;
mod marker;
mod marker_sets;
mod named_files;
mod plain;
mod report;
mod report_github;
mod report_json;
mod report_sarif;
mod report_text;
mod requirement_line;
mod smallest;

pub use conflicts::push_conflicts;
pub use demand::Demand;
pub use file_line::{FileLine, SourceFile};
pub use finding::{Conflict, Finding, FindingKind};
pub use json_string::push_json_string;
pub use line_meaning::LineMeaning;
pub use named_files::{NamedFile, Position, folder, push_named_files};
pub use report::{Report, find_problems};
pub use report_text::{push_number, push_text};
pub use requirement_line::{parse_requirement, parse_specifiers};
