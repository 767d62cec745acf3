//! Requirements files, as pip reads them: their logical lines, what each line is, and environment markers.
//!
//! In reading order: `physical_line`, `comment` and `logical_line`, from bytes to lines; `line_kind`, what a line is, and what it asks of
//! `option_name`, `option_value` and `line_fault`; `line_parts`, of a requirement; `marker_reading`, which reads each `marker_token` into
//! `marker_terms`; and `laws`.
#![tactic(auto)]

mod cause;
mod comment;
pub mod laws;
mod line_fault;
mod line_kind;
mod line_parts;
mod logical_line;
mod marker_fault;
mod marker_operator;
mod marker_reading;
mod marker_steps;
mod marker_terms;
mod marker_token;
mod option_fault;
mod option_name;
mod option_value;
mod physical_line;

pub use cause::Cause;
pub use line_fault::LineFault;
pub use line_kind::{LineKind, classify, has_variable};
pub use line_parts::{LineParts, split_pip_line, split_requirement};
pub use logical_line::{LogicalLine, logical_lines};
pub use marker_fault::{MarkerError, MarkerFault};
pub use marker_operator::MarkerOperator;
pub use marker_reading::parse_marker;
pub use marker_steps::{Step, parse_steps};
pub use marker_token::{Side, count_operator_bytes, starts_with_operator};
pub use option_fault::{has_option, has_plain_options};
pub use option_value::value_column;
