//! The program `pep440` as a function of its words and its input, and over any reader and any writer.
//!
//! In reading order: `program`, which writes what `command` finds; `output` and `error`, what that is; `operands`; a file a command, from
//! `show_version`, the shortest; `input_lines`, which `filter_lines` and `pick` read; and `laws`.
#![tactic(auto)]

mod command;
mod compare;
mod edit;
mod error;
mod filter_lines;
mod input_lines;
pub mod laws;
mod match_version;
mod operands;
mod output;
mod pick;
mod print_range;
mod program;
mod show_version;

pub use command::answer;
pub use output::Answer;
pub use program::{refuse, run};
