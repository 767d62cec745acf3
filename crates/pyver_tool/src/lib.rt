//! The program `pyver` as a function of its words, over any reader and any writers: what it prints for people and for shell scripts.
//!
//! In reading order: `program`, which runs what `command` finds; `words`, `options` and `settings`, which make a command;
//! `check`, the one command that is here, the `requirement_files` that it reads, and `lock_search`; `help` and `misuse`; and `laws`.
#![tactic(auto)]

mod check;
mod command;
mod help;
pub mod laws;
mod lock_search;
mod misuse;
mod options;
mod program;
mod requirement_files;
mod settings;
mod words;

pub use program::{refuse, run};
pub use pyver_commands::{Files, OpenFailure};
