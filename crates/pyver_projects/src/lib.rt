//! What a project asks for: the strings of its `pyproject.toml`, and on which lines they stand.
//!
//! In reading order: `table`, values of TOML; `requirement_strings`; `inclusions`, names; `project`, strings of the standards' tables;
//! `poetry_marker` and `tool_tables`, strings of tools; `own_extras`, all strings; and `place`, their lines.
#![tactic(auto)]

pub mod inclusions;
pub mod own_extras;
pub mod place;
mod poetry_marker;
pub mod project;
pub mod requirement_strings;
pub mod table;
pub mod tool_tables;
