//! What locks hold: `pylock.toml`, `uv.lock`, `poetry.lock` and `pdm.lock`.
//!
//! In reading order: `lock_kind`; what is read, in `locked_package`; `toml_lock`, which reads it, with `lock_faults`, `workspace`,
//! `package_requirements`, `package_extras` and `own_entries`; and `known_environment`.
#![tactic(auto)]

pub mod known_environment;
pub mod lock_faults;
pub mod lock_kind;
pub mod locked_package;
mod own_entries;
pub mod package_extras;
mod package_requirements;
pub mod toml_lock;
mod workspace;
