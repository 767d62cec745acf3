//! What is wrong in the documents of a project: `pyproject.toml` and locks, each by itself and one beside the other.
//!
//! In reading order: `document_kind`; `document_reading`, `locked_reading` and `groups`; `together`, a project by itself; `known_projects`,
//! `lock_comparison`, `extra_comparison`, `lack`, `stale_lock` and `entries`, a project beside a lock; `document_report`, the
//! call; and `laws`.
#![tactic(auto)]

mod document_kind;
mod document_reading;
mod document_report;
mod entries;
mod extra_comparison;
mod groups;
mod known_projects;
mod lack;
pub mod laws;
mod lock_comparison;
mod locked_reading;
mod stale_lock;
mod together;

pub use document_kind::{
    Document, DocumentKind, is_document_path, is_pipenv_path, kind_of_path, kind_of_word,
};
pub use document_report::find_document_problems;
pub use pyver_locks::lock_kind::LockKind;
