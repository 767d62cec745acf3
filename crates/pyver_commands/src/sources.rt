//! Sources: files and standard input, why they are not read, and what their lines are.

pub(crate) mod files;
pub(crate) mod invalid_lines;
pub(crate) mod line_options;
pub(crate) mod open_failure;
pub(crate) mod origin;
pub(crate) mod source_lines;
pub(crate) mod source_texts;
pub(crate) mod stream;
pub(crate) mod version_line;
