//! What both command line programs do with bytes: reading to the end, writing whole, splitting lines, escaping the text of others.
//!
//! In reading order: `stream`, reads and writes; `newlines`, which splits what was read; `escape`, for messages; and `status`.
#![tactic(auto)]

mod escape;
mod newlines;
pub mod status;
mod stream;

pub use escape::{is_printable, push_escaped, push_escaped_lines, push_hex_digits};
pub use newlines::split_line;
pub use stream::{READ_SIZE, ReadFailure, WriteFailure, read_whole, write_whole};
