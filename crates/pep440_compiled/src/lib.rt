//! Compiled versions and lists: bytes made once of a string and kept wherever the caller likes, in memory, in a file or in another
//! process. They are compared and matched as they lie, without parsing and without memory.
//!
//! A compiled version is the byte 4, its sort key (`pep440_keys`), and a byte 1 for each zero that ends its release, which is
//! all that a sort key leaves out. So comparing versions is comparing their sort keys byte by byte, two versions are equal exactly
//! if their sort keys are the same bytes, and a hash of versions is one of these bytes. Every version that a string parses to has
//! one compiled form, and bytes denote at most one version: `1.0` and `1.0.0` are equal and compile to different bytes.
//!
//! The members of a compiled list are the byte 5, and of each specifier 16 and the operator's number, and then the version, without
//! the byte 4. With `===` they are the list. Without, the byte 6 and its set stand before them: the sort keys between which the versions
//! of each interval lie, each after how many bytes it has, so that matching literally is a comparison of bytes with these. A set by itself is
//! the byte 7 and such keys. The first byte is the format: bytes of another format are rejected, not misread.
//!
//! `read_version`, `read_list`, `read_sort_key` and, of its version, `read_membership` reject all bytes that denote nothing. The calls that read bytes as they lie do not test the whole of
//! them: of bytes that denote nothing they return an error or any result, and never read outside them. Read bytes
//! from outside once before they are asked.
//!
//! In reading order: `version`, `form_buffer`, `list` and `set_forms`, the calls; `stack_form`, which writes short forms of strings; `list_members`, `set_bytes` and `set_operations`, what lists and sets are made of; `views` and `key_parts`, where the parts lie in the bytes; `byte_order` and
//! `matching`, which read no more than those; `decode`, `checked_version`, `parsed` and `operand`, which test each byte; `error`; and `laws`.
#![tactic(auto)]

mod byte_order;
mod checked_version;
mod decode;
mod error;
mod form_buffer;
mod key_parts;
pub mod laws;
mod list;
mod list_members;
mod matching;
mod operand;
mod parsed;
mod set_bytes;
mod set_forms;
mod set_operations;
mod stack_form;
mod version;
mod views;

pub use error::{CompileError, CompileStringError, CompiledError, ContainsError, NotCompiled};
pub use form_buffer::FormBuffer;
pub use list::{
    compile_list, contains, has_list_format, has_set_format, normalize_list, read_list,
    requests_prereleases,
};
pub use set_forms::{
    SetFronts, complement, has_lone_set_format, intersection, is_subset, read_membership,
    read_membership_soon, set_contains, set_contains_soon, set_keys, union, view_fronts,
};
pub use version::{
    any_prerelease, compare, compare_sort_keys, compile_version, normalize, push_compiled_form,
    read_sort_key, read_version, sort_key,
};
pub use views::has_version_format;
