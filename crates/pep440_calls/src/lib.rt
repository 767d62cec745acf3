//! The calls of the C library, over slices: versions and lists of specifiers, as bytes in the caller's memory. `pep440_c` exports each under the
//! name that C has for it.
//!
//! A version or a list is bytes: a string, or its compiled form, which begins with a byte that no string begins with. Each call takes
//! either, but for those that take an operator, a pattern or one specifier as a string. No call keeps a reference, and none has a
//! condition beyond its types. Each returns a status: 0 ok, 1 a version is invalid, 2 a list is invalid, or an operator or a
//! specifier, 3 out of memory, 4 too little room, 5 a bound of a range lies above the greatest number, 6 the right one of two
//! versions or sets is invalid, 7 a version is not packed, 8 a version cannot be changed so, 9 bytes are to be nothing known, 10 none is
//! found, 12 a list has no set, 13 a set by itself has no list.
//!
//! `write_order` of compiled versions, `write_match` and `write_request_flag` of a compiled list read them as they lie. They do not test the whole of
//! them: of bytes that begin as a compiled form and are none they return an error or any result, and never read outside them. So do
//! `write_allow_flag` and the calls on sets, of a compiled list with its set and of a set by itself.
//!
//! With 0 the result is at the start of the buffer, whose rest is unchanged. With 4 all is valid, but the result does not fit: the
//! buffer is unchanged, and the sizes are reported. 3 may take the place of any other status. With any other nothing is
//! written, except `at` by a batch that stops.
//!
//! In reading order: `fault` and `buffer`, how each call ends; `read`, with which each begins; `one_version`, `two_versions`, `one_list`,
//! `membership`, `set_calls`, `patterns` and `edits`; `joined_strings`, which `list_ranges` and `batch` write; `newest_string`; `messages`, why bytes
//! are invalid; and `laws`.
#![tactic(auto)]

mod batch;
mod buffer;
mod edits;
mod fault;
mod joined_strings;
pub mod laws;
mod list_ranges;
mod membership;
mod messages;
mod newest_string;
mod one_list;
mod one_version;
mod patterns;
mod read;
mod set_calls;
mod two_versions;

pub use batch::{write_forms, write_marks, write_positions, write_sort_keys};
pub use edits::{write_edit_error, write_edited};
pub use list_ranges::{write_range, write_range_bounds, write_release_range_bounds};
pub use membership::{write_allow_flag, write_match};
pub use messages::{write_build_error, write_error};
pub use newest_string::write_newest;
pub use one_list::{
    write_compiled_list, write_members, write_normal_list, write_prerelease_flag,
    write_request_flag, write_version_in,
};
pub use one_version::{
    Parts, write_compiled, write_normal_form, write_parts, write_sort_key, write_word,
};
pub use patterns::{write_compiled_specifier, write_pattern, write_specifier};
pub use set_calls::{
    write_boundaries, write_complement, write_intersection, write_subset, write_union,
};
pub use two_versions::write_order;
