//! Test cases as lines of standard input: a call, its arguments and the wanted result, with tabs between them; and
//! readers and writers for tests. Only tests use it; no contract pins what it prints.
//!
//! In reading order: `run`, which compares each case; `case_fields`, of a line; `arguments`, with what is printed; `streams`; and `sizes`.
#![tactic(auto)]

mod arguments;
mod case_fields;
mod run;
mod sizes;
mod streams;

pub use arguments::{
    bound_argument, change_argument, check, check_copy, check_debug, parse_version, print_or_none,
    print_value, split_words, version_argument, version_arguments,
};
pub use run::{Calls, CaseError, run_cases};
pub use sizes::{repeat, sizes_up_to};
pub use streams::{After, Manner, Sink, Trickle};
