//! Five cores of small programs, a module each, written as a caller would write them; `docs/CALLING.md` shows parts of them.
#![tactic(auto)]

pub mod downloads;
pub mod lock;
pub mod page;
pub mod untrusted;
pub mod within;
