//! Versions and version specifiers of PEP 440: the one crate that users name.
//!
//! A specifier is an operator and a version, as `>=1.2`, and a list is specifiers with commas between them.
//!
//! ```rust
//! use anyhow::Result;
//! use pep440_rs::{Version, VersionSpecifiers};
//!
//! fn main(rt: HostRuntime) -> Result<()> {
//!     let wanted = VersionSpecifiers::from_str(rt.alloc(), ">=1.16, <2.0")?;
//!     for text in ["1.19", "2.0.dev1", "1.19.x"] {
//!         match Version::from_str(rt.alloc(), text) {
//!             Ok(version) => {
//!                 let answer = wanted.contains(rt.alloc(), &version)?;
//!                 println!(rt; "{version}: {answer}")?;
//!             }
//!             Err(error) => println!(rt; "{error}")?,
//!         }
//!     }
//!     Ok(())
//! }
//! ```
//!
//! A call that may allocate takes an allocator and returns a `Result`; nothing ends the process.
//!
//! What there is, in the order in which to read it:
//!
//! 1. versions: `Version`, `VersionPattern`, their parts, changes and errors, all of `pep440_version` but its modules `key` and
//!    `laws`;
//! 2. `Operator` and `VersionSpecifier`: made of parts or parsed, `contains` and `matches_literally`;
//! 3. `VersionSpecifiers`, the list: parsed, `contains` and `matches_literally`;
//! 4. why a string is no operator, specifier or list: `OperatorParseError`, `VersionSpecifierBuildError`,
//!    `VersionSpecifierParseError`, `VersionSpecifiersParseError`, each with its kind;
//! 5. ranges: `specifier_to_range` by the order of versions and `release_specifier_to_range` by releases, each also of a list;
//!    `RangeLines` prints a range; `RangeError`; all of `pep440_ranges`;
//! 6. specifiers from bounds: `from_lower_bound`, `from_upper_bound` and `from_release_only_bounds` of specifiers and lists,
//!    `ReleaseBounds`, `BoundError`;
//! 7. JSON strings: `version_to_json` and `version_from_json`, `to_json` and `from_json` of specifiers and lists,
//!    `JsonError`;
//! 8. `laws`: what is proved of all of these together.
#![tactic(auto)]

mod bounds;
mod json;
pub mod laws;
mod list;
mod range;
mod specifier;

pub use bounds::error::BoundError;
pub use bounds::release_bounds::ReleaseBounds;
pub use json::error::JsonError;
pub use json::{version_from_json, version_to_json};
pub use list::VersionSpecifiers;
pub use list::error::{SpecifiersErrorKind, VersionSpecifiersParseError};
pub use pep440_ranges::{Ranges, Segments};
pub use pep440_version::{
    Change, ChangeError, ErrorKind, LocalSegment, PatternErrorKind, Prerelease, PrereleaseKind,
    Version, VersionParseError, VersionPattern, VersionPatternParseError, WithSentinels,
    cmp_releases, cmp_without_local, min_version, write_local_segments,
};
pub use range::error::RangeError;
pub use range::intersection::intersect_all;
pub use range::lines::RangeLines;
pub use range::list::{release_specifiers_to_ranges, specifiers_to_ranges};
pub use range::release_only::release_specifier_to_range;
pub use range::whole_order::specifier_to_range;
pub use specifier::VersionSpecifier;
pub use specifier::error::{
    BuildErrorKind, OperatorErrorKind, OperatorParseError, ParseErrorKind,
    VersionSpecifierBuildError, VersionSpecifierParseError,
};
pub use specifier::operator::Operator;
