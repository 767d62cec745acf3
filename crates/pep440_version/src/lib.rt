//! Versions of PEP 440: parsing, normalized forms, order, hash and changes; and version patterns, as `1.2.*`.
//!
//! ```rust
//! use pep440_version::Version;
//!
//! let version = Version::from_str(alloc, "v1.0-rc2")?;
//! assert!(rt; version < Version::new(alloc, &[1])?);
//! println!(rt; "{version}")?; // 1.0rc2
//! ```
//!
//! A call whose documentation does not mention allocation never allocates and always succeeds. `clone` allocates,
//! unless the version is packed (see `Version`). If an allocation fails, a call returns `AllocError`, or the
//! `OutOfMemory` of its own error, and its arguments are unchanged.
//!
//! The modules in the order in which to read them:
//!
//! - `version`, `prerelease`, `segment`: a version and its parts;
//! - `parse`, `pattern`, `error`, `error_text`: strings, and why they are rejected;
//! - `print`, `sentinels`: the normalized form, and what no string has;
//! - `key`, `order`, `hash`: comparing versions;
//! - `setters`, `change`, `change_word`: changing one part, or several; changes as words, as `post=2`;
//! - `word`, `packed`, `release`, `unpacked`: how a version is stored;
//! - `laws`: what is proved of strings, words and orders together.
#![tactic(auto)]

mod change;
mod change_word;
mod error;
mod error_text;
mod hash;
pub mod key;
pub mod laws;
mod order;
mod packed;
mod parse;
mod pattern;
mod prerelease;
mod print;
mod release;
mod segment;
mod sentinels;
mod setters;
mod unpacked;
mod version;
mod word;

pub use change::{Change, ChangeError};
pub use change_word::{ChangeWordError, parse_change};
pub use error::{ErrorKind, PatternErrorKind, VersionParseError, VersionPatternParseError};
pub use order::{cmp_releases, cmp_without_local};
pub use pattern::VersionPattern;
pub use prerelease::{Prerelease, PrereleaseKind};
pub use print::write_local_segments;
pub use release::Release;
pub use segment::LocalSegment;
pub use sentinels::WithSentinels;
pub use version::{Version, min_version};
