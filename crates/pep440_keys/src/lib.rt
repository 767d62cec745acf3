//! Sort keys: versions as bytes whose order, byte by byte, is the order of the versions, and ranges as intervals of such keys.
//!
//! Two keys are compared as `memcmp` compares them; if one is a prefix of the other, the shorter is less. So a
//! database, a sorted file or an index in another language orders versions by these bytes, without this library; and
//! two keys are the same bytes exactly if the versions are equal. `laws` states this for every parsed version.
//!
//! A key is the parts of a version in turn: epoch, release, stage, post, dev, local. A number is a byte, its base plus the count
//! of the bytes that it needs, and then these, most significant first: so a greater number has more bytes or greater ones. The base is
//! 0 for the epoch, 1 in a release, 2 in a local part, and else 16 times the rank of the part (`pep440_version::key`). A string of a local part
//! is 1, its bytes and 0. Release and local part end in 0, which is below whatever could follow in its place. The key of `1.post2.dev0+ab.7`
//! is 0 of the epoch, 2 1 0 of the release, 80 of the final stage, whose rank is 5, 17 2 of post, 0 of dev, and 1 97 98 0 3 7 0. A key
//! does not parse back: trailing zeros of a release are not in it, since they make no difference to the order.
//!
//! Each segment of a range becomes a half-open interval: a key lies in it if it is at least the low key, if there is one, and below
//! the high key, if there is one. No sort key is a prefix of another, so one zero byte after the key of an excluded start or an
//! included end makes it the low or the high key. So a database can keep sort keys in an index and ask it for the versions of a range.
//!
//! In reading order: `key_bytes`, the key of a version; `number_bytes`, the numbers in it; `sink`, what it is appended to; `parts_key`, the suffix
//! of a key before a version is made; `interval` and `range_intervals`, which put keys around segments; and `laws`.
#![tactic(auto)]

mod interval;
mod key_bytes;
pub mod laws;
mod number_bytes;
mod parts_key;
mod range_intervals;
mod sink;

pub use interval::KeyInterval;
pub use key_bytes::{push_sort_key, sort_key};
pub use number_bytes::push_number;
pub use parts_key::push_suffix_of;
pub use range_intervals::{range_keys, segment_keys};
pub use sink::KeySink;
