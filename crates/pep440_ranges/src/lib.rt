//! Sets of values of an ordered type, each stored as a list of segments.
//!
//! A segment is a pair of bounds, a start and an end, each of them included, excluded or unbounded. Each segment of a
//! range is valid: its start is below its end, or both are the same included value. It is apart from the next: its
//! end is below the next start, or both are the same excluded value. A value is in the range if it lies in one of the
//! segments.
//!
//! Values need only `Ord` and `Clone`. So a range cannot know whether any value lies between two bounds: no whole
//! number is above 1 and below 2, and that segment is kept all the same.
//!
//! A call fails only if an allocation fails.
//!
//! In reading order: `ranges`, the calls; `segments`, what a range holds; `bound_order`, what is asked of bounds; `gaps`, for the
//! complement; and `merge`, for the intersection.
#![tactic(auto)]

mod bound_order;
mod gaps;
mod merge;
mod ranges;
mod segment_search;
mod segments;

pub use crate::ranges::Ranges;
pub use crate::segments::Segments;
