//! The commands of the program `pyver` that read words, versions and lines: what each prints, as a function of its operands and options.
//!
//! In reading order: `Answer`; `compare`, `match_versions`, `show_versions`, `bump_version`, `find_common` and `find_extent`, which read nothing; `Files`,
//! `filter_sources`, and `answer_input` for commands that read all lines before they write; and `laws`.
#![tactic(auto)]

mod allowed;
mod answer;
mod bump;
mod bump_input;
mod common_range;
mod comparison;
mod extent;
mod filter;
mod filter_input;
pub mod filter_sources;
pub mod laws;
mod newest;
mod newest_lines;
mod part;
mod prerelease_rule;
mod range_json;
mod reading;
mod show;
mod sort;
mod sources;
mod specifiers;
mod version_json;
mod whole_input;
mod word_number;

pub use allowed::{MatchOptions, match_versions};
pub use answer::Answer;
pub use bump::{BumpPart, bump_version, parse_bump_part};
pub use bump_input::BumpRule;
pub use common_range::find_common;
pub use comparison::{Comparison, compare, parse_comparison};
pub use extent::find_extent;
pub use filter::{FilterOptions, FilterRule, Selection};
pub use newest::{NewestOptions, NewestRule};
pub use part::{VersionPart, parse_part};
pub use prerelease_rule::{Prereleases, takes_prereleases};
pub use show::{ShowFormat, show_versions};
pub use sort::SortOptions;
pub use sources::files::{Files, find_output, report_output};
pub use sources::invalid_lines::{InvalidLines, parse_invalid_lines};
pub use sources::line_options::LineOptions;
pub use sources::open_failure::OpenFailure;
pub use sources::origin::is_input;
pub use sources::source_texts::read_by_name;
pub use sources::stream::RunFailure;
pub use specifiers::{SpecifiersReading, parse_specifiers, report_list_fault};
pub use whole_input::{LinesQuestion, Question, answer_input};
pub use word_number::parse_number;
