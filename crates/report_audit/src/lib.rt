//! Whether a claimed report is the report.
//!
//! [`Parted`] splits one source in two: the bytes before the first line that is exactly `===`, which is the parting
//! line, and those after it. [`Comparing`] is a sink that compares a report with a claimed one while it is told, and
//! finds the first line at which they differ.
//!
//! A line includes its newline, and a last part without one is a line too. So the parting line may be the last bytes of
//! the source, and `===` before a carriage return is no parting line.
#![tactic(auto)]

mod agreeing;
mod ahead;
mod comparing;
mod judging;
mod laws;
mod lines;
mod parted;
mod place;
mod ready;
mod told;
mod verdict;

pub use comparing::Comparing;
pub use laws::{
    each_has_a_verdict, joins_part, one_verdict, parts_are_lines, turned_leaves_nothing,
};
pub use lines::{EQUALS, NEWLINE};
pub use parted::{Parted, Unread};
pub use verdict::{Line, NoVerdict, Verdict};
