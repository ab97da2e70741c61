//! The laws of outputs that README names, applied once to the scene of two disks that meet head on. If a law says less of
//! that, a proof here fails.
#![tactic(auto)]

mod audits;
mod beginnings;
mod cuts;

pub use audits::{the_report_is_accepted, wrong_reports_are_refused};
pub use beginnings::no_other_run_begins_otherwise;
pub use cuts::{the_pair_is_cut_at_two, two_cuts_are_one};
