//! What each mode of the program does with a scene, and what it writes: the report of a run, its samples, an audit, a
//! check, a cut, a canonical or a made scene.
//!
//! The definitions of the output stand here, and the laws about it. `hard_disks` adds the words, the source of the scene
//! and the process. [`audit`] and [`cut_at`] are for a caller that brings a burst of its own.
#![tactic(auto)]

mod auditing;
mod crew;
mod cut;
mod engines;
mod laws;
mod over_burst;
mod refusals;
mod rest;
mod samples;
mod showing;
mod status;
mod verdicts;

pub use auditing::{AuditFault, audit};
pub use cut::{Cut, cut_at};
pub use engines::{Engine, OverRegions};
pub use laws::{
    any_two_runs_agree, audits_accept, audits_keep_refusals, audits_refuse, checks_stay,
    cuts_add_up, cuts_resume, one_output, output_depends_on_alone, prefixes_may_be_asked,
};
pub use refusals::{bad_words_line, refusal_line};
pub use report_audit::{Line, Verdict};
pub use showing::{show, show_made, write_text};
pub use status::Status;
pub use verdicts::show_audit;
