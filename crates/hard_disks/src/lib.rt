//! The simulator `hard_disks`, of hard disks of equal mass in a walled box: from the words that the program is called
//! with and the bytes of a scene to the bytes of the output.
//!
//! The program itself, `hard_disks_program`, calls [`run_process`], which is [`run_over`] over standard input and output,
//! and adds nothing to what is written. What each mode writes stands in `program_modes`.
#![tactic(auto)]

mod calls;
mod gathering;
mod process;

pub use calls::{refuse_words, top, top_watched};
pub use gathering::top_gathered;
pub use process::{Terminals, run_over, run_process, run_process_over, run_streams};
pub use program_modes::{
    AuditFault, Cut, Line, Status, Verdict, any_two_runs_agree, audit, audits_accept,
    audits_keep_refusals, audits_refuse, checks_stay, cut_at, cuts_add_up, cuts_resume, one_output,
    output_depends_on_alone, prefixes_may_be_asked,
};
