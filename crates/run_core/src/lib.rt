//! The run over all regions: they hear each other, and what they did before the commit horizon is committed.
//!
//! - **A contract sees** a burst as anything that is lent the regions and gives back as many ([`RunBurst`]), and the
//!   listener as told a list of changes.
//! - **Proved**: [`simulate_by`] tells exactly the changes of the scene's run, in order, and answers its outcome, for
//!   every burst and every number of regions: so for every order of threads. If memory runs out or the listener refuses
//!   one, a prefix was told. It works in at most one burst more than its cell run has actions: each commit makes one
//!   final at least, if need be by a step of the region where the least stamp is due. A limit ends the run only as the
//!   next event of the whole, never on a region's word alone.
//! - **Not claimed**: how many actions a burst brings. A burst that does nothing is right, and slow.
//! - **Only tested**: bursts that move, lose and replace regions.
#![tactic(auto)]

mod advance_untold;
mod answers;
mod counted;
mod laws;
mod one_event;
mod one_state;
mod pairs;
mod passes;
mod playing;
mod progress;
mod run_burst;
mod scripted;
mod simulation;
mod telling;

pub use answers::Advance;
pub use counted::Counted;
pub use laws::{
    advances_end, advances_stay_at_floors, few_advances, hearings_keep_bounds,
    interleavings_tell_the_run, limits_end_the_run, passes_end, passes_end_in_agreement,
};
pub use playing::{Answer, CoreStep, Played, play};
pub use progress::advance;
pub use run_burst::{AnyRun, RunBurst};
pub use scripted::Scripted;
pub use simulation::{simulate, simulate_by};
pub use telling::Telling;
