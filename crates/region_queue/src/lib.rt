//! The next event of a region in its view, kept while disks change: the event queue of a logical process, as the
//! literature on parallel simulation calls it.
//!
//! Each disk has one key, the least native candidate that names it, as of when the key was last taken. A candidate may
//! be missing from the key of one of its two disks, never from both. The key of a disk whose partner has changed since
//! isn't a candidate any more; it is left until it is the least of all, which is early enough, since no candidate is
//! before the least key.
//!
//! Beside its key a disk has a bound for its pairs. It keeps the bound when it comes to another cell: its pairs with
//! disks that are beside both cells haven't changed, so only the others are looked for.
//!
//! After a collision or a crossing keys are found as codes of 8 bytes, which keys have whose ticks are below 2^27 and
//! whose rounds are below 8. What has no code is found as a packed key, by an exact look around the disk.
//!
//! - **A contract sees** a [`Queue`] as the view that it stands for, and nothing else (`StandsFor`).
//! - **Proved**: [`Queue::least`] answers the least native candidate of that view, or that there is none. After a change the
//!   queue stands for the new view; each call says for which changes ([`Queue::touched`], [`Queue::struck`],
//!   [`Queue::crossed`], [`Queue::take_back`]).
//! - **Not claimed**: how often keys are found anew, and which way: codes and lists of cells only make it quick.
//! - **Cost**: the queue has most of a step: some 10 other disks are tested for each event, of which less than two may
//!   hit. `finder.rt` has these tests, `both.rt` those of two disks after a collision.
#![tactic(auto)]

mod both;
mod finder;
mod keys;
mod listing;
mod parts;
mod queue;

pub use queue::Queue;
