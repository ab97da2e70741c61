//! The least of many keys, one for each disk, kept while single keys change.
//!
//! The keys are the leaves of a tournament tree (Knuth, The Art of Computer Programming 3, 5.4.1):
//! each inner node has the least of its four children's keys, and after a change of one key only the
//! nodes above it are played again. Four children fill one line of the cache, and there are half as
//! many levels as with two. `Entries` has a bound beside each key, and keeps both in 16 bytes while they are small.
#![tactic(auto)]

mod code;
mod entries;
mod packed;
mod rank;
mod table;
mod tree;

pub use code::Code;
pub use entries::Entries;
pub use packed::Packed;
