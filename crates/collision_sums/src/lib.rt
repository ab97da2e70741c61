//! Sums over the collisions of a run, from which pressure, temperature and the rate of collisions follow.
//!
//! They are over the part of the box that is at least a margin from its sides. They are written as two lines, each a list
//! of fields with one space between them, ended by a newline:
//!
//! - `inside TICK DISKS SQUARES PAIRS VIRIAL`: at the tick, how many disks have their centres in the part, and the sum of
//!   their squared speeds; and of the collisions of two disks before the tick whose middle was in the part, how many there
//!   were, and the sum of r · Δv, with r from the second disk to the first and Δv the first disk's change of velocity;
//! - `sides TICK WALLS LEFT RIGHT BOTTOM TOP`: how many collisions with sides there were before the tick, at least the
//!   margin from the side's ends, and the momentum that each side took in them.
#![tactic(auto)]

mod lines;
mod sums;

pub use lines::{inside_line, sides_line};
pub use sums::{Sums, is_spot_in_part};
