//! What the samples of a run tell: of which states they are, and what its sums have to do with energy and momentum.
#![tactic(auto)]

mod laws;

pub use laws::{
    samples_are_of_ticks, sides_take_momentum, sides_tell_the_virial, squares_are_energy,
    sums_never_stop, sums_of_parts_add_up, virial_theorem, virials_are_pushes,
};
