//! Scenes, and numbers for scenes, that the tests of several crates share.
//!
//! A text of a scene is what the program reads; nothing here is used by the program.
#![tactic(auto)]

mod drawn;
mod numbers;
mod texts;

pub use drawn::{crowd, generated, wide};
pub use numbers::DrawnNumbers;
pub use texts::{
    BOUNCING, FOUR_IN_A_ROW, LONG, MISLED, ROLLED_BACK, SLOW_CROSSING, USUAL, scene, scene_of,
};
