//! Scenes as text, and scenes that are made from a number.
#![tactic(auto)]

mod lattice;
mod laws;
mod text;

pub use lattice::make;
pub use laws::one_scene;
pub use text::{Text, scene_text};
