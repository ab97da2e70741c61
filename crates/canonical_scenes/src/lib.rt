//! The canonical text of a scene states that scene.
#![tactic(auto)]

mod laws;

pub use laws::{canonical_texts_parse, canonical_texts_say};
