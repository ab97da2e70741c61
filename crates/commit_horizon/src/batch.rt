//! The actions that a commit made final.

ghost use Rattle.std.specs.Prelude.{◌≡◌, List};
ghost use Rattle.region_view.specs.declared.action.Action.{Action};

use region_view::Action;
use std::marker::Model;

/// The actions of a commit, in the order of their stamps.
#[derive(Drop)]
pub struct Batch {
    pub(crate) actions: Vec<Action>,
}

impl Model for Batch {
    ghost Value = { List Action };

    ghost view = { λ s. s.actions.items };
}

impl Batch {
    /// The actions, in order.
    pub fn as_slice(&self) -> &[Action]
        ensures { result.now ≡ self.now }
    {
        &self.actions
    }
}
