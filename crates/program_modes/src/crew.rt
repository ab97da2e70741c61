//! The workers that the settings ask for.

ghost use Rattle.command_words.specs.Ranges.{AreInRange};

use command_words::{BurstKind, Settings};
use region_core::Gate;
use region_workers::Workers;

/// Workers, and where the regions are while they work.
#[derive(Drop)]
pub struct Crew<'g, G: Gate> {
    pub(crate) workers: Workers<'g, G>,
    pub(crate) burst: BurstKind,
}

impl<'g, G: Gate> Crew<'g, G> {
    /// The workers of the settings, each of which passes the gate before each turn.
    pub fn new(settings: &Settings, gate: &'g G) -> Crew<'g, G>
        requires { AreInRange settings.now }
    {
        let workers = Workers {
            workers: settings.workers,
            turns: settings.turns,
            steps: settings.steps,
            gate,
        };
        Crew {
            workers,
            burst: settings.burst,
        }
    }
}
