//! The engines that run a scene.

ghost use Rattle.std.specs.Prelude.{◌≡◌, ◌≤◌};
ghost use Rattle.cell_grid.specs.declared.grid.TheConstants.{MAX_REGIONS};
ghost use Rattle.cell_grid.specs.Grid.{IsAsked};
ghost use Rattle.event_rules.specs.Tellings.{AwaitsRun};
ghost use Rattle.cell_sequence.specs.State.{opening_state};
ghost use Rattle.local_run.specs.Bursts.{AreTogether};
ghost use Rattle.run_floors.specs.Regions.{StandOfRun};
ghost use Rattle.commit_horizon.specs.TellingOn.{AwaitsUntold, TellsOn};
ghost use Rattle.command_words.specs.Ranges.{AreInRange};
ghost use Rattle.program_modes.specs.Runs.{TellsRun};
ghost use Rattle.program_modes.specs.Shows.{GivesBack};

use crate::crew::Crew;
use crate::over_burst::{NoBurst, OverBurst};
use all_pairs::simulate_plain;
use command_words::{BurstKind, Mode, Settings};
use event_rules::{Listener, Outcome, RunFault};
use fixed_motion::Scene;
use region_core::{Burst, Gate, Idle, OpenGate, Region};
use region_locks::Origin;
use region_table::burst_in_table;
use region_workers::{Bell, ByRunCall, RunCall};
use run_core::{Telling, simulate, simulate_by};
use std::alloc::{AllocError, Global};
use std::marker::Brand;
use std::thread::Threads;

// The first worker is the caller's thread; the others are helpers.
const FIRST_HELPER: u32 = 1;

// How a run ends, or why it broke off.
type Ran = Result<Outcome, RunFault>;

// The regions after the work on them.
type Worked = Result<Vec<Region>, AllocError>;

/// An engine: it finds the changes of a scene's run.
#[derive(Drop)]
pub enum Engine<'g, G: Gate, B: Burst<Idle, ()>> {
    /// The reference engine, which looks at all pairs of disks.
    AllPairs,
    /// The engine with regions, on which workers work between two commits.
    Regions(OverRegions<'g, G>),
    /// The same with a burst that the caller brings.
    Burst(OverBurst<'g, B>),
}

/// The number of regions, and the workers on them.
#[derive(Drop)]
pub struct OverRegions<'g, G: Gate> {
    // The number of regions that are asked for, 1 to MAX_REGIONS.
    count: u32,
    crew: Crew<'g, G>,
    ghost some_regions: { 1 ≤ count },
    ghost few_regions: { count ≤ MAX_REGIONS },
}

impl<'g, G: Gate> Engine<'g, G, NoBurst> {
    /// The engine of the settings, whose workers pass the gate before each turn.
    pub fn new(settings: &Settings, gate: &'g G) -> Engine<'g, G, NoBurst>
        requires { AreInRange settings.now }
    {
        match settings.mode {
            Mode::Plain => Engine::AllPairs,
            _ => Engine::Regions(OverRegions {
                count: settings.regions,
                crew: Crew::new(settings, gate),
            }),
        }
    }
}

impl<'b, B: Burst<Idle, ()>> Engine<'b, OpenGate, B> {
    /// The engine over `regions` regions, with a burst that the caller brings.
    pub fn over(regions: u32, burst: &'b mut B) -> Engine<'b, OpenGate, B>
        requires { IsAsked regions }
    {
        Engine::Burst(OverBurst { regions, burst })
    }
}

impl<'g, G: Gate, B: Burst<Idle, ()>> Engine<'g, G, B> {
    /// Runs a scene, and tells each change in the order of the stamps.
    ///
    /// # Errors
    /// The listener refused a change, and its count of refusals rose; or out of memory.
    pub fn run<R: Threads + Sync, L: Listener>(
        &mut self,
        rt: &R,
        alloc: Global,
        scene: &Scene,
        listener: &mut L,
    ) -> Result<Outcome, RunFault>
        requires awaited { AwaitsRun L.after L.awaits scene.now (L.meaning listener.old) }
        ensures { TellsRun L.after L.torn L.meaning L.faults scene.now listener.old listener.new result }
    {
        match self {
            Engine::AllPairs => simulate_plain(alloc, scene, listener),
            // Here the proof picks the state with which the run begins, for which the type stands.
            Engine::Regions(over) => over.run_of::<Brand, R, L>(rt, alloc, scene, listener),
            Engine::Burst(over) => simulate(rt, alloc, scene, over.regions, over, listener),
        }
    }
}

impl<'g, G: Gate> OverRegions<'g, G> {
    // Runs a scene over the regions, on which the crew works between two commits. A type stands for the run. The helpers
    // live as long as the run.
    fn run_of<O: Origin + Send + Sync, R: Threads + Sync, L: Listener>(
        &self,
        rt: &R,
        alloc: Global,
        scene: &Scene,
        listener: &mut L,
    ) -> Ran
        requires of { O.opening ≡ opening_state scene.now self.now.count }
        requires awaited { AwaitsRun L.after L.awaits scene.now (L.meaning listener.old) }
        ensures { TellsRun L.after L.torn L.meaning L.faults scene.now listener.old listener.new result }
    {
        // The clause of this call says that the scene is valid, so it has a run.
        let _count = scene.count();
        let workers = &self.crew.workers;
        // The workers on a table are threads of each burst's own, so the bell calls none.
        let threads = match self.crew.burst {
            BurstKind::Locks => workers.threads(self.count),
            BurstKind::Table => 1,
        };
        let Ok(bell) = Bell::<O>::new(alloc, threads) else {
            return Err(RunFault::NoMemory);
        };
        workers.around(
            rt,
            &bell,
            FIRST_HELPER,
            &mut || -> Ran
                requires of { O.opening ≡ opening_state scene.now self.now.count }
                requires awaited { AwaitsRun L.after L.awaits scene.now (L.meaning listener.now) }
                ensures { TellsRun L.after L.torn L.meaning L.faults scene.entry.now
                    listener.entry.now listener.exit.now result }
            { self.run_by_crew(rt, alloc, &bell, scene, listener) },
        )
    }

    // The same with the helpers whom the bell calls.
    fn run_by_crew<O: Origin, R: Threads + Sync, L: Listener>(
        &self,
        rt: &R,
        alloc: Global,
        bell: &Bell<O>,
        scene: &Scene,
        listener: &mut L,
    ) -> Ran
        requires of { O.opening ≡ opening_state scene.now self.now.count }
        requires awaited { AwaitsRun L.after L.awaits scene.now (L.meaning listener.old) }
        ensures { TellsRun L.after L.torn L.meaning L.faults scene.now listener.old listener.new result }
    {
        self.run_by_call::<O, R, _, L>(
            rt,
            alloc,
            |regions: Vec<Region>, telling: &mut Telling, lent: &mut L| -> Worked
                requires together { AreTogether regions.items }
                requires stand { StandOfRun O.opening regions.items }
                requires awaited { AwaitsUntold L.after L.awaits telling.old.untold telling.old.fault
                    (L.meaning lent.old) }
                ensures given { GivesBack regions.items result }
                ensures beside { TellsOn L.after L.torn
                    telling.old.untold telling.old.fault (L.meaning lent.old) (L.faults lent.old)
                    telling.new.untold telling.new.fault (L.meaning lent.new) (L.faults lent.new) }
            {
                match self.crew.burst {
                    BurstKind::Locks => self
                        .crew
                        .workers
                        .burst(bell, alloc, regions, telling, lent),
                    // Here nothing is told beside.
                    BurstKind::Table => burst_in_table(&self.crew.workers, rt, alloc, regions),
                }
            },
            scene,
            listener,
        )
    }

    // The same by a call that works on the regions of the run.
    fn run_by_call<O: Origin, R: Threads + Sync, C: RunCall<O, Telling, L> + Drop, L: Listener>(
        &self,
        rt: &R,
        alloc: Global,
        call: C,
        scene: &Scene,
        listener: &mut L,
    ) -> Ran
        requires keeping { C.keeping call }
        requires of { O.opening ≡ opening_state scene.now self.now.count }
        requires awaited { AwaitsRun L.after L.awaits scene.now (L.meaning listener.old) }
        ensures { TellsRun L.after L.torn L.meaning L.faults scene.now listener.old listener.new result }
    {
        let threads = self.crew.workers.threads(self.count);
        let mut burst = ByRunCall::<O, Telling, L, C>::new(call, threads);
        simulate_by(rt, alloc, scene, self.count, &mut burst, listener)
    }
}
