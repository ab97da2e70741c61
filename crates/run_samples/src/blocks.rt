//! The sums at some ticks, written to a sink.

ghost use Rattle.std.specs.Prelude.{◌≡◌, ◌+◌, ◌≤◌, ◌^◌, ◌++◌, length};
ghost use Rattle.report_ports.specs.Ports.{MayTake};
ghost use Rattle.fixed_motion.specs.declared.rules.TheConstants.{MAX_END};
ghost use Rattle.fixed_motion.specs.Rules.{IsChecked};
ghost use Rattle.fixed_motion.specs.Motion.{IsValidDisk};
ghost use Rattle.event_rules.specs.Outcomes.{IsOutcomeOf};
ghost use Rattle.event_rules.specs.Run.{spot_of, spots_of};
ghost use Rattle.event_rules.specs.Conservation.{spot_velocity};
ghost use Rattle.plane_vectors.specs.Vectors.{IsWithin};
ghost use Rattle.collision_report.specs.Bounds.{AllHaveBegun, AreSlow};
ghost use Rattle.collision_report.specs.Writes.{Writes};
ghost use Rattle.run_samples.specs.declared.sample.Sample.TheVariants.{Sums as Summed};
ghost use Rattle.collision_sums.specs.Sums as the;
ghost use Rattle.collision_sums.specs.SumLines.{inside_line, sides_line};
ghost use Rattle.run_samples.specs.Samples.{sample_of, samples_of, last_sums};

use collision_report::{Snapshot, StateTable, give_line, spot_at, squared_speed, write_multiples};
use collision_sums::{Sums, inside_line, is_spot_in_part, sides_line};
use event_rules::{Deaf, Outcome, Spot};
use fixed_motion::{Disk, Rules, Scene};
use plane_vectors::Vector;
use report_ports::Sink;

/// How many disks are in the part, and the sum of their squared speeds.
#[derive(Clone, Copy, Debug, PartialEq, Eq)]
pub(crate) struct Inside {
    pub(crate) disks: u64,
    pub(crate) squares: u64,
}

/// Writes the sums at the ticks after the last one at which they were written, up to a tick.
pub(crate) fn write_due_sums<K: Sink>(
    sink: &mut K,
    table: &StateTable,
    margin: u32,
    sums: &Sums,
    tick: u64,
) -> Result<(), Deaf>
    requires { MayTake (K.allows (K.lasting sink.old)) (K.taken sink.old)
        (samples_of (Summed margin) table.now.rules table.now.every table.now.disks sums.now table.now.shown tick) }
    ensures { Writes K.taken K.faults K.lasting sink.old sink.new result
        (samples_of (Summed margin) table.now.rules table.now.every table.now.disks sums.now table.now.shown tick) }
{
    let Some(every) = table.every() else {
        return Ok(());
    };
    let last = tick.min(table.rules().end.saturating_sub(1));
    let sums = SumsAt {
        rules: table.rules(),
        disks: table.disks(),
        margin,
        sums,
    };
    write_multiples(sink, &sums, every, table.shown() / every, last / every)
}

// The sums over the collisions so far, and the disks that are in the part meanwhile.
#[derive(Drop)]
struct SumsAt<'t> {
    rules: &'t Rules,
    disks: &'t [Disk],
    margin: u32,
    sums: &'t Sums,
}

impl Snapshot for SumsAt<'_> {
    ghost text = { λ s. sample_of (Summed s.margin) s.rules.now s.disks.now s.sums.now };

    ghost stands = { λ s tick. IsChecked s.rules.now × AllHaveBegun s.rules.now tick s.disks.now × (length s.disks.now ≤ 65536) };

    fn write<K: Sink>(&self, sink: &mut K, tick: u64) -> Result<(), Deaf> {
        let inside = inside_at(self.rules, self.disks, self.margin, tick);
        write_lines(sink, tick, inside, self.sums)
    }
}

fn inside_at(rules: &Rules, disks: &[Disk], margin: u32, tick: u64) -> Inside
    requires rules { IsChecked rules.now }
    requires disks { AllHaveBegun rules.now tick disks.now }
    requires count { length disks.now ≤ 65536 }
    requires tick { tick ≤ MAX_END }
    ensures disks { result.disks ≡ the.disks_in rules.now margin (spots_of tick disks.now) }
    ensures squares { result.squares ≡ the.squares_in rules.now margin (spots_of tick disks.now) }
{
    let mut inside = Inside {
        disks: 0,
        squares: 0,
    };
    for disk in disks {
        inside.add(rules, margin, &spot_at(rules, disk, tick));
    }
    inside
}

/// Writes the sums at the end of a run that is done.
pub(crate) fn write_last<K: Sink>(
    sink: &mut K,
    scene: &Scene,
    outcome: &Outcome,
    margin: u32,
    sums: &Sums,
) -> Result<(), Deaf>
    requires outcome { IsOutcomeOf scene.now outcome.now }
    requires allowed { MayTake (K.allows (K.lasting sink.old)) (K.taken sink.old)
        (last_sums scene.now.rules margin sums.now outcome.now) }
    ensures { Writes K.taken K.faults K.lasting sink.old sink.new result
        (last_sums scene.now.rules margin sums.now outcome.now) }
{
    match outcome {
        Outcome::Done(state) => {
            let inside = inside_at_end(&scene.rules, state.as_slice(), margin);
            write_lines(sink, scene.rules.end, inside, sums)
        }
        Outcome::Limit(_) => Ok(()),
    }
}

fn inside_at_end(rules: &Rules, spots: &[Spot], margin: u32) -> Inside
    requires rules { IsChecked rules.now }
    requires slow { AreSlow spot_velocity spots.now }
    ensures disks { result.disks ≡ the.disks_in rules.now margin spots.now }
    ensures squares { result.squares ≡ the.squares_in rules.now margin spots.now }
{
    let mut inside = Inside {
        disks: 0,
        squares: 0,
    };
    for spot in spots {
        inside.add(rules, margin, spot);
    }
    inside
}

impl Inside {
    // Adds a disk at this spot, if it is in the part.
    fn add(&mut self, rules: &Rules, margin: u32, spot: &Spot)
        requires rules { IsChecked rules.now }
        requires slow { IsWithin (2 ^ 20) (spot_velocity spot.now) }
        requires disks { self.old.disks ≤ 2 ^ 62 }
        requires squares { self.old.squares ≤ 2 ^ 62 }
        ensures disks { self.new.disks ≡ self.old.disks + the.disk_in rules.now margin spot.now }
        ensures squares { self.new.squares ≡ self.old.squares + the.square_in rules.now margin spot.now }
        ensures few { self.new.disks ≤ self.old.disks + 1 }
        ensures size { self.new.squares ≤ self.old.squares + 2 ^ 41 }
    {
        if is_spot_in_part(rules, margin, spot) {
            self.disks += 1;
            self.squares += squared_speed(Vector {
                x: spot.vx,
                y: spot.vy,
            });
        }
    }
}

fn write_lines<K: Sink>(sink: &mut K, tick: u64, inside: Inside, sums: &Sums) -> Result<(), Deaf>
    requires { MayTake (K.allows (K.lasting sink.old)) (K.taken sink.old)
        (inside_line tick inside.disks inside.squares sums.now ++ sides_line tick sums.now) }
    ensures { Writes K.taken K.faults K.lasting sink.old sink.new result
        (inside_line tick inside.disks inside.squares sums.now ++ sides_line tick sums.now) }
{
    give_line(sink, &inside_line(tick, inside.disks, inside.squares, sums))?;
    give_line(sink, &sides_line(tick, sums))
}
