//! The run of a scene.

ghost use Rattle.std.specs.Prelude.{◌≡◌, ◌<◌, length, IfOk, IfErr, IfSome};
ghost use Rattle.fixed_motion.specs.Rules.{IsChecked};
ghost use Rattle.event_rules.specs.Run.{IsNext, IsValidState, ComesTo, effect, spots_of};
ghost use Rattle.event_rules.specs.declared.outcome.Outcome.TheVariants.{Done};
ghost use Rattle.event_rules.specs.Tellings.{AwaitsRun, RunTold, RunCutShort, RunDone, StepsCutShort, CountsRun, bare_scene};

use crate::search::next;
use event_rules::{Change, FinalState, Limit, Listener, Outcome, RunFault, Spot, apply};
use event_stamps::{Kind, Stamp};
use fixed_motion::{Disk, Rules, Scene};
use std::alloc::{AllocError, Global};

// The change of the next event, or the limit at which it fails.
fn run_event(rules: &Rules, disks: &[Disk], stamp: &Stamp) -> Result<Change, Limit>
    requires checked { IsChecked rules.now }
    requires valid { IsValidState rules.now disks.now }
    requires next { IsNext rules.now disks.now stamp.now }
    ensures { ComesTo rules.now disks.now stamp.now result }
{
    let first = &disks[stamp.first as usize];
    match stamp.kind {
        Kind::Pair => apply(rules, stamp, first, Some(&disks[stamp.second as usize])),
        _ => apply(rules, stamp, first, None),
    }
}

// Puts the new records of a change in their places.
fn put(disks: &mut Vec<Disk>, change: &Change)
    requires first { change.now.stamp.first < length disks.old.items }
    requires second { IfSome change.now.second (λ _. change.now.stamp.second < length disks.old.items) }
    ensures { disks.new.items ≡ effect disks.old.items change.now }
{
    disks[change.stamp.first as usize] = change.first;
    if let Some(second) = change.second {
        disks[change.stamp.second as usize] = second;
    }
}

// The outcome of a run that comes to its last tick: the spots of all disks then.
fn done(alloc: Global, rules: &Rules, disks: &[Disk]) -> Result<Outcome, AllocError>
    requires checked { IsChecked rules.now }
    requires valid { IsValidState rules.now disks.now }
    ensures { IfOk result (λ outcome. outcome ≡ Done (spots_of rules.now.end disks.now)) }
{
    let mut spots = Vec::new(alloc);
    for disk in disks {
        let centre = disk.centre_at(rules, rules.end);
        spots.push(Spot {
            x: centre.x,
            y: centre.y,
            vx: disk.vx,
            vy: disk.vy,
        })?;
    }
    Ok(Outcome::Done(FinalState::new(spots)))
}

/// Runs a scene, and tells each change in the order of the stamps.
///
/// # Errors
/// The listener refused a change, and its count of refusals rose; or out of memory.
pub fn simulate_plain<L: Listener>(
    alloc: Global,
    scene: &Scene,
    listener: &mut L,
) -> Result<Outcome, RunFault>
    requires awaited { AwaitsRun L.after L.awaits scene.now (L.meaning listener.old) }
    ensures run { IfOk result (λ outcome.
        RunTold L.after scene.now outcome (L.meaning listener.old) (L.meaning listener.new)) }
    ensures cut_short { IfErr result (λ fault.
        RunCutShort L.after L.torn scene.now fault
        (L.meaning listener.old) (L.meaning listener.new)) }
    ensures counts { CountsRun (L.faults listener.old) (L.faults listener.new) result }
{
    let mut disks = Vec::from_slice(alloc, &scene.disks)?;
    run(alloc, &scene.rules, &mut disks, listener)
}

// Runs these disks. They are lent, so that no way out of the function has to drop them. Nothing else in a scene makes a
// difference here.
fn run<L: Listener>(
    alloc: Global,
    rules: &Rules,
    disks: &mut Vec<Disk>,
    listener: &mut L,
) -> Result<Outcome, RunFault>
    requires checked { IsChecked rules.now }
    requires valid { IsValidState rules.now disks.old.items }
    requires awaited { AwaitsRun L.after L.awaits (bare_scene rules.now disks.old.items)
        (L.meaning listener.old) }
    ensures run { IfOk result (λ outcome.
        RunDone L.after (bare_scene rules.now disks.old.items) outcome
        (L.meaning listener.old) (L.meaning listener.new)) }
    ensures cut_short { IfErr result (λ fault.
        StepsCutShort L.after L.torn (bare_scene rules.now disks.old.items) fault
        (L.meaning listener.old) (L.meaning listener.new)) }
    ensures counts { CountsRun (L.faults listener.old) (L.faults listener.new) result }
{
    let mut upcoming = next(rules, disks);
    while let Some(stamp) = upcoming {
        let change = match run_event(rules, disks, &stamp) {
            Ok(change) => change,
            Err(limit) => return Ok(Outcome::Limit(limit)),
        };
        listener.event(&change)?;
        put(disks, &change);
        upcoming = next(rules, disks);
    }
    Ok(done(alloc, rules, disks)?)
}
