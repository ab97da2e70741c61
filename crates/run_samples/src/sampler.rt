//! A listener that writes samples.

ghost use base.Fml.{GName};
ghost use Rattle.std.specs.Prelude.{◌≡◌, true, Some, OnOk, OnErr};
ghost use Rattle.report_ports.specs.Ports.{MayTake};
ghost use Rattle.event_rules.specs.Outcomes.{IsOutcomeOf};
ghost use Rattle.collision_report.specs.Meaning.{IsSceneOf, takes_part};
ghost use Rattle.collision_report.specs.Writes.{Writes};
ghost use Rattle.run_samples.specs.Meaning.{LentSamples, sampled_so_far, due_samples, sampled_text, table_with, sums_with, sampled_end_text, sampled_on_loan, IsSampleTornOnLoan, IsSampleAwaited};
ghost use Rattle.collision_sums.specs.Sums.{no_sums};
ghost use Rattle.run_samples.specs.Samples.{summed};

use crate::Sample;
use crate::blocks::{write_due_sums, write_last};
use collision_report::{Format, StateTable, last_tick, write_due, write_end};
use collision_sums::Sums;
use event_rules::{Change, Deaf, Listener, Outcome};
use fixed_motion::Scene;
use report_ports::Sink;

/// A listener that writes samples of a run to a sink, each line as one piece.
///
/// The table that is lent to it tells it the records of all disks, so it knows each velocity before a collision. It takes
/// no memory. Its sums and counts stop at 2^128 - 1.
///
/// It awaits only the change of the next event, and only if the sink may take the samples that are due for it.
#[derive(Drop)]
pub struct Sampler<'k, K: Sink> {
    sink: &'k mut K,
    table: &'k mut StateTable,
    sample: Sample,
    sums: Sums,
    walls: u128,
    pairs: u128,
}

impl<'k, K: Sink> Sampler<'k, K> {
    /// A listener that has sampled nothing. The sink is as it was.
    ///
    /// For a run that begins, the table is that of the scene, just made by [`StateTable::new`].
    pub fn new(table: &'k mut StateTable, sink: &'k mut K, sample: Sample) -> Sampler<'k, K>
        ensures loan { result.sink.ghost_name ≡ sink.entry.ghost_name }
        ensures sink { result.sink.now ≡ sink.entry.now }
        ensures meaning { sampled_so_far result.sample result.table.now result.sums (K.taken result.sink.now) result.walls result.pairs
            ≡ sampled_so_far sample table.entry.now no_sums (K.taken sink.entry.now) 0 0 }
    {
        Sampler {
            sink,
            table,
            sample,
            sums: Sums::none(),
            walls: 0,
            pairs: 0,
        }
    }

    /// Writes the samples that are left, and the end, which the sink may take.
    ///
    /// # Errors
    /// The sink failed, and a prefix of them was written.
    pub fn end(&mut self, scene: &Scene, outcome: &Outcome) -> Result<(), Deaf>
        requires outcome { IsOutcomeOf scene.now outcome.now }
        requires scene { IsSceneOf self.old.table.now scene.now }
        requires allowed { MayTake (K.allows (K.lasting self.old.sink.now)) (K.taken self.old.sink.now)
            (sampled_end_text (sampled_so_far self.old.sample self.old.table.now self.old.sums (K.taken self.old.sink.now)
            self.old.walls self.old.pairs) scene.now outcome.now) }
        ensures loan { self.new.sink.ghost_name ≡ self.old.sink.ghost_name }
        ensures writes { Writes K.taken K.faults K.lasting self.old.sink.now self.new.sink.now result
            (sampled_end_text (sampled_so_far self.old.sample self.old.table.now self.old.sums (K.taken self.old.sink.now)
            self.old.walls self.old.pairs) scene.now outcome.now) }
    {
        let (sample, walls, pairs) = (self.sample, self.walls, self.pairs);
        let tick = last_tick(scene, outcome);
        write_samples(self.sink, sample, self.table, &self.sums, tick)?;
        match sample {
            Sample::States => write_end(self.sink, Format::Lines, scene, outcome, walls, pairs),
            Sample::Sums(margin) => {
                write_end(self.sink, Format::Summary, scene, outcome, walls, pairs)?;
                write_last(self.sink, scene, outcome, margin, &self.sums)
            }
        }
    }
}

// Writes the samples that are due up to a tick.
fn write_samples<K: Sink>(
    sink: &mut K,
    sample: Sample,
    table: &StateTable,
    sums: &Sums,
    tick: u64,
) -> Result<(), Deaf>
    requires { MayTake (K.allows (K.lasting sink.old)) (K.taken sink.old) (due_samples sample table.now sums.now tick) }
    ensures { Writes K.taken K.faults K.lasting sink.old sink.new result (due_samples sample table.now sums.now tick) }
{
    match sample {
        Sample::States => write_due(sink, table, tick),
        Sample::Sums(margin) => write_due_sums(sink, table, margin, sums, tick),
    }
}

// Writes what is due for a change, adds it to the sums, and puts its records into the table.
fn sample_change<K: Sink>(
    sink: &mut K,
    sample: Sample,
    table: &mut StateTable,
    sums: &mut Sums,
    change: &Change,
) -> Result<(), Deaf>
    requires { MayTake (K.allows (K.lasting sink.old)) (K.taken sink.old) (sampled_text sample table.old sums.old change.now) }
    ensures writes { Writes K.taken K.faults K.lasting sink.old sink.new result
        (sampled_text sample table.old sums.old change.now) }
    ensures table { OnOk result (table.new ≡ table_with table.old change.now) }
    ensures sums { OnOk result (sums.new ≡ sums_with sample table.old sums.old change.now) }
    ensures kept { OnErr result (sums.new ≡ sums.old) }
{
    if !table.takes_part(change) {
        return Ok(());
    }
    write_samples(sink, sample, table, sums, change.stamp.tick)?;
    add_change(sample, table, sums, change);
    table.put(change);
    Ok(())
}

// Adds a change of disks in the table to the sums, if they are asked for.
fn add_change(sample: Sample, table: &StateTable, sums: &mut Sums, change: &Change)
    requires { takes_part table.now change.now ≡ true }
    ensures { sums.new ≡ summed sample table.now.rules table.now.disks sums.old change.now }
{
    if let Sample::Sums(margin) = sample {
        sums.add(table.rules(), margin, table.disks(), change);
    }
}

impl<'k, K: Sink> Listener for Sampler<'k, K> {
    ghost Meaning = { LentSamples (GName × K.Lasting) };

    ghost after = { sampled_on_loan };

    ghost torn = { IsSampleTornOnLoan };

    ghost awaits = { IsSampleAwaited (λ loan. K.allows loan.1) };

    ghost meaning = { λ r. Some (
      (r.sink.ghost_name, K.lasting r.sink.now),
      sampled_so_far r.sample r.table.now r.sums (K.taken r.sink.now) r.walls r.pairs,
    ) };

    ghost faults = { λ r. K.faults r.sink.now };

    /// How many pieces the sink refused, at most `u64::MAX`.
    fn faults(&self) -> u64 {
        self.sink.faults()
    }

    /// Writes the samples that are due up to the change's tick, adds the change to them, puts its records into the table, and
    /// counts it.
    fn event(&mut self, change: &Change) -> Result<(), Deaf> {
        let sample = self.sample;
        sample_change(self.sink, sample, self.table, &mut self.sums, change)?;
        if change.second.is_some() {
            self.pairs = self.pairs.saturating_add(1);
        } else {
            self.walls = self.walls.saturating_add(1);
        }
        Ok(())
    }
}
