//! A sink over another, which holds the bytes that it is given until there are enough.

ghost use Rattle.std.specs.Prelude.{◌≡◌, ◌⊎◌, ◌<◌, ◌≤◌, [], length, is_some};
ghost use Rattle.report_ports.specs.Ports.{Gives, CountsGive, MayTake};
ghost use Rattle.gathered_sink.specs.Gathered.{IsFront, LeavesGiven, LeavesFlushed};

use report_ports::{Given, Sink};
use std::alloc::Global;
use std::marker::Model;
use std::snapshot::Snapshot;

/// A sink that holds pieces, and gives them to another sink together.
///
/// The bytes that it has taken are those that the sink below has taken, and then those that it holds, until that sink
/// fails. From then on it takes nothing, gives nothing, and answers that it failed; the sink below has then taken a
/// front of what was taken here.
///
/// It may take what that sink may take. So what it holds may be given at any time.
#[derive(Drop)]
pub struct GatheringSink<K: Sink> {
    sink: K,
    // The sink below as it was when it had taken all but what is held. It takes no memory, and only says what that sink
    // had taken before it failed.
    seen: Snapshot<K>,
    held: Vec<u8>,
    room: usize,
    // 1 or more if the sink below failed.
    faults: u64,
}

impl<K: Sink> Model for GatheringSink<K> {
    ghost use Rattle.std.specs.Prelude.{◌≡◌, ◌≤◌, length, vec_capacity};
    ghost use Rattle.std.specs.Io.KnownBytes.{append_known};
    ghost use Rattle.report_ports.specs.Ports.{MayTake};
    ghost use Rattle.gathered_sink.specs.Gathered.{GatheredData, IsFront};

    ghost Value = { GatheredData K };

    ghost view = { λ g. record {
      told = append_known (K.taken g.seen.value) g.held.items;
      passed = K.taken g.sink;
      held = g.held.items;
      room = g.room;
      faults = g.faults;
      faults_below = K.faults g.sink;
      below = g.sink;
    } };

    ghost invariant = { λ g. (length g.held.items ≤ g.room)
        × (g.room ≤ vec_capacity g.held)
        × (g.faults ≡ 0 → K.taken g.seen.value ≡ K.taken g.sink)
        × (g.faults ≡ 0 → K.faults g.sink ≡ 0)
        × (1 ≤ g.faults → 1 ≤ K.faults g.sink)
        × IsFront (K.taken g.sink) (append_known (K.taken g.seen.value) g.held.items)
        × (g.faults ≡ 0 → MayTake (K.allows (K.lasting g.sink)) (K.taken g.sink) g.held.items) };
}

impl<K: Sink> GatheringSink<K> {
    /// A gathering sink over the sink, of which no call has failed. It holds up to `room` bytes; with no room each
    /// piece goes to the sink at once. The memory for the room is taken here, and no later call takes any. If there is
    /// none, it has no room.
    pub fn new(alloc: Global, sink: K, room: usize) -> GatheringSink<K>
        requires { K.faults sink ≡ 0 }
        ensures told { result.told ≡ K.taken sink }
        ensures passed { result.passed ≡ K.taken sink }
        ensures held { result.held ≡ [] }
        ensures room { (result.room ≡ room) ⊎ (result.room ≡ 0) }
        ensures faults { result.faults ≡ 0 }
        ensures faults_below { result.faults_below ≡ 0 }
        ensures below { result.below ≡ sink }
    {
        let seen = Snapshot::of(&sink);
        let (held, room) = match Vec::with_capacity(alloc, room) {
            Ok(held) => (held, room),
            Err(_) => (Vec::new(alloc), 0),
        };
        GatheringSink {
            sink,
            seen,
            held,
            room,
            faults: 0,
        }
    }

    /// Gives what is held, if anything is, to the sink below in one piece. A failure, of this call or an earlier one,
    /// is answered again each time.
    pub fn flush(&mut self) -> Given
        ensures told { self.new.told ≡ self.old.told }
        ensures leaves { LeavesFlushed self.old self.new result }
        ensures counts { CountsGive self.old.faults self.new.faults result }
        ensures room { self.new.room ≡ self.old.room }
        ensures lasts { K.lasting self.new.below ≡ K.lasting self.old.below }
    {
        if self.faults > 0 {
            self.faults = self.faults.saturating_add(1);
            return Given::Failed;
        }
        if self.held.is_empty() {
            return Given::All;
        }
        let answer = self.sink.give(self.held.as_slice());
        match answer {
            Given::All => {
                self.held.clear();
                self.seen = Snapshot::of(&self.sink);
            }
            Given::Failed => self.faults = 1,
        }
        answer
    }

    /// The sink below. What is held is lost: flush it before.
    pub fn into_sink(self) -> K
        ensures taken { K.taken result ≡ self.passed }
        ensures faults { K.faults result ≡ self.faults_below }
        ensures front { IsFront (K.taken result) self.told }
        ensures whole { self.faults ≡ 0 → K.faults result ≡ 0 }
        ensures torn { 1 ≤ self.faults → 1 ≤ K.faults result }
    {
        self.sink
    }

    // Gives a piece to the sink below, if nothing is held and it hasn't failed.
    fn pass(&mut self, piece: &[u8]) -> Given
        requires none { self.old.held ≡ [] }
        requires whole { self.old.faults ≡ 0 }
        requires great { self.old.room < length piece.now }
        requires allowed { MayTake (K.allows (K.lasting self.old.below)) self.old.told piece.now }
        ensures gives { Gives self.old.told self.new.told result piece.now }
        ensures knows { is_some self.new.told ≡ is_some self.old.told }
        ensures counts { CountsGive self.old.faults self.new.faults result }
        ensures leaves { LeavesGiven self.old self.new result piece.now }
        ensures room { self.new.room ≡ self.old.room }
        ensures lasts { K.lasting self.new.below ≡ K.lasting self.old.below }
    {
        let answer = self.sink.give(piece);
        self.seen = Snapshot::of(&self.sink);
        if let Given::Failed = answer {
            self.faults = 1;
        }
        answer
    }
}

impl<K: Sink> Sink for GatheringSink<K> {
    ghost Lasting = { K.Lasting };

    ghost lasting = { λ g. K.lasting g.below };

    ghost allows = { K.allows };

    ghost taken = { λ g. g.told };

    ghost faults = { λ g. g.faults };

    /// How many calls failed, at most `u64::MAX`.
    fn faults(&self) -> u64 {
        self.faults
    }

    /// Holds the piece, if it fits beside what is held. Else what is held is given to the sink below first, and then
    /// the piece too, if it is greater than the room.
    fn give(&mut self, piece: &[u8]) -> Given
        requires allowed { MayTake (K.allows (K.lasting self.old.below)) self.old.told piece.now }
        ensures gives { Gives self.old.told self.new.told result piece.now }
        ensures knows { is_some self.new.told ≡ is_some self.old.told }
        ensures counts { CountsGive self.old.faults self.new.faults result }
        ensures leaves { LeavesGiven self.old self.new result piece.now }
        ensures room { self.new.room ≡ self.old.room }
        ensures lasts { K.lasting self.new.below ≡ K.lasting self.old.below }
    {
        if self.faults > 0 {
            self.faults = self.faults.saturating_add(1);
            return Given::Failed;
        }
        if self.room - self.held.len() < piece.len() {
            if let Given::Failed = self.flush() {
                return Given::Failed;
            }
            if self.room < piece.len() {
                return self.pass(piece);
            }
        }
        match self.held.extend_from_slice(piece) {
            Ok(()) => Given::All,
            Err(_) => unreachable!(),
        }
    }
}
