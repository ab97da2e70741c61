//! What a seat knows, and the steps that it makes.

ghost use Rattle.std.specs.Prelude.{[]};
ghost use Rattle.region_table.specs.Rule.{Kept, first_view, Taken, Put, Undone, halved, copied, joined_views, no_view};

use atomic_table::{Join, Play, Seat, Split, Table, TableRule};
use region_core::Region;
use std::alloc::Global;
use std::collections::LinkedList;
use std::snapshot::Snapshot;

/// A word that a take found in a slot. No value of it is made.
pub struct Sight {
    pub slot: u64,
    pub word: u64,
}

/// A slot that is held, and the version at which it was taken. No value of it is made.
pub struct Hold {
    pub slot: u64,
    pub version: u64,
}

/// A put: the slot, the version that it made, and how many entries the region had. No value of it is made.
pub struct Note {
    pub slot: u64,
    pub version: u64,
    pub entries: u64,
}

/// What a seat knows. No value of it is made.
pub struct TableView {
    /// The regions that the table was opened with.
    pub opened: LinkedList<Region>,
    /// What it found when it took regions out, the latest first.
    pub seen: LinkedList<Sight>,
    /// The slots that it holds.
    pub held: LinkedList<Hold>,
    /// Its puts, the latest first.
    pub notes: LinkedList<Note>,
    /// Its parts of the table. A seat that has all of them is the only one.
    pub parts: u128,
}

/// What holds of the regions in a table, and what its first seat knows.
pub struct Law;

impl TableRule<Option<Region>, TableView, Snapshot<Vec<Region>>> for Law {
    ghost holds = { λ key. Kept key.value.items };

    ghost first = { λ key. first_view key.value.items };
}

/// The step that marks a slot as out.
pub struct Takes;

impl Play<Option<Region>, TableView> for Takes {
    ghost then = { Taken };
}

/// The step that marks it as at home again, at the next version.
pub struct Puts;

impl Play<Option<Region>, TableView> for Puts {
    ghost then = { Put };
}

/// The step that takes the mark back, if the slot has no more versions.
pub struct Undoes;

impl Play<Option<Region>, TableView> for Undoes {
    ghost then = { Undone };
}

/// What two seats know that one is split into.
pub struct Copies;

impl Split<TableView> for Copies {
    ghost left = { halved };

    ghost right = { copied };
}

/// What a seat knows that two are joined to.
pub struct Joins;

impl Join<TableView> for Joins {
    ghost both = { joined_views };

    ghost spent = { no_view };
}

/// The slots with the regions.
pub type Slots = Table<Option<Region>, TableView, Snapshot<Vec<Region>>, Law, Global>;

/// What gives access to the slots: one for each seat.
pub type Token = Seat<Option<Region>, TableView>;
