//! A key and a bound of each disk, side by side.

ghost use Rattle.std.specs.Prelude.{◌≡◌, ℕ, ◌+◌, ◌<◌, ◌≤◌, ◌^◌, length, None, IfOk, OnOk};
ghost use Rattle.event_tree.specs.Keys.{IsLeastKey, IsLeastFrom, key_at};
ghost use Rattle.event_tree.specs.Entries.{EntriesData, IsEntered, AreSame, IsRoomier, entry_at, is_empty};
ghost use Rattle.event_tree.specs.Table.{keys_in};

use crate::rank::Rank;
use crate::tree::Tree;
use std::alloc::{AllocError, Global};
use std::marker::Model;

// How many numbers disks can have.
const MOST: usize = 1 << 32;

// What is kept of a disk.
#[derive(Clone, Copy)]
pub(crate) struct Entry<K> {
    pub key: K,
    pub bound: K,
}

// A key and a bound of each disk, and the least of the keys. Memory is taken for as many disks as the greatest
// number that was ever set, or for up to twice as many.
#[derive(Drop)]
pub(crate) struct Table<K: Rank> {
    // The disks' entries begin with the fourth one: a big block of memory mostly begins 16 bytes after a multiple of
    // 64, so four side by side are in one line of the cache.
    entries: Vec<Entry<K>>,
    // The least key of each such four.
    leads: Tree<K>,
}

impl<K: Rank> Model for Table<K> {
    ghost use Rattle.event_tree.specs.Entries.{EntriesData};

    ghost Value = { EntriesData };

    ghost use Rattle.event_tree.specs.Table.{keys_in, disk_entries, AreLed};

    ghost view = { λ a. disk_entries K.key a.entries.items };

    ghost invariant = { λ a. AreLed (keys_in K.key a.entries.items) a.leads };
}

impl<K: Rank> Table<K> {
    // No key and no bound of any disk. No memory is taken.
    pub fn new(alloc: Global) -> Table<K>
        ensures { result ≡ is_empty }
    {
        Table {
            entries: Vec::new(alloc),
            leads: Tree::new(alloc),
        }
    }

    // The least of the keys; none if there is no key.
    #[inline(always)]
    pub fn top(&self) -> K
        ensures { IsLeastKey self.now.keys (K.key result) }
    {
        self.leads.top()
    }

    // The key of a disk; none if none was set.
    #[inline(always)]
    pub fn key(&self, disk: u32) -> K
        ensures { K.key result ≡ key_at self.now.keys disk }
    {
        let disk = disk as usize;
        if disk < self.room() {
            self.entries[disk + 3].key
        } else {
            K::none()
        }
    }

    // The bound of a disk; none if none was set.
    #[inline(always)]
    pub fn bound(&self, disk: u32) -> K
        ensures { K.key result ≡ key_at self.now.bounds disk }
    {
        let disk = disk as usize;
        if disk < self.room() {
            self.entries[disk + 3].bound
        } else {
            K::none()
        }
    }

    // Sets the key and the bound of a disk.
    #[inline(always)]
    pub fn set(&mut self, alloc: Global, disk: u32, entry: Entry<K>) -> Result<(), AllocError>
        ensures { OnOk result (IsEntered disk (K.key entry.key, K.key entry.bound) self.old self.new) }
    {
        if disk as usize >= self.room() {
            return self.set_beyond(alloc, disk, entry);
        }
        self.put(disk as usize, entry);
        Ok(())
    }

    // The same for a disk for which there is no room yet. It is seldom called, so it is kept apart: then `set` needs no
    // registers but those that it may change.
    #[inline(never)]
    fn set_beyond(&mut self, alloc: Global, disk: u32, entry: Entry<K>) -> Result<(), AllocError>
        requires { length self.old.keys ≤ disk }
        ensures { OnOk result (IsEntered disk (K.key entry.key, K.key entry.bound) self.old self.new) }
    {
        let disk = disk as usize;
        let twice = (2 * self.room()).min(MOST);
        *self = self.with_room(alloc, twice.max(disk + 1))?;
        self.put(disk, entry);
        Ok(())
    }

    // The number of disks for which there is room. No other disk has a key or a bound.
    #[inline(always)]
    pub fn room(&self) -> usize
        ensures value { result ≡ length self.now.keys }
        ensures most { result ≤ 2 ^ 32 }
        ensures all { (disk : ℕ) → result ≤ disk → entry_at self.now disk ≡ (None, None) }
    {
        self.entries.len().saturating_sub(3)
    }

    // The same entries, with room for `room` disks, or for up to three more.
    #[inline(never)]
    fn with_room(&self, alloc: Global, room: usize) -> Result<Table<K>, AllocError>
        requires more { length self.now.keys < room }
        requires most { room ≤ 2 ^ 32 }
        ensures { IfOk result (IsRoomier self.now room) }
    {
        let groups = (room + 3) / 4;
        let none = Entry {
            key: K::none(),
            bound: K::none(),
        };
        let mut wider = Table {
            entries: vec![in alloc; none; 4 * groups + 3]?,
            leads: Tree::with_room(alloc, groups)?,
        };
        for disk in 0..self.room() {
            wider.put(disk, self.entries[disk + 3]);
        }
        Ok(wider)
    }

    // Sets the key and the bound of a disk for which there is room.
    #[inline(always)]
    fn put(&mut self, disk: usize, entry: Entry<K>)
        requires { disk < length self.old.keys }
        ensures entered { IsEntered disk (K.key entry.key, K.key entry.bound) self.old self.new }
        ensures room { length self.new.keys ≡ length self.old.keys }
    {
        self.entries[disk + 3] = entry;
        let group = disk / 4;
        let least = least_of_group(&self.entries, 4 * group + 3);
        self.leads.set(group, least);
    }
}

// The least key of four disks side by side.
#[inline(always)]
fn least_of_group<K: Rank>(entries: &[Entry<K>], start: usize) -> K
    requires { start + 4 ≤ length entries.now }
    ensures { IsLeastFrom (keys_in K.key entries.now) start 4 (K.key result) }
{
    // One test of the bounds for all four.
    let four = &entries[start..start + 4];
    let left = four[0].key.earlier(four[1].key);
    let right = four[2].key.earlier(four[3].key);
    left.earlier(right)
}
