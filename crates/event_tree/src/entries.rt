//! A key and a bound of each disk, and the least of the keys, kept while single ones change.

ghost use Rattle.std.specs.Prelude.{◌≡◌, IfSome, IfOk, OnOk};
ghost use Rattle.event_tree.specs.Keys.{IsLeastKey, key_at};
ghost use Rattle.event_tree.specs.Packing.{HasRoom};
ghost use Rattle.event_tree.specs.Entries.{EntriesData, IsEntered, AreSame, is_empty};

use crate::code::Code;
use crate::packed::Packed;
use crate::table::{Entry, Table};
use event_stamps::Stamp;
use std::alloc::{AllocError, Global};
use std::marker::Model;

/// A key and a bound of each disk: a stamp, or none.
///
/// While all of them have ticks below 2^27 and rounds below 8, an entry of 16 bytes has both, and four entries are in
/// one line of the cache. From the first one that doesn't fit on, one has 32 bytes.
#[derive(Drop)]
pub struct Entries {
    narrow: Table<Code>,
    // The wide form, once something doesn't fit.
    wide: Option<Table<Packed>>,
}

impl Model for Entries {
    ghost use Rattle.std.specs.Prelude.{unwrap_or};
    ghost use Rattle.event_tree.specs.Entries.{EntriesData};

    ghost Value = { EntriesData };

    ghost view = { λ a. unwrap_or a.wide a.narrow };
}

impl Entries {
    /// No key and no bound of any disk. No memory is taken.
    pub fn new(alloc: Global) -> Entries
        ensures { result ≡ is_empty }
    {
        Entries {
            narrow: Table::new(alloc),
            wide: None,
        }
    }

    /// The least of the keys; none if there is no key.
    pub fn least(&self) -> Option<Stamp>
        ensures least { IsLeastKey self.now.keys result }
        ensures room { IfSome result HasRoom }
    {
        self.top().key()
    }

    /// The least of the keys, packed.
    #[inline(always)]
    pub fn top(&self) -> Packed
        ensures { IsLeastKey self.now.keys result }
    {
        match &self.wide {
            Some(wide) => wide.top(),
            None => self.narrow.top().packed(),
        }
    }

    /// The key of a disk; none if none was set.
    #[inline(always)]
    pub fn key(&self, disk: u32) -> Packed
        ensures { result ≡ key_at self.now.keys disk }
    {
        match &self.wide {
            Some(wide) => wide.key(disk),
            None => self.narrow.key(disk).packed(),
        }
    }

    /// The bound of a disk; none if none was set.
    #[inline(always)]
    pub fn bound(&self, disk: u32) -> Packed
        ensures { result ≡ key_at self.now.bounds disk }
    {
        match &self.wide {
            Some(wide) => wide.bound(disk),
            None => self.narrow.bound(disk).packed(),
        }
    }

    /// The least of the keys, as a code; none if some key or bound has no code.
    #[inline(always)]
    pub fn top_code(&self) -> Option<Code>
        ensures { IfSome result (IsLeastKey self.now.keys) }
    {
        match &self.wide {
            Some(_) => None,
            None => Some(self.narrow.top()),
        }
    }

    /// The bound of a disk, as a code; none if it has no code.
    #[inline(always)]
    pub fn bound_code(&self, disk: u32) -> Option<Code>
        ensures { IfSome result (λ code. code ≡ key_at self.now.bounds disk) }
    {
        match &self.wide {
            Some(_) => Code::of(self.bound(disk)),
            None => Some(self.narrow.bound(disk)),
        }
    }

    /// Sets the key and the bound of a disk.
    ///
    /// # Errors
    /// Out of memory. Nothing is claimed of the entries then.
    #[inline(never)]
    pub fn set_codes(
        &mut self,
        alloc: Global,
        disk: u32,
        key: Code,
        bound: Code,
    ) -> Result<(), AllocError>
        ensures { OnOk result (IsEntered disk (key, bound) self.old self.new) }
    {
        if self.wide.is_none() {
            return self.narrow.set(alloc, disk, Entry { key, bound });
        }
        self.set_wide(alloc, disk, key.packed(), bound.packed())
    }

    /// Sets the key and the bound of a disk.
    ///
    /// # Errors
    /// Out of memory. Nothing is claimed of the entries then.
    pub fn set(
        &mut self,
        alloc: Global,
        disk: u32,
        key: Packed,
        bound: Packed,
    ) -> Result<(), AllocError>
        ensures { OnOk result (IsEntered disk (key, bound) self.old self.new) }
    {
        if self.wide.is_none()
            && let Some(key) = Code::of(key)
            && let Some(bound) = Code::of(bound)
        {
            return self.narrow.set(alloc, disk, Entry { key, bound });
        }
        self.set_wide(alloc, disk, key, bound)
    }

    // Sets the key and the bound of a disk in the wide form.
    #[inline(never)]
    fn set_wide(
        &mut self,
        alloc: Global,
        disk: u32,
        key: Packed,
        bound: Packed,
    ) -> Result<(), AllocError>
        ensures { OnOk result (IsEntered disk (key, bound) self.old self.new) }
    {
        if let Some(wide) = &mut self.wide {
            return wide.set(alloc, disk, Entry { key, bound });
        }
        let mut wide = widened(alloc, &self.narrow)?;
        wide.set(alloc, disk, Entry { key, bound })?;
        self.narrow = Table::new(alloc);
        self.wide = Some(wide);
        Ok(())
    }
}

// The same table in wide form.
fn widened(alloc: Global, narrow: &Table<Code>) -> Result<Table<Packed>, AllocError>
    ensures { IfOk result (AreSame narrow.now) }
{
    let mut wide = Table::new(alloc);
    for disk in 0..narrow.room() {
        let disk = disk as u32;
        let entry = Entry {
            key: narrow.key(disk).packed(),
            bound: narrow.bound(disk).packed(),
        };
        wide.set(alloc, disk, entry)?;
    }
    Ok(wide)
}
