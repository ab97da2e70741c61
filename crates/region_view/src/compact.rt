//! Rows of small numbers, as those of valid disks are, in less than half the room.

use crate::Placed;
use fixed_motion::Disk;
use std::marker::Model;

// How many marks a time distinguishes, a power of two.
const MARKS: u64 = 1 << 20;

// How many base ticks it distinguishes: few enough that each time is below that of no row.
const BASES: u64 = 1 << 43;

// The time of no row.
const NO_TIME: u64 = u64::MAX;

/// A row in narrow form: a placed disk of small numbers, or none.
#[derive(Clone, Copy)]
pub struct Compact {
    // The base tick and the mark.
    time: u64,
    x: i32,
    y: i32,
    vx: i32,
    vy: i32,
    size: i32,
    cell: u32,
}

impl Model for Compact {
    ghost use Rattle.std.specs.Prelude.{Option};
    ghost use Rattle.std.specs.Coded.{coded_option};
    ghost use Rattle.region_view.specs.declared.action.Placed.{Placed};
    ghost use Rattle.region_view.specs.contracts.action.Placed as placed;

    ghost Value = { Option Placed };

    ghost coded = { coded_option placed.the_row.coded };

    ghost use Rattle.region_view.specs.Compact.{unpacked, packed, IsPackedRow};

    ghost view = { λ a. unpacked a };

    ghost invariant = { λ a. IsPackedRow a };

    ghost inverse = { λ row. packed row };

    ghost inverse_ok = { λ a h. h.exact };
}

ghost use Rattle.std.specs.Prelude.{◌≡◌, ◌↔◌, IfSome, IsTrue, None, Some, is_some, option_copied};
ghost use Rattle.region_view.specs.Compact.{recelled_row, IsNarrow, HasSmallCourse, HasSmallTime, IsSmallRow};

impl Compact {
    /// No disk.
    pub fn none() -> Compact
        ensures { result ≡ None }
    {
        Compact {
            time: NO_TIME,
            x: 0,
            y: 0,
            vx: 0,
            vy: 0,
            size: 0,
            cell: 0,
        }
    }

    /// A placed disk of small numbers.
    pub fn some(row: &Placed) -> Compact
        requires small { IsSmallRow row.now }
        ensures { result ≡ Some row.now }
    {
        let disk = &row.disk;
        Compact {
            time: disk.base * MARKS + disk.mark as u64,
            x: disk.x as i32,
            y: disk.y as i32,
            vx: disk.vx as i32,
            vy: disk.vy as i32,
            size: disk.size as i32,
            cell: row.cell,
        }
    }

    // A placed disk of small numbers, or none.
    pub(crate) fn new(row: Option<&Placed>) -> Compact
        requires small { IfSome (option_copied row) IsSmallRow }
        ensures { result ≡ option_copied row.entry }
    {
        match row {
            Some(row) => Compact::some(row),
            None => Compact::none(),
        }
    }

    /// The same disk in another cell; none if there is no disk.
    #[inline(always)]
    pub fn with_cell(&self, cell: u32) -> Compact
        ensures { result ≡ recelled_row cell self.now }
    {
        if self.time == NO_TIME {
            return Compact::none();
        }
        Compact {
            time: self.time,
            x: self.x,
            y: self.y,
            vx: self.vx,
            vy: self.vy,
            size: self.size,
            cell,
        }
    }

    /// The row.
    // Nearly each look into a view comes here.
    #[inline(always)]
    pub fn get(&self) -> Option<Placed>
        ensures { result ≡ self.now }
    {
        if self.time == NO_TIME {
            return None;
        }
        Some(Placed {
            disk: self.disk(),
            cell: self.cell,
        })
    }

    /// The disk, without a test for whether there is one: if there is none, any disk.
    #[inline(always)]
    pub fn disk(&self) -> Disk
        ensures { IfSome self.now (λ row. result ≡ row.disk) }
    {
        Disk {
            x: self.x as i64,
            y: self.y as i64,
            vx: self.vx as i64,
            vy: self.vy as i64,
            size: self.size as i64,
            base: self.time / MARKS,
            mark: (self.time % MARKS) as u32,
        }
    }

    /// The cell, without a test for whether there is a disk: if there is none, any number.
    #[inline(always)]
    pub fn cell(&self) -> u32
        ensures { IfSome self.now (λ row. result ≡ row.cell) }
    {
        self.cell
    }

    /// The number on both sides of the middle of the row, where the border of two lines of the cache may be: so one
    /// read brings all of the row from memory. The proof needs to know nothing of the answer.
    #[inline(always)]
    pub fn middle(&self) -> u64 {
        u64::from(self.y.cast_unsigned()) | u64::from(self.vx.cast_unsigned()) << 32
    }

    // Whether there is a row.
    #[inline(always)]
    pub(crate) fn is_there(&self) -> bool
        ensures { result ≡ is_some self.now }
    {
        self.time != NO_TIME
    }
}

/// Whether each number of a row has room in the narrow form: coordinates, velocity and size in 32 bits each, with
/// their signs, the base tick in 43 and the mark in 20.
pub fn is_small(row: &Placed) -> bool
    ensures { IsTrue result ↔ IsSmallRow row.now }
{
    has_small_course(&row.disk) && has_small_time(&row.disk)
}

// Whether the coordinates, the velocity and the size of a disk fit 32 bits. They mostly do, so there is no branch
// between the tests.
fn has_small_course(disk: &Disk) -> bool
    ensures { IsTrue result ↔ HasSmallCourse disk.now }
{
    is_narrow(disk.x)
        & is_narrow(disk.y)
        & is_narrow(disk.vx)
        & is_narrow(disk.vy)
        & is_narrow(disk.size)
}

// Whether the base tick and the mark of a disk have room in one time.
fn has_small_time(disk: &Disk) -> bool
    ensures { IsTrue result ↔ HasSmallTime disk.now }
{
    disk.base < BASES && (disk.mark as u64) < MARKS
}

// Whether a number fits 32 bits.
fn is_narrow(number: i64) -> bool
    ensures { IsTrue result ↔ IsNarrow number }
{
    number >= i32::MIN as i64 && number <= i32::MAX as i64
}
