//! The native candidates of a region that name a disk.

ghost use Rattle.std.specs.Prelude.{◌≡◌, ◌↔◌, ◌⊎◌, ℕ, ◌<◌, ◌≤◌, ◌^◌, Some, None, IsTrue, IfSome, slice_index_or, false};
ghost use Rattle.std.specs.List.{Contains};
ghost use Rattle.std.specs.FinMap as map;
ghost use Rattle.fixed_motion.specs.Rules.{IsChecked};
ghost use Rattle.fixed_motion.specs.Motion.{IsValidDisk};
ghost use Rattle.event_stamps.specs.declared.Kind.TheVariants.{Pair};
ghost use Rattle.event_stamps.specs.Least.{IsLeastOf, HasNone};
ghost use Rattle.cell_grid.specs.Grid.{IsCell, IsAdjacent, IsStripOf, Owns};
ghost use Rattle.cell_grid.specs.Crossing.{IsCrossEvent};
ghost use Rattle.cell_lists.specs.Listing.{IsListed};
ghost use Rattle.cell_lists.specs.Nearby.{IsListedWithin, columns_to};
ghost use Rattle.region_view.specs.declared.action.Placed.{Placed};
ghost use Rattle.region_view.specs.Events.{IsAlone};
ghost use Rattle.region_queue.specs.Finding.{IsReady, IsSubject, IsBestWith, IsFound, IsAloneAt, IsPairPlaced, IsNativePair, IsNativeWith, IsBestSingle, IsBestPair, IsLowKey, IsLowBeyond, IsBlockBeside, IsListedBeyond, IsNearby, AreAllWithin, IsMissed, IsReachSquare, AreKept, AreListed};

use crate::parts::{line_beyond, parts_outside};
use cell_grid::{Departure, Grid, Strip};
use cell_lists::{Block, Gathered, Lists, block_around};
use event_rules::{event_between, first_wall, is_pair_event, may_hit, reach_square};
use event_stamps::{Kind, Stamp};
use event_tree::{Code, Packed};
use fixed_motion::{Disk, Rules};
use region_view::{Compact, Placed, View, first_alone};

// This many rows, half a mebibyte, mostly fit the second cache, from which a read doesn't hold up the next ones.
const FEW_ROWS: usize = 1 << 14;

// Keys whose ticks are below this one have codes.
pub(crate) const TICKS_OF_CODES: u64 = 1 << 27;

// A region, and the disks of its view by cell.
#[derive(Drop)]
pub(crate) struct Finder {
    pub rules: Rules,
    pub grid: Grid,
    pub region: u32,
    // The columns that the region owns.
    pub strip: Strip,
    pub lists: Lists,
}

// The least candidates that name a disk; none if there is none.
#[derive(Clone, Copy)]
pub(crate) struct Best {
    // The least one by itself.
    pub single: Packed,
    // The least one with another disk.
    pub pair: Packed,
}

// The same as codes, except that the pair may be one that doesn't happen, if none that does is before it.
#[derive(Clone, Copy)]
pub(crate) struct Codes {
    pub single: Code,
    pub pair: Code,
}

impl Best {
    // The answer for a disk that isn't there.
    fn none() -> Best
        ensures single { result.single ≡ None }
        ensures pair { result.pair ≡ None }
    {
        Best {
            single: Packed::new(None),
            pair: Packed::new(None),
        }
    }
}

impl Finder {
    // The least native candidate of a disk by itself, and the least native pair that names it.
    pub fn best(&self, view: &View, disk: u32) -> Best
        requires { IsReady self.now view.now }
        ensures single { IsBestSingle self.now view.now disk result.single }
        ensures pair { AreListed view.now self.now.lists.cells → IsBestPair self.now view.now disk result.pair }
    {
        let Some(placed) = view.get(disk) else {
            return Best::none();
        };
        let own = self.owns(placed.cell);
        let block = block_around(&self.grid, placed.cell);
        Best {
            single: self.best_alone(view, disk, &placed, own),
            pair: self.best_within(view, disk, &placed, own, block),
        }
    }

    // The least native candidate of a disk by itself, and a key that isn't after its native pairs with disks in cells
    // that aren't adjacent to the cell `old`. None says nothing: one of them has no code.
    pub fn codes_beyond(&self, view: &View, disk: u32, old: u32) -> Option<Codes>
        requires ready { IsReady self.now view.now }
        requires old { IsCell self.now.grid old }
        ensures single { IfSome result (λ codes. IsBestSingle self.now view.now disk codes.single) }
        ensures pair { IfSome result (λ codes. AreListed view.now self.now.lists.cells →
            IsLowBeyond self.now view.now disk old codes.pair) }
    {
        if !self.has_codes() {
            return None;
        }
        let placed = view.get(disk)?;
        let own = self.owns(placed.cell);
        let single = self.code_alone(view, disk, &placed, own)?;
        let pair = self.low_outside(view, disk, &placed, own, old)?;
        Some(Codes { single, pair })
    }

    // Whether the ticks of all events have codes.
    #[inline(always)]
    pub fn has_codes(&self) -> bool
        ensures { IsTrue result → self.now.rules.end ≤ 2 ^ 27 }
    {
        self.rules.end <= TICKS_OF_CODES
    }

    // Whether a stamp is that of a native candidate, if it is that of a pair.
    #[inline(always)]
    pub fn is_fresh(&self, view: &View, stamp: &Stamp) -> bool
        requires { IsReady self.now view.now }
        ensures fresh { IsTrue result → stamp.now.kind ≡ Pair → IsFound self.now view.now stamp.now }
        ensures stale { result ≡ false → ¬ IsFound self.now view.now stamp.now }
    {
        stamp.kind != Kind::Pair || self.has_pair(view, stamp)
    }

    // Whether a stamp of a pair is that of a native candidate.
    fn has_pair(&self, view: &View, stamp: &Stamp) -> bool
        requires ready { IsReady self.now view.now }
        requires pair { stamp.now.kind ≡ Pair }
        ensures { IsTrue result ↔ IsFound self.now view.now stamp.now }
    {
        let Some(first) = view.get(stamp.first) else {
            return false;
        };
        let Some(second) = view.get(stamp.second) else {
            return false;
        };
        self.is_event_of(stamp, &first, &second)
    }

    // Whether a stamp of a pair is that of the native event of two disks with these rows.
    #[inline(always)]
    fn is_event_of(&self, stamp: &Stamp, first: &Placed, second: &Placed) -> bool
        requires checked { IsChecked self.now.rules }
        requires strip { IsStripOf self.now.grid self.now.region self.now.strip }
        requires first_valid { IsValidDisk self.now.rules first.now.disk }
        requires second_valid { IsValidDisk self.now.rules second.now.disk }
        requires first_cell { IsCell self.now.grid first.now.cell }
        requires second_cell { IsCell self.now.grid second.now.cell }
        requires pair { stamp.now.kind ≡ Pair }
        ensures { IsTrue result ↔ IsPairPlaced self.now stamp.now first.now second.now }
    {
        if stamp.first >= stamp.second {
            return false;
        }
        if !self.owns(first.cell) {
            return false;
        }
        self.grid.adjacent(first.cell, second.cell)
            && is_pair_event(&self.rules, &first.disk, &second.disk, stamp)
    }

    // Whether the region owns a cell.
    pub fn owns(&self, cell: u32) -> bool
        requires strip { IsStripOf self.now.grid self.now.region self.now.strip }
        requires cell { IsCell self.now.grid cell }
        ensures { IsTrue result ↔ Owns self.now.grid self.now.region cell }
    {
        let column = self.grid.column(cell);
        self.strip.first <= column && column < self.strip.end
    }

    // Whether the region owns all columns from `left` on, below `right`.
    #[inline(always)]
    pub fn owns_columns(&self, left: u32, right: u32) -> bool
        ensures { IsTrue result ↔ ((self.now.strip.first ≤ left) × (right ≤ self.now.strip.end)) }
    {
        self.strip.first <= left && right <= self.strip.end
    }

    // The least event of a disk by itself, if that is native. `own` tells whether the region owns its cell. Nearly
    // always it is a crossing, which is found here; the rare cases are kept apart.
    #[inline(always)]
    pub fn best_alone(&self, view: &View, disk: u32, placed: &Placed, own: bool) -> Packed
        requires { IsSubject self.now view.now disk placed.now own }
        ensures { IsLeastOf (IsAloneAt self.now disk placed.now) result }
    {
        if !own {
            return Packed::new(None);
        }
        match self.grid.leaving(&self.rules, &placed.disk, placed.cell) {
            Departure::At(tick) => Packed::new(Some(Stamp {
                tick,
                round: 0,
                kind: Kind::Cross,
                first: disk,
                second: 0,
            })),
            Departure::Never => self.first_side(view, disk, placed),
            Departure::Unknown => self.first_by_parts(view, disk, placed),
        }
    }

    // The same as a code. None says nothing: it has none.
    #[inline(always)]
    pub fn code_alone(&self, view: &View, disk: u32, placed: &Placed, own: bool) -> Option<Code>
        requires subject { IsSubject self.now view.now disk placed.now own }
        requires codes { self.now.rules.end ≤ 2 ^ 27 }
        ensures { IfSome result (IsLeastOf (IsAloneAt self.now disk placed.now)) }
    {
        if !own {
            return Some(Code::none());
        }
        match self.grid.leaving(&self.rules, &placed.disk, placed.cell) {
            Departure::At(tick) => Some(Code::crossing(tick, disk)),
            Departure::Never => self.code_of_side(view, disk),
            Departure::Unknown => self.code_by_parts(view, disk),
        }
    }

    // The code of what `first_side` finds, given the disk by its number, so that its row needn't lie in memory.
    #[inline(never)]
    fn code_of_side(&self, view: &View, disk: u32) -> Option<Code>
        requires ready { IsReady self.now view.now }
        requires stays { (p : Placed) → map.get view.now disk ≡ Some p →
            HasNone (IsCrossEvent self.now.rules self.now.grid disk p.disk p.cell) }
        ensures { IfSome result (λ key. (p : Placed) → map.get view.now disk ≡ Some p →
            IsLeastOf (IsAlone self.now.rules self.now.grid disk p) key) }
    {
        let placed = view.get(disk)?;
        Code::of(self.first_side(view, disk, &placed))
    }

    // The code of what `first_by_parts` finds, likewise.
    #[inline(never)]
    fn code_by_parts(&self, view: &View, disk: u32) -> Option<Code>
        requires { IsReady self.now view.now }
        ensures { IfSome result (λ key. (p : Placed) → map.get view.now disk ≡ Some p →
            IsLeastOf (IsAlone self.now.rules self.now.grid disk p) key) }
    {
        let placed = view.get(disk)?;
        Code::of(self.first_by_parts(view, disk, &placed))
    }

    // The first event by itself of a disk that has no crossing: it hits a side of the box.
    #[inline(never)]
    fn first_side(&self, view: &View, disk: u32, placed: &Placed) -> Packed
        requires ready { IsReady self.now view.now }
        requires placed { map.get view.now disk ≡ Some placed.now }
        requires stays { HasNone (IsCrossEvent self.now.rules self.now.grid disk placed.now.disk placed.now.cell) }
        ensures { IsLeastOf (IsAlone self.now.rules self.now.grid disk placed.now) result }
    {
        let _view = view;
        Packed::new(first_wall(&self.rules, disk, &placed.disk))
    }

    // The first event of any disk by itself.
    #[inline(never)]
    fn first_by_parts(&self, view: &View, disk: u32, placed: &Placed) -> Packed
        requires ready { IsReady self.now view.now }
        requires placed { map.get view.now disk ≡ Some placed.now }
        ensures { IsLeastOf (IsAlone self.now.rules self.now.grid disk placed.now) result }
    {
        let _view = view;
        Packed::new(first_alone(&self.rules, &self.grid, disk, placed))
    }

    // The least native event of a disk with another that is listed in a block of cells beside its own.
    fn best_within(
        &self,
        view: &View,
        disk: u32,
        placed: &Placed,
        own: bool,
        block: Block,
    ) -> Packed
        requires subject { IsSubject self.now view.now disk placed.now own }
        requires beside { IsBlockBeside self.now.grid placed.now.cell block }
        ensures { IsBestWith self.now view.now disk (IsListedWithin self.now.lists block) result }
    {
        let mut near = Gathered::new();
        if self.lists.gather(block, &mut near) && have_rows(view, &near) {
            self.best_among(view, disk, placed, own, block, &mut near)
        } else {
            self.best_by_rows(view, disk, placed, own, block)
        }
    }

    // A key that isn't after the native pairs of a disk with those in cells that aren't adjacent to the cell `old`. None
    // says nothing: a key has no code.
    #[inline(always)]
    fn low_outside(
        &self,
        view: &View,
        disk: u32,
        placed: &Placed,
        own: bool,
        old: u32,
    ) -> Option<Code>
        requires subject { IsSubject self.now view.now disk placed.now own }
        requires old { IsCell self.now.grid old }
        ensures { IfSome result (λ key. AreListed view.now self.now.lists.cells → IsLowBeyond self.now view.now disk old key) }
    {
        let mut near = Gathered::new();
        if self.gather_beyond(placed.cell, old, &mut near) && have_rows(view, &near) {
            let block = block_around(&self.grid, placed.cell);
            self.low_among(view, disk, placed, own, block, &mut near)
        } else {
            self.low_by_parts(view, disk, placed, own, old)
        }
    }

    // Gathers the disks listed in the cells adjacent to one cell that aren't adjacent to another one. False if these
    // aren't three in a line, as they are after nearly all crossings, or if there are too many.
    #[inline(always)]
    fn gather_beyond(&self, cell: u32, old: u32, near: &mut Gathered) -> bool
        requires lists { self.now.lists.grid ≡ self.now.grid }
        requires cell { IsCell self.now.grid cell }
        ensures { IsTrue result → (i : ℕ) → IsListedBeyond self.now cell old i → Contains near.new i }
    {
        match line_beyond(&self.grid, cell, old) {
            Some(line) => self.lists.gather_line(line.first, line.step, near),
            None => false,
        }
    }

    // What `low_outside` finds, after any other crossing, and in crowded cells. It is seldom called, so it is kept apart.
    #[inline(never)]
    fn low_by_parts(
        &self,
        view: &View,
        disk: u32,
        placed: &Placed,
        own: bool,
        old: u32,
    ) -> Option<Code>
        requires subject { IsSubject self.now view.now disk placed.now own }
        requires old { IsCell self.now.grid old }
        ensures { IfSome result (λ key. AreListed view.now self.now.lists.cells → IsLowBeyond self.now view.now disk old key) }
    {
        let block = block_around(&self.grid, placed.cell);
        let known = block_around(&self.grid, old);
        let parts = parts_outside(block, known);
        Code::of(
            self.best_in_part(view, disk, placed, own, parts.left)
                .earlier(self.best_in_part(view, disk, placed, own, parts.right))
                .earlier(self.best_in_part(view, disk, placed, own, parts.low))
                .earlier(self.best_in_part(view, disk, placed, own, parts.high)),
        )
    }

    // The least native event of a disk with another that is listed in one of the parts. Most parts have no cell.
    #[inline(always)]
    fn best_in_part(
        &self,
        view: &View,
        disk: u32,
        placed: &Placed,
        own: bool,
        part: Block,
    ) -> Packed
        requires subject { IsSubject self.now view.now disk placed.now own }
        requires beside { IsBlockBeside self.now.grid placed.now.cell part }
        ensures { IsBestWith self.now view.now disk (IsListedWithin self.now.lists part) result }
    {
        if part.left >= part.right || part.low >= part.high {
            return Packed::new(None);
        }
        self.best_by_rows(view, disk, placed, own, part)
    }

    // A key that isn't after the native events of a disk with some others, which are listed in a block of cells. Keeps
    // those of the others that the disk may hit. None says nothing: a key has no code.
    #[inline(always)]
    fn low_among(
        &self,
        view: &View,
        disk: u32,
        placed: &Placed,
        own: bool,
        block: Block,
        near: &mut Gathered,
    ) -> Option<Code>
        requires { IsSubject self.now view.now disk placed.now own }
        ensures { IfSome result (IsLowKey (IsNativeWith self.now view.now disk (λ i. Contains near.old i)) disk) }
    {
        let whole = self.owns_columns(block.left, block.right);
        self.keep_candidates(view, disk, placed, near);
        self.low_pair(view, disk, placed, own, near, whole)
    }

    // The least native event of a disk with one of some others, which are listed in a block of cells beside its own.
    // Keeps those of the others that the disk may hit.
    #[inline(always)]
    fn best_among(
        &self,
        view: &View,
        disk: u32,
        placed: &Placed,
        own: bool,
        block: Block,
        near: &mut Gathered,
    ) -> Packed
        requires subject { IsSubject self.now view.now disk placed.now own }
        requires beside { IsBlockBeside self.now.grid placed.now.cell block }
        ensures { AreListed view.now self.now.lists.cells → AreAllWithin self.now.lists block near.old →
            IsLeastOf (IsNativeWith self.now view.now disk (λ i. Contains near.old i)) result }
    {
        let whole = self.owns_columns(block.left, block.right);
        self.keep_candidates(view, disk, placed, near);
        let others = near.as_slice();
        let mut best = Packed::new(None);
        for other in others {
            best = best.earlier(self.key_beside(view, disk, placed, own, *other, whole));
        }
        best
    }

    // Keeps those of some disks with which a disk may have a native event, as far as their courses tell. This decides
    // nearly all pairs that are looked at. Which of them may hit can't be predicted, so all are tested first, with no
    // branch on the answers. Each is taken for one of the greatest diameter, so one distance serves for all.
    #[inline(always)]
    fn keep_candidates(&self, view: &View, disk: u32, placed: &Placed, near: &mut Gathered)
        requires ready { IsReady self.now view.now }
        requires placed { map.get view.now disk ≡ Some placed.now }
        ensures { AreKept (λ i. HasNone (IsNativePair self.now view.now disk i)) near.old near.new }
    {
        let _disk = disk;
        keep_met(
            view.compact(),
            &placed.disk,
            reach_square(&self.rules, &placed.disk),
            near,
        );
    }

    // The same as `best_within`, cell by cell. It is for crowded cells, and for great grids whose cells share lists.
    fn best_by_rows(
        &self,
        view: &View,
        disk: u32,
        placed: &Placed,
        own: bool,
        block: Block,
    ) -> Packed
        requires subject { IsSubject self.now view.now disk placed.now own }
        requires beside { IsBlockBeside self.now.grid placed.now.cell block }
        ensures { IsBestWith self.now view.now disk (IsListedWithin self.now.lists block) result }
    {
        let mut best = Packed::new(None);
        for row in block.low..block.high {
            best = best.earlier(self.best_in_row(view, disk, placed, own, block, row));
        }
        best
    }

    // The same for one row of the block.
    fn best_in_row(
        &self,
        view: &View,
        disk: u32,
        placed: &Placed,
        own: bool,
        block: Block,
        row: u32,
    ) -> Packed
        requires subject { IsSubject self.now view.now disk placed.now own }
        requires beside { IsBlockBeside self.now.grid placed.now.cell block }
        requires low { block.low ≤ row }
        requires high { row < block.high }
        ensures { IsBestWith self.now view.now disk (IsListedWithin self.now.lists (columns_to block row block.right)) result }
    {
        let start = row * self.grid.columns();
        let mut best = Packed::new(None);
        for column in block.left..block.right {
            best = best.earlier(self.best_in_cell(view, disk, placed, own, start + column));
        }
        best
    }

    // The same for one cell beside the disk's own.
    fn best_in_cell(&self, view: &View, disk: u32, placed: &Placed, own: bool, cell: u32) -> Packed
        requires subject { IsSubject self.now view.now disk placed.now own }
        requires cell { IsCell self.now.grid cell }
        requires beside { IsAdjacent self.now.grid placed.now.cell cell }
        ensures { IsBestWith self.now view.now disk (IsListed self.now.lists cell) result }
    {
        let whole = self.owns(cell);
        let mut best = Packed::new(None);
        let mut next = self.lists.first_in(cell);
        while let Some(other) = next {
            best = best.earlier(self.key_beside(view, disk, placed, own, other, whole));
            next = self.lists.next_in(other, cell);
        }
        best
    }

    // The native event of a disk with another in a cell adjacent to its own. `whole` says that the region owns the
    // column of this cell. It is kept apart, and gets the other disk by its number alone, so that the loop over the
    // disks beside one keeps its numbers in registers; few of these disks come here.
    #[inline(never)]
    pub fn key_beside(
        &self,
        view: &View,
        disk: u32,
        placed: &Placed,
        own: bool,
        other: u32,
        whole: bool,
    ) -> Packed
        requires { IsSubject self.now view.now disk placed.now own }
        ensures { IsNearby self.now view.now placed.now.cell whole other →
            IsLeastOf (IsNativePair self.now view.now disk other) result }
    {
        let Some(near) = view.get(other) else {
            return Packed::new(None);
        };
        let home = whole || self.owns(near.cell);
        if !owns_lower(disk, own, other, home) {
            return Packed::new(None);
        }
        let pair = event_between(&self.rules, disk, &placed.disk, other, &near.disk);
        Packed::new(pair)
    }
}

// Keeps those of some disks that a disk may hit, given the square of its reach. It is kept apart, so that the loop has
// all registers.
#[inline(never)]
fn keep_met(rows: &[Compact], disk: &Disk, square: i64, near: &mut Gathered)
    ensures { AreKept (λ i. IsMissed (IsReachSquare square disk.now) disk.now (slice_index_or rows.now i None)) near.old near.new }
{
    let mut kept = 0;
    for place in 0..near.len() {
        let other = near.at(place);
        let may = may_meet_row(rows, disk, square, other);
        near.put(kept, other);
        kept += may as usize;
    }
    near.cut(kept);
}

// Whether a disk may hit another one, if that has a row.
#[inline(always)]
fn may_meet_row(rows: &[Compact], disk: &Disk, square: i64, other: u32) -> bool
    ensures { result ≡ false → IsMissed (IsReachSquare square disk.now) disk.now (slice_index_or rows.now other None) }
{
    match rows.get(other as usize) {
        Some(row) => may_hit(disk, &row.disk(), square),
        None => false,
    }
}

// Reads all rows of the disks gathered, without a branch on any of the answers, so that they come from memory side by
// side before the first is looked at. That is its only purpose. It answers whether any of the numbers read isn't 0, or
// there was nothing to read; the proof needs to know nothing of that, and no clause speaks of it. If the view has few
// rows, they are in a near cache in any case, and none is read.
pub(crate) fn have_rows(view: &View, near: &Gathered) -> bool {
    let rows = view.compact();
    if rows.len() <= FEW_ROWS {
        return true;
    }
    let mut asked = (near.len() == 0) as u64;
    for disk in near.as_slice() {
        if let Some(row) = rows.get(*disk as usize) {
            asked |= row.middle();
        }
    }
    asked != 0
}

// Whether the region owns the cell of the lower of two different disks, given whether it owns that of each.
#[inline(always)]
pub(crate) fn owns_lower(disk: u32, own: bool, other: u32, home: bool) -> bool
    ensures { IsTrue result ↔ (((disk < other) × IsTrue own) ⊎ ((other < disk) × IsTrue home)) }
{
    if disk < other {
        own
    } else {
        other < disk && home
    }
}

// Whether a key is this stamp.
pub(crate) fn has_stamp(key: Option<Stamp>, stamp: &Stamp) -> bool
    ensures { IsTrue result ↔ (key ≡ Some stamp.now) }
{
    match key {
        Some(own) => own == *stamp,
        None => false,
    }
}
