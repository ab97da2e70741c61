//! The native candidates of two disks in adjacent cells, like two that have just hit each other.

ghost use Rattle.std.specs.Prelude.{◌≡◌, ◌≤◌, ◌^◌, Some, None, IsTrue, IfSome, false, slice_index_or};
ghost use Rattle.std.specs.List.{Contains};
ghost use Rattle.std.specs.FinMap as map;
ghost use Rattle.fixed_motion.specs.Rules.{IsChecked};
ghost use Rattle.fixed_motion.specs.declared.rules.Rules.{Rules};
ghost use Rattle.event_rules.specs.Rounded.{IsReachOf, TellsRounded};
ghost use Rattle.event_stamps.specs.declared.Kind.TheVariants.{Pair};
ghost use Rattle.event_stamps.specs.Least.{HasNone};
ghost use Rattle.event_stamps.specs.Order.{IsInRange};
ghost use Rattle.cell_grid.specs.Grid.{GridData, IsCell, Owns};
ghost use Rattle.cell_lists.specs.Nearby.{IsBlock};
ghost use Rattle.region_view.specs.declared.action.Placed.{Placed};
ghost use Rattle.region_view.specs.Views.{rows_in};
ghost use Rattle.region_queue.specs.Finding.{IsReady, IsSubject, IsNativePair, IsNativeWith, IsBestSingle, IsLowKey, IsLowOf, IsMissed, AreKept, AreListed, HasNearby, IsWider};

use crate::finder::{Codes, Finder, TICKS_OF_CODES, have_rows, owns_lower};
use cell_lists::{Block, Gathered, block_around};
use event_rules::{EachMay, EachReach, chance_between, each_may_hit};
use event_stamps::Stamp;
use event_tree::Code;
use fixed_motion::Disk;
use region_view::{Compact, Placed, View};

// Keys whose rounds are below this one have codes.
const ROUNDS_OF_CODES: u32 = 8;

impl Finder {
    // What `best` finds for each of two disks, as codes, except that the pair may be one that doesn't happen, if none
    // that does is before it. The disks near either are gathered once, and tested with both. None says nothing: the two
    // aren't alike, or too many disks are near, or one of these has a later base tick, or a key has no code.
    pub fn codes_both(&self, view: &View, first: u32, second: u32) -> Option<(Codes, Codes)>
        requires { IsReady self.now view.now }
        ensures first { IfSome result (λ both. IsLowOf self.now view.now first both.0) }
        ensures second { IfSome result (λ both. IsLowOf self.now view.now second both.1) }
    {
        let one = view.get(first)?;
        let other = view.get(second)?;
        if !self.are_alike(&one, &other) {
            return None;
        }
        let mut near = Gathered::new();
        if !self.gather_both(view, &one, &other, &mut near) {
            return None;
        }
        let mut near_other = near.copy();
        let reach = EachReach::of(&self.rules, &one.disk, &other.disk);
        if !keep_both(view, first, second, reach, &mut near, &mut near_other) {
            return None;
        }
        let whole = self.owns_around(one.cell, other.cell);
        let first_codes = self.codes_near(view, first, &one, &near, whole)?;
        let second_codes = self.codes_near(view, second, &other, &near_other, whole)?;
        Some((first_codes, second_codes))
    }

    // Whether two disks have one base tick and are in adjacent cells, and ticks have codes. That mostly holds for two
    // disks that have just hit each other.
    #[inline(always)]
    fn are_alike(&self, one: &Placed, other: &Placed) -> bool
        requires checked { IsChecked self.now.rules }
        requires one { IsCell self.now.grid one.now.cell }
        requires other { IsCell self.now.grid other.now.cell }
        ensures base { IsTrue result → one.now.disk.base ≡ other.now.disk.base }
        ensures codes { IsTrue result → self.now.rules.end ≤ 2 ^ 27 }
    {
        one.disk.base == other.disk.base
            && self.has_codes()
            && self.grid.adjacent(one.cell, other.cell)
    }

    // Gathers the disks near either of two. False if there are too many.
    #[inline(always)]
    fn gather_both(&self, view: &View, one: &Placed, other: &Placed, near: &mut Gathered) -> bool
        requires ready { IsReady self.now view.now }
        requires one { IsCell self.now.grid one.now.cell }
        requires other { IsCell self.now.grid other.now.cell }
        ensures one { IsTrue result → AreListed view.now self.now.lists.cells → HasNearby self.now view.now one.now.cell near.new }
        ensures other { IsTrue result → AreListed view.now self.now.lists.cells → HasNearby self.now view.now other.now.cell near.new }
    {
        let block = block_around(&self.grid, one.cell);
        let beside = block_around(&self.grid, other.cell);
        self.lists.gather(joined(block, beside), near) && have_rows(view, near)
    }

    // Whether the region owns all columns of the cells around two. It only spares a question for each disk, so no
    // clause speaks of it: a key of a pair that the region doesn't own would be found stale.
    #[inline(always)]
    fn owns_around(&self, one: u32, other: u32) -> bool
        requires one { IsCell self.now.grid one }
        requires other { IsCell self.now.grid other }
    {
        let joint = joined(
            block_around(&self.grid, one),
            block_around(&self.grid, other),
        );
        self.owns_columns(joint.left, joint.right)
    }

    // The least native candidate of a disk by itself, and a key that isn't after its native events with some others.
    // `whole` says that the region owns the columns of them all. None says nothing: a key has no code.
    #[inline(always)]
    fn codes_near(
        &self,
        view: &View,
        disk: u32,
        placed: &Placed,
        others: &Gathered,
        whole: bool,
    ) -> Option<Codes>
        requires ready { IsReady self.now view.now }
        requires codes { self.now.rules.end ≤ 2 ^ 27 }
        requires placed { map.get view.now disk ≡ Some placed.now }
        ensures single { IfSome result (λ codes. IsBestSingle self.now view.now disk codes.single) }
        ensures pair { IfSome result (λ codes. IsLowKey (IsNativeWith self.now view.now disk (λ i. Contains others.now i)) disk codes.pair) }
    {
        let own = self.owns(placed.cell);
        let single = self.code_alone(view, disk, placed, own)?;
        let pair = self.low_pair(view, disk, placed, own, others, whole)?;
        Some(Codes { single, pair })
    }

    // A key that isn't after the native events of a disk with some others, by the only tick at which each two can hit
    // each other: whether they are in the box then, and in adjacent cells, isn't tested. The least key of all is tested
    // before it is run, and few of these become the least. None says nothing: one of them has no code.
    #[inline(always)]
    pub fn low_pair(
        &self,
        view: &View,
        disk: u32,
        placed: &Placed,
        own: bool,
        others: &Gathered,
        whole: bool,
    ) -> Option<Code>
        requires { IsSubject self.now view.now disk placed.now own }
        ensures { IfSome result (IsLowKey (IsNativeWith self.now view.now disk (λ i. Contains others.now i)) disk) }
    {
        let others = others.as_slice();
        let mut best = Code::none();
        for other in others {
            let key = self.low_owned(view, disk, placed, own, *other, whole)?;
            best = best.earlier(key);
        }
        Some(best)
    }

    // A key that isn't after the native event of a disk with another: none if the region doesn't own the cell of the
    // lower one. Where `whole` says that it owns the columns of all others, it isn't asked.
    #[inline(always)]
    fn low_owned(
        &self,
        view: &View,
        disk: u32,
        placed: &Placed,
        own: bool,
        other: u32,
        whole: bool,
    ) -> Option<Code>
        requires { IsSubject self.now view.now disk placed.now own }
        ensures { IfSome result (IsLowKey (IsNativePair self.now view.now disk other) disk) }
    {
        let _placed = placed;
        if whole || self.owns_pair(view, disk, own, other) {
            self.low_key(view, disk, other)
        } else {
            Some(Code::none())
        }
    }

    // Whether the region owns the cell of the lower of two disks. `own` says that it owns that of the first one.
    #[inline(never)]
    fn owns_pair(&self, view: &View, disk: u32, own: bool, other: u32) -> bool
        requires { IsReady self.now view.now }
        ensures { result ≡ false → (p : Placed) → map.get view.now disk ≡ Some p →
            (Owns self.now.grid self.now.region p.cell → IsTrue own) → HasNone (IsNativePair self.now view.now disk other) }
    {
        match view.get(other) {
            Some(placed) => owns_lower(disk, own, other, self.owns(placed.cell)),
            None => false,
        }
    }

    // A key that isn't after the native event of a disk with another. It is kept apart, as `key_beside` is, and reads
    // the rows of both where they lie. None says nothing: it has no code.
    #[inline(never)]
    fn low_key(&self, view: &View, disk: u32, other: u32) -> Option<Code>
        requires { IsReady self.now view.now }
        ensures { IfSome result (IsLowKey (IsNativePair self.now view.now disk other) disk) }
    {
        let Some(placed) = view.get(disk) else {
            return Some(Code::none());
        };
        let Some(near) = view.get(other) else {
            return Some(Code::none());
        };
        let pair = chance_between(&self.rules, disk, &placed.disk, other, &near.disk);
        code_of_pair(pair)
    }
}

// The code of a pair's event, or of none. None says nothing: its tick or its round has none.
#[inline(always)]
fn code_of_pair(pair: Option<Stamp>) -> Option<Code>
    requires range { IfSome pair IsInRange }
    requires pair { IfSome pair (λ s. s.kind ≡ Pair) }
    ensures { IfSome result (λ code. code ≡ pair) }
{
    let Some(pair) = pair else {
        return Some(Code::none());
    };
    if pair.tick >= TICKS_OF_CODES || pair.round >= ROUNDS_OF_CODES {
        return None;
    }
    Some(Code::pair(pair.tick, pair.round, pair.first, pair.second))
}

// A block that has the cells of both of two.
#[inline(always)]
fn joined(a: Block, b: Block) -> Block
    ensures block { (grid : GridData) → IsBlock grid a → IsBlock grid b → IsBlock grid result }
    ensures first { IsWider a result }
    ensures second { IsWider b result }
{
    Block {
        left: a.left.min(b.left),
        right: a.right.max(b.right),
        low: a.low.min(b.low),
        high: a.high.max(b.high),
    }
}

// Keeps in one list those disks that the first of two disks may hit, and in another one those that the second may hit.
// The two have one base tick, are given by their numbers, and read where they lie. False says nothing: one of them isn't
// there, or one of the others has a later base tick than the two, which is rare.
#[inline(never)]
fn keep_both(
    view: &View,
    first: u32,
    second: u32,
    reach: EachReach,
    near: &mut Gathered,
    near_other: &mut Gathered,
) -> bool
    requires base { (p q : Placed) → rows_in view.now first ≡ Some p → rows_in view.now second ≡ Some q → p.disk.base ≡ q.disk.base }
    requires same { near_other.old ≡ near.old }
    ensures one { IsTrue result → (p q : Placed) → rows_in view.now first ≡ Some p → rows_in view.now second ≡ Some q →
        AreKept (λ i. IsMissed (λ rules. IsReachOf rules p.disk q.disk reach) p.disk (rows_in view.now i)) near.old near.new }
    ensures other { IsTrue result → (p q : Placed) → rows_in view.now first ≡ Some p → rows_in view.now second ≡ Some q →
        AreKept (λ i. IsMissed (λ rules. IsReachOf rules p.disk q.disk reach) q.disk (rows_in view.now i)) near.old near_other.new }
{
    let Some(one) = view.get(first) else {
        return false;
    };
    let Some(other) = view.get(second) else {
        return false;
    };
    let rows = view.compact();
    let mut kept = 0;
    let mut kept_other = 0;
    for place in 0..near.len() {
        let disk = near.at(place);
        let Some(may) = may_reach_either(rows, one.disk, other.disk, reach, disk) else {
            return false;
        };
        near.put(kept, disk);
        kept += may.first() as usize;
        near_other.put(kept_other, disk);
        kept_other += may.second() as usize;
    }
    near.cut(kept);
    near_other.cut(kept_other);
    true
}

// Whether each of two disks may hit another one, if that has a row.
#[inline(always)]
fn may_reach_either(
    rows: &[Compact],
    one: Disk,
    other: Disk,
    reach: EachReach,
    disk: u32,
) -> Option<EachMay>
    requires { one.base ≡ other.base }
    ensures one { IfSome result (λ may. may.0 ≡ false →
        IsMissed (λ rules. IsReachOf rules one other reach) one (slice_index_or rows.now disk None)) }
    ensures other { IfSome result (λ may. may.1 ≡ false →
        IsMissed (λ rules. IsReachOf rules one other reach) other (slice_index_or rows.now disk None)) }
{
    match rows.get(disk as usize) {
        Some(row) => may_hit_either(one, other, &row.disk(), reach),
        None => Some(EachMay::neither()),
    }
}

// Whether each of two disks may hit a third one. None says nothing: that has a later base tick.
#[inline(always)]
fn may_hit_either(one: Disk, other: Disk, third: &Disk, reach: EachReach) -> Option<EachMay>
    requires { one.base ≡ other.base }
    ensures one { IfSome result (λ may. (rules : Rules) → IsReachOf rules one other reach → TellsRounded rules one third.now may.0) }
    ensures other { IfSome result (λ may. (rules : Rules) → IsReachOf rules one other reach → TellsRounded rules other third.now may.1) }
{
    if third.base > one.base {
        return None;
    }
    Some(each_may_hit(one, other, third, reach))
}
