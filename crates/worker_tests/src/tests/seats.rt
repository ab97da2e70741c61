//! Seats take regions out of a table and put them back.

ghost use Rattle.std.specs.Prelude.{◌≡◌, ◌<◌, ◌∷◌, [], length, IfSome, OnOk};
ghost use Rattle.local_run.specs.Bursts.{AreTogether};
ghost use Rattle.local_run.specs.RunOn.{BeginsAs};
ghost use Rattle.region_table.specs.Bases.{MayLieIn};
ghost use Rattle.region_table.specs.Rule.{slots_of};
ghost use Rattle.region_table.specs.Tables.{IsSeatOf};

use super::cases::expect;
use super::regions::opened;
use event_stamps::{Kind, Stamp};
use region_core::{Region, Step};
use region_table::{RegionTable, TableSeat, TakeOut};
use std::alloc::{AllocError, Global};
use std::test::Fail;
use test_scenes::{SLOW_CROSSING, scene_of};

// The region that goes out and comes back, and one that is at home meanwhile.
const OUT: u32 = 1;

const OTHER: u32 = 2;

// The disk of the first goes up and down, and hits a side at every other tick.
const THIRD_HIT: Stamp = Stamp {
    tick: 5,
    round: 0,
    kind: Kind::Wall,
    first: 1,
    second: 3,
};

// The answer to a seat: with how many entries the region comes, or why it doesn't.
#[derive(Clone, Copy, Debug, PartialEq)]
enum Answer {
    Entries(usize),
    Away,
    Worn,
}

// Puts the only region back that a seat holds.
fn give_back(table: &RegionTable, seat: &mut TableSeat, region: u32, value: Region)
    requires seat { IsSeatOf table.now seat.old }
    requires out { slots_of seat.old.view.held ≡ region ∷ [] }
    requires base { MayLieIn table.now.opened region value }
    ensures seat { IsSeatOf table.now seat.new }
    ensures idle { slots_of seat.new.view.held ≡ [] }
{
    table.put_back(seat, region, value);
}

// Asks for a region, and gives it back if it comes.
fn ask(table: &RegionTable, seat: &mut TableSeat, region: u32) -> Answer
    requires region { region < length table.now.opened }
    requires seat { IsSeatOf table.now seat.old }
    requires idle { slots_of seat.old.view.held ≡ [] }
    ensures seat { IsSeatOf table.now seat.new }
    ensures idle { slots_of seat.new.view.held ≡ [] }
{
    match table.take_out(seat, region) {
        TakeOut::Out(value) => {
            let entries = value.entries();
            give_back(table, seat, region, value);
            Answer::Entries(entries)
        }
        TakeOut::Away => Answer::Away,
        TakeOut::Worn => Answer::Worn,
    }
}

// Lets a region make three steps, and gives the answer of the last one.
fn step_thrice(alloc: Global, region: &mut Region) -> Result<Step, AllocError>
    ensures { OnOk result (BeginsAs region.old region.new) }
{
    region.run(alloc, 3)
}

// The answer of the last of a region's steps, and the answers to seats that ask for it and for another.
type Shared = (Step, [Answer; 3]);

// A seat takes a region out, steps it and puts it back; meanwhile another asks for it and for the next one. The last
// answer is to the first seat, which asks for the region again.
fn share(
    alloc: Global,
    table: &RegionTable,
    seat: &mut TableSeat,
    other: &mut TableSeat,
) -> Result<Option<Shared>, AllocError>
    requires regions { OTHER < length table.now.opened }
    requires seat { IsSeatOf table.now seat.old × (slots_of seat.old.view.held ≡ []) }
    requires other { IsSeatOf table.now other.old × (slots_of other.old.view.held ≡ []) }
{
    let TakeOut::Out(mut region) = table.take_out(seat, OUT) else {
        return Ok(None);
    };
    let last = step_thrice(alloc, &mut region)?;
    let while_out = ask(table, other, OUT);
    let beside = ask(table, other, OTHER);
    give_back(table, seat, OUT, region);
    let back = ask(table, seat, OUT);
    Ok(Some((last, [while_out, beside, back])))
}

// None if there aren't four regions.
fn share_all(alloc: Global, regions: Vec<Region>) -> Result<Option<Shared>, AllocError>
    requires { AreTogether regions.items }
{
    if regions.len() != 4 {
        return Ok(None);
    }
    let (table, mut seat) = RegionTable::open(alloc, regions)?;
    let mut other = table.split(&mut seat);
    share(alloc, &table, &mut seat, &mut other)
}

// None also if the scene is refused.
fn shared(alloc: Global) -> Result<Option<Shared>, AllocError> {
    match scene_of(alloc, SLOW_CROSSING)? {
        Some(scene) => share_all(alloc, opened(alloc, &scene)?),
        None => Ok(None),
    }
}

#[test]
fn a_region_is_away_until_it_is_put_back(rt: HostRuntime) -> Result<(), Fail> {
    let found = shared(rt.alloc())?;
    let answers = [Answer::Away, Answer::Entries(0), Answer::Entries(3)];
    let want: Shared = (Step::Ran(THIRD_HIT), answers);
    expect(&rt, "two seats", found, Some(want));
    Ok(())
}
