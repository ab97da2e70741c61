//! The taking over of regions of other scenes.

ghost use Rattle.cell_grid.specs.Grid.{IsRegion};

use super::cases::expect;
use super::opened::committed_of;
use cell_grid::MAX_REGIONS;
use cell_sequence::CellState;
use commit_horizon::{Adopted, Committed};
use event_stamps::{Kind, Stamp};
use region_core::{Differs, Region};
use std::alloc::{AllocError, Global};
use std::test::Fail;
use test_scenes::FOUR_IN_A_ROW;

// A disk that goes up and down in region 1 of four, near the border.
const LEFT: &str = "[190, 10, 0, 8]";

// The same in region 2.
const RIGHT: &str = "[210, 10, 0, 8]";

const FIRST_OF_ALL: Stamp = Stamp {
    tick: 0,
    round: 0,
    kind: Kind::Cross,
    first: 0,
    second: 0,
};

// The disk hits the upper side.
const TOP: Stamp = Stamp {
    tick: 1,
    round: 0,
    kind: Kind::Wall,
    first: 0,
    second: 3,
};

// What was done to a region.
#[derive(Clone, Copy)]
enum Form {
    Opened,
    Spent,
    // A commit raised the floor of the state in which it was opened.
    Raised,
}

// A place of the four regions of a state: the disks, the end of the scene, and the region that belongs there.
type Place = (&'static str, u32, u32);

const LEFT_1: Place = (LEFT, 20, 1);

const ROW_0: Place = (FOUR_IN_A_ROW, 40, 0);

// A region that is given for that place: its disks, the end of its scene, how many regions there are, its number, and
// what was done to it.
type Given = (&'static str, u32, u32, u32, Form);

// What a row shows, a place, a region given for it, and the first thing in which the region doesn't stand there, if it
// doesn't.
const GIVEN: &[(&str, Place, Given, Option<Differs>)] = &[
    ("it stands", LEFT_1, (LEFT, 20, 4, 1, Form::Opened), None),
    (
        "spent",
        LEFT_1,
        (RIGHT, 21, 5, 2, Form::Spent),
        Some(Differs::Spent),
    ),
    (
        "number",
        LEFT_1,
        (RIGHT, 21, 5, 2, Form::Raised),
        Some(Differs::Number { kept: 1, given: 2 }),
    ),
    (
        "number, of two regions that were swapped",
        ROW_0,
        (FOUR_IN_A_ROW, 40, 4, 1, Form::Opened),
        Some(Differs::Number { kept: 0, given: 1 }),
    ),
    (
        "rules",
        LEFT_1,
        (RIGHT, 21, 5, 1, Form::Raised),
        Some(Differs::Rules),
    ),
    (
        "grid",
        LEFT_1,
        (RIGHT, 20, 5, 1, Form::Raised),
        Some(Differs::Grid),
    ),
    (
        "floor",
        LEFT_1,
        (RIGHT, 20, 4, 1, Form::Raised),
        Some(Differs::Floor {
            kept: FIRST_OF_ALL,
            given: TOP,
        }),
    ),
    (
        "row",
        LEFT_1,
        (RIGHT, 20, 4, 1, Form::Opened),
        Some(Differs::Row(0)),
    ),
];

// The region that is given; none if there is no such one.
fn given_region(
    alloc: Global,
    &(disks, end, asked, number, form): &Given,
) -> Result<Option<Region>, AllocError> {
    if !(1..=MAX_REGIONS).contains(&asked) {
        return Ok(None);
    }
    let Some(mut committed) = committed_of(alloc, disks, end, asked)? else {
        return Ok(None);
    };
    if matches!(form, Form::Raised) {
        raise(alloc, &mut committed)?;
    }
    region_of(alloc, committed.state(), number, form)
}

// A commit of regions that did nothing: the floor is raised to what is due first.
fn raise(alloc: Global, committed: &mut Committed) -> Result<(), AllocError> {
    let mut regions = committed.open_all(alloc)?;
    committed.commit(alloc, &mut regions)?;
    Ok(())
}

// The region of a number that is opened in a state, in a form; none if there is no such one.
fn region_of(
    alloc: Global,
    state: &CellState,
    number: u32,
    form: Form,
) -> Result<Option<Region>, AllocError> {
    if number >= state.grid().regions() {
        return Ok(None);
    }
    let region = Region::open(alloc, state, number)?;
    Ok(Some(formed(region, form)))
}

fn formed(region: Region, form: Form) -> Region {
    match form {
        Form::Spent => {
            let spent = spent(&region);
            drop(region);
            spent
        }
        Form::Opened | Form::Raised => region,
    }
}

// The same region, spent.
fn spent(region: &Region) -> Region {
    let (rules, grid) = (region.rules(), region.grid());
    Region::spent(region.number(), rules, grid, region.floor())
}

// What is found when a region is to be adopted; none if there is no region or no such place.
fn adopted(
    alloc: Global,
    &(disks, end, number): &Place,
    given: &Given,
) -> Result<Option<Option<Differs>>, AllocError> {
    match committed_of(alloc, disks, end, 4)? {
        Some(committed) => adopted_by(alloc, &committed, number, given),
        None => Ok(None),
    }
}

fn adopted_by(
    alloc: Global,
    committed: &Committed,
    number: u32,
    given: &Given,
) -> Result<Option<Option<Differs>>, AllocError> {
    if number >= committed.state().grid().regions() {
        return Ok(None);
    }
    match given_region(alloc, given)? {
        Some(region) => Ok(Some(differs_of(alloc, committed, number, region)?)),
        None => Ok(None),
    }
}

fn differs_of(
    alloc: Global,
    committed: &Committed,
    number: u32,
    region: Region,
) -> Result<Option<Differs>, AllocError>
    requires { IsRegion committed.now.grid number }
{
    let adopted = committed.adopt(alloc, number, region)?;
    let differs = differs(&adopted);
    // This is a call: if the region went out of scope, each of its parts would be dropped, and proved, on its own.
    drop(adopted);
    Ok(differs)
}

fn differs(adopted: &Adopted) -> Option<Differs> {
    match adopted {
        Adopted::Kept(_) => None,
        Adopted::Made(_, differs) => Some(*differs),
    }
}

#[test]
fn exactly_a_region_that_stands_is_adopted(rt: HostRuntime) -> Result<(), Fail> {
    for (shows, place, given, differs) in GIVEN {
        let found = adopted(rt.alloc(), place, given)?;
        expect(&rt, *shows, found, Some(*differs));
    }
    Ok(())
}
