//! Scripts: calls on a few regions, and what each call has to answer.

ghost use Rattle.cell_grid.specs.Grid.{IsRegion};

use super::cases::expect;
use cell_sequence::CellState;
use event_rules::Limit;
use event_stamps::{Kind, Stamp};
use region_core::{Hearing, Region, Step};
use std::alloc::{AllocError, Global};
use std::process::Abort;
use std::test::Fail;
use test_scenes::{LONG, scene, scene_of};

/// A tick, a round, a kind and two numbers: a stamp, short enough for a row.
pub type Key = (u64, u32, Kind, u32, u32);

/// A disk hits the upper side of the box.
pub const UP: u32 = 3;

/// A disk hits the lower side of the box.
pub const DOWN: u32 = 2;

/// One of the four regions of a box of 20 columns: the disks, the end, its number, and whether it is spent.
pub type Member = (&'static str, u32, u32, bool);

/// A call on a region. Other regions are named by their places among the members.
#[derive(Clone, Copy)]
pub enum Call {
    /// A step.
    Steps,
    /// This many steps.
    Runs(u32),
    /// To hear another.
    Hears(usize),
    /// To hear what is new in another.
    CatchesUp(usize),
    /// To take back what it did from a stamp on.
    Rewinds(Key),
    /// Whether it has news for a region, by number.
    HasNews(u32),
}

/// What a region answers, or how many entries its log has after a call that answers nothing.
#[derive(Clone, Copy)]
pub enum Answer {
    Ran(Key),
    Heard(Key),
    PassedSpeed(Key),
    Past(Key, Key),
    Tied(Key),
    Held,
    Spent,
    Rewound(Key),
    Later(Key),
    Same,
    Apart,
    Entries(usize),
    News(bool),
    Other,
}

/// The place of a region, the call on it, and what it has to answer.
pub type Row = (usize, Call, Answer);

/// What a script shows, its regions, and its rows.
pub type Script = (&'static str, &'static [Member], &'static [Row]);

// An answer's name, its stamps, and its number: what can be compared and shown.
type Plain = (&'static str, Option<Key>, Option<Key>, usize);

fn plain(answer: Answer) -> Plain {
    match answer {
        Answer::Ran(at) => ("ran", Some(at), None, 0),
        Answer::Heard(at) => ("heard", Some(at), None, 0),
        Answer::PassedSpeed(at) => ("passed speed", Some(at), None, 0),
        Answer::Past(due, clock) => ("past", Some(due), Some(clock), 0),
        Answer::Tied(at) => ("tied", Some(at), None, 0),
        Answer::Held => ("held", None, None, 0),
        Answer::Spent => ("spent", None, None, 0),
        Answer::Rewound(at) => ("rewound", Some(at), None, 0),
        Answer::Later(at) => ("later", Some(at), None, 0),
        Answer::Same => ("same", None, None, 0),
        Answer::Apart => ("apart", None, None, 0),
        Answer::Entries(count) => ("entries", None, None, count),
        Answer::News(is_there) => ("news", None, None, usize::from(is_there)),
        Answer::Other => ("other", None, None, 0),
    }
}

/// Plays some scripts: each row has to be answered as it says.
pub fn play(rt: &impl Abort, alloc: Global, scripts: &[Script]) -> Result<(), Fail> {
    for &(shows, members, rows) in scripts {
        expect(rt, shows, first_wrong_row(alloc, members, rows)?, None);
    }
    Ok(())
}

// The first row of a script whose answer is another one: its number, from 0 on, and what was answered.
fn first_wrong_row(
    alloc: Global,
    members: &[Member],
    rows: &[Row],
) -> Result<Option<(usize, Plain)>, AllocError> {
    let mut regions = opened(alloc, members)?;
    for (i, &(place, call, expected)) in rows.iter().enumerate() {
        let answer = plain(answer_to(alloc, &mut regions, place, call)?);
        if answer != plain(expected) {
            return Ok(Some((i, answer)));
        }
    }
    Ok(None)
}

// The regions of those members that exist.
fn opened(alloc: Global, members: &[Member]) -> Result<Vec<Region>, AllocError> {
    let mut regions = Vec::new(alloc);
    for member in members {
        if let Some(region) = region_of(alloc, member)? {
            regions.push(region)?;
        }
    }
    Ok(regions)
}

fn region_of(
    alloc: Global,
    &(disks, end, number, is_spent): &Member,
) -> Result<Option<Region>, AllocError> {
    match state_of(alloc, disks, end)? {
        Some(state) => region_in(alloc, &state, number, is_spent),
        None => Ok(None),
    }
}

/// The region of a state with this number, if there is one.
pub fn region_in(
    alloc: Global,
    state: &CellState,
    number: u32,
    is_spent: bool,
) -> Result<Option<Region>, AllocError> {
    if number >= state.grid().regions() {
        Ok(None)
    } else if is_spent {
        Ok(Some(spent(state, number)))
    } else {
        Ok(Some(Region::open(alloc, state, number)?))
    }
}

// A region of a state, spent.
fn spent(state: &CellState, number: u32) -> Region
    requires { IsRegion state.now.grid number }
{
    Region::spent(number, state.rules(), state.grid(), state.floor())
}

// The state with which the run of some disks begins.
fn state_of(alloc: Global, disks: &str, end: u32) -> Result<Option<CellState>, AllocError> {
    let text = scene(alloc, LONG, 8, end, disks)?;
    match scene_of(alloc, text.as_str())? {
        Some(scene) => Ok(Some(CellState::open(alloc, &scene, 4)?)),
        None => Ok(None),
    }
}

// The answer of the region at a place.
fn answer_to(
    alloc: Global,
    regions: &mut [Region],
    place: usize,
    call: Call,
) -> Result<Answer, AllocError> {
    match call {
        Call::Hears(from) | Call::CatchesUp(from) => {
            answer_of_two(alloc, regions, (place, from), call)
        }
        _ => match regions.get_mut(place) {
            Some(region) => answer_alone(alloc, region, call),
            None => Ok(Answer::Other),
        },
    }
}

// The answer of a region to a call on it alone.
fn answer_alone(alloc: Global, region: &mut Region, call: Call) -> Result<Answer, AllocError> {
    match call {
        Call::Steps => Ok(answer_of_step(&region.step(alloc)?)),
        Call::Runs(steps) if steps > 0 => Ok(answer_of_step(&region.run(alloc, steps)?)),
        Call::Rewinds(at) => rewind(alloc, region, stamp_of(at)),
        Call::HasNews(to) => Ok(Answer::News(region.has_news(to))),
        _ => Ok(Answer::Other),
    }
}

fn rewind(alloc: Global, region: &mut Region, at: Stamp) -> Result<Answer, AllocError> {
    region.rewind(alloc, at)?;
    Ok(Answer::Entries(region.entries()))
}

// The answer of the region at the first of two places to a call on it and the region at the second.
fn answer_of_two(
    alloc: Global,
    regions: &mut [Region],
    (place, from): (usize, usize),
    call: Call,
) -> Result<Answer, AllocError> {
    let Some(between) = regions.get_mut(place.min(from)..=place.max(from)) else {
        return Ok(Answer::Other);
    };
    match between {
        [hearer, .., teller] if place < from => answer_beside(alloc, hearer, teller, call),
        [teller, .., hearer] => answer_beside(alloc, hearer, teller, call),
        _ => Ok(Answer::Other),
    }
}

fn answer_beside(
    alloc: Global,
    hearer: &mut Region,
    teller: &mut Region,
    call: Call,
) -> Result<Answer, AllocError> {
    match call {
        Call::Hears(_) => Ok(answer_of_hearing(hearer.hear(alloc, teller)?)),
        Call::CatchesUp(_) => catch_up(alloc, hearer, teller),
        _ => Ok(Answer::Other),
    }
}

fn catch_up(alloc: Global, hearer: &mut Region, teller: &mut Region) -> Result<Answer, AllocError> {
    hearer.catch_up(alloc, teller)?;
    Ok(Answer::Entries(hearer.entries()))
}

fn answer_of_step(step: &Step) -> Answer {
    match step {
        Step::Ran(stamp) => Answer::Ran(key_of(stamp)),
        Step::Heard(stamp) => Answer::Heard(key_of(stamp)),
        Step::Halted(Limit::Speed(stamp)) => Answer::PassedSpeed(key_of(stamp)),
        Step::Past { due, clock } => Answer::Past(key_of(due), key_of(clock)),
        Step::Tied(stamp) => Answer::Tied(key_of(stamp)),
        Step::Held => Answer::Held,
        Step::Spent => Answer::Spent,
        _ => Answer::Other,
    }
}

fn answer_of_hearing(hearing: Hearing) -> Answer {
    match hearing {
        Hearing::Rewound(stamp) => Answer::Rewound(key_of(&stamp)),
        Hearing::Later(stamp) => Answer::Later(key_of(&stamp)),
        Hearing::Same => Answer::Same,
        Hearing::Apart => Answer::Apart,
    }
}

fn key_of(stamp: &Stamp) -> Key {
    (
        stamp.tick,
        stamp.round,
        stamp.kind,
        stamp.first,
        stamp.second,
    )
}

fn stamp_of((tick, round, kind, first, second): Key) -> Stamp {
    Stamp {
        tick,
        round,
        kind,
        first,
        second,
    }
}
