//! Messages that come late, and a comparison with regions that heard the same before they ran.

use super::cases::expect;
use super::scripts::region_in;
use cell_sequence::CellState;
use event_stamps::Stamp;
use region_core::Region;
use region_messages::Trail;
use region_view::Message;
use std::alloc::{AllocError, Global};
use std::test::Fail;
use test_scenes::{DrawnNumbers, crowd, scene_of};

const SCENES: u64 = 10;

const REGIONS: u32 = 4;

// How often each region runs and catches up with the others.
const TURNS: u32 = 28;

// The least number of messages that come late.
const LEAST_LATE: usize = 2_000;

// The least number of regions that are compared.
const LEAST_ALIKE: usize = 700;

// What was seen of late messages.
#[derive(Drop)]
struct Seen {
    // The number of late messages.
    late: usize,
    // How often a region caught up with another one that had late messages, and how often it took nothing back then.
    times: usize,
    kept: usize,
    // How many regions were as if they had heard all before they ran, and the first scene and region that weren't.
    alike: usize,
    other: Option<(u64, usize)>,
}

// The regions of a scene, with the state that they begin with.
#[derive(Drop)]
struct OpenedScene {
    state: CellState,
    regions: Vec<Region>,
}

// The scene that is drawn from a number on; none if it is refused.
fn scene_from(
    alloc: Global,
    numbers: &mut DrawnNumbers,
) -> Result<Option<OpenedScene>, AllocError> {
    match drawn(alloc, numbers)? {
        Some(scene) => Ok(Some(opened(alloc, &scene)?)),
        None => Ok(None),
    }
}

fn drawn(
    alloc: Global,
    numbers: &mut DrawnNumbers,
) -> Result<Option<fixed_motion::Scene>, AllocError> {
    let text = crowd(alloc, numbers)?;
    scene_of(alloc, text.as_str())
}

fn opened(alloc: Global, scene: &fixed_motion::Scene) -> Result<OpenedScene, AllocError> {
    let state = CellState::open(alloc, scene, REGIONS)?;
    let regions = regions_of(alloc, &state)?;
    Ok(OpenedScene { state, regions })
}

fn regions_of(alloc: Global, state: &CellState) -> Result<Vec<Region>, AllocError> {
    let mut regions = Vec::new(alloc);
    for number in 0..REGIONS {
        if let Some(region) = region_in(alloc, state, number, false)? {
            regions.push(region)?;
        }
    }
    Ok(regions)
}

// Lets the region at a place run some steps.
fn run(alloc: Global, regions: &mut [Region], place: usize, steps: u32) -> Result<(), AllocError> {
    match regions.get_mut(place) {
        Some(region) if steps > 0 => {
            region.run(alloc, steps)?;
            Ok(())
        }
        _ => Ok(()),
    }
}

// Lets the region at a place catch up with another one.
fn catch_up(
    alloc: Global,
    regions: &mut [Region],
    place: usize,
    from: usize,
    seen: &mut Seen,
) -> Result<(), AllocError> {
    let Some(between) = regions.get_mut(place.min(from)..=place.max(from)) else {
        return Ok(());
    };
    match between {
        [hearer, .., teller] if place < from => catch_up_with(alloc, hearer, teller, seen),
        [teller, .., hearer] => catch_up_with(alloc, hearer, teller, seen),
        _ => Ok(()),
    }
}

fn catch_up_with(
    alloc: Global,
    hearer: &mut Region,
    teller: &mut Region,
    seen: &mut Seen,
) -> Result<(), AllocError> {
    let late = count_late(hearer, teller);
    let entries = hearer.entries();
    hearer.catch_up(alloc, teller)?;
    seen.late = seen.late.wrapping_add(late);
    if late > 0 {
        seen.times = seen.times.wrapping_add(1);
        seen.kept = seen
            .kept
            .wrapping_add((hearer.entries() >= entries) as usize);
    }
    Ok(())
}

// How many messages of a region another one hasn't heard that are before the last thing that it did.
fn count_late(hearer: &Region, teller: &Region) -> usize {
    match (hearer.clock(), teller.sent(hearer.number())) {
        (Some(clock), Some(sent)) => count_before(clock, sent, count_heard(hearer, teller)),
        _ => 0,
    }
}

// How many messages a region heard of another one.
fn count_heard(hearer: &Region, teller: &Region) -> usize {
    match hearer.heard(teller.number()) {
        Some(trail) => trail.len(),
        None => 0,
    }
}

// How many messages from a place on are before a stamp.
fn count_before(clock: Stamp, sent: &Trail, from: usize) -> usize {
    let mut count: usize = 0;
    for i in from..sent.len() {
        count = count.wrapping_add(usize::from(is_before(clock, sent.get(i))));
    }
    count
}

fn is_before(clock: Stamp, message: Option<&Message>) -> bool {
    match message {
        Some(message) => message.stamp < clock,
        None => false,
    }
}

// Compares the region at a place with one that hears the same at the start and then makes as many steps.
fn compare(alloc: Global, scene: &OpenedScene, place: usize) -> Result<Option<bool>, AllocError> {
    match scene.regions.get(place) {
        Some(region) if has_heard_all_of(region, &scene.regions) => {
            compare_with_first(alloc, scene, region)
        }
        _ => Ok(None),
    }
}

fn compare_with_first(
    alloc: Global,
    scene: &OpenedScene,
    region: &Region,
) -> Result<Option<bool>, AllocError> {
    let Some(mut first) = region_in(alloc, &scene.state, region.number(), false)? else {
        return Ok(None);
    };
    let are_alike = is_as_if_in_time(alloc, region, &mut first, &scene.regions);
    // This is a call: if the region went out of scope, each of its parts would be dropped, and proved, on its own.
    drop(first);
    Ok(Some(are_alike?))
}

// Whether a region did the same as one that hears all others first.
fn is_as_if_in_time(
    alloc: Global,
    region: &Region,
    first: &mut Region,
    others: &[Region],
) -> Result<bool, AllocError> {
    for other in others {
        first.hear(alloc, other)?;
    }
    let entries = region.entries() as u32;
    if entries > 0 {
        first.run(alloc, entries)?;
    }
    Ok(did_the_same(region, first))
}

fn has_heard_all_of(region: &Region, others: &[Region]) -> bool {
    for other in others {
        if !has_heard_all(region, other) {
            return false;
        }
    }
    true
}

// Whether what a region heard from another is what that one sends to it now.
fn has_heard_all(region: &Region, other: &Region) -> bool {
    are_alike(region.heard(other.number()), other.sent(region.number()))
}

// Whether both trails have the same messages.
fn are_alike(trail: Option<&Trail>, other: Option<&Trail>) -> bool {
    match (trail, other) {
        (Some(trail), Some(other)) => trail.len() == other.len() && goes_on_as(trail, other),
        (None, None) => true,
        _ => false,
    }
}

// Whether each message of a trail is at its place in another one.
fn goes_on_as(trail: &Trail, other: &Trail) -> bool {
    for i in 0..trail.len() {
        if trail.get(i) != other.get(i) {
            return false;
        }
    }
    true
}

// Whether the logs of two regions have the same events, and what comes next and what is sent is the same.
fn did_the_same(region: &Region, other: &Region) -> bool {
    region.entries() == other.entries()
        && region.due() == other.due()
        && ran_the_same(region, other)
        && sent_the_same(region, other)
}

fn ran_the_same(region: &Region, other: &Region) -> bool {
    for i in 0..region.entries() {
        if region.native(i) != other.native(i) {
            return false;
        }
    }
    true
}

fn sent_the_same(region: &Region, other: &Region) -> bool {
    for to in 0..REGIONS {
        if !are_alike(region.sent(to), other.sent(to)) {
            return false;
        }
    }
    true
}

// Lets all regions of a scene run, and then each catch up with all others.
fn turn(
    alloc: Global,
    scene: &mut OpenedScene,
    numbers: &mut DrawnNumbers,
    seed: u64,
    seen: &mut Seen,
) -> Result<(), AllocError> {
    for place in 0..REGIONS as usize {
        let steps = numbers.next(1, 48).unsigned_abs().min(48) as u32;
        run(alloc, &mut scene.regions, place, steps)?;
    }
    for place in 0..REGIONS as usize {
        for from in 0..REGIONS as usize {
            catch_up(alloc, &mut scene.regions, place, from, seen)?;
        }
        note(compare(alloc, scene, place)?, seed, place, seen);
    }
    Ok(())
}

// Notes how the region at a place of a scene compared.
fn note(alike: Option<bool>, seed: u64, place: usize, seen: &mut Seen) {
    match alike {
        Some(true) => seen.alike = seen.alike.wrapping_add(1),
        Some(false) if seen.other.is_none() => seen.other = Some((seed, place)),
        _ => {}
    }
}

fn see(alloc: Global, seed: u64, seen: &mut Seen) -> Result<(), AllocError> {
    let mut numbers = DrawnNumbers { state: seed };
    match scene_from(alloc, &mut numbers)? {
        Some(mut scene) => make_turns(alloc, &mut scene, &mut numbers, seed, seen),
        None => Ok(()),
    }
}

fn make_turns(
    alloc: Global,
    scene: &mut OpenedScene,
    numbers: &mut DrawnNumbers,
    seed: u64,
    seen: &mut Seen,
) -> Result<(), AllocError> {
    for _ in 0..TURNS {
        turn(alloc, scene, numbers, seed, seen)?;
    }
    Ok(())
}

#[test]
fn late_messages_come_as_if_in_time(rt: HostRuntime) -> Result<(), Fail> {
    let mut seen = Seen {
        late: 0,
        times: 0,
        kept: 0,
        alike: 0,
        other: None,
    };
    for seed in 1..=SCENES {
        see(rt.alloc(), seed, &mut seen)?;
    }
    let counts = (seen.late, seen.times, seen.kept, seen.alike);
    let are_enough = seen.late >= LEAST_LATE && seen.alike >= LEAST_ALIKE;
    let are_kept = seen.kept >= seen.times / 2;
    expect(
        &rt,
        counts,
        (seen.other, are_enough, are_kept),
        (None, true, true),
    );
    Ok(())
}
