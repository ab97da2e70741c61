//! An audit and a cut over bursts that a test brings, which may do anything with the regions.

ghost use Rattle.cell_grid.specs.Grid.{IsAsked};

use super::helpers::FOUR_IN_A_ROW_REPORT;
use cell_sequence::CellState;
use event_rules::{Change, Deaf, Listener};
use fixed_motion::Scene;
use hard_disks::{AuditFault, Cut, Verdict, audit, cut_at};
use region_core::{Burst, Idle, Region};
use report_ports::MemorySource;
use run_core::{CoreStep, Scripted};
use scene_maker::scene_text;
use std::alloc::{AllocError, Global};
use std::mem;
use std::process::Abort;
use std::sync::Wait;
use std::test::Fail;
use std::thread::Threads;
use test_scenes::{FOUR_IN_A_ROW, LONG, MISLED, scene, scene_of};

// The number of regions.
const REGIONS: u32 = 4;

// Region 1 runs before region 0 sends it disk 0, and then takes back what it did.
const CALLS: &[CoreStep] = &[
    CoreStep::Turn(1),
    CoreStep::Turn(1),
    CoreStep::Turn(0),
    CoreStep::Hear { hearer: 1, from: 0 },
];

// The rest of four disks in a row at tick 20.
const LEFT: &str = "width = 400\n\
    height = 20\n\
    diameter = 4\n\
    speed_limit = 8\n\
    round_limit = 8\n\
    end = 20\n\
    disks = [\n  \
    [112, 10, 0, 0],\n  \
    [232, 10, 0, 0],\n  \
    [256, 10, 8, 0],\n  \
    [340, 10, 0, 0],\n\
    ]\n";

// A burst that gives back the regions of another state.
#[derive(Drop)]
struct Replacing<'s> {
    other: &'s CellState,
}

impl Burst<Idle, ()> for Replacing<'_> {
    fn burst<R: Threads + Sync>(
        &mut self,
        _rt: &R,
        alloc: Global,
        mut regions: Vec<Region>,
        _beside: &mut Idle,
        _lent: &mut (),
    ) -> Result<Vec<Region>, AllocError> {
        replace_all(alloc, &mut regions, self.other)?;
        Ok(regions)
    }
}

fn replace_all(alloc: Global, regions: &mut [Region], other: &CellState) -> Result<(), AllocError> {
    for place in 0..regions.len() {
        replace(alloc, regions.get_mut(place), other)?;
    }
    Ok(())
}

fn replace(
    alloc: Global,
    region: Option<&mut Region>,
    other: &CellState,
) -> Result<(), AllocError> {
    let Some(region) = region else {
        return Ok(());
    };
    let number = region.number();
    if number < other.grid().regions() {
        drop(mem::replace(region, Region::open(alloc, other, number)?));
    }
    Ok(())
}

// A listener that counts what it is told.
#[derive(Drop)]
struct Count(u64);

impl Listener for Count {
    ghost use Rattle.std.specs.Prelude.{None};

    ghost Meaning = { Unit {0} };

    ghost after = { λ m _. m };

    ghost torn = { λ _ _ _. Unit {0} };

    ghost awaits = { λ _ _. Unit {0} };

    ghost meaning = { λ _. None };

    ghost faults = { λ _. 0 };

    fn faults(&self) -> u64 {
        0
    }

    fn event(&mut self, _change: &Change) -> Result<(), Deaf> {
        self.0 = self.0.wrapping_add(1);
        Ok(())
    }
}

// Four disks in a row, and the state with which the run of three other ones begins.
fn row_and_other(rt: &impl Abort, alloc: Global) -> Result<(Scene, CellState), AllocError> {
    let row = valid(rt, alloc, FOUR_IN_A_ROW)?;
    let other = CellState::open(alloc, &valid(rt, alloc, MISLED)?, REGIONS)?;
    Ok((row, other))
}

fn valid(rt: &impl Abort, alloc: Global, rows: &str) -> Result<Scene, AllocError> {
    let Some(scene) = scene_of(alloc, &scene(alloc, LONG, 8, 40, rows)?)? else {
        panic!(rt; "{rows} is no scene");
    };
    Ok(scene)
}

// Stops a test if the four disks, with their report or with another one, have another verdict over this burst.
fn expect_verdicts<B: Burst<Idle, ()>>(
    rt: &(impl Threads + Wait + Sync + Abort),
    alloc: Global,
    burst: &mut B,
) -> Result<(), AllocError> {
    let found = verdict_on(rt, alloc, FOUR_IN_A_ROW_REPORT, burst)?;
    assert_eq!(rt; found, (13, true), "its report");
    let found = verdict_on(rt, alloc, "done 40\n", burst)?;
    assert_eq!(rt; found, (1, false), "another report");
    Ok(())
}

// The number of lines, if the claim is the report of the four disks, or that of the first wrong one; 0 if there is no
// verdict.
fn verdict_on<B: Burst<Idle, ()>>(
    rt: &(impl Threads + Wait + Sync),
    alloc: Global,
    claim: &str,
    burst: &mut B,
) -> Result<(u128, bool), AllocError> {
    let row = scene(alloc, LONG, 8, 40, FOUR_IN_A_ROW)?;
    let text = format!(in alloc; "{row}===\n{claim}")?;
    let mut source = MemorySource::new(alloc, text.as_bytes(), &[])?;
    match audit(rt, alloc, &mut source, REGIONS, burst) {
        Ok(Verdict::Same { lines }) => Ok((lines, true)),
        Ok(Verdict::Line { number, .. }) => Ok((number, false)),
        Err(AuditFault::NoMemory) => Err(AllocError),
        Err(_) => Ok((0, false)),
    }
}

// Stops a test if the four disks, cut at tick 20, tell something else than two changes, or leave another scene.
fn expect_rest<B: Burst<Idle, ()>>(
    rt: &(impl Threads + Sync + Abort),
    alloc: Global,
    row: &Scene,
    burst: &mut B,
) -> Result<(), AllocError> {
    let mut listener = Count(0);
    if row.rules.end < 20 {
        panic!(rt; "the scene ends at {}", row.rules.end);
    }
    let Ok(Cut::Rest(left)) = cut_at(rt, alloc, row, 20, REGIONS, burst, &mut listener) else {
        return Err(AllocError);
    };
    assert_eq!(rt; listener.0, 2);
    let text = scene_text(alloc, &left)?;
    assert_eq!(rt; str::from_utf8(text.as_bytes()).unwrap_or("no text"), LEFT);
    Ok(())
}

#[test]
fn audits_over_calls_and_over_other_regions(rt: HostRuntime) -> Result<(), Fail> {
    let (_, other) = row_and_other(&rt, rt.alloc())?;
    expect_verdicts(&rt, rt.alloc(), &mut Scripted::new(rt.alloc(), CALLS)?)?;
    expect_verdicts(&rt, rt.alloc(), &mut Replacing { other: &other })?;
    Ok(())
}

#[test]
fn cuts_over_calls_and_over_other_regions(rt: HostRuntime) -> Result<(), Fail> {
    let (row, other) = row_and_other(&rt, rt.alloc())?;
    expect_rest(
        &rt,
        rt.alloc(),
        &row,
        &mut Scripted::new(rt.alloc(), CALLS)?,
    )?;
    expect_rest(&rt, rt.alloc(), &row, &mut Replacing { other: &other })?;
    Ok(())
}
