//! Commits that leave what is final to be told.

ghost use Rattle.std.specs.Prelude.{◌≡◌, [], length, map, OnOk, IfOk};
ghost use Rattle.event_stamps.specs.Ordered.{KeysRise};
ghost use Rattle.cell_sequence.specs.State.{CellStateData};
ghost use Rattle.local_run.specs.Entries.{entry_stamp};
ghost use Rattle.local_run.specs.Raising.{raised_region};
ghost use Rattle.event_log.specs.Logged.{entries_in};
ghost use Rattle.commit_horizon.specs.Raising.{AllMayRise};
ghost use Rattle.commit_horizon.specs.Telling.{IsStateOf};
ghost use Rattle.commit_horizon.specs.Cutting.{logs_below, AllRise, HasActionAt, SomeHasStamp, IsLatest, latest_of, FinalMade};

use crate::bounding::least_bound;
use crate::untold::Untold;
use event_log::EventLog;
use event_stamps::Stamp;
use fixed_motion::Rules;
use region_core::Region;
use std::alloc::{AllocError, Global};

/// How a commit changes the state on which the regions stand. The rows aren't in it: the regions have them.
#[derive(Clone, Copy)]
pub struct Final {
    /// The stamp of the last action of its batch; none if the batch is empty.
    pub last: Option<Stamp>,
    /// The floor: the horizon.
    pub floor: Stamp,
}

/// Makes final what regions, which stand by number on a cell state with these rules, did before the commit horizon: it
/// is cut off their logs and becomes what is untold, and all floors are raised to the horizon. All that was untold
/// before has to be told already.
///
/// # Errors
/// Out of memory: the regions and what is untold are to be given up.
pub fn commit_cutting(
    alloc: Global,
    rules: &Rules,
    regions: &mut [Region],
    untold: &mut Untold,
) -> Result<Final, AllocError>
    requires stand { (state : CellStateData) × IsStateOf rules.now regions.old state }
    requires told { untold.old ≡ [] }
    ensures { IfOk result (λ made. (state : CellStateData) → IsStateOf rules.now regions.old state →
        FinalMade state regions.old made untold.new regions.new) }
{
    let floor = least_bound(Stamp::end_of(rules.end), regions);
    let mut logs = untold.take_logs(alloc);
    fit(alloc, &mut logs, regions.len())?;
    cut_floors(regions, floor, &mut logs)?;
    let last = last_of_all(&logs);
    untold.begin(alloc, logs)?;
    Ok(Final { last, floor })
}

// Drops or adds logs until there are `count`. What is in them doesn't matter.
fn fit(alloc: Global, logs: &mut Vec<EventLog>, count: usize) -> Result<(), AllocError>
    ensures { OnOk result (length logs.new.items ≡ count) }
{
    logs.truncate(count);
    'logs: while logs.len() < count {
        logs.push(EventLog::new(alloc))?;
    }
    Ok(())
}

// Raises the floors of all regions to a stamp, and cuts what they did before it off into logs, one for each.
fn cut_floors(regions: &mut [Region], to: Stamp, logs: &mut [EventLog]) -> Result<(), AllocError>
    requires may { AllMayRise to regions.old }
    requires count { length logs.old ≡ length regions.old }
    ensures raised { OnOk result (regions.new ≡ map (raised_region to) regions.old) }
    ensures cut { OnOk result (map entries_in logs.new ≡ logs_below to regions.old) }
{
    for k in 0..regions.len() {
        regions[k].cut_floor(to, &mut logs[k])?;
    }
    Ok(())
}

// The stamp of the last action of all logs; none if there is no action.
fn last_of_all(logs: &[EventLog]) -> Option<Stamp>
    requires { AllRise (map entries_in logs.now) }
    ensures { IsLatest (SomeHasStamp (map entries_in logs.now)) result }
{
    let mut last = None;
    for log in logs {
        last = latest(last, last_of(log));
    }
    last
}

// The stamp of the last action of a log; none if it has no action.
fn last_of(log: &EventLog) -> Option<Stamp>
    requires { KeysRise entry_stamp (entries_in log.now) }
    ensures { IsLatest (HasActionAt (entries_in log.now)) result }
{
    let mut place = log.len();
    'entries: while place > 0 {
        place -= 1;
        if let Some(stamp) = log.native_stamp(place) {
            return Some(stamp);
        }
    }
    None
}

fn latest(a: Option<Stamp>, b: Option<Stamp>) -> Option<Stamp>
    ensures { result ≡ latest_of a b }
{
    match (a, b) {
        (None, b) => b,
        (a, None) => a,
        (Some(s), Some(t)) => Some(if s < t { t } else { s }),
    }
}
