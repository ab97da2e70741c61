//! Sending the messages of an action.

ghost use Rattle.std.specs.Prelude.{◌≡◌, ◌++◌, [], OnOk, IfSome, IsTrue};
ghost use Rattle.region_view.specs.declared.action.Action.TheVariants.{Cross, Hit};
ghost use Rattle.region_view.specs.Views.{rows_in};
ghost use Rattle.region_messages.specs.Trails.{IsAfterAll};
ghost use Rattle.local_run.specs.LocalRun.{prepended};
ghost use Rattle.region_parts.specs.Border.{IsUntold};
ghost use Rattle.region_parts.specs.Sending.{MaySend, HasSent};

use event_rules::Change;
use event_stamps::Stamp;
use local_run::{FARTHEST, Home};
use region_messages::Trail;
use region_view::{Action, Message, View, message_for};
use std::alloc::AllocError;

/// Sends the messages of a crossing, one to each region that is told of it. If the crossing is known to be untold,
/// nothing is done. Few events are so near a border that they are told, and only of these the action is put together.
///
/// # Errors
/// Out of memory: what was sent is to be let go.
#[inline(always)]
pub fn send_crossing(
    sent: &mut Vec<Trail>,
    home: &Home,
    before: &View,
    stamp: &Stamp,
    cell: u32,
    is_untold: bool,
) -> Result<(), AllocError>
    requires may { MaySend home.now (rows_in before.now) (Cross stamp.now cell) sent.old.items }
    requires untold { IsTrue is_untold → IsUntold home.now (rows_in before.now) (Cross stamp.now cell) }
    ensures { OnOk result
        (HasSent home.now (rows_in before.now) (Cross stamp.now cell) sent.old.items sent.new.items) }
{
    if is_untold {
        return Ok(());
    }
    let stamp = *stamp;
    send(sent, home, before, &Action::Cross { stamp, cell })
}

/// The same for a collision.
///
/// # Errors
/// Out of memory: what was sent is to be let go.
#[inline(always)]
pub fn send_hit(
    sent: &mut Vec<Trail>,
    home: &Home,
    before: &View,
    change: &Change,
    is_untold: bool,
) -> Result<(), AllocError>
    requires may { MaySend home.now (rows_in before.now) (Hit change.now) sent.old.items }
    requires untold { IsTrue is_untold → IsUntold home.now (rows_in before.now) (Hit change.now) }
    ensures { OnOk result (HasSent home.now (rows_in before.now) (Hit change.now) sent.old.items sent.new.items) }
{
    if is_untold {
        return Ok(());
    }
    send(sent, home, before, &Action::Hit(*change))
}

/// The same for any action, whether or not it is told.
///
/// # Errors
/// Out of memory: what was sent is to be let go.
#[inline(never)]
pub fn send(
    sent: &mut Vec<Trail>,
    home: &Home,
    before: &View,
    action: &Action,
) -> Result<(), AllocError>
    requires { MaySend home.now (rows_in before.now) action.now sent.old.items }
    ensures { OnOk result (HasSent home.now (rows_in before.now) action.now sent.old.items sent.new.items) }
{
    let regions = home.grid.regions();
    let first = home.number.saturating_sub(FARTHEST);
    let end = (home.number + FARTHEST + 1).min(regions);
    for to in first..end {
        if !home.sends_to(to) {
            continue;
        }
        let message = message_for(before, action, &home.grid, to);
        send_one(&mut sent[to as usize], message)?;
    }
    Ok(())
}

// Appends a message, if there is one.
fn send_one(trail: &mut Trail, message: Option<Message>) -> Result<(), AllocError>
    requires { IfSome message (λ m. IsAfterAll trail.old m.stamp) }
    ensures { OnOk result (trail.new ≡ trail.old ++ prepended message []) }
{
    if let Some(message) = message {
        trail.push(message)?;
    }
    Ok(())
}
