//! The bounds of the commit horizon.

ghost use Rattle.commit_horizon.specs.Horizon.{AllKept};
ghost use Rattle.commit_horizon.specs.Bounds.{HoldsUpTo, OfAll, IsUpToDue, AgreeOn, AllAgreeWith, AllAgree, IsUpToAll};
ghost use Rattle.local_run.specs.Keeping.{IsKept};

use event_stamps::{Stamp, earlier};
use region_core::Region;
use region_messages::first_disagreement;

/// The least of the end, of what each region has due (or of its floor, if that is later), and of the first
/// disagreement of what each sent and each linked one heard of it.
pub(crate) fn least_bound(end: Stamp, regions: &[Region]) -> Stamp
    ensures bound { HoldsUpTo (IsUpToAll end regions.now) (Some result) }
    ensures kept { AllKept regions.now }
{
    let bound = earlier(least_due(regions), first_apart_of_all(regions));
    earlier(Some(end), bound).unwrap_or(end)
}

// The least of what the regions have due.
fn least_due(regions: &[Region]) -> Option<Stamp>
    ensures due { HoldsUpTo (OfAll IsUpToDue regions.now) result }
    ensures kept { AllKept regions.now }
{
    let mut least = None;
    for region in regions {
        least = earlier(least, Some(due_bound(region)));
    }
    least
}

// What a region has due, or its floor, if that is later.
fn due_bound(region: &Region) -> Stamp
    ensures due { HoldsUpTo (IsUpToDue region.now) (Some result) }
    ensures kept { IsKept region.now }
{
    let floor = region.floor();
    let due = region.due();
    if due < floor { floor } else { due }
}

// The first disagreement of any two regions that are linked.
fn first_apart_of_all(regions: &[Region]) -> Option<Stamp>
    ensures { HoldsUpTo (AllAgree regions.now) result }
{
    let mut first = None;
    for sender in regions {
        first = earlier(first, first_apart_from(sender, regions));
    }
    first
}

// The first disagreement of what a region sent and what any linked one heard of it.
fn first_apart_from(sender: &Region, regions: &[Region]) -> Option<Stamp>
    ensures { HoldsUpTo (AllAgreeWith regions.now sender.now) result }
{
    let mut first = None;
    for hearer in regions {
        first = earlier(first, first_apart(sender, hearer));
    }
    first
}

// The first disagreement of what the one sent and the other heard of it; none if the two aren't linked.
fn first_apart(sender: &Region, hearer: &Region) -> Option<Stamp>
    ensures { HoldsUpTo (AgreeOn sender.now hearer.now) result }
{
    let sent = sender.sent(hearer.number())?;
    let heard = hearer.heard(sender.number())?;
    first_disagreement(sent, heard)
}
