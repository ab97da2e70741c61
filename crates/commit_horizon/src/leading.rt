//! The head that is merged next, and how far its region leads the others.

ghost use Rattle.std.specs.Prelude.{◌≡◌, ◌↔◌, ◌<◌, length, None, IsTrue};
ghost use Rattle.commit_horizon.specs.Merging.{head_in, heads_in};
ghost use Rattle.commit_horizon.specs.Leading.{NoOtherBefore, IsLeader, IsLeaderWith};

use event_tree::Packed;

/// The next action of a region that is to be merged, by its stamp and its place. Heads are compared again and again, so
/// they are small, and their stamps are packed.
#[derive(Clone, Copy)]
pub(crate) struct PackedHead {
    /// The stamp of the action; none if no action is left.
    pub(crate) stamp: Packed,
    /// Its place in the region's log, from 0 on.
    pub(crate) place: usize,
}

/// The least of some heads, and the number of its region. As long as that region's next action is before the second
/// head, it stays the leader, so the heads aren't compared for each action.
#[derive(Clone, Copy)]
pub(crate) struct Leader {
    /// The number of the region.
    pub(crate) number: usize,
    /// The stamp of the head; none if no region has one.
    pub(crate) stamp: Packed,
    /// The place of the head.
    pub(crate) place: usize,
    /// A stamp that no other head is before; none if there is no other head.
    pub(crate) second: Packed,
}

impl Leader {
    /// Whether no region has a head.
    #[inline(always)]
    pub(crate) fn is_none(&self) -> bool
        ensures { IsTrue result ↔ (self.now.stamp ≡ None) }
    {
        self.stamp.key().is_none()
    }
}

/// The leader of some heads.
pub(crate) fn find_leader(heads: &[PackedHead]) -> Leader
    ensures { IsLeader (heads_in heads.now) result }
{
    let mut first = Leader {
        number: 0,
        stamp: Packed::new(None),
        place: 0,
        second: Packed::new(None),
    };
    for k in 0..heads.len() {
        first = leader_with(first, k, heads[k]);
    }
    first
}

// The leader of the heads that one leads, and of one more.
#[inline(always)]
fn leader_with(first: Leader, k: usize, head: PackedHead) -> Leader
    ensures { IsLeaderWith first k head result }
{
    if head.stamp.is_before(first.stamp) {
        Leader {
            number: k,
            stamp: head.stamp,
            place: head.place,
            second: first.stamp,
        }
    } else {
        Leader {
            second: first.second.earlier(head.stamp),
            ..first
        }
    }
}

/// The leader once the region of the last one has another head: the same region, as long as that head is before the
/// second one.
#[inline(always)]
pub(crate) fn leader_after(heads: &[PackedHead], last: &Leader) -> Leader
    requires within { last.now.number < length heads.now }
    requires others { NoOtherBefore (heads_in heads.now) last.now.number last.now.second }
    ensures { IsLeader (heads_in heads.now) result }
{
    let head = heads[last.number];
    if head.stamp.is_before(last.second) {
        Leader {
            stamp: head.stamp,
            place: head.place,
            ..*last
        }
    } else {
        find_leader(heads)
    }
}

/// No head.
#[inline(always)]
pub(crate) fn no_head() -> PackedHead
    ensures { head_in result ≡ None }
{
    PackedHead {
        stamp: Packed::new(None),
        place: 0,
    }
}
