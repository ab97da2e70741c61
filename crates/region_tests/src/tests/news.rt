//! What a region does in a burst when another takes back what it sent, or tells it late.

use super::scripts::Answer::{Entries, Heard, News, Ran, Same};
use super::scripts::Call::{CatchesUp, HasNews, Hears, Rewinds, Runs};
use super::scripts::{DOWN, Key, Member, Script, UP, play};
use event_stamps::Kind::Wall;
use std::test::Fail;
use test_scenes::ROLLED_BACK;

// The first hits ten sides before the end, and tells the second of each hit.
const TELLER_AND_HEARER: &[Member] = &[(ROLLED_BACK, 20, 1, false), (ROLLED_BACK, 20, 2, false)];

const HITS: u32 = 10;

const THIRD_HIT: Key = (5, 0, Wall, 1, UP);

const LAST_HIT: Key = (19, 0, Wall, 1, DOWN);

const WAITING: &[Script] = &[(
    "what was taken back and comes again undoes nothing",
    TELLER_AND_HEARER,
    &[
        (0, Runs(HITS), Ran(LAST_HIT)),
        (1, CatchesUp(0), Entries(0)),
        (1, Runs(HITS), Heard(LAST_HIT)),
        (0, Rewinds(THIRD_HIT), Entries(2)),
        (1, CatchesUp(0), Entries(10)),
        (0, Runs(8), Ran(LAST_HIT)),
        (1, CatchesUp(0), Entries(10)),
        (1, Hears(0), Same),
    ],
)];

#[test]
fn what_was_taken_back_is_waited_for(rt: HostRuntime) -> Result<(), Fail> {
    play(&rt, rt.alloc(), WAITING)
}

const NEWS: &[Script] = &[(
    "there is news until it is heard",
    TELLER_AND_HEARER,
    &[
        (0, HasNews(2), News(false)),
        (0, Runs(HITS), Ran(LAST_HIT)),
        (0, HasNews(2), News(true)),
        (1, CatchesUp(0), Entries(0)),
        (0, HasNews(2), News(false)),
        (0, Rewinds(THIRD_HIT), Entries(2)),
        (0, HasNews(2), News(true)),
        (1, CatchesUp(0), Entries(0)),
        (0, HasNews(2), News(true)),
        (0, Runs(8), Ran(LAST_HIT)),
        (1, CatchesUp(0), Entries(0)),
        (0, HasNews(2), News(false)),
    ],
)];

#[test]
fn there_is_news_until_it_is_heard(rt: HostRuntime) -> Result<(), Fail> {
    play(&rt, rt.alloc(), NEWS)
}

// Disk 0 goes up and down in region 1, at the border of region 2, and disk 1 far from it in region 2.
const FAR_APART: &str = "[190, 10, 0, 8], [250, 10, 0, 8]";

const LATE: &[Script] = &[(
    "what comes late from disks far away is taken in, and what was done since stays",
    &[(FAR_APART, 20, 1, false), (FAR_APART, 20, 2, false)],
    &[
        (1, Runs(HITS), Ran(LAST_HIT)),
        (0, Runs(HITS), Ran((19, 0, Wall, 0, DOWN))),
        (1, CatchesUp(0), Entries(20)),
        (1, Hears(0), Same),
    ],
)];

#[test]
fn what_comes_late_is_taken_in(rt: HostRuntime) -> Result<(), Fail> {
    play(&rt, rt.alloc(), LATE)
}
