//! Steps and hearings: rolling back, a full log, and regions of other scenes.

use super::scripts::Answer::{
    Apart, Entries, Heard, Held, Later, PassedSpeed, Past, Ran, Rewound, Spent, Tied,
};
use super::scripts::Call::{Hears, Rewinds, Runs, Steps};
use super::scripts::{DOWN, Key, Script, UP, play};
use event_stamps::Kind::{Cross, Pair, Wall};
use std::test::Fail;
use test_scenes::{BOUNCING, MISLED, ROLLED_BACK};

const ROLLBACKS: &[Script] = &[
    (
        "news from one region goes on to the next",
        &[
            (ROLLED_BACK, 20, 0, false),
            (ROLLED_BACK, 20, 1, false),
            (ROLLED_BACK, 20, 2, false),
        ],
        &[
            (1, Steps, Ran((1, 0, Wall, 1, UP))),
            (1, Steps, Ran((3, 0, Wall, 1, DOWN))),
            (1, Steps, Ran((5, 0, Wall, 1, UP))),
            (1, Steps, Ran((7, 0, Wall, 1, DOWN))),
            (1, Steps, Ran((9, 0, Wall, 1, UP))),
            (1, Steps, Ran((11, 0, Wall, 1, DOWN))),
            (1, Steps, Ran((13, 0, Wall, 1, UP))),
            (1, Steps, Ran((15, 0, Wall, 1, DOWN))),
            (1, Steps, Ran((17, 0, Wall, 1, UP))),
            (1, Steps, Ran((19, 0, Wall, 1, DOWN))),
            (2, Hears(1), Later((1, 0, Wall, 1, UP))),
            (2, Steps, Heard((1, 0, Wall, 1, UP))),
            (2, Steps, Heard((3, 0, Wall, 1, DOWN))),
            (2, Steps, Heard((5, 0, Wall, 1, UP))),
            (2, Steps, Heard((7, 0, Wall, 1, DOWN))),
            (2, Steps, Heard((9, 0, Wall, 1, UP))),
            (2, Steps, Heard((11, 0, Wall, 1, DOWN))),
            (2, Steps, Heard((13, 0, Wall, 1, UP))),
            (2, Steps, Heard((15, 0, Wall, 1, DOWN))),
            (2, Steps, Heard((17, 0, Wall, 1, UP))),
            (2, Steps, Heard((19, 0, Wall, 1, DOWN))),
            (0, Steps, Ran((4, 0, Cross, 0, 0))),
            (1, Hears(0), Rewound((4, 0, Cross, 0, 0))),
            (2, Hears(1), Rewound((5, 0, Wall, 1, UP))),
        ],
    ),
    (
        "the speed limit is passed only until the news of disk 1 is heard",
        &[(MISLED, 3, 0, false), (MISLED, 3, 1, false)],
        &[
            (1, Steps, Ran((1, 0, Cross, 0, 0))),
            (1, Steps, PassedSpeed((2, 0, Pair, 0, 1))),
            (0, Steps, Ran((0, 0, Pair, 1, 2))),
            (1, Hears(0), Rewound((0, 0, Pair, 1, 2))),
            (1, Steps, Heard((0, 0, Pair, 1, 2))),
            (1, Steps, Ran((1, 0, Cross, 0, 0))),
            (1, Steps, Ran((1, 0, Pair, 0, 2))),
        ],
    ),
];

#[test]
fn regions_roll_back_and_go_on(rt: HostRuntime) -> Result<(), Fail> {
    play(&rt, rt.alloc(), ROLLBACKS)
}

const MOST_ENTRIES: u32 = 4_096;

// The middle of a full log, from which on entries are to be taken back.
const MIDDLE: Key = (4_097, 0, Wall, 0, UP);

const FULL_LOG: &[Script] = &[(
    "the log holds no more than its entries",
    &[(BOUNCING, 10_000, 0, false)],
    &[
        (0, Runs(MOST_ENTRIES), Ran((8_191, 0, Wall, 0, DOWN))),
        (0, Steps, Held),
        (0, Runs(1), Held),
        (0, Rewinds(MIDDLE), Entries(2_048)),
        (0, Steps, Ran(MIDDLE)),
    ],
)];

#[test]
fn a_region_holds_with_a_full_log(rt: HostRuntime) -> Result<(), Fail> {
    play(&rt, rt.alloc(), FULL_LOG)
}

// A disk that goes up and down in region 1, near the border.
const LEFT: &str = "[190, 10, 0, 8]";

// The same in region 2.
const RIGHT: &str = "[210, 10, 0, 8]";

// A disk at rest in region 0, and one in region 1.
const AT_REST: &str = "[50, 10, 0, 0], [102, 10, 0, 0]";

// A disk that comes from region 0 to the place of that one.
const COMING: &str = "[96, 10, 1, 0], [300, 10, 0, 0]";

const TOP: Key = (1, 0, Wall, 0, UP);

const CROSSING: Key = (4, 0, Cross, 0, 0);

const COLLISION: Key = (2, 0, Pair, 0, 1);

const STRANGERS: &[Script] = &[
    (
        "two disks of one number hit a side at once",
        &[(LEFT, 20, 1, false), (RIGHT, 20, 2, false)],
        &[
            (1, Steps, Ran(TOP)),
            (0, Hears(1), Later(TOP)),
            (0, Steps, Tied(TOP)),
        ],
    ),
    (
        "a disk comes after the collision in which it takes part",
        &[(AT_REST, 20, 1, false), (COMING, 20, 0, false)],
        &[
            (1, Steps, Ran(CROSSING)),
            (0, Hears(1), Later(CROSSING)),
            (0, Steps, Heard(CROSSING)),
            (0, Steps, Past(COLLISION, CROSSING)),
        ],
    ),
    (
        "a region is spent",
        &[
            (LEFT, 20, 1, true),
            (LEFT, 20, 2, false),
            (LEFT, 20, 0, false),
        ],
        &[
            (0, Steps, Spent),
            (0, Hears(1), Apart),
            (2, Hears(1), Apart),
        ],
    ),
];

#[test]
fn regions_meet_strangers(rt: HostRuntime) -> Result<(), Fail> {
    play(&rt, rt.alloc(), STRANGERS)
}
