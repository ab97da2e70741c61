//! What a glass sees; no clause ties it to the moment of its look.

use live_progress::{Board, Progress};
use std::alloc::{AllocError, Global};
use std::sync::Wait;
use std::test::Fail;

const NONE: Progress = Progress { events: 0, tick: 0 };

const FIRST: Progress = Progress { events: 1, tick: 3 };

const SECOND: Progress = Progress { events: 2, tick: 3 };

#[test]
fn a_glass_sees_what_was_published_last(rt: HostRuntime) {
    let seen = seen(&rt, rt.alloc()).ok();
    assert!(rt;
        seen == Some((NONE, FIRST, SECOND, SECOND)),
        "{seen:?}, before any publishing, after the first pair and the second, and of the pen that took the glass back"
    );
}

fn seen<R: Wait>(
    rt: &R,
    alloc: Global,
) -> Result<(Progress, Progress, Progress, Progress), AllocError> {
    let (board, mut pen) = Board::open(alloc)?;
    let mut glass = board.glass(rt, &mut pen);
    let none = board.look(rt, &mut glass);
    board.publish(rt, &mut pen, FIRST);
    let one = board.look(rt, &mut glass);
    board.publish(rt, &mut pen, SECOND);
    let two = board.look(rt, &mut glass);
    board.retire(rt, &mut pen, glass);
    Ok((none, one, two, pen.last()))
}

#[test]
fn a_board_has_the_end_that_was_announced_last(rt: HostRuntime) -> Result<(), Fail> {
    let (board, _pen) = Board::open(rt.alloc())?;
    for end in [0, 1_000, 40] {
        board.announce(end);
        assert_eq!(rt; board.end(), end);
    }
    Ok(())
}
