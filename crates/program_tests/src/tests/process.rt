//! What the process does with its words, over other streams than its own.

use super::helpers::{
    AMPLE_ROOM, BESIDE_A_LINE, BOTH_ENGINES, MEETING, MEETING_REPORT, OwnTerminal, expect,
};
use hard_disks::{Status, Terminals, run_over, run_process_over};
use report_ports::{MemorySink, MemorySource};
use std::alloc::{AllocError, Global};
use std::process::Abort;
use std::sync::Wait;
use std::test::Fail;
use std::thread::Threads;
use std::time::Clock;

// Which streams are terminals, the calls of the source and the sink that fail, the status, and the output.
type Row = (
    Terminals,
    &'static [u64],
    &'static [u64],
    Status,
    &'static str,
);

const NO_TERMINAL: Terminals = Terminals {
    output: false,
    errors: false,
};

const BOTH_TERMINALS: Terminals = Terminals {
    output: true,
    errors: true,
};

const ROWS: &[Row] = &[
    (NO_TERMINAL, &[], &[], Status::Done, MEETING_REPORT),
    (BESIDE_A_LINE, &[], &[], Status::Done, MEETING_REPORT),
    (BOTH_TERMINALS, &[], &[], Status::Done, MEETING_REPORT),
    (BESIDE_A_LINE, &[0], &[], Status::ReadFault, ""),
    (BESIDE_A_LINE, &[], &[0], Status::WriteFault, ""),
    (
        BOTH_TERMINALS,
        &[],
        &[1],
        Status::WriteFault,
        "3 0 pair 0 1 -1 0 1 0\n",
    ),
];

#[test]
fn any_source_and_sink_are_served(rt: HostRuntime) -> Result<(), Fail> {
    for words in BOTH_ENGINES {
        for row in ROWS {
            expect_served(&rt, rt.alloc(), words, row)?;
        }
    }
    Ok(())
}

fn expect_served(
    rt: &(impl AllocGlobal + Eprint + Threads + Wait + Clock + Sync + Abort),
    alloc: Global,
    words: &[&str],
    &(terminals, takes, gives, status, want): &Row,
) -> Result<(), AllocError> {
    let source = MemorySource::new(alloc, MEETING.as_bytes(), takes)?;
    let sink = MemorySink::new(alloc, gives, AMPLE_ROOM)?;
    let (ended, _, sink) = run_over(rt, words, source, sink, terminals, &OwnTerminal);
    let case = (words, terminals, takes, gives);
    expect(rt, &case, &(sink, ended), status, want);
    Ok(())
}

#[test]
fn a_reader_and_a_writer_are_served_beside_a_terminal(rt: HostRuntime) {
    for words in BOTH_ENGINES {
        let output: Vec<u8> = Vec::new(rt.alloc());
        let input = MEETING.as_bytes();
        let (status, output) = run_process_over(
            &rt,
            words,
            input,
            output,
            BESIDE_A_LINE,
            &OwnTerminal,
        );
        let text = str::from_utf8(output.as_slice()).unwrap_or("no text");
        assert_eq!(rt; (status, text), (Status::Done, MEETING_REPORT), "{words:?}");
    }
}
