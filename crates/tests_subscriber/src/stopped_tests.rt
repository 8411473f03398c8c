//! A disk that stops in the middle of its work: a store on two disks in memory follows a session,
//! and one of them passes so many calls on and fails each one after. What was written by then is
//! adopted again: it must be the store as of one of the commits, or whole groups of them where they
//! were settled together, and following once more must reach the end. That is tried for each number
//! of calls until a run meets no stop.

use crate::row::{T_1_A, T_1_E, T_1_L, T_2_B, T_2_M};
use crate::rows::IN_BLOCKS;
use crate::steps::bytes_of;
use crate::stopped_runs::{GoesOn, Recording, State, Stops};
use crate::stopping_disks::{Calls, Left, NEVER, nothing, try_over};
use std::process::Abort;

const NEW: State = State {
    position: 0,
    rows: &[],
};

/// Two transactions in blocks that alternate.
static BLOCKS: Recording = Recording {
    session: IN_BLOCKS,
    states: &[
        NEW,
        State {
            position: 0x330,
            rows: &[T_1_E],
        },
        State {
            position: 0x430,
            rows: &[T_1_L, T_2_M],
        },
    ],
};

/// A table from which a column is taken, so that its row is carried over.
static CARRIED: Recording = Recording {
    session: "begin:100 rel:tz ins:2bc commit:130 begin:200 rel:t ins:1a commit:230",
    states: &[
        NEW,
        State {
            position: 0x130,
            rows: &[(16384, "t", &["2", "b", "c"], 1)],
        },
        State {
            position: 0x230,
            rows: &[T_1_A, T_2_B],
        },
    ],
};

/// A run on two new disks that stop after so many calls.
fn run(rt: &(impl Abort + AllocGlobal), bytes: &[u8], calls: Calls) -> Left {
    try_over(rt, &nothing(rt.alloc()), calls, &mut Stops { bytes })
}

/// A run on what was left. Returns the state in which that is.
fn run_again(
    rt: &(impl Abort + AllocGlobal),
    bytes: &[u8],
    left: &Left,
    recording: &Recording,
) -> usize {
    let mut run = GoesOn {
        bytes,
        recording,
        state: None,
    };
    let _left = try_over(rt, left, calls_of(NEVER, true), &mut run);
    run.state.expect(rt, "a store on what was left")
}

/// One of the disks passes so many calls on, the other all.
fn calls_of(number: u64, is_log: bool) -> Calls {
    match is_log {
        true => Calls {
            log: number,
            db: NEVER,
        },
        false => Calls {
            log: NEVER,
            db: number,
        },
    }
}

/// Stops a disk after so many calls. Returns the state in which what is left is, and whether a stop
/// was met.
fn run_on_stopping(
    rt: &(impl Abort + AllocGlobal),
    bytes: &[u8],
    recording: &Recording,
    calls: Calls,
) -> (usize, bool) {
    let left = run(rt, bytes, calls);
    (run_again(rt, bytes, &left, recording), left.has_stopped)
}

/// Stops a disk after so many calls, for each number until a run meets no stop, which leaves the
/// last state. A later stop leaves no less.
fn sweep(rt: &(impl Abort + AllocGlobal), recording: &Recording, is_log: bool) {
    let bytes = bytes_of(rt, recording.session);
    let mut last = 0;
    for number in 0..NEVER {
        let calls = calls_of(number, is_log);
        let (state, has_stopped) = run_on_stopping(rt, bytes.as_slice(), recording, calls);
        assert!(rt; state >= last, "{number}");
        last = state;
        if !has_stopped {
            break;
        }
    }
    drop(bytes);
    assert!(rt; last.saturating_add(1) == recording.states.len());
}

#[test]
fn the_log_stops_in_blocks(rt: HostRuntime) {
    sweep(&rt, &BLOCKS, true);
}

#[test]
fn the_database_file_stops_in_blocks(rt: HostRuntime) {
    sweep(&rt, &BLOCKS, false);
}

#[test]
fn the_log_stops_while_rows_are_carried(rt: HostRuntime) {
    sweep(&rt, &CARRIED, true);
}

#[test]
fn the_database_file_stops_while_rows_are_carried(rt: HostRuntime) {
    sweep(&rt, &CARRIED, false);
}
