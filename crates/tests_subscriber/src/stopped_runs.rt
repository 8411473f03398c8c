//! Runs over a store, and what it holds.

use crate::row::{AMPLE, Stored};
use crate::steps::{are_rows, feed, over};
use pgapply::{DumpRow, ReplicaStore};
use pgorder::Version;
use pgspool::ByteSpools;
use pgstore::StoreFault;
use pgsub_core::Fault;
use std::alloc::Global;
use std::process::Abort;

/// The position of a store, and its rows.
#[derive(Clone, Copy)]
pub(crate) struct State {
    pub(crate) position: u64,
    pub(crate) rows: &'static [Stored],
}

/// A session of version 2 in words of `messages`, and the stores before it and after each of its
/// commits.
#[derive(Clone, Copy)]
pub(crate) struct Recording {
    pub(crate) session: &'static str,
    pub(crate) states: &'static [State],
}

/// A run over an opened store, which is given back. It is proved once, for any `ReplicaStore`.
pub(crate) trait Run {
    fn run<R: Abort + AllocGlobal, C: ReplicaStore + Drop>(&mut self, rt: &R, store: C) -> C;
}

/// Feeds a session's bytes to a new subscriber over a store, and gives the store back.
fn fed_over<C: ReplicaStore + Drop>(
    alloc: Global,
    store: C,
    bytes: &[u8],
) -> (Result<(), Fault>, C) {
    let spools = ByteSpools::new(alloc, AMPLE);
    let mut subscriber = over(alloc, store, spools, Version::Two);
    let fed = feed(&mut subscriber, bytes);
    (fed, subscriber.into_store())
}

/// Whether it went well, or a disk that stopped may be the cause.
fn may_come_of_a_stop(fed: &Result<(), Fault>) -> bool {
    matches!(
        fed,
        Ok(()) | Err(Fault::Store(StoreFault::Refused)) | Err(Fault::Memory)
    )
}

/// Whether a store tells why it failed, where it did: the disk failed.
fn tells_the_cause<C: ReplicaStore>(fed: &Result<(), Fault>, store: &C) -> bool {
    match fed {
        Err(Fault::Store(StoreFault::Refused)) => store.cause() == Some("the disk failed"),
        _ => true,
    }
}

/// Which of the states has this position and these rows, counted from 0.
fn index_of(states: &[State], position: u64, rows: &[DumpRow]) -> Option<usize> {
    for (index, state) in states.iter().enumerate() {
        if state.position == position && are_rows(rows, state.rows) {
            return Some(index);
        }
    }
    None
}

/// Which of the states a store is in, counted from 0.
fn state_of<C: ReplicaStore>(rt: &impl Abort, store: &mut C, states: &[State]) -> usize {
    let position = store.position().0;
    let rows = store.rows().expect(rt, "the rows");
    index_of(states, position, rows.as_slice()).expect(rt, "one of the states")
}

/// A run on disks that may stop.
#[derive(Drop)]
pub(crate) struct Stops<'t> {
    pub(crate) bytes: &'t [u8],
}

impl Run for Stops<'_> {
    fn run<R: Abort + AllocGlobal, C: ReplicaStore + Drop>(&mut self, rt: &R, store: C) -> C {
        let (fed, store) = fed_over(rt.alloc(), store, self.bytes);
        assert!(rt; may_come_of_a_stop(&fed));
        assert!(rt; tells_the_cause(&fed, &store));
        store
    }
}

/// A run on what a stop left: it is one of the states, and the session leads on to the last of
/// them.
#[derive(Drop)]
pub(crate) struct GoesOn<'t> {
    pub(crate) bytes: &'t [u8],
    pub(crate) recording: &'t Recording,
    /// The state in which the store was opened.
    pub(crate) state: Option<usize>,
}

impl Run for GoesOn<'_> {
    fn run<R: Abort + AllocGlobal, C: ReplicaStore + Drop>(&mut self, rt: &R, mut store: C) -> C {
        let states = self.recording.states;
        self.state = Some(state_of(rt, &mut store, states));
        let (fed, mut store) = fed_over(rt.alloc(), store, self.bytes);
        fed.expect(rt, "the end of the session");
        let state = state_of(rt, &mut store, states);
        assert!(rt; state.saturating_add(1) == states.len());
        store
    }
}
