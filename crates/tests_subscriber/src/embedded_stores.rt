//! The common subscriber, over a store on disks.

use crate::row::Step::{At, Feed, Rows};
use crate::row::{AMPLE, AT_ONCE, Row, T_1_A};
use crate::steps::take_steps;
use crate::trials::{Trial, on_memory_disks};
use pgapply::ReplicaStore;
use pgembed::subscriber_over;
use pgorder::Version;
use std::process::Abort;

static FED: Row = Row {
    shows: "the common subscriber",
    limit: AMPLE,
    steps: &[Feed("t1", Ok(())), At(0x130, 0x130, 0x130), Rows(&[T_1_A])],
};

/// Feeds a session to the common subscriber over a new store.
struct Feeds;

impl<R: Abort + AllocGlobal> Trial<R> for Feeds {
    type Outcome = ();

    fn run<C: ReplicaStore + Drop>(&self, rt: &R, store: C) {
        let mut subscriber = subscriber_over(rt.alloc(), store, Version::Two);
        take_steps(rt, &mut subscriber, &FED, AT_ONCE);
    }
}

#[test]
fn a_subscriber_applies_a_session(rt: HostRuntime) {
    on_memory_disks(&rt, &Feeds);
}
