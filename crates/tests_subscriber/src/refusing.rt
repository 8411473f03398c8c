//! Subscribers of which one allocation fails: `tools/refused_memory/run.sh tests_subscriber` makes
//! each fail in turn.

use crate::row::{AMPLE, Stored, T_1_E, T_1_L, T_2_M};
use crate::rows::{IN_BLOCKS, IN_PAIRS};
use crate::steps::{are_rows, follow_all, over, position_of, rows_of, sessions_of};
use crate::trials::{Trial, in_memory, on_memory_disks, try_in_memory, try_on_memory_disks};
use pgapply::{DumpRow, ReplicaStore, StoreFault};
use pgorder::Version;
use pgspool::{ByteSpools, ListSpools};
use pgsub_core::{Fault, Loads, Session, Subscriber};
use std::process::Abort;

/// All rows, asked for once more where memory ran out.
fn rows_in_the_end<P: Loads<C> + Drop, C: ReplicaStore + Drop>(
    subscriber: &mut Subscriber<P, C>,
) -> Result<Vec<DumpRow>, Fault> {
    match rows_of(subscriber) {
        Err(Fault::Memory) => rows_of(subscriber),
        answer => answer,
    }
}

/// The rows that both sessions leave at the end LSN of each commit.
fn rows_at(position: u64) -> Option<&'static [Stored]> {
    match position {
        0 => Some(&[]),
        0x330 => Some(&[T_1_E]),
        0x430 => Some(&[T_1_L, T_2_M]),
        _ => None,
    }
}

/// Whether the rows are those of the commit at the position.
fn has_rows_of_a_commit<P: Loads<C> + Drop, C: ReplicaStore + Drop>(
    subscriber: &mut Subscriber<P, C>,
) -> Result<bool, Fault> {
    let Some(wanted) = rows_at(position_of(subscriber)) else {
        return Ok(false);
    };
    let rows = rows_in_the_end(subscriber)?;
    Ok(are_rows(rows.as_slice(), wanted))
}

/// Follows a session to its end, once more where memory ran out; then the rows in between are those
/// of a commit. Where a store on disks has shut, the position is still that of a commit.
fn follow_in_the_end<P: Loads<C> + Drop, C: ReplicaStore + Drop>(
    rt: &impl Abort,
    subscriber: &mut Subscriber<P, C>,
    sessions: &[Session],
) -> Result<(), Fault> {
    let followed = follow_all(subscriber, sessions);
    assert!(rt; rows_at(position_of(subscriber)).is_some());
    if followed != Err(Fault::Memory) {
        return followed;
    }
    assert!(rt; has_rows_of_a_commit(subscriber)?);
    follow_all(subscriber, sessions)
}

/// Whether a session is applied whole, where one allocation may fail.
fn takes_whole<P: Loads<C> + Drop, C: ReplicaStore + Drop>(
    rt: &impl Abort,
    subscriber: &mut Subscriber<P, C>,
    sessions: &[Session],
) -> Result<bool, Fault> {
    follow_in_the_end(rt, subscriber, sessions)?;
    Ok(position_of(subscriber) == 0x430 && has_rows_of_a_commit(subscriber)?)
}

/// The same over a new store.
fn takes_all<P: Loads<C> + Drop, C: ReplicaStore + Drop>(
    rt: &(impl Abort + AllocGlobal),
    store: C,
    spools: P,
    sessions: &[Session],
) -> Result<bool, Fault> {
    let mut subscriber = over(rt.alloc(), store, spools, Version::Two);
    takes_whole(rt, &mut subscriber, sessions)
}

/// Applies a session whole with spools of either kind.
#[derive(Clone, Copy)]
struct TakesAll<'a> {
    as_bytes: bool,
    sessions: &'a [Session],
}

impl<R: Abort + AllocGlobal> Trial<R> for TakesAll<'_> {
    type Outcome = Result<bool, Fault>;

    fn run<C: ReplicaStore + Drop>(&self, rt: &R, store: C) -> Result<bool, Fault> {
        if self.as_bytes {
            takes_all(rt, store, ByteSpools::new(rt.alloc(), AMPLE), self.sessions)
        } else {
            takes_all(rt, store, ListSpools::new(rt.alloc(), AMPLE), self.sessions)
        }
    }
}

/// Whether all is applied over a store in memory, which is asked for once more where memory ran
/// out.
fn takes_all_in_memory(rt: &(impl Abort + AllocGlobal), trial: &TakesAll<'_>) -> bool {
    match try_in_memory(rt, trial) {
        Ok(taken) => taken == Ok(true),
        Err(_) => in_memory(rt, trial) == Ok(true),
    }
}

/// The same over disks in memory. Where a disk can't grow, the store may shut with `Refused`, and
/// all is applied again by other spools.
fn takes_all_on_disks(rt: &(impl Abort + AllocGlobal), trial: &TakesAll<'_>) -> bool {
    match try_on_memory_disks(rt, trial) {
        Ok(taken) if taken != Err(Fault::Store(StoreFault::Refused)) => taken == Ok(true),
        _ => on_memory_disks(rt, trial) == Ok(true),
    }
}

// The only result beside those that would have come is Memory, and nothing is lost.
#[test]
fn refused_memory_changes_nothing(rt: HostRuntime) {
    for session in [IN_PAIRS, IN_BLOCKS] {
        let sessions = sessions_of(&rt, &[session], 51);
        for as_bytes in [true, false] {
            let sessions = sessions.as_slice();
            assert!(rt; takes_all_in_memory(&rt, &TakesAll { as_bytes, sessions }));
        }
    }
}

#[test]
fn on_disks_refused_memory_changes_nothing(rt: HostRuntime) {
    for session in [IN_PAIRS, IN_BLOCKS] {
        let sessions = sessions_of(&rt, &[session], 51);
        for as_bytes in [true, false] {
            let sessions = sessions.as_slice();
            assert!(rt; takes_all_on_disks(&rt, &TakesAll { as_bytes, sessions }));
        }
    }
}
