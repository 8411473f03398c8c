//! A subscriber whose rows are in memory, with what its calls pass.

use crate::steps::bytes_of;
use pgembed::InMemory;
use pgorder::Version;
use std::alloc::Global;

/// The line of the row that the session inserts.
const LINE: &[u8] = b"[\"public\",\"t\",[\"1\",\"a\"],1]\n";

/// Whether the session is fed, and its row passed where there is room.
fn is_fed(alloc: Global, held: &mut InMemory, session: &[u8]) -> bool {
    let (mut room, mut small, mut length) = ([b'.'; 64], [b'.'; 8], 1);
    let fed = held.feed(alloc, session, 7, &mut room, &mut length);
    let is_placed = (length, held.position(), held.confirmed()) == (0, 0x130, 0x130);
    let passed = held.rows(alloc, &mut room, &mut length);
    let is_line = room.starts_with(LINE) && length == LINE.len();
    let refused = held.rows(alloc, &mut small, &mut length);
    is_placed && is_line && (fed, passed, refused, length) == (0, 0, 10, LINE.len())
}

/// Whether a fault closes it until the next session.
fn closes(alloc: Global, held: &mut InMemory) -> bool {
    let (mut room, mut length) = ([b'.'; 64], 0);
    let rejected = held.feed(alloc, b"e", 7, &mut room, &mut length);
    let is_told = room.starts_with(b"wire ");
    let closed = held.feed(alloc, b"", 7, &mut room, &mut length);
    let is_closed = room.starts_with(b"closed") && length == 6;
    held.disconnect();
    let fed = held.feed(alloc, b"", 7, &mut room, &mut length);
    is_told && is_closed && (rejected, closed, fed, length) == (1, 8, 0, 0)
}

/// Whether a status is passed once there is room, and then no more.
fn replies(held: &mut InMemory) -> bool {
    let (mut room, mut length, mut none) = ([0; 64], 0, 1);
    let asked = held.status(7, true);
    let refused = held.take_replies(&mut [], &mut length);
    let passed = held.take_replies(&mut room, &mut length);
    let is_status = room.starts_with(b"d\0\0\0\x26r") && room[38] == 1;
    let again = held.take_replies(&mut room, &mut none);
    is_status && (asked, refused, passed, again) == (0, 10, 0, 0) && (length, none) == (39, 0)
}

/// What is tried with a new subscriber.
#[derive(Clone, Copy)]
enum Tried {
    Feeds,
    Closes,
    Replies,
}

/// Tries a new subscriber. It is here alone, since what is proved of its layout is long.
fn meets(rt: &impl AllocGlobal, version: Version, tried: Tried, session: &[u8]) -> bool {
    match InMemory::new(rt.alloc(), version) {
        Ok(mut held) => match tried {
            Tried::Feeds => is_fed(rt.alloc(), &mut held, session),
            Tried::Closes => closes(rt.alloc(), &mut held),
            Tried::Replies => replies(&mut held),
        },
        Err(_) => false,
    }
}

#[test]
fn a_session_is_fed(rt: HostRuntime) {
    let session = bytes_of(&rt, "t1");
    let is_met = meets(&rt, Version::Two, Tried::Feeds, &session);
    drop(session);
    assert!(rt; is_met);
}

#[test]
fn a_fault_closes_until_the_next_session(rt: HostRuntime) {
    assert!(rt; meets(&rt, Version::One, Tried::Closes, b""));
}

#[test]
fn replies_are_passed_once(rt: HostRuntime) {
    assert!(rt; meets(&rt, Version::Two, Tried::Replies, b""));
}
