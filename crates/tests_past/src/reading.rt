//! Bytes that are handed on while their commits are compared.

ghost use Rattle.std.specs.Prelude.{⊤};

use crate::memory::MemoryFile;
use pgcompared::{Compared, Finding};
use pgorder::Version;
use pgpast::{Comparing, FirstStatus, Notes, RepeatListener, StorePosition};
use pgrepeats::{Commit, Digest, Past};
use std::alloc::Global;
use std::cell::Cell;
use std::io::{Read, Write};
use std::process::Abort;

/// Counts what is found.
#[derive(Drop)]
struct Count<'a> {
    found: &'a mut u32,
}

impl RepeatListener for Count<'_> {
    ghost hears = { λ _ _ _. ⊤ };

    ghost loses = { λ _ _. ⊤ };

    fn hear(&mut self, _found: &Finding) {
        *self.found = self.found.saturating_add(1);
    }

    fn hear_unkept(&mut self) {}
}

/// How many bytes the frame of a Begin has, and that of a Commit.
const FRAMES: [usize; 2] = [51, 56];

fn put(rt: &impl Abort, bytes: &mut Vec<u8>, more: &[u8]) {
    let put = bytes.extend_from_slice(more);
    assert!(rt; put.is_ok());
}

/// CopyData with XLogData of so many bytes.
fn frame(rt: &impl Abort, bytes: &mut Vec<u8>, len: u32) {
    put(rt, bytes, b"d");
    put(rt, bytes, &len.saturating_add(29).to_be_bytes());
    put(rt, bytes, b"w");
    put(rt, bytes, &[0; 24]);
}

/// A transaction without changes, which ends eight bytes behind its LSN.
fn pair(rt: &impl Abort, bytes: &mut Vec<u8>, lsn: u64, xid: u32) {
    frame(rt, bytes, 21);
    put(rt, bytes, b"B");
    put(rt, bytes, &lsn.to_be_bytes());
    put(rt, bytes, &[0; 8]);
    put(rt, bytes, &xid.to_be_bytes());
    frame(rt, bytes, 26);
    put(rt, bytes, b"C\0");
    put(rt, bytes, &lsn.to_be_bytes());
    put(rt, bytes, &lsn.saturating_add(8).to_be_bytes());
    put(rt, bytes, &[0; 8]);
}

/// Two transactions of which the first one has this xid.
fn two(rt: &(impl Abort + AllocGlobal), xid: u32) -> Vec<u8> {
    let mut bytes = Vec::new(rt.alloc());
    pair(rt, &mut bytes, 8, xid);
    pair(rt, &mut bytes, 24, 20);
    bytes
}

/// Two sessions whose first commits aren't the same.
fn set_back(rt: &(impl Abort + AllocGlobal)) -> Vec<u8> {
    let mut bytes = two(rt, 10);
    put(rt, &mut bytes, b"c\0\0\0\x04");
    put(rt, &mut bytes, two(rt, 11).as_slice());
    bytes
}

fn compared(alloc: Global, past: Past) -> Compared {
    Compared::new(alloc, Version::Two, 1000, 100, past)
}

/// A store at a position.
#[derive(Drop)]
struct At(u64);

impl StorePosition for At {
    ghost says = { λ _ _. ⊤ };

    fn position(&self) -> u64 {
        self.0
    }
}

/// What is handed on of these bytes, and whether a read failed.
fn handed(
    rt: &(impl Abort + AllocGlobal),
    bytes: &[u8],
    stops: bool,
    found: &mut u32,
) -> (Vec<u8>, bool) {
    let empty = MemoryFile::holding(Vec::new(rt.alloc()));
    handed_beside(rt, (empty, At(0)), bytes, stops, found)
}

/// The same beside a file of noted commits, and a store.
fn handed_beside<P: StorePosition + Drop>(
    rt: &(impl Abort + AllocGlobal),
    (file, store): (MemoryFile, P),
    bytes: &[u8],
    stops: bool,
    found: &mut u32,
) -> (Vec<u8>, bool) {
    let opened = Notes::open(rt.alloc(), file).expect(rt, "open");
    let compared = compared(rt.alloc(), opened.past);
    let made = Comparing::new(
        rt.alloc(),
        bytes,
        Count { found },
        store,
        compared,
        opened.notes,
        stops,
    );
    let mut reader = made.expect(rt, "reader");
    let mut out = Vec::new(rt.alloc());
    let mut room = [0u8; 7];
    for _ in 0..1000 {
        match reader.read(&mut room) {
            Ok(0) => return (out, false),
            Ok(count) => put(rt, &mut out, &room[..count]),
            Err(_) => return (out, reader.has_stopped()),
        }
    }
    (out, false)
}

#[test]
fn bytes_pass_unchanged(rt: HostRuntime) {
    let bytes = set_back(&rt);
    let mut found = 0;
    let (out, failed) = handed(&rt, bytes.as_slice(), false, &mut found);
    assert!(&rt; !failed && found == 1);
    assert!(&rt; out.as_slice() == bytes.as_slice());
}

/// The frame of the second session's first Commit isn't handed on.
#[test]
fn it_stops_before_another_commit(rt: HostRuntime) {
    let bytes = set_back(&rt);
    let mut found = 0;
    let (out, failed) = handed(&rt, bytes.as_slice(), true, &mut found);
    assert!(&rt; failed && found == 1);
    let whole = 2 * (FRAMES[0] + FRAMES[1]) + 5 + FRAMES[0];
    assert!(&rt; out.len() == whole);
    assert!(&rt; bytes.as_slice().starts_with(out.as_slice()));
}

/// A file in which two transactions are noted, of which the second one ends at 32.
fn noted(rt: &(impl Abort + AllocGlobal)) -> MemoryFile {
    let opened = Notes::open(rt.alloc(), MemoryFile::holding(Vec::new(rt.alloc())));
    let mut notes = opened.expect(rt, "open").notes;
    for (lsn, xid) in [(8u64, 10), (24, 20)] {
        let commit = Commit {
            end: lsn.saturating_add(8),
            lsn,
            xid,
            time: 0,
            digest: Digest::of_none(),
        };
        notes.keep(false, Some(commit)).expect(rt, "keep");
    }
    notes.into_file()
}

/// A new transaction, and then a session of a server that was set back behind that.
fn set_back_behind_a_new_one(rt: &(impl Abort + AllocGlobal)) -> Vec<u8> {
    let mut bytes = Vec::new(rt.alloc());
    pair(rt, &mut bytes, 40, 30);
    put(rt, &mut bytes, b"c\0\0\0\x04");
    pair(rt, &mut bytes, 24, 21);
    bytes
}

/// A store above all that is noted has commits that aren't.
#[test]
fn what_is_noted_stays_where_the_store_has_no_more(rt: HostRuntime) {
    let bytes = set_back_behind_a_new_one(&rt);
    for (position, contradicted) in [(32, 1), (33, 0)] {
        let mut found = 0;
        let store = (noted(&rt), At(position));
        let _ = handed_beside(&rt, store, bytes.as_slice(), false, &mut found);
        assert!(&rt; found == contradicted);
    }
}

/// The frame of a status that confirms this.
fn status(rt: &(impl Abort + AllocGlobal), flushed: u64) -> Vec<u8> {
    let mut bytes = Vec::new(rt.alloc());
    put(rt, &mut bytes, b"d\0\0\0\x26r");
    for lsn in [7, flushed, 8, 9] {
        put(rt, &mut bytes, &lsn.to_be_bytes());
    }
    put(rt, &mut bytes, b"\0");
    bytes
}

/// The store is asked at the first read, when the first status is written.
#[test]
fn the_first_status_tells_the_position(rt: HostRuntime) {
    let position = Cell::new(u64::MAX);
    let mut out = Vec::new(rt.alloc());
    let mut writer = FirstStatus::new(&mut out, &position);
    for flushed in [32, 40] {
        let bytes = status(&rt, flushed);
        assert!(&rt; writer.write_all(bytes.as_slice()).is_ok());
    }
    assert!(&rt; writer.flush().is_ok());
    assert!(&rt; position.get() == 32);
    let bytes = set_back_behind_a_new_one(&rt);
    let mut found = 0;
    let store = (noted(&rt), &position);
    let _ = handed_beside(&rt, store, bytes.as_slice(), false, &mut found);
    assert!(&rt; found == 1);
}

/// Bytes that are no status tell none.
#[test]
fn what_is_too_short_tells_no_position(rt: HostRuntime) {
    let position = Cell::new(u64::MAX);
    let mut out = Vec::new(rt.alloc());
    let mut writer = FirstStatus::new(&mut out, &position);
    let mut bytes = status(&rt, 32);
    bytes.truncate(21);
    assert!(&rt; writer.write_all(bytes.as_slice()).is_ok());
    assert!(&rt; position.get() == u64::MAX);
}
