//! Loads from frames, in pieces of each length.
//!
//! PostgreSQL documentation, Message Formats, CopyData; Logical Replication Message Formats,
//! Relation.

ghost use Rattle.std.specs.Prelude.{◌<◌};

use crate::loads::{POINT, ROWS, check_rows};
use pgapply::ReplicaStore;
use pgload::{Ended, InputFault, Limits, LoadFault, Loading, load_from};
use pgstore::Store;
use std::process::Abort;

// The longest payload.
const MAX_FRAME: u32 = 64;

// Relation 16384: public.t (i text key, v text)
const T: &[u8] =
    b"R\0\0\x40\0public\0t\0d\0\x02\x01i\0\0\0\0\x19\xff\xff\xff\xff\0v\0\0\0\0\x19\xff\xff\xff\xff";

// t; `1<tab>a\tb`, cut in its escape, and `2<tab>\N`; 16385: public.t (i text key); `3`; the point
const PAYLOADS: &[&[u8]] = &[
    T,
    b"t1\ta\\",
    b"ttb\n2\t\\N\n",
    b"e",
    b"R\0\0\x40\x01public\0t\0d\0\x01\x01i\0\0\0\0\x19\xff\xff\xff\xff",
    b"t3\n",
    b"e",
    b"p\0\0\0\0\x01\x95\x8b\x68",
];

// Appends the frame of a payload.
fn append(rt: &impl Abort, bytes: &mut Vec<u8>, payload: &[u8]) {
    let length = u32::try_from(payload.len().saturating_add(4)).expect(rt, "a length");
    bytes.extend_from_slice(b"d").expect(rt, "room");
    bytes
        .extend_from_slice(&length.to_be_bytes())
        .expect(rt, "room");
    bytes.extend_from_slice(payload).expect(rt, "room");
}

fn frames(rt: &(impl Abort + AllocGlobal), payloads: &[&[u8]]) -> Vec<u8> {
    let mut bytes = Vec::new(rt.alloc());
    for payload in payloads {
        append(rt, &mut bytes, payload);
    }
    bytes
}

// Feeds these bytes in pieces of this length, to the end of the load or a fault.
fn feed<C: ReplicaStore + Drop>(
    loading: &mut Loading<C>,
    bytes: &[u8],
    len: usize,
) -> Result<Option<Ended>, LoadFault>
    requires { 0 < len }
{
    for piece in bytes.chunks(len) {
        if let Some(ended) = loading.feed(piece)? {
            return Ok(Some(ended));
        }
    }
    Ok(None)
}

#[test]
fn pieces_make_no_difference(rt: HostRuntime) {
    let mut bytes = frames(&rt, PAYLOADS);
    let whole = bytes.len();
    bytes.extend_from_slice(b"more").expect(&rt, "room");
    for len in 1..bytes.len() {
        let store = Store::in_memory(rt.alloc()).expect(&rt, "a store");
        let mut loading = Loading::new(rt.alloc(), store, Limits::new(16, 8), MAX_FRAME);
        let ended = feed(&mut loading, bytes.as_slice(), len).expect(&rt, "a load");
        let ended = ended.expect(&rt, "an end");
        assert!(rt; ended.point.0 == POINT);
        assert!(rt; ended.taken == whole.saturating_sub(1) % len + 1);
        check_rows(&rt, &mut loading.into_store(), ROWS);
    }
}

#[test]
fn a_reader_is_read_to_the_end_of_its_load(rt: HostRuntime) {
    let mut bytes = frames(&rt, PAYLOADS);
    bytes.extend_from_slice(b"more").expect(&rt, "room");
    let store = Store::in_memory(rt.alloc()).expect(&rt, "a store");
    let mut reader = bytes.as_slice();
    let limits = Limits::new(16, 8);
    let (ended, mut store) = load_from(rt.alloc(), store, limits, MAX_FRAME, &mut reader);
    assert!(rt; matches!(ended, Ok(point) if point.0 == POINT));
    assert!(rt; reader == b"more".as_slice());
    check_rows(&rt, &mut store, ROWS);
}

#[test]
fn a_reader_ends_before_its_load(rt: HostRuntime) {
    let bytes = frames(&rt, PAYLOADS);
    for len in 0..bytes.len() {
        let store = Store::in_memory(rt.alloc()).expect(&rt, "a store");
        let mut reader = &bytes.as_slice()[..len];
        let limits = Limits::new(16, 8);
        let (ended, _store) = load_from(rt.alloc(), store, limits, MAX_FRAME, &mut reader);
        assert!(rt; matches!(ended, Err(InputFault::CutInput)));
    }
}

// Payloads of a load that stops at the last of them, and why.
type Stopped = (&'static [&'static [u8]], LoadFault);

const STOPPED: &[Stopped] = &[
    (&[b"t1\n"], LoadFault::Order),
    (&[b""], LoadFault::BadInput),
    (&[b"e1"], LoadFault::BadInput),
    (&[b"p\0"], LoadFault::BadInput),
    (&[b"S"], LoadFault::BadInput),
    (
        &[T, b"t1\n"],
        LoadFault::Line(16384, 1, pgcopy::Reason::MissingColumn),
    ),
];

#[test]
fn frames_stop_a_load(rt: HostRuntime) {
    for (payloads, fault) in STOPPED {
        let bytes = frames(&rt, payloads);
        let store = Store::in_memory(rt.alloc()).expect(&rt, "a store");
        let mut loading = Loading::new(rt.alloc(), store, Limits::new(16, 8), MAX_FRAME);
        assert!(rt; matches!(loading.feed(bytes.as_slice()), Err(stopped) if stopped == *fault));
        assert!(rt; matches!(loading.feed(b""), Err(stopped) if stopped == *fault));
    }
}
