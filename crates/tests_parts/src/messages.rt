//! Bodies of messages, byte for byte, as the documentation lays them out. Borrowing one asks for no
//! memory.
//!
//! PostgreSQL documentation, Logical Replication Message Formats.

use pglogical::{ItemRef, Message, MessageRef, decode, decode_ref, encode};
use std::process::Abort;

const BEGIN: &[u8] = &[
    66, 0, 0, 0, 0, 0, 0, 1, 0, 0, 0, 0, 0, 0, 0, 0, 0, 0, 0, 0, 10,
];

pub(crate) const RELATION_T: &[u8] = &[
    82, 0, 0, 64, 0, 112, 117, 98, 108, 105, 99, 0, 116, 0, 100, 0, 2, 1, 105, 100, 0, 0, 0, 0, 23,
    255, 255, 255, 255, 0, 118, 0, 0, 0, 0, 25, 255, 255, 255, 255,
];

pub(crate) const INSERT: &[u8] = &[
    73, 0, 0, 64, 0, 78, 0, 2, 116, 0, 0, 0, 1, 49, 116, 0, 0, 0, 1, 97,
];

const COMMIT: &[u8] = &[
    67, 0, 0, 0, 0, 0, 0, 0, 1, 0, 0, 0, 0, 0, 0, 0, 1, 48, 0, 0, 0, 0, 0, 0, 0, 0,
];

const RELATION_W: &[u8] = &[
    82, 0, 0, 64, 1, 112, 117, 98, 108, 105, 99, 0, 119, 0, 100, 0, 3, 1, 105, 100, 0, 0, 0, 0, 23,
    255, 255, 255, 255, 0, 118, 0, 0, 0, 0, 25, 255, 255, 255, 255, 0, 119, 0, 0, 0, 0, 25, 255,
    255, 255, 255,
];

const UPDATE: &[u8] = &[
    85, 0, 0, 64, 0, 75, 0, 2, 116, 0, 0, 0, 1, 49, 110, 78, 0, 2, 116, 0, 0, 0, 1, 50, 117,
];

const DELETE: &[u8] = &[68, 0, 0, 64, 0, 75, 0, 2, 116, 0, 0, 0, 1, 49, 110];

const TRUNCATE: &[u8] = &[84, 0, 0, 0, 1, 3, 0, 0, 64, 0];

const LOGICAL_MESSAGE: &[u8] = &[77, 1, 0, 0, 0, 0, 0, 0, 1, 0, 112, 0, 0, 0, 0, 2, 104, 105];

const ORIGIN: &[u8] = &[79, 0, 0, 0, 0, 0, 0, 1, 0, 111, 110, 101, 0];

const TYPE_NAME: &[u8] = &[
    89, 0, 0, 192, 0, 112, 117, 98, 108, 105, 99, 0, 109, 111, 111, 100, 0,
];

const STREAM_START: &[u8] = &[83, 0, 0, 0, 10, 1];

const STREAM_STOP: &[u8] = &[69];

const STREAM_COMMIT: &[u8] = &[
    99, 0, 0, 0, 11, 0, 0, 0, 0, 0, 0, 0, 3, 0, 0, 0, 0, 0, 0, 0, 3, 48, 0, 0, 0, 0, 0, 0, 0, 0,
];

const STREAM_ABORT: &[u8] = &[65, 0, 0, 0, 10, 0, 0, 0, 12];

const UPDATE_IN_BLOCK: &[u8] = &[
    85, 0, 0, 0, 10, 0, 0, 64, 0, 78, 0, 2, 116, 0, 0, 0, 1, 49, 116, 0, 0, 0, 1, 108,
];

const RELATION_IN_BLOCK: &[u8] = &[
    82, 0, 0, 0, 10, 0, 0, 64, 0, 112, 117, 98, 108, 105, 99, 0, 116, 0, 100, 0, 2, 1, 105, 100, 0,
    0, 0, 0, 23, 255, 255, 255, 255, 0, 118, 0, 0, 0, 0, 25, 255, 255, 255, 255,
];

/// A Begin in which no two bytes of a number are alike but the sign's.
const BEGIN_BEFORE_2000: &[u8] = &[
    66, 1, 2, 3, 4, 5, 6, 7, 8, 255, 255, 255, 255, 255, 255, 255, 254, 10, 11, 12, 13,
];

/// A Begin with the greatest LSN, time and xid.
const BEGIN_GREATEST: &[u8] = &[
    66, 255, 255, 255, 255, 255, 255, 255, 255, 127, 255, 255, 255, 255, 255, 255, 255, 255, 255,
    255, 255,
];

/// A Truncate of the greatest OID and the least, without options.
const TRUNCATE_GREATEST: &[u8] = &[84, 0, 0, 0, 2, 0, 255, 255, 255, 255, 0, 0, 0, 1];

/// The bodies of messages, and whether each is read inside a block. What is one relation outside a
/// block is another inside one: its OID is read as the xid, and the first four bytes of its
/// namespace as the OID.
static BODIES: [(&[u8], bool); 21] = [
    (BEGIN, false),
    (RELATION_T, false),
    (INSERT, false),
    (COMMIT, false),
    (RELATION_W, false),
    (UPDATE, false),
    (DELETE, false),
    (TRUNCATE, false),
    (LOGICAL_MESSAGE, false),
    (ORIGIN, false),
    (TYPE_NAME, false),
    (STREAM_START, false),
    (STREAM_STOP, true),
    (STREAM_COMMIT, false),
    (STREAM_ABORT, false),
    (UPDATE_IN_BLOCK, true),
    (RELATION_IN_BLOCK, true),
    (RELATION_T, true),
    (BEGIN_BEFORE_2000, false),
    (BEGIN_GREATEST, false),
    (TRUNCATE_GREATEST, false),
];

/// The item that a body says, over its bytes.
pub(crate) fn item_over<'b>(rt: &impl Abort, body: &'b [u8]) -> ItemRef<'b> {
    match decode_ref(body, false) {
        Ok(MessageRef::Item { item, .. }) => item,
        _ => rt.panic("no item"),
    }
}

fn is_borrowed(body: &[u8], in_block: bool) -> bool {
    decode_ref(body, in_block).is_ok()
}

// Each body is borrowed also where all requests for memory are refused (`--all`).
#[test]
fn bodies_are_read_without_memory(rt: HostRuntime) {
    for (place, &(body, in_block)) in BODIES.iter().enumerate() {
        assert!(rt; is_borrowed(body, in_block), "body {place}");
    }
}

/// Whether the message is written as the body.
fn is_written(rt: &(impl Abort + AllocGlobal), message: &Message, body: &[u8]) -> bool {
    let mut bytes = Vec::new(rt.alloc());
    if message.spellable() {
        encode(message, &mut bytes).expect(rt, "room");
    }
    bytes.as_slice() == body
}

/// Whether the body is read, and its message is written as the body.
fn goes_both_ways(rt: &(impl Abort + AllocGlobal), body: &[u8], in_block: bool) -> bool {
    let message = decode(rt.alloc(), body, in_block).expect(rt, "a message");
    is_written(rt, &message, body)
}

// The program writes no message, so that only this shows that the call succeeds.
#[test]
fn bodies_go_both_ways(rt: HostRuntime) {
    for (place, &(body, in_block)) in BODIES.iter().enumerate() {
        assert!(rt; goes_both_ways(&rt, body, in_block), "body {place}");
    }
}
