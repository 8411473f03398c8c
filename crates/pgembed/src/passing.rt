//! Faults and bytes for callers that aren't Rust.

ghost use Rattle.std.specs.Prelude.{◌≡◌, ◌≤◌};
ghost use Rattle.pgembed.specs.Fed.{stream_number_of};
ghost use Rattle.pgembed.specs.Passed.{IsPassed, PassesLine, PassesLines, PassesText, number_of};

use crate::decoding::decode;
use crate::showing::show;
use pgorder::Version;
use pgshow::Fault;
use pgsub_core::Fault as StreamFault;
use std::alloc::Global;
use std::fmt;

/// The number that says that what is passed doesn't fit.
pub const ROOM: u32 = 10;

/// The number that says that memory has run out.
pub const MEMORY: u32 = 9;

/// The number of a fault.
pub fn number(fault: Fault) -> u32
    ensures { result ≡ number_of fault }
{
    match fault {
        Fault::Wire(_) => 1,
        Fault::Decode(_) => 2,
        Fault::Order(_) => 3,
        Fault::Memory => MEMORY,
    }
}

/// The number of a fault of a subscriber.
pub fn stream_number(fault: StreamFault) -> u32
    ensures number { result ≡ stream_number_of fault }
    ensures some { 1 ≤ result }
{
    match fault {
        StreamFault::Wire(_) => 1,
        StreamFault::Decode(_) => 2,
        StreamFault::Order(_) => 3,
        StreamFault::Relation(_) => 4,
        StreamFault::Spool(_) => 5,
        StreamFault::Store(_) => 6,
        StreamFault::Read => 7,
        StreamFault::Closed => 8,
        StreamFault::Memory => MEMORY,
    }
}

/// Writes bytes to the front of `room`, and returns 0; or returns `ROOM`, and writes nothing, where
/// there is less room. How many bytes they are goes to `length`.
pub fn pass(bytes: &[u8], room: &mut [u8], length: &mut usize) -> u32
    ensures { IsPassed bytes.now room.old room.new length.new result }
{
    let count = bytes.len();
    *length = count;
    if room.len() < count {
        return ROOM;
    }
    room[..count].copy_from_slice(bytes);
    0
}

/// Writes what is displayed of a value, where there is room and memory for it. How many bytes that
/// has goes to `length`: more than there is room for where it isn't written, and 0 where memory is
/// short.
fn pass_text<T: fmt::Display>(alloc: Global, value: &T, room: &mut [u8], length: &mut usize)
    ensures { PassesText room.old room.new length.new }
{
    *length = 0;
    if let Ok(text) = format!(in alloc; "{value}") {
        pass(text.as_bytes(), room, length);
    }
}

/// Writes the text of a fault, where there is room and memory for it, and returns its number. How
/// many bytes the text has goes to `length`: more than there is room for where it isn't written,
/// and 0 where memory is short.
pub fn pass_fault(alloc: Global, fault: Fault, room: &mut [u8], length: &mut usize) -> u32
    ensures number { result ≡ number_of fault }
    ensures text { PassesText room.old room.new length.new }
{
    pass_text(alloc, &fault, room, length);
    number(fault)
}

/// As `pass_fault`, of a fault of a subscriber.
pub fn pass_stream_fault(
    alloc: Global,
    fault: StreamFault,
    room: &mut [u8],
    length: &mut usize,
) -> u32
    ensures number { result ≡ stream_number_of fault }
    ensures some { 1 ≤ result }
    ensures text { PassesText room.old room.new length.new }
{
    pass_text(alloc, &fault, room, length);
    stream_number(fault)
}

/// Passes the line of a payload, as `decode` makes it, or its fault.
pub fn pass_line(
    alloc: Global,
    payload: &[u8],
    in_block: bool,
    room: &mut [u8],
    length: &mut usize,
) -> u32
    ensures { PassesLine in_block payload.now room.old room.new length.new result }
{
    match decode(alloc, payload, in_block) {
        Ok(line) => pass(line.as_bytes(), room, length),
        Err(fault) => pass_fault(alloc, fault, room, length),
    }
}

/// Passes the lines of a session, as `show` makes them, and the text of the fault that ends them,
/// if there is one. Its number is returned where the lines fit; else no text is passed.
pub fn pass_lines(
    alloc: Global,
    version: Version,
    session: &[u8],
    room: &mut [u8],
    length: &mut usize,
    text: &mut [u8],
    text_length: &mut usize,
) -> u32
    ensures { PassesLines version session.now room.old room.new length.new
        text.old text.new text_length.new result }
{
    *text_length = 0;
    let mut lines = String::new(alloc);
    let shown = show(alloc, version, session, &mut lines);
    if pass(lines.as_bytes(), room, length) == ROOM {
        return ROOM;
    }
    match shown {
        Ok(()) => 0,
        Err(fault) => pass_fault(alloc, fault, text, text_length),
    }
}
