//! Lines and faults of the short forms, as they are made and as they are passed.

use crate::embedded_rows::{Call, Row, rows};
use crate::steps::{bytes_of, unhex};
use pgembed::{ROOM, decode, number, pass_line, pass_lines, show};
use pgorder::Version;
use std::alloc::Global;
use std::process::Abort;

/// The number of the fault, or 0, and the lines of a session before it.
fn shown(alloc: Global, version: Version, session: &[u8]) -> (u32, String) {
    let mut lines = String::new(alloc);
    let fault = match show(alloc, version, session, &mut lines) {
        Ok(()) => 0,
        Err(fault) => number(fault),
    };
    (fault, lines)
}

/// The number of the fault, or 0, and the lines before it.
fn made(alloc: Global, call: Call, bytes: &[u8]) -> (u32, String) {
    match call {
        Call::Line(in_block) => match decode(alloc, bytes, in_block) {
            Ok(line) => (0, line),
            Err(fault) => (number(fault), String::new(alloc)),
        },
        Call::Lines(version) => shown(alloc, version, bytes),
    }
}

/// The bytes of what is sent.
fn bytes_sent(rt: &(impl Abort + AllocGlobal), row: &Row) -> Vec<u8> {
    match row.call {
        Call::Line(_) => unhex(rt, row.sent),
        Call::Lines(_) => bytes_of(rt, row.sent),
    }
}

/// Room for so many bytes, all dots.
fn dots(rt: &(impl Abort + AllocGlobal), count: usize) -> Vec<u8> {
    vec![in rt.alloc(); b'.'; count].expect(rt, "room")
}

/// Passes lines to the rooms of a row. Returns the number where the rooms and the lengths are then
/// those of the row.
fn passed(
    rt: &(impl Abort + AllocGlobal),
    row: &Row,
    bytes: &[u8],
    room: &mut [u8],
) -> Option<u32> {
    let alloc = rt.alloc();
    let mut text = dots(rt, row.text.1.len());
    let (mut length, mut text_length) = (0, 0);
    let number = match row.call {
        Call::Line(in_block) => pass_line(alloc, bytes, in_block, room, &mut length),
        Call::Lines(version) => pass_lines(
            alloc,
            version,
            bytes,
            room,
            &mut length,
            &mut text,
            &mut text_length,
        ),
    };
    let is_met = (length, text_length) == (row.room.0, row.text.0)
        && *room == *row.room.1.as_bytes()
        && text.as_slice() == row.text.1.as_bytes();
    drop(text);
    is_met.then_some(number)
}

/// Whether the calls give what they must, and what is passed is what is made.
fn holds(rt: &(impl Abort + AllocGlobal), row: &Row) -> bool {
    let bytes = bytes_sent(rt, row);
    let mut room = dots(rt, row.room.1.len());
    let number = passed(rt, row, &bytes, &mut room);
    let (fault, lines) = made(rt.alloc(), row.call, &bytes);
    let is_made = row.number == ROOM || row.number == fault && room.starts_with(lines.as_bytes());
    is_made && number == Some(row.number)
}

#[test]
fn lines_and_faults_are_passed(rt: HostRuntime) {
    for row in rows() {
        assert!(rt; holds(&rt, row), "{}", row.shows);
    }
}
