//! Feeds in memory whose commits come in parts.

use crate::commits::{append_at, append_in_parts, append_inserts, append_part};
use crate::feeds::{open, text_of};
use crate::folders::MemoryFolder;
use crate::messages::hear;
use pgapply::StoreFault;
use pgfeed::Feed;
use pgledger::Ledger;
use pglsn::Lsn;
use std::process::Abort;

/// A commit in two parts: its definitions, and an Insert for each number of these.
#[derive(Debug)]
struct Row {
    definitions: &'static [(u32, i32)],
    first: &'static [usize],
    second: &'static [usize],
    all: &'static [usize],
}

static ROWS: [Row; 5] = [
    Row {
        definitions: &[],
        first: &[],
        second: &[],
        all: &[],
    },
    // The second part names the definition that the first one tells.
    Row {
        definitions: &[(16384, 1)],
        first: &[0, 0],
        second: &[0],
        all: &[0, 0, 0],
    },
    // The second part tells another one, and the first one's is named again.
    Row {
        definitions: &[(16384, 1), (16385, 1)],
        first: &[0],
        second: &[1, 0],
        all: &[0, 1, 0],
    },
    // The table has another shape in the second part, and then its first one again.
    Row {
        definitions: &[(16384, 1), (16384, 2)],
        first: &[0],
        second: &[1, 0],
        all: &[0, 1, 0],
    },
    Row {
        definitions: &[(16384, 1)],
        first: &[],
        second: &[0],
        all: &[0],
    },
];

/// A feed that has heard a message, where one is told.
fn begun(rt: &(impl Abort + AllocGlobal), is_hearing: bool) -> Feed<MemoryFolder> {
    let mut feed = open(rt, Some(64));
    if is_hearing {
        hear(&mut feed, &[("p", b"xy", false)]);
    }
    feed
}

/// The lines of a commit are the same in parts as at once.
fn try_row(rt: &(impl Abort + AllocGlobal), row: &Row, is_hearing: bool) {
    let mut once = begun(rt, is_hearing);
    append_inserts(rt, &mut once, Lsn(0x200), row.definitions, row.all).expect(rt, "a commit");
    append_at(rt, &mut once, Lsn(0x300)).expect(rt, "a commit");
    let mut parted = begun(rt, is_hearing);
    append_in_parts(
        rt,
        &mut parted,
        Lsn(0x200),
        row.definitions,
        row.first,
        row.second,
    )
    .expect(rt, "a commit");
    append_at(rt, &mut parted, Lsn(0x300)).expect(rt, "a commit");
    assert!(rt;
        text_of(rt, parted).as_str() == text_of(rt, once).as_str(),
        "{row:?}"
    );
}

#[test]
fn has_the_same_lines_in_parts(rt: HostRuntime) {
    for row in &ROWS {
        try_row(&rt, row, false);
        try_row(&rt, row, true);
    }
}

/// Begins a commit, and drops it behind its first part.
fn drop_one(
    rt: &(impl Abort + AllocGlobal),
    feed: &mut Feed<MemoryFolder>,
) -> Result<(), StoreFault> {
    feed.begin_parts(None)?;
    append_part(rt, feed, &[(16390, 1)], &[0, 0, 0])?;
    feed.drop_parts();
    Ok(())
}

// Nothing is left of parts that were dropped.
#[test]
fn has_nothing_of_dropped_parts(rt: HostRuntime) {
    let mut dropped = open(&rt, None);
    drop_one(&rt, &mut dropped).expect(&rt, "a part");
    assert!(&rt; !dropped.is_stuck());
    append_at(&rt, &mut dropped, Lsn(0x200)).expect(&rt, "a commit");
    let mut once = open(&rt, None);
    append_at(&rt, &mut once, Lsn(0x200)).expect(&rt, "a commit");
    assert!(&rt; text_of(&rt, dropped).as_str() == text_of(&rt, once).as_str());
}

/// Begins a commit of three changes, and then another one of one change.
fn begin_twice(
    rt: &(impl Abort + AllocGlobal),
    feed: &mut Feed<MemoryFolder>,
) -> Result<(), StoreFault> {
    feed.begin_parts(None)?;
    append_part(rt, feed, &[(16390, 1)], &[0, 0, 0])?;
    append_in_parts(rt, feed, Lsn(0x200), &[(16384, 1)], &[0], &[])
}

// Nothing is left of a commit that was begun before another one.
#[test]
fn has_nothing_of_parts_that_were_begun_before(rt: HostRuntime) {
    let mut twice = open(&rt, None);
    begin_twice(&rt, &mut twice).expect(&rt, "a commit");
    let mut once = open(&rt, None);
    append_inserts(&rt, &mut once, Lsn(0x200), &[(16384, 1)], &[0]).expect(&rt, "a commit");
    assert!(&rt; text_of(&rt, twice).as_str() == text_of(&rt, once).as_str());
}

// A commit in parts that doesn't end behind the last one leaves the feed stuck.
#[test]
fn takes_no_parts_of_a_commit_that_it_has(rt: HostRuntime) {
    let mut feed = open(&rt, None);
    let ended = append_in_parts(&rt, &mut feed, Lsn(0x100), &[(16384, 1)], &[0], &[0]);
    assert!(&rt; ended == Err(StoreFault::Refused));
    assert!(&rt; feed.is_stuck());
}
