//! Loads of two tables, and loads that stop.
//!
//! PostgreSQL documentation, COPY, File Formats, Text Format.

use crate::parts::{Part, give};
use pgapply::{DumpRow, ReplicaStore, StoreFault};
use pgcopy::Reason;
use pgload::{Limits, Load, LoadFault, MOST_PARTS};
use pgstore::Store;
use pgtuple::Cell;
use std::process::Abort;

// Any row is more than a batch of no bytes.
const LIMITS: [usize; 3] = [0, 20, 65536];

// The point at which loads end.
pub(crate) const POINT: u64 = 0x1958B68;

// Of a row of table 16384 or 16385: the OID, and the cells, None a null.
pub(crate) type Stored = (u32, &'static [Option<&'static str>]);

const WHOLE: &[Part] = &[
    Part::Begin(16384, "i,v"),
    Part::Text("1\ta\\"),
    Part::Text("tb\n2\t\\"),
    Part::Text("N\n"),
    Part::EndText,
    Part::Begin(16385, "i"),
    Part::Text("3\n"),
    Part::EndText,
    Part::End(POINT),
];

pub(crate) const ROWS: &[Stored] = &[
    (16384, &[Some("1"), Some("a\tb")]),
    (16384, &[Some("2"), None]),
    (16385, &[Some("3")]),
];

fn is_cell(cell: &Cell, expected: Option<&str>) -> bool {
    match (cell, expected) {
        (Cell::Null, None) => true,
        (Cell::Text(text), Some(expected)) => text.as_str() == expected,
        _ => false,
    }
}

fn is_row(row: &DumpRow, expected: &Stored) -> bool {
    if row.oid != expected.0 || row.copies != 1 || row.cells.as_slice().len() != expected.1.len() {
        return false;
    }
    for (index, cell) in row.cells.as_slice().iter().enumerate() {
        if !is_cell(cell, expected.1[index]) {
            return false;
        }
    }
    true
}

// Gives a new load these parts, of which the last one has this result, and returns its store.
fn load_into<C: ReplicaStore + Drop>(
    rt: &(impl Abort + AllocGlobal),
    store: C,
    batch: usize,
    parts: &[Part],
    outcome: Result<(), LoadFault>,
) -> C {
    let mut load = Load::new(rt.alloc(), store, Limits::new(batch, 8));
    let (last, others) = parts.split_last().expect(rt, "parts");
    for part in others {
        assert!(rt; give(rt, &mut load, *part).is_ok());
    }
    assert!(rt; give(rt, &mut load, *last) == outcome);
    let after = if outcome.is_ok() {
        Err(LoadFault::Order)
    } else {
        outcome
    };
    assert!(rt; load.end_text() == after);
    load.into_store()
}

pub(crate) fn check_rows<C: ReplicaStore>(rt: &impl Abort, store: &mut C, expected: &[Stored]) {
    let rows = store.rows().expect(rt, "rows");
    assert!(rt; rows.len() == expected.len());
    for (index, row) in rows.iter().enumerate() {
        assert!(rt; is_row(row, &expected[index]));
    }
}

#[test]
fn tables_are_loaded(rt: HostRuntime) {
    for batch in &LIMITS {
        let store = Store::in_memory(rt.alloc()).expect(&rt, "a store");
        let mut store = load_into(&rt, store, *batch, WHOLE, Ok(()));
        assert!(rt; store.position().0 == POINT);
        check_rows(&rt, &mut store, ROWS);
    }
}

// A load that stops: its parts, and why the last one isn't taken.
type Stopped = (&'static [Part], LoadFault);

const T: Part = Part::Begin(16384, "i,v");

const STOPPED: &[Stopped] = &[
    (
        &[T, Part::Text("1\ta\n2\n")],
        LoadFault::Line(16384, 2, Reason::MissingColumn),
    ),
    (
        &[T, Part::Text("1\ta\n2\t"), Part::Text("123456789")],
        LoadFault::Line(16384, 2, Reason::TooLong),
    ),
    (
        &[T, Part::Text("1\ta\n\\"), Part::Text(".\n")],
        LoadFault::Marker(16384),
    ),
    (
        &[T, Part::Text("1\ta\n2\t"), Part::EndText],
        LoadFault::CutLine(16384),
    ),
    (&[Part::Text("1\n")], LoadFault::Order),
    (&[Part::EndText], LoadFault::Order),
    (&[T, T], LoadFault::Order),
    (&[T, Part::End(POINT)], LoadFault::Order),
    (
        &[
            T,
            Part::Text("1\ta\n"),
            Part::EndText,
            Part::End(MOST_PARTS),
        ],
        LoadFault::BadPoint,
    ),
    (
        &[T, Part::Text("1\ta\n1\tb\n"), Part::EndText],
        LoadFault::Store(StoreFault::Clash),
    ),
];

#[test]
fn loads_stop(rt: HostRuntime) {
    for (parts, fault) in STOPPED {
        let store = Store::in_memory(rt.alloc()).expect(&rt, "a store");
        let store = load_into(&rt, store, 65536, parts, Err(*fault));
        assert!(rt; store.position().0 <= MOST_PARTS);
    }
}

#[test]
fn a_store_with_a_position_is_rejected(rt: HostRuntime) {
    let store = Store::in_memory(rt.alloc()).expect(&rt, "a store");
    let store = load_into(&rt, store, 0, WHOLE, Ok(()));
    let store = load_into(&rt, store, 0, &[T], Err(LoadFault::NotNew));
    assert!(rt; store.position().0 == POINT);
}
