//! The worked rows by each form of spools over each form of store.

use crate::row::{AT_ONCE, Row};
use crate::rows::{blocks, transactions};
use crate::steps::{Way, check};
use crate::trials::{Trial, in_memory, on_memory_disks};
use pgapply::ReplicaStore;
use pgorder::Version;
use std::process::Abort;

/// Encoded items, a byte at a time.
const ENCODED_IN_BYTES: Way = Way {
    version: Version::Two,
    is_encoded: true,
    chunk_len: 1,
};

/// Encoded items, in chunks of the length of a frame.
const ENCODED_IN_CHUNKS: Way = Way {
    version: Version::Two,
    is_encoded: true,
    chunk_len: 51,
};

/// Decoded items, a byte at a time.
const DECODED_IN_BYTES: Way = Way {
    version: Version::Two,
    is_encoded: false,
    chunk_len: 1,
};

/// Decoded items, all bytes at once.
const DECODED_AT_ONCE: Way = Way {
    version: Version::Two,
    is_encoded: false,
    chunk_len: AT_ONCE,
};

/// All bytes at once in version 1.
const IN_VERSION_1: Way = Way {
    version: Version::One,
    is_encoded: true,
    chunk_len: AT_ONCE,
};

/// Takes the steps of a row.
#[derive(Clone, Copy)]
struct TakesRow {
    row: Row,
    way: Way,
}

impl<R: Abort + AllocGlobal> Trial<R> for TakesRow {
    type Outcome = ();

    fn run<C: ReplicaStore + Drop>(&self, rt: &R, store: C) {
        check(rt, store, &self.row, self.way);
    }
}

/// Takes rows over stores in memory.
fn check_in_memory(rt: &(impl Abort + AllocGlobal), rows: &[Row], way: Way) {
    for row in rows {
        in_memory(rt, &TakesRow { row: *row, way });
    }
}

/// Takes rows over B-trees on disks in memory.
fn check_on_disks(rt: &(impl Abort + AllocGlobal), rows: &[Row], way: Way) {
    for row in rows {
        on_memory_disks(rt, &TakesRow { row: *row, way });
    }
}

#[test]
fn rows_in_memory(rt: HostRuntime) {
    for way in [ENCODED_IN_BYTES, DECODED_AT_ONCE] {
        check_in_memory(&rt, blocks(), way);
        check_in_memory(&rt, transactions(), way);
    }
    check_in_memory(&rt, transactions(), IN_VERSION_1);
}

#[test]
fn rows_on_disks(rt: HostRuntime) {
    for way in [ENCODED_IN_CHUNKS, DECODED_IN_BYTES] {
        check_on_disks(&rt, blocks(), way);
        check_on_disks(&rt, transactions(), way);
    }
}
