//! Stores on disks that stop.

use crate::stopped_runs::Run;
use pgstore::{Store, StoreFault};
use sqlite::{Alter, Connection, Files, Options};
use sqlite_disk::{Disk, Fuse, Memory};
use std::alloc::Global;
use std::process::Abort;

/// A disk in memory that passes so many calls on, and fails each one after.
type Stopping = Fuse<Memory>;

/// How many calls each of the two disks passes on.
#[derive(Clone, Copy)]
pub(crate) struct Calls {
    pub(crate) log: u64,
    pub(crate) db: u64,
}

/// More calls than a run makes.
pub(crate) const NEVER: u64 = 1_000_000_000;

/// What the two disks have when a run has ended, and whether it has met a stop.
#[derive(Drop)]
pub(crate) struct Left {
    log: Vec<u8>,
    db: Vec<u8>,
    pub(crate) has_stopped: bool,
}

/// Two disks on which nothing was written.
pub(crate) fn nothing(alloc: Global) -> Left {
    Left {
        log: Vec::new(alloc),
        db: Vec::new(alloc),
        has_stopped: false,
    }
}

/// A disk with these bytes.
fn disk_of(rt: &(impl Abort + AllocGlobal), bytes: &[u8], calls: u64) -> Stopping {
    let mut memory = Memory::new(rt.alloc());
    memory.write_at(0, bytes).expect(rt, "a disk");
    Fuse::new(memory, calls)
}

/// Two disks with what was left.
fn files_of(rt: &(impl Abort + AllocGlobal), left: &Left, calls: Calls) -> Files<Stopping> {
    Files {
        log: disk_of(rt, left.log.as_slice(), calls.log),
        db: disk_of(rt, left.db.as_slice(), calls.db),
    }
}

/// Whether a disk fails the next call.
fn has_stopped(disk: &mut Stopping) -> bool {
    !disk.may_be_used() || disk.len().is_err()
}

/// The bytes of a disk.
fn bytes_on(rt: &(impl Abort + AllocGlobal), disk: &Stopping) -> Vec<u8> {
    Vec::from_slice(rt.alloc(), disk.inner().bytes()).expect(rt, "the bytes of a disk")
}

/// What the disks have. A stop was met where one of them fails the next call.
fn left_on(rt: &(impl Abort + AllocGlobal), mut files: Files<Stopping>) -> Left {
    let has_stopped = has_stopped(&mut files.log) || has_stopped(&mut files.db);
    Left {
        log: bytes_on(rt, &files.log),
        db: bytes_on(rt, &files.db),
        has_stopped,
    }
}

/// Few pages at a time, so that the log is written often and copied into the database file.
fn options() -> Options {
    Options {
        cache_pages: 16,
        spill_pages: 16,
        checkpoint_frames: 4,
        seed: 1,
    }
}

/// Runs this over a store of any kind: the proof that one over given disks is a store gets too
/// large.
fn run_over<S: Alter + Drop>(
    rt: &(impl Abort + AllocGlobal),
    store: Store<S>,
    to_run: &mut impl Run,
) -> Store<S> {
    to_run.run(rt, store)
}

/// Adopts a connection and runs this over the store, where that meets no stop. Gives the store
/// of the trees back.
fn run_adopted<S: Alter + Drop>(
    rt: &(impl Abort + AllocGlobal),
    conn: Connection<S>,
    to_run: &mut impl Run,
) -> S {
    match Store::adopt(rt.alloc(), conn) {
        Ok(store) => run_over(rt, store, to_run).into_store(),
        Err((StoreFault::Refused | StoreFault::Memory, conn)) => conn.into_store(),
        Err(_) => rt.panic("another fault of adoption"),
    }
}

/// Opens a connection on two disks, where that meets no stop, and runs this over its store.
/// Gives the disks back as a crash finds them.
fn run_on<D: Disk + Drop>(
    rt: &(impl Abort + AllocGlobal),
    files: Files<D>,
    to_run: &mut impl Run,
) -> Files<D> {
    assert!(rt; files.log.may_be_used() && files.db.may_be_used());
    match Connection::open_files(rt.alloc(), files, options()) {
        Ok(conn) => run_adopted(rt, conn, to_run).close(),
        Err((_, left)) => left.into_files(),
    }
}

/// Opens a store on what was left, and tries this over it where no disk stopped at the opening.
/// Returns what is left then.
pub(crate) fn try_over(
    rt: &(impl Abort + AllocGlobal),
    left: &Left,
    calls: Calls,
    to_run: &mut impl Run,
) -> Left {
    left_on(rt, run_on(rt, files_of(rt, left, calls), to_run))
}
