//! A server is followed with all changes of open transactions in a file, on disks that work, that
//! fail, or that give back another byte.

ghost use Rattle.std.specs.Prelude.{IsTrue};

use crate::files::File;
use crate::following_tests::{AMPLE, SESSION, Still, are_told};
use crate::trials::{Trial, on_memory_disks};
use pgapply::ReplicaStore;
use pgcommand::Limits;
use pgfollow::Link;
use pglsn::Lsn;
use pgorder::Version;
use pgspooled::Honesty;
use pgsub_cli::{LiveIo, SpoolFile, run_buffered};
use sqlite_disk::{Disk, Fuse, Memory, Rot};
use std::process::Abort;

/// How following ended.
#[derive(Drop)]
struct Ended {
    status: u8,
    position: Lsn,
    /// What was written to the server.
    written: Vec<u8>,
    err: Vec<u8>,
}

/// The disks on which changes are kept.
#[derive(Clone, Copy)]
enum Kind {
    Sound,
    /// All calls after so many fail.
    Failing(u64),
    /// Another byte comes back in this place.
    Rotten(usize),
}

/// Follows the session with nothing of its changes in memory.
#[derive(Clone, Copy)]
struct Spools {
    kind: Kind,
}

/// Follows it over a store of any kind, with the changes on a disk of any kind.
fn follow<C: ReplicaStore + Drop, D: Disk + Drop>(
    rt: &(impl Abort + AllocGlobal),
    store: C,
    disk: D,
) -> Ended {
    let alloc = rt.alloc();
    let spool = SpoolFile::over(disk, 0);
    assert!(rt; spool.is_some());
    let mut io = LiveIo {
        link: Link::new(File::of(SESSION), Vec::new(alloc)),
        clock: Still,
        err: Vec::new(alloc),
        honesty: Honesty::new(),
    };
    let (status, store) = run_buffered(alloc, store, spool, Limits::DEFAULT, Version::Two, &mut io);
    let LiveIo { link, err, .. } = io;
    let mut written = Vec::new(alloc);
    written
        .extend_from_slice(link.writer().as_slice())
        .expect(rt, "memory");
    Ended {
        status,
        position: store.position(),
        written,
        err,
    }
}

impl<R: Abort + AllocGlobal> Trial<R> for Spools {
    type Outcome = Ended;

    fn run<C: ReplicaStore + Drop>(&self, rt: &R, store: C) -> Ended {
        let disk = Memory::new(rt.alloc());
        match self.kind {
            Kind::Sound => follow(rt, store, disk),
            Kind::Failing(calls) => follow(rt, store, Fuse::new(disk, calls)),
            Kind::Rotten(place) => follow(rt, store, Rot::new(disk, place)),
        }
    }
}

/// All is stored and confirmed.
fn is_whole(rt: &(impl Abort + AllocGlobal), ended: &Ended) -> bool {
    let is_told = are_told(rt, ended.written.as_slice(), &[0, 0x180, 0x180], AMPLE);
    is_told && ended.err.is_empty() && (ended.status, ended.position) == (0, Lsn(0x130))
}

/// Nothing is stored or confirmed, and this is told.
fn is_stopped(rt: &(impl Abort + AllocGlobal), ended: &Ended, line: &str) -> bool {
    let is_told = are_told(rt, ended.written.as_slice(), &[0], AMPLE);
    let is_line = ended.err.as_slice() == line.as_bytes();
    is_told && is_line && (ended.status, ended.position) == (13, Lsn(0))
}

const NOT_WRITTEN: &str = "pgsub: spool 3 NotWritten\n";

const NOT_READ: &str = "pgsub: spool 5 NotRead\n";

#[test]
fn a_sound_file_is_as_memory(rt: HostRuntime) {
    let ended = on_memory_disks(&rt, &Spools { kind: Kind::Sound });
    assert!(&rt; is_whole(&rt, &ended));
}

#[test]
fn a_file_that_fails_stores_nothing_of_its_commit(rt: HostRuntime) {
    let (mut stopped, mut ended) = (false, false);
    for calls in 0..8u64 {
        let kind = Kind::Failing(calls);
        let found = on_memory_disks(&rt, &Spools { kind });
        let is_fault = is_stopped(&rt, &found, NOT_WRITTEN) || is_stopped(&rt, &found, NOT_READ);
        let is_end = is_whole(&rt, &found);
        assert!(&rt; is_fault || is_end);
        stopped |= is_fault;
        ended |= is_end;
    }
    assert!(&rt; stopped && ended);
}

#[test]
fn another_byte_stores_nothing_of_its_commit(rt: HostRuntime) {
    let kind = Kind::Rotten(20);
    let ended = on_memory_disks(&rt, &Spools { kind });
    assert!(&rt; is_stopped(&rt, &ended, NOT_READ));
}
