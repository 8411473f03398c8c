//! A server is followed over a store, by readers and writers that take a few bytes at a call or
//! fail: what is written, what is stored, and how it ends.

use crate::counting::rejecting;
use crate::files::File;
use crate::steps::append;
use crate::trials::{Trial, on_memory_disks};
use pgapply::{ReplicaStore, StoreFault};
use pgcommand::Limits;
use pgfollow::{Clock, Link};
use pglsn::Lsn;
use pgorder::Version;
use pgsub_cli::following::run_follow;
use std::alloc::Global;
use std::io;
use std::io::{ErrorKind, Write};
use std::process::Abort;

/// A transaction that ends at 0/130 and stores a row, and a keepalive of 0/180 that asks for a
/// reply.
pub(crate) const SESSION: &[u8] =
    b"\x64\x00\x00\x00\x32\x77\x00\x00\x00\x00\x00\x00\x00\x00\x00\x00\x00\x00\x00\x00\x00\x00\x00\x00\x00\x00\x00\x00\x00\x00\x42\x00\x00\x00\x00\x00\x00\x01\x00\x00\x00\x00\x00\x00\x00\x00\x00\x00\x00\x00\x0a\x64\x00\x00\x00\x45\x77\x00\x00\x00\x00\x00\x00\x00\x00\x00\x00\x00\x00\x00\x00\x00\x00\x00\x00\x00\x00\x00\x00\x00\x00\x52\x00\x00\x40\x00\x70\x75\x62\x6c\x69\x63\x00\x74\x00\x64\x00\x02\x01\x69\x64\x00\x00\x00\x00\x17\xff\xff\xff\xff\x00\x76\x00\x00\x00\x00\x19\xff\xff\xff\xff\x64\x00\x00\x00\x31\x77\x00\x00\x00\x00\x00\x00\x00\x00\x00\x00\x00\x00\x00\x00\x00\x00\x00\x00\x00\x00\x00\x00\x00\x00\x49\x00\x00\x40\x00\x4e\x00\x02\x74\x00\x00\x00\x01\x31\x74\x00\x00\x00\x01\x61\x64\x00\x00\x00\x37\x77\x00\x00\x00\x00\x00\x00\x00\x00\x00\x00\x00\x00\x00\x00\x00\x00\x00\x00\x00\x00\x00\x00\x00\x00\x43\x00\x00\x00\x00\x00\x00\x00\x01\x00\x00\x00\x00\x00\x00\x00\x01\x30\x00\x00\x00\x00\x00\x00\x00\x00\x64\x00\x00\x00\x16\x6b\x00\x00\x00\x00\x00\x00\x01\x80\x00\x00\x00\x00\x00\x00\x00\x00\x01";

/// Takes at most so many bytes at a call, and none after so many.
#[derive(Drop)]
struct Writer {
    taken: Vec<u8>,
    at_once: usize,
    most: usize,
}

impl Write for Writer {
    fn write(&mut self, buf: &[u8]) -> io::Result<usize> {
        let room = self.most.saturating_sub(self.taken.len());
        let count = buf.len().min(self.at_once).min(room);
        if count == 0 {
            return Err(io::Error::from(ErrorKind::Other));
        }
        self.taken.extend_from_slice(&buf[..count])?;
        Ok(count)
    }

    fn flush(&mut self) -> io::Result<()> {
        Ok(())
    }
}

/// A clock that stands still.
#[derive(Drop)]
pub(crate) struct Still;

impl Clock for Still {
    fn now(&mut self) -> i64 {
        7
    }
}

/// What following leaves.
#[derive(Clone, Copy, Drop)]
struct Expected<'t> {
    /// What the statuses confirm, in order.
    told: &'t [u64],
    position: u64,
    err: &'t str,
    status: u8,
}

/// Appends the status of an LSN that is received, flushed and applied.
fn push_status(rt: &impl Abort, told: &mut Vec<u8>, lsn: u64) {
    append(rt, told, b"\x64\x00\x00\x00\x26\x72");
    for _ in 0..3 {
        append(rt, told, &lsn.to_be_bytes());
    }
    append(rt, told, b"\x00\x00\x00\x00\x00\x00\x00\x07\x00");
}

/// The bytes of the statuses, of which the writer takes at most so many.
fn told_bytes(rt: &(impl Abort + AllocGlobal), told: &[u64], most: usize) -> Vec<u8> {
    let mut bytes = Vec::new(rt.alloc());
    for lsn in told {
        push_status(rt, &mut bytes, *lsn);
    }
    bytes.truncate(most);
    bytes
}

/// Whether these are the bytes of the statuses, of which the writer takes at most so many.
pub(crate) fn are_told(
    rt: &(impl Abort + AllocGlobal),
    bytes: &[u8],
    told: &[u64],
    most: usize,
) -> bool {
    let wanted = told_bytes(rt, told, most);
    bytes == wanted.as_slice()
}

/// Follows the bytes of a reader over an empty store, and writes to a writer that takes at most so
/// many bytes.
#[derive(Drop)]
struct Follows<'t> {
    reader: File<'t>,
    most: usize,
    expected: Expected<'t>,
}

impl<R: Abort + AllocGlobal> Trial<R> for Follows<'_> {
    type Outcome = ();

    fn run<C: ReplicaStore + Drop>(&self, rt: &R, store: C) {
        let (alloc, expected) = (rt.alloc(), &self.expected);
        let writer = Writer {
            taken: Vec::new(alloc),
            at_once: 7,
            most: self.most,
        };
        let mut link = Link::new(self.reader, writer);
        let mut err = Vec::new(alloc);
        let (status, store) = run_follow(
            alloc,
            store,
            Limits::DEFAULT,
            Version::Two,
            &mut link,
            &mut Still,
            &mut err,
        );
        let position = store.position();
        drop(store);
        let is_told = are_told(rt, &link.writer().taken, expected.told, self.most);
        drop(link);
        let is_met = is_told && position == Lsn(expected.position);
        let is_line = err.as_slice() == expected.err.as_bytes();
        drop(err);
        assert!(rt; is_met && is_line && status == expected.status);
    }
}

fn check(rt: &(impl Abort + AllocGlobal), reader: File<'_>, most: usize, expected: &Expected<'_>) {
    let expected = *expected;
    on_memory_disks(
        rt,
        &Follows {
            reader,
            most,
            expected,
        },
    );
}

pub(crate) const AMPLE: usize = 100000;

const WHOLE: Expected<'static> = Expected {
    told: &[0, 0x180, 0x180],
    position: 0x130,
    err: "",
    status: 0,
};

const PARTS: Expected<'static> = Expected {
    told: &[0, 0x130, 0x180, 0x180],
    position: 0x130,
    err: "",
    status: 0,
};

/// How many bytes the session gives at once, and what is left.
static FOLLOWED: [(usize, Expected<'static>); 4] = [
    (AMPLE, WHOLE),
    (250, WHOLE),
    (5, PARTS),
    (1, PARTS),
];

/// Follows the session, of which so many bytes are read at once and so many may be written.
fn check_session(
    rt: &(impl Abort + AllocGlobal),
    at_once: usize,
    most: usize,
    expected: &Expected<'_>,
) {
    let reader = File {
        rest: SESSION,
        at_once,
        error: None,
    };
    check(rt, reader, most, expected);
}

#[test]
fn statuses_follow_what_is_stored(rt: HostRuntime) {
    for (at_once, expected) in &FOLLOWED {
        check_session(&rt, *at_once, AMPLE, expected);
    }
}

/// How many bytes of the session are read before an error, what the statuses confirm, and the
/// position.
static READS: [(usize, &[u64], u64); 5] = [
    (0, &[0], 0),
    (226, &[0], 0),
    (227, &[0, 0x130], 0x130),
    (249, &[0, 0x130], 0x130),
    (250, &[0, 0x130, 0x180, 0x180], 0x130),
];

#[test]
fn a_failed_read_ends_it(rt: HostRuntime) {
    for &(count, told, position) in &READS {
        let reader = File {
            rest: SESSION.get(..count).unwrap_or(b""),
            at_once: 1,
            error: Some(ErrorKind::Other),
        };
        let expected = Expected {
            told,
            position,
            err: "pgsub: read\n",
            status: 15,
        };
        check(&rt, reader, AMPLE, &expected);
    }
}

/// How many bytes may be written, and the position.
static WRITES: [(usize, u64); 5] = [(0, 0), (38, 0), (39, 0x130), (50, 0x130), (78, 0x130)];

#[test]
fn a_failed_write_ends_it(rt: HostRuntime) {
    for &(most, position) in &WRITES {
        let expected = Expected {
            told: &[0, 0x130, 0x180],
            position,
            err: "pgsub: cannot write\n",
            status: 15,
        };
        check_session(&rt, 5, most, &expected);
    }
}

/// Whether following over a store that accepts nothing tells this, with this status.
fn is_failed(rt: &impl AllocGlobal, fault: StoreFault, line: &str, expected: u8) -> bool {
    let alloc = rt.alloc();
    let mut link = Link::new(File::of(SESSION), Vec::new(alloc));
    let mut err = Vec::new(alloc);
    let (status, _) = run_follow(
        alloc,
        rejecting(alloc, fault),
        Limits::DEFAULT,
        Version::Two,
        &mut link,
        &mut Still,
        &mut err,
    );
    status == expected && err.as_slice() == line.as_bytes()
}

/// Faults of a store, and the lines and statuses of them.
static STORE_FAULTS: [(StoreFault, &str, u8); 4] = [
    (StoreFault::Clash, "pgsub: store 1 Clash\n", 1),
    (
        StoreFault::Refused,
        "pgsub: the disk is full\npgsub: store 8 Refused\n",
        13,
    ),
    (StoreFault::NotAStore, "pgsub: store 10 NotAStore\n", 13),
    (StoreFault::Memory, "pgsub: memory\n", 14),
];

#[test]
fn a_store_that_fails_has_its_status(rt: HostRuntime) {
    for &(fault, line, status) in &STORE_FAULTS {
        assert!(rt; is_failed(&rt, fault, line, status), "{line}");
    }
}
