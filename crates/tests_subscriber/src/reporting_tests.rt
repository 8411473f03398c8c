//! What is told of a long run.

use pgapply::Misses;
use pglsn::Lsn;
use pgsub_cli::reported::Settling;
use pgsub_cli::reporting::{Progress, Reporter};
use std::cell::Cell;
use std::io;
use std::process::Abort;
use std::time::{Clock, Duration};

/// A clock that goes on by 600 milliseconds whenever it is read.
#[derive(Drop)]
struct Ticking {
    millis: Cell<u64>,
}

impl Clock for Ticking {
    fn monotonic(&self) -> io::Result<Duration> {
        let now = self.millis.get();
        self.millis.set(now.wrapping_add(600));
        Ok(Duration::from_millis(now))
    }

    fn since_1970(&self) -> io::Result<Duration> {
        self.monotonic()
    }
}

fn new_clock() -> Ticking {
    Ticking {
        millis: Cell::new(0),
    }
}

/// Whether this is the line of a run over so many bytes.
fn is_line(rt: &(impl Abort + AllocGlobal), total: Option<u64>, expected: &str) -> bool {
    let progress = Progress {
        read: 4096,
        total,
        commits: 2,
        changes: 30,
        position: Lsn(0x130),
        rate: 25,
    };
    let line = format!(in rt.alloc(); "{progress}").expect(rt, "a line");
    line.as_str() == expected
}

/// The bytes of a run, where their number is known, and its line.
static LINES: [(Option<u64>, &str); 2] = [
    (
        Some(10000),
        "pgsub: 4096 of 10000 bytes read, 2 commits, 30 changes, position 0/130, 25 changes/s\n",
    ),
    (
        None,
        "pgsub: 4096 bytes read, 2 commits, 30 changes, position 0/130, 25 changes/s\n",
    ),
];

#[test]
fn a_line_says_how_far_it_is(rt: HostRuntime) {
    for &(total, line) in &LINES {
        assert!(rt; is_line(&rt, total, line), "{line}");
    }
}

/// A commit with so many changes.
fn settling(position: Lsn, changes: u64) -> Settling {
    Settling {
        commits: 1,
        changes,
        position,
        misses: Misses::none(),
    }
}

/// Two lines.
static TOLD: &[u8] =
    b"pgsub: 5 of 9 bytes read, 1 commits, 3 changes, position 0/130, 2 changes/s\npgsub: 6 of 9 bytes read, 2 commits, 12 changes, position 0/230, 5 changes/s\n";

#[test]
fn a_line_comes_once_a_second_at_most(rt: HostRuntime) {
    let mut lines = Vec::new(rt.alloc());
    let reporter = Reporter::new(rt.alloc(), new_clock(), &mut lines, Some(9));
    let mut reporter = reporter.expect(&rt, "a time");
    reporter.note_commits(&settling(Lsn(0x130), 3));
    reporter.note_bytes(5);
    reporter.note_bytes(1);
    reporter.note_commits(&settling(Lsn(0x230), 9));
    drop(reporter);
    assert!(rt; lines.as_slice() == TOLD);
}
