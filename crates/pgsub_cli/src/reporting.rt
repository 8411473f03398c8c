//! Tells, while commits are stored, how far that is. What a reader gives and what a store holds are
//! as without it.

ghost use Rattle.std.specs.Prelude.{◌≡◌, ◌≤◌, ◌+◌, ◌⊎◌, ⊤, [], Result, Some, IfOk};
ghost use Rattle.pgsub_cli.specs.declared.fault.Ending.{Ending};
ghost use Rattle.pgsub_cli.specs.declared.fault.RunFault.{RunFault};
ghost use Rattle.pgsub_cli.specs.Reports.{IsCounted, TellsProgress, bytes_text, input_within};
ghost use Rattle.pgsub_cli.specs.Reports.{nothing_of, progress_line, with_bytes, with_commits};
ghost use Rattle.pgsub_cli.specs.Runs.{Tells, status_of};
ghost use Rattle.pgsub_cli.specs.StoreAfter.{HoldsAfter, MayBeLeft, LosesNothing};
ghost use Rattle.pgsub_cli.specs.Storing.{PrintsOver};

use crate::files::{Input, Output, ReadListener};
use crate::limits::Limits;
use crate::reported::{Listener, Reported, Settling};
use crate::storing::{Incoming, run_within};
use pgapply::ReplicaStore;
use pglsn::Lsn;
use pgorder::Version;
use pgsub_core::{Fault, Loads, Subscriber};
use std::alloc::Global;
use std::cell::RefCell;
use std::time::{Clock, Duration, Instant};
use std::{fmt, io};

/// How far applying is.
#[derive(Clone, Copy, Debug, PartialEq, Eq)]
pub struct Progress {
    /// The bytes that were read.
    pub read: u64,
    /// All that there are, None where that isn't known.
    pub total: Option<u64>,
    /// The commits that were stored.
    pub commits: u64,
    /// Their changes.
    pub changes: u64,
    /// The end LSN of the last one.
    pub position: Lsn,
    /// The changes of each second since the start.
    pub rate: u64,
}

/// The bytes that were read, of how many.
#[derive(Clone, Copy)]
struct BytesText {
    read: u64,
    total: Option<u64>,
}

impl fmt::Display for BytesText {
    ghost output = { λ text. Some (bytes_text text.read text.total) };

    fn fmt<W: fmt::Write>(&self, f: &mut fmt::Formatter<W>) -> fmt::Result {
        let read = self.read;
        match self.total {
            Some(total) => write!(f, "{read} of {total}"),
            None => write!(f, "{read}"),
        }
    }
}

impl fmt::Display for Progress {
    ghost output = { λ progress. Some (progress_line progress) };

    fn fmt<W: fmt::Write>(&self, f: &mut fmt::Formatter<W>) -> fmt::Result {
        let (read, total) = (self.read, self.total);
        let bytes = BytesText { read, total };
        let (commits, changes) = (self.commits, self.changes);
        let (position, rate) = (self.position, self.rate);
        writeln!(
            f,
            "pgsub: {bytes} bytes read, {commits} commits, {changes} changes, position {position}, {rate} changes/s"
        )
    }
}

/// So many seconds are between two lines at least.
const PAUSE: u64 = 1;

/// Tells a writer how far applying is, at most once a second by its clock.
#[derive(Drop)]
pub struct Reporter<K: Clock + Drop, E: Output + Drop> {
    alloc: Global,
    clock: K,
    err: E,
    start: Instant,
    last: Instant,
    progress: Progress,
}

/// So many changes in this time, as changes of a second.
fn rate(changes: u64, time: Duration) -> u64 {
    let millis = time
        .as_secs()
        .saturating_mul(1000)
        .saturating_add(u64::from(time.subsec_millis()));
    changes.saturating_mul(1000) / millis.max(1)
}

impl<K: Clock + Drop, E: Output + Drop> Reporter<K, E> {
    /// One that has told nothing yet. `total` is how many bytes there are to be read, None where
    /// that isn't known.
    ///
    /// # Errors
    ///
    /// The clock can't be read.
    pub fn new(alloc: Global, clock: K, err: E, total: Option<u64>) -> io::Result<Reporter<K, E>>
        ensures { IfOk result (λ reporter. (reporter.err ≡ err)
            × (reporter.progress ≡ nothing_of total)) }
    {
        let start = Instant::now(&clock)?;
        Ok(Reporter {
            alloc,
            clock,
            err,
            start,
            last: start,
            progress: Progress {
                read: 0,
                total,
                commits: 0,
                changes: 0,
                position: Lsn(0),
                rate: 0,
            },
        })
    }

    /// Tells how far it is, if the last line, or the start, was a second ago. Where there is no
    /// memory for the line, or it can't be written, the next one may follow.
    fn tell(&mut self)
        ensures told { TellsProgress E.takes E.failed self.old.last self.new.last self.new.progress
            self.old.err self.new.err }
        ensures counts { IsCounted self.new.progress self.old.progress }
    {
        let Ok(now) = Instant::now(&self.clock) else {
            return;
        };
        if now.duration_since(self.last) < Duration::from_secs(PAUSE) {
            return;
        }
        self.last = now;
        self.progress.rate = rate(self.progress.changes, now.duration_since(self.start));
        if let Ok(line) = format!(in self.alloc; "{}", self.progress) {
            let _ = self.err.write_lines(line.as_str());
        }
    }

    /// Notes bytes that were read.
    pub fn note_bytes(&mut self, count: u64)
        ensures told { TellsProgress E.takes E.failed self.old.last self.new.last self.new.progress
            self.old.err self.new.err }
        ensures counts { IsCounted self.new.progress (with_bytes count self.old.progress) }
    {
        self.progress.read = self.progress.read.saturating_add(count);
        self.tell();
    }

    /// Notes commits that were stored.
    pub fn note_commits(&mut self, settling: &Settling)
        ensures told { TellsProgress E.takes E.failed self.old.last self.new.last self.new.progress
            self.old.err self.new.err }
        ensures counts { IsCounted self.new.progress
            (with_commits settling.now self.old.progress) }
    {
        self.progress.commits = self.progress.commits.saturating_add(settling.commits);
        self.progress.changes = self.progress.changes.saturating_add(settling.changes);
        self.progress.position = settling.position;
        self.tell();
    }
}

/// Tells a reporter of each settling, where there is one.
#[derive(Drop)]
pub struct Commits<'a, K: Clock + Drop, E: Output + Drop> {
    /// The reporter.
    pub reporter: Option<&'a RefCell<Reporter<K, E>>>,
}

impl<K: Clock + Drop, E: Output + Drop> Listener for Commits<'_, K, E> {
    ghost hears = { λ _ _ _. ⊤ };

    fn hear(&mut self, settling: &Settling) {
        let Some(reporter) = self.reporter else {
            return;
        };
        if let Ok(mut reporter) = reporter.try_borrow_mut() {
            reporter.note_commits(settling);
        }
    }
}

/// Tells a listener of each read, and a reporter, where there is one.
#[derive(Drop)]
struct Bytes<'a, K: Clock + Drop, E: Output + Drop, L: ReadListener + Drop> {
    reporter: Option<&'a RefCell<Reporter<K, E>>>,
    next: L,
}

impl<K: Clock + Drop, E: Output + Drop, L: ReadListener + Drop> ReadListener
    for Bytes<'_, K, E, L> {
    fn hear(&mut self, count: u64) {
        self.next.hear(count);
        let Some(reporter) = self.reporter else {
            return;
        };
        if let Ok(mut reporter) = reporter.try_borrow_mut() {
            reporter.note_bytes(count);
        }
    }
}

/// What a file gives, of which a reporter, where there is one, is told as it is read.
#[derive(Drop)]
pub struct Counted<'a, R: Input + Drop, K: Clock + Drop, E: Output + Drop> {
    file: R,
    reporter: Option<&'a RefCell<Reporter<K, E>>>,
}

impl<R: Input + Drop, K: Clock + Drop, E: Output + Drop> Input for Counted<'_, R, K, E> {
    ghost gives = { λ counted bytes. R.gives counted.file bytes };

    ghost begins = { λ counted bytes. R.begins counted.file bytes };

    ghost failed = { λ counted. R.failed counted.file };

    fn read_whole(self, alloc: Global, longest: u32) -> io::Result<Option<Vec<u8>>> {
        self.file.read_whole(alloc, longest)
    }

    fn feed_to<P: Loads<C> + Drop, C: ReplicaStore + Drop, L: ReadListener + Drop>(
        self,
        subscriber: &mut Subscriber<P, C>,
        listener: L,
    ) -> Result<(), Fault> {
        let reporter = self.reporter;
        let told = Bytes {
            reporter,
            next: listener,
        };
        self.file.feed_to(subscriber, told)
    }
}

/// What comes, if anything does, of which the bytes are told as they are read.
pub fn count_bytes<'a, R: Input + Drop, K: Clock + Drop, E: Output + Drop>(
    input: Option<(Version, Incoming<R>)>,
    reporter: Option<&'a RefCell<Reporter<K, E>>>,
) -> Option<(Version, Incoming<Counted<'a, R, K, E>>)>
    ensures { input_within (λ c. c.file) result ≡ input }
{
    match input {
        None => None,
        Some((version, Incoming::Sessions(sessions))) => {
            Some((version, Incoming::Sessions(sessions)))
        }
        Some((version, Incoming::Raw(file))) => {
            Some((version, Incoming::Raw(Counted { file, reporter })))
        }
    }
}

/// Runs a task over an opened store, as `run_within` does, and tells a reporter meanwhile, where
/// there is one. What is printed, what the store holds then, what a crash may leave of it, what
/// standard error gets for a fault and the exit status are as without it.
pub fn run_opened<
    R: Input + Drop,
    C: ReplicaStore + Drop,
    K: Clock + Drop,
    P: Output + Drop,
    W: Output + Drop,
    E: Output,
>(
    alloc: Global,
    store: C,
    limits: Limits,
    input: Option<(Version, Incoming<R>)>,
    reporter: Option<&RefCell<Reporter<K, P>>>,
    out: &mut W,
    err: &mut E,
) -> (u8, C)
    ensures status { result.0 ≤ 4 }
    ensures ends { (ended : Result Ending RunFault) × (result.0 ≡ status_of ended)
        × PrintsOver R.gives R.begins R.failed C.holds C.place C.is_honest W.takes W.failed limits
        input store result.1 out.old out.new ended
        × Tells E.takes E.failed [] [] ended err.old err.new }
    ensures kept { C.serves result.1 →
        HoldsAfter R.gives R.begins R.failed C.holds C.place
        limits input store result.1 }
    ensures left { C.is_honest result.1 →
        MayBeLeft R.gives R.begins R.failed C.holds C.place
        C.reopens C.serves limits input store result.1 }
    ensures crash { C.is_honest result.1 → C.serves store →
        LosesNothing R.gives R.begins R.failed C.holds C.place
        C.reopens limits input store result.1 }
    ensures honest { C.is_honest result.1 → C.is_honest store }
{
    let store = Reported::new(store, Commits { reporter });
    let counted = count_bytes(input, reporter);
    let (status, told) = run_within(alloc, store, limits, counted, out, err);
    (status, told.into_store())
}
