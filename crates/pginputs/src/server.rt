//! A server that is followed from standard input.

ghost use Rattle.std.specs.Prelude.{◌≡◌, ◌⊎◌, IfOk, Some, is_some};
ghost use Rattle.pginputs.specs.Serving.{EndsAs, IsUncompared, IsUnspooled, IsUnwatched, Serves};
ghost use Rattle.pginputs.specs.Serving.{names_spool};

use crate::spooling::{spool_of, tell_unspooled};
use crate::telling::{tell_counts, tell_notes};
use pgcommand::{FOLLOW_MEMORY, Task, USAGE, Watching};
use pgfollow::Link;
use pgloaded::SessionReader;
use pgorder::Version;
use pgpast::{FirstStatus, compared_input};
use pgrules::Guarded;
use pgsub_cli::{SpoolFile, WatchLines, live_watch};
use pgsystem::remove_spool;
use sqlite_disk::Disk;
use std::alloc::AllocError;
use std::cell::Cell;
use std::io::{Read, Write};
use std::rt::Stderr;

/// The status of `follow` where a read or a write failed.
const FOLLOW_IO: u8 = 15;

/// That of `follow` where the server broke a rule and it was to stop then.
const FOLLOW_BROKEN: u8 = 17;

/// Follows a server over a store that it knows.
///
/// A proof over the readers and the file below asks for what holds of each of their parts. So
/// whoever has the store is proved over any.
pub trait Follower {
    ghost use Rattle.std.specs.Prelude.{ℕ, Bool, is_some};

    /// That following it with a file of open transactions, or with none, ended with this status.
    ghost follows: { Self → Bool → ℕ → Type 0 };

    /// Follows it: what it sends comes from the first of its two ends, and statuses go to the
    /// second one. The changes of open transactions go on in the spool's file, if there is one.
    /// Returns the exit status, and the ends.
    fn follow<R: SessionReader + Drop, W: Write + Drop, M: Disk + Drop>(
        self,
        ends: (R, W),
        spool: Option<SpoolFile<M>>,
    ) -> (u8, Link<R, W>)
        ensures follows { follows self (is_some spool) result.0 };
}

/// Follows a server that is watched for the rules of a well-formed one, behind a load where one is
/// asked for. Returns the exit status, and the ends, of which the first is watched.
fn follow_guarded<F: Follower + Drop, R: Read + Drop, W: Write + Drop, M: Disk + Drop>(
    rt: &HostRuntime,
    task: &Task,
    server: (Version, Watching),
    ends: (R, W),
    spool: Option<SpoolFile<M>>,
    follower: F,
) -> Result<(u8, Link<Guarded<R, WatchLines<Stderr>>, W>), AllocError>
    ensures { IfOk result (λ it. EndsAs (F.follows follower (is_some spool)) it.0) }
{
    let ((version, watching), (input, output)) = (server, ends);
    let watch = live_watch(rt.alloc(), version, task.limits());
    let lines = WatchLines::new(rt.alloc(), rt.stderr());
    let stops = watching == Watching::Stop;
    let input = Guarded::new(rt.alloc(), input, lines, watch, stops, task.loads())?;
    let (status, link) = follower.follow((input, output), spool);
    if status == FOLLOW_IO && link.reader.has_stopped() {
        return Ok((FOLLOW_BROKEN, link));
    }
    Ok((status, link))
}

/// The same, where the server's commits are also compared with those that are noted in a file.
fn follow_compared<F: Follower + Drop, M: Disk + Drop>(
    rt: &HostRuntime,
    task: &Task,
    server: (Version, Watching),
    file: &str,
    spool: Option<SpoolFile<M>>,
    follower: F,
) -> Result<u8, AllocError>
    ensures { IfOk result (λ status. EndsAs (F.follows follower (is_some spool)) status
        ⊎ IsUncompared status) }
{
    let position = Cell::new(u64::MAX);
    let (version, watching) = server;
    let (max_frame, stops) = (task.limits().max_frame, watching == Watching::Stop);
    let input = match compared_input(rt, file, version, max_frame, stops, &position) {
        Ok(input) => input,
        Err(fault) => return Ok(tell_notes(rt.alloc(), file, fault, &mut rt.stderr())),
    };
    let output = FirstStatus::new(rt.stdout(), &position);
    let (status, link) = follow_guarded(rt, task, server, (input, output), spool, follower)?;
    tell_counts(rt.alloc(), link.reader.reader().counts(), &mut rt.stderr());
    if status == FOLLOW_IO && link.reader.reader().has_stopped() {
        return Ok(FOLLOW_BROKEN);
    }
    Ok(status)
}

/// Follows a watched server from standard input, and compares its commits where that is asked for.
fn follow_watched<F: Follower + Drop, M: Disk + Drop>(
    rt: &HostRuntime,
    task: &Task,
    server: (Version, Watching),
    spool: Option<SpoolFile<M>>,
    follower: F,
) -> Result<u8, AllocError>
    ensures { IfOk result (λ status. EndsAs (F.follows follower (is_some spool)) status
        ⊎ IsUnwatched task.now status) }
{
    if let Task::Follow {
        repeats: Some(file),
        ..
    } = task
    {
        // (what is compared is taken for a session from its first byte on)
        if task.loads() {
            let _ = eprintln!(rt; "error: the argument '--load' cannot be used with '--repeats'");
            return Ok(USAGE);
        }
        return follow_compared(rt, task, server, file.as_str(), spool, follower);
    }
    let ends = (rt.stdin(), rt.stdout());
    let (status, _link) = follow_guarded(rt, task, server, ends, spool, follower)?;
    Ok(status)
}

/// Follows a server from standard input, and watches it where that is asked for.
fn follow_input<F: Follower + Drop, M: Disk + Drop>(
    rt: &HostRuntime,
    task: &Task,
    server: (Version, Option<Watching>),
    spool: Option<SpoolFile<M>>,
    follower: F,
) -> u8
    ensures { Serves (F.follows follower (is_some spool)) task.now server.1 result }
{
    let (version, watch) = server;
    let Some(watching) = watch else {
        return follower.follow((rt.stdin(), rt.stdout()), spool).0;
    };
    match follow_watched(rt, task, (version, watching), spool, follower) {
        Ok(status) => status,
        Err(AllocError) => {
            let _ = eprintln!(rt; "pgsub: memory");
            FOLLOW_MEMORY
        }
    }
}

/// Follows a server from standard input, and watches it where that is asked for. The file of open
/// transactions that the task names, if any, goes with the run. Returns the exit status.
pub fn follow_server<F: Follower + Drop>(
    rt: &HostRuntime,
    task: &Task,
    server: (Version, Option<Watching>),
    follower: F,
) -> u8
    ensures { Serves (F.follows follower (names_spool task.now)) task.now server.1 result
        ⊎ IsUnspooled task.now result }
{
    let spool = match spool_of(rt, task) {
        Ok(spool) => spool,
        Err(fault) => return tell_unspooled(rt.alloc(), fault, &mut rt.stderr()),
    };
    let status = follow_input(rt, task, server, spool, follower);
    remove_spool(rt, task);
    status
}
