//! The program: follows a server, shows, applies and compares recorded sessions of one, and keeps
//! in a file what they lead to.
#![tactic(auto)]

ghost use Rattle.std.specs.Prelude.{⊤};

mod build;

use build::{COMMIT, KIT};
use pgcommand::{
    CommandFault, MEMORY, Task, USAGE, Watching, command_of, tell_memory, tell_usage, words,
};
use pgfeed::Folder;
use pgfollow::Link;
use pginputs::{Follower, follow_server, input_of, reporter_of};
use pgledger::Supposing;
use pgloaded::{LoadPlan, SessionReader};
use pgorder::Version;
use pgruns::{ApplyPlan, FollowPlan, StoreFile, TrustedFile, apply, dump, follow};
use pgspooled::Honesty;
use pgsub_cli::fault::RunFault;
use pgsub_cli::storing::tell_stopped;
use pgsub_cli::{LiveIo, MissedLines, SpoolFile, store_path};
use pgsub_core::Side;
use pgsystem::{FeedPlan, SystemClock, fed_status, feed_of, files_of, opened, status_of};
use pgtasks::{run, run_in_memory};
use sqlite::Unknown;
use sqlite_disk::Disk;
use std::alloc::AllocError;
use std::io::Write;
use std::process::ExitCode;

/// How many bytes of a load's rows are stored in one.
const LOAD_BATCH: usize = 4_194_304;

/// The store in the file at a path, with so many of its pages in memory.
fn store_file<'p>(
    rt: &'p HostRuntime,
    path: &'p str,
    cache: usize,
    is_made: bool,
) -> StoreFile<'p, Unknown> {
    StoreFile {
        rt,
        path,
        cache,
        start: Unknown,
        is_made,
    }
}

/// Applies what a task names to the store in the file at a path. That is read before the store is
/// opened. A feed's folder is of any kind: a proof over the folder's own asks for what holds of
/// each of its parts.
///
/// The store's files never become a standard stream that was closed at the start: the SQL library
/// opens them with higher numbers.
fn run_over<D: Folder + Supposing + Drop>(
    rt: &HostRuntime,
    task: &Task,
    path: &str,
    feed: Option<FeedPlan<'_, D>>,
) -> u8 {
    let (mut out, mut err) = (rt.stdout(), rt.stderr());
    let input = match input_of(rt, task) {
        Ok(input) => input,
        Err(fault) => return tell_stopped(rt.alloc(), task, fault, &mut err),
    };
    let reporter = reporter_of(rt, task, &input);
    let plan = ApplyPlan {
        feed,
        limits: task.limits(),
        input,
        reporter: reporter.as_ref(),
    };
    let opening = store_file(rt, path, task.cache(), true);
    let (status, left, feed) = apply(rt.alloc(), opening, plan, &mut out, &mut err);
    fed_status(status, left, feed)
}

/// Prints what the store in the file at a path holds, which has to be there.
fn dump_over(rt: &HostRuntime, task: &Task, path: &str) -> u8 {
    let mut err = rt.stderr();
    if opened(rt, path).is_none() {
        let missing = RunFault::CannotRead(Side::Left);
        return tell_stopped(rt.alloc(), task, missing, &mut err);
    }
    let opening = store_file(rt, path, task.cache(), false);
    let (status, left, _out) = dump(rt.alloc(), opening, rt.stdout(), &mut err);
    status_of(status, left)
}

/// The load that comes before the first session that a task follows, if one does.
fn load_of(task: &Task) -> Option<LoadPlan> {
    if !task.loads() {
        return None;
    }
    Some(LoadPlan::new(LOAD_BATCH, task.limits().max_frame))
}

/// What follows a server over the store in the file at a path, after a load where one is asked for,
/// with a feed beside it. Its folder is of any kind, as in `run_over`.
#[derive(Drop)]
struct Over<'a, D: Folder + Drop> {
    rt: &'a HostRuntime,
    task: &'a Task,
    version: Version,
    path: &'a str,
    feed: Option<FeedPlan<'a, D>>,
}

// What a run leaves and tells is said by the clauses of `pgruns::follow`.
impl<D: Folder + Supposing + Drop> Follower for Over<'_, D> {
    ghost follows = { λ _ _ _. ⊤ };

    // Standard error is told of changes that found no row as soon as their commits are stored.
    fn follow<R: SessionReader + Drop, W: Write + Drop, M: Disk + Drop>(
        self,
        ends: (R, W),
        spool: Option<SpoolFile<M>>,
    ) -> (u8, Link<R, W>) {
        let (input, output) = ends;
        let Over {
            rt,
            task,
            version,
            path,
            feed,
        } = self;
        let plan = FollowPlan {
            load: load_of(task),
            feed,
            spool,
            listener: MissedLines::new(rt.alloc(), rt.stderr()),
            limits: task.limits(),
            version,
        };
        let mut io = LiveIo {
            link: Link::new(input, output),
            clock: SystemClock::new(rt),
            err: rt.stderr(),
            honesty: Honesty::new(),
        };
        let file = store_file(rt, path, task.cache(), true);
        if task.trusts_store() {
            let opening = TrustedFile { file };
            let (status, left, feed, _unloaded) = follow(rt.alloc(), opening, plan, &mut io);
            return (fed_status(status, left, feed), io.link);
        }
        let (status, left, feed, _unloaded) = follow(rt.alloc(), file, plan, &mut io);
        (fed_status(status, left, feed), io.link)
    }
}

/// Follows a server from standard input over the store in the file at a path.
fn run_live<D: Folder + Supposing + Drop>(
    rt: &HostRuntime,
    task: &Task,
    server: (Version, Option<Watching>),
    path: &str,
    feed: Option<FeedPlan<'_, D>>,
) -> u8 {
    let version = server.0;
    let over = Over {
        rt,
        task,
        version,
        path,
        feed,
    };
    follow_server(rt, task, server, over)
}

/// Applies a recording or a file to a store in memory, which ends with the program, and tells
/// meanwhile how far it is.
fn run_told(rt: &HostRuntime, task: &Task) -> u8 {
    let (mut out, mut err) = (rt.stdout(), rt.stderr());
    let input = match input_of(rt, task) {
        Ok(input) => input,
        Err(fault) => return tell_stopped(rt.alloc(), task, fault, &mut err),
    };
    let (limits, reporter) = (task.limits(), reporter_of(rt, task, &input));
    run_in_memory(
        rt.alloc(),
        limits,
        input,
        reporter.as_ref(),
        &mut out,
        &mut err,
    )
}

/// Runs the task that the words ask for. Returns the exit status.
fn run_words(rt: &HostRuntime, words: &[String]) -> u8 {
    let task = match command_of(rt.alloc(), words) {
        Ok(task) => task,
        Err(CommandFault::Usage(error)) => return tell_usage(rt, &error, COMMIT, KIT),
        Err(CommandFault::Memory) => return tell_memory(rt, words),
    };
    let feed = feed_of(rt, &task);
    if let Task::Follow {
        version,
        store,
        watch,
        ..
    } = &task
    {
        return run_live(rt, &task, (*version, *watch), store.as_str(), feed);
    }
    if let Task::Dump { store, .. } = &task {
        return dump_over(rt, &task, store.as_str());
    }
    if let Some(path) = store_path(&task) {
        return run_over(rt, &task, path, feed);
    }
    if let Task::Apply { progress: true, .. } = &task {
        return run_told(rt, &task);
    }
    let (left, right) = files_of(rt, &task);
    let (mut out, mut err) = (rt.stdout(), rt.stderr());
    run(rt.alloc(), &task, left, right, &mut out, &mut err)
}

/// The exit status of the program, which it runs.
fn status(rt: &HostRuntime) -> Result<u8, AllocError> {
    match words(rt)? {
        Some(words) => Ok(run_words(rt, words.as_slice())),
        None => {
            let _ = eprintln!(rt; "error: the command line is not UTF-8");
            Ok(USAGE)
        }
    }
}

fn main(rt: HostRuntime) -> ExitCode {
    match status(&rt) {
        Ok(status) => ExitCode::from(status),
        Err(AllocError) => {
            let _ = eprintln!(rt; "pgsub: memory");
            ExitCode::from(MEMORY)
        }
    }
}
