//! The file in which the changes of open transactions go on that memory doesn't hold.
//!
//! PostgreSQL documentation, Streaming of Large Transactions for Logical Decoding.

ghost use Rattle.std.specs.Prelude.{◌≡◌, None, Err, IfOk, IfErr, is_some, true};
ghost use Rattle.pginputs.specs.Serving.{names_spool};
ghost use Rattle.pgsystem.specs.Spooling.{IsOfMaking};
ghost use Rattle.pgsub_cli.specs.declared.fault.RunFault.TheVariants.{Stream};
ghost use Rattle.pgsub_cli.specs.Caused.{TellsBecause};
ghost use Rattle.pgsub_cli.specs.FollowStatus.{status_of_fault};
ghost use Rattle.pgsub_core.specs.declared.fault.Fault.TheVariants.{Spool};

use pgcommand::Task;
use pgspool::SpoolFault;
use pgsub_cli::SpoolFile;
use pgsub_cli::files::Output;
use pgsub_cli::following::{fault_status, tell_because};
use pgsub_core::Fault;
use pgsystem::open_anew;
use sqlite::{FileFrom, Unknown};
use std::alloc::Global;

/// Makes the file at a path anew, for its owner alone, and opens it. What it held is lost, unless
/// it is a database, a log, a journal, a feed, no plain file, or one of the `others` that the run
/// needs. So many bytes of the changes of open transactions stay in memory.
///
/// # Errors
///
/// `NotWritten` where it can't be made or opened, `NoRoom` where the disk is full, and `Memory`.
pub fn make_spool(
    rt: &HostRuntime,
    path: &str,
    others: &[&str],
    max_in_memory: u64,
) -> Result<SpoolFile<FileFrom<Unknown>>, SpoolFault>
    ensures memory { IfOk result (λ bytes. bytes ≡ max_in_memory) }
    ensures fault { IfErr result IsOfMaking }
{
    let file = open_anew(rt, path, others)?;
    SpoolFile::over(file, max_in_memory).ok_or(SpoolFault::NotWritten)
}

/// Tells why the file can't be made. Returns the exit status, that of a run which this fault
/// stopped: 14 where memory ran out and else 13.
pub fn tell_unspooled<E: Output>(alloc: Global, fault: SpoolFault, err: &mut E) -> u8
    ensures status { result ≡ status_of_fault (Spool fault) }
    ensures tells { TellsBecause E.takes E.failed None (Err (Stream (Spool fault)))
        err.old err.new }
{
    let stopped = Fault::Spool(fault);
    tell_because(alloc, stopped, None, err);
    fault_status(stopped)
}

/// The file in which the changes of open transactions go on of the server that a task follows, if
/// it names one.
pub(crate) fn spool_of(
    rt: &HostRuntime,
    task: &Task,
) -> Result<Option<SpoolFile<FileFrom<Unknown>>>, SpoolFault>
    ensures made { IfOk result (λ spool. is_some spool ≡ names_spool task.now) }
    ensures fault { IfErr result (λ fault. (names_spool task.now ≡ true) × IsOfMaking fault) }
{
    let Task::Follow {
        store,
        spool: Some(spool),
        repeats,
        ..
    } = task
    else {
        return Ok(None);
    };
    let store = store.as_str();
    // where no commits are noted, the store's file stands for theirs too
    let noted = match repeats {
        Some(file) => file.as_str(),
        None => store,
    };
    let others = [store, noted];
    Ok(Some(make_spool(rt, spool.file.as_str(), &others, spool.memory)?))
}
