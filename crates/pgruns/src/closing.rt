//! Closes the store of a run.

ghost use Rattle.std.specs.Prelude.{◌≡◌, []};
ghost use Rattle.pgruns.specs.Filed.{ClosesTo, ending_of_closing, fault_of_closing, status_closed};
ghost use Rattle.pgruns.specs.Filed.{status_of_unclosed};
ghost use Rattle.pgsub_cli.specs.Runs.{Tells};
ghost use Rattle.pgsub_cli.specs.Storing.{status_of_unopened};

use pgapply::StoreFault;
use pgstore::Store;
use pgsub_cli::files::Output;
use pgsub_cli::storing::tell_unopened;
use pgsystem::Closing;
use sqlite::FileStore;
use sqlite_disk::Disk;
use std::alloc::Global;

/// Closes a store, whose log goes into its own file. Where that fails, the next run reads the log,
/// and nothing is lost.
fn close<D: Disk + Drop>(store: Store<FileStore<D>>) -> (Option<StoreFault>, Closing<D>)
    ensures closes { ClosesTo store result.1 }
    ensures fault { result.0 ≡ fault_of_closing result.1 }
{
    match store.close_files() {
        Ok(files) => (None, Ok(files)),
        Err((fault, trees)) => (Some(fault), Err((fault, trees))),
    }
}

/// The same, and tells where it fails.
pub(crate) fn close_told<D: Disk + Drop, E: Output>(
    alloc: Global,
    store: Store<FileStore<D>>,
    err: &mut E,
) -> (Option<StoreFault>, Closing<D>)
    ensures closes { ClosesTo store result.1 }
    ensures fault { result.0 ≡ fault_of_closing result.1 }
    ensures tells { Tells E.takes E.failed [] [] (ending_of_closing result.0) err.old err.new }
{
    let (fault, closing) = close(store);
    if let Some(fault) = fault {
        tell_unopened(alloc, fault, err);
    }
    (fault, closing)
}

/// The exit status of following where its store can't be closed.
fn unclosed_status(fault: StoreFault) -> u8
    ensures { result ≡ status_of_unclosed fault }
{
    match fault {
        StoreFault::Memory => 14,
        _ => 13,
    }
}

/// That of another run.
fn unopened_status(fault: StoreFault) -> u8
    ensures { result ≡ status_of_unopened fault }
{
    match fault {
        StoreFault::Memory => 1,
        _ => 3,
    }
}

/// The exit status of following that ended with one, where its store was closed so.
pub(crate) fn followed_status(status: u8, closing: Option<StoreFault>) -> u8
    ensures { result ≡ status_closed status_of_unclosed status closing }
{
    match closing {
        None => status,
        Some(fault) if status == 0 => unclosed_status(fault),
        Some(_) => status,
    }
}

/// That of another run.
pub(crate) fn run_status(status: u8, closing: Option<StoreFault>) -> u8
    ensures { result ≡ status_closed status_of_unopened status closing }
{
    match closing {
        None => status,
        Some(fault) if status == 0 => unopened_status(fault),
        Some(_) => status,
    }
}
