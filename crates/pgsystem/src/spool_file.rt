//! The file in which the changes of open transactions go on that memory doesn't hold.
//!
//! PostgreSQL documentation, Streaming of Large Transactions for Logical Decoding.

ghost use Rattle.std.specs.Prelude.{IfErr};
ghost use Rattle.pgsystem.specs.Spooling.{IsOfMaking};

use crate::file_folder::{make_file, open_file};
use crate::new_file::are_of_one;
use pgcommand::Task;
use pgfeed::FeedFault;
use pgspool::SpoolFault;
use sqlite::{FileFrom, Unknown};
use std::fs::File;
use std::io::{ErrorKind, Read};
use std::{fs, io};

/// A fault of the system.
fn spool_fault(error: io::Error) -> SpoolFault
    ensures { IsOfMaking result }
{
    match error.kind() {
        ErrorKind::OutOfMemory => SpoolFault::Memory,
        ErrorKind::StorageFull => SpoolFault::NoRoom,
        _ => SpoolFault::NotWritten,
    }
}

/// How files begin that somebody keeps: a database, its log in either order of bytes, its journal,
/// and a feed.
///
/// SQLite documentation, Database File Format, The Database Header, The Rollback Journal, WAL File
/// Format.
static KEPT: [&[u8]; 5] = [
    b"SQLite format 3\0",
    b"\x37\x7f\x06\x82",
    b"\x37\x7f\x06\x83",
    b"\xd9\xd5\x05\xf9\x20\xa1\x63\xd7",
    b"{\"feed\":",
];

/// Whether a file begins with these bytes, at most sixteen.
fn begins_with(rt: &HostRuntime, path: &str, start: &[u8]) -> io::Result<bool> {
    let mut head = [0; 16];
    let Some(head) = head.get_mut(..start.len()) else {
        return Ok(false);
    };
    let mut file = File::open(rt, path)?;
    Ok(file.read_exact(head).is_ok() && *head == *start)
}

/// Whether a file begins as one that somebody keeps.
fn is_kept(rt: &HostRuntime, path: &str) -> io::Result<bool> {
    for start in KEPT {
        if begins_with(rt, path, start)? {
            return Ok(true);
        }
    }
    Ok(false)
}

/// Whether a path leads to one of these files.
fn is_one_of(rt: &HostRuntime, path: &str, others: &[&str]) -> bool {
    for other in others {
        if are_of_one(fs::metadata(rt, path), fs::metadata(rt, other)) {
            return true;
        }
    }
    false
}

/// Whether what is at a path may be lost: nothing, or a plain file that nobody keeps and that is
/// none of these.
fn may_be_lost(rt: &HostRuntime, path: &str, others: &[&str]) -> io::Result<bool> {
    match fs::symlink_metadata(rt, path) {
        Ok(about) if !about.is_file() => Ok(false),
        Ok(_) => Ok(!is_one_of(rt, path, others) && !is_kept(rt, path)?),
        Err(error) if error.kind() == ErrorKind::NotFound => Ok(true),
        Err(error) => Err(error),
    }
}

/// Removes the file at a path, if it is there.
fn remove_old(rt: &HostRuntime, path: &str) -> io::Result<()> {
    match fs::remove_file(rt, path) {
        Err(error) if error.kind() != ErrorKind::NotFound => Err(error),
        _ => Ok(()),
    }
}

/// Makes the file at a path anew, for its owner alone. Returns false where another file that is
/// needed is there, or would be: of these a run makes those that aren't there.
fn is_made_anew(rt: &HostRuntime, path: &str, others: &[&str]) -> io::Result<bool> {
    if !may_be_lost(rt, path, others)? {
        return Ok(false);
    }
    remove_old(rt, path)?;
    make_file(rt, path)?;
    if is_one_of(rt, path, others) {
        fs::remove_file(rt, path)?;
        return Ok(false);
    }
    Ok(true)
}

/// Makes the file at a path anew, for its owner alone, and opens it. What it held is lost, unless
/// it is a database, a log, a journal, a feed, no plain file, or one of the `others` that the run
/// needs.
///
/// # Errors
///
/// `NotWritten` where it can't be made or opened, `NoRoom` where the disk is full, and `Memory`.
pub fn open_anew(
    rt: &HostRuntime,
    path: &str,
    others: &[&str],
) -> Result<FileFrom<Unknown>, SpoolFault>
    ensures { IfErr result IsOfMaking }
{
    if !is_made_anew(rt, path, others).map_err(spool_fault)? {
        return Err(SpoolFault::NotWritten);
    }
    match open_file(rt, path) {
        Ok(file) => Ok(file),
        Err(FeedFault::Memory) => Err(SpoolFault::Memory),
        Err(_) => Err(SpoolFault::NotWritten),
    }
}

/// Removes the file of open transactions that a task names, if it names one, at the end of a run.
/// What can't be removed is lost at the next start.
pub fn remove_spool(rt: &HostRuntime, task: &Task) {
    if let Task::Follow {
        spool: Some(spool),
        ..
    } = task
    {
        let _ = fs::remove_file(rt, spool.file.as_str());
    }
}
