//! The opening of a database.

ghost use Rattle.std.specs.Prelude.{IfErr, IfOk};
ghost use Rattle.sqlite.specs.Files.{file_state};
ghost use Rattle.sqlite.specs.Held.{IsNew};
ghost use Rattle.sqlite.specs.State.{HasCleanDisk};
ghost use Rattle.sqlite.specs.Steps.{IsEmpty};
ghost use Rattle.pgmemory.specs.Refused.{IsWantOfRoom};

use crate::disk::MemoryDisk;
use sqlite::{Connection, Error, FileStore, Files, Options};
use std::alloc::Global;

/// After so many pages the log is copied into the database file.
const CHECKPOINT_FRAMES: usize = 256;

/// So many pages of a transaction wait for its commit, each of them once. A page that goes to the
/// log before that goes there again whenever it changes.
const SPILL_PAGES: usize = 1_000_000;

/// Eight megabytes of pages that were read.
const CACHE_PAGES: usize = 2000;

/// The log's salts tell an old log from a new one in a file that outlives its process, and here
/// none does.
const SEED: u64 = 1;

/// A new database in memory, without a table, outside a transaction. It ends with the connection.
///
/// An open fails only for want of room: memory for the connection, memory for a disk
/// (`SystemIoFailure`), or page numbers (`DiskFull`).
pub fn open(alloc: Global) -> Result<Connection<FileStore<MemoryDisk>>, Error>
    ensures empty { IfOk result (λ conn. IsEmpty (file_state conn)) }
    ensures fresh { IfOk result IsNew }
    ensures clean { IfOk result (λ conn. HasCleanDisk (file_state conn)) }
    ensures refused { IfErr result IsWantOfRoom }
{
    let files = Files {
        log: MemoryDisk::new(alloc),
        db: MemoryDisk::new(alloc),
    };
    let options = Options {
        cache_pages: CACHE_PAGES,
        spill_pages: SPILL_PAGES,
        checkpoint_frames: CHECKPOINT_FRAMES,
        seed: SEED,
    };
    match Connection::open_files(alloc, files, options) {
        Ok(conn) => Ok(conn),
        Err((error, _)) => Err(error),
    }
}
