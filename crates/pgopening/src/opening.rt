//! From two files to trees.
//!
//! SQLite documentation, Write-Ahead Logging, and Database File Format, The Database Header.

ghost use Rattle.std.specs.Prelude.{◌≡◌, IsTrue, IfOk, IfSome};
ghost use Rattle.sqlite_wal.specs.Reads.{AreClean, OnlyReads};
ghost use Rattle.sqlite_wal.specs.PageSize.{bytes_of};
ghost use Rattle.sqlite_store.specs.Unopened.{files_of, state_of};
ghost use Rattle.sqlite.specs.Files.{image_of};
ghost use Rattle.pgopening.specs.Found.{HasPages, IsFound};

use crate::listed::{OBJECTS, list_a_store};
use sqlite::{FileStore, Files, Options};
use sqlite_disk::{Disk, Tally};
use sqlite_pager::Pager;
use sqlite_store::{OpenError, Unopened, name_fault};
use sqlite_trees::error::StoreError;
use sqlite_wal::{PageSize, probe_first_page, probe_page_size};
use std::alloc::{AllocError, AllocFailed, Global};

/// Bytes 20 to 23 of a header where no byte of a page is reserved, as for sums.
const NO_SUMS: u32 = 0x0040_2020;

/// What files hold.
pub enum Found<D: Disk> {
    /// The tables of a store, whose rows weren't looked at.
    Trees(FileStore<D>),
    /// Something else, or nothing.
    Others(Files<D>),
}

/// The size of the pages of a database without sums, or `None` where the files hold something else
/// or can't be read.
fn plain_size<D: Disk>(alloc: Global, files: &mut Files<D>) -> Option<PageSize>
    requires log { IsTrue (D.Disk.is_usable files.old.log) }
    requires db { IsTrue (D.Disk.is_usable files.old.db) }
    ensures pages { IfSome result (λ size. AreClean D.Disk files.new.log files.new.db →
        HasPages (bytes_of size) (image_of D.Disk files.old)) }
    ensures log { OnlyReads D.Disk files.old.log files.new.log }
    ensures db { OnlyReads D.Disk files.old.db files.new.db }
{
    let Ok(Some(size)) = probe_page_size(files) else {
        return None;
    };
    match probe_first_page(alloc, files, size) {
        Ok((b'S', NO_SUMS)) => Some(size),
        _ => None,
    }
}

/// The files, to be opened as those of a store.
fn unopened<D: Disk + Drop>(
    alloc: Global,
    files: Files<D>,
    size: PageSize,
    options: Options,
) -> Result<Unopened<D>, StoreError>
    ensures files { IfOk result (λ it. files_of it ≡ (files.log, files.db)) }
    ensures size { IfOk result (λ it. (state_of it).page_size ≡ bytes_of size) }
{
    let pager = Pager::new(alloc, files, size, options)?;
    match Unopened::new(alloc, pager, &OBJECTS) {
        Ok(it) => Ok(it),
        Err(_) => Err(StoreError::OutOfMemory),
    }
}

/// An error by its name, and a fault by what the files met before and since.
fn named(error: OpenError, before: Tally, now: Tally) -> StoreError {
    match error {
        OpenError::OutOfMemory => StoreError::OutOfMemory,
        OpenError::Io => name_fault(before, now),
        OpenError::Full => StoreError::Full,
        OpenError::Refused => StoreError::Corrupt,
    }
}

/// Recovers the log of files that list the tables of a store, and checks each of their pages. Other
/// files come back with the content that they had.
///
/// # Errors
///
/// Why files that begin as a database can't be opened. They are dropped then.
pub fn open<D: Disk + Drop>(
    alloc: Global,
    mut files: Files<D>,
    options: Options,
) -> Result<Found<D>, StoreError>
    requires log { IsTrue (D.Disk.is_usable files.log) }
    requires db { IsTrue (D.Disk.is_usable files.db) }
    ensures found { IfOk result (IsFound D.Disk (image_of D.Disk files)) }
{
    let before = files.tally();
    let Some(size) = plain_size(alloc, &mut files) else {
        return Ok(Found::Others(files));
    };
    let mut fresh = unopened(alloc, files, size, options)?;
    let entries = match fresh.read_catalog() {
        Ok(entries) => entries,
        Err(error) => return Err(named(error, before, fresh.tally())),
    };
    if !list_a_store(entries.as_slice()) {
        return Ok(Found::Others(fresh.close()));
    }
    match fresh.open_numbered() {
        Ok(store) => Ok(Found::Trees(store)),
        Err((error, left)) => Err(named(error, before, left.tally())),
    }
}
