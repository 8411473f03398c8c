//! A store's file by its path.

ghost use Rattle.std.specs.Prelude.{true, false, IsTrue, IfOk, ◌≡◌, ◌⊎◌, IfErr, IfSome, is_some};
ghost use Rattle.sqlite_std_file.specs.File.{IsFresh, file_is_usable};
ghost use Rattle.sqlite.specs.Held as connection;
ghost use Rattle.sqlite.specs.State.{HasCleanDisk};
ghost use Rattle.sqlite.specs.Files.{over_files};
ghost use Rattle.sqlite.specs.WalFiles.{image_at};
ghost use Rattle.pgapply.specs.Stored.{IsOwnFault};
ghost use Rattle.pgstore.specs.Reopened.{HoldsContent, IsAsLeft, StaysAsFound};
ghost use Rattle.pgstore.specs.StoreValue.{begun_at, IsHonest, Serves};

use crate::store::Store;
use pgapply::StoreFault;
use pgencoded::Refusal;
use sqlite::{Connection, Error, ErrorCode, FileFrom, FileStore, Files, Options, Start};
use sqlite_std_file::OpenError;
use std::alloc::Global;
use std::hash::{BuildHasher, RandomState};
use std::io::ErrorKind;

/// How many pages stay in memory where nobody says it. Those of a new store have 1,024 bytes, so
/// these are 20 MB.
pub const CACHE_PAGES: usize = 20_000;

/// How long the log grows, in pages, before it is copied into the file: 40 MB of a new store. A
/// page that is changed often goes there once.
const CHECKPOINT_FRAMES: usize = 40_000;

/// As many pages that were read stay in memory, and as many that were written before they go to the
/// log.
fn options(rt: &HostRuntime, cache: usize) -> Result<Options, Error> {
    let Ok(state) = RandomState::new(rt) else {
        return Err(Error::SqliteFailure(ErrorCode::CannotOpen));
    };
    Ok(Options {
        cache_pages: cache,
        spill_pages: cache,
        checkpoint_frames: CHECKPOINT_FRAMES,
        seed: state.hash_one(&0u8),
    })
}

/// Why the files at a path can't be opened.
fn path_error(error: OpenError) -> Error {
    Error::SqliteFailure(match error {
        OpenError::OutOfMemory => ErrorCode::OutOfMemory,
        OpenError::Busy => ErrorCode::DatabaseBusy,
        OpenError::Io(error) if error.kind() == ErrorKind::OutOfMemory => ErrorCode::OutOfMemory,
        OpenError::Io(error) if error.kind() == ErrorKind::StorageFull => ErrorCode::DiskFull,
        _ => ErrorCode::CannotOpen,
    })
}

/// The file at a path, with its log beside it, as the SQL library's own call reaches them, and how
/// they are opened: with so many pages in memory and a longer log.
///
/// SQLite documentation, Write-Ahead Logging, Performance Considerations.
pub(crate) fn reach<F: Start>(
    rt: &HostRuntime,
    path: &str,
    cache: usize,
    start: F,
) -> Result<(Files<FileFrom<F>>, Options), Error>
    ensures log { IfOk result (λ it. IsTrue (file_is_usable F.Start it.0.log)) }
    ensures db { IfOk result (λ it. IsTrue (file_is_usable F.Start it.0.db)) }
    ensures fresh { IfOk result (λ it. IsFresh true it.0.log × IsFresh false it.0.db) }
{
    // That call rejects a path that SQLite takes for memory or for a URI.
    if path == ":memory:" || path.starts_with("file:") {
        return Err(Error::SqliteFailure(ErrorCode::CannotOpen));
    }
    let options = options(rt, cache)?;
    match sqlite_std_file::open(rt, path, start) {
        Ok(files) => Ok((files, options)),
        Err(error) => Err(path_error(error)),
    }
}

impl<F: Start> Store<FileStore<FileFrom<F>>> {
    /// The store in the file at a path, with its log beside it, as `adopt` takes it. A file that
    /// isn't there is made, with a store without tables at position 0/0.
    ///
    /// What the files hold at the start isn't known of a path: `start` stands for it, and for any
    /// file it is `Unknown`. The store holds what is stored in them (`stood`): if a crash left that
    /// content of a store, what that one could leave (law `left_is_reopened`). It has counted no
    /// change without a row yet (`begun`).
    ///
    /// # Errors
    ///
    /// `Refused` where the file can't be opened or another process has it open, and `Memory`; else
    /// those of `adopt`. The files are closed then.
    pub fn open_from(
        alloc: Global,
        rt: &HostRuntime,
        path: &str,
        start: F,
    ) -> Result<Store<FileStore<FileFrom<F>>>, StoreFault>
        ensures serves { IfOk result (λ store. IsHonest over_files store →
            Serves over_files store) }
        ensures stood { IfOk result (λ store. IsHonest over_files store →
            HoldsContent over_files (image_at F.Start) store) }
        ensures begun { IfOk result (λ store. store.group ≡ begun_at store.position) }
        ensures fault { IfErr result (λ fault. IsOwnFault fault ⊎ (fault ≡ StoreFault.NotAStore)) }
    {
        Store::open_with(alloc, rt, path, CACHE_PAGES, start)
    }

    /// The same, with so many pages of the file in memory, and as many that were written before
    /// they go to the log.
    pub fn open_with(
        alloc: Global,
        rt: &HostRuntime,
        path: &str,
        cache: usize,
        start: F,
    ) -> Result<Store<FileStore<FileFrom<F>>>, StoreFault>
        ensures serves { IfOk result (λ store. IsHonest over_files store →
            Serves over_files store) }
        ensures stood { IfOk result (λ store. IsHonest over_files store →
            HoldsContent over_files (image_at F.Start) store) }
        ensures begun { IfOk result (λ store. store.group ≡ begun_at store.position) }
        ensures fault { IfErr result (λ fault. IsOwnFault fault ⊎ (fault ≡ StoreFault.NotAStore)) }
    {
        match Store::open_or_return(alloc, rt, path, cache, start) {
            Ok(store) => Ok(store),
            Err((refusal, _conn)) => Err(StoreFault::from(refusal)),
        }
    }

    /// As `open_with`, and the fault comes with its cause, where the files can't be opened. Where
    /// files were opened that hold no store, the connection to them always comes back beside it
    /// (`returned`): the database in them is as it was found (`unchanged`).
    pub fn open_or_return(
        alloc: Global,
        rt: &HostRuntime,
        path: &str,
        cache: usize,
        start: F,
    ) -> Result<
        Store<FileStore<FileFrom<F>>>,
        (Refusal, Option<Connection<FileStore<FileFrom<F>>>>),
    >
        ensures serves { IfOk result (λ store. IsHonest over_files store →
            Serves over_files store) }
        ensures stood { IfOk result (λ store. IsHonest over_files store →
            HoldsContent over_files (image_at F.Start) store) }
        ensures begun { IfOk result (λ store. store.group ≡ begun_at store.position) }
        ensures unchanged { IfErr result (λ e. IfSome e.1 (λ conn.
            HasCleanDisk (connection.state over_files conn) →
            StaysAsFound over_files (image_at F.Start) conn)) }
        ensures fault { IfErr result (λ e. IsOwnFault e.0 ⊎ (e.0 ≡ StoreFault.NotAStore)) }
        ensures returned { IfErr result (λ e. e.0 ≡ StoreFault.NotAStore →
            is_some e.1 ≡ true) }
    {
        match reach(rt, path, cache, start) {
            Ok((files, options)) => Store::open_found(alloc, files, options),
            Err(error) => Err((Refusal::from(error), None)),
        }
    }

    /// As `open_or_return`, and as `open_trusted_files` where a run of a store left the files: no
    /// row is read.
    pub fn open_trusted_or_return(
        alloc: Global,
        rt: &HostRuntime,
        path: &str,
        cache: usize,
        start: F,
    ) -> Result<
        Store<FileStore<FileFrom<F>>>,
        (Refusal, Option<Connection<FileStore<FileFrom<F>>>>),
    >
        requires { IsAsLeft (image_at F.Start) }
        ensures serves { IfOk result (λ store. IsHonest over_files store →
            Serves over_files store) }
        ensures stood { IfOk result (λ store. IsHonest over_files store →
            HoldsContent over_files (image_at F.Start) store) }
        ensures begun { IfOk result (λ store. store.group ≡ begun_at store.position) }
        ensures unchanged { IfErr result (λ e. IfSome e.1 (λ conn.
            HasCleanDisk (connection.state over_files conn) →
            StaysAsFound over_files (image_at F.Start) conn)) }
        ensures fault { IfErr result (λ e. IsOwnFault e.0 ⊎ (e.0 ≡ StoreFault.NotAStore)) }
        ensures returned { IfErr result (λ e. e.0 ≡ StoreFault.NotAStore →
            is_some e.1 ≡ true) }
    {
        match reach(rt, path, cache, start) {
            Ok((files, options)) => Store::open_left(alloc, files, options),
            Err(error) => Err((Refusal::from(error), None)),
        }
    }
}
