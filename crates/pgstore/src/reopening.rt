//! A store in two files: what a crash leaves of it, and opening what was left.
//!
//! SQLite documentation, Write-Ahead Logging.

ghost use Rattle.std.specs.Prelude.{◌≡◌, ◌⊎◌, true, is_some, IsTrue, IfOk, IfErr, IfSome};
ghost use Rattle.sqlite.specs.Held as connection;
ghost use Rattle.sqlite.specs.Files.{image_of, over_files};
ghost use Rattle.sqlite.specs.State.{HasCleanDisk};
ghost use Rattle.sqlite.specs.Tree.{Trees};
ghost use Rattle.sqlite.specs.WalReads.{AreClean};
ghost use Rattle.pgmemory.specs.Stopped.{Leaves};
ghost use Rattle.pgrows.specs.Rows.{state};
ghost use Rattle.pgapply.specs.Stored.{IsOwnFault};
ghost use Rattle.pgstore.specs.StoreValue.{begun_at, IsHonest, Serves};
ghost use Rattle.pgstore.specs.Reopened.{HoldsContent, IsAsLeft, IsCopiedTo, ReopensLeft};
ghost use Rattle.pgstore.specs.Reopened.{StaysAsFound};

use crate::store::Store;
use pgapply::StoreFault;
use pgencoded::Refusal;
use pgopening::Found;
use sqlite::{Connection, FileStore, Files, Options};
use sqlite_disk::Disk;
use sqlite_trees::store::Store as TreeStore;
use std::alloc::Global;

impl<D: Disk + Drop> Store<FileStore<D>> {
    /// The store in two files, as `adopt` takes it: the SQL library checks their rows too, with all
    /// of a table in memory.
    fn adopt_files(
        alloc: Global,
        files: Files<D>,
        options: Options,
    ) -> Result<Store<FileStore<D>>, (Refusal, Option<Connection<FileStore<D>>>)>
        requires log { IsTrue (D.Disk.is_usable files.log) }
        requires db { IsTrue (D.Disk.is_usable files.db) }
        ensures serves { IfOk result (λ store. IsHonest over_files store →
            Serves over_files store) }
        ensures stood { IfOk result (λ store. IsHonest over_files store →
            HoldsContent over_files (image_of D.Disk files) store) }
        ensures begun { IfOk result (λ store. store.group ≡ begun_at store.position) }
        ensures unchanged { IfErr result (λ e. IfSome e.1 (λ conn.
            HasCleanDisk (connection.state over_files conn) →
            StaysAsFound over_files (image_of D.Disk files) conn)) }
        ensures fault { IfErr result (λ e. IsOwnFault e.0 ⊎ (e.0 ≡ StoreFault.NotAStore)) }
        ensures returned { IfErr result (λ e. e.0 ≡ StoreFault.NotAStore →
            is_some e.1 ≡ true) }
        ensures disks { IfOk result (λ store. IsHonest over_files store →
            AreClean D.Disk files.log files.db) }
        ensures disks_refused { IfErr result (λ e. IfSome e.1 (λ conn.
            HasCleanDisk (connection.state over_files conn) →
            AreClean D.Disk files.log files.db)) }
    {
        let conn = match Connection::open_files(alloc, files, options) {
            Ok(conn) => conn,
            Err((error, _)) => return Err((Refusal::from(error), None)),
        };
        match Store::adopt(alloc, conn) {
            Ok(store) => Ok(store),
            Err((fault, conn)) => Err((Refusal::new(fault), Some(conn))),
        }
    }

    /// As `open_files`. A whole store takes the memory of its definitions and of one row. Where the
    /// files hold none, the connection to them comes back beside the fault.
    pub(crate) fn open_found(
        alloc: Global,
        files: Files<D>,
        options: Options,
    ) -> Result<Store<FileStore<D>>, (Refusal, Option<Connection<FileStore<D>>>)>
        requires log { IsTrue (D.Disk.is_usable files.log) }
        requires db { IsTrue (D.Disk.is_usable files.db) }
        ensures serves { IfOk result (λ store. IsHonest over_files store →
            Serves over_files store) }
        ensures stood { IfOk result (λ store. IsHonest over_files store →
            HoldsContent over_files (image_of D.Disk files) store) }
        ensures begun { IfOk result (λ store. store.group ≡ begun_at store.position) }
        ensures unchanged { IfErr result (λ e. IfSome e.1 (λ conn.
            HasCleanDisk (connection.state over_files conn) →
            StaysAsFound over_files (image_of D.Disk files) conn)) }
        ensures fault { IfErr result (λ e. IsOwnFault e.0 ⊎ (e.0 ≡ StoreFault.NotAStore)) }
        ensures returned { IfErr result (λ e. e.0 ≡ StoreFault.NotAStore →
            is_some e.1 ≡ true) }
    {
        match pgopening::open(alloc, files, options) {
            Ok(Found::Trees(store)) => Store::of_trees(alloc, store),
            Ok(Found::Others(files)) => Store::adopt_files(alloc, files, options),
            Err(error) => Err((Refusal::from(error), None)),
        }
    }

    /// As `open_trusted_files`. Where the files hold no store, the connection to them comes back
    /// beside the fault.
    pub(crate) fn open_left(
        alloc: Global,
        files: Files<D>,
        options: Options,
    ) -> Result<Store<FileStore<D>>, (Refusal, Option<Connection<FileStore<D>>>)>
        requires log { IsTrue (D.Disk.is_usable files.log) }
        requires db { IsTrue (D.Disk.is_usable files.db) }
        requires left { IsAsLeft (image_of D.Disk files) }
        ensures serves { IfOk result (λ store. IsHonest over_files store →
            Serves over_files store) }
        ensures stood { IfOk result (λ store. IsHonest over_files store →
            HoldsContent over_files (image_of D.Disk files) store) }
        ensures begun { IfOk result (λ store. store.group ≡ begun_at store.position) }
        ensures unchanged { IfErr result (λ e. IfSome e.1 (λ conn.
            HasCleanDisk (connection.state over_files conn) →
            StaysAsFound over_files (image_of D.Disk files) conn)) }
        ensures fault { IfErr result (λ e. IsOwnFault e.0 ⊎ (e.0 ≡ StoreFault.NotAStore)) }
        ensures returned { IfErr result (λ e. e.0 ≡ StoreFault.NotAStore →
            is_some e.1 ≡ true) }
    {
        match pgopening::open(alloc, files, options) {
            Ok(Found::Trees(store)) => Store::of_trusted(alloc, store),
            Ok(Found::Others(files)) => Store::adopt_files(alloc, files, options),
            Err(error) => Err((Refusal::from(error), None)),
        }
    }

    /// The two files as they are, without a word to the disks: what a crash at this moment leaves.
    /// While the disks are honest, each content that the files may have after the crash holds a
    /// database that the store may leave.
    pub fn stop(self) -> Files<D>
        ensures left { Leaves D.Disk (state over_files self.rows).may_leave result }
    {
        pgmemory::stop(self.into_store())
    }

    /// Closes the store: its log goes into the file of the database, and the two files come back.
    /// From then on that file alone holds what the store held (`copied`). Nothing of what is
    /// committed is lost, also where that fails.
    ///
    /// # Errors
    ///
    /// `Memory` or `Refused` where the log can't be copied. The store of the trees comes back
    /// beside the fault.
    pub fn close_files(self) -> Result<Files<D>, (StoreFault, FileStore<D>)>
        ensures left { IfOk result (Leaves D.Disk (state over_files self.rows).may_leave) }
        ensures honest { IfOk result (λ files. AreClean D.Disk files.log files.db →
            IsHonest over_files self) }
        ensures honest_unclosed { IfErr result (λ e. HasCleanDisk (state over_files e.1) →
            IsHonest over_files self) }
        ensures unclosed { IfErr result (λ e. HasCleanDisk (state over_files e.1) →
            (db : Trees) → (state over_files e.1).may_leave db →
            (state over_files self.rows).may_leave db) }
        ensures fault { IfErr result (λ e. IsOwnFault e.0) }
        ensures copied { IfOk result (λ files. AreClean D.Disk files.log files.db →
            IsCopiedTo self files) }
    {
        let mut store = self.into_store();
        // Again, for what only the rollback of a store in files says of its log.
        store.rollback();
        match store.checkpoint() {
            Ok(()) => Ok(store.close()),
            Err(error) => Err((StoreFault::from(Refusal::from(error)), store)),
        }
    }

    /// The store in two files, as `adopt` takes it. Files without bytes get a store without tables
    /// at position 0/0.
    ///
    /// It holds what is stored in the files (`stood`). So if they have the content that a crash
    /// left of a store, it holds what that store could leave (`reopens`): the same tables and
    /// position where that one served, and never an older position (law `left_is_reopened`).
    ///
    /// # Errors
    ///
    /// `Refused` where the files can't be opened, and `Memory`; else those of `adopt`. The files
    /// are dropped then.
    pub fn open_files(
        alloc: Global,
        files: Files<D>,
        options: Options,
    ) -> Result<Store<FileStore<D>>, StoreFault>
        requires log { IsTrue (D.Disk.is_usable files.log) }
        requires db { IsTrue (D.Disk.is_usable files.db) }
        ensures serves { IfOk result (λ store. IsHonest over_files store →
            Serves over_files store) }
        ensures stood { IfOk result (λ store. IsHonest over_files store →
            HoldsContent over_files (image_of D.Disk files) store) }
        ensures begun { IfOk result (λ store. store.group ≡ begun_at store.position) }
        ensures reopens { IfOk result (λ store. IsHonest over_files store →
            ReopensLeft (image_of D.Disk files) store) }
        ensures fault { IfErr result (λ fault. IsOwnFault fault ⊎ (fault ≡ StoreFault.NotAStore)) }
    {
        match Store::open_found(alloc, files, options) {
            Ok(store) => Ok(store),
            Err((refusal, _conn)) => Err(StoreFault::from(refusal)),
        }
    }

    /// The store in two files, as `open_files` opens it, where a run of a store left them so
    /// (`left`): their log is recovered, each page is checked, and its definitions and its position
    /// are read, but no row.
    ///
    /// What a row or its entry of the index says otherwise than the run had written it isn't found
    /// here: then nothing is promised of the store. `NotAStore` comes of such a row when it is met.
    ///
    /// # Errors
    ///
    /// Those of `open_files`.
    pub fn open_trusted_files(
        alloc: Global,
        files: Files<D>,
        options: Options,
    ) -> Result<Store<FileStore<D>>, StoreFault>
        requires log { IsTrue (D.Disk.is_usable files.log) }
        requires db { IsTrue (D.Disk.is_usable files.db) }
        requires left { IsAsLeft (image_of D.Disk files) }
        ensures serves { IfOk result (λ store. IsHonest over_files store →
            Serves over_files store) }
        ensures stood { IfOk result (λ store. IsHonest over_files store →
            HoldsContent over_files (image_of D.Disk files) store) }
        ensures begun { IfOk result (λ store. store.group ≡ begun_at store.position) }
        ensures reopens { IfOk result (λ store. IsHonest over_files store →
            ReopensLeft (image_of D.Disk files) store) }
        ensures fault { IfErr result (λ fault. IsOwnFault fault ⊎ (fault ≡ StoreFault.NotAStore)) }
    {
        match Store::open_left(alloc, files, options) {
            Ok(store) => Ok(store),
            Err((refusal, _conn)) => Err(StoreFault::from(refusal)),
        }
    }
}
