//! A store that is made: over new tables, those of a connection, or trees that hold one.

ghost use Rattle.std.specs.Prelude.{◌≡◌, ◌⊎◌, false, IfOk, IfErr};
ghost use Rattle.sqlite.specs.Held as connection;
ghost use Rattle.sqlite.specs.State.{Survives};
ghost use Rattle.sqlite.specs.Steps.{over_memory};
ghost use Rattle.sqlite.specs.Files.{over_files};
ghost use Rattle.sqlite.specs.View.{IsClean};
ghost use Rattle.pgtables.specs.Schema.{no_schema};
ghost use Rattle.pgtables.specs.Kept as connected;
ghost use Rattle.pgapply.specs.Stored.{IsOwnFault};
ghost use Rattle.pgencoded.specs.DatabaseValue.{nothing_stored, LeavesAdopted};
ghost use Rattle.pgstore.specs.Reopened.{RefusedStaysAsFound};
ghost use Rattle.pgstore.specs.Trees.{HaveValue, IsJustOpened};
ghost use Rattle.pgstore.specs.StoreValue.{begun_at, Adopts, IsHonest, Serves, Holds, shown_by};

use crate::group::Group;
use crate::source::Source;
use crate::store::Store;
use pgadopt::{adopt_tables, make_tables};
use pgapply::StoreFault;
use pgencoded::Refusal;
use pglsn::Lsn;
use pgmemory::MemoryDisk;
use pgrel::Book;
use pgrows::Rows;
use pgtables::see_committed;
use sqlite::{Alter, Connection, FileStore, MemStore};
use std::alloc::Global;

impl Store<MemStore> {
    /// A store in memory without tables, at position 0/0. Where memory runs out, it returns
    /// `Memory` or `Refused`.
    pub fn in_memory(alloc: Global) -> Result<Store<MemStore>, StoreFault>
        ensures empty { IfOk result (λ store. Serves over_memory store
            × Holds over_memory store nothing_stored) }
        ensures begun { IfOk result (λ store. store.group ≡ begun_at store.position) }
        ensures fault { IfErr result IsOwnFault }
    {
        let conn = Connection::open_in_memory(alloc)?;
        Store::make(alloc, conn)
    }
}

impl Store<FileStore<MemoryDisk>> {
    /// A store in memory without tables, at position 0/0, whose trees are B-trees on two disks in
    /// memory: a deletion in it costs about what an insertion does. Where memory runs out, making
    /// it returns `Memory` or `Refused`. It ends with its process.
    ///
    /// It isn't promised to serve always, as one `in_memory` does: by what a disk promises, an
    /// allocation that fails inside it may shut the store, and then every call of it fails.
    pub fn on_memory_disks(alloc: Global) -> Result<Store<FileStore<MemoryDisk>>, StoreFault>
        ensures empty { IfOk result (λ store. Serves over_files store
            × Holds over_files store nothing_stored) }
        ensures begun { IfOk result (λ store. store.group ≡ begun_at store.position) }
        ensures fault { IfErr result IsOwnFault }
    {
        let conn = match pgmemory::open(alloc) {
            Ok(conn) => conn,
            Err(error) => return Err(StoreFault::from(Refusal::from(error))),
        };
        Store::make(alloc, conn)
    }
}

impl<S: Alter + Drop> Store<S> {
    /// A store without tables at position 0/0, in a connection that has no table yet.
    pub(crate) fn make(alloc: Global, mut conn: Connection<S>) -> Result<Store<S>, StoreFault>
        requires settled { (connection.state S.Store conn).in_transaction ≡ false }
        requires bare { connected.IfServing S.Store conn
            ((connection.state S.Store conn).now.schema ≡ no_schema) }
        ensures empty { IfOk result (λ store. IsHonest S.Store store → Serves S.Store store
            × Holds S.Store store nothing_stored) }
        ensures begun { IfOk result (λ store. store.group ≡ begun_at store.position) }
        ensures fault { IfErr result IsOwnFault }
    {
        make_tables(&mut conn)?;
        see_committed(&conn);
        Ok(Store {
            source: Source::Adopted(conn),
            alloc,
            position: Lsn(0),
            group: Group::at(Lsn(0)),
            cause: None,
        })
    }

    /// The store in an open connection: its rows and position are those of the tables there. A
    /// table that isn't there is made, empty, and where nothing is stored, the position is 0/0.
    /// Each row is read once and checked, in memory for the definitions and one row.
    ///
    /// # Errors
    ///
    /// `NotAStore` where the tables are others, or hold what no store has written; nothing is
    /// changed then. `Refused` where a transaction is under way or a call of the SQL store fails,
    /// and `Memory`. The connection comes back beside the fault.
    pub fn adopt(
        alloc: Global,
        mut conn: Connection<S>,
    ) -> Result<Store<S>, (StoreFault, Connection<S>)>
        ensures serves { IfOk result (λ store. IsHonest S.Store store → Serves S.Store store) }
        ensures adopted { IfOk result (λ store. IsHonest S.Store store →
            Adopts S.Store conn store) }
        ensures begun { IfOk result (λ store. store.group ≡ begun_at store.position) }
        ensures unchanged { IfErr result (λ e. connected.IfServing S.Store e.1
            ((connection.state S.Store conn).in_transaction ≡ false →
            (connection.state S.Store e.1).now ≡ (connection.state S.Store conn).now)) }
        ensures fault { IfErr result (λ e. IsOwnFault e.0 ⊎ (e.0 ≡ StoreFault.NotAStore)) }
        ensures crash { IfOk result (λ store. Survives (connection.state S.Store conn)
            (shown_by S.Store conn store) (LeavesAdopted S.Store conn)) }
        ensures crash_refused { IfErr result (λ e. Survives (connection.state S.Store conn)
            (connection.state S.Store e.1) (LeavesAdopted S.Store conn)) }
        ensures as_found { IfErr result (λ e. RefusedStaysAsFound S.Store conn e.1) }
    {
        match adopt_tables(&mut conn, alloc) {
            Ok(position) => {
                see_committed(&conn);
                Ok(Store {
                    source: Source::Adopted(conn),
                    alloc,
                    position,
                    group: Group::at(position),
                    cause: None,
                })
            }
            Err(refusal) => Err((StoreFault::from(refusal), conn)),
        }
    }

    /// The store in trees that hold one at this position.
    pub(crate) fn at(alloc: Global, store: S, position: Lsn) -> Store<S>
        requires fresh { IsJustOpened S.Store store }
        requires holds { IsClean (S.Store.view store) →
            HaveValue (S.Store.view store).trees position }
        ensures rows { result.rows ≡ store }
        ensures position { result.position ≡ position }
        ensures begun { result.group ≡ begun_at result.position }
    {
        Store {
            source: Source::Trees(Rows::of_trees(alloc, store), Book::new(alloc), false),
            alloc,
            position,
            group: Group::at(position),
            cause: None,
        }
    }
}
