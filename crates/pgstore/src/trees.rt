//! The store in trees of which a database was just opened.
//!
//! The SQL library checks a database before it gives a connection to it, with all rows of a table
//! in memory. So a store that is whole is read below SQL, one row at a time, and only what isn't
//! one gets a connection.

ghost use Rattle.std.specs.Prelude.{◌≡◌, ◌⊎◌, true, is_some, IfOk, IfErr, IfSome};
ghost use Rattle.sqlite.specs.View.{IsClean};
ghost use Rattle.pgapply.specs.Stored.{IsOwnFault};
ghost use Rattle.pgstore.specs.StoreValue.{begun_at, IsHonest, Serves};
ghost use Rattle.pgstore.specs.Reopened.{AreAsLeft};
ghost use Rattle.pgstore.specs.Trees.{HaveValue, HoldsOpened, IsJustOpened, StaysOpened};

use crate::store::Store;
use pgadopt::{read_store, read_trusted};
use pgapply::StoreFault;
use pgencoded::Refusal;
use pglsn::Lsn;
use sqlite::{Alter, Connection};
use std::alloc::Global;

impl<S: Alter + Drop> Store<S> {
    /// The store in a database, as `adopt` takes it: the SQL library reads and checks its rows,
    /// with all of a table in memory.
    ///
    /// # Errors
    ///
    /// Those of `adopt`, and `Memory` or `Refused` where the SQL library rejects the database. A
    /// connection comes back beside the fault where there is one.
    fn adopt_over(alloc: Global, store: S) -> Result<Store<S>, (Refusal, Option<Connection<S>>)>
        requires { IsJustOpened S.Store store }
        ensures serves { IfOk result (λ it. IsHonest S.Store it → Serves S.Store it) }
        ensures holds { IfOk result (HoldsOpened S.Store store) }
        ensures begun { IfOk result (λ it. it.group ≡ begun_at it.position) }
        ensures stays { IfErr result (λ e. IfSome e.1 (StaysOpened S.Store store)) }
        ensures fault { IfErr result (λ e. IsOwnFault e.0 ⊎ (e.0 ≡ StoreFault.NotAStore)) }
        ensures returned { IfErr result (λ e. e.0 ≡ StoreFault.NotAStore →
            is_some e.1 ≡ true) }
    {
        let conn = match Connection::over(alloc, store) {
            Ok(conn) => conn,
            Err((error, _)) => return Err((Refusal::from(error), None)),
        };
        match Store::adopt(alloc, conn) {
            Ok(it) => Ok(it),
            Err((fault, conn)) => Err((Refusal::new(fault), Some(conn))),
        }
    }

    /// The store in trees in which a position was found, else as `adopt_over`.
    fn of_found(
        alloc: Global,
        store: S,
        found: Option<Lsn>,
    ) -> Result<Store<S>, (Refusal, Option<Connection<S>>)>
        requires opened { IsJustOpened S.Store store }
        requires found { IfSome found (λ position. IsClean (S.Store.view store) →
            HaveValue (S.Store.view store).trees position) }
        ensures serves { IfOk result (λ it. IsHonest S.Store it → Serves S.Store it) }
        ensures holds { IfOk result (HoldsOpened S.Store store) }
        ensures begun { IfOk result (λ it. it.group ≡ begun_at it.position) }
        ensures stays { IfErr result (λ e. IfSome e.1 (StaysOpened S.Store store)) }
        ensures fault { IfErr result (λ e. IsOwnFault e.0 ⊎ (e.0 ≡ StoreFault.NotAStore)) }
        ensures returned { IfErr result (λ e. e.0 ≡ StoreFault.NotAStore →
            is_some e.1 ≡ true) }
    {
        match found {
            Some(position) => Ok(Store::at(alloc, store, position)),
            None => Store::adopt_over(alloc, store),
        }
    }

    /// The store in trees of which a database was just opened, as `adopt` takes it. A whole store
    /// takes the memory of one row.
    ///
    /// # Errors
    ///
    /// Those of `adopt_over`.
    pub(crate) fn of_trees(
        alloc: Global,
        mut store: S,
    ) -> Result<Store<S>, (Refusal, Option<Connection<S>>)>
        requires { IsJustOpened S.Store store }
        ensures serves { IfOk result (λ it. IsHonest S.Store it → Serves S.Store it) }
        ensures holds { IfOk result (HoldsOpened S.Store store) }
        ensures begun { IfOk result (λ it. it.group ≡ begun_at it.position) }
        ensures stays { IfErr result (λ e. IfSome e.1 (StaysOpened S.Store store)) }
        ensures fault { IfErr result (λ e. IsOwnFault e.0 ⊎ (e.0 ≡ StoreFault.NotAStore)) }
        ensures returned { IfErr result (λ e. e.0 ≡ StoreFault.NotAStore →
            is_some e.1 ≡ true) }
    {
        match read_store(&mut store, alloc) {
            Ok(found) => Store::of_found(alloc, store, found),
            Err(refusal) => Err((refusal, None)),
        }
    }

    /// The same of trees that are a store's if they are listed as one (`left`). Its rows aren't
    /// read.
    ///
    /// # Errors
    ///
    /// Those of `adopt_over`, where its definitions or its position don't decode.
    pub(crate) fn of_trusted(
        alloc: Global,
        mut store: S,
    ) -> Result<Store<S>, (Refusal, Option<Connection<S>>)>
        requires opened { IsJustOpened S.Store store }
        requires left { IsClean (S.Store.view store) → AreAsLeft (S.Store.view store).trees }
        ensures serves { IfOk result (λ it. IsHonest S.Store it → Serves S.Store it) }
        ensures holds { IfOk result (HoldsOpened S.Store store) }
        ensures begun { IfOk result (λ it. it.group ≡ begun_at it.position) }
        ensures stays { IfErr result (λ e. IfSome e.1 (StaysOpened S.Store store)) }
        ensures fault { IfErr result (λ e. IsOwnFault e.0 ⊎ (e.0 ≡ StoreFault.NotAStore)) }
        ensures returned { IfErr result (λ e. e.0 ≡ StoreFault.NotAStore →
            is_some e.1 ≡ true) }
    {
        match read_trusted(&mut store, alloc) {
            Ok(found) => Store::of_found(alloc, store, found),
            Err(refusal) => Err((refusal, None)),
        }
    }
}
