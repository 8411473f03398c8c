//! A store of trees that holds the three tables of a store.

ghost use Rattle.std.specs.Prelude.{◌≡◌, ◌≢◌, ◌∷◌, [], None, true, false, IsSome, IsTrue, IfOk};
ghost use Rattle.std.specs.Prelude.{IfErr, IfSome, MatchBool, MatchOption, OnOk, OnErr};
ghost use Rattle.std.specs.FinMap.{get};
ghost use Rattle.sqlite.specs.Held as connection;
ghost use Rattle.sqlite.specs.State.{HasCleanDisk, Survives};
ghost use Rattle.sqlite.specs.Steps.{IsFresh};
ghost use Rattle.pgtables.specs.Kept as connected;
ghost use Rattle.pgtables.specs.Kept.{IsKept, is_there, with_definition, with_place, with_row};
ghost use Rattle.pgtables.specs.Kept.{without_row, without_rows};
ghost use Rattle.pgtables.specs.Shown.{FitsCopies, FitsDefinition};
ghost use Rattle.pgrows.specs.declared.fault.ReadFault.TheVariants.{Malformed};
ghost use Rattle.pgrows.specs.Dump.{GivesAll, GivesFront, LeavesAt};
ghost use Rattle.pgrows.specs.Rows.{Drops, GoesBack, IfServing, IsNumbered, Keeps, Makes, Marks};
ghost use Rattle.pgrows.specs.Rows.{Shows, TellsVersion, database, state, tables_of};
ghost use Rattle.pgrows.specs.Rows.{with_row_if_there};
ghost use Rattle.pgrows.specs.Walk.{EachFits, EndsAt, HasNoRow, HasRow, IsNextRow};

use crate::change::{put_place, remove, set};
use crate::define::put_defined;
use crate::dump::give_all;
use crate::fault::ReadFault;
use crate::insert::add;
use crate::relation::clear;
use crate::search::Search;
use crate::sink::RowSink;
use crate::stored::{find_defined, find_stored};
use crate::walk::{has_rows, next_row};
use crate::whole::put;
use pgtables::{StoredDefinition, StoredRow, see_committed};
use sqlite::{Connection, Error, ErrorCode};
use sqlite_trees::error::StoreError;
use sqlite_trees::store::Alter;
use sqlite_value::row::Row;
use std::alloc::Global;
use std::marker::Model;

/// A store whose trees are those of the three tables, inside a transaction that is always open. A
/// call that fails rolls nothing back: from then on each call fails until `back` goes to the newest
/// mark, or `undo` or `commit` to the last commit.
#[derive(Drop)]
pub struct Rows<S: Alter> {
    store: S,
    alloc: Global,
    search: Search,
    // The entry of the row that came last, or nothing, and the first one after it: what comes
    // between them needs no search.
    low: Row,
    high: Row,
    // No row of the commit, of a mark or of the transaction has a rowid above it. It isn't known
    // before the first change.
    last: Option<i64>,
    failed: bool,
}

impl<S: Alter> Model for Rows<S> {
    ghost use Rattle.pgrows.specs.Rows.{IsHeld};

    ghost Value = { S };

    ghost coded = { S.code };

    ghost view = { λ r. r.store };

    ghost invariant = { λ r. IsHeld S.Store r.store r.last r.low r.high r.failed };
}

impl<S: Alter + Drop> Rows<S> {
    /// The rows of the tables that a connection shows outside a transaction.
    pub fn of_connection(alloc: Global, conn: Connection<S>) -> Rows<S>
        requires settled { (connection.state S.Store conn).in_transaction ≡ false }
        requires kept { connected.IfServing S.Store conn
            (IsKept (connection.state S.Store conn).now) }
        ensures tables { IfServing S.Store result
            (IsTrue (connection.state S.Store conn).is_open
            × ((state S.Store result).now ≡ (connection.state S.Store conn).now)
            × ((state S.Store result).committed ≡ (connection.state S.Store conn).now)
            × ((state S.Store result).marks ≡ [])) }
        ensures numbered { IsNumbered S.Store result }
        ensures survives { Survives (connection.state S.Store conn)
            (record (state S.Store result)
            { step_limit = (connection.state S.Store conn).step_limit }) (λ _. ⊥) }
    {
        see_committed(&conn);
        Rows {
            store: conn.into_store(),
            alloc,
            search: Search::new(alloc),
            low: Row::new(alloc),
            high: Row::new(alloc),
            last: None,
            failed: false,
        }
    }

    /// The rows of trees that were just opened and hold the tables of a store. It takes no memory,
    /// and reads nothing.
    pub fn of_trees(alloc: Global, store: S) -> Rows<S>
        requires fresh { IfServing S.Store store (IsFresh (S.Store.view store)) }
        requires kept { IfServing S.Store store (IsKept (state S.Store store).now) }
        ensures { result ≡ store }
    {
        Rows {
            store,
            alloc,
            search: Search::new(alloc),
            low: Row::new(alloc),
            high: Row::new(alloc),
            last: None,
            failed: false,
        }
    }

    /// A connection to the tables as they were committed. The SQL library reads and checks each row
    /// once more.
    ///
    /// # Errors
    ///
    /// Those of the SQL library, and `Closed` where a failure of the disk has shut the store, which
    /// comes back beside them.
    pub fn into_connection(self, alloc: Global) -> Result<Connection<S>, (Error, S)>
        ensures { IfOk result (λ conn. HasCleanDisk (connection.state S.Store conn) →
            HasCleanDisk (state S.Store self) × IsTrue (state S.Store self).is_open
            × ((connection.state S.Store conn).now.trees
            ≡ (state S.Store self).committed.trees)) }
    {
        let mut store = self.store;
        store.rollback();
        if store.is_broken() {
            return Err((Error::SqliteFailure(ErrorCode::Closed), store));
        }
        Connection::over(alloc, store)
    }
}

impl<S: Alter> Rows<S> {
    /// Puts a row whose key isn't there yet. It returns false where it is there, and then nothing
    /// changes.
    pub fn add_row(
        &mut self,
        oid: u32,
        ident: &[u8],
        body: &[u8],
        copies: u32,
    ) -> Result<bool, StoreError>
        ensures added { HasCleanDisk (state S.Store self.new) →
            IfOk result (λ is_new. is_new ≡ true →
            (get (tables_of S.Store self.old).rows (oid ∷ ident.now) ≡ None)
            × Makes S.Store (with_row oid ident.now (record { body = body.now; copies = copies }))
            self.old self.new) }
        ensures there { HasCleanDisk (state S.Store self.new) →
            IfOk result (λ is_new. is_new ≡ false →
            IsSome (get (tables_of S.Store self.old).rows (oid ∷ ident.now))
            × Makes S.Store (λ t. t) self.old self.new) }
        ensures keeps { HasCleanDisk (state S.Store self.new) →
            Keeps S.Store self.old self.new }
        ensures survives { Survives (state S.Store self.old) (state S.Store self.new) (λ _. ⊥) }
    {
        if self.failed {
            return Err(StoreError::Broken);
        }
        match add(
            &mut self.store,
            &mut self.low,
            &mut self.high,
            &mut self.search.row,
            self.last,
            oid,
            ident,
            body,
            copies,
        ) {
            Ok((is_new, last)) => {
                self.last = Some(last);
                Ok(is_new)
            }
            Err(error) => {
                self.failed = true;
                Err(error)
            }
        }
    }

    /// Replaces the row that has the new row's key, and returns whether there is one. Where none
    /// is, nothing changes.
    pub fn set_row(
        &mut self,
        oid: u32,
        ident: &[u8],
        body: &[u8],
        copies: u32,
    ) -> Result<bool, StoreError>
        ensures told { HasCleanDisk (state S.Store self.new) → IfOk result (λ was_there.
            was_there ≡ is_there oid ident.now (tables_of S.Store self.old)) }
        ensures made { HasCleanDisk (state S.Store self.new) → OnOk result
            (Makes S.Store (with_row_if_there oid ident.now
            (record { body = body.now; copies = copies })) self.old self.new) }
        ensures keeps { HasCleanDisk (state S.Store self.new) →
            Keeps S.Store self.old self.new }
        ensures survives { Survives (state S.Store self.old) (state S.Store self.new) (λ _. ⊥) }
    {
        if self.failed {
            return Err(StoreError::Broken);
        }
        match set(
            &mut self.store,
            &mut self.search,
            self.last,
            oid,
            ident,
            body,
            copies,
        ) {
            Ok((was_there, last)) => {
                self.last = Some(last);
                Ok(was_there)
            }
            Err(error) => {
                self.failed = true;
                Err(error)
            }
        }
    }

    /// Replaces the row that has the new row's key.
    pub fn put_row(
        &mut self,
        oid: u32,
        ident: &[u8],
        body: &[u8],
        copies: u32,
    ) -> Result<(), StoreError>
        ensures made { HasCleanDisk (state S.Store self.new) → OnOk result
            (Makes S.Store (with_row oid ident.now (record { body = body.now; copies = copies }))
            self.old self.new) }
        ensures keeps { HasCleanDisk (state S.Store self.new) →
            Keeps S.Store self.old self.new }
        ensures survives { Survives (state S.Store self.old) (state S.Store self.new) (λ _. ⊥) }
    {
        if self.failed {
            return Err(StoreError::Broken);
        }
        self.low.clear(); // The row may come between them.
        match put(
            &mut self.store,
            &mut self.search,
            self.last,
            oid,
            ident,
            body,
            copies,
        ) {
            Ok(last) => {
                self.last = Some(last);
                Ok(())
            }
            Err(error) => {
                self.failed = true;
                Err(error)
            }
        }
    }

    /// The row that has the key.
    pub fn find_row(&mut self, oid: u32, ident: &[u8]) -> Result<Option<StoredRow>, ReadFault>
        ensures found { HasCleanDisk (state S.Store self.new) →
            IfOk result (λ row. row ≡ get (tables_of S.Store self.old).rows (oid ∷ ident.now)) }
        ensures formed { HasCleanDisk (state S.Store self.new) →
            IfSome (get (tables_of S.Store self.old).rows (oid ∷ ident.now)) FitsCopies →
            IfErr result (λ fault. fault ≢ Malformed) }
        ensures made { HasCleanDisk (state S.Store self.new) → OnOk result
            (Makes S.Store (λ t. t) self.old self.new) }
        ensures keeps { HasCleanDisk (state S.Store self.new) →
            Keeps S.Store self.old self.new }
        ensures survives { Survives (state S.Store self.old) (state S.Store self.new) (λ _. ⊥) }
    {
        if self.failed {
            return Err(ReadFault::Store(StoreError::Broken));
        }
        match find_stored(
            &mut self.store,
            self.alloc,
            &mut self.search,
            self.last,
            oid,
            ident,
        ) {
            Ok(row) => Ok(row),
            Err(fault) => {
                self.failed = true;
                Err(fault)
            }
        }
    }

    /// Deletes the row that has the key, and returns whether there was one.
    pub fn delete_row(&mut self, oid: u32, ident: &[u8]) -> Result<bool, StoreError>
        ensures told { HasCleanDisk (state S.Store self.new) → IfOk result (λ was_there.
            was_there ≡ is_there oid ident.now (tables_of S.Store self.old)) }
        ensures made { HasCleanDisk (state S.Store self.new) → OnOk result
            (Makes S.Store (without_row oid ident.now) self.old self.new) }
        ensures keeps { HasCleanDisk (state S.Store self.new) →
            Keeps S.Store self.old self.new }
        ensures survives { Survives (state S.Store self.old) (state S.Store self.new) (λ _. ⊥) }
    {
        if self.failed {
            return Err(StoreError::Broken);
        }
        match remove(&mut self.store, &mut self.search, self.last, oid, ident) {
            Ok((was_there, last)) => {
                self.last = Some(last);
                Ok(was_there)
            }
            Err(error) => {
                self.failed = true;
                Err(error)
            }
        }
    }

    /// Deletes all rows of a relation.
    pub fn delete_rows(&mut self, oid: u32) -> Result<(), StoreError>
        ensures made { HasCleanDisk (state S.Store self.new) → OnOk result
            (Makes S.Store (without_rows oid) self.old self.new) }
        ensures keeps { HasCleanDisk (state S.Store self.new) →
            Keeps S.Store self.old self.new }
        ensures survives { Survives (state S.Store self.old) (state S.Store self.new) (λ _. ⊥) }
    {
        if self.failed {
            return Err(StoreError::Broken);
        }
        match clear(
            &mut self.store,
            &mut self.search.key,
            &mut self.search.entry,
            self.last,
            oid,
        ) {
            Ok(last) => {
                self.last = Some(last);
                Ok(())
            }
            Err(error) => {
                self.failed = true;
                Err(error)
            }
        }
    }

    /// The definition that the relation has.
    pub fn find_definition(&mut self, oid: u32) -> Result<Option<StoredDefinition>, ReadFault>
        ensures found { HasCleanDisk (state S.Store self.new) → IfOk result (λ definition.
            definition ≡ get (tables_of S.Store self.old).defined oid) }
        ensures formed { HasCleanDisk (state S.Store self.new) →
            IfSome (get (tables_of S.Store self.old).defined oid) FitsDefinition →
            IfErr result (λ fault. fault ≢ Malformed) }
        ensures made { HasCleanDisk (state S.Store self.new) → OnOk result
            (Makes S.Store (λ t. t) self.old self.new) }
        ensures keeps { HasCleanDisk (state S.Store self.new) →
            Keeps S.Store self.old self.new }
        ensures survives { Survives (state S.Store self.old) (state S.Store self.new) (λ _. ⊥) }
    {
        if self.failed {
            return Err(ReadFault::Store(StoreError::Broken));
        }
        match find_defined(
            &mut self.store,
            self.alloc,
            &mut self.search.row,
            self.last,
            oid,
        ) {
            Ok(definition) => Ok(definition),
            Err(fault) => {
                self.failed = true;
                Err(fault)
            }
        }
    }

    /// The relation's first row from this identity on, with its identity. So a table of any size is
    /// walked in the memory of one row, while rows change.
    pub fn next_row(
        &mut self,
        alloc: Global,
        oid: u32,
        from: &[u8],
    ) -> Result<Option<(Vec<u8>, StoredRow)>, ReadFault>
        ensures found { HasCleanDisk (state S.Store self.new) →
            IfOk result (λ next. MatchOption next
            (EndsAt oid from.now (tables_of S.Store self.old).rows)
            (λ it. IsNextRow oid from.now (tables_of S.Store self.old).rows it.0.items it.1)) }
        ensures formed { HasCleanDisk (state S.Store self.new) →
            EachFits oid (tables_of S.Store self.old) → IfErr result (λ fault. fault ≢ Malformed) }
        ensures made { HasCleanDisk (state S.Store self.new) → OnOk result
            (Makes S.Store (λ t. t) self.old self.new) }
        ensures keeps { HasCleanDisk (state S.Store self.new) →
            Keeps S.Store self.old self.new }
        ensures survives { Survives (state S.Store self.old) (state S.Store self.new) (λ _. ⊥) }
    {
        if self.failed {
            return Err(ReadFault::Store(StoreError::Broken));
        }
        match next_row(
            &mut self.store,
            alloc,
            &mut self.search.key,
            &mut self.search.entry,
            &mut self.search.row,
            self.last,
            oid,
            from,
        ) {
            Ok(next) => Ok(next),
            Err(fault) => {
                self.failed = true;
                Err(fault)
            }
        }
    }

    /// Whether the relation has a row.
    pub fn has_rows(&mut self, oid: u32) -> Result<bool, StoreError>
        ensures told { HasCleanDisk (state S.Store self.new) → IfOk result (λ has. MatchBool has
            (HasRow oid (tables_of S.Store self.old).rows)
            (HasNoRow oid (tables_of S.Store self.old).rows)) }
        ensures made { HasCleanDisk (state S.Store self.new) → OnOk result
            (Makes S.Store (λ t. t) self.old self.new) }
        ensures keeps { HasCleanDisk (state S.Store self.new) →
            Keeps S.Store self.old self.new }
        ensures survives { Survives (state S.Store self.old) (state S.Store self.new) (λ _. ⊥) }
    {
        if self.failed {
            return Err(StoreError::Broken);
        }
        match has_rows(
            &mut self.store,
            &mut self.search.key,
            &mut self.search.entry,
            self.last,
            oid,
        ) {
            Ok(has) => Ok(has),
            Err(error) => {
                self.failed = true;
                Err(error)
            }
        }
    }

    /// Puts a definition in place of the one that the relation has.
    pub fn put_definition(
        &mut self,
        oid: u32,
        namespace: &str,
        name: &str,
        letter: u32,
        columns: &[u8],
    ) -> Result<(), StoreError>
        ensures made { HasCleanDisk (state S.Store self.new) → OnOk result
            (Makes S.Store (with_definition oid
            (record {
              namespace = namespace.now;
              name = name.now;
              letter = letter;
              columns = columns.now;
            })) self.old self.new) }
        ensures keeps { HasCleanDisk (state S.Store self.new) →
            Keeps S.Store self.old self.new }
        ensures survives { Survives (state S.Store self.old) (state S.Store self.new) (λ _. ⊥) }
    {
        if self.failed {
            return Err(StoreError::Broken);
        }
        match put_defined(
            &mut self.store,
            &mut self.search.row,
            self.last,
            oid,
            namespace,
            name,
            letter,
            columns,
        ) {
            Ok(()) => Ok(()),
            Err(error) => {
                self.failed = true;
                Err(error)
            }
        }
    }

    /// Puts the position. From then on the file tells the version of the tables' layout.
    pub fn put_position(&mut self, position: &[u8]) -> Result<(), StoreError>
        ensures version { HasCleanDisk (state S.Store self.new) →
            OnOk result (TellsVersion (state S.Store self.new).now.trees) }
        ensures made { HasCleanDisk (state S.Store self.new) → OnOk result
            (Makes S.Store (with_place position.now) self.old self.new) }
        ensures keeps { HasCleanDisk (state S.Store self.new) →
            Keeps S.Store self.old self.new }
        ensures survives { Survives (state S.Store self.old) (state S.Store self.new) (λ _. ⊥) }
    {
        if self.failed {
            return Err(StoreError::Broken);
        }
        match put_place(&mut self.store, &mut self.search.row, self.last, position) {
            Ok(()) => Ok(()),
            Err(error) => {
                self.failed = true;
                Err(error)
            }
        }
    }

    /// Marks what the transaction shows, so that `back` can go back to it.
    pub fn mark(&mut self) -> Result<(), StoreError>
        ensures marked { HasCleanDisk (state S.Store self.new) →
            OnOk result (Marks (state S.Store self.old) (state S.Store self.new)) }
        ensures keeps { HasCleanDisk (state S.Store self.new) →
            OnErr result (Keeps S.Store self.old self.new) }
        ensures survives { Survives (state S.Store self.old) (state S.Store self.new) (λ _. ⊥) }
    {
        if self.failed {
            return Err(StoreError::Broken);
        }
        match self.store.savepoint() {
            Ok(()) => Ok(()),
            Err(error) => {
                self.failed = true;
                Err(error)
            }
        }
    }

    /// Drops the newest mark, and keeps what was changed since.
    pub fn keep(&mut self) -> Result<(), StoreError>
        ensures kept { HasCleanDisk (state S.Store self.new) →
            OnOk result (Drops (state S.Store self.old) (state S.Store self.new)) }
        ensures keeps { HasCleanDisk (state S.Store self.new) →
            OnErr result (Keeps S.Store self.old self.new) }
        ensures survives { Survives (state S.Store self.old) (state S.Store self.new) (λ _. ⊥) }
    {
        if self.failed || self.store.is_broken() {
            return Err(StoreError::Broken);
        }
        match self.store.release() {
            Ok(()) => Ok(()),
            Err(error) => {
                self.failed = true;
                Err(error)
            }
        }
    }

    /// Goes back to the newest mark, which stays, also after a call that failed.
    pub fn back(&mut self) -> Result<(), StoreError>
        requires { IfServing S.Store self.old ((state S.Store self.old).marks ≢ []) }
        ensures back { HasCleanDisk (state S.Store self.new) →
            OnOk result (GoesBack (state S.Store self.old) (state S.Store self.new)) }
        ensures keeps { HasCleanDisk (state S.Store self.new) →
            Keeps S.Store self.old self.new }
        ensures survives { Survives (state S.Store self.old) (state S.Store self.new) (λ _. ⊥) }
    {
        self.low.clear(); // So may those that come back.
        match self.store.rollback_to() {
            Ok(()) => {
                self.failed = false;
                Ok(())
            }
            Err(error) => {
                self.failed = true;
                Err(error)
            }
        }
    }

    /// Goes back to the last commit, and drops each mark.
    pub fn undo(&mut self)
        ensures undone { IfServing S.Store self.new (Shows S.Store self.old self.new
            (state S.Store self.old).committed.trees (state S.Store self.old).committed.trees) }
        ensures numbered { IsNumbered S.Store self.old → IsNumbered S.Store self.new }
        ensures survives { Survives (state S.Store self.old) (state S.Store self.new) (λ _. ⊥) }
    {
        self.store.rollback();
        self.low.clear(); // Rows that come back may stand between them.
        self.failed = false;
    }

    /// Commits what was changed, and drops each mark. Where that or an earlier call failed, it goes
    /// back to the last commit.
    pub fn commit(&mut self) -> Result<(), StoreError>
        ensures committed { HasCleanDisk (state S.Store self.new) → OnOk result
            (Shows S.Store self.old self.new (state S.Store self.old).now.trees
            (state S.Store self.old).now.trees) }
        ensures undone { IfServing S.Store self.new (OnErr result (Shows S.Store self.old self.new
            (state S.Store self.old).committed.trees
            (state S.Store self.old).committed.trees)) }
        ensures numbered { IsNumbered S.Store self.old → IsNumbered S.Store self.new }
        ensures survives { Survives (state S.Store self.old) (state S.Store self.new)
            (λ db. IsTrue (state S.Store self.old).is_open
            × (db ≡ (state S.Store self.old).now.trees) × IsKept (database db)) }
    {
        if self.failed {
            self.undo();
            return Err(StoreError::Broken);
        }
        let committed = self.store.commit();
        if committed.is_err() {
            self.low.clear();
        }
        committed
    }

    /// Gives all rows with their relation's OID, namespace and name, their bytes and how often they
    /// are stored, by OID and then by the bytes of the identity. It returns false where the sink
    /// stopped before the end. What was given is always a front of the dump.
    pub fn each_row<T: RowSink>(&mut self, alloc: Global, sink: &mut T) -> Result<bool, StoreError>
        ensures front { HasCleanDisk (state S.Store self.new) → (start : T) →
            GivesFront (tables_of S.Store self.old) (T.RowSink.has_taken start sink.old)
            (T.RowSink.has_taken start sink.new) }
        ensures all { HasCleanDisk (state S.Store self.new) → IfOk result (λ all. all ≡ true →
            (start : T) → GivesAll (tables_of S.Store self.old)
            (T.RowSink.has_taken start sink.old) (T.RowSink.has_taken start sink.new)) }
        ensures left { HasCleanDisk (state S.Store self.new) → IfOk result (λ all. all ≡ false →
            LeavesAt (tables_of S.Store self.old) (T.RowSink.has_left sink.new)) }
        ensures made { HasCleanDisk (state S.Store self.new) → OnOk result
            (Makes S.Store (λ t. t) self.old self.new) }
        ensures keeps { HasCleanDisk (state S.Store self.new) →
            Keeps S.Store self.old self.new }
        ensures survives { Survives (state S.Store self.old) (state S.Store self.new) (λ _. ⊥) }
    {
        if self.failed {
            return Err(StoreError::Broken);
        }
        let mut definition = Row::new(alloc);
        let mut shown = Row::new(alloc);
        match give_all(
            &mut self.store,
            &mut self.search.entry,
            &mut self.search.row,
            &mut definition,
            &mut shown,
            sink,
            self.last,
        ) {
            Ok(all) => Ok(all),
            Err(error) => {
                self.failed = true;
                Err(error)
            }
        }
    }

    /// The store, which still shows what was changed since the last commit.
    pub fn into_store(self) -> S
        ensures { result ≡ self }
    {
        self.store
    }

    /// What is committed are tables of a store, and the trees are numbered as they are listed. The
    /// call does nothing: a store of rows shows this only to a caller that asks.
    pub fn see_kept(&self)
        ensures kept { IfServing S.Store self.now (IsKept (state S.Store self.now).committed) }
        ensures numbered { IfServing S.Store self.now (IsNumbered S.Store self.now) }
    {
        let _store = &self.store;
    }

    /// Whether no call has failed since the last mark or commit. Then what the transaction shows
    /// are tables of a store.
    pub fn is_sound(&self) -> bool
        ensures sound { result ≡ true → HasCleanDisk (state S.Store self.now) →
            IsTrue (state S.Store self.now).is_open × IsKept (state S.Store self.now).now }
    {
        !self.failed && !self.store.is_broken()
    }
}
