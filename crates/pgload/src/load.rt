//! The load of tables into a store.
//!
//! PostgreSQL documentation, COPY, File Formats, Text Format; Logical Decoding Concepts, Exported
//! Snapshots.

ghost use Rattle.std.specs.Prelude.{◌≡◌, ◌≢◌, Some, None, Err, OnOk, OnErr};
ghost use Rattle.std.specs.Prelude.{IfSome, IfErr};
ghost use Rattle.std.specs.FinMap as map;
ghost use Rattle.pglogical.specs.Spelling.{IsDefinition};
ghost use Rattle.pgload.specs.Loading.{most_parts, Come, Begins, Text, Ends, come_after};
ghost use Rattle.pgload.specs.Loading.{nothing_came, IsUnderWay, HasCome, Goes, HasLoaded};
ghost use Rattle.pgload.specs.Loading.{IsAtEnd, IsBadEnd, IsBounded};

use crate::batch::MOST_PARTS;
use crate::fault::LoadFault;
use crate::limits::Limits;
use crate::table::OpenTable;
use pgapply::{ReplicaStore, Work};
use pglogical::RelationDef;
use pglsn::Lsn;
use std::alloc::Global;

/// Loads tables into a new store: of each its definition, then its text in any pieces, and then the
/// end of its text. The rows are stored in batches, at positions that no server has; `end` brings
/// the store to the slot's consistent point. A fault ends the load, and each later call returns it.
#[derive(Drop)]
pub struct Load<C: ReplicaStore + Drop> {
    alloc: Global,
    store: C,
    limits: Limits,
    table: Option<OpenTable>,
    // why no more can come
    closed: Option<LoadFault>,
}

impl<C: ReplicaStore + Drop> Load<C> {
    /// A load into this store, which is to be new: at any other position than 0/0 each call returns
    /// `NotNew`.
    pub fn new(alloc: Global, store: C, limits: Limits) -> Load<C>
        ensures store { result.store ≡ store }
        ensures limits { result.limits ≡ limits }
        ensures begun { C.serves store → C.holds store map.empty → C.place store ≡ 0 →
            HasCome C.holds C.place C.reopens C.serves C.is_honest limits.max_line nothing_came
            result.store result.table result.closed }
        ensures not_new { C.place store ≢ 0 → result.closed ≡ Some LoadFault.NotNew }
        ensures bounded { IsBounded limits.batch result.table }
    {
        let closed = if store.position() == Lsn(0) {
            None
        } else {
            Some(LoadFault::NotNew)
        };
        Load {
            alloc,
            store,
            limits,
            table: None,
            closed,
        }
    }

    /// The store, also after a fault.
    pub fn into_store(self) -> C
        ensures { result ≡ self.store }
    {
        self.store
    }

    /// A table begins, as its Relation message describes it.
    ///
    /// PostgreSQL documentation, Logical Replication Message Formats, Relation.
    pub fn begin(&mut self, definition: RelationDef) -> Result<(), LoadFault>
        requires { IsDefinition definition }
        ensures goes { (come : Come) → HasCome C.holds C.place C.reopens C.serves C.is_honest
            self.old.limits.max_line come self.old.store self.old.table self.old.closed →
            Goes C.holds C.place C.reopens C.serves C.is_honest self.old.limits.max_line
            (come_after come (Begins definition)) self.new.store self.new.table self.new.closed
            result }
        ensures limits { self.new.limits ≡ self.old.limits }
        ensures closed { IfErr result (λ fault. self.new.closed ≡ Some fault) }
        ensures still { IfSome self.old.closed (λ fault. result ≡ Err fault) }
        ensures bounded { IsBounded self.old.limits.batch self.old.table →
            OnOk result (IsBounded self.old.limits.batch self.new.table) }
        ensures honest { C.is_honest self.new.store → C.is_honest self.old.store }
    {
        if let Some(fault) = self.closed {
            return Err(fault);
        }
        if self.table.is_some() {
            return self.close(LoadFault::Order);
        }
        let max_line = self.limits.max_line();
        self.table = Some(OpenTable::new(self.alloc, definition, max_line));
        Ok(())
    }

    /// A piece of the table's text comes, cut anywhere.
    ///
    /// PostgreSQL documentation, COPY, File Formats, Text Format.
    pub fn text(&mut self, piece: &[u8]) -> Result<(), LoadFault>
        ensures goes { (come : Come) → HasCome C.holds C.place C.reopens C.serves C.is_honest
            self.old.limits.max_line come self.old.store self.old.table self.old.closed →
            Goes C.holds C.place C.reopens C.serves C.is_honest self.old.limits.max_line
            (come_after come (Text piece.now)) self.new.store self.new.table self.new.closed
            result }
        ensures limits { self.new.limits ≡ self.old.limits }
        ensures closed { IfErr result (λ fault. self.new.closed ≡ Some fault) }
        ensures still { IfSome self.old.closed (λ fault. result ≡ Err fault) }
        ensures bounded { IsBounded self.old.limits.batch self.old.table →
            OnOk result (IsBounded self.old.limits.batch self.new.table) }
        ensures honest { C.is_honest self.new.store → C.is_honest self.old.store }
    {
        if let Some(fault) = self.closed {
            return Err(fault);
        }
        let Some(table) = &mut self.table else {
            return self.close(LoadFault::Order);
        };
        match table.read(self.alloc, &mut self.store, self.limits.batch(), piece) {
            Ok(()) => Ok(()),
            Err(fault) => self.close(fault),
        }
    }

    /// The table's text ends.
    pub fn end_text(&mut self) -> Result<(), LoadFault>
        ensures goes { (come : Come) → HasCome C.holds C.place C.reopens C.serves C.is_honest
            self.old.limits.max_line come self.old.store self.old.table self.old.closed →
            Goes C.holds C.place C.reopens C.serves C.is_honest self.old.limits.max_line
            (come_after come Ends) self.new.store self.new.table self.new.closed result }
        ensures limits { self.new.limits ≡ self.old.limits }
        ensures closed { IfErr result (λ fault. self.new.closed ≡ Some fault) }
        ensures still { IfSome self.old.closed (λ fault. result ≡ Err fault) }
        ensures bounded { IsBounded self.old.limits.batch self.old.table →
            OnOk result (IsBounded self.old.limits.batch self.new.table) }
        ensures honest { C.is_honest self.new.store → C.is_honest self.old.store }
    {
        if let Some(fault) = self.closed {
            return Err(fault);
        }
        let Some(table) = self.table.take() else {
            return self.close(LoadFault::Order);
        };
        match table.end(self.alloc, &mut self.store) {
            Ok(()) => Ok(()),
            Err(fault) => self.close(fault),
        }
    }

    /// The load ends at the slot's consistent point, with the tables whose texts have ended.
    /// Nothing may come after it.
    ///
    /// PostgreSQL documentation, Logical Decoding Concepts, Exported Snapshots.
    pub fn end(&mut self, point: Lsn) -> Result<(), LoadFault>
        ensures ended { (come : Come) → HasCome C.holds C.place C.reopens C.serves C.is_honest
            self.old.limits.max_line come self.old.store self.old.table self.old.closed →
            OnOk result (IsAtEnd C.holds C.place C.reopens C.serves C.is_honest
            self.old.limits.max_line come point self.new.store) }
        ensures fault { (come : Come) → HasCome C.holds C.place C.reopens C.serves C.is_honest
            self.old.limits.max_line come self.old.store self.old.table self.old.closed →
            IfErr result (IsBadEnd C.holds C.place C.reopens C.serves C.is_honest
            self.old.limits.max_line come point self.new.store) }
        ensures closed { IfErr result (λ fault. self.new.closed ≡ Some fault) }
        ensures limits { self.new.limits ≡ self.old.limits }
        ensures ends { OnOk result (self.new.closed ≡ Some LoadFault.Order) }
        ensures bounded { IsBounded self.old.limits.batch self.old.table →
            OnOk result (IsBounded self.old.limits.batch self.new.table) }
        ensures still { IfSome self.old.closed (λ fault. result ≡ Err fault) }
        ensures honest { C.is_honest self.new.store → C.is_honest self.old.store }
    {
        if let Some(fault) = self.closed {
            return Err(fault);
        }
        if self.table.is_some() {
            return self.close(LoadFault::Order);
        }
        if point.0 <= MOST_PARTS || point <= self.store.position() {
            return self.close(LoadFault::BadPoint);
        }
        let nothing = Work::new(self.alloc);
        match self.store.take(point, &nothing) {
            Ok(()) => {
                self.closed = Some(LoadFault::Order);
                Ok(())
            }
            Err(fault) => self.close(LoadFault::from(fault)),
        }
    }

    // Keeps why no more can come.
    fn close(&mut self, fault: LoadFault) -> Result<(), LoadFault>
        ensures fault { result ≡ Err fault }
        ensures closed { self.new.closed ≡ Some fault }
        ensures store { self.new.store ≡ self.old.store }
        ensures limits { self.new.limits ≡ self.old.limits }
    {
        self.closed = Some(fault);
        Err(fault)
    }
    /// Why no more can come.
    pub(crate) fn closed(&self) -> Option<LoadFault>
        ensures { result ≡ self.now.closed }
    {
        self.closed
    }

    /// Keeps why no more can come, and returns it.
    pub(crate) fn refuse(&mut self, fault: LoadFault) -> LoadFault
        ensures fault { result ≡ fault }
        ensures closed { self.new.closed ≡ Some fault }
        ensures store { self.new.store ≡ self.old.store }
        ensures table { self.new.table ≡ self.old.table }
        ensures limits { self.new.limits ≡ self.old.limits }
    {
        self.closed = Some(fault);
        fault
    }
}
