//! A store that notes which relations its commits change, as a cache beside it needs.

ghost use Rattle.std.specs.Prelude.{◌≡◌, ◌<◌, ◌⊎◌, [], true, false, None, OnOk, OnErr, IfOk, IfErr};
ghost use Rattle.pgapply.specs.Value.{Tables};
ghost use Rattle.pgapply.specs.Dump.{dump};
ghost use Rattle.pgapply.specs.Given.{GivesFront, GivesAll};
ghost use Rattle.pgapply.specs.Tallies.{Counts};
ghost use Rattle.pgapply.specs.Noted.{noted, KeepsNotes};
ghost use Rattle.pgapply.specs.Stored.{IsOwnFault};
ghost use Rattle.pgapply.specs.Taken.{Folds, LeavesFold, LeavesStaged, Begins, Settles, Stays};
ghost use Rattle.pgapply.specs.Taken.{RefusesWork, Shows, HearsOnly};

use crate::commit::Commit;
use crate::fault::StoreFault;
use crate::message::LogicalMessage;
use crate::misses::Misses;
use crate::replica_store::ReplicaStore;
use crate::rows::DumpRow;
use crate::sink::DumpSink;
use crate::work::Work;
use pglsn::Lsn;
use std::alloc::{AllocError, Global};

/// A store with a note of the relations that commits changed. Who keeps something that was made of
/// the rows, as a cache of query results, asks `changed` which relations to read again, and then
/// calls `forget`.
///
/// A rejected commit may be noted too: then a relation is read again that is as it was.
#[derive(Drop)]
pub struct Watched<C: ReplicaStore + Drop> {
    store: C,
    changed: Vec<u32>,
}

impl<C: ReplicaStore + Drop> Watched<C> {
    /// A store around this one, with nothing noted.
    pub fn new(alloc: Global, store: C) -> Watched<C>
        ensures store { result.store ≡ store }
        ensures changed { result.changed.items ≡ [] }
    {
        Watched {
            store,
            changed: Vec::new(alloc),
        }
    }

    /// The OIDs of the relations that were described for changes since the last `forget`, oldest
    /// first. One may come more than once.
    pub fn changed(&self) -> &[u32]
        ensures { result.now ≡ self.now.changed.items }
    {
        self.changed.as_slice()
    }

    /// Forgets what is noted.
    pub fn forget(&mut self)
        ensures store { self.new.store ≡ self.old.store }
        ensures changed { self.new.changed.items ≡ [] }
    {
        self.changed.clear();
    }

    /// Notes the relations of a work.
    pub fn note(&mut self, work: &Work<'_>) -> Result<(), AllocError>
        ensures store { self.new.store ≡ self.old.store }
        ensures noted { OnOk result (self.new.changed.items
            ≡ noted self.old.changed.items work.now.definitions) }
        ensures kept { KeepsNotes self.old.changed.items self.new.changed.items }
    {
        for def in work.definitions() {
            self.changed.push(def.oid)?;
        }
        Ok(())
    }
}

impl<C: ReplicaStore + Drop> ReplicaStore for Watched<C> {
    ghost serves = { λ s. C.serves s.store };

    ghost is_honest = { λ s. C.is_honest s.store };

    ghost holds = { λ s tables. C.holds s.store tables };

    ghost place = { λ s. C.place s.store };

    ghost stages = { λ s tables. C.stages s.store tables };

    ghost reach = { λ s. C.reach s.store };

    ghost tally = { λ s. C.tally s.store };

    ghost stages_tally = { λ s. C.stages_tally s.store };

    ghost reopens = { λ s other. C.reopens s.store other.store };

    fn position(&self) -> Lsn {
        self.store.position()
    }

    fn reached(&self) -> Lsn {
        self.store.reached()
    }

    /// Drops what is staged in the store within. What is noted stays.
    fn unstage(&mut self)
        ensures noted { self.new.changed.items ≡ self.old.changed.items }
        ensures reach { C.reach self.new.store ≡ C.place self.old.store }
        ensures position { C.place self.new.store ≡ C.place self.old.store }
        ensures unchanged { Stays C.holds self.old.store self.new.store }
        ensures staged { Begins C.holds C.stages self.old.store self.new.store }
        ensures tally { C.tally self.new.store ≡ C.tally self.old.store }
        ensures unstaged { C.stages_tally self.new.store ≡ C.tally self.old.store }
        ensures serves { C.serves self.old.store → C.serves self.new.store }
        ensures served { C.serves self.new.store → C.serves self.old.store }
        ensures stays_honest { C.is_honest self.old.store → C.is_honest self.new.store }
        ensures honest { C.is_honest self.new.store → C.is_honest self.old.store }
        ensures crash { (other : C) →
            C.reopens self.new.store other → C.reopens self.old.store other }
    {
        self.store.unstage();
    }

    /// Stages the changes of a commit as the store within does, and notes their relations first.
    fn stage(&mut self, commit: &Commit<'_, '_>) -> Result<(), StoreFault>
        requires { C.reach self.old.store < commit.now.end }
        ensures noted { OnOk result (self.new.changed.items
            ≡ noted self.old.changed.items commit.now.work.now.definitions) }
        ensures kept { KeepsNotes self.old.changed.items self.new.changed.items }
        ensures staged { C.serves self.new.store → OnOk result
            (Folds C.stages self.old.store self.new.store commit.now.work.now.changes) }
        ensures end { OnOk result (C.reach self.new.store ≡ commit.now.end) }
        ensures undone { C.serves self.new.store → OnErr result
            (Stays C.stages self.old.store self.new.store) }
        ensures reach { OnErr result (C.reach self.new.store ≡ C.reach self.old.store) }
        ensures fault { C.serves self.new.store → IfErr result
            (RefusesWork C.stages self.old.store commit.now.work.now.changes) }
        ensures why { C.is_honest self.new.store → C.serves self.old.store → IfErr result
            (RefusesWork C.stages self.old.store commit.now.work.now.changes) }
        ensures unchanged { C.serves self.new.store → Stays C.holds self.old.store self.new.store }
        ensures position { C.place self.new.store ≡ C.place self.old.store }
        ensures counts { C.serves self.new.store → OnOk result (Counts C.stages self.old.store
            commit.now.end commit.now.about commit.now.work.now.changes
            (C.stages_tally self.old.store) (C.stages_tally self.new.store)) }
        ensures uncounted { OnErr result
            (C.stages_tally self.new.store ≡ C.stages_tally self.old.store) }
        ensures tally { C.tally self.new.store ≡ C.tally self.old.store }
        ensures served { C.serves self.new.store → C.serves self.old.store }
        ensures open { C.is_honest self.new.store → OnOk result (C.serves self.new.store) }
        ensures honest { C.is_honest self.new.store → C.is_honest self.old.store }
        ensures crash { C.is_honest self.new.store → (other : C) →
            C.reopens self.new.store other → C.reopens self.old.store other }
    {
        self.note(commit.work)?;
        self.store.stage(commit)
    }

    /// Stores all that is staged in the store within. What is noted stays.
    fn settle(&mut self) -> Result<(), StoreFault>
        ensures noted { self.new.changed.items ≡ self.old.changed.items }
        ensures settled { C.serves self.new.store → OnOk result
            (Settles C.holds C.stages self.old.store self.new.store) }
        ensures end { OnOk result (C.place self.new.store ≡ C.reach self.old.store) }
        ensures unchanged { C.serves self.new.store → OnErr result
            (Stays C.holds self.old.store self.new.store) }
        ensures position { OnErr result (C.place self.new.store ≡ C.place self.old.store) }
        ensures some { OnErr result (C.place self.old.store < C.reach self.old.store) }
        ensures nothing { C.reach self.old.store ≡ C.place self.old.store →
            self.new ≡ self.old }
        ensures fault { IfErr result IsOwnFault }
        ensures none { C.reach self.new.store ≡ C.place self.new.store }
        ensures counts { OnOk result (C.tally self.new.store ≡ C.stages_tally self.old.store) }
        ensures uncounted { OnErr result (C.tally self.new.store ≡ C.tally self.old.store) }
        ensures served { C.serves self.new.store → C.serves self.old.store }
        ensures open { C.is_honest self.new.store →
            C.place self.old.store < C.reach self.old.store →
            OnOk result (C.serves self.new.store) }
        ensures honest { C.is_honest self.new.store → C.is_honest self.old.store }
        ensures crash { C.is_honest self.new.store → (other : C) →
            C.reopens self.new.store other → C.reopens self.old.store other
            ⊎ (C.serves self.old.store
            × LeavesStaged C.holds C.place C.stages C.reach self.old.store other) }
    {
        self.store.settle()
    }

    /// Stores the changes of a commit as the store within does, and notes their relations first.
    fn take(&mut self, end: Lsn, work: &Work<'_>) -> Result<(), StoreFault>
        requires { C.place self.old.store < end }
        ensures noted { OnOk result (self.new.changed.items
            ≡ noted self.old.changed.items work.now.definitions) }
        ensures kept { KeepsNotes self.old.changed.items self.new.changed.items }
        ensures taken { C.serves self.new.store → OnOk result
            (Folds C.holds self.old.store self.new.store work.now.changes) }
        ensures end { OnOk result (C.place self.new.store ≡ end) }
        ensures unchanged { C.serves self.new.store → OnErr result
            (Stays C.holds self.old.store self.new.store) }
        ensures position { OnErr result (C.place self.new.store ≡ C.place self.old.store) }
        ensures fault { C.serves self.new.store → IfErr result
            (RefusesWork C.holds self.old.store work.now.changes) }
        ensures why { C.is_honest self.new.store → C.serves self.old.store → IfErr result
            (RefusesWork C.holds self.old.store work.now.changes) }
        ensures none { OnOk result (C.reach self.new.store ≡ C.place self.new.store) }
        ensures counts { C.serves self.new.store → OnOk result (Counts C.holds self.old.store end
            None work.now.changes (C.tally self.old.store) (C.tally self.new.store)) }
        ensures uncounted { OnErr result (C.tally self.new.store ≡ C.tally self.old.store) }
        ensures served { C.serves self.new.store → C.serves self.old.store }
        ensures open { C.is_honest self.new.store → OnOk result (C.serves self.new.store) }
        ensures honest { C.is_honest self.new.store → C.is_honest self.old.store }
        ensures crash { C.is_honest self.new.store → (other : C) →
            C.reopens self.new.store other → C.reopens self.old.store other
            ⊎ (C.serves self.old.store
            × LeavesFold C.holds C.place self.old.store work.now.changes end other) }
    {
        self.note(work)?;
        self.store.take(end, work)
    }

    /// Hands a message on to the store within. What is noted stays.
    fn hear(&mut self, message: &LogicalMessage<'_>)
        ensures noted { self.new.changed.items ≡ self.old.changed.items }
        ensures hears { HearsOnly (λ s. C.serves s.store) (λ s. C.is_honest s.store)
            (λ s tables. C.holds s.store tables) (λ s tables. C.stages s.store tables)
            (λ s. C.place s.store) (λ s. C.reach s.store) (λ s. C.tally s.store)
            (λ s. C.stages_tally s.store) (λ s other. C.reopens s.store other.store) self.old
            self.new }
    {
        self.store.hear(message);
    }

    /// Lets the store within forget what it heard. What is noted stays: `Watched::forget` is the
    /// call that forgets that.
    fn forget(&mut self)
        ensures noted { self.new.changed.items ≡ self.old.changed.items }
        ensures forgets { HearsOnly (λ s. C.serves s.store) (λ s. C.is_honest s.store)
            (λ s tables. C.holds s.store tables) (λ s tables. C.stages s.store tables)
            (λ s. C.place s.store) (λ s. C.reach s.store) (λ s. C.tally s.store)
            (λ s. C.stages_tally s.store) (λ s other. C.reopens s.store other.store) self.old
            self.new }
    {
        self.store.forget();
    }

    /// All rows of the store within. What is noted stays.
    fn rows(&mut self) -> Result<Vec<DumpRow>, StoreFault>
        ensures noted { self.new.changed.items ≡ self.old.changed.items }
        ensures rows { C.serves self.new.store → IfOk result
            (λ rows. Shows C.holds self.old.store rows.items) }
        ensures unchanged { C.serves self.new.store → Stays C.holds self.old.store self.new.store }
        ensures position { C.place self.new.store ≡ C.place self.old.store }
        ensures fault { C.is_honest self.new.store → IfErr result IsOwnFault }
        ensures serving_fault { C.serves self.new.store → IfErr result IsOwnFault }
        ensures none { C.reach self.new.store ≡ C.place self.new.store }
        ensures tally { C.tally self.new.store ≡ C.tally self.old.store }
        ensures served { C.serves self.new.store → C.serves self.old.store }
        ensures open { C.is_honest self.new.store → OnOk result (C.serves self.new.store) }
        ensures honest { C.is_honest self.new.store → C.is_honest self.old.store }
        ensures crash { C.is_honest self.new.store → (other : C) →
            C.reopens self.new.store other → C.reopens self.old.store other }
    {
        self.store.rows()
    }

    /// Gives a sink the rows of the store within. What is noted stays.
    fn each_row<T: DumpSink + Drop>(&mut self, sink: T) -> (Result<bool, StoreFault>, T)
        ensures noted { self.new.changed.items ≡ self.old.changed.items }
        ensures front { C.is_honest self.new.store → (tables : Tables) →
            C.holds self.old.store tables → (start : T) →
            GivesFront (dump tables) (T.has_taken start sink) (T.has_taken start result.1) }
        ensures all { C.is_honest self.new.store → IfOk result.0 (λ all. all ≡ true →
            (tables : Tables) → C.holds self.old.store tables → (start : T) →
            GivesAll (dump tables) (T.has_taken start sink) (T.has_taken start result.1)) }
        ensures stopped { C.is_honest self.new.store → IfOk result.0 (λ all. all ≡ false →
            T.has_stopped result.1) }
        ensures unchanged { C.serves self.new.store → Stays C.holds self.old.store self.new.store }
        ensures position { C.place self.new.store ≡ C.place self.old.store }
        ensures fault { C.is_honest self.new.store → IfErr result.0 IsOwnFault }
        ensures serving_fault { C.serves self.new.store → IfErr result.0 IsOwnFault }
        ensures none { C.reach self.new.store ≡ C.place self.new.store }
        ensures tally { C.tally self.new.store ≡ C.tally self.old.store }
        ensures served { C.serves self.new.store → C.serves self.old.store }
        ensures open { C.is_honest self.new.store → OnOk result.0 (C.serves self.new.store) }
        ensures honest { C.is_honest self.new.store → C.is_honest self.old.store }
        ensures crash { C.is_honest self.new.store → (other : C) →
            C.reopens self.new.store other → C.reopens self.old.store other }
    {
        self.store.each_row(sink)
    }

    fn misses(&self) -> Misses {
        self.store.misses()
    }

    fn cause(&self) -> Option<&str> {
        self.store.cause()
    }
}
