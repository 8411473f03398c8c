//! The commits that a store takes: each by itself, or several that are staged and settled in one.
//!
//! PostgreSQL documentation, Logical Replication.

ghost use Rattle.std.specs.Prelude.{◌≡◌, ◌<◌, true, false, OnOk, OnErr, IfErr, [], Some, None};
ghost use Rattle.std.specs.Prelude.{IsSome};
ghost use Rattle.sqlite.specs.State.{Survives};
ghost use Rattle.pgrows.specs.Rows.{state};
ghost use Rattle.pgapply.specs.Stored.{IsOwnFault};
ghost use Rattle.pgapply.specs.Tallies.{Counts};
ghost use Rattle.pgapply.specs.Taken as taken;
ghost use Rattle.pgapply.specs.Value.{Tables};
ghost use Rattle.pgledger.specs.Images.{images};
ghost use Rattle.pgledger.specs.Entries.{entry_of, messages_of};
ghost use Rattle.pgledger.specs.Ledgers.{Appends, AppendsAtMost, Keeps as KeepsEntries, Rests};
ghost use Rattle.pgledger.specs.Ledgers.{StaysOrSticks, Syncs};
ghost use Rattle.pgstore.specs.StoreValue.{IsHonest, Serves, HasTables, Plans, Takes, Stays};
ghost use Rattle.pgstore.specs.StoreValue.{RefusesWork, LeavesGroup, LeavesSynced, LeavesWork};
ghost use Rattle.pgstore.specs.StoreValue.{unstaged_of};

use crate::committing::take_all;
use crate::staging::{settle_told, stage_told};
use crate::store::Store;
use pgapply::{Commit, StoreFault, Work};
use pgledger::{Ledger, NoLedger};
use pglsn::Lsn;
use sqlite::Alter;

impl<S: Alter + Drop> Store<S> {
    /// Stores the changes of a commit in their order and its end LSN, all in one SQL transaction,
    /// or nothing of it.
    ///
    /// It returns the fault of the first change that has one, `Refused` or `Memory` where a call of
    /// the SQL store fails, and `NotAStore` where the disk gives back what no store has written.
    pub fn take(&mut self, end: Lsn, work: &Work<'_>) -> Result<(), StoreFault>
        requires { self.old.position < end }
        ensures taken { IsHonest S.Store self.new →
            OnOk result (Takes S.Store self.old self.new work.now.changes end) }
        ensures unchanged { Serves S.Store self.new →
            OnErr result (Stays S.Store self.old self.new) }
        ensures fault { Serves S.Store self.new →
            IfErr result (RefusesWork S.Store self.old work.now.changes) }
        ensures position { OnErr result (self.new.position ≡ self.old.position) }
        ensures end { OnOk result (self.new.position ≡ end) }
        ensures why { IsHonest S.Store self.new → Serves S.Store self.old →
            IfErr result (RefusesWork S.Store self.old work.now.changes) }
        ensures none { self.new.group.reach ≡ self.new.position }
        ensures counts { IsHonest S.Store self.new → OnOk result (Counts (HasTables S.Store)
            self.old end None work.now.changes self.old.group.tally self.new.group.tally) }
        ensures uncounted { OnErr result (self.new.group.tally ≡ self.old.group.tally) }
        ensures crash { Survives (state S.Store self.old.rows) (state S.Store self.new.rows)
            (LeavesWork S.Store self.old work.now.changes end) }
    {
        self.group.unstage(self.position);
        let mut misses = self.group.missed();
        let taken = take_all(
            &mut self.source,
            self.alloc,
            work.definitions(),
            &work.entries(),
            end,
            &mut misses,
        );
        if let Err(refusal) = taken {
            self.cause = refusal.cause_or(self.cause);
            return Err(StoreFault::from(refusal));
        }
        self.cause = None;
        self.position = end;
        let commits = self.group.with_commit(end, None, work);
        self.group.take(end, commits, misses);
        Ok(())
    }

    /// Drops what is staged. It only forgets: the next call that reads or changes rows undoes it.
    pub fn unstage(&mut self)
        ensures rows { self.new.rows ≡ self.old.rows }
        ensures position { self.new.position ≡ self.old.position }
        ensures group { self.new.group ≡ unstaged_of self.old.position self.old.group }
    {
        self.group.unstage(self.position);
    }

    /// Stages a commit after those that are staged: its changes in their order with its end LSN, or
    /// nothing of it. What is committed stays as it is, and so does what a crash leaves.
    ///
    /// # Errors
    ///
    /// The fault of the first change that has one, and `Refused` or `Memory` where a call of the
    /// SQL store fails. Where it can't go back to what was staged before, that is lost too: then
    /// each call returns that until `settle`, `unstage` or `take`.
    pub fn stage(&mut self, commit: &Commit<'_, '_>) -> Result<(), StoreFault>
        requires { self.old.group.reach < commit.now.end }
        ensures staged { IsHonest S.Store self.new → OnOk result
            (taken.Folds (Plans S.Store) self.old self.new commit.now.work.now.changes) }
        ensures serves { IsHonest S.Store self.new → OnOk result (Serves S.Store self.new) }
        ensures end { OnOk result (self.new.group.reach ≡ commit.now.end) }
        ensures undone { Serves S.Store self.new → OnErr result
            (taken.Stays (Plans S.Store) self.old self.new) }
        ensures reach { OnErr result (self.new.group.reach ≡ self.old.group.reach) }
        ensures fault { IsHonest S.Store self.new → Serves S.Store self.old → IfErr result
            (taken.RefusesWork (Plans S.Store) self.old commit.now.work.now.changes) }
        ensures unchanged { Serves S.Store self.new → Stays S.Store self.old self.new }
        ensures position { self.new.position ≡ self.old.position }
        ensures counts { IsHonest S.Store self.new → OnOk result (Counts (Plans S.Store) self.old
            commit.now.end commit.now.about commit.now.work.now.changes
            self.old.group.stages_tally self.new.group.stages_tally) }
        ensures uncounted { OnErr result
            (self.new.group.stages_tally ≡ self.old.group.stages_tally) }
        ensures tally { self.new.group.tally ≡ self.old.group.tally }
        ensures crash { Survives (state S.Store self.old.rows) (state S.Store self.new.rows)
            (λ _. ⊥) }
    {
        self.stage_with(commit, &mut NoLedger::new())
    }

    /// Stages a commit as `stage` does, and once all its changes are made, appends it to the ledger
    /// with the image of each. Where the ledger wants none, no row is read for it.
    ///
    /// # Errors
    ///
    /// Those of `stage`, and those of the ledger's `append`, which leave it stuck. All that is
    /// staged is lost then.
    pub fn stage_with<L: Ledger>(
        &mut self,
        commit: &Commit<'_, '_>,
        ledger: &mut L,
    ) -> Result<(), StoreFault>
        requires { self.old.group.reach < commit.now.end }
        ensures staged { IsHonest S.Store self.new → OnOk result
            (taken.Folds (Plans S.Store) self.old self.new commit.now.work.now.changes) }
        ensures serves { IsHonest S.Store self.new → OnOk result (Serves S.Store self.new) }
        ensures end { OnOk result (self.new.group.reach ≡ commit.now.end) }
        ensures undone { Serves S.Store self.new → OnErr result
            (taken.Stays (Plans S.Store) self.old self.new) }
        ensures reach { OnErr result (self.new.group.reach ≡ self.old.group.reach) }
        ensures fault { IsHonest S.Store self.new → Serves S.Store self.old → IfErr result
            (taken.RefusesWork (Plans S.Store) self.old commit.now.work.now.changes) }
        ensures unchanged { Serves S.Store self.new → Stays S.Store self.old self.new }
        ensures position { self.new.position ≡ self.old.position }
        ensures counts { IsHonest S.Store self.new → OnOk result (Counts (Plans S.Store) self.old
            commit.now.end commit.now.about commit.now.work.now.changes
            self.old.group.stages_tally self.new.group.stages_tally) }
        ensures uncounted { OnErr result
            (self.new.group.stages_tally ≡ self.old.group.stages_tally) }
        ensures tally { self.new.group.tally ≡ self.old.group.tally }
        ensures crash { Survives (state S.Store self.old.rows) (state S.Store self.new.rows)
            (λ _. ⊥) }
        ensures told { IsHonest S.Store self.new → OnOk result ((tables : Tables) →
            Plans S.Store self.old tables → Appends L.Ledger.keeps (entry_of commit.now.end
            commit.now.about (messages_of (L.Ledger.heard ledger.old))
            commit.now.work.now.changes (images tables commit.now.work.now.changes)) ledger.old
            ledger.new) }
        ensures all_heard { OnOk result (IsSome (L.Ledger.heard ledger.old)) }
        ensures forgot { OnOk result (L.Ledger.heard ledger.new ≡ Some []) }
        ensures free { OnOk result (L.Ledger.is_stuck ledger.new ≡ false) }
        ensures at_most { AppendsAtMost L.Ledger.keeps commit.now.end ledger.old ledger.new }
        ensures untold { OnErr result (StaysOrSticks L.Ledger.is_stuck ledger.old ledger.new) }
        ensures rests { Rests L.Ledger.begins L.Ledger.is_wanting L.Ledger.is_hearing
            L.Ledger.outlasts L.Ledger.reopens ledger.old ledger.new }
    {
        if let Some(fault) = self.group.lost() {
            return Err(fault);
        }
        let is_first = self.group.is_empty(self.position);
        let mut misses = self.group.stages_missed();
        let staged = stage_told(
            &mut self.source,
            self.alloc,
            is_first,
            commit,
            commit.work.definitions(),
            &commit.work.entries(),
            &mut misses,
            ledger,
        );
        match staged {
            Ok(()) => {
                let commits = self
                    .group
                    .with_commit(commit.end, commit.about, commit.work);
                self.group.stage(commit.end, commits, misses);
                Ok(())
            }
            Err(unstaged) => {
                self.cause = unstaged.refusal.cause_or(self.cause);
                Err(self.group.refuse(is_first, unstaged))
            }
        }
    }

    /// Stores all that is staged, by one commit of SQL. Nothing is staged after it. Where it fails,
    /// none of it is stored.
    ///
    /// # Errors
    ///
    /// `Memory` or `Refused`, and only where something is staged.
    pub fn settle(&mut self) -> Result<(), StoreFault>
        ensures settled { IsHonest S.Store self.new → OnOk result
            (taken.Settles (HasTables S.Store) (Plans S.Store) self.old self.new) }
        ensures served { Serves S.Store self.new → Serves S.Store self.old }
        ensures serves { IsHonest S.Store self.new → self.old.position < self.old.group.reach →
            OnOk result (Serves S.Store self.new) }
        ensures end { OnOk result (self.new.position ≡ self.old.group.reach) }
        ensures unchanged { Serves S.Store self.new →
            OnErr result (Stays S.Store self.old self.new) }
        ensures position { OnErr result (self.new.position ≡ self.old.position) }
        ensures some { OnErr result (self.old.position < self.old.group.reach) }
        ensures nothing { self.old.group.reach ≡ self.old.position → self.new ≡ self.old }
        ensures fault { IfErr result IsOwnFault }
        ensures none { self.new.group.reach ≡ self.new.position }
        ensures counts { OnOk result (self.new.group.tally ≡ self.old.group.stages_tally) }
        ensures uncounted { OnErr result (self.new.group.tally ≡ self.old.group.tally) }
        ensures crash { Survives (state S.Store self.old.rows) (state S.Store self.new.rows)
            (LeavesGroup S.Store self.old) }
    {
        self.settle_with(&mut NoLedger::new())
    }

    /// Syncs the ledger, once, and then stores all that is staged as `settle` does. Where nothing
    /// is staged, nothing is done.
    ///
    /// # Errors
    ///
    /// Those of `settle`, and those of the ledger's `sync`. The ledger is stuck then.
    pub fn settle_with<L: Ledger>(&mut self, ledger: &mut L) -> Result<(), StoreFault>
        ensures settled { IsHonest S.Store self.new → OnOk result
            (taken.Settles (HasTables S.Store) (Plans S.Store) self.old self.new) }
        ensures served { Serves S.Store self.new → Serves S.Store self.old }
        ensures serves { IsHonest S.Store self.new → self.old.position < self.old.group.reach →
            OnOk result (Serves S.Store self.new) }
        ensures end { OnOk result (self.new.position ≡ self.old.group.reach) }
        ensures unchanged { Serves S.Store self.new →
            OnErr result (Stays S.Store self.old self.new) }
        ensures position { OnErr result (self.new.position ≡ self.old.position) }
        ensures some { OnErr result (self.old.position < self.old.group.reach) }
        ensures nothing { self.old.group.reach ≡ self.old.position → self.new ≡ self.old }
        ensures fault { IfErr result IsOwnFault }
        ensures none { self.new.group.reach ≡ self.new.position }
        ensures counts { OnOk result (self.new.group.tally ≡ self.old.group.stages_tally) }
        ensures uncounted { OnErr result (self.new.group.tally ≡ self.old.group.tally) }
        ensures crash { Survives (state S.Store self.old.rows) (state S.Store self.new.rows)
            (LeavesGroup S.Store self.old) }
        ensures kept { KeepsEntries L.Ledger.keeps ledger.old ledger.new }
        ensures heard { L.Ledger.heard ledger.new ≡ L.Ledger.heard ledger.old }
        ensures synced { self.old.position < self.old.group.reach → OnOk result
            (Syncs L.Ledger.keeps L.Ledger.begins L.Ledger.outlasts ledger.old ledger.new) }
        ensures was_free { self.old.position < self.old.group.reach →
            OnOk result (L.Ledger.is_stuck ledger.old ≡ false) }
        ensures free { OnOk result (L.Ledger.is_stuck ledger.new ≡ L.Ledger.is_stuck ledger.old) }
        ensures stuck { OnErr result (L.Ledger.is_stuck ledger.new ≡ true) }
        ensures rests { Rests L.Ledger.begins L.Ledger.is_wanting L.Ledger.is_hearing
            L.Ledger.outlasts L.Ledger.reopens ledger.old ledger.new }
        ensures commits_synced { Survives (state S.Store self.old.rows)
            (state S.Store self.new.rows) (LeavesSynced S.Store (L.Ledger.is_stuck ledger.old)
            (Syncs L.Ledger.keeps L.Ledger.begins L.Ledger.outlasts ledger.old ledger.new)
            self.old) }
    {
        if self.group.is_empty(self.position) {
            return Ok(());
        }
        if let Some(fault) = self.group.lost() {
            ledger.stick();
            self.group.unstage(self.position);
            return Err(fault);
        }
        let reach = self.group.reach();
        if let Err(refusal) = settle_told(&mut self.source, reach, ledger) {
            self.cause = refusal.cause_or(self.cause);
            ledger.stick();
            self.group.unstage(self.position);
            return Err(StoreFault::from(refusal));
        }
        self.cause = None;
        self.position = reach;
        self.group.settle();
        Ok(())
    }
}
