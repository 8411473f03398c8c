//! A store that gives a ledger the images of the commits that it stages.

ghost use Rattle.std.specs.Prelude.{◌≡◌, ◌<◌, ◌⊎◌, [], false, true, Some, OnOk, OnErr, IfErr};
ghost use Rattle.std.specs.Prelude.{IsSome};
ghost use Rattle.pgapply.specs.Value.{Tables};
ghost use Rattle.pgapply.specs.Stored.{IsOwnFault};
ghost use Rattle.pgapply.specs.Tallies.{Counts};
ghost use Rattle.pgapply.specs.Taken.{Folds, LeavesStaged, Settles, Stays, RefusesWork};
ghost use Rattle.pgledger.specs.Images.{images};
ghost use Rattle.pgledger.specs.Entries.{entry_of, messages_of};
ghost use Rattle.pgledger.specs.Ledgers.{Appends, AppendsAtMost, Keeps, Rests, StaysOrSticks};
ghost use Rattle.pgledger.specs.Ledgers.{Syncs};

use crate::ledger::Ledger;
use pgapply::{About, Commit, Parts, ReplicaStore, StoreFault};
use pglsn::Lsn;

/// A store that gives a ledger each commit that it stages, with the images of its changes, and has
/// it synced before it stores them. Over `NoLedger` these calls are `stage` and `settle`.
///
/// A ledger that has accepted commits which are then dropped, by `unstage` or a call that reads
/// rows, has to be told by `stick`; `Recorded` does so.
///
/// PostgreSQL documentation, Logical Replication, Subscription.
pub trait LedgerStore: ReplicaStore {
    /// Stages a commit as `stage` does, and once all its changes are made, appends it to the ledger
    /// with their images and with the messages that the ledger has heard.
    ///
    /// # Errors
    ///
    /// Those of `stage`, and those of the ledger's `append`. Where the ledger isn't stuck, it is as
    /// it was.
    fn stage_with<L: Ledger>(
        &mut self,
        commit: &Commit<'_, '_>,
        ledger: &mut L,
    ) -> Result<(), StoreFault>
        requires { Self.ReplicaStore.reach self.old < commit.now.end }
        ensures staged { Self.ReplicaStore.serves self.new → OnOk result
            (Folds Self.ReplicaStore.stages self.old self.new commit.now.work.now.changes) }
        ensures end { OnOk result (Self.ReplicaStore.reach self.new ≡ commit.now.end) }
        ensures undone { Self.ReplicaStore.serves self.new → OnErr result
            (Stays Self.ReplicaStore.stages self.old self.new) }
        ensures reach { OnErr result
            (Self.ReplicaStore.reach self.new ≡ Self.ReplicaStore.reach self.old) }
        ensures fault { Self.ReplicaStore.serves self.new → IfErr result
            (RefusesWork Self.ReplicaStore.stages self.old commit.now.work.now.changes) }
        ensures why { Self.ReplicaStore.is_honest self.new → Self.ReplicaStore.serves self.old →
            IfErr result
            (RefusesWork Self.ReplicaStore.stages self.old commit.now.work.now.changes) }
        ensures unchanged { Self.ReplicaStore.serves self.new →
            Stays Self.ReplicaStore.holds self.old self.new }
        ensures position { Self.ReplicaStore.place self.new ≡ Self.ReplicaStore.place self.old }
        ensures counts { Self.ReplicaStore.serves self.new → OnOk result
            (Counts Self.ReplicaStore.stages self.old commit.now.end commit.now.about
            commit.now.work.now.changes (Self.ReplicaStore.stages_tally self.old)
            (Self.ReplicaStore.stages_tally self.new)) }
        ensures uncounted { OnErr result (Self.ReplicaStore.stages_tally self.new
            ≡ Self.ReplicaStore.stages_tally self.old) }
        ensures tally { Self.ReplicaStore.tally self.new ≡ Self.ReplicaStore.tally self.old }
        ensures served { Self.ReplicaStore.serves self.new → Self.ReplicaStore.serves self.old }
        ensures open { Self.ReplicaStore.is_honest self.new →
            OnOk result (Self.ReplicaStore.serves self.new) }
        ensures honest { Self.ReplicaStore.is_honest self.new →
            Self.ReplicaStore.is_honest self.old }
        ensures crash { Self.ReplicaStore.is_honest self.new → (other : Self) →
            Self.ReplicaStore.reopens self.new other → Self.ReplicaStore.reopens self.old other }
        ensures told { Self.ReplicaStore.serves self.new → OnOk result ((tables : Tables) →
            Self.ReplicaStore.stages self.old tables → Appends L.keeps (entry_of commit.now.end
            commit.now.about (messages_of (L.heard ledger.old)) commit.now.work.now.changes
            (images tables commit.now.work.now.changes)) ledger.old ledger.new) }
        ensures all_heard { OnOk result (IsSome (L.heard ledger.old)) }
        ensures forgot { OnOk result (L.heard ledger.new ≡ Some []) }
        ensures free { OnOk result (L.is_stuck ledger.new ≡ false) }
        ensures at_most { AppendsAtMost L.keeps commit.now.end ledger.old ledger.new }
        ensures untold { OnErr result (StaysOrSticks L.is_stuck ledger.old ledger.new) }
        ensures rests { Rests L.begins L.is_wanting L.is_hearing L.outlasts L.reopens ledger.old
            ledger.new };

    /// Stages a commit as `stage_parts` does, and gives the ledger each part with the images of its
    /// changes as it is made. Once all are made, the ledger keeps the commit, with the messages
    /// that it has heard.
    ///
    /// # Errors
    ///
    /// Those of `stage_parts`, and those of the ledger. Where the ledger isn't stuck, it keeps what
    /// it kept.
    fn stage_parts_with<P: Parts, L: Ledger>(
        &mut self,
        end: Lsn,
        about: Option<About>,
        parts: &mut P,
        ledger: &mut L,
    ) -> Result<(), StoreFault>
        requires { Self.ReplicaStore.reach self.old < end }
        ensures staged { Self.ReplicaStore.serves self.new → P.is_honest parts.new →
            OnOk result (Folds Self.ReplicaStore.stages self.old self.new (P.left parts.old)) }
        ensures end { OnOk result (Self.ReplicaStore.reach self.new ≡ end) }
        ensures undone { Self.ReplicaStore.serves self.new → OnErr result
            (Stays Self.ReplicaStore.stages self.old self.new) }
        ensures reach { OnErr result
            (Self.ReplicaStore.reach self.new ≡ Self.ReplicaStore.reach self.old) }
        ensures fault { Self.ReplicaStore.serves self.new → P.is_honest parts.new →
            IfErr result (RefusesWork Self.ReplicaStore.stages self.old (P.left parts.old)) }
        ensures why { Self.ReplicaStore.is_honest self.new → Self.ReplicaStore.serves self.old →
            P.is_honest parts.new → IfErr result
            (RefusesWork Self.ReplicaStore.stages self.old (P.left parts.old)) }
        ensures unchanged { Self.ReplicaStore.serves self.new →
            Stays Self.ReplicaStore.holds self.old self.new }
        ensures position { Self.ReplicaStore.place self.new ≡ Self.ReplicaStore.place self.old }
        ensures counts { Self.ReplicaStore.serves self.new → P.is_honest parts.new →
            OnOk result (Counts Self.ReplicaStore.stages self.old end about (P.left parts.old)
            (Self.ReplicaStore.stages_tally self.old) (Self.ReplicaStore.stages_tally self.new)) }
        ensures uncounted { OnErr result (Self.ReplicaStore.stages_tally self.new
            ≡ Self.ReplicaStore.stages_tally self.old) }
        ensures tally { Self.ReplicaStore.tally self.new ≡ Self.ReplicaStore.tally self.old }
        ensures leads { P.leads parts.old parts.new }
        ensures served { Self.ReplicaStore.serves self.new → Self.ReplicaStore.serves self.old }
        ensures open { Self.ReplicaStore.is_honest self.new →
            OnOk result (Self.ReplicaStore.serves self.new) }
        ensures honest { Self.ReplicaStore.is_honest self.new →
            Self.ReplicaStore.is_honest self.old }
        ensures crash { Self.ReplicaStore.is_honest self.new → (other : Self) →
            Self.ReplicaStore.reopens self.new other → Self.ReplicaStore.reopens self.old other }
        ensures told { Self.ReplicaStore.serves self.new → P.is_honest parts.new → OnOk result
            ((tables : Tables) → Self.ReplicaStore.stages self.old tables →
            Appends L.keeps (entry_of end about (messages_of (L.heard ledger.old))
            (P.left parts.old) (images tables (P.left parts.old))) ledger.old ledger.new) }
        ensures all_heard { OnOk result (IsSome (L.heard ledger.old)) }
        ensures forgot { OnOk result (L.heard ledger.new ≡ Some []) }
        ensures free { OnOk result (L.is_stuck ledger.new ≡ false) }
        ensures was_free { L.is_stuck ledger.new ≡ false → L.is_stuck ledger.old ≡ false }
        ensures at_most { AppendsAtMost L.keeps end ledger.old ledger.new }
        ensures untold { OnErr result (L.is_stuck ledger.new ≡ false →
            Keeps L.keeps ledger.old ledger.new) }
        ensures rests { Rests L.begins L.is_wanting L.is_hearing L.outlasts L.reopens ledger.old
            ledger.new };

    /// Syncs the ledger, once, and then stores all that is staged as `settle` does. Where nothing
    /// is staged, nothing is done.
    ///
    /// # Errors
    ///
    /// Those of `settle`, and those of the ledger's `sync`. The ledger is stuck then.
    fn settle_with<L: Ledger>(&mut self, ledger: &mut L) -> Result<(), StoreFault>
        ensures settled { Self.ReplicaStore.serves self.new → OnOk result
            (Settles Self.ReplicaStore.holds Self.ReplicaStore.stages self.old self.new) }
        ensures end { OnOk result
            (Self.ReplicaStore.place self.new ≡ Self.ReplicaStore.reach self.old) }
        ensures unchanged { Self.ReplicaStore.serves self.new → OnErr result
            (Stays Self.ReplicaStore.holds self.old self.new) }
        ensures position { OnErr result
            (Self.ReplicaStore.place self.new ≡ Self.ReplicaStore.place self.old) }
        ensures some { OnErr result
            (Self.ReplicaStore.place self.old < Self.ReplicaStore.reach self.old) }
        ensures nothing { Self.ReplicaStore.reach self.old ≡ Self.ReplicaStore.place self.old →
            self.new ≡ self.old }
        ensures fault { IfErr result IsOwnFault }
        ensures none { Self.ReplicaStore.reach self.new ≡ Self.ReplicaStore.place self.new }
        ensures counts { OnOk result (Self.ReplicaStore.tally self.new
            ≡ Self.ReplicaStore.stages_tally self.old) }
        ensures uncounted { OnErr result
            (Self.ReplicaStore.tally self.new ≡ Self.ReplicaStore.tally self.old) }
        ensures served { Self.ReplicaStore.serves self.new → Self.ReplicaStore.serves self.old }
        ensures open { Self.ReplicaStore.is_honest self.new →
            Self.ReplicaStore.place self.old < Self.ReplicaStore.reach self.old →
            OnOk result (Self.ReplicaStore.serves self.new) }
        ensures honest { Self.ReplicaStore.is_honest self.new →
            Self.ReplicaStore.is_honest self.old }
        ensures crash { Self.ReplicaStore.is_honest self.new → (other : Self) →
            Self.ReplicaStore.reopens self.new other → Self.ReplicaStore.reopens self.old other
            ⊎ (Self.ReplicaStore.serves self.old
            × LeavesStaged Self.ReplicaStore.holds Self.ReplicaStore.place
            Self.ReplicaStore.stages Self.ReplicaStore.reach self.old other
            × (L.is_stuck ledger.old ≡ false)
            × Syncs L.keeps L.begins L.outlasts ledger.old ledger.new) }
        ensures kept { Keeps L.keeps ledger.old ledger.new }
        ensures heard { L.heard ledger.new ≡ L.heard ledger.old }
        ensures synced { Self.ReplicaStore.place self.old < Self.ReplicaStore.reach self.old →
            OnOk result (Syncs L.keeps L.begins L.outlasts ledger.old ledger.new) }
        ensures was_free { Self.ReplicaStore.place self.old < Self.ReplicaStore.reach self.old →
            OnOk result (L.is_stuck ledger.old ≡ false) }
        ensures free { OnOk result (L.is_stuck ledger.new ≡ L.is_stuck ledger.old) }
        ensures stuck { OnErr result (L.is_stuck ledger.new ≡ true) }
        ensures rests { Rests L.begins L.is_wanting L.is_hearing L.outlasts L.reopens ledger.old
            ledger.new };
}
