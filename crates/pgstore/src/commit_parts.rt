//! A commit that a store stages part after part.
//!
//! PostgreSQL documentation, Logical Replication.

ghost use Rattle.std.specs.Prelude.{◌≡◌, ◌<◌, false, OnOk, OnErr, IfErr, [], Some, IsSome};
ghost use Rattle.sqlite.specs.State.{Survives};
ghost use Rattle.pgrows.specs.Rows.{state};
ghost use Rattle.pgapply.specs.Tallies.{Counts};
ghost use Rattle.pgapply.specs.Taken as taken;
ghost use Rattle.pgapply.specs.Value.{Tables};
ghost use Rattle.pgledger.specs.Images.{images};
ghost use Rattle.pgledger.specs.Entries.{entry_of, messages_of};
ghost use Rattle.pgledger.specs.Ledgers.{Appends, AppendsAtMost, Keeps as KeepsEntries, Rests};
ghost use Rattle.pgstore.specs.StoreValue.{IsHonest, Serves, Plans, Stays};

use crate::parting::stage_parts_told;
use crate::store::Store;
use pgapply::{About, Parts, StoreFault};
use pgledger::{Ledger, NoLedger};
use pglsn::Lsn;
use sqlite::Alter;

impl<S: Alter + Drop> Store<S> {
    /// Stages a commit as `stage` does, whose changes come part after part: all of them, or
    /// nothing. One part is in memory at a time. What is said of the changes is said where the
    /// parts are what was put into them.
    ///
    /// # Errors
    ///
    /// Those of `stage`, and those of the parts.
    pub fn stage_parts<P: Parts>(
        &mut self,
        end: Lsn,
        about: Option<About>,
        parts: &mut P,
    ) -> Result<(), StoreFault>
        requires { self.old.group.reach < end }
        ensures staged { IsHonest S.Store self.new → P.is_honest parts.new → OnOk result
            (taken.Folds (Plans S.Store) self.old self.new (P.left parts.old)) }
        ensures serves { IsHonest S.Store self.new → OnOk result (Serves S.Store self.new) }
        ensures end { OnOk result (self.new.group.reach ≡ end) }
        ensures undone { Serves S.Store self.new → OnErr result
            (taken.Stays (Plans S.Store) self.old self.new) }
        ensures reach { OnErr result (self.new.group.reach ≡ self.old.group.reach) }
        ensures fault { IsHonest S.Store self.new → Serves S.Store self.old →
            P.is_honest parts.new → IfErr result
            (taken.RefusesWork (Plans S.Store) self.old (P.left parts.old)) }
        ensures unchanged { Serves S.Store self.new → Stays S.Store self.old self.new }
        ensures position { self.new.position ≡ self.old.position }
        ensures counts { IsHonest S.Store self.new → P.is_honest parts.new → OnOk result
            (Counts (Plans S.Store) self.old end about (P.left parts.old)
            self.old.group.stages_tally self.new.group.stages_tally) }
        ensures uncounted { OnErr result
            (self.new.group.stages_tally ≡ self.old.group.stages_tally) }
        ensures tally { self.new.group.tally ≡ self.old.group.tally }
        ensures crash { Survives (state S.Store self.old.rows) (state S.Store self.new.rows)
            (λ _. ⊥) }
        ensures leads { P.leads parts.old parts.new }
    {
        self.stage_parts_with(end, about, parts, &mut NoLedger::new())
    }

    /// Stages a commit as `stage_parts` does, and gives the ledger each part with the image of each
    /// of its changes. Once all are made, the ledger keeps the commit. Where it wants no images, no
    /// row is read for it.
    ///
    /// # Errors
    ///
    /// Those of `stage_parts`, and those of the ledger, which leave it stuck. Where the ledger
    /// fails before the first part or behind the last, all that is staged is lost.
    pub fn stage_parts_with<P: Parts, L: Ledger>(
        &mut self,
        end: Lsn,
        about: Option<About>,
        parts: &mut P,
        ledger: &mut L,
    ) -> Result<(), StoreFault>
        requires { self.old.group.reach < end }
        ensures staged { IsHonest S.Store self.new → P.is_honest parts.new → OnOk result
            (taken.Folds (Plans S.Store) self.old self.new (P.left parts.old)) }
        ensures serves { IsHonest S.Store self.new → OnOk result (Serves S.Store self.new) }
        ensures end { OnOk result (self.new.group.reach ≡ end) }
        ensures undone { Serves S.Store self.new → OnErr result
            (taken.Stays (Plans S.Store) self.old self.new) }
        ensures reach { OnErr result (self.new.group.reach ≡ self.old.group.reach) }
        ensures fault { IsHonest S.Store self.new → Serves S.Store self.old →
            P.is_honest parts.new → IfErr result
            (taken.RefusesWork (Plans S.Store) self.old (P.left parts.old)) }
        ensures unchanged { Serves S.Store self.new → Stays S.Store self.old self.new }
        ensures position { self.new.position ≡ self.old.position }
        ensures counts { IsHonest S.Store self.new → P.is_honest parts.new → OnOk result
            (Counts (Plans S.Store) self.old end about (P.left parts.old)
            self.old.group.stages_tally self.new.group.stages_tally) }
        ensures uncounted { OnErr result
            (self.new.group.stages_tally ≡ self.old.group.stages_tally) }
        ensures tally { self.new.group.tally ≡ self.old.group.tally }
        ensures crash { Survives (state S.Store self.old.rows) (state S.Store self.new.rows)
            (λ _. ⊥) }
        ensures leads { P.leads parts.old parts.new }
        ensures told { IsHonest S.Store self.new → P.is_honest parts.new → OnOk result
            ((tables : Tables) → Plans S.Store self.old tables → Appends L.Ledger.keeps
            (entry_of end about (messages_of (L.Ledger.heard ledger.old)) (P.left parts.old)
            (images tables (P.left parts.old))) ledger.old ledger.new) }
        ensures all_heard { OnOk result (IsSome (L.Ledger.heard ledger.old)) }
        ensures forgot { OnOk result (L.Ledger.heard ledger.new ≡ Some []) }
        ensures free { OnOk result (L.Ledger.is_stuck ledger.new ≡ false) }
        ensures was_free { L.Ledger.is_stuck ledger.new ≡ false →
            L.Ledger.is_stuck ledger.old ≡ false }
        ensures at_most { AppendsAtMost L.Ledger.keeps end ledger.old ledger.new }
        ensures untold { OnErr result (L.Ledger.is_stuck ledger.new ≡ false →
            KeepsEntries L.Ledger.keeps ledger.old ledger.new) }
        ensures rests { Rests L.Ledger.begins L.Ledger.is_wanting L.Ledger.is_hearing
            L.Ledger.outlasts L.Ledger.reopens ledger.old ledger.new }
    {
        if let Some(fault) = self.group.lost() {
            return Err(fault);
        }
        let is_first = self.group.is_empty(self.position);
        let told = about; // A copy, since the ledger is told it too.
        let commits = self.group.with_parts(end, told, parts);
        let mut missed = self.group.stages_missed();
        let staged = stage_parts_told(
            &mut self.source,
            self.alloc,
            is_first,
            parts,
            end,
            about,
            &mut missed,
            ledger,
        );
        match staged {
            Ok(()) => {
                self.group.stage(end, commits, missed);
                Ok(())
            }
            Err(unstaged) => {
                self.cause = unstaged.refusal.cause_or(self.cause);
                Err(self.group.refuse(is_first, unstaged))
            }
        }
    }
}
