//! Loads the items of a transaction that commits, beside the store that its changes are for.

ghost use Rattle.std.specs.Prelude.{◌≡◌, OnOk, IfErr, IsTrue};
ghost use Rattle.pgspool.specs.Failures.{IsFailure};
ghost use Rattle.pgsub_core.specs.Calls.Loading.{LoadsBeside};

use pgapply::ReplicaStore;
use pgspool::{SpoolFault, Spools, SpoolsOf, TransactionItems};

/// Spools whose items are loaded beside a store: the store learns whether they were read back as
/// they were written. Where they may not have been, it serves no longer, so that nothing is said of
/// its tables from then on.
pub trait Loads<C: ReplicaStore>: Spools {
    /// Makes the items of a transaction ready to be borrowed, as `load` does. Nothing that the
    /// store holds or has staged changes.
    fn load_beside(&mut self, xid: u32, store: &mut C) -> Result<(), SpoolFault>
        ensures ready { OnOk result (Self.is_ready self.new xid) }
        ensures loaded { C.serves store.new → OnOk result (Self.is_loaded self.new xid) }
        ensures fault { IfErr result (IsFailure Self.may_fail) }
        ensures held { Self.held self.new ≡ Self.held self.old }
        ensures limit { Self.most self.new ≡ Self.most self.old }
        ensures beside { LoadsBeside C.serves C.is_honest C.holds C.stages C.place C.reach C.tally
            C.stages_tally C.reopens store.old store.new };

    /// Tells the store whether all that was read back until now is what was written. Nothing that
    /// the store holds or has staged changes.
    fn note_beside(&self, store: &mut C)
        ensures noted { C.serves store.new → IsTrue (Self.is_honest self.now) }
        ensures noted_honest { C.is_honest store.new → IsTrue (Self.is_honest self.now) }
        ensures beside { LoadsBeside C.serves C.is_honest C.holds C.stages C.place C.reach C.tally
            C.stages_tally C.reopens store.old store.new };
}

/// What is kept in memory is read back as it was written, whatever store is beside it.
impl<T: TransactionItems, C: ReplicaStore> Loads<C> for SpoolsOf<T> {
    fn load_beside(&mut self, xid: u32, _store: &mut C) -> Result<(), SpoolFault> {
        self.load(xid)
    }

    fn note_beside(&self, _store: &mut C) {}
}
