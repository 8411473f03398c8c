//! Loads items that may come from a file, beside a store that notes whether they are as they were
//! written.

ghost use Rattle.std.specs.Prelude.{◌≡◌, ◌&&◌, IsTrue, OnOk, IfErr};
ghost use Rattle.pgspool.specs.Failures.{IsFailure};
ghost use Rattle.pgspooled.specs.Live.{held_live, most_live, is_honest_live};
ghost use Rattle.pgspooled.specs.Live.{IsReadyLive, IsLoadedLive};
ghost use Rattle.pgsub_core.specs.Calls.Loading.{LoadsBeside};

use crate::live_spools::LiveSpools;
use crate::spooled::Spooled;
use pgapply::ReplicaStore;
use pgspool::{SpoolFault, Spools};
use pgsub_core::Loads;
use sqlite_disk::Disk;

impl<C: ReplicaStore + Drop, D: Disk + Drop> Loads<Spooled<C>> for LiveSpools<D> {
    /// Makes the items of a transaction ready to be borrowed. Whatever comes of it, the store notes
    /// whether all that was written has been given back; where it has, the store stays as it is.
    fn load_beside(&mut self, xid: u32, store: &mut Spooled<C>) -> Result<(), SpoolFault>
        ensures noted { store.new.honesty.is_true
            ≡ store.old.honesty.is_true && is_honest_live self.new }
        ensures stays { IsTrue (is_honest_live self.new) → store.new ≡ store.old }
        ensures ready { OnOk result (IsReadyLive self.new xid) }
        ensures loaded { ⟦<Spooled<C> as ReplicaStore>⟧.serves store.new →
            OnOk result (IsLoadedLive self.new xid) }
        ensures fault { IfErr result (IsFailure ⟦<LiveSpools<D> as Spools>⟧.may_fail) }
        ensures held { held_live self.new ≡ held_live self.old }
        ensures limit { most_live self.new ≡ most_live self.old }
        ensures beside { LoadsBeside ⟦<Spooled<C> as ReplicaStore>⟧.serves
            ⟦<Spooled<C> as ReplicaStore>⟧.is_honest ⟦<Spooled<C> as ReplicaStore>⟧.holds
            ⟦<Spooled<C> as ReplicaStore>⟧.stages ⟦<Spooled<C> as ReplicaStore>⟧.place
            ⟦<Spooled<C> as ReplicaStore>⟧.reach ⟦<Spooled<C> as ReplicaStore>⟧.tally
            ⟦<Spooled<C> as ReplicaStore>⟧.stages_tally
            ⟦<Spooled<C> as ReplicaStore>⟧.reopens store.old store.new }
    {
        let loaded = self.load(xid);
        store.note(self);
        loaded
    }

    /// The store notes whether all that was written has been given back; where it has, the store
    /// stays as it is.
    fn note_beside(&self, store: &mut Spooled<C>)
        ensures noted_too { store.new.honesty.is_true
            ≡ store.old.honesty.is_true && is_honest_live self.now }
        ensures stays { IsTrue (is_honest_live self.now) → store.new ≡ store.old }
        ensures noted { ⟦<Spooled<C> as ReplicaStore>⟧.serves store.new →
            IsTrue (is_honest_live self.now) }
        ensures noted_honest { ⟦<Spooled<C> as ReplicaStore>⟧.is_honest store.new →
            IsTrue (is_honest_live self.now) }
        ensures beside { LoadsBeside ⟦<Spooled<C> as ReplicaStore>⟧.serves
            ⟦<Spooled<C> as ReplicaStore>⟧.is_honest ⟦<Spooled<C> as ReplicaStore>⟧.holds
            ⟦<Spooled<C> as ReplicaStore>⟧.stages ⟦<Spooled<C> as ReplicaStore>⟧.place
            ⟦<Spooled<C> as ReplicaStore>⟧.reach ⟦<Spooled<C> as ReplicaStore>⟧.tally
            ⟦<Spooled<C> as ReplicaStore>⟧.stages_tally
            ⟦<Spooled<C> as ReplicaStore>⟧.reopens store.old store.new }
    {
        Spooled::note(store, self);
    }
}
