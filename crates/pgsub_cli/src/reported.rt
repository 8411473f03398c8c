//! A store that tells what it stored, each time that it settles commits. What it holds is as
//! without it.

ghost use Rattle.std.specs.Prelude.{◌≡◌, ◌<◌, ◌⊎◌, ⊤, OnOk, OnErr, IfErr};
ghost use Rattle.pgapply.specs.Stored.{IsOwnFault};
ghost use Rattle.pgapply.specs.Taken.{LeavesStaged, Settles, Stays};
ghost use Rattle.pgsub_cli.specs.declared.reported.Settling.{Settling as Settled};

use crate::files::Unheard;
use pgapply::{
    About, Commit, DumpRow, DumpSink, LogicalMessage, Misses, Parts, ReplicaStore, StoreFault,
};
use pglsn::Lsn;

/// Commits that were stored together.
#[derive(Clone, Copy, Debug, PartialEq, Eq)]
pub struct Settling {
    /// How many, at most 2^64 - 1.
    pub commits: u64,
    /// Their changes, at most 2^64 - 1.
    pub changes: u64,
    /// The end LSN of the last one.
    pub position: Lsn,
    /// How many changes found no row since the store was opened, and the first of them.
    pub misses: Misses,
}

/// What is told of each settling.
pub trait Listener {
    /// That hearing of these commits took it from one state to another.
    ghost hears: { Self → Settled → Self → Type 0 };

    /// These commits were stored together.
    fn hear(&mut self, settling: &Settling)
        ensures { hears self.old settling.now self.new };
}

impl Listener for Unheard {
    ghost hears = { λ _ _ _. ⊤ };

    fn hear(&mut self, _settling: &Settling) {}
}

/// A store that tells a listener of each settling.
#[derive(Drop)]
pub struct Reported<C: ReplicaStore + Drop, L: Listener + Drop> {
    store: C,
    listener: L,
    commits: u64,
    changes: u64,
}

impl<C: ReplicaStore + Drop, L: Listener + Drop> Reported<C, L> {
    /// The store, which tells the listener from now on.
    pub fn new(store: C, listener: L) -> Reported<C, L>
        ensures { result.store ≡ store }
    {
        Reported {
            store,
            listener,
            commits: 0,
            changes: 0,
        }
    }

    /// The store.
    pub fn into_store(self) -> C
        ensures { result ≡ self.store }
    {
        self.store
    }

    /// Counts no commits as staged.
    fn count_none(&mut self)
        ensures store { self.new.store ≡ self.old.store }
        ensures listener { self.new.listener ≡ self.old.listener }
    {
        self.commits = 0;
        self.changes = 0;
    }

    /// Tells of the commits that were staged, which are stored up to this LSN.
    fn tell(&mut self, position: Lsn)
        ensures store { self.new.store ≡ self.old.store }
        ensures told { L.hears self.old.listener (record {
          commits = self.old.commits;
          changes = self.old.changes;
          position = position;
          misses = (C.tally self.old.store).misses;
        }) self.new.listener }
    {
        let settling = Settling {
            commits: self.commits,
            changes: self.changes,
            position,
            misses: self.store.misses(),
        };
        self.listener.hear(&settling);
    }
}

impl<C: ReplicaStore + Drop, L: Listener + Drop> ReplicaStore for Reported<C, L> {
    ghost serves = { λ s. C.serves s.store };

    ghost is_honest = { λ s. C.is_honest s.store };

    ghost holds = { λ s tables. C.holds s.store tables };

    ghost place = { λ s. C.place s.store };

    ghost stages = { λ s tables. C.stages s.store tables };

    ghost reach = { λ s. C.reach s.store };

    ghost tally = { λ s. C.tally s.store };

    ghost stages_tally = { λ s. C.stages_tally s.store };

    ghost reopens = { λ s other. C.reopens s.store other.store };

    fn position(&self) -> Lsn {
        self.store.position()
    }

    fn reached(&self) -> Lsn {
        self.store.reached()
    }

    fn unstage(&mut self) {
        self.store.unstage();
        self.count_none();
    }

    fn stage(&mut self, commit: &Commit<'_, '_>) -> Result<(), StoreFault> {
        self.store.stage(commit)?;
        let changes = commit.work.entries().len() as u64;
        self.commits = self.commits.saturating_add(1);
        self.changes = self.changes.saturating_add(changes);
        Ok(())
    }

    fn takes_parts(&self) -> bool {
        self.store.takes_parts()
    }

    fn stage_parts<P: Parts>(
        &mut self,
        end: Lsn,
        about: Option<About>,
        parts: &mut P,
    ) -> Result<(), StoreFault> {
        self.store.stage_parts(end, about, parts)?;
        self.commits = self.commits.saturating_add(1);
        self.changes = self.changes.saturating_add(parts.given());
        Ok(())
    }

    /// Stores all that is staged, and tells of it where that went well.
    fn settle(&mut self) -> Result<(), StoreFault>
        ensures told { OnOk result (C.place self.old.store < C.reach self.old.store →
            L.hears self.old.listener (record {
              commits = self.old.commits;
              changes = self.old.changes;
              position = C.reach self.old.store;
              misses = (C.tally self.new.store).misses;
            }) self.new.listener) }
        ensures untold { OnErr result (self.new.listener ≡ self.old.listener) }
        ensures settled { C.serves self.new.store → OnOk result
            (Settles C.holds C.stages self.old.store self.new.store) }
        ensures end { OnOk result (C.place self.new.store ≡ C.reach self.old.store) }
        ensures unchanged { C.serves self.new.store → OnErr result
            (Stays C.holds self.old.store self.new.store) }
        ensures position { OnErr result (C.place self.new.store ≡ C.place self.old.store) }
        ensures some { OnErr result (C.place self.old.store < C.reach self.old.store) }
        ensures nothing { C.reach self.old.store ≡ C.place self.old.store →
            self.new ≡ self.old }
        ensures fault { IfErr result IsOwnFault }
        ensures none { C.reach self.new.store ≡ C.place self.new.store }
        ensures counts { OnOk result (C.tally self.new.store ≡ C.stages_tally self.old.store) }
        ensures uncounted { OnErr result (C.tally self.new.store ≡ C.tally self.old.store) }
        ensures served { C.serves self.new.store → C.serves self.old.store }
        ensures open { C.is_honest self.new.store →
            C.place self.old.store < C.reach self.old.store →
            OnOk result (C.serves self.new.store) }
        ensures honest { C.is_honest self.new.store → C.is_honest self.old.store }
        ensures crash { C.is_honest self.new.store → (other : C) →
            C.reopens self.new.store other → C.reopens self.old.store other
            ⊎ (C.serves self.old.store
            × LeavesStaged C.holds C.place C.stages C.reach self.old.store other) }
    {
        let (position, reached) = (self.store.position(), self.store.reached());
        let settled = self.store.settle();
        if position < reached {
            if settled.is_ok() {
                self.tell(reached);
            }
            self.count_none();
        }
        settled
    }

    fn rows(&mut self) -> Result<Vec<DumpRow>, StoreFault> {
        self.count_none();
        self.store.rows()
    }

    fn each_row<T: DumpSink + Drop>(&mut self, sink: T) -> (Result<bool, StoreFault>, T) {
        self.count_none();
        self.store.each_row(sink)
    }

    fn hear(&mut self, message: &LogicalMessage<'_>) {
        self.store.hear(message);
    }

    fn forget(&mut self) {
        self.store.forget();
    }

    fn misses(&self) -> Misses {
        self.store.misses()
    }

    fn cause(&self) -> Option<&str> {
        self.store.cause()
    }
}
