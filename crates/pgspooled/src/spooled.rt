//! A store beside which spools are loaded that may read back other bytes.

ghost use Rattle.std.specs.Prelude.{◌≡◌, ◌&&◌, IsTrue, true};

use crate::honesty::Honesty;
use pgapply::{
    About, Commit, DumpRow, DumpSink, LogicalMessage, Misses, Parts, ReplicaStore, StoreFault,
};
use pglsn::Lsn;
use pgspool::Spools;

/// A store beside which spools are loaded. It serves while the store does and all that was loaded
/// was read back as it was written; what it holds is what the store holds, also where it wasn't.
#[derive(Drop)]
pub struct Spooled<C: ReplicaStore + Drop> {
    store: C,
    honesty: Honesty,
}

impl<C: ReplicaStore + Drop> Spooled<C> {
    /// A store beside which nothing was loaded yet.
    pub fn new(store: C) -> Spooled<C>
        ensures store { result.store ≡ store }
        ensures honest { result.honesty.is_true ≡ true }
    {
        Spooled {
            store,
            honesty: Honesty::new(),
        }
    }

    /// The store, and whether all that was loaded beside it was read back as it was written.
    pub fn into_parts(self) -> (C, Honesty)
        ensures store { result.0 ≡ self.store }
        ensures honesty { result.1 ≡ self.honesty }
    {
        (self.store, self.honesty)
    }

    /// Notes whether the spools that were loaded beside it have given back what was written to
    /// them. The store itself learns nothing.
    pub(crate) fn note<P: Spools>(&mut self, spools: &P)
        ensures store { self.new.store ≡ self.old.store }
        ensures noted { self.new.honesty.is_true
            ≡ self.old.honesty.is_true && P.is_honest spools.now }
    {
        self.honesty.note(spools);
    }
}

impl<C: ReplicaStore + Drop> ReplicaStore for Spooled<C> {
    ghost serves = { λ s. C.serves s.store × IsTrue s.honesty.is_true };

    ghost is_honest = { λ s. C.is_honest s.store × IsTrue s.honesty.is_true };

    ghost holds = { λ s tables. C.holds s.store tables };

    ghost place = { λ s. C.place s.store };

    ghost stages = { λ s tables. C.stages s.store tables };

    ghost reach = { λ s. C.reach s.store };

    ghost tally = { λ s. C.tally s.store };

    ghost stages_tally = { λ s. C.stages_tally s.store };

    ghost reopens = { λ s other. C.reopens s.store other.store };

    fn position(&self) -> Lsn {
        self.store.position()
    }

    fn reached(&self) -> Lsn {
        self.store.reached()
    }

    fn unstage(&mut self) {
        self.store.unstage();
    }

    fn stage(&mut self, commit: &Commit<'_, '_>) -> Result<(), StoreFault> {
        self.store.stage(commit)
    }

    fn takes_parts(&self) -> bool {
        self.store.takes_parts()
    }

    fn stage_parts<P: Parts>(
        &mut self,
        end: Lsn,
        about: Option<About>,
        parts: &mut P,
    ) -> Result<(), StoreFault> {
        self.store.stage_parts(end, about, parts)
    }

    fn settle(&mut self) -> Result<(), StoreFault> {
        self.store.settle()
    }

    fn rows(&mut self) -> Result<Vec<DumpRow>, StoreFault> {
        self.store.rows()
    }

    fn each_row<T: DumpSink + Drop>(&mut self, sink: T) -> (Result<bool, StoreFault>, T) {
        self.store.each_row(sink)
    }

    fn hear(&mut self, message: &LogicalMessage<'_>) {
        self.store.hear(message);
    }

    fn forget(&mut self) {
        self.store.forget();
    }

    fn misses(&self) -> Misses {
        self.store.misses()
    }

    fn cause(&self) -> Option<&str> {
        self.store.cause()
    }
}
