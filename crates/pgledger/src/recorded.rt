//! A store with a ledger of its commits.

ghost use Rattle.std.specs.Prelude.{◌≡◌, ◌<◌, [], true, false, Some, IsSome, OnOk, OnErr, IfErr};
ghost use Rattle.pgapply.specs.Value.{Tables};
ghost use Rattle.pgapply.specs.Tallies.{Counts, nothing_taken};
ghost use Rattle.pgapply.specs.Taken.{Folds, HearsOnly, RefusesWork, Stays};
ghost use Rattle.pgledger.specs.Images.{images};
ghost use Rattle.pgledger.specs.Entries.{entry_of, messages_of};
ghost use Rattle.pgledger.specs.Ledgers.{Appends, Hears, Keeps, Rests};
ghost use Rattle.pgledger.specs.Records.{Plans, Records, RecordsSince, tally_since};

use crate::ledger::{Ledger, Supposing};
use crate::ledger_store::LedgerStore;
use pgapply::{
    About, Commit, DumpRow, DumpSink, LogicalMessage, Misses, Parts, ReplicaStore, StoreFault,
};
use pglsn::Lsn;

/// A store with a ledger of its commits. It holds what the store holds; and where that is so which
/// is supposed of the ledger, the entries of that lead there commit by commit, from some tables
/// where it begins, with nothing after them but commits that are staged, or that were when the
/// ledger got stuck. Those since the two were put together tell the commits that the store took
/// since then, one by one. A crash keeps that where both are opened again: first the store, and
/// then the ledger at its position.
///
/// Once the ledger is stuck, each commit is rejected.
#[derive(Drop)]
pub struct Recorded<S: LedgerStore + Drop, L: Ledger + Supposing + Drop> {
    store: S,
    ledger: L,
    // The position at which the two were put together.
    from: Lsn,
}

impl<S: LedgerStore + Drop, L: Ledger + Supposing + Drop> Recorded<S, L> {
    /// A store with this ledger, which was opened at its position. A new ledger begins there.
    pub fn new(store: S, ledger: L) -> Recorded<S, L>
        ensures store { result.store ≡ store }
        ensures ledger { result.ledger ≡ ledger }
        ensures from { result.from ≡ S.place store }
        ensures begun { L.keeps ledger [] → L.begins ledger ≡ S.place store →
            L.outlasts ledger (S.place store) → (tables : Tables) → S.holds store tables →
            Records L.begins L.keeps L.outlasts L.is_stuck result.ledger tables
            (S.place result.store) (S.reach result.store) }
        ensures since { S.tally store ≡ nothing_taken → (tables : Tables) →
            Records L.begins L.keeps L.outlasts L.is_stuck ledger tables (S.place store)
            (S.reach store) →
            RecordsSince L.begins L.keeps L.outlasts L.is_stuck result.ledger result.from
            (S.tally result.store).commits tables (S.place result.store)
            (S.reach result.store) }
    {
        let from = store.position();
        Recorded {
            store,
            ledger,
            from,
        }
    }

    /// The ledger.
    pub fn ledger(&self) -> &L
        ensures { result.now ≡ self.now.ledger }
    {
        &self.ledger
    }

    /// The store and the ledger.
    pub fn into_parts(self) -> (S, L)
        ensures store { result.0 ≡ self.store }
        ensures ledger { result.1 ≡ self.ledger }
    {
        (self.store, self.ledger)
    }

    /// Leaves the ledger stuck where commits are staged: the store is about to drop them, and the
    /// ledger has them.
    fn leave_staged(&mut self)
        ensures store { self.new.store ≡ self.old.store }
        ensures from { self.new.from ≡ self.old.from }
        ensures kept { Keeps L.keeps self.old.ledger self.new.ledger }
        ensures heard { L.heard self.new.ledger ≡ L.heard self.old.ledger }
        ensures free { L.is_stuck self.new.ledger ≡ false →
            (L.is_stuck self.old.ledger ≡ false)
            × (S.reach self.old.store ≡ S.place self.old.store) }
        ensures rests { Rests L.begins L.is_wanting L.is_hearing L.outlasts L.reopens
            self.old.ledger self.new.ledger }
    {
        if self.store.reached() != self.store.position() {
            self.ledger.stick();
        }
    }
}

impl<S: LedgerStore + Drop, L: Ledger + Supposing + Drop> ReplicaStore for Recorded<S, L> {
    ghost serves = { λ s. S.serves s.store };

    ghost is_honest = { λ s. S.is_honest s.store };

    ghost holds = { λ s tables. S.holds s.store tables × (L.supposed →
        RecordsSince L.begins L.keeps L.outlasts L.is_stuck s.ledger s.from
        (S.tally s.store).commits tables (S.place s.store) (S.reach s.store)) };

    ghost place = { λ s. S.place s.store };

    ghost stages = { λ s tables. S.stages s.store tables × (L.supposed →
        Plans L.begins L.keeps L.outlasts L.is_stuck s.ledger s.from (S.tally s.store).commits
        (S.stages_tally s.store).commits tables (S.place s.store) (S.reach s.store)) };

    ghost reach = { λ s. S.reach s.store };

    ghost tally = { λ s. tally_since s.from (S.tally s.store) };

    ghost stages_tally = { λ s. tally_since s.from (S.stages_tally s.store) };

    ghost reopens = { λ s other. S.reopens s.store other.store
        × (S.tally other.store ≡ nothing_taken) × (other.from ≡ S.place other.store)
        × (L.supposed → L.reopens s.ledger (S.place other.store) other.ledger) };

    fn position(&self) -> Lsn {
        self.store.position()
    }

    fn reached(&self) -> Lsn {
        self.store.reached()
    }

    fn unstage(&mut self) {
        self.leave_staged();
        self.store.unstage();
    }

    /// Stages a commit in the store, which appends it to the ledger with the messages that were
    /// heard.
    fn stage(&mut self, commit: &Commit<'_, '_>) -> Result<(), StoreFault>
        requires { S.reach self.old.store < commit.now.end }
        ensures told { S.serves self.new.store → OnOk result ((tables : Tables) →
            S.stages self.old.store tables → Appends L.keeps (entry_of commit.now.end
            commit.now.about (messages_of (L.heard self.old.ledger)) commit.now.work.now.changes
            (images tables commit.now.work.now.changes)) self.old.ledger self.new.ledger) }
        ensures all_heard { OnOk result (IsSome (L.heard self.old.ledger)) }
        ensures forgot { OnOk result (L.heard self.new.ledger ≡ Some []) }
        ensures staged { S.serves self.new.store → OnOk result
            (Folds ⟦<Recorded<S, L> as ReplicaStore>⟧.stages self.old self.new
            commit.now.work.now.changes) }
        ensures end { OnOk result (S.reach self.new.store ≡ commit.now.end) }
        ensures undone { S.serves self.new.store → OnErr result
            (Stays ⟦<Recorded<S, L> as ReplicaStore>⟧.stages self.old self.new) }
        ensures reach { OnErr result (S.reach self.new.store ≡ S.reach self.old.store) }
        ensures fault { S.serves self.new.store → IfErr result
            (RefusesWork ⟦<Recorded<S, L> as ReplicaStore>⟧.stages self.old
            commit.now.work.now.changes) }
        ensures why { S.is_honest self.new.store → S.serves self.old.store → IfErr result
            (RefusesWork ⟦<Recorded<S, L> as ReplicaStore>⟧.stages self.old
            commit.now.work.now.changes) }
        ensures unchanged { S.serves self.new.store →
            Stays ⟦<Recorded<S, L> as ReplicaStore>⟧.holds self.old self.new }
        ensures position { S.place self.new.store ≡ S.place self.old.store }
        ensures counts { S.serves self.new.store → OnOk result
            (Counts ⟦<Recorded<S, L> as ReplicaStore>⟧.stages self.old commit.now.end
            commit.now.about commit.now.work.now.changes
            (tally_since self.old.from (S.stages_tally self.old.store))
            (tally_since self.new.from (S.stages_tally self.new.store))) }
        ensures uncounted { OnErr result (tally_since self.new.from
            (S.stages_tally self.new.store)
            ≡ tally_since self.old.from (S.stages_tally self.old.store)) }
        ensures tally { tally_since self.new.from (S.tally self.new.store)
            ≡ tally_since self.old.from (S.tally self.old.store) }
        ensures served { S.serves self.new.store → S.serves self.old.store }
        ensures open { S.is_honest self.new.store → OnOk result (S.serves self.new.store) }
        ensures honest { S.is_honest self.new.store → S.is_honest self.old.store }
        ensures crash { S.is_honest self.new.store → (other : Recorded S L) →
            ⟦<Recorded<S, L> as ReplicaStore>⟧.reopens self.new other →
            ⟦<Recorded<S, L> as ReplicaStore>⟧.reopens self.old other }
    {
        if self.ledger.is_stuck() {
            return Err(StoreFault::Refused);
        }
        // the call tells that what is staged doesn't end before the position
        let _reached = self.store.reached();
        self.store.stage_with(commit, &mut self.ledger)
    }

    /// Whether the store stages the changes of a commit part after part, and the ledger takes them.
    fn takes_parts(&self) -> bool {
        self.store.takes_parts() && self.ledger.takes_parts()
    }

    /// Stages a commit of parts in the store, which gives each to the ledger.
    ///
    /// # Errors
    ///
    /// Those of the store, and those of the ledger.
    fn stage_parts<P: Parts>(
        &mut self,
        end: Lsn,
        about: Option<About>,
        parts: &mut P,
    ) -> Result<(), StoreFault>
        requires { S.reach self.old.store < end }
        ensures told { S.serves self.new.store → P.is_honest parts.new → OnOk result
            ((tables : Tables) → S.stages self.old.store tables → Appends L.keeps (entry_of end
            about (messages_of (L.heard self.old.ledger)) (P.left parts.old)
            (images tables (P.left parts.old))) self.old.ledger self.new.ledger) }
        ensures all_heard { OnOk result (IsSome (L.heard self.old.ledger)) }
        ensures forgot { OnOk result (L.heard self.new.ledger ≡ Some []) }
        ensures free { OnOk result (L.is_stuck self.new.ledger ≡ false) }
        ensures staged { S.serves self.new.store → P.is_honest parts.new → OnOk result
            (Folds ⟦<Recorded<S, L> as ReplicaStore>⟧.stages self.old self.new
            (P.left parts.old)) }
        ensures end { OnOk result (S.reach self.new.store ≡ end) }
        ensures undone { S.serves self.new.store → OnErr result
            (Stays ⟦<Recorded<S, L> as ReplicaStore>⟧.stages self.old self.new) }
        ensures reach { OnErr result (S.reach self.new.store ≡ S.reach self.old.store) }
        ensures fault { S.serves self.new.store → P.is_honest parts.new → IfErr result
            (RefusesWork ⟦<Recorded<S, L> as ReplicaStore>⟧.stages self.old
            (P.left parts.old)) }
        ensures why { S.is_honest self.new.store → S.serves self.old.store →
            P.is_honest parts.new → IfErr result
            (RefusesWork ⟦<Recorded<S, L> as ReplicaStore>⟧.stages self.old
            (P.left parts.old)) }
        ensures unchanged { S.serves self.new.store →
            Stays ⟦<Recorded<S, L> as ReplicaStore>⟧.holds self.old self.new }
        ensures position { S.place self.new.store ≡ S.place self.old.store }
        ensures counts { S.serves self.new.store → P.is_honest parts.new → OnOk result
            (Counts ⟦<Recorded<S, L> as ReplicaStore>⟧.stages self.old end about
            (P.left parts.old) (tally_since self.old.from (S.stages_tally self.old.store))
            (tally_since self.new.from (S.stages_tally self.new.store))) }
        ensures uncounted { OnErr result (tally_since self.new.from
            (S.stages_tally self.new.store)
            ≡ tally_since self.old.from (S.stages_tally self.old.store)) }
        ensures tally { tally_since self.new.from (S.tally self.new.store)
            ≡ tally_since self.old.from (S.tally self.old.store) }
        ensures leads { P.leads parts.old parts.new }
        ensures served { S.serves self.new.store → S.serves self.old.store }
        ensures open { S.is_honest self.new.store → OnOk result (S.serves self.new.store) }
        ensures honest { S.is_honest self.new.store → S.is_honest self.old.store }
        ensures crash { S.is_honest self.new.store → (other : Recorded S L) →
            ⟦<Recorded<S, L> as ReplicaStore>⟧.reopens self.new other →
            ⟦<Recorded<S, L> as ReplicaStore>⟧.reopens self.old other }
    {
        if self.ledger.is_stuck() {
            return Err(StoreFault::Refused);
        }
        // the call tells that what is staged doesn't end before the position
        let _reached = self.store.reached();
        self.store
            .stage_parts_with(end, about, parts, &mut self.ledger)
    }

    /// Hands a message on to the ledger.
    fn hear(&mut self, message: &LogicalMessage<'_>)
        ensures heard { L.is_hearing self.old.ledger ≡ true →
            Hears L.is_stuck L.heard message.now self.old.ledger self.new.ledger }
        ensures hears { HearsOnly ⟦<Recorded<S, L> as ReplicaStore>⟧.serves
            ⟦<Recorded<S, L> as ReplicaStore>⟧.is_honest ⟦<Recorded<S, L> as ReplicaStore>⟧.holds
            ⟦<Recorded<S, L> as ReplicaStore>⟧.stages ⟦<Recorded<S, L> as ReplicaStore>⟧.place
            ⟦<Recorded<S, L> as ReplicaStore>⟧.reach ⟦<Recorded<S, L> as ReplicaStore>⟧.tally
            ⟦<Recorded<S, L> as ReplicaStore>⟧.stages_tally
            ⟦<Recorded<S, L> as ReplicaStore>⟧.reopens self.old self.new }
    {
        self.ledger.hear(message);
    }

    /// Lets the ledger drop what it has heard.
    fn forget(&mut self)
        ensures forgot { L.heard self.new.ledger ≡ Some [] }
        ensures forgets { HearsOnly ⟦<Recorded<S, L> as ReplicaStore>⟧.serves
            ⟦<Recorded<S, L> as ReplicaStore>⟧.is_honest ⟦<Recorded<S, L> as ReplicaStore>⟧.holds
            ⟦<Recorded<S, L> as ReplicaStore>⟧.stages ⟦<Recorded<S, L> as ReplicaStore>⟧.place
            ⟦<Recorded<S, L> as ReplicaStore>⟧.reach ⟦<Recorded<S, L> as ReplicaStore>⟧.tally
            ⟦<Recorded<S, L> as ReplicaStore>⟧.stages_tally
            ⟦<Recorded<S, L> as ReplicaStore>⟧.reopens self.old self.new }
    {
        self.ledger.forget();
    }

    fn settle(&mut self) -> Result<(), StoreFault> {
        if self.store.reached() == self.store.position() {
            return Ok(());
        }
        self.store.settle_with(&mut self.ledger)
    }

    fn rows(&mut self) -> Result<Vec<DumpRow>, StoreFault> {
        self.leave_staged();
        self.store.rows()
    }

    fn each_row<T: DumpSink + Drop>(&mut self, sink: T) -> (Result<bool, StoreFault>, T) {
        self.leave_staged();
        self.store.each_row(sink)
    }

    fn misses(&self) -> Misses {
        self.store.misses()
    }

    fn cause(&self) -> Option<&str> {
        match self.ledger.cause() {
            Some(cause) => Some(cause),
            None => self.store.cause(),
        }
    }
}
