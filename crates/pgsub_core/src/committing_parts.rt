//! Commits a transaction whose items are read part after part.
//!
//! PostgreSQL documentation, Logical Streaming Replication Protocol; Logical Replication Message
//! Formats, Commit and Stream Commit.

ghost use Rattle.std.specs.Prelude.{◌≡◌, ◌<◌, OnOk, OnErr, IfOk, IfErr, IsTrue};
ghost use Rattle.pgspool.specs.Labels.{items_of, held_of};
ghost use Rattle.pgapply.specs.Tallies.{Counts};
ghost use Rattle.pgapply.specs.Taken.{Folds, Stays, RefusesWork};
ghost use Rattle.pgsub_core.specs.Calls.Committing.{Commits, RefusesCommit};
ghost use Rattle.pgsub_core.specs.Calls.Parting.{changes_in, IsDescribed, staging_told};
ghost use Rattle.pgsub_core.specs.Calls.Parting.{StopsStaging};
ghost use Rattle.pgsub_core.specs.Calls.Staging.{Steps};
ghost use Rattle.pgsub_core.specs.Machine.Counted.{CountsCommit};

use crate::committing::{Ending, later};
use crate::fault::Fault;
use crate::loading::Loads;
use crate::parting::{Described, cache_parts, check_described};
use pgapply::{ReplicaStore, StoreFault};
use pglsn::Lsn;
use pgrel::Book;
use pgspool::{SpoolFault, Spools};
use std::alloc::Global;

// What a staging came to. The store can't tell why its parts weren't given; the spools can.
fn staging_told(staged: Result<(), StoreFault>, of_spools: Option<SpoolFault>) -> Result<(), Fault>
    ensures { result ≡ staging_told staged of_spools }
{
    match (staged, of_spools) {
        (Ok(()), _) => Ok(()),
        (Err(_), Some(fault)) => Err(Fault::from(fault)),
        (Err(fault), None) => Err(Fault::from(fault)),
    }
}

// Stages the changes of a transaction, each of which has its definition. The book is what the
// relation cache is before the first of them.
fn stage_described<P: Spools, C: ReplicaStore>(
    alloc: Global,
    book: &mut Book,
    spools: &mut P,
    store: &mut C,
    ending: Ending,
) -> Result<(), Fault>
    requires reach { C.reach store.old < ending.end }
    requires described { IsTrue (P.is_honest spools.old) →
        IsDescribed book.old (items_of (held_of (P.held spools.old) ending.xid)) }
    ensures staged { IsTrue (P.is_honest spools.new) → C.serves store.new → OnOk result
        (Folds C.stages store.old store.new
        (changes_in book.old (items_of (held_of (P.held spools.old) ending.xid)))) }
    ensures end { OnOk result (C.reach store.new ≡ ending.end) }
    ensures undone { C.serves store.new → OnErr result (Stays C.stages store.old store.new) }
    ensures fault { IsTrue (P.is_honest spools.new) → C.serves store.new → IfErr result
        (StopsStaging P.may_fail (RefusesWork C.stages store.old
        (changes_in book.old (items_of (held_of (P.held spools.old) ending.xid))))) }
    // so it is where the store has shut
    ensures why { IsTrue (P.is_honest spools.new) → C.is_honest store.new → C.serves store.old →
        IfErr result (StopsStaging P.may_fail (RefusesWork C.stages store.old
        (changes_in book.old (items_of (held_of (P.held spools.old) ending.xid))))) }
    ensures counts { IsTrue (P.is_honest spools.new) → C.serves store.new → OnOk result
        (Counts C.stages store.old ending.end ending.about
        (changes_in book.old (items_of (held_of (P.held spools.old) ending.xid)))
        (C.stages_tally store.old) (C.stages_tally store.new)) }
    ensures steps { Steps C.holds C.place C.reopens C.serves C.is_honest C.reach C.tally
        C.stages_tally P.may_fail result store.old store.new }
    ensures held { P.held spools.new ≡ P.held spools.old }
    ensures limit { P.most spools.new ≡ P.most spools.old }
    ensures given_back { IsTrue (P.is_honest spools.new) → IsTrue (P.is_honest spools.old) }
{
    let Ending { xid, end, about } = ending;
    let mut parts = Described {
        alloc,
        spools,
        book,
        xid,
        from: 0,
        to: 0,
        given: 0,
        fault: None,
    };
    let staged = store.stage_parts(end, about, &mut parts);
    let Described { spools, fault, .. } = parts;
    // borrowed once more, so that it is known what became of them
    let _spools = &mut *spools;
    staging_told(staged, fault)
}

// Stages the changes of a transaction that commits, as `commit` does. What is said of them is said
// where the spools gave back what was written to them.
fn take_parts<P: Spools, C: ReplicaStore>(
    alloc: Global,
    book: &mut Book,
    spools: &mut P,
    store: &mut C,
    confirmed: Lsn,
    ending: Ending,
) -> Result<Lsn, Fault>
    ensures taken { IsTrue (P.is_honest spools.new) → C.serves store.new → IfOk result
        (λ confirmed'. Commits C.stages C.reach ending.end
        (items_of (held_of (P.held spools.old) ending.xid)) store.old confirmed book.old store.new
        confirmed' book.new) }
    ensures refused { IsTrue (P.is_honest spools.new) → C.serves store.new → IfErr result
        (RefusesCommit C.stages C.reach ending.end
        (items_of (held_of (P.held spools.old) ending.xid)) store.old confirmed book.old
        store.new) }
    ensures why { IsTrue (P.is_honest spools.new) → C.is_honest store.new → C.serves store.old →
        IfErr result (RefusesCommit C.stages C.reach ending.end
        (items_of (held_of (P.held spools.old) ending.xid)) store.old confirmed book.old
        store.old) }
    ensures counts { IsTrue (P.is_honest spools.new) → C.serves store.new → OnOk result
        (CountsCommit C.stages C.reach C.stages_tally ending.end ending.about
        (items_of (held_of (P.held spools.old) ending.xid)) store.old confirmed book.old
        store.new) }
    ensures steps { Steps C.holds C.place C.reopens C.serves C.is_honest C.reach C.tally
        C.stages_tally P.may_fail result store.old store.new }
    ensures held { P.held spools.new ≡ P.held spools.old }
    ensures limit { P.most spools.new ≡ P.most spools.old }
{
    let Ending { xid, end, .. } = ending;
    if end <= store.reached() {
        cache_parts(alloc, book, spools, xid)?;
        return Ok(confirmed);
    }
    let mut before = book.copy(alloc)?;
    check_described(alloc, book, spools, xid)?;
    stage_described(alloc, &mut before, spools, store, ending)?;
    Ok(later(confirmed, end))
}

/// Stages the changes of a transaction that commits, as `commit` does, part after part. The store
/// learns whether they were read back as they were written.
pub(crate) fn commit_in_parts<P: Loads<C>, C: ReplicaStore>(
    alloc: Global,
    book: &mut Book,
    spools: &mut P,
    store: &mut C,
    confirmed: Lsn,
    ending: Ending,
) -> Result<Lsn, Fault>
    ensures taken { C.serves store.new → IfOk result
        (λ confirmed'. Commits C.stages C.reach ending.end
        (items_of (held_of (P.held spools.old) ending.xid)) store.old confirmed book.old store.new
        confirmed' book.new) }
    ensures refused { C.serves store.new → IfErr result (RefusesCommit C.stages C.reach ending.end
        (items_of (held_of (P.held spools.old) ending.xid)) store.old confirmed book.old
        store.new) }
    ensures why { C.is_honest store.new → C.serves store.old →
        IfErr result (RefusesCommit C.stages C.reach ending.end
        (items_of (held_of (P.held spools.old) ending.xid)) store.old confirmed book.old
        store.old) }
    ensures counts { C.serves store.new → OnOk result
        (CountsCommit C.stages C.reach C.stages_tally ending.end ending.about
        (items_of (held_of (P.held spools.old) ending.xid)) store.old confirmed book.old
        store.new) }
    ensures steps { Steps C.holds C.place C.reopens C.serves C.is_honest C.reach C.tally
        C.stages_tally P.may_fail result store.old store.new }
    ensures held { P.held spools.new ≡ P.held spools.old }
    ensures limit { P.most spools.new ≡ P.most spools.old }
{
    let taken = take_parts(alloc, book, spools, store, confirmed, ending);
    spools.note_beside(store);
    taken
}
