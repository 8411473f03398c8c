//! Runs over an opened store of any kind: one that tells a listener, and one with a ledger of its
//! commits.
//!
//! They are generic over what a store is, since each call over a store of rows proves anew that
//! such a store is one, and costs seconds. So callers make one such call each.

ghost use Rattle.std.specs.Prelude.{◌≡◌, ◌↔◌, ℕ, [], true, false, Option, Result, Some, IfSome};
ghost use Rattle.pgledger.specs.Records.{tally_since};
ghost use Rattle.pgfollow.specs.declared.fault.FollowFault.{FollowFault};
ghost use Rattle.pgfollow.specs.declared.fault.FollowFault.TheVariants as follow;
ghost use Rattle.pgfollow.specs.Live.{IsOfFollowingOver};
ghost use Rattle.pgsub_cli.specs.declared.fault.Ending.{Ending};
ghost use Rattle.pgsub_cli.specs.declared.fault.RunFault.{RunFault};
ghost use Rattle.pgsub_cli.specs.Caused.{TellsCaused};
ghost use Rattle.pgsub_cli.specs.FollowedLive.{IsReadBack, ending_of, may_fail_over};
ghost use Rattle.pgsub_cli.specs.FollowStatus.{status_of_follow};
ghost use Rattle.pgsub_cli.specs.Runs.{Tells, status_of};
ghost use Rattle.pgsub_cli.specs.Over.{AppliesOver, FollowsReported, HoldsBoth, ReopensBoth};

use crate::buffered::{SpoolFile, run_buffered};
use crate::files::{Input, Output};
use crate::limits::Limits;
use crate::live_io::LiveIo;
use crate::reported::{Listener, Reported};
use crate::reporting::{Reporter, run_opened};
use crate::storing::Incoming;
use pgapply::ReplicaStore;
use pgfollow::Clock;
use pgledger::{Ledger, LedgerStore, Recorded, Supposing};
use pgorder::Version;
use sqlite_disk::Disk;
use std::alloc::Global;
use std::cell::RefCell;
use std::io::{Read, Write};
use std::time::Clock as Ticks;

/// Follows a server over an opened store that tells a listener of each settling, with the changes
/// of open transactions where `run_buffered` keeps them. Returns the exit status and the store.
pub fn follow_reported<
    C: ReplicaStore + Drop,
    L: Listener + Drop,
    D: Disk + Drop,
    R: Read + Drop,
    W: Write + Drop,
    K: Clock + Drop,
    E: Output + Drop,
>(
    alloc: Global,
    store: C,
    listener: L,
    spool: Option<SpoolFile<D>>,
    limits: Limits,
    version: Version,
    io: &mut LiveIo<R, W, K, E>,
) -> (u8, C)
    requires readable { io.old.link.read_failed ≡ false }
    requires writable { io.old.link.write_failed ≡ false }
    ensures ends { (why : Option FollowFault)
        × (result.0 ≡ status_of_follow (C.tally result.1).misses.count why)
        × TellsCaused E.takes E.failed (ending_of why) io.old.err io.new.err
        × ((why ≡ Some follow.Read) ↔ (io.new.link.read_failed ≡ true))
        × ((why ≡ Some follow.Write) ↔ (io.new.link.write_failed ≡ true))
        × IfSome why (IsOfFollowingOver (may_fail_over spool))
        × (IsReadBack spool io.new.honesty → C.is_honest result.1 → C.serves store →
        FollowsReported C.holds C.place C.reopens C.serves C.tally L spool
        (R.remaining io.old.link.reader) (R.remaining io.new.link.reader) io.new.link.reads
        (W.contents io.old.link.writer) (W.contents io.new.link.writer) limits version store
        result.1 io.new.honesty why) }
    ensures honest { IsReadBack spool io.new.honesty → C.is_honest result.1 → C.is_honest store }
{
    let reported = Reported::new(store, listener);
    let (status, reported) = run_buffered(alloc, reported, spool, limits, version, io);
    (status, reported.into_store())
}

/// The same, over a store with a ledger of its commits. Returns the exit status, the store and the
/// ledger.
pub fn follow_recorded<
    C: LedgerStore + Drop,
    G: Ledger + Supposing + Drop,
    L: Listener + Drop,
    D: Disk + Drop,
    R: Read + Drop,
    W: Write + Drop,
    K: Clock + Drop,
    E: Output + Drop,
>(
    alloc: Global,
    store: C,
    ledger: G,
    listener: L,
    spool: Option<SpoolFile<D>>,
    limits: Limits,
    version: Version,
    io: &mut LiveIo<R, W, K, E>,
) -> (u8, C, G)
    requires readable { io.old.link.read_failed ≡ false }
    requires writable { io.old.link.write_failed ≡ false }
    ensures ends { (why : Option FollowFault)
        × (result.0 ≡ status_of_follow (C.tally result.1).misses.count why)
        × TellsCaused E.takes E.failed (ending_of why) io.old.err io.new.err
        × ((why ≡ Some follow.Read) ↔ (io.new.link.read_failed ≡ true))
        × ((why ≡ Some follow.Write) ↔ (io.new.link.write_failed ≡ true))
        × IfSome why (IsOfFollowingOver (may_fail_over spool))
        × (IsReadBack spool io.new.honesty → C.is_honest result.1 → C.serves store →
        (from : ℕ) × FollowsReported (HoldsBoth C.holds C.place C.reach C.tally G.supposed
        G.begins G.keeps G.outlasts G.is_stuck) (λ r. C.place r.store)
        (ReopensBoth C.place C.tally C.reopens G.supposed G.reopens)
        (λ r. C.serves r.store) (λ r. tally_since r.from (C.tally r.store)) L spool
        (R.remaining io.old.link.reader) (R.remaining io.new.link.reader) io.new.link.reads
        (W.contents io.old.link.writer) (W.contents io.new.link.writer) limits version
        (record { store = store; ledger = ledger; from = C.place store })
        (record { store = result.1; ledger = result.2; from = from }) io.new.honesty why) }
    ensures honest { IsReadBack spool io.new.honesty → C.is_honest result.1 → C.is_honest store }
{
    let followed = Recorded::new(store, ledger);
    let (status, followed) = follow_reported(alloc, followed, listener, spool, limits, version, io);
    let (store, ledger) = followed.into_parts();
    (status, store, ledger)
}

/// Applies to an opened store with its ledger what comes, and prints what it holds then.
pub fn apply_recorded<
    C: LedgerStore + Drop,
    G: Ledger + Supposing + Drop,
    R: Input + Drop,
    K: Ticks + Drop,
    P: Output + Drop,
    W: Output + Drop,
    E: Output,
>(
    alloc: Global,
    store: C,
    ledger: G,
    limits: Limits,
    input: Option<(Version, Incoming<R>)>,
    reporter: Option<&RefCell<Reporter<K, P>>>,
    out: &mut W,
    err: &mut E,
) -> (u8, C, G)
    ensures ends { (ended : Result Ending RunFault) × (from : ℕ) × (result.0 ≡ status_of ended)
        × AppliesOver (λ r. C.is_honest r.store) (λ r. C.serves r.store)
        (HoldsBoth C.holds C.place C.reach C.tally G.supposed G.begins G.keeps G.outlasts
        G.is_stuck) (λ r. C.place r.store)
        (ReopensBoth C.place C.tally C.reopens G.supposed G.reopens) R.gives R.begins R.failed
        W.takes W.failed limits input
        (record { store = store; ledger = ledger; from = C.place store })
        (record { store = result.1; ledger = result.2; from = from }) ended out.old out.new
        × Tells E.takes E.failed [] [] ended err.old err.new }
    ensures honest { C.is_honest result.1 → C.is_honest store }
{
    let recorded = Recorded::new(store, ledger);
    let (status, recorded) = run_opened(alloc, recorded, limits, input, reporter, out, err);
    let (store, ledger) = recorded.into_parts();
    (status, store, ledger)
}
