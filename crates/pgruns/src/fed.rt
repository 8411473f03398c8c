//! Runs over an opened store of any kind, beside which a feed of its commits may be kept.
//!
//! They are over a store of any kind, since the proof that one over given disks is a store gets too
//! large.

ghost use Rattle.std.specs.Prelude.{◌≡◌, ◌↔◌, [], false, true, Option, Result, Some, IfSome};
ghost use Rattle.pgfeed.specs.declared.fault.FeedFault.{FeedFault};
ghost use Rattle.pgfollow.specs.declared.fault.FollowFault.{FollowFault};
ghost use Rattle.pgfollow.specs.declared.fault.FollowFault.TheVariants as fault;
ghost use Rattle.pgfollow.specs.Live.{IsOfFollowingOver};
ghost use Rattle.pgstore.specs.StoreValue.{IsHonest, Serves};
ghost use Rattle.pgsub_cli.specs.declared.fault.Ending.{Ending};
ghost use Rattle.pgsub_cli.specs.declared.fault.RunFault.{RunFault};
ghost use Rattle.pgsub_cli.specs.Caused.{TellsCaused};
ghost use Rattle.pgsub_cli.specs.FollowedLive.{ending_of, may_fail_over};
ghost use Rattle.pgsub_cli.specs.FollowStatus.{status_of_follow};
ghost use Rattle.pgsub_cli.specs.Runs.{Tells, status_of};
ghost use Rattle.pgruns.specs.Fed.{AppliesBeside, FollowsBeside, IsRun, IsUnfed, TellsUnfed};
ghost use Rattle.pgruns.specs.Fed.{status_of_unapplied, status_of_unfed};
ghost use Rattle.pgruns.specs.Filed.{IsKept};

use crate::telling::{tell_unapplied, tell_unfed};
use pgfeed::{Feed, Folder};
use pgfollow::Clock;
use pgledger::Supposing;
use pgloaded::LoadPlan;
use pgorder::Version;
use pgstore::Store;
use pgsub_cli::files::{Input, Output};
use pgsub_cli::over::{apply_recorded, follow_recorded, follow_reported};
use pgsub_cli::reported::Listener;
use pgsub_cli::reporting::Reporter;
use pgsub_cli::storing::Incoming;
use pgsub_cli::{Limits, LiveIo, SpoolFile, run_opened};
use pgsystem::FeedOpening;
use sqlite::Alter;
use sqlite_disk::Disk;
use std::alloc::Global;
use std::cell::RefCell;
use std::io::{Read, Write};
use std::time::Clock as Ticks;

/// How a server is followed.
#[derive(Drop)]
pub struct FollowPlan<B: Drop, L: Listener + Drop, M: Disk + Drop> {
    /// What is loaded into the store before its server is followed, if anything.
    pub load: Option<LoadPlan>,
    /// The feed that is kept of what is stored, if any.
    pub feed: Option<B>,
    /// Where the changes of open transactions go on that memory doesn't hold, if anywhere.
    pub spool: Option<SpoolFile<M>>,
    /// What is told of each settling.
    pub listener: L,
    /// The limits of what is followed.
    pub limits: Limits,
    /// The version of the protocol.
    pub version: Version,
}

/// What is applied.
#[derive(Drop)]
pub struct ApplyPlan<'a, B: Drop, R: Drop, K: Ticks + Drop, P: Output + Drop> {
    /// The feed that is kept of what is stored, if any.
    pub feed: Option<B>,
    /// The limits of what is applied.
    pub limits: Limits,
    /// What comes, if anything does.
    pub input: Option<(Version, Incoming<R>)>,
    /// What is told how far it is, if anything.
    pub reporter: Option<&'a RefCell<Reporter<K, P>>>,
}

/// Follows a server over an opened store of any kind, and keeps the feed that is asked for beside
/// it. Returns the exit status, the store, and the feed, where it could be opened; where not,
/// standard error gets why, and nothing is followed.
pub(crate) fn follow_over<
    S: Alter + Drop,
    D: Folder + Supposing + Drop,
    B: FeedOpening<D> + Drop,
    L: Listener + Drop,
    M: Disk + Drop,
    R: Read + Drop,
    W: Write + Drop,
    K: Clock + Drop,
    E: Output + Drop,
>(
    alloc: Global,
    store: Store<S>,
    plan: FollowPlan<B, L, M>,
    io: &mut LiveIo<R, W, K, E>,
) -> (u8, Store<S>, Option<Feed<D>>)
    requires readable { io.old.link.read_failed ≡ false }
    requires writable { io.old.link.write_failed ≡ false }
    ensures unfed { IsUnfed plan.feed result.2 → (f : FeedFault)
        × IfSome plan.feed (λ feed. B.fails feed f)
        × (result.0 ≡ status_of_unfed f) × (result.1 ≡ store) × (io.new.link ≡ io.old.link)
        × (io.new.honesty ≡ io.old.honesty) × TellsUnfed E.takes E.failed f io.old.err io.new.err }
    ensures ran { IsRun plan.feed result.2 → (why : Option FollowFault)
        × (result.0 ≡ status_of_follow result.1.group.tally.misses.count why)
        × TellsCaused E.takes E.failed (ending_of why) io.old.err io.new.err
        × ((why ≡ Some fault.Read) ↔ (io.new.link.read_failed ≡ true))
        × ((why ≡ Some fault.Write) ↔ (io.new.link.write_failed ≡ true))
        × IfSome why (IsOfFollowingOver (may_fail_over plan.spool))
        × ((IsKept S.Store plan.spool io.new.honesty result.1 → Serves S.Store store) →
        FollowsBeside D.File.seen D.File.may_leave D.File.is_clean D.is_true D.places D.has
        D.supposed B.opens S.Store L plan.spool
        (R.remaining io.old.link.reader) (R.remaining io.new.link.reader) io.new.link.reads
        (W.contents io.old.link.writer) (W.contents io.new.link.writer) plan.limits
        plan.version why store result.1 io.new.honesty plan.feed result.2) }
    ensures honest { IsKept S.Store plan.spool io.new.honesty result.1 → IsHonest S.Store store }
{
    let FollowPlan {
        feed,
        spool,
        listener,
        limits,
        version,
        ..
    } = plan;
    let feed = match feed {
        Some(feed) => feed,
        None => {
            let (status, store) = follow_reported(
                alloc, store, listener, spool, limits, version, io,
            );
            return (status, store, None);
        }
    };
    match feed.open_feed(alloc, store.position()) {
        Ok(feed) => {
            let (status, store, feed) = follow_recorded(
                alloc, store, feed, listener, spool, limits, version, io,
            );
            (status, store, Some(feed))
        }
        Err(unfed) => (tell_unfed(unfed, &mut io.err), store, None),
    }
}

/// Applies to an opened store of any kind what comes, keeps the feed that is asked for beside it,
/// and prints what the store holds then. Returns what `follow_over` does.
pub(crate) fn apply_over<
    S: Alter + Drop,
    D: Folder + Supposing + Drop,
    B: FeedOpening<D> + Drop,
    R: Input + Drop,
    K: Ticks + Drop,
    P: Output + Drop,
    W: Output + Drop,
    E: Output,
>(
    alloc: Global,
    store: Store<S>,
    plan: ApplyPlan<'_, B, R, K, P>,
    out: &mut W,
    err: &mut E,
) -> (u8, Store<S>, Option<Feed<D>>)
    ensures unfed { IsUnfed plan.entry.feed result.2 → (f : FeedFault)
        × IfSome plan.entry.feed (λ feed. B.fails feed f)
        × (result.0 ≡ status_of_unapplied f) × (result.1 ≡ store) × (out.new ≡ out.old)
        × TellsUnfed E.takes E.failed f err.old err.new }
    ensures ran { IsRun plan.entry.feed result.2 → (why : Result Ending RunFault)
        × (result.0 ≡ status_of why)
        × Tells E.takes E.failed [] [] why err.old err.new
        × ((IsHonest S.Store result.1 → Serves S.Store store) → AppliesBeside D.File.seen
        D.File.may_leave D.File.is_clean D.is_true D.places D.has D.supposed B.opens S.Store
        R.gives R.begins R.failed W.takes W.failed plan.entry.limits plan.entry.input why out.old
        out.new store result.1 plan.entry.feed result.2) }
    ensures honest { IsHonest S.Store result.1 → IsHonest S.Store store }
{
    let ApplyPlan {
        feed,
        limits,
        input,
        reporter,
    } = plan;
    let feed = match feed {
        Some(feed) => feed,
        None => {
            let (status, store) = run_opened(alloc, store, limits, input, reporter, out, err);
            return (status, store, None);
        }
    };
    match feed.open_feed(alloc, store.position()) {
        Ok(feed) => {
            let (status, store, feed) = apply_recorded(
                alloc, store, feed, limits, input, reporter, out, err,
            );
            (status, store, Some(feed))
        }
        Err(unfed) => (tell_unapplied(unfed, err), store, None),
    }
}
