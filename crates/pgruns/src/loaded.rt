//! Runs that begin with a load: the first copy of a server's tables, which comes before its first
//! session.
//!
//! PostgreSQL documentation, Logical Decoding Concepts, Exported Snapshots.

ghost use Rattle.std.specs.Prelude.{◌≡◌, ◌↔◌, false, true, None, Option, Some, IfSome};
ghost use Rattle.pgfeed.specs.declared.fault.FeedFault.{FeedFault};
ghost use Rattle.pgfollow.specs.declared.fault.FollowFault.{FollowFault};
ghost use Rattle.pgfollow.specs.declared.fault.FollowFault.TheVariants as fault;
ghost use Rattle.pgfollow.specs.Live.{IsOfFollowingOver};
ghost use Rattle.pgstore.specs.Reopened.{Reopens};
ghost use Rattle.pgstore.specs.StoreValue.{HasTables, IsHonest, Serves};
ghost use Rattle.pgsub_cli.specs.Caused.{TellsCaused};
ghost use Rattle.pgsub_cli.specs.FollowedLive.{ending_of, may_fail_over};
ghost use Rattle.pgsub_cli.specs.FollowStatus.{status_of_follow};
ghost use Rattle.pgruns.specs.Fed.{FollowsBeside, IsRun, IsUnfed, TellsUnfed, status_of_unfed};
ghost use Rattle.pgruns.specs.Filed.{IsKept, TellsUnloaded, position_of, status_of_unloaded};
ghost use Rattle.pgloaded.specs.Loaded.{AfterLoad, KeepsLink, Unloads};

use crate::fed::{FollowPlan, follow_over};
use crate::telling::tell_unloaded;
use pgapply::ReplicaStore;
use pgfeed::{Feed, Folder};
use pgfollow::Clock;
use pgledger::Supposing;
use pgload::InputFault;
use pgloaded::{SessionReader, load_first};
use pgstore::Store;
use pgsub_cli::LiveIo;
use pgsub_cli::files::Output;
use pgsub_cli::reported::Listener;
use pgsystem::FeedOpening;
use sqlite::Alter;
use sqlite_disk::Disk;
use std::alloc::Global;
use std::io::Write;

/// Loads into an opened store of any kind what comes first, where a load is planned, and follows
/// the server over it then, as `follow_over` does: the reader is told that sessions begin. Returns
/// what that returns, and why the load wasn't taken: standard error has got it then, and nothing
/// was followed.
pub(crate) fn follow_loaded<
    S: Alter + Drop,
    D: Folder + Supposing + Drop,
    B: FeedOpening<D> + Drop,
    L: Listener + Drop,
    M: Disk + Drop,
    R: SessionReader + Drop,
    W: Write + Drop,
    K: Clock + Drop,
    E: Output + Drop,
>(
    alloc: Global,
    store: Store<S>,
    plan: FollowPlan<B, L, M>,
    io: &mut LiveIo<R, W, K, E>,
) -> (u8, Store<S>, Option<Feed<D>>, Option<InputFault>)
    requires readable { io.old.link.read_failed ≡ false }
    requires writable { io.old.link.write_failed ≡ false }
    ensures unloaded { IfSome result.3 (λ why. (result.0 ≡ status_of_unloaded why)
        × (result.2 ≡ None) × KeepsLink plan.load io.old.link io.new.link
        × (io.new.honesty ≡ io.old.honesty)
        × TellsUnloaded E.takes E.failed why io.old.err io.new.err
        × Unloads (HasTables S.Store) position_of (Reopens S.Store S.Store) (Serves S.Store)
        (IsHonest S.Store) plan.load (R.remaining io.old.link.reader)
        (R.remaining io.new.link.reader) store result.1 why) }
    ensures unfed { result.3 ≡ None → IsUnfed plan.feed result.2 → (f : FeedFault)
        × IfSome plan.feed (λ feed. B.fails feed f)
        × (result.0 ≡ status_of_unfed f) × KeepsLink plan.load io.old.link io.new.link
        × (io.new.honesty ≡ io.old.honesty)
        × TellsUnfed E.takes E.failed f io.old.err io.new.err
        × AfterLoad (HasTables S.Store) position_of (Reopens S.Store S.Store) (Serves S.Store)
        (IsHonest S.Store) plan.load (R.remaining io.old.link.reader) store (λ rest loaded.
        (rest ≡ R.remaining io.new.link.reader) × (loaded ≡ result.1)) }
    ensures ran { result.3 ≡ None → IsRun plan.feed result.2 → (why : Option FollowFault)
        × (result.0 ≡ status_of_follow result.1.group.tally.misses.count why)
        × TellsCaused E.takes E.failed (ending_of why) io.old.err io.new.err
        × ((why ≡ Some fault.Read) ↔ (io.new.link.read_failed ≡ true))
        × ((why ≡ Some fault.Write) ↔ (io.new.link.write_failed ≡ true))
        × IfSome why (IsOfFollowingOver (may_fail_over plan.spool))
        × ((IsKept S.Store plan.spool io.new.honesty result.1 → Serves S.Store store) →
        AfterLoad (HasTables S.Store) position_of (Reopens S.Store S.Store) (Serves S.Store)
        (IsHonest S.Store) plan.load (R.remaining io.old.link.reader) store (λ rest loaded.
        FollowsBeside D.File.seen D.File.may_leave D.File.is_clean D.is_true D.places D.has
        D.supposed B.opens S.Store L plan.spool rest (R.remaining io.new.link.reader)
        io.new.link.reads (W.contents io.old.link.writer) (W.contents io.new.link.writer)
        plan.limits plan.version why loaded result.1 io.new.honesty plan.feed result.2)) }
    ensures honest { IsKept S.Store plan.spool io.new.honesty result.1 → IsHonest S.Store store }
{
    let (unloaded, store) = load_first(alloc, store, plan.load, &mut io.link.reader);
    match unloaded {
        Some(fault) => {
            let status = tell_unloaded(alloc, fault, store.cause(), &mut io.err);
            (status, store, None, Some(fault))
        }
        None => {
            let (status, store, feed) = follow_over(alloc, store, plan, io);
            (status, store, feed, None)
        }
    }
}
