//! Runs over a store in files: opens it, runs, and closes it.

ghost use Rattle.std.specs.Prelude.{◌≡◌, ◌↔◌, [], false, true, None, Option, Result, Err, Some};
ghost use Rattle.std.specs.Prelude.{IfErr, IfOk, IfSome};
ghost use Rattle.sqlite.specs.Files.{over_files};
ghost use Rattle.sqlite.specs.Held as connection;
ghost use Rattle.sqlite.specs.State.{HasCleanDisk};
ghost use Rattle.sqlite.specs.WalFiles.{image_at};
ghost use Rattle.pgapply.specs.Dump.{dump as lines_of};
ghost use Rattle.pgapply.specs.Taken.{Stays};
ghost use Rattle.pgapply.specs.Value.{Tables};
ghost use Rattle.pgapply.specs.declared.fault.StoreFault.{StoreFault};
ghost use Rattle.pgfeed.specs.declared.fault.FeedFault.{FeedFault};
ghost use Rattle.pgfollow.specs.declared.fault.FollowFault.{FollowFault};
ghost use Rattle.pgfollow.specs.declared.fault.FollowFault.TheVariants as fault;
ghost use Rattle.pgfollow.specs.Live.{IsOfFollowingOver};
ghost use Rattle.pgstore.specs.Reopened.{Reopens, StaysAsFound};
ghost use Rattle.pgstore.specs.StoreValue.{HasTables, IsHonest, Serves};
ghost use Rattle.pgsub_core.specs.declared.fault.Fault.TheVariants.{Store as OfStore};
ghost use Rattle.pgsub_cli.specs.declared.fault.Ending.{Ending};
ghost use Rattle.pgsub_cli.specs.declared.fault.RunFault.{RunFault};
ghost use Rattle.pgsub_cli.specs.declared.fault.RunFault.TheVariants.{Stream};
ghost use Rattle.pgsub_cli.specs.Caused.{TellsCaused};
ghost use Rattle.pgsub_cli.specs.Dumped.{Dumps};
ghost use Rattle.pgloaded.specs.Loaded.{AfterLoad, KeepsLink, Unloads};
ghost use Rattle.pgruns.specs.Filed.{IsKept, LeavesNothingNew, RunsInFiles, TellsBoth};
ghost use Rattle.pgruns.specs.Filed.{TellsUnloaded, fault_of_closing, position_of, status_closed};
ghost use Rattle.pgruns.specs.Filed.{status_of_unclosed, status_of_unloaded};
ghost use Rattle.pgruns.specs.Fed.{AppliesBeside, FollowsBeside, IsRun, IsUnfed, TellsUnfed};
ghost use Rattle.pgruns.specs.Fed.{status_of_unapplied, status_of_unfed};
ghost use Rattle.pgsub_cli.specs.FollowedLive.{ending_of, may_fail_over};
ghost use Rattle.pgsub_cli.specs.FollowStatus.{status_of_follow, status_of_unfollowed};
ghost use Rattle.pgsub_cli.specs.Runs.{Tells, status_of};
ghost use Rattle.pgsub_cli.specs.Storing.{status_of_unopened};

use crate::closing::{close_told, followed_status, run_status};
use crate::fed::{ApplyPlan, FollowPlan, apply_over};
use crate::loaded::follow_loaded;
use crate::opening::Opening;
use pgfeed::{Feed, Folder};
use pgfollow::Clock;
use pgledger::Supposing;
use pgload::InputFault;
use pgloaded::SessionReader;
use pgstore::Store;
use pgsub_cli::files::{Input, Output};
use pgsub_cli::following::tell_unfollowed;
use pgsub_cli::reported::Listener;
use pgsub_cli::storing::tell_unopened;
use pgsub_cli::{LiveIo, run_dump};
use pgsystem::{FeedOpening, Filed};
use sqlite::{Alter, FileFrom, Start};
use sqlite_disk::Disk;
use std::alloc::Global;
use std::io::Write;
use std::time::Clock as Ticks;

/// Prints what an opened store of any kind holds.
fn dump_store<S: Alter + Drop, W: Output + Drop, E: Output>(
    alloc: Global,
    store: Store<S>,
    out: W,
    err: &mut E,
) -> (u8, Store<S>, W)
    ensures ends { (ended : Result Ending RunFault) × (result.0 ≡ status_of ended)
        × (IsHonest S.Store result.1 → (tables : Tables) → HasTables S.Store store tables →
        Dumps W.takes W.failed (lines_of tables) store.position out result.2 ended)
        × Tells E.takes E.failed [] [] ended err.old err.new }
    ensures unchanged { Serves S.Store result.1 → Stays (HasTables S.Store) store result.1 }
    ensures position { result.1.position ≡ store.position }
    ensures crash { IsHonest S.Store result.1 → LeavesNothingNew S.Store store result.1 }
    ensures honest { IsHonest S.Store result.1 → IsHonest S.Store store }
{
    run_dump(alloc, store, out, err)
}

/// Follows a server over the store in files, as `run_follow` does, and keeps a feed of its commits
/// where the plan asks for one. A load that it asks for comes first: from the same reader, to its
/// end and not a byte further, into the store, which is to be new; the reader is told then that
/// sessions begin, the feed is opened at its point, and the first status confirms it. At the end
/// the log goes into the file of the database. Returns the exit status, what is left of the files,
/// the feed, if one was opened, and why the load wasn't taken.
///
/// `F` stands for what the files hold when they are opened. The store that is followed over holds
/// that, or what a load into it has led to (`AfterLoad`), what it holds at the end is as
/// `run_follow` says, and whatever content the files have once it is closed, or after a crash, is
/// one that it could leave: all of it where the files have given back what was written, those of
/// the store and that of open transactions (`IsKept`). So from run to run nothing is lost that was
/// confirmed (`pgrecovery`, law `crashes_lose_nothing_confirmed`). Files that hold no store are
/// left as they were found.
///
/// The status is that of `run_follow`, and where that is 0, of a log that can't be copied: 13, or
/// 14 where memory ran out. Where no store is opened it is that of `tell_unfollowed`, for the fault
/// that opening gave, where no feed is opened that of `tell_unfed`, and where a load isn't taken
/// that of `tell_unloaded`. Standard error gets a line for each, and before it the cause of the
/// store's error, where that is known; of closing none is told.
pub fn follow<
    F: Start,
    O: Opening<F>,
    D: Folder + Supposing + Drop,
    B: FeedOpening<D> + Drop,
    L: Listener + Drop,
    M: Disk + Drop,
    R: SessionReader + Drop,
    W: Write + Drop,
    K: Clock + Drop,
    E: Output + Drop,
>(
    alloc: Global,
    opening: O,
    plan: FollowPlan<B, L, M>,
    io: &mut LiveIo<R, W, K, E>,
) -> (u8, Filed<FileFrom<F>>, Option<Feed<D>>, Option<InputFault>)
    requires readable { io.old.link.read_failed ≡ false }
    requires writable { io.old.link.write_failed ≡ false }
    ensures unopened { IfErr result.1 (λ left. (f : StoreFault) × O.fails opening f
        × (result.0 ≡ status_of_unfollowed f) × (io.new.link ≡ io.old.link) × (result.2 ≡ None)
        × TellsCaused E.takes E.failed (Err (Stream (OfStore f))) io.old.err io.new.err
        × IfSome left (λ conn. HasCleanDisk (connection.state over_files conn) →
        StaysAsFound over_files (image_at F.Start) conn)) }
    ensures unloaded { IfSome result.3 (λ why. IfOk result.1 (λ closing.
        (result.0 ≡ status_of_unloaded why) × (result.2 ≡ None)
        × KeepsLink plan.load io.old.link io.new.link × (io.new.honesty ≡ io.old.honesty)
        × TellsBoth E.takes E.failed (TellsUnloaded E.takes E.failed why)
        (fault_of_closing closing) io.old.err io.new.err
        × RunsInFiles (IsKept over_files plan.spool io.new.honesty) (image_at F.Start)
        (λ opened ended. Unloads (HasTables over_files)
        position_of (Reopens over_files over_files) (Serves over_files) (IsHonest over_files)
        plan.load (R.remaining io.old.link.reader) (R.remaining io.new.link.reader) opened ended
        why) closing)) }
    ensures unfed { result.3 ≡ None → IsUnfed plan.feed result.2 → IfOk result.1 (λ closing.
        (f : FeedFault) × IfSome plan.feed (λ feed. B.fails feed f)
        × (result.0 ≡ status_of_unfed f) × KeepsLink plan.load io.old.link io.new.link
        × (io.new.honesty ≡ io.old.honesty)
        × TellsBoth E.takes E.failed (TellsUnfed E.takes E.failed f) (fault_of_closing closing)
        io.old.err io.new.err
        × RunsInFiles (IsKept over_files plan.spool io.new.honesty) (image_at F.Start)
        (λ opened ended. AfterLoad (HasTables over_files)
        position_of (Reopens over_files over_files) (Serves over_files) (IsHonest over_files)
        plan.load (R.remaining io.old.link.reader) opened (λ rest loaded.
        (rest ≡ R.remaining io.new.link.reader) × (loaded ≡ ended))) closing) }
    ensures ran { result.3 ≡ None → IsRun plan.feed result.2 → IfOk result.1 (λ closing.
        (why : Option FollowFault)
        × TellsBoth E.takes E.failed (TellsCaused E.takes E.failed (ending_of why))
        (fault_of_closing closing) io.old.err io.new.err
        × ((why ≡ Some fault.Read) ↔ (io.new.link.read_failed ≡ true))
        × ((why ≡ Some fault.Write) ↔ (io.new.link.write_failed ≡ true))
        × IfSome why (IsOfFollowingOver (may_fail_over plan.spool))
        × RunsInFiles (IsKept over_files plan.spool io.new.honesty) (image_at F.Start)
        (λ opened ended.
        (result.0 ≡ status_closed status_of_unclosed
        (status_of_follow ended.group.tally.misses.count why) (fault_of_closing closing))
        × AfterLoad (HasTables over_files) position_of (Reopens over_files over_files)
        (Serves over_files) (IsHonest over_files) plan.load
        (R.remaining io.old.link.reader) opened (λ rest loaded.
        FollowsBeside D.File.seen D.File.may_leave D.File.is_clean
        D.is_true D.places D.has D.supposed B.opens over_files L plan.spool rest
        (R.remaining io.new.link.reader) io.new.link.reads (W.contents io.old.link.writer)
        (W.contents io.new.link.writer) plan.limits plan.version why loaded ended
        io.new.honesty plan.feed result.2)) closing) }
{
    match opening.open(alloc) {
        Ok(store) => {
            let (status, store, feed, unloaded) = follow_loaded(alloc, store, plan, io);
            let (fault, closing) = close_told(alloc, store, &mut io.err);
            (followed_status(status, fault), Ok(closing), feed, unloaded)
        }
        Err((refusal, conn)) => {
            let (fault, cause) = (refusal.fault(), refusal.cause());
            let status = tell_unfollowed(alloc, fault, cause, &mut io.err);
            (status, Err(conn), None, None)
        }
    }
}

/// Applies to the store in files what comes, and prints what it holds then, as `run_opened` does,
/// and keeps a feed of its commits where the plan asks for one. At the end the log goes into the
/// file of the database. Returns what `follow` does. What `F` stands for, and what is said of the
/// files, is as there.
///
/// The status is that of `run_opened`, and where that is 0, of a log that can't be copied: 3, or 1
/// where memory ran out. Where no store is opened it is that of `tell_unopened`, for the fault that
/// opening gave, and where no feed is opened that of `tell_unapplied`. Standard error gets a line
/// for each.
pub fn apply<
    F: Start,
    O: Opening<F>,
    D: Folder + Supposing + Drop,
    B: FeedOpening<D> + Drop,
    R: Input + Drop,
    K: Ticks + Drop,
    P: Output + Drop,
    W: Output + Drop,
    E: Output,
>(
    alloc: Global,
    opening: O,
    plan: ApplyPlan<'_, B, R, K, P>,
    out: &mut W,
    err: &mut E,
) -> (u8, Filed<FileFrom<F>>, Option<Feed<D>>)
    ensures unopened { IfErr result.1 (λ left. (f : StoreFault) × O.fails opening f
        × (result.0 ≡ status_of_unopened f) × (out.new ≡ out.old) × (result.2 ≡ None)
        × Tells E.takes E.failed [] [] (Err (Stream (OfStore f))) err.old err.new
        × IfSome left (λ conn. HasCleanDisk (connection.state over_files conn) →
        StaysAsFound over_files (image_at F.Start) conn)) }
    ensures unfed { IsUnfed plan.entry.feed result.2 → IfOk result.1 (λ closing. (f : FeedFault)
        × IfSome plan.entry.feed (λ feed. B.fails feed f)
        × (result.0 ≡ status_of_unapplied f) × (out.new ≡ out.old)
        × TellsBoth E.takes E.failed (TellsUnfed E.takes E.failed f) (fault_of_closing closing)
        err.old err.new
        × RunsInFiles (IsHonest over_files) (image_at F.Start)
        (λ opened ended. ended ≡ opened) closing) }
    ensures ran { IsRun plan.entry.feed result.2 → IfOk result.1 (λ closing.
        (why : Result Ending RunFault)
        × (result.0 ≡ status_closed status_of_unopened (status_of why) (fault_of_closing closing))
        × TellsBoth E.takes E.failed (Tells E.takes E.failed [] [] why)
        (fault_of_closing closing) err.old err.new
        × RunsInFiles (IsHonest over_files) (image_at F.Start)
        (λ opened ended. AppliesBeside D.File.seen D.File.may_leave D.File.is_clean
        D.is_true D.places D.has D.supposed B.opens over_files R.gives
        R.begins R.failed W.takes W.failed plan.entry.limits plan.entry.input why out.old
        out.new opened ended plan.entry.feed result.2) closing) }
{
    match opening.open(alloc) {
        Ok(store) => {
            let (status, store, feed) = apply_over(alloc, store, plan, out, err);
            let (fault, closing) = close_told(alloc, store, err);
            (run_status(status, fault), Ok(closing), feed)
        }
        Err((refusal, conn)) => (tell_unopened(alloc, refusal.fault(), err), Err(conn), None),
    }
}

/// Prints what the store in files holds, as `run_dump` does. At the end the log goes into the file
/// of the database. Returns the exit status, what is left of the files, and the output. What `F`
/// stands for, what is said of the files, and the status is as of `apply`.
pub fn dump<F: Start, O: Opening<F>, W: Output + Drop, E: Output>(
    alloc: Global,
    opening: O,
    out: W,
    err: &mut E,
) -> (u8, Filed<FileFrom<F>>, W)
    ensures unopened { IfErr result.1 (λ left. (f : StoreFault) × O.fails opening f
        × (result.0 ≡ status_of_unopened f) × (result.2 ≡ out)
        × Tells E.takes E.failed [] [] (Err (Stream (OfStore f))) err.old err.new
        × IfSome left (λ conn. HasCleanDisk (connection.state over_files conn) →
        StaysAsFound over_files (image_at F.Start) conn)) }
    ensures ran { IfOk result.1 (λ closing. (why : Result Ending RunFault)
        × (result.0 ≡ status_closed status_of_unopened (status_of why) (fault_of_closing closing))
        × TellsBoth E.takes E.failed (Tells E.takes E.failed [] [] why)
        (fault_of_closing closing) err.old err.new
        × RunsInFiles (IsHonest over_files) (image_at F.Start) (λ opened ended.
        (IsHonest over_files ended → (tables : Tables) → HasTables over_files opened tables →
        Dumps W.takes W.failed (lines_of tables) opened.position out result.2 why)
        × (Serves over_files ended → Stays (HasTables over_files) opened ended)
        × (ended.position ≡ opened.position)
        × (IsHonest over_files ended → LeavesNothingNew over_files opened ended)) closing) }
{
    match opening.open(alloc) {
        Ok(store) => {
            let (status, store, out) = dump_store(alloc, store, out, err);
            let (fault, closing) = close_told(alloc, store, err);
            (run_status(status, fault), Ok(closing), out)
        }
        Err((refusal, conn)) => (tell_unopened(alloc, refusal.fault(), err), Err(conn), out),
    }
}
