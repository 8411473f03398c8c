//! What is found again after a crash, as the contract of a function that does nothing.

ghost use Rattle.pgrecovery.specs.Recovered.{FollowedIsRecovered, LeftSafelyIsRecovered};
ghost use Rattle.pgrecovery.specs.Recovered.{ServedIsRecovered};
ghost use Rattle.pgrecovery.specs.Entries.{EntriesAreTransactions};
ghost use Rattle.pgrecovery.specs.FedLife.{OneFedLife};
ghost use Rattle.pgrecovery.specs.Life.{OneLife};
ghost use Rattle.pgrecovery.specs.LiveLife.{LiveRunsAreRuns};
ghost use Rattle.pgrecovery.specs.ToldLife.{OneToldLife};

use pgfeed::Folder;
use pgledger::{Ledger, Supposing};
use sqlite::Alter;
use sqlite_disk::Disk;

/// Let a subscriber over a store in two files follow sessions of a history, and let the disks give
/// back what was written. Then whatever content a crash leaves of the files, a store that is opened
/// on files with this content holds exactly the rows of all transactions of the history up to its
/// own position. That is no lower than the position before the crash, and every transaction that
/// changes rows and ends by what was confirmed is among them. A new subscriber over that store
/// starts as the next sessions ask it, also where they start as far as what was confirmed.
///
/// It is so after `follow` (`followed`), whatever that returned, and at each status that
/// `follow_live` writes (`live`), also where a failure of a disk has shut the store. The store is
/// opened by `Store::open_files`, or by hand and `Store::adopt`. Where the old store serves, it may
/// be opened as files of any kind (`served`), as by `Store::open_from`.
///
/// PostgreSQL documentation, Logical Replication, Subscription.
pub fn crashes_lose_nothing_confirmed<D: Disk, S: Alter>()
    ensures followed { FollowedIsRecovered D.Disk }
    ensures live { LeftSafelyIsRecovered D.Disk }
    ensures served { ServedIsRecovered D.Disk S.Store }
{}

/// One life of a store in two files. Let there be runs, any number of them: the first over files
/// without a store, each other one over what the one before it left, once it was closed or after a
/// crash at the end of any call. Let each be fed sessions of one history that start at most at what
/// was ever confirmed, and let the disks give back what was written.
///
/// Then in each run the store holds exactly the rows of all transactions of the history up to its
/// position, as it begins and, while it serves, as it ends. Positions never fall. What was
/// confirmed in any run is in every later one.
///
/// PostgreSQL documentation, Logical Replication, Subscription.
pub fn one_life_holds_one_history<D: Disk>()
    ensures life { OneLife D.Disk }
{}

/// One life of a store in two files with a feed in a folder: the same, of runs that open both, of
/// which the first has an empty folder too.
///
/// Then what `one_life_holds_one_history` says is so, whatever becomes of the folder. Let its
/// answers be true as well, and let others remove between two runs any front of ended segments that
/// lies below the position, and nothing else: then the entries that the feed keeps lead, commit by
/// commit, from some tables where it begins to those that the store holds.
///
/// PostgreSQL documentation, Logical Replication, Subscription.
pub fn one_fed_life_holds_one_history<D: Disk, F: Folder + Supposing + Drop>()
    ensures life { OneFedLife D.Disk F.File.seen F.File.may_leave F.File.is_clean F.is_true
        F.places F.has F.supposed }
{}

/// The entries that a ledger gets in a run are the history's transactions. Let a store that had
/// taken nothing be followed with a ledger beside it (`pgledger::Recorded`), as `pgruns::follow`
/// does with a feed, and let what came be sessions of a history. Then of the entries that the
/// ledger keeps those behind the position at which the run began, up to the one where the store is,
/// are the history's transactions that change rows, one by one, each with its end LSN, its final
/// LSN, its xid and time, and with the images of its surviving changes. Entries of commits without
/// changes may stand between them.
///
/// PostgreSQL documentation, Logical Replication Message Formats, Begin, Commit and Stream Commit.
pub fn entries_are_transactions<L: Ledger>()
    ensures told { EntriesAreTransactions L.begins L.keeps L.outlasts L.is_stuck }
{}

/// Which transactions the entries of a feed are over one life: in runs as those of
/// `one_fed_life_holds_one_history`. As each begins, its store has taken nothing; where the store
/// serves as it ends, rows and tally are the history's.
///
/// Then where the store serves as a run ends, the entries that the feed got in it are the history's
/// transactions that change rows and end behind the position at which the run began, up to the
/// store's position: one by one and each once, as `entries_are_transactions` says. They still are
/// as the next run begins there, closed or crashed in between, but for a front that went with
/// segments which others removed.
///
/// That a later run leaves them as they are is said of each call of a ledger alone (`kept`,
/// `appended`). Where the store has shut, nothing is said of what the feed got in the run.
///
/// PostgreSQL documentation, Logical Replication Message Formats, Begin, Commit and Stream Commit.
pub fn one_fed_life_tells_one_history<D: Disk, F: Folder + Supposing + Drop>()
    ensures life { OneToldLife D.Disk F.File.seen F.File.may_leave F.File.is_clean F.is_true
        F.places F.has F.supposed }
{}

/// What follows a server live makes runs of a life: let `follow_live` have followed one over a
/// store in two files with a feed (`pgledger::Recorded`), which may be inside another one, as one
/// that tells a listener, and let it have told its first status. Of sessions that have all that it
/// took, what `one_fed_life_holds_one_history` and `one_fed_life_tells_one_history` ask of a run is
/// so.
///
/// PostgreSQL documentation, Streaming Replication Protocol.
pub fn live_runs_are_runs<D: Disk, F: Folder + Supposing + Drop, C>()
    ensures live { LiveRunsAreRuns D.Disk F.File.seen F.File.may_leave F.File.is_clean F.is_true
        F.places F.has F.supposed C }
{}
