//! Following sessions over a store in two files.
//!
//! PostgreSQL documentation, Logical Replication, Subscription.

ghost use Rattle.std.specs.Prelude.{OnOk};
ghost use Rattle.sqlite.specs.Files.{over_files};
ghost use Rattle.pgstore.specs.Reopened.{Reopens};
ghost use Rattle.pgstore.specs.StoreValue.{IsHonest, Serves};
ghost use Rattle.pgsub_core.specs.Subscriber.Crashing.{LeavesHistory};
ghost use Rattle.pgsub_core.specs.Subscriber.Subscribed.{bytes_of};
ghost use Rattle.pgsub_core.specs.Subscriber.Handled.{fault_in};
ghost use Rattle.pgsub_core.specs.Subscriber.Following.{FollowsSessions};
ghost use Rattle.pgrecovery.specs.Recovered.{RecoversHistory, holds_tables, position_of};

use pgstore::Store;
use pgsub_core::{Fault, Loads, Session, Subscriber, follow};
use sqlite::{Alter, FileStore};
use sqlite_disk::Disk;

/// Follows sessions over a store of any kind, since the proof that one over given disks is a store
/// gets too large.
fn follow_over<P: Loads<Store<S>> + Drop, S: Alter + Drop>(
    subscriber: &mut Subscriber<P, Store<S>>,
    sessions: &[Session],
    now: i64,
) -> Result<(), Fault>
    ensures followed { Serves S.Store subscriber.new.applied.store →
        FollowsSessions (holds_tables S.Store) position_of now subscriber.old
        (bytes_of sessions.now) subscriber.new (fault_in result) }
    ensures still_serves { IsHonest S.Store subscriber.new.applied.store →
        Serves S.Store subscriber.old.applied.store →
        OnOk result (Serves S.Store subscriber.new.applied.store) }
    ensures left { IsHonest S.Store subscriber.new.applied.store →
        Serves S.Store subscriber.old.applied.store →
        LeavesHistory (holds_tables S.Store) position_of (Reopens S.Store S.Store) subscriber.old
        (bytes_of sessions.now) subscriber.new }
{
    follow(subscriber, sessions, now)
}

/// Follows sessions as `pgsub_core::follow` does, over a store in two files.
///
/// Of sessions of a history, whatever is returned, the rows are the history's up to the position,
/// all that is confirmed is stored, and it is known what was handled and why it ended (`followed`).
///
/// Let the store serve before, and let the disks give back what was written. Then a store that is
/// opened on what a crash leaves of the files holds exactly the history's rows up to its own
/// position, which is no lower, with all that was confirmed (`recovered`, law
/// `crashes_lose_nothing_confirmed`).
///
/// # Errors
///
/// Those of `pgsub_core::follow`.
pub fn follow_in_files<D: Disk + Drop, P: Loads<Store<FileStore<D>>> + Drop>(
    subscriber: &mut Subscriber<P, Store<FileStore<D>>>,
    sessions: &[Session],
    now: i64,
) -> Result<(), Fault>
    ensures followed { Serves over_files subscriber.new.applied.store →
        FollowsSessions (holds_tables over_files) position_of now subscriber.old
        (bytes_of sessions.now) subscriber.new (fault_in result) }
    ensures still_serves { IsHonest over_files subscriber.new.applied.store →
        Serves over_files subscriber.old.applied.store →
        OnOk result (Serves over_files subscriber.new.applied.store) }
    ensures recovered { IsHonest over_files subscriber.new.applied.store →
        Serves over_files subscriber.old.applied.store →
        RecoversHistory subscriber.old (bytes_of sessions.now) subscriber.new }
{
    follow_over(subscriber, sessions, now)
}
