//! Follows a server with the changes of open transactions in memory, or in memory and a file.
//!
//! PostgreSQL documentation, Streaming of Large Transactions for Logical Decoding.

ghost use Rattle.std.specs.Prelude.{◌≡◌, ◌↔◌, true, false, ⊤, IsTrue, Option, Some, IfSome};
ghost use Rattle.pgapply.specs.Value.{Tables};
ghost use Rattle.pgfollow.specs.declared.fault.FollowFault.{FollowFault};
ghost use Rattle.pgfollow.specs.declared.fault.FollowFault.TheVariants as follow;
ghost use Rattle.pgfollow.specs.Live.{IsOfFollowingOver};
ghost use Rattle.pgsub_core.specs.Subscriber.SubscriberValue.{seen};
ghost use Rattle.pgsub_cli.specs.Caused.{TellsCaused};
ghost use Rattle.pgsub_cli.specs.Followed.{subscriber_over};
ghost use Rattle.pgsub_cli.specs.FollowedLive.{FollowsBuffered, FollowsSpooled, ending_of};
ghost use Rattle.pgsub_cli.specs.FollowedLive.{IsReadBack, may_fail_over};
ghost use Rattle.pgsub_cli.specs.FollowStatus.{status_of_follow};

use crate::files::Output;
use crate::following::{follow_with, run_follow};
use crate::limits::{Limits, max_frame};
use crate::live_io::LiveIo;
use pgapply::ReplicaStore;
use pgfollow::Clock;
use pgorder::Version;
use pgspooled::{Honesty, LiveSpools, Spooled};
use pgsub_core::Subscriber;
use sqlite_disk::Disk;
use std::alloc::Global;
use std::io::{Read, Write};
use std::marker::Model;

/// A file for the changes of open transactions that memory doesn't hold. Nothing is read of it that
/// wasn't written since.
#[derive(Drop)]
pub struct SpoolFile<D: Disk + Drop> {
    disk: D,
    max_in_memory: u64,
}

impl<D: Disk + Drop> Model for SpoolFile<D> {
    ghost use Rattle.std.specs.Prelude.{ℕ, IsTrue};

    ghost Value = { ℕ };

    ghost view = { λ s. s.max_in_memory };

    ghost invariant = { λ s. IsTrue (D.is_usable s.disk) };
}

impl<D: Disk + Drop> SpoolFile<D> {
    /// So many bytes of the changes stay in memory, and the others go to this disk. None where a
    /// sync of it has failed.
    pub fn over(disk: D, max_in_memory: u64) -> Option<SpoolFile<D>>
        ensures { IfSome result (λ bytes. bytes ≡ max_in_memory) }
    {
        if !disk.may_be_used() {
            return None;
        }
        Some(SpoolFile {
            disk,
            max_in_memory,
        })
    }
}

/// A subscriber over a store, whose spools go on in this file, within these limits.
fn subscriber_spooled<D: Disk + Drop, C: ReplicaStore + Drop>(
    alloc: Global,
    store: C,
    file: SpoolFile<D>,
    limits: Limits,
    version: Version,
) -> Subscriber<LiveSpools<D>, Spooled<C>>
    ensures store { result.applied.store.store ≡ store }
    ensures honest { result.applied.store.honesty.is_true ≡ true }
    ensures state { (tables : Tables) → seen (λ s. C.place s.store) result tables
        ≡ subscriber_over limits tables (C.place store) version }
{
    let SpoolFile {
        disk,
        max_in_memory,
    } = file;
    let spools = LiveSpools::in_file(alloc, disk, limits.max_buffered, max_in_memory);
    let store = Spooled::new(store);
    Subscriber::new(alloc, store, spools, version, max_frame(limits))
}

/// Follows a server over an opened store, as `run_follow` does, with spools that go on in this
/// file. Returns the exit status, the store, and whether what was read of the file is what was
/// written to it.
fn run_spooled<
    D: Disk + Drop,
    R: Read + Drop,
    W: Write + Drop,
    K: Clock + Drop,
    C: ReplicaStore + Drop,
    E: Output + Drop,
>(
    alloc: Global,
    store: C,
    file: SpoolFile<D>,
    limits: Limits,
    version: Version,
    io: &mut LiveIo<R, W, K, E>,
) -> (u8, C, Honesty)
    requires readable { io.old.link.read_failed ≡ false }
    requires writable { io.old.link.write_failed ≡ false }
    ensures ends { (ended : Option FollowFault)
        × (result.0 ≡ status_of_follow (C.tally result.1).misses.count ended)
        × TellsCaused E.takes E.failed (ending_of ended) io.old.err io.new.err
        × ((ended ≡ Some follow.Read) ↔ (io.new.link.read_failed ≡ true))
        × ((ended ≡ Some follow.Write) ↔ (io.new.link.write_failed ≡ true))
        × IfSome ended (IsOfFollowingOver ⊤)
        × (IsTrue result.2.is_true → C.is_honest result.1 → C.serves store →
        FollowsSpooled C.holds C.place C.reopens C.serves C.tally
        (R.remaining io.old.link.reader) (R.remaining io.new.link.reader) io.new.link.reads
        (W.contents io.old.link.writer) (W.contents io.new.link.writer) limits version store
        result.1 result.2 ended) }
    ensures honest { IsTrue result.2.is_true → C.is_honest result.1 → C.is_honest store }
{
    let subscriber = subscriber_spooled(alloc, store, file, limits, version);
    let (status, spooled) = follow_with(
        alloc,
        subscriber,
        &mut io.link,
        &mut io.clock,
        &mut io.err,
    );
    let (store, honesty) = spooled.into_parts();
    (status, store, honesty)
}

/// Follows a server over an opened store, as `run_follow` does, with the changes of open
/// transactions in memory, or, where a file is given, in memory and that file. Returns the exit
/// status, and the store.
///
/// Where writing or reading the file fails, that is a fault of the stream, status 13, told before
/// anything of a commit is settled.
pub fn run_buffered<
    D: Disk + Drop,
    R: Read + Drop,
    W: Write + Drop,
    K: Clock + Drop,
    C: ReplicaStore + Drop,
    E: Output + Drop,
>(
    alloc: Global,
    store: C,
    spool: Option<SpoolFile<D>>,
    limits: Limits,
    version: Version,
    io: &mut LiveIo<R, W, K, E>,
) -> (u8, C)
    requires readable { io.old.link.read_failed ≡ false }
    requires writable { io.old.link.write_failed ≡ false }
    ensures ends { (ended : Option FollowFault)
        × (result.0 ≡ status_of_follow (C.tally result.1).misses.count ended)
        × TellsCaused E.takes E.failed (ending_of ended) io.old.err io.new.err
        × ((ended ≡ Some follow.Read) ↔ (io.new.link.read_failed ≡ true))
        × ((ended ≡ Some follow.Write) ↔ (io.new.link.write_failed ≡ true))
        × IfSome ended (IsOfFollowingOver (may_fail_over spool))
        × (IsReadBack spool io.new.honesty → C.is_honest result.1 → C.serves store →
        FollowsBuffered C.holds C.place C.reopens C.serves C.tally spool
        (R.remaining io.old.link.reader) (R.remaining io.new.link.reader) io.new.link.reads
        (W.contents io.old.link.writer) (W.contents io.new.link.writer) limits version store
        result.1 io.new.honesty ended) }
    ensures honest { IsReadBack spool io.new.honesty → C.is_honest result.1 → C.is_honest store }
{
    match spool {
        None => run_follow(
            alloc,
            store,
            limits,
            version,
            &mut io.link,
            &mut io.clock,
            &mut io.err,
        ),
        Some(file) => {
            let (status, store, honesty) = run_spooled(alloc, store, file, limits, version, io);
            io.honesty = honesty;
            (status, store)
        }
    }
}
