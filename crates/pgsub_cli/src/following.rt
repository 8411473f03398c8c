//! Follows a server over a store that outlasts the run, wherever that keeps what it holds.

ghost use Rattle.std.specs.Prelude.{◌≡◌, ◌≤◌, ◌↔◌, [], true, false, Option, Some, Err, IfSome};
ghost use Rattle.std.specs.Prelude.{option_map};
ghost use Rattle.pgfollow.specs.declared.fault.FollowFault.{FollowFault};
ghost use Rattle.pgfollow.specs.declared.fault.FollowFault.TheVariants as follow;
ghost use Rattle.pgfollow.specs.Live.{IsOfFollowing, IsOfFollowingOver, ended_by};
ghost use Rattle.pgfollow.specs.Told.{FollowsLive};
ghost use Rattle.pgsub_core.specs.declared.fault.Fault.TheVariants.{Store};
ghost use Rattle.pgsub_core.specs.Subscriber.SubscriberValue.{SubscriberValue};
ghost use Rattle.pgsub_cli.specs.declared.fault.RunFault.TheVariants.{Stream};
ghost use Rattle.pgsub_cli.specs.FollowStatus.{status_of_fault, status_of_follow, status_of_store};
ghost use Rattle.pgsub_cli.specs.FollowStatus.{status_of_unfollowed};
ghost use Rattle.pgsub_cli.specs.FollowedLive.{FollowsOver, ending_of};
ghost use Rattle.pgsub_cli.specs.Caused.{TellsBecause, TellsCause, TellsCaused};

use crate::fault::{Ending, RunFault};
use crate::files::Output;
use crate::limits::Limits;
use crate::storing::subscriber_over;
use crate::telling::tell;
use pgapply::{ReplicaStore, StoreFault};
use pgfollow::{Clock, FollowFault, Link, follow_live};
use pgorder::Version;
use pgspool::SpoolFault;
use pgsub_core::{Fault, Loads, Subscriber};
use pgwire::WireFault;
use std::alloc::Global;
use std::io::{Read, Write};

/// How a run ends whose following gives this.
fn ending(followed: Result<(), FollowFault>) -> Result<Ending, RunFault>
    ensures { result ≡ ending_of (ended_by followed) }
{
    match followed {
        Ok(()) => Ok(Ending::Done),
        Err(FollowFault::Read) => Err(RunFault::Stream(Fault::Read)),
        Err(FollowFault::Write) => Err(RunFault::CannotWrite),
        Err(FollowFault::Stream(fault)) => Err(RunFault::Stream(fault)),
    }
}

/// The exit status of a fault of a store that is open.
fn store_status(fault: StoreFault) -> u8
    ensures { result ≡ status_of_store fault }
{
    match fault {
        StoreFault::Refused | StoreFault::NotAStore => 13,
        StoreFault::Memory => 14,
        _ => 1,
    }
}

/// The exit status of a fault of what is followed.
pub fn fault_status(fault: Fault) -> u8
    ensures { result ≡ status_of_fault fault }
{
    match fault {
        Fault::Spool(SpoolFault::SpoolFull | SpoolFault::TooManyOpen) => 10,
        Fault::Wire(WireFault::TooLarge) => 11,
        Fault::Spool(SpoolFault::NotWritten | SpoolFault::NoRoom | SpoolFault::NotRead) => 13,
        Fault::Store(fault) => store_status(fault),
        Fault::Memory | Fault::Wire(WireFault::Memory) | Fault::Spool(SpoolFault::Memory) => 14,
        Fault::Read => 15,
        _ => 1,
    }
}

/// The exit status of following that ends so, where so many changes found no row.
fn follow_status(followed: Result<(), FollowFault>, missed: u64) -> u8
    ensures { result ≡ status_of_follow missed (ended_by followed) }
{
    match followed {
        Ok(()) if missed > 0 => 16,
        Ok(()) => 0,
        Err(FollowFault::Read | FollowFault::Write) => 15,
        Err(FollowFault::Stream(fault)) => fault_status(fault),
    }
}

/// Tells why a server can't be followed over a store that couldn't be opened, as `tell_unopened`
/// does, and before it the cause, where it is known. Returns the exit status: 3 where the file is
/// no store, 14 where memory ran out and else 12.
pub fn tell_unfollowed<E: Output>(
    alloc: Global,
    fault: StoreFault,
    cause: Option<&str>,
    err: &mut E,
) -> u8
    ensures status { result ≡ status_of_unfollowed fault }
    ensures tells { TellsBecause E.takes E.failed (option_map (λ text. text.now) cause.entry)
        (Err (Stream (Store fault))) err.old err.new }
{
    tell_because(alloc, Fault::Store(fault), cause, err);
    match fault {
        StoreFault::NotAStore => 3,
        StoreFault::Memory => 14,
        _ => 12,
    }
}

/// Tells of a fault, and before it the cause of a store's, where it is known.
pub fn tell_because<E: Output>(alloc: Global, fault: Fault, cause: Option<&str>, err: &mut E)
    ensures { TellsBecause E.takes E.failed (option_map (λ text. text.now) cause.entry)
        (Err (Stream fault)) err.old err.new }
{
    let stopped = Err(RunFault::Stream(fault));
    tell_cause(alloc, stopped, cause, err);
    tell(alloc, stopped, "", "", err);
}

/// Writes the line of why a store failed, where that is known. Where the text isn't one line, or
/// there is no memory for it, nothing is written.
fn tell_cause<E: Output>(
    alloc: Global,
    ended: Result<Ending, RunFault>,
    cause: Option<&str>,
    err: &mut E,
)
    ensures { TellsCause E.takes E.failed ended (option_map (λ text. text.now) cause.entry)
        err.old err.new }
{
    let Err(RunFault::Stream(Fault::Store(StoreFault::Refused))) = ended else {
        return;
    };
    let Some(cause) = cause else {
        return;
    };
    if cause.as_bytes().contains(&b'\n') {
        return;
    }
    if let Ok(line) = format!(in alloc; "pgsub: {cause}\n") {
        let _ = err.write_lines(line.as_str());
    }
}

/// Follows a server with a subscriber, to the end of its bytes. Returns the exit status, as
/// `run_follow` does, and the store.
pub(crate) fn follow_with<
    R: Read + Drop,
    W: Write + Drop,
    K: Clock,
    P: Loads<C> + Drop,
    C: ReplicaStore + Drop,
    E: Output,
>(
    alloc: Global,
    mut subscriber: Subscriber<P, C>,
    link: &mut Link<R, W>,
    clock: &mut K,
    err: &mut E,
) -> (u8, C)
    requires readable { link.old.read_failed ≡ false }
    requires writable { link.old.write_failed ≡ false }
    ensures status { result.0 ≤ 16 }
    ensures ends { (ended : Option FollowFault)
        × (result.0 ≡ status_of_follow (C.tally result.1).misses.count ended)
        × TellsCaused E.takes E.failed (ending_of ended) err.old err.new
        × ((ended ≡ Some follow.Read) ↔ (link.new.read_failed ≡ true))
        × ((ended ≡ Some follow.Write) ↔ (link.new.write_failed ≡ true))
        × IfSome ended (IsOfFollowingOver P.may_fail)
        × (C.is_honest result.1 → C.serves subscriber.applied.store →
        (new : SubscriberValue C) × (new.applied.store ≡ result.1)
        × FollowsLive C.holds C.place C.reopens C.serves C.tally
        (R.remaining link.old.reader) (R.remaining link.new.reader) link.new.reads
        (W.contents link.old.writer) (W.contents link.new.writer) subscriber new ended) }
    ensures honest { C.is_honest result.1 → C.is_honest subscriber.applied.store }
{
    let followed = follow_live(alloc, link, clock, &mut subscriber);
    let store = subscriber.into_store();
    let ended = ending(followed);
    tell_cause(alloc, ended, store.cause(), err);
    tell(alloc, ended, "", "", err);
    (follow_status(followed, store.misses().count), store)
}

/// Follows a server over an opened store, to the end of its bytes, within these limits. Returns the
/// exit status, and the store. The status is 0 where the bytes ended, and 16 where changes found no
/// row then; 1 where the stream is rejected, 10 where `max_buffered` is too low and 11 where
/// `max_frame` is, 13 where the store failed, 14 where memory ran out and 15 where a read or a
/// write failed. Standard error gets the line of the fault, and before it, where the store failed
/// and knows why, a line of that: `pgsub: the disk is full`. No other run writes one: what `apply`
/// and `dump` write to standard error are lines of a fixed list.
///
/// What was read, fed and written, that all that is confirmed is stored, and which changes find no
/// row, is as `follow_live` says.
pub fn run_follow<R: Read + Drop, W: Write + Drop, K: Clock, C: ReplicaStore + Drop, E: Output>(
    alloc: Global,
    store: C,
    limits: Limits,
    version: Version,
    link: &mut Link<R, W>,
    clock: &mut K,
    err: &mut E,
) -> (u8, C)
    requires readable { link.old.read_failed ≡ false }
    requires writable { link.old.write_failed ≡ false }
    ensures status { result.0 ≤ 16 }
    ensures ends { (ended : Option FollowFault)
        × (result.0 ≡ status_of_follow (C.tally result.1).misses.count ended)
        × TellsCaused E.takes E.failed (ending_of ended) err.old err.new
        × ((ended ≡ Some follow.Read) ↔ (link.new.read_failed ≡ true))
        × ((ended ≡ Some follow.Write) ↔ (link.new.write_failed ≡ true))
        × IfSome ended IsOfFollowing
        × (C.is_honest result.1 → C.serves store →
        FollowsOver C.holds C.place C.reopens C.serves C.tally
        (R.remaining link.old.reader) (R.remaining link.new.reader) link.new.reads
        (W.contents link.old.writer) (W.contents link.new.writer) limits version store result.1
        ended) }
    ensures honest { C.is_honest result.1 → C.is_honest store }
{
    let subscriber = subscriber_over(alloc, store, limits, version);
    follow_with(alloc, subscriber, link, clock, err)
}
