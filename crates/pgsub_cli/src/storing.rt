//! Runs a task over a store that outlasts it, wherever that keeps what it holds.

ghost use Rattle.std.specs.Prelude.{◌≡◌, ◌≤◌, [], Option, Result, Err, IfOk, IfErr};
ghost use Rattle.pgapply.specs.Value.{Tables};
ghost use Rattle.pgsub_core.specs.Subscriber.Handled.{fault_in};
ghost use Rattle.pgsub_core.specs.Subscriber.SubscriberValue.{seen};
ghost use Rattle.pgsub_cli.specs.declared.fault.Ending.{Ending};
ghost use Rattle.pgsub_cli.specs.declared.fault.RunFault.{RunFault};
ghost use Rattle.pgsub_cli.specs.declared.fault.RunFault.TheVariants.{Stream};
ghost use Rattle.pgsub_cli.specs.Followed.{subscriber_over};
ghost use Rattle.pgsub_cli.specs.Recorded.{ComesOf, ComesNot};
ghost use Rattle.pgsub_cli.specs.Runs.{Tells, left_path, right_path, status_of};
ghost use Rattle.pgsub_cli.specs.StoreAfter.{FeedsIncoming, StandsFed, LeavesFronts};
ghost use Rattle.pgsub_cli.specs.StoreAfter.{LeavesIncomingHistory, HoldsAfter, HoldsOver};
ghost use Rattle.pgsub_cli.specs.StoreAfter.{MayBeLeft, LosesNothing};
ghost use Rattle.pgsub_cli.specs.Storing.{PrintsOver, status_of_unopened};
ghost use Rattle.pgsub_core.specs.declared.fault.Fault.TheVariants.{Store};

use crate::dumping::write_held;
use crate::fault::{Ending, RunFault};
use crate::files::{Input, Output, Unheard};
use crate::limits::{CLOCK, Limits, max_frame};
use crate::recorded::read_sessions;
use crate::telling::{left_path, right_path, status, tell};
use core::mem::replace_with;
use pgapply::{ReplicaStore, StoreFault};
use pgcommand::Task;
use pgorder::Version;
use pgspool::ByteSpools;
use pgsub_core::{Fault, Loads, Session, Side, Subscriber, fed_sessions_are_followed, follow};
use std::alloc::Global;

/// What is applied to a store.
#[derive(Drop)]
pub enum Incoming<R: Drop> {
    /// The sessions of a recording, which was read whole.
    Sessions(Vec<Session>),
    /// The bytes of a file, as one session, as they are read.
    Raw(R),
}

/// What comes of a file: with `raw` its bytes, and else the sessions of the recording in it, of
/// which all is read.
pub fn read_input<R: Input + Drop>(
    alloc: Global,
    raw: bool,
    file: Option<R>,
) -> Result<Incoming<R>, RunFault>
    ensures comes { IfOk result (ComesOf R.gives R.failed raw file) }
    ensures unread { IfErr result (ComesNot R.gives R.failed raw file) }
{
    if raw {
        return match file {
            Some(file) => Ok(Incoming::Raw(file)),
            None => Err(RunFault::CannotRead(Side::Left)),
        };
    }
    let sessions = read_sessions(alloc, Side::Left, file)?;
    Ok(Incoming::Sessions(sessions))
}

/// Feeds a subscriber what comes.
fn feed_incoming<R: Input + Drop, P: Loads<C> + Drop, C: ReplicaStore + Drop>(
    subscriber: &mut Subscriber<P, C>,
    incoming: Incoming<R>,
) -> Result<(), Fault>
    ensures fed { C.serves subscriber.new.applied.store →
        FeedsIncoming R.gives R.begins R.failed C.holds C.place incoming subscriber.old
        subscriber.new (fault_in result) }
    ensures stands { C.is_honest subscriber.new.applied.store →
        C.serves subscriber.old.applied.store → StandsFed C.place
        (FeedsIncoming R.gives R.begins R.failed C.holds C.place incoming subscriber.old)
        subscriber.new }
    ensures left { C.is_honest subscriber.new.applied.store →
        LeavesFronts R.gives R.begins R.failed C.holds C.place C.reopens C.serves incoming
        subscriber.old subscriber.old.applied.store subscriber.new.applied.store }
    ensures crash { C.is_honest subscriber.new.applied.store →
        C.serves subscriber.old.applied.store →
        LeavesIncomingHistory R.gives R.begins R.failed C.holds C.place C.reopens incoming
        subscriber.old subscriber.new }
    ensures honest { C.is_honest subscriber.new.applied.store →
        C.is_honest subscriber.old.applied.store }
{
    // its position tells what a crash leaves at the start
    let _start = subscriber.position();
    match incoming {
        Incoming::Sessions(sessions) => follow(subscriber, sessions.as_slice(), CLOCK),
        Incoming::Raw(file) => file.feed_to(subscriber, Unheard),
    }
}

/// A subscriber over a store, with the program's spools, within these limits.
pub fn subscriber_over<C: ReplicaStore + Drop>(
    alloc: Global,
    store: C,
    limits: Limits,
    version: Version,
) -> Subscriber<ByteSpools, C>
    ensures store { result.applied.store ≡ store }
    ensures state { (tables : Tables) → seen C.place result tables
        ≡ subscriber_over limits tables (C.place store) version }
{
    let spools = ByteSpools::new(alloc, limits.max_buffered);
    Subscriber::new(alloc, store, spools, version, max_frame(limits))
}

/// Feeds what comes, if anything does, to a subscriber over a store. Returns the fault that stopped
/// it, and the store.
fn feed_over<R: Input + Drop, C: ReplicaStore + Drop>(
    alloc: Global,
    store: C,
    limits: Limits,
    input: Option<(Version, Incoming<R>)>,
) -> (Option<Fault>, C)
    ensures held { C.serves result.1 →
        HoldsOver R.gives R.begins R.failed C.holds C.place limits input store result.1 result.0 }
    ensures left { C.is_honest result.1 →
        MayBeLeft R.gives R.begins R.failed C.holds C.place C.reopens C.serves limits input
        store result.1 }
    ensures crash { C.is_honest result.1 → C.serves store →
        LosesNothing R.gives R.begins R.failed C.holds C.place C.reopens limits input store
        result.1 }
    ensures honest { C.is_honest result.1 → C.is_honest store }
{
    fed_sessions_are_followed();
    let Some((version, incoming)) = input else {
        return (None, store);
    };
    let mut subscriber = subscriber_over(alloc, store, limits, version);
    let stopped = feed_incoming(&mut subscriber, incoming).err();
    (stopped, subscriber.into_store())
}

/// A store, and what is applied to it, if anything is.
#[derive(Drop)]
pub struct ToApply<R: Input + Drop, C: ReplicaStore + Drop> {
    /// Where memory is taken.
    pub alloc: Global,
    /// The store.
    pub store: C,
    /// The limits of a subscriber over it.
    pub limits: Limits,
    /// What is applied, by which version of the protocol.
    pub input: Option<(Version, Incoming<R>)>,
}

/// Applies to a store what comes, if anything does, and prints what it holds then, whatever stopped
/// it. Returns the output, how that ended, and the store.
pub fn apply_over<R: Input + Drop, C: ReplicaStore + Drop, W: Output + Drop>(
    out: W,
    given: ToApply<R, C>,
) -> (W, (Result<Ending, RunFault>, C))
    ensures prints { PrintsOver R.gives R.begins R.failed C.holds C.place C.is_honest W.takes
        W.failed given.limits given.input given.store result.1.1 out result.0 result.1.0 }
    ensures kept { C.serves result.1.1 → HoldsAfter R.gives R.begins R.failed C.holds C.place
        given.limits given.input given.store result.1.1 }
    ensures left { C.is_honest result.1.1 → MayBeLeft R.gives R.begins R.failed C.holds C.place
        C.reopens C.serves given.limits given.input given.store result.1.1 }
    ensures crash { C.is_honest result.1.1 → C.serves given.store → LosesNothing R.gives R.begins
        R.failed C.holds C.place C.reopens given.limits given.input given.store result.1.1 }
    ensures honest { C.is_honest result.1.1 → C.is_honest given.store }
{
    let ToApply {
        alloc,
        store,
        limits,
        input,
    } = given;
    let (stopped, mut store) = feed_over(alloc, store, limits, input);
    let (ended, out) = write_held(alloc, &mut store, stopped, out);
    (out, (ended, store))
}

/// Tells why a task was stopped before it opened its store. Returns the exit status.
pub fn tell_stopped<E: Output>(alloc: Global, task: &Task, fault: RunFault, err: &mut E) -> u8
    ensures status { result ≡ status_of (Err fault) }
    ensures tells { Tells E.takes E.failed (left_path task.now) (right_path task.now)
        (Err fault) err.old err.new }
{
    let ended = Err(fault);
    tell(alloc, ended, left_path(task), right_path(task), err);
    status(ended)
}

/// Tells why a store couldn't be opened: `pgsub: store 8 Refused`, `pgsub: store 10 NotAStore` or
/// `pgsub: memory`. Returns the exit status, 1 where memory ran out and else 3.
pub fn tell_unopened<E: Output>(alloc: Global, fault: StoreFault, err: &mut E) -> u8
    ensures status { result ≡ status_of_unopened fault }
    ensures tells { Tells E.takes E.failed [] [] (Err (Stream (Store fault))) err.old err.new }
{
    let stopped = RunFault::Stream(Fault::Store(fault));
    tell(alloc, Err(stopped), "", "", err);
    match fault {
        StoreFault::Memory => 1,
        _ => 3,
    }
}

/// Runs a task over an opened store: applies to it what comes of a recording or a file, where that
/// is given, and prints the rows and the position that it holds then. What is applied is within
/// these limits. Returns the exit status, as `run` does, and the store.
///
/// There is a way in which it ends, with this status: what is printed are the lines of where the
/// bytes lead from what the store had, also where a fault stopped them, and that is what the store
/// has then. With nothing to apply nothing changes. Standard error gets the line of the fault.
/// The lines are printed as the rows are read, with the memory of one row and some lines. Where the
/// rows can't be read, memory runs out or a write fails, some front of them is printed, or nothing.
///
/// Where memory runs out or the lines can't be written, too, the store holds what some front of the
/// bytes leads to, while it serves (`kept`). Whatever a crash at the end may leave of it could be
/// left before, or has what some front of the bytes leads to (`left`). Where they are sessions of a
/// history, that is exactly the history's rows up to a position no lower than the store's, with
/// every transaction that is confirmed (`crash`). That holds where the store has shut, too.
pub fn run_within<R: Input + Drop, C: ReplicaStore + Drop, W: Output + Drop, E: Output>(
    alloc: Global,
    store: C,
    limits: Limits,
    input: Option<(Version, Incoming<R>)>,
    out: &mut W,
    err: &mut E,
) -> (u8, C)
    ensures status { result.0 ≤ 4 }
    ensures ends { (ended : Result Ending RunFault) × (result.0 ≡ status_of ended)
        × PrintsOver R.gives R.begins R.failed C.holds C.place C.is_honest W.takes W.failed limits
        input store result.1 out.old out.new ended
        × Tells E.takes E.failed [] [] ended err.old err.new }
    ensures kept { C.serves result.1 →
        HoldsAfter R.gives R.begins R.failed C.holds C.place limits input store result.1 }
    ensures left { C.is_honest result.1 →
        MayBeLeft R.gives R.begins R.failed C.holds C.place C.reopens C.serves limits input
        store result.1 }
    ensures crash { C.is_honest result.1 → C.serves store →
        LosesNothing R.gives R.begins R.failed C.holds C.place C.reopens limits input store
        result.1 }
    ensures honest { C.is_honest result.1 → C.is_honest store }
{
    let given = ToApply {
        alloc,
        store,
        limits,
        input,
    };
    let (ended, store) = replace_with(out, given, apply_over);
    tell(alloc, ended, "", "", err);
    (status(ended), store)
}

/// `run_within`, within the limits of a command line that names none.
pub fn run_store<R: Input + Drop, C: ReplicaStore + Drop, W: Output + Drop, E: Output>(
    alloc: Global,
    store: C,
    input: Option<(Version, Incoming<R>)>,
    out: &mut W,
    err: &mut E,
) -> (u8, C)
    ensures status { result.0 ≤ 4 }
    ensures ends { (ended : Result Ending RunFault) × (result.0 ≡ status_of ended)
        × PrintsOver R.gives R.begins R.failed C.holds C.place C.is_honest W.takes W.failed
        Limits.DEFAULT input store result.1 out.old out.new ended
        × Tells E.takes E.failed [] [] ended err.old err.new }
    ensures kept { C.serves result.1 →
        HoldsAfter R.gives R.begins R.failed C.holds C.place Limits.DEFAULT input store result.1 }
    ensures left { C.is_honest result.1 →
        MayBeLeft R.gives R.begins R.failed C.holds C.place C.reopens C.serves Limits.DEFAULT
        input store result.1 }
    ensures crash { C.is_honest result.1 → C.serves store →
        LosesNothing R.gives R.begins R.failed C.holds C.place C.reopens Limits.DEFAULT input
        store result.1 }
    ensures honest { C.is_honest result.1 → C.is_honest store }
{
    run_within(alloc, store, Limits::DEFAULT, input, out, err)
}
