//! The program's store in memory. No other module knows how rows are stored there.

ghost use Rattle.std.specs.Prelude.{◌≡◌, IfOk, IfErr, string_bytes};
ghost use Rattle.pgstore.specs.StoreValue.{HasTables, IsHonest, Serves, StoreValue};
ghost use Rattle.pgsub_core.specs.Machine.Faults.{IsReadFault};
ghost use Rattle.pgsub_core.specs.Subscriber.Crashing.{StandsAsFed};
ghost use Rattle.pgsub_core.specs.Subscriber.Following.{FeedsSessions};
ghost use Rattle.pgsub_core.specs.Subscriber.Subscribed.{bytes_of};
ghost use Rattle.pgsub_cli.specs.DumpText.{resumed_of};
ghost use Rattle.pgsub_cli.specs.Dumped.{PrintsHeld};
ghost use Rattle.pgsub_cli.specs.Limits.{clock};
ghost use Rattle.pgsub_cli.specs.Runs.{PrintsApplied, PrintsNew, PrintsResumed};
ghost use Rattle.pgtasks.specs.Stores.{IsEmpty};

use core::mem::replace_with;
use pgapply::ReplicaStore;
use pgorder::Version;
use pgstore::{Store, stores_on_memory_disks_are_honest};
use pgsub_cli::dump::resume_text;
use pgsub_cli::fault::{Ending, RunFault};
use pgsub_cli::files::{Input, Output, Unheard};
use pgsub_cli::limits::{CLOCK, Limits};
use pgsub_cli::printed::Printed;
use pgsub_cli::reported::{Listener, Reported};
use pgsub_cli::storing::{Incoming, ToApply, apply_over, subscriber_over};
use pgsub_core::{Fault, Loads, Session, Subscriber, fed_sessions_are_followed, follow};
use sqlite::Alter;
use std::alloc::{AllocError, Global};

/// What is done with an empty store, which ends with that.
pub(crate) trait Job {
    /// What comes of it.
    type Outcome;

    /// That it may end so.
    ghost ends: { Self → Self.Outcome → Type 0 };

    /// Does it with a store of any kind.
    fn run<C: ReplicaStore + Drop>(self, alloc: Global, store: C) -> Self::Outcome
        ensures { ((s : C) → C.is_honest s) → IsEmpty C.serves C.holds C.place store →
            ends self result };
}

/// Does a job with a store of any kind, since the proof that one over given disks is a store gets
/// too large.
fn run_job<S: Alter + Drop, J: Job + Drop>(alloc: Global, store: Store<S>, job: J) -> J::Outcome
    ensures { ((s : StoreValue S) → IsHonest S.Store s) →
        IsEmpty (Serves S.Store) (HasTables S.Store) (λ s. s.position) store → J.ends job result }
{
    job.run(alloc, store)
}

/// Does a job with an empty store in memory, at position 0/0, which ends with that. What is done is
/// proved of any store, so that what a store over disks in memory is need be proved here alone.
///
/// It fails where there is no memory for a store, and gives back the job.
fn try_in_new_store<J: Job + Drop>(alloc: Global, job: J) -> Result<J::Outcome, (Fault, J)>
    ensures ends { IfOk result (J.ends job) }
    ensures fault { IfErr result (λ e. IsReadFault e.0 × (e.1 ≡ job)) }
{
    stores_on_memory_disks_are_honest();
    match Store::on_memory_disks(alloc) {
        Ok(store) => Ok(run_job(alloc, store, job)),
        Err(fault) => Err((Fault::from(fault), job)),
    }
}

/// The same, without the job.
pub(crate) fn in_new_store<J: Job + Drop>(alloc: Global, job: J) -> Result<J::Outcome, Fault>
    ensures ends { IfOk result (J.ends job) }
    ensures fault { IfErr result IsReadFault }
{
    match try_in_new_store(alloc, job) {
        Ok(outcome) => Ok(outcome),
        Err((fault, _)) => Err(fault),
    }
}

/// What is applied, if anything is, and who hears of each settling.
#[derive(Drop)]
struct Told<R: Input + Drop, L: Listener + Drop> {
    limits: Limits,
    input: Option<(Version, Incoming<R>)>,
    listener: L,
}

/// Applies it, and prints what the store holds then.
#[derive(Drop)]
struct Applying<R: Input + Drop, L: Listener + Drop, W: Output + Drop> {
    told: Told<R, L>,
    out: W,
}

impl<R: Input + Drop, L: Listener + Drop, W: Output + Drop> Job for Applying<R, L, W> {
    type Outcome = (W, Result<Ending, RunFault>);

    ghost ends = { λ job outcome. PrintsHeld W.takes W.failed
        (PrintsNew R.gives R.begins R.failed job.told.limits job.told.input) job.out outcome.0
        outcome.1 };

    fn run<C: ReplicaStore + Drop>(self, alloc: Global, store: C) -> (W, Result<Ending, RunFault>) {
        let Applying { told, out } = self;
        let Told {
            limits,
            input,
            listener,
        } = told;
        let store = Reported::new(store, listener);
        let given = ToApply {
            alloc,
            store,
            limits,
            input,
        };
        let (out, (ended, _)) = apply_over(out, given);
        (out, ended)
    }
}

/// Does so with an empty store, and returns the output and how that ended.
fn apply_new<R: Input + Drop, L: Listener + Drop, W: Output + Drop>(
    out: W,
    given: (Global, Told<R, L>),
) -> (W, Result<Ending, RunFault>)
    ensures { PrintsHeld W.takes W.failed
        (PrintsNew R.gives R.begins R.failed given.1.limits given.1.input) out result.0 result.1 }
{
    let (alloc, told) = given;
    match try_in_new_store(alloc, Applying { told, out }) {
        Ok(done) => done,
        Err((fault, job)) => (job.out, Err(RunFault::Stream(fault))),
    }
}

/// Follows sessions from where a subscriber stands, and tells what is reached then, whatever
/// stopped them.
fn resume_over<P: Loads<C> + Drop, C: ReplicaStore + Drop>(
    alloc: Global,
    subscriber: &mut Subscriber<P, C>,
    sessions: &[Session],
) -> Result<Printed, Fault>
    ensures stands { C.is_honest subscriber.new.applied.store →
        C.serves subscriber.old.applied.store → IfOk result (λ printed. StandsAsFed C.place
        (λ s. FeedsSessions C.holds C.place clock subscriber.old (bytes_of sessions.now) s
        printed.stopped) subscriber.new) }
    ensures lines { IfOk result (λ printed. string_bytes printed.lines ≡
        resumed_of (C.place subscriber.new.applied.store) subscriber.new.applied.confirmed) }
    ensures fault { IfErr result IsReadFault }
{
    let stopped = follow(subscriber, sessions, CLOCK).err();
    match resume_text(alloc, subscriber.position(), subscriber.confirmed()) {
        Ok(lines) => Ok(Printed { lines, stopped }),
        Err(AllocError) => Err(Fault::Memory),
    }
}

/// Follows sessions, and tells what is reached then, whatever stopped them.
#[derive(Clone, Copy)]
struct Resuming<'a> {
    sessions: &'a [Session],
}

impl Job for Resuming<'_> {
    type Outcome = Result<Printed, Fault>;

    ghost ends = { λ job outcome. IfOk outcome (λ printed.
        PrintsResumed job.sessions.now printed.stopped (string_bytes printed.lines))
        × IfErr outcome IsReadFault };

    fn run<C: ReplicaStore + Drop>(self, alloc: Global, store: C) -> Result<Printed, Fault> {
        fed_sessions_are_followed();
        let mut subscriber = subscriber_over(alloc, store, Limits::DEFAULT, Version::Two);
        resume_over(alloc, &mut subscriber, self.sessions)
    }
}

/// Applies what comes, if anything does, to an empty store, within these limits, and tells a
/// listener of each settling. The lines that are printed are as `apply` says, and with nothing to
/// apply those of no rows and of the position 0/0.
///
/// It fails where there is no memory for a store, its rows can't be read or the lines can't be
/// written.
pub(crate) fn apply_told<R: Input + Drop, L: Listener + Drop, W: Output + Drop>(
    alloc: Global,
    limits: Limits,
    input: Option<(Version, Incoming<R>)>,
    listener: L,
    out: &mut W,
) -> Result<Ending, RunFault>
    ensures { PrintsHeld W.takes W.failed (PrintsNew R.gives R.begins R.failed limits input) out.old
        out.new result }
{
    let told = Told {
        limits,
        input,
        listener,
    };
    replace_with(out, (alloc, told), apply_new)
}

/// Applies what comes to an empty store, within these limits, and prints the rows and the position
/// that its bytes leave, whatever they are and whatever stopped them; and where a well-formed
/// server sent them of a history, the rows are those of its transactions up to the position.
///
/// It fails where there is no memory for a store, its rows can't be read or the lines can't be
/// written, and then some front of the lines is printed, or nothing.
pub(crate) fn apply<R: Input + Drop, W: Output + Drop>(
    alloc: Global,
    limits: Limits,
    version: Version,
    incoming: Incoming<R>,
    out: &mut W,
) -> Result<Ending, RunFault>
    ensures { PrintsHeld W.takes W.failed
        (PrintsApplied R.gives R.begins R.failed limits version incoming) out.old out.new result }
{
    apply_told(alloc, limits, Some((version, incoming)), Unheard, out)
}

/// Follows sessions from an empty store on. The lines are the position that their bytes leave and
/// the LSN up to which it may be confirmed to the server, whatever stopped them.
///
/// It fails where there is no memory for a store or the lines.
pub(crate) fn resume(alloc: Global, sessions: &[Session]) -> Result<Printed, Fault>
    ensures resumed { IfOk result (λ printed. PrintsResumed sessions.now printed.stopped
        (string_bytes printed.lines)) }
    ensures fault { IfErr result IsReadFault }
{
    in_new_store(alloc, Resuming { sessions })?
}
