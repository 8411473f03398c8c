//! Comparing what two recordings leave.

ghost use Rattle.std.specs.Prelude.{◌≡◌, ◌⊎◌, Err, IfOk, IfErr};
ghost use Rattle.pgsub_core.specs.declared.converging.Side.TheVariants.{Left};
ghost use Rattle.pgsub_core.specs.Machine.Faults.{IsReadFault};
ghost use Rattle.pgsub_core.specs.Subscriber.Subscribed.{bytes_of};
ghost use Rattle.pgtasks.specs.Compared.{EndsBesideNew, EndsOfNew, EndsOver};
ghost use Rattle.pgsub_cli.specs.Runs.{AreComparedAs, IsUncompared};

use crate::stores::{Job, in_new_store};
use pgapply::ReplicaStore;
use pgorder::Version;
use pgspool::ByteSpools;
use pgsub_cli::limits::{CLOCK, Limits};
use pgsub_cli::storing::subscriber_over;
use pgsub_core::{ConvergeFault, Fault, Loads, Session, Side, Subscriber, Verdict, converge};
use std::alloc::Global;

/// The fault of a side, or, where its rows can't be read any more, the one of reading them. So what
/// is told as the fault of a stream isn't that of a store that has shut meanwhile.
fn confirmed_fault<P: Loads<C> + Drop, C: ReplicaStore + Drop>(
    subscriber: &mut Subscriber<P, C>,
    fault: Fault,
) -> Fault
    ensures fault { C.is_honest subscriber.new.applied.store → IsReadFault result
        ⊎ ((result ≡ fault) × C.serves subscriber.old.applied.store) }
{
    match subscriber.rows() {
        Ok(_) => fault,
        Err(lost) => lost,
    }
}

/// Compares two subscribers after these sessions, the left one's first.
fn compare_subscribers<
    P: Loads<C> + Drop,
    C: ReplicaStore + Drop,
    Q: Loads<D> + Drop,
    D: ReplicaStore + Drop,
>(
    left: &mut Subscriber<P, C>,
    left_sessions: &[Session],
    right: &mut Subscriber<Q, D>,
    right_sessions: &[Session],
) -> Result<Verdict, ConvergeFault>
    ensures ends { ((s : C) → C.is_honest s) → ((s : D) → D.is_honest s) →
        EndsOver C.holds C.place D.holds D.place left.old (bytes_of left_sessions.now) right.old
        (bytes_of right_sessions.now) result }
{
    let stopped = match converge(left, left_sessions, right, right_sessions, CLOCK) {
        Ok(verdict) => return Ok(verdict),
        Err(stopped) => stopped,
    };
    let side = stopped.side;
    let fault = match side {
        Side::Left => confirmed_fault(left, stopped.fault),
        Side::Right => confirmed_fault(right, stopped.fault),
    };
    Err(ConvergeFault { side, fault })
}

/// How a comparison ends that needs a new store. Where there is no memory for one, nothing was
/// followed yet, so the fault is the left one's.
fn ended(compared: Result<Result<Verdict, ConvergeFault>, Fault>) -> Result<Verdict, ConvergeFault>
    ensures compared { IfOk compared (λ c. result ≡ c) }
    ensures unmade { IfErr compared (λ f. result ≡ Err (record { side = Left; fault = f })) }
{
    match compared {
        Ok(compared) => compared,
        Err(fault) => Err(ConvergeFault {
            side: Side::Left,
            fault,
        }),
    }
}

/// Compares what the sessions of both sides leave.
#[derive(Clone, Copy)]
struct Comparing<'a> {
    version: Version,
    left: &'a [Session],
    right: &'a [Session],
}

impl Job for Comparing<'_> {
    type Outcome = Result<Verdict, ConvergeFault>;

    ghost ends = { λ job outcome. EndsOfNew job.version (bytes_of job.left.now)
        (bytes_of job.right.now) outcome };

    fn run<C: ReplicaStore + Drop>(
        self,
        alloc: Global,
        store: C,
    ) -> Result<Verdict, ConvergeFault> {
        let left = subscriber_over(alloc, store, Limits::DEFAULT, self.version);
        let sides = self;
        ended(in_new_store(alloc, Beside { left, sides }))
    }
}

/// The same, where there is the left one's subscriber.
#[derive(Drop)]
struct Beside<'a, D: ReplicaStore + Drop> {
    left: Subscriber<ByteSpools, D>,
    sides: Comparing<'a>,
}

impl<D: ReplicaStore + Drop> Job for Beside<'_, D> {
    type Outcome = Result<Verdict, ConvergeFault>;

    ghost ends = { λ job outcome. ((s : D) → D.is_honest s) →
        EndsBesideNew D.holds D.place job.sides.version job.left (bytes_of job.sides.left.now)
        (bytes_of job.sides.right.now) outcome };

    fn run<C: ReplicaStore + Drop>(
        self,
        alloc: Global,
        store: C,
    ) -> Result<Verdict, ConvergeFault> {
        let (mut left, sides) = (self.left, self.sides);
        let mut right = subscriber_over(alloc, store, Limits::DEFAULT, sides.version);
        compare_subscribers(&mut left, sides.left, &mut right, sides.right)
    }
}

/// How the rows and positions compare that the sessions of two recordings leave of empty stores.
///
/// It fails with the first fault of a side, of its sessions or of reading its rows, or where there
/// is no memory for a store.
pub(crate) fn compare(
    alloc: Global,
    version: Version,
    left: &[Session],
    right: &[Session],
) -> Result<Verdict, ConvergeFault>
    ensures compared { IfOk result (AreComparedAs version left.now right.now) }
    ensures stopped { IfErr result (IsUncompared version left.now right.now) }
{
    let sides = Comparing {
        version,
        left,
        right,
    };
    ended(in_new_store(alloc, sides))
}
