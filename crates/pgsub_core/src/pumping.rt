//! Feeds a subscriber the bytes of a reader.
//!
//! PostgreSQL documentation, Streaming Replication Protocol.

ghost use Rattle.std.specs.Prelude.{◌≡◌, ◌≢◌, ◌↔◌, ◌<◌, ◌≤◌, None, Err, false, true, length, take};
ghost use Rattle.std.specs.Prelude.{OnOk, IfErr, IfSome};
ghost use Rattle.std.specs.Io.KnownBytes.{Consumes, IsAtEnd, Keeps};
ghost use Rattle.pgsub_core.specs.Subscriber.Crashing.{LeavesOldOr, FedOver, StandsAsFed};
ghost use Rattle.pgsub_core.specs.Machine.Faults.{IsOfFeedingOver};
ghost use Rattle.pgsub_core.specs.Calls.Pumping.{IsReadOut, Pumps, PumpsUntil, PumpsCounted};
ghost use Rattle.pgsub_core.specs.Calls.Pumping.{PumpsCountedUntil};

use crate::fault::Fault;
use crate::loading::Loads;
use crate::subscriber::Subscriber;
use pgapply::ReplicaStore;
use std::io::Read;

/// The most bytes that are read at once.
const PIECE_LEN: usize = 4096;

/// A reader of one session's bytes, which knows whether one of its reads failed.
#[derive(Drop)]
pub struct Source<R: Drop> {
    reader: R,
    failed: bool,
    reads: u64,
}

impl<R: Read + Drop> Source<R> {
    /// A source of the bytes that `reader` gives. None is read yet.
    pub fn new(reader: R) -> Source<R>
        ensures { result ≡ record { reader = reader; failed = false; reads = 0 } }
    {
        Source {
            reader,
            failed: false,
            reads: 0,
        }
    }

    /// Whether a read has failed. A source of which a read failed can't be pumped again.
    pub fn failed(&self) -> bool
        ensures { result ≡ self.now.failed }
    {
        self.failed
    }

    // Reads once, at most as many bytes as `room` holds. 0 bytes are the end, and None is a read
    // that failed.
    fn read_piece(&mut self, room: &mut [u8]) -> Option<usize>
        requires room { 0 < length room.old }
        requires sound { self.old.failed ≡ false }
        ensures some { IfSome result (λ n. (n ≤ length room.new)
            × Consumes (R.remaining self.old.reader) (R.remaining self.new.reader) (take n room.new)
            × (n ≡ 0 → IsAtEnd (R.remaining self.new.reader)) × (self.new.failed ≡ false)) }
        ensures none { result ≡ None → (self.new.failed ≡ true)
            × Keeps (R.remaining self.old.reader) (R.remaining self.new.reader) }
        ensures reads { self.new.reads ≡ self.old.reads }
        ensures length { length room.new ≡ length room.old }
    {
        match self.reader.read(room) {
            Ok(count) => Some(count),
            Err(_) => {
                self.failed = true;
                None
            }
        }
    }
}

/// Reads the source to its end, or 2^64 - 1 times, and feeds each piece of at most 4096 bytes as it
/// comes. `now` is the clock of the replies, in microseconds since 2000-01-01 00:00 UTC.
///
/// Whatever a crash after the call may leave of the store could be left before it, and the position
/// is as it was; or it is as after some front of the frames that were read, and at no lower
/// position (`crash`). That holds where the store has shut, too.
///
/// Of the frames that were read, each change that finds no row is counted, once its commit is
/// stored (`counts`, `failed_counts`); after a fault of feeding them, of those with which the
/// position is reached (`counts_refused`).
///
/// # Errors
///
/// `Fault::Read` exactly if a read failed: the subscriber is then as after the pieces before, and
/// goes on with the bytes that come next. Any other fault is that of feeding the piece that was
/// read last, and closes the subscriber.
///
/// PostgreSQL documentation, Streaming Replication Protocol, START_REPLICATION.
pub fn pump<R: Read + Drop, P: Loads<C> + Drop, C: ReplicaStore + Drop>(
    source: &mut Source<R>,
    subscriber: &mut Subscriber<P, C>,
    now: i64,
) -> Result<(), Fault>
    requires { source.old.failed ≡ false }
    ensures read { (result ≡ Err Fault.Read) ↔ (source.new.failed ≡ true) }
    ensures fed { C.serves subscriber.new.applied.store →
        OnOk result (Pumps C.holds C.place now (R.remaining source.old.reader)
        (R.remaining source.new.reader) source.old.reads source.new.reads subscriber.old
        subscriber.new) }
    ensures own { subscriber.old.framing.closed ≡ false → IfErr result (λ fault.
        fault ≢ Fault.Read → IsOfFeedingOver P.may_fail fault) }
    ensures read_out { OnOk result (IsReadOut (R.remaining source.new.reader) source.new.reads) }
    ensures failed { C.serves subscriber.new.applied.store → result ≡ Err Fault.Read →
        Pumps C.holds C.place now (R.remaining source.old.reader)
        (R.remaining source.new.reader) source.old.reads source.new.reads subscriber.old
        subscriber.new }
    ensures open { result ≡ Err Fault.Read → subscriber.new.framing.closed
        ≡ subscriber.old.framing.closed }
    ensures refused { C.serves subscriber.new.applied.store →
        IfErr result (λ fault. fault ≢ Fault.Read →
        PumpsUntil C.holds C.place now (R.remaining source.old.reader)
        (R.remaining source.new.reader) subscriber.old subscriber.new fault) }
    ensures counts { C.serves subscriber.new.applied.store →
        OnOk result (PumpsCounted C.holds C.place C.tally now (R.remaining source.old.reader)
        (R.remaining source.new.reader) source.old.reads source.new.reads subscriber.old
        subscriber.new) }
    ensures failed_counts { C.serves subscriber.new.applied.store → result ≡ Err Fault.Read →
        PumpsCounted C.holds C.place C.tally now (R.remaining source.old.reader)
        (R.remaining source.new.reader) source.old.reads source.new.reads subscriber.old
        subscriber.new }
    ensures counts_refused { C.serves subscriber.new.applied.store →
        subscriber.old.framing.closed ≡ false → IfErr result (λ fault. fault ≢ Fault.Read →
        PumpsCountedUntil C.holds C.place C.tally now (R.remaining source.old.reader)
        (R.remaining source.new.reader) subscriber.old subscriber.new fault) }
    ensures served { C.serves subscriber.new.applied.store → C.serves subscriber.old.applied.store }
    ensures still_serves { C.is_honest subscriber.new.applied.store →
        C.serves subscriber.old.applied.store →
        OnOk result (C.serves subscriber.new.applied.store) }
    ensures failed_serves { C.is_honest subscriber.new.applied.store →
        C.serves subscriber.old.applied.store → result ≡ Err Fault.Read →
        C.serves subscriber.new.applied.store }
    ensures honest { C.is_honest subscriber.new.applied.store →
        C.is_honest subscriber.old.applied.store }
    ensures stands { C.is_honest subscriber.new.applied.store →
        C.serves subscriber.old.applied.store → subscriber.old.framing.closed ≡ false →
        IfErr result (λ fault. fault ≢ Fault.Read →
        StandsAsFed C.place (λ s. PumpsUntil C.holds C.place now (R.remaining source.old.reader)
        (R.remaining source.new.reader) subscriber.old s Fault.Memory) subscriber.new) }
    ensures why { C.is_honest subscriber.new.applied.store →
        C.serves subscriber.old.applied.store → subscriber.old.framing.closed ≡ false →
        IfErr result (λ fault. fault ≢ Fault.Read →
        StandsAsFed C.place (λ s. PumpsUntil C.holds C.place now (R.remaining source.old.reader)
        (R.remaining source.new.reader) subscriber.old s fault) subscriber.new) }
    ensures crash { C.is_honest subscriber.new.applied.store →
        LeavesOldOr C.place C.reopens C.serves
        (FedOver (λ s. PumpsUntil C.holds C.place now (R.remaining source.old.reader)
        (R.remaining source.new.reader) subscriber.old s Fault.Memory)) subscriber.old.applied.store
        subscriber.new.applied.store }
{
    let mut room = [0u8; PIECE_LEN];
    while source.reads < u64::MAX {
        let Some(count) = source.read_piece(&mut room) else {
            return Err(Fault::Read);
        };
        if count == 0 {
            return Ok(());
        }
        source.reads += 1;
        subscriber.feed(&room[..count], now)?;
    }
    Ok(())
}
