//! What a run reads its recordings from, and what it writes its lines to.
//!
//! That a read or a write failed is a fact that only a failure gives. So a function over any input
//! and output is proved to return a fault of theirs only where it met one.
ghost use Rattle.std.specs.Prelude.{◌≡◌, ◌≤◌, ◌<◌, ◌++◌, ℕ, List, None, Some, Ok, length, IfSome};
ghost use Rattle.std.specs.Prelude.{IfOk, OnOk, OnErr, ⊤};
ghost use Rattle.std.specs.Io.KnownBytes.{Appends};
ghost use Rattle.pgsub_core.specs.Subscriber.Crashing.{LeavesOldOr, FedOver};
ghost use Rattle.pgsub_core.specs.Subscriber.Handled.{fault_in};
ghost use Rattle.pgsub_cli.specs.StoreAfter.{FeedsFile, StandsFed};

use crate::limits::CLOCK;
use pgapply::ReplicaStore;
use pgsub_core::{Fault, Loads, Source, Subscriber, pump};
use std::alloc::Global;
use std::io;
use std::io::{Read, Write};

/// Hears how many bytes each read gave.
pub trait ReadListener {
    /// A read gave this many bytes, or none at the end.
    fn hear(&mut self, count: u64);
}

/// Hears nothing.
#[derive(Clone, Copy)]
pub struct Unheard;

impl ReadListener for Unheard {
    fn hear(&mut self, _count: u64) {}
}

/// A reader, of which a listener hears how many bytes each read gave.
#[derive(Drop)]
struct Heard<R: Read + Drop, L: ReadListener + Drop> {
    reader: R,
    listener: L,
}

impl<R: Read + Drop, L: ReadListener + Drop> Read for Heard<R, L> {
    ghost remaining = { λ heard. R.remaining heard.reader };

    fn read(&mut self, buf: &mut [u8]) -> io::Result<usize> {
        let count = self.reader.read(buf)?;
        self.listener.hear(count as u64);
        Ok(count)
    }
}

/// What a recording is read from.
pub trait Input {
    /// That these are all its bytes.
    ghost gives: { Self → List ℕ → Type 0 };

    /// That these are its first bytes, or all.
    ghost begins: { Self → List ℕ → Type 0 };

    /// What holds of it where reading it failed.
    ghost failed: { Self → Type 0 };

    /// All its bytes, or None where they are more than `longest`. Not more than one byte after that
    /// is read.
    fn read_whole(self, alloc: Global, longest: u32) -> io::Result<Option<Vec<u8>>>
        ensures whole { IfOk result (λ read. IfSome read
            (λ text. gives self text.items × (length text.items ≤ longest))) }
        ensures longer { result ≡ Ok None → (bytes : List ℕ) × gives self bytes
            × (longest < length bytes) }
        ensures failed { OnErr result (failed self) };

    /// Feeds all its bytes as they are read to a subscriber, as one session from a disconnection
    /// on, and a listener hears of each read. What comes before a read that fails is fed, and so is
    /// what comes before the first fault. Whatever a crash at the end may leave of the store could
    /// be left before, or has what some front of the bytes leads to.
    fn feed_to<P: Loads<C> + Drop, C: ReplicaStore + Drop, L: ReadListener + Drop>(
        self,
        subscriber: &mut Subscriber<P, C>,
        listener: L,
    ) -> Result<(), Fault>
        ensures fed { C.serves subscriber.new.applied.store →
            FeedsFile gives begins failed C.holds C.place self subscriber.old subscriber.new
            (fault_in result) }
        ensures served { C.serves subscriber.new.applied.store →
            C.serves subscriber.old.applied.store }
        ensures honest { C.is_honest subscriber.new.applied.store →
            C.is_honest subscriber.old.applied.store }
        ensures stands { C.is_honest subscriber.new.applied.store →
            C.serves subscriber.old.applied.store → StandsFed C.place
            (FeedsFile gives begins failed C.holds C.place self subscriber.old) subscriber.new }
        ensures left { C.is_honest subscriber.new.applied.store →
            LeavesOldOr C.place C.reopens C.serves
            (FedOver (λ s. FeedsFile gives begins failed C.holds C.place self subscriber.old s
            (Some Fault.Memory))) subscriber.old.applied.store subscriber.new.applied.store };
}

impl<R: Read + Drop> Input for R {
    ghost gives = { λ reader bytes. IfSome (R.remaining reader) (λ known. bytes ≡ known) };

    ghost begins = { λ reader bytes. IfSome (R.remaining reader)
        (λ known. (rest : List ℕ) × (known ≡ bytes ++ rest)) };

    ghost failed = { λ _. ⊤ };

    fn read_whole(self, alloc: Global, longest: u32) -> io::Result<Option<Vec<u8>>> {
        let mut text = Vec::new(alloc);
        self.take(u64::from(longest) + 1).read_to_end(&mut text)?;
        if text.len() > longest as usize {
            return Ok(None);
        }
        Ok(Some(text))
    }

    fn feed_to<P: Loads<C> + Drop, C: ReplicaStore + Drop, L: ReadListener + Drop>(
        self,
        subscriber: &mut Subscriber<P, C>,
        listener: L,
    ) -> Result<(), Fault> {
        subscriber.disconnect();
        let reader = self;
        let mut source = Source::new(Heard { reader, listener });
        pump(&mut source, subscriber, CLOCK)
    }
}

/// What lines are written to.
pub trait Output {
    /// That these bytes took it from one state to another.
    ghost takes: { Self → List ℕ → Self → Type 0 };

    /// What holds of it where writing to it failed.
    ghost failed: { Self → Type 0 };

    /// Writes the lines, and everything that a buffer still holds.
    fn write_lines(&mut self, lines: &str) -> io::Result<()>
        ensures written { OnOk result (takes self.old lines.now self.new) }
        ensures failed { OnErr result (failed self.old) };
}

impl<W: Write> Output for W {
    ghost takes = { λ old bytes new. Appends (W.contents old) (W.contents new) bytes };

    ghost failed = { λ _. ⊤ };

    fn write_lines(&mut self, lines: &str) -> io::Result<()> {
        self.write_all(lines.as_bytes())?;
        self.flush()
    }
}
