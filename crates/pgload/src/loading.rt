//! A load from frames, in any pieces.
//!
//! PostgreSQL documentation, Message Formats, CopyData.

ghost use Rattle.std.specs.Prelude.{◌≡◌, ◌≤◌, ◌<◌, ◌+◌, ◌++◌, [], ℕ, List, Ok, Err, Some, length};
ghost use Rattle.std.specs.Prelude.{IfSome, IfOk, IfErr, OnOk, OnErr};
ghost use Rattle.std.specs.FinMap as map;
ghost use Rattle.pgwire.specs.Deframed.{Waits, IsFed};
ghost use Rattle.pgload.specs.Loading.{most_parts, LeavesNoPart, IsBounded};
ghost use Rattle.pgload.specs.Inputs.{HasRead, HasStopped, Reads, StepsTo, Advances};

use crate::fault::LoadFault;
use crate::input::{Step, take_payload};
use crate::limits::Limits;
use crate::load::Load;
use pgapply::ReplicaStore;
use pglsn::Lsn;
use pgwire::{Deframer, Frame};
use std::alloc::Global;

/// That a load has ended.
#[derive(Clone, Copy)]
pub struct Ended {
    /// The point at which it has.
    pub point: Lsn,
    /// How many bytes of the piece were its own.
    pub taken: usize,
}

/// Loads tables into a new store, from frames of CopyData. The payload of each is a part of the
/// load: a Relation message, with which a table begins; `t` and a piece of its text; `e`, the end
/// of its text; or `p` and the point at which the load ends, an Int64.
#[derive(Drop)]
pub struct Loading<C: ReplicaStore + Drop> {
    alloc: Global,
    deframer: Deframer,
    load: Load<C>,
}

impl<C: ReplicaStore + Drop> Loading<C> {
    /// A load into this store, which is to be new. A payload may have `max_frame` bytes.
    pub fn new(alloc: Global, store: C, limits: Limits, max_frame: u32) -> Loading<C>
        requires { max_frame ≤ 2147483643 }
        ensures begun { C.serves store → C.holds store map.empty → C.place store ≡ 0 →
            HasRead C.holds C.place C.reopens C.serves C.is_honest limits.max_line []
            result.deframer result.load.store result.load.table result.load.closed }
        ensures bounded { IsBounded limits.batch result.load.table }
        ensures limits { result.load.limits ≡ limits }
        ensures max_frame { result.deframer.max ≡ max_frame }
    {
        Loading {
            alloc,
            deframer: Deframer::new(alloc, max_frame),
            load: Load::new(alloc, store, limits),
        }
    }

    /// The store, also after a fault.
    pub fn into_store(self) -> C
        ensures { result ≡ self.load.store }
    {
        self.load.into_store()
    }

    /// Feeds a piece of the input, cut anywhere. Once the load has ended, it returns at which
    /// point, and how many bytes of the piece it has taken: what follows is no part of it.
    ///
    /// Until then, and after a fault, the store's position is none of a server's (`position`). So
    /// is that of whatever a crash leaves, unless it holds the whole load (`crash`).
    ///
    /// # Errors
    ///
    /// The fault of the first frame that has one. What came before it is handled, and each later
    /// call returns it again.
    pub fn feed(&mut self, piece: &[u8]) -> Result<Option<Ended>, LoadFault>
        ensures reads { (bytes : List ℕ) → HasRead C.holds C.place C.reopens C.serves C.is_honest
            self.old.load.limits.max_line bytes self.old.deframer self.old.load.store
            self.old.load.table self.old.load.closed →
            Reads C.holds C.place C.reopens C.serves C.is_honest self.old.load.limits.max_line
            self.old.deframer.max bytes piece.now self.new.deframer self.new.load.store
            self.new.load.table self.new.load.closed result }
        ensures position { (bytes : List ℕ) → HasRead C.holds C.place C.reopens C.serves
            C.is_honest self.old.load.limits.max_line bytes self.old.deframer self.old.load.store
            self.old.load.table self.old.load.closed →
            OnErr result (C.place self.new.load.store ≤ most_parts) }
        ensures crash { (bytes : List ℕ) → HasRead C.holds C.place C.reopens C.serves C.is_honest
            self.old.load.limits.max_line bytes self.old.deframer self.old.load.store
            self.old.load.table self.old.load.closed →
            LeavesNoPart C.holds C.place C.reopens C.serves C.is_honest
            self.old.load.limits.max_line self.new.load.store }
        ensures bounded { IsBounded self.old.load.limits.batch self.old.load.table →
            OnOk result (IsBounded self.old.load.limits.batch self.new.load.table) }
        ensures limits { self.new.load.limits ≡ self.old.load.limits }
        ensures max_frame { self.new.deframer.max ≡ self.old.deframer.max }
        ensures closed { IfErr result (λ fault. self.new.load.closed ≡ Some fault) }
        ensures still { IfSome self.old.load.closed (λ fault. result ≡ Err fault) }
    {
        if let Some(fault) = self.load.closed() {
            return Err(fault);
        }
        let mut taken = 0;
        'frames: loop {
            let (count, step) = self.read_frame(&piece[taken..])?;
            taken += count;
            match step {
                Step::Waits => return Ok(None),
                Step::Goes => {}
                Step::Ended(point) => return Ok(Some(Ended { point, taken })),
            }
        }
    }

    // Takes bytes to the end of a frame, and handles it, or all of them where none ends.
    fn read_frame(&mut self, piece: &[u8]) -> Result<(usize, Step), LoadFault>
        ensures advances { (bytes : List ℕ) → HasRead C.holds C.place C.reopens C.serves
            C.is_honest self.old.load.limits.max_line bytes self.old.deframer self.old.load.store
            self.old.load.table self.old.load.closed →
            Advances C.holds C.place C.reopens C.serves C.is_honest
            self.old.load.limits.max_line self.old.deframer.max bytes piece.now
            self.new.deframer self.new.load.store self.new.load.table self.new.load.closed
            result }
        ensures within { IfOk result (λ x. x.0 ≤ length piece.now) }
        ensures smaller { IfOk result (λ x. x.1 ≡ Step.Goes →
            length self.new.deframer.held + length piece.now
            < length self.old.deframer.held + length piece.now + x.0) }
        ensures bounded { IsBounded self.old.load.limits.batch self.old.load.table →
            OnOk result (IsBounded self.old.load.limits.batch self.new.load.table) }
        ensures limits { self.new.load.limits ≡ self.old.load.limits }
        ensures max_frame { self.new.deframer.max ≡ self.old.deframer.max }
        ensures closed { IfErr result (λ fault. self.new.load.closed ≡ Some fault) }
    {
        let taken = self.fill(piece)?;
        let step = self.take_frame()?;
        Ok((taken, step))
    }

    // Takes bytes until a frame is complete or they are used up, and returns how many.
    fn fill(&mut self, piece: &[u8]) -> Result<usize, LoadFault>
        ensures fed { IfOk result (λ n. IsFed self.old.deframer piece.now (Ok n)
            self.new.deframer) }
        ensures load { IfOk result (λ n. self.new.load ≡ self.old.load) }
        ensures stops { (bytes : List ℕ) → HasRead C.holds C.place C.reopens C.serves C.is_honest
            self.old.load.limits.max_line bytes self.old.deframer self.old.load.store
            self.old.load.table self.old.load.closed →
            IfErr result (HasStopped C.holds C.place C.reopens C.serves C.is_honest
            self.old.load.limits.max_line self.old.deframer.max (bytes ++ piece.now)
            self.new.load.store self.new.load.table self.new.load.closed) }
        ensures limits { self.new.load.limits ≡ self.old.load.limits }
        ensures max_frame { self.new.deframer.max ≡ self.old.deframer.max }
        ensures closed { IfErr result (λ fault. self.new.load.closed ≡ Some fault) }
    {
        match self.deframer.feed(piece) {
            Ok(taken) => Ok(taken),
            Err(fault) => Err(self.load.refuse(LoadFault::from(fault))),
        }
    }

    // Handles the frame that is complete, if there is one.
    fn take_frame(&mut self) -> Result<Step, LoadFault>
        ensures steps { (bytes : List ℕ) → HasRead C.holds C.place C.reopens C.serves C.is_honest
            self.old.load.limits.max_line bytes self.old.deframer self.old.load.store
            self.old.load.table self.old.load.closed →
            StepsTo C.holds C.place C.reopens C.serves C.is_honest self.old.load.limits.max_line
            self.old.deframer.max bytes self.new.deframer self.new.load.store self.new.load.table
            self.new.load.closed result }
        ensures waits { IfOk result (λ step. step ≡ Step.Waits → Waits self.old.deframer) }
        ensures some { IfOk result (λ step. step ≡ Step.Goes →
            (self.new.deframer.held ≡ []) × (0 < length self.old.deframer.held)) }
        ensures bounded { IsBounded self.old.load.limits.batch self.old.load.table →
            OnOk result (IsBounded self.old.load.limits.batch self.new.load.table) }
        ensures limits { self.new.load.limits ≡ self.old.load.limits }
        ensures max_frame { self.new.deframer.max ≡ self.old.deframer.max }
        ensures closed { IfErr result (λ fault. self.new.load.closed ≡ Some fault) }
    {
        let step = match self.deframer.whole() {
            None => return Ok(Step::Waits),
            Some(Frame::Done) => return Err(self.load.refuse(LoadFault::BadInput)),
            Some(Frame::Data(payload)) => take_payload(self.alloc, &mut self.load, payload)?,
        };
        self.deframer.release();
        Ok(step)
    }
}
