//! A subscriber's handle, and what is done with it.

ghost use Rattle.std.specs.Prelude.{◌≡◌, ◌≢◌, ◌⊎◌, Some, None, IfErr, IfOk, IfSome, is_some, true};
ghost use Rattle.pgembed.specs.InMemory.{HasAsked, HasDisconnected, HasFed, HasReplied, HasShown};
ghost use Rattle.pgembed.specs.InMemory.{IsNew, place_of};
ghost use Rattle.pgembed.specs.Passed.{PassesNothing};
ghost use Rattle.pgsub_c.specs.Held.{Calls};

use crate::loose::Loose;
use crate::pointer::Pointer;
use pgembed::{InMemory, MEMORY, stream_number};
use pgorder::Version;
use std::alloc::Global;
use std::mem::replace;

/// The number that says that the handle is closed.
const CLOSED: u32 = 12;

/// The number that says that the handle is open.
const OPEN: u32 = 13;

/// A subscriber, or none. One that is all zero bytes is closed.
#[repr(C)]
pub struct Handle {
    pub pointer: Pointer,
    pub is_open: bool,
    ghost known: { is_open ≡ is_some pointer.value },
}

/// The box of this value; or 9 where memory runs out.
fn boxed<T: Drop>(alloc: Global, value: T) -> Result<Box<T>, u32>
    ensures value { IfOk result (λ held. held.value ≡ value) }
    ensures number { IfErr result (λ number. number ≡ 9) }
{
    match Box::new(alloc, value) {
        Ok(held) => Ok(held),
        Err(_) => Err(MEMORY),
    }
}

/// A subscriber over no rows; or 9 where memory runs out, or 6 where the store refuses for want of
/// it.
fn new_subscriber(alloc: Global, version: Version) -> Result<Box<InMemory>, u32>
    ensures new { IfOk result (λ held. IsNew version held.value) }
    ensures number { IfErr result (λ number. (number ≡ 6) ⊎ (number ≡ 9)) }
{
    match InMemory::new(alloc, version) {
        Ok(held) => boxed(alloc, held),
        Err(fault) => Err(stream_number(fault)),
    }
}

impl Handle {
    /// A closed handle.
    fn closed() -> Handle
        ensures { result.pointer.value ≡ None }
    {
        Handle {
            pointer: Pointer::nothing(),
            is_open: false,
        }
    }

    /// The handle of this subscriber.
    fn of(held: Box<InMemory>) -> Handle
        ensures { result.pointer.value ≡ Some held.value }
    {
        Handle {
            pointer: Pointer::of(Loose::of(held)),
            is_open: true,
        }
    }

    /// Lets a closed handle go.
    fn let_go(self)
        requires { self.pointer.value ≡ None }
    {
        let Handle { pointer, is_open } = self;
        pointer.let_go();
    }

    /// Opens a closed handle with this subscriber.
    fn put(&mut self, held: Box<InMemory>)
        requires { self.old.pointer.value ≡ None }
        ensures { self.new.pointer.value ≡ Some held.value }
    {
        replace(self, Handle::of(held)).let_go();
    }

    /// Closes the handle, and gives the subscriber, if there is one.
    fn take(&mut self, alloc: Global) -> Option<Box<InMemory>>
        ensures closed { self.new.pointer.value ≡ None }
        ensures none { result ≡ None → self.old.pointer.value ≡ None }
        ensures some { IfSome result (λ held. self.old.pointer.value ≡ Some held.value) }
    {
        let Handle { pointer, is_open } = replace(self, Handle::closed());
        if !is_open {
            pointer.let_go();
            return None;
        }
        Some(pointer.into_loose(alloc).into_box())
    }

    /// Opens a closed handle with a subscriber over no rows. Returns 0; or 13 where it is open
    /// already; or 9 where memory runs out, or 6 where the store refuses for want of it.
    pub(crate) fn open(&mut self, alloc: Global, version: Version) -> u32
        ensures opened { result ≡ 0 → IfSome self.new.pointer.value (IsNew version) }
        ensures was_closed { result ≡ 0 → self.old.pointer.value ≡ None }
        ensures is_open { result ≡ 0 → is_some self.new.pointer.value ≡ true }
        ensures refused { result ≢ 0 → self.new.pointer.value ≡ self.old.pointer.value }
        ensures already { is_some self.old.pointer.value ≡ true → result ≡ 13 }
        ensures number { (result ≡ 0) ⊎ (result ≡ 6) ⊎ (result ≡ 9)
            ⊎ ((result ≡ 13) × (is_some self.old.pointer.value ≡ true)) }
    {
        if self.is_open {
            return OPEN;
        }
        match new_subscriber(alloc, version) {
            Ok(held) => {
                self.put(held);
                0
            }
            Err(number) => number,
        }
    }

    /// Feeds a chunk, as `InMemory::feed` does. Returns 12 where the handle is closed.
    pub(crate) fn feed(
        &mut self,
        alloc: Global,
        piece: &[u8],
        clock: i64,
        text: &mut [u8],
        text_length: &mut usize,
    ) -> u32
        ensures { Calls
            (λ old new. HasFed clock old piece.now new text.old text.new text_length.new result)
            ((result ≡ 12) × PassesNothing text.old text.new text_length.new)
            self.old.pointer.value self.new.pointer.value }
    {
        let Some(mut held) = self.take(alloc) else {
            *text_length = 0;
            return CLOSED;
        };
        let number = held.feed(alloc, piece, clock, text, text_length);
        self.put(held);
        number
    }

    /// Appends a status to the replies, as `InMemory::status` does. Returns 12 where the handle is
    /// closed.
    pub(crate) fn status(&mut self, alloc: Global, clock: i64, ask: bool) -> u32
        ensures { Calls (λ old new. HasAsked clock ask old new result) (result ≡ 12)
            self.old.pointer.value self.new.pointer.value }
    {
        let Some(mut held) = self.take(alloc) else {
            return CLOSED;
        };
        let number = held.status(clock, ask);
        self.put(held);
        number
    }

    /// Passes the replies, as `InMemory::take_replies` does. Returns 12 where the handle is closed.
    pub(crate) fn take_replies(&mut self, alloc: Global, room: &mut [u8], length: &mut usize) -> u32
        ensures { Calls
            (λ old new. HasReplied old new room.old room.new length.new result)
            ((result ≡ 12) × PassesNothing room.old room.new length.new)
            self.old.pointer.value self.new.pointer.value }
    {
        let Some(mut held) = self.take(alloc) else {
            *length = 0;
            return CLOSED;
        };
        let number = held.take_replies(room, length);
        self.put(held);
        number
    }

    /// Passes the lines of the rows, as `InMemory::rows` does. Returns 12 where the handle is
    /// closed.
    pub(crate) fn rows(&mut self, alloc: Global, room: &mut [u8], length: &mut usize) -> u32
        ensures { Calls
            (λ old new. HasShown old new room.old room.new length.new result)
            ((result ≡ 12) × PassesNothing room.old room.new length.new)
            self.old.pointer.value self.new.pointer.value }
    {
        let Some(mut held) = self.take(alloc) else {
            *length = 0;
            return CLOSED;
        };
        let number = held.rows(alloc, room, length);
        self.put(held);
        number
    }

    /// Tells up to where the rows are complete, and up to where the server may forget. Returns 12
    /// where the handle is closed, and tells 0 then.
    pub(crate) fn place(&mut self, alloc: Global, position: &mut u64, confirmed: &mut u64) -> u32
        ensures { Calls
            (λ old new. (new ≡ old) × (result ≡ 0) × (position.new ≡ place_of old)
            × (confirmed.new ≡ old.subscriber.applied.confirmed))
            ((result ≡ 12) × (position.new ≡ 0) × (confirmed.new ≡ 0))
            self.old.pointer.value self.new.pointer.value }
    {
        let Some(held) = self.take(alloc) else {
            *position = 0;
            *confirmed = 0;
            return CLOSED;
        };
        *position = held.position();
        *confirmed = held.confirmed();
        self.put(held);
        0
    }

    /// Forgets the session, as `InMemory::disconnect` does. Returns 12 where the handle is closed.
    pub(crate) fn disconnect(&mut self, alloc: Global) -> u32
        ensures { Calls (λ old new. HasDisconnected old new × (result ≡ 0)) (result ≡ 12)
            self.old.pointer.value self.new.pointer.value }
    {
        let Some(mut held) = self.take(alloc) else {
            return CLOSED;
        };
        held.disconnect();
        self.put(held);
        0
    }

    /// Closes the handle, and frees what it holds.
    pub(crate) fn close(&mut self, alloc: Global)
        ensures { self.new.pointer.value ≡ None }
    {
        self.take(alloc);
    }
}
