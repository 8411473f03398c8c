//! The calls of a subscriber over any store, for callers that aren't Rust.
//!
//! PostgreSQL documentation, Streaming Replication Protocol.

ghost use Rattle.std.specs.Prelude.{◌≡◌, ◌≢◌, true};
ghost use Rattle.pgapply.specs.Taken.{Stays};
ghost use Rattle.pgapply.specs.Value.{Tables};
ghost use Rattle.pgsub_core.specs.Subscriber.SubscriberValue.{seen};
ghost use Rattle.pgembed.specs.Called.{Does};
ghost use Rattle.pgembed.specs.Dumped.{PassesRows};
ghost use Rattle.pgembed.specs.Fed.{AsksOrStays, DropsReplies, PassesFed};
ghost use Rattle.pgembed.specs.Passed.{IsPassed};

use crate::dumped::rows_text;
use crate::passing::{MEMORY, pass, pass_stream_fault, stream_number};
use pgapply::ReplicaStore;
use pgsub_core::{Fault, Loads, Subscriber};
use std::alloc::{AllocError, Global};

/// What a subscriber is to do.
pub(crate) enum Call<'a> {
    /// Feed a chunk, as `feed_piece` does.
    Feed {
        alloc: Global,
        piece: &'a [u8],
        clock: i64,
    },
    /// Append a status to the replies, as `append_status` does.
    Status {
        clock: i64,
        ask: bool,
    },
    /// Pass the replies that wait, as `pass_replies` does.
    Replies,
    /// Pass the lines of the rows, as `pass_rows` does.
    Rows {
        alloc: Global,
    },
    /// Forget the session, as `Subscriber::disconnect` does.
    Disconnect,
}

/// Feeds a chunk of a session's bytes, as `Subscriber::feed` does: it may begin and end anywhere in
/// a frame. `clock` is that of the replies, in microseconds since 2000-01-01 00:00 UTC. Returns 0,
/// or the number of the fault, whose text is passed as `pass` does; its length is 0 where memory is
/// short.
///
/// After a fault each chunk is rejected with 8, until the subscriber is disconnected.
pub fn feed_piece<P: Loads<C> + Drop, C: ReplicaStore + Drop>(
    alloc: Global,
    subscriber: &mut Subscriber<P, C>,
    piece: &[u8],
    clock: i64,
    text: &mut [u8],
    text_length: &mut usize,
) -> u32
    ensures fed { C.serves subscriber.new.applied.store →
        PassesFed C.holds C.place clock subscriber.old piece.now subscriber.new
        text.old text.new text_length.new result }
    ensures closed { subscriber.old.framing.closed ≡ true → (result ≡ 8)
        × (subscriber.new ≡ subscriber.old) }
    ensures closes { result ≢ 0 → subscriber.new.framing.closed ≡ true }
    ensures serves { C.is_honest subscriber.new.applied.store →
        C.serves subscriber.old.applied.store → result ≡ 0 →
        C.serves subscriber.new.applied.store }
{
    match subscriber.feed(piece, clock) {
        Ok(()) => {
            *text_length = 0;
            0
        }
        Err(fault) => pass_stream_fault(alloc, fault, text, text_length),
    }
}

/// Appends a status to the replies, as `Subscriber::status` does. Returns 0, or 9 where memory is
/// short.
pub fn append_status<P: Loads<C> + Drop, C: ReplicaStore + Drop>(
    subscriber: &mut Subscriber<P, C>,
    clock: i64,
    ask: bool,
) -> u32
    ensures store { subscriber.new.applied.store ≡ subscriber.old.applied.store }
    ensures asked { AsksOrStays C.place clock ask subscriber.old subscriber.new result }
{
    match subscriber.status(clock, ask) {
        Ok(()) => 0,
        Err(_) => MEMORY,
    }
}

/// Passes the status frames that wait to be sent to the server, and drops them where there was
/// room.
pub fn pass_replies<P: Loads<C> + Drop, C: ReplicaStore + Drop>(
    subscriber: &mut Subscriber<P, C>,
    room: &mut [u8],
    length: &mut usize,
) -> u32
    ensures passed { IsPassed subscriber.old.applied.replies room.old room.new length.new result }
    ensures taken { result ≡ 0 → DropsReplies C.place subscriber.old subscriber.new }
    ensures kept { result ≢ 0 → subscriber.new ≡ subscriber.old }
{
    let number = pass(subscriber.replies(), room, length);
    if number == 0 {
        subscriber.clear_replies();
    }
    number
}

/// Passes the lines that `pgsub dump` prints of the rows, in its order. Nothing changes. Where they
/// can't be read or made, the number of the fault is returned, and nothing is passed.
pub fn pass_rows<P: Loads<C> + Drop, C: ReplicaStore + Drop>(
    alloc: Global,
    subscriber: &mut Subscriber<P, C>,
    room: &mut [u8],
    length: &mut usize,
) -> u32
    ensures rows { C.serves subscriber.new.applied.store →
        PassesRows C.holds subscriber.old room.old room.new length.new result }
    ensures same { (tables : Tables) → seen C.place subscriber.new tables
        ≡ seen C.place subscriber.old tables }
    ensures stays { C.serves subscriber.new.applied.store →
        Stays C.holds subscriber.old.applied.store subscriber.new.applied.store }
    ensures serves { C.is_honest subscriber.new.applied.store → result ≡ 0 →
        C.serves subscriber.new.applied.store }
{
    *length = 0;
    let rows = match subscriber.rows() {
        Ok(rows) => rows,
        Err(fault) => return stream_number(fault),
    };
    match rows_text(alloc, rows.as_slice()) {
        Ok(text) => pass(text.as_bytes(), room, length),
        Err(AllocError) => stream_number(Fault::Memory),
    }
}

/// Makes a call, with room for what it passes, and returns its number.
pub(crate) fn make_call<P: Loads<C> + Drop, C: ReplicaStore + Drop>(
    subscriber: &mut Subscriber<P, C>,
    call: Call<'_>,
    room: &mut [u8],
    length: &mut usize,
) -> u32
    ensures { Does C.serves C.is_honest C.holds C.place call.entry subscriber.old subscriber.new
        room.old room.new length.new result }
{
    match call {
        Call::Feed {
            alloc,
            piece,
            clock,
        } => feed_piece(alloc, subscriber, piece, clock, room, length),
        Call::Status { clock, ask } => append_status(subscriber, clock, ask),
        Call::Replies => pass_replies(subscriber, room, length),
        Call::Rows { alloc } => pass_rows(alloc, subscriber, room, length),
        Call::Disconnect => {
            subscriber.disconnect();
            0
        }
    }
}

/// The LSN up to which the stored rows are complete, and that up to which the server may forget.
pub(crate) fn places<P: Loads<C> + Drop, C: ReplicaStore + Drop>(
    subscriber: &Subscriber<P, C>,
) -> (u64, u64)
    ensures position { result.0 ≡ C.place subscriber.now.applied.store }
    ensures confirmed { result.1 ≡ subscriber.now.applied.confirmed }
{
    (subscriber.position().0, subscriber.confirmed().0)
}

/// Drops a subscriber.
pub(crate) fn end<P: Loads<C> + Drop, C: ReplicaStore + Drop>(_subscriber: Subscriber<P, C>) {}
