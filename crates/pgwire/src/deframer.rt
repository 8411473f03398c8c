//! A stream in any chunks, as frames.

ghost use Rattle.std.specs.Prelude.{◌≡◌, ◌+◌, ◌*◌, ◌^◌, ◌<◌, ◌≤◌, ◌++◌, max, true, is_ok, length};
ghost use Rattle.std.specs.Prelude.{vec_len, vec_capacity, MatchResult, MatchOption, IfErr, OnOk};
ghost use Rattle.std.specs.Prelude.{OnErr, if◌then◌else◌, [], None};
ghost use Rattle.pgwire.specs.Frames.{IsFramingFault, HasPayloadLen, max_length};
ghost use Rattle.pgwire.specs.Borrowed.{frame_value};
ghost use Rattle.pgwire.specs.Deframed.{fresh, Stands, Waits, IsFed, IsReleased, payload_come};
ghost use Rattle.pgwire.specs.Held.{come, IsHeaderWith};

use crate::frame::{COPY_DONE_TAG, HEADER_LEN};
use crate::header::Header;
use crate::{Frame, WireFault};
use std::alloc::{AllocError, Global};
use std::marker::Model;

/// Splits a stream into frames, in whatever chunks it comes.
#[derive(Drop)]
pub struct Deframer {
    max_frame: u32,
    header: Header,
    payload: Vec<u8>,
    // CopyDone was released
    done: bool,
    fault: Option<WireFault>,
}

impl Model for Deframer {
    ghost use Rattle.std.specs.Prelude.{◌++◌, vec_capacity};
    ghost use Rattle.pgwire.specs.Deframed.{Deframed};

    ghost Value = { Deframed };

    ghost use Rattle.pgwire.specs.Held.{come, IsSound};

    ghost view = { λ d. record {
      max = d.max_frame;
      held = come d.header ++ d.payload.items;
      done = d.done;
      fault = d.fault;
      room = vec_capacity d.payload;
    } };

    ghost invariant = { λ d. IsSound d.max_frame d.header d.payload.items d.done d.fault };
}

impl Deframer {
    /// A deframer at the start of a stream, for payloads of at most `max_frame` bytes.
    pub fn new(alloc: Global, max_frame: u32) -> Deframer
        requires { max_frame + 4 ≤ max_length }
        ensures { result ≡ fresh max_frame }
    {
        Deframer {
            max_frame,
            header: Header::new(),
            payload: Vec::new(alloc),
            done: false,
            fault: None,
        }
    }

    /// Takes bytes from the front of the piece until one frame is complete or the piece is used up,
    /// and returns how many. A fault of the frames is returned again until `reset`; out of memory
    /// changes nothing.
    pub fn feed(&mut self, piece: &[u8]) -> Result<usize, WireFault>
        ensures fed { IsFed self.old piece.now result self.new }
        ensures bound { length self.new.held ≤ self.new.max + 5 }

        // Memory is asked for only where there is too little room for the bytes of the payload that
        // have come.
        ensures full { IfErr result (λ f. f ≡ WireFault.Memory →
            self.old.room < payload_come (self.old.held ++ piece.now)) }
    {
        if let Some(fault) = self.fault {
            return Err(fault);
        }
        let (header, payload_len) = match next(self.done, self.header, self.max_frame, piece) {
            Ok(next) => next,
            Err(fault) => {
                self.fault = Some(fault);
                return Err(fault);
            }
        };
        let count = header.len - self.header.len;
        let more = (payload_len - self.payload.len()).min(piece.len() - count);
        if more == 0 {
            self.header = header;
            return Ok(count);
        }
        let payload = &piece[count..count + more];
        if append(&mut self.payload, payload, payload_len).is_err() {
            return Err(WireFault::Memory);
        }
        self.header = header;
        Ok(count + more)
    }

    /// The complete frame, if there is one.
    pub fn whole(&self) -> Option<Frame<'_>>
        ensures { MatchOption result (Waits self.now) (λ f. Stands self.now (frame_value f)) }
    {
        if self.header.len < HEADER_LEN {
            return None;
        }
        let Ok(payload_len) = self.header.payload_len(self.max_frame) else {
            return None;
        };
        if self.payload.len() < payload_len {
            return None;
        }
        if self.header.bytes[0] == COPY_DONE_TAG {
            return Some(Frame::Done);
        }
        Some(Frame::Data(&self.payload))
    }

    /// Whether CopyDone was released. No frame follows it.
    pub fn is_done(&self) -> bool
        ensures { result ≡ self.now.done }
    {
        self.done
    }

    /// How many bytes of a payload it has memory for.
    pub fn room(&self) -> usize
        ensures { result ≡ self.now.room }
    {
        self.payload.capacity()
    }

    /// Forgets the complete frame. Without one it has no effect.
    pub fn release(&mut self)
        ensures { IsReleased self.old self.new }
    {
        if self.whole().is_some() {
            self.done = self.header.bytes[0] == COPY_DONE_TAG;
            self.header = Header::new();
            self.payload.clear();
        }
    }

    /// Makes it as after `new`, after a fault too, and gives back its memory.
    pub fn reset(&mut self)
        ensures { self.new ≡ fresh self.old.max }
    {
        self.header = Header::new();
        self.payload = Vec::new(*self.payload.allocator());
        self.done = false;
        self.fault = None;
    }
}

// Makes room for the next bytes of a payload of `payload_len` bytes. It asks for no more than twice
// the bytes that have come with them, whatever length the header claims.
fn make_room(payload: &mut Vec<u8>, bytes: &[u8], payload_len: usize) -> Result<(), AllocError>
    requires fits { vec_len payload.old + length bytes.now ≤ payload_len }
    requires small { payload_len ≤ max_length }
    ensures items { payload.new.items ≡ payload.old.items }
    ensures ok { OnOk result (vec_len payload.old + length bytes.now ≤ vec_capacity payload.new) }
    ensures full { OnErr result (vec_capacity payload.old < vec_len payload.old + length
        bytes.now) }
    ensures err { OnErr result (vec_capacity payload.new ≡ vec_capacity payload.old) }
    ensures most { vec_capacity payload.new ≤ max (vec_capacity payload.old)
        (2 * (vec_len payload.old + length bytes.now)) }
{
    let come = payload.len() + bytes.len();
    if come <= payload.capacity() {
        return Ok(());
    }
    payload.reserve_exact((2 * come).min(payload_len) - payload.len())
}

// Appends the next bytes of a payload of `payload_len` bytes. An error changes nothing.
fn append(payload: &mut Vec<u8>, bytes: &[u8], payload_len: usize) -> Result<(), AllocError>
    requires fits { vec_len payload.old + length bytes.now ≤ payload_len }
    requires small { payload_len ≤ max_length }
    ensures items { payload.new.items ≡ (if is_ok result then payload.old.items ++ bytes.now else
        payload.old.items) }
    ensures full { OnErr result (vec_capacity payload.old < vec_len payload.old + length
        bytes.now) }
    ensures err { OnErr result (vec_capacity payload.new ≡ vec_capacity payload.old) }
{
    make_room(payload, bytes, payload_len)?;
    payload.extend_from_slice(bytes)
}

// The header with what the piece's front adds to it, and how many bytes of payload follow it, as
// far as it tells.
fn next(
    done: bool,
    header: Header,
    max_frame: u32,
    piece: &[u8],
) -> Result<(Header, usize), WireFault>
    requires { done ≡ true → header.len ≡ 0 }
    ensures { MatchResult result
        (λ x. IsHeaderWith header piece.now x.0 × HasPayloadLen max_frame (come x.0) x.1
        × (done ≡ true → piece.now ≡ []))
        (λ fault. IsFramingFault max_frame done (come header ++ piece.now) fault) }
{
    if done && !piece.is_empty() {
        return Err(WireFault::AfterDone);
    }
    let header = header.with(piece);
    let payload_len = header.payload_len(max_frame)?;
    Ok((header, payload_len))
}
