//! Sessions that are compared, whose bytes come in pieces.
//!
//! PostgreSQL documentation, Streaming Replication Protocol, START_REPLICATION.

ghost use Rattle.std.specs.Prelude.{◌≡◌, ◌≤◌, ◌<◌, ◌+◌, ◌++◌, ℕ, List, [], length, take, true};
ghost use Rattle.std.specs.Prelude.{false, IfSome};
ghost use Rattle.pgwire.specs.Frames.{CopyData, IsAllowed, frame};
ghost use Rattle.pgorder.specs.declared.Version.{Version as OfVersion};
ghost use Rattle.pgrepeats.specs.declared.past.Past.{Past as PastCommits};
ghost use Rattle.pgcompared.specs.declared.noting.Told.{Told as Answered};
ghost use Rattle.pgcompared.specs.Live.{HearsNext, HearsWhole, IsCompared, spoken};
ghost use Rattle.pgcompared.specs.Live.{told_deaf};
ghost use Rattle.pgcompared.specs.Noting.{told_nothing};

use crate::finding::Lost;
use crate::front::{HEADER_LEN, front_payload};
use crate::hearing::Hearing;
use crate::noting::Told;
use pgorder::Version;
use pgrepeats::Past;
use pgwire::{Deframer, Frame, WireFault};
use std::alloc::Global;

/// Sessions that come one after the other, whose commits are compared with those that came before.
/// Each ends with its CopyDone.
///
/// Where a session can't be read any more, nothing of it is compared from there on, and at its end
/// all is forgotten. Where its frames can't be told apart, nothing that comes later is compared.
#[derive(Drop)]
pub struct Compared {
    max_frame: u32,
    deframer: Deframer,
    hearing: Hearing,
    // how many bytes of the session have come
    came: u64,
    // the frames can't be told apart any more
    deaf: bool,
}

impl Compared {
    /// At the start of a session, which starts anywhere, with these commits that came before. Of
    /// each streamed transaction that is open at most `limit` points are kept at which items of
    /// another subtransaction begin. One with more isn't compared: at its commit all is forgotten.
    pub fn new(alloc: Global, version: Version, max_frame: u32, limit: u64, past: Past) -> Compared
        requires { max_frame ≤ 2147483643 }
        ensures { IsCompared version limit max_frame past 0 [] result [] }
    {
        Compared {
            max_frame,
            deframer: Deframer::new(alloc, max_frame),
            hearing: Hearing::new(alloc, version, limit, past),
            came: 0,
            deaf: false,
        }
    }

    /// Before the first byte of all: commits came up to here, and those that end above all that is
    /// noted may not be noted. Before this call all that came is noted.
    pub fn reach(&mut self, reached: u64)
        ensures { (v : OfVersion) (limit max : ℕ) (past : PastCommits) (before : ℕ)
            (told : List Answered) → IsCompared v limit max past before [] self.old told →
            IsCompared v limit max past reached [] self.new told }
    {
        self.hearing.noting.reach(reached);
    }

    /// What is noted.
    pub fn past(&self) -> &Past
        ensures { result.now ≡ self.now.hearing.noting.past }
    {
        &self.hearing.noting.past
    }

    /// How many commits came before, just so.
    pub fn equal(&self) -> u64
        ensures { result ≡ self.now.hearing.noting.equal }
    {
        self.hearing.noting.equal()
    }

    /// Hears the front of a piece, up to the end of one frame, and tells what comes of it. Returns
    /// how many bytes that is.
    pub fn hear_front(&mut self, piece: &[u8], told: &mut Told) -> usize
        requires some { 0 < length piece.now }
        requires untold { told.old ≡ told_nothing false }
        ensures count { (result ≤ length piece.now) × (0 < result) }
        ensures compared { (v : OfVersion) (limit max : ℕ) (past : PastCommits)
            (reached : ℕ) (all : List ℕ) (before : List Answered) →
            IsCompared v limit max past reached all self.old before →
            IsCompared v limit max past reached (all ++ take result piece.now) self.new
            (before ++ spoken told.new) }
    {
        if self.deaf {
            return piece.len();
        }
        match self.whole_front(piece) {
            Some(payload) => {
                self.hear_whole(payload, told);
                payload.len() + HEADER_LEN
            }
            None => self.hear_part(piece, told),
        }
    }

    // The payload of the CopyData with which a piece begins, where that is whole and nothing is
    // held. It's heard in its place then.
    fn whole_front<'p>(&self, piece: &'p [u8]) -> Option<&'p [u8]>
        ensures held { IfSome result (λ _. self.now.came ≡ self.now.hearing.at) }
        ensures allowed { IfSome result (λ p. IsAllowed self.now.max_frame (CopyData p.now)) }
        ensures front { IfSome result (λ p. take (length p.now + 5) piece.now
            ≡ frame (CopyData p.now)) }
        ensures bound { IfSome result (λ p. length p.now + 5 ≤ length piece.now) }
    {
        if self.came == self.hearing.at {
            front_payload(piece, self.max_frame)
        } else {
            None
        }
    }

    // Hears a payload of CopyData, where nothing is held.
    fn hear_whole(&mut self, payload: &[u8], told: &mut Told)
        requires { told.old ≡ told_nothing false }
        ensures { HearsWhole self.old payload.now self.new told.new }
    {
        let len = (payload.len() + HEADER_LEN) as u64;
        match self.came.checked_add(len) {
            Some(came) => {
                self.came = came;
                self.hearing.hear(&Frame::Data(payload), came, told);
            }
            None => self.stop_hearing(WireFault::Memory, told),
        }
    }

    // Hears the front of a piece that goes into the deframer.
    fn hear_part(&mut self, piece: &[u8], told: &mut Told) -> usize
        requires some { 0 < length piece.now }
        requires whole { self.old.deaf ≡ false }
        requires untold { told.old ≡ told_nothing false }
        ensures count { (result ≤ length piece.now) × (0 < result) }
        ensures compared { (v : OfVersion) (limit max : ℕ) (past : PastCommits)
            (reached : ℕ) (all : List ℕ) (before : List Answered) →
            IsCompared v limit max past reached all self.old before →
            IsCompared v limit max past reached (all ++ take result piece.now) self.new
            (before ++ spoken told.new) }
    {
        let count = match self.deframer.feed(piece) {
            Ok(count) if count > 0 => count,
            // (a deframer that waits takes some)
            Ok(_) => {
                self.stop_hearing(WireFault::Memory, told);
                return piece.len();
            }
            Err(fault) => {
                self.stop_hearing(fault, told);
                return piece.len();
            }
        };
        match self.came.checked_add(count as u64) {
            Some(came) => self.hear_next(came, told),
            None => self.stop_hearing(WireFault::Memory, told),
        }
        count
    }

    // Hears the frame that is whole, if one is. So many bytes of the session have come.
    fn hear_next(&mut self, came: u64, told: &mut Told)
        requires { told.old ≡ told_nothing false }
        ensures { HearsNext self.old came self.new told.new }
    {
        self.came = came;
        let Some(frame) = self.deframer.whole() else {
            return;
        };
        self.hearing.hear(&frame, came, told);
        self.deframer.release();
        if self.deframer.is_done() {
            self.deframer.reset();
            self.came = 0;
        }
    }

    // The frames can't be told apart any more, or there is no memory for them.
    fn stop_hearing(&mut self, fault: WireFault, told: &mut Told)
        requires { told.old ≡ told_nothing false }
        ensures new { self.new ≡ record self.old { deaf = true } }
        ensures told { told.new ≡ told_deaf self.old.hearing.lost self.old.hearing.at fault }
    {
        self.deaf = true;
        if !self.hearing.lost {
            *told = Told::lost(self.hearing.at, Lost::Unframed(fault));
        }
    }
}
