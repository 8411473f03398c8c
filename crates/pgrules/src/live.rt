//! A server's sessions under a watch, whose bytes come in pieces.
//!
//! PostgreSQL documentation, Streaming Replication Protocol, START_REPLICATION.

ghost use Rattle.std.specs.Prelude.{◌≡◌, ◌≤◌, ◌<◌, ◌+◌, ◌++◌, ℕ, List, [], None, false, length};
ghost use Rattle.std.specs.Prelude.{take, IfSome};
ghost use Rattle.pgwire.specs.Frames.{CopyData, IsAllowed, frame};
ghost use Rattle.pgorder.specs.declared.Version.{Version as OfVersion};
ghost use Rattle.pgrules.specs.declared.findings.Findings.{Findings as OfSession};
ghost use Rattle.pgrules.specs.Live.{IsWatched, findings_of, list_of};
ghost use Rattle.pgrules.specs.Steps.{HearsNext, HearsWhole, PassesOver, found_lost, lost_as};

use crate::findings::{End, Findings};
use crate::hearing::{hear_frame, hear_payload};
use crate::seen::Seen;
use pgcompared::{HEADER_LEN, front_payload};
use pglsn::Lsn;
use pgorder::Version;
use pgwatch::Watch;
use pgwire::{Deframer, WireFault};
use std::alloc::Global;

/// A watch over sessions that come one after the other. Each ends with its CopyDone, and the next
/// one begins with a new watch.
///
/// Where the frames of a session can't be told apart any more, nothing that comes later is watched:
/// no CopyDone is found then. No subscriber takes what comes after such a fault, unless it was that
/// memory ran out here.
#[derive(Drop)]
pub struct LiveWatch {
    alloc: Global,
    version: Version,
    limit: u64,
    max_frame: u32,
    deframer: Deframer,
    watch: Watch,
    seen: Seen,
    // where the next frame of the session begins, and how many bytes of it have come
    at: u64,
    came: u64,
    // where the watch over the session has ended, if it has
    end: Option<End>,
    // the frames can't be told apart any more
    lost: bool,
}

/// What the front of a piece gives.
#[derive(Drop)]
pub(crate) struct Front {
    /// How many bytes it has.
    pub(crate) count: usize,
    /// What is found of its session, where the watch over it ends with these bytes.
    pub(crate) found: Option<Findings>,
}

impl LiveWatch {
    /// A watch at the start of a session, which starts anywhere. Of a session's messages it holds
    /// at most `limit` relations, open transactions and items of these.
    pub fn new(alloc: Global, version: Version, max_frame: u32, limit: u64) -> LiveWatch
        requires { max_frame ≤ 2147483643 }
        ensures { IsWatched version limit max_frame [] result [] }
    {
        LiveWatch {
            alloc,
            version,
            limit,
            max_frame,
            deframer: Deframer::new(alloc, max_frame),
            watch: Watch::new(alloc, version, Lsn(0), limit),
            seen: Seen::nothing(),
            at: 0,
            came: 0,
            end: None,
            lost: false,
        }
    }

    /// What is found of the session so far.
    pub fn findings(&self) -> Findings
        ensures { result ≡ findings_of self.now }
    {
        Findings {
            seen: self.seen,
            end: self.end.unwrap_or(End::Whole),
        }
    }

    /// Hears the front of a piece, up to the end of one frame.
    pub(crate) fn hear_front(&mut self, piece: &[u8]) -> Front
        requires { 0 < length piece.now }
        ensures count { (result.count ≤ length piece.now) × (0 < result.count) }
        ensures watched { (v : OfVersion) (limit max : ℕ) (all : List ℕ) (told : List OfSession) →
            max ≤ 2147483643 → IsWatched v limit max all self.old told →
            IsWatched v limit max (all ++ take result.count piece.now) self.new
            (told ++ list_of result.found) }
    {
        if self.lost {
            return Front {
                count: piece.len(),
                found: None,
            };
        }
        match self.whole_front(piece) {
            Some(payload) => Front {
                count: payload.len() + HEADER_LEN,
                found: self.hear_whole(payload),
            },
            None => self.hear_part(piece),
        }
    }

    // The payload of the CopyData with which a piece begins, where that is whole, nothing is held
    // and the watch goes on. It's heard in its place then.
    fn whole_front<'p>(&self, piece: &'p [u8]) -> Option<&'p [u8]>
        ensures goes_on { IfSome result (λ _. self.now.end ≡ None) }
        ensures held { IfSome result (λ _. self.now.came ≡ self.now.at) }
        ensures allowed { IfSome result (λ p. IsAllowed self.now.max_frame (CopyData p.now)) }
        ensures front { IfSome result (λ p. take (length p.now + 5) piece.now
            ≡ frame (CopyData p.now)) }
        ensures bound { IfSome result (λ p. length p.now + 5 ≤ length piece.now) }
    {
        if self.end.is_none() && self.came == self.at {
            front_payload(piece, self.max_frame)
        } else {
            None
        }
    }

    // Hears a payload of CopyData in its place, where nothing is held.
    fn hear_whole(&mut self, payload: &[u8]) -> Option<Findings>
        ensures { self.old.watch.ended ≡ None → HearsWhole self.old payload.now self.new result }
    {
        let len = (payload.len() + HEADER_LEN) as u64;
        let Some(came) = self.came.checked_add(len) else {
            return self.lose(WireFault::Memory);
        };
        self.came = came;
        if let Err(end) = hear_payload(&mut self.watch, &mut self.seen, self.at, payload) {
            self.end = Some(end);
            return Some(self.findings());
        }
        self.at = came;
        None
    }

    // Hears the front of a piece that goes into the deframer.
    fn hear_part(&mut self, piece: &[u8]) -> Front
        requires some { 0 < length piece.now }
        requires whole { self.old.lost ≡ false }
        ensures count { (result.count ≤ length piece.now) × (0 < result.count) }
        ensures watched { (v : OfVersion) (limit max : ℕ) (all : List ℕ) (told : List OfSession) →
            max ≤ 2147483643 → IsWatched v limit max all self.old told →
            IsWatched v limit max (all ++ take result.count piece.now) self.new
            (told ++ list_of result.found) }
    {
        let count = match self.deframer.feed(piece) {
            Ok(count) if count > 0 => count,
            // (a deframer that waits takes some)
            Ok(_) => {
                return Front {
                    count: piece.len(),
                    found: self.lose(WireFault::Memory),
                };
            }
            Err(fault) => {
                return Front {
                    count: piece.len(),
                    found: self.lose(fault),
                };
            }
        };
        if self.end.is_some() {
            self.pass_over();
            return Front { count, found: None };
        }
        let found = match self.came.checked_add(count as u64) {
            Some(came) => {
                self.came = came;
                self.hear_next()
            }
            None => self.lose(WireFault::Memory),
        };
        Front { count, found }
    }

    // Hears the frame that is whole, if one is.
    fn hear_next(&mut self) -> Option<Findings>
        ensures { self.old.watch.ended ≡ None → HearsNext self.old self.new result }
    {
        let Some(frame) = self.deframer.whole() else {
            return None;
        };
        if let Err(end) = hear_frame(&mut self.watch, &mut self.seen, self.at, &frame) {
            self.deframer.release();
            self.end = Some(end);
            return Some(self.findings());
        }
        self.at = self.came;
        self.pass_over();
        None
    }

    // Forgets the frame that is whole, if one is. With CopyDone the next session begins.
    fn pass_over(&mut self)
        ensures { PassesOver self.old self.new }
    {
        self.deframer.release();
        if self.deframer.is_done() {
            self.deframer.reset();
            self.watch = Watch::new(self.alloc, self.version, Lsn(0), self.limit);
            self.seen = Seen::nothing();
            self.at = 0;
            self.came = 0;
            self.end = None;
        }
    }

    // The frames can't be told apart any more, or there is no memory for them.
    fn lose(&mut self, fault: WireFault) -> Option<Findings>
        ensures new { self.new ≡ lost_as self.old fault self.old.end }
        ensures found { result ≡ found_lost self.old fault self.old.end }
    {
        self.lost = true;
        if self.end.is_some() {
            return None;
        }
        let at = self.at;
        self.end = Some(End::Unframed { at, fault });
        Some(self.findings())
    }
}
