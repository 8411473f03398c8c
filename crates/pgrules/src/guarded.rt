//! A reader of a server's bytes that hands them on, and watches meanwhile which rules they keep.
//!
//! PostgreSQL documentation, Streaming Replication Protocol, START_REPLICATION.

ghost use Rattle.std.specs.Prelude.{◌≡◌, ◌≤◌, ◌<◌, ◌-◌, ◌+◌, ◌++◌, ℕ, List, [], length, take, drop};
ghost use Rattle.std.specs.Prelude.{◌↔◌, IfOk, IfSome, OnErr, None, true, false};
ghost use Rattle.std.specs.Io.KnownBytes.{ReadConsumes, prepend_known};
ghost use Rattle.std.specs.Io.{ReadsAtMost};
ghost use Rattle.pgorder.specs.declared.Version.{Version};
ghost use Rattle.pgrules.specs.declared.findings.Findings.{Findings as OfSession};
ghost use Rattle.pgrules.specs.Guarding.{IsGuarded};
ghost use Rattle.pgrules.specs.Live.{IsWatched};

use crate::findings::Findings;
use crate::live::{Front, LiveWatch};
use std::alloc::{AllocError, Global};
use std::io;
use std::io::{ErrorKind, Read};

/// The most bytes that are read at once.
const ROOM_LEN: usize = 1_048_576;

/// Hears what is found of sessions.
pub trait FindingListener {
    /// That hearing this took it from one state to another.
    ghost hears: { Self → OfSession → Self → Type 0 };

    /// The watch over a session ended with this.
    fn hear(&mut self, found: &Findings)
        ensures { hears self.old found.now self.new };
}

// Writes the part to the front of the room.
fn put(room: &mut [u8], part: &[u8])
    requires { length part.now ≤ length room.old }
    ensures put { take (length part.now) room.new ≡ part.now }
    ensures len { length room.new ≡ length room.old }
{
    room[..part.len()].copy_from_slice(part);
}

/// A reader that hands on what another one gives, watches it, and tells a listener where the watch
/// over a session ends before its bytes do: with a rule that is broken, or without.
///
/// One that stops hands on nothing of the frame that breaks a rule, from the read on that completes
/// it: it hands on what came before, and then each read fails.
///
/// One that waits watches nothing until it is told that sessions begin: a load comes first.
#[derive(Drop)]
pub struct Guarded<R: Read + Drop, L: FindingListener + Drop> {
    reader: R,
    listener: L,
    watch: LiveWatch,
    stops: bool,
    waits: bool,
    // what was read and isn't handed on, where it has stopped: so many bytes, the room's first
    room: Vec<u8>,
    kept: usize,
}

impl<R: Read + Drop, L: FindingListener + Drop> Guarded<R, L> {
    /// One of which nothing is read yet. With `stops` it stops where a rule is broken, and with
    /// `waits` a load comes before the sessions.
    ///
    /// # Errors
    ///
    /// Memory has run out.
    pub fn new(
        alloc: Global,
        reader: R,
        listener: L,
        watch: LiveWatch,
        stops: bool,
        waits: bool,
    ) -> Result<Guarded<R, L>, AllocError>
        ensures reader { IfOk result (λ it. (it.reader ≡ reader) × (it.stops ≡ stops)
            × (it.waits ≡ waits)) }
        ensures guarded { (v : Version) (limit max : ℕ) → max ≤ 2147483643 →
            IsWatched v limit max [] watch [] →
            IfOk result (λ it. IsGuarded L.hears v limit max listener stops [] []
            (take it.kept it.room.items) it.watch it.listener) }
    {
        let room = vec![in alloc; 0u8; ROOM_LEN]?;
        Ok(Guarded {
            reader,
            listener,
            watch,
            stops,
            waits,
            room,
            kept: 0,
        })
    }

    /// The reader whose bytes it hands on.
    pub fn reader(&self) -> &R
        ensures { result.now ≡ self.now.reader }
    {
        &self.reader
    }

    /// Whether it has stopped: where not, nothing that was read is kept back.
    pub fn has_stopped(&self) -> bool
        ensures stopped { (result ≡ true) ↔ (0 < self.now.kept) }
        ensures open { result ≡ false → take self.now.kept self.now.room.items ≡ [] }
    {
        self.kept > 0
    }

    /// What comes from here on are sessions. It watches them from their first byte.
    pub fn begin_sessions(&mut self)
        ensures begun { self.new ≡ record self.old { waits = false } }
    {
        self.waits = false;
    }

    // Hears the front of what was read behind `taken`, up to the end of one frame, and returns how
    // many bytes that is; none where it stops before them.
    fn hear_front(&mut self, buf: &[u8], taken: usize, len: usize) -> Option<usize>
        requires { (taken < len) × (len ≤ length buf.now) }
        ensures bound { IfSome result (λ n. (n ≤ len - taken) × (0 < n)) }
        ensures same { self.new ≡ record self.old {
          watch = self.new.watch;
          listener = self.new.listener;
        } }
        ensures goes_on { (v : Version) (limit max : ℕ) (first : _) (given : List ℕ) →
            max ≤ 2147483643 →
            IsGuarded L.hears v limit max first self.old.stops given (take taken buf.now) []
            self.old.watch self.old.listener →
            IfSome result (λ n. IsGuarded L.hears v limit max first self.old.stops given
            (take (taken + n) buf.now) [] self.new.watch self.new.listener) }
        ensures stops { (v : Version) (limit max : ℕ) (first : _) (given : List ℕ) →
            max ≤ 2147483643 →
            IsGuarded L.hears v limit max first self.old.stops given (take taken buf.now) []
            self.old.watch self.old.listener → result ≡ None →
            IsGuarded L.hears v limit max first self.old.stops given (take taken buf.now)
            (drop taken (take len buf.now)) self.new.watch self.new.listener }
    {
        let Front { count, found } = self.watch.hear_front(&buf[taken..len]);
        if let Some(found) = found {
            self.listener.hear(&found);
            if self.stops && found.broken().is_some() {
                return None;
            }
        }
        Some(count)
    }

    // Hears what was read, and returns how much of it may be handed on.
    fn hear(&mut self, buf: &[u8], len: usize) -> usize
        requires { len ≤ length buf.now }
        ensures bound { result ≤ len }
        ensures same { self.new ≡ record self.old {
          watch = self.new.watch;
          listener = self.new.listener;
        } }
        ensures guarded { (v : Version) (limit max : ℕ) (first : _) (given : List ℕ) →
            max ≤ 2147483643 →
            IsGuarded L.hears v limit max first self.old.stops given [] [] self.old.watch
            self.old.listener →
            IsGuarded L.hears v limit max first self.old.stops given (take result buf.now)
            (drop result (take len buf.now)) self.new.watch self.new.listener }
    {
        let mut taken = 0;
        while taken < len {
            match self.hear_front(buf, taken, len) {
                Some(count) => taken += count,
                None => return taken,
            }
        }
        taken
    }

    // Keeps back what isn't handed on.
    #[tactic(auto, using(crate::proofs::Keeping::kept_front))]
    fn keep(&mut self, part: &[u8])
        requires { length part.now ≤ length self.old.room.items }
        ensures kept { take self.new.kept self.new.room.items ≡ part.now }
        ensures same { self.new ≡ record self.old {
          room = self.new.room;
          kept = length part.now;
        } }
        ensures watch { (self.new.watch ≡ self.old.watch)
            × (self.new.listener ≡ self.old.listener) }
    {
        put(self.room.as_mut_slice(), part);
        self.kept = part.len();
    }

    // Hears what was read, keeps back what may not be handed on, and returns how much may be.
    fn sift(&mut self, buf: &[u8], len: usize) -> io::Result<usize>
        requires { (len ≤ length buf.now) × (len ≤ length self.old.room.items) }
        ensures bound { IfOk result (λ n. n ≤ len) }
        ensures some { IfOk result (λ n. n ≡ 0 → len ≡ 0) }
        ensures parts { IfOk result (λ n. take len buf.now
            ≡ take n buf.now ++ take self.new.kept self.new.room.items) }
        ensures all { OnErr result (take self.new.kept self.new.room.items ≡ take len buf.now) }
        ensures same { self.new ≡ record self.old {
          watch = self.new.watch;
          listener = self.new.listener;
          room = self.new.room;
          kept = self.new.kept;
        } }
        ensures handed { (v : Version) (limit max : ℕ) (first : _) (given : List ℕ) →
            max ≤ 2147483643 →
            IsGuarded L.hears v limit max first self.old.stops given [] [] self.old.watch
            self.old.listener →
            IfOk result (λ n. IsGuarded L.hears v limit max first self.old.stops
            (given ++ take n buf.now) [] (take self.new.kept self.new.room.items)
            self.new.watch self.new.listener) }
        ensures failed { (v : Version) (limit max : ℕ) (first : _) (given : List ℕ) →
            max ≤ 2147483643 →
            IsGuarded L.hears v limit max first self.old.stops given [] [] self.old.watch
            self.old.listener →
            OnErr result (IsGuarded L.hears v limit max first self.old.stops given []
            (take self.new.kept self.new.room.items) self.new.watch self.new.listener) }
    {
        let safe = self.hear(buf, len);
        self.keep(&buf[safe..len]);
        if safe == 0 && len > 0 {
            return Err(ErrorKind::Other.into());
        }
        Ok(safe)
    }

    // Reads what is watched, where nothing is kept back.
    fn read_watched(&mut self, buf: &mut [u8]) -> io::Result<usize>
        requires { self.old.kept ≡ 0 }
        ensures bound { ReadsAtMost result buf.new }
        ensures bytes { ReadConsumes (R.remaining self.old.reader)
            (prepend_known (take self.new.kept self.new.room.items) (R.remaining self.new.reader))
            result buf.new }
        ensures same { (self.new.stops ≡ self.old.stops) × (self.new.waits ≡ self.old.waits) }
        ensures handed { (v : Version) (limit max : ℕ) (first : _) (given : List ℕ) →
            max ≤ 2147483643 →
            IsGuarded L.hears v limit max first self.old.stops given [] [] self.old.watch
            self.old.listener →
            IfOk result (λ n. IsGuarded L.hears v limit max first self.old.stops
            (given ++ take n buf.new) [] (take self.new.kept self.new.room.items)
            self.new.watch self.new.listener) }
        ensures failed { (v : Version) (limit max : ℕ) (first : _) (given : List ℕ) →
            max ≤ 2147483643 →
            IsGuarded L.hears v limit max first self.old.stops given [] [] self.old.watch
            self.old.listener →
            OnErr result (IsGuarded L.hears v limit max first self.old.stops given []
            (take self.new.kept self.new.room.items) self.new.watch self.new.listener) }
    {
        let most = buf.len().min(self.room.len());
        if most == 0 && !buf.is_empty() {
            return Err(ErrorKind::OutOfMemory.into());
        }
        let len = match self.reader.read(&mut buf[..most]) {
            Ok(len) => len,
            Err(error) => return Err(error),
        };
        self.sift(buf, len)
    }
}

impl<R: Read + Drop, L: FindingListener + Drop> Read for Guarded<R, L> {
    ghost remaining = { λ it. prepend_known (take it.kept it.room.items) (R.remaining it.reader) };

    fn read(&mut self, buf: &mut [u8]) -> io::Result<usize>
        ensures bound { ReadsAtMost result buf.new }
        ensures bytes { ReadConsumes
            (prepend_known (take self.old.kept self.old.room.items) (R.remaining self.old.reader))
            (prepend_known (take self.new.kept self.new.room.items) (R.remaining self.new.reader))
            result buf.new }
        ensures same { (self.new.stops ≡ self.old.stops) × (self.new.waits ≡ self.old.waits) }
        ensures unheard { self.old.waits ≡ true →
            self.new ≡ record self.old { reader = self.new.reader } }
        ensures handed { (v : Version) (limit max : ℕ) (first : _) (given : List ℕ) →
            max ≤ 2147483643 → self.old.waits ≡ false →
            IsGuarded L.hears v limit max first self.old.stops given []
            (take self.old.kept self.old.room.items) self.old.watch self.old.listener →
            IfOk result (λ n. IsGuarded L.hears v limit max first self.old.stops
            (given ++ take n buf.new) [] (take self.new.kept self.new.room.items)
            self.new.watch self.new.listener) }
        ensures failed { (v : Version) (limit max : ℕ) (first : _) (given : List ℕ) →
            max ≤ 2147483643 →
            IsGuarded L.hears v limit max first self.old.stops given []
            (take self.old.kept self.old.room.items) self.old.watch self.old.listener →
            OnErr result (IsGuarded L.hears v limit max first self.old.stops given []
            (take self.new.kept self.new.room.items) self.new.watch self.new.listener) }
    {
        if self.kept > 0 {
            return Err(ErrorKind::Other.into());
        }
        if self.waits {
            return self.reader.read(buf);
        }
        self.read_watched(buf)
    }
}
