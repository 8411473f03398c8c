//! A reader of a server's bytes that hands them on, and compares meanwhile the commits that come
//! with those that came before.
//!
//! PostgreSQL documentation, Streaming Replication Protocol, START_REPLICATION.

ghost use Rattle.std.specs.Prelude.{◌≡◌, ◌≤◌, ◌<◌, ◌-◌, ◌+◌, ◌++◌, ℕ, List, [], length, take, drop};
ghost use Rattle.std.specs.Prelude.{◌↔◌, ◌&&◌, IfOk, IfSome, OnErr, None, Ok, true, false};
ghost use Rattle.std.specs.Io.KnownBytes.{Consumes, IsAtEnd, Keeps, ReadConsumes, prepend_known};
ghost use Rattle.std.specs.Io.{ReadsAtMost};
ghost use Rattle.pgorder.specs.declared.Version.{Version};
ghost use Rattle.pgrepeats.specs.declared.past.Past.{Past as Noted};
ghost use Rattle.pgcompared.specs.Live.{IsCompared};
ghost use Rattle.pgcompared.specs.declared.finding.Finding.{Finding as Found};
ghost use Rattle.pgpast.specs.Handing.{Asks, IsAskedFirst, IsHanded, KeepsTold, Tells};
ghost use Rattle.pgpast.specs.Handing.{ahead_of, behind_of, contradicts, part_of, reached_of};

use crate::file::NotesFile;
use crate::lines::Counts;
use crate::notes::Notes;
use crate::position::StorePosition;
use pgcompared::{Compared, Finding, Told};
use std::alloc::{AllocError, Global};
use std::io;
use std::io::{ErrorKind, Read};

/// The most bytes that are read at once.
const ROOM_LEN: usize = 1_048_576;

/// Hears what is found of commits.
pub trait RepeatListener {
    /// That hearing this took it from one state to another.
    ghost hears: { Self → Found → Self → Type 0 };

    /// That hearing that no more is noted did.
    ghost loses: { Self → Self → Type 0 };

    /// This was found.
    fn hear(&mut self, found: &Finding)
        ensures { hears self.old found.now self.new };

    /// Commits can't be noted in the file any more.
    fn hear_unkept(&mut self)
        ensures { loses self.old self.new };
}

/// A reader that hands on what another one gives, compares the commits that come with those that
/// came before, notes them, and tells a listener what is found.
///
/// At the first read it asks for the store's position. Where what is noted ends below that, commits
/// came that aren't noted.
///
/// One that stops hands on nothing of the frame of a commit that contradicts those before, from the
/// read on that completes it, and doesn't note it: it hands on what came before, and then each read
/// fails. So the next run finds the same.
#[derive(Drop)]
pub struct Comparing<
    R: Read + Drop,
    F: NotesFile + Drop,
    L: RepeatListener + Drop,
    P: StorePosition + Drop,
> {
    reader: R,
    notes: Notes<F>,
    listener: L,
    store: P,
    compared: Compared,
    stops: bool,
    // The store's position, once it was asked for.
    reached: Option<u64>,
    // What was read last ends at `len`. Up to `from` it was handed on, and up to `safe` it may be.
    room: Vec<u8>,
    from: usize,
    safe: usize,
    len: usize,
}

// Whether a commit contradicts those before.
fn contradicts(found: &Option<Finding>) -> bool
    ensures { result ≡ contradicts found.now }
{
    matches!(found, Some(Finding::Contradicted { .. }))
}

// Whether it stops with what was found.
fn stops_at(stops: bool, found: &Option<Finding>) -> bool
    ensures { result ≡ (stops && contradicts found.now) }
{
    stops && contradicts(found)
}

// Tells what was found.
fn tell<L: RepeatListener>(listener: &mut L, told: &Told)
    ensures { Tells L.hears told.now.found listener.old listener.new }
{
    if let Some(found) = &told.found {
        listener.hear(found);
    }
}

// Notes what was heard.
fn keep<F: NotesFile + Drop, L: RepeatListener>(notes: &mut Notes<F>, listener: &mut L, told: &Told)
    ensures { KeepsTold F.holds L.loses told.now (notes.old, listener.old)
        (notes.new, listener.new) }
{
    match notes.keep(told.forgot, told.noted) {
        Ok(()) => {}
        Err(_) => listener.hear_unkept(),
    }
}

impl<
    R: Read + Drop,
    F: NotesFile + Drop,
    L: RepeatListener + Drop,
    P: StorePosition + Drop,
> Comparing<R, F, L, P> {
    /// One of which nothing is read yet. With `stops` it stops at a contradiction.
    ///
    /// # Errors
    ///
    /// Memory has run out.
    pub fn new(
        alloc: Global,
        reader: R,
        listener: L,
        store: P,
        compared: Compared,
        notes: Notes<F>,
        stops: bool,
    ) -> Result<Comparing<R, F, L, P>, AllocError>
        ensures reader { IfOk result (λ it. (it.reader ≡ reader) × (it.stops ≡ stops)) }
        ensures unread { IfOk result (λ it. (it.store ≡ store) × (it.reached ≡ None)
            × (part_of it.room.items it.from it.len ≡ [])) }
        ensures kept { IfOk result (λ it. (it.listener ≡ listener) × (it.notes ≡ notes)
            × (it.compared ≡ compared)) }
        ensures handed { (v : Version) (limit max : ℕ) (past : Noted) (reached : ℕ) →
            IsCompared v limit max past reached [] compared [] →
            IfOk result (λ it. IsHanded F.holds L.hears L.loses v limit max past reached
            (notes, listener) stops []
            (ahead_of it.room.items it.from it.safe it.len)
            (behind_of it.room.items it.from it.safe it.len) it.compared (it.notes, it.listener)) }
    {
        let room = vec![in alloc; 0u8; ROOM_LEN]?;
        Ok(Comparing {
            reader,
            notes,
            listener,
            store,
            compared,
            stops,
            reached: None,
            room,
            from: 0,
            safe: 0,
            len: 0,
        })
    }

    /// Whether it has stopped: where not, nothing that was read is kept back.
    pub fn has_stopped(&self) -> bool
        ensures stopped { (result ≡ true) ↔ (self.now.safe < self.now.len) }
        ensures open { result ≡ false →
            behind_of self.now.room.items self.now.from self.now.safe self.now.len ≡ [] }
    {
        self.safe < self.len
    }

    /// What came of the commits so far.
    pub fn counts(&self) -> Counts
        ensures equal { result.equal ≡ self.now.compared.hearing.noting.equal }
        ensures unknown { result.unknown ≡ self.now.compared.hearing.noting.past.unknown }
        ensures forgotten { result.forgotten ≡ self.now.compared.hearing.noting.past.forgotten }
    {
        let past = self.compared.past();
        Counts {
            equal: self.compared.equal(),
            unknown: past.unknown(),
            forgotten: past.forgotten(),
        }
    }

    // Asks at the first read up to where the store has all that came.
    fn ask(&mut self)
        ensures asks { Asks P.says self.old.store self.old.reached self.new.reached }
        ensures stops { self.new.stops ≡ self.old.stops }
        ensures same { self.new ≡ record self.old {
          compared = self.new.compared;
          reached = self.new.reached;
        } }
        ensures handed { (v : Version) (limit max : ℕ) (past : Noted) (first : _)
            (given : List ℕ) →
            IsAskedFirst self.old.reached
            (given ++ part_of self.old.room.items self.old.from self.old.len) →
            IsHanded F.holds L.hears L.loses v limit max past
            (reached_of self.old.reached) first self.old.stops given
            (ahead_of self.old.room.items self.old.from self.old.safe self.old.len)
            (behind_of self.old.room.items self.old.from self.old.safe self.old.len)
            self.old.compared (self.old.notes, self.old.listener) →
            IsHanded F.holds L.hears L.loses v limit max past
            (reached_of self.new.reached) first self.new.stops given
            (ahead_of self.new.room.items self.new.from self.new.safe self.new.len)
            (behind_of self.new.room.items self.new.from self.new.safe self.new.len)
            self.new.compared (self.new.notes, self.new.listener) }
    {
        if self.reached.is_none() {
            let reached = self.store.position();
            self.compared.reach(reached);
            self.reached = Some(reached);
        }
    }

    // Hears the front of what was read behind `taken`, up to the end of one frame, and returns how
    // many bytes that is; none where it stops before them.
    fn hear_front(&mut self, taken: usize, len: usize) -> Option<usize>
        requires { (taken < len) × (len ≤ length self.old.room.items) }
        ensures bound { IfSome result (λ n. (n ≤ len - taken) × (0 < n)) }
        ensures same { self.new ≡ record self.old {
          compared = self.new.compared;
          notes = self.new.notes;
          listener = self.new.listener;
        } }
        ensures goes_on { (v : Version) (limit max : ℕ) (past : Noted) (reached : ℕ)
            (first : _) (given : List ℕ) →
            IsHanded F.holds L.hears L.loses v limit max past reached first
            self.old.stops given (take taken self.old.room.items) []
            self.old.compared (self.old.notes, self.old.listener) →
            IfSome result (λ n. IsHanded F.holds L.hears L.loses v limit max past reached first
            self.old.stops given
            (take (taken + n) self.old.room.items) [] self.new.compared
            (self.new.notes, self.new.listener)) }
        ensures stops { (v : Version) (limit max : ℕ) (past : Noted) (reached : ℕ)
            (first : _) (given : List ℕ) →
            IsHanded F.holds L.hears L.loses v limit max past reached first
            self.old.stops given (take taken self.old.room.items) []
            self.old.compared (self.old.notes, self.old.listener) → result ≡ None →
            IsHanded F.holds L.hears L.loses v limit max past reached first
            self.old.stops given (take taken self.old.room.items)
            (drop taken (take len self.old.room.items)) self.new.compared
            (self.new.notes, self.new.listener) }
    {
        let mut told = Told::nothing(false);
        let count = self.compared.hear_front(&self.room[taken..len], &mut told);
        tell(&mut self.listener, &told);
        if stops_at(self.stops, &told.found) {
            return None;
        }
        keep(&mut self.notes, &mut self.listener, &told);
        Some(count)
    }

    // Hears what was read, and returns how much of it may be handed on.
    fn hear(&mut self, len: usize) -> usize
        requires { len ≤ length self.old.room.items }
        ensures bound { (result ≤ len) × (len ≤ length self.old.room.items) }
        ensures kept { (self.new.room.items ≡ self.old.room.items)
            × (self.new.from ≡ self.old.from) }
        ensures same { self.new ≡ record self.old {
          compared = self.new.compared;
          notes = self.new.notes;
          listener = self.new.listener;
        } }
        ensures handed { (v : Version) (limit max : ℕ) (past : Noted) (reached : ℕ)
            (first : _) (given : List ℕ) →
            IsHanded F.holds L.hears L.loses v limit max past reached first
            self.old.stops given [] [] self.old.compared
            (self.old.notes, self.old.listener) →
            IsHanded F.holds L.hears L.loses v limit max past reached first
            self.old.stops given (take result self.old.room.items)
            (drop result (take len self.old.room.items)) self.new.compared
            (self.new.notes, self.new.listener) }
    {
        let mut taken = 0;
        while taken < len {
            match self.hear_front(taken, len) {
                Some(count) => taken += count,
                None => return taken,
            }
        }
        taken
    }

    // What was read and isn't handed on.
    fn kept(&self) -> &[u8]
        ensures { result.now ≡ part_of self.now.room.items self.now.from self.now.len }
    {
        if self.from <= self.len && self.len <= self.room.len() {
            &self.room[self.from..self.len]
        } else {
            &[]
        }
    }

    // Reads more, once all is handed on. Returns whether more came.
    fn fill(&mut self) -> io::Result<bool>
        requires { part_of self.old.room.items self.old.from self.old.len ≡ [] }
        ensures more { IfOk result (λ more.
            Consumes (R.remaining self.old.reader) (R.remaining self.new.reader)
            (part_of self.new.room.items self.new.from self.new.len)
            × (more ≡ false → IsAtEnd (R.remaining self.new.reader))) }
        ensures failed { OnErr result (Keeps (R.remaining self.old.reader)
            (R.remaining self.new.reader)
            × (part_of self.new.room.items self.new.from self.new.len ≡ [])) }
        ensures none { result ≡ Ok false →
            part_of self.new.room.items self.new.from self.new.len ≡ [] }
        ensures stops { self.new.stops ≡ self.old.stops }
        ensures asked { self.new.reached ≡ self.old.reached }
        ensures handed { (v : Version) (limit max : ℕ) (past : Noted) (reached : ℕ)
            (first : _) (given : List ℕ) →
            IsHanded F.holds L.hears L.loses v limit max past reached first
            self.old.stops given [] [] self.old.compared
            (self.old.notes, self.old.listener) →
            IsHanded F.holds L.hears L.loses v limit max past reached first
            self.old.stops given
            (ahead_of self.new.room.items self.new.from self.new.safe self.new.len)
            (behind_of self.new.room.items self.new.from self.new.safe self.new.len)
            self.new.compared (self.new.notes, self.new.listener) }
    {
        if self.room.is_empty() {
            return Err(ErrorKind::OutOfMemory.into());
        }
        let len = self.reader.read(self.room.as_mut_slice())?;
        self.from = 0;
        self.safe = self.hear(len);
        self.len = len;
        Ok(len > 0)
    }

    // Reads more, if all is handed on. Returns whether there is some.
    fn ready(&mut self) -> io::Result<bool>
        ensures kept { Keeps
            (prepend_known (part_of self.old.room.items self.old.from self.old.len)
            (R.remaining self.old.reader))
            (prepend_known (part_of self.new.room.items self.new.from self.new.len)
            (R.remaining self.new.reader)) }
        ensures none { result ≡ Ok false → IsAtEnd (R.remaining self.new.reader)
            × (part_of self.new.room.items self.new.from self.new.len ≡ []) }
        ensures stops { self.new.stops ≡ self.old.stops }
        ensures asked { self.new.reached ≡ self.old.reached }
        ensures handed { (v : Version) (limit max : ℕ) (past : Noted) (reached : ℕ)
            (first : _) (given : List ℕ) →
            IsHanded F.holds L.hears L.loses v limit max past reached first
            self.old.stops given
            (ahead_of self.old.room.items self.old.from self.old.safe self.old.len)
            (behind_of self.old.room.items self.old.from self.old.safe self.old.len)
            self.old.compared (self.old.notes, self.old.listener) →
            IsHanded F.holds L.hears L.loses v limit max past reached first
            self.old.stops given
            (ahead_of self.new.room.items self.new.from self.new.safe self.new.len)
            (behind_of self.new.room.items self.new.from self.new.safe self.new.len)
            self.new.compared (self.new.notes, self.new.listener) }
    {
        if !self.kept().is_empty() {
            return Ok(true);
        }
        self.fill()
    }

    // Hands on what may be, as far as there is room for it. Returns how many bytes.
    fn hand_on(&mut self, buf: &mut [u8]) -> usize
        ensures bound { (result ≤ length buf.new) × (length buf.new ≡ length buf.old) }
        ensures kept { part_of self.old.room.items self.old.from self.old.len
            ≡ take result buf.new ++ part_of self.new.room.items self.new.from self.new.len }
        ensures ahead { ahead_of self.old.room.items self.old.from self.old.safe self.old.len
            ≡ take result buf.new
            ++ ahead_of self.new.room.items self.new.from self.new.safe self.new.len }
        ensures behind { behind_of self.new.room.items self.new.from self.new.safe self.new.len
            ≡ behind_of self.old.room.items self.old.from self.old.safe self.old.len }
        ensures same { self.new ≡ record self.old { from = self.new.from } }
        ensures compared { (self.new.compared ≡ self.old.compared)
            × (self.new.notes ≡ self.old.notes) × (self.new.listener ≡ self.old.listener) }
    {
        let kept = self.kept();
        let count = self
            .safe
            .saturating_sub(self.from)
            .min(kept.len())
            .min(buf.len());
        buf[..count].copy_from_slice(&kept[..count]);
        self.from += count;
        count
    }
    // Reads where the store was asked.
    fn read_on(&mut self, buf: &mut [u8]) -> io::Result<usize>
        ensures bound { ReadsAtMost result buf.new }
        ensures bytes { ReadConsumes
            (prepend_known (part_of self.old.room.items self.old.from self.old.len)
            (R.remaining self.old.reader))
            (prepend_known (part_of self.new.room.items self.new.from self.new.len)
            (R.remaining self.new.reader)) result buf.new }
        ensures stops { self.new.stops ≡ self.old.stops }
        ensures asked { self.new.reached ≡ self.old.reached }
        ensures handed { (v : Version) (limit max : ℕ) (past : Noted) (reached : ℕ)
            (first : _) (given : List ℕ) →
            IsHanded F.holds L.hears L.loses v limit max past reached first
            self.old.stops given
            (ahead_of self.old.room.items self.old.from self.old.safe self.old.len)
            (behind_of self.old.room.items self.old.from self.old.safe self.old.len)
            self.old.compared (self.old.notes, self.old.listener) →
            IfOk result (λ n. IsHanded F.holds L.hears L.loses v limit max past reached first
            self.old.stops
            (given ++ take n buf.new)
            (ahead_of self.new.room.items self.new.from self.new.safe self.new.len)
            (behind_of self.new.room.items self.new.from self.new.safe self.new.len)
            self.new.compared (self.new.notes, self.new.listener)) }
        ensures failed { (v : Version) (limit max : ℕ) (past : Noted) (reached : ℕ)
            (first : _) (given : List ℕ) →
            IsHanded F.holds L.hears L.loses v limit max past reached first
            self.old.stops given
            (ahead_of self.old.room.items self.old.from self.old.safe self.old.len)
            (behind_of self.old.room.items self.old.from self.old.safe self.old.len)
            self.old.compared (self.old.notes, self.old.listener) →
            OnErr result (IsHanded F.holds L.hears L.loses v limit max past reached first
            self.old.stops given
            (ahead_of self.new.room.items self.new.from self.new.safe self.new.len)
            (behind_of self.new.room.items self.new.from self.new.safe self.new.len)
            self.new.compared (self.new.notes, self.new.listener)) }
    {
        if !self.ready()? {
            return Ok(0);
        }
        match self.hand_on(buf) {
            0 if !buf.is_empty() => Err(ErrorKind::Other.into()),
            count => Ok(count),
        }
    }
}

impl<R: Read + Drop, F: NotesFile + Drop, L: RepeatListener + Drop, P: StorePosition + Drop> Read
    for Comparing<R, F, L, P> {
    ghost remaining = { λ it. prepend_known (part_of it.room.items it.from it.len)
        (R.remaining it.reader) };

    fn read(&mut self, buf: &mut [u8]) -> io::Result<usize>
        ensures bound { ReadsAtMost result buf.new }
        ensures bytes { ReadConsumes
            (prepend_known (part_of self.old.room.items self.old.from self.old.len)
            (R.remaining self.old.reader))
            (prepend_known (part_of self.new.room.items self.new.from self.new.len)
            (R.remaining self.new.reader)) result buf.new }
        ensures stops { self.new.stops ≡ self.old.stops }
        ensures asks { Asks P.says self.old.store self.old.reached self.new.reached }
        ensures handed { (v : Version) (limit max : ℕ) (past : Noted) (first : _)
            (given : List ℕ) →
            IsAskedFirst self.old.reached
            (given ++ part_of self.old.room.items self.old.from self.old.len) →
            IsHanded F.holds L.hears L.loses v limit max past
            (reached_of self.old.reached) first
            self.old.stops given
            (ahead_of self.old.room.items self.old.from self.old.safe self.old.len)
            (behind_of self.old.room.items self.old.from self.old.safe self.old.len)
            self.old.compared (self.old.notes, self.old.listener) →
            IfOk result (λ n. IsHanded F.holds L.hears L.loses v limit max past
            (reached_of self.new.reached) first
            self.old.stops
            (given ++ take n buf.new)
            (ahead_of self.new.room.items self.new.from self.new.safe self.new.len)
            (behind_of self.new.room.items self.new.from self.new.safe self.new.len)
            self.new.compared (self.new.notes, self.new.listener)) }
        ensures failed { (v : Version) (limit max : ℕ) (past : Noted) (first : _)
            (given : List ℕ) →
            IsAskedFirst self.old.reached
            (given ++ part_of self.old.room.items self.old.from self.old.len) →
            IsHanded F.holds L.hears L.loses v limit max past
            (reached_of self.old.reached) first
            self.old.stops given
            (ahead_of self.old.room.items self.old.from self.old.safe self.old.len)
            (behind_of self.old.room.items self.old.from self.old.safe self.old.len)
            self.old.compared (self.old.notes, self.old.listener) →
            OnErr result (IsHanded F.holds L.hears L.loses v limit max past
            (reached_of self.new.reached) first
            self.old.stops given
            (ahead_of self.new.room.items self.new.from self.new.safe self.new.len)
            (behind_of self.new.room.items self.new.from self.new.safe self.new.len)
            self.new.compared (self.new.notes, self.new.listener)) }
    {
        self.ask();
        self.read_on(buf)
    }
}
