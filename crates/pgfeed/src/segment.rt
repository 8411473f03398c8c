//! A segment of a feed in a file.

ghost use Rattle.std.specs.Prelude.{◌≡◌, ◌<◌, ◌+◌, ◌++◌, ℕ, List, [], length, false, true};
ghost use Rattle.std.specs.Prelude.{string_bytes};
ghost use Rattle.std.specs.Prelude.{IsTrue, IfOk, OnOk, OnErr, IfErr};
ghost use Rattle.pgapply.specs.Stored.{IsOwnFault};
ghost use Rattle.pgapply.specs.declared.fault.StoreFault.TheVariants.{Refused};
ghost use Rattle.pgledger.specs.Entries.{Entry, entry_of};
ghost use Rattle.sqlite_disk.specs.Disk.{Holds, Only};
ghost use Rattle.pgfeed.specs.Segments.{IsFinished, KeepsEntries, Lasts, ChangesBehind};
ghost use Rattle.pgfeed.specs.Next.{FitsNext, IsNext, Remembers, next_text, next_told};

use crate::draft::Draft;
use crate::entries::{Piece, entry_text};
use crate::heads::closing_line;
use crate::told::{Told, remember};
use pgapply::{Commit, LogicalMessage, StoreFault};
use pgledger::{Heard, Image, Ledger};
use pglsn::Lsn;
use sqlite_disk::Disk;
use std::alloc::Global;

/// A segment of a feed: a ledger over one file, which has a head, and then the text of each commit.
/// As a ledger it tells no messages.
///
/// A write that fails may leave a rest after the commits. It is truncated where the segment is
/// opened again, at the position of the store.
///
/// It remembers which definitions it told since it was made or opened, up to 1,024, and at which
/// offset of the file each stands, so that the changes of later commits name that.
///
/// A commit that comes in parts is a draft at first: its lines are behind the commits and the room
/// for its own line, which is written last.
#[derive(Drop)]
pub struct Segment<D: Disk + Drop> {
    pub(crate) alloc: Global,
    pub(crate) disk: D,
    base: Lsn,
    pub(crate) last: Lsn,
    pub(crate) size: usize,
    pub(crate) told: Vec<Told>,
    is_stuck: bool,
    pub(crate) draft: Option<Draft>,
}

/// Makes all that a file has outlast a crash.
fn sync_file<D: Disk>(disk: &mut D) -> Result<(), StoreFault>
    requires { IsTrue (D.is_usable disk.old) }
    ensures durable { OnOk result (Only (D.seen disk.old) (D.may_leave disk.new)) }
    ensures clean { IsTrue (D.is_clean disk.new) → IsTrue (D.is_clean disk.old) }
    ensures seen { D.seen disk.new ≡ D.seen disk.old }
    ensures crash { (c : List ℕ) → D.may_leave disk.new c → D.may_leave disk.old c }
    ensures fault { IfErr result (λ fault. fault ≡ Refused) }
{
    match disk.sync() {
        Ok(()) => Ok(()),
        Err(_) => Err(StoreFault::Refused),
    }
}

impl<D: Disk + Drop> Segment<D> {
    pub(crate) fn of(alloc: Global, disk: D, base: Lsn, last: Lsn, size: usize) -> Segment<D>
        ensures disk { result.disk ≡ disk }
        ensures base { result.base ≡ base }
        ensures last { result.last ≡ last }
        ensures size { result.size ≡ size }
        ensures untold { result.told.items ≡ [] }
        ensures free { result.is_stuck ≡ false }
    {
        Segment {
            alloc,
            disk,
            base,
            last,
            size,
            told: Vec::new(alloc),
            is_stuck: false,
            draft: None,
        }
    }

    /// The LSN at which it begins.
    pub fn base(&self) -> Lsn
        ensures { result ≡ self.now.base }
    {
        self.base
    }

    /// The LSN at which its last commit ends, or at which it begins.
    pub fn last(&self) -> Lsn
        ensures { result ≡ self.now.last }
    {
        self.last
    }

    /// How many bytes its head and its commits have.
    pub fn size(&self) -> usize
        ensures { result ≡ self.now.size }
    {
        self.size
    }

    /// The file, to look at.
    pub(crate) fn disk(&self) -> &D
        ensures { result.now ≡ self.now.disk }
    {
        &self.disk
    }

    /// The file.
    pub fn into_disk(self) -> D
        ensures { result ≡ self.disk }
    {
        self.disk
    }

    /// The text of a commit with these messages after the last one, and the definitions that it
    /// tells.
    ///
    /// # Errors
    ///
    /// `Refused` where it doesn't end after the last one, and `Memory`.
    pub(crate) fn text(
        &self,
        messages: &[Heard],
        commit: &Commit<'_, '_>,
        images: &[Image<'_>],
    ) -> Result<Piece, StoreFault>
        ensures next { IfOk result (IsNext self.now (entry_of commit.now.end commit.now.about
            messages.now commit.now.work.now.changes images.now)) }
        ensures fault { IfErr result IsOwnFault }
    {
        if commit.end <= self.last {
            return Err(StoreFault::Refused);
        }
        let told = self.told.as_slice();
        Ok(entry_text(
            self.alloc, told, self.size, self.last, messages, commit, images,
        )?)
    }

    /// Writes the text of a commit, which ends there, after the last one.
    pub(crate) fn put(&mut self, end: Lsn, piece: Piece) -> Result<(), StoreFault>
        ensures written { OnOk result (0 < length (string_bytes piece.text) →
            Holds (D.seen self.new.disk) self.old.size (string_bytes piece.text)) }
        ensures size { OnOk result
            (self.new.size ≡ self.old.size + length (string_bytes piece.text)) }
        ensures told { OnOk result (Remembers (self.old.told.items ++ piece.told.items)
            self.new.told.items) }
        ensures last { OnOk result (self.new.last ≡ end) }
        ensures undone { OnErr result ((self.new.size ≡ self.old.size)
            × (self.new.last ≡ self.old.last)) }
        ensures untold { OnErr result (self.new.told.items ≡ self.old.told.items) }
        ensures behind { ChangesBehind self.old.size (D.seen self.old.disk) (D.seen self.new.disk)
            (D.may_leave self.old.disk) (D.may_leave self.new.disk) }
        ensures base { self.new.base ≡ self.old.base }
        ensures stuck { self.new.is_stuck ≡ self.old.is_stuck }
        ensures clean { IsTrue (D.is_clean self.new.disk) → IsTrue (D.is_clean self.old.disk) }
        ensures fault { IfErr result (λ fault. fault ≡ Refused) }
    {
        let Piece { text, told } = piece;
        self.draft = None; // Its lines are written over.
        if !self.disk.may_be_used() {
            return Err(StoreFault::Refused);
        }
        let Some(size) = self.size.checked_add(text.len()) else {
            return Err(StoreFault::Refused);
        };
        let Ok(()) = self.disk.write_at(self.size, text.as_bytes()) else {
            return Err(StoreFault::Refused);
        };
        let Ok(()) = remember(&mut self.told, told) else {
            return Err(StoreFault::Refused);
        };
        self.size = size;
        self.last = end;
        Ok(())
    }

    /// Writes the text of a commit after the last one.
    fn write(&mut self, commit: &Commit<'_, '_>, images: &[Image<'_>]) -> Result<(), StoreFault>
        ensures above { OnOk result (self.old.last < commit.now.end) }
        ensures fits { OnOk result (FitsNext self.old (entry_of commit.now.end
            commit.now.about [] commit.now.work.now.changes images.now)) }
        ensures text { OnOk result (Holds (D.seen self.new.disk) self.old.size (next_text
            self.old (entry_of commit.now.end commit.now.about []
            commit.now.work.now.changes images.now))) }
        ensures size { OnOk result (self.new.size ≡ self.old.size + length (next_text
            self.old (entry_of commit.now.end commit.now.about []
            commit.now.work.now.changes images.now))) }
        ensures told { OnOk result (Remembers (next_told self.old (entry_of commit.now.end
            commit.now.about [] commit.now.work.now.changes images.now)) self.new.told.items) }
        ensures last { OnOk result (self.new.last ≡ commit.now.end) }
        ensures undone { OnErr result ((self.new.size ≡ self.old.size)
            × (self.new.last ≡ self.old.last)) }
        ensures untold { OnErr result (self.new.told.items ≡ self.old.told.items) }
        ensures behind { ChangesBehind self.old.size (D.seen self.old.disk) (D.seen self.new.disk)
            (D.may_leave self.old.disk) (D.may_leave self.new.disk) }
        ensures base { self.new.base ≡ self.old.base }
        ensures stuck { self.new.is_stuck ≡ self.old.is_stuck }
        ensures fault { IfErr result IsOwnFault }
    {
        let piece = self.text(&[], commit, images)?;
        self.put(commit.end, piece)
    }

    /// Makes all that was written outlast a crash.
    pub(crate) fn flush(&mut self) -> Result<(), StoreFault>
        ensures durable { OnOk result (Only (D.seen self.old.disk) (D.may_leave self.new.disk)) }
        ensures seen { D.seen self.new.disk ≡ D.seen self.old.disk }
        ensures crash { (c : List ℕ) → D.may_leave self.new.disk c → D.may_leave self.old.disk c }
        ensures base { self.new.base ≡ self.old.base }
        ensures last { self.new.last ≡ self.old.last }
        ensures size { self.new.size ≡ self.old.size }
        ensures told { self.new.told.items ≡ self.old.told.items }
        ensures was_free { OnOk result (self.old.is_stuck ≡ false) }
        ensures free { OnOk result (self.new.is_stuck ≡ false) }
        ensures stuck { OnErr result (self.new.is_stuck ≡ true) }
        ensures clean { IsTrue (D.is_clean self.new.disk) → IsTrue (D.is_clean self.old.disk) }
        ensures fault { IfErr result (λ fault. fault ≡ Refused) }
    {
        if self.is_stuck || !self.disk.may_be_used() {
            self.is_stuck = true;
            return Err(StoreFault::Refused);
        }
        if let Err(fault) = sync_file(&mut self.disk) {
            self.is_stuck = true;
            return Err(fault);
        }
        Ok(())
    }

    /// Accepts nothing more from now on.
    pub(crate) fn stop(&mut self)
        ensures { self.new ≡ record self.old { is_stuck = true } }
    {
        self.is_stuck = true;
    }

    /// Ends the segment: writes the line that tells where its last commit ends, and syncs it. The
    /// segment accepts nothing more, also where this fails.
    ///
    /// # Errors
    ///
    /// `Refused` where a call of the file fails, or it has more than the head and the commits, and
    /// `Memory`.
    pub fn finish(&mut self) -> Result<(), StoreFault>
        ensures finished { OnOk result (IsTrue (D.is_clean self.new.disk) → (es : List Entry) →
            KeepsEntries self.old.base self.old.last self.old.size self.old.told.items
            (D.seen self.old.disk) es →
            IsFinished self.old.base self.old.last es (D.seen self.new.disk)
            (D.may_leave self.new.disk)) }
        ensures behind { ChangesBehind self.old.size (D.seen self.old.disk) (D.seen self.new.disk)
            (D.may_leave self.old.disk) (D.may_leave self.new.disk) }
        ensures base { self.new.base ≡ self.old.base }
        ensures last { self.new.last ≡ self.old.last }
        ensures size { self.new.size ≡ self.old.size }
        ensures told { self.new.told.items ≡ self.old.told.items }
        ensures stuck { self.new.is_stuck ≡ true }
        ensures clean { IsTrue (D.is_clean self.new.disk) → IsTrue (D.is_clean self.old.disk) }
        ensures fault { IfErr result IsOwnFault }
    {
        self.is_stuck = true;
        let line = closing_line(self.alloc, self.last)?;
        if !self.disk.may_be_used() {
            return Err(StoreFault::Refused);
        }
        let Ok(len) = self.disk.len() else {
            return Err(StoreFault::Refused);
        };
        if len != self.size {
            return Err(StoreFault::Refused);
        }
        let Ok(()) = self.disk.write_at(self.size, line.as_bytes()) else {
            return Err(StoreFault::Refused);
        };
        sync_file(&mut self.disk)
    }
}

impl<D: Disk + Drop> Ledger for Segment<D> {
    ghost use Rattle.std.specs.Prelude.{⊤, [], true, false, Some};
    ghost use Rattle.pgfeed.specs.Segments.{KeepsEntries, Lasts, Reopens};
    ghost use Rattle.pgfeed.specs.Cutting.Opened.{cut_at, wants_all};

    ghost begins = { λ l. l.base };

    ghost keeps = { λ l es. KeepsEntries l.base l.last l.size l.told.items (D.Disk.seen l.disk)
        es };

    ghost outlasts = { λ l p. Lasts l.base l.size (D.Disk.may_leave l.disk) p };

    ghost is_stuck = { λ l. l.is_stuck };

    ghost is_wanting = { λ _. true };

    ghost is_hearing = { λ _. false };

    ghost heard = { λ _. Some [] };

    // By itself a segment takes no parts.
    ghost drafts = { λ _ _. ⊤ };

    ghost reopens = { λ l p other. Reopens l.base l.size (D.Disk.may_leave l.disk) p other.base
        other.last other.size other.told.items (D.Disk.seen other.disk)
        (D.Disk.may_leave other.disk) };

    fn is_stuck(&self) -> bool {
        self.is_stuck
    }

    fn wants(&self) -> bool {
        true
    }

    fn hear(&mut self, _message: &LogicalMessage<'_>) {}

    fn forget(&mut self) {}

    fn append(&mut self, commit: &Commit<'_, '_>, images: &[Image<'_>]) -> Result<(), StoreFault> {
        if self.is_stuck {
            return Err(StoreFault::Refused);
        }
        match self.write(commit, images) {
            Ok(()) => Ok(()),
            Err(fault) => {
                self.is_stuck = true;
                Err(fault)
            }
        }
    }

    fn sync(&mut self) -> Result<(), StoreFault> {
        self.flush()
    }

    fn stick(&mut self) {
        self.is_stuck = true;
    }

    ghost cuts = { λ old new p told later opened kept ends lasting above. cut_at old.base old.last
        old.size p new.base new.last new.size old.told.items new.told.items
        (D.Disk.seen old.disk) (D.Disk.seen new.disk) (D.Disk.may_leave old.disk)
        (D.Disk.may_leave new.disk) told later
        (D.Disk.seen_may_stay old.disk) opened kept ends lasting };

    ghost unasked = { λ l no es. wants_all no };
}
