//! A feed: segments that follow each other.

ghost use Rattle.std.specs.Prelude.{◌≡◌, ◌<◌, ◌≤◌, ◌⊎◌, ◌↔◌, [], true, false, None, Some};
ghost use Rattle.std.specs.Prelude.{IsTrue, IfOk, IsSome, List, OnOk, OnErr, IfErr, is_some};
ghost use Rattle.std.specs.Prelude.{length};
ghost use Rattle.pgapply.specs.Stored.{IsOwnFault};
ghost use Rattle.pgledger.specs.Entries.{entry_of};
ghost use Rattle.pgledger.specs.Drafts.{AddsLines, BeginsDraft, KeepsDraft};
ghost use Rattle.pgledger.specs.Images.{Line, lines};
ghost use Rattle.pgledger.specs.Ledgers.{Appends, AppendsAtMost, Hears, Keeps, Rests, Syncs};
ghost use Rattle.pgfeed.specs.Drafts.{DropsDraft, HasDraft};
ghost use Rattle.pgfeed.specs.Feeds.{Ends, Goes, IsFull, IsHonestFeed, IsLate, IsOver, KeepsAll};
ghost use Rattle.pgfeed.specs.Beside.{KeepsRest, LastsFrom, is_stuck_feed};
ghost use Rattle.pgfeed.specs.Feeds.{MayEnd, MayGoOver, ReopensAt, TakesAllBack};
ghost use Rattle.pgfeed.specs.Feeds.{HearsWithin, IsTimed, StaysTimed, first_time, heard_by};
ghost use Rattle.pgfeed.specs.Hearing.{all_heard};
ghost use Rattle.pgfeed.specs.Naming.{head_of};
ghost use Rattle.pgfeed.specs.Next.{IsNext, next_text};

use crate::entries::Piece;
use crate::fault::MessageFault;
use crate::folder::{Folder, Names, SegmentLimits};
use crate::hearing::Hearing;
use crate::segment::Segment;
use crate::segments::{begin_segment, close_all};
use pgapply::{About, Commit, LogicalMessage, StoreFault, Work};
use pgledger::{Image, Ledger, Supposing};
use pglsn::Lsn;
use std::alloc::Global;

/// How many segments that have ended stay open at most: each is an open file, of which a process
/// may have 1,024 where nothing else is set.
pub const MOST_ENDED: usize = 256;

/// The size in bytes of a commit of which it isn't known: more than any segment has room for.
pub const ANY_SIZE: usize = 18_446_744_073_709_551_615;

/// A feed: a ledger over a folder of segments that follow each other. The last one is open; the
/// others have ended, each with a line that tells the LSN at which it ends and the next one begins.
///
/// A segment ends before a commit that it doesn't accept by its limits, also amid commits that the
/// store beside the feed stores at once. Until the store has stored them, a crash may open the feed
/// again in a segment that has ended, so the feed keeps it with its file. It lets go of it at the
/// next commit after a sync: the store has taken all that was synced then, or the feed is stuck.
/// While it keeps `MOST_ENDED`, the open one doesn't end.
///
/// The time of a commit is compared with that of the first commit that was appended to the segment
/// since the feed was opened, of those whose time is known.
///
/// Where it stopped since it lost messages, it keeps the cause, whatever it forgets.
#[derive(Drop)]
pub struct Feed<F: Folder + Drop> {
    alloc: Global,
    folder: F,
    ended: Vec<Segment<F::File>>,
    pub(crate) segment: Segment<F::File>,
    begins: Lsn,
    synced: Lsn,
    pub(crate) first: Option<i64>,
    names: Names,
    limits: SegmentLimits,
    pub(crate) hearing: Hearing,
    pub(crate) cause: Option<MessageFault>,
}

/// The first time that is known, else that of this commit.
pub(crate) fn first_time(first: Option<i64>, about: Option<About>) -> Option<i64>
    ensures { result ≡ first_time first about }
{
    match (first, about) {
        (Some(first), _) => Some(first),
        (None, Some(about)) => Some(about.time),
        (None, None) => None,
    }
}

impl<F: Folder + Drop> Feed<F> {
    /// A feed whose open segment is this one, of which all is synced.
    pub(crate) fn of(
        alloc: Global,
        folder: F,
        segment: Segment<F::File>,
        begins: Lsn,
        names: Names,
        limits: SegmentLimits,
    ) -> Feed<F>
        ensures ended { result.ended.items ≡ [] }
        ensures segment { result.segment ≡ segment }
        ensures begins { result.begins ≡ begins }
        ensures synced { result.synced ≡ segment.last }
        ensures names { result.names ≡ names }
        ensures limits { result.limits ≡ limits }
        ensures folder { result.folder ≡ folder }
        ensures untimed { result.first ≡ None }
        ensures unheard { all_heard result.hearing ≡ Some [] }
        ensures within { HearsWithin result }
    {
        let synced = segment.last();
        Feed {
            alloc,
            folder,
            ended: Vec::new(alloc),
            segment,
            begins,
            synced,
            first: None,
            names,
            limits,
            hearing: Hearing::new(alloc),
            cause: None,
        }
    }

    /// The LSN at which its first segment begins, as it was opened.
    pub fn begins(&self) -> Lsn
        ensures { result ≡ self.now.begins }
    {
        self.begins
    }

    /// The LSN at which its open segment begins.
    pub fn base(&self) -> Lsn
        ensures { result ≡ self.now.segment.base }
    {
        self.segment.base()
    }

    /// The LSN at which its last commit ends, or at which it begins.
    pub fn last(&self) -> Lsn
        ensures { result ≡ self.now.segment.last }
    {
        self.segment.last()
    }

    /// The folder, which has the files of other segments back, and that of the open one.
    pub fn into_parts(self) -> (F, F::File)
        ensures back { F.is_true result.0 → TakesAllBack F.File.may_leave F.File.is_clean F.is_true
            F.places F.has self.ended.items self.folder result.0 }
        ensures file { result.1 ≡ self.segment.disk }
    {
        let mut folder = self.folder;
        close_all(&mut folder, self.ended);
        (folder, self.segment.into_disk())
    }

    /// Whether the open segment has no room for so many bytes more.
    fn is_full(&self, bytes: usize) -> bool
        ensures { IsTrue result ↔ IsFull self.now.limits.bytes self.now.segment bytes }
    {
        let room = self.limits.bytes.saturating_sub(self.segment.size() as u64);
        room < bytes as u64
    }

    /// Whether a commit comes too late for the open segment.
    fn is_late(&self, about: Option<About>) -> bool
        ensures { IsTrue result ↔ IsLate self.now.limits.micros self.now.first about }
    {
        let (Some(first), Some(about)) = (self.first, about) else {
            return false;
        };
        first <= about.time && self.limits.micros <= about.time.abs_diff(first)
    }

    /// Whether the open segment ends before a commit whose text has so many bytes.
    fn ends_before(&self, about: Option<About>, bytes: usize) -> bool
        ensures { IsTrue result ↔ ((length self.now.ended.items < MOST_ENDED)
            × IsOver self.now.limits.bytes self.now.limits.micros self.now.first
            self.now.segment about bytes) }
    {
        self.ended.len() < MOST_ENDED
            && self.segment.base() < self.segment.last()
            && (self.is_full(bytes) || self.is_late(about))
    }

    /// Gives the folder back the files of segments that have ended.
    fn let_go(&mut self)
        ensures ended { self.new.ended.items ≡ [] }
        ensures back { F.is_true self.new.folder → TakesAllBack F.File.may_leave F.File.is_clean
            F.is_true F.places F.has self.old.ended.items self.old.folder self.new.folder }
        ensures segment { self.new.segment ≡ self.old.segment }
        ensures begins { self.new.begins ≡ self.old.begins }
        ensures synced { self.new.synced ≡ self.old.synced }
        ensures first { self.new.first ≡ self.old.first }
        ensures limits { self.new.limits ≡ self.old.limits }
        ensures names { self.new.names ≡ self.old.names }
        ensures hearing { self.new.hearing ≡ self.old.hearing }
    {
        let ended = std::mem::replace(&mut self.ended, Vec::new(self.alloc));
        close_all(&mut self.folder, ended);
    }

    /// Lets go of segments that have ended where all was synced: the store has stored it since.
    fn let_settled_go(&mut self)
        ensures goes { Goes F.File.seen F.File.may_leave F.File.is_clean F.is_true
            F.places F.has self.old self.new }
        ensures kept { Keeps (KeepsAll F.File.seen F.File.may_leave F.File.is_clean F.is_true
            F.places F.has) self.old self.new }
        ensures stays { (self.new.ended.items ≡ self.old.ended.items)
            ⊎ ((self.old.synced ≡ self.old.segment.last) × (self.new.ended.items ≡ [])) }
        ensures gone { self.old.synced ≡ self.old.segment.last → self.new.ended.items ≡ [] }
        ensures segment { self.new.segment ≡ self.old.segment }
        ensures begins { self.new.begins ≡ self.old.begins }
        ensures synced { self.new.synced ≡ self.old.synced }
        ensures first { self.new.first ≡ self.old.first }
        ensures limits { self.new.limits ≡ self.old.limits }
        ensures names { self.new.names ≡ self.old.names }
        ensures hearing { self.new.hearing ≡ self.old.hearing }
    {
        if self.synced == self.segment.last() {
            self.let_go();
        }
    }

    /// Ends the open segment, and begins the next one where it ends. The ended one stays open.
    fn begin_next(&mut self) -> Result<(), StoreFault>
        requires some { self.old.segment.base < self.old.segment.last }
        requires free { self.old.segment.is_stuck ≡ false }
        ensures goes { Goes F.File.seen F.File.may_leave F.File.is_clean F.is_true
            F.places F.has self.old self.new }
        ensures kept { Keeps (KeepsAll F.File.seen F.File.may_leave F.File.is_clean F.is_true
            F.places F.has) self.old self.new }
        ensures ends { ((self.new.segment.base ≡ self.old.segment.base)
            × (self.new.ended.items ≡ self.old.ended.items))
            ⊎ Ends F.File.seen F.File.may_leave F.File.is_clean self.old.ended.items
            self.new.ended.items self.old.segment self.new.segment }
        ensures next { OnOk result (self.new.segment.base ≡ self.old.segment.last) }
        ensures told { OnOk result (F.File.seen self.new.segment.disk
            ≡ head_of self.old.names self.old.segment.last) }
        ensures last { self.new.segment.last ≡ self.old.segment.last }
        ensures free { OnOk result (self.new.segment.is_stuck ≡ false) }
        ensures untimed { OnOk result (self.new.first ≡ None) }
        ensures begins { self.new.begins ≡ self.old.begins }
        ensures synced { self.new.synced ≡ self.old.synced }
        ensures limits { self.new.limits ≡ self.old.limits }
        ensures names { self.new.names ≡ self.old.names }
        ensures hearing { self.new.hearing ≡ self.old.hearing }
        ensures fault { IfErr result IsOwnFault }
    {
        let base = self.segment.last();
        self.segment.finish()?;
        self.ended.reserve(1)?;
        let segment = begin_segment(self.alloc, &mut self.folder, &self.names, base)?;
        let ended = std::mem::replace(&mut self.segment, segment);
        self.ended.push_reserved(ended);
        self.first = None;
        Ok(())
    }

    /// Goes on to the next segment where the open one ends before a commit whose text has so many
    /// bytes. Whether the segment is the same as before.
    pub(crate) fn make_room(
        &mut self,
        about: Option<About>,
        bytes: usize,
    ) -> Result<bool, StoreFault>
        requires { self.old.segment.is_stuck ≡ false }
        ensures goes { Goes F.File.seen F.File.may_leave F.File.is_clean F.is_true
            F.places F.has self.old self.new }
        ensures kept { Keeps (KeepsAll F.File.seen F.File.may_leave F.File.is_clean F.is_true
            F.places F.has) self.old self.new }
        ensures ends { MayEnd F.File.seen F.File.may_leave F.File.is_clean self.old.synced
            self.old.ended.items self.new.ended.items self.old.segment self.new.segment }
        ensures over { (self.new.segment.base ≡ self.old.segment.base) ⊎
            IsOver self.old.limits.bytes self.old.limits.micros self.old.first self.old.segment
            about bytes }
        ensures next { OnOk result (IsOver self.old.limits.bytes self.old.limits.micros
            self.old.first self.old.segment about bytes →
            (self.new.segment.base ≡ self.old.segment.last)
            ⊎ MayGoOver MOST_ENDED self.old.synced self.old.ended.items self.old.segment) }
        ensures let_go { OnOk result (self.old.synced ≡ self.old.segment.last →
            length self.new.ended.items ≤ 1) }
        ensures same { IfOk result (λ it. IsTrue it → self.new.segment ≡ self.old.segment) }
        ensures last { self.new.segment.last ≡ self.old.segment.last }
        ensures free { OnOk result (self.new.segment.is_stuck ≡ false) }
        ensures first { OnOk result (StaysTimed self.old.first self.new.first self.old.segment
            self.new.segment) }
        ensures begins { self.new.begins ≡ self.old.begins }
        ensures synced { self.new.synced ≡ self.old.synced }
        ensures limits { self.new.limits ≡ self.old.limits }
        ensures names { self.new.names ≡ self.old.names }
        ensures hearing { self.new.hearing ≡ self.old.hearing }
        ensures fault { IfErr result IsOwnFault }
    {
        self.let_settled_go();
        if self.ends_before(about, bytes) {
            self.begin_next()?;
            return Ok(false);
        }
        Ok(true)
    }

    /// The text of a commit in the open segment: this one, if it is of that, or another.
    fn text(
        &self,
        commit: &Commit<'_, '_>,
        images: &[Image<'_>],
        piece: Piece,
        is_next: bool,
    ) -> Result<Piece, StoreFault>
        requires { IsTrue is_next → IsNext self.now.segment (entry_of commit.now.end
            commit.now.about (heard_by self.now) commit.now.work.now.changes images.now) piece }
        ensures next { IfOk result (IsNext self.now.segment (entry_of commit.now.end
            commit.now.about (heard_by self.now) commit.now.work.now.changes images.now)) }
        ensures fault { IfErr result IsOwnFault }
    {
        if is_next {
            Ok(piece)
        } else {
            self.segment.text(self.hearing.messages(), commit, images)
        }
    }

    /// Writes the text of a commit after the last one, or into the next segment, with the messages
    /// that were heard.
    fn write(&mut self, commit: &Commit<'_, '_>, images: &[Image<'_>]) -> Result<(), StoreFault>
        requires { self.old.segment.is_stuck ≡ false }
        ensures goes { Goes F.File.seen F.File.may_leave F.File.is_clean F.is_true
            F.places F.has self.old self.new }
        ensures appended { OnOk result (Appends (KeepsAll F.File.seen F.File.may_leave
            F.File.is_clean F.is_true F.places F.has) (entry_of commit.now.end commit.now.about
            (heard_by self.old) commit.now.work.now.changes images.now) self.old self.new) }
        ensures kept { OnErr result (Keeps (KeepsAll F.File.seen F.File.may_leave F.File.is_clean
            F.is_true F.places F.has) self.old self.new) }
        ensures all_kept { OnOk result (IsSome (all_heard self.old.hearing)) }
        ensures forgot { OnOk result (all_heard self.new.hearing ≡ Some []) }
        ensures within { HearsWithin self.old → HearsWithin self.new }
        ensures first { OnOk result (IsTimed self.old.first self.new.first commit.now.about
            self.old.segment self.new.segment) }
        ensures limits { self.new.limits ≡ self.old.limits }
        ensures ends { MayEnd F.File.seen F.File.may_leave F.File.is_clean self.old.synced
            self.old.ended.items self.new.ended.items self.old.segment self.new.segment }
        ensures over { (self.new.segment.base ≡ self.old.segment.base) ⊎
            IsOver self.old.limits.bytes self.old.limits.micros self.old.first self.old.segment
            commit.now.about (length (next_text self.old.segment (entry_of commit.now.end
            commit.now.about (heard_by self.old) commit.now.work.now.changes images.now))) }
        ensures next { OnOk result (IsOver self.old.limits.bytes self.old.limits.micros
            self.old.first self.old.segment commit.now.about (length (next_text
            self.old.segment (entry_of commit.now.end commit.now.about (heard_by self.old)
            commit.now.work.now.changes images.now))) →
            (self.new.segment.base ≡ self.old.segment.last)
            ⊎ MayGoOver MOST_ENDED self.old.synced self.old.ended.items self.old.segment) }
        ensures let_go { OnOk result (self.old.synced ≡ self.old.segment.last →
            length self.new.ended.items ≤ 1) }
        ensures free { OnOk result (self.new.segment.is_stuck ≡ false) }
        ensures begins { self.new.begins ≡ self.old.begins }
        ensures synced { self.new.synced ≡ self.old.synced }
        ensures names { self.new.names ≡ self.old.names }
        ensures fault { IfErr result IsOwnFault }
    {
        self.hearing.test()?;
        let piece = self.segment.text(self.hearing.messages(), commit, images)?;
        let is_same = self.make_room(commit.about, piece.text.len())?;
        // the next segment has told nothing yet
        let piece = self.text(commit, images, piece, is_same)?;
        self.segment.put(commit.end, piece)?;
        self.hearing.forget();
        self.first = first_time(self.first, commit.about);
        Ok(())
    }
}

/// What is supposed of its folder.
impl<F: Folder + Supposing + Drop> Supposing for Feed<F> {
    ghost supposed = { F.supposed };
}

impl<F: Folder + Drop> Ledger for Feed<F> {
    ghost use Rattle.pgfeed.specs.Beside.{KeepsRest, LastsFrom, is_stuck_feed, told_from};
    ghost use Rattle.pgfeed.specs.Feeds.{ReopensAt};
    ghost use Rattle.pgfeed.specs.Cutting.Beside.{cut_ledger};
    ghost use Rattle.pgfeed.specs.Cutting.Opened.{wants_all};

    ghost begins = { told_from };

    ghost keeps = { KeepsRest F.File.seen F.File.may_leave F.File.is_clean F.is_true F.places
        F.has };

    ghost outlasts = { LastsFrom F.File.seen F.File.may_leave F.File.is_clean F.is_true F.places
        F.has };

    ghost is_stuck = { is_stuck_feed };

    ghost is_wanting = { λ _. true };

    ghost is_hearing = { λ l. is_some l.limits.messages };

    ghost heard = { λ l. all_heard l.hearing };

    ghost reopens = { ReopensAt F.File.seen F.File.may_leave F.File.is_clean F.is_true F.places
        F.has };

    ghost drafts = { λ l. HasDraft F.File.seen l.segment (heard_by l) };

    fn is_stuck(&self) -> bool {
        self.segment.is_stuck()
    }

    fn wants(&self) -> bool {
        true
    }

    /// Keeps a message, if messages are told and it doesn't pass the limit. One that came in a
    /// stream block leaves the feed stuck: nobody knows whether it survives.
    fn hear(&mut self, message: &LogicalMessage<'_>)
        ensures hears { is_some self.old.limits.messages ≡ true →
            Hears is_stuck_feed (λ (l : Feed F F.File). all_heard l.hearing) message.now self.old
            self.new }
        ensures deaf { is_some self.old.limits.messages ≡ false → self.new ≡ self.old }
        ensures within { HearsWithin self.old → HearsWithin self.new }
        ensures limits { self.new.limits ≡ self.old.limits }
        ensures was_free { self.new.segment.is_stuck ≡ false → self.old.segment.is_stuck ≡ false }
        ensures kept { Keeps (KeepsRest F.File.seen F.File.may_leave F.File.is_clean F.is_true
            F.places F.has) self.old self.new }
        ensures rests { Rests (λ (l : Feed F F.File). 0) (λ (l : Feed F F.File). true)
            (λ (l : Feed F F.File). is_some l.limits.messages)
            (LastsFrom F.File.seen F.File.may_leave F.File.is_clean F.is_true F.places F.has)
            (ReopensAt F.File.seen F.File.may_leave F.File.is_clean F.is_true F.places F.has)
            self.old self.new }
    {
        let Some(limit) = self.limits.messages else {
            return;
        };
        if message.is_streamed {
            self.hearing.lose(MessageFault::Streamed);
            self.cause = Some(MessageFault::Streamed);
            self.segment.stop();
            return;
        }
        self.hearing.hear(limit, message);
    }

    fn forget(&mut self)
        ensures forgot { all_heard self.new.hearing ≡ Some [] }
        ensures within { HearsWithin self.new }
        ensures limits { self.new.limits ≡ self.old.limits }
        ensures stuck { self.new.segment.is_stuck ≡ self.old.segment.is_stuck }
        ensures kept { Keeps (KeepsRest F.File.seen F.File.may_leave F.File.is_clean F.is_true
            F.places F.has) self.old self.new }
        ensures rests { Rests (λ (l : Feed F F.File). 0) (λ (l : Feed F F.File). true)
            (λ (l : Feed F F.File). is_some l.limits.messages)
            (LastsFrom F.File.seen F.File.may_leave F.File.is_clean F.is_true F.places F.has)
            (ReopensAt F.File.seen F.File.may_leave F.File.is_clean F.is_true F.places F.has)
            self.old self.new }
    {
        self.hearing.forget();
    }

    /// Appends a commit, with the messages that were heard. Where the open segment ends before it,
    /// the next one begins where the last commit ends.
    fn append(&mut self, commit: &Commit<'_, '_>, images: &[Image<'_>]) -> Result<(), StoreFault>
        ensures ends { MayEnd F.File.seen F.File.may_leave F.File.is_clean self.old.synced
            self.old.ended.items self.new.ended.items self.old.segment self.new.segment }
        ensures over { (self.new.segment.base ≡ self.old.segment.base) ⊎
            IsOver self.old.limits.bytes self.old.limits.micros self.old.first self.old.segment
            commit.now.about (length (next_text self.old.segment (entry_of commit.now.end
            commit.now.about (heard_by self.old) commit.now.work.now.changes images.now))) }
        ensures next { OnOk result (IsOver self.old.limits.bytes self.old.limits.micros
            self.old.first self.old.segment commit.now.about (length (next_text
            self.old.segment (entry_of commit.now.end commit.now.about (heard_by self.old)
            commit.now.work.now.changes images.now))) →
            (self.new.segment.base ≡ self.old.segment.last)
            ⊎ MayGoOver MOST_ENDED self.old.synced self.old.ended.items self.old.segment) }
        ensures let_go { OnOk result (self.old.synced ≡ self.old.segment.last →
            length self.new.ended.items ≤ 1) }
        ensures synced { self.new.synced ≡ self.old.synced }
        ensures first { OnOk result (IsTimed self.old.first self.new.first commit.now.about
            self.old.segment self.new.segment) }
        ensures limits { self.new.limits ≡ self.old.limits }
        ensures names { self.new.names ≡ self.old.names }
        ensures appended { OnOk result (Appends (KeepsRest F.File.seen F.File.may_leave
            F.File.is_clean F.is_true F.places F.has) (entry_of commit.now.end commit.now.about
            (heard_by self.old) commit.now.work.now.changes images.now) self.old self.new) }
        ensures all_heard { OnOk result (IsSome (all_heard self.old.hearing)) }
        ensures forgot { OnOk result (all_heard self.new.hearing ≡ Some []) }
        ensures within { HearsWithin self.old → HearsWithin self.new }
        ensures was_free { OnOk result (self.old.segment.is_stuck ≡ false) }
        ensures free { OnOk result (self.new.segment.is_stuck ≡ false) }
        ensures refused { OnErr result (AppendsAtMost (KeepsRest F.File.seen F.File.may_leave
            F.File.is_clean F.is_true F.places F.has) commit.now.end self.old self.new) }
        ensures stuck { OnErr result (self.new.segment.is_stuck ≡ true) }
        ensures fault { IfErr result IsOwnFault }
        ensures rests { Rests (λ (l : Feed F F.File). 0) (λ (l : Feed F F.File). true)
            (λ (l : Feed F F.File). is_some l.limits.messages)
            (LastsFrom F.File.seen F.File.may_leave F.File.is_clean F.is_true F.places F.has)
            (ReopensAt F.File.seen F.File.may_leave F.File.is_clean F.is_true F.places F.has)
            self.old self.new }
    {
        if self.segment.is_stuck() {
            return Err(StoreFault::Refused);
        }
        match self.write(commit, images) {
            Ok(()) => Ok(()),
            Err(fault) => {
                self.stop();
                Err(fault)
            }
        }
    }

    fn takes_parts(&self) -> bool {
        true
    }

    /// Begins a commit that comes in parts, as a draft. The open segment ends before it, if it has
    /// a commit: how long this one will be isn't known.
    fn begin_parts(&mut self, about: Option<About>) -> Result<(), StoreFault>
        ensures begun { OnOk result (BeginsDraft (λ (l : Feed F F.File).
            HasDraft F.File.seen l.segment (heard_by l)) self.new) }
        ensures ends { MayEnd F.File.seen F.File.may_leave F.File.is_clean self.old.synced
            self.old.ended.items self.new.ended.items self.old.segment self.new.segment }
        ensures next { OnOk result (IsOver self.old.limits.bytes self.old.limits.micros
            self.old.first self.old.segment about ANY_SIZE →
            (self.new.segment.base ≡ self.old.segment.last)
            ⊎ MayGoOver MOST_ENDED self.old.synced self.old.ended.items self.old.segment) }
        ensures kept { Keeps (KeepsRest F.File.seen F.File.may_leave F.File.is_clean F.is_true
            F.places F.has) self.old self.new }
        ensures heard { all_heard self.new.hearing ≡ all_heard self.old.hearing }
        ensures within { HearsWithin self.old → HearsWithin self.new }
        ensures synced { self.new.synced ≡ self.old.synced }
        ensures limits { self.new.limits ≡ self.old.limits }
        ensures was_free { OnOk result (self.old.segment.is_stuck ≡ false) }
        ensures free { OnOk result (self.new.segment.is_stuck ≡ false) }
        ensures stuck { OnErr result (self.new.segment.is_stuck ≡ true) }
        ensures fault { IfErr result IsOwnFault }
        ensures rests { Rests (λ (l : Feed F F.File). 0) (λ (l : Feed F F.File). true)
            (λ (l : Feed F F.File). is_some l.limits.messages)
            (LastsFrom F.File.seen F.File.may_leave F.File.is_clean F.is_true F.places F.has)
            (ReopensAt F.File.seen F.File.may_leave F.File.is_clean F.is_true F.places F.has)
            self.old self.new }
    {
        if self.segment.is_stuck() {
            return Err(StoreFault::Refused);
        }
        match self.begin_draft(about) {
            Ok(()) => Ok(()),
            Err(fault) => {
                self.stop();
                Err(fault)
            }
        }
    }

    /// Writes the lines of a part behind those of the parts before it.
    fn append_part(&mut self, part: &Work<'_>, images: &[Image<'_>]) -> Result<(), StoreFault>
        ensures added { OnOk result (AddsLines (λ (l : Feed F F.File).
            HasDraft F.File.seen l.segment (heard_by l)) (lines part.now.changes images.now)
            self.old self.new) }
        ensures kept { Keeps (KeepsRest F.File.seen F.File.may_leave F.File.is_clean F.is_true
            F.places F.has) self.old self.new }
        ensures heard { all_heard self.new.hearing ≡ all_heard self.old.hearing }
        ensures within { HearsWithin self.old → HearsWithin self.new }
        ensures synced { self.new.synced ≡ self.old.synced }
        ensures limits { self.new.limits ≡ self.old.limits }
        ensures was_free { OnOk result (self.old.segment.is_stuck ≡ false) }
        ensures free { OnOk result (self.new.segment.is_stuck ≡ false) }
        ensures stuck { OnErr result (self.new.segment.is_stuck ≡ true) }
        ensures fault { IfErr result IsOwnFault }
        ensures rests { Rests (λ (l : Feed F F.File). 0) (λ (l : Feed F F.File). true)
            (λ (l : Feed F F.File). is_some l.limits.messages)
            (LastsFrom F.File.seen F.File.may_leave F.File.is_clean F.is_true F.places F.has)
            (ReopensAt F.File.seen F.File.may_leave F.File.is_clean F.is_true F.places F.has)
            self.old self.new }
    {
        if self.segment.is_stuck() {
            return Err(StoreFault::Refused);
        }
        match self.add_to_draft(part, images) {
            Ok(()) => Ok(()),
            Err(fault) => {
                self.stop();
                Err(fault)
            }
        }
    }

    /// Writes the line of the commit, before its lines.
    fn end_parts(&mut self, end: Lsn, about: Option<About>) -> Result<(), StoreFault>
        requires { (ls : List Line) × HasDraft F.File.seen self.old.segment (heard_by self.old) ls }
        ensures appended { OnOk result (KeepsDraft (λ (l : Feed F F.File).
            HasDraft F.File.seen l.segment (heard_by l)) (KeepsRest F.File.seen F.File.may_leave
            F.File.is_clean F.is_true F.places F.has) end about (all_heard self.old.hearing)
            self.old self.new) }
        ensures at_most { AppendsAtMost (KeepsRest F.File.seen F.File.may_leave
            F.File.is_clean F.is_true F.places F.has) end self.old self.new }
        ensures all_heard { OnOk result (IsSome (all_heard self.old.hearing)) }
        ensures forgot { OnOk result (all_heard self.new.hearing ≡ Some []) }
        ensures first { OnOk result (IsTimed self.old.first self.new.first about
            self.old.segment self.new.segment) }
        ensures within { HearsWithin self.old → HearsWithin self.new }
        ensures synced { self.new.synced ≡ self.old.synced }
        ensures limits { self.new.limits ≡ self.old.limits }
        ensures was_free { OnOk result (self.old.segment.is_stuck ≡ false) }
        ensures free { OnOk result (self.new.segment.is_stuck ≡ false) }
        ensures stuck { OnErr result (self.new.segment.is_stuck ≡ true) }
        ensures fault { IfErr result IsOwnFault }
        ensures rests { Rests (λ (l : Feed F F.File). 0) (λ (l : Feed F F.File). true)
            (λ (l : Feed F F.File). is_some l.limits.messages)
            (LastsFrom F.File.seen F.File.may_leave F.File.is_clean F.is_true F.places F.has)
            (ReopensAt F.File.seen F.File.may_leave F.File.is_clean F.is_true F.places F.has)
            self.old self.new }
    {
        if self.segment.is_stuck() {
            return Err(StoreFault::Refused);
        }
        match self.end_draft(end, about) {
            Ok(()) => Ok(()),
            Err(fault) => {
                self.stop();
                Err(fault)
            }
        }
    }

    /// Truncates the lines of a commit whose parts haven't ended.
    fn drop_parts(&mut self)
        ensures dropped { self.new.segment.is_stuck ≡ false →
            DropsDraft F.File.seen self.old.segment self.new.segment }
        ensures kept { Keeps (KeepsRest F.File.seen F.File.may_leave F.File.is_clean F.is_true
            F.places F.has) self.old self.new }
        ensures heard { all_heard self.new.hearing ≡ all_heard self.old.hearing }
        ensures within { HearsWithin self.old → HearsWithin self.new }
        ensures synced { self.new.synced ≡ self.old.synced }
        ensures limits { self.new.limits ≡ self.old.limits }
        ensures was_free { self.new.segment.is_stuck ≡ false → self.old.segment.is_stuck ≡ false }
        ensures rests { Rests (λ (l : Feed F F.File). 0) (λ (l : Feed F F.File). true)
            (λ (l : Feed F F.File). is_some l.limits.messages)
            (LastsFrom F.File.seen F.File.may_leave F.File.is_clean F.is_true F.places F.has)
            (ReopensAt F.File.seen F.File.may_leave F.File.is_clean F.is_true F.places F.has)
            self.old self.new }
    {
        if self.segment.is_stuck() {
            return;
        }
        if self.drop_draft().is_err() {
            self.stop();
        }
    }

    /// Makes all that was appended outlast a crash.
    fn sync(&mut self) -> Result<(), StoreFault>
        ensures up_to { OnOk result (self.new.synced ≡ self.new.segment.last) }
        ensures stays { OnErr result (self.new.synced ≡ self.old.synced) }
        ensures heard { all_heard self.new.hearing ≡ all_heard self.old.hearing }
        ensures within { HearsWithin self.old → HearsWithin self.new }
        ensures ended { self.new.ended.items ≡ self.old.ended.items }
        ensures base { self.new.segment.base ≡ self.old.segment.base }
        ensures last { self.new.segment.last ≡ self.old.segment.last }
        ensures first { self.new.first ≡ self.old.first }
        ensures limits { self.new.limits ≡ self.old.limits }
        ensures names { self.new.names ≡ self.old.names }
        ensures synced { OnOk result (Syncs (KeepsRest F.File.seen F.File.may_leave
            F.File.is_clean F.is_true F.places F.has) (λ (l : Feed F F.File). 0)
            (LastsFrom F.File.seen F.File.may_leave F.File.is_clean F.is_true F.places F.has)
            self.old self.new) }
        ensures kept { Keeps (KeepsRest F.File.seen F.File.may_leave F.File.is_clean F.is_true
            F.places F.has) self.old self.new }
        ensures was_free { OnOk result (self.old.segment.is_stuck ≡ false) }
        ensures free { OnOk result (self.new.segment.is_stuck ≡ false) }
        ensures stuck { OnErr result (self.new.segment.is_stuck ≡ true) }
        ensures fault { IfErr result IsOwnFault }
        ensures rests { Rests (λ (l : Feed F F.File). 0) (λ (l : Feed F F.File). true)
            (λ (l : Feed F F.File). is_some l.limits.messages)
            (LastsFrom F.File.seen F.File.may_leave F.File.is_clean F.is_true F.places F.has)
            (ReopensAt F.File.seen F.File.may_leave F.File.is_clean F.is_true F.places F.has)
            self.old self.new }
    {
        self.segment.flush()?;
        self.synced = self.segment.last();
        Ok(())
    }

    fn stick(&mut self) {
        self.segment.stop();
    }

    fn cause(&self) -> Option<&str> {
        self.cause?.text()
    }

    ghost cuts = { λ old new p told later opened kept ends lasting above. cut_ledger F.File.seen
        F.File.may_leave F.File.is_clean F.is_true F.places F.has F.File.seen_may_stay old new p
        told later opened kept ends lasting above };

    ghost unasked = { λ l no es. wants_all no };
}
