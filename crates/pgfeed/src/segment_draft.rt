//! A segment that takes a commit in parts.

ghost use Rattle.std.specs.Prelude.{◌≡◌, ◌<◌, ◌≤◌, ◌+◌, ◌++◌, ℕ, List, [], length, None, IsTrue};
ghost use Rattle.std.specs.Prelude.{string_bytes, OnOk, OnErr, IfErr};
ghost use Rattle.sqlite_disk.specs.Disk.{Follows, Holds, Torn};
ghost use Rattle.pgapply.specs.Stored.{IsOwnFault};
ghost use Rattle.pgapply.specs.declared.fault.StoreFault.TheVariants.{Refused};
ghost use Rattle.pgledger.specs.declared.heard.Heard.{Heard as Message};
ghost use Rattle.pgledger.specs.Images.{Line, lines};
ghost use Rattle.pgfeed.specs.Drafts.{DropsDraft, HasDraft, drafted};
ghost use Rattle.pgfeed.specs.Next.{Adds, Remembers};
ghost use Rattle.pgfeed.specs.Segments.{ChangesBehind};

use crate::draft::Draft;
use crate::heads::COMMIT_SIZE;
use crate::segment::Segment;
use crate::told::remember;
use pgapply::{About, StoreFault, Work};
use pgledger::{Heard, Image};
use pglsn::Lsn;
use sqlite_disk::Disk;

impl<D: Disk + Drop> Segment<D> {
    /// Writes a text at an offset behind what the segment has.
    fn put_text(&mut self, at: usize, text: &str) -> Result<(), StoreFault>
        requires { self.old.size ≤ at }
        ensures written { OnOk result (0 < length text.now →
            Holds (D.seen self.new.disk) at text.now) }
        ensures torn { Torn at (length text.now) (D.seen self.old.disk) (D.seen self.new.disk) }
        ensures behind { ChangesBehind self.old.size (D.seen self.old.disk)
            (D.seen self.new.disk) (D.may_leave self.old.disk) (D.may_leave self.new.disk) }
        ensures same { self.new ≡ record self.old { disk = self.new.disk } }
        ensures clean { IsTrue (D.is_clean self.new.disk) → IsTrue (D.is_clean self.old.disk) }
        ensures fault { IfErr result (λ fault. fault ≡ Refused) }
    {
        if !self.disk.may_be_used() {
            return Err(StoreFault::Refused);
        }
        match self.disk.write_at(at, text.as_bytes()) {
            Ok(()) => Ok(()),
            Err(_) => Err(StoreFault::Refused),
        }
    }

    /// Truncates the file behind the commits.
    fn cut_behind(&mut self) -> Result<(), StoreFault>
        ensures cut { OnOk result (length (D.seen self.new.disk) ≡ self.old.size) }
        ensures behind { ChangesBehind self.old.size (D.seen self.old.disk)
            (D.seen self.new.disk) (D.may_leave self.old.disk) (D.may_leave self.new.disk) }
        ensures same { self.new ≡ record self.old { disk = self.new.disk } }
        ensures clean { IsTrue (D.is_clean self.new.disk) → IsTrue (D.is_clean self.old.disk) }
        ensures fault { IfErr result (λ fault. fault ≡ Refused) }
    {
        if !self.disk.may_be_used() {
            return Err(StoreFault::Refused);
        }
        match self.disk.set_len(self.size) {
            Ok(()) => Ok(()),
            Err(_) => Err(StoreFault::Refused),
        }
    }

    /// Drops the draft, if there is one: its lines are truncated.
    ///
    /// # Errors
    ///
    /// `Refused` where the call of the file fails.
    pub(crate) fn drop_draft(&mut self) -> Result<(), StoreFault>
        ensures dropped { OnOk result (DropsDraft D.seen self.old self.new) }
        ensures behind { ChangesBehind self.old.size (D.seen self.old.disk)
            (D.seen self.new.disk) (D.may_leave self.old.disk) (D.may_leave self.new.disk) }
        ensures base { self.new.base ≡ self.old.base }
        ensures last { self.new.last ≡ self.old.last }
        ensures size { self.new.size ≡ self.old.size }
        ensures told { self.new.told.items ≡ self.old.told.items }
        ensures stuck { self.new.is_stuck ≡ self.old.is_stuck }
        ensures clean { IsTrue (D.is_clean self.new.disk) → IsTrue (D.is_clean self.old.disk) }
        ensures fault { IfErr result IsOwnFault }
    {
        if self.draft.is_none() {
            return Ok(());
        }
        self.draft = None;
        self.cut_behind()
    }

    /// Begins a draft with these messages. One that was begun before is dropped.
    ///
    /// # Errors
    ///
    /// `Refused` where a call of the file fails, and `Memory`.
    pub(crate) fn begin_draft(&mut self, messages: &[Heard]) -> Result<(), StoreFault>
        ensures begun { OnOk result (HasDraft D.seen self.new messages.now []) }
        ensures behind { ChangesBehind self.old.size (D.seen self.old.disk)
            (D.seen self.new.disk) (D.may_leave self.old.disk) (D.may_leave self.new.disk) }
        ensures base { self.new.base ≡ self.old.base }
        ensures last { self.new.last ≡ self.old.last }
        ensures size { self.new.size ≡ self.old.size }
        ensures told { self.new.told.items ≡ self.old.told.items }
        ensures stuck { self.new.is_stuck ≡ self.old.is_stuck }
        ensures clean { IsTrue (D.is_clean self.new.disk) → IsTrue (D.is_clean self.old.disk) }
        ensures fault { IfErr result IsOwnFault }
    {
        self.drop_draft()?;
        let Some(at) = self.size.checked_add(COMMIT_SIZE) else {
            return Err(StoreFault::Refused);
        };
        let (draft, text) = Draft::begin(self.alloc, messages)?;
        self.put_text(at, text.as_str())?;
        self.draft = Some(draft);
        Ok(())
    }

    /// Adds the changes of a part to the draft, with an image for each.
    ///
    /// # Errors
    ///
    /// `Refused` where there is no draft or a call of the file fails, and `Memory`. There is no
    /// draft then.
    pub(crate) fn add_to_draft(
        &mut self,
        part: &Work<'_>,
        images: &[Image<'_>],
    ) -> Result<(), StoreFault>
        ensures added { OnOk result ((messages : List Message) (ls : List Line) →
            HasDraft D.seen self.old messages ls →
            HasDraft D.seen self.new messages (ls ++ lines part.now.changes images.now)) }
        ensures behind { ChangesBehind self.old.size (D.seen self.old.disk)
            (D.seen self.new.disk) (D.may_leave self.old.disk) (D.may_leave self.new.disk) }
        ensures base { self.new.base ≡ self.old.base }
        ensures last { self.new.last ≡ self.old.last }
        ensures size { self.new.size ≡ self.old.size }
        ensures told { self.new.told.items ≡ self.old.told.items }
        ensures stuck { self.new.is_stuck ≡ self.old.is_stuck }
        ensures clean { IsTrue (D.is_clean self.new.disk) → IsTrue (D.is_clean self.old.disk) }
        ensures fault { IfErr result IsOwnFault }
    {
        let Some(draft) = self.draft.take() else {
            return Err(StoreFault::Refused);
        };
        let Some(at) = draft.start(self.size) else {
            return Err(StoreFault::Refused);
        };
        let told = self.told.as_slice();
        let (draft, text) = draft.add(self.alloc, told, self.size, part, images)?;
        self.put_text(at, text.as_str())?;
        self.draft = Some(draft);
        Ok(())
    }

    /// Writes the line of the commit into the room before the lines of the draft: the commit comes
    /// after the last one then, and there is no draft.
    ///
    /// # Errors
    ///
    /// `Refused` where there is no draft, the commit doesn't end after the last one or a call of
    /// the file fails, and `Memory`.
    pub(crate) fn end_draft(&mut self, end: Lsn, about: Option<About>) -> Result<(), StoreFault>
        ensures adds { OnOk result ((messages : List Message) (ls : List Line) →
            HasDraft D.seen self.old messages ls →
            Adds D.seen self.old self.new (drafted end about messages ls)) }
        ensures above { OnOk result (self.old.last < end) }
        ensures last { OnOk result (self.new.last ≡ end) }
        ensures longer { OnOk result (self.old.size ≤ self.new.size) }
        ensures undone { OnErr result ((self.new.size ≡ self.old.size)
            × (self.new.last ≡ self.old.last)) }
        ensures untold { OnErr result (self.new.told.items ≡ self.old.told.items) }
        ensures behind { ChangesBehind self.old.size (D.seen self.old.disk)
            (D.seen self.new.disk) (D.may_leave self.old.disk) (D.may_leave self.new.disk) }
        ensures base { self.new.base ≡ self.old.base }
        ensures stuck { self.new.is_stuck ≡ self.old.is_stuck }
        ensures clean { IsTrue (D.is_clean self.new.disk) → IsTrue (D.is_clean self.old.disk) }
        ensures fault { IfErr result IsOwnFault }
    {
        let Some(draft) = self.draft.take() else {
            return Err(StoreFault::Refused);
        };
        let Some(size) = draft.start(self.size) else {
            return Err(StoreFault::Refused);
        };
        if end <= self.last {
            return Err(StoreFault::Refused);
        }
        let line = draft.line(self.alloc, end, self.last, about)?;
        self.put_text(self.size, line.as_str())?;
        remember(&mut self.told, draft.told)?;
        self.size = size;
        self.last = end;
        Ok(())
    }
}
