//! A feed that takes a commit in parts: the open segment has it as a draft.

ghost use Rattle.std.specs.Prelude.{◌≡◌, ◌⊎◌, ◌++◌, List, [], false, true, Some, IsSome, OnOk};
ghost use Rattle.std.specs.Prelude.{OnErr, IfErr};
ghost use Rattle.pgapply.specs.Stored.{IsOwnFault};
ghost use Rattle.pgledger.specs.Images.{Line, lines};
ghost use Rattle.pgledger.specs.Ledgers.{Appends, Keeps};
ghost use Rattle.pgfeed.specs.Drafts.{DropsDraft, HasDraft, drafted};
ghost use Rattle.pgfeed.specs.Feeds.{Goes, HearsWithin, IsOver, IsTimed, KeepsAll, MayEnd};
ghost use Rattle.pgfeed.specs.Feeds.{MayGoOver, StaysTimed, heard_by};
ghost use Rattle.pgfeed.specs.Hearing.{all_heard};

use crate::feed::{ANY_SIZE, Feed, MOST_ENDED, first_time};
use crate::folder::Folder;
use pgapply::{About, StoreFault, Work};
use pgledger::Image;
use pglsn::Lsn;

impl<F: Folder + Drop> Feed<F> {
    /// Accepts nothing more from now on, since a call failed.
    pub(crate) fn stop(&mut self)
        ensures goes { Goes F.File.seen F.File.may_leave F.File.is_clean F.is_true
            F.places F.has self.old self.new }
        ensures kept { Keeps (KeepsAll F.File.seen F.File.may_leave F.File.is_clean F.is_true
            F.places F.has) self.old self.new }
        ensures stuck { self.new.segment.is_stuck ≡ true }
        ensures ended { self.new.ended.items ≡ self.old.ended.items }
        ensures base { self.new.segment.base ≡ self.old.segment.base }
        ensures begins { self.new.begins ≡ self.old.begins }
        ensures synced { self.new.synced ≡ self.old.synced }
        ensures limits { self.new.limits ≡ self.old.limits }
        ensures names { self.new.names ≡ self.old.names }
        ensures hearing { self.new.hearing ≡ self.old.hearing }
    {
        self.cause = self.hearing.lost();
        self.segment.stop();
    }

    /// Begins a draft with the messages that were heard. It is the first commit of its segment.
    pub(crate) fn begin_draft(&mut self, about: Option<About>) -> Result<(), StoreFault>
        requires { self.old.segment.is_stuck ≡ false }
        ensures goes { Goes F.File.seen F.File.may_leave F.File.is_clean F.is_true
            F.places F.has self.old self.new }
        ensures kept { Keeps (KeepsAll F.File.seen F.File.may_leave F.File.is_clean F.is_true
            F.places F.has) self.old self.new }
        ensures begun { OnOk result (HasDraft F.File.seen self.new.segment (heard_by self.new) []) }
        ensures ends { MayEnd F.File.seen F.File.may_leave F.File.is_clean self.old.synced
            self.old.ended.items self.new.ended.items self.old.segment self.new.segment }
        ensures next { OnOk result (IsOver self.old.limits.bytes self.old.limits.micros
            self.old.first self.old.segment about ANY_SIZE →
            (self.new.segment.base ≡ self.old.segment.last)
            ⊎ MayGoOver MOST_ENDED self.old.synced self.old.ended.items self.old.segment) }
        ensures free { OnOk result (self.new.segment.is_stuck ≡ false) }
        ensures first { OnOk result (StaysTimed self.old.first self.new.first self.old.segment
            self.new.segment) }
        ensures begins { self.new.begins ≡ self.old.begins }
        ensures synced { self.new.synced ≡ self.old.synced }
        ensures limits { self.new.limits ≡ self.old.limits }
        ensures hearing { self.new.hearing ≡ self.old.hearing }
        ensures fault { IfErr result IsOwnFault }
    {
        self.hearing.test()?;
        self.make_room(about, ANY_SIZE)?;
        self.segment.begin_draft(self.hearing.messages())
    }

    /// Adds the changes of a part to the draft, with an image for each.
    pub(crate) fn add_to_draft(
        &mut self,
        part: &Work<'_>,
        images: &[Image<'_>],
    ) -> Result<(), StoreFault>
        requires { self.old.segment.is_stuck ≡ false }
        ensures goes { Goes F.File.seen F.File.may_leave F.File.is_clean F.is_true
            F.places F.has self.old self.new }
        ensures kept { Keeps (KeepsAll F.File.seen F.File.may_leave F.File.is_clean F.is_true
            F.places F.has) self.old self.new }
        ensures added { OnOk result ((ls : List Line) →
            HasDraft F.File.seen self.old.segment (heard_by self.old) ls →
            HasDraft F.File.seen self.new.segment (heard_by self.new)
            (ls ++ lines part.now.changes images.now)) }
        ensures ended { self.new.ended.items ≡ self.old.ended.items }
        ensures base { self.new.segment.base ≡ self.old.segment.base }
        ensures free { self.new.segment.is_stuck ≡ false }
        ensures first { self.new.first ≡ self.old.first }
        ensures begins { self.new.begins ≡ self.old.begins }
        ensures synced { self.new.synced ≡ self.old.synced }
        ensures limits { self.new.limits ≡ self.old.limits }
        ensures hearing { self.new.hearing ≡ self.old.hearing }
        ensures fault { IfErr result IsOwnFault }
    {
        self.segment.add_to_draft(part, images)
    }

    /// Keeps the draft as a commit.
    pub(crate) fn end_draft(&mut self, end: Lsn, about: Option<About>) -> Result<(), StoreFault>
        requires free { self.old.segment.is_stuck ≡ false }
        requires draft { (ls : List Line) ×
            HasDraft F.File.seen self.old.segment (heard_by self.old) ls }
        ensures goes { Goes F.File.seen F.File.may_leave F.File.is_clean F.is_true
            F.places F.has self.old self.new }
        ensures appended { OnOk result ((ls : List Line) →
            HasDraft F.File.seen self.old.segment (heard_by self.old) ls →
            Appends (KeepsAll F.File.seen F.File.may_leave F.File.is_clean F.is_true F.places
            F.has) (drafted end about (heard_by self.old) ls) self.old self.new) }
        ensures kept { OnErr result (Keeps (KeepsAll F.File.seen F.File.may_leave
            F.File.is_clean F.is_true F.places F.has) self.old self.new) }
        ensures all_kept { OnOk result (IsSome (all_heard self.old.hearing)) }
        ensures forgot { OnOk result (all_heard self.new.hearing ≡ Some []) }
        ensures within { HearsWithin self.old → HearsWithin self.new }
        ensures ended { self.new.ended.items ≡ self.old.ended.items }
        ensures base { self.new.segment.base ≡ self.old.segment.base }
        ensures free { OnOk result (self.new.segment.is_stuck ≡ false) }
        ensures first { OnOk result (IsTimed self.old.first self.new.first about self.old.segment
            self.new.segment) }
        ensures begins { self.new.begins ≡ self.old.begins }
        ensures synced { self.new.synced ≡ self.old.synced }
        ensures limits { self.new.limits ≡ self.old.limits }
        ensures fault { IfErr result IsOwnFault }
    {
        self.hearing.test()?;
        let told = about; // A copy: `first_time` takes it too.
        self.segment.end_draft(end, told)?;
        self.hearing.forget();
        self.first = first_time(self.first, about);
        Ok(())
    }

    /// Drops the draft.
    pub(crate) fn drop_draft(&mut self) -> Result<(), StoreFault>
        requires { self.old.segment.is_stuck ≡ false }
        ensures dropped { OnOk result
            (DropsDraft F.File.seen self.old.segment self.new.segment) }
        ensures goes { Goes F.File.seen F.File.may_leave F.File.is_clean F.is_true
            F.places F.has self.old self.new }
        ensures kept { Keeps (KeepsAll F.File.seen F.File.may_leave F.File.is_clean F.is_true
            F.places F.has) self.old self.new }
        ensures ended { self.new.ended.items ≡ self.old.ended.items }
        ensures base { self.new.segment.base ≡ self.old.segment.base }
        ensures free { self.new.segment.is_stuck ≡ false }
        ensures first { self.new.first ≡ self.old.first }
        ensures begins { self.new.begins ≡ self.old.begins }
        ensures synced { self.new.synced ≡ self.old.synced }
        ensures limits { self.new.limits ≡ self.old.limits }
        ensures hearing { self.new.hearing ≡ self.old.hearing }
    {
        self.segment.drop_draft()
    }
}
