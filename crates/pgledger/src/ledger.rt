//! What keeps the commits of a store, each with the images of its changes.

ghost use Rattle.std.specs.Prelude.{◌≡◌, [], ℕ, List, Bool, true, false, Option, Some, OnOk, OnErr};
ghost use Rattle.std.specs.Prelude.{IfErr, IsSome};
ghost use Rattle.pgapply.specs.Stored.{IsOwnFault};
ghost use Rattle.pgledger.specs.Entries.{Entry, entry_of, messages_of};
ghost use Rattle.pgledger.specs.Ledgers.{Appends, AppendsAtMost, CutsAt, Keeps, Rests, Syncs};
ghost use Rattle.pgledger.specs.Ledgers.{Hears, UnaskedKeeps};
ghost use Rattle.pgledger.specs.Drafts.{AddsLines, BeginsDraft, HasDraft, KeepsDraft};
ghost use Rattle.pgledger.specs.Images.{Line, lines};

use crate::image::Image;
use pgapply::{About, Commit, LogicalMessage, StoreFault, Work};
use pglsn::Lsn;

/// A ledger of commits, as a file or a queue that others read. A store hands it each commit that it
/// stages, and has it synced before it stores them. So it never has less than the store, and more
/// by staged commits alone.
///
/// It may hear the messages too that a transaction wrote. They are told with the commit that is
/// appended next, all of them: where it couldn't keep one, it rejects that commit.
///
/// A call that fails leaves the ledger stuck: it accepts nothing more until it is opened again, at
/// the store's position, and what comes after that is truncated. `NoLedger` keeps nothing, and is
/// what a store without a ledger uses.
///
/// PostgreSQL documentation, Logical Replication, Subscription.
pub trait Ledger {
    ghost use Rattle.pgledger.specs.declared.heard.Heard.{Heard};

    /// The LSN at which it begins.
    ghost begins: { Self → ℕ };

    /// It keeps these entries, the oldest first.
    ghost keeps: { Self → List Entry → Type 0 };

    /// Its entries up to this LSN outlast a crash.
    ghost outlasts: { Self → ℕ → Type 0 };

    /// It accepts nothing more.
    ghost is_stuck: { Self → Bool };

    /// It wants the images of changes.
    ghost is_wanting: { Self → Bool };

    /// It hears messages.
    ghost is_hearing: { Self → Bool };

    /// What it has heard since the last commit that it accepted, or was told to forget; none where
    /// it couldn't keep all of it.
    ghost heard: { Self → Option (List Heard) };

    /// The other one was opened at this LSN, on what a crash at this moment may leave of this one.
    ghost reopens: { Self → ℕ → Self → Type 0 };

    /// It has these lines of a commit that comes in parts, which it doesn't keep yet.
    ghost drafts: { Self → List Line → Type 0 };

    /// Whether it accepts nothing more.
    fn is_stuck(&self) -> bool
        ensures { result ≡ is_stuck self.now };

    /// Whether it wants the images of changes. For one that doesn't no row is read.
    fn wants(&self) -> bool
        ensures { result ≡ is_wanting self.now };

    /// Hears a message of the transaction whose commit is appended next. One that hears none stays
    /// as it is.
    fn hear(&mut self, message: &LogicalMessage<'_>)
        ensures hears { is_hearing self.old ≡ true →
            Hears is_stuck heard message.now self.old self.new }
        ensures deaf { is_hearing self.old ≡ false → self.new ≡ self.old }
        ensures was_free { is_stuck self.new ≡ false → is_stuck self.old ≡ false }
        ensures kept { Keeps keeps self.old self.new }
        ensures rests { Rests begins is_wanting is_hearing outlasts reopens self.old self.new };

    /// Drops what it has heard: another transaction begins.
    fn forget(&mut self)
        ensures forgot { heard self.new ≡ Some [] }
        ensures stuck { is_stuck self.new ≡ is_stuck self.old }
        ensures kept { Keeps keeps self.old self.new }
        ensures rests { Rests begins is_wanting is_hearing outlasts reopens self.old self.new };

    /// Appends a commit with the messages that were heard, and with one image for each of its
    /// changes, or with none where it wants none. It isn't synced.
    ///
    /// # Errors
    ///
    /// `Memory` or `Refused`, also where it is stuck, where the commit doesn't end after the last
    /// one, and where not all messages were kept.
    fn append(&mut self, commit: &Commit<'_, '_>, images: &[Image<'_>]) -> Result<(), StoreFault>
        ensures appended { OnOk result (Appends keeps (entry_of commit.now.end commit.now.about
            (messages_of (heard self.old)) commit.now.work.now.changes images.now) self.old
            self.new) }
        ensures all_heard { OnOk result (IsSome (heard self.old)) }
        ensures forgot { OnOk result (heard self.new ≡ Some []) }
        ensures was_free { OnOk result (is_stuck self.old ≡ false) }
        ensures free { OnOk result (is_stuck self.new ≡ false) }
        ensures refused { OnErr result (AppendsAtMost keeps commit.now.end self.old self.new) }
        ensures stuck { OnErr result (is_stuck self.new ≡ true) }
        ensures fault { IfErr result IsOwnFault }
        ensures rests { Rests begins is_wanting is_hearing outlasts reopens self.old
            self.new };

    /// Whether it takes a commit in parts. No clause speaks of it.
    fn takes_parts(&self) -> bool {
        false
    }

    /// Begins a commit that comes in parts, with the messages that were heard. What was begun
    /// before is dropped.
    ///
    /// # Errors
    ///
    /// `Memory` or `Refused`, also where it is stuck, where not all messages were kept, and where
    /// it takes no parts.
    fn begin_parts(&mut self, about: Option<About>) -> Result<(), StoreFault>
        ensures begun { OnOk result (BeginsDraft drafts self.new) }
        ensures kept { Keeps keeps self.old self.new }
        ensures heard { heard self.new ≡ heard self.old }
        ensures was_free { OnOk result (is_stuck self.old ≡ false) }
        ensures free { OnOk result (is_stuck self.new ≡ false) }
        ensures stuck { OnErr result (is_stuck self.new ≡ true) }
        ensures fault { IfErr result IsOwnFault }
        ensures rests { Rests begins is_wanting is_hearing outlasts reopens self.old self.new }
    {
        self.stick();
        Err(StoreFault::Refused)
    }

    /// Takes the changes of a part, with one image for each, behind those of the parts before it.
    /// The ledger doesn't keep them until all parts have ended.
    ///
    /// # Errors
    ///
    /// `Memory` or `Refused`, also where it is stuck, and where no commit was begun.
    fn append_part(&mut self, part: &Work<'_>, images: &[Image<'_>]) -> Result<(), StoreFault>
        ensures added { OnOk result
            (AddsLines drafts (lines part.now.changes images.now) self.old self.new) }
        ensures kept { Keeps keeps self.old self.new }
        ensures heard { heard self.new ≡ heard self.old }
        ensures was_free { OnOk result (is_stuck self.old ≡ false) }
        ensures free { OnOk result (is_stuck self.new ≡ false) }
        ensures stuck { OnErr result (is_stuck self.new ≡ true) }
        ensures fault { IfErr result IsOwnFault }
        ensures rests { Rests begins is_wanting is_hearing outlasts reopens self.old self.new }
    {
        self.stick();
        Err(StoreFault::Refused)
    }

    /// Keeps the commit that was begun, with the parts that were taken, as `append` does.
    ///
    /// # Errors
    ///
    /// Those of `append`.
    fn end_parts(&mut self, end: Lsn, about: Option<About>) -> Result<(), StoreFault>
        requires { HasDraft drafts self.old }
        ensures appended { OnOk result (KeepsDraft drafts keeps end about (heard self.old)
            self.old self.new) }
        ensures all_heard { OnOk result (IsSome (heard self.old)) }
        ensures forgot { OnOk result (heard self.new ≡ Some []) }
        ensures was_free { OnOk result (is_stuck self.old ≡ false) }
        ensures free { OnOk result (is_stuck self.new ≡ false) }
        ensures at_most { AppendsAtMost keeps end self.old self.new }
        ensures stuck { OnErr result (is_stuck self.new ≡ true) }
        ensures fault { IfErr result IsOwnFault }
        ensures rests { Rests begins is_wanting is_hearing outlasts reopens self.old self.new }
    {
        self.stick();
        Err(StoreFault::Refused)
    }

    /// Drops what it has of a commit whose parts haven't ended. Where that fails, it is stuck.
    fn drop_parts(&mut self)
        ensures kept { Keeps keeps self.old self.new }
        ensures heard { heard self.new ≡ heard self.old }
        ensures was_free { is_stuck self.new ≡ false → is_stuck self.old ≡ false }
        ensures rests { Rests begins is_wanting is_hearing outlasts reopens self.old self.new }
    {
        self.stick();
    }

    /// Makes all that was appended outlast a crash.
    ///
    /// # Errors
    ///
    /// `Memory` or `Refused`, also where it is stuck.
    fn sync(&mut self) -> Result<(), StoreFault>
        ensures synced { OnOk result (Syncs keeps begins outlasts self.old self.new) }
        ensures kept { Keeps keeps self.old self.new }
        ensures heard { heard self.new ≡ heard self.old }
        ensures was_free { OnOk result (is_stuck self.old ≡ false) }
        ensures free { OnOk result (is_stuck self.new ≡ false) }
        ensures stuck { OnErr result (is_stuck self.new ≡ true) }
        ensures fault { IfErr result IsOwnFault }
        ensures rests { Rests begins is_wanting is_hearing outlasts reopens self.old
            self.new };

    /// Accepts nothing more from now on: commits that it has were not stored by the store, or may
    /// not have been.
    fn stick(&mut self)
        ensures kept { Keeps keeps self.old self.new }
        ensures heard { heard self.new ≡ heard self.old }
        ensures stuck { is_stuck self.new ≡ true }
        ensures rests { Rests begins is_wanting is_hearing outlasts reopens self.old
            self.new };

    /// The last cause of a `Refused`, as a text for the operator, where it is known. No clause
    /// speaks of it.
    fn cause(&self) -> Option<&str> {
        None
    }

    /// Opened again at an LSN, it keeps the entries up to the one that ends there.
    ghost cuts: { CutsAt keeps begins outlasts reopens };

    /// Of one that wants no images no entry is asked back.
    ghost unasked: { UnaskedKeeps keeps is_wanting };
}

/// What is supposed of the ledgers of a type, so that something is said of their entries beside
/// what is said of a store alone: any statement. Where it is true, the entries have to lead to the
/// store's rows as a run begins, and do so as it ends. Where it is false, nothing is asked or said
/// of entries, and all that is said of a store without a ledger is said of this one.
pub trait Supposing {
    /// The statement.
    ghost supposed: { Type 0 };
}

/// The ledger of a store that has none: it keeps nothing, and no row is read for it.
#[derive(Debug, Drop)]
pub struct NoLedger {
    is_stuck: bool,
}

impl NoLedger {
    /// A ledger that isn't stuck.
    pub fn new() -> NoLedger
        ensures { result.is_stuck ≡ false }
    {
        NoLedger { is_stuck: false }
    }
}

impl Supposing for NoLedger {
    ghost use Rattle.std.specs.Prelude.{⊤};

    ghost supposed = { ⊤ };
}

impl Ledger for NoLedger {
    ghost use Rattle.std.specs.Prelude.{⊤, refl, [], Some};

    ghost begins = { λ _. 0 };

    ghost keeps = { λ _ _. ⊤ };

    ghost outlasts = { λ _ _. ⊤ };

    ghost is_stuck = { λ l. l.is_stuck };

    ghost is_wanting = { λ _. false };

    ghost is_hearing = { λ _. false };

    ghost heard = { λ _. Some [] };

    ghost reopens = { λ _ _ _. ⊤ };

    ghost drafts = { λ _ _. ⊤ };

    fn is_stuck(&self) -> bool {
        self.is_stuck
    }

    fn wants(&self) -> bool {
        false
    }

    fn hear(&mut self, _message: &LogicalMessage<'_>) {}

    fn forget(&mut self) {}

    fn append(
        &mut self,
        _commit: &Commit<'_, '_>,
        _images: &[Image<'_>],
    ) -> Result<(), StoreFault> {
        if self.is_stuck {
            Err(StoreFault::Refused)
        } else {
            Ok(())
        }
    }

    fn takes_parts(&self) -> bool {
        true
    }

    fn begin_parts(&mut self, _about: Option<About>) -> Result<(), StoreFault> {
        self.sync()
    }

    fn append_part(&mut self, _part: &Work<'_>, _images: &[Image<'_>]) -> Result<(), StoreFault> {
        self.sync()
    }

    fn end_parts(&mut self, _end: Lsn, _about: Option<About>) -> Result<(), StoreFault> {
        self.sync()
    }

    fn drop_parts(&mut self) {}

    fn sync(&mut self) -> Result<(), StoreFault> {
        if self.is_stuck {
            Err(StoreFault::Refused)
        } else {
            Ok(())
        }
    }

    fn stick(&mut self) {
        self.is_stuck = true;
    }

    ghost cuts = { λ old new p told later opened kept ends lasting above. (tt, refl, tt) };

    ghost unasked = { λ l no es. tt };
}
