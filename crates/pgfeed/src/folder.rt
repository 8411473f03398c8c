//! Where a feed keeps its segments, and what it is of.

ghost use Rattle.std.specs.Prelude.{IfOk, IsTrue};
ghost use Rattle.pgfeed.specs.Naming.{IsOf};

use crate::fault::FeedFault;
use pglsn::Lsn;
use sqlite_disk::Disk;
use std::alloc::{AllocError, Global};

/// What a feed is of, as the head of each segment tells.
#[derive(Clone, Copy, Debug)]
pub struct Origin<'a> {
    /// The identifier of the system, as `IDENTIFY_SYSTEM` tells it.
    pub system: &'a str,
    /// The database.
    pub database: &'a str,
    /// The replication slot.
    pub slot: &'a str,
}

/// When a segment ends, by the first of two limits that is met, and which messages are told.
#[derive(Clone, Copy, Debug, PartialEq, Eq)]
pub struct SegmentLimits {
    /// How many bytes its head and its commits may have, unless it has a single commit. `u64::MAX`
    /// for any number.
    pub bytes: u64,
    /// The microseconds from the time of a commit of it to that of one which it doesn't accept any
    /// more. `u64::MAX` for never.
    pub micros: u64,
    /// How many bytes the prefixes and contents of a transaction's messages may have. `u64::MAX`
    /// for any number. None where no message is told.
    pub messages: Option<u64>,
}

/// The folder of a feed: its segments, each a file that is named by the LSN at which it begins.
///
/// What is said of it holds while its answers are true: nobody else writes its files, and others
/// remove no more than a front of those that have ended, between one opening of the feed and the
/// next.
pub trait Folder {
    ghost use Rattle.std.specs.Prelude.{◌≡◌, ◌⊎◌, ◌++◌, ◌∷◌, [], ℕ, List, OnOk, IfErr};
    ghost use Rattle.pgfeed.specs.Folders.{AreBelow, HasNoMore, IsRefusal, MakesAtMost, Stays};
    ghost use Rattle.pgfeed.specs.Folders.{TakesBack};

    /// The file of a segment.
    type File: Disk + Drop;

    /// Its answers were true. Once that fails it never holds again.
    ghost is_true: { Self → Type 0 };

    /// The LSNs at which its segments begin, rising.
    ghost places: { Self → List ℕ };

    /// The segment that begins there may have these bytes when it is opened.
    ghost has: { Self → ℕ → List ℕ → Type 0 };

    /// The LSNs at which its segments begin, rising.
    ///
    /// # Errors
    ///
    /// `Refused` where the folder can't be read, and `Memory`.
    fn bases(&mut self) -> Result<Vec<Lsn>, FeedFault>
        ensures found { is_true self.new →
            IfOk result (λ bases. bases.items ≡ places self.old) }
        ensures stays { is_true self.new → Stays has is_true places self.old self.new }
        ensures fault { is_true self.new → IfErr result IsRefusal };

    /// The file of a segment that is there.
    ///
    /// # Errors
    ///
    /// `Refused` where it can't be opened, and `Memory`.
    fn open(&mut self, base: Lsn) -> Result<Self::File, FeedFault>
        ensures usable { IfOk result (λ file. IsTrue (Self.File.is_usable file)) }
        ensures text { is_true self.new → IfOk result (λ file. (text : List ℕ) →
            Self.File.may_leave file text → has self.old base text) }
        ensures stays { is_true self.new → Stays has is_true places self.old self.new }
        ensures fault { is_true self.new → IfErr result IsRefusal };

    /// A new file for a segment, which hasn't the name of one yet. What an earlier call made, and
    /// wasn't named, goes.
    ///
    /// # Errors
    ///
    /// `Refused` where it can't be made, and `Memory`.
    fn make(&mut self) -> Result<Self::File, FeedFault>
        ensures usable { IfOk result (λ file. IsTrue (Self.File.is_usable file)) }
        ensures stays { is_true self.new → Stays has is_true places self.old self.new }
        ensures fault { is_true self.new → IfErr result IsRefusal };

    /// Names the file that was made last: a segment begins here, and has what the file has. The
    /// name outlasts a crash. Another file of that name goes.
    ///
    /// # Errors
    ///
    /// `Refused` where it can't be named, and `Memory`.
    fn name(&mut self, base: Lsn, file: &Self::File) -> Result<(), FeedFault>
        ensures named { is_true self.new → AreBelow base (places self.old) →
            OnOk result (places self.new ≡ places self.old ++ base ∷ []) }
        ensures at_most { is_true self.new → MakesAtMost has is_true places base
            (Self.File.may_leave file.now) self.old self.new }
        ensures fault { is_true self.new → IfErr result IsRefusal };

    /// Removes the segment that begins here, the last one.
    ///
    /// # Errors
    ///
    /// `Refused` where it can't be removed, and `Memory`.
    fn remove(&mut self, base: Lsn) -> Result<(), FeedFault>
        ensures gone { is_true self.new → OnOk result ((low : List ℕ) →
            places self.old ≡ low ++ base ∷ [] → places self.new ≡ low) }
        ensures others { is_true self.new → HasNoMore has self.old self.new }
        ensures was_true { is_true self.new → is_true self.old }
        ensures fault { is_true self.new → IfErr result IsRefusal };

    /// Takes back the file of a segment that the feed writes no more.
    fn close(&mut self, base: Lsn, file: Self::File)
        ensures places { is_true self.new → places self.new ≡ places self.old }
        ensures files { is_true self.new →
            TakesBack has base (Self.File.may_leave file) self.old self.new }
        ensures clean { is_true self.new → IsTrue (Self.File.is_clean file) }
        ensures was_true { is_true self.new → is_true self.old };
}

/// What a feed is of, kept for the segments that follow.
#[derive(Drop)]
pub(crate) struct Names {
    pub(crate) system: String,
    pub(crate) database: String,
    pub(crate) slot: String,
}

impl Names {
    pub(crate) fn of(alloc: Global, origin: &Origin<'_>) -> Result<Names, AllocError>
        ensures { IfOk result (λ names. IsOf names origin.now.system.now
            origin.now.database.now origin.now.slot.now) }
    {
        Ok(Names {
            system: String::from_str(alloc, origin.system)?,
            database: String::from_str(alloc, origin.database)?,
            slot: String::from_str(alloc, origin.slot)?,
        })
    }
}
