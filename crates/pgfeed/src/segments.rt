//! Opening a feed: its last segment is opened, and those above the position go.

ghost use Rattle.std.specs.Prelude.{◌≡◌, ◌<◌, ◌-◌, ◌^◌, ◌++◌, ◌∷◌, [], false, length, IsTrue};
ghost use Rattle.std.specs.Prelude.{IfErr, IfOk, OnOk};
ghost use Rattle.std.specs.Bool.{OnTrue};
ghost use Rattle.std.specs.List.{AllByRecursion};
ghost use Rattle.pgfeed.specs.declared.fault.FeedFault.TheVariants.{NotAFeed};
ghost use Rattle.pgfeed.specs.Folders.{AreBelow, IsOther, IsRefusal, MakesAtMost, RemovesAll};
ghost use Rattle.pgfeed.specs.Folders.{Stays, StaysElse};
ghost use Rattle.pgfeed.specs.Feeds.{CutsIn, HearsWithin, IsFresh, OpenedFrom, OpensIn};
ghost use Rattle.pgfeed.specs.Feeds.{TakesAllBack};
ghost use Rattle.pgfeed.specs.Naming.{IsOf, head_of};
ghost use Rattle.pgfeed.specs.Segments.{HasHead};
ghost use Rattle.pgfeed.specs.Texts.{segment_object};

use crate::fault::FeedFault;
use crate::feed::Feed;
use crate::folder::{Folder, Names, Origin, SegmentLimits};
use crate::heads::segment_head;
use crate::segment::Segment;
use pglsn::Lsn;
use sqlite_disk::Disk;
use std::alloc::Global;

/// A segment of no commits in a file, replacing whatever that has.
fn create_in<D: Disk + Drop>(
    alloc: Global,
    file: D,
    names: &Names,
    base: Lsn,
) -> Result<Segment<D>, FeedFault>
    requires { IsTrue (D.is_usable file) }
    ensures fresh { IfOk result (λ s. IsFresh D.seen D.may_leave s) }
    ensures told { IfOk result (λ s. D.seen s.disk ≡ head_of names.now base) }
    ensures base { IfOk result (λ s. s.base ≡ base) }
    ensures last { IfOk result (λ s. s.last ≡ base) }
    ensures free { IfOk result (λ s. s.is_stuck ≡ false) }
    ensures fault { IfErr result IsOther }
{
    let system = names.system.as_str();
    let database = names.database.as_str();
    Segment::create(alloc, file, base, system, database, names.slot.as_str())
}

/// A segment of no commits in a new file, which has its head before it has its name.
pub(crate) fn begin_segment<F: Folder>(
    alloc: Global,
    folder: &mut F,
    names: &Names,
    base: Lsn,
) -> Result<Segment<F::File>, FeedFault>
    ensures fresh { IfOk result (λ s. IsFresh F.File.seen F.File.may_leave s) }
    ensures told { IfOk result (λ s. F.File.seen s.disk ≡ head_of names.now base) }
    ensures base { IfOk result (λ s. s.base ≡ base) }
    ensures last { IfOk result (λ s. s.last ≡ base) }
    ensures free { IfOk result (λ s. s.is_stuck ≡ false) }
    ensures made { F.is_true folder.new → AreBelow base (F.places folder.old) →
        OnOk result (F.places folder.new ≡ F.places folder.old ++ base ∷ []) }
    ensures at_most { F.is_true folder.new →
        MakesAtMost F.has F.is_true F.places base (HasHead base) folder.old folder.new }
    ensures fault { F.is_true folder.new → IfErr result IsOther }
{
    let file = folder.make()?;
    let segment = create_in(alloc, file, names, base)?;
    folder.name(base, segment.disk())?;
    Ok(segment)
}

/// The segment that begins at `base`, up to the commit that ends at the position.
fn segment_at<F: Folder>(
    alloc: Global,
    folder: &mut F,
    base: Lsn,
    position: Lsn,
) -> Result<Segment<F::File>, FeedFault>
    ensures opened { F.is_true folder.new → IfOk result (λ s. IsTrue (F.File.is_clean s.disk) →
        OpenedFrom F.File.seen F.File.may_leave F.has folder.old position s) }
    ensures base { IfOk result (λ s. s.base ≡ base) }
    ensures last { IfOk result (λ s. s.last ≡ position) }
    ensures free { IfOk result (λ s. s.is_stuck ≡ false) }
    ensures stays { F.is_true folder.new →
        StaysElse F.has F.is_true F.places base folder.old folder.new }
    ensures untouched { IfErr result (λ fault. fault ≡ NotAFeed → F.is_true folder.new →
        Stays F.has F.is_true F.places folder.old folder.new) }
{
    let file = folder.open(base)?;
    match Segment::open(alloc, file, base, position) {
        Ok(segment) => Ok(segment),
        Err((fault, file)) => {
            folder.close(base, file);
            Err(fault)
        }
    }
}

/// Removes segments, the last of them first.
fn remove_all<F: Folder>(folder: &mut F, bases: &[Lsn]) -> Result<(), FeedFault>
    ensures removed { F.is_true folder.new → OnOk result
        (RemovesAll F.has F.is_true F.places bases.now folder.old folder.new) }
    ensures fault { F.is_true folder.new → IfErr result IsRefusal }
{
    let mut left = bases.len();
    'removed: while left > 0 {
        left -= 1;
        folder.remove(bases[left])?;
    }
    Ok(())
}

/// Whether all of these lie above the position.
fn are_above(bases: &[Lsn], position: Lsn) -> bool
    ensures { OnTrue result (AllByRecursion (λ b. position < b) bases.now) }
{
    bases.iter().all(|base| position < *base)
}

/// The segment in which a position is, and where the first one begins. Those above it go.
fn last_segment<F: Folder>(
    alloc: Global,
    folder: &mut F,
    names: &Names,
    position: Lsn,
) -> Result<(Segment<F::File>, Lsn), FeedFault>
    ensures cuts { F.is_true folder.new → IfOk result (λ found.
        IsTrue (F.File.is_clean found.0.disk) → CutsIn F.File.seen F.File.may_leave
        F.File.is_clean F.is_true F.places F.has folder.old position folder.new found.1 found.0) }
    ensures last { IfOk result (λ found. found.0.last ≡ position) }
    ensures free { IfOk result (λ found. found.0.is_stuck ≡ false) }
    ensures untouched { IfErr result (λ fault. fault ≡ NotAFeed → F.is_true folder.new →
        Stays F.has F.is_true F.places folder.old folder.new) }
{
    let bases = folder.bases()?;
    if bases.is_empty() {
        let segment = begin_segment(alloc, folder, names, position)?;
        return Ok((segment, position));
    }
    let count = bases.partition_point(|base| *base <= position);
    let (below, above) = bases.split_at(count);
    let (Some(first), Some(last)) = (below.first(), below.last()) else {
        return Err(FeedFault::NotAFeed);
    };
    if !are_above(above, position) {
        return Err(FeedFault::Refused);
    }
    let segment = segment_at(alloc, folder, *last, position)?;
    remove_all(folder, above)?;
    Ok((segment, *first))
}

/// Gives the folder back the files of segments, the last one first.
pub(crate) fn close_all<F: Folder>(folder: &mut F, ended: Vec<Segment<F::File>>)
    ensures { F.is_true folder.new → TakesAllBack F.File.may_leave F.File.is_clean F.is_true
        F.places F.has ended.items folder.old folder.new }
{
    let mut ended = ended;
    'closed: while let Some(segment) = ended.pop() {
        folder.close(segment.base(), segment.into_disk());
    }
}

impl<F: Folder + Drop> Feed<F> {
    /// The feed in a folder, at the position of the store beside it. The last segment that doesn't
    /// begin above the position is opened there, and what comes after is truncated, the line that
    /// ends it too; then the segments above it are removed, the last of them first. In a folder
    /// without segments one begins at the position. No other segment is read.
    ///
    /// # Errors
    ///
    /// `NotAFeed` where there are segments, but none of them begins at or below the position, none
    /// of its commits ends there, or the one that does hasn't its checksum, and `TooLong` where the
    /// names don't fit the head of a segment: then all is as it was. `Refused` where a call of the
    /// folder or of a file fails or the bases don't rise, and `Memory`.
    pub fn open(
        alloc: Global,
        mut folder: F,
        origin: &Origin<'_>,
        limits: SegmentLimits,
        position: Lsn,
    ) -> Result<Feed<F>, (FeedFault, F)>
        ensures opened { IfOk result (λ f. OpensIn F.File.seen F.File.may_leave F.File.is_clean
            F.is_true F.places F.has folder position f) }
        ensures told { IfOk result (λ f. IsOf f.names origin.now.system.now
            origin.now.database.now origin.now.slot.now) }
        ensures limits { IfOk result (λ f. f.limits ≡ limits) }
        ensures within { IfOk result HearsWithin }
        ensures untouched { IfErr result (λ e. e.0 ≡ NotAFeed → F.is_true e.1 →
            Stays F.has F.is_true F.places folder e.1) }
        ensures room { OnOk result (length (segment_object (2 ^ 64 - 1) origin.now.system.now
            origin.now.database.now origin.now.slot.now) < 1024) }
    {
        match open_in(alloc, &mut folder, origin, position) {
            Ok((segment, begins, names)) => {
                Ok(Feed::of(alloc, folder, segment, begins, names, limits))
            }
            Err(fault) => Err((fault, folder)),
        }
    }
}

/// What a feed is opened with: its open segment, where it begins, and what it is of.
fn open_in<F: Folder>(
    alloc: Global,
    folder: &mut F,
    origin: &Origin<'_>,
    position: Lsn,
) -> Result<(Segment<F::File>, Lsn, Names), FeedFault>
    ensures cuts { F.is_true folder.new → IfOk result (λ found.
        IsTrue (F.File.is_clean found.0.disk) → CutsIn F.File.seen F.File.may_leave
        F.File.is_clean F.is_true F.places F.has folder.old position folder.new found.1 found.0) }
    ensures last { IfOk result (λ found. found.0.last ≡ position) }
    ensures free { IfOk result (λ found. found.0.is_stuck ≡ false) }
    ensures told { IfOk result (λ found. IsOf found.2 origin.now.system.now
        origin.now.database.now origin.now.slot.now) }
    ensures untouched { IfErr result (λ fault. fault ≡ NotAFeed → F.is_true folder.new →
        Stays F.has F.is_true F.places folder.old folder.new) }
    ensures room { OnOk result (length (segment_object (2 ^ 64 - 1) origin.now.system.now
        origin.now.database.now origin.now.slot.now) < 1024) }
{
    let names = Names::of(alloc, origin)?;
    // the head of a segment has room for the names wherever it begins
    let _head = segment_head(
        alloc,
        Lsn(u64::MAX),
        origin.system,
        origin.database,
        origin.slot,
    )?;
    let (segment, begins) = last_segment(alloc, folder, &names, position)?;
    Ok((segment, begins, names))
}
