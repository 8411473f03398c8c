//! Making and opening a segment of a feed.

ghost use Rattle.std.specs.Prelude.{◌≡◌, ◌++◌, ◌+◌, ◌<◌, ◌≤◌, ℕ, List, []};
ghost use Rattle.std.specs.Prelude.{◌^◌, length, take, drop, false, IsTrue, IfOk, OnOk, IfErr};
ghost use Rattle.pgcrc.specs.Covering.{Covers};
ghost use Rattle.sqlite_disk.specs.Disk.{Only};
ghost use Rattle.pgfeed.specs.declared.fault.FeedFault.TheVariants.{NotAFeed, Refused};
ghost use Rattle.pgfeed.specs.Folders.{IsOther};
ghost use Rattle.pgfeed.specs.Reading.{BeginsWith, HasItsCrc};
ghost use Rattle.pgfeed.specs.Segments.{EndsTested, IsCut, IsFound, KeepsEntries, Lasts, Reopens};
ghost use Rattle.pgfeed.specs.Segments.{most_tested};
ghost use Rattle.pgfeed.specs.Texts.{segment_front, segment_head};

use crate::fault::FeedFault;
use crate::heads::{COMMIT_SIZE, SEGMENT_SIZE, segment_front, segment_head};
use crate::mark::{Mark, read_crc, read_mark};
use crate::segment::Segment;
use pgcrc::Crc32;
use pglsn::Lsn;
use sqlite_disk::Disk;
use std::alloc::Global;

/// How many bytes of a commit are read at once.
const PIECE: usize = 8192;

/// Of how many bytes behind its line a commit's checksum is tested at most: readers test all.
const MOST_TESTED: usize = 16_777_216;

/// Tests that a file begins as a segment with this base.
fn test_head<D: Disk>(alloc: Global, disk: &mut D, base: Lsn, len: usize) -> Result<(), FeedFault>
    requires { IsTrue (D.is_usable disk.old) }
    ensures head { OnOk result (IsTrue (D.is_clean disk.new) → (more : List ℕ)
        × (take 1024 (D.seen disk.old) ≡ segment_front base ++ more)) }
    ensures within { OnOk result (1024 ≤ len) }
    ensures seen { D.seen disk.new ≡ D.seen disk.old }
    ensures crash { (c : List ℕ) → D.may_leave disk.new c → D.may_leave disk.old c }
    ensures clean { IsTrue (D.is_clean disk.new) → IsTrue (D.is_clean disk.old) }
    ensures usable { IsTrue (D.is_usable disk.new) }
{
    if len < SEGMENT_SIZE {
        return Err(FeedFault::NotAFeed);
    }
    let mut head = [0; SEGMENT_SIZE];
    let Ok(()) = disk.read_at(0, &mut head) else {
        return Err(FeedFault::Refused);
    };
    let front = segment_front(alloc, base)?;
    if head.starts_with(front.as_bytes()) {
        Ok(())
    } else {
        Err(FeedFault::NotAFeed)
    }
}

/// The CRC-32 of the bytes so far, and of the next ones of a file.
fn sum_piece<D: Disk>(
    disk: &mut D,
    crc: Crc32,
    offset: usize,
    size: usize,
) -> Result<Crc32, FeedFault>
    requires usable { IsTrue (D.is_usable disk.old) }
    requires some { 0 < size }
    requires fits { size ≤ 8192 }
    ensures sums { IfOk result (λ sum. IsTrue (D.is_clean disk.new) → (before : List ℕ) →
        Covers crc before → Covers sum (before ++ take size (drop offset (D.seen disk.old)))) }
    ensures seen { D.seen disk.new ≡ D.seen disk.old }
    ensures crash { (c : List ℕ) → D.may_leave disk.new c → D.may_leave disk.old c }
    ensures clean { IsTrue (D.is_clean disk.new) → IsTrue (D.is_clean disk.old) }
    ensures usable { IsTrue (D.is_usable disk.new) }
{
    let mut buffer = [0; PIECE];
    let piece = &mut buffer[..size];
    let Ok(()) = disk.read_at(offset, piece) else {
        return Err(FeedFault::Refused);
    };
    let mut sum = crc;
    sum.update(piece);
    Ok(sum)
}

/// The CRC-32 of the bytes so far, and of so many bytes of a file.
fn sum_bytes<D: Disk>(
    disk: &mut D,
    crc: Crc32,
    offset: usize,
    count: usize,
) -> Result<Crc32, FeedFault>
    requires usable { IsTrue (D.is_usable disk.old) }
    requires fits { offset + count < 2 ^ 64 }
    ensures sums { IfOk result (λ sum. IsTrue (D.is_clean disk.new) → (before : List ℕ) →
        Covers crc before → Covers sum (before ++ take count (drop offset (D.seen disk.old)))) }
    ensures seen { D.seen disk.new ≡ D.seen disk.old }
    ensures crash { (c : List ℕ) → D.may_leave disk.new c → D.may_leave disk.old c }
    ensures clean { IsTrue (D.is_clean disk.new) → IsTrue (D.is_clean disk.old) }
    ensures usable { IsTrue (D.is_usable disk.new) }
{
    let mut sum = crc;
    let mut done = 0;
    'pieces: while done < count {
        let size = (count - done).min(PIECE);
        sum = sum_piece(disk, sum, offset + done, size)?;
        done += size;
    }
    Ok(sum)
}

/// Tests the checksum of the commit that ends at the position; not that of any other, nor of one
/// that is longer than opening reads.
fn test_last<D: Disk>(
    alloc: Global,
    disk: &mut D,
    end: Lsn,
    bytes: usize,
    offset: usize,
    position: Lsn,
) -> Result<(), FeedFault>
    requires usable { IsTrue (D.is_usable disk.old) }
    requires fits { offset + 256 + bytes < 2 ^ 64 }
    ensures tested { OnOk result (IsTrue (D.is_clean disk.new) → end ≡ position →
        bytes ≤ most_tested → HasItsCrc bytes (drop offset (D.seen disk.old))) }
    ensures seen { D.seen disk.new ≡ D.seen disk.old }
    ensures crash { (c : List ℕ) → D.may_leave disk.new c → D.may_leave disk.old c }
    ensures clean { IsTrue (D.is_clean disk.new) → IsTrue (D.is_clean disk.old) }
    ensures usable { IsTrue (D.is_usable disk.new) }
{
    if end != position || bytes > MOST_TESTED {
        return Ok(());
    }
    let mut line = [0; COMMIT_SIZE];
    let Ok(()) = disk.read_at(offset, &mut line) else {
        return Err(FeedFault::Refused);
    };
    let Some((told, crc)) = read_crc(alloc, &line)? else {
        return Err(FeedFault::NotAFeed);
    };
    let mut sum = Crc32::new();
    sum.update(&line[..told]);
    let sum = sum_bytes(disk, sum, offset + COMMIT_SIZE, bytes)?;
    if sum.value() == crc {
        Ok(())
    } else {
        Err(FeedFault::NotAFeed)
    }
}

/// Reads the line of a commit after the one that ends at `at`. All of the commit is in the file,
/// and it doesn't end above the position.
fn next_mark<D: Disk>(
    alloc: Global,
    disk: &mut D,
    at: Lsn,
    offset: usize,
    len: usize,
    position: Lsn,
) -> Result<Mark, FeedFault>
    requires usable { IsTrue (D.is_usable disk.old) }
    requires within { offset ≤ len }
    ensures mark { IfOk result (λ mark. IsTrue (D.is_clean disk.new) →
        len ≡ length (D.seen disk.old) → BeginsWith at mark (drop offset (D.seen disk.old))) }
    ensures above { IfOk result (λ mark. (at < mark.end) × (mark.end ≤ position)
        × (offset + 256 + mark.bytes ≤ len)) }
    ensures seen { D.seen disk.new ≡ D.seen disk.old }
    ensures crash { (c : List ℕ) → D.may_leave disk.new c → D.may_leave disk.old c }
    ensures clean { IsTrue (D.is_clean disk.new) → IsTrue (D.is_clean disk.old) }
    ensures usable { IsTrue (D.is_usable disk.new) }
{
    if len - offset < COMMIT_SIZE {
        return Err(FeedFault::NotAFeed);
    }
    let mut line = [0; COMMIT_SIZE];
    let Ok(()) = disk.read_at(offset, &mut line) else {
        return Err(FeedFault::Refused);
    };
    let Some(mark) = read_mark(alloc, at, &line)? else {
        return Err(FeedFault::NotAFeed);
    };
    if mark.bytes > len - offset - COMMIT_SIZE || mark.end <= at || mark.end > position {
        return Err(FeedFault::NotAFeed);
    }
    Ok(mark)
}

/// How many bytes a segment with this base has up to the commit that ends at the position, or its
/// head where it begins there.
///
/// # Errors
///
/// `NotAFeed` where the file isn't such a segment, none of its commits ends at the position, or the
/// one that does hasn't its checksum. `Refused` where the file can't be read, and `Memory`.
fn find_end<D: Disk>(
    alloc: Global,
    disk: &mut D,
    base: Lsn,
    position: Lsn,
) -> Result<usize, FeedFault>
    requires { IsTrue (D.is_usable disk.old) }
    ensures found { IfOk result (λ size. IsTrue (D.is_clean disk.new) →
        IsFound base position (D.seen disk.old) size × (size ≤ length (D.seen disk.old))) }
    ensures tested { IfOk result (λ size. IsTrue (D.is_clean disk.new) → base < position →
        EndsTested position (D.seen disk.old) size) }
    ensures within { OnOk result (base ≤ position) }
    ensures seen { D.seen disk.new ≡ D.seen disk.old }
    ensures crash { (c : List ℕ) → D.may_leave disk.new c → D.may_leave disk.old c }
    ensures clean { IsTrue (D.is_clean disk.new) → IsTrue (D.is_clean disk.old) }
    ensures usable { IsTrue (D.is_usable disk.new) }
{
    if position < base {
        return Err(FeedFault::NotAFeed);
    }
    let Ok(len) = disk.len() else {
        return Err(FeedFault::Refused);
    };
    test_head(alloc, disk, base, len)?;
    let mut at = base;
    let mut offset = SEGMENT_SIZE;
    'commits: while at < position {
        let mark = next_mark(alloc, disk, at, offset, len, position)?;
        test_last(alloc, disk, mark.end, mark.bytes, offset, position)?;
        offset += COMMIT_SIZE + mark.bytes;
        at = mark.end;
    }
    Ok(offset)
}

/// Truncates a file after so many bytes, and syncs it.
fn cut<D: Disk>(disk: &mut D, size: usize) -> Result<(), FeedFault>
    requires { IsTrue (D.is_usable disk.old) }
    ensures cut { OnOk result (size ≤ length (D.seen disk.old) →
        IsCut (D.seen disk.old) size (D.seen disk.new) (D.may_leave disk.new)) }
    ensures clean { D.is_clean disk.new ≡ D.is_clean disk.old }
    ensures fault { IfErr result (λ fault. fault ≡ Refused) }
{
    if disk.set_len(size).is_ok() && disk.sync().is_ok() {
        Ok(())
    } else {
        Err(FeedFault::Refused)
    }
}

/// Writes a head over whatever the file has, and syncs it.
fn put_head<D: Disk>(disk: &mut D, head: &str) -> Result<(), FeedFault>
    requires { IsTrue (D.is_usable disk.old) }
    ensures put { OnOk result (0 < length head.now → (D.seen disk.new ≡ head.now)
        × Only head.now (D.may_leave disk.new)) }
    ensures fault { IfErr result (λ fault. fault ≡ Refused) }
{
    let Ok(()) = disk.set_len(0) else {
        return Err(FeedFault::Refused);
    };
    let Ok(()) = disk.write_at(0, head.as_bytes()) else {
        return Err(FeedFault::Refused);
    };
    let Ok(()) = disk.sync() else {
        return Err(FeedFault::Refused);
    };
    Ok(())
}

impl<D: Disk + Drop> Segment<D> {
    /// A segment of no commits in a file, replacing whatever that has: its head, synced. It begins
    /// at `base`, and is a feed of this system, database and slot.
    ///
    /// # Errors
    ///
    /// `TooLong` where the names don't fit the head. `Refused` where a call of the file fails, and
    /// `Memory`.
    pub fn create(
        alloc: Global,
        mut disk: D,
        base: Lsn,
        system: &str,
        database: &str,
        slot: &str,
    ) -> Result<Segment<D>, FeedFault>
        requires { IsTrue (D.is_usable disk) }
        ensures keeps { IfOk result (λ s. KeepsEntries s.base s.last s.size s.told.items
            (D.seen s.disk) []) }
        ensures lasts { IfOk result (λ s. Lasts s.base s.size (D.may_leave s.disk) base) }
        ensures told { IfOk result (λ s. D.seen s.disk
            ≡ segment_head base system.now database.now slot.now) }
        ensures begins { IfOk result (λ s. (s.base ≡ base) × (s.is_stuck ≡ false)) }
        ensures fault { IfErr result IsOther }
    {
        let head = segment_head(alloc, base, system, database, slot)?;
        put_head(&mut disk, head.as_str())?;
        Ok(Segment::of(alloc, disk, base, base, SEGMENT_SIZE))
    }

    /// The segment in a file that begins at `base`, up to the commit that ends at the position, or
    /// its head where it begins there. What comes after that is truncated.
    ///
    /// # Errors
    ///
    /// `NotAFeed` where the file isn't such a segment, none of its commits ends at the position, or
    /// the one that does hasn't its checksum; then it is as it was. Of a commit with more than 16
    /// MiB that isn't tested. `Refused` where a call of the file fails, and `Memory`.
    pub fn open(
        alloc: Global,
        mut disk: D,
        base: Lsn,
        position: Lsn,
    ) -> Result<Segment<D>, (FeedFault, D)>
        requires { IsTrue (D.is_usable disk) }
        ensures found { IfOk result (λ s. IsTrue (D.is_clean s.disk) →
            IsFound base position (D.seen disk) s.size) }
        ensures tested { IfOk result (λ s. IsTrue (D.is_clean s.disk) → base < position →
            EndsTested position (D.seen disk) s.size) }
        ensures cut { IfOk result (λ s. IsTrue (D.is_clean s.disk) →
            IsCut (D.seen disk) s.size (D.seen s.disk) (D.may_leave s.disk)) }
        ensures reopens { IfOk result (λ s. IsTrue (D.is_clean s.disk) → (old : Self D) →
            old.base ≡ base → D.may_leave old.disk (D.seen disk) →
            Reopens old.base old.size (D.may_leave old.disk) position s.base s.last s.size
            s.told.items (D.seen s.disk) (D.may_leave s.disk)) }
        ensures untold { IfOk result (λ s. s.told.items ≡ []) }
        ensures begins { IfOk result (λ s. (s.base ≡ base) × (s.last ≡ position)
            × (s.is_stuck ≡ false)) }
        ensures within { OnOk result (base ≤ position) }
        ensures refused { IfErr result (λ e. e.0 ≡ NotAFeed → (D.seen e.1 ≡ D.seen disk)
            × ((c : List ℕ) → D.may_leave e.1 c → D.may_leave disk c)) }
    {
        let size = match find_end(alloc, &mut disk, base, position) {
            Ok(size) => size,
            Err(fault) => return Err((fault, disk)),
        };
        match cut(&mut disk, size) {
            Ok(()) => Ok(Segment::of(alloc, disk, base, position, size)),
            Err(fault) => Err((fault, disk)),
        }
    }
}
