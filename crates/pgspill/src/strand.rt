//! A strand: the bytes of one transaction, the last of them in memory.

ghost use Rattle.std.specs.Prelude.{◌≡◌, ◌<◌, ◌≤◌, ◌++◌, ℕ, List, [], Option, Some, length, take};
ghost use Rattle.std.specs.Prelude.{◌-◌, IsTrue, IfErr, IfSome, OnOk, OnErr, drop, slice_range};
ghost use Rattle.pgspill.specs.Faults.{IsWriteFault, IsReadFault, IsOutOfMemory};
ghost use Rattle.std.specs.List.{slice_get};
ghost use Rattle.pgspill.specs.Pieces.{KeepsPieces, bytes_of};
ghost use Rattle.pgspill.specs.Strands.{IsStrand, KeepsOthers, spilled_bytes, strand_bytes};

use crate::blocks::{BLOCK_LEN, Blocks};
use crate::fault::SpillFault;
use crate::piece::{Owner, Piece};
use sqlite_disk::Disk;
use std::alloc::Global;

/// The bytes of one transaction: first those in blocks, then those in memory.
///
/// Two strands over the same blocks have different transactions.
#[derive(Drop)]
pub struct Strand {
    xid: u32,
    pieces: Vec<Piece>,
    spilled: usize,
    tail: Vec<u8>,
    start: usize,
}

impl Strand {
    /// The strand of a transaction, without bytes.
    pub fn new(alloc: Global, xid: u32) -> Strand
        ensures strand { (key : ℕ) (file : List ℕ) (owners : List (Option Owner)) →
            IsStrand key file owners result }
        ensures empty { (file : List ℕ) → strand_bytes file result ≡ [] }
        ensures xid { result.xid ≡ xid }
    {
        Strand {
            xid,
            pieces: Vec::new(alloc),
            spilled: 0,
            tail: Vec::new(alloc),
            start: 0,
        }
    }

    /// How many bytes of it are in memory.
    pub fn in_memory(&self) -> usize
        ensures { result ≡ length self.now.tail.items }
    {
        self.tail.len()
    }

    /// All of its bytes, where none of them is in a block.
    pub fn bytes_in_memory(&self) -> Option<&[u8]>
        requires { self.now.start ≤ length self.now.tail.items }
        ensures { IfSome result (λ bytes. (file : List ℕ) →
            bytes.now ≡ strand_bytes file self.now) }
    {
        if !self.pieces.is_empty() {
            return None;
        }
        Some(&self.tail[self.start..])
    }

    /// Appends bytes, in memory.
    ///
    /// # Errors
    ///
    /// Out of memory, and nothing changes.
    pub fn append(&mut self, bytes: &[u8]) -> Result<(), SpillFault>
        requires { self.old.start ≤ length self.old.tail.items }
        ensures ok { OnOk result ((file : List ℕ) →
            strand_bytes file self.new ≡ strand_bytes file self.old ++ bytes.now) }
        ensures err { OnErr result ((file : List ℕ) →
            strand_bytes file self.new ≡ strand_bytes file self.old) }
        ensures strand { (key : ℕ) (file : List ℕ) (owners : List (Option Owner)) →
            IsStrand key file owners self.old → IsStrand key file owners self.new }
        ensures xid { self.new.xid ≡ self.old.xid }
        ensures fault { IfErr result IsOutOfMemory }
    {
        self.tail.extend_from_slice(bytes)?;
        Ok(())
    }

    // Writes the next bytes of memory to a block: as many as it has room for.
    fn spill_piece<D: Disk + Drop>(&mut self, blocks: &mut Blocks<D>) -> Result<(), SpillFault>
        requires usable { IsTrue (D.is_usable blocks.old.disk) }
        requires strand { IsStrand blocks.old.key (D.seen blocks.old.disk) blocks.old.owners.items
            self.old }
        requires left { self.old.start < length self.old.tail.items }
        ensures bytes { strand_bytes (D.seen blocks.new.disk) self.new
            ≡ strand_bytes (D.seen blocks.old.disk) self.old }
        ensures strand { IsStrand blocks.new.key (D.seen blocks.new.disk) blocks.new.owners.items
            self.new }
        ensures others { KeepsPieces blocks.old.key (D.seen blocks.old.disk)
            blocks.old.owners.items (D.seen blocks.new.disk) blocks.new.owners.items }
        ensures further { OnOk result (self.old.start < self.new.start) }
        ensures tail { self.new.tail.items ≡ self.old.tail.items }
        ensures xid { self.new.xid ≡ self.old.xid }
        ensures key { blocks.new.key ≡ blocks.old.key }
        ensures clean { D.is_clean blocks.new.disk ≡ D.is_clean blocks.old.disk }
        ensures usable { IsTrue (D.is_usable blocks.new.disk) }
        ensures fault { IfErr result IsWriteFault }
    {
        let len = (self.tail.len() - self.start).min(BLOCK_LEN);
        let end = self.start + len;
        let Some(spilled) = self.spilled.checked_add(len) else {
            return Err(SpillFault::NoRoom);
        };
        self.pieces.reserve(1)?;
        let owner = Owner {
            xid: self.xid,
            place: self.pieces.len(),
        };
        let piece = blocks.put(owner, &self.tail[self.start..end])?;
        self.pieces.push(piece).unwrap();
        self.spilled = spilled;
        self.start = end;
        Ok(())
    }

    /// Writes all that is in memory to blocks.
    ///
    /// # Errors
    ///
    /// `NotWritten`, `NoRoom` and `Memory`. The bytes are the same, some of them in blocks.
    pub fn spill<D: Disk + Drop>(&mut self, blocks: &mut Blocks<D>) -> Result<(), SpillFault>
        requires usable { IsTrue (D.is_usable blocks.old.disk) }
        requires strand { IsStrand blocks.old.key (D.seen blocks.old.disk) blocks.old.owners.items
            self.old }
        ensures bytes { strand_bytes (D.seen blocks.new.disk) self.new
            ≡ strand_bytes (D.seen blocks.old.disk) self.old }
        ensures strand { IsStrand blocks.new.key (D.seen blocks.new.disk) blocks.new.owners.items
            self.new }
        ensures others { KeepsPieces blocks.old.key (D.seen blocks.old.disk)
            blocks.old.owners.items (D.seen blocks.new.disk) blocks.new.owners.items }
        ensures memory { OnOk result (self.new.tail.items ≡ []) }
        ensures xid { self.new.xid ≡ self.old.xid }
        ensures key { blocks.new.key ≡ blocks.old.key }
        ensures clean { D.is_clean blocks.new.disk ≡ D.is_clean blocks.old.disk }
        ensures usable { IsTrue (D.is_usable blocks.new.disk) }
        ensures fault { IfErr result IsWriteFault }
    {
        'left: while self.start < self.tail.len() {
            self.spill_piece(blocks)?;
        }
        self.forget_tail();
        Ok(())
    }

    // Lets go of what is in memory, with its room.
    fn forget_tail(&mut self)
        ensures tail { self.new.tail.items ≡ [] }
        ensures start { self.new.start ≡ 0 }
        ensures pieces { self.new.pieces.items ≡ self.old.pieces.items }
        ensures spilled { self.new.spilled ≡ self.old.spilled }
        ensures xid { self.new.xid ≡ self.old.xid }
    {
        self.tail.clear();
        self.tail.shrink_to_fit();
        self.start = 0;
    }

    /// Appends all bytes to others, those in blocks read and tested.
    ///
    /// # Errors
    ///
    /// `NotRead` where a block can't be read, or other bytes are read, and `Memory`.
    pub fn read<D: Disk + Drop>(
        &self,
        blocks: &mut Blocks<D>,
        out: &mut Vec<u8>,
    ) -> Result<(), SpillFault>
        requires usable { IsTrue (D.is_usable blocks.old.disk) }
        requires strand { IsStrand blocks.old.key (D.seen blocks.old.disk) blocks.old.owners.items
            self.now }
        ensures read { IsTrue (D.is_clean blocks.new.disk) → OnOk result (out.new.items
            ≡ out.old.items ++ strand_bytes (D.seen blocks.old.disk) self.now) }
        ensures seen { D.seen blocks.new.disk ≡ D.seen blocks.old.disk }
        ensures owners { blocks.new.owners.items ≡ blocks.old.owners.items }
        ensures key { blocks.new.key ≡ blocks.old.key }
        ensures clean { IsTrue (D.is_clean blocks.new.disk) → IsTrue (D.is_clean blocks.old.disk) }
        ensures fair { D.is_fair blocks.new.disk blocks.old.key
            ≡ D.is_fair blocks.old.disk blocks.old.key }
        ensures usable { IsTrue (D.is_usable blocks.new.disk) }
        ensures fault { IfErr result IsReadFault }
    {
        for place in 0..self.pieces.len() {
            let owner = Owner {
                xid: self.xid,
                place,
            };
            let piece = self.pieces[place];
            blocks.read(owner, &piece, out)?;
        }
        out.extend_from_slice(&self.tail[self.start..])?;
        Ok(())
    }

    // Appends the bytes of a piece from one up to another. Its block is read where it has such.
    fn read_piece<D: Disk + Drop>(
        &self,
        blocks: &mut Blocks<D>,
        out: &mut Vec<u8>,
        place: usize,
        start: usize,
        end: usize,
    ) -> Result<(), SpillFault>
        requires usable { IsTrue (D.is_usable blocks.old.disk) }
        requires strand { IsStrand blocks.old.key (D.seen blocks.old.disk) blocks.old.owners.items
            self.now }
        requires place { place < length self.now.pieces.items }
        ensures read { IsTrue (D.is_clean blocks.new.disk) → (p : Piece) →
            slice_get self.now.pieces.items place ≡ Some p → OnOk result (out.new.items
            ≡ out.old.items ++ slice_range (bytes_of (D.seen blocks.old.disk) p) start end) }
        ensures seen { D.seen blocks.new.disk ≡ D.seen blocks.old.disk }
        ensures owners { blocks.new.owners.items ≡ blocks.old.owners.items }
        ensures key { blocks.new.key ≡ blocks.old.key }
        ensures clean { IsTrue (D.is_clean blocks.new.disk) → IsTrue (D.is_clean blocks.old.disk) }
        ensures fair { D.is_fair blocks.new.disk blocks.old.key
            ≡ D.is_fair blocks.old.disk blocks.old.key }
        ensures usable { IsTrue (D.is_usable blocks.new.disk) }
        ensures fault { IfErr result IsReadFault }
    {
        let piece = &self.pieces[place];
        if start >= end.min(piece.kept) {
            return Ok(());
        }
        let owner = Owner {
            xid: self.xid,
            place,
        };
        blocks.read_range(owner, piece, out, start, end)
    }

    // Appends the bytes in blocks from one up to another, of which only these blocks are read. All
    // pieces before them are passed, which is short beside a read.
    fn read_blocks<D: Disk + Drop>(
        &self,
        blocks: &mut Blocks<D>,
        out: &mut Vec<u8>,
        start: usize,
        end: usize,
    ) -> Result<(), SpillFault>
        requires usable { IsTrue (D.is_usable blocks.old.disk) }
        requires strand { IsStrand blocks.old.key (D.seen blocks.old.disk) blocks.old.owners.items
            self.now }
        ensures read { IsTrue (D.is_clean blocks.new.disk) → OnOk result (out.new.items
            ≡ out.old.items ++ slice_range
            (spilled_bytes (D.seen blocks.old.disk) self.now.pieces.items) start end) }
        ensures seen { D.seen blocks.new.disk ≡ D.seen blocks.old.disk }
        ensures owners { blocks.new.owners.items ≡ blocks.old.owners.items }
        ensures key { blocks.new.key ≡ blocks.old.key }
        ensures clean { IsTrue (D.is_clean blocks.new.disk) → IsTrue (D.is_clean blocks.old.disk) }
        ensures fair { D.is_fair blocks.new.disk blocks.old.key
            ≡ D.is_fair blocks.old.disk blocks.old.key }
        ensures usable { IsTrue (D.is_usable blocks.new.disk) }
        ensures fault { IfErr result IsReadFault }
    {
        let mut place = 0;
        let mut at = 0;
        'passed: while place < self.pieces.len() && at < end {
            self.read_piece(blocks, out, place, start.saturating_sub(at), end - at)?;
            at += self.pieces[place].kept;
            place += 1;
        }
        Ok(())
    }

    // Appends the bytes in memory from one up to another, of those in blocks and these.
    fn read_tail(&self, out: &mut Vec<u8>, start: usize, end: usize) -> Result<(), SpillFault>
        requires { self.now.start ≤ length self.now.tail.items }
        ensures read { OnOk result (out.new.items ≡ out.old.items ++ slice_range
            (drop self.now.start self.now.tail.items) (start - self.now.spilled)
            (end - self.now.spilled)) }
        ensures fault { IfErr result IsOutOfMemory }
    {
        let tail = &self.tail[self.start..];
        let to = end.saturating_sub(self.spilled).min(tail.len());
        let from = start.saturating_sub(self.spilled).min(to);
        out.extend_from_slice(&tail[from..to])?;
        Ok(())
    }

    /// Appends the bytes from one up to another, without that one, to others: those of them in
    /// blocks are read and tested, and no other block is read. There are fewer where the strand
    /// ends before.
    ///
    /// # Errors
    ///
    /// `NotRead` where a block can't be read, or other bytes are read, and `Memory`.
    pub fn read_range<D: Disk + Drop>(
        &self,
        blocks: &mut Blocks<D>,
        out: &mut Vec<u8>,
        start: usize,
        end: usize,
    ) -> Result<(), SpillFault>
        requires usable { IsTrue (D.is_usable blocks.old.disk) }
        requires strand { IsStrand blocks.old.key (D.seen blocks.old.disk) blocks.old.owners.items
            self.now }
        ensures read { IsTrue (D.is_clean blocks.new.disk) → OnOk result (out.new.items
            ≡ out.old.items ++ slice_range (strand_bytes (D.seen blocks.old.disk) self.now)
            start end) }
        ensures seen { D.seen blocks.new.disk ≡ D.seen blocks.old.disk }
        ensures owners { blocks.new.owners.items ≡ blocks.old.owners.items }
        ensures key { blocks.new.key ≡ blocks.old.key }
        ensures clean { IsTrue (D.is_clean blocks.new.disk) → IsTrue (D.is_clean blocks.old.disk) }
        ensures fair { D.is_fair blocks.new.disk blocks.old.key
            ≡ D.is_fair blocks.old.disk blocks.old.key }
        ensures usable { IsTrue (D.is_usable blocks.new.disk) }
        ensures fault { IfErr result IsReadFault }
    {
        self.read_blocks(blocks, out, start, end)?;
        self.read_tail(out, start, end)
    }

    /// Keeps so many bytes, all where there are fewer. Nothing is read or written: the blocks of
    /// the others are free.
    pub fn cut<D: Disk + Drop>(&mut self, blocks: &mut Blocks<D>, len: usize)
        requires { IsStrand blocks.old.key (D.seen blocks.old.disk) blocks.old.owners.items
            self.old }
        ensures bytes { strand_bytes (D.seen blocks.old.disk) self.new
            ≡ take len (strand_bytes (D.seen blocks.old.disk) self.old) }
        ensures strand { IsStrand blocks.new.key (D.seen blocks.new.disk) blocks.new.owners.items
            self.new }
        ensures others { KeepsOthers self.old.xid blocks.old.key (D.seen blocks.old.disk)
            blocks.old.owners.items (D.seen blocks.new.disk) blocks.new.owners.items }
        ensures xid { self.new.xid ≡ self.old.xid }
        ensures disk { blocks.new.disk ≡ blocks.old.disk }
        ensures key { blocks.new.key ≡ blocks.old.key }
    {
        if len >= self.spilled {
            let left = len - self.spilled;
            if left < self.tail.len() - self.start {
                self.tail.truncate(self.start + left);
            }
            return;
        }
        self.forget_tail();
        'longer: while len < self.spilled {
            self.cut_last(blocks, len);
        }
    }

    // Keeps so many bytes of the last piece as leave so many in all, or none of it.
    fn cut_last<D: Disk + Drop>(&mut self, blocks: &mut Blocks<D>, len: usize)
        requires strand { IsStrand blocks.old.key (D.seen blocks.old.disk) blocks.old.owners.items
            self.old }
        requires longer { len < self.old.spilled }
        requires spilled { self.old.tail.items ≡ [] }
        ensures bytes { take len (strand_bytes (D.seen blocks.old.disk) self.new)
            ≡ take len (strand_bytes (D.seen blocks.old.disk) self.old) }
        ensures strand { IsStrand blocks.new.key (D.seen blocks.new.disk) blocks.new.owners.items
            self.new }
        ensures others { KeepsOthers self.old.xid blocks.old.key (D.seen blocks.old.disk)
            blocks.old.owners.items (D.seen blocks.new.disk) blocks.new.owners.items }
        ensures shorter { self.new.spilled < self.old.spilled }
        ensures no_less { len ≤ self.new.spilled }
        ensures tail { self.new.tail.items ≡ [] }
        ensures xid { self.new.xid ≡ self.old.xid }
        ensures disk { blocks.new.disk ≡ blocks.old.disk }
        ensures key { blocks.new.key ≡ blocks.old.key }
    {
        let place = self.pieces.len() - 1;
        let last = self.pieces[place];
        let before = self.spilled - last.kept;
        if before < len {
            self.pieces[place] = Piece {
                kept: len - before,
                ..last
            };
            self.spilled = len;
            return;
        }
        let owner = Owner {
            xid: self.xid,
            place,
        };
        blocks.free(owner, &last);
        self.pieces.truncate(place);
        self.spilled = before;
    }
}
