//! The blocks of a file, each of which is free or has an owner.

ghost use Rattle.std.specs.Prelude.{◌≡◌, ◌≢◌, ◌<◌, ◌≤◌, ◌+◌, ◌++◌, [], length};
ghost use Rattle.std.specs.Prelude.{◌*◌, ◌^◌, ℕ, Some, IsTrue, IfOk, IfErr, IfSome, OnOk};
ghost use Rattle.std.specs.List.{slice_get, slice_range};
ghost use Rattle.sqlite_disk.specs.Digest.{digest as digest_of_bytes};
ghost use Rattle.pgspill.specs.Faults.{IsWriteFault, IsReadFault, IsOutOfMemory};
ghost use Rattle.pgspill.specs.Pieces.{IsPiece, KeepsPieces, bytes_of, part};

use crate::fault::SpillFault;
use crate::piece::{Owner, Piece};
use sqlite_disk::{Disk, digest_of, is_no_room};
use std::alloc::Global;
use std::io;

/// How many bytes a block has room for.
pub const BLOCK_LEN: usize = 65536;

/// The blocks of a file, each of which is free or has an owner. A free block below the end of the
/// file is used before one behind it.
#[derive(Drop)]
pub struct Blocks<D: Disk + Drop> {
    alloc: Global,
    disk: D,
    key: u64,
    owners: Vec<Option<Owner>>,
    lowest: usize,
}

// What a failed write tells.
fn write_fault(error: &io::Error) -> SpillFault
    ensures { IsWriteFault result }
{
    if is_no_room(error) {
        SpillFault::NoRoom
    } else {
        SpillFault::NotWritten
    }
}

impl<D: Disk + Drop> Blocks<D> {
    /// Blocks of a file, none of which has an owner, whatever the file has.
    pub fn new(alloc: Global, disk: D) -> Blocks<D>
        ensures disk { result.disk ≡ disk }
        ensures owners { result.owners.items ≡ [] }
    {
        let key = disk.key();
        Blocks {
            alloc,
            disk,
            key,
            owners: Vec::new(alloc),
            lowest: 0,
        }
    }

    /// How many blocks the file has had at once.
    pub fn len(&self) -> usize
        ensures { result ≡ length self.now.owners.items }
    {
        self.owners.len()
    }

    /// The file.
    pub fn into_disk(self) -> D
        ensures { result ≡ self.disk }
    {
        self.disk
    }

    /// Frees all blocks, and the file's room where that can be done. What was in them is never
    /// read again.
    pub fn clear(&mut self)
        requires { IsTrue (D.is_usable self.old.disk) }
        ensures owners { self.new.owners.items ≡ [] }
        ensures key { self.new.key ≡ self.old.key }
        ensures clean { D.is_clean self.new.disk ≡ D.is_clean self.old.disk }
        ensures usable { IsTrue (D.is_usable self.new.disk) }
    {
        self.owners.clear();
        self.owners.shrink_to_fit();
        self.lowest = 0;
        let _cut = self.disk.set_len(0);
    }

    // A block without an owner, or the one behind all.
    fn free_block(&self) -> usize
        ensures within { result ≤ length self.now.owners.items }
        ensures free { (owner : Owner) →
            slice_get self.now.owners.items result ≢ Some (Some owner) }
    {
        let len = self.owners.len();
        let mut block = self.lowest.min(len);
        'taken: while block < len && self.owners[block].is_some() {
            block += 1;
        }
        block
    }

    // Has room for the owner of a free block.
    fn make_room(&mut self, block: usize) -> Result<(), SpillFault>
        requires within { block ≤ length self.old.owners.items }
        requires free { (owner : Owner) →
            slice_get self.old.owners.items block ≢ Some (Some owner) }
        ensures room { OnOk result (block < length self.new.owners.items) }
        ensures others { (i : ℕ) (owner : Owner) →
            slice_get self.old.owners.items i ≡ Some (Some owner) →
            slice_get self.new.owners.items i ≡ Some (Some owner) }
        ensures disk { self.new.disk ≡ self.old.disk }
        ensures key { self.new.key ≡ self.old.key }
        ensures fault { IfErr result IsOutOfMemory }
    {
        if block == self.owners.len() {
            self.owners.push(None)?;
        }
        Ok(())
    }

    /// Writes bytes to a free block, which has this owner then.
    ///
    /// # Errors
    ///
    /// `NotWritten`, `NoRoom` and `Memory`. No owner's bytes change.
    pub(crate) fn put(&mut self, owner: Owner, bytes: &[u8]) -> Result<Piece, SpillFault>
        requires usable { IsTrue (D.is_usable self.old.disk) }
        requires some { 0 < length bytes.now }
        requires fits { length bytes.now ≤ 65536 }
        ensures piece { IfOk result (λ p. IsPiece self.new.key (D.seen self.new.disk)
            self.new.owners.items owner p) }
        ensures bytes { IfOk result (λ p. bytes_of (D.seen self.new.disk) p ≡ bytes.now) }
        ensures whole { IfOk result (λ p. p.kept ≡ length bytes.now) }
        ensures others { KeepsPieces self.old.key (D.seen self.old.disk) self.old.owners.items
            (D.seen self.new.disk) self.new.owners.items }
        ensures key { self.new.key ≡ self.old.key }
        ensures clean { D.is_clean self.new.disk ≡ D.is_clean self.old.disk }
        ensures usable { IsTrue (D.is_usable self.new.disk) }
        ensures fault { IfErr result IsWriteFault }
    {
        let block = self.free_block();
        let Some(at) = offset_of(block) else {
            return Err(SpillFault::NoRoom);
        };
        self.make_room(block)?;
        if let Err(error) = self.disk.write_at(at, bytes) {
            return Err(write_fault(&error));
        }
        self.owners[block] = Some(owner);
        self.lowest = block + 1;
        Ok(Piece {
            block,
            kept: bytes.len(),
            written: bytes.len(),
            digest: digest_of(self.key, bytes),
        })
    }

    /// Frees the block of a piece.
    pub(crate) fn free(&mut self, owner: Owner, piece: &Piece)
        requires { IsPiece self.old.key (D.seen self.old.disk) self.old.owners.items owner
            piece.now }
        ensures others { (other : Owner) (p : Piece) → other ≢ owner →
            IsPiece self.old.key (D.seen self.old.disk) self.old.owners.items other p →
            IsPiece self.old.key (D.seen self.old.disk) self.new.owners.items other p }
        ensures disk { self.new.disk ≡ self.old.disk }
        ensures key { self.new.key ≡ self.old.key }
    {
        self.owners[piece.block] = None;
        self.lowest = self.lowest.min(piece.block);
    }

    /// Appends the bytes of a piece, which are tested.
    ///
    /// # Errors
    ///
    /// `NotRead` where they can't be read, or others are read, and `Memory`.
    pub(crate) fn read(
        &mut self,
        owner: Owner,
        piece: &Piece,
        out: &mut Vec<u8>,
    ) -> Result<(), SpillFault>
        requires usable { IsTrue (D.is_usable self.old.disk) }
        requires piece { IsPiece self.old.key (D.seen self.old.disk) self.old.owners.items owner
            piece.now }
        ensures read { IsTrue (D.is_clean self.new.disk) → OnOk result (out.new.items
            ≡ out.old.items ++ bytes_of (D.seen self.old.disk) piece.now) }
        ensures seen { D.seen self.new.disk ≡ D.seen self.old.disk }
        ensures owners { self.new.owners.items ≡ self.old.owners.items }
        ensures key { self.new.key ≡ self.old.key }
        ensures clean { IsTrue (D.is_clean self.new.disk) → IsTrue (D.is_clean self.old.disk) }
        ensures fair { D.is_fair self.new.disk self.old.key ≡ D.is_fair self.old.disk self.old.key }
        ensures usable { IsTrue (D.is_usable self.new.disk) }
        ensures fault { IfErr result IsReadFault }
    {
        let _owner = owner;
        let at = piece.block * BLOCK_LEN;
        let bytes = self.read_block(at, piece.written, piece.digest)?;
        out.extend_from_slice(&bytes[..piece.kept])?;
        Ok(())
    }

    /// Appends the bytes of a piece from one up to another, all of which are tested.
    ///
    /// # Errors
    ///
    /// `NotRead` where they can't be read, or others are read, and `Memory`.
    pub(crate) fn read_range(
        &mut self,
        owner: Owner,
        piece: &Piece,
        out: &mut Vec<u8>,
        start: usize,
        end: usize,
    ) -> Result<(), SpillFault>
        requires usable { IsTrue (D.is_usable self.old.disk) }
        requires piece { IsPiece self.old.key (D.seen self.old.disk) self.old.owners.items owner
            piece.now }
        requires order { start ≤ end }
        requires within { start ≤ piece.now.kept }
        ensures read { IsTrue (D.is_clean self.new.disk) → OnOk result (out.new.items
            ≡ out.old.items ++ slice_range (bytes_of (D.seen self.old.disk) piece.now) start end) }
        ensures seen { D.seen self.new.disk ≡ D.seen self.old.disk }
        ensures owners { self.new.owners.items ≡ self.old.owners.items }
        ensures key { self.new.key ≡ self.old.key }
        ensures clean { IsTrue (D.is_clean self.new.disk) → IsTrue (D.is_clean self.old.disk) }
        ensures fair { D.is_fair self.new.disk self.old.key ≡ D.is_fair self.old.disk self.old.key }
        ensures usable { IsTrue (D.is_usable self.new.disk) }
        ensures fault { IfErr result IsReadFault }
    {
        let _owner = owner;
        let at = piece.block * BLOCK_LEN;
        let bytes = self.read_block(at, piece.written, piece.digest)?;
        out.extend_from_slice(&bytes[start..end.min(piece.kept)])?;
        Ok(())
    }

    // So many bytes at an offset, which have this digest.
    fn read_block(&mut self, at: usize, len: usize, digest: u64) -> Result<Vec<u8>, SpillFault>
        requires usable { IsTrue (D.is_usable self.old.disk) }
        requires some { 0 < len }
        requires tested { digest
            ≡ digest_of_bytes self.old.key (part (D.seen self.old.disk) at len) }
        ensures read { IsTrue (D.is_clean self.new.disk) →
            IfOk result (λ bytes. bytes.items ≡ part (D.seen self.old.disk) at len) }
        ensures len { IfOk result (λ bytes. length bytes.items ≡ len) }
        ensures seen { D.seen self.new.disk ≡ D.seen self.old.disk }
        ensures owners { self.new.owners.items ≡ self.old.owners.items }
        ensures key { self.new.key ≡ self.old.key }
        ensures clean { IsTrue (D.is_clean self.new.disk) → IsTrue (D.is_clean self.old.disk) }
        ensures fair { D.is_fair self.new.disk self.old.key ≡ D.is_fair self.old.disk self.old.key }
        ensures usable { IsTrue (D.is_usable self.new.disk) }
        ensures fault { IfErr result IsReadFault }
    {
        let mut bytes = Vec::new(self.alloc);
        bytes.resize(len, 0)?;
        match self.disk.read_checked(self.key, digest, at, &mut bytes) {
            Ok(()) => Ok(bytes),
            Err(_) => Err(SpillFault::NotRead),
        }
    }
}

// Where a block begins, unless the file can't be as long.
fn offset_of(block: usize) -> Option<usize>
    ensures { IfSome result (λ at. (at ≡ block * 65536) × (at + 65536 < 2 ^ 64)) }
{
    if block >= usize::MAX / BLOCK_LEN {
        return None;
    }
    Some(block * BLOCK_LEN)
}
