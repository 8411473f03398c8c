//! The items of one open transaction: their bytes in blocks of a file and in memory.

ghost use Rattle.std.specs.Prelude.{◌≡◌, ◌<◌, ◌≤◌, ◌+◌, ◌^◌, ◌++◌, ℕ, List, [], Option, OnOk};
ghost use Rattle.std.specs.Prelude.{OnErr, IfOk, IfErr, IsTrue, length, slice_range};
ghost use Rattle.pglogical.specs.Spelling.{IsSpellable};
ghost use Rattle.pgspill.specs.declared.piece.Owner.{Owner};
ghost use Rattle.pgspill.specs.Pieces.{KeepsPieces};
ghost use Rattle.pgspill.specs.Strands.{IsStrand, KeepsOthers, strand_bytes};
ghost use Rattle.pgspool.specs.Labels.{cut as cut_of, cost, costs};
ghost use Rattle.pgfilespools.specs.Faults.{IsOfWriting, IsOfReading};
ghost use Rattle.pgfilespools.specs.Kept.{AreKept, items_kept, Keeps, Adds, Wherever};

use crate::fault::spool_fault;
use crate::parts::{Part, cut_parts, note_part, part_from};
use crate::place::{Place, note_first};
use crate::read_items::{ReadItems, copy_items, read_items};
use crate::stored::write_item;
use indexmap::IndexMap;
use pglogical::ItemRef;
use pgspill::{Blocks, Strand};
use pgspool::SpoolFault;
use sqlite_disk::Disk;
use std::alloc::Global;

/// The items of one open transaction, each under its subxid.
///
/// Beside their bytes, where each subtransaction's first item is stands in memory: some forty bytes
/// for each subtransaction. So a cut finds at once what it keeps, and reads nothing. Where each
/// part begins stands there too, some sixteen bytes for each.
#[derive(Drop)]
pub(crate) struct FileItems {
    strand: Strand,
    firsts: IndexMap<u32, Place>,
    parts: Vec<Place>,
    count: usize,
    bytes: u64,
}

impl FileItems {
    /// A transaction without items.
    pub(crate) fn new(alloc: Global, xid: u32) -> FileItems
        ensures kept { (key : ℕ) (file : List ℕ) (owners : List (Option Owner)) →
            AreKept key file owners result }
        ensures empty { (file : List ℕ) → items_kept file result ≡ [] }
        ensures xid { result.strand.xid ≡ xid }
    {
        FileItems {
            strand: Strand::new(alloc, xid),
            firsts: IndexMap::new(alloc),
            parts: Vec::new(alloc),
            count: 0,
            bytes: 0,
        }
    }

    /// The number of items.
    pub(crate) fn len(&self) -> usize
        ensures { result ≡ self.now.count }
    {
        self.count
    }

    /// What the items cost in bytes.
    pub(crate) fn bytes(&self) -> u64
        ensures { result ≡ self.now.bytes }
    {
        self.bytes
    }

    /// How many of their bytes are in memory.
    pub(crate) fn in_memory(&self) -> usize {
        self.strand.in_memory()
    }

    // How many items there are, and what they cost.
    fn end(&self) -> Place
        ensures place { result.place ≡ self.now.count }
        ensures bytes { result.bytes ≡ self.now.bytes }
    {
        Place {
            place: self.count,
            bytes: self.bytes,
        }
    }

    // Appends the bytes of an item.
    fn append(&mut self, bytes: &[u8]) -> Result<(), SpoolFault>
        requires { self.old.strand.start ≤ length self.old.strand.tail.items }
        ensures ok { OnOk result ((file : List ℕ) → strand_bytes file self.new.strand
            ≡ strand_bytes file self.old.strand ++ bytes.now) }
        ensures err { OnErr result ((file : List ℕ) → strand_bytes file self.new.strand
            ≡ strand_bytes file self.old.strand) }
        ensures strand { (key : ℕ) (file : List ℕ) (owners : List (Option Owner)) →
            IsStrand key file owners self.old.strand → IsStrand key file owners self.new.strand }
        ensures xid { self.new.strand.xid ≡ self.old.strand.xid }
        ensures firsts { self.new.firsts ≡ self.old.firsts }
        ensures parts { self.new.parts ≡ self.old.parts }
        ensures count { self.new.count ≡ self.old.count }
        ensures bytes { self.new.bytes ≡ self.old.bytes }
        ensures fault { IfErr result IsOfWriting }
    {
        match self.strand.append(bytes) {
            Ok(()) => Ok(()),
            Err(fault) => Err(spool_fault(fault)),
        }
    }

    /// Adds an item that costs so many bytes, in memory. What is stored of it is put together in
    /// the buffer, which many items share, so that none of them takes memory for that.
    ///
    /// # Errors
    ///
    /// `Memory`, and `NoRoom` where the item has four gigabytes or more. The items stay.
    pub(crate) fn push(
        &mut self,
        buffer: &mut Vec<u8>,
        subxid: u32,
        item: &ItemRef<'_>,
        bytes: u64,
    ) -> Result<(), SpoolFault>
        requires start { self.old.strand.start ≤ length self.old.strand.tail.items }
        requires spellable { IsSpellable item.now }
        requires counted { bytes ≡ cost item.now }
        requires fits { self.old.bytes + bytes < 2 ^ 64 }
        ensures ok { OnOk result (Wherever (Adds (subxid, item.now)) self.old self.new) }
        ensures err { OnErr result (Wherever Keeps self.old self.new) }
        ensures xid { self.new.strand.xid ≡ self.old.strand.xid }
        ensures fault { IfErr result IsOfWriting }
    {
        write_item(buffer, subxid, item, bytes)?;
        let Some(count) = self.count.checked_add(1) else {
            return Err(SpoolFault::Memory);
        };
        self.firsts.reserve(1)?;
        let first = self.end();
        note_part(&mut self.parts, first)?;
        self.append(buffer.as_slice())?;
        note_first(&mut self.firsts, subxid, first).unwrap();
        self.count = count;
        self.bytes += bytes;
        Ok(())
    }

    /// Keeps the items before the first one of a subtransaction, and returns the bytes that the
    /// others cost. Nothing is read.
    pub(crate) fn cut<D: Disk + Drop>(&mut self, blocks: &mut Blocks<D>, subxid: u32) -> u64
        requires { AreKept blocks.old.key (D.seen blocks.old.disk) blocks.old.owners.items
            self.old }
        ensures held { items_kept (D.seen blocks.old.disk) self.new
            ≡ cut_of subxid (items_kept (D.seen blocks.old.disk) self.old) }
        ensures freed { costs (items_kept (D.seen blocks.old.disk) self.new) + result
            ≡ costs (items_kept (D.seen blocks.old.disk) self.old) }
        ensures kept { AreKept blocks.new.key (D.seen blocks.new.disk) blocks.new.owners.items
            self.new }
        ensures others { KeepsOthers self.old.strand.xid blocks.old.key (D.seen blocks.old.disk)
            blocks.old.owners.items (D.seen blocks.new.disk) blocks.new.owners.items }
        ensures xid { self.new.strand.xid ≡ self.old.strand.xid }
        ensures disk { blocks.new.disk ≡ blocks.old.disk }
        ensures key { blocks.new.key ≡ blocks.old.key }
    {
        let Some((index, _, first)) = self.firsts.get_full(&subxid) else {
            return 0;
        };
        let Place { place, bytes } = *first;
        let freed = self.bytes - bytes;
        self.strand.cut(blocks, bytes as usize);
        self.firsts.truncate(index);
        cut_parts(&mut self.parts, place);
        self.count = self.count.min(place);
        self.bytes = bytes;
        freed
    }

    /// Writes all that is in memory to the file.
    ///
    /// # Errors
    ///
    /// `NotWritten`, `NoRoom` and `Memory`. The items stay.
    pub(crate) fn spill<D: Disk + Drop>(&mut self, blocks: &mut Blocks<D>) -> Result<(), SpoolFault>
        requires usable { IsTrue (D.is_usable blocks.old.disk) }
        requires kept { AreKept blocks.old.key (D.seen blocks.old.disk) blocks.old.owners.items
            self.old }
        ensures items { items_kept (D.seen blocks.new.disk) self.new
            ≡ items_kept (D.seen blocks.old.disk) self.old }
        ensures kept { AreKept blocks.new.key (D.seen blocks.new.disk) blocks.new.owners.items
            self.new }
        ensures others { KeepsPieces blocks.old.key (D.seen blocks.old.disk)
            blocks.old.owners.items (D.seen blocks.new.disk) blocks.new.owners.items }
        ensures xid { self.new.strand.xid ≡ self.old.strand.xid }
        ensures key { blocks.new.key ≡ blocks.old.key }
        ensures clean { D.is_clean blocks.new.disk ≡ D.is_clean blocks.old.disk }
        ensures usable { IsTrue (D.is_usable blocks.new.disk) }
        ensures fault { IfErr result IsOfWriting }
    {
        match self.strand.spill(blocks) {
            Ok(()) => Ok(()),
            Err(fault) => Err(spool_fault(fault)),
        }
    }

    /// Reads the items, which stand in memory whole then.
    ///
    /// # Errors
    ///
    /// `NotRead` where a block can't be read, or other bytes are read, and `Memory`.
    pub(crate) fn load<D: Disk + Drop>(
        &self,
        alloc: Global,
        blocks: &mut Blocks<D>,
    ) -> Result<ReadItems, SpoolFault>
        requires usable { IsTrue (D.is_usable blocks.old.disk) }
        requires kept { AreKept blocks.old.key (D.seen blocks.old.disk) blocks.old.owners.items
            self.now }
        ensures read { IsTrue (D.is_clean blocks.new.disk) → IfOk result (λ items. items
            ≡ items_kept (D.seen blocks.old.disk) self.now) }
        ensures count { IfOk result (λ items. length items ≡ self.now.count) }
        ensures seen { D.seen blocks.new.disk ≡ D.seen blocks.old.disk }
        ensures owners { blocks.new.owners.items ≡ blocks.old.owners.items }
        ensures key { blocks.new.key ≡ blocks.old.key }
        ensures clean { IsTrue (D.is_clean blocks.new.disk) → IsTrue (D.is_clean blocks.old.disk) }
        ensures fair { D.is_fair blocks.new.disk blocks.old.key
            ≡ D.is_fair blocks.old.disk blocks.old.key }
        ensures usable { IsTrue (D.is_usable blocks.new.disk) }
        ensures fault { IfErr result IsOfReading }
    {
        if let Some(bytes) = self.strand.bytes_in_memory() {
            return copy_items(alloc, bytes, self.count);
        }
        let mut bytes = Vec::new(alloc);
        match self.strand.read(blocks, &mut bytes) {
            Ok(()) => read_items(alloc, bytes, self.count),
            Err(fault) => Err(spool_fault(fault)),
        }
    }

    // Reads the bytes from one place up to another.
    fn read_bytes<D: Disk + Drop>(
        &self,
        alloc: Global,
        blocks: &mut Blocks<D>,
        first: u64,
        last: u64,
    ) -> Result<Vec<u8>, SpoolFault>
        requires usable { IsTrue (D.is_usable blocks.old.disk) }
        requires strand { IsStrand blocks.old.key (D.seen blocks.old.disk) blocks.old.owners.items
            self.now.strand }
        ensures read { IsTrue (D.is_clean blocks.new.disk) → IfOk result (λ bytes. bytes.items
            ≡ slice_range (strand_bytes (D.seen blocks.old.disk) self.now.strand) first last) }
        ensures seen { D.seen blocks.new.disk ≡ D.seen blocks.old.disk }
        ensures owners { blocks.new.owners.items ≡ blocks.old.owners.items }
        ensures key { blocks.new.key ≡ blocks.old.key }
        ensures clean { IsTrue (D.is_clean blocks.new.disk) → IsTrue (D.is_clean blocks.old.disk) }
        ensures fair { D.is_fair blocks.new.disk blocks.old.key
            ≡ D.is_fair blocks.old.disk blocks.old.key }
        ensures usable { IsTrue (D.is_usable blocks.new.disk) }
        ensures fault { IfErr result IsOfReading }
    {
        let mut bytes = Vec::new(alloc);
        match self
            .strand
            .read_range(blocks, &mut bytes, first as usize, last as usize)
        {
            Ok(()) => Ok(bytes),
            Err(fault) => Err(spool_fault(fault)),
        }
    }

    /// Reads the items of the part that begins behind so many, and returns how many are before its
    /// end too. Its items alone stand in memory then.
    ///
    /// # Errors
    ///
    /// `NotRead` where a block can't be read, other bytes are read, or no part begins there, and
    /// `Memory`.
    pub(crate) fn load_part<D: Disk + Drop>(
        &self,
        alloc: Global,
        blocks: &mut Blocks<D>,
        from: usize,
    ) -> Result<(ReadItems, usize), SpoolFault>
        requires usable { IsTrue (D.is_usable blocks.old.disk) }
        requires kept { AreKept blocks.old.key (D.seen blocks.old.disk) blocks.old.owners.items
            self.now }
        ensures read { IsTrue (D.is_clean blocks.new.disk) → IfOk result (λ it. it.0
            ≡ slice_range (items_kept (D.seen blocks.old.disk) self.now) from it.1) }
        ensures count { IfOk result (λ it. length it.0 + from ≡ it.1) }
        ensures within { IfOk result (λ it. it.1 ≤ self.now.count) }
        ensures some { from < self.now.count → IfOk result (λ it. from < it.1) }
        ensures seen { D.seen blocks.new.disk ≡ D.seen blocks.old.disk }
        ensures owners { blocks.new.owners.items ≡ blocks.old.owners.items }
        ensures key { blocks.new.key ≡ blocks.old.key }
        ensures clean { IsTrue (D.is_clean blocks.new.disk) → IsTrue (D.is_clean blocks.old.disk) }
        ensures fair { D.is_fair blocks.new.disk blocks.old.key
            ≡ D.is_fair blocks.old.disk blocks.old.key }
        ensures usable { IsTrue (D.is_usable blocks.new.disk) }
        ensures fault { IfErr result IsOfReading }
    {
        let Some(part) = part_from(self.parts.as_slice(), from, self.end()) else {
            return Err(SpoolFault::NotRead);
        };
        let Part { first, last } = part;
        let bytes = self.read_bytes(alloc, blocks, first.bytes, last.bytes)?;
        let items = read_items(alloc, bytes, last.place - from)?;
        Ok((items, last.place))
    }

    /// Frees all blocks of the transaction.
    pub(crate) fn free<D: Disk + Drop>(mut self, blocks: &mut Blocks<D>)
        requires { AreKept blocks.old.key (D.seen blocks.old.disk) blocks.old.owners.items
            self }
        ensures others { KeepsOthers self.strand.xid blocks.old.key (D.seen blocks.old.disk)
            blocks.old.owners.items (D.seen blocks.new.disk) blocks.new.owners.items }
        ensures disk { blocks.new.disk ≡ blocks.old.disk }
        ensures key { blocks.new.key ≡ blocks.old.key }
    {
        self.strand.cut(blocks, 0);
    }
}
