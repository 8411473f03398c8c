//! Spools whose items go on in a file.

ghost use Rattle.std.specs.Prelude.{◌≡◌, ◌≤◌, ◌<◌, ◌+◌, ◌↔◌, ◌∷◌, ◌++◌, [], IsTrue, OnOk, OnErr};
ghost use Rattle.std.specs.Prelude.{IfOk, IfErr};
ghost use Rattle.std.specs.Prelude.{IfSome, IsSome, option_map, slice_get, length, true, false};
ghost use Rattle.std.specs.Prelude.{if◌then◌else◌, ℕ, None, slice_range};
ghost use Rattle.std.specs.FinMap as map;
ghost use Rattle.pglogical.specs.Spelling.{IsSpellable};
ghost use Rattle.pgspool.specs.Labels.{LabelledItem, cut as cut_of, held_of, cost, all_costs};
ghost use Rattle.pgfilespools.specs.Faults.{IsOfOpening, IsOfWriting, IsOfReading, IsOfPushing};
ghost use Rattle.pgfilespools.specs.Spooled.{IsLoaded, IsReady, IsPart, HasPart};

use crate::file_items::FileItems;
use crate::parts::PART_BYTES;
use crate::read_items::ReadItems;
use crate::stored::OVERHEAD;
use indexmap::IndexMap;
use pglogical::{ItemRef, spelled_len};
use pgspill::Blocks;
use pgspool::SpoolFault;
use sqlite_disk::Disk;
use std::alloc::Global;
use std::marker::Model;

/// How many transactions are open at most. In practice a server's `max_connections` is far lower.
pub const MOST_OPEN: usize = 65_536;

/// The buffered items of open transactions: in memory up to a number of bytes, the others in blocks
/// of one file, which all transactions share.
///
/// Each transaction costs some two hundred bytes of memory beside, also one without items, which
/// `max_bytes` doesn't count: so at most `MOST_OPEN` are open. Each subtransaction costs forty.
#[derive(Drop)]
pub struct FileSpools<D: Disk + Drop> {
    alloc: Global,
    blocks: Blocks<D>,
    transactions: IndexMap<u32, FileItems>,
    bytes: u64,
    max_bytes: u64,
    in_memory: u64,
    max_in_memory: u64,
    buffer: Vec<u8>,
    loaded: Option<(u32, ReadItems)>,
    part: Option<(u32, (usize, ReadItems))>,
}

impl<D: Disk + Drop> Model for FileSpools<D> {
    ghost use Rattle.std.specs.Prelude.{IsTrue};
    ghost use Rattle.pgfilespools.specs.Spooled.{FileSpooled, spooled_code};

    ghost Value = { FileSpooled };

    ghost coded = { spooled_code };

    ghost use Rattle.pgfilespools.specs.Spooled.{held_in_file, AreSpooled};

    ghost view = { λ s. record {
      held = held_in_file (D.seen s.blocks.disk) s.transactions.entries;
      most = s.max_bytes;
      loaded = s.loaded;
      part = s.part;
      is_honest = D.is_clean s.blocks.disk;
    } };

    ghost invariant = { λ s. AreSpooled s.blocks.key (D.seen s.blocks.disk) s.blocks.owners.items
        s.transactions.entries s.bytes s.max_bytes × IsTrue (D.is_usable s.blocks.disk) };
}

// Where the items of a transaction cost more, they are better read part after part.
const LONG_BYTES: u64 = 4 * PART_BYTES;

// Room for so many bytes is kept for the items to come, as most need less.
const BUFFER_BYTES: usize = 65_536;

// Lets go of the room that a long item took.
fn give_back(buffer: &mut Vec<u8>) {
    if buffer.capacity() > BUFFER_BYTES {
        buffer.clear();
        buffer.shrink_to_fit();
    }
}

// A number of bytes, of which so many have become others.
fn changed(total: u64, was: usize, now: usize) -> u64 {
    total.saturating_sub(was as u64).saturating_add(now as u64)
}

impl<D: Disk + Drop> FileSpools<D> {
    /// Spools without an open transaction, over a file of which nothing is read that wasn't written
    /// since. All items may cost `max_bytes` at most, and `max_in_memory` bytes of them stay in
    /// memory.
    pub fn new(alloc: Global, disk: D, max_bytes: u64, max_in_memory: u64) -> FileSpools<D>
        requires { IsTrue (D.is_usable disk) }
        ensures empty { result.held ≡ map.empty }
        ensures limit { result.most ≡ max_bytes }
        ensures honest { result.is_honest ≡ D.is_clean disk }
    {
        FileSpools {
            alloc,
            blocks: Blocks::new(alloc, disk),
            transactions: IndexMap::new(alloc),
            bytes: 0,
            max_bytes,
            in_memory: 0,
            max_in_memory,
            buffer: Vec::new(alloc),
            loaded: None,
            part: None,
        }
    }

    /// Whether items of this transaction may be buffered.
    pub fn is_open(&self, xid: u32) -> bool
        ensures { result ≡ map.contains_key self.now.held xid }
    {
        self.transactions.contains_key(&xid)
    }

    // Whether one more transaction may be open.
    fn may_open(&self) -> bool
        ensures { (result ≡ true) ↔ (map.len self.now.held < MOST_OPEN) }
    {
        self.transactions.len() < MOST_OPEN
    }

    /// Opens a transaction, without items.
    ///
    /// # Errors
    ///
    /// `TooManyOpen` exactly where `MOST_OPEN` are open, and `Memory`. What is held stays.
    pub fn open(&mut self, xid: u32) -> Result<(), SpoolFault>
        requires { map.contains_key self.old.held xid ≡ false }
        ensures ok { OnOk result (self.new.held ≡ map.insert self.old.held xid []) }
        ensures many { (result ≡ Err SpoolFault.TooManyOpen) ↔
            (MOST_OPEN ≤ map.len self.old.held) }
        ensures fault { IfErr result IsOfOpening }
        ensures err { OnErr result (self.new.held ≡ self.old.held) }
        ensures limit { self.new.most ≡ self.old.most }
        ensures honest { self.new.is_honest ≡ self.old.is_honest }
    {
        if !self.may_open() {
            return Err(SpoolFault::TooManyOpen);
        }
        let items = FileItems::new(self.alloc, xid);
        self.transactions.insert(xid, items)?;
        Ok(())
    }

    // What an item costs, unless that is more than what is left of the limit.
    fn cost_within(&self, item: &ItemRef<'_>) -> Option<u64>
        ensures full { (result ≡ None) ↔
            (self.now.most < all_costs self.now.held + cost item.now) }
        ensures value { IfSome result (λ bytes. bytes ≡ cost item.now) }
    {
        let room = self.max_bytes - self.bytes;
        let size = spelled_len(item);
        if room < OVERHEAD || room - OVERHEAD < size {
            return None;
        }
        Some(OVERHEAD + size)
    }

    // How many transactions are open.
    fn open_ones(&self) -> usize {
        self.transactions.len()
    }

    // Half of the bytes that a transaction has in memory on the average, and one at least.
    fn half_of_average(&self) -> u64 {
        let average = self.in_memory / self.transactions.len().max(1) as u64;
        (average / 2).max(1)
    }

    // The transaction at an index, where it has at least so many bytes in memory.
    fn long_at(&self, index: usize, least: u64) -> Option<u32> {
        let (xid, items) = self.transactions.get_index(index)?;
        if (items.in_memory() as u64) < least {
            return None;
        }
        Some(*xid)
    }

    // Writes what a transaction has in memory to the file.
    fn spill(&mut self, xid: u32) -> Result<(), SpoolFault>
        ensures held { self.new.held ≡ self.old.held }
        ensures limit { self.new.most ≡ self.old.most }
        ensures honest { self.new.is_honest ≡ self.old.is_honest }
        ensures part { self.new.part ≡ self.old.part }
        ensures fault { IfErr result IsOfWriting }
    {
        let Some(items) = self.transactions.get_mut(&xid) else {
            return Ok(());
        };
        let was = items.in_memory();
        let written = items.spill(&mut self.blocks);
        self.in_memory = changed(self.in_memory, was, items.in_memory());
        written
    }

    // Writes the bytes of each transaction that has half of the average in memory, or more, to the
    // file. The others have less than half of all, so no transaction is looked at again before as
    // many bytes came.
    fn spill_long(&mut self) -> Result<(), SpoolFault>
        ensures held { self.new.held ≡ self.old.held }
        ensures limit { self.new.most ≡ self.old.most }
        ensures honest { self.new.is_honest ≡ self.old.is_honest }
        ensures part { self.new.part ≡ self.old.part }
        ensures fault { IfErr result IsOfWriting }
    {
        let least = self.half_of_average();
        for index in 0..self.open_ones() {
            if let Some(xid) = self.long_at(index, least) {
                self.spill(xid)?;
            }
        }
        Ok(())
    }

    // Writes the bytes of long transactions to the file, where so many more would be too many for
    // memory.
    fn make_room(&mut self, bytes: u64) -> Result<(), SpoolFault>
        ensures held { self.new.held ≡ self.old.held }
        ensures limit { self.new.most ≡ self.old.most }
        ensures honest { self.new.is_honest ≡ self.old.is_honest }
        ensures part { self.new.part ≡ self.old.part }
        ensures fault { IfErr result IsOfWriting }
    {
        if self.in_memory.saturating_add(bytes) <= self.max_in_memory {
            return Ok(());
        }
        self.spill_long()
    }

    // Holds an item that costs so many bytes after those of its transaction, in memory.
    fn hold(
        &mut self,
        xid: u32,
        subxid: u32,
        item: &ItemRef<'_>,
        bytes: u64,
    ) -> Result<(), SpoolFault>
        requires open { map.contains_key self.old.held xid ≡ true }
        requires spellable { IsSpellable item.now }
        requires counted { bytes ≡ cost item.now }
        requires room { all_costs self.old.held + bytes ≤ self.old.most }
        ensures ok { OnOk result (self.new.held ≡ map.insert self.old.held xid
            (held_of self.old.held xid ++ (subxid, item.now) ∷ [])) }
        ensures fault { IfErr result IsOfWriting }
        ensures err { OnErr result (self.new.held ≡ self.old.held) }
        ensures limit { self.new.most ≡ self.old.most }
        ensures honest { self.new.is_honest ≡ self.old.is_honest }
        ensures part { self.new.part ≡ self.old.part }
    {
        let Some(items) = self.transactions.get_mut(&xid) else {
            unreachable!()
        };
        items.push(&mut self.buffer, subxid, item, bytes)?;
        self.bytes += bytes;
        self.in_memory = self.in_memory.saturating_add(bytes);
        give_back(&mut self.buffer);
        Ok(())
    }

    // Lets go of the items that were read back.
    fn unload(&mut self)
        ensures held { self.new.held ≡ self.old.held }
        ensures limit { self.new.most ≡ self.old.most }
        ensures honest { self.new.is_honest ≡ self.old.is_honest }
        ensures part { self.new.part ≡ None }
    {
        self.loaded = None;
        self.part = None;
    }

    /// Holds an item after those of its transaction. Where memory is full, the transactions that
    /// have most bytes there go on in the file.
    ///
    /// # Errors
    ///
    /// `SpoolFull` exactly where it would cost more than the limit; `NotWritten` and `NoRoom` where
    /// a write fails, and `Memory`. What is held stays.
    pub fn push(&mut self, xid: u32, subxid: u32, item: &ItemRef<'_>) -> Result<(), SpoolFault>
        requires open { map.contains_key self.old.held xid ≡ true }
        requires spellable { IsSpellable item.now }
        ensures ok { OnOk result (self.new.held ≡ map.insert self.old.held xid
            (held_of self.old.held xid ++ (subxid, item.now) ∷ [])) }
        ensures full { (result ≡ Err SpoolFault.SpoolFull) ↔
            (self.old.most < all_costs self.old.held + cost item.now) }
        ensures fault { IfErr result IsOfPushing }
        ensures err { OnErr result (self.new.held ≡ self.old.held) }
        ensures limit { self.new.most ≡ self.old.most }
        ensures honest { self.new.is_honest ≡ self.old.is_honest }
        ensures part { OnOk result (self.new.part ≡ None) }
    {
        let Some(bytes) = self.cost_within(item) else {
            return Err(SpoolFault::SpoolFull);
        };
        self.unload();
        self.make_room(bytes)?;
        self.hold(xid, subxid, item, bytes)
    }

    /// Keeps a transaction's items before the first one of a subtransaction: all of them where it
    /// has none. A transaction that isn't open stays so. Nothing is read, and the blocks of the
    /// others are free.
    pub fn cut(&mut self, xid: u32, subxid: u32)
        ensures held { self.new.held ≡ (if map.contains_key self.old.held xid then
            map.insert self.old.held xid (cut_of subxid (held_of self.old.held xid))
            else self.old.held) }
        ensures limit { self.new.most ≡ self.old.most }
        ensures honest { self.new.is_honest ≡ self.old.is_honest }
        ensures part { self.new.part ≡ None }
    {
        self.unload();
        self.shorten(xid, subxid);
    }

    // Keeps a transaction's items before the first one of a subtransaction.
    fn shorten(&mut self, xid: u32, subxid: u32)
        ensures held { self.new.held ≡ (if map.contains_key self.old.held xid then
            map.insert self.old.held xid (cut_of subxid (held_of self.old.held xid))
            else self.old.held) }
        ensures limit { self.new.most ≡ self.old.most }
        ensures honest { self.new.is_honest ≡ self.old.is_honest }
        ensures part { self.new.part ≡ self.old.part }
    {
        if let Some(items) = self.transactions.get_mut(&xid) {
            let was = items.in_memory();
            self.bytes -= items.cut(&mut self.blocks, subxid);
            self.in_memory = changed(self.in_memory, was, items.in_memory());
        }
    }

    /// The number of a transaction's items, 0 where it isn't open.
    pub fn count(&self, xid: u32) -> usize
        ensures { result ≡ length (held_of self.now.held xid) }
    {
        match self.transactions.get(&xid) {
            Some(items) => items.len(),
            None => 0,
        }
    }

    // Reads a transaction's items.
    fn read(&mut self, xid: u32) -> Result<ReadItems, SpoolFault>
        ensures read { IsTrue self.new.is_honest → IfOk result (λ items. items
            ≡ held_of self.old.held xid) }
        ensures all { IfOk result (λ items. length items ≡ length (held_of self.old.held xid)) }
        ensures fault { IfErr result IsOfReading }
        ensures held { self.new.held ≡ self.old.held }
        ensures limit { self.new.most ≡ self.old.most }
        ensures honest { IsTrue self.new.is_honest → IsTrue self.old.is_honest }
    {
        let alloc = self.alloc;
        match self.transactions.get(&xid) {
            Some(items) => items.load(alloc, &mut self.blocks),
            None => Ok(ReadItems::new(alloc)),
        }
    }

    /// Makes the items of a transaction ready to be borrowed: those in the file are read and
    /// tested. They stand in memory whole then, until the next call that changes what is held.
    ///
    /// # Errors
    ///
    /// `NotRead` where they can't be read, or other bytes are read, and `Memory`. What is held
    /// stays.
    pub fn load(&mut self, xid: u32) -> Result<(), SpoolFault>
        ensures loaded { IsTrue self.new.is_honest → OnOk result (IsLoaded self.new xid) }
        ensures ready { OnOk result (IsReady self.new xid) }
        ensures fault { IfErr result IsOfReading }
        ensures held { self.new.held ≡ self.old.held }
        ensures limit { self.new.most ≡ self.old.most }
        ensures honest { IsTrue self.new.is_honest → IsTrue self.old.is_honest }
    {
        self.unload();
        let items = self.read(xid)?;
        self.loaded = Some((xid, items));
        Ok(())
    }

    /// Borrows the item of a loaded transaction at an index, as it was pushed.
    pub fn item(&self, xid: u32, index: usize) -> Option<ItemRef<'_>>
        ensures value { IsLoaded self.now xid → result ≡ option_map (λ (l : LabelledItem). l.1)
            (slice_get (held_of self.now.held xid) index) }
        ensures there { IsReady self.now xid → index < length (held_of self.now.held xid) →
            IsSome result }
        ensures spellable { IfSome result (λ i. IsSpellable i) }
    {
        let (loaded, items) = self.loaded.as_ref()?;
        if *loaded != xid {
            return None;
        }
        items.item(index)
    }

    /// Whether the items of a transaction take much memory together.
    pub fn is_long(&self, xid: u32) -> bool {
        match self.transactions.get(&xid) {
            Some(items) => items.bytes() > LONG_BYTES,
            None => false,
        }
    }

    // Reads the items of a transaction's part, and returns the index behind the last one too.
    fn read_part(&mut self, xid: u32, from: usize) -> Result<(ReadItems, usize), SpoolFault>
        requires { from ≤ length (held_of self.old.held xid) }
        ensures read { IsTrue self.new.is_honest → IfOk result (λ it. it.0
            ≡ slice_range (held_of self.old.held xid) from it.1) }
        ensures count { IfOk result (λ it. length it.0 + from ≡ it.1) }
        ensures within { IfOk result (λ it. it.1 ≤ length (held_of self.old.held xid)) }
        ensures some { from < length (held_of self.old.held xid) →
            IfOk result (λ it. from < it.1) }
        ensures fault { IfErr result IsOfReading }
        ensures held { self.new.held ≡ self.old.held }
        ensures limit { self.new.most ≡ self.old.most }
        ensures honest { IsTrue self.new.is_honest → IsTrue self.old.is_honest }
    {
        let alloc = self.alloc;
        match self.transactions.get(&xid) {
            Some(items) => items.load_part(alloc, &mut self.blocks, from),
            None => Ok((ReadItems::new(alloc), from)),
        }
    }

    /// Makes the items of a transaction's part ready to be borrowed by `part_item`, and returns the
    /// index behind the last of them, where the next part begins; the first begins at index 0.
    /// Those in the file are read and tested. They alone stand in memory then, until the next call
    /// that changes what is held or loads.
    ///
    /// # Errors
    ///
    /// `NotRead` where they can't be read, other bytes are read, or no part begins there, and
    /// `Memory`. What is held stays.
    pub fn load_part(&mut self, xid: u32, from: usize) -> Result<usize, SpoolFault>
        requires { from ≤ length (held_of self.old.held xid) }
        ensures some { from < length (held_of self.old.held xid) →
            IfOk result (λ to. from < to) }
        ensures within { IfOk result (λ to. to ≤ length (held_of self.old.held xid)) }
        ensures order { IfOk result (λ to. from ≤ to) }
        ensures ready { IfOk result (λ to. HasPart self.new xid from to) }
        ensures loaded { IsTrue self.new.is_honest →
            IfOk result (λ to. IsPart self.new xid from to) }
        ensures fault { IfErr result IsOfReading }
        ensures held { self.new.held ≡ self.old.held }
        ensures limit { self.new.most ≡ self.old.most }
        ensures honest { IsTrue self.new.is_honest → IsTrue self.old.is_honest }
    {
        self.unload();
        let (items, to) = self.read_part(xid, from)?;
        self.part = Some((xid, (from, items)));
        Ok(to)
    }

    /// Borrows the item of a transaction at an index of the part that was loaded last: none where
    /// that is another transaction's.
    pub fn part_item(&self, xid: u32, index: usize) -> Option<ItemRef<'_>>
        ensures value { (from to : ℕ) → IsPart self.now xid from to → from ≤ index → index < to →
            result ≡ option_map (λ (l : LabelledItem). l.1)
            (slice_get (held_of self.now.held xid) index) }
        ensures there { (from to : ℕ) → HasPart self.now xid from to → from ≤ index → index < to →
            IsSome result }
        ensures others { ((from to : ℕ) → HasPart self.now xid from to → ⊥) → result ≡ None }
        ensures spellable { IfSome result (λ i. IsSpellable i) }
    {
        let (loaded, (from, items)) = self.part.as_ref()?;
        if *loaded != xid || index < *from {
            return None;
        }
        items.item(index - *from)
    }

    /// Forgets a transaction and its items. Without effect where it isn't open. Nothing is read,
    /// and its blocks are free.
    pub fn drop_xid(&mut self, xid: u32)
        ensures held { self.new.held ≡ map.remove self.old.held xid }
        ensures limit { self.new.most ≡ self.old.most }
        ensures honest { self.new.is_honest ≡ self.old.is_honest }
        ensures part { self.new.part ≡ None }
    {
        self.unload();
        self.forget(xid);
    }

    // Forgets a transaction and its items.
    fn forget(&mut self, xid: u32)
        ensures held { self.new.held ≡ map.remove self.old.held xid }
        ensures limit { self.new.most ≡ self.old.most }
        ensures honest { self.new.is_honest ≡ self.old.is_honest }
        ensures part { self.new.part ≡ self.old.part }
    {
        if let Some(items) = self.transactions.swap_remove(&xid) {
            self.bytes -= items.bytes();
            self.in_memory = changed(self.in_memory, items.in_memory(), 0);
            items.free(&mut self.blocks);
        }
    }

    /// Forgets all transactions, and gives back the file's room where that can be done.
    pub fn clear(&mut self)
        ensures held { self.new.held ≡ map.empty }
        ensures limit { self.new.most ≡ self.old.most }
        ensures honest { self.new.is_honest ≡ self.old.is_honest }
        ensures part { self.new.part ≡ None }
    {
        self.unload();
        self.transactions = IndexMap::new(self.alloc);
        self.blocks.clear();
        self.bytes = 0;
        self.in_memory = 0;
    }

    /// What all items cost in bytes: for each eight, and its encoding outside a block.
    pub fn bytes(&self) -> u64
        ensures value { result ≡ all_costs self.now.held }
        ensures within { result ≤ self.now.most }
    {
        self.bytes
    }

    /// The most that `bytes` may come to. No call changes it.
    pub fn limit(&self) -> u64
        ensures { result ≡ self.now.most }
    {
        self.max_bytes
    }

    /// How many bytes of items are in memory, the loaded ones beside.
    pub fn in_memory(&self) -> u64 {
        self.in_memory
    }

    /// How many blocks the file has had at once.
    pub fn blocks(&self) -> usize {
        self.blocks.len()
    }
}
