//! The items of one open transaction, as the bytes that encode them.
ghost use Rattle.std.specs.Prelude.{◌≡◌, option_map, slice_get, slice_range, length, None, false};
ghost use Rattle.std.specs.Prelude.{◌≤◌};
ghost use Rattle.pglogical.specs.Borrowed.{message_value};
ghost use Rattle.pglogical.specs.Reading.{message_at};
ghost use Rattle.pglogical.specs.Spelling.{IsWire, item_spelling};
ghost use Rattle.pgspool.specs.Marks.{start_or, item_part, item_at_all, IsReadable};

use crate::first_place::{FirstPlace, note_first};
use crate::mark::Mark;
use crate::room::{give_back_spare, give_back_spare_places};
use crate::spools::OVERHEAD;
use crate::transaction_items::TransactionItems;
use indexmap::IndexMap;
use pglogical::{ItemRef, MessageRef, decode_ref, encode_item};
use std::alloc::{AllocError, Global};
use std::marker::Model;

/// One transaction's items, each under its subxid, seen as their list: one buffer with the
/// encodings of all, one after the other, and where each begins.
///
/// Beside them is noted where each subtransaction's first item is, in the order of these items, so
/// that a cut finds its index at once.
///
/// A push asks for memory only to move to less room after a cut, and for the growth of its three
/// collections, before it changes any of them: the encoding is written right into the room that the
/// buffer then has.
#[derive(Debug, Drop)]
pub struct EncodedItems {
    buffer: Vec<u8>,
    marks: Vec<Mark>,
    firsts: IndexMap<u32, FirstPlace>,
    bytes: u64,
}

impl Model for EncodedItems {
    ghost use Rattle.std.specs.Prelude.{List};
    ghost use Rattle.pgspool.specs.Labels.{LabelledItem};
    ghost use Rattle.pgspool.specs.Marks.{held_in};
    ghost use Rattle.pgspool.specs.AreEncoded.{AreEncoded};

    ghost Value = { List LabelledItem };

    ghost view = { λ s. held_in s.marks.items s.buffer.items };

    ghost invariant = { λ s. AreEncoded (held_in s.marks.items s.buffer.items) s.marks.items
        s.buffer.items s.firsts.entries s.bytes };
}

// The mark of the item at this index.
fn mark_at(marks: &[Mark], index: usize) -> Option<Mark>
    ensures { result ≡ slice_get marks.now index }
{
    marks.get(index).copied()
}

// Where the item at this index begins, or the end where there is none.
fn start_of(marks: &[Mark], index: usize, end: usize) -> usize
    ensures { result ≡ start_or end (slice_get marks.now index) }
{
    match marks.get(index) {
        Some(mark) => mark.start,
        None => end,
    }
}

// The bytes from a start to an end.
fn part(bytes: &[u8], start: usize, end: usize) -> &[u8]
    requires order { start ≤ end }
    requires inside { end ≤ length bytes.now }
    ensures { result.now ≡ slice_range bytes.now start end }
{
    &bytes[start..end]
}

// The item of a message.
fn item_of(message: MessageRef<'_>) -> Option<ItemRef<'_>>
    ensures { result ≡ item_part (message_value message.entry) }
{
    match message {
        MessageRef::Item { item, .. } => Some(item),
        MessageRef::Begin { .. } => None,
        MessageRef::Commit { .. } => None,
        MessageRef::Origin { .. } => None,
        MessageRef::TypeName { .. } => None,
        MessageRef::Logical { .. } => None,
        MessageRef::StreamStart { .. } => None,
        MessageRef::StreamStop => None,
        MessageRef::StreamCommit { .. } => None,
        MessageRef::StreamAbort { .. } => None,
    }
}

// The item that these bytes encode, outside a block.
fn read_item(bytes: &[u8]) -> Option<ItemRef<'_>>
    ensures { result ≡ item_at_all (message_at false bytes.now) }
{
    match decode_ref(bytes, false) {
        Ok(message) => item_of(message),
        Err(_) => None,
    }
}

// These bytes, which encode an item within the limits of the wire, are read as it. It does nothing
// but show it.
fn can_be_read(bytes: &[u8], item: &ItemRef<'_>)
    requires spelled { bytes.now ≡ item_spelling None item.now }
    requires wire { IsWire item.now }
    ensures { IsReadable item.now }
{}

impl TransactionItems for EncodedItems {
    ghost listed = { λ s. s };

    fn new(alloc: Global) -> EncodedItems {
        EncodedItems {
            buffer: Vec::new(alloc),
            marks: Vec::new(alloc),
            firsts: IndexMap::new(alloc),
            bytes: 0,
        }
    }

    fn bytes(&self) -> u64 {
        self.bytes
    }

    fn len(&self) -> usize {
        self.marks.len()
    }

    fn item(&self, index: usize) -> Option<ItemRef<'_>> {
        if index >= self.marks.len() {
            return None;
        }
        let len = self.buffer.len();
        let start = start_of(self.marks.as_slice(), index, len);
        let end = start_of(self.marks.as_slice(), index + 1, len);
        read_item(part(self.buffer.as_slice(), start, end))
    }

    // All growths come first. After them no memory is asked for: the buffer has room for the
    // encoding.
    fn push(
        &mut self,
        _alloc: Global,
        subxid: u32,
        item: &ItemRef<'_>,
        bytes: u64,
    ) -> Result<(), AllocError> {
        item.fits_wire();
        self.give_back_spare();
        self.buffer.reserve((bytes - OVERHEAD) as usize)?;
        self.marks.reserve(1)?;
        self.firsts.reserve(1)?;
        let first = FirstPlace {
            place: self.marks.len(),
            bytes: self.bytes,
        };
        let start = self.buffer.len();
        let Ok(()) = encode_item(item, &mut self.buffer) else {
            return Err(AllocError);
        };
        can_be_read(&self.buffer[start..], item);
        note_first(&mut self.firsts, subxid, first).unwrap();
        self.marks.push(Mark { subxid, start }).unwrap();
        self.bytes += bytes;
        Ok(())
    }

    fn cut(&mut self, subxid: u32) -> u64 {
        let Some((index, _, first)) = self.firsts.get_full(&subxid) else {
            return 0;
        };
        let FirstPlace { place, bytes } = *first;
        let freed = self.bytes - bytes;
        let start = start_of(self.marks.as_slice(), place, self.buffer.len());
        self.buffer.truncate(start);
        self.marks.truncate(place);
        self.firsts.truncate(index);
        self.bytes = bytes;
        self.give_back_all();
        freed
    }
}

impl EncodedItems {
    /// Gives back the room of items that a cut took away whole. Nothing has to be moved, so this
    /// takes no memory.
    fn give_back_all(&mut self)
        ensures { self.new ≡ self.old }
    {
        if self.marks.is_empty() {
            self.buffer.shrink_to_fit();
            self.marks.shrink_to_fit();
            self.firsts.shrink_to_fit();
        }
    }

    /// Gives back room that cuts left.
    fn give_back_spare(&mut self)
        ensures { self.new ≡ self.old }
    {
        give_back_spare(&mut self.buffer);
        give_back_spare(&mut self.marks);
        give_back_spare_places(&mut self.firsts);
    }
}
