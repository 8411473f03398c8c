//! The items of one open transaction, decoded.
ghost use Rattle.std.specs.Prelude.{◌≡◌};

use crate::first_place::{FirstPlace, note_first};
use crate::room::{give_back_spare, give_back_spare_places};
use crate::transaction_items::TransactionItems;
use indexmap::IndexMap;
use pglogical::{Item, ItemRef};
use std::alloc::{AllocError, Global};
use std::marker::Model;

/// One transaction's items, each under its subxid, seen as their list.
///
/// Beside them is noted where each subtransaction's first item is, in the order of these items, so
/// that a cut finds its index at once and costs no more than what it takes away.
#[derive(Debug, Drop)]
pub struct DecodedItems {
    items: Vec<(u32, Item)>,
    firsts: IndexMap<u32, FirstPlace>,
    bytes: u64,
}

impl Model for DecodedItems {
    ghost use Rattle.std.specs.Prelude.{List};
    ghost use Rattle.pgspool.specs.Labels.{LabelledItem};

    ghost Value = { List LabelledItem };

    ghost use Rattle.pgspool.specs.AreIndexed.{AreIndexed};

    ghost view = { λ s. s.items.items };

    ghost invariant = { λ s. AreIndexed s.items.items s.firsts.entries s.bytes };
}

impl TransactionItems for DecodedItems {
    ghost listed = { λ s. s };

    fn new(alloc: Global) -> DecodedItems {
        DecodedItems {
            items: Vec::new(alloc),
            firsts: IndexMap::new(alloc),
            bytes: 0,
        }
    }

    fn bytes(&self) -> u64 {
        self.bytes
    }

    fn len(&self) -> usize {
        self.items.len()
    }

    fn item(&self, index: usize) -> Option<ItemRef<'_>> {
        let (_, item) = self.items.get(index)?;
        Some(item.borrowed())
    }

    fn push(
        &mut self,
        alloc: Global,
        subxid: u32,
        item: &ItemRef<'_>,
        bytes: u64,
    ) -> Result<(), AllocError> {
        let Ok(copy) = item.to_item(alloc) else {
            return Err(AllocError);
        };
        self.give_back_spare();
        self.items.reserve(1)?;
        let first = FirstPlace {
            place: self.items.len(),
            bytes: self.bytes,
        };
        note_first(&mut self.firsts, subxid, first)?;
        self.items.push((subxid, copy)).unwrap();
        self.bytes += bytes;
        Ok(())
    }

    fn cut(&mut self, subxid: u32) -> u64 {
        let Some((index, _, first)) = self.firsts.get_full(&subxid) else {
            return 0;
        };
        let FirstPlace { place, bytes } = *first;
        let freed = self.bytes - bytes;
        self.items.truncate(place);
        self.firsts.truncate(index);
        self.bytes = bytes;
        self.give_back_all();
        freed
    }
}

impl DecodedItems {
    /// Gives back the room of items that a cut took away whole. Nothing has to be moved, so this
    /// takes no memory.
    fn give_back_all(&mut self)
        ensures { self.new ≡ self.old }
    {
        if self.items.is_empty() {
            self.items.shrink_to_fit();
            self.firsts.shrink_to_fit();
        }
    }

    /// Gives back room that cuts left.
    fn give_back_spare(&mut self)
        ensures { self.new ≡ self.old }
    {
        give_back_spare(&mut self.items);
        give_back_spare_places(&mut self.firsts);
    }
}
