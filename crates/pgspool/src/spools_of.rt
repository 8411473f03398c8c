//! Spools over the items of each open transaction.
ghost use Rattle.std.specs.Prelude.{◌≡◌, ◌≤◌, length, true, if◌then◌else◌};
ghost use Rattle.std.specs.FinMap as map;
ghost use Rattle.pgspool.specs.Labels.{cut, held_of};

use crate::fault::SpoolFault;
use crate::spools::{OVERHEAD, Spools};
use crate::transaction_items::TransactionItems;
use indexmap::IndexMap;
use pglogical::{ItemRef, spelled_len};
use std::alloc::Global;
use std::marker::Model;

// How many items of a longer transaction are a part: of each, a part takes some hundred bytes more
// than the item does.
const PART_ITEMS: usize = 65536;

/// Spools whose transactions keep their items as `T` does: `DecodedItems` or `EncodedItems`.
#[derive(Debug, Drop)]
pub struct SpoolsOf<T: TransactionItems> {
    alloc: Global,
    transactions: IndexMap<u32, T>,
    bytes: u64,
    max_bytes: u64,
}

impl<T: TransactionItems> Model for SpoolsOf<T> {
    ghost use Rattle.std.specs.Prelude.{◌≡◌, ◌≤◌};
    ghost use Rattle.pgspool.specs.Spooled.{Spooled, spooled_code};

    ghost Value = { Spooled };

    ghost coded = { spooled_code };

    ghost use Rattle.pgspool.specs.Spooled.{held_by, IsCounted};

    ghost view = { λ s. record {
      held = held_by T.listed s.transactions.entries;
      most = s.max_bytes;
    } };

    ghost invariant = { λ s.
        IsCounted (held_by T.listed s.transactions.entries) s.bytes s.max_bytes };
}

impl<T: TransactionItems> SpoolsOf<T> {
    /// Spools without an open transaction, whose items may cost at most this many bytes.
    pub fn new(alloc: Global, max_bytes: u64) -> SpoolsOf<T>
        ensures empty { result.held ≡ map.empty }
        ensures limit { result.most ≡ max_bytes }
    {
        SpoolsOf {
            alloc,
            transactions: IndexMap::new(alloc),
            bytes: 0,
            max_bytes,
        }
    }

    // Keeps a transaction's items before the first one of a subtransaction.
    fn shorten(&mut self, xid: u32, subxid: u32)
        ensures held { self.new.held ≡ (if map.contains_key self.old.held xid then
            map.insert self.old.held xid (cut subxid (held_of self.old.held xid))
            else self.old.held) }
        ensures limit { self.new.most ≡ self.old.most }
    {
        if let Some(items) = self.transactions.get_mut(&xid) {
            self.bytes -= items.cut(subxid);
        }
    }
}

impl<T: TransactionItems> Spools for SpoolsOf<T> {
    ghost held = { λ s. s.held };

    ghost most = { λ s. s.most };

    ghost may_fail = { ⊥ };

    ghost is_honest = { λ _. true };

    ghost is_ready = { λ _ _. Unit {0} };

    ghost is_loaded = { λ _ _. Unit {0} };

    ghost has_part = { λ s xid _ to. to ≤ length (held_of s.held xid) };

    ghost is_part = { λ s xid _ to. to ≤ length (held_of s.held xid) };

    fn is_open(&self, xid: u32) -> bool {
        self.transactions.contains_key(&xid)
    }

    fn open(&mut self, xid: u32) -> Result<(), SpoolFault> {
        self.transactions.insert(xid, T::new(self.alloc))?;
        Ok(())
    }

    fn push(&mut self, xid: u32, subxid: u32, item: &ItemRef<'_>) -> Result<(), SpoolFault> {
        let room = self.max_bytes - self.bytes;
        let length = spelled_len(item);
        if room < OVERHEAD || room - OVERHEAD < length {
            return Err(SpoolFault::SpoolFull);
        }
        let alloc = self.alloc;
        let Some(items) = self.transactions.get_mut(&xid) else {
            unreachable!()
        };
        let cost = OVERHEAD + length;
        items.push(alloc, subxid, item, cost)?;
        self.bytes += cost;
        Ok(())
    }

    fn cut(&mut self, xid: u32, subxid: u32) -> Result<(), SpoolFault> {
        self.shorten(xid, subxid);
        Ok(())
    }

    fn count(&self, xid: u32) -> usize {
        match self.transactions.get(&xid) {
            Some(items) => items.len(),
            None => 0,
        }
    }

    fn load(&mut self, _xid: u32) -> Result<(), SpoolFault> {
        Ok(())
    }

    fn item(&self, xid: u32, index: usize) -> Option<ItemRef<'_>> {
        let items = self.transactions.get(&xid)?;
        items.item(index)
    }

    fn is_long(&self, xid: u32) -> bool {
        self.count(xid) > PART_ITEMS
    }

    fn load_part(&mut self, xid: u32, from: usize) -> Result<usize, SpoolFault> {
        Ok(self.count(xid).min(from.saturating_add(PART_ITEMS)))
    }

    fn part_item(&self, xid: u32, index: usize) -> Option<ItemRef<'_>> {
        self.item(xid, index)
    }

    fn drop_xid(&mut self, xid: u32) {
        if let Some(items) = self.transactions.swap_remove(&xid) {
            self.bytes -= items.bytes();
        }
    }

    fn clear(&mut self) {
        self.transactions = IndexMap::new(self.alloc);
        self.bytes = 0;
    }

    fn bytes(&self) -> u64 {
        self.bytes
    }

    fn limit(&self) -> u64 {
        self.max_bytes
    }
}
