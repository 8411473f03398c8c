//! What spools know of one transaction's items, however these are kept.
ghost use Rattle.std.specs.Prelude.{◌≡◌, ◌<◌, ◌+◌, ◌^◌, List, [], ◌∷◌, ◌++◌, OnOk, OnErr, IfSome};
ghost use Rattle.std.specs.Prelude.{option_map, slice_get, length};
ghost use Rattle.pglogical.specs.Spelling.{IsSpellable};
ghost use Rattle.pgspool.specs.Labels.{LabelledItem, cut, cost, costs};

use pglogical::ItemRef;
use std::alloc::{AllocError, Global};

/// The items of one open transaction, each under the xid of the transaction or subtransaction that
/// made it.
pub trait TransactionItems: Drop {
    /// The items, however they are kept.
    ghost listed: { Self → List LabelledItem };

    /// An open transaction without items.
    fn new(alloc: Global) -> Self
        ensures { listed result ≡ [] };

    /// What the items cost in bytes.
    fn bytes(&self) -> u64
        ensures { result ≡ costs (listed self.now) };

    /// The number of items.
    fn len(&self) -> usize
        ensures { result ≡ length (listed self.now) };

    /// Borrows the item at an index.
    fn item(&self, index: usize) -> Option<ItemRef<'_>>
        ensures value { result ≡ option_map (λ (l : LabelledItem). l.1)
            (slice_get (listed self.now) index) }
        ensures spellable { IfSome result (λ i. IsSpellable i) };

    /// Adds an item that costs this many bytes.
    fn push(
        &mut self,
        alloc: Global,
        subxid: u32,
        item: &ItemRef<'_>,
        bytes: u64,
    ) -> Result<(), AllocError>
        requires spellable { IsSpellable item.now }
        requires counted { bytes ≡ cost item.now }
        requires fits { costs (listed self.old) + bytes < 2 ^ 64 }
        ensures ok { OnOk result (listed self.new ≡ listed self.old ++ (subxid, item.now) ∷ []) }
        ensures err { OnErr result (listed self.new ≡ listed self.old) };

    /// Keeps the items before the first one of a subtransaction, and returns the bytes that the
    /// others cost.
    fn cut(&mut self, subxid: u32) -> u64
        ensures held { listed self.new ≡ cut subxid (listed self.old) }
        ensures freed { costs (listed self.new) + result ≡ costs (listed self.old) };
}
