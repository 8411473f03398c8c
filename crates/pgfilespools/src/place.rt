//! Where a subtransaction's first item is among a transaction's items.

ghost use Rattle.std.specs.Prelude.{◌≡◌, ◌<◌, OnOk, OnErr, IsOk};
ghost use Rattle.indexmap.specs.IndexMap.{spare};
ghost use Rattle.pgspool.specs.FirstPlaces.{noted};

use indexmap::IndexMap;
use std::alloc::AllocError;
use std::marker::Model;

/// Where a subtransaction's first item is: how many items are before it, and the bytes that these
/// cost, which are those that are stored of them.
#[derive(Clone, Copy, Debug)]
pub(crate) struct Place {
    pub(crate) place: usize,
    pub(crate) bytes: u64,
}

impl Model for Place {
    ghost use Rattle.pgspool.specs.declared.first_place.FirstPlace.{FirstPlace};

    ghost Value = { FirstPlace };

    ghost view = { λ p. record { place = p.place; bytes = p.bytes } };

    ghost inverse = { λ p. record { place = p.place; bytes = p.bytes } };
}

/// Notes where a subtransaction's first item is, unless it is noted already. It takes no memory
/// where there is room.
pub(crate) fn note_first(
    firsts: &mut IndexMap<u32, Place>,
    subxid: u32,
    first: Place,
) -> Result<(), AllocError>
    ensures ok { OnOk result (firsts.new.entries ≡ noted firsts.old.entries subxid first) }
    ensures err { OnErr result (firsts.new.entries ≡ firsts.old.entries) }
    ensures succeeds { 0 < spare firsts.old → IsOk result }
{
    if !firsts.contains_key(&subxid) {
        firsts.insert(subxid, first)?;
    }
    Ok(())
}
