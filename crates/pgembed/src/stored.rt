//! The calls of a subscriber over a SQL store of any kind. Each makes one other call.
//!
//! They stand between a given kind of store and any store at all: that a SQL store is one is proved
//! here, and only the rest where the kind is given.

ghost use Rattle.std.specs.Prelude.{◌≡◌};
ghost use Rattle.pgapply.specs.Value.{Tables};
ghost use Rattle.pgstore.specs.StoreValue.{HasTables, IsHonest, Serves};
ghost use Rattle.pgsub_core.specs.Subscriber.Subscribed.{newly};
ghost use Rattle.pgsub_core.specs.Subscriber.SubscriberValue.{seen};
ghost use Rattle.pgembed.specs.Called.{Does};
ghost use Rattle.pgembed.specs.Fed.{position_of};

use crate::calls::{self, Call};
use crate::subscribing::subscriber_over;
use pgorder::Version;
use pgspool::ByteSpools;
use pgstore::Store;
use pgsub_core::Subscriber;
use sqlite::Alter;
use std::alloc::Global;

/// A subscriber over a SQL store.
pub(crate) type Stored<S> = Subscriber<ByteSpools, Store<S>>;

/// A subscriber over this store, as after a disconnection.
pub(crate) fn begin<S: Alter + Drop>(alloc: Global, store: Store<S>, version: Version) -> Stored<S>
    ensures store { result.applied.store ≡ store }
    ensures state { (tables : Tables) → seen position_of result tables
        ≡ newly tables (position_of store) version 16777216 67108864 }
{
    subscriber_over(alloc, store, version)
}

/// Makes a call, with room for what it passes, and returns its number.
pub(crate) fn make_call<S: Alter + Drop>(
    subscriber: &mut Stored<S>,
    call: Call<'_>,
    room: &mut [u8],
    length: &mut usize,
) -> u32
    ensures { Does (Serves S.Store) (IsHonest S.Store) (HasTables S.Store) position_of call.entry
        subscriber.old subscriber.new room.old room.new length.new result }
{
    calls::make_call(subscriber, call, room, length)
}

/// The LSN up to which the stored rows are complete, and that up to which the server may forget.
pub(crate) fn places<S: Alter + Drop>(subscriber: &Stored<S>) -> (u64, u64)
    ensures position { result.0 ≡ position_of subscriber.now.applied.store }
    ensures confirmed { result.1 ≡ subscriber.now.applied.confirmed }
{
    calls::places(subscriber)
}

/// Drops a subscriber.
pub(crate) fn end<S: Alter + Drop>(subscriber: Stored<S>) {
    calls::end(subscriber);
}
