//! The common subscriber.

ghost use Rattle.std.specs.Prelude.{◌≡◌};
ghost use Rattle.pgapply.specs.Value.{Tables};
ghost use Rattle.pgsub_core.specs.Subscriber.Subscribed.{newly};
ghost use Rattle.pgsub_core.specs.Subscriber.SubscriberValue.{seen};

use pgapply::ReplicaStore;
use pgorder::Version;
use pgspool::ByteSpools;
use pgsub_core::Subscriber;
use std::alloc::Global;

/// The most that the buffered items of all open transactions may cost, in bytes: 64 MiB.
pub const MAX_BUFFERED: u64 = 67108864;

/// The longest payload of a frame, in bytes: 16 MiB.
pub const MAX_FRAME: u32 = 16777216;

/// A subscriber over a store, with the spools and limits that `pgsub` has where its words name
/// none, as after a disconnection.
pub fn subscriber_over<C: ReplicaStore + Drop>(
    alloc: Global,
    store: C,
    version: Version,
) -> Subscriber<ByteSpools, C>
    ensures store { result.applied.store ≡ store }
    ensures state { (tables : Tables) → seen C.place result tables
        ≡ newly tables (C.place store) version 16777216 67108864 }
{
    let spools = ByteSpools::new(alloc, MAX_BUFFERED);
    Subscriber::new(alloc, store, spools, version, MAX_FRAME)
}
