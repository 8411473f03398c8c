//! Spools in memory or over a file, as one type.

ghost use Rattle.std.specs.Prelude.{◌≡◌, IsTrue, true};
ghost use Rattle.std.specs.FinMap as map;
ghost use Rattle.pgspooled.specs.Live.{held_live, most_live, is_honest_live};
ghost use Rattle.pgspooled.specs.Live.{IsReadyLive, IsLoadedLive, HasPartLive, IsPartLive};

use pgfilespools::FileSpools;
use pglogical::ItemRef;
use pgspool::{ByteSpools, SpoolFault, Spools};
use sqlite_disk::Disk;
use std::alloc::Global;

/// The buffered items of open transactions: in memory, or in memory up to a number of bytes and the
/// others in a file.
#[derive(Drop)]
pub enum LiveSpools<D: Disk + Drop> {
    /// All items are in memory.
    Memory(ByteSpools),
    /// Items go on in a file.
    File(FileSpools<D>),
}

impl<D: Disk + Drop> LiveSpools<D> {
    /// Spools in memory without an open transaction, whose items may cost at most this many bytes.
    pub fn in_memory(alloc: Global, max_bytes: u64) -> LiveSpools<D>
        ensures empty { held_live result ≡ map.empty }
        ensures limit { most_live result ≡ max_bytes }
        ensures honest { is_honest_live result ≡ true }
    {
        LiveSpools::Memory(ByteSpools::new(alloc, max_bytes))
    }

    /// Spools without an open transaction, over a file of which nothing is read that wasn't written
    /// since. All items may cost `max_bytes` at most, and `max_in_memory` bytes of them stay in
    /// memory.
    pub fn in_file(alloc: Global, disk: D, max_bytes: u64, max_in_memory: u64) -> LiveSpools<D>
        requires { IsTrue (D.is_usable disk) }
        ensures empty { held_live result ≡ map.empty }
        ensures limit { most_live result ≡ max_bytes }
        ensures honest { is_honest_live result ≡ D.is_clean disk }
    {
        LiveSpools::File(FileSpools::new(alloc, disk, max_bytes, max_in_memory))
    }
}

impl<D: Disk + Drop> Spools for LiveSpools<D> {
    ghost held = { held_live };

    ghost most = { most_live };

    ghost may_fail = { Unit {0} };

    ghost is_honest = { is_honest_live };

    ghost is_ready = { IsReadyLive };

    ghost is_loaded = { IsLoadedLive };

    ghost has_part = { HasPartLive };

    ghost is_part = { IsPartLive };

    fn is_open(&self, xid: u32) -> bool {
        match self {
            LiveSpools::Memory(spools) => spools.is_open(xid),
            LiveSpools::File(spools) => spools.is_open(xid),
        }
    }

    fn open(&mut self, xid: u32) -> Result<(), SpoolFault> {
        match self {
            LiveSpools::Memory(spools) => spools.open(xid),
            LiveSpools::File(spools) => spools.open(xid),
        }
    }

    fn push(&mut self, xid: u32, subxid: u32, item: &ItemRef<'_>) -> Result<(), SpoolFault> {
        match self {
            LiveSpools::Memory(spools) => spools.push(xid, subxid, item),
            LiveSpools::File(spools) => spools.push(xid, subxid, item),
        }
    }

    fn cut(&mut self, xid: u32, subxid: u32) -> Result<(), SpoolFault> {
        match self {
            LiveSpools::Memory(spools) => spools.cut(xid, subxid),
            LiveSpools::File(spools) => {
                spools.cut(xid, subxid);
                Ok(())
            }
        }
    }

    fn count(&self, xid: u32) -> usize {
        match self {
            LiveSpools::Memory(spools) => spools.count(xid),
            LiveSpools::File(spools) => spools.count(xid),
        }
    }

    fn load(&mut self, xid: u32) -> Result<(), SpoolFault> {
        match self {
            LiveSpools::Memory(spools) => spools.load(xid),
            LiveSpools::File(spools) => spools.load(xid),
        }
    }

    fn item(&self, xid: u32, index: usize) -> Option<ItemRef<'_>> {
        match self {
            LiveSpools::Memory(spools) => spools.item(xid, index),
            LiveSpools::File(spools) => spools.item(xid, index),
        }
    }

    fn is_long(&self, xid: u32) -> bool {
        match self {
            LiveSpools::Memory(spools) => spools.is_long(xid),
            LiveSpools::File(spools) => spools.is_long(xid),
        }
    }

    fn load_part(&mut self, xid: u32, from: usize) -> Result<usize, SpoolFault> {
        match self {
            LiveSpools::Memory(spools) => spools.load_part(xid, from),
            LiveSpools::File(spools) => spools.load_part(xid, from),
        }
    }

    fn part_item(&self, xid: u32, index: usize) -> Option<ItemRef<'_>> {
        match self {
            LiveSpools::Memory(spools) => spools.part_item(xid, index),
            LiveSpools::File(spools) => spools.part_item(xid, index),
        }
    }

    fn drop_xid(&mut self, xid: u32) {
        match self {
            LiveSpools::Memory(spools) => spools.drop_xid(xid),
            LiveSpools::File(spools) => spools.drop_xid(xid),
        }
    }

    fn clear(&mut self) {
        match self {
            LiveSpools::Memory(spools) => spools.clear(),
            LiveSpools::File(spools) => spools.clear(),
        }
    }

    fn bytes(&self) -> u64 {
        match self {
            LiveSpools::Memory(spools) => spools.bytes(),
            LiveSpools::File(spools) => spools.bytes(),
        }
    }

    fn limit(&self) -> u64 {
        match self {
            LiveSpools::Memory(spools) => spools.limit(),
            LiveSpools::File(spools) => spools.limit(),
        }
    }
}
