//! Spools over a file are spools as a subscriber knows them.

ghost use Rattle.pgfilespools.specs.Spooled.{IsLoaded, IsReady, IsPart, HasPart};

use crate::file_spools::FileSpools;
use pglogical::ItemRef;
use pgspool::{SpoolFault, Spools};
use sqlite_disk::Disk;

impl<D: Disk + Drop> Spools for FileSpools<D> {
    ghost held = { λ s. s.held };

    ghost most = { λ s. s.most };

    ghost may_fail = { Unit {0} };

    ghost is_honest = { λ s. s.is_honest };

    ghost is_ready = { IsReady };

    ghost is_loaded = { IsLoaded };

    ghost has_part = { HasPart };

    ghost is_part = { IsPart };

    fn is_open(&self, xid: u32) -> bool {
        self.is_open(xid)
    }

    #[tactic(auto, using(crate::proofs::Failing::of_opening, crate::proofs::Failing::never_full))]
    fn open(&mut self, xid: u32) -> Result<(), SpoolFault> {
        self.open(xid)
    }

    #[tactic(auto, using(crate::proofs::Failing::of_pushing))]
    fn push(&mut self, xid: u32, subxid: u32, item: &ItemRef<'_>) -> Result<(), SpoolFault> {
        self.push(xid, subxid, item)
    }

    fn cut(&mut self, xid: u32, subxid: u32) -> Result<(), SpoolFault> {
        self.cut(xid, subxid);
        Ok(())
    }

    fn count(&self, xid: u32) -> usize {
        self.count(xid)
    }

    #[tactic(auto, using(crate::proofs::Failing::of_reading))]
    fn load(&mut self, xid: u32) -> Result<(), SpoolFault> {
        self.load(xid)
    }

    fn item(&self, xid: u32, index: usize) -> Option<ItemRef<'_>> {
        self.item(xid, index)
    }

    fn is_long(&self, xid: u32) -> bool {
        self.is_long(xid)
    }

    #[tactic(auto, using(crate::proofs::Failing::of_reading))]
    fn load_part(&mut self, xid: u32, from: usize) -> Result<usize, SpoolFault> {
        self.load_part(xid, from)
    }

    fn part_item(&self, xid: u32, index: usize) -> Option<ItemRef<'_>> {
        self.part_item(xid, index)
    }

    fn drop_xid(&mut self, xid: u32) {
        self.drop_xid(xid);
    }

    fn clear(&mut self) {
        self.clear();
    }

    fn bytes(&self) -> u64 {
        self.bytes()
    }

    fn limit(&self) -> u64 {
        self.limit()
    }
}
