//! The relations that a session has described.
ghost use Rattle.std.specs.Prelude.{◌≡◌, OnOk, OnErr};
ghost use Rattle.pgwatch.specs.Known.{none_known, is_known, with_known};

use std::alloc::{AllocFailed, Global};
use std::collections::BTreeSet;
use std::marker::Model;

/// The OIDs of the relations that were described.
#[derive(Drop)]
pub(crate) struct Known {
    oids: BTreeSet<u32>,
}

impl Model for Known {
    ghost use Rattle.std.specs.FinSet as set;
    ghost use Rattle.pgwatch.specs.Known.{OidSet, oid_set_code};

    ghost Value = { OidSet };

    ghost coded = { oid_set_code };

    ghost view = { λ o. set.from_list o.oids.keys };
}

impl Known {
    /// None is described.
    pub(crate) fn new(alloc: Global) -> Known
        ensures { result ≡ none_known }
    {
        Known {
            oids: BTreeSet::new(alloc),
        }
    }

    /// Whether this relation is described.
    pub(crate) fn contains(&self, oid: u32) -> bool
        ensures { result ≡ is_known oid self.now }
    {
        self.oids.contains(&oid)
    }

    /// Adds a relation. The one error is out of memory, and changes nothing.
    pub(crate) fn insert(&mut self, oid: u32) -> Result<(), AllocFailed<u32>>
        ensures ok { OnOk result (self.new ≡ with_known oid self.old) }
        ensures err { OnErr result (self.new ≡ self.old) }
    {
        self.oids.insert(oid)?;
        Ok(())
    }
}
