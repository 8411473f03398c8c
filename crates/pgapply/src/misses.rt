//! How many changes found no row.

ghost use Rattle.std.specs.Prelude.{◌≡◌};

use pglsn::Lsn;

/// A change that found no row.
#[derive(Clone, Copy, Debug, PartialEq, Eq)]
pub struct Miss {
    /// The end LSN of its commit.
    pub end: Lsn,
    /// The OID of its relation.
    pub oid: u32,
}

/// How many changes found no row: each an Update or a Delete whose row isn't there, which then
/// changes nothing. Copies that were complete from the start miss none.
///
/// PostgreSQL documentation, Logical Replication, Conflicts, update_missing and delete_missing.
#[derive(Clone, Copy, Debug, PartialEq, Eq)]
pub struct Misses {
    /// How many, at most 2^64 - 1.
    pub count: u64,
    /// The first of them.
    pub first: Option<Miss>,
}

impl Misses {
    ghost use Rattle.pgapply.specs.Missing.{nothing_missed, with_miss};

    /// No change missed its row.
    pub fn none() -> Misses
        ensures { result ≡ nothing_missed }
    {
        Misses {
            count: 0,
            first: None,
        }
    }

    /// Counts a change of this relation, in the commit that ends there.
    pub fn note(&mut self, end: Lsn, oid: u32)
        ensures { self.new ≡ with_miss self.old end oid }
    {
        self.count = self.count.saturating_add(1);
        if self.first.is_none() {
            self.first = Some(Miss { end, oid });
        }
    }
}
