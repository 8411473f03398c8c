//! The changes of a transaction whose items are read part after part, since together they may not
//! fit in memory.
//!
//! They are read twice. The first time shows that each change has its definition, so that nothing
//! of the commit is staged where one lacks it; the second time the store stages them.
//!
//! PostgreSQL documentation, Logical Replication Message Formats, Relation; Logical Streaming
//! Replication Protocol.

ghost use Rattle.std.specs.Prelude.{◌≡◌, ◌<◌, ◌⊎◌, ◌-◌, Ok, OnOk, IfOk, IfErr, IsTrue};
ghost use Rattle.pgspool.specs.Labels.{items_of, held_of};
ghost use Rattle.pgapply.specs.Stored.{IsOwnFault};
ghost use Rattle.pgsub_core.specs.Server.Described.{described_from};
ghost use Rattle.pgsub_core.specs.Machine.Replica.{all_cached};
ghost use Rattle.pgsub_core.specs.Machine.Faults.{IsOfFeeding, IsOfFeedingOver, IsOfSpools};
ghost use Rattle.pgsub_core.specs.Calls.Drafts.{known_to, LacksDefinition};
ghost use Rattle.pgsub_core.specs.Calls.Parting.{part, IsDescribed};

use crate::describing::{Draft, cache_item, describe_item};
use crate::fault::Fault;
use indexmap::IndexMap;
use pgapply::{Parts, StoreFault, Work};
use pglogical::{ItemParts, ItemRef};
use pgrel::Book;
use pgspool::{SpoolFault, Spools};
use std::alloc::Global;
use std::marker::Model;

/// The changes of a part, in the order of its items, as they were read back. The Relation messages
/// among them go into the cache.
///
/// # Errors
///
/// `Fault::Relation` for a change of a relation that the cache doesn't have, and out of memory.
fn describe_part<'a, P: Spools>(
    alloc: Global,
    book: &mut Book,
    spools: &'a P,
    xid: u32,
    from: usize,
    to: usize,
) -> Result<Work<'a>, Fault>
    requires { from < to → P.has_part spools.now xid from to }
    ensures changes { (from < to → P.is_part spools.now xid from to) → IfOk result
        (λ work. described_from (known_to book.old)
        (part (items_of (held_of (P.held spools.now) xid)) from to) ≡ Ok work.changes) }
    ensures cached { (from < to → P.is_part spools.now xid from to) → OnOk result
        (book.new ≡ all_cached book.old
        (part (items_of (held_of (P.held spools.now) xid)) from to)) }
    ensures refused { (from < to → P.is_part spools.now xid from to) → IfErr result
        (λ fault. (fault ≡ Fault.Memory) ⊎ LacksDefinition (described_from (known_to book.old)
        (part (items_of (held_of (P.held spools.now) xid)) from to)) fault) }
    ensures own { IfErr result IsOfFeeding }
{
    let mut draft = Draft {
        work: Work::new(alloc),
        numbers: IndexMap::new(alloc),
    };
    for place in from..to {
        let item = spools.part_item(xid, place).unwrap();
        describe_item(alloc, book, &mut draft, &item)?;
    }
    Ok(draft.work)
}

// How many changes an item is.
fn changes_of(item: &ItemRef<'_>) -> u64 {
    match item.parts() {
        ItemParts::Relation(_) => 0,
        ItemParts::Insert { .. } | ItemParts::Update { .. } | ItemParts::Delete { .. } => 1,
        ItemParts::Truncate { oids, .. } => oids.len() as u64,
    }
}

// Puts the Relation messages of a part into the cache, as they were read back. Returns how many
// changes the part has, at most 2^64 - 1.
fn cache_part<P: Spools>(
    alloc: Global,
    book: &mut Book,
    spools: &P,
    xid: u32,
    from: usize,
    to: usize,
) -> Result<u64, Fault>
    requires { from < to → P.has_part spools.now xid from to }
    ensures cached { (from < to → P.is_part spools.now xid from to) → OnOk result
        (book.new ≡ all_cached book.old
        (part (items_of (held_of (P.held spools.now) xid)) from to)) }
    ensures memory { IfErr result (λ fault. fault ≡ Fault.Memory) }
{
    let mut changes: u64 = 0;
    for place in from..to {
        let item = spools.part_item(xid, place).unwrap();
        cache_item(alloc, book, &item)?;
        changes = changes.saturating_add(changes_of(&item));
    }
    Ok(changes)
}

/// Looks at all changes of a transaction, part after part: each has a definition. The Relation
/// messages go into the cache.
///
/// # Errors
///
/// `Fault::Relation` for a change of a relation that the cache doesn't have, those of the spools,
/// and out of memory.
pub(crate) fn check_described<P: Spools>(
    alloc: Global,
    book: &mut Book,
    spools: &mut P,
    xid: u32,
) -> Result<(), Fault>
    ensures described { IsTrue (P.is_honest spools.new) → OnOk result
        (IsDescribed book.old (items_of (held_of (P.held spools.old) xid))) }
    ensures cached { IsTrue (P.is_honest spools.new) → OnOk result (book.new
        ≡ all_cached book.old (items_of (held_of (P.held spools.old) xid))) }
    ensures refused { IsTrue (P.is_honest spools.new) → IfErr result
        (λ fault. IsOfSpools P.may_fail fault ⊎ LacksDefinition (described_from (known_to book.old)
        (items_of (held_of (P.held spools.old) xid))) fault) }
    ensures own { IfErr result (IsOfFeedingOver P.may_fail) }
    ensures held { P.held spools.new ≡ P.held spools.old }
    ensures limit { P.most spools.new ≡ P.most spools.old }
    ensures honest { IsTrue (P.is_honest spools.new) → IsTrue (P.is_honest spools.old) }
{
    let end = spools.count(xid);
    let mut from = 0;
    while from < end {
        let to = spools.load_part(xid, from)?;
        describe_part(alloc, book, spools, xid, from, to)?;
        from = to;
    }
    Ok(())
}

/// Puts the Relation messages of a repeat into the cache, part after part. Its changes aren't
/// looked at.
///
/// # Errors
///
/// Those of the spools, and out of memory.
#[tactic(auto, using(crate::proofs::Spooling::of_failure))]
pub(crate) fn cache_parts<P: Spools>(
    alloc: Global,
    book: &mut Book,
    spools: &mut P,
    xid: u32,
) -> Result<(), Fault>
    ensures cached { IsTrue (P.is_honest spools.new) → OnOk result (book.new
        ≡ all_cached book.old (items_of (held_of (P.held spools.old) xid))) }
    ensures refused { IfErr result (IsOfSpools P.may_fail) }
    ensures held { P.held spools.new ≡ P.held spools.old }
    ensures limit { P.most spools.new ≡ P.most spools.old }
    ensures honest { IsTrue (P.is_honest spools.new) → IsTrue (P.is_honest spools.old) }
{
    let end = spools.count(xid);
    let mut from = 0;
    while from < end {
        let to = spools.load_part(xid, from)?;
        let _changes = cache_part(alloc, book, spools, xid, from, to)?;
        from = to;
    }
    Ok(())
}

// As the fault of parts that can't be had, where the spools don't tell it.
fn own_fault(fault: Fault) -> StoreFault
    ensures { IsOwnFault result }
{
    match fault {
        Fault::Memory => StoreFault::Memory,
        _ => StoreFault::Refused,
    }
}

/// The changes of a transaction, part after part, each with the definition that the relation cache
/// has when its turn comes.
#[derive(Drop)]
pub(crate) struct Described<'s, P: Spools> {
    pub alloc: Global,
    pub spools: &'s mut P,
    /// What the relation cache is before this part.
    pub book: &'s mut Book,
    pub xid: u32,
    /// The index of the part's first item.
    pub from: usize,
    /// The index behind its last one.
    pub to: usize,
    /// How many changes the parts before this one had.
    pub given: u64,
    /// Why the spools didn't give a part.
    pub fault: Option<SpoolFault>,
}

impl<'s, P: Spools> Model for Described<'s, P> {
    ghost use Rattle.std.specs.Prelude.{IfSome, IsTrue};
    ghost use Rattle.pgspool.specs.Failures.{IsFailure};
    ghost use Rattle.pgspool.specs.Labels.{items_of, held_of};
    ghost use Rattle.pgsub_core.specs.Calls.Parting.{Parting, parting_code, IsPart};

    ghost Value = { Parting P };

    ghost coded = { parting_code P.code };

    ghost view = { λ d. record {
      spools = d.spools.now;
      name = d.spools.ghost_name;
      relations = d.book.now;
      xid = d.xid;
      from = d.from;
      to = d.to;
    } };

    ghost invariant = { λ d. IsPart (IsTrue (P.is_honest d.spools.now))
        (P.has_part d.spools.now d.xid) (P.is_part d.spools.now d.xid)
        (items_of (held_of (P.held d.spools.now) d.xid)) d.book.now d.from d.to
        × IfSome d.fault (IsFailure P.may_fail) };
}

impl<'s, P: Spools> Parts for Described<'s, P> {
    ghost use Rattle.std.specs.Prelude.{IsTrue};
    ghost use Rattle.pgsub_core.specs.Calls.Parting.{here_in, left_in, most_left_in, LeadsOn};
    ghost use Rattle.pgsub_core.specs.Calls.Parting.{leads_steps};

    ghost here = { here_in P.held };

    ghost left = { left_in P.held };

    ghost most_left = { most_left_in P.held };

    ghost is_honest = { λ p. IsTrue (P.is_honest p.spools) };

    ghost leads = { LeadsOn P.held P.most P.is_honest };

    ghost steps = { leads_steps P.held P.most P.is_honest };

    // Where it fails, no part is left.
    fn advance(&mut self) -> Result<bool, StoreFault> {
        let (from, to) = (self.from, self.to);
        let end = self.spools.count(self.xid);
        self.from = end;
        self.to = end;
        let Ok(changes) = cache_part(self.alloc, self.book, self.spools, self.xid, from, to) else {
            return Err(StoreFault::Memory);
        };
        self.given = self.given.saturating_add(changes);
        if to == end {
            return Ok(false);
        }
        match self.spools.load_part(self.xid, to) {
            Ok(next) => {
                self.from = to;
                self.to = next;
                Ok(true)
            }
            Err(fault) => {
                self.fault = Some(fault);
                Err(StoreFault::Refused)
            }
        }
    }

    fn part(&self) -> Result<Work<'_>, StoreFault> {
        let mut book = self.book.copy(self.alloc)?;
        match describe_part(
            self.alloc,
            &mut book,
            self.spools,
            self.xid,
            self.from,
            self.to,
        ) {
            Ok(work) => Ok(work),
            Err(fault) => Err(own_fault(fault)),
        }
    }

    fn given(&self) -> u64 {
        self.given
    }
}
