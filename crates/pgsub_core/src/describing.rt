//! The changes of a commit, each with the definition that the relation cache has when its turn
//! comes.
//!
//! PostgreSQL documentation, Logical Replication Message Formats, Relation.

ghost use Rattle.std.specs.Prelude.{◌≡◌, ◌⊎◌, ◌∷◌, ◌++◌, [], List, ℕ, nat_eq, Some, None, Ok, Err};
ghost use Rattle.std.specs.Prelude.{OnOk, OnErr, IfOk, IfErr, slice_get, length};
ghost use Rattle.std.specs.FinMap as map;
ghost use Rattle.indexmap.specs.IndexMap.{get};
ghost use Rattle.pglogical.specs.declared.message.Item.{Item};
ghost use Rattle.pglogical.specs.BorrowedItems.{def_value};
ghost use Rattle.pglogical.specs.Spelling.{IsSpellable, IsDefinition};
ghost use Rattle.pgspool.specs.Labels.{items_of, held_of};
ghost use Rattle.pgsub_core.specs.Server.Described.{described_from};
ghost use Rattle.pgsub_core.specs.Machine.Replica.{cached, all_cached};
ghost use Rattle.pgsub_core.specs.Calls.Drafts.{known_to, behind_changes, AreNumbered, IsNumbered};
ghost use Rattle.pgsub_core.specs.Calls.Drafts.{Adds, IsUndescribed, truncated, LacksDefinition};
ghost use Rattle.pgsub_core.specs.Machine.Faults.{IsOfFeeding};

use crate::fault::Fault;
use indexmap::IndexMap;
use pgapply::{Op, Work};
use pglogical::{DefRef, ItemParts, ItemRef, OidRefs};
use pgrel::Book;
use pgspool::Spools;
use std::alloc::Global;

/// The changes of a commit that were described so far. A definition is copied once each time that a
/// relation is described and then used.
#[derive(Drop)]
pub(crate) struct Draft<'a> {
    /// The changes, with the definitions that they are under.
    pub work: Work<'a>,
    /// By OID, the number in `work` of the definition that the relation cache has now.
    pub numbers: IndexMap<u32, usize>,
}

// Puts the definition of a Relation message into the cache.
fn describe_relation(
    alloc: Global,
    book: &mut Book,
    numbers: &mut IndexMap<u32, usize>,
    def: &DefRef<'_>,
) -> Result<(), Fault>
    requires { IsDefinition (def_value def.now) }
    ensures cached { OnOk result (book.new ≡ map.insert book.old def.now.oid (def_value def.now)) }
    ensures gone { OnOk result (get nat_eq numbers.new def.now.oid ≡ None) }
    ensures others { OnOk result ((oid n : ℕ) → get nat_eq numbers.new oid ≡ Some n →
        get nat_eq numbers.old oid ≡ Some n) }
    ensures memory { IfErr result (λ fault. fault ≡ Fault.Memory) }
{
    let copy = def.to_def(alloc)?;
    let _before = numbers.swap_remove(&def.oid);
    book.set(copy)?;
    Ok(())
}

// The number of the definition that the cache has of a relation. It is copied into the work if it
// isn't there yet.
fn number_of(alloc: Global, book: &Book, draft: &mut Draft<'_>, oid: u32) -> Result<usize, Fault>
    requires { AreNumbered book.now draft.old.work.definitions (get nat_eq draft.old.numbers) }
    ensures number { IfOk result (IsNumbered book.now draft.new.work.definitions oid) }
    ensures numbers { OnOk result (AreNumbered book.now draft.new.work.definitions
        (get nat_eq draft.new.numbers)) }
    ensures changes { OnOk result (draft.new.work.changes ≡ draft.old.work.changes) }
    ensures refused { IfErr result (λ fault. (fault ≡ Fault.Memory)
        ⊎ IsUndescribed book.now oid fault) }
{
    if let Some(number) = draft.numbers.get(&oid) {
        return Ok(*number);
    }
    let def = book.get(oid)?;
    let copy = def.copy(alloc)?;
    let number = draft.work.define(copy)?;
    draft.numbers.insert(oid, number)?;
    Ok(number)
}

// Adds one change of a relation, with the definition that the cache has.
fn describe_change<'a>(
    alloc: Global,
    book: &Book,
    draft: &mut Draft<'a>,
    oid: u32,
    op: Op<'a>,
) -> Result<(), Fault>
    requires { AreNumbered book.now draft.old.work.definitions (get nat_eq draft.old.numbers) }
    ensures adds { OnOk result (Adds book.now oid op.entry draft.old.work.changes
        draft.new.work.changes) }
    ensures numbers { OnOk result (AreNumbered book.now draft.new.work.definitions
        (get nat_eq draft.new.numbers)) }
    ensures refused { IfErr result (λ fault. (fault ≡ Fault.Memory)
        ⊎ IsUndescribed book.now oid fault) }
{
    let number = number_of(alloc, book, draft, oid)?;
    draft.work.change(number, op)?;
    Ok(())
}

// Adds the Truncate of these relations, as one change for each. Room is made for all at once: there
// may be some hundred million in one message.
fn describe_truncate(
    alloc: Global,
    book: &Book,
    draft: &mut Draft<'_>,
    oids: &OidRefs<'_>,
) -> Result<(), Fault>
    requires { AreNumbered book.now draft.old.work.definitions (get nat_eq draft.old.numbers) }
    ensures adds { OnOk result (behind_changes draft.new.work.changes (Ok [])
        ≡ behind_changes draft.old.work.changes (truncated (known_to book.now) oids.now)) }
    ensures numbers { OnOk result (AreNumbered book.now draft.new.work.definitions
        (get nat_eq draft.new.numbers)) }
    ensures refused { IfErr result (λ fault. (fault ≡ Fault.Memory)
        ⊎ LacksDefinition (truncated (known_to book.now) oids.now) fault) }
{
    draft.work.make_room(oids.len())?;
    for oid in oids.reborrow() {
        describe_change(alloc, book, draft, oid, Op::Truncate)?;
    }
    Ok(())
}

// Adds one item of a commit: a Relation goes into the cache, a change gets its definition from
// there.
pub(crate) fn describe_item<'a>(
    alloc: Global,
    book: &mut Book,
    draft: &mut Draft<'a>,
    item: &ItemRef<'a>,
) -> Result<(), Fault>
    requires spellable { IsSpellable item.now }
    requires numbers { AreNumbered book.old draft.old.work.definitions
        (get nat_eq draft.old.numbers) }
    ensures changes { OnOk result ((items : List Item) →
        behind_changes draft.new.work.changes (described_from (known_to book.new) items)
        ≡ behind_changes draft.old.work.changes
        (described_from (known_to book.old) (item.now ∷ items))) }
    ensures cached { OnOk result (book.new ≡ cached item.now book.old) }
    ensures numbers { OnOk result (AreNumbered book.new draft.new.work.definitions
        (get nat_eq draft.new.numbers)) }
    ensures refused { IfErr result (λ fault. (fault ≡ Fault.Memory)
        ⊎ ((items : List Item) → LacksDefinition
        (described_from (known_to book.old) (item.now ∷ items)) fault)) }
{
    match item.parts() {
        ItemParts::Relation(def) => describe_relation(alloc, book, &mut draft.numbers, &def),
        ItemParts::Insert { oid, row } => {
            describe_change(alloc, book, draft, oid, Op::Insert { row })
        }
        ItemParts::Update { oid, prior, row } => {
            describe_change(alloc, book, draft, oid, Op::Update { prior, row })
        }
        ItemParts::Delete { oid, kind, row } => {
            describe_change(alloc, book, draft, oid, Op::Delete { kind, row })
        }
        ItemParts::Truncate { oids, .. } => describe_truncate(alloc, book, draft, &oids),
    }
}

/// The changes of a transaction that commits, in the order of its items, as they were read back.
/// The Relation messages among them go into the cache.
///
/// # Errors
///
/// `Fault::Relation` for a change of a relation that the cache doesn't have, and out of memory.
pub(crate) fn describe<'a, P: Spools>(
    alloc: Global,
    book: &mut Book,
    spools: &'a P,
    xid: u32,
) -> Result<Work<'a>, Fault>
    requires { P.is_ready spools.now xid }
    ensures changes { P.is_loaded spools.now xid → IfOk result
        (λ work. described_from (known_to book.old)
        (items_of (held_of (P.held spools.now) xid)) ≡ Ok work.changes) }
    ensures cached { P.is_loaded spools.now xid → OnOk result (book.new ≡ all_cached book.old
        (items_of (held_of (P.held spools.now) xid))) }
    ensures refused { P.is_loaded spools.now xid → IfErr result (λ fault. (fault ≡ Fault.Memory)
        ⊎ LacksDefinition (described_from (known_to book.old)
        (items_of (held_of (P.held spools.now) xid))) fault) }
    ensures own { IfErr result IsOfFeeding }
{
    let mut draft = Draft {
        work: Work::new(alloc),
        numbers: IndexMap::new(alloc),
    };
    for place in 0..spools.count(xid) {
        let item = spools.item(xid, place).unwrap();
        describe_item(alloc, book, &mut draft, &item)?;
    }
    Ok(draft.work)
}

// Caches an item of a repeat if it is a Relation.
pub(crate) fn cache_item(alloc: Global, book: &mut Book, item: &ItemRef<'_>) -> Result<(), Fault>
    requires { IsSpellable item.now }
    ensures cached { OnOk result (book.new ≡ cached item.now book.old) }
    ensures memory { IfErr result (λ fault. fault ≡ Fault.Memory) }
{
    let ItemParts::Relation(def) = item.parts() else {
        return Ok(());
    };
    let copy = def.to_def(alloc)?;
    book.set(copy)?;
    Ok(())
}

/// Puts the Relation messages of a repeat into the cache, as they were read back. Its changes
/// aren't looked at.
pub(crate) fn cache_relations<P: Spools>(
    alloc: Global,
    book: &mut Book,
    spools: &P,
    xid: u32,
) -> Result<(), Fault>
    requires { P.is_ready spools.now xid }
    ensures cached { P.is_loaded spools.now xid → OnOk result (book.new ≡ all_cached book.old
        (items_of (held_of (P.held spools.now) xid))) }
    ensures memory { IfErr result (λ fault. fault ≡ Fault.Memory) }
{
    for place in 0..spools.count(xid) {
        let item = spools.item(xid, place).unwrap();
        cache_item(alloc, book, &item)?;
    }
    Ok(())
}
