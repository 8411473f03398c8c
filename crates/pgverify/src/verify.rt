//! The checks of the three tables.

ghost use Rattle.std.specs.Prelude.{◌≡◌, ◌&&◌, ◌<◌, ◌^◌, ◌∷◌, [], Ok, true, IfOk, IfSome, OnOk};
ghost use Rattle.std.specs.Int.{w64, to_be_bytes};
ghost use Rattle.sqlite_trees.specs.View.{IsClean, IsQuiet};
ghost use Rattle.sqlite_exec.specs.Calls.{OnlyReads};
ghost use Rattle.pgtables.specs.Kept.{AreDefined, pos_row, tables_in};
ghost use Rattle.pgtables.specs.Opened.{ListsDefinitions};
ghost use Rattle.pgverify.specs.Verified.{AreVerified, ListsStore};

use crate::definitions::Definitions;
use crate::keys::are_matched;
use crate::place::Place;
use crate::walk::walk;
use pgtables::{Remains, RowCheck, StoredDefinition, remains_of};
use sqlite_catalog::load::load;
use sqlite_trees::error::StoreError;
use sqlite_trees::store::Alter;
use sqlite_value::row::Row;
use std::alloc::{AllocError, Global};

/// The trees of `rel` and of `pos`.
const DEFINED: u32 = 0;

const PLACE: u32 = 3;

/// Whether the trees are listed as the three tables of a store with their index, and no other.
pub fn lists_store<S: Alter>(store: &S, alloc: Global) -> Result<bool, AllocError>
    ensures { IsClean (S.Store.view store.now) → result ≡ Ok true →
        ListsStore (S.Store.view store.now) }
{
    if store.is_broken() {
        return Ok(false);
    }
    let Some(schema) = load(store, alloc)? else {
        return Ok(false);
    };
    match remains_of(&schema) {
        Some(left) => Ok(is_whole(left)),
        None => Ok(false),
    }
}

/// Whether all three tables are there.
fn is_whole(left: Remains) -> bool
    ensures { result ≡ (left.has_definitions && (left.has_rows && left.has_position)) }
{
    left.has_definitions && (left.has_rows && left.has_position)
}

/// The definitions by rising OID, or `None` where a row of `rel` isn't one of a definition. Nothing
/// changes.
pub fn read_definitions<S: Alter>(
    store: &mut S,
    alloc: Global,
) -> Result<Option<Vec<(u32, StoredDefinition)>>, StoreError>
    requires { IsClean (S.Store.view store.old) → ListsStore (S.Store.view store.old) }
    ensures found { IsClean (S.Store.view store.new) → IfOk result (λ found. IfSome found
        (λ all. AreDefined ((S.Store.view store.old).trees 0)
        × ListsDefinitions (tables_in (S.Store.view store.old).trees) all.items)) }
    ensures same { OnOk result (IsClean (S.Store.view store.new) →
        OnlyReads (S.Store.view store.old) (S.Store.view store.new)) }
    ensures quiet { IsQuiet S.Store.view S.Store.faults S.Store.recovers S.Store.is_shielded
        store.old store.new }
{
    let mut entry = Row::new(alloc);
    let all = Vec::new(alloc);
    let mut definitions = Definitions { alloc, all };
    if !walk(store, DEFINED, &mut entry, &mut definitions)? {
        return Ok(None);
    }
    Ok(Some(definitions.all))
}

/// Whether each row of `held` is accepted, no two have one identity, and the index has the entry of
/// each. Nothing changes.
pub fn check_rows<S: Alter, C: RowCheck>(
    store: &mut S,
    alloc: Global,
    check: &C,
) -> Result<bool, StoreError>
    requires { IsClean (S.Store.view store.old) → ListsStore (S.Store.view store.old) }
    ensures verified { IsClean (S.Store.view store.new) → result ≡ Ok true →
        AreVerified C.RowCheck.accepts check.now (S.Store.view store.old).trees }
    ensures same { OnOk result (IsClean (S.Store.view store.new) →
        OnlyReads (S.Store.view store.old) (S.Store.view store.new)) }
    ensures quiet { IsQuiet S.Store.view S.Store.faults S.Store.recovers S.Store.is_shielded
        store.old store.new }
{
    are_matched(store, alloc, check)
}

/// The position that the only row of `pos` stores, or `None` where there is no row, another one or
/// more than one. Nothing changes.
pub fn read_position<S: Alter>(store: &mut S, alloc: Global) -> Result<Option<u64>, StoreError>
    ensures found { IsClean (S.Store.view store.new) → IfOk result (λ found. IfSome found
        (λ position. ((S.Store.view store.old).trees 3 ≡ pos_row (to_be_bytes w64 position) ∷ [])
        × (position < 2 ^ 64))) }
    ensures same { OnOk result (IsClean (S.Store.view store.new) →
        OnlyReads (S.Store.view store.old) (S.Store.view store.new)) }
    ensures quiet { IsQuiet S.Store.view S.Store.faults S.Store.recovers S.Store.is_shielded
        store.old store.new }
{
    let mut entry = Row::new(alloc);
    let mut place = Place { found: None };
    if !walk(store, PLACE, &mut entry, &mut place)? {
        return Ok(None);
    }
    Ok(place.found)
}
