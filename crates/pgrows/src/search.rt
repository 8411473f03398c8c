//! Finds the row that has a key: by a guess of its rowid, or by its entry in the index. A change
//! often follows a look at its row: the row that stands in the search is the first guess.

ghost use Rattle.std.specs.Prelude.{◌≡◌, false, MatchOption, IfOk, IfSome, OnOk, OnErr};
ghost use Rattle.sqlite_trees.specs.View.{IsClean, IsQuiet};
ghost use Rattle.sqlite_exec.specs.Calls.{OnlyReads};
ghost use Rattle.pgrows.specs.Rows.{IsFree, IsGood, IsStored, Keeps, tables_of};
ghost use Rattle.pgrows.specs.Stored.{IsRowOf};

use crate::entry::has_key;
use crate::find::{TABLE, find_entry};
use crate::guess::Guesses;
use sqlite_rules::edit::id_in;
use sqlite_trees::error::StoreError;
use sqlite_trees::store::Alter;
use sqlite_value::row::Row;
use std::alloc::Global;

/// What a search has read, always in the same memory.
#[derive(Drop)]
pub(crate) struct Search {
    /// The key that was searched.
    pub(crate) key: Row,
    /// The entry of the index that was found.
    pub(crate) entry: Row,
    /// The row that was read, or is written.
    pub(crate) row: Row,
    guesses: Guesses,
}

impl Search {
    /// Nothing was read yet. It takes no memory.
    pub(crate) fn new(alloc: Global) -> Search {
        Search {
            key: Row::new(alloc),
            entry: Row::new(alloc),
            row: Row::new(alloc),
            guesses: Guesses::new(alloc),
        }
    }

    /// A rowid that the row with the key may have.
    fn guess(&self, oid: u32, ident: &[u8]) -> Option<i64> {
        if has_key(&self.row, oid, ident) {
            return Some(id_in(self.row.get(0)));
        }
        self.guesses.guess(oid, ident)
    }
}

/// The rowid that was guessed, if its row has the key. That is the row which was read then.
fn try_guess<S: Alter>(
    store: &mut S,
    row: &mut Row,
    guess: Option<i64>,
    oid: u32,
    ident: &[u8],
) -> Result<Option<i64>, StoreError>
    requires { IsClean (S.Store.view store.old) → IsGood (S.Store.view store.old) }
    ensures found { IsClean (S.Store.view store.new) → IfOk result (λ id. IfSome id
        (IsStored oid ident.now ((S.Store.view store.old).trees 1))) }
    ensures row { IsClean (S.Store.view store.new) → IfOk result (λ id. IfSome id
        (λ _. IsRowOf oid ident.now (tables_of S.Store store.old) row.new)) }
    ensures same { IsClean (S.Store.view store.new) →
        OnOk result (S.Store.view store.new ≡ S.Store.view store.old) }
    ensures err { IsClean (S.Store.view store.new) →
        OnErr result (Keeps S.Store store.old store.new) }
    ensures quiet { IsQuiet S.Store.view S.Store.faults S.Store.recovers S.Store.is_shielded
        store.old store.new }
{
    let Some(id) = guess else {
        return Ok(None);
    };
    if !store.get(TABLE, id, row)? {
        return Ok(None);
    }
    if !has_key(row, oid, ident) {
        return Ok(None);
    }
    Ok(Some(id))
}

/// The rowid of the row that has the key, if it was guessed. That row stands in the search then.
pub(crate) fn find_guessed<S: Alter>(
    store: &mut S,
    search: &mut Search,
    oid: u32,
    ident: &[u8],
) -> Result<Option<i64>, StoreError>
    requires { IsClean (S.Store.view store.old) → IsGood (S.Store.view store.old) }
    ensures found { IsClean (S.Store.view store.new) → IfOk result (λ id. IfSome id
        (IsStored oid ident.now ((S.Store.view store.old).trees 1))) }
    ensures row { IsClean (S.Store.view store.new) → IfOk result (λ id. IfSome id
        (λ _. IsRowOf oid ident.now (tables_of S.Store store.old) search.new.row)) }
    ensures same { IsClean (S.Store.view store.new) →
        OnOk result (S.Store.view store.new ≡ S.Store.view store.old) }
    ensures err { IsClean (S.Store.view store.new) →
        OnErr result (Keeps S.Store store.old store.new) }
    ensures quiet { IsQuiet S.Store.view S.Store.faults S.Store.recovers S.Store.is_shielded
        store.old store.new }
{
    let guess = search.guess(oid, ident);
    try_guess(store, &mut search.row, guess, oid, ident)
}

/// The rowid of the row that has the key, by its entry in the index.
pub(crate) fn find_listed<S: Alter>(
    store: &mut S,
    search: &mut Search,
    oid: u32,
    ident: &[u8],
) -> Result<Option<i64>, StoreError>
    requires { IsClean (S.Store.view store.old) → IsGood (S.Store.view store.old) }
    ensures found { IsClean (S.Store.view store.new) → IfOk result (λ id. MatchOption id
        (IsFree oid ident.now ((S.Store.view store.old).trees 1))
        (IsStored oid ident.now ((S.Store.view store.old).trees 1))) }
    ensures sound { IsClean (S.Store.view store.new) →
        OnOk result ((S.Store.view store.old).is_broken ≡ false) }
    ensures same { IsClean (S.Store.view store.new) →
        OnOk result (OnlyReads (S.Store.view store.old) (S.Store.view store.new)) }
    ensures err { IsClean (S.Store.view store.new) →
        OnErr result (Keeps S.Store store.old store.new) }
    ensures quiet { IsQuiet S.Store.view S.Store.faults S.Store.recovers S.Store.is_shielded
        store.old store.new }
{
    let found = find_entry(store, &mut search.key, &mut search.entry, oid, ident)?;
    if let Some(id) = found {
        search.guesses.learn(oid, ident, id);
    }
    Ok(found)
}

/// The rowid of the row that has the key.
pub(crate) fn find<S: Alter>(
    store: &mut S,
    search: &mut Search,
    oid: u32,
    ident: &[u8],
) -> Result<Option<i64>, StoreError>
    requires { IsClean (S.Store.view store.old) → IsGood (S.Store.view store.old) }
    ensures found { IsClean (S.Store.view store.new) → IfOk result (λ id. MatchOption id
        (IsFree oid ident.now ((S.Store.view store.old).trees 1))
        (IsStored oid ident.now ((S.Store.view store.old).trees 1))) }
    ensures sound { IsClean (S.Store.view store.new) →
        OnOk result ((S.Store.view store.old).is_broken ≡ false) }
    ensures same { IsClean (S.Store.view store.new) →
        OnOk result (OnlyReads (S.Store.view store.old) (S.Store.view store.new)) }
    ensures err { IsClean (S.Store.view store.new) →
        OnErr result (Keeps S.Store store.old store.new) }
    ensures quiet { IsQuiet S.Store.view S.Store.faults S.Store.recovers S.Store.is_shielded
        store.old store.new }
{
    if let Some(id) = find_guessed(store, search, oid, ident)? {
        return Ok(Some(id));
    }
    find_listed(store, search, oid, ident)
}
