//! A walk over the entries of a tree.

ghost use Rattle.std.specs.Prelude.{◌≡◌, ◌++◌, ◌∷◌, List, [], Ok, true, OnOk};
ghost use Rattle.sqlite.specs.Order.{Row as Entry};
ghost use Rattle.sqlite_trees.specs.View.{IsClean, IsQuiet};
ghost use Rattle.sqlite_exec.specs.Calls.{OnlyReads};

use sqlite_trees::error::StoreError;
use sqlite_trees::store::{Direction, Store};
use sqlite_value::row::Row;

/// What looks at the entries of a tree.
pub trait TreeVisitor {
    ghost use Rattle.sqlite.specs.Order.{Row as Entry};

    // What it knows of the entries that it has accepted since the first of these states.
    ghost has_seen: { Self → Self → List Entry → Type 0 };

    /// Looks at the next entry, and returns whether it accepts it. Where it doesn't, or fails, it
    /// is asked no more.
    fn visit(&mut self, entry: &Row) -> Result<bool, StoreError>
        ensures { result ≡ Ok true → (start : Self) → (entries : List Entry) →
            has_seen start self.old entries →
            has_seen start self.new (entries ++ entry.now ∷ []) };
}

/// Shows a visitor all entries of a tree in their order, and returns whether it accepted each.
/// Nothing changes.
pub(crate) fn walk<S: Store, V: TreeVisitor>(
    store: &mut S,
    tree: u32,
    entry: &mut Row,
    visitor: &mut V,
) -> Result<bool, StoreError>
    ensures seen { IsClean (S.Store.view store.new) → result ≡ Ok true →
        V.TreeVisitor.has_seen visitor.old visitor.old [] →
        V.TreeVisitor.has_seen visitor.old visitor.new ((S.Store.view store.old).trees tree) }
    ensures same { OnOk result (IsClean (S.Store.view store.new) →
        OnlyReads (S.Store.view store.old) (S.Store.view store.new)) }
    ensures quiet { IsQuiet S.Store.view S.Store.faults S.Store.recovers S.Store.is_shielded
        store.old store.new }
{
    entry.clear();
    store.seek(0, tree, entry, Direction::Forward)?;
    'entries: for _ in 0..u64::MAX {
        if !store.next(0, entry)? {
            return Ok(true);
        }
        if !visitor.visit(entry)? {
            return Ok(false);
        }
    }
    // No file holds so many entries.
    Err(StoreError::Full)
}
