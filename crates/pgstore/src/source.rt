//! Where the rows of a store are.

ghost use Rattle.sqlite.specs.State.{Survives};
ghost use Rattle.pgrows.specs.Rows.{IsNumbered, state};
ghost use Rattle.pgstore.specs.Sources.{Begins, IsSource, rows_in};

use core::mem::replace_with;
use pgrel::Book;
use pgrows::Rows;
use pgtables::see_committed;
use sqlite::{Alter, Connection};
use std::alloc::Global;

/// Where the rows of a store are: until they are first read or changed in the connection that was
/// adopted, and in its trees from then on.
#[derive(Drop)]
pub(crate) enum Source<S: Alter> {
    /// The connection that was adopted, outside a transaction.
    Adopted(Connection<S>),
    /// Its trees, the definitions that relations are known to have in them, and whether nothing was
    /// changed since the last commit.
    Trees(Rows<S>, Book, bool),
}

/// The rows as they were committed. What isn't committed is gone.
fn undone<S: Alter + Drop>(mut rows: Rows<S>) -> Rows<S>
    ensures numbered { IsNumbered S.Store rows → IsNumbered S.Store result }
    ensures begun { Begins S.Store rows result }
    ensures survives { Survives (state S.Store rows) (state S.Store result) (λ _. ⊥) }
{
    rows.undo();
    rows
}

impl<S: Alter + Drop> Source<S> {
    /// The rows as they were committed. What isn't committed is gone.
    pub(crate) fn into_rows(self, alloc: Global) -> Rows<S>
        requires { IsSource S.Store self }
        ensures numbered { IsNumbered S.Store result }
        ensures begun { Begins S.Store (rows_in self) result }
        ensures survives { Survives (state S.Store (rows_in self)) (state S.Store result) (λ _. ⊥) }
    {
        match self {
            Source::Adopted(conn) => {
                see_committed(&conn);
                Rows::of_connection(alloc, conn)
            }
            Source::Trees(rows, _known, _is_settled) => undone(rows),
        }
    }

    /// The same, as a source.
    fn begun(self, alloc: Global) -> (Source<S>, ())
        requires { IsSource S.Store self }
        ensures source { IsSource S.Store result.0 }
        ensures begun { Begins S.Store (rows_in self) (rows_in result.0) }
        ensures survives { Survives (state S.Store (rows_in self))
            (state S.Store (rows_in result.0)) (λ _. ⊥) }
    {
        match self {
            Source::Trees(rows, known, true) => (Source::Trees(undone(rows), known, true), ()),
            source => (
                Source::Trees(source.into_rows(alloc), Book::new(alloc), true),
                (),
            ),
        }
    }

    /// Goes back to what is committed, in the trees from now on.
    pub(crate) fn begin(&mut self, alloc: Global)
        requires { IsSource S.Store self.old }
        ensures source { IsSource S.Store self.new }
        ensures begun { Begins S.Store (rows_in self.old) (rows_in self.new) }
        ensures survives { Survives (state S.Store (rows_in self.old))
            (state S.Store (rows_in self.new)) (λ _. ⊥) }
    {
        replace_with(self, alloc, Source::begun)
    }
}
