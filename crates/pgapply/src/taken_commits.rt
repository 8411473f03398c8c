//! A mark that only clauses read.

ghost use Rattle.std.specs.Prelude.{◌≡◌, ◌++◌, List, []};
ghost use Rattle.std.specs.Borrow.{ftrue};
ghost use Rattle.pgapply.specs.Tallies.{TakenCommit, taken_commit};

use crate::commit::About;
use crate::parts::Parts;
use crate::work::Work;
use pglsn::Lsn;
use std::marker::{Model, PhantomData};

/// The commits that a store took since it was opened, for its tally.
///
/// It has no bytes and no code reads it, so a reader has to trust that its calls, which alone make
/// one, say by their clauses what is meant. That a store gives them what it takes is said by the
/// store's own clauses, and proved.
#[derive(Drop)]
pub struct TakenCommits {
    nothing: PhantomData<u8>,
    /// They, the oldest first.
    pub ghost commits: { List TakenCommit },
}

impl Model for TakenCommits {
    ghost also_owns = { λ _. ftrue };
}

impl TakenCommits {
    /// None was taken yet.
    pub fn none() -> TakenCommits
        ensures { result.commits ≡ [] }
    {
        TakenCommits {
            nothing: PhantomData,
        }
    }

    /// The same.
    pub fn same(&self) -> TakenCommits
        ensures { result.commits ≡ self.now.commits }
    {
        TakenCommits {
            nothing: PhantomData,
        }
    }

    /// These with a commit more.
    pub fn with_commit(&self, _end: &Lsn, _about: &Option<About>, _work: &Work<'_>) -> TakenCommits
        ensures { result.commits ≡ self.now.commits
            ++ taken_commit _end.now _about.now _work.now.changes }
    {
        TakenCommits {
            nothing: PhantomData,
        }
    }

    /// These with a commit more, whose changes are those of the parts that are left.
    pub fn with_parts<P: Parts>(
        &self,
        _end: &Lsn,
        _about: &Option<About>,
        _parts: &P,
    ) -> TakenCommits
        ensures { result.commits ≡ self.now.commits
            ++ taken_commit _end.now _about.now (P.left _parts.now) }
    {
        TakenCommits {
            nothing: PhantomData,
        }
    }
}
