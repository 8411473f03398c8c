//! What a store knows of the commits that are staged.

ghost use Rattle.std.specs.Prelude.{◌≡◌, ◌==◌, ◌++◌, true, is_some, IfSome};
ghost use Rattle.pgapply.specs.Stored.{IsOwnFault};
ghost use Rattle.pgapply.specs.Tallies.{taken_commit};
ghost use Rattle.pgstore.specs.StoreValue.{begun_at, refused_of, settled_of, staged_of, taken_of};
ghost use Rattle.pgstore.specs.StoreValue.{unstaged_of};

use crate::staging::Unstaged;
use pgapply::{About, Misses, Parts, StoreFault, TakenCommits, Work};
use pglsn::Lsn;
use std::marker::Model;

/// The commits that are staged after the last one that was stored. Their changes are in the
/// transaction, and nothing of them is committed.
#[derive(Drop)]
pub struct Group {
    // The end LSN of the last of them, the position where none is staged.
    reach: Lsn,
    // Why they are lost, where they are.
    lost: Option<StoreFault>,
    // The commits that were stored, and the changes of theirs that found no row; and these with the
    // commits that are staged.
    commits: TakenCommits,
    missed: Misses,
    stages_commits: TakenCommits,
    stages_missed: Misses,
}

impl Model for Group {
    ghost use Rattle.std.specs.Prelude.{is_some, IfSome};
    ghost use Rattle.pgapply.specs.Stored.{IsOwnFault};
    ghost use Rattle.pgstore.specs.StoreValue.{Group as GroupValue, group_code};

    ghost Value = { GroupValue };

    ghost coded = { group_code };

    ghost view = { λ a. record {
      reach = a.reach;
      is_lost = is_some a.lost;
      tally = record { misses = a.missed; commits = a.commits.commits };
      stages_tally = record { misses = a.stages_missed; commits = a.stages_commits.commits };
    } };

    ghost invariant = { λ a. IfSome a.lost IsOwnFault };
}

impl Group {
    /// Nothing is staged after this position, and nothing was taken yet.
    pub(crate) fn at(position: Lsn) -> Group
        ensures { result ≡ begun_at position }
    {
        Group {
            reach: position,
            lost: None,
            commits: TakenCommits::none(),
            missed: Misses::none(),
            stages_commits: TakenCommits::none(),
            stages_missed: Misses::none(),
        }
    }

    /// The end LSN of the last staged commit, the position where none is staged.
    pub(crate) fn reach(&self) -> Lsn
        ensures { result ≡ self.now.reach }
    {
        self.reach
    }

    /// Whether none is staged after this position.
    pub(crate) fn is_empty(&self, position: Lsn) -> bool
        ensures { result ≡ (self.now.reach == position) }
    {
        self.reach == position
    }

    /// Why they are lost, where they are.
    pub(crate) fn lost(&self) -> Option<StoreFault>
        ensures lost { is_some result ≡ self.now.is_lost }
        ensures fault { IfSome result IsOwnFault }
    {
        self.lost
    }

    /// The changes that found no row, of the commits that were stored.
    pub(crate) fn missed(&self) -> Misses
        ensures { result ≡ self.now.tally.misses }
    {
        self.missed
    }

    /// The same with those of the commits that are staged.
    pub(crate) fn stages_missed(&self) -> Misses
        ensures { result ≡ self.now.stages_tally.misses }
    {
        self.stages_missed
    }

    /// The commits that were stored or are staged, with this one behind them.
    pub(crate) fn with_commit(
        &self,
        end: Lsn,
        about: Option<About>,
        work: &Work<'_>,
    ) -> TakenCommits
        ensures { result.commits ≡ self.now.stages_tally.commits
            ++ taken_commit end about work.now.changes }
    {
        self.stages_commits.with_commit(&end, &about, work)
    }

    /// The same with a commit of which no part was given yet.
    pub(crate) fn with_parts<P: Parts>(
        &self,
        end: Lsn,
        about: Option<About>,
        parts: &P,
    ) -> TakenCommits
        ensures { result.commits ≡ self.now.stages_tally.commits
            ++ taken_commit end about (P.left parts.now) }
    {
        self.stages_commits.with_parts(&end, &about, parts)
    }

    /// Forgets what is staged after the position.
    pub(crate) fn unstage(&mut self, position: Lsn)
        ensures { self.new ≡ unstaged_of position self.old }
    {
        self.reach = position;
        self.lost = None;
        self.stages_commits = self.commits.same();
        self.stages_missed = self.missed;
    }

    /// One commit more is staged, with which these are the commits and the count.
    pub(crate) fn stage(&mut self, end: Lsn, commits: TakenCommits, misses: Misses)
        ensures { self.new
            ≡ staged_of end (record { misses = misses; commits = commits.commits }) self.old }
    {
        self.reach = end;
        self.stages_commits = commits;
        self.stages_missed = misses;
    }

    /// A commit is rejected, with this fault. Where that lost what was staged before it, all of it
    /// is lost.
    pub(crate) fn refuse(&mut self, is_first: bool, unstaged: Unstaged) -> StoreFault
        requires { unstaged.is_lost ≡ true → IsOwnFault unstaged.refusal }
        ensures fault { result ≡ unstaged.refusal }
        ensures group { self.new ≡ refused_of unstaged.is_lost is_first self.old }
    {
        let fault = StoreFault::from(unstaged.refusal);
        if unstaged.is_lost && !is_first {
            self.lost = Some(fault);
        }
        fault
    }

    /// What was staged is stored.
    pub(crate) fn settle(&mut self)
        ensures { self.new ≡ settled_of self.old }
    {
        self.lost = None;
        self.commits = self.stages_commits.same();
        self.missed = self.stages_missed;
    }

    /// A commit by itself is stored, with which these are the commits and the count.
    pub(crate) fn take(&mut self, end: Lsn, commits: TakenCommits, misses: Misses)
        ensures { self.new
            ≡ taken_of end (record { misses = misses; commits = commits.commits }) }
    {
        self.reach = end;
        self.lost = None;
        self.commits = commits.same();
        self.stages_commits = commits;
        self.stages_missed = misses;
        self.missed = self.stages_missed;
    }
}
