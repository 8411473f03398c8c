//! The newest commits that came, and what is said of one that comes.

ghost use Rattle.std.specs.Prelude.{◌≡◌, ◌≢◌, ◌<◌, ◌≤◌, ◌==◌, Some, None, true, length};
ghost use Rattle.std.specs.Prelude.{OnOk, IfErr};
ghost use Rattle.std.specs.Bool.{OnTrue};
ghost use Rattle.pgrepeats.specs.Past.{BeginsAt, Forgets, IsFirstForgotten};
ghost use Rattle.pgrepeats.specs.Past.{Answers, DiffersIn, IsFirst, IsForgotten, IsLeftOut};
ghost use Rattle.pgrepeats.specs.Past.{NoneIsLeftOut, Notes, Readies, commit_at, must_come};
ghost use Rattle.pgrepeats.specs.Past.{noted_at};

use crate::commit::Commit;
use crate::fault::{Contradiction, Part, Trouble};
use crate::noted::Noted;
use crate::ring::Ring;
use pglsn::Lsn;
use std::alloc::Global;

/// FrozenTransactionId, which is no transaction's: so the connector marks rows that it puts into a
/// stream.
///
/// PostgreSQL documentation, Preventing Transaction ID Wraparound Failures.
const CONNECTORS_XID: u32 = 2;

/// What is answered of a commit.
#[derive(Clone, Copy, Debug, PartialEq, Eq)]
pub enum Answer {
    /// It ends above all that came. It is noted.
    New,
    /// It came before.
    Equal,
    /// Nothing is known of it: it may have come before or not.
    Unknown,
}

/// Commits that came, by where they end: of those that change something all that end above `since`,
/// up to `newest`.
#[derive(Drop)]
pub struct Past {
    limit: usize,
    commits: Ring,
    since: u64,
    newest: u64,
    /// Where the newest one ends that changes something.
    changed: u64,
    /// Where the session's last one ends.
    last: Option<u64>,
    forgotten: u64,
    unknown: u64,
}

impl Past {
    /// None has come. At most so many are noted.
    pub fn new(alloc: Global, limit: usize) -> Past
        ensures { IsFirst limit result }
    {
        Past {
            limit,
            commits: Ring::new(alloc),
            since: 0,
            newest: 0,
            changed: 0,
            last: None,
            forgotten: 0,
            unknown: 0,
        }
    }

    /// How many are noted.
    pub fn len(&self) -> usize
        ensures { result ≡ length self.now.commits }
    {
        self.commits.len()
    }

    /// Whether none is noted.
    pub fn is_empty(&self) -> bool
        ensures { result ≡ (length self.now.commits == 0) }
    {
        self.commits.is_empty()
    }

    /// Where the newest one ends that came, 0 before the first.
    pub fn newest(&self) -> u64
        ensures { result ≡ self.now.newest }
    {
        self.newest
    }

    /// How many were forgotten.
    pub fn forgotten(&self) -> u64
        ensures { result ≡ self.now.forgotten }
    {
        self.forgotten
    }

    /// Of how many nothing was known.
    pub fn unknown(&self) -> u64
        ensures { result ≡ self.now.unknown }
    {
        self.unknown
    }

    /// The next session starts.
    pub fn begin_session(&mut self)
        ensures { self.new ≡ record self.old { last = None } }
    {
        self.last = None;
    }

    /// Forgets all.
    pub fn forget(&mut self)
        ensures { IsForgotten self.old self.new }
    {
        self.forgotten = self.forgotten.saturating_add(self.commits.len() as u64);
        self.commits.clear();
        self.since = self.newest;
        self.changed = 0;
        self.last = None;
    }

    /// Forgets all, and where the newest one ended: the next one is the first that comes.
    pub fn restart(&mut self)
        ensures { IsFirst self.old.limit self.new }
    {
        self.forget();
        self.newest = 0;
        self.since = 0;
    }

    /// Hears the next commit of a session, and notes it where it is new.
    ///
    /// # Errors
    ///
    /// It isn't of one history with those that came before, or memory has run out.
    pub fn hear(&mut self, commit: Commit) -> Result<Answer, Trouble>
        ensures { Answers self.old commit self.new result }
    {
        match self.noted(commit.end) {
            Some(noted) => self.again(noted, commit),
            None => self.unnoted(commit),
        }
    }

    // A commit with an end that isn't noted.
    fn unnoted(&mut self, commit: Commit) -> Result<Answer, Trouble>
        requires { noted_at self.old commit.end ≡ None }
        ensures { Answers self.old commit self.new result }
    {
        if self.newest < commit.end {
            return self.first(commit);
        }
        if self.since < commit.end && must_come(&commit) {
            return Err(Trouble::Contradicted(Contradiction::Inserted {
                end: Lsn(commit.end),
            }));
        }
        self.unknown = self.unknown.saturating_add(1);
        self.last = Some(commit.end);
        Ok(Answer::Unknown)
    }

    fn noted(&self, end: u64) -> Option<Noted>
        ensures { result ≡ noted_at self.now end }
    {
        self.commits.get(end)
    }

    // A commit with an end that is noted.
    fn again(&mut self, noted: Noted, commit: Commit) -> Result<Answer, Trouble>
        requires { noted_at self.old commit.end ≡ Some noted }
        ensures { Answers self.old commit self.new result }
    {
        let before = noted.commit(commit.end);
        if before != commit {
            return Err(Trouble::Contradicted(Contradiction::Another {
                end: Lsn(commit.end),
                part: part_of(before, commit),
            }));
        }
        self.check_left_out(noted.before)?;
        self.last = Some(commit.end);
        Ok(Answer::Equal)
    }

    // Whether one that ends here is left out between the session's last commit and what comes.
    fn check_left_out(&self, end: u64) -> Result<(), Trouble>
        ensures ok { OnOk result (NoneIsLeftOut self.now.last end) }
        ensures err { IfErr result (λ t. (t ≡ Trouble.Contradicted (Contradiction.LeftOut end))
            × IsLeftOut self.now.last end) }
    {
        match self.last {
            Some(last) if last < end => Err(Trouble::Contradicted(Contradiction::LeftOut {
                end: Lsn(end),
            })),
            _ => Ok(()),
        }
    }

    // A commit above all that came.
    fn first(&mut self, commit: Commit) -> Result<Answer, Trouble>
        requires { (noted_at self.old commit.end ≡ None) × (self.old.newest < commit.end) }
        ensures { Answers self.old commit self.new result }
    {
        if commit.lsn < self.newest {
            return Err(Trouble::Contradicted(Contradiction::Overlaps {
                lsn: Lsn(commit.lsn),
                end: Lsn(self.newest),
            }));
        }
        self.check_left_out(self.changed)?;
        self.make_room(commit);
        self.note(commit)
    }

    // Forgets what has to be forgotten before a new commit is noted.
    fn make_room(&mut self, commit: Commit)
        requires { self.old.newest < commit.end }
        ensures { Readies self.old commit self.new }
    {
        self.forget_some(commit.xid);
        self.begin_at(commit.end);
    }

    fn forget_some(&mut self, xid: u32)
        ensures { Forgets self.old xid self.new }
    {
        if xid == CONNECTORS_XID {
            self.forget();
        } else if !self.commits.is_empty() && self.limit <= self.commits.len() {
            self.forget_first();
        }
    }

    fn forget_first(&mut self)
        requires { 0 < length self.old.commits }
        ensures { IsFirstForgotten self.old self.new }
    {
        let Some((end, _)) = self.commits.pop_first() else {
            return;
        };
        self.since = end;
        self.forgotten = self.forgotten.saturating_add(1);
    }

    // Where none is noted, what is noted begins here.
    fn begin_at(&mut self, end: u64)
        ensures { BeginsAt self.old end self.new }
    {
        if self.commits.is_empty() {
            self.since = end;
        }
    }

    // Notes a commit.
    fn note(&mut self, commit: Commit) -> Result<Answer, Trouble>
        ensures { Notes self.old commit self.new result }
    {
        let noted = Noted::of(commit, self.changed);
        let Ok(_) = self.commits.push(commit.end, noted) else {
            return Err(Trouble::Memory);
        };
        self.newest = commit.end;
        self.last = Some(commit.end);
        if must_come(&commit) {
            self.changed = commit.end;
        }
        Ok(Answer::New)
    }
}

// Whether no session leaves it out between others.
fn must_come(commit: &Commit) -> bool
    ensures { result ≡ must_come commit.now }
{
    0 < commit.digest.changes && commit.xid != CONNECTORS_XID
}

// In what two commits with one end differ.
fn part_of(before: Commit, commit: Commit) -> Part
    requires { (before ≢ commit) × (before.end ≡ commit.end) }
    ensures { DiffersIn result before commit }
{
    if before.lsn != commit.lsn {
        Part::Lsn
    } else if before.xid != commit.xid {
        Part::Xid
    } else if before.time != commit.time {
        Part::Time
    } else {
        Part::Changes
    }
}
