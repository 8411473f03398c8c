//! The commits of sessions, told to what is noted.

ghost use Rattle.std.specs.Prelude.{◌≡◌, None, Some, true, false, ◌⊎◌, nat_le};
ghost use Rattle.pgrepeats.specs.Past.{Answers, Contradicts, IsForgotten};
ghost use Rattle.pgcompared.specs.declared.finding.Finding.TheVariants as finding;
ghost use Rattle.pgcompared.specs.Noting.{BeginsSession, ForgetsIf, HearsEnded, is_above};
ghost use Rattle.pgcompared.specs.Noting.{Restarts, Tells, equal_with, noted_by, noting_from};
ghost use Rattle.pgcompared.specs.Noting.{told_nothing};
ghost use Rattle.pgcompared.specs.Frames.{lost_at};

use crate::finding::{Finding, Lost};
use crate::session::Ended;
use pgrepeats::{Answer, Commit, Past, Trouble};

/// What is noted, and up to where commits came.
#[derive(Drop)]
pub(crate) struct Noting {
    pub(crate) past: Past,
    // up to here commits came that may not be noted
    reached: u64,
    // none that came is missing between what is noted and what the session sends above it
    is_whole: bool,
    equal: u64,
}

/// What is told of a frame.
#[derive(Clone, Copy, Debug)]
pub struct Told {
    /// All that was noted before is forgotten: a file of it is to be emptied, before `noted` is
    /// written to it.
    pub forgot: bool,
    /// The commit that is noted.
    pub noted: Option<Commit>,
    /// What is found.
    pub found: Option<Finding>,
}

impl Told {
    /// Nothing, but whether all is forgotten.
    pub fn nothing(forgot: bool) -> Told
        ensures { result ≡ told_nothing forgot }
    {
        Told {
            forgot,
            noted: None,
            found: None,
        }
    }

    /// The session isn't compared from the frame `at` on.
    pub(crate) fn lost(at: u64, why: Lost) -> Told
        ensures { result ≡ lost_at at why }
    {
        Told {
            forgot: false,
            noted: None,
            found: Some(Finding::Lost { at, why }),
        }
    }
}

impl Noting {
    /// This is all that came.
    pub(crate) fn new(mut past: Past) -> Noting
        ensures { result ≡ noting_from past 0 0 }
    {
        past.begin_session();
        Noting {
            past,
            reached: 0,
            is_whole: true,
            equal: 0,
        }
    }

    /// Before the first commit: others came up to here, which may not be noted.
    pub(crate) fn reach(&mut self, reached: u64)
        ensures { self.new ≡ record self.old {
          reached = reached;
          is_whole = nat_le reached self.old.past.newest;
        } }
    {
        self.reached = reached;
        self.is_whole = reached <= self.past.newest();
    }

    /// How many commits came before, just so.
    pub(crate) fn equal(&self) -> u64
        ensures { result ≡ self.now.equal }
    {
        self.equal
    }

    /// The next session begins. Of the last one's commits some aren't noted where it `forgets`,
    /// and nobody knows up to where these came.
    pub(crate) fn begin_session(&mut self, forgets: bool)
        ensures { BeginsSession forgets self.old self.new }
    {
        forget_if(&mut self.past, forgets);
        self.past.begin_session();
        let reached = if forgets { u64::MAX } else { self.reached };
        self.reach(reached);
    }

    /// Hears a transaction that commits with the frame `at`.
    ///
    /// Commits may have come that aren't noted: what was noted may have lost its end in a crash, or
    /// a run noted nothing. They end above all that is noted. Where a session's first commit ends
    /// there too, some before it may be missing, and all is forgotten. Where it ends at or below,
    /// the session sends each one behind it, those that aren't noted too.
    pub(crate) fn hear(&mut self, at: u64, ended: Ended) -> Told
        ensures { HearsEnded self.old at ended self.new result }
    {
        match ended {
            Ended::Over { end } => {
                self.reached = self.reached.max(end);
                self.is_whole = true;
                self.past.forget();
                Told::nothing(true)
            }
            Ended::Whole(commit) => {
                let forgot = self.is_above(commit);
                self.is_whole = true;
                forget_if(&mut self.past, forgot);
                self.tell(at, commit, forgot)
            }
        }
    }

    // Whether some that came may be missing between it and what is noted, below it.
    fn is_above(&self, commit: Commit) -> bool
        ensures { result ≡ is_above self.now commit }
    {
        !self.is_whole && self.past.newest() < commit.end
    }

    // Compares a commit.
    fn tell(&mut self, at: u64, commit: Commit, forgot: bool) -> Told
        ensures { Tells self.old at commit forgot self.new result }
    {
        match self.past.hear(commit) {
            Ok(answer) => self.answer(commit, answer, forgot),
            Err(Trouble::Contradicted(contradiction)) => {
                self.past.restart();
                match self.past.hear(commit) {
                    Ok(answer) => Told {
                        found: Some(Finding::Contradicted { at, contradiction }),
                        ..self.answer(commit, answer, true)
                    },
                    Err(_) => self.lose(at),
                }
            }
            Err(Trouble::Memory) => self.lose(at),
        }
    }

    // What comes of an answer.
    fn answer(&mut self, commit: Commit, answer: Answer, forgot: bool) -> Told
        ensures new { self.new ≡ record self.old { equal = equal_with answer self.old.equal } }
        ensures told { result ≡ record {
          forgot = forgot;
          noted = noted_by answer commit;
          found = None;
        } }
    {
        match answer {
            Answer::New => Told {
                noted: Some(commit),
                ..Told::nothing(forgot)
            },
            Answer::Equal => {
                self.equal = self.equal.saturating_add(1);
                Told::nothing(forgot)
            }
            Answer::Unknown => Told::nothing(forgot),
        }
    }

    // There is no memory to note more.
    fn lose(&mut self, at: u64) -> Told
        ensures new { Restarts self.old self.new }
        ensures told { result ≡ record (lost_at at Lost.Memory) { forgot = true } }
    {
        self.past.restart();
        Told {
            forgot: true,
            ..Told::lost(at, Lost::Memory)
        }
    }
}

// Forgets all, or nothing.
fn forget_if(past: &mut Past, forgets: bool)
    ensures { ForgetsIf forgets past.old past.new }
{
    if forgets {
        past.forget();
    }
}
