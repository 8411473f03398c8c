//! What a watch knows of a session's commits and keepalives, and of the pair that is under way.
ghost use Rattle.std.specs.Prelude.{◌≡◌};
ghost use Rattle.pgwatch.specs.Hearing.{first_facts, begun, change_noted, keepalive_noted};
ghost use Rattle.pgwatch.specs.Hearing.{misplaced, commit_judged, Judges};
ghost use Rattle.pgwatch.specs.Hearing.{described_judged, told_judged};

use crate::fault::Breach;
use pglsn::Lsn;

/// A change of a relation that isn't described.
#[derive(Clone, Copy, Debug)]
pub(crate) struct Missing {
    /// The relation.
    pub(crate) oid: u32,
    /// The frame of the change.
    pub(crate) at: u64,
}

/// What is known of a session, but for the relations.
#[derive(Clone, Copy, Debug)]
pub(crate) struct Facts {
    /// Where the session starts.
    pub(crate) start: Lsn,
    /// The end of the last commit, and its frame.
    pub(crate) last_end: Lsn,
    pub(crate) last_at: u64,
    /// The greatest end of a keepalive, and its frame.
    pub(crate) told: Lsn,
    pub(crate) told_at: u64,
    /// Of the pair that is under way: its first change of a relation that isn't described, and
    /// whether it changes rows.
    pub(crate) missing: Option<Missing>,
    pub(crate) changes: bool,
}

impl Facts {
    /// At the start of a session.
    pub(crate) fn new(start: Lsn) -> Facts
        ensures { result ≡ first_facts start }
    {
        Facts {
            start,
            last_end: Lsn(0),
            last_at: 0,
            told: Lsn(0),
            told_at: 0,
            missing: None,
            changes: false,
        }
    }

    /// A pair begins.
    pub(crate) fn begin(&mut self)
        ensures { self.new ≡ begun self.old }
    {
        self.missing = None;
        self.changes = false;
    }

    /// A change comes. `unknown` is the first relation that it names and that isn't described,
    /// `names_any` says whether it names one.
    pub(crate) fn change(&mut self, at: u64, unknown: Option<u32>, names_any: bool)
        ensures { self.new ≡ change_noted self.old at unknown names_any }
    {
        if let (None, Some(oid)) = (self.missing, unknown) {
            self.missing = Some(Missing { oid, at });
        }
        self.changes = self.changes || names_any;
    }

    /// A keepalive comes.
    pub(crate) fn keepalive(&mut self, at: u64, end: Lsn)
        ensures { self.new ≡ keepalive_noted self.old at end }
    {
        if self.told.0 < end.0 {
            self.told = end;
            self.told_at = at;
        }
    }

    // Why a commit with these LSNs isn't in its place.
    fn misplaced(&self, at: u64, lsn: Lsn, end: Lsn) -> Option<Breach>
        ensures { result ≡ misplaced self.now at lsn end }
    {
        if lsn.0 < self.last_end.0 {
            return Some(Breach::BelowCommit {
                at,
                lsn,
                cause: self.last_at,
                end: self.last_end,
            });
        }
        if end.0 <= lsn.0 {
            return Some(Breach::EndNotAbove { at, lsn, end });
        }
        if end.0 <= self.start.0 {
            return Some(Breach::BelowStart {
                at,
                end,
                start: self.start,
            });
        }
        None
    }

    /// The pair commits, or breaks a rule.
    pub(crate) fn commit(&mut self, at: u64, lsn: Lsn, end: Lsn) -> Result<(), Breach>
        ensures { Judges (commit_judged self.old at lsn end) self.new result }
    {
        match self.misplaced(at, lsn, end) {
            Some(breach) => Err(breach),
            None => self.described(at, end),
        }
    }

    // What is left to judge of a commit that ends in its place.
    fn described(&mut self, at: u64, end: Lsn) -> Result<(), Breach>
        ensures { Judges (described_judged self.old at end self.old.missing) self.new result }
    {
        match self.missing {
            Some(missing) => Err(Breach::Undescribed {
                at,
                cause: missing.at,
                oid: missing.oid,
            }),
            None => self.above_keepalives(at, end),
        }
    }

    fn above_keepalives(&mut self, at: u64, end: Lsn) -> Result<(), Breach>
        ensures { Judges (told_judged self.old at end) self.new result }
    {
        if self.changes && end.0 <= self.told.0 {
            return Err(Breach::BelowKeepalive {
                at,
                end,
                cause: self.told_at,
                told: self.told,
            });
        }
        self.last_end = end;
        self.last_at = at;
        Ok(())
    }
}
