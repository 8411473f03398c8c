//! What is noted of a commit.

ghost use Rattle.std.specs.Prelude.{◌≡◌};
ghost use Rattle.pgrepeats.specs.Past.{commit_at};

use crate::commit::Commit;
use crate::digest::Digest;

/// What is noted of a commit, and where the last one before it ends that changes something.
#[derive(Clone, Copy, Debug)]
pub(crate) struct Noted {
    pub(crate) lsn: u64,
    pub(crate) xid: u32,
    pub(crate) time: i64,
    pub(crate) digest: Digest,
    pub(crate) before: u64,
}

impl Noted {
    pub(crate) fn of(commit: Commit, before: u64) -> Noted
        ensures same { commit_at commit.end result ≡ commit }
        ensures before { result.before ≡ before }
    {
        Noted {
            lsn: commit.lsn,
            xid: commit.xid,
            time: commit.time,
            digest: commit.digest,
            before,
        }
    }

    pub(crate) fn commit(&self, end: u64) -> Commit
        ensures { result ≡ commit_at end self.now }
    {
        Commit {
            end,
            lsn: self.lsn,
            xid: self.xid,
            time: self.time,
            digest: self.digest,
        }
    }
}
