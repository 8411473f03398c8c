//! What shows that a server's commits aren't those that it sent before.

use pglsn::Lsn;
use thiserror::Error;

/// In what a commit differs from the one that came before.
#[derive(Clone, Copy, Debug, PartialEq, Eq, Error)]
pub enum Part {
    #[error("LSN")]
    Lsn,
    #[error("xid")]
    Xid,
    #[error("time")]
    Time,
    #[error("list of changes")]
    Changes,
}

/// How a commit isn't of one history with those that came before it.
#[derive(Clone, Copy, Debug, PartialEq, Eq, Error)]
pub enum Contradiction {
    /// The commit that ends there was another one.
    #[error("the commit that ends at {end} came before with another {part}")]
    Another { end: Lsn, part: Part },
    /// No commit ended there, and ones before and behind it came.
    #[error("the commit that ends at {end} wasn't between those that came before")]
    Inserted { end: Lsn },
    /// The commit that ends here came before, with changes, and is left out.
    #[error("the commit that ends at {end} came before and is left out")]
    LeftOut { end: Lsn },
    /// The commit begins before the end of one that came before and ends before it.
    #[error("a commit's LSN {lsn} is below the end {end} of one that came before")]
    Overlaps { lsn: Lsn, end: Lsn },
}

/// Why a commit isn't taken.
#[derive(Clone, Copy, Debug, PartialEq, Eq, Error)]
pub enum Trouble {
    /// It isn't of one history with those before.
    #[error("{0}")]
    Contradicted(Contradiction),
    /// Memory has run out.
    #[error("memory")]
    Memory,
}
