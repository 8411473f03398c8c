//! The form of the worked rows.

use pgsub_core::Fault;

/// A stored row of a table in `public`: its OID, its name, its cells, and its number of copies.
pub(crate) type Stored = (u32, &'static str, &'static [&'static str], u32);

/// What is done with a subscriber, or what must be found of it.
#[derive(Clone, Copy)]
pub(crate) enum Step {
    /// Follows sessions, each in the words of `messages`, with this result.
    Follow(&'static [&'static str], Result<(), Fault>),
    /// Feeds messages, with this result.
    Feed(&'static str, Result<(), Fault>),
    Disconnect,
    /// Appends a status with this clock; the flag asks for a reply.
    Status(i64, bool),
    ClearReplies,
    /// The replies that wait, in hexadecimal.
    Replies(&'static str),
    /// Position, confirmed and received.
    At(u64, u64, u64),
    /// How many changes found no row, and of the first one where its commit ends and the relation;
    /// both 0 where there was none.
    Misses(u64, u64, u32),
    /// All rows that are stored.
    Rows(&'static [Stored]),
}

/// Steps of a new subscriber over spools that hold so many bytes.
#[derive(Clone, Copy)]
pub(crate) struct Row {
    pub(crate) shows: &'static str,
    pub(crate) limit: u64,
    pub(crate) steps: &'static [Step],
}

/// A limit that no row meets.
pub(crate) const AMPLE: u64 = 1048576;

/// A length of chunks that no session has.
pub(crate) const AT_ONCE: usize = 1048576;

pub(crate) const T_1_A: Stored = (16384, "t", &["1", "a"], 1);

pub(crate) const T_1_E: Stored = (16384, "t", &["1", "e"], 1);

pub(crate) const T_1_L: Stored = (16384, "t", &["1", "l"], 1);

pub(crate) const T_2_B: Stored = (16384, "t", &["2", "b"], 1);

pub(crate) const T_2_M: Stored = (16384, "t", &["2", "m"], 1);
