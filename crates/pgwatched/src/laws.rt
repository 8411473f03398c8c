//! Laws of the definitions. Each is a function with no parameters and an empty body: its contract
//! is the law.

ghost use Rattle.pgwatched.specs.Laws.{WellMayBeSent, FramesAreASession, BrokenIsNotSent};
ghost use Rattle.pgwatched.specs.Laws.{BrokenIsNoSession};
ghost use Rattle.pgwatched.specs.Causes.{BreachesAreCaused};
ghost use Rattle.pgwatched.specs.Nested.{NestedIsStreamed, MisfitIsNotStreamed};

/// Where a watch says Ok to each message of a session so far, a well-formed server may have sent
/// these of some history (`sent`). So their frames are a session of it (`frames`), and what
/// `pgsub_core::follow` promises of sessions of a history holds of them.
///
/// PostgreSQL documentation, Logical Streaming Replication Protocol.
pub fn well_may_be_sent()
    ensures sent { WellMayBeSent }
    ensures frames { FramesAreASession }
{}

/// Where it names a rule at a frame, no history has a session that begins with the messages up to
/// this one, whatever would come after it (`sent`, and of bytes `frames`); up to the one before,
/// `well_may_be_sent` has one.
///
/// PostgreSQL documentation, Logical Streaming Replication Protocol.
pub fn broken_is_not_sent()
    ensures sent { BrokenIsNotSent }
    ensures frames { BrokenIsNoSession }
{}

/// What a breach tells: the frame with which it is found, and of the order of commits, of changes
/// that aren't described, of keepalives and of what isn't nested the frame that came before it and
/// doesn't fit.
///
/// PostgreSQL documentation, Logical Streaming Replication Protocol.
pub fn breaches_are_caused()
    ensures { BreachesAreCaused }
{}

/// Which items and aborts a streamed transaction may have come as: those that are nested are of
/// some work (`streamed`); where one doesn't fit, they are of none (`misfit`).
///
/// PostgreSQL documentation, Logical Streaming Replication Protocol.
pub fn nested_is_streamed()
    ensures streamed { NestedIsStreamed }
    ensures misfit { MisfitIsNotStreamed }
{}
