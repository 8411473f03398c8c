//! Laws of the definitions: what is found of a session means this of histories.

ghost use Rattle.pgrules.specs.Laws.{HeardIsASession, BreachIsNoSession, WatchedIsOfHistories};

/// What was heard before the end is a session of some history: all of the recorded one but what
/// comes after the last whole frame, or from the frame on at which the watch ends.
///
/// PostgreSQL documentation, Logical Streaming Replication Protocol.
pub fn heard_is_a_session()
    ensures { HeardIsASession }
{}

/// Where a rule is broken, no history has a session that begins with what was heard and the message
/// of the next frame, whatever comes later.
///
/// PostgreSQL documentation, Logical Streaming Replication Protocol.
pub fn breach_is_no_session()
    ensures { BreachIsNoSession }
{}

/// What is watched, piece by piece, is one session after the other, each a session of some history
/// as far as it is watched: up to its end, or to the frame that is told. Of what a reader that
/// watches hands on that is so, and where it stops, nothing is told that breaks a rule.
///
/// PostgreSQL documentation, Logical Streaming Replication Protocol.
pub fn watched_is_of_histories()
    ensures { WatchedIsOfHistories }
{}
