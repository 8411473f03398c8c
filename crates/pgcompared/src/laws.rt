//! What is told of sessions means this of messages and of histories. The functions do nothing:
//! their contracts are the laws.

ghost use Rattle.pgcompared.specs.HeardSessions.{SessionsAreHeard};
ghost use Rattle.pgcompared.specs.Laws.{EndedAreCommits, LivesAreNotContradicted};
ghost use Rattle.pgcompared.specs.Laws.{SessionsAreNotContradicted};
ghost use Rattle.pgcompared.specs.Lives.{FramesAreNotContradicted, LivesAreHeard};

/// The frames of a session that isn't lost are heard message by message, and the transactions that
/// commit are told of.
pub fn sessions_are_heard()
    ensures { SessionsAreHeard }
{}

/// The transactions that are compared are those that commit with a session's messages, with the
/// changes that survive.
pub fn ended_are_commits()
    ensures { EndedAreCommits }
{}

/// No alarm is false: no commit of a session of the history of which the noted ones are is
/// contradicted.
pub fn sessions_are_not_contradicted()
    ensures { SessionsAreNotContradicted }
{}

/// Nor is one of a whole life of sessions, each of which starts at most where the store is,
/// whatever is lost of what was noted up to where it was at first.
pub fn lives_are_not_contradicted()
    ensures { LivesAreNotContradicted }
{}

/// All frames of a life are heard, where no session is lost: message by message, and the
/// transactions that commit are told of, and nothing else.
pub fn lives_are_heard()
    ensures { LivesAreHeard }
{}

/// So nothing is found of frames that carry sessions of one history, be what was noted before all
/// that came of it or not.
pub fn frames_are_not_contradicted()
    ensures { FramesAreNotContradicted }
{}
