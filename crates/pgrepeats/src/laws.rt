//! What the answers mean. The functions do nothing: their contracts are the laws.

ghost use Rattle.pgrepeats.specs.Laws.{AnswersKeepThePast, HistoriesAreNotContradicted};
ghost use Rattle.pgrepeats.specs.Laws.{SessionsKeepThePast};

/// No alarm is false: a session of the history of which the noted commits are isn't contradicted.
pub fn histories_are_not_contradicted()
    ensures { HistoriesAreNotContradicted }
{}

/// With each commit that is answered, what is noted stays that of the history.
pub fn answers_keep_the_past()
    ensures { AnswersKeepThePast }
{}

/// So it is at first, after all is forgotten, and where the next session starts at most where all
/// has come that must come.
pub fn sessions_keep_the_past()
    ensures { SessionsKeepThePast }
{}
