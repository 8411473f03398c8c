//! How a server that is followed is watched.

ghost use Rattle.std.specs.Prelude.{◌≡◌};
ghost use Rattle.pgcommand.specs.Asked.{watching_of};

/// What is done where a server breaks a rule that a well-formed one keeps.
#[derive(Clone, Copy, Debug, PartialEq, Eq)]
pub enum Watching {
    /// Standard error is told, and the server is followed all the same.
    Tell,
    /// Standard error is told, and the run ends before it takes the frame that breaks the rule.
    Stop,
}

/// The words for it.
pub(crate) const WATCHINGS: &str = "tell, stop";

impl Watching {
    /// What this word says, if it is one of these.
    pub(crate) fn of(word: &str) -> Option<Watching>
        ensures { result ≡ watching_of word.now }
    {
        match word {
            "tell" => Some(Watching::Tell),
            "stop" => Some(Watching::Stop),
            _ => None,
        }
    }
}
