//! The changes of a commit that come part after part.

ghost use Rattle.std.specs.Prelude.{◌≡◌, ◌<◌, ◌++◌, ℕ, List, [], true, false, IfOk, IfErr};
ghost use Rattle.pgapply.specs.Apply.{Change};
ghost use Rattle.pgapply.specs.Parts.{AreSteps};
ghost use Rattle.pgapply.specs.Stored.{IsOwnFault};

use crate::fault::StoreFault;
use crate::work::Work;

/// The changes of one commit, part after part, for a commit whose changes are too many to be in
/// memory at once. It begins before the first part.
pub trait Parts {
    /// The changes of this part.
    ghost here: { Self → List Change };

    /// Those of the parts behind it.
    ghost left: { Self → List Change };

    /// No more parts than these are left, whatever they are.
    ghost most_left: { Self → ℕ };

    /// All that it gave is what was put into it. Once this fails it never holds again.
    ghost is_honest: { Self → Type 0 };

    /// Calls of this trait led from the one to the other.
    ghost leads: { Self → Self → Type 0 };

    /// Goes on to the next part. False where all parts were given.
    ///
    /// # Errors
    ///
    /// `Memory`, and `Refused` where the part can't be had; who made the parts knows why.
    fn advance(&mut self) -> Result<bool, StoreFault>
        ensures part { is_honest self.new → IfOk result (λ is_there. is_there ≡ true →
            left self.old ≡ here self.new ++ left self.new) }
        ensures end { is_honest self.new → IfOk result (λ is_there. is_there ≡ false →
            left self.old ≡ []) }
        ensures fewer { IfOk result (λ is_there. is_there ≡ true →
            most_left self.new < most_left self.old) }
        ensures leads { leads self.old self.new }
        ensures fault { IfErr result IsOwnFault };

    /// The changes of this part, in their order.
    ///
    /// # Errors
    ///
    /// Those of `advance`.
    fn part(&self) -> Result<Work<'_>, StoreFault>
        ensures changes { is_honest self.now → IfOk result (λ work.
            work.changes ≡ here self.now) }
        ensures fault { IfErr result IsOwnFault };

    /// How many changes the parts had that were given, at most 2^64 - 1. No clause speaks of it.
    fn given(&self) -> u64;

    /// Steps lead on, and none leads back to what is honest.
    ghost steps: { AreSteps leads is_honest };
}
