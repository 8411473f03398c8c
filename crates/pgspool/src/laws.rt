//! What holds of cuts and costs, whatever is buffered.
ghost use Rattle.pgspool.specs.Laws.{CutIsLongestFront, CutTwiceIsCutOnce, CutsCommute};
ghost use Rattle.pgspool.specs.Laws.{CutTakesNothingUnseen, CostsNeverGrow, CostsAddUp};
ghost use Rattle.pgspool.specs.Laws.{AllCostsChange, AllCostsShrink, ClosedStaysClosed};

/// A cut leaves the longest front without an item under the label. So to cut twice is to cut once,
/// the order of two cuts is free, and a label that no item has takes nothing away.
pub fn cuts_leave_longest_front()
    ensures longest { CutIsLongestFront }
    ensures once { CutTwiceIsCutOnce }
    ensures any_order { CutsCommute }
    ensures unseen { CutTakesNothingUnseen }
{}

/// A cut never makes items cost more, and what is kept and what is cut away cost together what was
/// buffered.
pub fn cuts_split_costs()
    ensures never_grow { CostsNeverGrow }
    ensures add_up { CostsAddUp }
{}

/// The costs of all items follow each change of one transaction's items, and nothing changes where
/// the one that is dropped isn't open.
pub fn all_costs_follow()
    ensures changed { AllCostsChange }
    ensures dropped { AllCostsShrink }
    ensures closed { ClosedStaysClosed }
{}
