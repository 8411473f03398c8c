//! Laws of the definitions. Each is a function with no parameters and an empty body: its contract
//! is the law, and whoever calls it may cite it.

ghost use Rattle.pgfollow.specs.Told.{PartHasTaken, TakenBeforeFault};

/// All frames that are taken of a part, wherever feeding it stops, stand in the part, and in what
/// of it comes before a frame with a fault, if that isn't a refusal of the store's own.
pub fn parts_have_what_is_taken()
    ensures part { PartHasTaken }
    ensures before { TakenBeforeFault }
{}
