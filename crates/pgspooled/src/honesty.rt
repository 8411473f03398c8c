//! A mark that only clauses read.

ghost use Rattle.std.specs.Prelude.{◌≡◌, ◌&&◌, Bool, true};
ghost use Rattle.std.specs.Borrow.{ftrue};

use pgspool::Spools;
use std::marker::{Model, PhantomData};

/// Whether all spools that were noted had given back what was written to them.
///
/// It has no bytes and no code reads it, so a reader has to trust that `new` and `note`, which set
/// it alone, say by their clauses what is meant. That `load_beside` notes after each load is a
/// clause of its own, and proved.
#[derive(Drop)]
pub struct Honesty {
    nothing: PhantomData<u8>,
    /// They had.
    pub ghost is_true: { Bool },
}

impl Model for Honesty {
    ghost also_owns = { λ _. ftrue };
}

impl Honesty {
    /// Nothing was noted yet.
    pub fn new() -> Honesty
        ensures { result.is_true ≡ true }
    {
        Honesty {
            nothing: PhantomData,
        }
    }

    /// Notes whether these spools have given back what was written to them. Once they haven't, it
    /// is never true again.
    pub fn note<P: Spools>(&mut self, _spools: &P)
        ensures { self.new.is_true ≡ self.old.is_true && P.is_honest _spools.now }
    {}
}
