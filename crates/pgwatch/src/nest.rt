//! Which items of a streamed transaction survive.
ghost use Rattle.std.specs.Prelude.{◌≡◌, ◌≢◌, Some, None, Ok, Err, IfOk, IfErr, reverse, ◌∷◌};
ghost use Rattle.std.specs.Bool.{OnTrue, OnFalse};
ghost use Rattle.pgwatch.specs.Nesting.{at_end, path_to, nested, survived, abort_nested};
ghost use Rattle.pgwatch.specs.Nesting.{item_nested, unnested};

use crate::known::Known;
use crate::noted::{Noted, What};
use std::alloc::{AllocError, Global};
use std::marker::Model;

/// Why a streamed transaction's items can't be read.
#[derive(Clone, Copy, Debug)]
pub(crate) enum Misfit {
    /// The item or abort of this frame and subtransaction is nested in nothing.
    Unnested { cause: u64, subxid: u32 },
    /// Memory has run out.
    Memory,
}

/// What is known of a part of a streamed transaction, from its end on.
#[derive(Drop)]
pub(crate) struct Nest {
    alloc: Global,
    path: Vec<u32>,
    seen: Known,
    undone: Known,
    surviving: Vec<Noted>,
}

impl Model for Nest {
    ghost use Rattle.std.specs.Prelude.{reverse};
    ghost use Rattle.pgwatch.specs.Nesting.{Nesting, nesting_code};

    ghost Value = { Nesting };

    ghost coded = { nesting_code };

    ghost view = { λ n. record {
      path = reverse n.path.items;
      seen = n.seen;
      undone = n.undone;
      surviving = reverse n.surviving.items;
    } };
}

impl Nest {
    // At the end of a transaction.
    fn new(alloc: Global, xid: u32) -> Result<Nest, AllocError>
        ensures { IfOk result (λ n. n ≡ at_end xid) }
    {
        let mut path = Vec::with_capacity(alloc, 1)?;
        let Ok(()) = path.push(xid) else {
            return Err(AllocError);
        };
        let mut seen = Known::new(alloc);
        let Ok(()) = seen.insert(xid) else {
            return Err(AllocError);
        };
        Ok(Nest {
            alloc,
            path,
            seen,
            undone: Known::new(alloc),
            surviving: Vec::new(alloc),
        })
    }

    // What comes before the part.
    fn add(&mut self, noted: Noted) -> Result<(), Misfit>
        ensures ok { IfOk result (λ _. nested self.old noted ≡ Some self.new) }
        ensures err { IfErr result (λ m. m ≢ Misfit.Memory → (nested self.old noted ≡ None)
            × (m ≡ Misfit.Unnested noted.at noted.subxid)) }
    {
        match noted.what {
            What::Abort => self.abort(noted.at, noted.subxid),
            _ => self.item(noted),
        }
    }

    // An item.
    fn item(&mut self, noted: Noted) -> Result<(), Misfit>
        ensures ok { IfOk result (λ _. item_nested self.old noted ≡ Some self.new) }
        ensures err { IfErr result (λ m. m ≢ Misfit.Memory → (item_nested self.old noted ≡ None)
            × (m ≡ Misfit.Unnested noted.at noted.subxid)) }
    {
        let subxid = noted.subxid;
        if self.undone.contains(subxid) {
            return Ok(());
        }
        if self.seen.contains(subxid) && !leave_to(&mut self.path, subxid) {
            return Err(Misfit::Unnested {
                cause: noted.at,
                subxid,
            });
        }
        self.survive(noted)
    }

    // An item that survives; the path has those in which its subtransaction is.
    fn survive(&mut self, noted: Noted) -> Result<(), Misfit>
        ensures ok { IfOk result (λ _. survived self.old noted (Some (noted.subxid ∷ self.old.path))
            ≡ Some self.new) }
        ensures err { IfErr result (λ m. m ≡ Misfit.Memory) }
    {
        let subxid = noted.subxid;
        let pushed = self.path.push(subxid).is_ok();
        let known = self.seen.insert(subxid).is_ok();
        self.undone = Known::new(self.alloc);
        let kept = self.surviving.push(noted).is_ok();
        if pushed && known && kept {
            Ok(())
        } else {
            Err(Misfit::Memory)
        }
    }

    // The abort of a subtransaction.
    fn abort(&mut self, at: u64, subxid: u32) -> Result<(), Misfit>
        ensures ok { IfOk result (λ _. abort_nested self.old subxid ≡ Some self.new) }
        ensures err { IfErr result (λ m. m ≢ Misfit.Memory → (abort_nested self.old subxid ≡ None)
            × (m ≡ Misfit.Unnested at subxid)) }
    {
        if self.undone.contains(subxid) {
            return Ok(());
        }
        if self.seen.contains(subxid) {
            return Err(Misfit::Unnested { cause: at, subxid });
        }
        if self.seen.insert(subxid).is_err() || self.undone.insert(subxid).is_err() {
            return Err(Misfit::Memory);
        }
        Ok(())
    }
}

// Leaves the subtransactions of a path up to this one, and this one; tells whether it is there.
fn leave_to(path: &mut Vec<u32>, xid: u32) -> bool
    ensures left { OnTrue result (path_to xid (reverse path.old.items)
        ≡ Some (xid ∷ reverse path.new.items)) }
    ensures absent { OnFalse result (path_to xid (reverse path.old.items) ≡ None) }
{
    while let Some(last) = path.pop() {
        if last == xid {
            return true;
        }
    }
    false
}

#[tactic(auto, using(crate::proofs::Nests::nest_last, crate::proofs::Nests::nest_misfit))]
/// What survives of a streamed transaction, the last item first.
pub(crate) fn unnest(alloc: Global, xid: u32, noted: Vec<Noted>) -> Result<Vec<Noted>, Misfit>
    ensures ok { IfOk result (λ v. unnested xid noted.items ≡ Ok (reverse v.items)) }
    ensures err { IfErr result (λ m. m ≢ Misfit.Memory → unnested xid noted.items ≡ Err m) }
{
    let Ok(mut nest) = Nest::new(alloc, xid) else {
        return Err(Misfit::Memory);
    };
    let mut left = noted;
    while let Some(last) = left.pop() {
        nest.add(last)?;
    }
    let Nest { surviving, .. } = nest;
    Ok(surviving)
}
