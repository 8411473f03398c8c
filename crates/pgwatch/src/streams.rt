//! What is kept of the streamed transactions that are open.
ghost use Rattle.std.specs.Prelude.{◌≡◌, ◌≢◌, Ok, Err, IfOk, IfErr, OnOk, OnErr, reverse};
ghost use Rattle.std.specs.Prelude.{[], ◌∷◌, ◌++◌, length};
ghost use Rattle.pgwatch.specs.Nesting.{unnested, of_xid, without_xid};

use crate::nest::{Misfit, unnest};
use crate::noted::Noted;
use std::alloc::{AllocError, Global};
use std::marker::Model;
use std::mem::replace;

/// The items and aborts of all open transactions, in the order in which they came.
#[derive(Drop)]
pub(crate) struct Streams {
    alloc: Global,
    noted: Vec<Noted>,
}

impl Model for Streams {
    ghost use Rattle.std.specs.Prelude.{List};
    ghost use Rattle.pgwatch.specs.declared.noted.Noted.{Noted};

    ghost Value = { List Noted };

    ghost view = { λ s. s.noted.items };
}

impl Streams {
    /// None has come.
    pub(crate) fn new(alloc: Global) -> Streams
        ensures { result ≡ [] }
    {
        Streams {
            alloc,
            noted: Vec::new(alloc),
        }
    }

    /// The allocator.
    pub(crate) fn alloc(&self) -> Global {
        self.alloc
    }

    /// How many have come.
    pub(crate) fn len(&self) -> usize
        ensures { result ≡ length self.now }
    {
        self.noted.len()
    }

    /// One more has come. The one error is out of memory, and changes nothing.
    pub(crate) fn push(&mut self, noted: Noted) -> Result<(), AllocError>
        ensures ok { OnOk result (self.new ≡ self.old ++ noted ∷ []) }
        ensures err { OnErr result (self.new ≡ self.old) }
    {
        match self.noted.push(noted) {
            Ok(()) => Ok(()),
            Err(_) => Err(AllocError),
        }
    }

    /// Takes out those of a transaction.
    pub(crate) fn take(&mut self, xid: u32) -> Result<Vec<Noted>, AllocError>
        ensures taken { IfOk result (λ mine. mine.items ≡ of_xid xid self.old) }
        ensures left { OnOk result (self.new ≡ without_xid xid self.old) }
    {
        let all = replace(&mut self.noted, Vec::new(self.alloc));
        let mut mine = Vec::new(self.alloc);
        for noted in all {
            let pushed = if noted.xid == xid {
                mine.push(noted).is_ok()
            } else {
                self.noted.push(noted).is_ok()
            };
            if !pushed {
                return Err(AllocError);
            }
        }
        Ok(mine)
    }

    /// Takes out those of a transaction, and gives what survives of it, the last item first.
    pub(crate) fn unnest(&mut self, xid: u32) -> Result<Vec<Noted>, Misfit>
        ensures ok { IfOk result (λ v. unnested xid (of_xid xid self.old) ≡ Ok (reverse v.items)) }
        ensures err { IfErr result (λ m. m ≢ Misfit.Memory →
            unnested xid (of_xid xid self.old) ≡ Err m) }
        ensures left { OnOk result (self.new ≡ without_xid xid self.old) }
    {
        match self.take(xid) {
            Ok(mine) => unnest(self.alloc, xid, mine),
            Err(_) => Err(Misfit::Memory),
        }
    }
}
