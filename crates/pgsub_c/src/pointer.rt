//! A subscriber's pointer, as C keeps it.

ghost use Rattle.std.specs.Prelude.{◌≡◌, Some, None, Option, IsSome};
ghost use Rattle.std.specs.Coded.{coded_option};
ghost use Rattle.std_alloc.specs.Box.Ownership.{box_owns};
ghost use Rattle.pgembed.specs.InMemory.{in_memory_row};
ghost use Rattle.pgembed.specs.InMemory as specs;
ghost use Rattle.pgsub_c.specs.Held.{heap_block, held};

use crate::loose::Loose;
use pgembed::InMemory;
use std::alloc::Global;
use std::marker::Model;

/// The pointer of a box with a subscriber, or one that owns nothing. C sees no more of it. It can't
/// be dropped, so that what it owns isn't lost.
#[repr(C)]
pub struct Pointer {
    at: *mut u8,
    pub ghost value: { Option specs.InMemory } by { coded_option in_memory_row.coded },
}

impl Model for Pointer {
    ghost also_owns = { λ p. held (box_owns heap_block in_memory_row p.at) p.value };
}

impl Pointer {
    /// The pointer of this box.
    pub(crate) fn of(loose: Loose<InMemory, Global>) -> Pointer
        ensures { result.value ≡ Some loose.value }
    {
        let Loose { at, alloc } = loose;
        Pointer { at: at as *mut u8 }
    }

    /// The box again.
    pub(crate) fn into_loose(self, alloc: Global) -> Loose<InMemory, Global>
        requires { IsSome self.value }
        ensures { self.value ≡ Some result.value }
    {
        let Pointer { at } = self;
        Loose {
            at: at as *mut InMemory,
            alloc,
        }
    }

    /// A pointer to nothing.
    pub(crate) fn nothing() -> Pointer
        ensures { result.value ≡ None }
    {
        Pointer {
            at: std::ptr::null_mut(),
        }
    }

    /// Lets a pointer to nothing go.
    pub(crate) fn let_go(self)
        requires { self.value ≡ None }
    {
        let Pointer { at } = self;
    }
}
