//! Why a recording can't be read.

ghost use Rattle.std.specs.Prelude.{◌≡◌};

use std::alloc::AllocFailed;
use thiserror::Error;

/// Why a recording can't be read.
#[derive(Clone, Copy, Debug, PartialEq, Eq, Error)]
pub enum CaptureFault {
    /// The line with this number, counted from 1, is neither empty, nor a comment, nor `--`, nor
    /// an even number of hexadecimal digits.
    #[error("capture line {0}: not hexadecimal")]
    NotHexadecimal(usize),
    /// Out of memory.
    #[error("memory")]
    Memory,
}

impl<T: Drop> From<AllocFailed<T>> for CaptureFault {
    ghost use Rattle.pgcapture.specs.declared.fault.CaptureFault.TheVariants.{Memory};

    ghost from_gives = { λ _ fault. fault ≡ Memory };

    fn from(_error: AllocFailed<T>) -> CaptureFault {
        CaptureFault::Memory
    }
}
