//! Why a load isn't taken.

ghost use Rattle.std.specs.Prelude.{◌≡◌};
ghost use Rattle.pgload.specs.declared.fault.LoadFault.TheVariants.{Memory};
ghost use Rattle.pgload.specs.Faults.{fault_of_store, fault_of_wire};

use pgapply::StoreFault;
use pgcopy::Reason;
use pgwire::WireFault;
use thiserror::Error;

/// Why a load isn't taken. Out of memory in any part is `Memory`.
///
/// PostgreSQL documentation, COPY, File Formats, Text Format.
#[derive(Clone, Copy, Debug, PartialEq, Eq, Error)]
pub enum LoadFault {
    /// In the text of the table with this OID, the line with this number, counted from 1, and what
    /// is wrong with it.
    #[error("load 1 Line: table {0}, line {1}: {2}")]
    Line(u32, u64, Reason),
    /// The text of the table with this OID has the end-of-data marker.
    #[error("load 2 Marker: table {0}")]
    Marker(u32),
    /// The text of the table with this OID ends within a line.
    #[error("load 3 CutLine: table {0}")]
    CutLine(u32),
    /// A part that may not come there: a table, or the end, before the text of another has ended;
    /// text, or its end, outside of a table; anything after the end.
    #[error("load 4 Order")]
    Order,
    /// There are more batches than LSNs below each of a server's.
    #[error("load 5 TooManyBatches")]
    TooManyBatches,
    /// The point at which the load is to end is none of a server's.
    #[error("load 6 BadPoint")]
    BadPoint,
    /// The store isn't new: it has a position.
    #[error("load 7 NotNew")]
    NotNew,
    /// A frame of the input is no part of a load.
    #[error("load 8 BadInput")]
    BadInput,
    /// A frame of the input, its header or its payload.
    #[error(transparent)]
    Wire(WireFault),
    /// The store rejected a batch.
    #[error(transparent)]
    Store(StoreFault),
    /// Memory has run out.
    #[error("memory")]
    Memory,
}

/// Why a load from a reader isn't taken.
#[derive(Clone, Copy, Debug, PartialEq, Eq, Error)]
pub enum InputFault {
    /// The load itself has a fault.
    #[error(transparent)]
    Load(LoadFault),
    /// The reader ends before the load does.
    #[error("load 9 CutInput")]
    CutInput,
    /// A read failed.
    #[error("read")]
    Read,
}

/// Out of memory in the store is the load's own.
impl From<StoreFault> for LoadFault {
    ghost from_gives = { λ fault of. of ≡ fault_of_store fault };

    fn from(fault: StoreFault) -> LoadFault {
        match fault {
            StoreFault::Memory => LoadFault::Memory,
            fault => LoadFault::Store(fault),
        }
    }
}

/// Out of memory in the frames is the load's own.
impl From<WireFault> for LoadFault {
    ghost from_gives = { λ fault of. of ≡ fault_of_wire fault };

    fn from(fault: WireFault) -> LoadFault {
        match fault {
            WireFault::Memory => LoadFault::Memory,
            fault => LoadFault::Wire(fault),
        }
    }
}
