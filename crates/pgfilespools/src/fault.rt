//! What a fault of the bytes is to the items.

ghost use Rattle.std.specs.Prelude.{◌≡◌};
ghost use Rattle.pgfilespools.specs.Faults.{told};

use pgspill::SpillFault;
use pgspool::SpoolFault;

/// What a fault of the bytes is to the items.
pub(crate) fn spool_fault(fault: SpillFault) -> SpoolFault
    ensures { result ≡ told fault }
{
    match fault {
        SpillFault::NotWritten => SpoolFault::NotWritten,
        SpillFault::NotRead => SpoolFault::NotRead,
        SpillFault::NoRoom => SpoolFault::NoRoom,
        SpillFault::Memory => SpoolFault::Memory,
    }
}
