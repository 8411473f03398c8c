//! Why a session can't be shown further.

use pglogical::DecodeFault;
use pgorder::OrderFault;
use pgwire::WireFault;
use std::alloc::AllocError;
use thiserror::Error;

/// Why a session can't be shown further. Out of memory in any part is `Memory`.
#[derive(Clone, Copy, Debug, PartialEq, Eq, Error)]
pub enum Fault {
    /// A frame, its header or its payload.
    #[error(transparent)]
    Wire(WireFault),
    /// A logical message.
    #[error(transparent)]
    Decode(DecodeFault),
    /// The order of the messages.
    #[error(transparent)]
    Order(OrderFault),
    /// Memory has run out.
    #[error("memory")]
    Memory,
}

impl From<AllocError> for Fault {
    ghost use Rattle.std.specs.Prelude.{◌≡◌};
    ghost use Rattle.pgshow.specs.declared.fault.Fault.TheVariants as fault;

    ghost from_gives = { λ _ told. told ≡ fault.Memory };

    fn from(_error: AllocError) -> Fault {
        Fault::Memory
    }
}

/// Tells out of memory from the other faults.
impl From<WireFault> for Fault {
    ghost use Rattle.pgshow.specs.Steps.{IsWireFault};

    ghost from_gives = { λ fault told. IsWireFault fault told };

    fn from(fault: WireFault) -> Fault {
        match fault {
            WireFault::Memory => Fault::Memory,
            _ => Fault::Wire(fault),
        }
    }
}

/// Tells out of memory from the other faults.
impl From<OrderFault> for Fault {
    ghost use Rattle.pgshow.specs.Steps.{IsOrderFault};

    ghost from_gives = { λ fault told. IsOrderFault fault told };

    fn from(fault: OrderFault) -> Fault {
        match fault {
            OrderFault::Memory => Fault::Memory,
            _ => Fault::Order(fault),
        }
    }
}
