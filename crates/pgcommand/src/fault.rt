//! Why the words of a command line name no task.

ghost use Rattle.pgcommand.specs.Asked.{IsUsage};

use clap::Error;
use clap::error::ErrorKind;
use std::alloc::AllocError;
use thiserror::Error as ErrorMacro;

/// Why the words of a command line name no task.
#[derive(Debug, Drop, ErrorMacro)]
pub enum CommandFault {
    /// They ask for none, or for help or the version. It prints as `clap` has it.
    #[error("{0}")]
    Usage(Error),
    /// Memory has run out.
    #[error("memory")]
    Memory,
}

impl From<AllocError> for CommandFault {
    ghost use Rattle.std.specs.Prelude.{◌≡◌};
    ghost use Rattle.pgcommand.specs.declared.fault.CommandFault.TheVariants as fault;

    ghost from_gives = { λ _ told. told ≡ fault.Memory };

    fn from(_error: AllocError) -> CommandFault {
        CommandFault::Memory
    }
}

/// Tells out of memory from all other errors of `clap`.
pub(crate) fn usage_fault(error: Error) -> CommandFault
    ensures { IsUsage error result }
{
    match error.kind() {
        ErrorKind::OutOfMemory => CommandFault::Memory,
        _ => CommandFault::Usage(error),
    }
}
