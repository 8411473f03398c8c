//! An LSN as a number and as text.

ghost use Rattle.std.specs.Prelude.{◌≡◌, IfOk, string_bytes};
ghost use Rattle.pgsub_cli.specs.Runs.{WritesNumber, number_line};

use crate::fault::{Ending, RunFault};
use crate::files::Output;
use crate::printed::write_line;
use pglsn::Lsn;
use std::alloc::{AllocError, Global};

/// The line of an LSN: its number in decimal, and its text.
fn number_line(alloc: Global, lsn: Lsn) -> Result<String, AllocError>
    ensures { IfOk result (λ line. string_bytes line ≡ number_line lsn) }
{
    format!(in alloc; "{} {lsn}\n", lsn.0)
}

/// Writes the number of an LSN, in decimal, and its text as PostgreSQL prints it.
pub fn write_number<W: Output>(alloc: Global, text: &str, out: &mut W) -> Result<Ending, RunFault>
    ensures { WritesNumber W.takes W.failed text.now out.old out.new result }
{
    let Ok(lsn) = Lsn::parse(text) else {
        return Err(RunFault::NotAnLsn);
    };
    write_line(number_line(alloc, lsn), Ending::Done, out)
}
