//! What a task prints.

ghost use Rattle.pgsub_cli.specs.Runs.{IsLost, IsPrinted, Writes, WritesLine};

use crate::fault::{Ending, RunFault};
use crate::files::Output;
use pgsub_core::Fault;
use std::alloc::AllocError;

/// The lines that a task prints.
#[derive(Drop)]
pub struct Printed {
    /// The lines, each with its line feed.
    pub lines: String,
    /// The fault that stopped it, if one did. The lines are those of what was done before.
    pub stopped: Option<Fault>,
}

/// Writes the lines that a task prints, whatever stopped it, and nothing where it has none.
pub fn write_printed<W: Output>(
    printed: Result<Printed, Fault>,
    out: &mut W,
) -> Result<Ending, RunFault>
    ensures { Writes W.takes W.failed (IsLost printed) (IsPrinted printed) out.old out.new result }
{
    let printed = match printed {
        Ok(printed) => printed,
        Err(fault) => return Err(RunFault::Stream(fault)),
    };
    if out.write_lines(printed.lines.as_str()).is_err() {
        return Err(RunFault::CannotWrite);
    }
    match printed.stopped {
        None => Ok(Ending::Done),
        Some(fault) => Err(RunFault::Stream(fault)),
    }
}

/// Writes a line, if there was memory for it, and ends so.
pub fn write_line<W: Output>(
    line: Result<String, AllocError>,
    ending: Ending,
    out: &mut W,
) -> Result<Ending, RunFault>
    ensures { WritesLine W.takes W.failed line ending out.old out.new result }
{
    let Ok(line) = line else {
        return Err(RunFault::Stream(Fault::Memory));
    };
    if out.write_lines(line.as_str()).is_err() {
        return Err(RunFault::CannotWrite);
    }
    Ok(ending)
}
