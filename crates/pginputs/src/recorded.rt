//! Recordings and files that are applied.

ghost use Rattle.std.specs.Prelude.{◌≡◌, IfOk, IfSome, true};
ghost use Rattle.pginputs.specs.Applied.{ComesFor, is_reported};

use pgcommand::Task;
use pgorder::Version;
use pgsub_cli::fault::RunFault;
use pgsub_cli::reporting::Reporter;
use pgsub_cli::storing::{Incoming, read_input};
use pgsystem::{length_of, opened};
use std::cell::RefCell;
use std::fs::File;
use std::rt::Stderr;

/// What a task applies to its store, None where it applies nothing.
///
/// # Errors
///
/// It can't be read, or memory has run out.
pub fn input_of(
    rt: &HostRuntime,
    task: &Task,
) -> Result<Option<(Version, Incoming<File>)>, RunFault>
    ensures { IfOk result (ComesFor task.now) }
{
    let Task::Apply {
        version,
        raw,
        file,
        ..
    } = task
    else {
        return Ok(None);
    };
    let incoming = read_input(rt.alloc(), *raw, opened(rt, file.as_str()))?;
    Ok(Some((*version, incoming)))
}

/// What tells standard error how far a task is. None where it isn't to be told, or where the clock
/// can't be read.
pub fn reporter_of<'r>(
    rt: &'r HostRuntime,
    task: &Task,
    input: &Option<(Version, Incoming<File>)>,
) -> Option<RefCell<Reporter<&'r HostRuntime, Stderr>>>
    ensures { IfSome result (λ _. is_reported task.now ≡ true) }
{
    let Task::Apply {
        file,
        progress: true,
        ..
    } = task
    else {
        return None;
    };
    let total = length_of(rt, file.as_str());
    let Ok(mut reporter) = Reporter::new(rt.alloc(), rt, rt.stderr(), total) else {
        return None;
    };
    if let Some((_, Incoming::Sessions(_))) = input {
        // A recording is read whole before its first session.
        reporter.note_bytes(total.unwrap_or(0));
    }
    Some(RefCell::new(reporter))
}
