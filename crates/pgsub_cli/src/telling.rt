//! How a run ends: its exit status, and the line of its fault.

ghost use Rattle.std.specs.Prelude.{◌≡◌, ◌≤◌, Result, IfOk, option_map, string_bytes};
ghost use Rattle.pgsub_cli.specs.declared.fault.Ending.{Ending};
ghost use Rattle.pgsub_cli.specs.declared.fault.RunFault.{RunFault};
ghost use Rattle.pgsub_cli.specs.FaultTexts.{stop_line};
ghost use Rattle.pgsub_cli.specs.Runs.{Tells, left_path, right_path, store_path, status_of};
ghost use Rattle.pgsub_cli.specs.Runs.{status_of_stream};

use crate::fault::{Ending, RunFault};
use crate::fault_text::StopLine;
use crate::files::Output;
use pgcommand::Task;
use pgsub_core::Fault;
use std::alloc::{AllocError, Global};

/// The exit status of a fault of a stream.
fn stream_status(fault: Fault) -> u8
    ensures { result ≡ status_of_stream fault }
{
    match fault {
        Fault::Read => 3,
        _ => 1,
    }
}

/// The exit status: 0 done, 1 a stream that is rejected or memory that ran out, 2 usage, 3 a fault
/// of a file, 4 a difference.
pub fn status(ended: Result<Ending, RunFault>) -> u8
    ensures range { result ≤ 4 }
    ensures status { result ≡ status_of ended }
{
    match ended {
        Ok(Ending::Done) => 0,
        Ok(Ending::Differs) => 4,
        Err(RunFault::Stream(fault)) => stream_status(fault),
        Err(RunFault::OfSide(..)) => 1,
        Err(RunFault::NotAnLsn) => 2,
        Err(_) => 3,
    }
}

/// The path of the store's file that a task names, if it names one. `run_opened` or `run_follow`
/// runs such a task.
pub fn store_path(task: &Task) -> Option<&str>
    ensures { option_map (λ path. path.now) result ≡ store_path task.now }
{
    match task {
        Task::Apply { store, .. } => store.as_deref(),
        Task::Dump { store, .. } | Task::Follow { store, .. } => Some(store.as_str()),
        _ => None,
    }
}

/// The path of the first file that a task reads.
pub fn left_path(task: &Task) -> &str
    ensures { result.now ≡ left_path task.now }
{
    match task {
        Task::Show { file, .. }
        | Task::Apply { file, .. }
        | Task::Resume { file }
        | Task::Watch { file, .. } => file.as_str(),
        Task::Dump { store, .. } | Task::Follow { store, .. } => store.as_str(),
        Task::Same { left, .. } => left.as_str(),
        Task::Lsn { .. } => "",
    }
}

/// The path of the second file that a task reads.
pub fn right_path(task: &Task) -> &str
    ensures { result.now ≡ right_path task.now }
{
    match task {
        Task::Same { right, .. } => right.as_str(),
        _ => "",
    }
}

/// The line of a fault on standard error.
fn fault_line(alloc: Global, fault: RunFault, left: &str, right: &str) -> Result<String, AllocError>
    ensures { IfOk result (λ line. string_bytes line ≡ stop_line fault left.now right.now) }
{
    format!(in alloc; "{}", StopLine { fault, left, right })
}

/// Writes the line of a fault, of files with these paths. Where standard error can't be written,
/// the status alone tells.
pub fn tell<E: Output>(
    alloc: Global,
    ended: Result<Ending, RunFault>,
    left: &str,
    right: &str,
    err: &mut E,
)
    ensures { Tells E.takes E.failed left.now right.now ended err.old err.new }
{
    let Err(fault) = ended else {
        return;
    };
    match fault_line(alloc, fault, left, right) {
        Ok(line) => {
            let _ = err.write_lines(line.as_str());
        }
        Err(AllocError) => {
            let _ = err.write_lines("pgsub: memory\n");
        }
    }
}
