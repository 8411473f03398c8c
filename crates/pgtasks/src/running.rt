//! Runs a task that names no store over readers and writers.

ghost use Rattle.std.specs.Prelude.{◌≡◌, ◌≤◌, None, Result};
ghost use Rattle.pgsub_core.specs.Machine.Faults.{IsReadFault};
ghost use Rattle.pgsub_cli.specs.declared.fault.Ending.{Ending};
ghost use Rattle.pgsub_cli.specs.declared.fault.RunFault.{RunFault};
ghost use Rattle.pgsub_cli.specs.Runs.{Applies, Compares, ComparesSessions, Ends, Prints};
ghost use Rattle.pgsub_cli.specs.Runs.{PrintsResumed, PrintsShown, Tells, WritesVerdict, left_path};
ghost use Rattle.pgsub_cli.specs.Runs.{Watches, right_path, store_path, status_of};

use crate::comparing::compare;
use crate::stores::{apply, resume};
use pgcommand::Task;
use pgorder::Version;
use pgsub_cli::Limits;
use pgsub_cli::fault::{Ending, RunFault};
use pgsub_cli::files::{Input, Output};
use pgsub_cli::numbering::write_number;
use pgsub_cli::printed::{write_line, write_printed};
use pgsub_cli::recorded::read_sessions;
use pgsub_cli::showing::show;
use pgsub_cli::storing::read_input;
use pgsub_cli::telling::{left_path, right_path, status, tell};
use pgsub_cli::watching::watch;
use pgsub_core::{Session, Side, Verdict};
use std::alloc::Global;

/// Prints the frames of a recording.
fn show_recording<R: Input + Drop, W: Output>(
    alloc: Global,
    version: Version,
    file: Option<R>,
    out: &mut W,
) -> Result<Ending, RunFault>
    ensures { Prints R.gives R.begins R.failed W.takes W.failed (λ _. ⊥)
        (PrintsShown version) file out.old out.new result }
{
    let sessions = read_sessions(alloc, Side::Left, file)?;
    write_printed(Ok(show(alloc, version, sessions.as_slice())), out)
}

/// Applies what comes of a file, and prints what is stored then.
fn apply_file<R: Input + Drop, W: Output + Drop>(
    alloc: Global,
    limits: Limits,
    version: Version,
    raw: bool,
    file: Option<R>,
    out: &mut W,
) -> Result<Ending, RunFault>
    ensures { Applies R.gives R.begins R.failed W.takes W.failed limits version raw file out.old
        out.new result }
{
    let incoming = read_input(alloc, raw, file)?;
    apply(alloc, limits, version, incoming, out)
}

/// Applies the sessions of a recording, and prints where a server would be asked to go on.
fn resume_recording<R: Input + Drop, W: Output>(
    alloc: Global,
    file: Option<R>,
    out: &mut W,
) -> Result<Ending, RunFault>
    ensures { Prints R.gives R.begins R.failed W.takes W.failed IsReadFault PrintsResumed file
        out.old out.new result }
{
    let sessions = read_sessions(alloc, Side::Left, file)?;
    write_printed(resume(alloc, sessions.as_slice()), out)
}

/// Writes the line of a verdict.
fn write_verdict<W: Output>(
    alloc: Global,
    verdict: Verdict,
    out: &mut W,
) -> Result<Ending, RunFault>
    ensures { WritesVerdict W.takes W.failed verdict out.old out.new result }
{
    match verdict {
        Verdict::Same(at) => write_line(format!(in alloc; "same {at}\n"), Ending::Done, out),
        Verdict::Positions(left, right) => write_line(
            format!(in alloc; "positions {left} {right}\n"),
            Ending::Differs,
            out,
        ),
        Verdict::Rows(at) => write_line(
            format!(in alloc; "rows differ at {at}\n"),
            Ending::Differs,
            out,
        ),
    }
}

/// Compares what the sessions of two recordings leave, and prints how.
fn compare_sessions<W: Output>(
    alloc: Global,
    version: Version,
    left: &[Session],
    right: &[Session],
    out: &mut W,
) -> Result<Ending, RunFault>
    ensures { ComparesSessions W.takes W.failed version left.now right.now out.old out.new result }
{
    match compare(alloc, version, left, right) {
        Ok(verdict) => write_verdict(alloc, verdict, out),
        Err(fault) => Err(RunFault::OfSide(fault.side, fault.fault)),
    }
}

/// Compares what two recordings leave, and prints how. Both are opened before one is read.
fn compare_recordings<R: Input + Drop, W: Output>(
    alloc: Global,
    version: Version,
    left: Option<R>,
    right: Option<R>,
    out: &mut W,
) -> Result<Ending, RunFault>
    ensures { Compares R.gives R.begins R.failed W.takes W.failed version left right out.old out.new
        result }
{
    if left.is_some() && right.is_none() {
        return Err(RunFault::CannotRead(Side::Right));
    }
    let sessions = read_sessions(alloc, Side::Left, left)?;
    let others = read_sessions(alloc, Side::Right, right)?;
    compare_sessions(alloc, version, sessions.as_slice(), others.as_slice(), out)
}

/// Watches the sessions of a recording, and prints how each rule of a well-formed server stands.
fn watch_recording<R: Input + Drop, W: Output>(
    alloc: Global,
    version: Version,
    file: Option<R>,
    out: &mut W,
) -> Result<Ending, RunFault>
    ensures { Watches R.gives R.begins R.failed W.takes W.failed version file out.old out.new
        result }
{
    let sessions = read_sessions(alloc, Side::Left, file)?;
    watch(alloc, version, sessions.as_slice(), out)
}

/// Runs a task up to its end, and tells nothing of a fault.
fn run_task<R: Input + Drop, W: Output + Drop>(
    alloc: Global,
    task: &Task,
    left: Option<R>,
    right: Option<R>,
    out: &mut W,
) -> Result<Ending, RunFault>
    requires { store_path task.now ≡ None }
    ensures { Ends R.gives R.begins R.failed W.takes W.failed task.now left right out.old out.new
        result }
{
    match task {
        Task::Show { version, .. } => show_recording(alloc, *version, left, out),
        Task::Apply {
            version,
            limits,
            raw,
            ..
        } => apply_file(alloc, *limits, *version, *raw, left, out),
        Task::Same { version, .. } => compare_recordings(alloc, *version, left, right, out),
        Task::Resume { .. } => resume_recording(alloc, left, out),
        Task::Lsn { text } => write_number(alloc, text.as_str(), out),
        Task::Watch { version, .. } => watch_recording(alloc, *version, left, out),
        Task::Dump { .. } | Task::Follow { .. } => unreachable!(),
    }
}

/// Runs a task that names no store. `left` is the first file that it names and `right` the second
/// one, None where it can't be opened or none is named. Returns the exit status: 0 done, 1 a stream
/// that is rejected or memory that ran out, 2 a text that isn't an LSN, 3 a fault of a file, 4 two
/// recordings that differ or one that breaks a rule.
///
/// There is a way in which the task ends, with this status: what is printed are the lines that the
/// files' bytes lead to, also where a fault stopped them, which is then the task's. A recording
/// that can't be read leaves standard output as it was. Standard error gets the line of the fault.
/// `apply` prints its lines as the rows are read: where that stops, some front of them is printed.
pub fn run<R: Input + Drop, W: Output + Drop, E: Output>(
    alloc: Global,
    task: &Task,
    left: Option<R>,
    right: Option<R>,
    out: &mut W,
    err: &mut E,
) -> u8
    requires { store_path task.now ≡ None }
    ensures status { result ≤ 4 }
    ensures ends { (ended : Result Ending RunFault) × (result ≡ status_of ended)
        × Ends R.gives R.begins R.failed W.takes W.failed task.now left right out.old out.new ended
        × Tells E.takes E.failed (left_path task.now) (right_path task.now) ended err.old err.new }
{
    let ended = run_task(alloc, task, left, right, out);
    tell(alloc, ended, left_path(task), right_path(task), err);
    status(ended)
}
