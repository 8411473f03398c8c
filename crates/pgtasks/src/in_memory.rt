//! Applies to a store in memory, and tells meanwhile how far that is.

ghost use Rattle.std.specs.Prelude.{◌≡◌, ◌≤◌, [], Result};
ghost use Rattle.pgsub_cli.specs.declared.fault.Ending.{Ending};
ghost use Rattle.pgsub_cli.specs.declared.fault.RunFault.{RunFault};
ghost use Rattle.pgsub_cli.specs.Dumped.{PrintsHeld};
ghost use Rattle.pgsub_cli.specs.Runs.{PrintsNew, Tells, status_of};

use crate::stores::apply_told;
use pgorder::Version;
use pgsub_cli::Limits;
use pgsub_cli::files::{Input, Output};
use pgsub_cli::reporting::{Commits, Reporter, count_bytes};
use pgsub_cli::storing::Incoming;
use pgsub_cli::telling::{status, tell};
use std::alloc::Global;
use std::cell::RefCell;
use std::time::Clock;

/// Runs a task over an empty store in memory, which ends with that, and tells a reporter meanwhile,
/// where there is one. Returns the exit status. What is printed is as `run` says, and with nothing
/// to apply the position 0/0.
pub fn run_in_memory<
    R: Input + Drop,
    K: Clock + Drop,
    P: Output + Drop,
    W: Output + Drop,
    E: Output,
>(
    alloc: Global,
    limits: Limits,
    input: Option<(Version, Incoming<R>)>,
    reporter: Option<&RefCell<Reporter<K, P>>>,
    out: &mut W,
    err: &mut E,
) -> u8
    ensures status { result ≤ 4 }
    ensures ends { (ended : Result Ending RunFault) × (result ≡ status_of ended)
        × PrintsHeld W.takes W.failed (PrintsNew R.gives R.begins R.failed limits input) out.old
        out.new ended × Tells E.takes E.failed [] [] ended err.old err.new }
{
    let told = count_bytes(input, reporter);
    let ended = apply_told(alloc, limits, told, Commits { reporter }, out);
    tell(alloc, ended, "", "", err);
    status(ended)
}
