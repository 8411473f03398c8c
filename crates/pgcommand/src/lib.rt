//! The command line of `pgsub`: which task its words ask for.
//!
//! The first word is the program's name, as `std::env::args` gives it.
//!
//! ```text
//! // None where they aren't UTF-8
//! let words = words(&rt)?;
//! match command_of(alloc, words.as_slice()) {
//!     Ok(Task::Apply { version, limits, raw, store: None, file, .. }) =>
//!         apply(version, limits, raw, file.as_str()),
//!     Ok(_) => ..,
//!     // help and `--version` are such errors too: they go to standard output, with status 0
//!     Err(CommandFault::Usage(error)) => tell_usage(&rt, &error, commit, kit),
//!     Err(CommandFault::Memory) => tell_memory(&rt, words.as_slice()),
//! }
//! ```
#![tactic(auto)]

ghost use Rattle.std.specs.Prelude.{IfOk, IfErr, map, string_bytes};
ghost use Rattle.pgcommand.specs.Asked.{IsRefusalOf, IsTaskOf};

mod commands;
mod fault;
mod feed;
mod limits;
mod spool;
mod task;
mod usage;
mod watching;

pub use commands::VERSION;
use commands::{missing, program, unknown};
pub use fault::CommandFault;
use fault::usage_fault;
pub use feed::FeedOptions;
pub use limits::Limits;
pub use spool::SpoolOptions;
use std::alloc::Global;
use task::{missing_word, task_of, unknown_watch};
pub use task::{DEFAULT_CACHE, Task};
pub use usage::{FOLLOW_MEMORY, MEMORY, USAGE, tell_memory, tell_usage, words};
pub use watching::Watching;

/// Returns the task that the words ask for.
///
/// # Errors
///
/// `Usage` where they ask for none, or for help or the version; `Memory` where memory has run out.
pub fn command_of(alloc: Global, words: &[String]) -> Result<Task, CommandFault>
    ensures asked { IfOk result (IsTaskOf (map string_bytes words.now)) }
    ensures refused { IfErr result (IsRefusalOf (map string_bytes words.now)) }
{
    let command = program(alloc)?;
    let matches = match command.try_get_matches_from(words) {
        Ok(matches) => matches,
        Err(error) => return Err(usage_fault(error)),
    };
    // a command line without a subcommand, or with an unknown one, is such an error
    let Some((name, found)) = matches.subcommand() else {
        unreachable!()
    };
    if let Some(word) = missing_word(found) {
        return Err(usage_fault(missing(alloc, name, word)?));
    }
    match unknown_watch(found) {
        Some(word) => Err(usage_fault(unknown(alloc, word)?)),
        None => Ok(task_of(alloc, name, found)?),
    }
}
