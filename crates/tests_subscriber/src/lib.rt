//! Tests of the subscriber and its stores that can't be made with the built program, and no code.
//!
//! - The subscriber over its spools and its SQL stores. A row is a worked session: what a server
//!   sends, in words of `messages`, and the rows, positions and statuses that it must leave. Each
//!   form of spools takes the rows over each form of store.
//! - Which messages of clients a store hears before which commit.
//! - Stores in memory whose disks stop at any call, and are opened again.
//! - The short forms for embedders (`pgembed`).
//! - Following a server (`pgsub_cli`) by readers and writers that fail, over stores that fail, with
//!   changes in a file that fails, and a clock that is set by hand; and the texts of all faults.
//!
//! They show what no contract says: that a call can succeed, what the text of a fault is, and that
//! the definitions mean what was worked out by hand. Command lines, faults of a stream, bad changes
//! at each place, and runs over a store that is opened again are tried with the built program, by
//! tools/commands and tools/sweeps. Only the tests of `refusing` allow that an allocation fails.
#![tactic(auto)]

#[cfg(test)]
mod counting;
#[cfg(test)]
mod embedded;
#[cfg(test)]
mod embedded_lines;
#[cfg(test)]
mod embedded_rows;
#[cfg(test)]
mod embedded_stores;
#[cfg(test)]
mod fault_tests;
#[cfg(test)]
mod files;
#[cfg(test)]
mod following_tests;
#[cfg(test)]
mod hearing_tests;
#[cfg(test)]
mod messages;
#[cfg(test)]
mod refusing;
#[cfg(test)]
mod reporting_tests;
#[cfg(test)]
mod row;
#[cfg(test)]
mod rows;
#[cfg(test)]
mod spooled_tests;
#[cfg(test)]
mod steps;
#[cfg(test)]
mod stopped_runs;
#[cfg(test)]
mod stopped_tests;
#[cfg(test)]
mod stopping_disks;
#[cfg(test)]
mod tests;
#[cfg(test)]
mod trials;
