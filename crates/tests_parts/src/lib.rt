//! Tests of what stands below the subscriber where memory runs out, and no code: of tuples, frames,
//! statuses, the order of messages, spools, and watches. What else these do their contracts say,
//! and worked rows of the definitions are proved beside them. Checksums, which no program makes
//! yet, are compared with zlib's.
//!
//! `tools/refused_memory/run.sh tests_parts` makes each allocation fail in turn: a call that fails
//! changes nothing, and succeeds when it is made once more. Without it they show that the calls
//! succeed.
#![tactic(auto)]

#[cfg(test)]
mod checksums;
#[cfg(test)]
mod frames;
#[cfg(test)]
mod messages;
#[cfg(test)]
mod orders;
#[cfg(test)]
mod spools;
#[cfg(test)]
mod statuses;
#[cfg(test)]
mod tuples;
#[cfg(test)]
mod watches;
