//! Tests of feeds in memory, and no code.
//!
//! - What a folder has after a stop at any call, and opening it again.
//! - Which messages a commit tells, and for which it is rejected.
//! - Where the definitions of changes stand.
//! - Commits that come in parts.
#![tactic(auto)]

#[cfg(test)]
mod commits;
#[cfg(test)]
mod definitions;
#[cfg(test)]
mod feeds;
#[cfg(test)]
mod folders;
#[cfg(test)]
mod messages;
#[cfg(test)]
mod parts;
#[cfg(test)]
mod stopped;
