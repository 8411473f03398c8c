//! What the answers of a watch (`pgwatch`) mean, in the words of `pgsub_core`: of which messages
//! some history has a session, and of which none has. No code here runs.
#![tactic(auto)]

mod laws;

pub use laws::{breaches_are_caused, broken_is_not_sent, nested_is_streamed, well_may_be_sent};
