//! Tests of commits that are noted in a file. What else is read and written the contracts say.
#![tactic(auto)]

#[cfg(test)]
mod memory;
#[cfg(test)]
mod noting;
#[cfg(test)]
mod reading;
