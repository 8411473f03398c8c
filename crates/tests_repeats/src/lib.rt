//! Tests of commits that come again. What else is answered the contracts say.
#![tactic(auto)]

#[cfg(test)]
mod answers;
#[cfg(test)]
mod sessions;
#[cfg(test)]
mod wire;
