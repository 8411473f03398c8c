//! Tests of the load of COPY text: the rows that come of it, in any pieces and batches, and what is
//! told where it stops.
#![tactic(auto)]

#[cfg(test)]
mod frames;
#[cfg(test)]
mod loads;
#[cfg(test)]
mod parts;
