//! New SQL stores, over which tests run their trials.
//!
//! Only these functions name the stores' types: what dropping a store does is proved here once, and
//! a trial once, over any store.

use pgapply::{ReplicaStore, StoreFault};
use pgstore::Store;
use sqlite::Alter;
use std::process::Abort;

/// What is done with a new store.
pub(crate) trait Trial<R> {
    /// What comes of it.
    type Outcome;

    fn run<C: ReplicaStore + Drop>(&self, rt: &R, store: C) -> Self::Outcome;
}

/// Runs a trial over a store of any kind, since the proof that one over given disks is a store gets
/// too large.
fn over<R, S: Alter + Drop, T: Trial<R>>(rt: &R, trial: &T, store: Store<S>) -> T::Outcome {
    trial.run(rt, store)
}

/// Runs a trial over a store in memory, where there is room for one.
pub(crate) fn try_in_memory<R: AllocGlobal, T: Trial<R>>(
    rt: &R,
    trial: &T,
) -> Result<T::Outcome, StoreFault> {
    let store = Store::in_memory(rt.alloc())?;
    Ok(over(rt, trial, store))
}

/// Runs a trial over a store on disks in memory, where there is room for one.
pub(crate) fn try_on_memory_disks<R: AllocGlobal, T: Trial<R>>(
    rt: &R,
    trial: &T,
) -> Result<T::Outcome, StoreFault> {
    let store = Store::on_memory_disks(rt.alloc())?;
    Ok(over(rt, trial, store))
}

/// Runs a trial over a store in memory.
pub(crate) fn in_memory<R: Abort + AllocGlobal, T: Trial<R>>(rt: &R, trial: &T) -> T::Outcome {
    try_in_memory(rt, trial).expect(rt, "a store")
}

/// Runs a trial over a store on disks in memory.
pub(crate) fn on_memory_disks<R: Abort + AllocGlobal, T: Trial<R>>(
    rt: &R,
    trial: &T,
) -> T::Outcome {
    try_on_memory_disks(rt, trial).expect(rt, "a store")
}
