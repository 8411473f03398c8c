//! Loads what comes before the first session.
//!
//! PostgreSQL documentation, Logical Decoding Concepts, Exported Snapshots.

ghost use Rattle.std.specs.Prelude.{◌≡◌, None, Some, IfSome};
ghost use Rattle.pgloaded.specs.Loaded.{AfterLoad, IsBegun, KeepsReader, Unloads};

use crate::load_plan::LoadPlan;
use crate::session_reader::SessionReader;
use pgapply::ReplicaStore;
use pgload::{InputFault, load_from};
use std::alloc::Global;

// Loads into the store what comes first. Of what follows it nothing is read, and the reader is told
// that sessions begin there.
fn load_planned<C: ReplicaStore + Drop, R: SessionReader>(
    alloc: Global,
    store: C,
    plan: LoadPlan,
    reader: &mut R,
) -> (Option<InputFault>, C)
    ensures loaded { result.0 ≡ None → AfterLoad C.holds C.place C.reopens C.serves C.is_honest
        (Some plan) (R.remaining reader.old) store (λ rest loaded. (rest ≡ R.remaining reader.new)
        × (loaded ≡ result.1)) }
    ensures stopped { IfSome result.0 (Unloads C.holds C.place C.reopens C.serves C.is_honest
        (Some plan) (R.remaining reader.old) (R.remaining reader.new) store result.1) }
    ensures begun { result.0 ≡ None → IsBegun R.begins (Some plan) reader.old reader.new }
    ensures honest { C.is_honest result.1 → C.is_honest store }
{
    let (ended, store) = load_from(alloc, store, plan.limits, plan.max_frame, reader);
    match ended {
        Ok(_point) => {
            reader.begin_sessions();
            (None, store)
        }
        Err(fault) => (Some(fault), store),
    }
}

/// Loads into a store what comes before its first session, where a load is planned. Of what follows
/// it nothing is read, and the reader is told that sessions begin there. Returns why the load isn't
/// taken, if it isn't, and the store.
pub fn load_first<C: ReplicaStore + Drop, R: SessionReader>(
    alloc: Global,
    store: C,
    plan: Option<LoadPlan>,
    reader: &mut R,
) -> (Option<InputFault>, C)
    ensures loaded { result.0 ≡ None → AfterLoad C.holds C.place C.reopens C.serves C.is_honest
        plan (R.remaining reader.old) store (λ rest loaded. (rest ≡ R.remaining reader.new)
        × (loaded ≡ result.1)) }
    ensures stopped { IfSome result.0 (Unloads C.holds C.place C.reopens C.serves C.is_honest plan
        (R.remaining reader.old) (R.remaining reader.new) store result.1) }
    ensures reader { KeepsReader plan reader.old reader.new }
    ensures begun { result.0 ≡ None → IsBegun R.begins plan reader.old reader.new }
    ensures honest { C.is_honest result.1 → C.is_honest store }
{
    match plan {
        Some(plan) => load_planned(alloc, store, plan, reader),
        None => (None, store),
    }
}
