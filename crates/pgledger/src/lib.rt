//! A ledger of commits beside a store: what each commit did to single rows, appended as the store
//! stages it and synced before the store settles it. It may tell the transaction's messages too.
//!
//! A store that implements [`LedgerStore`] gives its [`Ledger`] each commit with an [`Image`] of
//! each change: the whole row before it and the whole row after it, also where the server sent
//! neither. [`Recorded`] is a store with its ledger, and a `ReplicaStore` itself: whatever a
//! subscriber returns, and whatever a crash leaves when both are opened again, the entries of its
//! ledger lead commit by commit to exactly the rows that it holds, if they did at the start. What
//! is said of the rows doesn't rest on that ([`Supposing`]).
//!
//! ```text
//! let mut store = Recorded::new(store, ledger);
//! store.stage(&commit)?;                  // the rows change, then the ledger has the commit
//! store.settle()?;                        // the ledger is synced, then the store takes the commit
//! ```
//!
//! PostgreSQL documentation, Logical Replication, Subscription; ALTER TABLE, REPLICA IDENTITY.
#![tactic(auto)]

mod heard;
mod image;
mod laws;
mod ledger;
mod ledger_store;
mod recorded;

pub use heard::Heard;
pub use image::Image;
pub use laws::lines_lead;
pub use ledger::{Ledger, NoLedger, Supposing};
pub use ledger_store::LedgerStore;
pub use recorded::Recorded;
