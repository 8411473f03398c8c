//! Adding a table to a copy within a stream that goes on, and repairing a copy: what a connector
//! leaves out of a server's sessions and puts into them (`docs/PROTOCOL.md`, "What the connector
//! changes"), and that the result is sessions of a history.
//!
//! ```text
//! what comes          Begin 912  Insert t  Insert u  Commit 912
//!                     Begin 1000  Insert t  Commit 1000
//! what is passed on   Begin 912  Insert u  Commit 912
//!                     Begin 999  Relation t  Truncate t  Insert t ..  Commit 999
//!                     Begin 1000  Insert t  Commit 1000
//! ```
//!
//! Here the table t is added by a slot whose consistent point is 1000. No code here runs:
//! `connect/pgsub_connect/add/replacement.py` does what `specs/Passing.antt` defines, and for a
//! repair `verify/repair_rows.py` and `follow/repair.py` do what `specs/Mended.antt` and
//! `specs/Repairing.antt` do.
#![tactic(auto)]

mod laws;

pub use laws::{
    copy_is_the_servers, passed_on_is_a_session, repaired_copy_is_the_servers,
    repairs_are_passed_on, rows_are_the_servers, sessions_are_passed_on,
};
