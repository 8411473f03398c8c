//! What a connection shows between transactions.

ghost use Rattle.std.specs.Prelude.{◌≡◌, false, IsTrue};
ghost use Rattle.sqlite.specs.Effect.{IsDatabase};
ghost use Rattle.sqlite.specs.Held.{state};

use sqlite::{Alter, Connection};

/// Outside a transaction an open connection sees what is committed. The call does nothing: a
/// connection shows this only to a caller that asks whether a transaction is under way, and proofs
/// of what a crash leaves need it.
pub fn see_committed<S: Alter>(conn: &Connection<S>)
    requires { (state S.Store conn.now).in_transaction ≡ false }
    ensures { IsTrue (state S.Store conn.now).is_open →
        (state S.Store conn.now).now ≡ (state S.Store conn.now).committed }
{
    let _between = conn.is_autocommit();
}

/// The rows that an open connection sees obey its tables. The call does nothing: a connection shows
/// this only to a caller that asks for its tables.
pub(crate) fn see_sound<S: Alter>(conn: &Connection<S>)
    ensures { IsTrue (state S.Store conn.now).is_open → IsDatabase (state S.Store conn.now).now }
{
    let _tables = conn.schema();
}
