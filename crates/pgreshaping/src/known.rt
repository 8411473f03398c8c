//! The definitions that relations are known to have.
//!
//! PostgreSQL documentation, Logical Replication Message Formats, Relation.

ghost use Rattle.std.specs.Prelude.{◌≡◌, true, Some};
ghost use Rattle.std.specs.FinMap.{get};
ghost use Rattle.pglogical.specs.Spelling.{IsDefinition};
ghost use Rattle.pgencoded.specs.Spelled.{IsReadable};
ghost use Rattle.pgreshaping.specs.Known.{Notes};

use crate::typed::is_readable;
use pglogical::RelationDef;
use pgrel::Book;
use std::alloc::Global;

/// Whether this definition is known, word for word, to be its relation's.
pub fn knows(known: &Book, def: &RelationDef) -> bool
    ensures same { result ≡ true → get known.now def.now.oid ≡ Some def.now }
    ensures readable { IsReadable def.now }
{
    is_readable(def);
    match known.get(def.oid) {
        Ok(there) => there == def,
        Err(_) => false,
    }
}

/// Remembers a definition. Where memory runs out, nothing is known any more.
pub fn remember(known: &mut Book, alloc: Global, def: &RelationDef)
    requires { IsDefinition def.now }
    ensures { Notes known.old def.now known.new }
{
    match def.copy(alloc) {
        Ok(copy) => {
            let _set = known.set(copy);
        }
        Err(_) => known.clear(),
    }
}
