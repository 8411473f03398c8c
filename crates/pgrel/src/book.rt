//! The relation cache: what the Relation messages of a session have said.
//!
//! PostgreSQL documentation, Logical Replication Message Formats, Relation.

ghost use Rattle.std.specs.Prelude.{◌≡◌, Some, None, OnOk, OnErr, IfOk, IfErr};
ghost use Rattle.std.specs.FinMap as map;
ghost use Rattle.pglogical.specs.Spelling.{IsDefinition};

use crate::fault::RelFault;
use indexmap::IndexMap;
use pglogical::RelationDef;
use std::alloc::Global;
use std::marker::Model;

/// The last definition of each relation, by its OID. All that it returns can be encoded.
#[derive(Drop)]
pub struct Book {
    relations: IndexMap<u32, RelationDef>,
}

impl Model for Book {
    ghost use Rattle.std.specs.Coded.{coded_ℕ};
    ghost use Rattle.std.specs.FinMap as map;
    ghost use Rattle.std.specs.Ordering.{nat_cmp};
    ghost use Rattle.pglogical.specs.declared.message.RelationDef.{RelationDef};
    ghost use Rattle.pglogical.specs.contracts.message.RelationDef as definition;
    ghost use Rattle.pgrel.specs.Known.{AreDefinitions};

    ghost Value = { map.FinMap nat_cmp RelationDef };

    ghost coded = { map.code coded_ℕ definition.the_row.coded };

    ghost view = { λ b. map.from_entries b.relations.entries };

    ghost invariant = { λ b. AreDefinitions b.relations.entries };
}

impl Book {
    /// A book that knows no relation.
    pub fn new(alloc: Global) -> Book
        ensures { result ≡ map.empty }
    {
        Book {
            relations: IndexMap::new(alloc),
        }
    }

    /// Puts a definition in place of what was known of its OID. The one error is out of memory,
    /// which comes only for an OID that isn't known, and leaves the book as it was.
    pub fn set(&mut self, def: RelationDef) -> Result<(), RelFault>
        requires { IsDefinition def }
        ensures ok { OnOk result (self.new ≡ map.insert self.old def.oid def) }
        ensures err { OnErr result (self.new ≡ self.old) }
        ensures memory { IfErr result (λ fault. fault ≡ RelFault.Memory) }
        ensures absent { OnErr result (map.get self.old def.oid ≡ None) }
    {
        self.relations.insert(def.oid, def)?;
        Ok(())
    }

    /// The last definition of an OID. It takes no memory.
    pub fn get(&self, oid: u32) -> Result<&RelationDef, RelFault>
        ensures found { IfOk result (λ def. map.get self.now oid ≡ Some def.now) }
        ensures unknown { IfErr result (λ fault. (fault ≡ RelFault.UnknownRelation oid)
            × (map.get self.now oid ≡ None)) }
        ensures named { IfOk result (λ def. def.now.oid ≡ oid) }
        ensures spellable { IfOk result (λ def. IsDefinition def.now) }
    {
        self.relations
            .get(&oid)
            .ok_or(RelFault::UnknownRelation(oid))
    }

    /// A book that knows the same. The one error is out of memory.
    pub fn copy(&self, alloc: Global) -> Result<Book, RelFault>
        ensures same { IfOk result (λ copy. copy ≡ self.now) }
        ensures memory { IfErr result (λ fault. fault ≡ RelFault.Memory) }
    {
        let mut relations = IndexMap::new(alloc);
        for place in 0..self.relations.len() {
            let (oid, def) = self.relations.get_index(place).unwrap();
            let Ok(copy) = def.copy(alloc) else {
                return Err(RelFault::Memory);
            };
            relations.insert(*oid, copy)?;
        }
        Ok(Book { relations })
    }

    /// Forgets all relations.
    pub fn clear(&mut self)
        ensures { self.new ≡ map.empty }
    {
        self.relations.clear();
    }
}
