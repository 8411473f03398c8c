//! Definitions in the tables, and the rows that a change finds under a new one.
//!
//! PostgreSQL documentation, Logical Replication Message Formats, Relation.

ghost use Rattle.std.specs.Prelude.{◌≡◌, true, OnOk, IfOk, IfErr};
ghost use Rattle.sqlite.specs.State.{HasCleanDisk};
ghost use Rattle.pglogical.specs.declared.message.RelationDef.{RelationDef};
ghost use Rattle.pglogical.specs.Spelling.{columns_spelling, IsDefinition};
ghost use Rattle.pgrel.specs.Identity.{same_shape};
ghost use Rattle.pgtables.specs.Kept.{with_definition};
ghost use Rattle.pgrows.specs.Rows.{Makes, state};
ghost use Rattle.pgencoded.specs.Spelled.{IsReadable, spelled_definition};
ghost use Rattle.pgapply.specs.Stored.{IsOwnFault};
ghost use Rattle.pgencoded.specs.Acts.{Gives, Goes, RefusesToGive};
ghost use Rattle.pgreshaping.specs.Carries.{IsReadAs, Empties, CarriesTable, RefusesTable};
ghost use Rattle.pgreshaping.specs.Carries.{GivesAnew, RefusesAnew};
ghost use Rattle.pgreshaping.specs.Rewrites.{RefusesToRewriteTable, RewritesTable};

use crate::carrying::unpark_rows;
use crate::keys::keeps_identity;
use crate::parking::{free_oid, park_rows};
use crate::rewriting::rewrite_rows;
use crate::typed::is_readable;
use pgapply::{Op, StoreFault};
use pgencoded::{Refusal, column_bytes, read_columns};
use pglogical::RelationDef;
use pgrel::same_shape;
use pgrows::Rows;
use pgtables::StoredDefinition;
use pgtuple::Text;
use sqlite::Alter;
use std::alloc::Global;

/// Whether a definition is stored with these columns, word for word.
fn is_stored(stored: &StoredDefinition, def: &RelationDef, columns: &[u8]) -> bool
    ensures same { result ≡ true → columns.now ≡ columns_spelling def.now.columns →
        stored.now ≡ spelled_definition def.now }
    ensures found { columns.now ≡ columns_spelling def.now.columns →
        stored.now ≡ spelled_definition def.now → result ≡ true }
{
    stored.namespace() == def.namespace.as_str()
        && stored.name() == def.name.as_str()
        && stored.letter() == u32::from(def.letter)
        && stored.columns() == columns
}

/// The stored definition's columns, under the OID and the letter of the new one.
fn read_definition(
    alloc: Global,
    stored: &StoredDefinition,
    def: &RelationDef,
) -> Result<RelationDef, Refusal>
    ensures ok { IfOk result (IsReadAs stored.now def.now) }
    ensures memory { (there : RelationDef) → IsDefinition there → IsReadable there →
        stored.now ≡ spelled_definition there →
        IfErr result (λ fault. fault ≡ StoreFault.Memory) }
{
    Ok(RelationDef {
        oid: def.oid,
        namespace: Text::from_string(String::new(alloc)),
        name: Text::from_string(String::new(alloc)),
        letter: def.letter,
        columns: read_columns(alloc, stored.columns())?,
    })
}

/// Whether the stored definition, whose columns were read, has the shape of this one: its replica
/// identity, and its columns' key flags and names.
fn has_shape(stored: &StoredDefinition, old: &RelationDef, def: &RelationDef) -> bool
    requires { IsReadAs stored.now def.now old.now }
    ensures { (there : RelationDef) → IsDefinition there → stored.now ≡ spelled_definition there →
        result ≡ same_shape there def.now }
{
    stored.letter() == u32::from(def.letter) && same_shape(old, def)
}

/// A definition with these bytes of its columns.
fn store_definition<S: Alter>(
    rows: &mut Rows<S>,
    def: &RelationDef,
    columns: &[u8],
) -> Result<(), Refusal>
    ensures made { HasCleanDisk (state S.Store rows.new) →
        OnOk result (Makes S.Store (with_definition def.now.oid
        (record {
          namespace = def.now.namespace;
          name = def.now.name;
          letter = def.now.letter;
          columns = columns.now;
        })) rows.old rows.new) }
    ensures fault { IfErr result IsOwnFault }
    ensures goes { Goes S.Store rows.old rows.new }
{
    rows.put_definition(
        def.oid,
        def.namespace.as_str(),
        def.name.as_str(),
        u32::from(def.letter),
        columns,
    )?;
    Ok(())
}

/// A definition with these bytes of its columns, and no rows under it.
fn empty_table<S: Alter>(
    rows: &mut Rows<S>,
    def: &RelationDef,
    columns: &[u8],
) -> Result<(), Refusal>
    ensures made { HasCleanDisk (state S.Store rows.new) →
        OnOk result (Empties S.Store def.now columns.now rows.old rows.new) }
    ensures fault { IfErr result IsOwnFault }
    ensures goes { Goes S.Store rows.old rows.new }
{
    store_definition(rows, def, columns)?;
    rows.delete_rows(def.oid)?;
    Ok(())
}

/// The definition replaces the stored one, and the rows are carried over to its columns and its
/// identity: they are parked, and none of them stays so.
fn carry_table<S: Alter>(
    rows: &mut Rows<S>,
    alloc: Global,
    old: &RelationDef,
    def: &RelationDef,
    columns: &[u8],
) -> Result<(), Refusal>
    requires definition { IsDefinition def.now }
    ensures made { HasCleanDisk (state S.Store rows.new) →
        OnOk result (CarriesTable S.Store rows.old rows.new old.now def.now
        columns.now) }
    ensures fault { HasCleanDisk (state S.Store rows.new) →
        IfErr result (RefusesTable S.Store rows.old old.now def.now columns.now) }
    ensures goes { Goes S.Store rows.old rows.new }
{
    let park = free_oid(rows, def.oid)?;
    park_rows(rows, alloc, def.oid, park)?;
    store_definition(rows, def, columns)?;
    unpark_rows(rows, alloc, old, def, park)
}

/// The definition replaces the stored one, and each row is rewritten in its place.
fn rewrite_table<S: Alter>(
    rows: &mut Rows<S>,
    alloc: Global,
    old: &RelationDef,
    def: &RelationDef,
    columns: &[u8],
) -> Result<(), Refusal>
    requires definition { IsDefinition def.now }
    ensures made { HasCleanDisk (state S.Store rows.new) → OnOk result
        (RewritesTable S.Store rows.old rows.new old.now def.now columns.now) }
    ensures fault { HasCleanDisk (state S.Store rows.new) → IfErr result
        (RefusesToRewriteTable S.Store rows.old old.now def.now columns.now) }
    ensures goes { Goes S.Store rows.old rows.new }
{
    store_definition(rows, def, columns)?;
    rewrite_rows(rows, alloc, old, def)
}

/// The definition replaces the stored one. Where their shapes differ a truncation drops the rows,
/// and another change carries them over: in their places where they keep their identities.
fn replace_definition<S: Alter>(
    rows: &mut Rows<S>,
    alloc: Global,
    stored: &StoredDefinition,
    def: &RelationDef,
    columns: &[u8],
    op: &Op<'_>,
) -> Result<(), Refusal>
    requires definition { IsDefinition def.now }
    requires columns { columns.now ≡ columns_spelling def.now.columns }
    ensures made { HasCleanDisk (state S.Store rows.new) →
        OnOk result (GivesAnew S.Store rows.old rows.new stored.now def.now op.now) }
    ensures fault { HasCleanDisk (state S.Store rows.new) →
        IfErr result (RefusesAnew S.Store rows.old stored.now def.now op.now) }
    ensures goes { Goes S.Store rows.old rows.new }
{
    let old = read_definition(alloc, stored, def)?;
    if has_shape(stored, &old, def) {
        return store_definition(rows, def, columns);
    }
    if op.is_truncate() {
        return empty_table(rows, def, columns);
    }
    if keeps_identity(stored, &old, def) {
        return rewrite_table(rows, alloc, &old, def, columns);
    }
    carry_table(rows, alloc, &old, def, columns)
}

/// The definition of a change is given to its relation, with the rows that the change finds.
pub fn give_definition<S: Alter>(
    rows: &mut Rows<S>,
    alloc: Global,
    def: &RelationDef,
    op: &Op<'_>,
) -> Result<(), Refusal>
    requires definition { IsDefinition def.now }
    ensures made { HasCleanDisk (state S.Store rows.new) →
        OnOk result (Gives S.Store rows.old rows.new def.now op.now) }
    ensures fault { HasCleanDisk (state S.Store rows.new) →
        IfErr result (RefusesToGive S.Store rows.old def.now op.now) }
    ensures readable { IsReadable def.now }
    ensures goes { Goes S.Store rows.old rows.new }
{
    is_readable(def);
    let encoded = column_bytes(alloc, def)?;
    let columns = encoded.as_slice();
    match rows.find_definition(def.oid)? {
        None => store_definition(rows, def, columns),
        Some(stored) => {
            if is_stored(&stored, def, columns) {
                return Ok(());
            }
            replace_definition(rows, alloc, &stored, def, columns, op)
        }
    }
}
