//! Whether the rows of a relation that comes with another shape keep their identities.
//!
//! PostgreSQL documentation, ALTER TABLE, REPLICA IDENTITY; Logical Replication Message Formats,
//! Relation.

ghost use Rattle.std.specs.Prelude.{◌≡◌, ◌&&◌, not, true, IfSome};
ghost use Rattle.std.specs.List.{list_any};
ghost use Rattle.pglogical.specs.declared.message.Column.{Column};
ghost use Rattle.pglogical.specs.declared.message.RelationDef.{RelationDef};
ghost use Rattle.pglogical.specs.Spelling.{IsDefinition};
ghost use Rattle.pgrel.specs.Carried.{has_name};
ghost use Rattle.pgencoded.specs.Spelled.{spelled_definition};
ghost use Rattle.pgreshaping.specs.Carries.{IsReadAs};
ghost use Rattle.pgreshaping.specs.Rewrites.{BeginsKey, KeepsKey, LeavesKey, StaysKnown};

use pglogical::{Column, RelationDef};
use pgrel::keyed;
use pgtables::StoredDefinition;

fn has_key_column(columns: &[Column]) -> bool
    ensures { result ≡ list_any (λ (c : Column). c.key) columns.now }
{
    columns.iter().any(|column| column.key)
}

/// Whether a key column has this column's name.
fn is_key_name(columns: &[Column], column: &Column) -> bool
    ensures { result ≡ list_any (λ (c : Column). c.key && has_name c.name column.now) columns.now }
{
    columns.iter().any(|other| other.key && column.name.as_str() == other.name.as_str())
}

/// The columns behind the first key column, where that has this column's name.
fn behind_key<'a>(columns: &'a [Column], column: &Column) -> Option<&'a [Column]>
    ensures { IfSome result (λ rest. BeginsKey column.now columns.now rest.now) }
{
    let mut passed = 0;
    for other in columns {
        passed += 1;
        if other.key {
            if column.name.as_str() != other.name.as_str() {
                return None;
            }
            return Some(&columns[passed..]);
        }
    }
    None
}

/// What is left of the new columns behind an old one, which is of the key under both or under
/// neither. No later key column may have its name, since a new one takes the cell of the first.
fn behind_column<'a>(new: &'a [Column], column: &Column) -> Option<&'a [Column]>
    ensures { IfSome result (λ left. LeavesKey column.now new.now left.now) }
{
    if !column.key {
        if is_key_name(new, column) {
            return None;
        }
        return Some(new);
    }
    let rest = behind_key(new, column)?;
    if is_key_name(rest, column) {
        return None;
    }
    Some(rest)
}

/// Whether the same columns by name, in the same order, are the key under both.
fn keeps_key(old: &[Column], new: &[Column]) -> bool
    ensures { result ≡ true → KeepsKey old.now new.now }
{
    let mut left = new;
    for column in old {
        let Some(rest) = behind_column(left, column) else {
            return false;
        };
        left = rest;
    }
    !has_key_column(left)
}

/// Whether each row is known by the same cells under the stored definition, whose columns were
/// read, and under this one.
pub(crate) fn keeps_identity(
    stored: &StoredDefinition,
    old: &RelationDef,
    def: &RelationDef,
) -> bool
    requires { IsReadAs stored.now def.now old.now }
    ensures { result ≡ true → (there : RelationDef) → IsDefinition there →
        stored.now ≡ spelled_definition there → StaysKnown there old.now def.now }
{
    stored.letter() == u32::from(def.letter)
        && keyed(old)
        && keyed(def)
        && keeps_key(old.columns.as_slice(), def.columns.as_slice())
}
