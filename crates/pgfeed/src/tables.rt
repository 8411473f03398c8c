//! The lines of definitions.
//!
//! PostgreSQL documentation, Logical Replication Message Formats, Relation.

ghost use Rattle.std.specs.Prelude.{◌≡◌, ◌++◌, IfOk, OnOk, string_bytes};
ghost use Rattle.serde_json.specs.View.{view};
ghost use Rattle.serde_json.specs.Written.{compact_text};
ghost use Rattle.pgjson.specs.Cells.{list};
ghost use Rattle.json.specs.Print.{quoted};
ghost use Rattle.pgapply.specs.Dump.{shown_namespace};
ghost use Rattle.pgfeed.specs.Texts.{column_data, columns_data, key_data, key_names};
ghost use Rattle.pgfeed.specs.Texts.{table_front, table_line, table_rest};

use crate::values::{letter_text, quoted};
use pglogical::{Column, RelationDef};
use pgrel::keyed;
use serde_json::{Value, json};
use std::alloc::{AllocError, Global};

/// A column: its name, its type and that type's modifier.
fn column_json(alloc: Global, column: &Column) -> Result<Value, AllocError>
    ensures { IfOk result (λ value. view value ≡ column_data column.now) }
{
    json!(in alloc; [column.name.as_str(), column.type_oid, column.modifier])
}

fn columns_json(alloc: Global, columns: &[Column]) -> Result<Value, AllocError>
    ensures { IfOk result (λ value. view value ≡ columns_data columns.now) }
{
    let mut values = Vec::with_capacity(alloc, columns.len())?;
    for column in columns {
        values.push(column_json(alloc, column)?)?;
    }
    Ok(Value::Array(values))
}

/// The columns of a relation.
fn columns_text(alloc: Global, def: &RelationDef) -> Result<String, AllocError>
    ensures { IfOk result (λ json. string_bytes json
        ≡ compact_text (columns_data def.now.columns)) }
{
    let value = columns_json(alloc, def.columns.as_slice())?;
    value.to_string(alloc)
}

/// The names of the columns that are part of the key.
fn key_names_json(alloc: Global, columns: &[Column]) -> Result<Value, AllocError>
    ensures { IfOk result (λ value. view value ≡ list (key_names columns.now)) }
{
    let mut values = Vec::new(alloc);
    for column in columns {
        if column.key {
            values.push(Value::try_from_str(alloc, column.name.as_str())?)?;
        }
    }
    Ok(Value::Array(values))
}

#[tactic(auto, unfolding(crate::specs::Texts::key_data))]
fn key_json(alloc: Global, def: &RelationDef) -> Result<Value, AllocError>
    ensures { IfOk result (λ value. view value ≡ key_data def.now) }
{
    if keyed(def) {
        key_names_json(alloc, def.columns.as_slice())
    } else {
        Ok(Value::Null)
    }
}

/// The key of a table, or null where it has none.
fn key_text(alloc: Global, def: &RelationDef) -> Result<String, AllocError>
    ensures { IfOk result (λ json. string_bytes json ≡ compact_text (key_data def.now)) }
{
    let value = key_json(alloc, def)?;
    value.to_string(alloc)
}

/// The namespace of a relation as a string; `pg_catalog` where an empty one was sent.
fn schema_text(alloc: Global, def: &RelationDef) -> Result<String, AllocError>
    ensures { IfOk result (λ json. string_bytes json
        ≡ quoted (shown_namespace def.now.namespace)) }
{
    if def.namespace.is_empty() {
        return quoted(alloc, "pg_catalog");
    }
    quoted(alloc, def.namespace.as_str())
}

#[tactic(auto, unfolding(crate::specs::Texts::table_front))]
/// Which relation is defined.
fn table_front(alloc: Global, def: &RelationDef) -> Result<String, AllocError>
    ensures { IfOk result (λ text. string_bytes text ≡ table_front def.now) }
{
    let oid = def.oid;
    let schema = schema_text(alloc, def)?;
    let name = quoted(alloc, def.name.as_str())?;
    format!(in alloc; "{{\"op\":\"table\",\"oid\":{oid},\"schema\":{schema},\"table\":{name},")
}

#[tactic(auto, unfolding(crate::specs::Texts::table_rest))]
/// How its rows are identified, and its columns.
fn table_rest(alloc: Global, def: &RelationDef) -> Result<String, AllocError>
    ensures { IfOk result (λ text. string_bytes text ≡ table_rest def.now) }
{
    let letter = letter_text(alloc, def.letter)?;
    let key = key_text(alloc, def)?;
    let columns = columns_text(alloc, def)?;
    format!(in alloc; "\"identity\":{letter},\"key\":{key},\"columns\":{columns}}}\n")
}

/// Appends the line of a definition.
pub(crate) fn push_table(
    alloc: Global,
    def: &RelationDef,
    out: &mut String,
) -> Result<(), AllocError>
    ensures { OnOk result (string_bytes out.new ≡ string_bytes out.old ++ table_line def.now) }
{
    let front = table_front(alloc, def)?;
    let rest = table_rest(alloc, def)?;
    out.push_str(front.as_str())?;
    out.push_str(rest.as_str())
}
