//! What the types of a definition say of it. These functions do nothing but show it.
//!
//! PostgreSQL documentation, Logical Replication Message Formats, Relation.

ghost use Rattle.std.specs.Prelude.{◌≡◌, ◌<◌, ◌^◌, true, IsUtf8};
ghost use Rattle.std.specs.Str.{is_utf8};
ghost use Rattle.pglogical.specs.Typed.{AreTypedColumns, IsTypedColumn};
ghost use Rattle.pgencoded.specs.Spelled.{IsReadable};

use pglogical::{Column, RelationDef};

fn name(text: &str)
    ensures text { IsUtf8 text.now }
    ensures same { is_utf8 text.now ≡ true }
{}

fn number(number: u32)
    ensures { number < 2 ^ 32 }
{}

fn column(column: &Column)
    ensures { IsTypedColumn column.now }
{
    name(column.name.as_str());
    number(column.type_oid);
    let _modifier = column.modifier;
}

fn columns(columns: &[Column])
    ensures { AreTypedColumns columns.now }
{
    for each in columns {
        column(each);
    }
}

/// What is stored of the definition can be read back.
pub(crate) fn is_readable(def: &RelationDef)
    ensures { IsReadable def.now }
{
    number(def.oid);
    name(def.namespace.as_str());
    name(def.name.as_str());
    columns(def.columns.as_slice());
}
