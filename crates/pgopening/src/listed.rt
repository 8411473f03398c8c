//! What `sqlite_schema` lists of a store.
//!
//! SQLite documentation, Database File Format, Storage Of The SQL Database Schema.

use sqlite_trees::schema::Object;
use sqlite_trees::store::Shape;
use sqlite_value::keys::Order;
use sqlite_value::order::is_same;
use sqlite_value::row::Row;
use sqlite_value::value::ValueRef;

/// The objects of a store, by their trees.
pub(crate) const OBJECTS: [Object<'static>; 4] = [
    Object {
        shape: Shape::Table,
        kind: "table",
        name: "rel",
        table: "rel",
        reals: 0,
        sql: Some(
            "CREATE TABLE rel (oid INTEGER PRIMARY KEY NOT NULL, nsp TEXT NOT NULL, name TEXT NOT NULL, letter INTEGER NOT NULL, cols BLOB NOT NULL) STRICT",
        ),
    },
    Object {
        shape: Shape::Table,
        kind: "table",
        name: "held",
        table: "held",
        reals: 0,
        sql: Some(
            "CREATE TABLE held (oid INTEGER NOT NULL, ident BLOB NOT NULL, body BLOB NOT NULL, copies INTEGER NOT NULL, PRIMARY KEY (oid, ident)) STRICT",
        ),
    },
    Object {
        shape: Shape::Index(Order::PLAIN),
        kind: "index",
        name: "sqlite_autoindex_held_1",
        table: "held",
        reals: 0,
        sql: None,
    },
    Object {
        shape: Shape::Table,
        kind: "table",
        name: "pos",
        table: "pos",
        reals: 0,
        sql: Some(
            "CREATE TABLE pos (id INTEGER PRIMARY KEY NOT NULL CHECK (id = 0), lsn BLOB NOT NULL) STRICT",
        ),
    },
];

/// Whether the rows of `sqlite_schema` are those of a store, whatever their root pages are.
pub(crate) fn list_a_store(entries: &[Row]) -> bool {
    if entries.len() != OBJECTS.len() {
        return false;
    }
    for at in 0..entries.len() {
        let entry = &entries[at];
        if !is_same(entry.get(0), ValueRef::Int(at as i64 + 1)) || !lists(entry, &OBJECTS[at]) {
            return false;
        }
    }
    true
}

/// Whether a row of `sqlite_schema` has an object's type, name, table and text.
fn lists(entry: &Row, object: &Object<'_>) -> bool {
    let sql = match object.sql {
        Some(sql) => ValueRef::Text(sql.as_bytes()),
        None => ValueRef::Null,
    };
    is_same(entry.get(1), ValueRef::Text(object.kind.as_bytes()))
        && is_same(entry.get(2), ValueRef::Text(object.name.as_bytes()))
        && is_same(entry.get(3), ValueRef::Text(object.table.as_bytes()))
        && is_same(entry.get(5), sql)
}
