//! The parts of the tests' loads.

use pgapply::ReplicaStore;
use pgload::{Load, LoadFault};
use pglogical::{Column, RelationDef};
use pglsn::Lsn;
use pgtuple::{Seq, Text};
use std::process::Abort;

/// A part of a load.
#[derive(Clone, Copy)]
pub(crate) enum Part {
    /// A table with this OID begins, with a column for each letter. The first one is its key.
    Begin(u32, &'static str),
    /// A piece of its text comes.
    Text(&'static str),
    /// Its text ends.
    EndText,
    /// The load ends at this point.
    End(u64),
}

fn text(rt: &(impl Abort + AllocGlobal), name: &str) -> Text {
    Text::from_string(String::from_str(rt.alloc(), name).expect(rt, "a name"))
}

fn definition(rt: &(impl Abort + AllocGlobal), oid: u32, names: &str) -> RelationDef {
    let mut columns = Vec::new(rt.alloc());
    for name in names.split(',') {
        let column = Column {
            key: columns.is_empty(),
            name: text(rt, name),
            type_oid: 25,
            modifier: -1,
        };
        columns.push(column).expect(rt, "a column");
    }
    RelationDef {
        oid,
        namespace: text(rt, "public"),
        name: text(rt, "t"),
        letter: b'd',
        columns: Seq::from_vec(columns),
    }
}

/// Gives a load this part.
pub(crate) fn give<C: ReplicaStore + Drop>(
    rt: &(impl Abort + AllocGlobal),
    load: &mut Load<C>,
    part: Part,
) -> Result<(), LoadFault> {
    match part {
        Part::Begin(oid, names) => {
            let definition = definition(rt, oid, names);
            assert!(rt; definition.spellable());
            load.begin(definition)
        }
        Part::Text(piece) => load.text(piece.as_bytes()),
        Part::EndText => load.end_text(),
        Part::End(point) => load.end(Lsn(point)),
    }
}
