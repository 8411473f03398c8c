//! Where a feed in memory has the definitions of changes.

use crate::commits::append_inserts;
use crate::feeds::{open, text_of};
use pglsn::Lsn;
use std::process::Abort;

/// The definitions that each of some commits has, by OIDs and type modifiers, to which of them the
/// changes of each belong, and how often one is told.
struct Row {
    definitions: &'static [(u32, i32)],
    commits: &'static [&'static [usize]],
    told: usize,
}

static ROWS: [Row; 6] = [
    // changes of one table
    Row {
        definitions: &[(16384, 1)],
        commits: &[&[0, 0, 0], &[0, 0]],
        told: 1,
    },
    // to and fro between two tables
    Row {
        definitions: &[(16384, 1), (16385, 1)],
        commits: &[&[0, 1, 0, 0, 1, 1, 0], &[1, 0, 1], &[0, 0, 1]],
        told: 2,
    },
    // one table, whose definition changes in each commit
    Row {
        definitions: &[(16384, 1), (16384, 2)],
        commits: &[&[0, 0, 1, 1]],
        told: 2,
    },
    Row {
        definitions: &[(16384, 1), (16384, 2)],
        commits: &[&[0, 1, 0, 0], &[0, 1]],
        told: 4,
    },
    // it changes between changes of another table
    Row {
        definitions: &[(16384, 1), (16385, 1), (16384, 2)],
        commits: &[&[0, 1, 2, 1, 2], &[2, 1, 0]],
        told: 4,
    },
    // a definition that stands twice in the commit is told once
    Row {
        definitions: &[(16384, 1), (16384, 1)],
        commits: &[&[0, 1, 0], &[1, 1]],
        told: 1,
    },
];

/// How the line of a definition goes on behind the OID and behind its column's type.
const MIDDLE: &str = ",\"schema\":\"public\",\"table\":\"t\",\"identity\":\"f\",\"key\":null,\
    \"columns\":[[\"v\",25,";

/// The definition at an offset: its OID, and the type modifier of its column.
fn definition_at(text: &str, at: usize) -> Option<(u32, i32)> {
    let line = text.get(at..)?.strip_prefix("{\"op\":\"table\",\"oid\":")?;
    let (oid, rest) = line.split_once(MIDDLE)?;
    let (modifier, _more) = rest.split_once(']')?;
    Some((oid.parse().ok()?, modifier.parse().ok()?))
}

/// The offset that the line of an Insert names, if it is one.
fn named_by(line: &str) -> Option<usize> {
    let (at, _more) = line.strip_prefix("{\"op\":\"c\",\"at\":")?.split_once(',')?;
    at.parse().ok()
}

/// How many lines of a text tell a definition.
fn count_told(text: &str) -> usize {
    text.lines()
        .filter(|line| line.starts_with("{\"op\":\"table\","))
        .count()
}

/// The definitions that the changes of a text name, one after the other.
fn named(rt: &(impl Abort + AllocGlobal), text: &str) -> Vec<Option<(u32, i32)>> {
    let mut named = Vec::new(rt.alloc());
    for line in text.lines() {
        if let Some(at) = named_by(line) {
            named
                .push(definition_at(text, at))
                .expect(rt, "a definition");
        }
    }
    named
}

/// The definitions of a row's changes, one after the other.
fn wanted(rt: &(impl Abort + AllocGlobal), row: &Row) -> Vec<Option<(u32, i32)>> {
    let mut wanted = Vec::new(rt.alloc());
    for numbers in row.commits {
        for number in *numbers {
            let definition = row.definitions.get(*number).copied();
            wanted.push(definition).expect(rt, "a definition");
        }
    }
    wanted
}

/// The text of a feed with a row's commits.
fn fed(rt: &(impl Abort + AllocGlobal), row: &Row) -> String {
    let mut feed = open(rt, None);
    let mut end: u64 = 0x100;
    for numbers in row.commits {
        end = end.saturating_add(0x100);
        append_inserts(rt, &mut feed, Lsn(end), row.definitions, numbers).expect(rt, "a commit");
    }
    text_of(rt, feed)
}

#[test]
fn changes_name_the_definitions_that_they_have(rt: HostRuntime) {
    for row in &ROWS {
        let text = fed(&rt, row);
        assert_eq!(&rt; named(&rt, text.as_str()), wanted(&rt, row));
        assert_eq!(&rt; count_told(text.as_str()), row.told);
    }
}
