//! Commits for a feed.

ghost use Rattle.std.specs.Prelude.{OnOk};
ghost use Rattle.pgledger.specs.Drafts.{HasDraft};

use pgapply::{Commit, Op, StoreFault, Work};
use pgledger::{Image, Ledger};
use pglogical::{Column, RelationDef};
use pglsn::Lsn;
use pgtuple::{CellRef, Seq, Text, Tuple};
use std::process::Abort;

fn text(rt: &(impl Abort + AllocGlobal), text: &str) -> Text {
    Text::from_string(String::from_str(rt.alloc(), text).expect(rt, "a text"))
}

/// A table t with this OID, without a key and of one column with this type modifier.
fn definition(rt: &(impl Abort + AllocGlobal), oid: u32, modifier: i32) -> RelationDef {
    let column = Column {
        key: false,
        name: text(rt, "v"),
        type_oid: 25,
        modifier,
    };
    let mut columns = Vec::new(rt.alloc());
    columns.push(column).expect(rt, "a column");
    RelationDef {
        oid,
        namespace: text(rt, "public"),
        name: text(rt, "t"),
        letter: b'f',
        columns: Seq::from_vec(columns),
    }
}

fn row(rt: &(impl Abort + AllocGlobal)) -> Tuple {
    let mut cells = Vec::new(rt.alloc());
    let cell = CellRef::Text("a").to_cell(rt.alloc()).expect(rt, "a cell");
    cells.push(cell).expect(rt, "a cell");
    Tuple::from_cells(cells).expect(rt, "a tuple")
}

/// A work that has these definitions, told by their OIDs and type modifiers, and no change.
fn work_of<'a>(rt: &(impl Abort + AllocGlobal), definitions: &[(u32, i32)]) -> Work<'a> {
    let mut work = Work::new(rt.alloc());
    for (oid, modifier) in definitions {
        let def = definition(rt, *oid, *modifier);
        assert!(rt; def.spellable());
        let _number = work.define(def).expect(rt, "a definition");
    }
    work
}

/// These definitions, and an Insert of the row for each of these numbers of them, with its image.
fn inserts_of<'a>(
    rt: &(impl Abort + AllocGlobal),
    row: &'a Tuple,
    definitions: &[(u32, i32)],
    numbers: &[usize],
) -> (Work<'a>, Vec<Image<'a>>) {
    let mut work = work_of(rt, definitions);
    let mut images = Vec::new(rt.alloc());
    for number in numbers {
        assert!(rt; *number < work.definitions().len());
        let row = row.borrowed();
        let image = Image::Inserted {
            row: row.reborrow(),
        };
        work.change(*number, Op::Insert { row })
            .expect(rt, "a change");
        images.push(image).expect(rt, "an image");
    }
    (work, images)
}

/// Appends a part of a commit, with Inserts as `append_inserts` does.
pub(crate) fn append_part<L: Ledger>(
    rt: &(impl Abort + AllocGlobal),
    ledger: &mut L,
    definitions: &[(u32, i32)],
    numbers: &[usize],
) -> Result<(), StoreFault>
    requires { HasDraft L.drafts ledger.old }
    ensures { OnOk result (HasDraft L.drafts ledger.new) }
{
    let row = row(rt);
    let (work, images) = inserts_of(rt, &row, definitions, numbers);
    ledger.append_part(&work, &images)
}

/// Appends a commit as `append_inserts` does, in two parts.
pub(crate) fn append_in_parts<L: Ledger>(
    rt: &(impl Abort + AllocGlobal),
    ledger: &mut L,
    end: Lsn,
    definitions: &[(u32, i32)],
    first: &[usize],
    second: &[usize],
) -> Result<(), StoreFault> {
    ledger.begin_parts(None)?;
    append_part(rt, ledger, definitions, first)?;
    append_part(rt, ledger, definitions, second)?;
    ledger.end_parts(end, None)
}

/// Appends a commit with these definitions, and with an Insert for each of these numbers of them.
pub(crate) fn append_inserts<L: Ledger>(
    rt: &(impl Abort + AllocGlobal),
    ledger: &mut L,
    end: Lsn,
    definitions: &[(u32, i32)],
    numbers: &[usize],
) -> Result<(), StoreFault> {
    let row = row(rt);
    let (work, images) = inserts_of(rt, &row, definitions, numbers);
    let commit = Commit {
        end,
        about: None,
        work: &work,
    };
    ledger.append(&commit, &images)
}

/// Appends a commit of one Insert. Since the table is another one at each LSN, the commit tells its
/// definition wherever the feed was opened.
pub(crate) fn append_at<L: Ledger>(
    rt: &(impl Abort + AllocGlobal),
    ledger: &mut L,
    end: Lsn,
) -> Result<(), StoreFault> {
    let modifier = i32::try_from(end.0 / 0x100).expect(rt, "a modifier");
    append_inserts(rt, ledger, end, &[(16384, modifier)], &[0])
}

/// The same in two parts, of which the second has no change.
pub(crate) fn append_parts_at<L: Ledger>(
    rt: &(impl Abort + AllocGlobal),
    ledger: &mut L,
    end: Lsn,
) -> Result<(), StoreFault> {
    let modifier = i32::try_from(end.0 / 0x100).expect(rt, "a modifier");
    append_in_parts(rt, ledger, end, &[(16384, modifier)], &[0], &[])
}
