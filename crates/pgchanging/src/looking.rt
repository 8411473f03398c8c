//! What the changes of a commit do to single rows, where a ledger wants it: the row that a change
//! finds is read before the change is made.
//!
//! PostgreSQL documentation, Logical Replication Message Formats, Insert, Update, Delete, Truncate.

ghost use Rattle.std.specs.Prelude.{◌≡◌, ◌⊎◌, List, length, IsSome, OnOk, IfOk, IfErr, IfSome};
ghost use Rattle.sqlite.specs.State.{HasCleanDisk};
ghost use Rattle.pgtuple.specs.declared.cell.Cell.{Cell};
ghost use Rattle.pgtuple.specs.Cells.{tuple_spelling};
ghost use Rattle.pgtuple.specs.Limits.{IsWireTuple};
ghost use Rattle.pgrel.specs.Identity.{resolved};
ghost use Rattle.pgapply.specs.Apply.{rows_after};
ghost use Rattle.pgapply.specs.Stored.{IsOwnFault};
ghost use Rattle.pgapply.specs.declared.op.Op.TheVariants as op;
ghost use Rattle.pgledger.specs.declared.image.Image.TheVariants as image;
ghost use Rattle.pgrows.specs.Rows.{state};
ghost use Rattle.pgencoded.specs.Acts.{Goes, IfOpened, Refuses};
ghost use Rattle.pgchanging.specs.Looks.{FindsRow, IsImage, RefusesToFind, StaysOpen, Tells};
ghost use Rattle.pgchanging.specs.Looks.{begun_telling};

use pgapply::{Op, StoreFault};
use pgencoded::{Refusal, encode_searched, read_tuple, reborrow_prior};
use pgledger::Image;
use pglogical::{OldKind, RelationDef};
use pgrel::resolve;
use pgrows::Rows;
use pgtables::StoredRow;
use pgtuple::{Tuple, TupleRef};
use sqlite::Alter;
use std::alloc::Global;
use std::marker::Model;

/// The images of a commit's changes, where they are wanted.
#[derive(Drop)]
pub struct Telling<'a> {
    is_wanted: bool,
    images: Vec<Image<'a>>,
}

impl<'a> Model for Telling<'a> {
    ghost use Rattle.std.specs.Prelude.{Option, List, Some, None, if◌then◌else◌};
    ghost use Rattle.pgledger.specs.declared.image.Image.{Image as Told};

    ghost Value = { Option (List Told) };

    ghost view = { λ t. if t.is_wanted then Some t.images.items else None };
}

impl<'a> Telling<'a> {
    /// No image yet.
    pub fn new(alloc: Global, is_wanted: bool) -> Telling<'a>
        ensures { result ≡ begun_telling is_wanted }
    {
        Telling {
            is_wanted,
            images: Vec::new(alloc),
        }
    }

    /// The images, one for each change, or none where they aren't wanted.
    pub fn images(&self) -> &[Image<'a>]
        ensures { IfSome self.now (λ images. result.now ≡ images) }
    {
        self.images.as_slice()
    }

    /// Adds the image of a change to the rows of its relation, which has its definition already.
    /// Nothing changes, and nothing is read unless images are wanted.
    pub fn look<S: Alter>(
        &mut self,
        rows: &mut Rows<S>,
        alloc: Global,
        def: &RelationDef,
        op: &Op<'a>,
    ) -> Result<(), Refusal>
        ensures stays { IfOpened S.Store rows.old rows.new
            (OnOk result (StaysOpen S.Store rows.old rows.new)) }
        ensures told { HasCleanDisk (state S.Store rows.new) →
            OnOk result (Tells S.Store rows.old def.now op.now self.old self.new) }
        ensures fault { HasCleanDisk (state S.Store rows.new) →
            IfErr result (Refuses S.Store rows.old def.now (rows_after def.now op.now)) }
        ensures goes { Goes S.Store rows.old rows.new }
    {
        if !self.is_wanted {
            return Ok(());
        }
        let image = look_at(rows, alloc, def, op)?;
        self.images.push(image)?;
        Ok(())
    }
}

/// The row that has the identity that is searched, as it is stored.
fn find_before<S: Alter>(
    rows: &mut Rows<S>,
    alloc: Global,
    def: &RelationDef,
    prior: Option<(OldKind, TupleRef<'_>)>,
    row: Option<TupleRef<'_>>,
) -> Result<Option<StoredRow>, Refusal>
    requires one { IsSome prior ⊎ IsSome row }
    ensures found { HasCleanDisk (state S.Store rows.new) →
        IfOk result (FindsRow S.Store rows.old def.now prior.entry row.entry) }
    ensures stays { HasCleanDisk (state S.Store rows.new) →
        OnOk result (StaysOpen S.Store rows.old rows.new) }
    ensures fault { HasCleanDisk (state S.Store rows.new) →
        IfErr result (RefusesToFind S.Store rows.old def.now prior.entry row.entry) }
    ensures goes { Goes S.Store rows.old rows.new }
{
    let identity = encode_searched(alloc, def, prior, row)?;
    Ok(rows.find_row(def.oid, identity.as_slice())?)
}

/// The cells of a stored row.
fn stored_cells(alloc: Global, there: &StoredRow) -> Result<Tuple, Refusal>
    ensures cells { IfOk result (λ tuple. (cells : List Cell) → IsWireTuple cells →
        there.now.body ≡ tuple_spelling cells → tuple ≡ cells) }
    ensures fault { IfErr result (λ fault. (cells : List Cell) → IsWireTuple cells →
        there.now.body ≡ tuple_spelling cells → IsOwnFault fault) }
{
    let cells = read_tuple(there.body())?;
    match cells.to_tuple(alloc) {
        Ok(cells) => Ok(cells),
        Err(_) => Err(Refusal::new(StoreFault::Memory)),
    }
}

/// The image of an update of a stored row.
fn updated_image<'a>(
    alloc: Global,
    there: &StoredRow,
    row: &TupleRef<'a>,
) -> Result<Image<'a>, Refusal>
    ensures image { IfOk result (λ told. (cells : List Cell) → IsWireTuple cells →
        there.now.body ≡ tuple_spelling cells →
        told ≡ image.Updated cells (resolved row.now cells)) }
    ensures fault { IfErr result (λ fault. (cells : List Cell) → IsWireTuple cells →
        there.now.body ≡ tuple_spelling cells → length row.now ≡ length cells →
        IsOwnFault fault) }
{
    let old = stored_cells(alloc, there)?;
    if old.width() != row.width() {
        return Err(Refusal::new(StoreFault::NotAStore));
    }
    let new = resolve(alloc, row, &old.borrowed())?;
    Ok(Image::Updated { old, new })
}

/// What an update does to the row that it finds.
fn look_at_update<'a, S: Alter>(
    rows: &mut Rows<S>,
    alloc: Global,
    def: &RelationDef,
    prior: &Option<(OldKind, TupleRef<'a>)>,
    row: &TupleRef<'a>,
) -> Result<Image<'a>, Refusal>
    ensures image { HasCleanDisk (state S.Store rows.new) → IfOk result
        (IsImage S.Store rows.old def.now (op.Update prior.now row.now)) }
    ensures stays { HasCleanDisk (state S.Store rows.new) →
        OnOk result (StaysOpen S.Store rows.old rows.new) }
    ensures fault { HasCleanDisk (state S.Store rows.new) →
        IfErr result (Refuses S.Store rows.old def.now
        (rows_after def.now (op.Update prior.now row.now))) }
    ensures goes { Goes S.Store rows.old rows.new }
{
    match find_before(
        rows,
        alloc,
        def,
        reborrow_prior(prior),
        Some(row.reborrow()),
    )? {
        None => Ok(Image::Missed {
            old: reborrow_prior(prior),
            new: Some(row.reborrow()),
        }),
        Some(there) => updated_image(alloc, &there, row),
    }
}

/// What a delete does to the row that it finds.
fn look_at_delete<'a, S: Alter>(
    rows: &mut Rows<S>,
    alloc: Global,
    def: &RelationDef,
    kind: OldKind,
    row: &TupleRef<'a>,
) -> Result<Image<'a>, Refusal>
    ensures image { HasCleanDisk (state S.Store rows.new) → IfOk result
        (IsImage S.Store rows.old def.now (op.Delete kind row.now)) }
    ensures stays { HasCleanDisk (state S.Store rows.new) →
        OnOk result (StaysOpen S.Store rows.old rows.new) }
    ensures fault { HasCleanDisk (state S.Store rows.new) →
        IfErr result (Refuses S.Store rows.old def.now
        (rows_after def.now (op.Delete kind row.now))) }
    ensures goes { Goes S.Store rows.old rows.new }
{
    match find_before(rows, alloc, def, Some((kind, row.reborrow())), None)? {
        None => Ok(Image::Missed {
            old: Some((kind, row.reborrow())),
            new: None,
        }),
        Some(there) => Ok(Image::Deleted {
            row: stored_cells(alloc, &there)?,
        }),
    }
}

/// What a change does to the row that it finds.
fn look_at<'a, S: Alter>(
    rows: &mut Rows<S>,
    alloc: Global,
    def: &RelationDef,
    op: &Op<'a>,
) -> Result<Image<'a>, Refusal>
    ensures image { HasCleanDisk (state S.Store rows.new) → IfOk result
        (IsImage S.Store rows.old def.now op.now) }
    ensures stays { IfOpened S.Store rows.old rows.new
        (OnOk result (StaysOpen S.Store rows.old rows.new)) }
    ensures fault { HasCleanDisk (state S.Store rows.new) →
        IfErr result (Refuses S.Store rows.old def.now (rows_after def.now op.now)) }
    ensures goes { Goes S.Store rows.old rows.new }
{
    match op {
        Op::Insert { row } => Ok(Image::Inserted {
            row: row.reborrow(),
        }),
        Op::Update { prior, row } => look_at_update(rows, alloc, def, prior, row),
        Op::Delete { kind, row } => look_at_delete(rows, alloc, def, *kind, row),
        Op::Truncate => Ok(Image::Truncated),
    }
}
