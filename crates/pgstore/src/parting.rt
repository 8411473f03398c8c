//! A commit whose changes come part after part: all of them go into the transaction, or none. One
//! part is in memory at a time, and a ledger is given its images.

ghost use Rattle.std.specs.Prelude.{◌≡◌, ◌^◌, ◌<◌, [], true, false, Some, IsSome, OnOk, OnErr};
ghost use Rattle.std.specs.Prelude.{IfErr};
ghost use Rattle.sqlite.specs.State.{HasCleanDisk, KeepsCommit, Survives};
ghost use Rattle.pgapply.specs.Stored.{IsOwnFault};
ghost use Rattle.pgapply.specs.Value.{Tables};
ghost use Rattle.pgledger.specs.Drafts.{HasDraft};
ghost use Rattle.pgledger.specs.Entries.{messages_of};
ghost use Rattle.pgledger.specs.Ledgers.{AppendsAtMost, Keeps, Rests};
ghost use Rattle.pgrows.specs.Rows.{IfServing, state, tables_of};
ghost use Rattle.pgencoded.specs.Acts.{Goes, IfOpened};
ghost use Rattle.pgencoded.specs.Spelled.{IsStored};
ghost use Rattle.pgchanging.specs.Looks.{AppendsFrom};
ghost use Rattle.pgreshaping.specs.Known.{AreKnown, AreStored, HasTables};
ghost use Rattle.pgstore.specs.Parted.{AddsImages, HasStagedParts, OnlyDrafts};
ghost use Rattle.pgstore.specs.Parted.{RefusesChanges, StagesParts, TakesParts};
ghost use Rattle.pgstore.specs.Sources.{IsSource, rows_in};
ghost use Rattle.pgstore.specs.Staged.{before_of, CommitsNothing, KeepsStaged, Unstages};

use crate::source::Source;
use crate::staging::{Unstaged, prepare, undo_one};
use crate::taking::take_changes;
use pgapply::{About, Misses, Parts, StoreFault};
use pgchanging::Telling;
use pgencoded::Refusal;
use pgledger::Ledger;
use pglsn::Lsn;
use pgrel::Book;
use pgrows::Rows;
use sqlite::Alter;
use std::alloc::Global;

/// Makes the changes of the part that was gone on to, as `take_changes` does, and gives the ledger
/// their images.
fn take_part<S: Alter, P: Parts, L: Ledger>(
    rows: &mut Rows<S>,
    alloc: Global,
    known: &mut Book,
    parts: &P,
    end: Lsn,
    misses: &mut Misses,
    ledger: &mut L,
) -> Result<(), Refusal>
    requires known { AreKnown S.Store known.old rows.old }
    requires stored { HasTables S.Store rows.old }
    ensures made { OnOk result (IfOpened S.Store rows.old rows.new (TakesParts S.Store rows.old
        rows.new (P.is_honest parts.now) (P.here parts.now) [] end misses.old misses.new)) }
    ensures fault { IfOpened S.Store rows.old rows.new (P.is_honest parts.now →
        IfErr result (RefusesChanges (tables_of S.Store rows.old) (P.here parts.now))) }
    ensures knows { OnOk result (IfOpened S.Store rows.old rows.new
        (AreStored known.new (tables_of S.Store rows.new))) }
    ensures goes { Goes S.Store rows.old rows.new }
    ensures told { OnOk result (IfOpened S.Store rows.old rows.new (P.is_honest parts.now →
        AddsImages L.Ledger.drafts L.Ledger.is_wanting (tables_of S.Store rows.old)
        (P.here parts.now) ledger.old ledger.new)) }
    ensures drafted { OnOk result (HasDraft L.Ledger.drafts ledger.old →
        HasDraft L.Ledger.drafts ledger.new) }
    ensures drafts { OnlyDrafts L.Ledger.begins L.Ledger.keeps L.Ledger.outlasts L.Ledger.is_stuck
        L.Ledger.is_wanting L.Ledger.is_hearing L.Ledger.heard L.Ledger.reopens ledger.old
        ledger.new }
{
    let work = parts.part()?;
    let mut telling = Telling::new(alloc, ledger.wants());
    take_changes(
        rows,
        alloc,
        work.definitions(),
        known,
        &work.entries(),
        end,
        misses,
        &mut telling,
    )?;
    ledger.append_part(&work, telling.images())?;
    Ok(())
}

/// Makes the changes of all parts in their order, and gives the ledger their images, up to the
/// first that is rejected or a part that can't be had.
fn take_parts<S: Alter, P: Parts, L: Ledger>(
    rows: &mut Rows<S>,
    alloc: Global,
    known: &mut Book,
    parts: &mut P,
    end: Lsn,
    misses: &mut Misses,
    ledger: &mut L,
) -> Result<(), Refusal>
    requires known { AreKnown S.Store known.old rows.old }
    requires stored { HasTables S.Store rows.old }
    ensures made { OnOk result (IfOpened S.Store rows.old rows.new (TakesParts S.Store rows.old
        rows.new (P.is_honest parts.new) (P.left parts.old) [] end misses.old misses.new)) }
    ensures fault { IfOpened S.Store rows.old rows.new (P.is_honest parts.new →
        IfErr result (RefusesChanges (tables_of S.Store rows.old) (P.left parts.old))) }
    ensures knows { OnOk result (IfOpened S.Store rows.old rows.new
        (AreStored known.new (tables_of S.Store rows.new))) }
    ensures goes { Goes S.Store rows.old rows.new }
    ensures leads { P.leads parts.old parts.new }
    ensures told { OnOk result (IfOpened S.Store rows.old rows.new (P.is_honest parts.new →
        AddsImages L.Ledger.drafts L.Ledger.is_wanting (tables_of S.Store rows.old)
        (P.left parts.old) ledger.old ledger.new)) }
    ensures drafted { OnOk result (HasDraft L.Ledger.drafts ledger.old →
        HasDraft L.Ledger.drafts ledger.new) }
    ensures drafts { OnlyDrafts L.Ledger.begins L.Ledger.keeps L.Ledger.outlasts L.Ledger.is_stuck
        L.Ledger.is_wanting L.Ledger.is_hearing L.Ledger.heard L.Ledger.reopens ledger.old
        ledger.new }
{
    'parts: while parts.advance()? {
        take_part(rows, alloc, known, parts, end, misses, ledger)?;
    }
    Ok(())
}

/// Puts the changes of all parts after those that the transaction has, or nothing of them. It
/// counts those that find no row, and gives the ledger the images of each part. Where a change is
/// rejected, a part can't be had or the ledger fails, no definition is known any more.
fn stage_parts_changes<S: Alter, P: Parts, L: Ledger>(
    rows: &mut Rows<S>,
    alloc: Global,
    known: &mut Book,
    parts: &mut P,
    end: Lsn,
    misses: &mut Misses,
    ledger: &mut L,
) -> Result<(), Unstaged>
    requires known { AreKnown S.Store known.old rows.old }
    requires stored { HasTables S.Store rows.old }
    ensures knows { AreKnown S.Store known.new rows.new }
    ensures staged { HasCleanDisk (state S.Store rows.new) → OnOk result (StagesParts S.Store
        rows.old rows.new (P.is_honest parts.new) (P.left parts.old) end misses.old misses.new) }
    ensures unstaged { HasCleanDisk (state S.Store rows.new) → IfErr result (λ u.
        u.is_lost ≡ false → Unstages S.Store rows.old rows.new) }
    ensures lost { IfErr result (λ u. u.is_lost ≡ true → IsOwnFault u.refusal) }
    ensures fault { IfOpened S.Store rows.old rows.new (P.is_honest parts.new → IfErr result (λ u.
        RefusesChanges (tables_of S.Store rows.old) (P.left parts.old) u.refusal)) }
    ensures nothing { CommitsNothing S.Store rows.old rows.new }
    ensures leads { P.leads parts.old parts.new }
    ensures told { HasCleanDisk (state S.Store rows.new) → OnOk result (P.is_honest parts.new →
        AddsImages L.Ledger.drafts L.Ledger.is_wanting (tables_of S.Store rows.old)
        (P.left parts.old) ledger.old ledger.new) }
    ensures drafted { OnOk result (HasDraft L.Ledger.drafts ledger.old →
        HasDraft L.Ledger.drafts ledger.new) }
    ensures drafts { OnlyDrafts L.Ledger.begins L.Ledger.keeps L.Ledger.outlasts L.Ledger.is_stuck
        L.Ledger.is_wanting L.Ledger.is_hearing L.Ledger.heard L.Ledger.reopens ledger.old
        ledger.new }
{
    if let Err(error) = rows.mark() {
        known.clear();
        return Err(Unstaged::lost(error));
    }
    rows.see_kept();
    if let Err(refusal) = take_parts(rows, alloc, known, parts, end, misses, ledger) {
        known.clear(); // What the commit gave is undone.
        return Err(undo_one(rows, refusal));
    }
    if let Err(error) = rows.keep() {
        known.clear();
        return Err(Unstaged::lost(error));
    }
    rows.see_kept();
    Ok(())
}

/// Stages a commit of parts after those that are staged, or as the first, after what is committed,
/// and gives the ledger the images of each part.
fn stage_parts_all<S: Alter + Drop, P: Parts, L: Ledger>(
    source: &mut Source<S>,
    alloc: Global,
    is_first: bool,
    parts: &mut P,
    end: Lsn,
    misses: &mut Misses,
    ledger: &mut L,
) -> Result<(), Unstaged>
    requires source { IsSource S.Store source.old }
    requires stored { IfServing S.Store (rows_in source.old)
        ((v : Tables) × IsStored v (before_of S.Store is_first (rows_in source.old))) }
    ensures source { IsSource S.Store source.new }
    ensures range { end < 2 ^ 64 }
    ensures staged { HasCleanDisk (state S.Store (rows_in source.new)) → OnOk result
        (HasStagedParts S.Store is_first (rows_in source.old) (rows_in source.new)
        (P.is_honest parts.new) (P.left parts.old) end misses.old misses.new) }
    ensures unstaged { HasCleanDisk (state S.Store (rows_in source.new)) → IfErr result (λ u.
        u.is_lost ≡ false → KeepsStaged S.Store is_first (rows_in source.old)
        (rows_in source.new)) }
    ensures lost { IfErr result (λ u. u.is_lost ≡ true → IsOwnFault u.refusal) }
    ensures fault { IfOpened S.Store (rows_in source.old) (rows_in source.new)
        (P.is_honest parts.new → IfErr result (λ u. RefusesChanges
        (before_of S.Store is_first (rows_in source.old)) (P.left parts.old) u.refusal)) }
    ensures commit { HasCleanDisk (state S.Store (rows_in source.new)) →
        KeepsCommit (state S.Store (rows_in source.old)) (state S.Store (rows_in source.new)) }
    ensures survives { Survives (state S.Store (rows_in source.old))
        (state S.Store (rows_in source.new)) (λ _. ⊥) }
    ensures leads { P.leads parts.old parts.new }
    ensures told { HasCleanDisk (state S.Store (rows_in source.new)) → OnOk result
        (P.is_honest parts.new → AddsImages L.Ledger.drafts L.Ledger.is_wanting
        (before_of S.Store is_first (rows_in source.old)) (P.left parts.old) ledger.old
        ledger.new) }
    ensures drafted { OnOk result (HasDraft L.Ledger.drafts ledger.old →
        HasDraft L.Ledger.drafts ledger.new) }
    ensures drafts { OnlyDrafts L.Ledger.begins L.Ledger.keeps L.Ledger.outlasts L.Ledger.is_stuck
        L.Ledger.is_wanting L.Ledger.is_hearing L.Ledger.heard L.Ledger.reopens ledger.old
        ledger.new }
{
    prepare(source, alloc, is_first);
    match source {
        Source::Trees(rows, known, is_settled) if rows.is_sound() => {
            *is_settled = false;
            stage_parts_changes(rows, alloc, known, parts, end, misses, ledger)
        }
        _ => Err(Unstaged {
            refusal: Refusal::new(StoreFault::Refused),
            is_lost: true,
        }),
    }
}

/// Stages a commit of parts as `stage_parts_all` does, and has the ledger keep it once all are
/// made. Where it isn't staged, the ledger drops what it was given.
pub(crate) fn stage_parts_told<S: Alter + Drop, P: Parts, L: Ledger>(
    source: &mut Source<S>,
    alloc: Global,
    is_first: bool,
    parts: &mut P,
    end: Lsn,
    about: Option<About>,
    misses: &mut Misses,
    ledger: &mut L,
) -> Result<(), Unstaged>
    requires source { IsSource S.Store source.old }
    requires stored { IfServing S.Store (rows_in source.old)
        ((v : Tables) × IsStored v (before_of S.Store is_first (rows_in source.old))) }
    ensures source { IsSource S.Store source.new }
    ensures range { end < 2 ^ 64 }
    ensures staged { HasCleanDisk (state S.Store (rows_in source.new)) → OnOk result
        (HasStagedParts S.Store is_first (rows_in source.old) (rows_in source.new)
        (P.is_honest parts.new) (P.left parts.old) end misses.old misses.new) }
    ensures unstaged { HasCleanDisk (state S.Store (rows_in source.new)) → IfErr result (λ u.
        u.is_lost ≡ false → KeepsStaged S.Store is_first (rows_in source.old)
        (rows_in source.new)) }
    ensures lost { IfErr result (λ u. u.is_lost ≡ true → IsOwnFault u.refusal) }
    ensures fault { IfOpened S.Store (rows_in source.old) (rows_in source.new)
        (P.is_honest parts.new → IfErr result (λ u. RefusesChanges
        (before_of S.Store is_first (rows_in source.old)) (P.left parts.old) u.refusal)) }
    ensures commit { HasCleanDisk (state S.Store (rows_in source.new)) →
        KeepsCommit (state S.Store (rows_in source.old)) (state S.Store (rows_in source.new)) }
    ensures survives { Survives (state S.Store (rows_in source.old))
        (state S.Store (rows_in source.new)) (λ _. ⊥) }
    ensures leads { P.leads parts.old parts.new }
    ensures told { HasCleanDisk (state S.Store (rows_in source.new)) → OnOk result
        (P.is_honest parts.new → AppendsFrom L.Ledger.keeps
        (before_of S.Store is_first (rows_in source.old)) end about
        (messages_of (L.Ledger.heard ledger.old)) (P.left parts.old) ledger.old ledger.new) }
    ensures all_heard { OnOk result (IsSome (L.Ledger.heard ledger.old)) }
    ensures forgot { OnOk result (L.Ledger.heard ledger.new ≡ Some []) }
    ensures free { OnOk result (L.Ledger.is_stuck ledger.new ≡ false) }
    ensures was_free { L.Ledger.is_stuck ledger.new ≡ false →
        L.Ledger.is_stuck ledger.old ≡ false }
    ensures at_most { AppendsAtMost L.Ledger.keeps end ledger.old ledger.new }
    ensures untold { OnErr result (L.Ledger.is_stuck ledger.new ≡ false →
        Keeps L.Ledger.keeps ledger.old ledger.new) }
    ensures rests { Rests L.Ledger.begins L.Ledger.is_wanting L.Ledger.is_hearing L.Ledger.outlasts
        L.Ledger.reopens ledger.old ledger.new }
{
    let begun = about; // A copy: `end_parts` takes it too.
    if let Err(fault) = ledger.begin_parts(begun) {
        return Err(Unstaged::untold(fault));
    }
    if let Err(unstaged) = stage_parts_all(source, alloc, is_first, parts, end, misses, ledger) {
        ledger.drop_parts();
        return Err(unstaged);
    }
    match ledger.end_parts(end, about) {
        Ok(()) => Ok(()),
        Err(fault) => Err(Unstaged::untold(fault)),
    }
}
