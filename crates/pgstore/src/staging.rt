//! Commits that share a transaction: each goes in after those before it, wholly or not at all, and
//! one commit stores them all.

ghost use Rattle.std.specs.Prelude.{◌≡◌, ◌≢◌, ◌<◌, ◌^◌, [], true, false, Some, IsSome, OnOk, OnErr};
ghost use Rattle.std.specs.Prelude.{IfErr};
ghost use Rattle.std.specs.Int.{w64, to_be_bytes};
ghost use Rattle.std.specs.List.{AllByRecursion};
ghost use Rattle.sqlite.specs.State.{HasCleanDisk, KeepsCommit, Survives};
ghost use Rattle.pglogical.specs.Spelling.{IsDefinition};
ghost use Rattle.pgapply.specs.Works.{IsNumbered, change_values};
ghost use Rattle.pgapply.specs.Stored.{IsOwnFault};
ghost use Rattle.pgrows.specs.Rows.{IfServing, IsNumbered as HasNumbers, state, tables_of};
ghost use Rattle.pgencoded.specs.Acts.{CountsFrom, IfOpened, IsBegun, RefusesToFold};
ghost use Rattle.pgapply.specs.Value.{Tables};
ghost use Rattle.pgencoded.specs.Spelled.{IsStored};
ghost use Rattle.pgreshaping.specs.Known.{AreKnown, HasTables};
ghost use Rattle.pgstore.specs.Sources.{IsSource, rows_in};
ghost use Rattle.pgledger.specs.Entries.{messages_of};
ghost use Rattle.pgledger.specs.Ledgers.{AppendsAtMost, Keeps, Rests, StaysOrSticks, Syncs};
ghost use Rattle.pgchanging.specs.Looks.{AppendsFrom, TellsFrom};
ghost use Rattle.pgstore.specs.Staged.{before_of, CommitsNothing, HasStaged, KeepsStaged};
ghost use Rattle.pgstore.specs.Staged.{LeavesSettled, Prepares, Returns, Settles, Stages, Unstages};

use crate::source::Source;
use crate::taking::take_changes;
use pgapply::{ChangeRefs, Commit, Misses, StoreFault};
use pgchanging::Telling;
use pgencoded::Refusal;
use pgledger::Ledger;
use pglogical::RelationDef;
use pglsn::Lsn;
use pgrel::Book;
use pgrows::Rows;
use sqlite::Alter;
use sqlite_trees::error::StoreError;
use std::alloc::Global;

/// Why a commit isn't staged.
#[derive(Drop)]
pub(crate) struct Unstaged {
    /// The fault of the commit, or of what lost the group.
    pub(crate) refusal: Refusal,
    /// Whether the commits that were staged before it are lost with it.
    pub(crate) is_lost: bool,
}

impl Unstaged {
    /// All that was staged is lost, since the store can't go back to it.
    pub(crate) fn lost(error: StoreError) -> Unstaged
        ensures own { IsOwnFault result.refusal }
        ensures lost { result.is_lost ≡ true }
    {
        Unstaged {
            refusal: Refusal::from(error),
            is_lost: true,
        }
    }

    /// All that was staged is lost, since the ledger has failed.
    pub(crate) fn untold(fault: StoreFault) -> Unstaged
        requires { IsOwnFault fault }
        ensures own { IsOwnFault result.refusal }
        ensures lost { result.is_lost ≡ true }
    {
        Unstaged {
            refusal: Refusal::new(fault),
            is_lost: true,
        }
    }
}

/// Goes back to the newest mark and drops it.
fn go_back<S: Alter>(rows: &mut Rows<S>) -> Result<(), StoreError>
    requires { IfServing S.Store rows.old ((state S.Store rows.old).marks ≢ []) }
    ensures back { HasCleanDisk (state S.Store rows.new) → OnOk result
        (Returns (state S.Store rows.old) (state S.Store rows.new)) }
    ensures nothing { CommitsNothing S.Store rows.old rows.new }
{
    rows.back()?;
    rows.keep()?;
    rows.see_kept();
    Ok(())
}

/// Drops what came since the newest mark, and the mark. Where that fails, all that was staged is
/// lost.
pub(crate) fn undo_one<S: Alter>(rows: &mut Rows<S>, refusal: Refusal) -> Unstaged
    requires { IfServing S.Store rows.old ((state S.Store rows.old).marks ≢ []) }
    ensures back { HasCleanDisk (state S.Store rows.new) → result.is_lost ≡ false →
        Returns (state S.Store rows.old) (state S.Store rows.new) }
    ensures refusal { result.is_lost ≡ false → result.refusal ≡ refusal }
    ensures lost { result.is_lost ≡ true → IsOwnFault result.refusal }
    ensures nothing { CommitsNothing S.Store rows.old rows.new }
{
    match go_back(rows) {
        Ok(()) => Unstaged {
            refusal,
            is_lost: false,
        },
        Err(error) => Unstaged {
            refusal: Refusal::from(error).behind(&refusal),
            is_lost: true,
        },
    }
}

/// Puts the changes of a commit after those that the transaction has, or nothing of it. It counts
/// those that find no row, and tells what each of them does. Where it is rejected, no definition is
/// known any more.
pub(crate) fn stage_changes<'a, S: Alter>(
    rows: &mut Rows<S>,
    alloc: Global,
    definitions: &[RelationDef],
    known: &mut Book,
    changes: &ChangeRefs<'_, 'a>,
    end: Lsn,
    misses: &mut Misses,
    telling: &mut Telling<'a>,
) -> Result<(), Unstaged>
    requires definitions { AllByRecursion IsDefinition definitions.now }
    requires numbered { AllByRecursion (IsNumbered definitions.now) changes.now }
    requires known { AreKnown S.Store known.old rows.old }
    requires stored { HasTables S.Store rows.old }
    ensures knows { AreKnown S.Store known.new rows.new }
    ensures staged { HasCleanDisk (state S.Store rows.new) → OnOk result
        (Stages S.Store rows.old rows.new definitions.now changes.now) }
    ensures counts { HasCleanDisk (state S.Store rows.new) → OnOk result
        (CountsFrom (tables_of S.Store rows.old) definitions.now changes.now end misses.old
        misses.new) }
    ensures told { HasCleanDisk (state S.Store rows.new) → OnOk result
        (TellsFrom (tables_of S.Store rows.old) definitions.now changes.now telling.old
        telling.new) }
    ensures unstaged { HasCleanDisk (state S.Store rows.new) → IfErr result (λ u.
        u.is_lost ≡ false → Unstages S.Store rows.old rows.new) }
    ensures lost { IfErr result (λ u. u.is_lost ≡ true → IsOwnFault u.refusal) }
    ensures fault { IfOpened S.Store rows.old rows.new (IfErr result (λ u.
        RefusesToFold (tables_of S.Store rows.old) definitions.now changes.now u.refusal)) }
    ensures nothing { CommitsNothing S.Store rows.old rows.new }
{
    if let Err(error) = rows.mark() {
        known.clear();
        return Err(Unstaged::lost(error));
    }
    rows.see_kept();
    if let Err(refusal) = take_changes(
        rows,
        alloc,
        definitions,
        known,
        changes,
        end,
        misses,
        telling,
    ) {
        known.clear(); // What the commit gave is undone.
        return Err(undo_one(rows, refusal));
    }
    if let Err(error) = rows.keep() {
        known.clear();
        return Err(Unstaged::lost(error));
    }
    rows.see_kept();
    Ok(())
}

/// Commits what the transaction has, with the position after its last commit. Where that fails,
/// nothing of it is kept, and no definition is known any more.
pub(crate) fn settle_rows<S: Alter>(
    rows: &mut Rows<S>,
    known: &mut Book,
    is_settled: &mut bool,
    end: Lsn,
) -> Result<(), Refusal>
    requires { AreKnown S.Store known.old rows.old }
    ensures knows { AreKnown S.Store known.new rows.new }
    ensures rests { is_settled.new ≡ true → IfServing S.Store rows.new (IsBegun S.Store rows.new) }
    ensures settled { HasCleanDisk (state S.Store rows.new) → OnOk result
        (Settles S.Store rows.old rows.new (to_be_bytes w64 end)) }
    ensures commit { HasCleanDisk (state S.Store rows.new) → OnErr result
        (KeepsCommit (state S.Store rows.old) (state S.Store rows.new)) }
    ensures numbered { HasNumbers S.Store rows.old → HasNumbers S.Store rows.new }
    ensures fault { IfErr result IsOwnFault }
    ensures crash { Survives (state S.Store rows.old) (state S.Store rows.new)
        (LeavesSettled S.Store rows.old (to_be_bytes w64 end)) }
{
    *is_settled = false;
    if let Err(error) = rows.put_position(&end.0.to_be_bytes()) {
        known.clear();
        rows.undo();
        return Err(Refusal::from(error));
    }
    if let Err(error) = rows.commit() {
        known.clear();
        return Err(Refusal::from(error));
    }
    rows.see_kept();
    *is_settled = true;
    Ok(())
}

/// Goes back to what is committed before the first commit of a group.
pub(crate) fn prepare<S: Alter + Drop>(source: &mut Source<S>, alloc: Global, is_first: bool)
    requires { IsSource S.Store source.old }
    ensures source { IsSource S.Store source.new }
    ensures prepares { Prepares S.Store (rows_in source.old) (rows_in source.new) is_first }
    ensures survives { Survives (state S.Store (rows_in source.old))
        (state S.Store (rows_in source.new)) (λ _. ⊥) }
{
    if is_first {
        source.begin(alloc);
    }
}

/// Stages a commit after those that are staged, or as the first, after what is committed.
pub(crate) fn stage_all<'a, S: Alter + Drop>(
    source: &mut Source<S>,
    alloc: Global,
    is_first: bool,
    definitions: &[RelationDef],
    changes: &ChangeRefs<'_, 'a>,
    end: Lsn,
    misses: &mut Misses,
    telling: &mut Telling<'a>,
) -> Result<(), Unstaged>
    requires source { IsSource S.Store source.old }
    requires stored { IfServing S.Store (rows_in source.old)
        ((v : Tables) × IsStored v (before_of S.Store is_first (rows_in source.old))) }
    requires definitions { AllByRecursion IsDefinition definitions.now }
    requires numbered { AllByRecursion (IsNumbered definitions.now) changes.now }
    ensures source { IsSource S.Store source.new }
    ensures range { end < 2 ^ 64 }
    ensures staged { HasCleanDisk (state S.Store (rows_in source.new)) → OnOk result
        (HasStaged S.Store is_first (rows_in source.old) (rows_in source.new) definitions.now
        changes.now) }
    ensures counts { HasCleanDisk (state S.Store (rows_in source.new)) → OnOk result
        (CountsFrom (before_of S.Store is_first (rows_in source.old)) definitions.now changes.now
        end misses.old misses.new) }
    ensures told { HasCleanDisk (state S.Store (rows_in source.new)) → OnOk result
        (TellsFrom (before_of S.Store is_first (rows_in source.old)) definitions.now changes.now
        telling.old telling.new) }
    ensures unstaged { HasCleanDisk (state S.Store (rows_in source.new)) → IfErr result (λ u.
        u.is_lost ≡ false → KeepsStaged S.Store is_first (rows_in source.old)
        (rows_in source.new)) }
    ensures lost { IfErr result (λ u. u.is_lost ≡ true → IsOwnFault u.refusal) }
    ensures fault { IfOpened S.Store (rows_in source.old) (rows_in source.new) (IfErr result (λ u.
        RefusesToFold (before_of S.Store is_first (rows_in source.old)) definitions.now changes.now
        u.refusal)) }
    ensures commit { HasCleanDisk (state S.Store (rows_in source.new)) →
        KeepsCommit (state S.Store (rows_in source.old)) (state S.Store (rows_in source.new)) }
    ensures survives { Survives (state S.Store (rows_in source.old))
        (state S.Store (rows_in source.new)) (λ _. ⊥) }
{
    prepare(source, alloc, is_first);
    match source {
        Source::Trees(rows, known, is_settled) if rows.is_sound() => {
            *is_settled = false;
            stage_changes(
                rows,
                alloc,
                definitions,
                known,
                changes,
                end,
                misses,
                telling,
            )
        }
        _ => Err(Unstaged {
            refusal: Refusal::new(StoreFault::Refused),
            is_lost: true,
        }),
    }
}

/// Stages a commit as `stage_all` does, and appends it to a ledger with the images of its changes.
/// Where the ledger fails, all that is staged is lost.
pub(crate) fn stage_told<S: Alter + Drop, L: Ledger>(
    source: &mut Source<S>,
    alloc: Global,
    is_first: bool,
    commit: &Commit<'_, '_>,
    definitions: &[RelationDef],
    changes: &ChangeRefs<'_, '_>,
    misses: &mut Misses,
    ledger: &mut L,
) -> Result<(), Unstaged>
    requires source { IsSource S.Store source.old }
    requires stored { IfServing S.Store (rows_in source.old)
        ((v : Tables) × IsStored v (before_of S.Store is_first (rows_in source.old))) }
    requires definitions { AllByRecursion IsDefinition definitions.now }
    requires numbered { AllByRecursion (IsNumbered definitions.now) changes.now }
    requires are { change_values definitions.now changes.now ≡ commit.now.work.now.changes }
    ensures source { IsSource S.Store source.new }
    ensures range { commit.now.end < 2 ^ 64 }
    ensures staged { HasCleanDisk (state S.Store (rows_in source.new)) → OnOk result
        (HasStaged S.Store is_first (rows_in source.old) (rows_in source.new) definitions.now
        changes.now) }
    ensures counts { HasCleanDisk (state S.Store (rows_in source.new)) → OnOk result
        (CountsFrom (before_of S.Store is_first (rows_in source.old)) definitions.now changes.now
        commit.now.end misses.old misses.new) }
    ensures unstaged { HasCleanDisk (state S.Store (rows_in source.new)) → IfErr result (λ u.
        u.is_lost ≡ false → KeepsStaged S.Store is_first (rows_in source.old)
        (rows_in source.new)) }
    ensures lost { IfErr result (λ u. u.is_lost ≡ true → IsOwnFault u.refusal) }
    ensures fault { IfOpened S.Store (rows_in source.old) (rows_in source.new) (IfErr result (λ u.
        RefusesToFold (before_of S.Store is_first (rows_in source.old)) definitions.now changes.now
        u.refusal)) }
    ensures commit { HasCleanDisk (state S.Store (rows_in source.new)) →
        KeepsCommit (state S.Store (rows_in source.old)) (state S.Store (rows_in source.new)) }
    ensures survives { Survives (state S.Store (rows_in source.old))
        (state S.Store (rows_in source.new)) (λ _. ⊥) }
    ensures told { HasCleanDisk (state S.Store (rows_in source.new)) → OnOk result
        (AppendsFrom L.Ledger.keeps (before_of S.Store is_first (rows_in source.old))
        commit.now.end commit.now.about (messages_of (L.Ledger.heard ledger.old))
        commit.now.work.now.changes ledger.old ledger.new) }
    ensures all_heard { OnOk result (IsSome (L.Ledger.heard ledger.old)) }
    ensures forgot { OnOk result (L.Ledger.heard ledger.new ≡ Some []) }
    ensures free { OnOk result (L.Ledger.is_stuck ledger.new ≡ false) }
    ensures at_most { AppendsAtMost L.Ledger.keeps commit.now.end ledger.old ledger.new }
    ensures untold { OnErr result (StaysOrSticks L.Ledger.is_stuck ledger.old ledger.new) }
    ensures rests { Rests L.Ledger.begins L.Ledger.is_wanting L.Ledger.is_hearing L.Ledger.outlasts
        L.Ledger.reopens ledger.old ledger.new }
{
    let mut telling = Telling::new(alloc, ledger.wants());
    stage_all(
        source,
        alloc,
        is_first,
        definitions,
        changes,
        commit.end,
        misses,
        &mut telling,
    )?;
    match ledger.append(commit, telling.images()) {
        Ok(()) => Ok(()),
        Err(fault) => Err(Unstaged::untold(fault)),
    }
}

/// Commits what is staged, up to the end of its last commit, or nothing of it.
pub(crate) fn settle_all<S: Alter + Drop>(source: &mut Source<S>, end: Lsn) -> Result<(), Refusal>
    requires { IsSource S.Store source.old }
    ensures source { IsSource S.Store source.new }
    ensures settled { HasCleanDisk (state S.Store (rows_in source.new)) → OnOk result
        (Settles S.Store (rows_in source.old) (rows_in source.new) (to_be_bytes w64 end)) }
    ensures commit { HasCleanDisk (state S.Store (rows_in source.new)) → OnErr result
        (KeepsCommit (state S.Store (rows_in source.old)) (state S.Store (rows_in source.new))) }
    ensures fault { IfErr result IsOwnFault }
    ensures crash { Survives (state S.Store (rows_in source.old))
        (state S.Store (rows_in source.new))
        (LeavesSettled S.Store (rows_in source.old) (to_be_bytes w64 end)) }
{
    match source {
        Source::Trees(rows, known, is_settled) => settle_rows(rows, known, is_settled, end),
        Source::Adopted(_) => Err(Refusal::new(StoreFault::Refused)),
    }
}

/// Syncs a ledger, and commits what is staged as `settle_all` does.
pub(crate) fn settle_told<S: Alter + Drop, L: Ledger>(
    source: &mut Source<S>,
    end: Lsn,
    ledger: &mut L,
) -> Result<(), Refusal>
    requires { IsSource S.Store source.old }
    ensures source { IsSource S.Store source.new }
    ensures settled { HasCleanDisk (state S.Store (rows_in source.new)) → OnOk result
        (Settles S.Store (rows_in source.old) (rows_in source.new) (to_be_bytes w64 end)) }
    ensures commit { HasCleanDisk (state S.Store (rows_in source.new)) → OnErr result
        (KeepsCommit (state S.Store (rows_in source.old)) (state S.Store (rows_in source.new))) }
    ensures fault { IfErr result IsOwnFault }
    ensures crash { Survives (state S.Store (rows_in source.old))
        (state S.Store (rows_in source.new))
        (LeavesSettled S.Store (rows_in source.old) (to_be_bytes w64 end)) }
    ensures crash_synced { Survives (state S.Store (rows_in source.old))
        (state S.Store (rows_in source.new))
        (λ db. LeavesSettled S.Store (rows_in source.old) (to_be_bytes w64 end) db
        × (L.Ledger.is_stuck ledger.old ≡ false)
        × Syncs L.Ledger.keeps L.Ledger.begins L.Ledger.outlasts ledger.old ledger.new) }
    ensures kept { Keeps L.Ledger.keeps ledger.old ledger.new }
    ensures heard { L.Ledger.heard ledger.new ≡ L.Ledger.heard ledger.old }
    ensures synced { OnOk result
        (Syncs L.Ledger.keeps L.Ledger.begins L.Ledger.outlasts ledger.old ledger.new) }
    ensures was_free { OnOk result (L.Ledger.is_stuck ledger.old ≡ false) }
    ensures free { OnOk result (L.Ledger.is_stuck ledger.new ≡ false) }
    ensures rests { Rests L.Ledger.begins L.Ledger.is_wanting L.Ledger.is_hearing L.Ledger.outlasts
        L.Ledger.reopens ledger.old ledger.new }
{
    if let Err(fault) = ledger.sync() {
        return Err(Refusal::new(fault));
    }
    settle_all(source, end)
}
