//! What a reader may rest on, as contracts of functions that do nothing.

ghost use Rattle.std.specs.Prelude.{◌≡◌, ◌<◌, ◌^◌, ◌++◌, ℕ, List, Option, length};
ghost use Rattle.pgapply.specs.declared.commit.About.{About};
ghost use Rattle.pgfeed.specs.Fits.{FitsLine};
ghost use Rattle.pgfeed.specs.Reading.{BeginsWith, ChangesNameDefinitions};
ghost use Rattle.pgfeed.specs.Reading.{EntriesHaveTheirCrc, LinesLeadOver, MessagesAreTold};
ghost use Rattle.pgfeed.specs.Reading.{TextIsReadInOneWay};
ghost use Rattle.pgfeed.specs.Texts.{closing_line, commit_line};
ghost use Rattle.pgfeed.specs.declared.mark.Mark.{Mark};
ghost use Rattle.pgfeed.specs.Whole.{LinesTellWholeRows};
ghost use Rattle.pgfeed.specs.Beside.{FeedsBegin, FeedsGoOn, LeftIsReopened, RestsLead};
ghost use Rattle.pgfeed.specs.Lasting.{FeedsOutlastCrashes};

use crate::folder::Folder;

/// The line of a commit has 256 bytes, whatever numbers of 64 bits it tells.
pub fn lines_of_commits_fit()
    ensures { (end prev bytes changes : ℕ) (about : Option About) (crc : ℕ) →
        FitsLine end prev bytes changes about → crc < 2 ^ 32 →
        length (commit_line end prev bytes changes about crc) ≡ 256 }
{}

/// The line that ends a segment has 256 bytes too, and doesn't begin as that of a commit.
pub fn lines_that_end_segments()
    ensures size { (last : ℕ) → last < 2 ^ 64 → length (closing_line last) ≡ 256 }
    ensures apart { (last at : ℕ) (mark : Mark) (rest : List ℕ) →
        BeginsWith at mark (closing_line last ++ rest) → ⊥ }
{}

/// The lines of commits lead from one entry to the next, whatever follows the entries. So who reads
/// nothing else has each commit's end, and knows where its lines are.
pub fn lines_lead_over_entries()
    ensures { LinesLeadOver }
{}

/// What a feed has of a commit passes the test that opening makes, and readers: its line tells the
/// CRC-32 of what stands before that, and of the lines that follow.
pub fn entries_have_their_crc()
    ensures { EntriesHaveTheirCrc }
{}

/// Each change of a commit names the offset in the segment at which its definition stands: before
/// the commit, or in its lines. So who has the segment reads each commit alone.
pub fn changes_name_definitions()
    ensures { ChangesNameDefinitions }
{}

/// The lines of a commit tell its messages, and in one way: commits with the same lines have the
/// same messages, in the same order. No line of a change or a definition is taken for one.
pub fn messages_are_told()
    ensures { MessagesAreTold }
{}

/// A text is read in one way up to an LSN: its commits have these ends and lengths, and no others.
pub fn text_is_read_in_one_way()
    ensures { TextIsReadInOneWay }
{}

/// Rows that are told have all their cells: one that wasn't sent is only in what was sent for a
/// change that found no row. `pgledger::lines_lead` says that the lines of commits lead from
/// the rows before to those after.
pub fn lines_tell_whole_rows()
    ensures { LinesTellWholeRows }
{}

/// Let a folder have what a crash at any moment leaves of a feed, or all of it but a front of
/// segments that others removed once they had ended. A feed that is opened there at an LSN up to
/// which the entries were synced keeps exactly those up to it, from the first segment that is
/// there.
pub fn feeds_outlast_crashes<F: Folder + Drop>()
    ensures { FeedsOutlastCrashes F.File.seen F.File.may_leave F.File.is_clean F.is_true F.places
        F.has }
{}

/// A feed beside a store, from start to start. In a folder without segments it begins with the
/// store, whatever that holds. Opened again on what a crash leaves of it, or on all of that but a
/// front of segments that others removed, it leads to what it led to. So the entries that it keeps
/// lead from some tables where it begins to those that the store holds.
pub fn feeds_lead_to_their_store<F: Folder + Drop>()
    ensures begin { FeedsBegin F.File.seen F.File.may_leave F.File.is_clean F.is_true F.places
        F.has }
    ensures reopened { LeftIsReopened F.File.seen F.File.may_leave F.File.is_clean F.is_true
        F.places F.has }
    ensures go_on { FeedsGoOn F.File.seen F.File.may_leave F.File.is_clean F.is_true F.places
        F.has }
    ensures lead { RestsLead F.File.seen F.File.may_leave F.File.is_clean F.is_true F.places
        F.has }
{}
