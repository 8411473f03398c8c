//! The text of an entry.

ghost use Rattle.std.specs.Prelude.{◌≡◌, ◌++◌, ◌+◌, IfOk, IfSome, OnOk, Some, length, slice_get};
ghost use Rattle.std.specs.Prelude.{string_bytes};
ghost use Rattle.std.specs.List.{AllByRecursion};
ghost use Rattle.pgcrc.specs.Crc.{crc32};
ghost use Rattle.pgapply.specs.Works.{IsNumbered, change_values};
ghost use Rattle.pgledger.specs.Entries.{entry_of};
ghost use Rattle.pgledger.specs.Images.{lines};
ghost use Rattle.pgfeed.specs.Fits.{FitsEntry};
ghost use Rattle.pgfeed.specs.Texts.{body_text, entry_body, entry_text, entry_told, fresh_text};
ghost use Rattle.pgfeed.specs.Texts.{line_of, line_text, line_told, messages_text, named, place};
ghost use Rattle.pgfeed.specs.Texts.{told_after, told_with};

use crate::changes::{Which, push_image};
use crate::heads::{COMMIT_SIZE, commit_line, commit_told};
use crate::messages::messages_text;
use crate::tables::push_table;
use crate::told::{Last, Told, known, place};
use pgapply::{ChangeRefs, Commit, Op};
use pgcrc::Crc32;
use pgledger::{Heard, Image};
use pglogical::RelationDef;
use pglsn::Lsn;
use std::alloc::{AllocError, Global};

/// The definition of a change.
fn defined<'d>(definitions: &'d [RelationDef], entry: &(usize, Op<'_>)) -> &'d RelationDef
    requires { IsNumbered definitions.now entry.now }
    ensures { slice_get definitions.now entry.now.0 ≡ Some result.now }
{
    &definitions[entry.0]
}

/// The text of a commit, or the lines that it will have, and the definitions that they tell.
#[derive(Drop)]
pub(crate) struct Piece {
    pub(crate) text: String,
    pub(crate) told: Vec<Told>,
}

/// The offset at which the definition of a change stands, which may be known. One that isn't told
/// is appended, at this offset of the segment.
fn tell(
    alloc: Global,
    told: &[Told],
    at: usize,
    known: Option<usize>,
    def: &RelationDef,
    piece: &mut Piece,
) -> Result<usize, AllocError>
    requires { IfSome known (λ it. place (told.now ++ piece.old.told.items) def.now ≡ Some it) }
    ensures named { IfOk result (λ it. it ≡ named (place (told.now ++ piece.old.told.items)
        def.now) at) }
    ensures text { OnOk result (string_bytes piece.new.text ≡ string_bytes piece.old.text
        ++ fresh_text (place (told.now ++ piece.old.told.items) def.now) def.now) }
    ensures told { OnOk result (told.now ++ piece.new.told.items
        ≡ told_with (told.now ++ piece.old.told.items)
        (place (told.now ++ piece.old.told.items) def.now) def.now at) }
    ensures stands { IfOk result (λ it. place (told.now ++ piece.new.told.items) def.now
        ≡ Some it) }
{
    if let Some(place) = known {
        return Ok(place);
    }
    if let Some(place) = place(told, &piece.told, def) {
        return Ok(place);
    }
    push_table(alloc, def, &mut piece.text)?;
    piece.told.push(Told::of(alloc, def, at)?)?;
    Ok(at)
}

/// Adds the lines of changes to a piece that begins at this offset of the segment, with the
/// definitions that aren't told there. So many changes of the commit have their lines already.
pub(crate) fn add_lines(
    alloc: Global,
    told: &[Told],
    start: usize,
    count: usize,
    definitions: &[RelationDef],
    entries: &ChangeRefs<'_, '_>,
    images: &[Image<'_>],
    begun: Piece,
) -> Result<Piece, AllocError>
    requires { AllByRecursion (IsNumbered definitions.now) entries.now }
    ensures text { IfOk result (λ piece. string_bytes piece.text ≡ string_bytes begun.text
        ++ body_text (told.now ++ begun.told.items) (start + length (string_bytes begun.text))
        count (lines (change_values definitions.now entries.now) images.now)) }
    ensures told { IfOk result (λ piece. told.now ++ piece.told.items
        ≡ told_after (told.now ++ begun.told.items) (start + length (string_bytes begun.text))
        count (lines (change_values definitions.now entries.now) images.now)) }
{
    let mut piece = begun;
    let mut last = None;
    for (i, (entry, image)) in entries.reborrow().zip(images).enumerate() {
        let def = defined(definitions, &entry);
        let Some(at) = start.checked_add(piece.text.len()) else {
            return Err(AllocError);
        };
        let Some(n) = count.checked_add(i) else {
            return Err(AllocError);
        };
        // changes of one table often follow each other
        let known = known(last, entry.0);
        let offset = tell(alloc, told, at, known, def, &mut piece)?;
        last = Some(Last {
            number: entry.0,
            offset,
        });
        push_image(alloc, Which { at: offset, n }, image, &mut piece.text)?;
    }
    Ok(piece)
}

/// The lines of a commit, which begin at this offset of the segment: its messages, and then its
/// changes, with the definitions that aren't told there.
fn body(
    alloc: Global,
    told: &[Told],
    start: usize,
    messages: &[Heard],
    definitions: &[RelationDef],
    entries: &ChangeRefs<'_, '_>,
    images: &[Image<'_>],
) -> Result<Piece, AllocError>
    requires { AllByRecursion (IsNumbered definitions.now) entries.now }
    ensures text { IfOk result (λ piece. string_bytes piece.text ≡ messages_text messages.now
        ++ body_text told.now (start + length (messages_text messages.now)) 0
        (lines (change_values definitions.now entries.now) images.now)) }
    ensures told { IfOk result (λ piece. told.now ++ piece.told.items ≡ told_after told.now
        (start + length (messages_text messages.now)) 0
        (lines (change_values definitions.now entries.now) images.now)) }
{
    let piece = Piece {
        text: messages_text(alloc, messages)?,
        told: Vec::new(alloc),
    };
    add_lines(alloc, told, start, 0, definitions, entries, images, piece)
}

/// The CRC-32 of two texts, one after the other.
fn crc_of(front: &str, rest: &str) -> u32
    ensures { result ≡ crc32 (front.now ++ rest.now) }
{
    let mut crc = Crc32::new();
    crc.update(front.as_bytes());
    crc.update(rest.as_bytes());
    crc.value()
}

/// The text of an entry after the commit that ends at `prev`, in a segment that has so many bytes
/// and these definitions: the line of the commit, with the CRC-32 of what it tells and of all that
/// follows, then one for each message, and then one for each change, with the definitions of
/// relations that aren't told.
pub(crate) fn entry_text(
    alloc: Global,
    told: &[Told],
    size: usize,
    prev: Lsn,
    messages: &[Heard],
    commit: &Commit<'_, '_>,
    images: &[Image<'_>],
) -> Result<Piece, AllocError>
    ensures text { IfOk result (λ piece. string_bytes piece.text ≡ entry_text prev
        (entry_of commit.now.end commit.now.about messages.now commit.now.work.now.changes
        images.now) (entry_body told.now (size + 256) (entry_of commit.now.end commit.now.about
        messages.now commit.now.work.now.changes images.now))) }
    ensures told { IfOk result (λ piece. told.now ++ piece.told.items ≡ entry_told told.now
        (size + 256) (entry_of commit.now.end commit.now.about messages.now
        commit.now.work.now.changes images.now)) }
    ensures fits { OnOk result (FitsEntry prev
        (entry_of commit.now.end commit.now.about messages.now commit.now.work.now.changes
        images.now) (entry_body told.now (size + 256) (entry_of commit.now.end commit.now.about
        messages.now commit.now.work.now.changes images.now))) }
{
    let Some(start) = size.checked_add(COMMIT_SIZE) else {
        return Err(AllocError);
    };
    let definitions = commit.work.definitions();
    let entries = commit.work.entries();
    let count = entries.len().min(images.len());
    let body = body(alloc, told, start, messages, definitions, &entries, images)?;
    let lines = body.text.as_str();
    let front = commit_told(alloc, commit.end, prev, lines.len(), count, commit.about)?;
    let crc = crc_of(front.as_str(), lines);
    let mut text = commit_line(alloc, front, crc)?;
    text.push_str(lines)?;
    Ok(Piece {
        text,
        told: body.told,
    })
}
