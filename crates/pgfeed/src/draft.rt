//! A commit that comes in parts: its lines are written as they come, and its own line last, since
//! that tells how many there are and has a checksum of them.

ghost use Rattle.std.specs.Prelude.{◌≡◌, ◌+◌, ◌++◌, ℕ, List, [], IfOk, IfSome, string_bytes};
ghost use Rattle.pgledger.specs.declared.heard.Heard.{Heard as Message};
ghost use Rattle.pgledger.specs.Images.{Line, lines};
ghost use Rattle.pgfeed.specs.declared.told.Told.{Told as Definition};
ghost use Rattle.pgfeed.specs.Drafts.{IsDraft, IsLineOf};

use crate::entries::{Piece, add_lines};
use crate::heads::{COMMIT_SIZE, commit_line, commit_told};
use crate::messages::messages_text;
use crate::told::Told;
use pgapply::{About, Work};
use pgcrc::Crc32;
use pgledger::{Heard, Image};
use pglsn::Lsn;
use std::alloc::{AllocError, Global};

/// What is known of the lines of a commit so far. They are in the file, behind the room for the
/// commit's own line.
#[derive(Drop)]
pub(crate) struct Draft {
    /// How many bytes they have.
    pub(crate) size: usize,
    /// How many of them are changes.
    count: usize,
    /// The definitions that they tell.
    pub(crate) told: Vec<Told>,
    /// Their CRC-32.
    crc: Crc32,
}

impl Draft {
    /// A commit of which the messages are told, and their text.
    pub(crate) fn begin(alloc: Global, messages: &[Heard]) -> Result<(Draft, String), AllocError>
        ensures { IfOk result (λ begun. (told : List Definition) (size : ℕ) →
            IsDraft told size messages.now [] (string_bytes begun.1) begun.0) }
    {
        let text = messages_text(alloc, messages)?;
        let mut crc = Crc32::new();
        crc.update(text.as_bytes());
        let draft = Draft {
            size: text.len(),
            count: 0,
            told: Vec::new(alloc),
            crc,
        };
        Ok((draft, text))
    }

    /// The lines of a part's changes, behind those so far, in a segment that has so many bytes and
    /// these definitions.
    pub(crate) fn add(
        self,
        alloc: Global,
        told: &[Told],
        size: usize,
        part: &Work<'_>,
        images: &[Image<'_>],
    ) -> Result<(Draft, String), AllocError>
        ensures { IfOk result (λ added. (messages : List Message) (ls : List Line)
            (body : List ℕ) → IsDraft told.now size messages ls body self →
            IsDraft told.now size messages (ls ++ lines part.now.changes images.now)
            (body ++ string_bytes added.1) added.0) }
    {
        let entries = part.entries();
        let added = entries.len().min(images.len());
        let Some(start) = self.start(size) else {
            return Err(AllocError);
        };
        let Some(count) = self.count.checked_add(added) else {
            return Err(AllocError);
        };
        let piece = Piece {
            text: String::new(alloc),
            told: self.told,
        };
        let definitions = part.definitions();
        let Piece { text, told } = add_lines(
            alloc,
            told,
            start,
            self.count,
            definitions,
            &entries,
            images,
            piece,
        )?;
        let Some(size) = self.size.checked_add(text.len()) else {
            return Err(AllocError);
        };
        let mut crc = self.crc;
        crc.update(text.as_bytes());
        let draft = Draft {
            size,
            count,
            told,
            crc,
        };
        Ok((draft, text))
    }

    /// The offset behind the lines so far, in a segment that has so many bytes.
    pub(crate) fn start(&self, size: usize) -> Option<usize>
        ensures { IfSome result (λ at. at ≡ size + 256 + self.now.size) }
    {
        size.checked_add(COMMIT_SIZE)?.checked_add(self.size)
    }

    /// The commit's own line, behind the commit that ends at `prev`.
    pub(crate) fn line(
        &self,
        alloc: Global,
        end: Lsn,
        prev: Lsn,
        about: Option<About>,
    ) -> Result<String, AllocError>
        ensures { IfOk result (λ line. (told : List Definition) (size : ℕ)
            (messages : List Message) (ls : List Line) (body : List ℕ) →
            IsDraft told size messages ls body self.now →
            IsLineOf prev end about messages ls body (string_bytes line)) }
    {
        let front = commit_told(alloc, end, prev, self.size, self.count, about)?;
        let mut crc = Crc32::new();
        crc.update(front.as_bytes());
        let crc = crc.followed_by(self.crc.value(), self.size);
        commit_line(alloc, front, crc)
    }
}
