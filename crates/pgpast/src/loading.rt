//! The noted commits that a file's bytes hold.

ghost use Rattle.std.specs.Prelude.{◌≡◌, ◌≤◌, ◌<◌, ◌+◌, ◌*◌, ◌%◌, ◌⊎◌, ◌↔◌, ℕ, length, reverse};
ghost use Rattle.std.specs.Prelude.{IfOk, IfSome, IsTrue, OnOk, Some, None, Ok, true};
ghost use Rattle.pgrepeats.specs.Past.{Answers};
ghost use Rattle.pgrepeats.specs.declared.past.Answer.{Answer};
ghost use Rattle.pgpast.specs.Loaded.{AreUpTo, AreWhole, Follows, IsAt, IsChain, IsFirstOf, IsLast};
ghost use Rattle.pgpast.specs.Loaded.{IsNone, IsPastOf, IsWhole, MayFollow, later, newest_crc};
ghost use Rattle.pgpast.specs.Loaded.{slot_under, slots_of};
ghost use Rattle.pgpast.specs.Records.{IsFit};

use crate::fault::NotesFault;
use crate::record::{RECORD_LEN, Record};
use pgrepeats::{Commit, Past, Trouble};
use std::alloc::{AllocError, Global};

/// The first bytes of a file.
pub(crate) const HEAD: &[u8] = b"pgsub repeats 1\n";

/// How many bytes they are.
const HEAD_LEN: usize = 16;

/// How many records the ring has at most.
pub(crate) const SLOTS: usize = 65_536;

/// Where a record begins.
pub(crate) fn place_of(slot: usize) -> u64
    requires { slot < 65536 }
    ensures { result ≡ 16 + slot * 48 }
{
    HEAD_LEN as u64 + slot as u64 * RECORD_LEN as u64
}

/// Whether a file with these bytes is one of noted commits.
pub(crate) fn is_noted(bytes: &[u8]) -> bool {
    bytes.starts_with(HEAD)
}

/// Whether a file with these bytes may be made one: nothing was written, or a crash of the machine
/// took it.
pub(crate) fn is_unmade(bytes: &[u8]) -> bool {
    let head = &bytes[..bytes.len().min(HEAD_LEN)];
    head.len() < HEAD_LEN && HEAD.starts_with(head) || head.iter().all(|byte| *byte == 0)
}

// How many records these bytes have room for.
fn count_of(bytes: &[u8]) -> usize
    ensures is { result ≡ slots_of bytes.now }
    ensures room { (slot : ℕ) → slot < result → 16 + slot * 48 + 48 ≤ length bytes.now }
{
    (bytes.len().saturating_sub(HEAD_LEN) / RECORD_LEN).min(SLOTS)
}

// The record in a slot, if it can be read.
fn record_at(bytes: &[u8], slot: usize) -> Option<Record>
    requires { 16 + slot * 48 + 48 ≤ length bytes.now }
    ensures some { IfSome result (IsAt bytes.now slot) }
    ensures fit { IfSome result IsFit }
    ensures none { result ≡ None → (r : Record) → IsAt bytes.now slot r → ⊥ }
{
    let from = HEAD_LEN + slot * RECORD_LEN;
    Record::of_bytes(&bytes[from..from + RECORD_LEN])
}

/// What is found in all slots.
#[derive(Clone, Copy, Debug)]
struct Survey {
    /// The slot of the record whose commit ends last, and that record.
    newest: Option<(usize, Record)>,
    /// How many can't be read.
    unreadable: u64,
}

impl Survey {
    // Of the slots of these bytes.
    fn of(bytes: &[u8]) -> Survey
        ensures some { IfSome result.newest (λ it. (it.0 < slots_of bytes.now)
            × IsAt bytes.now it.0 it.1) }
        ensures last { IsLast bytes.now (slots_of bytes.now) result.newest }
    {
        let mut survey = Survey {
            newest: None,
            unreadable: 0,
        };
        let count = count_of(bytes);
        let mut slot = 0;
        while slot < count {
            match record_at(bytes, slot) {
                Some(record) => survey.see(slot, record),
                None => survey.unreadable = survey.unreadable.saturating_add(1),
            }
            slot += 1;
        }
        survey
    }

    // A record in a slot.
    fn see(&mut self, slot: usize, seen: Record)
        ensures { self.new.newest ≡ later self.old.newest slot seen }
    {
        match self.newest {
            Some((_, last)) if seen.commit.end <= last.commit.end => {}
            _ => self.newest = Some((slot, seen)),
        }
    }
}

// Whether the second record was noted behind the first one.
fn follows(first: &Record, second: &Record) -> bool
    ensures { IsTrue result ↔ Follows first.now second.now }
{
    second.before != 0 && first.crc == second.before && first.commit.end < second.commit.end
}

/// The slot behind this one in the ring.
pub(crate) fn slot_behind(slot: usize) -> usize
    requires { slot < 65536 }
    ensures below { result < 65536 }
    ensures next { result ≡ (slot + 1) % 65536 }
{
    (slot + 1) % SLOTS
}

// The slot before this one in a ring of so many.
fn slot_before(slot: usize, count: usize) -> usize
    requires { slot < count }
    ensures below { result < count }
    ensures is { result ≡ slot_under count slot }
{
    if slot == 0 { count - 1 } else { slot - 1 }
}

// Whether a record may be added to a chain: it is the first, or the last one was noted behind it.
fn goes_on(chain: &Vec<Record>, older: &Record) -> bool
    ensures { IsTrue result ↔ MayFollow chain.now.items older.now }
{
    match chain.last() {
        Some(last) => follows(older, last),
        None => true,
    }
}

// The record in a slot, if it may be added to a chain.
#[tactic(auto, using(crate::proofs::Slots::none_goes))]
fn next_in(bytes: &[u8], slot: usize, chain: &Vec<Record>) -> Option<Record>
    requires { slot < slots_of bytes.now }
    ensures some { IfSome result (λ it. IsAt bytes.now slot it × MayFollow chain.now.items it) }
    ensures none { result ≡ None → IsNone bytes.now slot chain.now.items }
{
    let record = record_at(bytes, slot)?;
    if goes_on(chain, &record) {
        Some(record)
    } else {
        None
    }
}

// The records that were noted one behind the other, from this one in this slot down.
fn chain_from(
    alloc: Global,
    bytes: &[u8],
    newest: usize,
    first: Record,
) -> Result<Vec<Record>, AllocError>
    requires { (newest < slots_of bytes.now) × IsAt bytes.now newest first }
    ensures chain { IfOk result (λ it. IsChain bytes.now it.items) }
    ensures first { IfOk result (λ it. IsFirstOf it.items first) }
    ensures whole { IfOk result (λ it. IsWhole bytes.now newest it.items) }
{
    let count = count_of(bytes);
    let mut chain = Vec::new(alloc);
    chain.push(first)?;
    let mut slot = newest;
    while chain.len() < count {
        slot = slot_before(slot, count);
        let Some(record) = next_in(bytes, slot, &chain) else {
            return Ok(chain);
        };
        chain.push(record)?;
    }
    Ok(chain)
}

/// The noted commits that a file's bytes hold, and where the next record goes.
#[derive(Drop)]
pub(crate) struct Loaded {
    /// The records, the oldest first.
    pub(crate) chain: Vec<Record>,
    /// The slot of the next record.
    pub(crate) next: usize,
    /// The CRC of the newest record, 0 of none.
    pub(crate) newest: u32,
    /// How many slots can't be read.
    pub(crate) unreadable: u64,
}

impl Loaded {
    /// What is found in these bytes.
    #[tactic(auto, using(crate::proofs::Slots::are_up_to, crate::proofs::Slots::are_whole))]
    pub(crate) fn of(alloc: Global, bytes: &[u8]) -> Result<Loaded, AllocError>
        ensures chain { IfOk result (λ it. IsChain bytes.now (reverse it.chain.items)
            × (it.newest ≡ newest_crc (reverse it.chain.items))) }
        ensures last { IfOk result (λ it. AreUpTo bytes.now (reverse it.chain.items)) }
        ensures whole { IfOk result (λ it. AreWhole bytes.now (reverse it.chain.items)) }
        ensures next { IfOk result (λ it. it.next < 65536) }
    {
        let survey = Survey::of(bytes);
        let Some((slot, first)) = survey.newest else {
            return Ok(Loaded {
                chain: Vec::new(alloc),
                next: 0,
                newest: 0,
                unreadable: survey.unreadable,
            });
        };
        let mut chain = chain_from(alloc, bytes, slot, first)?;
        let newest = newest_crc(&chain);
        chain.reverse();
        Ok(Loaded {
            chain,
            next: slot_behind(slot),
            newest,
            unreadable: survey.unreadable,
        })
    }

    /// A past that has heard its commits, the oldest first.
    ///
    /// # Errors
    ///
    /// `Foreign` where they contradict each other, which no commits do that were noted, and
    /// `Memory`.
    pub(crate) fn past(&self, alloc: Global) -> Result<Past, NotesFault>
        ensures { IfOk result (λ it. IsPastOf self.now.chain.items it) }
    {
        let mut past = Past::new(alloc, SLOTS);
        for record in &self.chain {
            hear(&mut past, record.commit)?;
        }
        past.begin_session();
        Ok(past)
    }
}

// The CRC of the newest record, 0 of none.
fn newest_crc(chain: &Vec<Record>) -> u32
    ensures { result ≡ newest_crc chain.now.items }
{
    match chain.first() {
        Some(record) => record.crc,
        None => 0,
    }
}

// Hears a commit that was noted.
fn hear(past: &mut Past, commit: Commit) -> Result<(), NotesFault>
    ensures { OnOk result ((a : Answer) × Answers past.old commit past.new (Ok a)) }
{
    match past.hear(commit) {
        Ok(_) => Ok(()),
        Err(Trouble::Contradicted(_)) => Err(NotesFault::Foreign),
        Err(Trouble::Memory) => Err(NotesFault::Memory),
    }
}
