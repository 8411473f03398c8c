//! Where the parts of a transaction's items begin.

ghost use Rattle.std.specs.Prelude.{◌≡◌, ◌≤◌, ◌<◌, ◌+◌, ℕ, List, Some, IfSome, length, take};
ghost use Rattle.std.specs.Prelude.{slice_get, unwrap_or};
ghost use Rattle.pgspool.specs.declared.first_place.FirstPlace.{FirstPlace};
ghost use Rattle.pgspool.specs.Labels.{LabelledItem, costs};
ghost use Rattle.pgfilespools.specs.Parts.{IsPlace, AreParts, AreBounds};

use crate::place::Place;
use std::alloc::AllocError;

/// The items of a part cost so many bytes, of which the last one's may be the most.
pub(crate) const PART_BYTES: u64 = 1_048_576;

/// A part: how many items are before its first one, and how many up to its end.
#[derive(Clone, Copy, Debug)]
pub(crate) struct Part {
    pub(crate) first: Place,
    pub(crate) last: Place,
}

// What the items before the last part cost. It is the first one where none is noted.
fn begun(parts: &[Place]) -> u64
    ensures { (i : ℕ) (p : FirstPlace) → i + 1 ≡ length parts.now → slice_get parts.now i ≡ Some p →
        result ≡ p.bytes }
{
    match parts.last() {
        Some(last) => last.bytes,
        None => 0,
    }
}

/// Notes that a part begins behind all items, where those since the last one cost enough.
pub(crate) fn note_part(parts: &mut Vec<Place>, end: Place) -> Result<(), AllocError>
    ensures { (held : List LabelledItem) → end.place ≡ length held → end.bytes ≡ costs held →
        AreParts held parts.old.items → AreParts held parts.new.items }
{
    if end.bytes.saturating_sub(begun(parts.as_slice())) >= PART_BYTES {
        parts.push(end)?;
    }
    Ok(())
}

// How many parts begin within so many items.
fn parts_within(parts: &[Place], count: usize) -> usize
    ensures within { result ≤ length parts.now }
    ensures last { (i : ℕ) (p : FirstPlace) → i + 1 ≡ result → slice_get parts.now i ≡ Some p →
        p.place ≤ count }
{
    let mut kept = parts.len();
    'behind: while kept > 0 {
        let last = parts[kept - 1];
        if last.place <= count {
            return kept;
        }
        kept -= 1;
    }
    kept
}

/// Forgets the parts that begin behind so many items.
pub(crate) fn cut_parts(parts: &mut Vec<Place>, count: usize)
    ensures { (held : List LabelledItem) → AreParts held parts.old.items →
        AreParts (take count held) parts.new.items }
{
    let kept = parts_within(parts.as_slice(), count);
    parts.truncate(kept);
}

// Where the part before this one begins.
fn place_before(parts: &[Place], next: usize) -> Place
    requires { next ≤ length parts.now }
    ensures place { (held : List LabelledItem) → AreParts held parts.now → IsPlace held result }
    ensures before { (held : List LabelledItem) (p : FirstPlace) → AreParts held parts.now →
        slice_get parts.now next ≡ Some p → result.place < p.place }
{
    match next.checked_sub(1) {
        Some(before) => parts[before],
        None => Place { place: 0, bytes: 0 },
    }
}

// Where this part begins, at the end where there is none.
fn place_at(parts: &[Place], next: usize, end: Place) -> Place
    ensures { result ≡ unwrap_or (slice_get parts.now next) end }
{
    match parts.get(next) {
        Some(part) => *part,
        None => end,
    }
}

/// The part that begins behind so many items, `None` where none does. At the end there is one
/// without items.
pub(crate) fn part_from(parts: &[Place], from: usize, end: Place) -> Option<Part>
    ensures { (held : List LabelledItem) → end.place ≡ length held → end.bytes ≡ costs held →
        AreParts held parts.now → IfSome result (λ it. AreBounds held from it.first it.last) }
{
    if from == end.place {
        return Some(Part {
            first: end,
            last: end,
        });
    }
    let next = parts.partition_point(|part| part.place <= from);
    let first = place_before(parts, next);
    if first.place != from {
        return None;
    }
    Some(Part {
        first,
        last: place_at(parts, next, end),
    })
}
