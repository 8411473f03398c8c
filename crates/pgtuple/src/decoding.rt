//! Tuples, read from bytes.
//!
//! PostgreSQL documentation, Logical Replication Message Formats, TupleData.

ghost use Rattle.std.specs.Prelude.{◌≡◌, ◌≢◌, ◌++◌, ℕ, List, length, MatchResult, IfOk, IfErr, Ok};
ghost use Rattle.std.specs.Prelude.{Err, drop};
ghost use Rattle.pgtuple.specs.declared.cell.Cell.{Cell};
ghost use Rattle.pgtuple.specs.Limits.{IsWireTuple};
ghost use Rattle.pgtuple.specs.Borrowed.{cell_value};
ghost use Rattle.pgtuple.specs.Spelled.{IsReadTo};
ghost use Rattle.pgtuple.specs.Cells.{tuple_spelling};
ghost use Rattle.pgtuple.specs.Laws.{BeginsWithTuple};
ghost use Rattle.pgtuple.specs.Faults.{HasTupleFault};
ghost use Rattle.pgtuple.specs.Reading.{Fails, cell_at, cells_at, tuple_from, tuple_at};

use crate::borrowed::{CellRef, TupleRef};
use crate::cell::Tuple;
use crate::fault::TupleFault;
use crate::limits::MAX_COLUMNS;
use crate::reader::Reader;
use std::alloc::Global;

/// A cell: its kind, and after `t` and `b` its length and its bytes.
#[tactic(auto, unfolding(crate::specs::Reading::cell_at, crate::specs::Reading::byte_at, crate::specs::Reading::text_cell_at, crate::specs::Reading::binary_cell_at))]
#[inline(always)]
pub(crate) fn cell<'a>(reader: &mut Reader<'a>) -> Result<CellRef<'a>, TupleFault>
    ensures { MatchResult result (λ c. cell_at reader.old ≡ Ok (cell_value c, reader.new))
        (λ f. cell_at reader.old ≡ Err f) }
{
    let offset = reader.offset();
    match reader.u8()? {
        b'n' => Ok(CellRef::Null),
        b'u' => Ok(CellRef::Unchanged),
        b't' => {
            let length = reader.length()?;
            let text = reader.text(length)?;
            Ok(CellRef::Text(text))
        }
        b'b' => {
            let length = reader.length()?;
            let bytes = reader.bytes(length)?;
            Ok(CellRef::Binary(bytes))
        }
        _ => Err(TupleFault::BadKind(offset)),
    }
}

/// Passes over that many cells.
fn cells(count: usize, reader: &mut Reader<'_>) -> Result<(), TupleFault>
    ensures { MatchResult result (λ _. IsReadTo (cells_at count reader.old) reader.new)
        (λ f. cells_at count reader.old ≡ Err f) }
{
    for _ in 0..count {
        cell(reader)?;
    }
    Ok(())
}

/// Passes over the number of columns, and that many cells.
fn columns(reader: &mut Reader<'_>) -> Result<(), TupleFault>
    ensures { MatchResult result (λ _. IsReadTo (tuple_from reader.old) reader.new)
        (λ f. tuple_from reader.old ≡ Err f) }
{
    let offset = reader.offset();
    let width = reader.u16()?;
    if width > MAX_COLUMNS {
        return Err(TupleFault::TooManyColumns(offset));
    }
    cells(width as usize, reader)
}

/// The tuple at the front of these bytes, borrowed from them, and how many of them it takes. Text
/// is UTF-8 and tested once. It asks for no memory.
pub fn decode_ref(bytes: &[u8]) -> Result<(TupleRef<'_>, usize), TupleFault>
    // The bytes begin with the encoding of the tuple, which ends there.
    ensures found { IfOk result (λ x. IsWireTuple x.0
        × (bytes.now ≡ tuple_spelling x.0 ++ drop x.1 bytes.now)
        × (x.1 ≡ length (tuple_spelling x.0))) }

    // The same as the definition's reading: a tuple that is encoded there is read,
    ensures exact { MatchResult result (λ x. tuple_at bytes.now
        ≡ Ok (x.0, (x.1, drop x.1 bytes.now))) (λ f. tuple_at bytes.now ≡ Err f) }

    // and the fault is that of the first field from the left that can't be read.
    ensures fault { IfErr result (λ f. HasTupleFault bytes.now f) }
{
    let mut reader = Reader::new(bytes);
    columns(&mut reader)?;
    let len = reader.offset();
    let (spelled, _) = bytes.split_at(len);
    Ok((TupleRef::of_bytes(spelled), len))
}

/// The tuple at the front of these bytes, with memory of its own, and how many of them it takes. It
/// asks for no memory before all of the tuple has been read.
pub fn decode(alloc: Global, bytes: &[u8]) -> Result<(Tuple, usize), TupleFault>
    // The bytes begin with the encoding of the tuple, which ends there.
    ensures found { IfOk result (λ x. IsWireTuple x.0
        × (bytes.now ≡ tuple_spelling x.0 ++ drop x.1 bytes.now)
        × (x.1 ≡ length (tuple_spelling x.0))) }

    // A tuple that is encoded there is read, unless memory runs out.
    ensures only { (t : List Cell) (more : List ℕ) → IsWireTuple t
        → bytes.now ≡ tuple_spelling t ++ more
        → MatchResult result (λ x. (x.0 ≡ t) × (x.1 ≡ length (tuple_spelling t)))
        (λ f. f ≡ TupleFault.Memory) }

    // The fault is that of the first field from the left that can't be read.
    ensures fault { IfErr result (λ f. f ≢ TupleFault.Memory → HasTupleFault bytes.now f) }

    // Memory is asked for only where the bytes begin with the encoding of a tuple.
    ensures memory { IfErr result (λ f. f ≡ TupleFault.Memory → BeginsWithTuple bytes.now) }

    // The same in one: the result is the definition's.
    ensures exact { MatchResult result (λ x. tuple_at bytes.now
        ≡ Ok (x.0, (x.1, drop x.1 bytes.now))) (λ f. Fails f (tuple_at bytes.now)) }
{
    let (borrowed, len) = decode_ref(bytes)?;
    Ok((borrowed.to_tuple(alloc)?, len))
}
