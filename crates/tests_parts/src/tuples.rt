use pgtuple::{Cell, CellRef, Tuple, TupleFault, decode, encode};
use std::alloc::Global;
use std::process::Abort;

const ROW: &[u8] = &[0, 2, b't', 0, 0, 0, 1, b'1', b't', 0, 0, 0, 1, b'a'];

/// Whether these are the bytes `before` and then the others.
fn is_after_before(out: &[u8], bytes: &[u8]) -> bool {
    out.strip_prefix(b"before".as_slice()) == Some(bytes)
}

/// Whether a borrowed cell is copied as this one, which is cloned as it is.
fn is_cell_copied(alloc: Global, borrowed: &CellRef<'_>, cell: &Cell) -> Result<bool, TupleFault> {
    let copied = borrowed.to_cell(alloc)? == *cell;
    let cloned = cell.clone()? == *cell;
    Ok(copied && cloned)
}

/// The tuple is written as the row, after other bytes. Where memory runs out that is the error, and
/// the buffer stays.
fn is_written(rt: &impl Abort, alloc: Global, tuple: &Tuple) -> Result<(), TupleFault> {
    let mut out = b"before".to_vec(alloc)?;
    let written = encode(&tuple.borrowed(), &mut out);
    let is_right = match written {
        Ok(()) => is_after_before(&out, ROW),
        Err(fault) => fault == TupleFault::Memory && out.as_slice() == b"before".as_slice(),
    };
    assert!(rt; is_right, "{written:?}");
    written
}

/// Each cell is copied from the borrowed one.
fn are_cells_copied(rt: &impl Abort, alloc: Global, tuple: &Tuple) -> Result<(), TupleFault> {
    for (k, cell) in tuple.as_slice().iter().enumerate() {
        let borrowed = tuple.borrowed().get(k).expect(rt, "a cell");
        assert!(rt; is_cell_copied(alloc, &borrowed, cell)?);
    }
    Ok(())
}

/// Reads and writes the row, up to the first error.
fn reads_and_writes(rt: &impl Abort, alloc: Global) -> Result<(), TupleFault> {
    let (tuple, len) = decode(alloc, ROW)?;
    assert!(rt; len == ROW.len());
    is_written(rt, alloc, &tuple)?;
    are_cells_copied(rt, alloc, &tuple)
}

#[test]
fn refused_memory_is_the_only_error(rt: HostRuntime) {
    let result = reads_and_writes(&rt, rt.alloc());
    assert!(rt; matches!(result, Ok(()) | Err(TupleFault::Memory)));
}
