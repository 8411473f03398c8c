//! What a store gives its rows to, one by one.

ghost use Rattle.std.specs.Prelude.{◌≡◌, ◌++◌, ◌∷◌, List, [], true, false};

use crate::rows::DumpRow;

/// What accepts the rows of a store as they are read.
pub trait DumpSink {
    ghost use Rattle.pgapply.specs.declared.rows.DumpRow.{DumpRow as Shown};

    // Whether these are the rows that it accepted since the first of these states.
    ghost has_taken: { Self → Self → List Shown → Type 0 };

    // What holds of it where it accepts no more.
    ghost has_stopped: { Self → Type 0 };

    /// Offers the sink the next row, and returns whether it accepted it: where it didn't, no more
    /// are read.
    fn take(&mut self, row: DumpRow) -> bool
        ensures took { result ≡ true → (start : Self) → (rows : List Shown) →
            has_taken start self.old rows → has_taken start self.new (rows ++ row ∷ []) }
        ensures stays { result ≡ false → (start : Self) → (rows : List Shown) →
            has_taken start self.old rows → has_taken start self.new rows }
        ensures stopped { result ≡ false → has_stopped self.new };
}
