//! What a dump gives its rows to.

ghost use Rattle.std.specs.Prelude.{◌≡◌, ◌++◌, ◌∷◌, List, [], true, false};

use sqlite_value::row::Row;

/// What accepts rows as they are read.
pub trait RowSink {
    ghost use Rattle.sqlite.specs.Order.{Row as Shown};

    // Whether these are the rows that it accepted since the first of these states.
    ghost has_taken: { Self → Self → List Shown → Type 0 };

    // Why it accepts no more, where this row came next.
    ghost has_left: { Self → Shown → Type 0 };

    /// Offers the sink the next row, with its relation's OID, namespace and name, its bytes, and
    /// how often it is stored. It returns whether it accepted it: where it didn't, no more are
    /// read.
    fn take(&mut self, row: &Row) -> bool
        ensures took { result ≡ true → (start : Self) → (rows : List Shown) →
            has_taken start self.old rows → has_taken start self.new (rows ++ row.now ∷ []) }
        ensures stays { result ≡ false → (start : Self) → (rows : List Shown) →
            has_taken start self.old rows → has_taken start self.new rows }
        ensures left { result ≡ false → has_left self.new row.now };
}
