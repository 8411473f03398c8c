//! What holds of COPY text whatever program reads it. The functions do nothing: their contracts are
//! the laws.

ghost use Rattle.std.specs.Prelude.{◌≡◌, [], ℕ, List};
ghost use Rattle.std.specs.List.{AllByRecursion, flat_map};
ghost use Rattle.pgtuple.specs.declared.cell.Cell.{Cell};
ghost use Rattle.pgtuple.specs.Cells.{tuple_spelling};
ghost use Rattle.pgcopy.specs.Reading.{Format, Open, copy_reading};
ghost use Rattle.pgcopy.specs.Copied.{Copied};
ghost use Rattle.pgcopy.specs.Calls.{Call, Leads, end_of};
ghost use Rattle.pgcopy.specs.Sent.{sent, IsSentRow};

/// What a server sends for rows is read as these rows, and nothing is left of it.
pub fn sent_rows_are_read()
    ensures { (format : Format) (rows : List (List Cell)) → AllByRecursion (IsSentRow format) rows
        → copy_reading format (sent rows) ≡ record { rows = rows; end = Open [] } }
{}

/// Over any calls of a reader since it was made, the buffer has the rows of the bytes taken, and
/// the reader stands where they end: in a line, behind the end-of-data marker, or at the first line
/// that is no row.
pub fn rows_are_those_of_the_bytes()
    ensures rows { (format : Format) (calls : List Call) (taken buffer : List ℕ) (state : Copied)
        → Leads format calls taken buffer state
        → buffer ≡ flat_map tuple_spelling (copy_reading format taken).rows }
    ensures end { (format : Format) (calls : List Call) (taken buffer : List ℕ) (state : Copied)
        → Leads format calls taken buffer state
        → (copy_reading format taken).end ≡ end_of state }
{}

/// However the bytes are cut into pieces, the rows are the same, and so is the end.
pub fn cuts_change_nothing()
    ensures { (format : Format) (calls others : List Call) (taken buffer filled : List ℕ)
        (state other : Copied) → Leads format calls taken buffer state
        → Leads format others taken filled other
        → (buffer ≡ filled) × (end_of state ≡ end_of other) }
{}
