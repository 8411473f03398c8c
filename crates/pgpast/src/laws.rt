//! What holds of records. The function does nothing: its contract is the law.

ghost use Rattle.std.specs.Prelude.{◌≡◌};
ghost use Rattle.pgpast.specs.declared.record.Record.{Record};
ghost use Rattle.pgpast.specs.Records.{IsFit, encoded};

/// Records that have the same bytes are the same: with `Record::of_bytes`, what is written is read.
pub fn records_are_told_apart()
    ensures { (r s : Record) → IsFit r → IsFit s → encoded r ≡ encoded s → r ≡ s }
{}
