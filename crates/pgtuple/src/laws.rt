//! What the encoding and the reading of tuples have to do with each other.

ghost use Rattle.pgtuple.specs.Laws.{SpelledTuplesAreRead, ReadTuplesAreSpelled};
ghost use Rattle.pgtuple.specs.Laws.{NoSpellingBeginsAnother, FaultsAreTheFirst};

/// What is encoded is read again, whatever follows it; what is read was encoded so and is within
/// the limits; and no encoding begins another one.
///
/// PostgreSQL documentation, Logical Replication Message Formats, TupleData.
pub fn tuples_have_one_spelling()
    ensures read { SpelledTuplesAreRead }
    ensures spelled { ReadTuplesAreSpelled }
    ensures apart { NoSpellingBeginsAnother }
{}

/// What can't be read has exactly the fault of the first field from the left that can't be read.
///
/// PostgreSQL documentation, Logical Replication Message Formats, TupleData.
pub fn tuple_faults_are_the_first()
    ensures { FaultsAreTheFirst }
{}
