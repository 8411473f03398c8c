//! Cells and tuples.
//!
//! ```text
//! let (tuple, len) = decode_ref(bytes)?;             // borrowed; the tuple takes `len` bytes
//! for cell in tuple.cells() {
//!     match cell {
//!         CellRef::Text(text) => print(text),
//!         CellRef::Null | CellRef::Unchanged => ..,
//!         _ => ..,
//!     }
//! }
//! encode(&tuple, &mut out)?;                         // the same `len` bytes
//! ```
#![tactic(auto)]

mod ascii;
mod borrowed;
mod bytes;
mod cell;
mod decoding;
mod encoding;
mod fault;
mod laws;
mod limits;
mod reader;
mod seq;
mod spelled;
mod text;

pub use borrowed::{CellRef, Cells, TupleRef};
pub use bytes::Bytes;
pub use cell::{Cell, Tuple};
pub use decoding::{decode, decode_ref};
pub use encoding::encode;
pub use fault::TupleFault;
pub use laws::{tuple_faults_are_the_first, tuples_have_one_spelling};
pub use limits::{MAX_COLUMNS, MAX_INT32};
pub use seq::Seq;
pub use text::Text;
