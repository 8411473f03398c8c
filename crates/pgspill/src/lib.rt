//! Bytes that leave memory: the strands of open transactions, which go on in the blocks of a file.
//!
//! A strand is a list of bytes that grows at its end and is cut there. Its last part is in memory.
//! What comes before is in blocks of a file, which all strands share, each under the digest of its
//! bytes. Nothing is synced, since nothing of it has to outlast a crash:
//!
//! ```text
//! let mut blocks = Blocks::new(alloc, disk);
//! let mut strand = Strand::new(alloc, 20);
//! strand.append(bytes)?;                    // in memory
//! strand.spill(&mut blocks)?;               // all of it goes into the file
//! strand.cut(&mut blocks, 7);               // its first seven bytes are left, and nothing is read
//! strand.read(&mut blocks, &mut out)?;      // they are read and tested
//! strand.cut(&mut blocks, 0);               // its blocks are free for others
//! blocks.clear();                           // at a disconnection: all are free
//! ```
//!
//! A block of which another byte is read back is a fault, as is one that can't be read: what is
//! returned is what was written, unless a digest collides. PostgreSQL documentation, Streaming of
//! Large Transactions for Logical Decoding.
#![tactic(auto)]

mod blocks;
mod fault;
mod piece;
mod strand;

pub use blocks::{BLOCK_LEN, Blocks};
pub use fault::SpillFault;
pub use piece::{Owner, Piece};
pub use strand::Strand;
