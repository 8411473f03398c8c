//! CRC-32, as zlib and gzip have it: RFC 1952, section 8.
//!
//! ```text
//! let mut crc = Crc32::new();
//! crc.update(b"1234");
//! crc.update(b"56789");
//! crc.value()                              // 0xCBF4_3926
//! ```
#![tactic(auto)]

mod crc;
mod laws;
mod tables;

pub use crc::Crc32;
pub use laws::{
    bursts_are_found, changes_are_found, crc_is_the_remainder, cuts_change_nothing,
    pieces_are_joined,
};
