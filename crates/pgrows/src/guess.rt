//! Guesses of rowids. Rows that came in the order of a number have rowids at one distance from it,
//! as those of a copied table with a serial key. Nothing rests on a guess: the row tells its key.

use std::alloc::{AllocError, Global};

/// For how many relations distances are kept.
const PLACES: usize = 64;

/// How far the rowid that was found last for a relation lies from the number in which the row's
/// identity ends, and whether the one before lay as far.
#[derive(Clone, Copy)]
struct Distance {
    oid: u32,
    length: u64,
    is_repeated: bool,
}

const UNKNOWN: Distance = Distance {
    oid: 0,
    length: 0,
    is_repeated: false,
};

/// What was learned from the rowids that were found.
#[derive(Drop)]
pub(crate) struct Guesses {
    alloc: Global,
    distances: Vec<Distance>,
}

/// The number that the last digits of an identity are, as far as it fits.
fn number_at_end(ident: &[u8]) -> u64 {
    let mut number = 0_u64;
    let mut unit = 1_u64;
    for byte in ident.iter().rev() {
        if !byte.is_ascii_digit() {
            return number;
        }
        number = number.wrapping_add(unit.wrapping_mul(u64::from(byte & 15)));
        unit = unit.wrapping_mul(10);
    }
    number
}

fn place_of(oid: u32) -> usize {
    oid as usize % PLACES
}

impl Guesses {
    /// Nothing yet. It takes no memory.
    pub(crate) fn new(alloc: Global) -> Guesses {
        Guesses {
            alloc,
            distances: Vec::new(alloc),
        }
    }

    /// The rowid that the row with this identity has, if the distance stays.
    pub(crate) fn guess(&self, oid: u32, ident: &[u8]) -> Option<i64> {
        let distance = self.distances.get(place_of(oid))?;
        if distance.oid != oid || !distance.is_repeated {
            return None;
        }
        let rowid = number_at_end(ident).wrapping_add(distance.length);
        Some(rowid.cast_signed())
    }

    fn reserve(&mut self) -> Result<(), AllocError> {
        if self.distances.is_empty() {
            self.distances = vec![in self.alloc; UNKNOWN; PLACES]?;
        }
        Ok(())
    }

    /// Learns from a rowid that was found. Where there is no memory for it, nothing is learned.
    pub(crate) fn learn(&mut self, oid: u32, ident: &[u8], id: i64) {
        if self.reserve().is_err() {
            return;
        }
        let length = id.cast_unsigned().wrapping_sub(number_at_end(ident));
        if let Some(known) = self.distances.get_mut(place_of(oid)) {
            *known = Distance {
                oid,
                length,
                is_repeated: known.oid == oid && known.length == length,
            };
        }
    }
}
