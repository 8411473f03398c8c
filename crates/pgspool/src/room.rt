//! Room that a cut leaves unused, and that is given back.
ghost use Rattle.std.specs.Prelude.{◌≡◌};

use crate::first_place::FirstPlace;
use indexmap::IndexMap;

/// Room for so many bytes, items or subtransactions is kept, however few there are.
const SMALL_ROOM: usize = 64;

/// Gives back room once three quarters of it are unused, so that no more is moved than was cut
/// away. Where there is no memory to move to, the room stays.
pub(crate) fn give_back_spare<T>(items: &mut Vec<T>)
    ensures { items.new.items ≡ items.old.items }
{
    let (len, room) = (items.len(), items.capacity());
    if room > SMALL_ROOM && len < room / 4 {
        items.shrink_to(2 * len + 1);
    }
}

/// Gives back room of the noted first items, once three quarters of it are unused.
pub(crate) fn give_back_spare_places(firsts: &mut IndexMap<u32, FirstPlace>)
    ensures { firsts.new.entries ≡ firsts.old.entries }
{
    let (len, room) = (firsts.len(), firsts.capacity());
    if room > SMALL_ROOM && len < room / 4 {
        firsts.shrink_to(2 * len + 1);
    }
}
