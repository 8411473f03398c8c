//! Items as the bytes that are stored of them.

ghost use Rattle.std.specs.Prelude.{◌≡◌, ◌<◌, ◌^◌, length, None, IfErr, OnOk};
ghost use Rattle.pglogical.specs.Spelling.{IsSpellable, item_spelling};
ghost use Rattle.pgspool.specs.Labels.{cost};
ghost use Rattle.pgfilespools.specs.Faults.{IsOfWriting};
ghost use Rattle.pgfilespools.specs.Stored.{stored_item, IsStorable};

use pglogical::{ItemRef, encode_item};
use pgspool::SpoolFault;

/// What an item costs beside its encoding: the bytes of its subxid and of its length.
pub(crate) const OVERHEAD: u64 = 8;

// Shows that an item which is stored so can be read again. It does nothing else.
fn can_be_read(item: &ItemRef<'_>, spelled: &[u8], subxid: u32)
    requires spelled { spelled.now ≡ item_spelling None item.now }
    requires size { length spelled.now < 2 ^ 32 }
    requires spellable { IsSpellable item.now }
    ensures { IsStorable (subxid, item.now) }
{
    item.fits_wire();
}

/// Writes the bytes that are stored of an item under its subxid, in place of those that are there.
/// The item costs so many bytes.
///
/// # Errors
///
/// `NoRoom` where its encoding has four gigabytes or more, and `Memory`.
pub(crate) fn write_item(
    out: &mut Vec<u8>,
    subxid: u32,
    item: &ItemRef<'_>,
    bytes: u64,
) -> Result<(), SpoolFault>
    requires spellable { IsSpellable item.now }
    requires counted { bytes ≡ cost item.now }
    ensures bytes { OnOk result (out.new.items ≡ stored_item (subxid, item.now)) }
    ensures storable { OnOk result (IsStorable (subxid, item.now)) }
    ensures fault { IfErr result IsOfWriting }
{
    let Ok(size) = u32::try_from(bytes - OVERHEAD) else {
        return Err(SpoolFault::NoRoom);
    };
    out.clear();
    out.extend_from_slice(&subxid.to_be_bytes())?;
    out.extend_from_slice(&size.to_be_bytes())?;
    let Ok(()) = encode_item(item, out) else {
        return Err(SpoolFault::Memory);
    };
    can_be_read(item, &out[OVERHEAD as usize..], subxid);
    Ok(())
}
